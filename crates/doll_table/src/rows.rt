//! What a reader sees of a table: its rows, the children of a record and the living ids.

ghost use Rattle.std.specs.Prelude.{◌≡◌, ◌<◌, length, ℕ, IsSome};
ghost use Rattle.std.specs.Option.{option_copied};
ghost use Rattle.doll_table.specs.Tables.{row_of, children_of, ids_of};
ghost use Rattle.doll_schema.specs.Lookups.{many_of};

use doll_schema::Row;

/// The association of a model to its children, by the numbers of both.
#[derive(Clone, Copy, PartialEq, Eq)]
pub struct Assoc {
    /// The parents' model.
    pub model: u16,
    /// The place of the association among that model's.
    pub has_many: u16,
}

/// A table to look at. Each look counts; the count stays at 2^64 - 1 once it is there.
pub trait Rows {
    ghost use Rattle.std.specs.Prelude.{◌^◌, ◌+◌, ◌-◌};
    ghost use Rattle.std.specs.Borrow.{sem};
    ghost use Rattle.std.specs.Io.BufRead.{Rests};
    ghost use Rattle.doll_table.specs.Tables.{TableMap};
    ghost use Rattle.doll_table.specs.Looks.{Looked};

    ghost table: { Self → TableMap };

    ghost looks: { Self → ℕ };

    /// The row of a model under an id, none exactly where no such row lives.
    fn row(&mut self, model: u16, id: u32) -> Option<&Row>
        requires { model < length (table self.old).schema.models }
        ensures row { option_copied result ≡ row_of (table self.old) model id }
        ensures* after { sem 𝓛 (Rests Self.row self.entry
            (λ new. Looked (table self.old) (looks self.old) (table new) (looks new))) };

    /// The ids of a record's children, ascending.
    fn children(&mut self, assoc: Assoc, parent: u32) -> &[u32]
        requires { IsSome (many_of (table self.old).schema assoc.model assoc.has_many) }
        ensures ids { result.now ≡ children_of (table self.old) assoc.model assoc.has_many parent }
        ensures* after { sem 𝓛 (Rests Self.row self.entry
            (λ new. Looked (table self.old) (looks self.old) (table new) (looks new))) };

    /// The living ids of a model, ascending.
    fn all(&mut self, model: u16) -> &[u32]
        requires { model < length (table self.old).schema.models }
        ensures ids { result.now ≡ ids_of (table self.old) model }
        ensures* after { sem 𝓛 (Rests Self.row self.entry
            (λ new. Looked (table self.old) (looks self.old) (table new) (looks new))) };
}
