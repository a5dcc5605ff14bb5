//! A table that is looked at, with a count of the looks.

ghost use Rattle.std.specs.Prelude.{◌≡◌};

use crate::rows::{Assoc, Rows};
use crate::table::Table;
use doll_schema::Row;

/// A view of a table that counts each look at it.
#[derive(Drop)]
pub struct Looking<'a> {
    table: &'a Table,
    looks: u64,
}

impl<'a> Looking<'a> {
    /// A view without looks so far.
    pub fn new(table: &'a Table) -> Looking<'a>
        ensures table { ⟦<Looking<'a> as Rows>⟧.table result ≡ table.now }
        ensures looks { ⟦<Looking<'a> as Rows>⟧.looks result ≡ 0 }
    {
        Looking { table, looks: 0 }
    }

    /// How often the table was looked at.
    pub fn looks(&self) -> u64
        ensures { result ≡ ⟦<Looking<'a> as Rows>⟧.looks self.now }
    {
        self.looks
    }
}

impl<'a> Rows for Looking<'a> {
    ghost table = { λ l. l.table.now };

    ghost looks = { λ l. l.looks };

    fn row(&mut self, model: u16, id: u32) -> Option<&Row> {
        self.looks = self.looks.saturating_add(1);
        self.table.row(model, id)
    }

    fn children(&mut self, assoc: Assoc, parent: u32) -> &[u32] {
        self.looks = self.looks.saturating_add(1);
        self.table.children(assoc, parent)
    }

    fn all(&mut self, model: u16) -> &[u32] {
        self.looks = self.looks.saturating_add(1);
        self.table.all(model)
    }
}
