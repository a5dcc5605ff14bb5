//! A history, the table that it leaves, and the keeper behind it.

ghost use Rattle.std.specs.Prelude.{◌≡◌, ◌≤◌, length, Some, IfOk};
ghost use Rattle.std.specs.List.{AllByRecursion};
ghost use Rattle.doll_journal.specs.Storable.{IsStorable};
ghost use Rattle.doll_table.specs.Fits.{Fits};
ghost use Rattle.doll_records.specs.Histories.{IsHistory, IsSpelled, MomentsTellPlaces, table_at, table_of, moment_at};

use crate::limits::MOST_COMMITS;
use doll_journal::Commit;
use doll_keep::Keeper;
use doll_schema::Schema;
use doll_table::Table;
use doll_text::{Copied, Memory, Shared};
use std::alloc::Global;
use std::marker::Model;

/// A table with several owners. A copy is one owner more; no row is copied.
pub type SharedTable = Shared<Table>;

/// The table after the first commits of a history.
#[derive(Drop)]
pub struct Snapshot {
    pub table: SharedTable,
    /// How many commits these are.
    pub place: u64,
    /// The moment of the last of these commits, 0 where there is none.
    pub moment: u64,
}

/// A history under a schema, which a keeper keeps.
#[derive(Drop)]
pub struct Records<K: Keeper> {
    pub(crate) schema: Schema,
    pub(crate) history: Vec<Commit>,
    pub(crate) table: SharedTable,
    pub(crate) moment: u64,
    pub(crate) keeper: K,
}

impl<K: Keeper> Model for Records<K> {
    ghost use Rattle.std.specs.Prelude.{◌≡◌};
    ghost use Rattle.doll_records.specs.Histories.{Recorded, Holds, IsSpelled};

    ghost Value = { Recorded K };

    ghost view = { λ r. record { schema = r.schema; history = r.history.items; keeper = r.keeper } };

    ghost invariant = { λ r. Holds r.schema r.history.items r.table r.moment
        × IsSpelled (K.kept r.keeper) r.history.items };
}

impl<K: Keeper> Records<K> {
    /// The commits, the first of them first.
    pub fn history(&self) -> &[Commit]
        ensures commits { result.now ≡ self.now.history }
        ensures is_history { IsHistory self.now.schema self.now.history }
        ensures storable { AllByRecursion IsStorable self.now.history }
        ensures short { length self.now.history ≤ MOST_COMMITS }
        ensures spelled { IsSpelled (K.kept self.now.keeper) self.now.history }
    {
        self.history.as_slice()
    }

    /// The models of the records.
    pub fn schema(&self) -> &Schema
        ensures { result.now ≡ self.now.schema }
    {
        &self.schema
    }

    /// The table after all commits so far. No row is copied.
    pub fn snapshot(&self, alloc: Global) -> Result<Snapshot, Memory>
        ensures table { IfOk result (λ snapshot.
            table_at self.now.schema self.now.history snapshot.place ≡ Some snapshot.table) }
        ensures whole { IfOk result (λ snapshot.
            snapshot.table ≡ table_of self.now.schema self.now.history) }
        ensures place { IfOk result (λ snapshot. snapshot.place ≡ length self.now.history) }
        ensures moment { IfOk result (λ snapshot.
            snapshot.moment ≡ moment_at self.now.history snapshot.place) }
        ensures fits { IfOk result (λ snapshot. Fits self.now.schema snapshot.table) }
    {
        let table = self.table.copy(alloc)?;
        Ok(Snapshot {
            table,
            place: self.history.len() as u64,
            moment: self.moment,
        })
    }

    /// Hands the keeper back.
    pub fn close(self) -> K
        ensures keeper { result ≡ self.keeper }
        ensures spelled { IsSpelled (K.kept result) self.history }
    {
        let Records { keeper, .. } = self;
        keeper
    }
}

/// A moment of a history tells the place of its commit: the commits with moments up to it are the first ones to that
/// place. So it tells the table after it too.
pub fn moments_tell_places()
    ensures { MomentsTellPlaces }
{}
