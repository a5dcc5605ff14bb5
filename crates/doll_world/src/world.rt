//! Worlds.

ghost use Rattle.std.specs.Prelude.{◌≡◌, ◌+◌, ◌≤◌, ◌∷◌, [], ◌++◌, true, length, Some, IfOk, IfSome, OnOk, OnErr, IsErrOf};
ghost use Rattle.std.specs.List.{AllByRecursion};
ghost use Rattle.doll_base.specs.Faults.{HasCause, KeepsCount, Rose};
ghost use Rattle.doll_journal.specs.Spelling.{spelling};
ghost use Rattle.doll_journal.specs.Storable.{AreStorable, IsStorable};
ghost use Rattle.doll_table.specs.Fits.{Fits};
ghost use Rattle.doll_keep.specs.Kept.{Added};
ghost use Rattle.doll_records.specs.Commitments.{asked, GivesCommitted, IsUnrefused, TableCarriesMoment, CalledOnce};
ghost use Rattle.doll_records.specs.Histories.{IsSpelled, moment_at, table_at, table_of};
ghost use Rattle.doll_records.specs.declared.limits.TheConstants.{MOST_COMMITS};
ghost use Rattle.doll_records.specs.declared.fault.RecordFault.TheVariants.{Kept};
ghost use Rattle.doll_shelf.specs.Batches as batch;
ghost use Rattle.doll_shelf.specs.Calls.{BatchAtMost, WhereTold};
ghost use Rattle.doll_shelf.specs.Fetches as fetches;
ghost use Rattle.doll_shelf.specs.declared.shelf.ShelfFault.TheVariants.{Failed};
ghost use Rattle.doll_sound.specs.Names.{HasNames};
ghost use Rattle.doll_sound.specs.Sites.{HasDistinctPlurals};
ghost use Rattle.doll_world.specs.Worlds.{AreSoundFor, HitIsShown, HitsAreShown, IsSoundFor, IsWorld, WhereTheyAreTold};

use doll_entry::{Ask, Fetched, Fresh};
use doll_journal::{Changes, Commit};
use doll_keep::Keeper;
use doll_lint::checked::Checked;
use doll_records::{Committed, RecordFault, Records, Snapshot};
use doll_shelf::{Shelf, ShelfFault};
use doll_text::{Memory, Shared};
use std::alloc::Global;
use std::marker::Model;

/// One history of commits, a shelf of fragments, and the checked set whose pages they are for. Where the shelf tells its
/// entries, each is sound for the history: it is what a block of the set showed, with no cache, over the table up to the
/// commit that it names.
#[derive(Drop)]
pub struct World<K: Keeper, H: Shelf> {
    records: Records<K>,
    shelf: H,
    checked: Shared<Checked>,
}

impl<K: Keeper, H: Shelf> Model for World<K, H> {
    ghost use Rattle.std.specs.Coded.{codes};
    ghost use Rattle.doll_erb.specs.contracts.node.Node as node;
    ghost use Rattle.doll_world.specs.Worlds.{IsWorld, WorldParts};

    ghost Value = { WorldParts K H };

    ghost coded = { Prim.hlevel (codes, node.the_row.coded) };

    ghost view = { λ w. record { records = w.records; shelf = w.shelf; checked = w.checked } };

    ghost invariant = { λ w. IsWorld w.checked w.records (H.entries w.shelf) };
}

impl<K: Keeper, H: Shelf> World<K, H> {
    /// A world of these records and this shelf, for the pages of this set. Takes no memory.
    pub fn open(records: Records<K>, shelf: H, checked: Shared<Checked>) -> World<K, H>
        requires schema { records.schema ≡ checked.schema }
        requires plurals { HasDistinctPlurals checked.schema }
        requires names { HasNames checked.set checked.schema }
        requires sound { IfSome (H.entries shelf) (AreSoundFor checked records.history) }
        ensures records { result.records ≡ records }
        ensures shelf { result.shelf ≡ shelf }
        ensures checked { result.checked ≡ checked }
    {
        // What these types are known to be is kept from here on: a history, and a set that was read and checked.
        let _history = records.history();
        let _templates = checked.get().typed().set().templates();
        World {
            records,
            shelf,
            checked,
        }
    }

    /// The commits, the first of them first. Takes no memory.
    pub fn history(&self) -> &[Commit]
        ensures commits { result.now ≡ self.now.records.history }
        ensures storable { AllByRecursion IsStorable self.now.records.history }
        ensures short { length self.now.records.history ≤ MOST_COMMITS }
        ensures spelled { IsSpelled (K.kept self.now.records.keeper) self.now.records.history }
        // Among the rest: each entry is sound for the history.
        ensures world { IsWorld self.now.checked self.now.records (H.entries self.now.shelf) }
    {
        self.records.history()
    }

    /// The set whose pages the entries are for.
    pub fn checked(&self) -> &Shared<Checked>
        ensures value { result.now ≡ self.now.checked }
        ensures world { IsWorld self.now.checked self.now.records (H.entries self.now.shelf) }
    {
        &self.checked
    }

    /// The table after all commits so far. No row is copied.
    pub fn snapshot(&self, alloc: Global) -> Result<Snapshot, Memory>
        ensures table { IfOk result (λ snapshot.
            table_at self.now.records.schema self.now.records.history snapshot.place
            ≡ Some snapshot.table) }
        ensures whole { IfOk result (λ snapshot.
            snapshot.table ≡ table_of self.now.records.schema self.now.records.history) }
        ensures place { IfOk result (λ snapshot.
            snapshot.place ≡ length self.now.records.history) }
        ensures moment { IfOk result (λ snapshot.
            snapshot.moment ≡ moment_at self.now.records.history snapshot.place) }
        ensures fits { IfOk result (λ snapshot.
            Fits self.now.records.schema snapshot.table) }
    {
        self.records.snapshot(alloc)
    }

    /// Records a commit that is asked for at a time, in microseconds, as the records do.
    pub fn commit(
        &mut self,
        alloc: Global,
        author: u32,
        serial: u64,
        changes: Changes,
        now: u64,
    ) -> Result<Committed, RecordFault>
        requires { AreStorable changes }
        ensures exact { GivesCommitted self.old.records
            (asked self.old.records.history author serial changes now) result }
        ensures last { IsErrOf result Kept → IsUnrefused self.old.records
            (asked self.old.records.history author serial changes now) }
        ensures place { IfOk result (λ c. c.place ≡ length self.new.records.history) }
        ensures history { OnOk result (self.new.records.history ≡ self.old.records.history
            ++ asked self.old.records.history author serial changes now ∷ []) }
        ensures added { OnOk result (Added
            (K.kept self.old.records.keeper) (K.kept self.new.records.keeper)
            (spelling (asked self.old.records.history author serial changes now))) }
        ensures moments { IfOk result (λ c.
            TableCarriesMoment self.old.records self.new.records c.moment) }
        ensures schema { self.new.records.schema ≡ self.old.records.schema }
        ensures same { OnErr result (self.new.records.history ≡ self.old.records.history) }
        ensures kept { OnErr result
            (K.kept self.new.records.keeper ≡ K.kept self.old.records.keeper) }
        ensures cause { HasCause Kept
            (K.faults self.old.records.keeper) (K.faults self.new.records.keeper) result }
        ensures count { KeepsCount
            (K.faults self.old.records.keeper) (K.faults self.new.records.keeper) }
        ensures called { CalledOnce K.called
            (spelling (asked self.old.records.history author serial changes now))
            self.old.records.keeper self.new.records.keeper result }
        ensures shelf { self.new.shelf ≡ self.old.shelf }
        ensures checked { self.new.checked ≡ self.old.checked }
    {
        let committed = self.records.commit(alloc, author, serial, changes, now);
        // The commits are a history again.
        let _history = self.records.history();
        committed
    }

    /// Asks the shelf for a fragment at a time, in microseconds.
    pub fn read(&mut self, alloc: Global, ask: &Ask, now: u64) -> Fetched
        // What is found is what any page is shown that asks so, whatever prefix of the history it reads.
        ensures shown { WhereTheyAreTold (H.entries self.old.shelf)
            (HitIsShown self.old.checked self.old.records.history ask.now result) }
        ensures found { WhereTold (λ old new. fetches.Fetches
            (fetches.fetched ask.now.key ask.now.versions now
            (H.settings self.old.shelf).race_ttl old)
            result old new) (H.entries self.old.shelf) (H.entries self.new.shelf) }
        ensures cause { fetches.is_failed result ≡ true
            → Rose (H.faults self.old.shelf) (H.faults self.new.shelf) }
        ensures count { KeepsCount (H.faults self.old.shelf) (H.faults self.new.shelf) }
        ensures writes { H.writes self.new.shelf ≡ H.writes self.old.shelf }
        ensures settings { H.settings self.new.shelf ≡ H.settings self.old.shelf }
        ensures records { self.new.records ≡ self.old.records }
        ensures checked { self.new.checked ≡ self.old.checked }
    {
        let found = self.shelf.fetch(alloc, &ask.key, &ask.versions, now);
        found
    }

    /// Asks the shelf for several fragments, one after another, at a time in microseconds.
    pub fn read_many(
        &mut self,
        alloc: Global,
        asks: &[Ask],
        now: u64,
    ) -> Result<Vec<Fetched>, ShelfFault>
        ensures shown { IfOk result (λ found. WhereTheyAreTold (H.entries self.old.shelf)
            (HitsAreShown self.old.checked self.old.records.history asks.now found.items)) }
        ensures found { IfOk result (λ found. WhereTold
            (fetches.ReadsAll asks.now now found.items)
            (H.entries self.old.shelf) (H.entries self.new.shelf)) }
        ensures same { OnErr result
            (H.entries self.new.shelf ≡ H.entries self.old.shelf) }
        ensures causes { IfOk result (λ found. fetches.any_failed found.items ≡ true
            → Rose (H.faults self.old.shelf) (H.faults self.new.shelf)) }
        ensures cause { HasCause Failed
            (H.faults self.old.shelf) (H.faults self.new.shelf) result }
        ensures count { KeepsCount (H.faults self.old.shelf) (H.faults self.new.shelf) }
        ensures writes { H.writes self.new.shelf ≡ H.writes self.old.shelf }
        ensures settings { H.settings self.new.shelf ≡ H.settings self.old.shelf }
        ensures records { self.new.records ≡ self.old.records }
        ensures checked { self.new.checked ≡ self.old.checked }
    {
        self.shelf.read_multi(alloc, asks, now)
    }

    /// Keeps a fragment that is sound for the history, at a time in microseconds, as the shelf does.
    pub fn write(&mut self, alloc: Global, fresh: Fresh, now: u64) -> Result<(), ShelfFault>
        requires sound { WhereTheyAreTold (H.entries self.old.shelf)
            (IsSoundFor self.old.checked self.old.records.history fresh) }
        ensures written { OnOk result (WhereTold (λ old new. new ≡ batch.after_write
            (H.settings self.old.shelf) (H.writes self.old.shelf) fresh now old)
            (H.entries self.old.shelf) (H.entries self.new.shelf)) }
        ensures writes { OnOk result (H.writes self.new.shelf ≡ batch.ready_writes
            (H.settings self.old.shelf) (H.writes self.old.shelf) + 1) }
        ensures refused { OnErr result (BatchAtMost (H.settings self.old.shelf) now
            (H.writes self.old.shelf) (H.writes self.new.shelf)
            (H.entries self.old.shelf) (H.entries self.new.shelf)) }
        ensures cause { HasCause Failed
            (H.faults self.old.shelf) (H.faults self.new.shelf) result }
        ensures count { KeepsCount (H.faults self.old.shelf) (H.faults self.new.shelf) }
        ensures settings { H.settings self.new.shelf ≡ H.settings self.old.shelf }
        ensures records { self.new.records ≡ self.old.records }
        ensures checked { self.new.checked ≡ self.old.checked }
    {
        self.shelf.write(alloc, fresh, now)
    }

    /// Removes a batch of entries from the front of the shelf, where they are too many, too large or too old at a time in
    /// microseconds, and says how many went.
    pub fn expire(&mut self, now: u64) -> u32
        ensures removed { WhereTold (λ old new. result
            ≡ batch.removed_count (H.settings self.old.shelf) now old)
            (H.entries self.old.shelf) (H.entries self.new.shelf) }
        ensures left { WhereTold (λ old new. new
            ≡ batch.after_batch (H.settings self.old.shelf) now old)
            (H.entries self.old.shelf) (H.entries self.new.shelf) }
        ensures writes { H.writes self.new.shelf ≡ 0 }
        ensures count { KeepsCount (H.faults self.old.shelf) (H.faults self.new.shelf) }
        ensures settings { H.settings self.new.shelf ≡ H.settings self.old.shelf }
        ensures records { self.new.records ≡ self.old.records }
        ensures checked { self.new.checked ≡ self.old.checked }
    {
        self.shelf.expire_batch(now)
    }

    /// Whether the shelf is to remove a batch.
    pub fn due(&self) -> bool
        ensures { result
            ≡ batch.is_due (H.settings self.now.shelf) (H.writes self.now.shelf) }
    {
        self.shelf.due()
    }
}
