//! Shelves.

ghost use Rattle.std.specs.Prelude.{◌≡◌, ◌+◌, ℕ, true, List, Option, IfOk, OnOk, OnErr};
ghost use Rattle.doll_base.specs.Faults.{HasCause, KeepsCount, Rose};
ghost use Rattle.doll_entry.specs.declared.entry.Entry.{Entry};
ghost use Rattle.doll_shelf.specs.Batches as batch;
ghost use Rattle.doll_shelf.specs.Calls.{BatchAtMost, WhereTold};
ghost use Rattle.doll_shelf.specs.Fetches as spec;
ghost use Rattle.doll_shelf.specs.declared.settings.ShelfSettings.{ShelfSettings as Settings};
ghost use Rattle.doll_shelf.specs.declared.shelf.ShelfFault.TheVariants.{Failed, Memory as NoMemory};

use doll_entry::{Ask, Fetched, Fresh};
use doll_key::{KeyText, Versions};
use doll_text::Memory;
use std::alloc::Global;

/// Why a call of a shelf was refused.
#[derive(Clone, Copy, PartialEq, Eq)]
pub enum ShelfFault {
    /// The shelf failed.
    Failed,
    /// No memory was found.
    Memory,
}

impl From<Memory> for ShelfFault {
    ghost from_gives = { λ _ e. e ≡ NoMemory };

    fn from(_error: Memory) -> ShelfFault {
        ShelfFault::Memory
    }
}

/// Keeps entries under distinct keys, in the order in which the keys came. Times are in microseconds, and every one after 2^62
/// counts as 2^62.
pub trait Shelf {
    /// The settings, which never change.
    ghost settings: { Self → Settings };

    /// The entries, where the shelf tells them.
    ghost entries: { Self → Option (List Entry) };

    /// How often was written since the last batch.
    ghost writes: { Self → ℕ };

    /// How often the shelf has failed.
    ghost faults: { Self → ℕ };

    /// Asks for the fragment under a key with these versions.
    fn fetch(&mut self, alloc: Global, key: &KeyText, versions: &Versions, now: u64) -> Fetched
        ensures found { WhereTold (λ old new. spec.Fetches
            (spec.fetched key.now versions.now now (settings self.old).race_ttl old) result old new)
            (entries self.old) (entries self.new) }
        ensures cause { spec.is_failed result ≡ true → Rose (faults self.old) (faults self.new) }
        ensures count { KeepsCount (faults self.old) (faults self.new) }
        ensures writes { writes self.new ≡ writes self.old }
        ensures settings { settings self.new ≡ settings self.old };

    /// Asks for several fragments, one after another, with no time in which an entry that has expired stays.
    fn read_multi(
        &mut self,
        alloc: Global,
        asks: &[Ask],
        now: u64,
    ) -> Result<Vec<Fetched>, ShelfFault>
        ensures found { IfOk result (λ found. WhereTold (spec.ReadsAll asks.now now found.items)
            (entries self.old) (entries self.new)) }
        ensures same { OnErr result (entries self.new ≡ entries self.old) }
        ensures causes { IfOk result (λ found. spec.any_failed found.items ≡ true
            → Rose (faults self.old) (faults self.new)) }
        ensures cause { HasCause Failed (faults self.old) (faults self.new) result }
        ensures count { KeepsCount (faults self.old) (faults self.new) }
        ensures writes { writes self.new ≡ writes self.old }
        ensures settings { settings self.new ≡ settings self.old };

    /// Keeps a fragment: in the place of the entry with its key, else last. Where a batch is full, it is run first. A refusal
    /// leaves all as it was, but that the batch may have run.
    fn write(&mut self, alloc: Global, fresh: Fresh, now: u64) -> Result<(), ShelfFault>
        ensures written { OnOk result (WhereTold (λ old new. new
            ≡ batch.after_write (settings self.old) (writes self.old) fresh now old)
            (entries self.old) (entries self.new)) }
        ensures writes { OnOk result (writes self.new
            ≡ batch.ready_writes (settings self.old) (writes self.old) + 1) }
        ensures refused { OnErr result (BatchAtMost (settings self.old) now
            (writes self.old) (writes self.new) (entries self.old) (entries self.new)) }
        ensures cause { HasCause Failed (faults self.old) (faults self.new) result }
        ensures count { KeepsCount (faults self.old) (faults self.new) }
        ensures settings { settings self.new ≡ settings self.old };

    /// Removes a batch of entries from the front, where they are too many, too large or too old, and says how many went.
    fn expire_batch(&mut self, now: u64) -> u32
        ensures removed { WhereTold (λ old new. result
            ≡ batch.removed_count (settings self.old) now old) (entries self.old) (entries self.new) }
        ensures left { WhereTold (λ old new. new ≡ batch.after_batch (settings self.old) now old)
            (entries self.old) (entries self.new) }
        ensures writes { writes self.new ≡ 0 }
        ensures count { KeepsCount (faults self.old) (faults self.new) }
        ensures settings { settings self.new ≡ settings self.old };

    /// Whether half as much was written since the last batch as a batch has entries.
    fn due(&self) -> bool
        ensures { result ≡ batch.is_due (settings self.now) (writes self.now) };
}
