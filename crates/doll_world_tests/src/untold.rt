//! A shelf that doesn't tell its entries.

ghost use Rattle.std.specs.Prelude.{None};

use doll_entry::{Ask, Fetched, Fresh};
use doll_key::{KeyText, Versions};
use doll_shelf::{MemShelf, Shelf, ShelfFault};
use std::alloc::Global;

/// A shelf in memory that tells nothing of its entries. So a fragment may be written to it of which nobody shows that it is sound.
#[derive(Drop)]
pub struct Untold {
    pub shelf: MemShelf,
}

impl Shelf for Untold {
    ghost settings = { λ s. s.shelf.settings };

    ghost entries = { λ _. None };

    ghost writes = { λ s. s.shelf.writes };

    ghost faults = { λ _. 0 };

    fn fetch(&mut self, alloc: Global, key: &KeyText, versions: &Versions, now: u64) -> Fetched {
        self.shelf.fetch(alloc, key, versions, now)
    }

    fn read_multi(
        &mut self,
        alloc: Global,
        asks: &[Ask],
        now: u64,
    ) -> Result<Vec<Fetched>, ShelfFault> {
        self.shelf.read_multi(alloc, asks, now)
    }

    fn write(&mut self, alloc: Global, fresh: Fresh, now: u64) -> Result<(), ShelfFault> {
        self.shelf.write(alloc, fresh, now)
    }

    fn expire_batch(&mut self, now: u64) -> u32 {
        self.shelf.expire_batch(now)
    }

    fn due(&self) -> bool {
        self.shelf.due()
    }
}
