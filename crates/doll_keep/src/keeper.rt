//! Keepers.

ghost use Rattle.std.specs.Prelude.{◌≡◌, ℕ, Bool, List, Option, IfOk, OnOk, OnErr};
ghost use Rattle.doll_base.specs.Faults.{KeepsCount, HasCause};
ghost use Rattle.doll_keep.specs.Calls.{Call, Load, Append};
ghost use Rattle.doll_keep.specs.Kept.{Added, GivesItem, has_failed};
ghost use Rattle.doll_keep.specs.declared.keeper.KeepFault.TheVariants.{Failed, Memory};

use std::alloc::{AllocError, Global};

/// Why an item was not added or loaded.
#[derive(Clone, Copy, PartialEq, Eq)]
pub enum KeepFault {
    /// The keeper failed.
    Failed,
    /// No memory was found.
    Memory,
}

impl From<AllocError> for KeepFault {
    ghost from_gives = { λ _ e. e ≡ Memory };

    fn from(_error: AllocError) -> KeepFault {
        KeepFault::Memory
    }
}

/// Keeps a list of items, to which it only adds. A refusal leaves the list as it was.
pub trait Keeper {
    /// The items that are kept, where the keeper tells them.
    ghost kept: { Self → Option (List (List ℕ)) };

    /// How often the keeper has failed.
    ghost faults: { Self → ℕ };

    /// What is told of one call: the keeper before it, which call it was, whether it failed in it, and the keeper after
    /// it.
    ghost called: { Self → Call → Bool → Self → Type 0 };

    /// Adds an item at the end.
    fn append(&mut self, alloc: Global, bytes: &[u8]) -> Result<(), KeepFault>
        ensures added { OnOk result (Added (kept self.old) (kept self.new) bytes.now) }
        ensures same { OnErr result (kept self.new ≡ kept self.old) }
        ensures cause { HasCause Failed (faults self.old) (faults self.new) result }
        ensures count { KeepsCount (faults self.old) (faults self.new) }
        ensures called { called self.old (Append bytes.now) (has_failed result) self.new };

    /// The item with this number from 0, or none exactly past the end.
    fn load(&mut self, alloc: Global, at: u64) -> Result<Option<Vec<u8>>, KeepFault>
        ensures item { IfOk result (λ item. GivesItem (kept self.old) at item) }
        ensures same { kept self.new ≡ kept self.old }
        ensures cause { HasCause Failed (faults self.old) (faults self.new) result }
        ensures count { KeepsCount (faults self.old) (faults self.new) }
        ensures called { called self.old (Load at) (has_failed result) self.new };
}
