//! Changes of what stands in a slot.

ghost use Rattle.std.specs.Prelude.{◌≡◌, OnOk, OnErr};

use doll_text::Memory;
use std::alloc::Global;

/// A change of what stands in a slot.
pub trait Edit<T>: Drop {
    ghost use Rattle.std.specs.Prelude.{Option};

    /// What the slot holds after the change, of what it held.
    ghost gives: { Self → Option T → Option T };

    /// Makes the change. A refusal changes nothing.
    fn make(self, alloc: Global, slot: &mut Option<T>) -> Result<(), Memory>
        ensures ok { OnOk result (slot.new ≡ gives self slot.old) }
        ensures err { OnErr result (slot.new ≡ slot.old) };
}

/// Puts a value into a slot, in the place of what was there.
#[derive(Drop)]
pub struct Put<T> {
    pub value: T,
}

impl<T: Drop> Edit<T> for Put<T> {
    ghost use Rattle.std.specs.Prelude.{Some};

    ghost gives = { λ put _. Some put.value };

    fn make(self, _alloc: Global, slot: &mut Option<T>) -> Result<(), Memory> {
        *slot = Some(self.value);
        Ok(())
    }
}

/// Takes away what stands in a slot.
#[derive(Drop)]
pub struct Removal;

impl<T: Drop> Edit<T> for Removal {
    ghost use Rattle.std.specs.Prelude.{None};

    ghost gives = { λ _ _. None };

    fn make(self, _alloc: Global, slot: &mut Option<T>) -> Result<(), Memory> {
        *slot = None;
        Ok(())
    }
}
