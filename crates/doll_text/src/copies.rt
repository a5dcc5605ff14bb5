//! Copies that can find no memory, and lists of them.

ghost use Rattle.std.specs.Prelude.{◌≡◌, IfOk};

use crate::memory::Memory;
use crate::text::{Bytes, Ids, Name, Text};
use sqlite_items::Items;
use std::alloc::Global;

/// A value of which an equal one can be made.
pub trait Copied: Drop {
    /// An equal value.
    fn copy(&self, alloc: Global) -> Result<Self, Memory>
        ensures { IfOk result (λ copy. copy ≡ self.now) };
}

impl Copied for Text {
    fn copy(&self, alloc: Global) -> Result<Text, Memory> {
        self.copy(alloc)
    }
}

impl Copied for Name {
    fn copy(&self, alloc: Global) -> Result<Name, Memory> {
        self.copy(alloc)
    }
}

impl Copied for Bytes {
    fn copy(&self, alloc: Global) -> Result<Bytes, Memory> {
        self.copy(alloc)
    }
}

impl Copied for Ids {
    fn copy(&self, alloc: Global) -> Result<Ids, Memory> {
        self.copy(alloc)
    }
}

impl<T: Copied> Copied for Items<T> {
    fn copy(&self, alloc: Global) -> Result<Items<T>, Memory> {
        copy_list(alloc, self.as_slice())
    }
}

impl<A: Copied, B: Copied> Copied for (A, B) {
    fn copy(&self, alloc: Global) -> Result<(A, B), Memory> {
        Ok((self.0.copy(alloc)?, self.1.copy(alloc)?))
    }
}

/// An equal list.
pub fn copy_list<T: Copied>(alloc: Global, items: &[T]) -> Result<Items<T>, Memory>
    ensures { IfOk result (λ copy. copy ≡ items.now) }
{
    let mut copy = Items::new(alloc);
    for item in items {
        copy.push(item.copy(alloc)?)?;
    }
    Ok(copy)
}
