//! A value with several owners.

ghost use Rattle.std.specs.Prelude.{◌≡◌, IfOk};

use crate::copies::Copied;
use crate::memory::Memory;
use std::alloc::Global;
use std::marker::Model;
use std::sync::Arc;

/// A value that several owners may share. A copy is one owner more.
#[derive(Drop)]
pub struct Shared<T> {
    value: Arc<T>,
}

impl<T> Model for Shared<T> {
    ghost use Rattle.std.specs.Arc.{arc_value};

    ghost Value = { T };

    ghost coded = { T.code };

    ghost view = { λ s. arc_value s.value };
}

impl<T: Drop> Shared<T> {
    /// A value with one owner so far.
    pub fn new(alloc: Global, value: T) -> Result<Shared<T>, Memory>
        ensures { IfOk result (λ shared. shared ≡ value) }
    {
        let value = Arc::new(alloc, value)?;
        Ok(Shared { value })
    }

    /// The value.
    pub fn get(&self) -> &T
        ensures { result.now ≡ self.now }
    {
        &self.value
    }
}

impl<T: Drop> Copied for Shared<T> {
    fn copy(&self, _alloc: Global) -> Result<Shared<T>, Memory> {
        let value = Arc::try_clone(&self.value)?;
        Ok(Shared { value })
    }
}
