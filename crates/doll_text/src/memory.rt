//! Want of memory, the one answer that no cause explains.

use std::alloc::{AllocError, AllocFailed};

/// No memory was found. It may stand in place of any other answer of a call that allocates.
#[derive(Clone, Copy, PartialEq, Eq)]
pub struct Memory;

impl From<AllocError> for Memory {
    fn from(_error: AllocError) -> Memory {
        Memory
    }
}

impl<T: Drop> From<AllocFailed<T>> for Memory {
    fn from(_error: AllocFailed<T>) -> Memory {
        Memory
    }
}
