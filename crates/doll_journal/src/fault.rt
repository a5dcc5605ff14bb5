//! Why bytes are no commit.

ghost use Rattle.std.specs.Prelude.{◌≡◌};
ghost use Rattle.doll_journal.specs.declared.fault.JournalFault.TheVariants as faults;

use doll_text::Memory;
use std::alloc::{AllocError, AllocFailed};
use thiserror::Error;

/// What is wrong with the bytes of a commit. `at` counts from the first byte.
#[derive(Clone, Copy, Debug, Drop, PartialEq, Eq, Error)]
pub enum JournalFault {
    /// There are more bytes than a commit may have.
    #[error("more than {limit} bytes")]
    TooLarge { limit: u64 },
    /// The field that begins here isn't whole.
    #[error("not whole at {at}")]
    Truncated { at: u64 },
    /// The tag isn't listed.
    #[error("an unknown tag at {at}")]
    BadTag { at: u64 },
    /// The text whose bytes begin here isn't UTF-8.
    #[error("no text at {at}")]
    BadText { at: u64 },
    /// Here is a byte after the commit.
    #[error("more bytes at {at}")]
    Trailing { at: u64 },
    #[error("no memory was found")]
    Memory,
}

impl From<Memory> for JournalFault {
    ghost from_gives = { λ _ e. e ≡ faults.Memory };

    fn from(_error: Memory) -> JournalFault {
        JournalFault::Memory
    }
}

impl From<AllocError> for JournalFault {
    ghost from_gives = { λ _ e. e ≡ faults.Memory };

    fn from(_error: AllocError) -> JournalFault {
        JournalFault::Memory
    }
}

impl<T: Drop> From<AllocFailed<T>> for JournalFault {
    ghost from_gives = { λ _ e. e ≡ faults.Memory };

    fn from(_error: AllocFailed<T>) -> JournalFault {
        JournalFault::Memory
    }
}
