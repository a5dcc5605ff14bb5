//! Why a history isn't opened, and why a commit isn't recorded.

ghost use Rattle.std.specs.Prelude.{◌≡◌};
ghost use Rattle.doll_records.specs.Faults.{open_keep_fault, record_keep_fault, record_commit_fault};
ghost use Rattle.doll_records.specs.declared.fault.OpenFault.TheVariants as opens;
ghost use Rattle.doll_records.specs.declared.fault.RecordFault.TheVariants as records;

use doll_commit::{CommitFault, Why};
use doll_journal::JournalFault;
use doll_keep::KeepFault;
use doll_text::Memory;
use std::alloc::{AllocError, AllocFailed};

/// Why a keeper's items are no history. `index` counts the items from 0.
#[derive(Clone, Copy, PartialEq, Eq)]
pub enum OpenFault {
    /// The keeper failed.
    Kept,
    /// The item isn't the bytes of a commit.
    Journal { index: u64, fault: JournalFault },
    /// The commit's moment is no later than the one before it, or later than 2^63 - 1.
    Moment { index: u64, moment: u64 },
    /// The commit's change with the index `index_in`, counted from 0, is refused.
    Apply { index: u64, index_in: u32, why: Why },
    /// There are more items than a history may have commits.
    TooLong { limit: u64 },
    /// No memory was found.
    Memory,
}

/// Why a commit isn't recorded. Of several reasons the first in the order of the variants is told.
#[derive(Clone, Copy, PartialEq, Eq)]
pub enum RecordFault {
    /// The history has as many commits as it may have.
    HistoryFull { count: u64 },
    /// The last commit has the last moment.
    MomentsEnded { last: u64 },
    /// The change with this index, counted from 0, is refused.
    Refused { index: u32, why: Why },
    /// The keeper failed.
    Kept,
    /// No memory was found.
    Memory,
}

impl From<KeepFault> for OpenFault {
    ghost from_gives = { λ fault e. e ≡ open_keep_fault fault };

    fn from(fault: KeepFault) -> OpenFault {
        match fault {
            KeepFault::Failed => OpenFault::Kept,
            KeepFault::Memory => OpenFault::Memory,
        }
    }
}

impl From<Memory> for OpenFault {
    ghost from_gives = { λ _ e. e ≡ opens.Memory };

    fn from(_error: Memory) -> OpenFault {
        OpenFault::Memory
    }
}

impl<T: Drop> From<AllocFailed<T>> for OpenFault {
    ghost from_gives = { λ _ e. e ≡ opens.Memory };

    fn from(_error: AllocFailed<T>) -> OpenFault {
        OpenFault::Memory
    }
}

impl From<KeepFault> for RecordFault {
    ghost from_gives = { λ fault e. e ≡ record_keep_fault fault };

    fn from(fault: KeepFault) -> RecordFault {
        match fault {
            KeepFault::Failed => RecordFault::Kept,
            KeepFault::Memory => RecordFault::Memory,
        }
    }
}

impl From<CommitFault> for RecordFault {
    ghost from_gives = { λ fault e. e ≡ record_commit_fault fault };

    fn from(fault: CommitFault) -> RecordFault {
        match fault {
            CommitFault::Refused { index, why } => RecordFault::Refused { index, why },
            CommitFault::Memory => RecordFault::Memory,
        }
    }
}

impl From<Memory> for RecordFault {
    ghost from_gives = { λ _ e. e ≡ records.Memory };

    fn from(_error: Memory) -> RecordFault {
        RecordFault::Memory
    }
}

impl From<AllocError> for RecordFault {
    ghost from_gives = { λ _ e. e ≡ records.Memory };

    fn from(_error: AllocError) -> RecordFault {
        RecordFault::Memory
    }
}
