//! Why a commit is refused.

ghost use Rattle.std.specs.Prelude.{◌≡◌};
ghost use Rattle.doll_commit.specs.declared.fault.ChangeFault.TheVariants as change;
ghost use Rattle.doll_commit.specs.declared.fault.CommitFault.TheVariants as fault;

use doll_text::Memory;
use std::alloc::AllocError;

/// Why a change is refused, or a whole commit. Of several reasons the first of these is told: an unknown model, a missing record, ids that
/// have ended, what is wrong with the values given, one after another, nil where none may be, a record that is held.
#[derive(Clone, Copy, PartialEq, Eq)]
pub enum Why {
    /// No model has the name.
    UnknownModel,
    /// A value's name is neither an attribute's nor a foreign key's.
    UnknownAttribute,
    /// A value isn't of the kind of its attribute, or no whole number for a foreign key.
    WrongKind,
    /// An attribute or a foreign key that may not be nil would be.
    NullRefused,
    /// The record to update, destroy or touch doesn't live.
    MissingRow,
    /// A foreign key names no living record.
    BadParent,
    /// A record that stays names one that would go.
    Restricted,
    /// All ids of the model were given out.
    IdsEnded,
    /// The commit has more than 1,000 changes. It is told with the index 1,000, of the first that is too many, before any
    /// change is looked at.
    TooManyChanges,
}

/// The answer to a change that isn't made.
#[derive(Clone, Copy, PartialEq, Eq)]
pub enum ChangeFault {
    Refused(Why),
    /// No memory was found.
    Memory,
}

/// The answer to a commit that isn't made.
#[derive(Clone, Copy, PartialEq, Eq)]
pub enum CommitFault {
    /// The change with this index, counted from 0, is refused.
    Refused { index: u32, why: Why },
    /// No memory was found.
    Memory,
}

impl From<Memory> for ChangeFault {
    ghost from_gives = { λ _ e. e ≡ change.Memory };

    fn from(_error: Memory) -> ChangeFault {
        ChangeFault::Memory
    }
}

impl From<Memory> for CommitFault {
    ghost from_gives = { λ _ e. e ≡ fault.Memory };

    fn from(_error: Memory) -> CommitFault {
        CommitFault::Memory
    }
}

impl From<AllocError> for CommitFault {
    ghost from_gives = { λ _ e. e ≡ fault.Memory };

    fn from(_error: AllocError) -> CommitFault {
        CommitFault::Memory
    }
}
