//! Why a JSON value is no schema.

ghost use Rattle.std.specs.Prelude.{◌≡◌};
ghost use Rattle.doll_schema.specs.declared.fault.SchemaFault.TheVariants as faults;

use doll_text::Memory;
use std::alloc::{AllocError, AllocFailed};
use thiserror::Error;

/// A part of a model, in the order in which they are read.
#[derive(Clone, Copy, Debug, PartialEq, Eq)]
pub enum Part {
    Whole,
    Name,
    Plural,
    Attributes,
    BelongsTo,
    HasMany,
}

/// Where a schema is wrong.
#[derive(Clone, Copy, Debug, PartialEq, Eq)]
pub struct Place {
    /// The model's number, from 0.
    pub model: u32,
    pub part: Part,
    /// The number in the part's array, from 0; else 0.
    pub item: u32,
}

/// What is wrong with a schema.
#[derive(Clone, Copy, Debug, Drop, PartialEq, Eq, Error)]
pub enum SchemaFault {
    /// The JSON hasn't the form, or a name isn't one.
    #[error("not of the form at {at:?}")]
    BadForm { at: Place },
    /// A limit is exceeded.
    #[error("too many at {at:?}")]
    TooMany { at: Place },
    /// A kind is none of the three.
    #[error("an unknown kind at {at:?}")]
    UnknownKind { at: Place },
    /// A name stands before.
    #[error("a name that stands before at {at:?}")]
    DuplicateName { at: Place },
    /// No model has the name.
    #[error("an unknown model at {at:?}")]
    UnknownModel { at: Place },
    /// The inverse is no free association of the other model to this one.
    #[error("a wrong inverse at {at:?}")]
    BadInverse { at: Place },
    #[error("no memory was found")]
    Memory,
}

impl From<Memory> for SchemaFault {
    ghost from_gives = { λ _ e. e ≡ faults.Memory };

    fn from(_error: Memory) -> SchemaFault {
        SchemaFault::Memory
    }
}

impl From<AllocError> for SchemaFault {
    ghost from_gives = { λ _ e. e ≡ faults.Memory };

    fn from(_error: AllocError) -> SchemaFault {
        SchemaFault::Memory
    }
}

impl<T: Drop> From<AllocFailed<T>> for SchemaFault {
    ghost from_gives = { λ _ e. e ≡ faults.Memory };

    fn from(_error: AllocFailed<T>) -> SchemaFault {
        SchemaFault::Memory
    }
}
