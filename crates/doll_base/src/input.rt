//! Why an input was not read.

ghost use Rattle.std.specs.Prelude.{◌≡◌};
ghost use Rattle.doll_base.specs.declared.input.InputFault.TheVariants.{Failed, Memory};

use crate::source::ReadFault;
use std::alloc::AllocError;

/// Why an input was not read.
#[derive(Clone, Copy, PartialEq, Eq)]
pub enum InputFault {
    /// The source failed.
    Failed,
    /// More bytes are left than allowed.
    TooLong,
    /// No memory was found.
    Memory,
}

impl From<ReadFault> for InputFault {
    ghost from_gives = { λ _ e. e ≡ Failed };

    fn from(_fault: ReadFault) -> InputFault {
        InputFault::Failed
    }
}

impl From<AllocError> for InputFault {
    ghost from_gives = { λ _ e. e ≡ Memory };

    fn from(_error: AllocError) -> InputFault {
        InputFault::Memory
    }
}
