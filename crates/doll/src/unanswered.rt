//! Why there is no reply.

ghost use Rattle.std.specs.Prelude.{◌≡◌};
ghost use Rattle.doll.specs.declared.unanswered.Unanswered.TheVariants as unanswered;

use doll_text::Memory;
use std::alloc::AllocError;

/// Why there is no reply.
#[derive(Drop)]
pub enum Unanswered {
    /// The source or the folder failed.
    Failed,
    /// No memory was found.
    Memory,
}

impl From<Memory> for Unanswered {
    ghost from_gives = { λ _ e. e ≡ unanswered.Memory };

    fn from(_error: Memory) -> Unanswered {
        Unanswered::Memory
    }
}

impl From<AllocError> for Unanswered {
    ghost from_gives = { λ _ e. e ≡ unanswered.Memory };

    fn from(_error: AllocError) -> Unanswered {
        Unanswered::Memory
    }
}
