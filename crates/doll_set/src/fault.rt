//! Why files are no set of templates.

ghost use Rattle.std.specs.Prelude.{◌≡◌};
ghost use Rattle.doll_set.specs.declared.fault.SetFault.TheVariants.{Memory as NoMemory};

use doll_digest::DigestFault;
use doll_erb::ErbFault;
use doll_text::{Items, Memory, Name, Text};
use std::alloc::{AllocError, AllocFailed};

/// Why files are no set of templates. Of several faults the first in this order is told, of those of one file the first for the
/// first file that has one, each in the order of names.
#[derive(Drop)]
pub enum SetFault {
    /// There are more than 512 files; `count` is how many, or 2^32 − 1 where there are more than that.
    TooMany { count: u32 },
    /// A file's name is no virtual path with the ending `.html.erb`; `index` counts files in ascending order of names from 0.
    BadName { index: u32 },
    /// Two files have this template's name.
    Duplicate { name: Name },
    /// A source has more than 262,144 bytes.
    TooLong { name: Name },
    /// A source is no template.
    BadTemplate { name: Name, fault: ErbFault },
    /// The tag at `at` in the template `name` names a partial that isn't there.
    MissingPartial { name: Name, at: u32 },
    /// The first template that leads back to itself, and the partials by which it does so.
    Cycle { names: Items<Name> },
    /// From this template a chain of more than 16 templates begins, each a dependency of the one before it.
    DepthOver { name: Name },
    /// This template's nodes and what it renders weigh more than 100,000.
    TooWide { name: Name },
    /// Two framed texts have the same hash.
    Clash { old: Text, new: Text },
    /// No memory was found.
    Memory,
}

impl From<Memory> for SetFault {
    ghost from_gives = { λ _ e. e ≡ NoMemory };

    fn from(_error: Memory) -> SetFault {
        SetFault::Memory
    }
}

impl From<AllocError> for SetFault {
    ghost from_gives = { λ _ e. e ≡ NoMemory };

    fn from(_error: AllocError) -> SetFault {
        SetFault::Memory
    }
}

impl<T: Drop> From<AllocFailed<T>> for SetFault {
    ghost from_gives = { λ _ e. e ≡ NoMemory };

    fn from(_error: AllocFailed<T>) -> SetFault {
        SetFault::Memory
    }
}

impl From<DigestFault> for SetFault {
    ghost use Rattle.doll_set.specs.Faults.{set_fault};

    ghost from_gives = { λ fault e. e ≡ set_fault fault };

    fn from(fault: DigestFault) -> SetFault {
        match fault {
            DigestFault::Clash { old, new } => SetFault::Clash { old, new },
            DigestFault::Memory => SetFault::Memory,
        }
    }
}
