//! Why a JSON value isn't the routes of a site.

ghost use Rattle.std.specs.Prelude.{◌≡◌};
ghost use Rattle.doll_route.specs.declared.fault.RouteFault.TheVariants as faults;

use doll_text::Memory;
use std::alloc::{AllocError, AllocFailed};

/// What is wrong with a route, whose number counts from 0. Of several faults of a route the first in this order is told.
#[derive(Clone, Copy, PartialEq, Eq)]
pub enum RouteFault {
    /// The JSON hasn't the form, the template is no virtual path, or a parameter is no name.
    BadForm { at: u32 },
    /// The path isn't one, or `:id` stands without a record or a record without `:id`.
    BadPath { at: u32 },
    /// The site itself answers under the path.
    Reserved { at: u32 },
    /// No model has the name.
    UnknownModel { at: u32 },
    /// An earlier route has the path, or a variable stands twice.
    Duplicate { at: u32 },
    /// The route has more than 8 parameters, or it is the 257th.
    TooMany { at: u32 },
    Memory,
}

impl From<Memory> for RouteFault {
    ghost from_gives = { λ _ e. e ≡ faults.Memory };

    fn from(_error: Memory) -> RouteFault {
        RouteFault::Memory
    }
}

impl From<AllocError> for RouteFault {
    ghost from_gives = { λ _ e. e ≡ faults.Memory };

    fn from(_error: AllocError) -> RouteFault {
        RouteFault::Memory
    }
}

impl<T: Drop> From<AllocFailed<T>> for RouteFault {
    ghost from_gives = { λ _ e. e ≡ faults.Memory };

    fn from(_error: AllocFailed<T>) -> RouteFault {
        RouteFault::Memory
    }
}
