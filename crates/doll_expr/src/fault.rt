//! Want of memory as the fault of an expression.

ghost use Rattle.std.specs.Prelude.{◌≡◌};
ghost use Rattle.doll_expr.specs.declared.expr.ExprFault.TheVariants as fault;

use crate::expr::ExprFault;
use doll_text::Memory;
use std::alloc::{AllocError, AllocFailed};

impl From<Memory> for ExprFault {
    ghost from_gives = { λ _ e. e ≡ fault.Memory };

    fn from(_memory: Memory) -> ExprFault {
        ExprFault::Memory
    }
}

impl From<AllocError> for ExprFault {
    ghost from_gives = { λ _ e. e ≡ fault.Memory };

    fn from(_error: AllocError) -> ExprFault {
        ExprFault::Memory
    }
}

impl<T: Drop> From<AllocFailed<T>> for ExprFault {
    ghost from_gives = { λ _ e. e ≡ fault.Memory };

    fn from(_error: AllocFailed<T>) -> ExprFault {
        ExprFault::Memory
    }
}
