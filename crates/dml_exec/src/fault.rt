//! Why there is no plan.

ghost use Rattle.std.specs.Prelude.{◌≡◌};
ghost use Rattle.dml_exec.specs.Found.{widened};
ghost use Rattle.dml_exec.specs.declared.fault.Stop.TheVariants.{Memory as NoMemory};

use scalar_eval::EvalFault;
use std::alloc::{AllocError, AllocFailed};
use value_types::Memory;

/// Why there is no plan, in two words.
#[derive(Clone, Copy, Debug, PartialEq, Eq)]
pub(crate) enum Stop {
    /// The error of this number.
    Number(i32),
    /// Memory was wanting.
    Memory,
}

impl From<Memory> for Stop {
    ghost from_gives = { λ _ stop. stop ≡ NoMemory };

    fn from(_e: Memory) -> Stop {
        Stop::Memory
    }
}

impl From<AllocError> for Stop {
    ghost from_gives = { λ _ stop. stop ≡ NoMemory };

    fn from(_e: AllocError) -> Stop {
        Stop::Memory
    }
}

impl<T: Drop> From<AllocFailed<T>> for Stop {
    ghost from_gives = { λ _ stop. stop ≡ NoMemory };

    fn from(_e: AllocFailed<T>) -> Stop {
        Stop::Memory
    }
}

/// The fault that a caller sees.
pub(crate) fn widened(stop: Stop) -> EvalFault
    ensures { result ≡ widened stop }
{
    match stop {
        Stop::Number(number) => EvalFault::Number(number),
        Stop::Memory => EvalFault::Memory,
    }
}
