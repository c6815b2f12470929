//! Why arguments are not taken.

ghost use Rattle.std.specs.Prelude.{◌≡◌};
ghost use Rattle.call_rules.specs.declared.fault.CallFault.TheVariants.{Memory as NoMemory};

use std::alloc::{AllocError, AllocFailed};
use thiserror::Error;
use value_types::Memory;

/// Why the arguments of a call are not taken.
#[derive(Clone, Copy, Debug, Error)]
pub enum CallFault {
    /// The error of this number refuses them: 49012 where they are not those of the procedure, and else that
    /// of a conversion.
    #[error("error {0}")]
    Number(i32),
    /// Memory was wanting.
    #[error("memory was wanting")]
    Memory,
}

impl From<Memory> for CallFault {
    ghost from_gives = { λ _ fault. fault ≡ NoMemory };

    fn from(_e: Memory) -> CallFault {
        CallFault::Memory
    }
}

impl From<AllocError> for CallFault {
    ghost from_gives = { λ _ fault. fault ≡ NoMemory };

    fn from(_e: AllocError) -> CallFault {
        CallFault::Memory
    }
}

impl<T: Drop> From<AllocFailed<T>> for CallFault {
    ghost from_gives = { λ _ fault. fault ≡ NoMemory };

    fn from(_e: AllocFailed<T>) -> CallFault {
        CallFault::Memory
    }
}
