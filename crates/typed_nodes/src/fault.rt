//! Why a statement is not bound.

ghost use Rattle.std.specs.Prelude.{◌≡◌};
ghost use Rattle.typed_nodes.specs.declared.fault.BindFault.TheVariants.{Memory as NoMemory};

use std::alloc::{AllocError, AllocFailed};
use thiserror::Error;
use value_types::{Memory, Units};

/// Why a statement is not bound.
#[derive(Debug, Drop, Error)]
pub enum BindFault {
    /// It is refused by the error of this number, whose text has this name; empty where it names nothing.
    #[error("error {0}")]
    Number(i32, Units),
    /// Memory was wanting.
    #[error("memory was wanting")]
    Memory,
}

impl From<Memory> for BindFault {
    ghost from_gives = { λ _ fault. fault ≡ NoMemory };

    fn from(_e: Memory) -> BindFault {
        BindFault::Memory
    }
}

impl From<AllocError> for BindFault {
    ghost from_gives = { λ _ fault. fault ≡ NoMemory };

    fn from(_e: AllocError) -> BindFault {
        BindFault::Memory
    }
}

impl<T: Drop> From<AllocFailed<T>> for BindFault {
    ghost from_gives = { λ _ fault. fault ≡ NoMemory };

    fn from(_e: AllocFailed<T>) -> BindFault {
        BindFault::Memory
    }
}
