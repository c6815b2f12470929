//! Why bytes are no tokens.

ghost use Rattle.std.specs.Prelude.{◌≡◌};
ghost use Rattle.tds_tokens.specs.declared.fault.ReadFault.TheVariants.{Memory as NoMemory};
ghost use Rattle.tds_tokens.specs.declared.fault.TokenFault.TheVariants.{Memory as NoMemoryLeft};

use std::alloc::{AllocError, AllocFailed};
use thiserror::Error;

/// Why the bytes could not be read as tokens.
#[derive(Clone, Copy, Debug, Error)]
pub enum TokenFault {
    /// No token begins at this byte, behind the tokens before it.
    #[error("no token begins at byte {at}")]
    Bad {
        /// How many bytes stand before it.
        at: u64,
    },
    /// Memory was wanting.
    #[error("memory was wanting")]
    Memory,
}

impl<T: Drop> From<AllocFailed<T>> for TokenFault {
    ghost from_gives = { λ _ fault. fault ≡ NoMemoryLeft };

    fn from(_e: AllocFailed<T>) -> TokenFault {
        TokenFault::Memory
    }
}

/// Why a part of a token could not be read.
#[derive(Clone, Copy, Debug, PartialEq, Eq)]
pub(crate) enum ReadFault {
    /// The bytes do not begin with it.
    Absent,
    /// Memory was wanting.
    Memory,
}

impl From<AllocError> for ReadFault {
    ghost from_gives = { λ _ fault. fault ≡ NoMemory };

    fn from(_e: AllocError) -> ReadFault {
        ReadFault::Memory
    }
}

impl<T: Drop> From<AllocFailed<T>> for ReadFault {
    ghost from_gives = { λ _ fault. fault ≡ NoMemory };

    fn from(_e: AllocFailed<T>) -> ReadFault {
        ReadFault::Memory
    }
}
