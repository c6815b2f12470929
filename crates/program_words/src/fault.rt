//! Why words are no command.

ghost use Rattle.std.specs.Prelude.{◌≡◌};
ghost use Rattle.program_words.specs.declared.fault.WordsFault.TheVariants.{Memory as NoMemory};

use std::alloc::{AllocError, AllocFailed};
use thiserror::Error;
use value_types::Memory;

/// Why a list of words gives no command.
#[derive(Clone, Copy, Debug, Error)]
pub enum WordsFault {
    /// The words are no command.
    #[error("the words are no command")]
    Refused,
    /// Memory was wanting.
    #[error("memory was wanting")]
    Memory,
}

impl From<AllocError> for WordsFault {
    ghost from_gives = { λ _ fault. fault ≡ NoMemory };

    fn from(_e: AllocError) -> WordsFault {
        WordsFault::Memory
    }
}

impl<T: Drop> From<AllocFailed<T>> for WordsFault {
    ghost from_gives = { λ _ fault. fault ≡ NoMemory };

    fn from(_e: AllocFailed<T>) -> WordsFault {
        WordsFault::Memory
    }
}

impl From<Memory> for WordsFault {
    ghost from_gives = { λ _ fault. fault ≡ NoMemory };

    fn from(_e: Memory) -> WordsFault {
        WordsFault::Memory
    }
}
