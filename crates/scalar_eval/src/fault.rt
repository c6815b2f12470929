//! Why there is no value.

ghost use Rattle.std.specs.Prelude.{◌≡◌};
ghost use Rattle.scalar_eval.specs.Answers.{widened};
ghost use Rattle.scalar_eval.specs.declared.fault.Stop.TheVariants.{Memory as StopMemory};

use std::alloc::{AllocError, AllocFailed};
use thiserror::Error;
use value_types::{Memory, Units};

/// Why an expression has no value.
#[derive(Debug, Drop, Error)]
pub enum EvalFault {
    /// The error of this number.
    #[error("error {0}")]
    Number(i32),
    /// The error of this number, which names something: 515 and 547 alone, never of an evaluation.
    #[error("error {number}")]
    Named {
        /// The number.
        number: i32,
        /// The name in its text.
        name: Units,
    },
    /// Memory was wanting.
    #[error("memory was wanting")]
    Memory,
}

/// The same within an evaluation, in two words.
#[derive(Clone, Copy)]
pub(crate) enum Stop {
    /// The error of this number.
    Number(i32),
    /// Memory was wanting.
    Memory,
}

impl From<Memory> for Stop {
    ghost from_gives = { λ _ stop. stop ≡ StopMemory };

    fn from(_e: Memory) -> Stop {
        Stop::Memory
    }
}

impl From<AllocError> for Stop {
    ghost from_gives = { λ _ stop. stop ≡ StopMemory };

    fn from(_e: AllocError) -> Stop {
        Stop::Memory
    }
}

impl<T: Drop> From<AllocFailed<T>> for Stop {
    ghost from_gives = { λ _ stop. stop ≡ StopMemory };

    fn from(_e: AllocFailed<T>) -> Stop {
        Stop::Memory
    }
}

/// The fault that a caller sees.
pub(crate) fn widened(stop: Stop) -> EvalFault
    ensures { result ≡ widened stop }
{
    match stop {
        Stop::Number(number) => EvalFault::Number(number),
        Stop::Memory => EvalFault::Memory,
    }
}
