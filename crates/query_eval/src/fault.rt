//! Why there is no answer.

ghost use Rattle.std.specs.Prelude.{◌≡◌};
ghost use Rattle.query_eval.specs.Found.{of_group, of_join, widened};
ghost use Rattle.query_eval.specs.declared.fault.Stop.TheVariants.{Memory as NoMemory};

use group_rows::GroupFault;
use join_rows::JoinFault;
use scalar_eval::EvalFault;
use std::alloc::{AllocError, AllocFailed};
use value_types::Memory;

/// The error where a result is outside its type.
const OVERFLOW: i32 = 8115;

/// The error where a pair is wanted and nothing is left of the budget.
const PAIRS_SPENT: i32 = 49003;

/// Why there is no answer, in two words.
#[derive(Clone, Copy)]
pub(crate) enum Stop {
    /// The error of this number.
    Number(i32),
    /// Memory was wanting.
    Memory,
}

impl From<Memory> for Stop {
    ghost from_gives = { λ _ stop. stop ≡ NoMemory };

    fn from(_e: Memory) -> Stop {
        Stop::Memory
    }
}

impl From<AllocError> for Stop {
    ghost from_gives = { λ _ stop. stop ≡ NoMemory };

    fn from(_e: AllocError) -> Stop {
        Stop::Memory
    }
}

impl<T: Drop> From<AllocFailed<T>> for Stop {
    ghost from_gives = { λ _ stop. stop ≡ NoMemory };

    fn from(_e: AllocFailed<T>) -> Stop {
        Stop::Memory
    }
}

impl From<GroupFault> for Stop {
    ghost from_gives = { λ fault stop. stop ≡ of_group fault };

    fn from(fault: GroupFault) -> Stop {
        match fault {
            GroupFault::Overflow => Stop::Number(OVERFLOW),
            GroupFault::Memory => Stop::Memory,
        }
    }
}

impl From<JoinFault<Stop>> for Stop {
    ghost from_gives = { λ fault stop. stop ≡ of_join fault };

    fn from(fault: JoinFault<Stop>) -> Stop {
        match fault {
            JoinFault::Test(stop) => stop,
            JoinFault::Spent => Stop::Number(PAIRS_SPENT),
            JoinFault::Memory => Stop::Memory,
        }
    }
}

/// The fault that a caller sees.
pub(crate) fn widened(stop: Stop) -> EvalFault
    ensures { result ≡ widened stop }
{
    match stop {
        Stop::Number(number) => EvalFault::Number(number),
        Stop::Memory => EvalFault::Memory,
    }
}
