//! What ends a statement, as its error.

ghost use Rattle.std.specs.Prelude.{◌≡◌, Err, Ok};
ghost use Rattle.batch_meaning.specs.Failures.{naming, plain};
ghost use Rattle.batch_meaning.specs.Asking.{number_of};
ghost use Rattle.session_state.specs.Parts.{IsNamed, IsUnbound, IsUnplanned};

use crate::numbers::{DEADLOCK, LOCK_TIMEOUT, NO_MEMORY, RANGE_FULL};
use batch_meaning::Failure;
use dml_exec::Refusal;
use scalar_eval::EvalFault;
use std::alloc::Global;
use typed_nodes::BindFault;
use value_types::Units;

/// Memory was wanting.
pub fn no_memory() -> Failure
    ensures { result ≡ plain 701 }
{
    Failure::plain(NO_MEMORY)
}

/// Why a dialog went no further.
pub fn stopped_by(refusal: Refusal) -> Failure
    ensures { result ≡ plain (number_of refusal) }
{
    match refusal {
        Refusal::Victim => Failure::plain(DEADLOCK),
        Refusal::TimedOut => Failure::plain(LOCK_TIMEOUT),
        Refusal::Limit => Failure::plain(RANGE_FULL),
        Refusal::Memory => Failure::plain(NO_MEMORY),
    }
}

/// An error that names this, if there is memory for it.
pub fn naming(alloc: Global, number: u16, name: &Units) -> Failure
    ensures { IsNamed number name.now result }
{
    match name.copy(alloc) {
        Ok(name) => Failure::naming(number, name),
        Err(_) => Failure::plain(NO_MEMORY),
    }
}

/// Why a statement is not bound.
pub fn unbound_by(fault: BindFault) -> Failure
    ensures { IsUnbound fault result }
{
    match fault {
        BindFault::Number(number, name) => Failure {
            number,
            name: Some(name),
        },
        BindFault::Memory => Failure::plain(NO_MEMORY),
    }
}

/// Why something is not evaluated.
pub fn unplanned_by(fault: EvalFault) -> Failure
    ensures { IsUnplanned fault result }
{
    match fault {
        EvalFault::Number(number) => Failure { number, name: None },
        EvalFault::Named { number, name } => Failure {
            number,
            name: Some(name),
        },
        EvalFault::Memory => Failure::plain(NO_MEMORY),
    }
}
