//! Why a cursor is not found, declared, opened or read.

ghost use Rattle.std.specs.Prelude.{◌≡◌};
ghost use Rattle.session_cursors.specs.Faults as spec;
ghost use Rattle.session_cursors.specs.declared.fault.CursorFault.TheVariants.{Memory as NoMemory};

use std::alloc::AllocFailed;
use thiserror::Error;

/// Why a call on a cursor is refused.
#[derive(Clone, Copy, Debug, Error)]
pub enum CursorFault {
    /// There is no cursor of that name.
    #[error("there is no cursor of that name")]
    NoSuch,
    /// There is one of that name.
    #[error("there is a cursor of that name")]
    Present,
    /// It is open.
    #[error("the cursor is open")]
    AlreadyFilled,
    /// It is not open.
    #[error("the cursor is not open")]
    NotFilled,
    /// Memory was wanting.
    #[error("memory was wanting")]
    Memory,
}

impl<T: Drop> From<AllocFailed<T>> for CursorFault {
    ghost from_gives = { λ _ fault. fault ≡ NoMemory };

    fn from(_e: AllocFailed<T>) -> CursorFault {
        CursorFault::Memory
    }
}

/// The number of the error that a fault is; want of memory has none of its own.
///
/// Transact-SQL reference, "Database engine events and errors".
pub fn number_of(fault: CursorFault) -> Option<i32>
    ensures { result ≡ spec.number_of fault }
{
    match fault {
        CursorFault::NoSuch => Some(16916),
        CursorFault::Present => Some(16915),
        CursorFault::AlreadyFilled => Some(16905),
        CursorFault::NotFilled => Some(16917),
        CursorFault::Memory => None,
    }
}
