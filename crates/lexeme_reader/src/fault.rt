//! Why a reader gave no tree.

ghost use Rattle.std.specs.Prelude.{◌≡◌};
ghost use Rattle.lexeme_reader.specs.declared.fault.ReadFault.TheVariants.{NoRoom};

use std::alloc::AllocError;
use value_types::Memory;

/// Why a reader gave no tree.
#[derive(Clone, Copy)]
pub enum ReadFault {
    /// Memory was wanting, or the text nests deeper than the reader may follow.
    NoRoom,
    /// The text does not go on as the rule wants.
    Refused,
}

impl From<Memory> for ReadFault {
    ghost from_gives = { λ _ fault. fault ≡ NoRoom };

    fn from(_memory: Memory) -> Self {
        ReadFault::NoRoom
    }
}

impl From<AllocError> for ReadFault {
    ghost from_gives = { λ _ fault. fault ≡ NoRoom };

    fn from(_error: AllocError) -> Self {
        ReadFault::NoRoom
    }
}

/// No room, where another value is found than what was to be read. It is dropped here, by one call, and
/// not case by case where it is found.
pub fn no_room<T: Drop>(_found: T) -> ReadFault
    ensures { result ≡ NoRoom }
{
    ReadFault::NoRoom
}
