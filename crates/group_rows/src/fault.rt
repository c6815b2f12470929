//! Why an aggregate has no value.

ghost use Rattle.std.specs.Prelude.{◌≡◌};
ghost use Rattle.group_rows.specs.declared.fault.GroupFault.TheVariants.{Memory as NoMemory};

use thiserror::Error;
use value_types::Memory;

/// Why an aggregate has no value.
#[derive(Clone, Copy, Debug, Error)]
pub enum GroupFault {
    /// The exact total, or the count, is outside the type of the result.
    #[error("a total is outside its type")]
    Overflow,
    /// Memory was wanting.
    #[error("memory was wanting")]
    Memory,
}

impl From<Memory> for GroupFault {
    ghost from_gives = { λ _ fault. fault ≡ NoMemory };

    fn from(_e: Memory) -> GroupFault {
        GroupFault::Memory
    }
}
