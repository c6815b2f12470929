//! Why a payload is no call.

ghost use Rattle.std.specs.Prelude.{◌≡◌, length};
ghost use Rattle.rpc_requests.specs.declared.fault.ReadFault.TheVariants.{Memory as NoMemory};

use std::alloc::{AllocError, AllocFailed};
use thiserror::Error;

/// What is wrong with the first field that is refused.
#[derive(Clone, Copy, Debug, PartialEq, Eq)]
pub enum RpcKind {
    /// The headers have fewer than four bytes, or more than the payload.
    Headers,
    /// The payload ends within the field.
    Cut,
    /// The procedure has a number that is not known.
    Procedure,
    /// The type is none that is read, or its size is none of its type.
    Kind,
    /// The value is none of its type.
    Value,
    /// What begins is no parameter: its name would have more than 128 units.
    Trailing,
    /// The text has more than 4,000 units. It is told of calls as drivers spell them alone.
    Long,
}

/// Why a payload is no call.
#[derive(Clone, Copy, Debug, PartialEq, Eq, Error)]
pub enum RpcFault {
    /// The first field that is refused.
    #[error("the field at byte {at} of the call is refused")]
    Bad {
        /// Its offset in the payload.
        at: u32,
        /// Why it is refused.
        kind: RpcKind,
    },
    /// Memory was wanting.
    #[error("memory was wanting")]
    Memory,
}

/// A field that is refused.
#[derive(Clone, Copy)]
pub(crate) struct Refusal {
    /// How many bytes of the payload are left where it begins.
    pub(crate) left: usize,
    /// Why it is refused.
    pub(crate) kind: RpcKind,
}

/// Why a part of a call could not be read.
#[derive(Clone, Copy)]
pub(crate) enum ReadFault {
    /// A field is refused.
    Refused(Refusal),
    /// Memory was wanting.
    Memory,
}

impl From<AllocError> for ReadFault {
    ghost from_gives = { λ _ fault. fault ≡ NoMemory };

    fn from(_e: AllocError) -> ReadFault {
        ReadFault::Memory
    }
}

impl<T: Drop> From<AllocFailed<T>> for ReadFault {
    ghost from_gives = { λ _ fault. fault ≡ NoMemory };

    fn from(_e: AllocFailed<T>) -> ReadFault {
        ReadFault::Memory
    }
}

/// The field that begins with these bytes is refused.
pub(crate) fn refused(kind: RpcKind, bytes: &[u8]) -> ReadFault
    ensures { result ≡ ReadFault.Refused (record { left = length bytes.now; kind = kind }) }
{
    ReadFault::Refused(Refusal {
        left: bytes.len(),
        kind,
    })
}
