//! Why a payload is no request.

use thiserror::Error;

/// What is wrong with the first field that is refused.
#[derive(Clone, Copy, Debug, PartialEq, Eq)]
pub enum TransactionKind {
    /// The headers have fewer than four bytes, or more than the payload.
    Headers,
    /// The payload ends within the field, or a name within a unit.
    Cut,
    /// The request has a number that is not known.
    Request,
    /// The level is none.
    Level,
}

/// Why no text is given.
#[derive(Clone, Copy, Debug, PartialEq, Eq, Error)]
pub enum TransactionFault {
    /// The first field that is refused.
    #[error("the field at byte {at} of the request is refused")]
    Bad {
        /// Its offset in the payload.
        at: u32,
        /// Why it is refused.
        kind: TransactionKind,
    },
    /// Memory was wanting.
    #[error("memory was wanting")]
    Memory,
}

/// A field that is refused.
#[derive(Clone, Copy)]
pub(crate) struct Refusal {
    /// How many bytes of the payload are left where it begins.
    pub(crate) left: usize,
    /// Why it is refused.
    pub(crate) kind: TransactionKind,
}
