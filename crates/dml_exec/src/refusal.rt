//! Why a statement is asked no further, and what its level is.

/// Why a statement is asked no further.
#[derive(Clone, Copy, Debug, PartialEq, Eq)]
pub enum Refusal {
    /// The session fell as the victim of a deadlock.
    Victim,
    /// A lock of another session stands in the way of one that does not wait.
    TimedOut,
    /// A range has too many keys.
    Limit,
    /// Memory was wanting.
    Memory,
}

/// What a session locks of the tables that it reads.
#[derive(Clone, Copy, Debug, PartialEq, Eq)]
pub enum Level {
    /// READ COMMITTED: nothing that is kept, but for the target of UPDATE and DELETE.
    ReadCommitted,
    /// SERIALIZABLE: the ranges that are read, to the transaction's end.
    Serializable,
}
