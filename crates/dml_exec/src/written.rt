//! What came of the changes of a write.

use crate::refusal::Refusal;
use value_types::Units;

/// What came of the changes of a write.
#[derive(Debug, Drop)]
pub enum Written {
    /// They were made, and checked.
    Done {
        /// The mark in front of them.
        mark: u64,
    },
    /// They break a constraint, and were taken back.
    Refused {
        /// The number of the error.
        number: i32,
        /// The name in its text: the constraint's, or the object's that is there.
        name: Units,
    },
}

/// What came of the changes of a write, with the mark in front of them.
#[derive(Debug, Drop)]
pub struct Attempt {
    /// The mark, if one was set: it is told where the changes were taken back to it, too.
    pub mark: Option<u64>,
    /// What came of them, or why they were asked no further.
    pub came: Result<Written, Refusal>,
}

/// Why changes are taken back.
#[derive(Debug, Drop)]
pub(crate) enum Halt {
    /// They break a constraint.
    Broken {
        /// The number of the error.
        number: i32,
        /// The name in its text.
        name: Units,
    },
    /// They were asked no further.
    Refused(Refusal),
}
