//! An error that is raised.

use error_table::RaisedBy;
use value_types::Units;

/// An error that is raised, as a client is told it, and as the functions of an error tell it in a CATCH.
#[derive(Drop)]
pub struct Raised {
    /// Its number.
    pub number: i32,
    /// Its class, from 0 to 25.
    pub class: u8,
    /// Its state.
    pub state: u8,
    /// Its text, whole.
    pub text: Units,
    /// The procedure or trigger of its statement; of a batch it is empty.
    pub procedure: Units,
    /// The line of its statement, from 1.
    pub line: i32,
    /// Who raised it.
    pub by: RaisedBy,
}
