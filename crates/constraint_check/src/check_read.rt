//! What is read to check a constraint.

use sqlite_items::Items;
use step_model::KeyRange;
use value_types::{Row, Units};

/// What is asked of the rows that are read.
#[derive(Clone, Copy, Debug, PartialEq, Eq)]
pub enum Check {
    /// UNIQUE: there are not two of them.
    Unique,
    /// FOREIGN KEY of a row that is written: there is one, the parent.
    Child,
    /// FOREIGN KEYs that refer to a row that is gone: there is none.
    Parent,
}

/// Rows that are read behind a write, and what is asked of those that agree with given values.
#[derive(Drop)]
pub struct CheckRead {
    /// What is asked.
    pub check: Check,
    /// Which rows are read.
    pub range: KeyRange,
    /// The places in a row whose values are compared.
    pub columns: Items<u16>,
    /// The values, in the order of the places.
    pub wanted: Row,
    /// The constraint's name.
    pub name: Units,
}
