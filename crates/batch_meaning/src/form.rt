//! What a text is read as: statements, or why there are none.

use sqlite_items::Items;
use tsql_tree::{Definition, Statement};
use value_types::Units;

/// What a text is read as.
#[derive(Drop)]
pub enum ReadText {
    /// Statements.
    Statements(Items<Statement>),
    /// CREATE PROCEDURE or CREATE TRIGGER: its line, what it defines, and its text.
    Defines(i32, Definition, Units),
    /// A text that is refused: nothing of it runs.
    Refused {
        /// The line of its error, from 1.
        line: i32,
        /// The number of its error.
        code: u16,
        /// What is shown of the text's place.
        near: Units,
    },
}
