//! What is expected of a text.

use tsql_grammar::{Class, Mark, Rule};

/// A symbol of a production.
#[derive(Clone, Copy)]
pub enum Symbol {
    /// A lexeme of a class.
    Lexeme(Class),
    /// A text of a rule.
    Rule(Rule),
    /// A note that takes no lexeme.
    Mark(Mark),
}
