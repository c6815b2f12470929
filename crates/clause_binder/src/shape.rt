//! What an expression is, where a clause or a sign goes by that.

/// What an expression is, where a clause or a sign goes by that.
#[derive(Clone, Copy, Debug, PartialEq, Eq)]
pub enum Shape {
    /// A number without a sign.
    Number(i64),
    /// `NULL`
    Null,
    /// The name of a column, without a table's.
    Name,
    /// Anything else, what stands in parentheses too.
    Node,
}
