//! What becomes of a rule before a lexeme.

/// What became of a rule before a lexeme.
#[derive(Clone, Copy)]
pub enum Step {
    /// No production is chosen.
    Stops,
    /// What the rule comes to is expected in its place.
    Opens,
    /// The lexeme is the first of what the rule comes to, and the rest is expected in its place.
    Takes,
    /// The same, where the lexeme enters what counts as nesting.
    Enters,
    /// The same, where it leaves that.
    Leaves,
}
