//! What is made of a statement.

use bound_tree::Bound;

/// What a statement is bound to, and whether something in it is outside a limit, which is refused
/// in the end, where nothing else is.
#[derive(Drop)]
pub struct Made {
    /// What it is bound to.
    pub bound: Bound,
    /// Whether something is outside a limit.
    pub beyond: bool,
}
