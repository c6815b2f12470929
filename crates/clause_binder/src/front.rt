//! The clauses of a select that are bound before its items.

use bound_tree::{BoundExpr, BoundTest};
use sqlite_items::Items;

/// The clauses behind FROM that are bound before the items.
#[derive(Drop)]
pub struct FrontClauses {
    /// WHERE.
    pub filter: Option<BoundTest>,
    /// GROUP BY.
    pub groups: Items<BoundExpr>,
    /// HAVING.
    pub having: Option<BoundTest>,
}
