//! The items of a select and what is bound behind them.

use crate::named::NamedItems;
use crate::progress::Progress;
use bound_tree::BoundOrder;
use sqlite_items::Items;

/// The items, ORDER BY, and what is gathered in the end.
#[derive(Drop)]
pub struct BackClauses {
    /// The items.
    pub items: NamedItems,
    /// ORDER BY.
    pub order: Items<BoundOrder>,
    /// What is gathered, with the inner queries of all clauses.
    pub done: Progress,
}
