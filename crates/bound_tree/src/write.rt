//! Writes, and what a statement is bound to.

use crate::{BoundExpr, BoundQuery, BoundTest, InnerQuery};
use sqlite_items::Items;
use value_types::TableName;

/// A column that an UPDATE sets.
#[derive(Drop)]
pub struct BoundSet {
    /// The column's place.
    pub place: u16,
    /// Its new value.
    pub expr: BoundExpr,
}

/// The rows that an INSERT adds.
#[derive(Drop)]
pub enum BoundRows {
    /// The values of each row, and the inner queries in them.
    Values(Items<Items<BoundExpr>>, Items<InnerQuery>),
    /// What a query answers.
    Query(BoundQuery),
}

/// A change of a table's rows.
#[derive(Drop)]
pub enum BoundWrite {
    /// INSERT.
    Insert {
        /// The table.
        table: TableName,
        /// The places of the columns that are given, in the order of the text. Each row has a value for
        /// each of them, in this order; the other columns are NULL.
        columns: Items<u16>,
        /// The rows.
        rows: BoundRows,
    },
    /// UPDATE.
    Update {
        /// The table.
        table: TableName,
        /// What is set, in the order of the text.
        sets: Items<BoundSet>,
        /// WHERE.
        filter: Option<BoundTest>,
        /// The inner queries, in the order of the text.
        inner: Items<InnerQuery>,
    },
    /// DELETE.
    Delete {
        /// The table.
        table: TableName,
        /// WHERE.
        filter: Option<BoundTest>,
        /// The inner queries, in the order of the text.
        inner: Items<InnerQuery>,
    },
}

/// What a statement is bound to.
#[derive(Drop)]
pub enum Bound {
    /// A query whose answer is sent, or whose one row has the values of the statement's expressions.
    Query(BoundQuery),
    /// A query, and the places of the variables that its items are assigned to.
    Assign(BoundQuery, Items<u16>),
    /// A write.
    Write(BoundWrite),
    /// Any other statement.
    Plain,
}
