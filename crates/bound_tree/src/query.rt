//! Queries.

use crate::{BoundExpr, BoundTest};
use sqlite_items::Items;
use value_types::{SqlType, TableName, Units};

/// How a reference is joined to those before it.
#[derive(Clone, Copy, PartialEq, Eq)]
pub enum JoinKind {
    /// The pairs for which ON is true.
    Inner,
    /// Those, and each row of the left that has no such pair, beside NULLs.
    Left,
    /// All pairs.
    Cross,
}

/// A table that a query reads.
#[derive(Drop)]
pub struct Reference {
    /// The table.
    pub table: TableName,
    /// How many columns it has.
    pub width: u16,
    /// The places of its primary key's columns among its columns, in the key's order.
    pub key: Items<u16>,
    /// How it is joined to those before it.
    pub join: JoinKind,
    /// What ON tests, where it stands.
    pub on: Option<BoundTest>,
}

/// A function over the rows of a class.
#[derive(Clone, Copy)]
pub enum SumKind {
    /// `COUNT(*)`
    CountRows,
    /// `COUNT`
    Count,
    /// `SUM`
    Sum,
    /// `AVG`
    Avg,
    /// `MIN`
    Min,
    /// `MAX`
    Max,
}

/// An aggregate.
#[derive(Drop)]
pub struct Sum {
    /// What it computes.
    pub kind: SumKind,
    /// Whether it takes equal values once.
    pub distinct: bool,
    /// Of what it takes the values; `COUNT(*)` of nothing.
    pub of: Option<BoundExpr>,
    /// The type of its result.
    pub to: SqlType,
}

/// What a query gives for each row, as a column.
#[derive(Drop)]
pub struct Item {
    /// The column's name; empty where it has none.
    pub name: Units,
    /// Its type.
    pub kind: SqlType,
    /// Its values.
    pub expr: BoundExpr,
}

/// Of what the values are that rows are ordered by.
#[derive(Drop)]
pub enum OrderKey {
    /// The item of this place: an alias, or an item's number. With DISTINCT there is no other key.
    Item(u16),
    /// An expression over the rows of the query.
    Expr(BoundExpr),
}

/// What rows are ordered by.
#[derive(Drop)]
pub struct BoundOrder {
    /// The values that are compared.
    pub key: OrderKey,
    /// Whether the greatest comes first.
    pub descending: bool,
}

/// A query.
#[cycle(query)]
#[derive(Drop)]
pub struct BoundQuery {
    /// The tables that it reads, from left to right. A row of the query has their columns in order;
    /// in a grouped query the sums stand behind them.
    pub refs: Items<Reference>,
    /// WHERE.
    pub filter: Option<BoundTest>,
    /// Whether its rows are gathered into classes.
    pub grouped: bool,
    /// GROUP BY.
    pub groups: Items<BoundExpr>,
    /// The aggregates: those of HAVING, then of the items, then of ORDER BY.
    pub sums: Items<Sum>,
    /// HAVING.
    pub having: Option<BoundTest>,
    /// What it gives for each row.
    pub items: Items<Item>,
    /// ORDER BY.
    pub order: Items<BoundOrder>,
    /// Whether equal rows are given once.
    pub distinct: bool,
    /// At most how many rows it gives, where TOP stands.
    pub top: Option<u32>,
    /// The inner queries, in the order of the text.
    pub inner: Items<InnerQuery>,
}

/// An inner query. All are answered before what they stand in is evaluated, in the order of the text.
#[cycle(query)]
#[derive(Drop)]
pub struct InnerQuery {
    /// The query.
    pub query: BoundQuery,
    /// Whether it stands as a value. More than one row is error 512 then, where it is answered, also
    /// if the value is not needed.
    pub single: bool,
}
