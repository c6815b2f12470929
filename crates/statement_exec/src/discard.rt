//! How what a statement is bound to is dropped.
//!
//! Each function takes one level apart, and hands its parts on: dropped in one place, all ways of all levels would be
//! proved beside one another.

use bound_tree::{Bound, BoundQuery, BoundRows, BoundTest, BoundWrite};

/// Drops what a statement was bound to.
pub(crate) fn discard(of: Bound) {
    match of {
        Bound::Query(query) => discard_query(query),
        Bound::Assign(query, _places) => discard_query(query),
        Bound::Write(write) => discard_write(write),
        Bound::Plain => {}
    }
}

/// Drops a write.
pub(crate) fn discard_write(write: BoundWrite) {
    match write {
        BoundWrite::Insert { rows, .. } => discard_rows(rows),
        BoundWrite::Update { filter, .. } => discard_filter(filter),
        BoundWrite::Delete { filter, .. } => discard_filter(filter),
    }
}

/// Drops the rows of an INSERT.
fn discard_rows(rows: BoundRows) {
    match rows {
        BoundRows::Values(_values, _inner) => {}
        BoundRows::Query(query) => discard_query(query),
    }
}

/// Drops a query.
fn discard_query(query: BoundQuery) {
    let BoundQuery { filter, having, .. } = query;
    discard_filter(filter);
    discard_filter(having);
}

/// Drops what a WHERE or a HAVING tests.
fn discard_filter(_filter: Option<BoundTest>) {}
