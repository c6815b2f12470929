//! Rows in the order of their keys.

ghost use Rattle.std.specs.Prelude.{◌≡◌, map, IfOk, OnOk};
ghost use Rattle.std.specs.List.{zip};
ghost use Rattle.value_types.specs.Order.{value_order};
ghost use Rattle.bound_tree.specs.Setting.{value_at};
ghost use Rattle.group_rows.specs.Ordered as spec;

use crate::order::value_order;
use std::alloc::{AllocError, Global};
use std::cmp::Ordering;
use value_types::{Memory, Row, Value};

/// The rows in the order of their keys, the n-th key being the n-th row's. Keys are compared column by
/// column, a column going down where `down` says so; rows whose keys tie stay as they were. A row without
/// a key, and a key without a row, are left out.
pub fn ordered(
    alloc: Global,
    rows: Vec<Row>,
    keys: Vec<Row>,
    down: &[bool],
) -> Result<Vec<Row>, Memory>
    ensures { IfOk result (λ found. found.items ≡ spec.ordered rows.items keys.items down.now) }
{
    let mut pairs = pairs_of(alloc, keys, rows)?;
    sort_by_key(&mut pairs, down)?;
    rows_of(alloc, pairs)
}

/// Each key with the row in its place.
fn pairs_of(alloc: Global, keys: Vec<Row>, rows: Vec<Row>) -> Result<Vec<(Row, Row)>, Memory>
    ensures { IfOk result (λ pairs. pairs.items ≡ zip keys.items rows.items) }
{
    Ok(keys.into_iter().zip(rows).collect(alloc)?)
}

/// The rows without their keys.
fn rows_of(alloc: Global, pairs: Vec<(Row, Row)>) -> Result<Vec<Row>, Memory>
    ensures { IfOk result (λ rows. rows.items ≡ map (λ pair. pair.1) pairs.items) }
{
    Ok(pairs.into_iter().map(|pair| pair.1).collect(alloc)?)
}

/// Puts keys, each with its row, in order.
fn sort_by_key(pairs: &mut Vec<(Row, Row)>, down: &[bool]) -> Result<(), AllocError>
    ensures { OnOk result (pairs.new.items ≡ spec.in_order (spec.by_key down.now) pairs.old.items) }
{
    pairs.sort_by(|a, b| order_by(&a.0, &b.0, down))
}

/// The order of two keys.
fn order_by(a: &Row, b: &Row, downs: &[bool]) -> Ordering
    ensures { result ≡ spec.order_by downs.now a.now b.now }
{
    for (place, down) in downs.iter().enumerate() {
        let order = directed(*down, order_at(a.as_slice(), b.as_slice(), place));
        if order.is_ne() {
            return order;
        }
    }
    Ordering::Equal
}

/// The order of the values at a place of two keys.
fn order_at(a: &[Value], b: &[Value], place: usize) -> Ordering
    ensures { result ≡ value_order (value_at a.now place) (value_at b.now place) }
{
    match (a.get(place), b.get(place)) {
        (Some(x), Some(y)) => value_order(x, y),
        (Some(x), None) => value_order(x, &Value::Null),
        (None, Some(y)) => value_order(&Value::Null, y),
        (None, None) => Ordering::Equal,
    }
}

/// An order, turned round where it goes down.
pub(crate) fn directed(down: bool, order: Ordering) -> Ordering
    ensures { result ≡ spec.directed down order }
{
    if down { order.reverse() } else { order }
}
