//! The order of values, and of rows by the order of keys.

ghost use Rattle.std.specs.Prelude.{◌≡◌};
ghost use Rattle.value_types.specs.Order as spec;
ghost use Rattle.group_rows.specs.Equals as equals;

use std::cmp::Ordering;
use value_types::{Row, Value, compare};

/// Whether no column tells two rows apart.
pub(crate) fn same_row(a: &Row, b: &Row) -> bool
    ensures { result ≡ equals.same_row a.now b.now }
{
    row_order(a.as_slice(), b.as_slice()).is_eq()
}

/// The order of two values in a key: NULL is lowest and equal to NULL, and kinds go by their rank.
pub(crate) fn value_order(a: &Value, b: &Value) -> Ordering
    ensures { result ≡ spec.value_order a.now b.now }
{
    if let (Value::Whole(x), Value::Whole(y)) = (a, b) {
        return x.cmp(y);
    }
    let (a_rank, b_rank) = (kind_rank(a), kind_rank(b));
    if a_rank != b_rank {
        return a_rank.cmp(&b_rank);
    }
    match compare(a, b) {
        Some(order) => order,
        None => Ordering::Equal,
    }
}

/// The order of two rows as keys: value by value, and a proper prefix first.
#[inline(always)]
pub(crate) fn row_order(a: &[Value], b: &[Value]) -> Ordering
    ensures { result ≡ spec.key_cmp a.now b.now }
{
    for (x, y) in a.iter().zip(b) {
        let order = value_order(x, y);
        if order.is_ne() {
            return order;
        }
    }
    a.len().cmp(&b.len())
}

/// The place of a value's kind among the kinds.
fn kind_rank(value: &Value) -> u8
    ensures { result ≡ spec.kind_rank value.now }
{
    match value {
        Value::Null => 0,
        Value::Whole(_) => 1,
        Value::Bit(_) => 2,
        Value::Text(_) => 3,
    }
}
