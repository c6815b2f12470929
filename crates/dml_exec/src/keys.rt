//! The keys of rows.

ghost use Rattle.std.specs.Prelude.{◌≡◌, ◌≤◌, IfOk, Some, filter_map, length};
ghost use Rattle.value_types.specs.Order.{key_limit};
ghost use Rattle.bound_tree.specs.Setting.{value_at};
ghost use Rattle.tsql_tree.specs.Places as scope;
ghost use Rattle.table_rows.specs.Rows as rows;
ghost use Rattle.dml_exec.specs.Planning as spec;

use std::alloc::{AllocError, Global};
use table_rows::place_in;
use tsql_tree::{ColumnTree, TableTree};
use value_types::{KEY_LIMIT, Key, Memory, Row, Units, Value};

/// The places of the columns of a table's key.
pub fn key_places(alloc: Global, shape: &TableTree) -> Result<Vec<u16>, Memory>
    ensures { IfOk result (λ places. places.items ≡ scope.key_places (Some shape.now)) }
{
    match shape.key.as_slice() {
        [] => Ok(Vec::new(alloc)),
        [key, ..] => Ok(places_in(alloc, shape.columns.as_slice(), key.columns.as_slice())?),
    }
}

/// The places of the columns of these names.
pub(crate) fn places_in(
    alloc: Global,
    columns: &[ColumnTree],
    names: &[Units],
) -> Result<Vec<u16>, AllocError>
    ensures { IfOk result (λ places. places.items ≡ filter_map (scope.place_in columns.now) names.now) }
{
    names
        .iter()
        .filter_map(|name| place_in(columns, name))
        .collect(alloc)
}

/// Whether values at these places are a key.
pub fn has_key(places: &[u16]) -> bool
    ensures { result ≡ spec.has_key places.now }
{
    1 <= places.len() && places.len() <= KEY_LIMIT
}

/// The key of a row.
pub(crate) fn key_of(alloc: Global, places: &[u16], row: &Row) -> Result<Key, Memory>
    requires not_empty { 1 ≤ length places.now }
    requires within_limit { length places.now ≤ key_limit }
    ensures { IfOk result (λ key. key ≡ rows.values_at places.now row.now) }
{
    let values = values_at(alloc, places, row)?;
    Ok(Key::new(values))
}

/// The values at places of a row.
pub(crate) fn values_at(alloc: Global, places: &[u16], row: &Row) -> Result<Vec<Value>, Memory>
    ensures values { IfOk result (λ values. values.items ≡ rows.values_at places.now row.now) }
    ensures many { IfOk result (λ values. length values.items ≡ length places.now) }
{
    let mut values = Vec::with_capacity(alloc, places.len())?;
    for place in places {
        values.push(value_at(alloc, row, *place)?)?;
    }
    Ok(values)
}

/// The value at a place of a row. A place that is not there has NULL.
fn value_at(alloc: Global, row: &Row, place: u16) -> Result<Value, Memory>
    ensures { IfOk result (λ value. value ≡ value_at row.now place) }
{
    match row.as_slice().get(usize::from(place)) {
        Some(value) => value.copy(alloc),
        None => Ok(Value::Null),
    }
}
