//! Rows of tables.

ghost use Rattle.std.specs.Prelude.{◌≡◌, filter_map, option_map, position};
ghost use Rattle.std.specs.Ordering.{eq_by_cmp, is_eq};
ghost use Rattle.value_types.specs.Units.{same_units};
ghost use Rattle.value_types.specs.Order as order;
ghost use Rattle.value_types.specs.Types.{is_in_range};
ghost use Rattle.bound_tree.specs.Setting.{value_at};
ghost use Rattle.tsql_tree.specs.Places as places;
ghost use Rattle.table_rows.specs.Rows as spec;

use crate::parts::index_fits;
use tsql_tree::{ColumnTree, TableTree};
use value_types::{Key, Row, SqlType, Units, Value, compare};

/// Whether a row at a key is one of this part of the table: it has a value for each column, NULL or of the column's
/// type, and the key is the row's own. Part 0 has the table's rows, the others index rows.
pub fn row_fits(row: &Row, key: &Key, shape: &TableTree, part: u16) -> bool
    ensures { result ≡ spec.row_fits shape.now part key.now row.now }
{
    if part == 0 {
        has_columns(shape.columns.as_slice(), row) && has_key(shape, row, key)
    } else {
        index_fits(row, key, shape, part - 1)
    }
}

/// Whether a row has a value for each column, NULL or of the column's type, and no more.
fn has_columns(columns: &[ColumnTree], row: &Row) -> bool
    ensures { result ≡ spec.has_columns columns.now row.now }
{
    let mut rest = row.as_slice();
    for column in columns {
        match rest {
            [value, others @ ..] if is_value_of(column.kind, value) => rest = others,
            _ => return false,
        }
    }
    rest.is_empty()
}

/// Whether a value is NULL or one of the type.
pub fn is_value_of(kind: SqlType, value: &Value) -> bool
    ensures { result ≡ spec.is_value_of kind value.now }
{
    match value {
        Value::Null => true,
        Value::Whole(number) => is_in_range(kind, *number),
        Value::Bit(_) => matches!(kind, SqlType::Bit),
        Value::Text(units) =>
            matches!(kind, SqlType::NText(size) if units.len() <= usize::from(size)),
    }
}

/// Whether a number is in the range of a type of whole numbers.
fn is_in_range(kind: SqlType, number: i64) -> bool
    ensures { result ≡ is_in_range kind number }
{
    match kind {
        SqlType::TinyInt => (0..=255).contains(&number),
        SqlType::SmallInt => (-32768..=32767).contains(&number),
        SqlType::Int => (-2147483648..=2147483647).contains(&number),
        SqlType::BigInt => true,
        SqlType::Bit | SqlType::NText(_) => false,
    }
}

/// Whether a key is the row's own.
fn has_key(shape: &TableTree, row: &Row, key: &Key) -> bool
    ensures { result ≡ eq_by_cmp order.key_cmp (spec.key_of shape.now row.now) key.now }
{
    match shape.key.as_slice() {
        [] => key.as_slice().is_empty(),
        [primary, ..] => {
            has_named(
                shape.columns.as_slice(),
                primary.columns.as_slice(),
                row,
                key.as_slice(),
            )
        }
    }
}

/// Whether the values of the columns of these names are these, in this order.
fn has_named(columns: &[ColumnTree], names: &[Units], row: &Row, wanted: &[Value]) -> bool
    ensures { result ≡ eq_by_cmp order.key_cmp (spec.values_at (filter_map (places.place_in columns.now) names.now) row.now) wanted.now }
{
    let mut rest = wanted;
    for name in names {
        if let Some(place) = place_in(columns, name) {
            match rest {
                [value, others @ ..] if is_at(row, place, value) => rest = others,
                _ => return false,
            }
        }
    }
    rest.is_empty()
}

/// Whether the values at these places of a row are these, in this order. NULLs are equal, and so are texts that differ
/// in the spaces at their ends alone.
pub fn has_values(row: &Row, places: &[u16], wanted: &[Value]) -> bool
    ensures { result ≡ eq_by_cmp order.key_cmp (spec.values_at places.now row.now) wanted.now }
{
    let mut rest = wanted;
    for place in places {
        match rest {
            [value, others @ ..] if is_at(row, *place, value) => rest = others,
            _ => return false,
        }
    }
    rest.is_empty()
}

/// Whether the value at a place of a row is this one. A place that is not there has NULL.
fn is_at(row: &Row, place: u16, wanted: &Value) -> bool
    ensures { result ≡ is_eq (order.value_order (value_at row.now place) wanted.now) }
{
    match row.as_slice().get(usize::from(place)) {
        Some(value) => same_value(value, wanted),
        None => kind_rank(wanted) == 0,
    }
}

/// Whether two values are one in a key.
pub(crate) fn same_value(a: &Value, b: &Value) -> bool
    ensures { result ≡ is_eq (order.value_order a.now b.now) }
{
    if kind_rank(a) != kind_rank(b) {
        return false;
    }
    match compare(a, b) {
        Some(order) => order.is_eq(),
        None => true,
    }
}

/// The place of a value's kind among the kinds.
fn kind_rank(value: &Value) -> u8
    ensures { result ≡ order.kind_rank value.now }
{
    match value {
        Value::Null => 0,
        Value::Whole(_) => 1,
        Value::Bit(_) => 2,
        Value::Text(_) => 3,
    }
}

/// The place of the first column of that name, where a tree can name it.
pub fn place_in(columns: &[ColumnTree], name: &Units) -> Option<u16>
    ensures { result ≡ places.place_in columns.now name.now }
{
    nameable(position_in(columns, name))
}

fn position_in(columns: &[ColumnTree], name: &Units) -> Option<usize>
    ensures { result ≡ position (λ column. same_units name.now column.name) columns.now }
{
    columns.iter().position(|column| *name == column.name)
}

fn nameable(place: Option<usize>) -> Option<u16>
    ensures { result ≡ places.nameable place }
{
    match place {
        Some(place) => u16::try_from(place).ok(),
        None => None,
    }
}
