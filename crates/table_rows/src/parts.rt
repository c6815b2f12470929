//! Index parts of tables, and their rows.

ghost use Rattle.std.specs.Prelude.{◌≡◌, Some, filter_map, option_map, slice_get, suc};
ghost use Rattle.std.specs.Ordering.{eq_by_cmp};
ghost use Rattle.value_types.specs.Order as order;
ghost use Rattle.tsql_tree.specs.Places as places;
ghost use Rattle.table_rows.specs.IndexColumns as private;
ghost use Rattle.table_rows.specs.Rows as spec;

use crate::rows::{is_value_of, place_in, same_value};
use tsql_tree::{ColumnTree, TableTree};
use value_types::{Key, Row, Units, Value};

/// The columns of the constraint that has the index part at this place, from 0 on: those of each UNIQUE, and then those of
/// each FOREIGN KEY. Behind the last there is none.
pub fn part_columns(shape: &TableTree, place: u16) -> Option<&[Units]>
    ensures { option_map (λ names. names.now) result ≡ slice_get (spec.index_columns shape.now) place }
{
    let place = usize::from(place);
    match unique_columns(shape, place) {
        Some(names) => Some(names),
        None => foreign_columns(shape, place.saturating_sub(shape.uniques.len())),
    }
}

/// Those of the UNIQUE at a place.
fn unique_columns(shape: &TableTree, place: usize) -> Option<&[Units]>
    ensures { option_map (λ names. names.now) result ≡ option_map (λ unique. unique.columns) (slice_get shape.now.uniques place) }
{
    match shape.uniques.as_slice().get(place) {
        Some(unique) => Some(unique.columns.as_slice()),
        None => None,
    }
}

/// Those of the FOREIGN KEY at a place.
fn foreign_columns(shape: &TableTree, place: usize) -> Option<&[Units]>
    ensures { option_map (λ names. names.now) result ≡ option_map (λ foreign. foreign.columns) (slice_get shape.now.foreigns place) }
{
    match shape.foreigns.as_slice().get(place) {
        Some(foreign) => Some(foreign.columns.as_slice()),
        None => None,
    }
}

/// Whether a row at a key is one of the index part at this place: it has a value for each of the part's columns, NULL or of the
/// column's type, and is the key itself.
pub(crate) fn index_fits(row: &Row, key: &Key, shape: &TableTree, place: u16) -> bool
    ensures { result ≡ spec.index_fits shape.now (spec.part_places shape.now (suc place)) key.now row.now }
{
    match part_columns(shape, place) {
        Some(names) => {
            has_index_columns(row.as_slice(), shape, names)
                && same_values(row.as_slice(), key.as_slice())
        }
        None => false,
    }
}

/// Whether values are those of an index row: of columns of these names, and then of the table's key.
fn has_index_columns(values: &[Value], shape: &TableTree, names: &[Units]) -> bool
    ensures { result ≡ spec.has_columns (filter_map (slice_get shape.now.columns) (spec.index_places shape.now names.now)) values.now }
{
    match values_behind(shape.columns.as_slice(), names, values) {
        Some(rest) => has_key_columns(rest, shape),
        None => false,
    }
}

/// Whether values are those of the columns of a table's key.
#[tactic(auto, using(crate::proofs::IndexRows::keyless, crate::proofs::IndexRows::keyed))]
fn has_key_columns(values: &[Value], shape: &TableTree) -> bool
    ensures { result ≡ spec.has_columns (filter_map (slice_get shape.now.columns) (places.key_places (Some shape.now))) values.now }
{
    match shape.key.as_slice() {
        [] => values.is_empty(),
        [key, ..] => has_named_columns(shape.columns.as_slice(), key.columns.as_slice(), values),
    }
}

/// Whether values are those of the columns of these names.
fn has_named_columns(columns: &[ColumnTree], names: &[Units], values: &[Value]) -> bool
    ensures { result ≡ spec.has_columns (private.columns_named columns.now names.now) values.now }
{
    match values_behind(columns, names, values) {
        Some(rest) => rest.is_empty(),
        None => false,
    }
}

/// What is left of values behind one for each of the columns of these names, NULL or of its type; nothing where one is not.
fn values_behind<'a>(
    columns: &[ColumnTree],
    names: &[Units],
    values: &'a [Value],
) -> Option<&'a [Value]>
    ensures { option_map (λ rest. rest.now) result ≡ private.values_behind (private.columns_named columns.now names.now) values.now }
{
    let mut rest = values;
    for name in names {
        if let Some(column) = column_named(columns, name) {
            match rest {
                [value, others @ ..] if is_value_of(column.kind, value) => rest = others,
                _ => return None,
            }
        }
    }
    Some(rest)
}

/// The column of a name, where a tree can name its place.
fn column_named<'a>(columns: &'a [ColumnTree], name: &Units) -> Option<&'a ColumnTree>
    ensures { option_map (λ column. column.now) result ≡ private.column_named columns.now name.now }
{
    match place_in(columns, name) {
        Some(place) => columns.get(usize::from(place)),
        None => None,
    }
}

/// Whether two lists of values are one key.
fn same_values(a: &[Value], b: &[Value]) -> bool
    ensures { result ≡ eq_by_cmp order.key_cmp a.now b.now }
{
    let mut rest = b;
    for value in a {
        match rest {
            [other, others @ ..] if same_value(value, other) => rest = others,
            _ => return false,
        }
    }
    rest.is_empty()
}
