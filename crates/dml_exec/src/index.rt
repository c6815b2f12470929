//! The changes of index parts.

ghost use Rattle.std.specs.Prelude.{◌≡◌, ◌≤◌, ◌++◌, IfOk, IsTrue, Some, length};
ghost use Rattle.std.specs.List.{flat_map, zip};
ghost use Rattle.value_types.specs.Order.{key_limit};
ghost use Rattle.tsql_tree.specs.Places as scope;
ghost use Rattle.table_rows.specs.Rows as of_rows;
ghost use Rattle.index_laws.specs.Deeds as deeds;
ghost use Rattle.dml_exec.specs.Indexes as spec;
ghost use Rattle.dml_exec.specs.Planning as planning;

use crate::changes::{erasures, moves};
use crate::keys::{has_key, key_of, places_in, values_at};
use crate::rewritten::Rewritten;
use std::alloc::Global;
use step_model::{Deed, Planned};
use table_rows::{has_values, part_columns};
use tsql_tree::TableTree;
use value_types::{Key, Memory, Row, TableName, Units, Value};

/// Whether a table's key is one, and that of each of its index parts.
pub(crate) fn has_keys(alloc: Global, shape: &TableTree, key: &[u16]) -> Result<bool, Memory>
    requires key { key.now ≡ scope.key_places (Some shape.now) }
    ensures { IfOk result (λ keyed. keyed ≡ planning.has_keys shape.now) }
{
    if has_key(key) {
        have_keys(alloc, shape, key)
    } else {
        Ok(false)
    }
}

/// Whether that of each of its index parts is.
fn have_keys(alloc: Global, shape: &TableTree, key: &[u16]) -> Result<bool, Memory>
    requires key { key.now ≡ scope.key_places (Some shape.now) }
    ensures { IfOk result (λ keyed. keyed ≡ planning.have_keys shape.now) }
{
    for place in 0..u16::MAX {
        let Some(names) = part_columns(shape, place) else {
            return Ok(true);
        };
        let places = index_places(alloc, shape, names, key)?;
        if !has_key(places.as_slice()) {
            return Ok(false);
        }
    }
    Err(Memory)
}

/// The places of the values of an index row: those of the columns, and then those of the table's key.
fn index_places(
    alloc: Global,
    shape: &TableTree,
    names: &[Units],
    key: &[u16],
) -> Result<Vec<u16>, Memory>
    requires key { key.now ≡ scope.key_places (Some shape.now) }
    ensures { IfOk result (λ places. places.items ≡ of_rows.index_places shape.now names.now) }
{
    let mut places = places_in(alloc, shape.columns.as_slice(), names)?;
    places.extend_from_slice(key)?;
    Ok(places)
}

/// The changes of the index parts of a table whose rows change so, part by part.
pub(crate) fn index_deeds(
    alloc: Global,
    shape: &TableTree,
    key: &[u16],
    rows: &Rewritten,
) -> Result<Vec<Planned>, Memory>
    requires key { key.now ≡ scope.key_places (Some shape.now) }
    requires keyed { IsTrue (planning.has_keys shape.now) }
    ensures { IfOk result (λ changes. changes.items ≡ planning.index_deeds shape.now planning.is_same_row (planning.row_changes_of rows.now)) }
{
    let mut changes = Vec::new(alloc);
    for place in 0..u16::MAX {
        let Some(names) = part_columns(shape, place) else {
            return Ok(changes);
        };
        let places = index_places(alloc, shape, names, key)?;
        let table = TableName {
            object: shape.name.copy(alloc)?,
            part: place + 1,
        };
        add_deeds(alloc, &table, places.as_slice(), rows, &mut changes)?;
    }
    Err(Memory)
}

/// Adds the changes of an index part whose rows have the values of these places: all erasures, and then what is written.
fn add_deeds(
    alloc: Global,
    table: &TableName,
    places: &[u16],
    rows: &Rewritten,
    changes: &mut Vec<Planned>,
) -> Result<(), Memory>
    requires not_empty { 1 ≤ length places.now }
    requires within_limit { length places.now ≤ key_limit }
    ensures { IfOk result (λ _. changes.new.items ≡ changes.old.items ++ spec.deeds_of table.now places.now (planning.row_changes_of rows.now)) }
{
    match rows {
        Rewritten::Inserted(rows) => add_rows(alloc, table, places, rows.as_slice(), changes),
        Rewritten::Set(olds, news) => {
            let mut erased = moves(alloc, table, places, olds.as_slice(), news.as_slice())?;
            changes.append(&mut erased)?;
            add_rewrites(
                alloc,
                table,
                places,
                olds.as_slice(),
                news.as_slice(),
                changes,
            )
        }
        Rewritten::Erased(rows) => {
            let mut erased = erasures(alloc, table, places, rows.as_slice())?;
            Ok(changes.append(&mut erased)?)
        }
    }
}

/// Adds the insertions of the index rows of new rows.
fn add_rows(
    alloc: Global,
    table: &TableName,
    places: &[u16],
    rows: &[Row],
    changes: &mut Vec<Planned>,
) -> Result<(), Memory>
    requires not_empty { 1 ≤ length places.now }
    requires within_limit { length places.now ≤ key_limit }
    ensures { IfOk result (λ _. changes.new.items ≡ changes.old.items ++ flat_map (spec.written_of table.now places.now) (deeds.rows_added rows.now)) }
{
    for row in rows {
        changes.push(index_insertion(alloc, table, places, row)?)?;
    }
    Ok(())
}

/// Adds what is written of the index rows of rows that are set.
fn add_rewrites(
    alloc: Global,
    table: &TableName,
    places: &[u16],
    olds: &[Row],
    news: &[Row],
    changes: &mut Vec<Planned>,
) -> Result<(), Memory>
    requires not_empty { 1 ≤ length places.now }
    requires within_limit { length places.now ≤ key_limit }
    ensures { IfOk result (λ _. changes.new.items ≡ changes.old.items ++ flat_map (spec.rewritten_of table.now places.now) (zip olds.now news.now)) }
{
    let mut rest = olds;
    for new in news {
        let [old, others @ ..] = rest else {
            return Ok(());
        };
        add_rewrite(alloc, table, places, old, new, changes)?;
        rest = others;
    }
    Ok(())
}

/// Adds what is written of the index row of a row that is set: nothing where it stays as it is, unit for unit.
fn add_rewrite(
    alloc: Global,
    table: &TableName,
    places: &[u16],
    old: &Row,
    new: &Row,
    changes: &mut Vec<Planned>,
) -> Result<(), Memory>
    requires not_empty { 1 ≤ length places.now }
    requires within_limit { length places.now ≤ key_limit }
    ensures { IfOk result (λ _. changes.new.items ≡ changes.old.items ++ spec.rewritten_of table.now places.now (old.now, new.now)) }
{
    let place = key_of(alloc, places, old)?;
    if !is_unchanged(alloc, places, new, place.as_slice())? {
        changes.push(index_rewrite(alloc, table, places, place, new)?)?;
    }
    Ok(())
}

/// Whether a row's index row is this one, unit for unit.
fn is_unchanged(alloc: Global, places: &[u16], new: &Row, place: &[Value]) -> Result<bool, Memory>
    ensures { IfOk result (λ same. same ≡ planning.is_same_row (of_rows.values_at places.now new.now) place.now) }
{
    let values = values_at(alloc, places, new)?;
    Ok(is_same_row(values.as_slice(), place))
}

/// Whether two lists of values are the same, unit for unit.
fn is_same_row(a: &[Value], b: &[Value]) -> bool
    ensures { result ≡ planning.is_same_row a.now b.now }
{
    let mut rest = b;
    for value in a {
        match rest {
            [other, others @ ..] if is_same_value(value, other) => rest = others,
            _ => return false,
        }
    }
    rest.is_empty()
}

/// Whether two values are the same, unit for unit.
fn is_same_value(a: &Value, b: &Value) -> bool
    ensures { result ≡ planning.is_same_value a.now b.now }
{
    match a {
        Value::Null => matches!(b, Value::Null),
        Value::Whole(number) => matches!(b, Value::Whole(other) if *number == *other),
        Value::Bit(bit) => matches!(b, Value::Bit(other) if *bit == *other),
        Value::Text(units) => matches!(b, Value::Text(other) if *units == *other),
    }
}

/// How the index row of a row that is set is written: where its key stays, which is this one, it is replaced, and else
/// inserted.
fn index_rewrite(
    alloc: Global,
    table: &TableName,
    places: &[u16],
    place: Key,
    new: &Row,
) -> Result<Planned, Memory>
    requires not_empty { 1 ≤ length places.now }
    requires within_limit { length places.now ≤ key_limit }
    ensures { IfOk result (λ change. change ≡ spec.index_rewrite table.now places.now place new.now) }
{
    if has_values(new, places, place.as_slice()) {
        return Ok(Planned {
            table: table.copy(alloc)?,
            key: place,
            deed: Deed::Replace(index_row(alloc, places, new)?),
        });
    }
    index_insertion(alloc, table, places, new)
}

/// The insertion of the index row of a row.
fn index_insertion(
    alloc: Global,
    table: &TableName,
    places: &[u16],
    row: &Row,
) -> Result<Planned, Memory>
    requires not_empty { 1 ≤ length places.now }
    requires within_limit { length places.now ≤ key_limit }
    ensures { IfOk result (λ change. change ≡ spec.index_insertion table.now places.now row.now) }
{
    Ok(Planned {
        table: table.copy(alloc)?,
        key: key_of(alloc, places, row)?,
        deed: Deed::Insert(index_row(alloc, places, row)?),
    })
}

/// The index row of a row.
fn index_row(alloc: Global, places: &[u16], row: &Row) -> Result<Row, Memory>
    ensures { IfOk result (λ index. index ≡ of_rows.values_at places.now row.now) }
{
    Ok(Row::from(values_at(alloc, places, row)?))
}
