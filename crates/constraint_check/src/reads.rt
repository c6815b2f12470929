//! What is read behind the changes of a statement, to check UNIQUE and FOREIGN KEY.

ghost use Rattle.std.specs.Prelude.{◌≡◌, ◌++◌, IfOk, filter_map, length, option_map, suc};
ghost use Rattle.std.specs.List.{flat_map, list_any};
ghost use Rattle.bound_tree.specs.Meaning.{is_null};
ghost use Rattle.bound_tree.specs.Setting.{value_at};
ghost use Rattle.step_model.specs.Own.{row_of};
ghost use Rattle.tsql_tree.specs.Places.{key_places, place_in};
ghost use Rattle.constraint_check.specs.Reads as spec;
ghost use Rattle.table_rows.specs.Rows as tables;
ghost use Rattle.table_rows.specs.Rows.{places_of, values_at};

use crate::inserted::Inserted;
use crate::{Check, CheckRead};
use sqlite_items::Items;
use std::alloc::{AllocError, Global};
use step_model::{Deed, KeyRange, Planned, Start, Stop};
use table_rows::place_in;
use tsql_tree::{ColumnTree, ForeignTree, KeyTree, TableTree};
use value_types::{KEY_LIMIT, Key, Memory, Row, TableName, Units, Value};

/// What is read behind the changes of a statement: for each UNIQUE of each row that is written, of its index part; then
/// for each FOREIGN KEY of such a row without a NULL; then for each FOREIGN KEY that refers to the table of a row that is
/// erased and not inserted again, of its index part. Each of the three goes in the order of the changes, and for a change
/// in that of the constraints, the last by the tables in the order of `shapes`.
pub fn reads_for(
    alloc: Global,
    changes: &[Planned],
    shapes: &[TableTree],
) -> Result<Vec<CheckRead>, Memory>
    ensures { IfOk result (λ reads. reads.items ≡ spec.reads_for changes.now shapes.now) }
{
    let mut reads = Vec::new(alloc);
    add_uniques(alloc, changes, shapes, &mut reads)?;
    add_children(alloc, changes, shapes, &mut reads)?;
    add_parents(alloc, changes, shapes, &mut reads)?;
    Ok(reads)
}

// ---- UNIQUE

fn add_uniques(
    alloc: Global,
    changes: &[Planned],
    shapes: &[TableTree],
    reads: &mut Vec<CheckRead>,
) -> Result<(), Memory>
    ensures { IfOk result (λ _. reads.new.items ≡ reads.old.items ++ flat_map (spec.of_row spec.unique_reads shapes.now) changes.now) }
{
    for change in changes {
        unique_of_change(alloc, change, shapes, reads)?;
    }
    Ok(())
}

fn unique_of_change(
    alloc: Global,
    change: &Planned,
    shapes: &[TableTree],
    reads: &mut Vec<CheckRead>,
) -> Result<(), Memory>
    ensures { IfOk result (λ _. reads.new.items ≡ reads.old.items ++ spec.of_row spec.unique_reads shapes.now change.now) }
{
    let Some(shape) = shape_of(&change.table, shapes) else {
        return Ok(());
    };
    let Some(row) = row_of(&change.deed) else {
        return Ok(());
    };
    unique_reads(alloc, shape, row, reads)
}

fn unique_reads(
    alloc: Global,
    shape: &TableTree,
    row: &Row,
    reads: &mut Vec<CheckRead>,
) -> Result<(), Memory>
    ensures { IfOk result (λ _. reads.new.items ≡ reads.old.items ++ spec.unique_reads shape.now row.now) }
{
    let mut part = 0;
    for key in shape.uniques.as_slice() {
        part = following(part)?;
        reads.push(unique_read(alloc, shape, row, part, key)?)?;
    }
    Ok(())
}

fn unique_read(
    alloc: Global,
    shape: &TableTree,
    row: &Row,
    part: u16,
    key: &KeyTree,
) -> Result<CheckRead, Memory>
    ensures { IfOk result (λ read. read ≡ spec.unique_read shape.now row.now part key.now) }
{
    let places = places_of(alloc, shape, key.columns.as_slice())?;
    let wanted = values_at(alloc, row, places.as_slice())?;
    Ok(CheckRead {
        check: Check::Unique,
        range: index_rows(alloc, shape, part, &wanted)?,
        columns: first_places(alloc, places.len())?,
        wanted: Row::from(wanted),
        name: key.name.copy(alloc)?,
    })
}

// ---- FOREIGN KEY, of a row that is written

fn add_children(
    alloc: Global,
    changes: &[Planned],
    shapes: &[TableTree],
    reads: &mut Vec<CheckRead>,
) -> Result<(), Memory>
    ensures { IfOk result (λ _. reads.new.items ≡ reads.old.items ++ flat_map (spec.of_row (spec.child_reads shapes.now) shapes.now) changes.now) }
{
    for change in changes {
        children_of_change(alloc, change, shapes, reads)?;
    }
    Ok(())
}

fn children_of_change(
    alloc: Global,
    change: &Planned,
    shapes: &[TableTree],
    reads: &mut Vec<CheckRead>,
) -> Result<(), Memory>
    ensures { IfOk result (λ _. reads.new.items ≡ reads.old.items ++ spec.of_row (spec.child_reads shapes.now) shapes.now change.now) }
{
    let Some(shape) = shape_of(&change.table, shapes) else {
        return Ok(());
    };
    let Some(row) = row_of(&change.deed) else {
        return Ok(());
    };
    child_reads(alloc, shapes, shape, row, reads)
}

fn child_reads(
    alloc: Global,
    shapes: &[TableTree],
    shape: &TableTree,
    row: &Row,
    reads: &mut Vec<CheckRead>,
) -> Result<(), Memory>
    ensures { IfOk result (λ _. reads.new.items ≡ reads.old.items ++ spec.child_reads shapes.now shape.now row.now) }
{
    for foreign in shape.foreigns.as_slice() {
        let places = places_of(alloc, shape, foreign.columns.as_slice())?;
        let values = values_at(alloc, row, places.as_slice())?;
        child_where(alloc, shapes, foreign, values, reads)?;
    }
    Ok(())
}

fn child_where(
    alloc: Global,
    shapes: &[TableTree],
    foreign: &ForeignTree,
    values: Vec<Value>,
    reads: &mut Vec<CheckRead>,
) -> Result<(), Memory>
    ensures { IfOk result (λ _. reads.new.items ≡ reads.old.items ++ spec.child_where shapes.now foreign.now values.items) }
{
    if has_null(&values) {
        return Ok(());
    }
    reads.push(child_read(alloc, shapes, foreign, values)?)?;
    Ok(())
}

fn child_read(
    alloc: Global,
    shapes: &[TableTree],
    foreign: &ForeignTree,
    values: Vec<Value>,
) -> Result<CheckRead, Memory>
    ensures { IfOk result (λ read. read ≡ spec.child_read shapes.now foreign.now values.items) }
{
    let parent = rows_table(alloc, &foreign.parent)?;
    Ok(CheckRead {
        check: Check::Child,
        range: row_at(alloc, &foreign.parent, &values)?,
        columns: key_places(alloc, shape_of(&parent, shapes))?,
        wanted: Row::from(values),
        name: foreign.name.copy(alloc)?,
    })
}

fn has_null(values: &[Value]) -> bool
    ensures { result ≡ list_any is_null values.now }
{
    values.iter().any(|value| matches!(value, Value::Null))
}

// ---- FOREIGN KEYs that refer to a row that is gone

fn add_parents(
    alloc: Global,
    changes: &[Planned],
    shapes: &[TableTree],
    reads: &mut Vec<CheckRead>,
) -> Result<(), Memory>
    ensures { IfOk result (λ _. reads.new.items ≡ reads.old.items ++ flat_map (spec.of_key shapes.now changes.now) changes.now) }
{
    let inserted = Inserted::of(alloc, changes)?;
    for change in changes {
        parents_of_change(alloc, change, &inserted, shapes, reads)?;
    }
    Ok(())
}

fn parents_of_change<'a>(
    alloc: Global,
    change: &'a Planned,
    inserted: &Inserted<'a>,
    shapes: &[TableTree],
    reads: &mut Vec<CheckRead>,
) -> Result<(), Memory>
    ensures { IfOk result (λ _. reads.new.items ≡ reads.old.items ++ spec.of_key shapes.now inserted.now.changes.now change.now) }
{
    if inserted.is_gone(change) {
        parent_reads(alloc, shapes, &change.table, &change.key, reads)
    } else {
        Ok(())
    }
}

fn parent_reads(
    alloc: Global,
    shapes: &[TableTree],
    table: &TableName,
    key: &Key,
    reads: &mut Vec<CheckRead>,
) -> Result<(), Memory>
    ensures { IfOk result (λ _. reads.new.items ≡ reads.old.items ++ spec.parent_reads shapes.now table.now key.now) }
{
    for child in shapes {
        parent_reads_of(alloc, table, key, child, reads)?;
    }
    Ok(())
}

fn parent_reads_of(
    alloc: Global,
    table: &TableName,
    key: &Key,
    child: &TableTree,
    reads: &mut Vec<CheckRead>,
) -> Result<(), Memory>
    ensures { IfOk result (λ _. reads.new.items ≡ reads.old.items ++ spec.parent_reads_of table.now key.now child.now) }
{
    let mut part = last_unique(child)?;
    for foreign in child.foreigns.as_slice() {
        part = following(part)?;
        if foreign.parent == table.object {
            reads.push(parent_read(alloc, key, child, part, foreign)?)?;
        }
    }
    Ok(())
}

/// The number of the last part of a UNIQUE.
fn last_unique(shape: &TableTree) -> Result<u16, Memory>
    ensures { IfOk result (λ part. part ≡ length shape.now.uniques) }
{
    place_of(shape.uniques.len())
}

fn parent_read(
    alloc: Global,
    key: &Key,
    child: &TableTree,
    part: u16,
    foreign: &ForeignTree,
) -> Result<CheckRead, Memory>
    ensures { IfOk result (λ read. read ≡ spec.parent_read key.now child.now part foreign.now) }
{
    let places = places_of(alloc, child, foreign.columns.as_slice())?;
    Ok(CheckRead {
        check: Check::Parent,
        range: index_rows(alloc, child, part, key.as_slice())?,
        columns: first_places(alloc, places.len())?,
        wanted: Row::from(copied(alloc, key.as_slice())?),
        name: foreign.name.copy(alloc)?,
    })
}

// ---- tables, rows and ranges

/// The number of the part behind this one, where there may be one.
fn following(part: u16) -> Result<u16, Memory>
    ensures { IfOk result (λ next. next ≡ suc part) }
{
    match part.checked_add(1) {
        Some(next) => Ok(next),
        None => Err(Memory),
    }
}

/// The first shape of a table.
fn shape_of<'a>(table: &TableName, shapes: &'a [TableTree]) -> Option<&'a TableTree>
    ensures { option_map (λ shape. shape.now) result ≡ tables.shape_of table.now shapes.now }
{
    for shape in shapes {
        if table.part == 0 && table.object == shape.name {
            return Some(shape);
        }
    }
    None
}

/// The row that a write leaves, or none.
fn row_of(deed: &Deed) -> Option<&Row>
    ensures { option_map (λ row. row.now) result ≡ row_of deed.now }
{
    match deed {
        Deed::Erase => None,
        Deed::Replace(row) => Some(row),
        Deed::Insert(row) => Some(row),
    }
}

/// The places of the columns of these names.
fn places_of(alloc: Global, shape: &TableTree, names: &[Units]) -> Result<Items<u16>, Memory>
    ensures { IfOk result (λ places. places ≡ places_of shape.now names.now) }
{
    let places = places_in(alloc, shape.columns.as_slice(), names)?;
    Ok(Items::from_vec(places))
}

fn places_in(alloc: Global, columns: &[ColumnTree], names: &[Units]) -> Result<Vec<u16>, AllocError>
    ensures { IfOk result (λ places. places.items ≡ filter_map (place_in columns.now) names.now) }
{
    names
        .iter()
        .filter_map(|name| place_in(columns, name))
        .collect(alloc)
}

/// The places of the columns of a table's key.
fn key_places(alloc: Global, shape: Option<&TableTree>) -> Result<Items<u16>, Memory>
    ensures { IfOk result (λ places. places ≡ key_places (option_map (λ shape. shape.now) shape.entry)) }
{
    let Some(shape) = shape else {
        return Ok(Items::new(alloc));
    };
    match shape.key.as_slice() {
        [] => Ok(Items::new(alloc)),
        [key, ..] => places_of(alloc, shape, key.columns.as_slice()),
    }
}

/// The values at places of a row.
fn values_at(alloc: Global, row: &Row, places: &[u16]) -> Result<Vec<Value>, Memory>
    ensures { IfOk result (λ values. values.items ≡ values_at places.now row.now) }
{
    let mut values = Vec::with_capacity(alloc, places.len())?;
    for place in places {
        values.push(value_at(alloc, row, *place)?)?;
    }
    Ok(values)
}

/// The value at a place of a row. A place that is not there has NULL.
fn value_at(alloc: Global, row: &Row, place: u16) -> Result<Value, Memory>
    ensures { IfOk result (λ value. value ≡ value_at row.now place) }
{
    match row.as_slice().get(usize::from(place)) {
        Some(value) => value.copy(alloc),
        None => Ok(Value::Null),
    }
}

/// The same values.
fn copied(alloc: Global, values: &[Value]) -> Result<Vec<Value>, Memory>
    ensures { IfOk result (λ copies. copies.items ≡ values.now) }
{
    let mut copies = Vec::with_capacity(alloc, values.len())?;
    for value in values {
        copies.push(value.copy(alloc)?)?;
    }
    Ok(copies)
}

/// The table's own rows.
fn rows_table(alloc: Global, name: &Units) -> Result<TableName, Memory>
    ensures { IfOk result (λ table. table ≡ tables.rows_table name.now) }
{
    Ok(TableName {
        object: name.copy(alloc)?,
        part: 0,
    })
}

/// All rows of a table.
fn all_rows(alloc: Global, name: &Units) -> Result<KeyRange, Memory>
    ensures { IfOk result (λ range. range ≡ spec.all_rows name.now) }
{
    Ok(KeyRange {
        table: rows_table(alloc, name)?,
        start: Start::First,
        stop: Stop::Last,
    })
}

/// The rows of an index part that begin with these values; for what can be no key, all of them.
fn index_rows(
    alloc: Global,
    shape: &TableTree,
    part: u16,
    values: &[Value],
) -> Result<KeyRange, Memory>
    ensures { IfOk result (λ range. range ≡ spec.index_rows shape.now part values.now) }
{
    if values.is_empty() || values.len() > KEY_LIMIT {
        return Ok(KeyRange {
            table: index_part(alloc, shape, part)?,
            start: Start::First,
            stop: Stop::Last,
        });
    }
    Ok(KeyRange {
        table: index_part(alloc, shape, part)?,
        start: Start::At(Key::new(copied(alloc, values)?)),
        stop: Stop::Within(Key::new(copied(alloc, values)?)),
    })
}

/// The index part of this number.
fn index_part(alloc: Global, shape: &TableTree, part: u16) -> Result<TableName, Memory>
    ensures { IfOk result (λ table. table ≡ tables.index_part shape.now part) }
{
    Ok(TableName {
        object: shape.name.copy(alloc)?,
        part,
    })
}

/// So many places, from the first on.
fn first_places(alloc: Global, count: usize) -> Result<Items<u16>, Memory>
    ensures { IfOk result (λ places. places ≡ spec.first_places count) }
{
    let mut places = Vec::new(alloc);
    for place in 0..count {
        places.push(place_of(place)?)?;
    }
    Ok(Items::from_vec(places))
}

/// The same number, if it is one of a place or a part.
fn place_of(place: usize) -> Result<u16, Memory>
    ensures { IfOk result (λ named. named ≡ place) }
{
    match u16::try_from(place) {
        Ok(named) => Ok(named),
        Err(_) => Err(Memory),
    }
}

/// The row of a table at a whole key; for what can be no key, all rows.
fn row_at(alloc: Global, name: &Units, values: &[Value]) -> Result<KeyRange, Memory>
    ensures { IfOk result (λ range. range ≡ spec.row_at name.now values.now) }
{
    if values.is_empty() || values.len() > KEY_LIMIT {
        return all_rows(alloc, name);
    }
    Ok(KeyRange {
        table: rows_table(alloc, name)?,
        start: Start::At(Key::new(copied(alloc, values)?)),
        stop: Stop::Within(Key::new(copied(alloc, values)?)),
    })
}
