//! The changes that rows are written by.

ghost use Rattle.std.specs.Prelude.{◌≡◌, ◌≤◌, ◌++◌, IfOk, length, map};
ghost use Rattle.std.specs.List.{flat_map, zip};
ghost use Rattle.value_types.specs.Order.{key_limit};
ghost use Rattle.dml_exec.specs.Planning as spec;

use crate::keys::key_of;
use crate::rewritten::Rewritten;
use std::alloc::Global;
use step_model::{Deed, Planned};
use table_rows::has_values;
use value_types::{Key, Memory, Row, TableName};

/// The changes of a table, whose key has the columns of these places: all erasures in the order of the rows, and then
/// what is written, in that order.
pub(crate) fn changes_of(
    alloc: Global,
    table: &TableName,
    key: &[u16],
    rows: Rewritten,
) -> Result<Vec<Planned>, Memory>
    requires not_empty { 1 ≤ length key.now }
    requires within_limit { length key.now ≤ key_limit }
    ensures { IfOk result (λ changes. changes.items ≡ spec.changes_of table.now key.now rows) }
{
    match rows {
        Rewritten::Inserted(rows) => insertions(alloc, table, key, rows.into_vec()),
        Rewritten::Set(olds, news) => rewrites(alloc, table, key, olds.as_slice(), news.into_vec()),
        Rewritten::Erased(rows) => erasures(alloc, table, key, rows.as_slice()),
    }
}

/// The insertions of new rows.
fn insertions(
    alloc: Global,
    table: &TableName,
    key: &[u16],
    rows: Vec<Row>,
) -> Result<Vec<Planned>, Memory>
    requires not_empty { 1 ≤ length key.now }
    requires within_limit { length key.now ≤ key_limit }
    ensures { IfOk result (λ changes. changes.items ≡ map (spec.insertion table.now key.now) rows.items) }
{
    let mut changes = Vec::with_capacity(alloc, rows.len())?;
    for row in rows {
        changes.push(insertion(alloc, table, key, row)?)?;
    }
    Ok(changes)
}

/// The erasures of rows.
pub(crate) fn erasures(
    alloc: Global,
    table: &TableName,
    key: &[u16],
    rows: &[Row],
) -> Result<Vec<Planned>, Memory>
    requires not_empty { 1 ≤ length key.now }
    requires within_limit { length key.now ≤ key_limit }
    ensures { IfOk result (λ changes. changes.items ≡ map (spec.erasure table.now key.now) rows.now) }
{
    let mut changes = Vec::with_capacity(alloc, rows.len())?;
    for row in rows {
        changes.push(erasure(alloc, table, key_of(alloc, key, row)?)?)?;
    }
    Ok(changes)
}

/// The changes of rows that are set: those whose key changes are erased, and then each is replaced, or inserted at its
/// new key.
fn rewrites(
    alloc: Global,
    table: &TableName,
    key: &[u16],
    olds: &[Row],
    news: Vec<Row>,
) -> Result<Vec<Planned>, Memory>
    requires not_empty { 1 ≤ length key.now }
    requires within_limit { length key.now ≤ key_limit }
    ensures { IfOk result (λ changes. changes.items ≡ flat_map (spec.moved table.now key.now) (zip olds.now news.items) ++ map (spec.rewrite table.now key.now) (zip olds.now news.items)) }
{
    let mut changes = moves(alloc, table, key, olds, news.as_slice())?;
    let mut rest = olds;
    for new in news {
        let [old, others @ ..] = rest else {
            return Ok(changes);
        };
        changes.push(rewrite(alloc, table, key, old, new)?)?;
        rest = others;
    }
    Ok(changes)
}

/// The erasures of the rows whose keys change.
pub(crate) fn moves(
    alloc: Global,
    table: &TableName,
    key: &[u16],
    olds: &[Row],
    news: &[Row],
) -> Result<Vec<Planned>, Memory>
    requires not_empty { 1 ≤ length key.now }
    requires within_limit { length key.now ≤ key_limit }
    ensures { IfOk result (λ changes. changes.items ≡ flat_map (spec.moved table.now key.now) (zip olds.now news.now)) }
{
    let mut changes = Vec::new(alloc);
    let mut rest = olds;
    for new in news {
        let [old, others @ ..] = rest else {
            return Ok(changes);
        };
        add_move(alloc, table, key, old, new, &mut changes)?;
        rest = others;
    }
    Ok(changes)
}

/// Adds the erasure of a row, where its key changes.
fn add_move(
    alloc: Global,
    table: &TableName,
    key: &[u16],
    old: &Row,
    new: &Row,
    changes: &mut Vec<Planned>,
) -> Result<(), Memory>
    requires not_empty { 1 ≤ length key.now }
    requires within_limit { length key.now ≤ key_limit }
    ensures { IfOk result (λ _. changes.new.items ≡ changes.old.items ++ spec.moved table.now key.now (old.now, new.now)) }
{
    let place = key_of(alloc, key, old)?;
    if !has_values(new, key, place.as_slice()) {
        changes.push(erasure(alloc, table, place)?)?;
    }
    Ok(())
}

/// How a row is written that is set: where its key stays it is replaced, and else inserted.
fn rewrite(
    alloc: Global,
    table: &TableName,
    key: &[u16],
    old: &Row,
    new: Row,
) -> Result<Planned, Memory>
    requires not_empty { 1 ≤ length key.now }
    requires within_limit { length key.now ≤ key_limit }
    ensures { IfOk result (λ change. change ≡ spec.rewrite table.now key.now (old.now, new)) }
{
    let place = key_of(alloc, key, old)?;
    if has_values(&new, key, place.as_slice()) {
        return Ok(Planned {
            table: table.copy(alloc)?,
            key: place,
            deed: Deed::Replace(new),
        });
    }
    insertion(alloc, table, key, new)
}

/// A row that is inserted at its key.
fn insertion(alloc: Global, table: &TableName, key: &[u16], row: Row) -> Result<Planned, Memory>
    requires not_empty { 1 ≤ length key.now }
    requires within_limit { length key.now ≤ key_limit }
    ensures { IfOk result (λ change. change ≡ spec.insertion table.now key.now row) }
{
    Ok(Planned {
        table: table.copy(alloc)?,
        key: key_of(alloc, key, &row)?,
        deed: Deed::Insert(row),
    })
}

/// The erasure of the row at a key.
fn erasure(alloc: Global, table: &TableName, key: Key) -> Result<Planned, Memory>
    ensures { IfOk result (λ change. change ≡ spec.erased_at table.now key) }
{
    Ok(Planned {
        table: table.copy(alloc)?,
        key,
        deed: Deed::Erase,
    })
}
