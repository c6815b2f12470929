//! The plan of a write.

ghost use Rattle.std.specs.Prelude.{◌≡◌, IfOk, IsTrue, Some, Ok, filter, length, not};
ghost use Rattle.step_model.specs.Own as own;
ghost use Rattle.constraint_check.specs.Reads.{is_erase};
ghost use Rattle.tsql_tree.specs.Places as scope;
ghost use Rattle.scalar_eval.specs.Scopes.{values_of};
ghost use Rattle.dml_exec.specs.Planning as spec;
ghost use Rattle.dml_exec.specs.Plans.{Plans};

use crate::changes::changes_of;
use crate::fault::widened;
use crate::index::{has_keys, index_deeds};
use crate::keys::key_places;
use crate::rewriting::{Source, rewritten};
use crate::rewritten::Rewritten;
use bound_tree::{BoundTest, BoundWrite, Image, SystemValues};
use constraint_check::first_local;
use scalar_eval::EvalFault;
use session_vars::Vars;
use std::alloc::Global;
use step_model::{Deed, Planned};
use tsql_tree::TableTree;
use value_types::{Memory, Row, TableName};

/// The error of a table whose key has no column, or too many.
const OUTSIDE_LIMITS: i32 = 49007;

/// The changes of a write, in the order in which they are asked: all erasures, and then what is written; and then so those
/// of its index rows, part by part. `images` stand for the references of its inner queries, or of the select of an INSERT,
/// and then for its target; `shape` is the table that is written, and `checks` are what its CHECKs are bound to, in their
/// order.
///
/// # Errors
///
/// `Number` with the first error of an inner query, of WHERE, or of a value, also where that can't be stored in its
/// column; with that of a CHECK; and with 49007 where the table has no key, or one of its index parts. `Named` with 515 and
/// the column's name, or with 547 and the CHECK's.
pub fn plan_write(
    alloc: Global,
    write: &BoundWrite,
    images: &[Image],
    shape: &TableTree,
    checks: &[BoundTest],
    vars: &Vars,
    system: &SystemValues,
) -> Result<Vec<Planned>, EvalFault>
    ensures { Plans result (spec.Chg (values_of vars.now) system.now shape.now checks.now write.now images.now) }
{
    let Ok(key) = key_places(alloc, shape) else {
        return Err(EvalFault::Memory);
    };
    let Ok(keyed) = has_keys(alloc, shape, key.as_slice()) else {
        return Err(EvalFault::Memory);
    };
    if !keyed {
        return Err(EvalFault::Number(OUTSIDE_LIMITS));
    }
    let source = Source {
        shape,
        key: key.as_slice(),
        images,
        vars,
        system,
    };
    match rewritten(alloc, write, &source) {
        Ok(rows) => checked(
            alloc,
            table_written(write),
            shape,
            key.as_slice(),
            checks,
            rows,
        ),
        Err(stop) => Err(widened(stop)),
    }
}

/// The changes that rows are written by, once nothing is wrong with the new rows by themselves.
fn checked(
    alloc: Global,
    table: &TableName,
    shape: &TableTree,
    key: &[u16],
    checks: &[BoundTest],
    rows: Rewritten,
) -> Result<Vec<Planned>, EvalFault>
    requires key { key.now ≡ scope.key_places (Some shape.now) }
    requires keyed { IsTrue (spec.has_keys shape.now) }
    ensures { Plans result (spec.checked table.now shape.now checks.now (Ok rows)) }
{
    match first_local(alloc, new_rows(&rows), shape, checks) {
        Ok(()) => match all_changes(alloc, table, shape, key, rows) {
            Ok(changes) => Ok(changes),
            Err(_) => Err(EvalFault::Memory),
        },
        Err(fault) => Err(fault),
    }
}

/// The changes of the table's rows, and then those of its index rows. The latter are made first, since the former take
/// the rows.
fn all_changes(
    alloc: Global,
    table: &TableName,
    shape: &TableTree,
    key: &[u16],
    rows: Rewritten,
) -> Result<Vec<Planned>, Memory>
    requires key { key.now ≡ scope.key_places (Some shape.now) }
    requires keyed { IsTrue (spec.has_keys shape.now) }
    ensures { IfOk result (λ changes. changes.items ≡ spec.all_changes table.now shape.now rows) }
{
    let mut index = index_deeds(alloc, shape, key, &rows)?;
    let mut changes = changes_of(alloc, table, key, rows)?;
    changes.append(&mut index)?;
    Ok(changes)
}

/// How many rows a write tells of its changes: of DELETE those that go, of the others those that it leaves.
pub fn rows_told(write: &BoundWrite, changes: &[Planned]) -> usize
    ensures { result ≡ spec.rows_told write.now changes.now }
{
    match write {
        BoundWrite::Insert { .. } => rows_left(changes),
        BoundWrite::Update { .. } => rows_left(changes),
        BoundWrite::Delete { .. } => own_changes(changes),
    }
}

/// How many changes are of the table's own rows.
fn own_changes(changes: &[Planned]) -> usize
    ensures { result ≡ length (own.own_changes changes.now) }
{
    changes.iter().filter(|change| change.is_own()).count()
}

/// How many of them leave a row.
fn rows_left(changes: &[Planned]) -> usize
    ensures { result ≡ length (filter spec.leaves_row changes.now) }
{
    changes.iter().filter(|change| leaves_row(change)).count()
}

fn leaves_row(change: &Planned) -> bool
    ensures { result ≡ spec.leaves_row change.now }
{
    change.is_own() && leaves(&change.deed)
}

fn leaves(deed: &Deed) -> bool
    ensures { result ≡ not (is_erase deed.now) }
{
    match deed {
        Deed::Erase => false,
        Deed::Replace(_) => true,
        Deed::Insert(_) => true,
    }
}

/// The rows that the write leaves.
fn new_rows(rows: &Rewritten) -> &[Row]
    ensures { result.now ≡ spec.new_rows rows.now }
{
    match rows {
        Rewritten::Inserted(rows) => rows.as_slice(),
        Rewritten::Set(_, news) => news.as_slice(),
        Rewritten::Erased(_) => &[],
    }
}

/// The table that is written.
pub fn table_written(write: &BoundWrite) -> &TableName
    ensures { result.now ≡ spec.table_written write.now }
{
    match write {
        BoundWrite::Insert { table, .. } => table,
        BoundWrite::Update { table, .. } => table,
        BoundWrite::Delete { table, .. } => table,
    }
}
