//! How a row is filled.

ghost use Rattle.std.specs.Prelude.{◌≡◌, IfOk, Ok, map, slice_get, slice_set};
ghost use Rattle.bound_tree.specs.Meaning as meaning;
ghost use Rattle.scalar_eval.specs.Scopes.{setting_of};
ghost use Rattle.dml_exec.specs.Filling as spec;
ghost use Rattle.dml_exec.specs.Planning.{values_given, values_selected, values_set};
ghost use Rattle.dml_exec.specs.Found.{FindsBy, Finds};

use crate::fault::Stop;
use bound_tree::{BoundExpr, BoundSet};
use convert_rules::{convert, error_of, type_of};
use scalar_eval::{EvalFault, Scope, eval};
use std::alloc::Global;
use tsql_tree::ColumnTree;
use value_types::{Memory, Row, SqlType, Value};

/// A new row, with the values of expressions at these places.
pub(crate) fn row_of_values(
    alloc: Global,
    columns: &[ColumnTree],
    places: &[u16],
    exprs: &[BoundExpr],
    scope: &Scope<'_>,
) -> Result<Row, Stop>
    ensures { Finds result (spec.filled columns.now (values_given (setting_of scope.now) places.now exprs.now) (spec.null_row columns.now)) }
{
    let mut row = null_row(alloc, columns)?;
    let mut rest = exprs;
    for place in places {
        let [expr, others @ ..] = rest else {
            return Ok(Row::from(row));
        };
        give(alloc, columns, scope, *place, expr, &mut row)?;
        rest = others;
    }
    Ok(Row::from(row))
}

/// A new row, with the values of an answer's row at these places.
pub(crate) fn row_of_answer(
    alloc: Global,
    columns: &[ColumnTree],
    places: &[u16],
    answered: &Row,
) -> Result<Row, Stop>
    ensures { Finds result (spec.filled columns.now (values_selected places.now answered.now) (spec.null_row columns.now)) }
{
    let mut row = null_row(alloc, columns)?;
    let mut rest = answered.as_slice();
    for place in places {
        let [value, others @ ..] = rest else {
            return Ok(Row::from(row));
        };
        store(alloc, columns, *place, value, &mut row)?;
        rest = others;
    }
    Ok(Row::from(row))
}

/// A row as UPDATE sets it. Each value is that of the row as it was.
pub(crate) fn row_set(
    alloc: Global,
    columns: &[ColumnTree],
    sets: &[BoundSet],
    scope: &Scope<'_>,
) -> Result<Row, Stop>
    ensures { Finds result (spec.filled columns.now (values_set (setting_of scope.now) sets.now) scope.now.row.now) }
{
    let mut row = scope.row.copy(alloc)?.into_vec();
    for set in sets {
        give(alloc, columns, scope, set.place, &set.expr, &mut row)?;
    }
    Ok(Row::from(row))
}

/// A NULL for each column.
fn null_row(alloc: Global, columns: &[ColumnTree]) -> Result<Vec<Value>, Memory>
    ensures { IfOk result (λ row. row.items ≡ spec.null_row columns.now) }
{
    Ok(columns.iter().map(|_| Value::Null).collect(alloc)?)
}

/// Stores the value of an expression at a place of a row.
fn give(
    alloc: Global,
    columns: &[ColumnTree],
    scope: &Scope<'_>,
    place: u16,
    expr: &BoundExpr,
    row: &mut Vec<Value>,
) -> Result<(), Stop>
    ensures { FindsBy (λ _. row.new.items) result (spec.with_given columns.now (place, meaning.value (setting_of scope.now) expr.now) row.old.items) }
{
    let value = value_of(alloc, expr, scope)?;
    store(alloc, columns, place, &value, row)
}

/// What an expression gives.
fn value_of(alloc: Global, expr: &BoundExpr, scope: &Scope<'_>) -> Result<Value, Stop>
    ensures { Finds result (meaning.value (setting_of scope.now) expr.now) }
{
    match eval(alloc, expr, scope) {
        Ok(value) => Ok(value),
        Err(EvalFault::Number(number)) => Err(Stop::Number(number)),
        Err(EvalFault::Named { number, .. }) => Err(Stop::Number(number)),
        Err(EvalFault::Memory) => Err(Stop::Memory),
    }
}

/// Stores a value at a place of a row, as one of its column's type.
fn store(
    alloc: Global,
    columns: &[ColumnTree],
    place: u16,
    value: &Value,
    row: &mut Vec<Value>,
) -> Result<(), Stop>
    ensures { FindsBy (λ _. row.new.items) result (spec.with_given columns.now (place, Ok value.now) row.old.items) }
{
    let stored = stored_at(alloc, columns, place, value)?;
    put(row, place, stored);
    Ok(())
}

/// Puts a value at a place of a row, where there is one.
fn put(row: &mut Vec<Value>, place: u16, value: Value)
    ensures { row.new.items ≡ slice_set row.old.items place value }
{
    if let Some(cell) = row.get_mut(usize::from(place)) {
        *cell = value;
    }
}

/// A value as one of the type of the column at a place; where no column is, the value itself.
fn stored_at(
    alloc: Global,
    columns: &[ColumnTree],
    place: u16,
    value: &Value,
) -> Result<Value, Stop>
    ensures { Finds result (spec.stored_at (slice_get columns.now place) value.now) }
{
    match columns.get(usize::from(place)) {
        Some(column) => stored(alloc, column.kind, value),
        None => Ok(value.copy(alloc)?),
    }
}

/// A value as one of a column's type. A text that is too long is refused.
fn stored(alloc: Global, kind: SqlType, value: &Value) -> Result<Value, Stop>
    ensures { Finds result (spec.stored kind value.now) }
{
    match convert(alloc, value, type_of(value), kind) {
        Ok(value) => Ok(value),
        Err(fault) => match error_of(fault, type_of(value), kind) {
            Some(number) => Err(Stop::Number(number)),
            None => Err(Stop::Memory),
        },
    }
}
