//! Rows beside their items, and the first of equal values.

ghost use Rattle.std.specs.Prelude.{◌≡◌, ◌∷◌, [], map, IfOk};
ghost use Rattle.std.specs.List.{zip};
ghost use Rattle.bound_tree.specs.Setting.{only_of};
ghost use Rattle.group_rows.specs.Equals.{firsts};
ghost use Rattle.query_eval.specs.Phases as spec;

use group_rows::distinct;
use std::alloc::Global;
use value_types::{Memory, Row, Value};

/// Each row beside its items.
pub(crate) fn pairs_of(
    alloc: Global,
    rows: Vec<Row>,
    values: Vec<Row>,
) -> Result<Vec<(Row, Row)>, Memory>
    ensures { IfOk result (λ pairs. pairs.items ≡ zip rows.items values.items) }
{
    Ok(rows.into_iter().zip(values).collect(alloc)?)
}

/// The first of equal values, in order.
pub(crate) fn distinct_values(alloc: Global, values: Vec<Value>) -> Result<Vec<Value>, Memory>
    ensures { IfOk result (λ found. found.items ≡ firsts spec.same_value values.items) }
{
    let rows = rows_of_one(alloc, values)?;
    let found = distinct(alloc, rows)?;
    only_values(alloc, found)
}

/// Each value as a row.
fn rows_of_one(alloc: Global, values: Vec<Value>) -> Result<Vec<Row>, Memory>
    ensures { IfOk result (λ rows. rows.items ≡ map (λ value. value ∷ []) values.items) }
{
    let mut rows = Vec::with_capacity(alloc, values.len())?;
    for value in values {
        rows.push(Row::from(vec![in alloc; value]?))?;
    }
    Ok(rows)
}

/// The first value of each row.
fn only_values(alloc: Global, rows: Vec<Row>) -> Result<Vec<Value>, Memory>
    ensures { IfOk result (λ values. values.items ≡ map only_of rows.items) }
{
    Ok(rows.into_iter().map(|row| only(row)).collect(alloc)?)
}

/// The first value of a row; NULL where there is none.
fn only(row: Row) -> Value
    ensures { result ≡ only_of row }
{
    let mut values = row.into_vec();
    values.truncate(1);
    match values.pop() {
        Some(value) => value,
        None => Value::Null,
    }
}
