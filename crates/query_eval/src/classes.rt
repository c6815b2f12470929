//! The classes of rows, each as a row: its first row with the sums behind it.

ghost use Rattle.std.specs.Prelude.{◌≡◌, ◌++◌, ◌∷◌, [], get_or, map, replicate, if◌then◌else◌, true, IfOk, Ok};
ghost use Rattle.value_types.specs.declared.value.Value.TheVariants.{Null};
ghost use Rattle.bound_tree.specs.Meaning as meaning;
ghost use Rattle.bound_tree.specs.Outcomes.{after};
ghost use Rattle.group_rows.specs.Equals.{firsts};
ghost use Rattle.query_eval.specs.Found.{Finds, FindsBy, setting_at};
ghost use Rattle.query_eval.specs.Phases as spec;
ghost use Rattle.query_eval.specs.Places.{row_at, rows_at_places};

use crate::context::Context;
use crate::fault::Stop;
use crate::firsts::distinct_values;
use bound_tree::{BoundExpr, Sum};
use group_rows::{classes, total};
use std::alloc::Global;
use value_types::{Memory, Row, Value};

/// How many rows are put into classes at most; for more, memory is wanting.
const PLACE_LIMIT: usize = 2147483648;

/// The rows, or where they are gathered their classes, each as a row.
pub(crate) fn class_rows(
    alloc: Global,
    context: &Context<'_>,
    grouped: bool,
    width: u32,
    groups: &[BoundExpr],
    sums: &[Sum],
    rows: Vec<Row>,
) -> Result<Vec<Row>, Stop>
    ensures { FindsBy (λ rows. rows.items) result
        (spec.class_rows (setting_at context.now) grouped width groups.now sums.now rows.items) }
{
    if grouped {
        gathered_rows(alloc, context, width, groups, sums, rows.as_slice())
    } else {
        Ok(rows)
    }
}

/// The classes of rows, each as a row.
fn gathered_rows(
    alloc: Global,
    context: &Context<'_>,
    width: u32,
    groups: &[BoundExpr],
    sums: &[Sum],
    rows: &[Row],
) -> Result<Vec<Row>, Stop>
    ensures { FindsBy (λ rows. rows.items) result
        (spec.class_rows (setting_at context.now) true width groups.now sums.now rows.now) }
{
    let found = classes_of(alloc, context, groups, rows)?;
    rows_of_classes(alloc, context, width, sums, rows, found.as_slice())
}

/// The classes that the expressions of GROUP BY make, as the places of their rows; without GROUP BY there
/// is one.
fn classes_of(
    alloc: Global,
    context: &Context<'_>,
    exprs: &[BoundExpr],
    rows: &[Row],
) -> Result<Vec<Vec<u32>>, Stop>
    ensures { FindsBy (λ found. map (λ class. rows_at_places rows.now class.items) found.items) result
        (spec.classes_of (setting_at context.now) exprs.now rows.now) }
{
    if exprs.is_empty() {
        return Ok(one_class(alloc, rows)?);
    }
    let keys = keys_of(alloc, context, exprs, rows)?;
    if keys.len() >= PLACE_LIMIT {
        return Err(Stop::Memory);
    }
    Ok(classes(alloc, keys.as_slice())?)
}

/// The class of all rows.
fn one_class(alloc: Global, rows: &[Row]) -> Result<Vec<Vec<u32>>, Memory>
    ensures { IfOk result (λ found. map (λ class. rows_at_places rows.now class.items) found.items ≡ rows.now ∷ []) }
{
    let places = all_places(alloc, rows)?;
    Ok(vec![in alloc; places]?)
}

/// The places of all rows.
fn all_places(alloc: Global, rows: &[Row]) -> Result<Vec<u32>, Memory>
    ensures { IfOk result (λ places. rows_at_places rows.now places.items ≡ rows.now) }
{
    if rows.len() >= PLACE_LIMIT {
        return Err(Memory);
    }
    let mut places = Vec::with_capacity(alloc, rows.len())?;
    for place in 0..rows.len() {
        places.push(place as u32)?;
    }
    Ok(places)
}

/// The values of the expressions for each row.
#[tactic(auto, using(crate::proofs::Each::each_onto_is))]
fn keys_of(
    alloc: Global,
    context: &Context<'_>,
    exprs: &[BoundExpr],
    rows: &[Row],
) -> Result<Vec<Row>, Stop>
    ensures { FindsBy (λ keys. keys.items) result
        (spec.each (λ row. spec.each (meaning.value (setting_at context.now row)) exprs.now) rows.now) }
{
    let mut keys = Vec::with_capacity(alloc, rows.len())?;
    for row in rows {
        keys.push(key_of(alloc, context, exprs, row)?)?;
    }
    Ok(keys)
}

/// The values of the expressions for a row.
#[tactic(auto, using(crate::proofs::Each::each_onto_is))]
fn key_of(alloc: Global, context: &Context<'_>, exprs: &[BoundExpr], row: &Row) -> Result<Row, Stop>
    ensures { Finds result (spec.each (meaning.value (setting_at context.now row.now)) exprs.now) }
{
    let mut values = Vec::with_capacity(alloc, exprs.len())?;
    for expr in exprs {
        values.push(context.value(alloc, expr, row)?)?;
    }
    Ok(Row::from(values))
}

/// Each class as a row.
#[tactic(auto, using(crate::proofs::Each::each_onto_is))]
fn rows_of_classes(
    alloc: Global,
    context: &Context<'_>,
    width: u32,
    sums: &[Sum],
    rows: &[Row],
    found: &[Vec<u32>],
) -> Result<Vec<Row>, Stop>
    ensures { FindsBy (λ rows. rows.items) result
        (spec.each (λ class. spec.class_row (setting_at context.now) width sums.now (rows_at_places rows.now class.items)) found.now) }
{
    let mut made = Vec::with_capacity(alloc, found.len())?;
    for class in found {
        made.push(class_row(alloc, context, width, sums, rows, class.as_slice())?)?;
    }
    Ok(made)
}

/// A class as a row: its first row, of no row NULLs, and the sums behind it.
fn class_row(
    alloc: Global,
    context: &Context<'_>,
    width: u32,
    sums: &[Sum],
    rows: &[Row],
    class: &[u32],
) -> Result<Row, Stop>
    ensures { Finds result (spec.class_row (setting_at context.now) width sums.now (rows_at_places rows.now class.now)) }
{
    let first = first_values(alloc, width, rows, class)?;
    let values = with_totals(alloc, context, first, sums, rows, class)?;
    Ok(Row::from(values))
}

/// The values of the first row of a class; of no row NULLs.
fn first_values(
    alloc: Global,
    width: u32,
    rows: &[Row],
    class: &[u32],
) -> Result<Vec<Value>, Memory>
    ensures { IfOk result (λ values. values.items ≡ get_or (rows_at_places rows.now class.now) 0 (replicate width Null)) }
{
    match class {
        [] => nulls(alloc, width as usize),
        [place, ..] => Ok(row_copy(alloc, rows, *place)?.into_vec()),
    }
}

/// The row at a place; one without columns where there is none.
fn row_copy(alloc: Global, rows: &[Row], place: u32) -> Result<Row, Memory>
    ensures { IfOk result (λ row. row ≡ row_at rows.now place) }
{
    match rows.get(place as usize) {
        Some(row) => row.copy(alloc),
        None => Ok(Row::from(Vec::new(alloc))),
    }
}

/// As many NULLs.
fn nulls(alloc: Global, count: usize) -> Result<Vec<Value>, Memory>
    ensures { IfOk result (λ values. values.items ≡ replicate count Null) }
{
    let mut values = Vec::with_capacity(alloc, count)?;
    for _place in 0..count {
        values.push(Value::Null)?;
    }
    Ok(values)
}

/// Values with the sums of a class behind them.
#[tactic(auto, using(crate::proofs::Each::each_behind))]
fn with_totals(
    alloc: Global,
    context: &Context<'_>,
    values: Vec<Value>,
    sums: &[Sum],
    rows: &[Row],
    class: &[u32],
) -> Result<Vec<Value>, Stop>
    ensures { FindsBy (λ found. found.items) result (after
        (spec.each (spec.sum_value (setting_at context.now) (rows_at_places rows.now class.now)) sums.now)
        (λ totals. Ok (values.items ++ totals))) }
{
    let mut values = values;
    for sum in sums {
        values.push(sum_value(alloc, context, sum, rows, class)?)?;
    }
    Ok(values)
}

/// A sum of a class.
fn sum_value(
    alloc: Global,
    context: &Context<'_>,
    sum: &Sum,
    rows: &[Row],
    class: &[u32],
) -> Result<Value, Stop>
    ensures { Finds result (spec.sum_value (setting_at context.now) (rows_at_places rows.now class.now) sum.now) }
{
    let all = operands_of(alloc, context, &sum.of, rows, class)?;
    let values = values_if(alloc, sum.distinct, all)?;
    match total(alloc, values.as_slice(), sum.kind, sum.to) {
        Ok(value) => Ok(value),
        Err(fault) => Err(Stop::from(fault)),
    }
}

/// Of what a sum is taken: COUNT(*) of a value for each row.
fn operands_of(
    alloc: Global,
    context: &Context<'_>,
    of: &Option<BoundExpr>,
    rows: &[Row],
    class: &[u32],
) -> Result<Vec<Value>, Stop>
    ensures { FindsBy (λ values. values.items) result
        (spec.operands_of (setting_at context.now) of.now (rows_at_places rows.now class.now)) }
{
    match of {
        None => Ok(nulls(alloc, class.len())?),
        Some(expr) => class_values(alloc, context, expr, rows, class),
    }
}

/// What an expression gives for each row of a class.
#[tactic(auto, using(crate::proofs::Each::each_onto_is))]
fn class_values(
    alloc: Global,
    context: &Context<'_>,
    expr: &BoundExpr,
    rows: &[Row],
    class: &[u32],
) -> Result<Vec<Value>, Stop>
    ensures { FindsBy (λ values. values.items) result
        (spec.each (λ place. meaning.value (setting_at context.now (row_at rows.now place)) expr.now) class.now) }
{
    let mut values = Vec::with_capacity(alloc, class.len())?;
    for place in class {
        values.push(value_of_row(alloc, context, expr, rows, *place)?)?;
    }
    Ok(values)
}

/// What an expression gives for the row at a place.
fn value_of_row(
    alloc: Global,
    context: &Context<'_>,
    expr: &BoundExpr,
    rows: &[Row],
    place: u32,
) -> Result<Value, Stop>
    ensures { Finds result (meaning.value (setting_at context.now (row_at rows.now place)) expr.now) }
{
    match rows.get(place as usize) {
        Some(row) => context.value(alloc, expr, row),
        None => {
            let none = Row::from(Vec::new(alloc));
            context.value(alloc, expr, &none)
        }
    }
}

/// The values, or with DISTINCT the first of equal ones.
fn values_if(alloc: Global, distinct: bool, values: Vec<Value>) -> Result<Vec<Value>, Memory>
    ensures { IfOk result (λ found. found.items ≡ (if distinct then firsts spec.same_value values.items else values.items)) }
{
    if distinct {
        distinct_values(alloc, values)
    } else {
        Ok(values)
    }
}
