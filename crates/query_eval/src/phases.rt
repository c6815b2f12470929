//! What comes of the joined rows of a query, phase by phase.

ghost use Rattle.std.specs.Prelude.{◌≡◌, true, sum_by, map, IfOk};
ghost use Rattle.std.specs.List.{filter, zip};
ghost use Rattle.bound_tree.specs.declared.query.BoundQuery.{out-BoundQuery};
ghost use Rattle.bound_tree.specs.Meaning as meaning;
ghost use Rattle.bound_tree.specs.Truths.{is_true};
ghost use Rattle.query_eval.specs.Found.{Finds, FindsBy, setting_at};
ghost use Rattle.query_eval.specs.Phases as spec;

use crate::classes::class_rows;
use crate::context::Context;
use crate::fault::Stop;
use crate::firsts::pairs_of;
use crate::joining::wider;
use bound_tree::{BoundOrder, BoundQuery, BoundTest, Item, OrderKey, Reference, Truth};
use group_rows::{Spot, distinct_pairs, ordered, push_pair};
use std::alloc::{AllocError, Global};
use value_types::{Memory, Row, Value};

/// How many spots there are at most by which rows that come again are found.
const SPOTS: usize = 16_381;

/// What comes of the joined rows of a query.
pub(crate) fn rows_given(
    alloc: Global,
    context: &Context<'_>,
    query: &BoundQuery,
    joined: Vec<Row>,
) -> Result<Vec<Row>, Stop>
    ensures { FindsBy (λ rows. rows.items) result
        (spec.rows_given (setting_at context.now) (out-BoundQuery query.now) joined.items) }
{
    let width = width_of(query.refs.as_slice())?;
    let found = rows_where(alloc, context, &query.filter, joined)?;
    let (groups, sums) = (query.groups.as_slice(), query.sums.as_slice());
    let rows = class_rows(alloc, context, query.grouped, width, groups, sums, found)?;
    let kept = rows_where(alloc, context, &query.having, rows)?;
    let pairs = with_items(alloc, context, query.distinct, query.items.as_slice(), kept)?;
    let in_order = in_order_of(alloc, context, query.order.as_slice(), pairs)?;
    Ok(top_of(query.top, in_order))
}

/// How many columns references have.
fn width_of(refs: &[Reference]) -> Result<u32, Memory>
    ensures { IfOk result (λ width. width ≡ sum_by (λ reference. reference.width) refs.now) }
{
    let mut width = 0;
    for reference in refs {
        width = wider(width, reference.width)?;
    }
    Ok(width)
}

/// The rows of which a test is true, where there is one: WHERE and HAVING.
pub(crate) fn rows_where(
    alloc: Global,
    context: &Context<'_>,
    test: &Option<BoundTest>,
    rows: Vec<Row>,
) -> Result<Vec<Row>, Stop>
    ensures { FindsBy (λ rows. rows.items) result (spec.rows_where (setting_at context.now) test.now rows.items) }
{
    match test {
        None => Ok(rows),
        Some(test) => {
            let truths = truths(alloc, context, test, rows.as_slice())?;
            Ok(rows_true(alloc, rows, truths)?)
        }
    }
}

/// What a test says of each row.
#[tactic(auto, using(crate::proofs::Each::each_onto_is))]
fn truths(
    alloc: Global,
    context: &Context<'_>,
    test: &BoundTest,
    rows: &[Row],
) -> Result<Vec<Truth>, Stop>
    ensures { FindsBy (λ truths. truths.items) result
        (spec.each (λ row. meaning.truth (setting_at context.now row) test.now) rows.now) }
{
    let mut truths = Vec::with_capacity(alloc, rows.len())?;
    for row in rows {
        truths.push(context.truth(alloc, test, row)?)?;
    }
    Ok(truths)
}

/// The rows whose truth is true.
fn rows_true(alloc: Global, rows: Vec<Row>, truths: Vec<Truth>) -> Result<Vec<Row>, Memory>
    ensures { IfOk result (λ found. found.items ≡ map (λ pair. pair.0) (filter (λ pair. is_true pair.1) (zip rows.items truths.items))) }
{
    let pairs = rows.into_iter().zip(truths);
    Ok(
        pairs
            .filter(|pair| is_true(pair.1))
            .map(|pair| pair.0)
            .collect(alloc)?,
    )
}

fn is_true(truth: Truth) -> bool
    ensures { result ≡ is_true truth }
{
    matches!(truth, Truth::True)
}

/// Each row beside what the items give for it; with DISTINCT the first of those for which they give equal
/// rows.
fn with_items(
    alloc: Global,
    context: &Context<'_>,
    distinct: bool,
    items: &[Item],
    rows: Vec<Row>,
) -> Result<Vec<(Row, Row)>, Stop>
    ensures { FindsBy (λ pairs. pairs.items) result
        (spec.with_items (setting_at context.now) distinct items.now rows.items) }
{
    if distinct {
        let pairs = fewer_pairs(alloc, context, items, rows)?;
        return Ok(distinct_pairs(alloc, pairs)?);
    }
    let values = item_rows(alloc, context, items, rows.as_slice())?;
    Ok(pairs_of(alloc, rows, values)?)
}

/// Each row beside what the items give for it, without some of those for which they give what they gave
/// before. So most rows that come again are dropped at once, and only what is left is put in order.
fn fewer_pairs(
    alloc: Global,
    context: &Context<'_>,
    items: &[Item],
    rows: Vec<Row>,
) -> Result<Vec<(Row, Row)>, Stop>
    ensures { FindsBy (λ pairs. spec.distinct_if true pairs.items) result
        (spec.with_items (setting_at context.now) true items.now rows.items) }
{
    let count = rows.len();
    let mut spots = vec![in alloc; Spot::first(); count.min(SPOTS)]?;
    let mut pairs = Vec::with_capacity(alloc, count)?;
    for row in rows {
        let values = item_row(alloc, context, items, &row)?;
        push_pair(&mut spots, &mut pairs, (row, values))?;
    }
    Ok(pairs)
}

/// What the items give for each row.
#[tactic(auto, using(crate::proofs::Each::each_onto_is))]
fn item_rows(
    alloc: Global,
    context: &Context<'_>,
    items: &[Item],
    rows: &[Row],
) -> Result<Vec<Row>, Stop>
    ensures { FindsBy (λ found. found.items) result
        (spec.each (λ row. spec.each (λ item. meaning.value (setting_at context.now row) item.expr) items.now) rows.now) }
{
    let mut found = Vec::with_capacity(alloc, rows.len())?;
    for row in rows {
        found.push(item_row(alloc, context, items, row)?)?;
    }
    Ok(found)
}

/// What the items give for a row.
#[tactic(auto, using(crate::proofs::Each::each_onto_is))]
fn item_row(alloc: Global, context: &Context<'_>, items: &[Item], row: &Row) -> Result<Row, Stop>
    ensures { Finds result (spec.each (λ item. meaning.value (setting_at context.now row.now) item.expr) items.now) }
{
    let mut values = Vec::with_capacity(alloc, items.len())?;
    for item in items {
        values.push(context.value(alloc, &item.expr, row)?)?;
    }
    Ok(Row::from(values))
}

/// What the items give, in the order of rows beside what the items give for them.
fn in_order_of(
    alloc: Global,
    context: &Context<'_>,
    order: &[BoundOrder],
    pairs: Vec<(Row, Row)>,
) -> Result<Vec<Row>, Stop>
    ensures { FindsBy (λ rows. rows.items) result (spec.in_order_of (setting_at context.now) order.now pairs.items) }
{
    let keys = order_keys(alloc, context, order, pairs.as_slice())?;
    let downs = downs_of(alloc, order)?;
    let rows = items_of(alloc, pairs)?;
    Ok(ordered(alloc, rows, keys, downs.as_slice())?)
}

/// The key of each row beside its items.
#[tactic(auto, using(crate::proofs::Each::each_onto_is))]
fn order_keys(
    alloc: Global,
    context: &Context<'_>,
    order: &[BoundOrder],
    pairs: &[(Row, Row)],
) -> Result<Vec<Row>, Stop>
    ensures { FindsBy (λ keys. keys.items) result
        (spec.each (λ pair. spec.each (λ by. spec.order_value (setting_at context.now) pair by.key) order.now) pairs.now) }
{
    let mut keys = Vec::with_capacity(alloc, pairs.len())?;
    for pair in pairs {
        keys.push(order_key(alloc, context, order, pair)?)?;
    }
    Ok(keys)
}

/// The key of a row beside its items.
#[tactic(auto, using(crate::proofs::Each::each_onto_is))]
fn order_key(
    alloc: Global,
    context: &Context<'_>,
    order: &[BoundOrder],
    pair: &(Row, Row),
) -> Result<Row, Stop>
    ensures { Finds result (spec.each (λ by. spec.order_value (setting_at context.now) pair.now by.key) order.now) }
{
    let mut values = Vec::with_capacity(alloc, order.len())?;
    for by in order {
        values.push(order_value(alloc, context, pair, &by.key)?)?;
    }
    Ok(Row::from(values))
}

/// By what a row beside its items is ordered.
fn order_value(
    alloc: Global,
    context: &Context<'_>,
    pair: &(Row, Row),
    key: &OrderKey,
) -> Result<Value, Stop>
    ensures { Finds result (spec.order_value (setting_at context.now) pair.now key.now) }
{
    match key {
        OrderKey::Item(place) => match pair.1.as_slice().get(usize::from(*place)) {
            Some(value) => Ok(value.copy(alloc)?),
            None => Ok(Value::Null),
        },
        OrderKey::Expr(expr) => context.value(alloc, expr, &pair.0),
    }
}

/// Which keys go down.
fn downs_of(alloc: Global, order: &[BoundOrder]) -> Result<Vec<bool>, AllocError>
    ensures { IfOk result (λ downs. downs.items ≡ map (λ by. by.descending) order.now) }
{
    let mut downs = Vec::with_capacity(alloc, order.len())?;
    for by in order {
        downs.push(by.descending)?;
    }
    Ok(downs)
}

/// What the items give, without the rows.
fn items_of(alloc: Global, pairs: Vec<(Row, Row)>) -> Result<Vec<Row>, Memory>
    ensures { IfOk result (λ rows. rows.items ≡ map (λ pair. pair.1) pairs.items) }
{
    Ok(pairs.into_iter().map(|pair| pair.1).collect(alloc)?)
}

/// At most so many rows, where TOP says it.
fn top_of(top: Option<u32>, rows: Vec<Row>) -> Vec<Row>
    ensures { result.items ≡ spec.top_of top rows.items }
{
    let mut rows = rows;
    match top {
        Some(count) => {
            rows.truncate(count as usize);
            rows
        }
        None => rows,
    }
}
