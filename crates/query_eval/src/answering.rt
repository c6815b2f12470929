//! The answer of a query.

ghost use Rattle.std.specs.Prelude.{◌≡◌, map, IfOk, Ok};
ghost use Rattle.bound_tree.specs.declared.query.BoundQuery.{out-BoundQuery};
ghost use Rattle.bound_tree.specs.Outcomes.{after};
ghost use Rattle.scalar_eval.specs.Answers.{Gives};
ghost use Rattle.scalar_eval.specs.Scopes.{inner_rows, values_of};
ghost use Rattle.query_eval.specs.Ans as spec;
ghost use Rattle.query_eval.specs.Given.{GivesRows};
ghost use Rattle.query_eval.specs.Found.{FindsBy, Finds, stock_of};

use crate::PAIR_LIMIT;
use crate::context::Context;
use crate::fault::{Stop, widened};
use crate::joining::{Left, joined_refs};
use crate::key_tests::where_tests;
use crate::phases::rows_given;
use bound_tree::{BoundQuery, Image, InnerQuery, Item, SystemValues, Table};
use scalar_eval::EvalFault;
use session_vars::Vars;
use sqlite_items::Items;
use std::alloc::Global;
use value_types::{Memory, Row, SqlType, Units};

/// The error where an inner query that stands as a value has rows more than one.
const SEVERAL_ROWS: i32 = 512;

/// What a statement reads beside its own tree.
#[derive(Clone, Copy)]
pub(crate) struct Source<'a> {
    pub(crate) images: &'a [Image],
    pub(crate) vars: &'a Vars,
    pub(crate) system: &'a SystemValues,
}

/// What a query answers on images, which stand for the references of its inner queries first, and then for
/// its own, each from left to right.
///
/// # Errors
///
/// `Number` with the first error in the order of the phases, 512 where an inner query that stands as a value
/// has rows more than one, and 49003 where more than [`PAIR_LIMIT`] pairs are wanted; `Memory`, also where
/// 2^31 rows or more are to be put into classes.
pub fn answer(
    alloc: Global,
    query: &BoundQuery,
    images: &[Image],
    vars: &Vars,
    system: &SystemValues,
) -> Result<Table, EvalFault>
    ensures { Gives result (after (spec.Ans (values_of vars.now) system.now query.now images.now)
        (λ rows. Ok (spec.table_of query.now rows))) }
{
    match answered(
        alloc,
        query,
        &Source {
            images,
            vars,
            system,
        },
    ) {
        Ok(table) => Ok(table),
        Err(stop) => Err(widened(stop)),
    }
}

/// The rows alone of what a query answers, with the errors of [`answer`].
pub fn answer_rows(
    alloc: Global,
    query: &BoundQuery,
    images: &[Image],
    vars: &Vars,
    system: &SystemValues,
) -> Result<Vec<Row>, EvalFault>
    ensures { GivesRows result (spec.Ans (values_of vars.now) system.now query.now images.now) }
{
    match given_rows(
        alloc,
        query,
        &Source {
            images,
            vars,
            system,
        },
    ) {
        Ok(rows) => Ok(rows),
        Err(stop) => Err(widened(stop)),
    }
}

/// The same, with why there is no answer in two words.
fn answered(alloc: Global, query: &BoundQuery, source: &Source<'_>) -> Result<Table, Stop>
    ensures { Finds result (after (spec.Ans (values_of source.now.vars.now) source.now.system.now query.now source.now.images.now)
        (λ rows. Ok (spec.table_of query.now rows))) }
{
    let rows = given_rows(alloc, query, source)?;
    Ok(table_of(alloc, query, rows)?)
}

/// The rows that a query answers, from the whole budget.
fn given_rows(alloc: Global, query: &BoundQuery, source: &Source<'_>) -> Result<Vec<Row>, Stop>
    ensures { FindsBy (λ rows. rows.items) result (spec.Ans (values_of source.now.vars.now) source.now.system.now query.now source.now.images.now) }
{
    let mut left = Left {
        read: 0,
        budget: PAIR_LIMIT,
    };
    query_rows(alloc, query, source, &mut left)
}

/// Rows with the names and types of a query's items.
fn table_of(alloc: Global, query: &BoundQuery, rows: Vec<Row>) -> Result<Table, Memory>
    ensures { IfOk result (λ table. table ≡ spec.table_of query.now rows.items) }
{
    let items = query.items.as_slice();
    Ok(Table {
        names: Items::from_vec(names_of(alloc, items)?),
        kinds: Items::from_vec(kinds_of(alloc, items)?),
        rows: Items::from_vec(rows),
    })
}

/// The names of items.
fn names_of(alloc: Global, items: &[Item]) -> Result<Vec<Units>, Memory>
    ensures { IfOk result (λ names. names.items ≡ map (λ item. item.name) items.now) }
{
    let mut names = Vec::with_capacity(alloc, items.len())?;
    for item in items {
        names.push(item.name.copy(alloc)?)?;
    }
    Ok(names)
}

/// The types of items.
fn kinds_of(alloc: Global, items: &[Item]) -> Result<Vec<SqlType>, Memory>
    ensures { IfOk result (λ kinds. kinds.items ≡ map (λ item. item.kind) items.now) }
{
    let mut kinds = Vec::with_capacity(alloc, items.len())?;
    for item in items {
        kinds.push(item.kind)?;
    }
    Ok(kinds)
}

/// The rows that a query answers.
#[cycle(inner_queries)]
fn query_rows(
    alloc: Global,
    query: &BoundQuery,
    source: &Source<'_>,
    left: &mut Left,
) -> Result<Vec<Row>, Stop>
    ensures { FindsBy (λ rows. (rows.items, stock_of source.now.images.now left.new)) result
        (spec.answer_of (values_of source.now.vars.now) source.now.system.now query.now (stock_of source.now.images.now left.old)) }
{
    let inner = inner_tables(alloc, query.inner.as_slice(), source, left)?;
    own_rows(alloc, query, source, inner.as_slice(), left)
}

/// The answers of inner queries, one after another.
#[cycle(inner_queries)]
#[tactic(auto, using(crate::proofs::Inner::inner_onto_is))]
pub(crate) fn inner_tables(
    alloc: Global,
    inners: &[InnerQuery],
    source: &Source<'_>,
    left: &mut Left,
) -> Result<Vec<Table>, Stop>
    ensures { FindsBy (λ tables. (inner_rows tables.items, stock_of source.now.images.now left.new)) result
        (spec.inner_rows (map (spec.inner_answer (values_of source.now.vars.now) source.now.system.now) inners.now)
        (stock_of source.now.images.now left.old)) }
{
    let mut tables = Vec::with_capacity(alloc, inners.len())?;
    for inner in inners {
        let rows = inner_answer(alloc, inner, source, left)?;
        tables.push(rows_table(alloc, rows))?;
    }
    Ok(tables)
}

/// The rows that an inner query answers, of which there may be one at most where it stands as a value.
#[cycle(inner_queries)]
fn inner_answer(
    alloc: Global,
    inner: &InnerQuery,
    source: &Source<'_>,
    left: &mut Left,
) -> Result<Vec<Row>, Stop>
    ensures { FindsBy (λ rows. (rows.items, stock_of source.now.images.now left.new)) result
        (spec.inner_answer (values_of source.now.vars.now) source.now.system.now inner.now (stock_of source.now.images.now left.old)) }
{
    let rows = query_rows(alloc, &inner.query, source, left)?;
    rows_allowed(inner.single, rows)
}

/// Rows, of which there may be one at most where a value is wanted.
fn rows_allowed(single: bool, rows: Vec<Row>) -> Result<Vec<Row>, Stop>
    ensures { FindsBy (λ rows. rows.items) result (spec.rows_allowed single rows.items) }
{
    if single && rows.len() > 1 {
        Err(Stop::Number(SEVERAL_ROWS))
    } else {
        Ok(rows)
    }
}

/// Rows alone as a table.
fn rows_table(alloc: Global, rows: Vec<Row>) -> Table
    ensures { result.rows ≡ rows.items }
{
    Table {
        names: Items::new(alloc),
        kinds: Items::new(alloc),
        rows: Items::from_vec(rows),
    }
}

/// The rows of a query whose inner queries are answered.
fn own_rows(
    alloc: Global,
    query: &BoundQuery,
    source: &Source<'_>,
    inner: &[Table],
    left: &mut Left,
) -> Result<Vec<Row>, Stop>
    ensures { FindsBy (λ rows. (rows.items, stock_of source.now.images.now left.new)) result
        (spec.own_rows (values_of source.now.vars.now) source.now.system.now (inner_rows inner.now)
        (out-BoundQuery query.now) (stock_of source.now.images.now left.old)) }
{
    let context = Context {
        vars: &*source.vars,
        system: &*source.system,
        inner,
    };
    let tests = where_tests(alloc, context.vars, &query.filter)?;
    let (refs, images) = (query.refs.as_slice(), source.images);
    let joined = joined_refs(alloc, &context, tests.as_slice(), refs, images, left)?;
    rows_given(alloc, &context, query, joined)
}
