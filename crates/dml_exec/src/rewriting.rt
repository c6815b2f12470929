//! The rows of a write, from images of its tables.

ghost use Rattle.std.specs.Prelude.{◌≡◌, [], Some, drop};
ghost use Rattle.scalar_eval.specs.Scopes.{inner_rows, setting_of, values_of};
ghost use Rattle.tsql_tree.specs.Places.{key_places};
ghost use Rattle.query_eval.specs.Ans.{Ans};
ghost use Rattle.query_eval.specs.Joining.{image_of};
ghost use Rattle.query_eval.specs.Phases.{each};
ghost use Rattle.query_eval.specs.Targets as targets;
ghost use Rattle.dml_exec.specs.Filling.{filled, null_row};
ghost use Rattle.dml_exec.specs.Planning as spec;
ghost use Rattle.dml_exec.specs.Found.{FindsBy, Finds};

use crate::fault::Stop;
use crate::filling::{row_of_answer, row_of_values, row_set};
use crate::rewritten::Rewritten;
use bound_tree::{
    BoundExpr, BoundQuery, BoundRows, BoundSet, BoundTest, BoundWrite, Image, InnerQuery,
    SystemValues, Table,
};
use query_eval::{InnerAnswers, answer_rows, inner_answers, rows_meant};
use scalar_eval::{EvalFault, Scope};
use session_vars::Vars;
use sqlite_items::Items;
use std::alloc::Global;
use tsql_tree::{ColumnTree, TableTree};
use value_types::Row;

/// What a write reads beside its own tree.
#[derive(Clone, Copy)]
pub(crate) struct Source<'a> {
    /// The table that is written.
    pub(crate) shape: &'a TableTree,
    /// The places of its key's columns.
    pub(crate) key: &'a [u16],
    /// The images of the inner queries' references, and then that of the table.
    pub(crate) images: &'a [Image],
    /// The variables.
    pub(crate) vars: &'a Vars,
    /// The values of the session.
    pub(crate) system: &'a SystemValues,
}

/// The rows of a write, or its first error.
pub(crate) fn rewritten(
    alloc: Global,
    write: &BoundWrite,
    source: &Source<'_>,
) -> Result<Rewritten, Stop>
    requires key { source.now.key.now ≡ key_places (Some source.now.shape.now) }
    ensures { Finds result (spec.rewritten (values_of source.now.vars.now) source.now.system.now source.now.shape.now write.now source.now.images.now) }
{
    match write {
        BoundWrite::Insert { columns, rows, .. } => {
            let added = rows_added(alloc, columns.as_slice(), rows, source)?;
            Ok(Rewritten::Inserted(Image::from(added)))
        }
        BoundWrite::Update {
            sets,
            filter,
            inner,
            ..
        } => updated(alloc, sets.as_slice(), filter, inner.as_slice(), source),
        BoundWrite::Delete { filter, inner, .. } => {
            deleted(alloc, filter, inner.as_slice(), source)
        }
    }
}

/// The rows that INSERT adds.
fn rows_added(
    alloc: Global,
    places: &[u16],
    rows: &BoundRows,
    source: &Source<'_>,
) -> Result<Vec<Row>, Stop>
    ensures { FindsBy (λ rows. rows.items) result
        (spec.rows_added (values_of source.now.vars.now) source.now.system.now source.now.shape.now places.now rows.now source.now.images.now) }
{
    match rows {
        BoundRows::Values(values, inner) => {
            let answers = answers(alloc, inner.as_slice(), source)?;
            valued(
                alloc,
                places,
                values.as_slice(),
                answers.tables.as_slice(),
                source,
            )
        }
        BoundRows::Query(query) => {
            let selected = selected(alloc, query, source)?;
            from_answer(alloc, places, selected.as_slice(), source)
        }
    }
}

/// The rows of VALUES, where the inner queries have these answers.
fn valued(
    alloc: Global,
    places: &[u16],
    values: &[Items<BoundExpr>],
    inner: &[Table],
    source: &Source<'_>,
) -> Result<Vec<Row>, Stop>
    ensures { FindsBy (λ rows. rows.items) result
        (each (λ exprs. filled source.now.shape.now.columns
        (spec.values_given (targets.setting_over (values_of source.now.vars.now) source.now.system.now (inner_rows inner.now) []) places.now exprs)
        (null_row source.now.shape.now.columns)) values.now) }
{
    let none = Row::from(Vec::new(alloc));
    let scope = Scope {
        row: &none,
        vars: &*source.vars,
        system: &*source.system,
        inner,
    };
    valued_in(
        alloc,
        source.shape.columns.as_slice(),
        places,
        values,
        &scope,
    )
}

/// The rows of VALUES in a setting.
#[tactic(auto, using(query_eval::proofs::Each::each_onto_is))]
fn valued_in(
    alloc: Global,
    columns: &[ColumnTree],
    places: &[u16],
    values: &[Items<BoundExpr>],
    scope: &Scope<'_>,
) -> Result<Vec<Row>, Stop>
    ensures { FindsBy (λ rows. rows.items) result
        (each (λ exprs. filled columns.now (spec.values_given (setting_of scope.now) places.now exprs) (null_row columns.now)) values.now) }
{
    let mut rows = Vec::with_capacity(alloc, values.len())?;
    for exprs in values {
        rows.push(row_of_values(alloc, columns, places, exprs.as_slice(), scope)?)?;
    }
    Ok(rows)
}

/// The rows of an answer, as rows of the table.
#[tactic(auto, using(query_eval::proofs::Each::each_onto_is))]
fn from_answer(
    alloc: Global,
    places: &[u16],
    selected: &[Row],
    source: &Source<'_>,
) -> Result<Vec<Row>, Stop>
    ensures { FindsBy (λ rows. rows.items) result
        (each (λ row. filled source.now.shape.now.columns (spec.values_selected places.now row) (null_row source.now.shape.now.columns)) selected.now) }
{
    let columns = source.shape.columns.as_slice();
    let mut rows = Vec::with_capacity(alloc, selected.len())?;
    for row in selected {
        rows.push(row_of_answer(alloc, columns, places, row)?)?;
    }
    Ok(rows)
}

/// The rows that UPDATE sets.
fn updated(
    alloc: Global,
    sets: &[BoundSet],
    filter: &Option<BoundTest>,
    inner: &[InnerQuery],
    source: &Source<'_>,
) -> Result<Rewritten, Stop>
    requires key { source.now.key.now ≡ key_places (Some source.now.shape.now) }
    ensures { Finds result (spec.rows_updated (values_of source.now.vars.now) source.now.system.now source.now.shape.now sets.now filter.now inner.now source.now.images.now) }
{
    let answers = answers(alloc, inner, source)?;
    let olds = meant(alloc, filter, &answers, source)?;
    let news = set(
        alloc,
        sets,
        olds.as_slice(),
        answers.tables.as_slice(),
        source,
    )?;
    Ok(Rewritten::Set(Image::from(olds), Image::from(news)))
}

/// The rows as they are set.
#[tactic(auto, using(query_eval::proofs::Each::each_onto_is))]
fn set(
    alloc: Global,
    sets: &[BoundSet],
    olds: &[Row],
    inner: &[Table],
    source: &Source<'_>,
) -> Result<Vec<Row>, Stop>
    ensures { FindsBy (λ rows. rows.items) result
        (each (spec.row_set (values_of source.now.vars.now) source.now.system.now source.now.shape.now (inner_rows inner.now) sets.now) olds.now) }
{
    let columns = source.shape.columns.as_slice();
    let mut news = Vec::with_capacity(alloc, olds.len())?;
    for row in olds {
        let scope = Scope {
            row,
            vars: &*source.vars,
            system: &*source.system,
            inner,
        };
        news.push(row_set(alloc, columns, sets, &scope)?)?;
    }
    Ok(news)
}

/// The rows that DELETE erases.
fn deleted(
    alloc: Global,
    filter: &Option<BoundTest>,
    inner: &[InnerQuery],
    source: &Source<'_>,
) -> Result<Rewritten, Stop>
    requires key { source.now.key.now ≡ key_places (Some source.now.shape.now) }
    ensures { Finds result (spec.rows_deleted (values_of source.now.vars.now) source.now.system.now source.now.shape.now filter.now inner.now source.now.images.now) }
{
    let answers = answers(alloc, inner, source)?;
    let olds = meant(alloc, filter, &answers, source)?;
    Ok(Rewritten::Erased(Image::from(olds)))
}

/// The answers of the inner queries.
fn answers(alloc: Global, inner: &[InnerQuery], source: &Source<'_>) -> Result<InnerAnswers, Stop>
    ensures { FindsBy (λ answers. (inner_rows answers.tables, drop answers.read source.now.images.now)) result
        (targets.inner_answers (values_of source.now.vars.now) source.now.system.now inner.now source.now.images.now) }
{
    match inner_answers(alloc, inner, source.images, source.vars, source.system) {
        Ok(answers) => Ok(answers),
        Err(EvalFault::Number(number)) => Err(Stop::Number(number)),
        Err(EvalFault::Named { number, .. }) => Err(Stop::Number(number)),
        Err(EvalFault::Memory) => Err(Stop::Memory),
    }
}

/// The rows of the table that are meant, where the inner queries have these answers.
fn meant(
    alloc: Global,
    filter: &Option<BoundTest>,
    answers: &InnerAnswers,
    source: &Source<'_>,
) -> Result<Vec<Row>, Stop>
    ensures { FindsBy (λ rows. rows.items) result
        (targets.rows_meant (values_of source.now.vars.now) source.now.system.now (inner_rows answers.now.tables) source.now.key.now filter.now
        (image_of (drop answers.now.read source.now.images.now))) }
{
    let image = answers.next_image(source.images);
    let tables = answers.tables.as_slice();
    match rows_meant(
        alloc,
        source.key,
        filter,
        image,
        tables,
        source.vars,
        source.system,
    ) {
        Ok(rows) => Ok(rows),
        Err(EvalFault::Number(number)) => Err(Stop::Number(number)),
        Err(EvalFault::Named { number, .. }) => Err(Stop::Number(number)),
        Err(EvalFault::Memory) => Err(Stop::Memory),
    }
}

/// The rows of a select.
fn selected(alloc: Global, query: &BoundQuery, source: &Source<'_>) -> Result<Vec<Row>, Stop>
    ensures { FindsBy (λ rows. rows.items) result (Ans (values_of source.now.vars.now) source.now.system.now query.now source.now.images.now) }
{
    match answer_rows(alloc, query, source.images, source.vars, source.system) {
        Ok(rows) => Ok(rows),
        Err(EvalFault::Number(number)) => Err(Stop::Number(number)),
        Err(EvalFault::Named { number, .. }) => Err(Stop::Number(number)),
        Err(EvalFault::Memory) => Err(Stop::Memory),
    }
}
