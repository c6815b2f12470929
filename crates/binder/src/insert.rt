//! INSERT.

ghost use Rattle.std.specs.Prelude.{◌≡◌, [], length, nat_eq, Ok};
ghost use Rattle.std.specs.List.{list_all};
ghost use Rattle.typed_nodes.specs.Refusals.{Gives};
ghost use Rattle.clause_binder.specs.Answers.{GivesOn};
ghost use Rattle.binder.specs.Writes as spec;

use crate::and_next::and_next;
use crate::fault::{WRONG_COUNT, refused_unnamed};
use crate::limits::is_beyond;
use crate::made::Made;
use crate::places::{all_places, columns_of, is_repeated, places_of};
use bound_tree::{Bound, BoundExpr, BoundRows, BoundWrite};
use clause_binder::{Context, Progress, Selected, is_deep};
use query_binder::Binder;
use sqlite_items::Items;
use std::alloc::Global;
use tsql_tree::{ColumnTree, Expr, InsertRows};
use typed_nodes::BindFault;
use value_types::{TableName, Units};

/// How many columns an answer has at most.
const MAX_COLUMNS: usize = 64;

/// An INSERT into a table. Error 207 where it has no column of a name, and 213 where a row has not
/// as many values as there are columns.
pub(crate) fn insert<'d>(
    binder: &Binder<'_, 'd>,
    table: &'d Units,
    names: &[Units],
    rows: &'d InsertRows,
) -> Result<Made, BindFault>
    ensures { Gives result (spec.insert binder.now.definitions.now binder.now.vars.now table.now names.now rows.now) }
{
    let columns = columns_of(table, binder.definitions);
    let places = given_places(binder.alloc, columns, names)?;
    let twice = is_repeated(names);
    match rows {
        InsertRows::Values(values) => insert_values(
            binder,
            table,
            places,
            twice,
            values.as_slice(),
        ),
        InsertRows::Query(select) => {
            let select = binder.bind_select(select)?;
            insert_selected(binder.alloc, table, places, twice, select)
        }
    }
}

/// The columns that are given: those of the list, or all in their order.
fn given_places(
    alloc: Global,
    columns: &[ColumnTree],
    names: &[Units],
) -> Result<Items<u16>, BindFault>
    ensures { Gives result (spec.given_places columns.now names.now) }
{
    match names {
        [] => all_places(alloc, columns),
        [_, ..] => places_of(alloc, columns, names),
    }
}

/// The table itself, and none of its indexes.
pub(crate) fn whole_table(alloc: Global, table: &Units) -> Result<TableName, BindFault>
    ensures { Gives result (Ok (spec.whole_table table.now)) }
{
    Ok(TableName {
        object: table.copy(alloc)?,
        part: 0,
    })
}

/// The rows of VALUES.
fn insert_values<'d>(
    binder: &Binder<'_, 'd>,
    table: &'d Units,
    places: Items<u16>,
    twice: bool,
    values: &'d [Items<Expr>],
) -> Result<Made, BindFault>
    ensures { Gives result (spec.insert_values binder.now.definitions.now binder.now.vars.now table.now places twice values.now) }
{
    if !are_as_wide(values, places.len()) {
        return refused_unnamed(binder.alloc, WRONG_COUNT);
    }
    let at = Context::plain(&[]);
    let mut done = Progress::begin_at(binder.alloc, 0);
    done.note_beyond(twice);
    let rows = bind_rows(binder, values, &at, &mut done)?;
    values_inserted(binder.alloc, table, places, rows, done)
}

fn values_inserted(
    alloc: Global,
    table: &Units,
    columns: Items<u16>,
    rows: Items<Items<BoundExpr>>,
    done: Progress,
) -> Result<Made, BindFault>
    ensures { Gives result (Ok (spec.values_inserted table.now columns rows done)) }
{
    let beyond = is_beyond(&done);
    let table = whole_table(alloc, table)?;
    let rows = BoundRows::Values(rows, done.inner);
    Ok(Made {
        bound: Bound::Write(BoundWrite::Insert {
            table,
            columns,
            rows,
        }),
        beyond,
    })
}

/// Whether each row has so many values.
fn are_as_wide(values: &[Items<Expr>], width: usize) -> bool
    ensures { result ≡ list_all (λ row. nat_eq (length row) width) values.now }
{
    values.iter().all(|row| row.len() == width)
}

/// Rows one after another.
fn bind_rows<'d>(
    binder: &Binder<'_, 'd>,
    values: &'d [Items<Expr>],
    at: &Context<'_, 'd>,
    done: &mut Progress,
) -> Result<Items<Items<BoundExpr>>, BindFault>
    ensures { GivesOn result (spec.rows_onto binder.now.definitions.now binder.now.vars.now [] values.now at.now done.old) done.new }
{
    let mut rows = Items::new(binder.alloc);
    for row in values {
        rows.push(bind_row(binder, row.as_slice(), at, done)?)?;
    }
    Ok(rows)
}

/// The values of a row one after another.
fn bind_row<'d>(
    binder: &Binder<'_, 'd>,
    values: &'d [Expr],
    at: &Context<'_, 'd>,
    done: &mut Progress,
) -> Result<Items<BoundExpr>, BindFault>
    ensures { GivesOn result (spec.row_onto binder.now.definitions.now binder.now.vars.now [] values.now at.now done.old) done.new }
{
    let mut row = Items::new(binder.alloc);
    for value in values {
        row.push(bind_value(binder, value, at, done)?)?;
    }
    Ok(row)
}

/// A whole expression.
pub(crate) fn bind_value<'d>(
    binder: &Binder<'_, 'd>,
    expr: &'d Expr,
    at: &Context<'_, 'd>,
    done: &mut Progress,
) -> Result<BoundExpr, BindFault>
    ensures { GivesOn result (spec.value_of binder.now.definitions.now binder.now.vars.now expr.now at.now done.old) done.new }
{
    let a = binder.bind_expr(expr, at, done)?;
    done.note_beyond(is_deep(a.facts));
    Ok(a.expr)
}

/// What a select answers.
fn insert_selected(
    alloc: Global,
    table: &Units,
    columns: Items<u16>,
    twice: bool,
    select: Selected,
) -> Result<Made, BindFault>
    ensures { Gives result (spec.insert_selected table.now columns twice select) }
{
    if items_counted(select.query.items.len()) != items_counted(columns.len()) {
        drop(select);
        return refused_unnamed(alloc, WRONG_COUNT);
    }
    let (select, table) = and_next(select, whole_table(alloc, table))?;
    let beyond = select.beyond || select.assigns || twice;
    let rows = BoundRows::Query(select.query);
    Ok(Made {
        bound: Bound::Write(BoundWrite::Insert {
            table,
            columns,
            rows,
        }),
        beyond,
    })
}

/// How many items there are; of more than an answer has it is only known that they are more.
fn items_counted(count: usize) -> usize
    ensures { result ≡ spec.items_counted count }
{
    count.min(MAX_COLUMNS + 1)
}
