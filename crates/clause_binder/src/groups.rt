//! What grouping asks of what is evaluated for each row that a select gives.

ghost use Rattle.std.specs.Prelude.{◌≡◌, slice_get, option_map};
ghost use Rattle.typed_nodes.specs.Refusals.{Gives};
ghost use Rattle.clause_binder.specs.Answers.{GivesOn};
ghost use Rattle.clause_binder.specs.Scope.{columns_in};
ghost use Rattle.clause_binder.specs.Clauses as spec;

use crate::fault::{NOT_GROUPED, refused, refused_unnamed};
use crate::progress::{Context, Progress, is_deep};
use crate::scope::{TableSource, width_of};
use bound_tree::{BoundExpr, BoundTest};
use sqlite_items::at as item_at;
use std::alloc::Global;
use tsql_tree::ColumnTree;
use typed_nodes::{BindFault, Facts, TypedTest};

/// Where items, HAVING and ORDER BY stand.
pub fn class_context<'s, 'd>(
    grouped: bool,
    sources: &'s [TableSource<'d>],
    groups: &'s [BoundExpr],
) -> Context<'s, 'd>
    ensures { result ≡ spec.class_context grouped sources.now groups.now }
{
    Context {
        sources,
        groups,
        sums_from: if grouped {
            Some(width_of(sources))
        } else {
            None
        },
        row_alone: false,
    }
}

/// What is bound is looked at. Error 8120 where a column is in no GROUP BY, but ought to be.
pub(crate) fn looked_at(
    alloc: Global,
    facts: Facts,
    at: &Context<'_, '_>,
    done: &mut Progress,
) -> Result<(), BindFault>
    ensures { GivesOn result (spec.looked_at facts at.now done.old) done.new }
{
    grouped_or_refused(alloc, facts, at)?;
    done.note_beyond(is_deep(facts));
    Ok(())
}

fn grouped_or_refused(alloc: Global, facts: Facts, at: &Context<'_, '_>) -> Result<(), BindFault>
    ensures { Gives result (spec.grouped_or_refused facts at.now) }
{
    match at.sums_from {
        None => Ok(()),
        Some(_) => loose_refused(alloc, at.sources, facts.loose),
    }
}

/// The refusal of a column that is in no GROUP BY, if there is one.
fn loose_refused(
    alloc: Global,
    sources: &[TableSource<'_>],
    loose: Option<u16>,
) -> Result<(), BindFault>
    ensures { Gives result (spec.loose_refused sources.now loose) }
{
    match loose {
        None => Ok(()),
        Some(place) => match column_at(sources, usize::from(place)) {
            Some(column) => refused(alloc, NOT_GROUPED, &column.name),
            None => refused_unnamed(alloc, NOT_GROUPED),
        },
    }
}

/// The column at a place of the row.
fn column_at<'d>(sources: &[TableSource<'d>], first: usize) -> Option<&'d ColumnTree>
    ensures { option_map (λ column. column.now) result ≡ slice_get (columns_in sources.now) first }
{
    let mut place = first;
    for source in sources {
        match item_at(source.columns, place) {
            Some(column) => return Some(column),
            None => place -= source.columns.len(),
        }
    }
    None
}

/// ON or WHERE, behind what it is bound to.
pub fn noted_test(a: TypedTest, done: &mut Progress) -> BoundTest
    ensures { (result, done.new) ≡ spec.noted_test a done.old }
{
    done.note_beyond(is_deep(a.facts));
    a.test
}

/// HAVING, behind what it is bound to.
pub fn whole_having(
    alloc: Global,
    a: TypedTest,
    at: &Context<'_, '_>,
    done: &mut Progress,
) -> Result<BoundTest, BindFault>
    ensures { GivesOn result (spec.whole_having a at.now done.old) done.new }
{
    looked_at(alloc, a.facts, at, done)?;
    Ok(a.test)
}
