//! UPDATE.

ghost use Rattle.std.specs.Prelude.{◌≡◌, ◌∷◌, [], map, Ok, OnOk};
ghost use Rattle.typed_nodes.specs.Refusals.{Gives};
ghost use Rattle.clause_binder.specs.Answers.{GivesOn};
ghost use Rattle.clause_binder.specs.Clauses.{set_aside};
ghost use Rattle.clause_binder.specs.Scope.{behind};
ghost use Rattle.binder.specs.Writes as spec;

use crate::and_next::and_next;
use crate::delete::bind_where;
use crate::insert::{bind_value, whole_table};
use crate::limits::is_beyond;
use crate::made::Made;
use crate::places::{column_place, columns_of, is_repeated};
use bound_tree::{Bound, BoundSet, BoundTest, BoundWrite, InnerQuery};
use clause_binder::{Context, Progress, TableSource};
use query_binder::Binder;
use sqlite_items::{Boxed, Items};
use std::alloc::Global;
use std::mem;
use tsql_tree::{Assignment, ColumnTree, Test};
use typed_nodes::BindFault;
use value_types::Units;

/// The greatest place that a tree can name.
const MAX_PLACE: usize = 65_535;

/// An UPDATE of a table: WHERE, then what is set.
pub(crate) fn update<'d>(
    binder: &Binder<'_, 'd>,
    table: &'d Units,
    sets: &'d [Assignment],
    filter: &'d Option<Boxed<Test>>,
) -> Result<Made, BindFault>
    ensures { Gives result (spec.update binder.now.definitions.now binder.now.vars.now table.now sets.now filter.now) }
{
    let twice = is_set_twice(binder.alloc, sets)?;
    let columns = columns_of(table, binder.definitions);
    let sources = [TableSource::new(table, columns)];
    let at = Context::plain(&sources);
    let mut done = Progress::begin_at(binder.alloc, inners_of(binder, sets));
    let filter = bind_where(binder, filter, &at, &mut done)?;
    let aside = set_aside(binder.alloc, &mut done);
    let (filter, set) = and_next(filter, bind_sets(binder, columns, sets, &at, &mut done))?;
    done.note_beyond(twice);
    update_made(binder.alloc, table, set, filter, aside, done)
}

/// How many inner queries stand in what is set.
fn inners_of<'d>(binder: &Binder<'_, 'd>, sets: &'d [Assignment]) -> usize
    ensures { result ≡ spec.inners_onto binder.now.definitions.now binder.now.vars.now 0 sets.now }
{
    let mut count = 0usize;
    for set in sets {
        let inside = binder.in_expr(&set.value);
        count = behind(count, inside.inners);
    }
    count
}

/// The place so far behind another; all places that no tree can name are one.
fn behind(place: usize, count: usize) -> usize
    ensures { result ≡ behind place count }
{
    place.saturating_add(count).min(MAX_PLACE + 1)
}

/// Begins a clause that stands in front, and gives the inner queries of the one behind it.
fn set_aside(alloc: Global, done: &mut Progress) -> Items<InnerQuery>
    ensures left { done.new ≡ set_aside done.old }
    ensures aside { result ≡ done.old.inner }
{
    done.first = 0;
    mem::replace(&mut done.inner, Items::new(alloc))
}

/// What is set, one after another.
fn bind_sets<'d>(
    binder: &Binder<'_, 'd>,
    columns: &[ColumnTree],
    sets: &'d [Assignment],
    at: &Context<'_, 'd>,
    done: &mut Progress,
) -> Result<Items<BoundSet>, BindFault>
    ensures { GivesOn result (spec.sets_onto binder.now.definitions.now binder.now.vars.now columns.now [] sets.now at.now done.old) done.new }
{
    let mut bound = Items::new(binder.alloc);
    for set in sets {
        bound.push(bind_set(binder, columns, set, at, done)?)?;
    }
    Ok(bound)
}

/// A column, then what it is set to.
fn bind_set<'d>(
    binder: &Binder<'_, 'd>,
    columns: &[ColumnTree],
    set: &'d Assignment,
    at: &Context<'_, 'd>,
    done: &mut Progress,
) -> Result<BoundSet, BindFault>
    ensures { GivesOn result (spec.set_of binder.now.definitions.now binder.now.vars.now columns.now set.now at.now done.old) done.new }
{
    let place = column_place(binder.alloc, columns, &set.name)?;
    let expr = bind_value(binder, &set.value, at, done)?;
    Ok(BoundSet { place, expr })
}

/// Whether a column is set twice.
fn is_set_twice(alloc: Global, sets: &[Assignment]) -> Result<bool, BindFault>
    ensures { Gives result (Ok (spec.is_set_twice sets.now)) }
{
    let names = set_names(alloc, sets)?;
    Ok(is_repeated(names.as_slice()))
}

fn set_names(alloc: Global, sets: &[Assignment]) -> Result<Items<Units>, BindFault>
    ensures { Gives result (Ok (map (λ set. set.name) sets.now)) }
{
    let mut names = Items::new(alloc);
    for set in sets {
        names.push(set.name.copy(alloc)?)?;
    }
    Ok(names)
}

fn update_made(
    alloc: Global,
    table: &Units,
    sets: Items<BoundSet>,
    filter: Option<BoundTest>,
    aside: Items<InnerQuery>,
    done: Progress,
) -> Result<Made, BindFault>
    ensures { Gives result (Ok (spec.update_made table.now sets filter aside done)) }
{
    let beyond = is_beyond(&done);
    let (filter, table) = and_next(filter, whole_table(alloc, table))?;
    let mut inner = done.inner;
    let (filter, _) = and_next(filter, inner.append(aside))?;
    Ok(Made {
        bound: Bound::Write(BoundWrite::Update {
            table,
            sets,
            filter,
            inner,
        }),
        beyond,
    })
}
