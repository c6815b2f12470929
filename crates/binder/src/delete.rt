//! DELETE.

ghost use Rattle.std.specs.Prelude.{◌≡◌, Ok};
ghost use Rattle.typed_nodes.specs.Refusals.{Gives};
ghost use Rattle.clause_binder.specs.Answers.{GivesOn};
ghost use Rattle.binder.specs.Writes as spec;

use crate::and_next::and_next;
use crate::insert::whole_table;
use crate::limits::is_beyond;
use crate::made::Made;
use crate::places::columns_of;
use bound_tree::{Bound, BoundTest, BoundWrite};
use clause_binder::{Context, Progress, TableSource, is_deep};
use query_binder::Binder;
use sqlite_items::Boxed;
use std::alloc::Global;
use tsql_tree::Test;
use typed_nodes::BindFault;
use value_types::Units;

/// A DELETE from a table.
pub(crate) fn delete<'d>(
    binder: &Binder<'_, 'd>,
    table: &'d Units,
    filter: &'d Option<Boxed<Test>>,
) -> Result<Made, BindFault>
    ensures { Gives result (spec.delete binder.now.definitions.now binder.now.vars.now table.now filter.now) }
{
    let sources = [TableSource::new(table, columns_of(table, binder.definitions))];
    let at = Context::plain(&sources);
    let mut done = Progress::begin_at(binder.alloc, 0);
    let filter = bind_where(binder, filter, &at, &mut done)?;
    delete_made(binder.alloc, table, filter, done)
}

/// WHERE, where it stands.
pub(crate) fn bind_where<'d>(
    binder: &Binder<'_, 'd>,
    filter: &'d Option<Boxed<Test>>,
    at: &Context<'_, 'd>,
    done: &mut Progress,
) -> Result<Option<BoundTest>, BindFault>
    ensures { GivesOn result (spec.where_of binder.now.definitions.now binder.now.vars.now filter.now at.now done.old) done.new }
{
    match filter {
        Some(test) => Ok(Some(bind_whole_test(binder, test.get(), at, done)?)),
        None => Ok(None),
    }
}

/// A whole test.
pub(crate) fn bind_whole_test<'d>(
    binder: &Binder<'_, 'd>,
    test: &'d Test,
    at: &Context<'_, 'd>,
    done: &mut Progress,
) -> Result<BoundTest, BindFault>
    ensures { GivesOn result (spec.test_whole binder.now.definitions.now binder.now.vars.now test.now at.now done.old) done.new }
{
    let a = binder.bind_test(test, at, done)?;
    done.note_beyond(is_deep(a.facts));
    Ok(a.test)
}

fn delete_made(
    alloc: Global,
    table: &Units,
    filter: Option<BoundTest>,
    done: Progress,
) -> Result<Made, BindFault>
    ensures { Gives result (Ok (spec.delete_made table.now filter done)) }
{
    let beyond = is_beyond(&done);
    let (filter, table) = and_next(filter, whole_table(alloc, table))?;
    Ok(Made {
        bound: Bound::Write(BoundWrite::Delete {
            table,
            filter,
            inner: done.inner,
        }),
        beyond,
    })
}
