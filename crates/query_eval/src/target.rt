//! What a write asks of queries: the answers of its inner queries, and the rows of its target that are meant.

ghost use Rattle.std.specs.Prelude.{◌≡◌, drop};
ghost use Rattle.scalar_eval.specs.Scopes.{inner_rows, values_of};
ghost use Rattle.query_eval.specs.Ans as ans;
ghost use Rattle.query_eval.specs.Found.{FindsBy, setting_at, stock_of};
ghost use Rattle.query_eval.specs.Given.{GivesRows};
ghost use Rattle.query_eval.specs.Joining.{image_of};
ghost use Rattle.query_eval.specs.KeyTests as key_tests;
ghost use Rattle.query_eval.specs.Phases as phases;
ghost use Rattle.query_eval.specs.Targets as spec;

use crate::PAIR_LIMIT;
use crate::answering::{Source, inner_tables};
use crate::context::Context;
use crate::fault::{Stop, widened};
use crate::joining::Left;
use crate::key_tests::{rows_read, where_tests};
use crate::phases::rows_where;
use bound_tree::{BoundTest, Image, InnerQuery, JoinKind, SystemValues, Table};
use scalar_eval::EvalFault;
use session_vars::Vars;
use sqlite_items::Items;
use std::alloc::Global;
use value_types::Row;

/// The answers of inner queries.
#[derive(Drop)]
pub struct InnerAnswers {
    /// Their answers, in the order of the text.
    pub tables: Items<Table>,
    /// How many images were read for them.
    pub read: usize,
}

impl InnerAnswers {
    /// The rows of the image behind those that were read; none where there is no image.
    pub fn next_image<'a>(&self, images: &'a [Image]) -> &'a [Row]
        ensures { result.now ≡ image_of (drop self.now.read images.now) }
    {
        match images.get(self.read) {
            Some(image) => image.as_slice(),
            None => &[],
        }
    }
}

/// What the inner queries of a write answer on images, which stand for their references, one after another.
///
/// # Errors
///
/// As of [`answer`](crate::answer), with one budget of [`PAIR_LIMIT`] pairs for all of them.
pub fn inner_answers(
    alloc: Global,
    inner: &[InnerQuery],
    images: &[Image],
    vars: &Vars,
    system: &SystemValues,
) -> Result<InnerAnswers, EvalFault>
    ensures { spec.GivesInner images.now result (spec.inner_answers (values_of vars.now) system.now inner.now images.now) }
{
    let mut left = Left {
        read: 0,
        budget: PAIR_LIMIT,
    };
    let source = Source {
        images,
        vars,
        system,
    };
    match inner_tables(alloc, inner, &source, &mut left) {
        Ok(tables) => Ok(InnerAnswers {
            tables: Items::from_vec(tables),
            read: left.read,
        }),
        Err(stop) => Err(widened(stop)),
    }
}

/// The rows of the target of a write, whose key has these columns, of which WHERE is true. `inner` are the answers of the
/// write's inner queries.
///
/// # Errors
///
/// `Number` with the error of WHERE at the first row that is read where it has one.
pub fn rows_meant(
    alloc: Global,
    key: &[u16],
    filter: &Option<BoundTest>,
    image: &[Row],
    inner: &[Table],
    vars: &Vars,
    system: &SystemValues,
) -> Result<Vec<Row>, EvalFault>
    ensures { GivesRows result (spec.rows_meant (values_of vars.now) system.now (inner_rows inner.now) key.now filter.now image.now) }
{
    let context = Context {
        vars,
        system,
        inner,
    };
    match meant(alloc, &context, key, filter, image) {
        Ok(rows) => Ok(rows),
        Err(stop) => Err(widened(stop)),
    }
}

/// The same, with why there is no answer in two words.
fn meant(
    alloc: Global,
    context: &Context<'_>,
    key: &[u16],
    filter: &Option<BoundTest>,
    image: &[Row],
) -> Result<Vec<Row>, Stop>
    ensures { FindsBy (λ rows. rows.items) result (phases.rows_where (setting_at context.now) filter.now
        (key_tests.rows_read key.now 0 (key_tests.where_tests (values_of context.now.vars.now) filter.now) JoinKind.Inner image.now)) }
{
    let tests = where_tests(alloc, context.vars, filter)?;
    let rows = rows_read(alloc, key, 0, tests.as_slice(), JoinKind::Inner, image)?;
    rows_where(alloc, context, filter, rows)
}
