//! The expressions of a statement, as the items of a query that reads no table.

ghost use Rattle.std.specs.Prelude.{◌≡◌, ◌∷◌, [], filter_map, Ok};
ghost use Rattle.typed_nodes.specs.Refusals.{Gives};
ghost use Rattle.clause_binder.specs.Answers.{GivesOn};
ghost use Rattle.binder.specs.Values as spec;

use crate::limits::is_beyond;
use crate::made::Made;
use bound_tree::{Bound, BoundQuery, InnerQuery, Item};
use clause_binder::{Context, Progress, is_deep};
use query_binder::Binder;
use sqlite_items::{Boxed, Items};
use std::alloc::Global;
use tsql_tree::{Declaration, Expr, Test};
use typed_nodes::{BindFault, TypedArm, TypedExpr, TypedTest, case_expr};
use value_types::{SqlType, Units};

/// A query over no table.
fn query_of_items(alloc: Global, items: Items<Item>, inner: Items<InnerQuery>) -> BoundQuery
    ensures { result ≡ spec.query_of_items items inner }
{
    BoundQuery {
        refs: Items::new(alloc),
        filter: None,
        grouped: false,
        groups: Items::new(alloc),
        sums: Items::new(alloc),
        having: None,
        items,
        order: Items::new(alloc),
        distinct: false,
        top: None,
        inner,
    }
}

fn bound_items(alloc: Global, items: Items<Item>, inner: Items<InnerQuery>) -> Bound
    ensures { result ≡ spec.bound_items items inner }
{
    if items.len() == 0 {
        Bound::Plain
    } else {
        Bound::Query(query_of_items(alloc, items, inner))
    }
}

fn values_made(alloc: Global, items: Items<Item>, done: Progress) -> Made
    ensures { result ≡ spec.values_made items done }
{
    let beyond = is_beyond(&done);
    Made {
        bound: bound_items(alloc, items, done.inner),
        beyond,
    }
}

/// A further item, which has no name.
fn with_value(
    alloc: Global,
    before: Items<Item>,
    a: TypedExpr,
    done: &mut Progress,
) -> Result<Items<Item>, BindFault>
    ensures { GivesOn result (Ok (spec.with_value before a done.old)) done.new }
{
    let mut items = before;
    done.note_beyond(is_deep(a.facts));
    items.push(Item {
        name: Units::new(alloc),
        kind: a.facts.kind.unwrap_or(SqlType::Int),
        expr: a.expr,
    })?;
    Ok(items)
}

fn value_onto<'d>(
    binder: &Binder<'_, 'd>,
    before: Items<Item>,
    expr: &'d Expr,
    at: &Context<'_, 'd>,
    done: &mut Progress,
) -> Result<Items<Item>, BindFault>
    ensures { GivesOn result (spec.value_onto binder.now.definitions.now binder.now.vars.now before expr.now at.now done.old) done.new }
{
    let a = binder.bind_expr(expr, at, done)?;
    with_value(binder.alloc, before, a, done)
}

/// One expression.
pub(crate) fn value_query<'d>(binder: &Binder<'_, 'd>, expr: &'d Expr) -> Result<Made, BindFault>
    ensures { Gives result (spec.values_query binder.now.definitions.now binder.now.vars.now (expr.now ∷ [])) }
{
    let at = Context::plain(&[]);
    let mut done = Progress::begin_at(binder.alloc, 0);
    let items = value_onto(binder, Items::new(binder.alloc), expr, &at, &mut done)?;
    Ok(values_made(binder.alloc, items, done))
}

/// Three expressions.
#[tactic(auto, unfolding(crate::specs::Values::three_query))]
pub(crate) fn three_values_query<'d>(
    binder: &Binder<'_, 'd>,
    first: &'d Boxed<Expr>,
    second: &'d Boxed<Expr>,
    third: &'d Boxed<Expr>,
) -> Result<Made, BindFault>
    ensures { Gives result (spec.three_query binder.now.definitions.now binder.now.vars.now first.now second.now third.now) }
{
    let at = Context::plain(&[]);
    let mut done = Progress::begin_at(binder.alloc, 0);
    let items = value_onto(
        binder,
        Items::new(binder.alloc),
        first.get(),
        &at,
        &mut done,
    )?;
    let items = value_onto(binder, items, second.get(), &at, &mut done)?;
    let items = value_onto(binder, items, third.get(), &at, &mut done)?;
    Ok(values_made(binder.alloc, items, done))
}

/// The expressions of the variables that have one.
pub(crate) fn initials_query<'d>(
    binder: &Binder<'_, 'd>,
    declarations: &'d [Declaration],
) -> Result<Made, BindFault>
    ensures { Gives result (spec.values_query binder.now.definitions.now binder.now.vars.now (filter_map (λ of. of.initial) declarations.now)) }
{
    let at = Context::plain(&[]);
    let mut done = Progress::begin_at(binder.alloc, 0);
    let items = initials_onto(binder, declarations, &at, &mut done)?;
    Ok(values_made(binder.alloc, items, done))
}

fn initials_onto<'d>(
    binder: &Binder<'_, 'd>,
    declarations: &'d [Declaration],
    at: &Context<'_, 'd>,
    done: &mut Progress,
) -> Result<Items<Item>, BindFault>
    ensures { GivesOn result (spec.values_onto binder.now.definitions.now binder.now.vars.now [] (filter_map (λ of. of.initial) declarations.now) at.now done.old) done.new }
{
    let mut items = Items::new(binder.alloc);
    for of in declarations {
        if let Some(expr) = &of.initial {
            items = value_onto(binder, items, expr, at, done)?;
        }
    }
    Ok(items)
}

/// A test.
pub(crate) fn test_query<'d>(binder: &Binder<'_, 'd>, test: &'d Test) -> Result<Made, BindFault>
    ensures { Gives result (spec.test_query binder.now.definitions.now binder.now.vars.now test.now) }
{
    let at = Context::plain(&[]);
    let mut done = Progress::begin_at(binder.alloc, 0);
    let test = binder.bind_test(test, &at, &mut done)?;
    let a = one_or_zero(binder.alloc, test)?;
    let items = with_value(binder.alloc, Items::new(binder.alloc), a, &mut done)?;
    Ok(values_made(binder.alloc, items, done))
}

/// 1 where the test is true, else 0.
fn one_or_zero(alloc: Global, test: TypedTest) -> Result<TypedExpr, BindFault>
    ensures { Gives result (Ok (spec.one_or_zero test)) }
{
    let mut arms = Vec::new(alloc);
    arms.push(TypedArm {
        test,
        gives: TypedExpr::number(1),
    })?;
    case_expr(alloc, arms, TypedExpr::number(0))
}
