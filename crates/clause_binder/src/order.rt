//! What rows are ordered by, behind what its expressions are bound to.

ghost use Rattle.std.specs.Prelude.{◌≡◌, option_map};
ghost use Rattle.clause_binder.specs.Answers.{GivesOn};
ghost use Rattle.clause_binder.specs.Clauses as spec;

use crate::aliases::Aliases;
use crate::and_next::and_next;
use crate::groups::looked_at;
use crate::named::{MAX_COLUMNS, NamedItems};
use crate::progress::{Context, Progress};
use crate::scope::last_place;
use crate::settling::same_expr;
use crate::shape::Shape;
use bound_tree::{BoundExpr, Item, OrderKey};
use std::alloc::Global;
use typed_nodes::{BindFault, TypedExpr};
use value_types::Units;

/// The item of a place.
pub fn item_key(place: usize) -> OrderKey
    ensures { result ≡ spec.item_key place }
{
    OrderKey::Item(last_place(place))
}

/// The item of a place, if there is one.
fn key_at(place: Option<usize>, done: &mut Progress) -> OrderKey
    ensures { (result, done.new) ≡ spec.key_at place done.old }
{
    match place {
        Some(place) => item_key(place),
        None => {
            done.note_beyond(true);
            item_key(0)
        }
    }
}

/// The item of a number, counted from 1.
pub fn numbered_key(number: i64, count: usize, done: &mut Progress) -> OrderKey
    ensures { (result, done.new) ≡ spec.key_at (spec.numbered_place number count) done.old }
{
    key_at(numbered_place(number, count), done)
}

fn numbered_place(number: i64, count: usize) -> Option<usize>
    ensures { result ≡ spec.numbered_place number count }
{
    let place = usize::try_from(number).ok()?.checked_sub(1)?;
    if place < count { Some(place) } else { None }
}

/// The item whose expression is bound to the same tree.
fn item_place(a: &BoundExpr, items: &[Item]) -> Option<usize>
    ensures { result ≡ spec.item_place a.now items.now }
{
    items
        .iter()
        .take(MAX_COLUMNS)
        .position(|item| same_expr(a, &item.expr))
}

fn key_by(distinct: bool, items: &NamedItems, a: BoundExpr, done: &mut Progress) -> OrderKey
    ensures { (result, done.new) ≡ spec.key_by distinct items.now a done.old }
{
    if distinct {
        let place = item_place(&a, items.items.as_slice());
        drop(a);
        key_at(place, done)
    } else {
        OrderKey::Expr(a)
    }
}

/// An expression that rows are ordered by, behind what it is bound to.
pub fn expr_key(
    alloc: Global,
    distinct: bool,
    items: &NamedItems,
    a: TypedExpr,
    at: &Context<'_, '_>,
    done: &mut Progress,
) -> Result<OrderKey, BindFault>
    ensures { GivesOn result (spec.expr_key distinct items.now a at.now done.old) done.new }
{
    let looked = looked_at(alloc, a.facts, at, done);
    let (a, _) = and_next(a, looked)?;
    Ok(key_by(distinct, items, a.expr, done))
}

/// The number that an expression is.
pub fn number_of(shape: Shape) -> Option<i64>
    ensures { result ≡ spec.number_of shape }
{
    match shape {
        Shape::Number(number) => Some(number),
        Shape::Null => None,
        Shape::Name => None,
        Shape::Node => None,
    }
}

/// The item whose alias a bare name is.
pub fn named_place(shape: Shape, called: Option<&Units>, items: &NamedItems) -> Option<usize>
    ensures { result ≡ spec.named_place shape (option_map (λ name. name.now) called.entry) items.now }
{
    match shape {
        Shape::Name => alias_place(called, &items.aliases),
        Shape::Number(_) => None,
        Shape::Null => None,
        Shape::Node => None,
    }
}

/// The first item of that alias.
fn alias_place(called: Option<&Units>, aliases: &Aliases) -> Option<usize>
    ensures { result ≡ spec.alias_place (option_map (λ name. name.now) called.entry) aliases.now }
{
    match called {
        Some(name) => aliases.place_of(name),
        None => None,
    }
}
