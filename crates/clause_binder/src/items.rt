//! The items of a select, behind what their expressions are bound to.

ghost use Rattle.std.specs.Prelude.{◌≡◌, Ok, option_map};
ghost use Rattle.typed_nodes.specs.Refusals.{Gives};
ghost use Rattle.clause_binder.specs.Answers.{GivesOn};
ghost use Rattle.clause_binder.specs.Clauses as spec;

use crate::and_next::and_next;
use crate::groups::looked_at;
use crate::named::NamedItems;
use crate::operand::{cell, or_int, variable_of};
use crate::progress::{Context, Progress, is_deep};
use crate::scope::{Found, TableSource, behind, is_long};
use crate::settling::settled;
use bound_tree::{BoundExpr, Item};
use session_vars::Vars;
use std::alloc::Global;
use tsql_tree::ColumnTree;
use typed_nodes::{BindFault, TypedExpr};
use value_types::Units;

/// An item of this name, behind what its expression is bound to.
pub fn value_item(
    alloc: Global,
    name: Units,
    alias: Option<Units>,
    before: NamedItems,
    a: TypedExpr,
    at: &Context<'_, '_>,
    done: &mut Progress,
) -> Result<NamedItems, BindFault>
    ensures { GivesOn result (spec.value_item name alias before a at.now done.old) done.new }
{
    let looked = looked_at(alloc, a.facts, at, done);
    let (a, (before, _)) = and_next(a, and_next(before, looked))?;
    done.note_beyond(is_long(&name));
    let item = Item {
        name,
        kind: or_int(a.facts.kind),
        expr: a.expr,
    };
    before.with_item(alloc, item, alias)
}

/// A column that is not named, but taken as it comes.
fn grouped_cell(groups: &[BoundExpr], place: usize, column: &ColumnTree) -> TypedExpr
    ensures { result ≡ spec.grouped_cell groups.now place column.now }
{
    settled(
        groups,
        cell(Found {
            place,
            kind: column.kind,
        }),
    )
}

/// A column as an item.
fn column_item(
    alloc: Global,
    place: usize,
    column: &ColumnTree,
    before: NamedItems,
    at: &Context<'_, '_>,
    done: &mut Progress,
) -> Result<NamedItems, BindFault>
    ensures { GivesOn result (spec.value_item column.now.name None before (spec.grouped_cell at.now.groups place column.now) at.now done.old) done.new }
{
    let name = column.name.copy(alloc)?;
    let a = grouped_cell(at.groups, place, column);
    value_item(alloc, name, None, before, a, at, done)
}

/// The columns of a table, counted from a place on, each as an item.
fn column_items(
    alloc: Global,
    first: usize,
    columns: &[ColumnTree],
    before: NamedItems,
    at: &Context<'_, '_>,
    done: &mut Progress,
) -> Result<NamedItems, BindFault>
    ensures { GivesOn result (spec.column_items first columns.now before at.now done.old) done.new }
{
    let mut items = before;
    let mut place = first;
    for column in columns {
        if items.is_full() {
            return Ok(items);
        }
        items = column_item(alloc, place, column, items, at, done)?;
        place = behind(place, 1);
    }
    Ok(items)
}

/// The columns of a table that is meant.
fn table_items(
    alloc: Global,
    qualifier: Option<&Units>,
    place: usize,
    source: &TableSource<'_>,
    before: NamedItems,
    at: &Context<'_, '_>,
    done: &mut Progress,
) -> Result<NamedItems, BindFault>
    ensures { GivesOn result (spec.table_items (option_map (λ name. name.now) qualifier.entry) place source.now before at.now done.old) done.new }
{
    if source.is_meant(qualifier) {
        column_items(alloc, place, source.columns, before, at, done)
    } else {
        Ok(before)
    }
}

/// The columns of all tables, or of those of a name.
fn source_items(
    alloc: Global,
    qualifier: Option<&Units>,
    before: NamedItems,
    at: &Context<'_, '_>,
    done: &mut Progress,
) -> Result<NamedItems, BindFault>
    ensures { GivesOn result (spec.source_items (option_map (λ name. name.now) qualifier.entry) 0 at.now.sources before at.now done.old) done.new }
{
    let mut items = before;
    let mut place = 0;
    for source in at.sources {
        if items.is_full() {
            return Ok(items);
        }
        items = table_items(alloc, qualifier, place, source, items, at, done)?;
        place = behind(place, source.columns.len());
    }
    Ok(items)
}

/// `*`, or that of a table.
pub fn star_items(
    alloc: Global,
    qualifier: Option<&Units>,
    before: NamedItems,
    at: &Context<'_, '_>,
    done: &mut Progress,
) -> Result<NamedItems, BindFault>
    ensures { GivesOn result (spec.star_items (option_map (λ name. name.now) qualifier.entry) before at.now done.old) done.new }
{
    done.note_beyond(!is_source(qualifier, at.sources));
    source_items(alloc, qualifier, before, at, done)
}

/// Whether there is a table that is meant.
fn is_source(qualifier: Option<&Units>, sources: &[TableSource<'_>]) -> bool
    ensures { result ≡ spec.is_source (option_map (λ name. name.now) qualifier.entry) sources.now }
{
    for source in sources {
        if source.is_meant(qualifier) {
            return true;
        }
    }
    false
}

/// The variable that the next item is assigned to. Error 137 where it is not declared.
pub fn assigned_onto(
    alloc: Global,
    vars: &Vars,
    name: &Units,
    before: NamedItems,
    done: &mut Progress,
) -> Result<NamedItems, BindFault>
    ensures { GivesOn result (spec.assigned_onto vars.now name.now before done.old) done.new }
{
    let variable = variable_of(alloc, name, vars)?;
    done.note_beyond(is_deep(variable.facts));
    let place = place_or(&variable.expr);
    drop(variable);
    before.with_place(place)
}

/// The place of a variable.
fn place_or(of: &BoundExpr) -> u16
    ensures { result ≡ spec.place_or of.now }
{
    match of {
        BoundExpr::Variable(place) => *place,
        _ => 0,
    }
}

/// The name of an item: its alias, else that of the column that it is.
pub fn name_or(
    alloc: Global,
    alias: &Option<Units>,
    called: Option<&Units>,
) -> Result<Units, BindFault>
    ensures { Gives result (Ok (spec.name_or alias.now (option_map (λ name. name.now) called.entry))) }
{
    match alias {
        Some(alias) => Ok(alias.copy(alloc)?),
        None => match called {
            Some(name) => Ok(name.copy(alloc)?),
            None => Ok(Units::new(alloc)),
        },
    }
}

/// The same alias.
pub fn copied(alloc: Global, alias: &Option<Units>) -> Result<Option<Units>, BindFault>
    ensures { Gives result (Ok alias.now) }
{
    match alias {
        Some(alias) => Ok(Some(alias.copy(alloc)?)),
        None => Ok(None),
    }
}

/// Whether an alias is longer than a name may be.
pub fn is_long_alias(alias: &Option<Units>) -> bool
    ensures { result ≡ spec.is_long_alias alias.now }
{
    match alias {
        Some(alias) => is_long(alias),
        None => false,
    }
}
