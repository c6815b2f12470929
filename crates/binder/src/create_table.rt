//! CREATE TABLE.

ghost use Rattle.std.specs.Prelude.{◌≡◌, ◌++◌, [], map, option_map, is_some, length, OnOk, Ok};
ghost use Rattle.std.specs.List.{list_any};
ghost use Rattle.clause_binder.specs.Scope as scope;
ghost use Rattle.typed_nodes.specs.Refusals.{Gives};
ghost use Rattle.clause_binder.specs.Answers.{GivesItemsOn};
ghost use Rattle.binder.specs.Tables as spec;

use crate::delete::bind_whole_test;
use crate::fault::{INVALID_COLUMN, refused};
use crate::limits::{is_beyond, is_kind, is_long};
use crate::places::{columns_of, is_repeated};
use bound_tree::BoundTest;
use clause_binder::{ColumnsByName, Context, Progress, TableSource, TablesByName};
use query_binder::Binder;
use session_vars::Vars;
use sqlite_items::Items;
use std::alloc::Global;
use tsql_tree::{CheckTree, ColumnTree, ForeignTree, KeyTree, TableTree};
use typed_nodes::BindFault;
use value_types::{SqlType, Units};

/// How many columns a table has at most.
const MAX_COLUMNS: usize = 64;

/// How many constraints a table has at most.
const MAX_CONSTRAINTS: usize = 64;

/// How many columns a PRIMARY KEY or a UNIQUE has at most.
const MAX_KEY: usize = 4;

/// Whether something of a table is outside a limit. Error 207 where a constraint names no column,
/// and what a CHECK is refused for.
pub(crate) fn create_table<'d>(
    alloc: Global,
    definitions: &TablesByName<'d>,
    table: &'d TableTree,
) -> Result<bool, BindFault>
    ensures { Gives result (spec.create_table definitions.now table.now) }
{
    let columns = ColumnsByName::new(alloc, table.columns.as_slice())?;
    all_keys(alloc, &columns, table.key.as_slice())?;
    all_keys(alloc, &columns, table.uniques.as_slice())?;
    let mut done = Progress::begin_at(alloc, 0);
    bind_checks_of(alloc, table, &mut done)?;
    all_foreigns(alloc, definitions, table, &columns)?;
    let odd = is_odd_table(alloc, definitions, table)?;
    Ok(is_beyond(&done) || odd)
}

/// A table's CHECKs.
pub(crate) fn bind_checks_of(
    alloc: Global,
    table: &TableTree,
    done: &mut Progress,
) -> Result<Vec<BoundTest>, BindFault>
    ensures { GivesItemsOn result (spec.checks_onto [] [] [] table.now.checks (spec.row_context table.now) done.old) done.new }
{
    let vars = Vars::new(alloc);
    row_checks(alloc, &vars, &*table, done)
}

/// A table's CHECKs over its row, whatever the variables are.
fn row_checks<'d>(
    alloc: Global,
    vars: &'d Vars,
    table: &'d TableTree,
    done: &mut Progress,
) -> Result<Vec<BoundTest>, BindFault>
    ensures { GivesItemsOn result (spec.checks_onto [] vars.now [] table.now.checks (spec.row_context table.now) done.old) done.new }
{
    let none = TablesByName::none(alloc);
    let binder = Binder {
        alloc,
        definitions: &none,
        vars,
    };
    let columns = table.columns.as_slice();
    let sources = [TableSource::by_name(alloc, &table.name, columns)?];
    let at = Context {
        sources: &sources,
        groups: &[],
        sums_from: None,
        row_alone: true,
    };
    let checks = table.checks.as_slice();
    bind_each_check(&binder, checks, &at, done)
}

fn bind_each_check<'d>(
    binder: &Binder<'_, 'd>,
    checks: &'d [CheckTree],
    at: &Context<'_, 'd>,
    done: &mut Progress,
) -> Result<Vec<BoundTest>, BindFault>
    ensures { GivesItemsOn result (spec.checks_onto binder.now.definitions.now binder.now.vars.now [] checks.now at.now done.old) done.new }
{
    let mut bound = Vec::new(binder.alloc);
    for check in checks {
        bound.push(bind_whole_test(binder, &check.test, at, done)?)?;
    }
    Ok(bound)
}

// ---- columns of constraints

/// Whether each of the names is a column's. Error 207 of the first that is none.
fn all_columns(alloc: Global, columns: &ColumnsByName<'_>, names: &[Units]) -> Result<(), BindFault>
    ensures { Gives result (spec.all_columns columns.now names.now) }
{
    for name in names {
        if !columns.has(name) {
            return refused(alloc, INVALID_COLUMN, name);
        }
    }
    Ok(())
}

fn all_keys(alloc: Global, columns: &ColumnsByName<'_>, keys: &[KeyTree]) -> Result<(), BindFault>
    ensures { Gives result (spec.all_keys columns.now keys.now) }
{
    for key in keys {
        all_columns(alloc, columns, key.columns.as_slice())?;
    }
    Ok(())
}

fn all_foreigns(
    alloc: Global,
    definitions: &TablesByName<'_>,
    table: &TableTree,
    columns: &ColumnsByName<'_>,
) -> Result<(), BindFault>
    requires { columns.now ≡ table.now.columns }
    ensures { Gives result (spec.all_foreigns definitions.now table.now table.now.foreigns) }
{
    let foreigns = table.foreigns.as_slice();
    for foreign in foreigns {
        foreign_columns(alloc, definitions, table, columns, foreign)?;
    }
    Ok(())
}

/// The columns that refer, then those that are referred to.
fn foreign_columns(
    alloc: Global,
    definitions: &TablesByName<'_>,
    table: &TableTree,
    columns: &ColumnsByName<'_>,
    foreign: &ForeignTree,
) -> Result<(), BindFault>
    requires { columns.now ≡ table.now.columns }
    ensures { Gives result (spec.foreign_columns definitions.now table.now foreign.now) }
{
    all_columns(alloc, columns, foreign.columns.as_slice())?;
    if foreign.parent == table.name {
        return all_columns(alloc, columns, foreign.parent_columns.as_slice());
    }
    let parent = columns_of(&foreign.parent, definitions);
    let parent = ColumnsByName::new(alloc, parent)?;
    all_columns(alloc, &parent, foreign.parent_columns.as_slice())
}

/// The table that is referred to, which may be the one that is made.
fn parent_of<'a>(
    definitions: &TablesByName<'a>,
    table: &'a TableTree,
    foreign: &ForeignTree,
) -> Option<&'a TableTree>
    ensures { option_map (λ parent. parent.now) result ≡ spec.parent_of definitions.now table.now foreign.now }
{
    if foreign.parent == table.name {
        Some(table)
    } else {
        definitions.find(&foreign.parent)
    }
}

fn columns_in(table: Option<&TableTree>) -> &[ColumnTree]
    ensures { result.now ≡ scope.columns_of (option_map (λ table. table.now) table.entry) }
{
    match table {
        Some(table) => table.columns.as_slice(),
        None => &[],
    }
}

// ---- FOREIGN KEY

fn first_columns(keys: &[KeyTree]) -> &[Units]
    ensures { result.now ≡ spec.first_columns keys.now }
{
    match keys {
        [key, ..] => key.columns.as_slice(),
        [] => &[],
    }
}

/// The columns of the table's first key.
fn key_columns(table: Option<&TableTree>) -> &[Units]
    ensures { result.now ≡ spec.key_columns (option_map (λ table. table.now) table.entry) }
{
    match table {
        Some(table) => first_columns(table.key.as_slice()),
        None => &[],
    }
}

/// Whether none are named, or the columns of the key in its order.
fn is_key(names: &[Units], key: &[Units]) -> bool
    ensures { result ≡ spec.is_key names.now key.now }
{
    names.len() == 0 || names == key
}

/// The type of the first column of a name.
fn kind_named(columns: &[ColumnTree], name: &Units) -> Option<SqlType>
    ensures { result ≡ spec.kind_named columns.now name.now }
{
    for column in columns {
        if *name == column.name {
            return Some(column.kind);
        }
    }
    None
}

fn same_found(a: Option<SqlType>, b: Option<SqlType>) -> bool
    ensures { result ≡ spec.same_found a b }
{
    match (a, b) {
        (Some(a), Some(b)) => a == b,
        (Some(_), None) => false,
        (None, _) => false,
    }
}

/// Whether as many columns have the types of those at their places.
fn kinds_agree(
    columns: &[ColumnTree],
    mut names: &[Units],
    others: &[ColumnTree],
    mut key: &[Units],
) -> bool
    ensures { result ≡ spec.kinds_agree columns.now names.entry.now others.now key.entry.now }
{
    while let [name, names_behind @ ..] = names {
        let [other, key_behind @ ..] = key else {
            return false;
        };
        if !same_found(kind_named(columns, name), kind_named(others, other)) {
            return false;
        }
        names = names_behind;
        key = key_behind;
    }
    key.is_empty()
}

fn refers_to(parent: Option<&TableTree>, table: &TableTree, foreign: &ForeignTree) -> bool
    ensures { result ≡ spec.refers_to (option_map (λ parent. parent.now) parent.entry) table.now foreign.now }
{
    let key = key_columns(parent);
    is_key(foreign.parent_columns.as_slice(), key)
        && kinds_agree(
            table.columns.as_slice(),
            foreign.columns.as_slice(),
            columns_in(parent),
            key,
        )
}

// ---- limits

fn column_names(alloc: Global, columns: &[ColumnTree]) -> Result<Items<Units>, BindFault>
    ensures { Gives result (Ok (map (λ column. column.name) columns.now)) }
{
    let mut names = Items::new(alloc);
    for column in columns {
        names.push(column.name.copy(alloc)?)?;
    }
    Ok(names)
}

fn key_names(
    alloc: Global,
    before: Items<Units>,
    keys: &[KeyTree],
) -> Result<Items<Units>, BindFault>
    ensures { Gives result (Ok (before ++ map (λ key. key.name) keys.now)) }
{
    let mut names = before;
    for key in keys {
        names.push(key.name.copy(alloc)?)?;
    }
    Ok(names)
}

fn check_names(
    alloc: Global,
    before: Items<Units>,
    checks: &[CheckTree],
) -> Result<Items<Units>, BindFault>
    ensures { Gives result (Ok (before ++ map (λ check. check.name) checks.now)) }
{
    let mut names = before;
    for check in checks {
        names.push(check.name.copy(alloc)?)?;
    }
    Ok(names)
}

fn foreign_names(
    alloc: Global,
    before: Items<Units>,
    foreigns: &[ForeignTree],
) -> Result<Items<Units>, BindFault>
    ensures { Gives result (Ok (before ++ map (λ foreign. foreign.name) foreigns.now)) }
{
    let mut names = before;
    for foreign in foreigns {
        names.push(foreign.name.copy(alloc)?)?;
    }
    Ok(names)
}

fn constraint_names(alloc: Global, table: &TableTree) -> Result<Items<Units>, BindFault>
    ensures { Gives result (Ok (spec.constraint_names table.now)) }
{
    let names = key_names(alloc, Items::new(alloc), table.key.as_slice())?;
    let names = key_names(alloc, names, table.uniques.as_slice())?;
    let names = check_names(alloc, names, table.checks.as_slice())?;
    foreign_names(alloc, names, table.foreigns.as_slice())
}

fn is_odd_column(column: &ColumnTree) -> bool
    ensures { result ≡ spec.is_odd_column column.now }
{
    is_long(&column.name) || !is_kind(column.kind)
}

fn is_any_odd_column(columns: &[ColumnTree]) -> bool
    ensures { result ≡ list_any spec.is_odd_column columns.now }
{
    columns.iter().any(|column| is_odd_column(column))
}

fn are_odd_columns(alloc: Global, columns: &[ColumnTree]) -> Result<bool, BindFault>
    ensures { Gives result (Ok (spec.are_odd_columns columns.now)) }
{
    if columns.len() > MAX_COLUMNS || is_any_odd_column(columns) {
        return Ok(true);
    }
    let names = column_names(alloc, columns)?;
    Ok(is_repeated(names.as_slice()))
}

fn is_any_long(names: &[Units]) -> bool
    ensures { result ≡ list_any scope.is_long names.now }
{
    names.iter().any(|name| is_long(name))
}

fn are_odd_names(names: &[Units]) -> bool
    ensures { result ≡ spec.are_odd_names names.now }
{
    names.len() > MAX_CONSTRAINTS || is_any_long(names) || is_repeated(names)
}

fn is_odd_key(key: &KeyTree) -> bool
    ensures { result ≡ spec.is_odd_key key.now }
{
    key.columns.len() > MAX_KEY || is_repeated(key.columns.as_slice())
}

fn is_any_odd_key(keys: &[KeyTree]) -> bool
    ensures { result ≡ list_any spec.is_odd_key keys.now }
{
    keys.iter().any(|key| is_odd_key(key))
}

fn are_odd_keys(table: &TableTree) -> bool
    ensures { result ≡ spec.are_odd_keys table.now }
{
    table.key.len() != 1
        || is_any_odd_key(table.key.as_slice())
        || is_any_odd_key(table.uniques.as_slice())
}

fn is_odd_foreign<'d>(
    definitions: &TablesByName<'d>,
    table: &'d TableTree,
    foreign: &ForeignTree,
) -> bool
    ensures { result ≡ spec.is_odd_foreign definitions.now table.now foreign.now }
{
    !refers_to(parent_of(definitions, table, foreign), table, foreign)
        || is_repeated(foreign.columns.as_slice())
}

fn is_any_odd_foreign<'d>(definitions: &TablesByName<'d>, table: &'d TableTree) -> bool
    ensures { result ≡ list_any (spec.is_odd_foreign definitions.now table.now) table.now.foreigns }
{
    let foreigns = table.foreigns.as_slice();
    for foreign in foreigns {
        if is_odd_foreign(definitions, table, foreign) {
            return true;
        }
    }
    false
}

/// Whether a table is outside a limit by its columns and constraints, their names and types, or the
/// keys that are referred to.
fn is_odd_table<'d>(
    alloc: Global,
    definitions: &TablesByName<'d>,
    table: &'d TableTree,
) -> Result<bool, BindFault>
    ensures { Gives result (Ok (spec.is_odd_table definitions.now table.now)) }
{
    if is_long(&table.name) || are_odd_columns(alloc, table.columns.as_slice())? {
        return Ok(true);
    }
    let names = constraint_names(alloc, table)?;
    if are_odd_names(names.as_slice()) || are_odd_keys(table) {
        return Ok(true);
    }
    Ok(is_any_odd_foreign(definitions, table))
}
