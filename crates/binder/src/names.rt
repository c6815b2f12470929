//! The objects that a statement looks up.
#![tactic(auto, using(table_names::proofs::Noted::distinct_append))]

ghost use Rattle.std.specs.Prelude.{◌≡◌, ◌++◌, [], map, OnOk, IfOk};
ghost use Rattle.typed_nodes.specs.Refusals.{Gives};
ghost use Rattle.tsql_tree.specs.declared.statement.Form.{out-Form};
ghost use Rattle.table_names.specs.Contents.{all_of, distinct_onto, in_expr};
ghost use Rattle.binder.specs.Names as spec;

use crate::fault::{INVALID_OBJECT, refused};
use clause_binder::TablesByName;
use sqlite_items::{Boxed, Items};
use std::alloc::Global;
use table_names::TableNames;
use tsql_tree::{Assignment, Declaration, Expr, ForeignTree, Form, InsertRows, Statement, Test};
use typed_nodes::BindFault;
use value_types::{Memory, Units};

/// The objects that a statement looks up, in the order of the text, each once. Statements within it
/// look up for themselves, and a cursor's select is looked up when it is opened.
pub fn names_of(alloc: Global, statement: &Statement) -> Result<Vec<Units>, Memory>
    ensures { IfOk result (λ names. names.items ≡ spec.looked_up statement.now) }
{
    let form = &statement.form;
    let mut names = TableNames::new(alloc);
    note_tables(form, &mut names)?;
    note_objects(form, &mut names)?;
    Ok(names.into_names())
}

/// The tables that a statement names, in the order of the text, each once.
pub(crate) fn tables_of(alloc: Global, form: &Form) -> Result<Vec<Units>, Memory>
    ensures { IfOk result (λ names. names.items ≡ distinct_onto [] (spec.table_names (out-Form form.now))) }
{
    let mut names = TableNames::new(alloc);
    note_tables(form, &mut names)?;
    Ok(names.into_names())
}

/// Whether each of the names is a table's. Error 208 of the first that is none.
pub(crate) fn all_tables(
    alloc: Global,
    definitions: &TablesByName<'_>,
    names: &[Units],
) -> Result<(), BindFault>
    ensures { Gives result (spec.all_tables definitions.now names.now) }
{
    for name in names {
        if definitions.find(name).is_none() {
            return refused(alloc, INVALID_OBJECT, name);
        }
    }
    Ok(())
}

fn note_maybe_test(test: &Option<Boxed<Test>>, names: &mut TableNames) -> Result<(), Memory>
    ensures { OnOk result (names.new ≡ distinct_onto names.old (spec.in_maybe_test test.now)) }
{
    match test {
        Some(test) => names.note_test(test.get()),
        None => Ok(()),
    }
}

fn note_maybe_expr(expr: &Option<Boxed<Expr>>, names: &mut TableNames) -> Result<(), Memory>
    ensures { OnOk result (names.new ≡ distinct_onto names.old (spec.in_maybe_expr expr.now)) }
{
    match expr {
        Some(expr) => names.note_expr(expr.get()),
        None => Ok(()),
    }
}

fn note_row(row: &[Expr], names: &mut TableNames) -> Result<(), Memory>
    ensures { OnOk result (names.new ≡ distinct_onto names.old (spec.in_row row.now)) }
{
    for expr in row {
        names.note_expr(expr)?;
    }
    Ok(())
}

fn note_values(rows: &[Items<Expr>], names: &mut TableNames) -> Result<(), Memory>
    ensures { OnOk result (names.new ≡ distinct_onto names.old (all_of (map spec.in_row rows.now))) }
{
    for row in rows {
        note_row(row.as_slice(), names)?;
    }
    Ok(())
}

fn note_rows(rows: &InsertRows, names: &mut TableNames) -> Result<(), Memory>
    ensures { OnOk result (names.new ≡ distinct_onto names.old (spec.in_rows rows.now)) }
{
    match rows {
        InsertRows::Values(values) => note_values(values.as_slice(), names),
        InsertRows::Query(select) => names.note_select(select),
    }
}

fn note_sets(sets: &[Assignment], names: &mut TableNames) -> Result<(), Memory>
    ensures { OnOk result (names.new ≡ distinct_onto names.old (spec.in_sets sets.now)) }
{
    for set in sets {
        names.note_expr(&set.value)?;
    }
    Ok(())
}

/// The tables of an UPDATE.
fn note_update(
    table: &Units,
    sets: &[Assignment],
    filter: &Option<Boxed<Test>>,
    names: &mut TableNames,
) -> Result<(), Memory>
    ensures { OnOk result (names.new ≡ distinct_onto names.old (spec.in_update table.now sets.now filter.now)) }
{
    names.note(table)?;
    note_sets(sets, names)?;
    note_maybe_test(filter, names)
}

fn note_initial(of: &Declaration, names: &mut TableNames) -> Result<(), Memory>
    ensures { OnOk result (names.new ≡ distinct_onto names.old (spec.in_initial of.now)) }
{
    match &of.initial {
        Some(expr) => names.note_expr(expr),
        None => Ok(()),
    }
}

fn note_initials(declarations: &[Declaration], names: &mut TableNames) -> Result<(), Memory>
    ensures { OnOk result (names.new ≡ distinct_onto names.old (spec.in_initials declarations.now)) }
{
    for of in declarations {
        note_initial(of, names)?;
    }
    Ok(())
}

/// The tables that are referred to, but not the one that is made.
fn note_parents(
    table: &Units,
    foreigns: &[ForeignTree],
    names: &mut TableNames,
) -> Result<(), Memory>
    ensures { OnOk result (names.new ≡ distinct_onto names.old (all_of (map (spec.in_foreign table.now) foreigns.now))) }
{
    for foreign in foreigns {
        if foreign.parent != *table {
            names.note(&foreign.parent)?;
        }
    }
    Ok(())
}

fn note_three(
    first: &Expr,
    second: &Expr,
    third: &Expr,
    names: &mut TableNames,
) -> Result<(), Memory>
    ensures { OnOk result (names.new ≡ distinct_onto names.old ((in_expr first.now ++ (in_expr second.now ++ in_expr third.now)))) }
{
    names.note_expr(first)?;
    names.note_expr(second)?;
    names.note_expr(third)
}

fn note_tables(form: &Form, names: &mut TableNames) -> Result<(), Memory>
    ensures { OnOk result (names.new ≡ distinct_onto names.old (spec.table_names (out-Form form.now))) }
{
    match form {
        Form::Select(select) => names.note_select(select.get()),
        Form::Insert(table, _, rows) => {
            names.note(table)?;
            note_rows(rows.get(), names)
        }
        Form::Update(table, sets, filter) => note_update(table, sets.as_slice(), filter, names),
        Form::Delete(table, filter) => {
            names.note(table)?;
            note_maybe_test(filter, names)
        }
        Form::CreateTable(table, _) => {
            let table = table.get();
            note_parents(&table.name, table.foreigns.as_slice(), names)
        }
        Form::If(test, _, _) => names.note_test(test.get()),
        Form::While(test, _) => names.note_test(test.get()),
        Form::Print(text) => names.note_expr(text.get()),
        Form::RaiseError(text, severity, state) => {
            note_three(text.get(), severity.get(), state.get(), names)
        }
        Form::Return(value) => note_maybe_expr(value, names),
        Form::Throw(number, text, state) => {
            note_three(number.get(), text.get(), state.get(), names)
        }
        Form::Declare(declarations) => note_initials(declarations.as_slice(), names),
        Form::SetVariable(_, value) => names.note_expr(value.get()),
        Form::Drop(_, _) => Ok(()),
        Form::Break => Ok(()),
        Form::Continue => Ok(()),
        Form::Block(_) => Ok(()),
        Form::TryCatch(_, _) => Ok(()),
        Form::ThrowAgain => Ok(()),
        Form::SetOption(_) => Ok(()),
        Form::BeginTransaction(_) => Ok(()),
        Form::Commit(_) => Ok(()),
        Form::Rollback(_) => Ok(()),
        Form::Save(_) => Ok(()),
        Form::DeclareCursor(_, _) => Ok(()),
        Form::OpenCursor(_) => Ok(()),
        Form::Fetch(_, _) => Ok(()),
        Form::CloseCursor(_) => Ok(()),
        Form::Deallocate(_) => Ok(()),
        Form::Use(_) => Ok(()),
        Form::Execute(_, _, _) => Ok(()),
    }
}

/// What a statement drops or runs, which need not be a table.
fn note_objects(form: &Form, names: &mut TableNames) -> Result<(), Memory>
    ensures { OnOk result (names.new ≡ distinct_onto names.old (spec.object_names (out-Form form.now))) }
{
    match form {
        Form::Drop(_, name) => names.note(name),
        Form::Execute(_, name, _) => names.note(name),
        Form::Select(_) => Ok(()),
        Form::Insert(_, _, _) => Ok(()),
        Form::Update(_, _, _) => Ok(()),
        Form::Delete(_, _) => Ok(()),
        Form::CreateTable(_, _) => Ok(()),
        Form::If(_, _, _) => Ok(()),
        Form::While(_, _) => Ok(()),
        Form::Print(_) => Ok(()),
        Form::RaiseError(_, _, _) => Ok(()),
        Form::Return(_) => Ok(()),
        Form::Throw(_, _, _) => Ok(()),
        Form::Declare(_) => Ok(()),
        Form::SetVariable(_, _) => Ok(()),
        Form::Break => Ok(()),
        Form::Continue => Ok(()),
        Form::Block(_) => Ok(()),
        Form::TryCatch(_, _) => Ok(()),
        Form::ThrowAgain => Ok(()),
        Form::SetOption(_) => Ok(()),
        Form::BeginTransaction(_) => Ok(()),
        Form::Commit(_) => Ok(()),
        Form::Rollback(_) => Ok(()),
        Form::Save(_) => Ok(()),
        Form::DeclareCursor(_, _) => Ok(()),
        Form::OpenCursor(_) => Ok(()),
        Form::Fetch(_, _) => Ok(()),
        Form::CloseCursor(_) => Ok(()),
        Form::Deallocate(_) => Ok(()),
        Form::Use(_) => Ok(()),
    }
}
