//! What a statement is bound to.

ghost use Rattle.std.specs.Prelude.{◌≡◌};
ghost use Rattle.typed_nodes.specs.Refusals.{Gives, GivesItems};
ghost use Rattle.tsql_tree.specs.declared.statement.Form.{out-Form};
ghost use Rattle.binder.specs.Statements as spec;

use crate::create_table::{bind_checks_of, create_table};
use crate::delete::delete;
use crate::fault::{OUTSIDE_LIMITS, refused_unnamed, within_limits};
use crate::insert::insert;
use crate::limits::is_beyond;
use crate::made::Made;
use crate::names::{all_tables, tables_of};
use crate::outside::names_outside;
use crate::update::update;
use crate::values::{initials_query, test_query, three_values_query, value_query};
use bound_tree::{Bound, BoundTest};
use clause_binder::{Progress, Selected, TablesByName};
use query_binder::Binder;
use session_vars::Vars;
use std::alloc::Global;
use tsql_tree::{Definition, Form, Statement, TableTree};
use typed_nodes::BindFault;

/// What a statement is bound to over the tables that are defined and the variables. The first
/// refusal stands: error 208 of a name that is no table's; then what is refused of its parts, in
/// the order in which they are bound; and 49007 of something outside the limits in the end.
pub fn bind(
    alloc: Global,
    statement: &Statement,
    definitions: &[Definition],
    vars: &Vars,
) -> Result<Bound, BindFault>
    ensures { Gives result (spec.bind definitions.now vars.now statement.now) }
{
    let form = &statement.form;
    let names = tables_of(alloc, form)?;
    let tables = TablesByName::new(alloc, definitions)?;
    all_tables(alloc, &tables, names.as_slice())?;
    let binder = Binder {
        alloc,
        definitions: &tables,
        vars,
    };
    let made = made_by(&binder, form)?;
    let beyond = made.beyond || names_outside(form, vars);
    within_limits(alloc, beyond, made.bound)
}

/// What a table's CHECKs are bound to, in the order of the text, each over the table's columns.
pub fn bind_checks(alloc: Global, table: &TableTree) -> Result<Vec<BoundTest>, BindFault>
    ensures { GivesItems result (spec.bind_checks table.now) }
{
    let mut done = Progress::begin_at(alloc, 0);
    let checks = bind_checks_of(alloc, table, &mut done)?;
    if is_beyond(&done) {
        refused_unnamed(alloc, OUTSIDE_LIMITS)
    } else {
        Ok(checks)
    }
}

fn plain_made(beyond: bool) -> Made
    ensures { result ≡ spec.plain_made beyond }
{
    Made {
        bound: Bound::Plain,
        beyond,
    }
}

fn select_made(select: Selected) -> Made
    ensures { result ≡ spec.select_made select }
{
    let beyond = select.beyond;
    let bound = if select.assigns {
        Bound::Assign(select.query, select.places)
    } else {
        Bound::Query(select.query)
    };
    Made { bound, beyond }
}

/// What is made of a statement whose tables are there.
fn made_by<'d>(binder: &Binder<'_, 'd>, form: &'d Form) -> Result<Made, BindFault>
    ensures { Gives result (spec.made_by binder.now.definitions.now binder.now.vars.now (out-Form form.now)) }
{
    match form {
        Form::Select(select) => Ok(select_made(binder.bind_select(select.get())?)),
        Form::Insert(table, names, rows) => insert(binder, table, names.as_slice(), rows.get()),
        Form::Update(table, sets, filter) => update(binder, table, sets.as_slice(), filter),
        Form::Delete(table, filter) => delete(binder, table, filter),
        Form::CreateTable(table, _) => {
            let beyond = create_table(binder.alloc, binder.definitions, table.get())?;
            Ok(plain_made(beyond))
        }
        Form::If(test, _, _) => test_query(binder, test.get()),
        Form::While(test, _) => test_query(binder, test.get()),
        Form::Print(text) => value_query(binder, text.get()),
        Form::RaiseError(text, severity, state) => {
            three_values_query(binder, text, severity, state)
        }
        Form::Return(Some(value)) => value_query(binder, value.get()),
        Form::Return(None) => Ok(plain_made(false)),
        Form::Throw(number, text, state) => { three_values_query(binder, number, text, state) }
        Form::Declare(declarations) => initials_query(binder, declarations.as_slice()),
        Form::SetVariable(_, value) => value_query(binder, value.get()),
        Form::Drop(_, _) => Ok(plain_made(false)),
        Form::Break => Ok(plain_made(false)),
        Form::Continue => Ok(plain_made(false)),
        Form::Block(_) => Ok(plain_made(false)),
        Form::TryCatch(_, _) => Ok(plain_made(false)),
        Form::ThrowAgain => Ok(plain_made(false)),
        Form::SetOption(_) => Ok(plain_made(false)),
        Form::BeginTransaction(_) => Ok(plain_made(false)),
        Form::Commit(_) => Ok(plain_made(false)),
        Form::Rollback(_) => Ok(plain_made(false)),
        Form::Save(_) => Ok(plain_made(false)),
        Form::DeclareCursor(_, _) => Ok(plain_made(false)),
        Form::OpenCursor(_) => Ok(plain_made(false)),
        Form::Fetch(_, _) => Ok(plain_made(false)),
        Form::CloseCursor(_) => Ok(plain_made(false)),
        Form::Deallocate(_) => Ok(plain_made(false)),
        Form::Use(_) => Ok(plain_made(false)),
        Form::Execute(_, _, _) => Ok(plain_made(false)),
    }
}
