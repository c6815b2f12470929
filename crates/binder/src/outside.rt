//! What a statement names beside its expressions, and whether that is outside a limit.

ghost use Rattle.std.specs.Prelude.{◌≡◌};
ghost use Rattle.std.specs.List.{list_any};
ghost use Rattle.tsql_tree.specs.declared.statement.Form.{out-Form};
ghost use Rattle.binder.specs.Statements as spec;

use crate::limits::{TEXT_LIMIT, is_kind, is_long};
use session_vars::Vars;
use tsql_tree::{Argument, ArgumentValue, Declaration, Form};
use value_types::{Units, Value};

/// How many variables a batch has at most.
const MAX_VARIABLES: u16 = 10_000;

fn is_maybe_long(name: &Option<Units>) -> bool
    ensures { result ≡ spec.is_maybe_long name.now }
{
    match name {
        Some(name) => is_long(name),
        None => false,
    }
}

/// Whether a variable's name is too long, or it is beyond the limit, or a text of a size that there is not.
fn is_odd_variable(name: &Units, vars: &Vars) -> bool
    ensures { result ≡ spec.is_odd_variable vars.now name.now }
{
    if is_long(name) {
        return true;
    }
    match vars.find(name) {
        Some(place) => place >= MAX_VARIABLES || !is_kind(vars.kind(place)),
        None => false,
    }
}

fn is_maybe_odd_variable(name: &Option<Units>, vars: &Vars) -> bool
    ensures { result ≡ spec.is_maybe_odd_variable vars.now name.now }
{
    match name {
        Some(name) => is_odd_variable(name, vars),
        None => false,
    }
}

fn is_odd_constant(value: &Value) -> bool
    ensures { result ≡ spec.is_odd_constant value.now }
{
    match value {
        Value::Text(units) => units.len() > usize::from(TEXT_LIMIT),
        Value::Null => false,
        Value::Whole(_) => false,
        Value::Bit(_) => false,
    }
}

fn is_odd_argument_value(value: &ArgumentValue, vars: &Vars) -> bool
    ensures { result ≡ spec.is_odd_argument_value vars.now value.now }
{
    match value {
        ArgumentValue::Constant(value) => is_odd_constant(value),
        ArgumentValue::Variable(name) => is_odd_variable(name, vars),
    }
}

fn is_odd_argument(argument: &Argument, vars: &Vars) -> bool
    ensures { result ≡ spec.is_odd_argument vars.now argument.now }
{
    is_maybe_long(&argument.name) || is_odd_argument_value(&argument.value, vars)
}

fn is_any_odd_argument(arguments: &[Argument], vars: &Vars) -> bool
    ensures { result ≡ list_any (spec.is_odd_argument vars.now) arguments.now }
{
    arguments
        .iter()
        .any(|argument| is_odd_argument(argument, vars))
}

fn is_odd_declaration(of: &Declaration, vars: &Vars) -> bool
    ensures { result ≡ spec.is_odd_declaration vars.now of.now }
{
    is_odd_variable(&of.name, vars) || !is_kind(of.kind)
}

fn is_any_odd_declaration(declarations: &[Declaration], vars: &Vars) -> bool
    ensures { result ≡ list_any (spec.is_odd_declaration vars.now) declarations.now }
{
    declarations.iter().any(|of| is_odd_declaration(of, vars))
}

fn is_any_odd_variable(names: &[Units], vars: &Vars) -> bool
    ensures { result ≡ list_any (spec.is_odd_variable vars.now) names.now }
{
    names.iter().any(|name| is_odd_variable(name, vars))
}

fn is_odd_call(
    status: &Option<Units>,
    procedure: &Units,
    arguments: &[Argument],
    vars: &Vars,
) -> bool
    ensures { result ≡ spec.is_odd_call vars.now status.now procedure.now arguments.now }
{
    is_maybe_odd_variable(status, vars)
        || is_long(procedure)
        || is_any_odd_argument(arguments, vars)
}

/// Whether something that a statement names beside its expressions is outside a limit.
pub(crate) fn names_outside(form: &Form, vars: &Vars) -> bool
    ensures { result ≡ spec.names_outside vars.now (out-Form form.now) }
{
    match form {
        Form::Drop(_, name) => is_long(name),
        Form::Declare(declarations) => is_any_odd_declaration(declarations.as_slice(), vars),
        Form::SetVariable(name, _) => is_odd_variable(name, vars),
        Form::BeginTransaction(name) => is_maybe_long(name),
        Form::Commit(name) => is_maybe_long(name),
        Form::Rollback(name) => is_maybe_long(name),
        Form::Save(name) => is_long(name),
        Form::DeclareCursor(name, _) => is_long(name),
        Form::OpenCursor(name) => is_long(name),
        Form::Fetch(name, variables) => {
            is_long(name) || is_any_odd_variable(variables.as_slice(), vars)
        }
        Form::CloseCursor(name) => is_long(name),
        Form::Deallocate(name) => is_long(name),
        Form::Use(name) => is_long(name),
        Form::Execute(status, procedure, arguments) => {
            is_odd_call(status, procedure, arguments.as_slice(), vars)
        }
        Form::Select(_) => false,
        Form::Insert(_, _, _) => false,
        Form::Update(_, _, _) => false,
        Form::Delete(_, _) => false,
        Form::CreateTable(_, _) => false,
        Form::If(_, _, _) => false,
        Form::While(_, _) => false,
        Form::Break => false,
        Form::Continue => false,
        Form::Block(_) => false,
        Form::TryCatch(_, _) => false,
        Form::Print(_) => false,
        Form::RaiseError(_, _, _) => false,
        Form::Return(_) => false,
        Form::ThrowAgain => false,
        Form::Throw(_, _, _) => false,
        Form::SetOption(_) => false,
    }
}
