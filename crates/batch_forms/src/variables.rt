//! The variables that statements declare, at any depth, in the order of the text.

ghost use Rattle.std.specs.Prelude.{◌≡◌, map, OnOk, IfOk};
ghost use Rattle.batch_meaning.specs.Statements.{declares_all, declares_one, in_turn, vars_behind, vars_in, vars_of};

use session_vars::Vars;
use std::alloc::Global;
use tsql_tree::{Declaration, Form, Statement};
use value_types::Memory;

/// How many variables can stand.
const COUNT_LIMIT: u16 = 65_535;

/// The variables of a batch or of a trigger.
pub fn vars_of(alloc: Global, statements: &[Statement]) -> Result<Vars, Memory>
    ensures { IfOk result (λ vars. vars ≡ vars_of statements.now) }
{
    vars_behind(alloc, Vars::new(alloc), statements)
}

/// The variables that statements declare behind these.
pub fn vars_behind(alloc: Global, mut vars: Vars, statements: &[Statement]) -> Result<Vars, Memory>
    ensures { IfOk result (λ all. all ≡ vars_behind vars statements.now) }
{
    add_all(alloc, statements, &mut vars)?;
    Ok(vars)
}

/// Adds those of statements one after another.
#[cycle(variables)]
fn add_all(alloc: Global, statements: &[Statement], vars: &mut Vars) -> Result<(), Memory>
    ensures { OnOk result (vars.new ≡ in_turn (map vars_in statements.now) vars.old) }
{
    for statement in statements {
        add(alloc, statement, vars)?;
    }
    Ok(())
}

/// Adds those of a statement, with those that it holds.
#[cycle(variables)]
fn add(alloc: Global, statement: &Statement, vars: &mut Vars) -> Result<(), Memory>
    ensures { OnOk result (vars.new ≡ vars_in statement.now vars.old) }
{
    match &statement.form {
        Form::Declare(declarations) => declare_all(alloc, declarations.as_slice(), vars),
        Form::If(_, so, None) => add(alloc, so.get(), vars),
        Form::If(_, so, Some(otherwise)) => {
            add(alloc, so.get(), vars)?;
            add(alloc, otherwise.get(), vars)
        }
        Form::While(_, body) => add(alloc, body.get(), vars),
        Form::Block(body) => add_all(alloc, body.as_slice(), vars),
        Form::TryCatch(body, handler) => {
            add_all(alloc, body.as_slice(), vars)?;
            add_all(alloc, handler.as_slice(), vars)
        }
        _ => Ok(()),
    }
}

/// Declares variables one after another.
fn declare_all(alloc: Global, declarations: &[Declaration], vars: &mut Vars) -> Result<(), Memory>
    ensures { OnOk result (vars.new ≡ declares_all declarations.now vars.old) }
{
    for of in declarations {
        declare(alloc, of, vars)?;
    }
    Ok(())
}

/// Declares a variable, which is left out beyond the limit. No two of a batch have one name.
fn declare(alloc: Global, of: &Declaration, vars: &mut Vars) -> Result<(), Memory>
    ensures { OnOk result (vars.new ≡ declares_one of.now vars.old) }
{
    if vars.count() < COUNT_LIMIT {
        let name = of.name.copy(alloc)?;
        match vars.declare(alloc, name, of.kind) {
            Ok(()) => Ok(()),
            Err(_) => Err(Memory),
        }
    } else {
        Ok(())
    }
}
