//! EXEC: what is called, and with which variables.

ghost use Rattle.std.specs.Prelude.{◌≡◌, ◌++◌, ◌∷◌, ◌<◌, [], Option, IfOk, IsTrue, Ok, is_some, option_map, true};
ghost use Rattle.std.specs.List.{list_all};
ghost use Rattle.session_vars.specs.Variables.{HasItsType, place_of};
ghost use Rattle.tsql_tree.specs.declared.definition.Definition.{Definition as Found};
ghost use Rattle.call_rules.specs.Arguments.{are_declared, argument_values};
ghost use Rattle.batch_meaning.specs.Calls.{are_standing, call_of, call_vars, call_with, finds_call, parameter_var, parameter_vars, status_names};
ghost use Rattle.batch_meaning.specs.Doing.{Did};
ghost use Rattle.batch_meaning.specs.Progress.{Ready};
ghost use Rattle.batch_meaning.specs.Working.{asks_any, known_by};
ghost use Rattle.session_state.specs.Parts.{IsOrMemory};
ghost use Rattle.batch_exec.specs.Running.{AreTyped, call_bound, call_found, procedure_in};

use batch_forms::vars_behind;
use batch_meaning::Failure;
use call_rules::{CallFault, are_declared, match_arguments};
use session_state::{
    Around, NO_PROCEDURE, OUTSIDE_LIMITS, SessionState, TOO_DEEP, naming, no_memory,
};
use session_vars::Vars;
use statement_exec::{asks_named, bind_first, enter, find_name, leave};
use std::alloc::Global;
use std::marker::Model;
use step_model::Port;
use tsql_tree::{Argument, Definition, Parameter, ProcedureTree, Statement};
use value_types::{Memory, Units, Value};

/// How many variables can stand.
const COUNT_LIMIT: u16 = 65_535;

/// A call that may begin: the procedure, and the values of its parameters.
#[derive(Drop)]
pub(crate) struct Call {
    /// What is run.
    pub(crate) procedure: ProcedureTree,
    /// A value for each parameter, of its type.
    pub(crate) values: Vec<Value>,
}

impl Model for Call {
    ghost use Rattle.std.specs.Coded.{codes};
    ghost use Rattle.tsql_tree.specs.contracts.statement.Statement as tree;
    ghost use Rattle.batch_meaning.specs.Calls.{Call as Called};

    ghost Value = { Called };

    ghost coded = { Prim.hlevel (codes, tree.the_row.coded) };

    ghost view = { λ call. record { procedure = call.procedure; values = call.values.items } };
}

/// Looks a procedure up, and binds its call.
#[inline(never)]
pub(crate) fn find_call<P: Port>(
    alloc: Global,
    session: &mut SessionState,
    port: &mut P,
    statement: &Statement,
    takes: Option<&Units>,
    name: &Units,
    arguments: &[Argument],
    around: &Around<'_, '_>,
) -> Result<Call, Failure>
    requires ready { Ready session.old (P.past port.old) }
    ensures does { Did (P.past port.old) (P.past port.new) (finds_call around.now statement.now (option_map (λ name. name.now) takes.entry) name.now arguments.now) session.old (Ok result) session.new }
    ensures ready { Ready session.new (P.past port.new) }
    ensures left { session.new.statements_left ≡ session.old.statements_left }
    ensures typed { IfOk result (λ call. AreTyped call.procedure.parameters call.values) }
    ensures room { IfOk result (λ call. around.now.depth < 32) }
{
    let asks = asks_named(around, &statement.form, name);
    let home = enter(session, port, asks)?;
    let came = call_in(
        alloc, session, port, statement, takes, name, arguments, around,
    );
    leave(session, port, home, came.is_ok());
    came
}

/// The same within its transaction.
fn call_in<P: Port>(
    alloc: Global,
    session: &mut SessionState,
    port: &mut P,
    statement: &Statement,
    takes: Option<&Units>,
    name: &Units,
    arguments: &[Argument],
    around: &Around<'_, '_>,
) -> Result<Call, Failure>
    requires ready { Ready session.old (P.past port.old) }
    requires begun { asks_any (known_by around.now statement.now) (name.now ∷ []) ≡ true → session.old.is_open ≡ true }
    ensures does { Did (P.past port.old) (P.past port.new) (call_found around.now statement.now (option_map (λ name. name.now) takes.entry) name.now arguments.now) session.old (Ok result) session.new }
    ensures ready { Ready session.new (P.past port.new) }
    ensures kept { session.new.is_open ≡ session.old.is_open }
    ensures typed { IfOk result (λ call. AreTyped call.procedure.parameters call.values) }
    ensures room { IfOk result (λ call. around.now.depth < 32) }
{
    let found = find_name(alloc, session, port, around, &statement.form, name)?;
    call_over(
        alloc, session, statement, takes, name, arguments, around, found,
    )
}

/// What was found under the name of a call, which is bound then.
pub(crate) fn call_over(
    alloc: Global,
    session: &SessionState,
    statement: &Statement,
    takes: Option<&Units>,
    name: &Units,
    arguments: &[Argument],
    around: &Around<'_, '_>,
    found: Option<Definition>,
) -> Result<Call, Failure>
    ensures came { IsOrMemory (call_bound around.now statement.now (option_map (λ name. name.now) takes.entry) name.now arguments.now session.now found) result }
    ensures typed { IfOk result (λ call. AreTyped call.procedure.parameters call.values) }
    ensures room { IfOk result (λ call. around.now.depth < 32) }
{
    let procedure = procedure_in(found);
    bind_first(alloc, session, statement)?;
    let vars = session.vars();
    if !are_standing(takes, arguments, vars) {
        return Err(Failure::plain(OUTSIDE_LIMITS));
    }
    call_of(alloc, vars, name, arguments, around, procedure)
}

/// Whether each variable that a call names stands.
fn are_standing(takes: Option<&Units>, arguments: &[Argument], vars: &Vars) -> bool
    ensures stands { result ≡ are_standing (option_map (λ name. name.now) takes.entry) arguments.now vars.now }
    ensures declared { IsTrue result → IsTrue (are_declared vars.now arguments.now) }
{
    takes_standing(takes, vars) && are_declared(arguments, vars)
}

/// Whether the variable that takes its status stands, if there is one.
fn takes_standing(takes: Option<&Units>, vars: &Vars) -> bool
    ensures { result ≡ list_all (λ name. is_some (place_of name vars.now)) (status_names (option_map (λ name. name.now) takes.entry)) }
{
    match takes {
        Some(name) => vars.find(name).is_some(),
        None => true,
    }
}

/// What was found under a name, if it is a procedure.
pub(crate) fn procedure_in(found: Option<Definition>) -> Option<ProcedureTree>
    ensures { result ≡ procedure_in found }
{
    match found {
        Some(Definition::Procedure(procedure)) => Some(procedure),
        _ => None,
    }
}

/// What was found under the name is a procedure, one more may begin, and the arguments are its.
fn call_of(
    alloc: Global,
    vars: &Vars,
    name: &Units,
    arguments: &[Argument],
    around: &Around<'_, '_>,
    procedure: Option<ProcedureTree>,
) -> Result<Call, Failure>
    requires declared { IsTrue (are_declared vars.now arguments.now) }
    ensures came { (found : Option Found) → procedure ≡ procedure_in found → IsOrMemory (call_of around.now name.now arguments.now vars.now found) result }
    ensures typed { IfOk result (λ call. AreTyped call.procedure.parameters call.values) }
    ensures room { IfOk result (λ call. around.now.depth < 32) }
{
    match procedure {
        Some(_) if around.is_deepest() => Err(Failure::plain(TOO_DEEP)),
        Some(procedure) => call_with(alloc, procedure, arguments, vars),
        None => Err(naming(alloc, NO_PROCEDURE, name)),
    }
}

/// The call of a procedure with these arguments.
fn call_with(
    alloc: Global,
    procedure: ProcedureTree,
    arguments: &[Argument],
    vars: &Vars,
) -> Result<Call, Failure>
    requires declared { IsTrue (are_declared vars.now arguments.now) }
    ensures came { IsOrMemory (call_with procedure (argument_values vars.now procedure.parameters arguments.now)) result }
    ensures typed { IfOk result (λ call. AreTyped call.procedure.parameters call.values) }
{
    match match_arguments(alloc, procedure.parameters.as_slice(), arguments, vars) {
        Ok(values) => Ok(Call { procedure, values }),
        Err(CallFault::Number(number)) => Err(Failure { number, name: None }),
        Err(CallFault::Memory) => Err(no_memory()),
    }
}

// ---- its variables

/// The variables of a call: its parameters, and behind them what its statements declare.
pub(crate) fn call_vars(
    alloc: Global,
    procedure: &ProcedureTree,
    values: Vec<Value>,
) -> Result<Vars, Memory>
    requires typed { AreTyped procedure.now.parameters values.items }
    ensures { IfOk result (λ vars. vars ≡ call_vars (record { procedure = procedure.now; values = values.items })) }
{
    let vars = parameter_vars(alloc, procedure.parameters.as_slice(), values)?;
    vars_behind(alloc, vars, procedure.body.as_slice())
}

/// Parameters with their values.
fn parameter_vars(
    alloc: Global,
    parameters: &[Parameter],
    values: Vec<Value>,
) -> Result<Vars, Memory>
    requires typed { AreTyped parameters.now values.items }
    ensures { IfOk result (λ vars. vars ≡ parameter_vars parameters.now values.items) }
{
    let mut vars = Vars::new(alloc);
    let mut rest = parameters;
    for value in values {
        let [parameter, others @ ..] = rest else {
            return Ok(vars);
        };
        declare(alloc, &mut vars, parameter, value)?;
        rest = others;
    }
    Ok(vars)
}

/// Adds a parameter with its value. No procedure has more of them than variables can stand.
fn declare(
    alloc: Global,
    vars: &mut Vars,
    parameter: &Parameter,
    value: Value,
) -> Result<(), Memory>
    requires typed { HasItsType (parameter_var parameter.now value) }
    ensures { IfOk result (λ _. vars.new ≡ vars.old ++ parameter_var parameter.now value ∷ []) }
{
    let place = vars.count();
    if place == COUNT_LIMIT {
        return Err(Memory);
    }
    let name = parameter.name.copy(alloc)?;
    match vars.declare(alloc, name, parameter.kind) {
        Ok(()) => {
            vars.set(place, value);
            Ok(())
        }
        Err(_) => Err(Memory),
    }
}
