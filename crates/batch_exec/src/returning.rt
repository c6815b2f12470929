//! What a procedure gives back, and how its call ends.

ghost use Rattle.std.specs.Prelude.{◌≡◌, ◌++◌, ◌∷◌, ◌≤◌, [], List, IfOk, map, option_map};
ghost use Rattle.value_types.specs.declared.value.Value.{Value as Of};
ghost use Rattle.call_rules.specs.Arguments.{outputs_of};
ghost use Rattle.dml_exec.specs.Asking.{seen};
ghost use Rattle.batch_meaning.specs.Calls.{given_back, output_value, status_names, status_values};
ghost use Rattle.batch_meaning.specs.Doing.{Did};
ghost use Rattle.batch_meaning.specs.Meaning.{ends_call, ends_even, ends_uneven, gives_back, is_even, returns_from, uneven_end, uneven_tokens};
ghost use Rattle.batch_meaning.specs.Progress.{Ready};
ghost use Rattle.session_state.specs.Parts.{IsOrMemory, SetsFit};
ghost use Rattle.batch_exec.specs.Running.{returned_with, tells_uneven};

use crate::errors::{catch, end_by, fail, succeed};
use batch_meaning::{Exit, Failure, Raised};
use call_rules::{Output, outputs_of};
use error_table::Action;
use session_state::{
    Around, Effect, RESULT_FULL, SessionState, TokenList, UNEVEN, error_and_done, error_tokens,
    no_memory, procedure_done, raised_in, sets_of,
};
use session_vars::Vars;
use sqlite_items::{Boxed, Items};
use statement_exec::line_of;
use std::alloc::Global;
use step_model::Port;
use tsql_tree::{Argument, ProcedureTree, Statement};
use value_types::{Memory, Units, Value};

/// A call whose procedure has ended.
#[derive(Drop)]
pub(crate) struct CallEnd<'r> {
    /// Its arguments.
    pub(crate) arguments: &'r [Argument],
    /// What was run.
    pub(crate) procedure: &'r ProcedureTree,
    /// The variables of that at its end.
    pub(crate) inner: &'r Vars,
    /// How many transactions were open in one another when it began.
    pub(crate) count: u32,
}

/// A procedure has ended so, whose status the named variable takes, if there is one.
#[inline(never)]
pub(crate) fn return_from<P: Port>(
    alloc: Global,
    session: &mut SessionState,
    port: &mut P,
    statement: &Statement,
    takes: Option<&Units>,
    exit: Exit,
    end: &CallEnd<'_>,
    around: &Around<'_, '_>,
) -> Result<Exit, Memory>
    requires ready { Ready session.old (P.past port.old) }
    ensures does { (values : List Of) → Did (P.past port.old) (P.past port.new) (returns_from around.now statement.now (option_map (λ name. name.now) takes.entry) end.now.arguments.now (record { procedure = end.now.procedure.now; values = values }) end.now.count end.now.inner.now exit) session.old result session.new }
    ensures ready { Ready session.new (P.past port.new) }
    ensures left { session.new.statements_left ≡ session.old.statements_left }
{
    match returned_with(exit) {
        Ok(status) => give_back(alloc, session, port, statement, takes, status, end, around),
        Err(exit) => {
            session.tell_rows(0);
            Ok(exit)
        }
    }
}

/// The status with which a procedure returned, or how its call is left: an error is on its way, or has ended the batch.
fn returned_with(exit: Exit) -> Result<i32, Exit>
    ensures { result ≡ returned_with exit }
{
    match exit {
        Exit::Raise(raised) => Err(Exit::Raise(raised)),
        Exit::RaiseUp(raised) => Err(Exit::Raise(raised)),
        Exit::End => Err(Exit::End),
        Exit::Return(status) => Ok(status),
        _ => Ok(0),
    }
}

/// It has returned with this status.
fn give_back<P: Port>(
    alloc: Global,
    session: &mut SessionState,
    port: &mut P,
    statement: &Statement,
    takes: Option<&Units>,
    status: i32,
    end: &CallEnd<'_>,
    around: &Around<'_, '_>,
) -> Result<Exit, Memory>
    requires ready { Ready session.old (P.past port.old) }
    ensures does { (values : List Of) → Did (P.past port.old) (P.past port.new) (gives_back around.now statement.now (option_map (λ name. name.now) takes.entry) end.now.arguments.now (record { procedure = end.now.procedure.now; values = values }) end.now.count end.now.inner.now status) session.old result session.new }
    ensures ready { Ready session.new (P.past port.new) }
    ensures left { session.new.statements_left ≡ session.old.statements_left }
{
    match given_back(alloc, session.vars(), takes, status, end) {
        Ok(sets) => {
            session.assign_all(sets);
            end_call(alloc, session, port, statement, end.count, status, around)
        }
        Err(failure) => fail(alloc, session, port, statement, around, failure),
    }
}

/// What it gives back: its status, and then its OUTPUT parameters in their order.
pub(crate) fn given_back(
    alloc: Global,
    vars: &Vars,
    takes: Option<&Units>,
    status: i32,
    end: &CallEnd<'_>,
) -> Result<Vec<(u16, Value)>, Failure>
    ensures came { (values : List Of) → IsOrMemory (given_back vars.now (option_map (λ name. name.now) takes.entry) end.now.arguments.now (record { procedure = end.now.procedure.now; values = values }) status end.now.inner.now) (seen result) }
    ensures fits { IfOk result (λ sets. SetsFit vars.now sets.items) }
{
    match names_and_values(alloc, takes, status, end) {
        Ok((names, values)) => sets_of(alloc, vars, names.as_slice(), values.as_slice()),
        Err(_) => Err(no_memory()),
    }
}

/// The names of the variables that take something, and what they take.
fn names_and_values(
    alloc: Global,
    takes: Option<&Units>,
    status: i32,
    end: &CallEnd<'_>,
) -> Result<(Items<Units>, Items<Value>), Memory>
    ensures names { IfOk result (λ given. given.0 ≡ status_names (option_map (λ name. name.now) takes.entry) ++ map (λ output. output.variable) (outputs_of end.now.procedure.now.parameters end.now.arguments.now)) }
    ensures values { IfOk result (λ given. given.1 ≡ status_values (option_map (λ name. name.now) takes.entry) status ++ map (output_value end.now.inner.now) (outputs_of end.now.procedure.now.parameters end.now.arguments.now)) }
{
    let outputs = outputs_of(alloc, end.procedure.parameters.as_slice(), end.arguments)?;
    let names = names_given(alloc, takes, outputs.as_slice())?;
    let values = values_given(alloc, takes, status, outputs.as_slice(), end.inner)?;
    Ok((Items::from_vec(names), Items::from_vec(values)))
}

/// The names of the variables that take something.
fn names_given(
    alloc: Global,
    takes: Option<&Units>,
    outputs: &[Output],
) -> Result<Vec<Units>, Memory>
    ensures { IfOk result (λ names. names.items ≡ status_names (option_map (λ name. name.now) takes.entry) ++ map (λ output. output.variable) outputs.now) }
{
    let mut names = status_names(alloc, takes)?;
    add_names(alloc, &mut names, outputs)?;
    Ok(names)
}

/// Adds the variables of OUTPUT parameters.
fn add_names(alloc: Global, names: &mut Vec<Units>, outputs: &[Output]) -> Result<(), Memory>
    ensures { IfOk result (λ _. names.new.items ≡ names.old.items ++ map (λ output. output.variable) outputs.now) }
{
    for output in outputs {
        add_name(alloc, names, output)?;
    }
    Ok(())
}

/// Adds that of one.
fn add_name(alloc: Global, names: &mut Vec<Units>, output: &Output) -> Result<(), Memory>
    ensures { IfOk result (λ _. names.new.items ≡ names.old.items ++ output.now.variable ∷ []) }
{
    names.push(output.variable.copy(alloc)?)?;
    Ok(())
}

/// The variable that takes the status, if there is one.
fn status_names(alloc: Global, takes: Option<&Units>) -> Result<Vec<Units>, Memory>
    ensures { IfOk result (λ names. names.items ≡ status_names (option_map (λ name. name.now) takes.entry)) }
{
    match takes {
        Some(name) => Ok(vec![in alloc; name.copy(alloc)?]?),
        None => Ok(Vec::new(alloc)),
    }
}

/// What they take.
fn values_given(
    alloc: Global,
    takes: Option<&Units>,
    status: i32,
    outputs: &[Output],
    inner: &Vars,
) -> Result<Vec<Value>, Memory>
    ensures { IfOk result (λ values. values.items ≡ status_values (option_map (λ name. name.now) takes.entry) status ++ map (output_value inner.now) outputs.now) }
{
    let mut values = status_values(alloc, takes, status)?;
    add_values(alloc, &mut values, outputs, inner)?;
    Ok(values)
}

/// Adds the values of OUTPUT parameters.
fn add_values(
    alloc: Global,
    values: &mut Vec<Value>,
    outputs: &[Output],
    inner: &Vars,
) -> Result<(), Memory>
    ensures { IfOk result (λ _. values.new.items ≡ values.old.items ++ map (output_value inner.now) outputs.now) }
{
    for output in outputs {
        add_value(alloc, values, output, inner)?;
    }
    Ok(())
}

/// Adds that of one.
fn add_value(
    alloc: Global,
    values: &mut Vec<Value>,
    output: &Output,
    inner: &Vars,
) -> Result<(), Memory>
    ensures { IfOk result (λ _. values.new.items ≡ values.old.items ++ output_value inner.now output.now ∷ []) }
{
    values.push(output_value(alloc, inner, output)?)?;
    Ok(())
}

/// The status, if a variable takes it.
fn status_values(alloc: Global, takes: Option<&Units>, status: i32) -> Result<Vec<Value>, Memory>
    ensures { IfOk result (λ values. values.items ≡ status_values (option_map (λ name. name.now) takes.entry) status) }
{
    match takes {
        Some(_) => Ok(vec![in alloc; Value::Whole(i64::from(status))]?),
        None => Ok(Vec::new(alloc)),
    }
}

/// The value of an OUTPUT parameter.
fn output_value(alloc: Global, inner: &Vars, output: &Output) -> Result<Value, Memory>
    ensures { IfOk result (λ value. value ≡ output_value inner.now output.now) }
{
    if output.place < usize::from(inner.count()) {
        inner.get(narrow(output.place)).copy(alloc)
    } else {
        Ok(Value::Null)
    }
}

/// A place among variables.
fn narrow(place: usize) -> u16
    requires { place ≤ 65535 }
    ensures { result ≡ place }
{
    place as u16
}

// ---- the end of a call

/// The end of a call where so many transactions were open: its status and DONEPROC, or an error where the count is
/// another.
fn end_call<P: Port>(
    alloc: Global,
    session: &mut SessionState,
    port: &mut P,
    statement: &Statement,
    count: u32,
    status: i32,
    around: &Around<'_, '_>,
) -> Result<Exit, Memory>
    requires ready { Ready session.old (P.past port.old) }
    ensures does { Did (P.past port.old) (P.past port.new) (ends_call around.now statement.now count status) session.old result session.new }
    ensures ready { Ready session.new (P.past port.new) }
    ensures left { session.new.statements_left ≡ session.old.statements_left }
{
    if is_even(session, count) {
        return end_even(alloc, session, port, statement, status, around);
    }
    let line = line_of(statement)?;
    let procedure = around.procedure(alloc)?;
    let raised = raised_in(alloc, procedure, line, &Failure::plain(UNEVEN))?;
    end_uneven(alloc, session, port, statement, status, raised, around)
}

/// Whether so many transactions are open in one another, or the one that a statement has begun unseen.
pub(crate) fn is_even(session: &SessionState, count: u32) -> bool
    ensures { result ≡ is_even session.now count }
{
    session.count() == count || (session.settings().implicit && count == 0 && session.count() == 1)
}

/// With as many transactions as before.
fn end_even<P: Port>(
    alloc: Global,
    session: &mut SessionState,
    port: &mut P,
    statement: &Statement,
    status: i32,
    around: &Around<'_, '_>,
) -> Result<Exit, Memory>
    requires ready { Ready session.old (P.past port.old) }
    ensures does { Did (P.past port.old) (P.past port.new) (ends_even around.now statement.now status) session.old result session.new }
    ensures ready { Ready session.new (P.past port.new) }
    ensures left { session.new.statements_left ≡ session.old.statements_left }
{
    let tokens = procedure_done(alloc, status)?;
    if session.is_full(&tokens) {
        let full = Failure::plain(RESULT_FULL);
        return fail(alloc, session, port, statement, around, full);
    }
    succeed(session, statement, Effect::sending(alloc, tokens), Exit::On)
}

/// With another count: an error, which stands in front of the procedure's end where the batch goes on, and has no DONE of
/// its own.
fn end_uneven<P: Port>(
    alloc: Global,
    session: &mut SessionState,
    port: &mut P,
    statement: &Statement,
    status: i32,
    raised: Boxed<Raised>,
    around: &Around<'_, '_>,
) -> Result<Exit, Memory>
    requires ready { Ready session.old (P.past port.old) }
    ensures does { Did (P.past port.old) (P.past port.new) (ends_uneven around.now statement.now status raised) session.old result session.new }
    ensures ready { Ready session.new (P.past port.new) }
    ensures left { session.new.statements_left ≡ session.old.statements_left }
{
    let caught = around.catches(raised.get());
    let action = around.action(session.settings().xact_abort, raised.get());
    let tokens = uneven_tokens(alloc, caught, action, status, raised.get())?;
    if session.is_full(&tokens) {
        let full = Failure::plain(RESULT_FULL);
        return fail(alloc, session, port, statement, around, full);
    }
    tell_uneven(alloc, session, port, tokens, caught, action, raised)
}

/// What is sent behind a procedure that ended with another count of transactions.
fn uneven_tokens(
    alloc: Global,
    caught: bool,
    action: Action,
    status: i32,
    raised: &Raised,
) -> Result<TokenList, Memory>
    ensures { IfOk result (λ tokens. tokens ≡ uneven_tokens caught action status raised.now) }
{
    if caught {
        return procedure_done(alloc, status);
    }
    match action {
        Action::Statement => error_and_done(alloc, raised, status),
        Action::Doom => error_and_done(alloc, raised, status),
        Action::Batch => error_tokens(alloc, raised),
        Action::BatchAndTransaction => error_tokens(alloc, raised),
    }
}

/// It is sent, and the error ends what it ends, or is caught.
fn tell_uneven<P: Port>(
    alloc: Global,
    session: &mut SessionState,
    port: &mut P,
    tokens: TokenList,
    caught: bool,
    action: Action,
    raised: Boxed<Raised>,
) -> Result<Exit, Memory>
    requires ready { Ready session.old (P.past port.old) }
    ensures does { Did (P.past port.old) (P.past port.new) (tells_uneven tokens caught action raised) session.old result session.new }
    ensures ready { Ready session.new (P.past port.new) }
    ensures left { session.new.statements_left ≡ session.old.statements_left }
{
    session.tell_rows(0);
    session.tell_error(raised.get().number);
    session.send(tokens)?;
    uneven_end(alloc, session, port, caught, action, raised)
}

/// It is caught, or ends what it ends.
fn uneven_end<P: Port>(
    alloc: Global,
    session: &mut SessionState,
    port: &mut P,
    caught: bool,
    action: Action,
    raised: Boxed<Raised>,
) -> Result<Exit, Memory>
    requires ready { Ready session.old (P.past port.old) }
    ensures does { Did (P.past port.old) (P.past port.new) (uneven_end caught action raised) session.old result session.new }
    ensures ready { Ready session.new (P.past port.new) }
    ensures left { session.new.statements_left ≡ session.old.statements_left }
{
    if caught {
        Ok(catch(session, action, raised))
    } else {
        end_by(alloc, session, port, action)
    }
}
