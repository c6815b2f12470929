//! A call by RPC, from its beginning to its end.

ghost use Rattle.std.specs.Prelude.{◌≡◌, ◌+◌, ◌<◌, ◌≤◌, ◌++◌, ◌∷◌, ◌==◌, ◌&&◌, List, [], All, IfOk, IsTrue, None, Some, drop, false, get_or, length, map, not};
ghost use Rattle.std.specs.List.{enumerate_from};
ghost use Rattle.std.specs.Option.{option_and_then};
ghost use Rattle.value_types.specs.declared.value.Value.{Value as Of};
ghost use Rattle.value_types.specs.declared.value.Value.TheVariants.{Null};
ghost use Rattle.value_types.specs.Types.{IsOf};
ghost use Rattle.session_state.specs.Sendable.{IsFit};
ghost use Rattle.batch_meaning.specs.Failures.{plain};
ghost use Rattle.batch_meaning.specs.Doing.{Did, ◌then◌};
ghost use Rattle.batch_meaning.specs.Meaning.{ended_by, mean_of, runs_text, uneven_with};
ghost use Rattle.batch_meaning.specs.Progress.{Ready, statement_limit, values_of};
ghost use Rattle.batch_meaning.specs.Asking.{fails_naming};
ghost use Rattle.batch_meaning.specs.Rpc.{bare_name, behind_batch, binds_call, ending, ends_exec, error_or_full, execs, fails_call, finds_named, finds_read, gives_call_back, goes_on_with, is_too_many, leaves_body, name_given, object_in, passed_by, return_value, return_values, rpc, rpc_argument, rpc_arguments, rpc_statement, rpc_var, rpc_vars, runs_exec, runs_rpc, runs_sql, runs_way, skips, skips_place, tells_returned, tells_unless, tells_well};
ghost use Rattle.batch_meaning.specs.declared.errand.Errand.{Errand as AnyErrand};
ghost use Rattle.rpc_requests.specs.Fit.{IsParameter};
ghost use Rattle.batch_exec.specs.Running.{AreTyped, arguments_from, arguments_in, arguments_of_placed, own_in, procedure_in, status_of, values_told};

use crate::batch::{end, refusal, refuse, run_text};
use crate::calls::{Call, call_over, call_vars, find_call, procedure_in};
use crate::errors::end_by;
use crate::returning::{CallEnd, given_back, is_even};
use crate::running::run_body;
use batch_meaning::{Errand, Exit, Failure, Raised, ReadText, Way};
use error_table::Action;
use rpc_requests::RpcParameter;
use session_state::{
    Around, NO_PROCEDURE, OUTSIDE_LIMITS, RESULT_FULL, SessionState, TokenList, UNEVEN,
    error_in_front, error_tokens, naming, raised_at, returned_tokens,
};
use session_vars::Vars;
use sqlite_items::{Boxed, Items};
use statement_exec::is_odd_procedure;
use std::alloc::Global;
use step_model::Port;
use tds_tokens::{DoneKind, Token};
use tsql_tree::{Argument, ArgumentValue, Definition, Form, ProcedureTree, Statement};
use value_types::{Memory, SqlType, Units, Value, letting_go};

/// How many parameters a call may have: as many as a batch may name variables.
const MAX_PARAMETERS: usize = 10_000;

/// The number of the error where the arguments are not those of the procedure.
const NO_MATCH: u16 = 49012;

/// The number of the error where nothing is kept under a handle.
const NO_STATEMENT: u16 = 8179;

/// Runs a call for which this was read, over a session's port: asks what it means, and goes on by the replies. The
/// session has then what the call sends ([`SessionState::tokens`]). Where memory is wanting for that, the rest is
/// left, and a transaction may be open.
pub fn run_call<P: Port>(
    alloc: Global,
    session: &mut SessionState,
    port: &mut P,
    call: &Errand,
    read: ReadText,
) -> Result<(), Memory>
    requires ready { Ready session.old (P.past port.old) }
    requires fits { All IsParameter call.now.parameters }
    ensures does { Did (P.past port.old) (P.past port.new) (rpc call.now read) session.old result session.new }
    ensures ready { Ready session.new (P.past port.new) }
{
    let vars = rpc_vars(alloc, call)?;
    session.begin_batch(vars);
    session.begin_statement();
    let exit = run_rpc(alloc, session, port, call, read)?;
    end(alloc, session, port, exit, DoneKind::Proc)
}

// ---- its variables and its arguments

/// Whether it has more parameters than a batch may name variables.
fn is_too_many(call: &Errand) -> bool
    ensures { result ≡ is_too_many call.now }
{
    MAX_PARAMETERS < call.parameters.as_slice().len()
}

/// A variable for each parameter, of its type and with its value.
fn rpc_vars(alloc: Global, call: &Errand) -> Result<Vars, Memory>
    requires fits { All IsParameter call.now.parameters }
    ensures { IfOk result (λ vars. vars ≡ rpc_vars call.now) }
{
    if is_too_many(call) {
        return Ok(Vars::new(alloc));
    }
    vars_for(alloc, call.parameters.as_slice())
}

/// The same of so few that there may be a variable for each.
fn vars_for(alloc: Global, parameters: &[RpcParameter]) -> Result<Vars, Memory>
    requires few { length parameters.now ≤ 10000 }
    requires fits { All IsParameter parameters.now }
    ensures { IfOk result (λ vars. vars ≡ map rpc_var (enumerate_from 0 parameters.now)) }
{
    let mut vars = Vars::new(alloc);
    for parameter in parameters {
        declare(alloc, &mut vars, parameter)?;
    }
    Ok(vars)
}

/// Adds the variable of a parameter, whose name is its place.
fn declare(alloc: Global, vars: &mut Vars, parameter: &RpcParameter) -> Result<(), Memory>
    requires room { length vars.old < 10000 }
    requires fits { IsParameter parameter.now }
    ensures { IfOk result (λ _. vars.new ≡ vars.old ++ rpc_var (length vars.old, parameter.now) ∷ []) }
{
    let place = vars.count();
    let name = variable_at(alloc, place)?;
    let value = parameter.value.copy(alloc)?;
    match vars.declare(alloc, name, parameter.kind) {
        Ok(()) => {
            vars.set(place, value);
            Ok(())
        }
        Err(_) => Err(Memory),
    }
}

/// The name of the variable of a place: one unit, by which no text can name it.
fn variable_at(alloc: Global, place: u16) -> Result<Units, Memory>
    ensures { IfOk result (λ name. name ≡ place ∷ []) }
{
    Ok(Units::from(vec![in alloc; place]?))
}

/// The arguments of what is run: the variables of its parameters that are given.
fn rpc_arguments(alloc: Global, call: &Errand) -> Result<Items<Argument>, Memory>
    requires few { is_too_many call.now ≡ false }
    ensures { IfOk result (λ arguments. arguments ≡ rpc_arguments call.now) }
{
    let first = own_in(&call.way);
    let passed = passed_by(&call.way, call.parameters.as_slice());
    arguments_from(alloc, first, passed)
}

/// How many parameters stand in front of those of what is run.
fn own_in(way: &Way) -> usize
    ensures count { result ≡ own_in way.now }
    ensures small { result < 256 }
{
    match way {
        Way::RunsRead(own) => usize::from(*own),
        _ => 0,
    }
}

/// The parameters of what is run.
fn passed_by<'a>(way: &Way, parameters: &'a [RpcParameter]) -> &'a [RpcParameter]
    ensures { result.now ≡ passed_by way.now parameters.now }
{
    match way {
        Way::LooksUp(_) => parameters,
        Way::RunsRead(own) => all_behind(usize::from(*own), parameters),
        _ => &[],
    }
}

/// All behind so many.
fn all_behind(own: usize, parameters: &[RpcParameter]) -> &[RpcParameter]
    ensures { result.now ≡ drop own parameters.now }
{
    if parameters.len() <= own {
        return &[];
    }
    let (_front, others) = parameters.split_at(own);
    others
}

/// Whether a parameter without a name is given behind one that is not: no EXEC has it at its place.
fn skips_place(call: &Errand) -> bool
    ensures { result ≡ skips_place call.now }
{
    skips(passed_by(&call.way, call.parameters.as_slice()))
}

/// The same of the parameters of what is run.
fn skips(parameters: &[RpcParameter]) -> bool
    ensures { result ≡ skips false parameters.now }
{
    let mut behind = false;
    for parameter in parameters {
        if is_displaced(behind, parameter) {
            return true;
        }
        behind |= parameter.missing;
    }
    false
}

/// Whether it is given and stands by its place, behind one that is not given.
fn is_displaced(behind: bool, parameter: &RpcParameter) -> bool
    ensures { result ≡ (behind && (not parameter.now.missing && length parameter.now.name == 0)) }
{
    behind && !parameter.missing && parameter.name.is_empty()
}

/// The arguments of parameters, of which the first stands at this place.
fn arguments_from(
    alloc: Global,
    first: usize,
    parameters: &[RpcParameter],
) -> Result<Items<Argument>, Memory>
    requires few { first + length parameters.now < 65536 }
    ensures { IfOk result (λ arguments. arguments ≡ arguments_from first parameters.now) }
{
    let mut arguments = Vec::new(alloc);
    for (place, parameter) in parameters.iter().enumerate() {
        add_argument(alloc, &mut arguments, (first + place) as u16, parameter)?;
    }
    Ok(Items::from_vec(arguments))
}

/// Adds the argument of a parameter, if it is given.
fn add_argument(
    alloc: Global,
    arguments: &mut Vec<Argument>,
    place: u16,
    parameter: &RpcParameter,
) -> Result<(), Memory>
    ensures { IfOk result (λ _. arguments.new.items ≡ arguments.old.items ++ arguments_of_placed ((place, parameter.now) ∷ [])) }
{
    if !parameter.missing {
        arguments.push(rpc_argument(alloc, place, parameter)?)?;
    }
    Ok(())
}

/// The variable of a parameter as an argument.
fn rpc_argument(alloc: Global, place: u16, parameter: &RpcParameter) -> Result<Argument, Memory>
    ensures { IfOk result (λ argument. argument ≡ rpc_argument (place, parameter.now)) }
{
    Ok(Argument {
        name: name_given(alloc, &parameter.name)?,
        value: ArgumentValue::Variable(variable_at(alloc, place)?),
        output: parameter.output,
    })
}

/// The name of an argument; one without a name stands by its place.
fn name_given(alloc: Global, name: &Units) -> Result<Option<Units>, Memory>
    ensures { IfOk result (λ given. given ≡ name_given name.now) }
{
    if name.is_empty() {
        Ok(None)
    } else {
        Ok(Some(name.copy(alloc)?))
    }
}

/// The EXEC of a procedure with the arguments of a call, at line 1.
fn rpc_statement(alloc: Global, name: &Units, call: &Errand) -> Result<Statement, Memory>
    requires few { is_too_many call.now ≡ false }
    ensures { IfOk result (λ statement. statement ≡ rpc_statement name.now (rpc_arguments call.now)) }
{
    let form = Form::Execute(None, name.copy(alloc)?, rpc_arguments(alloc, call)?);
    Ok(Statement { line: 1, form })
}

/// The arguments of an EXEC.
fn arguments_in(statement: &Statement) -> &[Argument]
    ensures { result.now ≡ arguments_in statement.now }
{
    match &statement.form {
        Form::Execute(_, _, arguments) => arguments.as_slice(),
        _ => &[],
    }
}

// ---- the call

/// The EXEC of a call.
fn run_rpc<P: Port>(
    alloc: Global,
    session: &mut SessionState,
    port: &mut P,
    call: &Errand,
    read: ReadText,
) -> Result<Exit, Memory>
    requires ready { Ready session.old (P.past port.old) }
    requires left { session.old.statements_left ≤ statement_limit }
    requires fits { All IsParameter call.now.parameters }
    ensures does { Did (P.past port.old) (P.past port.new) (runs_rpc (λ inner at. mean_of statement_limit inner at) call.now read) session.old result session.new }
    ensures ready { Ready session.new (P.past port.new) }
{
    if is_too_many(call) {
        return fail_unread(alloc, session, port, OUTSIDE_LIMITS, read);
    }
    if skips_place(call) {
        return fail_unread(alloc, session, port, NO_MATCH, read);
    }
    run_way(alloc, session, port, call, read)
}

/// By how its procedure is found.
fn run_way<P: Port>(
    alloc: Global,
    session: &mut SessionState,
    port: &mut P,
    call: &Errand,
    read: ReadText,
) -> Result<Exit, Memory>
    requires ready { Ready session.old (P.past port.old) }
    requires left { session.old.statements_left ≤ statement_limit }
    requires fits { All IsParameter call.now.parameters }
    requires few { is_too_many call.now ≡ false }
    ensures does { Did (P.past port.old) (P.past port.new) (runs_way (λ inner at. mean_of statement_limit inner at) call.now read call.now.way) session.old result session.new }
    ensures ready { Ready session.new (P.past port.new) }
{
    match &call.way {
        Way::LooksUp(name) => run_named(alloc, session, port, call, name, read),
        Way::RunsRead(_) => run_sql(alloc, session, port, call, read),
        Way::RunsBatch => {
            let came = run_batch_of(alloc, session, port, call, &read);
            letting_go(read, came)
        }
        Way::Tells => {
            let came = tell_unless(alloc, session, port, call, &read);
            letting_go(read, came)
        }
        Way::Unmatched => fail_unread(alloc, session, port, NO_MATCH, read),
        Way::Unknown(handle) => {
            let came = fail_naming(alloc, session, port, NO_STATEMENT, handle);
            letting_go(read, came)
        }
    }
}

/// What was read runs as a batch.
fn run_batch_of<P: Port>(
    alloc: Global,
    session: &mut SessionState,
    port: &mut P,
    call: &Errand,
    read: &ReadText,
) -> Result<Exit, Memory>
    requires ready { Ready session.old (P.past port.old) }
    requires left { session.old.statements_left ≤ statement_limit }
    requires fits { All IsParameter call.now.parameters }
    requires few { is_too_many call.now ≡ false }
    ensures does { Did (P.past port.old) (P.past port.new) (runs_text read.now then behind_batch call.now) session.old result session.new }
    ensures ready { Ready session.new (P.past port.new) }
{
    match run_text(alloc, session, port, read)? {
        Exit::On => tell_well(alloc, session, port, call),
        exit => Ok(exit),
    }
}

/// That the text reads is all.
fn tell_unless<P: Port>(
    alloc: Global,
    session: &mut SessionState,
    port: &mut P,
    call: &Errand,
    read: &ReadText,
) -> Result<Exit, Memory>
    requires ready { Ready session.old (P.past port.old) }
    requires left { session.old.statements_left ≤ statement_limit }
    requires fits { All IsParameter call.now.parameters }
    requires few { is_too_many call.now ≡ false }
    ensures does { Did (P.past port.old) (P.past port.new) (tells_unless call.now read.now) session.old result session.new }
    ensures ready { Ready session.new (P.past port.new) }
{
    match read {
        ReadText::Refused { .. } => run_text(alloc, session, port, read),
        ReadText::Statements(_) => tell_well(alloc, session, port, call),
        ReadText::Defines(_, _, _) => tell_well(alloc, session, port, call),
    }
}

/// It is told that all went well.
fn tell_well<P: Port>(
    alloc: Global,
    session: &mut SessionState,
    port: &mut P,
    call: &Errand,
) -> Result<Exit, Memory>
    requires ready { Ready session.old (P.past port.old) }
    requires fits { All IsParameter call.now.parameters }
    requires few { is_too_many call.now ≡ false }
    ensures does { Did (P.past port.old) (P.past port.new) (tells_well call.now) session.old result session.new }
    ensures ready { Ready session.new (P.past port.new) }
{
    let values = return_values(alloc, session.vars(), call)?;
    let tokens = returned_tokens(alloc, 0, values)?;
    tell_returned(alloc, session, port, 0, tokens, Action::Statement)
}

/// The procedure that was read; a text that is refused is so as that of a batch.
fn run_sql<P: Port>(
    alloc: Global,
    session: &mut SessionState,
    port: &mut P,
    call: &Errand,
    read: ReadText,
) -> Result<Exit, Memory>
    requires ready { Ready session.old (P.past port.old) }
    requires left { session.old.statements_left ≤ statement_limit }
    requires fits { All IsParameter call.now.parameters }
    requires few { is_too_many call.now ≡ false }
    ensures does { Did (P.past port.old) (P.past port.new) (runs_sql (λ inner at. mean_of statement_limit inner at) call.now read) session.old result session.new }
    ensures ready { Ready session.new (P.past port.new) }
{
    match read {
        ReadText::Refused { line, code, near } => {
            let failure = refusal(alloc, code, &near)?;
            refuse(alloc, session, line, &failure)
        }
        ReadText::Defines(_, of, _) => run_defined(alloc, session, port, call, of),
        ReadText::Statements(_) => { fail_call(alloc, session, port, &Failure::plain(NO_MATCH)) }
    }
}

/// What was read for it: a procedure, or nothing that can be called.
fn run_defined<P: Port>(
    alloc: Global,
    session: &mut SessionState,
    port: &mut P,
    call: &Errand,
    of: Definition,
) -> Result<Exit, Memory>
    requires ready { Ready session.old (P.past port.old) }
    requires left { session.old.statements_left ≤ statement_limit }
    requires fits { All IsParameter call.now.parameters }
    requires few { is_too_many call.now ≡ false }
    ensures does { Did (P.past port.old) (P.past port.new) (execs (λ inner at. mean_of statement_limit inner at) call.now (finds_read call.now (procedure_in (Some of)))) session.old result session.new }
    ensures ready { Ready session.new (P.past port.new) }
{
    match procedure_in(Some(of)) {
        Some(procedure) => run_read(alloc, session, port, call, procedure),
        None => fail_call(alloc, session, port, &Failure::plain(NO_MATCH)),
    }
}

/// A procedure that was read, which is held to the limits of one that is created.
fn run_read<P: Port>(
    alloc: Global,
    session: &mut SessionState,
    port: &mut P,
    call: &Errand,
    procedure: ProcedureTree,
) -> Result<Exit, Memory>
    requires ready { Ready session.old (P.past port.old) }
    requires left { session.old.statements_left ≤ statement_limit }
    requires fits { All IsParameter call.now.parameters }
    requires few { is_too_many call.now ≡ false }
    ensures does { Did (P.past port.old) (P.past port.new) (execs (λ inner at. mean_of statement_limit inner at) call.now (finds_read call.now (Some procedure))) session.old result session.new }
    ensures ready { Ready session.new (P.past port.new) }
{
    if is_odd_procedure(&procedure) {
        let failure = Failure::plain(OUTSIDE_LIMITS);
        return fail_call(alloc, session, port, &failure);
    }
    run_within(alloc, session, port, call, procedure)
}

/// One within the limits.
fn run_within<P: Port>(
    alloc: Global,
    session: &mut SessionState,
    port: &mut P,
    call: &Errand,
    procedure: ProcedureTree,
) -> Result<Exit, Memory>
    requires ready { Ready session.old (P.past port.old) }
    requires left { session.old.statements_left ≤ statement_limit }
    requires fits { All IsParameter call.now.parameters }
    requires few { is_too_many call.now ≡ false }
    ensures does { Did (P.past port.old) (P.past port.new) (execs (λ inner at. mean_of statement_limit inner at) call.now (binds_call (rpc_statement procedure.name (rpc_arguments call.now)) (rpc_arguments call.now) procedure)) session.old result session.new }
    ensures ready { Ready session.new (P.past port.new) }
{
    let name = procedure.name.copy(alloc)?;
    let statement = rpc_statement(alloc, &name, call)?;
    let arguments = arguments_in(&statement);
    let around = Around::batch();
    let found = Some(Definition::Procedure(procedure));
    let bound = call_over(
        alloc, session, &statement, None, &name, arguments, &around, found,
    );
    run_exec(alloc, session, port, call, arguments, bound)
}

/// That of a name, which is looked up where it is an object's.
fn run_named<P: Port>(
    alloc: Global,
    session: &mut SessionState,
    port: &mut P,
    call: &Errand,
    name: &Units,
    read: ReadText,
) -> Result<Exit, Memory>
    requires ready { Ready session.old (P.past port.old) }
    requires left { session.old.statements_left ≤ statement_limit }
    requires fits { All IsParameter call.now.parameters }
    requires few { is_too_many call.now ≡ false }
    ensures does { Did (P.past port.old) (P.past port.new) (execs (λ inner at. mean_of statement_limit inner at) call.now (finds_named call.now name.now (object_in read))) session.old result session.new }
    ensures ready { Ready session.new (P.past port.new) }
{
    let Some(object) = object_in(read) else {
        return fail_naming(alloc, session, port, NO_PROCEDURE, name);
    };
    let statement = rpc_statement(alloc, &object, call)?;
    let arguments = arguments_in(&statement);
    let around = Around::batch();
    let found = find_call(
        alloc, session, port, &statement, None, &object, arguments, &around,
    );
    run_exec(alloc, session, port, call, arguments, found)
}

/// The name of an object, where the definition that was read has nothing else.
fn object_in(read: ReadText) -> Option<Units>
    ensures { result ≡ object_in read }
{
    match read {
        ReadText::Defines(_, of, _) => bare_in(of),
        _ => None,
    }
}

/// That of a definition.
fn bare_in(of: Definition) -> Option<Units>
    ensures { result ≡ option_and_then bare_name (procedure_in (Some of)) }
{
    match procedure_in(Some(of)) {
        Some(procedure) => bare_name(procedure),
        None => None,
    }
}

/// The name of a procedure without parameters and statements.
fn bare_name(procedure: ProcedureTree) -> Option<Units>
    ensures { result ≡ bare_name procedure }
{
    let ProcedureTree {
        name,
        parameters,
        body,
    } = procedure;
    if parameters.as_slice().is_empty() && body.as_slice().is_empty() {
        Some(name)
    } else {
        None
    }
}

/// The procedure that was found for a call, or why there is none.
fn run_exec<P: Port>(
    alloc: Global,
    session: &mut SessionState,
    port: &mut P,
    call: &Errand,
    arguments: &[Argument],
    found: Result<Call, Failure>,
) -> Result<Exit, Memory>
    requires ready { Ready session.old (P.past port.old) }
    requires left { session.old.statements_left ≤ statement_limit }
    requires fits { All IsParameter call.now.parameters }
    requires few { is_too_many call.now ≡ false }
    requires given { arguments.now ≡ rpc_arguments call.now }
    requires typed { IfOk found (λ of. AreTyped of.procedure.parameters of.values) }
    ensures does { Did (P.past port.old) (P.past port.new) (goes_on_with (runs_exec (λ inner at. mean_of statement_limit inner at) call.now) found) session.old result session.new }
    ensures ready { Ready session.new (P.past port.new) }
{
    match found {
        Ok(of) => run_found(alloc, session, port, call, arguments, of),
        Err(failure) => fail_call(alloc, session, port, &failure),
    }
}

/// The procedure of a call.
fn run_found<P: Port>(
    alloc: Global,
    session: &mut SessionState,
    port: &mut P,
    call: &Errand,
    arguments: &[Argument],
    of: Call,
) -> Result<Exit, Memory>
    requires ready { Ready session.old (P.past port.old) }
    requires left { session.old.statements_left ≤ statement_limit }
    requires fits { All IsParameter call.now.parameters }
    requires few { is_too_many call.now ≡ false }
    requires given { arguments.now ≡ rpc_arguments call.now }
    requires typed { AreTyped of.procedure.parameters of.values }
    ensures does { Did (P.past port.old) (P.past port.new) (runs_exec (λ inner at. mean_of statement_limit inner at) call.now of) session.old result session.new }
    ensures ready { Ready session.new (P.past port.new) }
{
    let Call { procedure, values } = of;
    let vars = call_vars(alloc, &procedure, values)?;
    let settings = session.settings();
    let count = session.count();
    let around = Around::batch();
    let inside = around.in_body(&procedure.name, None);
    let body = procedure.body.as_slice();
    let (exit, inner) = run_body(alloc, session, port, vars, settings, body, &inside)?;
    let end = CallEnd {
        arguments,
        procedure: &procedure,
        inner: &inner,
        count,
    };
    leave_body(alloc, session, port, call, &exit, &end)
}

// ---- what it gives back

/// Its body was left so; an error that nothing in it caught has ended the call.
fn leave_body<P: Port>(
    alloc: Global,
    session: &mut SessionState,
    port: &mut P,
    call: &Errand,
    exit: &Exit,
    end: &CallEnd<'_>,
) -> Result<Exit, Memory>
    requires ready { Ready session.old (P.past port.old) }
    requires fits { All IsParameter call.now.parameters }
    requires few { is_too_many call.now ≡ false }
    requires given { end.now.arguments.now ≡ rpc_arguments call.now }
    ensures does { (values : List Of) → Did (P.past port.old) (P.past port.new) (leaves_body call.now (record { procedure = end.now.procedure.now; values = values }) end.now.count end.now.inner.now exit.now) session.old result session.new }
    ensures ready { Ready session.new (P.past port.new) }
{
    match status_of(exit) {
        Some(status) => give_call_back(alloc, session, port, call, status, end),
        None => {
            session.tell_rows(0);
            Ok(Exit::End)
        }
    }
}

/// The status with which a procedure returned, if it did: an error may be on its way, or has ended the call.
fn status_of(exit: &Exit) -> Option<i32>
    ensures { result ≡ status_of exit.now }
{
    match exit {
        Exit::Raise(_) => None,
        Exit::RaiseUp(_) => None,
        Exit::End => None,
        Exit::Return(status) => Some(*status),
        _ => Some(0),
    }
}

/// It has returned with this status.
fn give_call_back<P: Port>(
    alloc: Global,
    session: &mut SessionState,
    port: &mut P,
    call: &Errand,
    status: i32,
    end: &CallEnd<'_>,
) -> Result<Exit, Memory>
    requires ready { Ready session.old (P.past port.old) }
    requires fits { All IsParameter call.now.parameters }
    requires few { is_too_many call.now ≡ false }
    requires given { end.now.arguments.now ≡ rpc_arguments call.now }
    ensures does { (values : List Of) → Did (P.past port.old) (P.past port.new) (gives_call_back call.now (record { procedure = end.now.procedure.now; values = values }) end.now.count end.now.inner.now status) session.old result session.new }
    ensures ready { Ready session.new (P.past port.new) }
{
    match given_back(alloc, session.vars(), None, status, end) {
        Ok(sets) => {
            session.assign_all(sets);
            end_exec(alloc, session, port, call, end.count, status)
        }
        Err(failure) => fail_call(alloc, session, port, &failure),
    }
}

/// The end of the EXEC: what it has returned, and an error in front where another count of transactions is open.
fn end_exec<P: Port>(
    alloc: Global,
    session: &mut SessionState,
    port: &mut P,
    call: &Errand,
    count: u32,
    status: i32,
) -> Result<Exit, Memory>
    requires ready { Ready session.old (P.past port.old) }
    requires fits { All IsParameter call.now.parameters }
    requires few { is_too_many call.now ≡ false }
    ensures does { Did (P.past port.old) (P.past port.new) (ends_exec call.now count status) session.old result session.new }
    ensures ready { Ready session.new (P.past port.new) }
{
    let values = return_values(alloc, session.vars(), call)?;
    let tokens = returned_tokens(alloc, status, values)?;
    if is_even(session, count) {
        return tell_returned(alloc, session, port, 0, tokens, Action::Statement);
    }
    let raised = raised_at(alloc, 1, &Failure::plain(UNEVEN))?;
    let action = Around::batch().action(session.settings().xact_abort, raised.get());
    let tokens = uneven_tokens(alloc, action, raised.get(), tokens)?;
    tell_returned(alloc, session, port, raised.get().number, tokens, action)
}

/// What is sent where another count of transactions is open.
fn uneven_tokens(
    alloc: Global,
    action: Action,
    raised: &Raised,
    tokens: TokenList,
) -> Result<TokenList, Memory>
    ensures { IfOk result (λ told. told ≡ uneven_with false action tokens raised.now) }
{
    match action {
        Action::Statement => error_in_front(alloc, raised, tokens),
        Action::Doom => error_in_front(alloc, raised, tokens),
        Action::Batch => error_tokens(alloc, raised),
        Action::BatchAndTransaction => error_tokens(alloc, raised),
    }
}

/// It is sent, where the call may still send as much, and ends what it ends.
fn tell_returned<P: Port>(
    alloc: Global,
    session: &mut SessionState,
    port: &mut P,
    error: i32,
    tokens: TokenList,
    action: Action,
) -> Result<Exit, Memory>
    requires ready { Ready session.old (P.past port.old) }
    ensures does { Did (P.past port.old) (P.past port.new) (tells_returned error tokens (ended_by action)) session.old result session.new }
    ensures ready { Ready session.new (P.past port.new) }
{
    if session.is_full(&tokens) {
        return fail_call(alloc, session, port, &Failure::plain(RESULT_FULL));
    }
    session.tell_rows(0);
    session.tell_error(error);
    session.send(tokens)?;
    end_by(alloc, session, port, action)
}

/// RETURNVALUE of each OUTPUT parameter.
fn return_values(alloc: Global, vars: &Vars, call: &Errand) -> Result<Vec<Token>, Memory>
    requires fits { All IsParameter call.now.parameters }
    requires few { is_too_many call.now ≡ false }
    ensures told { IfOk result (λ tokens. tokens.items ≡ return_values call.now vars.now) }
    ensures fit { IfOk result (λ tokens. IsFit tokens.items) }
{
    values_told(alloc, vars, call.parameters.as_slice())
}

/// The same of parameters, of which the first stands at place 0.
fn values_told(
    alloc: Global,
    vars: &Vars,
    parameters: &[RpcParameter],
) -> Result<Vec<Token>, Memory>
    requires fits { All IsParameter parameters.now }
    requires few { length parameters.now ≤ 10000 }
    ensures told { IfOk result (λ tokens. tokens.items ≡ values_told vars.now (enumerate_from 0 parameters.now)) }
    ensures fit { IfOk result (λ tokens. IsFit tokens.items) }
{
    let mut tokens = Vec::new(alloc);
    for (place, parameter) in parameters.iter().enumerate() {
        add_value(alloc, &mut tokens, vars, place as u16, parameter)?;
    }
    Ok(tokens)
}

/// Adds that of the parameter at a place, if it is OUTPUT.
fn add_value(
    alloc: Global,
    tokens: &mut Vec<Token>,
    vars: &Vars,
    place: u16,
    parameter: &RpcParameter,
) -> Result<(), Memory>
    requires fits { IsParameter parameter.now }
    ensures told { IfOk result (λ _. tokens.new.items ≡ tokens.old.items ++ values_told vars.now ((place, parameter.now) ∷ [])) }
    ensures fit { IfOk result (λ _. IsFit tokens.old.items → IsFit tokens.new.items) }
{
    if !parameter.output {
        return Ok(());
    }
    let token = return_value(alloc, vars, place, parameter)?;
    tokens.push(token)?;
    Ok(())
}

/// RETURNVALUE of the parameter at a place.
fn return_value(
    alloc: Global,
    vars: &Vars,
    place: u16,
    parameter: &RpcParameter,
) -> Result<Token, Memory>
    requires fits { IsParameter parameter.now }
    ensures told { IfOk result (λ token. token ≡ return_value vars.now (place, parameter.now)) }
    ensures fit { IfOk result (λ token. IsFit (token ∷ [])) }
{
    let name = parameter.name.copy(alloc)?;
    let value = value_at(alloc, vars, place, parameter.kind)?;
    Ok(Token::ReturnValue {
        ordinal: place,
        name,
        kind: parameter.kind,
        value,
    })
}

/// The value of the variable at a place, which has this type. One of another would not be told: it is as if memory were
/// wanting.
fn value_at(alloc: Global, vars: &Vars, place: u16, kind: SqlType) -> Result<Value, Memory>
    ensures there { IfOk result (λ value. value ≡ get_or (values_of vars.now) place Null) }
    ensures typed { IfOk result (λ value. IsOf kind value) }
{
    if vars.count() <= place {
        return Err(Memory);
    }
    if !is_same(vars.kind(place), kind) {
        return Err(Memory);
    }
    vars.law_typed();
    vars.get(place).copy(alloc)
}

/// Whether a type is the same as another.
fn is_same(kind: SqlType, other: SqlType) -> bool
    ensures { IsTrue result → kind ≡ other }
{
    kind == other
}

// ---- its errors

/// An error of this number, whatever was read for the call.
fn fail_unread<P: Port>(
    alloc: Global,
    session: &mut SessionState,
    port: &mut P,
    number: u16,
    read: ReadText,
) -> Result<Exit, Memory>
    requires ready { Ready session.old (P.past port.old) }
    ensures does { Did (P.past port.old) (P.past port.new) (fails_call (plain number)) session.old result session.new }
    ensures ready { Ready session.new (P.past port.new) }
{
    let came = fail_call(alloc, session, port, &Failure::plain(number));
    letting_go(read, came)
}

/// There is no procedure, by an error that names this.
fn fail_naming<P: Port>(
    alloc: Global,
    session: &mut SessionState,
    port: &mut P,
    number: u16,
    name: &Units,
) -> Result<Exit, Memory>
    requires ready { Ready session.old (P.past port.old) }
    ensures does { (call : AnyErrand) → Did (P.past port.old) (P.past port.new) (execs (λ inner at. mean_of statement_limit inner at) call (fails_naming number name.now)) session.old result session.new }
    ensures ready { Ready session.new (P.past port.new) }
{
    let failure = naming(alloc, number, name);
    fail_call(alloc, session, port, &failure)
}

/// An error of the EXEC, which ends the call.
fn fail_call<P: Port>(
    alloc: Global,
    session: &mut SessionState,
    port: &mut P,
    failure: &Failure,
) -> Result<Exit, Memory>
    requires ready { Ready session.old (P.past port.old) }
    ensures does { Did (P.past port.old) (P.past port.new) (fails_call failure.now) session.old result session.new }
    ensures ready { Ready session.new (P.past port.new) }
{
    session.tell_rows(0);
    let raised = raised_at(alloc, 1, failure)?;
    let told = error_or_full(alloc, session, raised)?;
    let action = Around::batch().action(session.settings().xact_abort, told.get());
    session.tell_error(told.get().number);
    let tokens = error_tokens(alloc, told.get())?;
    session.send(tokens)?;
    end_by(alloc, session, port, ending(action))
}

/// An error; one of more bytes than the call may still send is one that says so.
fn error_or_full(
    alloc: Global,
    session: &SessionState,
    raised: Boxed<Raised>,
) -> Result<Boxed<Raised>, Memory>
    ensures { IfOk result (λ told. told ≡ error_or_full session.now raised) }
{
    let tokens = error_tokens(alloc, raised.get())?;
    if session.is_full(&tokens) {
        raised_at(alloc, 1, &Failure::plain(RESULT_FULL))
    } else {
        Ok(raised)
    }
}

/// What an error of the EXEC ends: the call, and the transaction where it ends that.
fn ending(action: Action) -> Action
    ensures { result ≡ ending action }
{
    match action {
        Action::BatchAndTransaction => Action::BatchAndTransaction,
        _ => Action::Batch,
    }
}
