//! Statements are run.

ghost use Rattle.std.specs.Prelude.{◌≡◌, ◌==◌, ℕ, ◌<◌, ◌≤◌, [], IfOk, IsTrue, None, true};
ghost use Rattle.std.specs.List.{list_any};
ghost use Rattle.std.specs.Option.{option_map};
ghost use Rattle.binder.specs.Names.{form_of};
ghost use Rattle.batch_meaning.specs.Doing.{Did, ◌then◌};
ghost use Rattle.batch_meaning.specs.Firing.{in_trigger};
ghost use Rattle.batch_meaning.specs.Meaning.{branch, calls, decides, each_of, fires, mean_form, mean_of, runs_body, runs_call, runs_fired, runs_trigger, runs_triggers, tries, turns, writes, written};
ghost use Rattle.batch_meaning.specs.Progress.{Ready};
ghost use Rattle.batch_meaning.specs.declared.settings.Settings.{Settings as Set};
ghost use Rattle.step_model.specs.Exchange.{IsPriority};
ghost use Rattle.batch_exec.specs.Running.{AreTyped, IsWhile, Loops, turning};

use crate::calls::{Call, call_vars, find_call};
use crate::errors::{fail, spend, succeed};
use crate::firing::{effect_of, end_write, leave_fired, tells_behind, trigger_end, undo};
use crate::looping::begin_again;
use crate::returning::{CallEnd, return_from};
use crate::simple::{is_refused, run_simple};
use crate::unseen::begin_unseen;
use batch_forms::vars_of;
use batch_meaning::{Exit, Failure, Home, Settings, Stop};
use session_state::{Around, DOOMED_WRITE, Effect, Fired, NO_MEMORY, SessionState, TOO_DEEP};
use session_vars::Vars;
use sqlite_items::Boxed;
use statement_exec::{Change, Written, relax, test, write};
use std::alloc::Global;
use step_model::Port;
use tsql_tree::{Argument, Form, Statement, TriggerTree};
use value_types::{Memory, Units};

/// Statements one after another.
#[cycle(running)]
pub(crate) fn run_statements<P: Port>(
    alloc: Global,
    session: &mut SessionState,
    port: &mut P,
    statements: &[Statement],
    around: &Around<'_, '_>,
) -> Result<Exit, Memory>
    requires ready { Ready session.old (P.past port.old) }
    ensures does { (levels : ℕ) → session.old.statements_left ≤ levels → Did (P.past port.old) (P.past port.new) (each_of (λ inner at. mean_of levels inner at) statements.now around.now) session.old result session.new }
    ensures ready { Ready session.new (P.past port.new) }
    ensures left { session.new.statements_left ≤ session.old.statements_left }
{
    for statement in statements {
        match run_statement(alloc, session, port, statement, around)? {
            Exit::On => {}
            exit => return Ok(exit),
        }
    }
    Ok(Exit::On)
}

/// One statement. It counts as it begins.
#[cycle(running)]
fn run_statement<P: Port>(
    alloc: Global,
    session: &mut SessionState,
    port: &mut P,
    statement: &Statement,
    around: &Around<'_, '_>,
) -> Result<Exit, Memory>
    requires ready { Ready session.old (P.past port.old) }
    ensures does { (levels : ℕ) → session.old.statements_left ≤ levels → Did (P.past port.old) (P.past port.new) (mean_of levels statement.now around.now) session.old result session.new }
    ensures ready { Ready session.new (P.past port.new) }
    ensures left { session.new.statements_left ≤ session.old.statements_left }
{
    if session.is_spent() {
        return spend(alloc, session, port, statement, around);
    }
    session.begin_statement();
    match begin_unseen(alloc, session, port, statement, around)? {
        Some(exit) => return Ok(exit),
        None => {}
    }
    if is_refused(session, &statement.form) {
        let failure = Failure::plain(DOOMED_WRITE);
        return fail(alloc, session, port, statement, around, failure);
    }
    run_form(alloc, session, port, statement, around)
}

/// A statement by its form.
#[cycle(running)]
fn run_form<P: Port>(
    alloc: Global,
    session: &mut SessionState,
    port: &mut P,
    statement: &Statement,
    around: &Around<'_, '_>,
) -> Result<Exit, Memory>
    requires ready { Ready session.old (P.past port.old) }
    ensures does { (levels : ℕ) → session.old.statements_left ≤ levels → Did (P.past port.old) (P.past port.new) (mean_form (λ inner at. mean_of levels inner at) around.now statement.now (form_of statement.now)) session.old result session.new }
    ensures ready { Ready session.new (P.past port.new) }
    ensures left { session.new.statements_left ≤ session.old.statements_left }
{
    match &statement.form {
        Form::If(_, so, otherwise) => {
            let otherwise = held(otherwise);
            run_if(alloc, session, port, statement, so.get(), otherwise, around)
        }
        Form::While(_, body) => run_while(alloc, session, port, statement, body.get(), around),
        Form::Block(body) => run_statements(alloc, session, port, body.as_slice(), around),
        Form::TryCatch(body, handler) => run_try(
            alloc,
            session,
            port,
            body.as_slice(),
            handler.as_slice(),
            around,
        ),
        Form::Insert(_, _, _) => run_write(alloc, session, port, statement, around),
        Form::Update(_, _, _) => run_write(alloc, session, port, statement, around),
        Form::Delete(_, _) => run_write(alloc, session, port, statement, around),
        Form::Execute(takes, name, arguments) => run_call(
            alloc,
            session,
            port,
            statement,
            takes.as_ref(),
            name,
            arguments.as_slice(),
            around,
        ),
        _ => run_simple(alloc, session, port, statement, around),
    }
}

/// The statement behind ELSE, if there is one.
fn held(otherwise: &Option<Boxed<Statement>>) -> Option<&Statement>
    ensures { option_map (λ other. other.now) result ≡ otherwise.now }
{
    match otherwise {
        Some(other) => Some(other.get()),
        None => None,
    }
}

/// IF.
#[inline(never)]
#[cycle(running)]
fn run_if<P: Port>(
    alloc: Global,
    session: &mut SessionState,
    port: &mut P,
    statement: &Statement,
    so: &Statement,
    otherwise: Option<&Statement>,
    around: &Around<'_, '_>,
) -> Result<Exit, Memory>
    requires ready { Ready session.old (P.past port.old) }
    ensures does { (levels : ℕ) → session.old.statements_left ≤ levels → Did (P.past port.old) (P.past port.new) (decides around.now statement.now (branch (λ inner at. mean_of levels inner at) around.now so.now (option_map (λ other. other.now) otherwise.entry))) session.old result session.new }
    ensures ready { Ready session.new (P.past port.new) }
    ensures left { session.new.statements_left ≤ session.old.statements_left }
{
    match test(alloc, session, port, statement, around) {
        Ok(true) => {
            session.tell_error(0);
            run_statement(alloc, session, port, so, around)
        }
        Ok(false) => {
            session.tell_error(0);
            match otherwise {
                Some(other) => run_statement(alloc, session, port, other, around),
                None => Ok(Exit::On),
            }
        }
        Err(failure) => fail(alloc, session, port, statement, around, failure),
    }
}

/// WHILE. Each turn begins the statement again.
#[inline(never)]
#[cycle(running)]
fn run_while<P: Port>(
    alloc: Global,
    session: &mut SessionState,
    port: &mut P,
    statement: &Statement,
    body: &Statement,
    around: &Around<'_, '_>,
) -> Result<Exit, Memory>
    requires loops { IsWhile body.now (form_of statement.now) }
    requires ready { Ready session.old (P.past port.old) }
    ensures does { (levels : ℕ) → session.old.statements_left ≤ levels → Did (P.past port.old) (P.past port.new) (decides around.now statement.now (turns (λ inner at. mean_of levels inner at) around.now statement.now body.now)) session.old result session.new }
    ensures ready { Ready session.new (P.past port.new) }
    ensures left { session.new.statements_left ≤ session.old.statements_left }
{
    loop {
        match turn(alloc, session, port, statement, body, around)? {
            Some(exit) => return Ok(exit),
            None => {}
        }
    }
}

/// One turn of a WHILE: how it is left, or nothing where it has begun again.
#[cycle(running)]
fn turn<P: Port>(
    alloc: Global,
    session: &mut SessionState,
    port: &mut P,
    statement: &Statement,
    body: &Statement,
    around: &Around<'_, '_>,
) -> Result<Option<Exit>, Memory>
    requires loops { IsWhile body.now (form_of statement.now) }
    requires ready { Ready session.old (P.past port.old) }
    ensures does { (levels : ℕ) → session.old.statements_left ≤ levels → Loops (P.past port.old) (P.past port.new) (turning levels statement.now body.now around.now) statement.now body.now around.now session.old result session.new }
    ensures ready { Ready session.new (P.past port.new) }
    ensures left { session.new.statements_left ≤ session.old.statements_left }
    ensures fewer { IfOk result (λ exit. exit ≡ None → session.new.statements_left < session.old.statements_left) }
{
    match test(alloc, session, port, statement, around) {
        Ok(true) => {
            session.tell_error(0);
            let exit = run_statement(alloc, session, port, body, around)?;
            begin_again(alloc, session, port, statement, body, around, exit)
        }
        Ok(false) => {
            session.tell_error(0);
            Ok(Some(Exit::On))
        }
        Err(failure) => {
            let exit = fail(alloc, session, port, statement, around, failure)?;
            Ok(Some(exit))
        }
    }
}

/// TRY and its CATCH.
#[inline(never)]
#[cycle(running)]
fn run_try<P: Port>(
    alloc: Global,
    session: &mut SessionState,
    port: &mut P,
    body: &[Statement],
    handler: &[Statement],
    around: &Around<'_, '_>,
) -> Result<Exit, Memory>
    requires ready { Ready session.old (P.past port.old) }
    ensures does { (levels : ℕ) → session.old.statements_left ≤ levels → Did (P.past port.old) (P.past port.new) (tries (λ inner at. mean_of levels inner at) around.now body.now handler.now) session.old result session.new }
    ensures ready { Ready session.new (P.past port.new) }
    ensures left { session.new.statements_left ≤ session.old.statements_left }
{
    match run_statements(alloc, session, port, body, &around.in_try())? {
        Exit::Raise(raised) => {
            run_statements(
                alloc,
                session,
                port,
                handler,
                &around.in_catch(raised.get()),
            )
        }
        exit => Ok(exit),
    }
}

// ---- procedures and triggers

/// The statements of a procedure or trigger, with variables and settings of its own. Those around it come back at its
/// end, and it gives its own.
#[inline(never)]
#[cycle(running)]
pub(crate) fn run_body<P: Port>(
    alloc: Global,
    session: &mut SessionState,
    port: &mut P,
    vars: Vars,
    settings: Settings,
    body: &[Statement],
    around: &Around<'_, '_>,
) -> Result<(Exit, Vars), Memory>
    requires priority { IsPriority settings.manner.priority }
    requires ready { Ready session.old (P.past port.old) }
    ensures does { (levels : ℕ) (change : Set → Set) → session.old.statements_left ≤ levels → settings ≡ change session.old.settings → Did (P.past port.old) (P.past port.new) (runs_body (λ inner at. mean_of levels inner at) vars change body.now around.now) session.old result session.new }
    ensures ready { Ready session.new (P.past port.new) }
    ensures left { session.new.statements_left ≤ session.old.statements_left }
{
    let outer = session.stand_with(vars);
    let before = session.settings();
    session.set(settings);
    let exit = run_statements(alloc, session, port, body, around)?;
    let inner = session.stand_with(outer);
    session.set(before);
    Ok((exit, inner))
}

/// EXEC.
#[inline(never)]
#[cycle(running)]
fn run_call<P: Port>(
    alloc: Global,
    session: &mut SessionState,
    port: &mut P,
    statement: &Statement,
    takes: Option<&Units>,
    name: &Units,
    arguments: &[Argument],
    around: &Around<'_, '_>,
) -> Result<Exit, Memory>
    requires ready { Ready session.old (P.past port.old) }
    ensures does { (levels : ℕ) → session.old.statements_left ≤ levels → Did (P.past port.old) (P.past port.new) (calls (λ inner at. mean_of levels inner at) around.now statement.now (option_map (λ name. name.now) takes.entry) name.now arguments.now) session.old result session.new }
    ensures ready { Ready session.new (P.past port.new) }
    ensures left { session.new.statements_left ≤ session.old.statements_left }
{
    match find_call(
        alloc, session, port, statement, takes, name, arguments, around,
    ) {
        Ok(call) => run_found(
            alloc, session, port, statement, takes, arguments, call, around,
        ),
        Err(failure) => fail(alloc, session, port, statement, around, failure),
    }
}

/// The procedure of a call.
#[inline(never)]
#[cycle(running)]
fn run_found<P: Port>(
    alloc: Global,
    session: &mut SessionState,
    port: &mut P,
    statement: &Statement,
    takes: Option<&Units>,
    arguments: &[Argument],
    call: Call,
    around: &Around<'_, '_>,
) -> Result<Exit, Memory>
    requires room { around.now.depth < 32 }
    requires typed { AreTyped call.procedure.parameters call.values }
    requires ready { Ready session.old (P.past port.old) }
    ensures does { (levels : ℕ) → session.old.statements_left ≤ levels → Did (P.past port.old) (P.past port.new) (runs_call (λ inner at. mean_of levels inner at) around.now statement.now (option_map (λ name. name.now) takes.entry) arguments.now call) session.old result session.new }
    ensures ready { Ready session.new (P.past port.new) }
    ensures left { session.new.statements_left ≤ session.old.statements_left }
{
    let Call { procedure, values } = call;
    let vars = call_vars(alloc, &procedure, values)?;
    let settings = session.settings();
    let count = session.count();
    let inside = around.in_body(&procedure.name, None);
    let body = procedure.body.as_slice();
    let (exit, inner) = run_body(alloc, session, port, vars, settings, body, &inside)?;
    let end = CallEnd {
        arguments,
        procedure: &procedure,
        inner: &inner,
        count,
    };
    return_from(alloc, session, port, statement, takes, exit, &end, around)
}

/// INSERT, UPDATE and DELETE.
#[inline(never)]
#[cycle(running)]
fn run_write<P: Port>(
    alloc: Global,
    session: &mut SessionState,
    port: &mut P,
    statement: &Statement,
    around: &Around<'_, '_>,
) -> Result<Exit, Memory>
    requires ready { Ready session.old (P.past port.old) }
    ensures does { (levels : ℕ) → session.old.statements_left ≤ levels → Did (P.past port.old) (P.past port.new) (writes (λ inner at. mean_of levels inner at) around.now statement.now then written around.now statement.now) session.old result session.new }
    ensures ready { Ready session.new (P.past port.new) }
    ensures left { session.new.statements_left ≤ session.old.statements_left }
{
    match write(alloc, session, port, statement, around) {
        Ok(Change::Done(effect)) => succeed(session, statement, effect, Exit::On),
        Ok(Change::Fires(home, written)) => {
            let came = run_fired(alloc, session, port, home, written, around)?;
            end_write(alloc, session, port, statement, around, came)
        }
        Err(failure) => fail(alloc, session, port, statement, around, failure),
    }
}

/// Behind a write that fires triggers: its locks end, and they run, before its own transaction ends.
#[inline(never)]
#[cycle(running)]
fn run_fired<P: Port>(
    alloc: Global,
    session: &mut SessionState,
    port: &mut P,
    home: Home,
    written: Written,
    around: &Around<'_, '_>,
) -> Result<Result<Effect, Stop>, Memory>
    requires begun { session.old.is_open ≡ true }
    requires live { IsTrue (list_any (λ live. live == written.mark) (P.past port.old).standing.marks) }
    requires none { written.effect.sets ≡ [] }
    requires ready { Ready session.old (P.past port.old) }
    ensures does { (levels : ℕ) → session.old.statements_left ≤ levels → Did (P.past port.old) (P.past port.new) (fires (λ inner at. mean_of levels inner at) around.now home written) session.old result session.new }
    ensures ready { Ready session.new (P.past port.new) }
    ensures left { session.new.statements_left ≤ session.old.statements_left }
    ensures none { IfOk result (λ came. IfOk came (λ effect. effect.sets ≡ [])) }
{
    relax(session, port);
    let mark = written.mark;
    let stood = session.stands();
    match session.begin_firing(alloc, mark) {
        Ok(()) => {
            let came = run_all(alloc, session, port, &written, around)?;
            leave_fired(session, port, home, mark, stood, came.is_ok());
            Ok(effect_of(written, came))
        }
        Err(_) => {
            undo(session, port, home, mark);
            Ok(Err(Stop::Failed(Failure::plain(NO_MEMORY))))
        }
    }
}

/// The triggers of a write, unless they would stand too deep.
#[cycle(running)]
fn run_all<P: Port>(
    alloc: Global,
    session: &mut SessionState,
    port: &mut P,
    written: &Written,
    around: &Around<'_, '_>,
) -> Result<Result<(), Stop>, Memory>
    requires ready { Ready session.old (P.past port.old) }
    ensures does { (levels : ℕ) → session.old.statements_left ≤ levels → Did (P.past port.old) (P.past port.new) (runs_fired (λ inner at. mean_of levels inner at) around.now written.now) session.old result session.new }
    ensures ready { Ready session.new (P.past port.new) }
    ensures left { session.new.statements_left ≤ session.old.statements_left }
{
    if around.is_deepest() {
        return Ok(Err(Stop::Failed(Failure::plain(TOO_DEEP))));
    }
    let triggers = written.fires.as_slice();
    run_triggers(alloc, session, port, triggers, written, around)
}

/// One after another; the first that stops them is the last. What they have sent leaves room for what the write tells.
#[inline(never)]
#[cycle(running)]
fn run_triggers<P: Port>(
    alloc: Global,
    session: &mut SessionState,
    port: &mut P,
    triggers: &[TriggerTree],
    written: &Written,
    around: &Around<'_, '_>,
) -> Result<Result<(), Stop>, Memory>
    requires room { around.now.depth < 32 }
    requires ready { Ready session.old (P.past port.old) }
    ensures does { (levels : ℕ) → session.old.statements_left ≤ levels → Did (P.past port.old) (P.past port.new) (runs_triggers (λ inner at. mean_of levels inner at) around.now written.now triggers.now) session.old result session.new }
    ensures ready { Ready session.new (P.past port.new) }
    ensures left { session.new.statements_left ≤ session.old.statements_left }
{
    for trigger in triggers {
        let exit = run_trigger(alloc, session, port, trigger, &written.fired, around)?;
        match trigger_end(session, exit) {
            Ok(()) => {}
            Err(stop) => return Ok(Err(stop)),
        }
    }
    Ok(tells_behind(session, &written.effect))
}

/// One trigger.
#[inline(never)]
#[cycle(running)]
fn run_trigger<P: Port>(
    alloc: Global,
    session: &mut SessionState,
    port: &mut P,
    trigger: &TriggerTree,
    fired: &Fired,
    around: &Around<'_, '_>,
) -> Result<Exit, Memory>
    requires room { around.now.depth < 32 }
    requires ready { Ready session.old (P.past port.old) }
    ensures does { (levels : ℕ) → session.old.statements_left ≤ levels → Did (P.past port.old) (P.past port.new) (runs_trigger (λ inner at. mean_of levels inner at) around.now fired.now trigger.now) session.old result session.new }
    ensures ready { Ready session.new (P.past port.new) }
    ensures left { session.new.statements_left ≤ session.old.statements_left }
{
    let body = trigger.body.as_slice();
    let vars = vars_of(alloc, body)?;
    let settings = in_trigger(session.settings());
    let inside = around.in_body(&trigger.name, Some(fired));
    let (exit, _vars) = run_body(alloc, session, port, vars, settings, body, &inside)?;
    Ok(exit)
}

/// In a trigger XACT_ABORT is ON at first.
fn in_trigger(settings: Settings) -> Settings
    ensures { result ≡ in_trigger settings }
{
    Settings {
        xact_abort: true,
        ..settings
    }
}
