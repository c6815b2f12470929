//! What becomes of a statement: it succeeds, or its error is raised.

ghost use Rattle.std.specs.Prelude.{◌≡◌, false, if◌then◌else◌, Ok, IfOk, IfErr};
ghost use Rattle.binder.specs.Names.{form_of};
ghost use Rattle.tsql_tree.specs.declared.statement.Form.{out-Form};
ghost use Rattle.batch_meaning.specs.Doing.{Did, over};
ghost use Rattle.batch_meaning.specs.Meaning.{caught_as, counted, ended_by, fails_for, leaves_rows, line_of, or_full, raises, raises_at, rolls_back_open, rolls_back_told, spends, succeeds, told_as, way_of};
ghost use Rattle.error_table.specs.Act.{base_caught};
ghost use Rattle.batch_meaning.specs.Progress.{Ready, made, tells_rows};
ghost use Rattle.batch_meaning.specs.Tokens.{command_of};
ghost use Rattle.session_state.specs.Parts.{SetsFit, Stepped};
ghost use Rattle.batch_exec.specs.Running.{sent_some};

use batch_meaning::{Exit, Failure, Raised};
use error_table::Action;
use session_state::{
    Around, Effect, RESULT_FULL, STATEMENTS_SPENT, SessionState, TokenList, command_of,
    is_for_outside, raised_in, told_tokens, transaction_rolled_back,
};
use sqlite_items::Boxed;
use statement_exec::line_of;
use std::alloc::Global;
use step_model::{Op, Port, Reply};
use tds_tokens::DoneKind;
use tsql_tree::{Form, Statement};
use value_types::Memory;

// ---- errors

/// Rolls an open transaction back.
pub fn roll_back_open<P: Port>(session: &mut SessionState, port: &mut P)
    requires ready { Ready session.old (P.past port.old) }
    ensures does { Did (P.past port.old) (P.past port.new) rolls_back_open session.old (Ok result) session.new }
    ensures ready { Ready session.new (P.past port.new) }
    ensures closed { session.new.is_open ≡ false }
{
    if session.in_transaction() {
        match session.ask(port, &Op::Rollback) {
            Reply::Ended { .. } => {}
            _ => unreachable!(),
        }
    }
}

/// Rolls an open transaction back, and tells it.
pub(crate) fn roll_back_told<P: Port>(
    alloc: Global,
    session: &mut SessionState,
    port: &mut P,
) -> Result<(), Memory>
    requires ready { Ready session.old (P.past port.old) }
    ensures does { Did (P.past port.old) (P.past port.new) rolls_back_told session.old result session.new }
    ensures ready { Ready session.new (P.past port.new) }
    ensures left { session.new.statements_left ≡ session.old.statements_left }
{
    if !session.in_transaction() {
        return Ok(());
    }
    let is_own = session.is_own();
    let tokens = transaction_rolled_back(alloc, session.serial())?;
    match session.ask(port, &Op::Rollback) {
        Reply::Ended { .. } if is_own => Ok(()),
        Reply::Ended { .. } => {
            session.send(tokens)?;
            Ok(())
        }
        _ => unreachable!(),
    }
}

/// Raises an error of a statement.
#[inline(never)]
pub(crate) fn raise<P: Port>(
    alloc: Global,
    session: &mut SessionState,
    port: &mut P,
    statement: &Statement,
    around: &Around<'_, '_>,
    raised: Boxed<Raised>,
) -> Result<Exit, Memory>
    requires ready { Ready session.old (P.past port.old) }
    ensures does { Did (P.past port.old) (P.past port.new) (raises around.now statement.now raised) session.old result session.new }
    ensures ready { Ready session.new (P.past port.new) }
    ensures left { session.new.statements_left ≡ session.old.statements_left }
{
    let line = line_of(statement)?;
    raise_at(
        alloc,
        session,
        port,
        line,
        command_of(&statement.form),
        around,
        raised,
    )
}

/// Raises an error of a statement of this line and command.
pub(crate) fn raise_at<P: Port>(
    alloc: Global,
    session: &mut SessionState,
    port: &mut P,
    line: i32,
    command: u16,
    around: &Around<'_, '_>,
    raised: Boxed<Raised>,
) -> Result<Exit, Memory>
    requires ready { Ready session.old (P.past port.old) }
    ensures does { Did (P.past port.old) (P.past port.new) (raises_at around.now line command raised) session.old result session.new }
    ensures ready { Ready session.new (P.past port.new) }
    ensures left { session.new.statements_left ≡ session.old.statements_left }
{
    let raised = or_full(alloc, session, line, command, around, raised)?;
    let action = around.action(session.settings().xact_abort, raised.get());
    session.tell_error(raised.get().number);
    if around.catches(raised.get()) {
        Ok(catch(session, action, raised))
    } else {
        tell(
            alloc,
            session,
            port,
            around.done_kind(),
            action,
            command,
            raised.get(),
        )
    }
}

/// An error; where it is not caught and has more bytes than the batch may still send, one that says so.
fn or_full(
    alloc: Global,
    session: &SessionState,
    line: i32,
    command: u16,
    around: &Around<'_, '_>,
    raised: Boxed<Raised>,
) -> Result<Boxed<Raised>, Memory>
    ensures { IfOk result (λ told. told ≡ or_full around.now session.now command line raised) }
{
    if around.catches(raised.get()) {
        return Ok(raised);
    }
    let action = around.action(session.settings().xact_abort, raised.get());
    let tokens = told_tokens(alloc, around.done_kind(), action, command, raised.get())?;
    if session.is_full(&tokens) {
        let procedure = around.procedure(alloc)?;
        raised_in(alloc, procedure, line, &Failure::plain(RESULT_FULL))
    } else {
        Ok(raised)
    }
}

/// An error that is caught; it dooms the transaction where it would end it.
pub(crate) fn catch(session: &mut SessionState, action: Action, raised: Boxed<Raised>) -> Exit
    ensures came { Stepped (caught_as action raised) session.old (Ok result) session.new }
    ensures left { session.new.statements_left ≡ session.old.statements_left }
    ensures txn { session.new.txn.saves ≡ session.old.txn.saves }
    ensures kept { session.new.is_open ≡ session.old.is_open }
    ensures settings { session.new.settings ≡ session.old.settings }
    ensures count { session.new.txn.count ≡ session.old.txn.count }
{
    match action {
        Action::Doom => {
            session.doom();
            raised_to(raised)
        }
        Action::Statement => raised_to(raised),
        Action::Batch => raised_to(raised),
        Action::BatchAndTransaction => raised_to(raised),
    }
}

/// On its way to the CATCH of a TRY of its own level, or of one around that.
fn raised_to(raised: Boxed<Raised>) -> Exit
    ensures { result ≡ way_of (base_caught raised.number raised.by) raised }
{
    if is_for_outside(raised.get()) {
        Exit::RaiseUp(raised)
    } else {
        Exit::Raise(raised)
    }
}

/// Tells an error, and ends what it ends.
fn tell<P: Port>(
    alloc: Global,
    session: &mut SessionState,
    port: &mut P,
    kind: DoneKind,
    action: Action,
    command: u16,
    raised: &Raised,
) -> Result<Exit, Memory>
    requires ready { Ready session.old (P.past port.old) }
    ensures does { Did (P.past port.old) (P.past port.new) (told_as kind action command raised.now) session.old result session.new }
    ensures ready { Ready session.new (P.past port.new) }
    ensures left { session.new.statements_left ≡ session.old.statements_left }
{
    let tokens = told_tokens(alloc, kind, action, command, raised)?;
    session.send(tokens)?;
    end_by(alloc, session, port, action)
}

/// Ends what an error ends.
pub(crate) fn end_by<P: Port>(
    alloc: Global,
    session: &mut SessionState,
    port: &mut P,
    action: Action,
) -> Result<Exit, Memory>
    requires ready { Ready session.old (P.past port.old) }
    ensures does { Did (P.past port.old) (P.past port.new) (ended_by action) session.old result session.new }
    ensures ready { Ready session.new (P.past port.new) }
    ensures left { session.new.statements_left ≡ session.old.statements_left }
{
    match action {
        Action::Statement => Ok(Exit::On),
        Action::Doom => Ok(Exit::On),
        Action::Batch => Ok(Exit::End),
        Action::BatchAndTransaction => {
            roll_back_told(alloc, session, port)?;
            Ok(Exit::End)
        }
    }
}

/// No statement may begin any more.
#[inline(never)]
pub(crate) fn spend<P: Port>(
    alloc: Global,
    session: &mut SessionState,
    port: &mut P,
    statement: &Statement,
    around: &Around<'_, '_>,
) -> Result<Exit, Memory>
    requires ready { Ready session.old (P.past port.old) }
    ensures does { Did (P.past port.old) (P.past port.new) (spends statement.now around.now) session.old result session.new }
    ensures ready { Ready session.new (P.past port.new) }
    ensures left { session.new.statements_left ≡ session.old.statements_left }
{
    let line = line_of(statement)?;
    let procedure = around.procedure(alloc)?;
    let raised = raised_in(alloc, procedure, line, &Failure::plain(STATEMENTS_SPENT))?;
    raise(alloc, session, port, statement, around, raised)
}

// ---- the end of a statement

/// A statement failed.
#[inline(never)]
pub(crate) fn fail<P: Port>(
    alloc: Global,
    session: &mut SessionState,
    port: &mut P,
    statement: &Statement,
    around: &Around<'_, '_>,
    failure: Failure,
) -> Result<Exit, Memory>
    requires ready { Ready session.old (P.past port.old) }
    ensures does { Did (P.past port.old) (P.past port.new) (fails_for around.now statement.now failure) session.old result session.new }
    ensures ready { Ready session.new (P.past port.new) }
    ensures left { session.new.statements_left ≡ session.old.statements_left }
{
    let line = line_of(statement)?;
    let procedure = around.procedure(alloc)?;
    let raised = raised_in(alloc, procedure, line, &failure)?;
    raise_counted(alloc, session, port, statement, around, raised)
}

/// Raises an error of a statement that counts no rows.
pub(crate) fn raise_counted<P: Port>(
    alloc: Global,
    session: &mut SessionState,
    port: &mut P,
    statement: &Statement,
    around: &Around<'_, '_>,
    raised: Boxed<Raised>,
) -> Result<Exit, Memory>
    requires ready { Ready session.old (P.past port.old) }
    ensures does { Did (P.past port.old) (P.past port.new) (counted (form_of statement.now) 0 (raises around.now statement.now raised)) session.old result session.new }
    ensures ready { Ready session.new (P.past port.new) }
    ensures left { session.new.statements_left ≡ session.old.statements_left }
{
    if leaves_rows(&statement.form) {
        return raise(alloc, session, port, statement, around, raised);
    }
    session.tell_rows(0);
    raise(alloc, session, port, statement, around, raised)
}

/// Whether a form of statements leaves `@@ROWCOUNT`.
fn leaves_rows(form: &Form) -> bool
    ensures { result ≡ leaves_rows (out-Form form.now) }
{
    match form {
        Form::If(_, _, _) => true,
        Form::While(_, _) => true,
        Form::Break => true,
        Form::Continue => true,
        Form::Block(_) => true,
        Form::TryCatch(_, _) => true,
        Form::Declare(_) => true,
        Form::DeclareCursor(_, _) => true,
        _ => false,
    }
}

/// A statement succeeded: what it assigns, counts and sends.
#[inline(never)]
pub(crate) fn succeed(
    session: &mut SessionState,
    statement: &Statement,
    effect: Effect,
    exit: Exit,
) -> Result<Exit, Memory>
    requires fits { SetsFit session.old.vars effect.sets }
    ensures came { Stepped (succeeds statement.now effect (over exit)) session.old result session.new }
    ensures left { session.new.statements_left ≡ session.old.statements_left }
    ensures kept { session.new.is_open ≡ session.old.is_open }
    ensures txn { session.new.txn ≡ session.old.txn }
    ensures settings { session.new.settings ≡ session.old.settings }
{
    let Effect { sets, rows, tokens } = effect;
    session.assign_all(sets);
    count(session, statement, rows);
    session.tell_error(0);
    send_some(session, tokens)?;
    Ok(exit)
}

/// Sets `@@ROWCOUNT`, unless the statement leaves it.
fn count(session: &mut SessionState, statement: &Statement, rows: u64)
    ensures { session.new ≡ (if leaves_rows (form_of statement.now) then session.old else made (tells_rows rows) session.old) }
{
    if !leaves_rows(&statement.form) {
        session.tell_rows(rows);
    }
}

/// Sends tokens, if there are any.
fn send_some(session: &mut SessionState, tokens: TokenList) -> Result<(), Memory>
    ensures sent { IfOk result (λ _. session.new ≡ sent_some tokens session.old) }
    ensures kept { IfErr result (λ _. session.new ≡ session.old) }
{
    if tokens.is_empty() {
        return Ok(());
    }
    session.send(tokens)
}
