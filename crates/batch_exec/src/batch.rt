//! A batch, from its beginning to its end.

ghost use Rattle.std.specs.Prelude.{◌≡◌, ◌≤◌, ◌∷◌, [], Err, IfOk, IfErr, true};
ghost use Rattle.batch_meaning.specs.declared.exit.Exit.TheVariants.{End};
ghost use Rattle.batch_meaning.specs.Failures.{naming};
ghost use Rattle.batch_meaning.specs.Raised.{error_token, raised_at};
ghost use Rattle.batch_meaning.specs.Doing.{Did};
ghost use Rattle.batch_meaning.specs.Meaning.{batch, defined, defines_object, has_failed, puts_object, rolls_back_doomed, runs_text, tells_end, vars_in_text};
ghost use Rattle.batch_meaning.specs.Tokens.{last_done};
ghost use Rattle.batch_meaning.specs.Progress.{Ready, made, sends, statement_limit};

use crate::errors::{raise_at, roll_back_told};
use crate::running::run_statements;
use crate::unseen::{begin_told, wants_begin};
use batch_meaning::{Exit, Failure, ReadText};
use session_state::{
    Around, DOOMED_AT_END, DOOMED_WRITE, SessionState, error_tokens, last_tokens, raised_at,
};
use session_vars::Vars;
use statement_exec::create_definition;
use std::alloc::Global;
use step_model::Port;
use tds_tokens::{COMMAND_NONE, DoneKind};
use tsql_tree::Definition;
use value_types::{Memory, Units};

/// Runs a batch that a text is read as, with these variables, over a session's port: asks what it means, and goes on by
/// the replies. The session has then what the batch sends ([`SessionState::tokens`]). Where memory is wanting for that,
/// the rest is left, and a transaction may be open.
pub fn run_batch<P: Port>(
    alloc: Global,
    session: &mut SessionState,
    port: &mut P,
    read: &ReadText,
    vars: Vars,
) -> Result<(), Memory>
    requires ready { Ready session.old (P.past port.old) }
    requires vars { vars ≡ vars_in_text read.now }
    ensures does { Did (P.past port.old) (P.past port.new) (batch read.now) session.old result session.new }
    ensures ready { Ready session.new (P.past port.new) }
{
    session.begin_batch(vars);
    let exit = run_text(alloc, session, port, read)?;
    end(alloc, session, port, exit, DoneKind::Done)
}

/// Runs what a text is read as; one that is refused has begun nothing.
pub(crate) fn run_text<P: Port>(
    alloc: Global,
    session: &mut SessionState,
    port: &mut P,
    read: &ReadText,
) -> Result<Exit, Memory>
    requires ready { Ready session.old (P.past port.old) }
    requires left { session.old.statements_left ≤ statement_limit }
    ensures does { Did (P.past port.old) (P.past port.new) (runs_text read.now) session.old result session.new }
    ensures ready { Ready session.new (P.past port.new) }
{
    match read {
        ReadText::Statements(statements) => {
            run_statements(
                alloc,
                session,
                port,
                statements.as_slice(),
                &Around::batch(),
            )
        }
        ReadText::Defines(line, of, text) => define(alloc, session, port, *line, of, text),
        ReadText::Refused { line, code, near } => {
            let failure = refusal(alloc, *code, near)?;
            refuse(alloc, session, *line, &failure)
        }
    }
}

/// The definition of a procedure or trigger, which is a batch of one statement, at this line.
fn define<P: Port>(
    alloc: Global,
    session: &mut SessionState,
    port: &mut P,
    line: i32,
    of: &Definition,
    text: &Units,
) -> Result<Exit, Memory>
    requires ready { Ready session.old (P.past port.old) }
    ensures does { Did (P.past port.old) (P.past port.new) (defines_object line of.now text.now) session.old result session.new }
    ensures ready { Ready session.new (P.past port.new) }
{
    if !wants_begin(session) {
        return put_object(alloc, session, port, line, of, text);
    }
    match begin_told(alloc, session, port)? {
        None => put_object(alloc, session, port, line, of, text),
        Some(failure) => fail_at(alloc, session, port, line, &failure),
    }
}

/// It is put, unless the transaction is doomed.
fn put_object<P: Port>(
    alloc: Global,
    session: &mut SessionState,
    port: &mut P,
    line: i32,
    of: &Definition,
    text: &Units,
) -> Result<Exit, Memory>
    requires ready { Ready session.old (P.past port.old) }
    ensures does { Did (P.past port.old) (P.past port.new) (puts_object line of.now text.now) session.old result session.new }
    ensures ready { Ready session.new (P.past port.new) }
{
    if session.is_doomed() {
        let failure = Failure::plain(DOOMED_WRITE);
        return fail_at(alloc, session, port, line, &failure);
    }
    match create_definition(alloc, session, port, of, text) {
        Ok(_) => {
            session.tell_rows(0);
            session.tell_error(0);
            Ok(Exit::On)
        }
        Err(failure) => fail_at(alloc, session, port, line, &failure),
    }
}

/// It failed.
fn fail_at<P: Port>(
    alloc: Global,
    session: &mut SessionState,
    port: &mut P,
    line: i32,
    failure: &Failure,
) -> Result<Exit, Memory>
    requires ready { Ready session.old (P.past port.old) }
    ensures does { Did (P.past port.old) (P.past port.new) (defined line (Err failure.now)) session.old result session.new }
    ensures ready { Ready session.new (P.past port.new) }
{
    session.tell_rows(0);
    let raised = raised_at(alloc, line, failure)?;
    let around = Around::batch();
    raise_at(alloc, session, port, line, COMMAND_NONE, &around, raised)
}

/// Why a text is refused.
pub(crate) fn refusal(alloc: Global, code: u16, near: &Units) -> Result<Failure, Memory>
    ensures { IfOk result (λ failure. failure ≡ naming code near.now) }
{
    Ok(Failure::naming(code, near.copy(alloc)?))
}

/// Tells that a text is refused.
pub(crate) fn refuse(
    alloc: Global,
    session: &mut SessionState,
    line: i32,
    failure: &Failure,
) -> Result<Exit, Memory>
    ensures refused { IfOk result (λ exit. (exit ≡ End) × (session.new ≡ made (sends (error_token (raised_at line failure.now) ∷ [])) session.old)) }
    ensures kept { IfErr result (λ _. session.new ≡ session.old) }
{
    let raised = raised_at(alloc, line, failure)?;
    let tokens = error_tokens(alloc, raised.get())?;
    session.send(tokens)?;
    Ok(Exit::End)
}

/// However a batch or a call by RPC ends, that is told by a last token of this kind; a transaction that is doomed is
/// rolled back.
pub(crate) fn end<P: Port>(
    alloc: Global,
    session: &mut SessionState,
    port: &mut P,
    exit: Exit,
    kind: DoneKind,
) -> Result<(), Memory>
    requires ready { Ready session.old (P.past port.old) }
    ensures does { Did (P.past port.old) (P.past port.new) (tells_end (λ failed. last_done kind failed) (rolls_back_doomed (last_done kind true)) exit) session.old result session.new }
    ensures ready { Ready session.new (P.past port.new) }
{
    if session.is_doomed() {
        end_doomed(alloc, session, port, kind)
    } else {
        let end = last_tokens(alloc, kind, has_failed(&exit))?;
        session.send(end)?;
        Ok(())
    }
}

/// A transaction that is doomed at the end is rolled back.
fn end_doomed<P: Port>(
    alloc: Global,
    session: &mut SessionState,
    port: &mut P,
    kind: DoneKind,
) -> Result<(), Memory>
    requires ready { Ready session.old (P.past port.old) }
    ensures does { Did (P.past port.old) (P.past port.new) (rolls_back_doomed (last_done kind true)) session.old result session.new }
    ensures ready { Ready session.new (P.past port.new) }
{
    let raised = raised_at(alloc, 1, &Failure::plain(DOOMED_AT_END))?;
    let tokens = error_tokens(alloc, raised.get())?;
    session.send(tokens)?;
    roll_back_told(alloc, session, port)?;
    let end = last_tokens(alloc, kind, true)?;
    session.send(end)?;
    Ok(())
}

/// Whether an error ended the batch.
fn has_failed(exit: &Exit) -> bool
    ensures { result ≡ has_failed exit.now }
{
    match exit {
        Exit::End => true,
        Exit::Raise(_) => true,
        Exit::RaiseUp(_) => true,
        _ => false,
    }
}
