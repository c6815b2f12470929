//! The transaction that a statement begins unseen.

ghost use Rattle.std.specs.Prelude.{◌≡◌, false, IfOk, IfErr};
ghost use Rattle.tsql_tree.specs.declared.statement.Form.{out-Form};
ghost use Rattle.binder.specs.Names.{form_of};
ghost use Rattle.batch_meaning.specs.Doing.{Doing};
ghost use Rattle.batch_meaning.specs.declared.exit.Exit.{Exit as Way};
ghost use Rattle.batch_meaning.specs.declared.failure.Failure.{Failure as Failed};
ghost use Rattle.batch_meaning.specs.Meaning.{begun_unseen, fails_for};
ghost use Rattle.batch_meaning.specs.Progress.{Ready, made, sends};
ghost use Rattle.batch_meaning.specs.Unseen.{begins_unseen, is_unseen, wants_begin};
ghost use Rattle.batch_exec.specs.Running.{LeadsBehind, LeadsOn};

use crate::errors::fail;
use crate::transactions::begin_outermost;
use batch_meaning::{Exit, Failure};
use session_state::{Around, Effect, SessionState};
use std::alloc::Global;
use step_model::Port;
use tsql_tree::{Form, Statement};
use value_types::Memory;

/// Where a statement begins a transaction unseen, begins that and tells it; gives how the statement is left where that
/// failed.
#[inline(never)]
pub(crate) fn begin_unseen<P: Port>(
    alloc: Global,
    session: &mut SessionState,
    port: &mut P,
    statement: &Statement,
    around: &Around<'_, '_>,
) -> Result<Option<Exit>, Memory>
    requires ready { Ready session.old (P.past port.old) }
    ensures does { (next : Doing Way) → LeadsOn (P.past port.old) (P.past port.new) (begun_unseen (λ p. is_unseen p (form_of statement.now)) (fails_for around.now statement.now) next) next session.old result session.new }
    ensures ready { Ready session.new (P.past port.new) }
    ensures left { session.new.statements_left ≡ session.old.statements_left }
{
    if !is_unseen(session, &statement.form) {
        return Ok(None);
    }
    match begin_told(alloc, session, port)? {
        None => Ok(None),
        Some(failure) => {
            let exit = fail(alloc, session, port, statement, around, failure)?;
            Ok(Some(exit))
        }
    }
}

/// Begins a transaction as a BEGIN TRANSACTION that is not seen, and tells it; or gives why that failed.
pub(crate) fn begin_told<P: Port>(
    alloc: Global,
    session: &mut SessionState,
    port: &mut P,
) -> Result<Option<Failure>, Memory>
    requires ready { Ready session.old (P.past port.old) }
    requires none { session.old.is_open ≡ false }
    ensures does { (fails : Failed → Doing Way) (next : Doing Way) → LeadsBehind (P.past port.old) (P.past port.new) fails next session.old result session.new }
    ensures ready { Ready session.new (P.past port.new) }
    ensures left { session.new.statements_left ≡ session.old.statements_left }
{
    match begin_outermost(alloc, session, port, None) {
        Ok(effect) => {
            send_effect(session, effect)?;
            Ok(None)
        }
        Err(failure) => Ok(Some(failure)),
    }
}

/// Sends the tokens of an effect.
fn send_effect(session: &mut SessionState, effect: Effect) -> Result<(), Memory>
    ensures sent { IfOk result (λ _. session.new ≡ made (sends effect.tokens) session.old) }
    ensures kept { IfErr result (λ _. session.new ≡ session.old) }
{
    let Effect { tokens, .. } = effect;
    session.send(tokens)
}

/// Whether a transaction is begun here by what wants one.
pub(crate) fn wants_begin(session: &SessionState) -> bool
    ensures { result ≡ wants_begin session.now }
{
    session.settings().implicit && !session.in_transaction()
}

/// Whether a statement of this form begins one.
fn is_unseen(session: &SessionState, form: &Form) -> bool
    ensures { result ≡ is_unseen session.now (out-Form form.now) }
{
    wants_begin(session) && begins_unseen(form)
}

/// Whether one does where no transaction is open.
fn begins_unseen(form: &Form) -> bool
    ensures { result ≡ begins_unseen (out-Form form.now) }
{
    match form {
        Form::Select(select) => select.get().from.is_some(),
        Form::Insert(_, _, _) => true,
        Form::Update(_, _, _) => true,
        Form::Delete(_, _) => true,
        Form::CreateTable(_, _) => true,
        Form::Drop(_, _) => true,
        Form::OpenCursor(_) => true,
        Form::Fetch(_, _) => true,
        Form::BeginTransaction(_) => true,
        _ => false,
    }
}
