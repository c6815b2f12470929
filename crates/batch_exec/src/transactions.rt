//! The statements on transactions.

ghost use Rattle.std.specs.Prelude.{◌≡◌, [], true, false, Ok, IfOk, None};
ghost use Rattle.std.specs.Option.{option_map};
ghost use Rattle.txn_rules.specs.State.{is_closed, rollback_answer, save_refusal};
ghost use Rattle.binder.specs.Statements.{is_maybe_long};
ghost use Rattle.batch_meaning.specs.Doing.{Did};
ghost use Rattle.batch_meaning.specs.Progress.{Ready};
ghost use Rattle.batch_meaning.specs.Transactions.{begins_outermost, begins_transaction, commits_by, commits_transaction, goes_back, next_serial, rolls_back_transaction, rolls_back_whole, saves_transaction, saves_unless};
ghost use Rattle.batch_meaning.specs.Asking.{with_room};
ghost use Rattle.session_state.specs.Ending.{begun_serial};
ghost use Rattle.batch_exec.specs.Running.{IsAffordable, IsNumbered};

use batch_meaning::Failure;
use session_state::{
    Effect, Endings, LONGEST_NAME, NOTHING_OPEN, OUTSIDE_LIMITS, OUTSIDE_PROFILE, RESULT_FULL,
    SessionState, TokenList, no_memory, transaction_begun,
};
use statement_exec::{bind_first, take_back};
use std::alloc::Global;
use step_model::{Op, Port, Reply};
use tsql_tree::Statement;
use txn_rules::BackKind;
use value_types::{Memory, Units};

/// Tokens that the batch may still send.
fn affordable(
    session: &SessionState,
    tokens: Result<TokenList, Memory>,
) -> Result<TokenList, Failure>
    ensures { IsAffordable session.now tokens result }
{
    match tokens {
        Ok(tokens) if session.is_full(&tokens) => Err(Failure::plain(RESULT_FULL)),
        Ok(tokens) => Ok(tokens),
        Err(_) => Err(no_memory()),
    }
}

/// Whether the name of a transaction is too long.
fn is_maybe_long(name: Option<&Units>) -> bool
    ensures { result ≡ is_maybe_long (option_map (λ name. name.now) name.entry) }
{
    match name {
        Some(name) => LONGEST_NAME < name.len(),
        None => false,
    }
}

// ---- BEGIN TRANSACTION

/// BEGIN TRANSACTION.
pub(crate) fn begin_transaction<P: Port>(
    alloc: Global,
    session: &mut SessionState,
    port: &mut P,
    statement: &Statement,
    name: Option<&Units>,
) -> Result<Effect, Failure>
    requires ready { Ready session.old (P.past port.old) }
    ensures does { Did (P.past port.old) (P.past port.new) (begins_transaction statement.now (option_map (λ name. name.now) name.entry)) session.old (Ok result) session.new }
    ensures ready { Ready session.new (P.past port.new) }
    ensures none { IfOk result (λ effect. effect.sets ≡ []) }
{
    bind_first(alloc, session, statement)?;
    if !session.in_transaction() {
        return begin_outermost(alloc, session, port, name);
    }
    if session.is_nested_most() {
        return Err(Failure::plain(OUTSIDE_PROFILE));
    }
    let Ok((name, endings)) = begin_parts(alloc, session, name) else {
        return Err(no_memory());
    };
    session.open(name, endings);
    Ok(Effect::none(alloc))
}

/// The name of a transaction that begins, and what is told at its end.
fn begin_parts(
    alloc: Global,
    session: &SessionState,
    name: Option<&Units>,
) -> Result<(Option<Units>, Endings), Memory>
    ensures name { IfOk result (λ parts. parts.0 ≡ option_map (λ name. name.now) name.entry) }
    ensures number { IfOk result (λ parts. parts.1 ≡ begun_serial session.now.txn) }
{
    Ok((
        copy_of(alloc, name)?,
        Endings::new(alloc, session.begun_serial())?,
    ))
}

/// A name that is kept.
fn copy_of(alloc: Global, name: Option<&Units>) -> Result<Option<Units>, Memory>
    ensures { IfOk result (λ copy. copy ≡ option_map (λ name. name.now) name.entry) }
{
    match name {
        Some(name) => Ok(Some(name.copy(alloc)?)),
        None => Ok(None),
    }
}

/// The outermost is begun at the port.
pub(crate) fn begin_outermost<P: Port>(
    alloc: Global,
    session: &mut SessionState,
    port: &mut P,
    name: Option<&Units>,
) -> Result<Effect, Failure>
    requires ready { Ready session.old (P.past port.old) }
    requires none { session.old.is_open ≡ false }
    ensures does { Did (P.past port.old) (P.past port.new) (with_room (begins_outermost (option_map (λ name. name.now) name.entry) (next_serial session.old.txn))) session.old (Ok result) session.new }
    ensures ready { Ready session.new (P.past port.new) }
    ensures none { IfOk result (λ effect. effect.sets ≡ []) }
{
    let tokens = affordable(session, transaction_begun(alloc, session.next_serial()))?;
    let Ok((name, endings)) = begin_parts(alloc, session, name) else {
        return Err(no_memory());
    };
    match session.ask(port, &Op::Begin) {
        Reply::Began => {
            session.open(name, endings);
            Ok(Effect::sending(alloc, tokens))
        }
        Reply::Memory => Err(no_memory()),
        _ => unreachable!(),
    }
}

// ---- COMMIT

/// COMMIT.
pub(crate) fn commit_transaction<P: Port>(
    alloc: Global,
    session: &mut SessionState,
    port: &mut P,
    name: Option<&Units>,
) -> Result<Effect, Failure>
    requires ready { Ready session.old (P.past port.old) }
    ensures does { Did (P.past port.old) (P.past port.new) (commits_transaction (option_map (λ name. name.now) name.entry)) session.old (Ok result) session.new }
    ensures ready { Ready session.new (P.past port.new) }
    ensures none { IfOk result (λ effect. effect.sets ≡ []) }
{
    if is_maybe_long(name) {
        return Err(Failure::plain(OUTSIDE_LIMITS));
    }
    match session.commit_answer() {
        Ok(true) => commit_outermost(alloc, session, port),
        Ok(false) => {
            session.close_one();
            Ok(Effect::none(alloc))
        }
        Err(number) => Err(Failure { number, name: None }),
    }
}

/// The outermost is committed at the port.
fn commit_outermost<P: Port>(
    alloc: Global,
    session: &mut SessionState,
    port: &mut P,
) -> Result<Effect, Failure>
    requires ready { Ready session.old (P.past port.old) }
    requires counted { is_closed session.old.txn ≡ false }
    ensures does { Did (P.past port.old) (P.past port.new) (commits_by session.old (Ok true)) session.old (Ok result) session.new }
    ensures ready { Ready session.new (P.past port.new) }
    ensures none { IfOk result (λ effect. effect.sets ≡ []) }
{
    if session.is_commit_full(alloc) {
        return Err(Failure::plain(RESULT_FULL));
    }
    let tokens = session.commit(alloc, port);
    Ok(Effect::sending(alloc, tokens))
}

// ---- ROLLBACK

/// ROLLBACK, whole or to a name.
pub(crate) fn roll_back_transaction<P: Port>(
    alloc: Global,
    session: &mut SessionState,
    port: &mut P,
    name: Option<&Units>,
) -> Result<Effect, Failure>
    requires ready { Ready session.old (P.past port.old) }
    ensures does { Did (P.past port.old) (P.past port.new) (rolls_back_transaction (option_map (λ name. name.now) name.entry)) session.old (Ok result) session.new }
    ensures ready { Ready session.new (P.past port.new) }
    ensures none { IfOk result (λ effect. effect.sets ≡ []) }
{
    if is_maybe_long(name) {
        return Err(Failure::plain(OUTSIDE_LIMITS));
    }
    match name {
        Some(name) => go_back(alloc, session, port, name),
        None if session.is_closed() => Err(Failure::plain(NOTHING_OPEN)),
        None => roll_back_whole(alloc, session, port),
    }
}

/// ROLLBACK to a name.
fn go_back<P: Port>(
    alloc: Global,
    session: &mut SessionState,
    port: &mut P,
    name: &Units,
) -> Result<Effect, Failure>
    requires ready { Ready session.old (P.past port.old) }
    ensures does { Did (P.past port.old) (P.past port.new) (goes_back name.now session.old (rollback_answer name.now session.old.txn)) session.old (Ok result) session.new }
    ensures ready { Ready session.new (P.past port.new) }
    ensures none { IfOk result (λ effect. effect.sets ≡ []) }
{
    match session.rollback_answer(name) {
        Ok(BackKind::Whole) => roll_back_whole(alloc, session, port),
        Ok(BackKind::Mark(mark)) => {
            take_back(session, port, mark);
            Ok(Effect::none(alloc))
        }
        Err(number) => Err(numbered(alloc, number, name)),
    }
}

/// An error of this number that names this, if there is memory for it.
fn numbered(alloc: Global, number: i32, name: &Units) -> Failure
    ensures { IsNumbered number name.now result }
{
    match name.copy(alloc) {
        Ok(name) => Failure {
            number,
            name: Some(name),
        },
        Err(_) => no_memory(),
    }
}

/// The transaction is rolled back at the port.
fn roll_back_whole<P: Port>(
    alloc: Global,
    session: &mut SessionState,
    port: &mut P,
) -> Result<Effect, Failure>
    requires ready { Ready session.old (P.past port.old) }
    requires counted { is_closed session.old.txn ≡ false }
    ensures does { Did (P.past port.old) (P.past port.new) (rolls_back_whole session.old) session.old (Ok result) session.new }
    ensures ready { Ready session.new (P.past port.new) }
    ensures none { IfOk result (λ effect. effect.sets ≡ []) }
{
    if session.is_rollback_full(alloc) {
        return Err(Failure::plain(RESULT_FULL));
    }
    let tokens = session.roll_back(alloc, port);
    Ok(Effect::sending(alloc, tokens))
}

// ---- SAVE TRANSACTION

/// SAVE TRANSACTION.
pub(crate) fn save_transaction<P: Port>(
    alloc: Global,
    session: &mut SessionState,
    port: &mut P,
    statement: &Statement,
    name: &Units,
) -> Result<Effect, Failure>
    requires ready { Ready session.old (P.past port.old) }
    ensures does { Did (P.past port.old) (P.past port.new) (saves_transaction statement.now name.now) session.old (Ok result) session.new }
    ensures ready { Ready session.new (P.past port.new) }
    ensures none { IfOk result (λ effect. effect.sets ≡ []) }
{
    bind_first(alloc, session, statement)?;
    match session.save_refusal() {
        Some(number) => Err(Failure { number, name: None }),
        None => save(alloc, session, port, name),
    }
}

/// A mark is set, and named.
fn save<P: Port>(
    alloc: Global,
    session: &mut SessionState,
    port: &mut P,
    name: &Units,
) -> Result<Effect, Failure>
    requires ready { Ready session.old (P.past port.old) }
    requires free { save_refusal session.old.txn ≡ None }
    ensures does { Did (P.past port.old) (P.past port.new) (saves_unless name.now None) session.old (Ok result) session.new }
    ensures ready { Ready session.new (P.past port.new) }
    ensures none { IfOk result (λ effect. effect.sets ≡ []) }
{
    let Ok(name) = name.copy(alloc) else {
        return Err(no_memory());
    };
    match session.ask(port, &Op::Mark) {
        Reply::Marked(mark) => match session.save(name, mark) {
            Ok(()) => Ok(Effect::none(alloc)),
            Err(_) => Err(no_memory()),
        },
        Reply::Memory => Err(no_memory()),
        _ => unreachable!(),
    }
}
