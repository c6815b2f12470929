//! How a definition is put into `objects`, and how a statement that failed is taken back.

ghost use Rattle.std.specs.Prelude.{◌≡◌, ◌==◌, [], true, Ok, IfOk, IsTrue};
ghost use Rattle.std.specs.List.{list_any};
ghost use Rattle.step_model.specs.declared.op.Op.TheVariants as ops;
ghost use Rattle.step_model.specs.declared.reply.Reply.TheVariants.{Done};
ghost use Rattle.batch_meaning.specs.Asking.{marked, unless_refused, with_room};
ghost use Rattle.batch_meaning.specs.Changing.{created};
ghost use Rattle.batch_meaning.specs.Doing.{Did, Exchanged, asks};
ghost use Rattle.batch_meaning.specs.Progress.{Ready};
ghost use Rattle.batch_meaning.specs.Writes.{creates, inserted};
ghost use Rattle.statement_exec.specs.Selected.{IsInsertion};

use crate::look_up::objects;
use batch_meaning::Failure;
use session_state::{
    DEADLOCK, Effect, LOCK_TIMEOUT, OBJECT_PRESENT, SessionState, naming, no_memory,
};
use std::alloc::Global;
use step_model::{Op, Port, Reply};
use table_rows::{object_key, row_of};
use value_types::{Memory, Units};

/// Puts a definition into `objects`.
pub(crate) fn create<P: Port>(
    alloc: Global,
    session: &mut SessionState,
    port: &mut P,
    name: &Units,
    text: &Units,
) -> Result<Effect, Failure>
    requires ready { Ready session.old (P.past port.old) }
    requires begun { session.old.is_open ≡ true }
    ensures does { Did (P.past port.old) (P.past port.new) (creates name.now text.now) session.old (Ok result) session.new }
    ensures ready { Ready session.new (P.past port.new) }
    ensures begun { session.new.is_open ≡ true }
    ensures none { IfOk result (λ effect. effect.sets ≡ []) }
{
    put_definition(alloc, session, port, name, text)?;
    Ok(Effect::none(alloc))
}

/// Puts a definition at its name; an object may be there.
fn put_definition<P: Port>(
    alloc: Global,
    session: &mut SessionState,
    port: &mut P,
    name: &Units,
    text: &Units,
) -> Result<(), Failure>
    requires ready { Ready session.old (P.past port.old) }
    requires begun { session.old.is_open ≡ true }
    ensures does { Did (P.past port.old) (P.past port.new) (with_room (asks ops.Mark (unless_refused (marked (λ mark. asks (created name.now text.now) (inserted mark name.now)))))) session.old (Ok result) session.new }
    ensures ready { Ready session.new (P.past port.new) }
    ensures begun { session.new.is_open ≡ true }
{
    match created(alloc, name, text) {
        Ok(insertion) => put_marked(alloc, session, port, name, &insertion),
        Err(_) => Err(no_memory()),
    }
}

/// The insertion of a definition into `objects`.
fn created(alloc: Global, name: &Units, text: &Units) -> Result<Op, Memory>
    ensures { IfOk result (λ insertion. insertion ≡ created name.now text.now) }
{
    Ok(Op::Insert {
        table: objects(alloc)?,
        key: object_key(alloc, name)?,
        row: row_of(alloc, name, text)?,
    })
}

/// Asks an insertion behind a mark.
fn put_marked<P: Port>(
    alloc: Global,
    session: &mut SessionState,
    port: &mut P,
    name: &Units,
    insertion: &Op,
) -> Result<(), Failure>
    requires ready { Ready session.old (P.past port.old) }
    requires begun { session.old.is_open ≡ true }
    requires inserts { IsInsertion insertion.now }
    ensures does { Did (P.past port.old) (P.past port.new) (asks ops.Mark (unless_refused (marked (λ mark. asks insertion.now (inserted mark name.now))))) session.old (Ok result) session.new }
    ensures ready { Ready session.new (P.past port.new) }
    ensures begun { session.new.is_open ≡ true }
{
    match session.ask(port, &Op::Mark) {
        Reply::Marked(mark) => insert(alloc, session, port, name, mark, insertion),
        Reply::Memory => Err(no_memory()),
        _ => unreachable!(),
    }
}

/// Asks an insertion; where it fails it is taken back to the mark.
fn insert<P: Port>(
    alloc: Global,
    session: &mut SessionState,
    port: &mut P,
    name: &Units,
    mark: u64,
    insertion: &Op,
) -> Result<(), Failure>
    requires ready { Ready session.old (P.past port.old) }
    requires begun { session.old.is_open ≡ true }
    requires live { IsTrue (list_any (λ live. live == mark) (P.past port.old).standing.marks) }
    requires inserts { IsInsertion insertion.now }
    ensures does { Did (P.past port.old) (P.past port.new) (asks insertion.now (inserted mark name.now)) session.old (Ok result) session.new }
    ensures ready { Ready session.new (P.past port.new) }
    ensures begun { session.new.is_open ≡ true }
{
    match session.ask(port, insertion) {
        Reply::Done => Ok(()),
        Reply::Exists => {
            take_back(session, port, mark);
            Err(naming(alloc, OBJECT_PRESENT, name))
        }
        Reply::Memory => {
            take_back(session, port, mark);
            Err(no_memory())
        }
        Reply::TimedOut { .. } => {
            take_back(session, port, mark);
            Err(Failure::plain(LOCK_TIMEOUT))
        }
        Reply::Victim { .. } => {
            take_back(session, port, mark);
            Err(Failure::plain(DEADLOCK))
        }
        _ => unreachable!(),
    }
}

/// Goes back to a mark.
pub fn take_back<P: Port>(session: &mut SessionState, port: &mut P, mark: u64)
    requires ready { Ready session.old (P.past port.old) }
    requires begun { session.old.is_open ≡ true }
    requires live { IsTrue (list_any (λ live. live == mark) (P.past port.old).standing.marks) }
    ensures back { Exchanged (P.past port.old) (P.past port.new) (ops.BackTo mark) session.old Done session.new }
    ensures ready { Ready session.new (P.past port.new) }
    ensures begun { session.new.is_open ≡ true }
{
    match session.ask(port, &Op::BackTo { mark }) {
        Reply::Done => {}
        _ => unreachable!(),
    }
}
