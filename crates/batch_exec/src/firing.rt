//! What becomes of a write by how its triggers end.

ghost use Rattle.std.specs.Prelude.{◌≡◌, ◌==◌, [], false, true, IfOk, IsTrue, Ok, if◌then◌else◌};
ghost use Rattle.std.specs.List.{list_any};
ghost use Rattle.tsql_tree.specs.declared.statement.Statement.{Statement as Tree};
ghost use Rattle.batch_meaning.specs.declared.home.Home.TheVariants.{Nowhere};
ghost use Rattle.batch_meaning.specs.Doing.{Did, over};
ghost use Rattle.batch_meaning.specs.Firing.{closes_own, leaves_fired, relaxes_then, settles, trigger_end, undone_to};
ghost use Rattle.batch_meaning.specs.Meaning.{Meaning, effect_of, tells_behind, written};
ghost use Rattle.batch_meaning.specs.Progress.{Ready};

use crate::errors::{fail, succeed};
use batch_meaning::{Exit, Failure, Home, Stop};
use session_state::{
    Around, DOOMED_IN_TRIGGER, ENDED_IN_TRIGGER, Effect, RESULT_FULL, SessionState,
};
use statement_exec::{Written, close, leave, relax_again, take_back};
use std::alloc::Global;
use step_model::Port;
use tsql_tree::Statement;
use value_types::Memory;

/// Whether the next trigger comes behind one that ended so; else why not.
pub(crate) fn trigger_end(session: &SessionState, exit: Exit) -> Result<(), Stop>
    ensures { result ≡ trigger_end exit session.now }
{
    match exit {
        Exit::Raise(raised) => Err(Stop::Left(Exit::Raise(raised))),
        Exit::RaiseUp(raised) => Err(Stop::Left(Exit::Raise(raised))),
        Exit::End => Err(Stop::Left(Exit::End)),
        _ if session.is_closed() => Err(Stop::Failed(Failure::plain(ENDED_IN_TRIGGER))),
        _ if session.is_doomed() => Err(Stop::Failed(Failure::plain(DOOMED_IN_TRIGGER))),
        _ => Ok(()),
    }
}

/// What a write tells must still fit behind what its triggers have sent.
pub(crate) fn tells_behind(session: &SessionState, effect: &Effect) -> Result<(), Stop>
    ensures { (one : Tree → Meaning) → result ≡ tells_behind one effect.now session.now }
{
    if session.is_full(effect.tokens()) {
        Err(Stop::Failed(Failure::plain(RESULT_FULL)))
    } else {
        Ok(())
    }
}

/// The triggers of a statement have run. Where they have ended the transaction in which it worked, nothing more is
/// asked: another that they have begun stays open.
pub(crate) fn leave_fired<P: Port>(
    session: &mut SessionState,
    port: &mut P,
    home: Home,
    mark: u64,
    stood: bool,
    succeeded: bool,
)
    requires ready { Ready session.old (P.past port.old) }
    ensures does { Did (P.past port.old) (P.past port.new) (leaves_fired home mark stood succeeded) session.old (Ok result) session.new }
    ensures ready { Ready session.new (P.past port.new) }
    ensures left { session.new.statements_left ≡ session.old.statements_left }
{
    settle(session, port, home, mark, succeeded);
    session.end_firing(mark, stood);
}

/// The statement ends in its transaction, where that stands.
fn settle<P: Port>(session: &mut SessionState, port: &mut P, home: Home, mark: u64, succeeded: bool)
    requires ready { Ready session.old (P.past port.old) }
    ensures does { Did (P.past port.old) (P.past port.new) (if session.old.stands then settles home mark succeeded session.old else over tt) session.old (Ok result) session.new }
    ensures ready { Ready session.new (P.past port.new) }
{
    if !session.stands() {
        return;
    }
    if succeeded {
        leave(session, port, home, true);
    } else if session.has_mark(mark) {
        undo(session, port, home, mark);
    } else {
        undone(session, port, home);
    }
}

/// It is undone to its mark.
pub(crate) fn undo<P: Port>(session: &mut SessionState, port: &mut P, home: Home, mark: u64)
    requires ready { Ready session.old (P.past port.old) }
    requires begun { session.old.is_open ≡ true }
    requires live { IsTrue (list_any (λ live. live == mark) (P.past port.old).standing.marks) }
    ensures does { Did (P.past port.old) (P.past port.new) (undone_to mark true (relaxes_then (closes_own home false))) session.old (Ok result) session.new }
    ensures ready { Ready session.new (P.past port.new) }
{
    take_back(session, port, mark);
    undone(session, port, home);
}

/// Behind its undoing its locks end, and its own transaction.
fn undone<P: Port>(session: &mut SessionState, port: &mut P, home: Home)
    requires ready { Ready session.old (P.past port.old) }
    requires begun { session.old.is_open ≡ true }
    ensures does { Did (P.past port.old) (P.past port.new) (relaxes_then (closes_own home false)) session.old (Ok result) session.new }
    ensures ready { Ready session.new (P.past port.new) }
{
    relax_again(session, port);
    close_own(session, port, home, false);
}

/// Its own transaction ends, by whether it succeeded.
fn close_own<P: Port>(session: &mut SessionState, port: &mut P, home: Home, succeeded: bool)
    requires ready { Ready session.old (P.past port.old) }
    requires begun { session.old.is_open ≡ true }
    ensures does { Did (P.past port.old) (P.past port.new) (closes_own home succeeded) session.old (Ok result) session.new }
    ensures ready { Ready session.new (P.past port.new) }
{
    match home {
        Home::Own => close(session, port, succeeded),
        Home::Open => {}
        Home::Nowhere => {}
    }
}

/// What a write tells, where its triggers have not stopped it.
pub(crate) fn effect_of(written: Written, came: Result<(), Stop>) -> Result<Effect, Stop>
    ensures { (one : Tree → Meaning) → result ≡ effect_of one written.effect came }
{
    match came {
        Ok(()) => Ok(written.effect),
        Err(stop) => Err(stop),
    }
}

/// A write ends by what it came to behind its triggers; where one of them was left, it is left so, too.
#[inline(never)]
pub(crate) fn end_write<P: Port>(
    alloc: Global,
    session: &mut SessionState,
    port: &mut P,
    statement: &Statement,
    around: &Around<'_, '_>,
    came: Result<Effect, Stop>,
) -> Result<Exit, Memory>
    requires ready { Ready session.old (P.past port.old) }
    requires none { IfOk came (λ effect. effect.sets ≡ []) }
    ensures does { Did (P.past port.old) (P.past port.new) (written around.now statement.now came) session.old result session.new }
    ensures ready { Ready session.new (P.past port.new) }
    ensures left { session.new.statements_left ≡ session.old.statements_left }
{
    match came {
        Ok(effect) => succeed(session, statement, effect, Exit::On),
        Err(Stop::Failed(failure)) => fail(alloc, session, port, statement, around, failure),
        Err(Stop::Left(exit)) => {
            session.tell_rows(0);
            Ok(exit)
        }
    }
}
