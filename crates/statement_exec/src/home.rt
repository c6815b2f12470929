//! In which transaction a statement works, and how that ends.

ghost use Rattle.std.specs.Prelude.{◌≡◌, true, false, Ok, IfOk};
ghost use Rattle.step_model.specs.declared.op.Op.TheVariants as ops;
ghost use Rattle.step_model.specs.declared.reply.Reply.TheVariants.{Done};
ghost use Rattle.batch_meaning.specs.declared.home.Home.TheVariants.{Nowhere};
ghost use Rattle.batch_meaning.specs.Doing.{Did, Exchanged, over};
ghost use Rattle.batch_meaning.specs.Firing.{relaxes_then};
ghost use Rattle.batch_meaning.specs.Progress.{Ready};
ghost use Rattle.batch_meaning.specs.Working.{closes, enters, leaves, relaxes};

use batch_meaning::{Failure, Home};
use session_state::{SessionState, no_memory};
use step_model::{Op, Port, Reply};

/// Where a statement works that asks something, or nothing: a transaction of its own is begun where none is open.
pub fn enter<P: Port>(
    session: &mut SessionState,
    port: &mut P,
    asks_any: bool,
) -> Result<Home, Failure>
    requires ready { Ready session.old (P.past port.old) }
    ensures does { Did (P.past port.old) (P.past port.new) (enters asks_any) session.old (Ok result) session.new }
    ensures ready { Ready session.new (P.past port.new) }
    ensures vars { session.new.vars ≡ session.old.vars }
    ensures begun { IfOk result (λ home. asks_any ≡ true → session.new.is_open ≡ true) }
    ensures nowhere { IfOk result (λ home. asks_any ≡ false → home ≡ Nowhere) }
{
    if !asks_any {
        return Ok(Home::Nowhere);
    }
    if session.in_transaction() {
        return Ok(Home::Open);
    }
    match session.ask(port, &Op::Begin) {
        Reply::Began => Ok(Home::Own),
        Reply::Memory => Err(no_memory()),
        _ => unreachable!(),
    }
}

/// Ends the locks of the statement, and its own transaction by whether the statement succeeded.
pub fn leave<P: Port>(session: &mut SessionState, port: &mut P, home: Home, succeeded: bool)
    requires ready { Ready session.old (P.past port.old) }
    requires begun { (home ≡ Nowhere → ⊥) → session.old.is_open ≡ true }
    ensures does { Did (P.past port.old) (P.past port.new) (leaves home succeeded) session.old (Ok result) session.new }
    ensures ready { Ready session.new (P.past port.new) }
    ensures vars { session.new.vars ≡ session.old.vars }
{
    match home {
        Home::Nowhere => {}
        Home::Open => relax(session, port),
        Home::Own => {
            relax(session, port);
            close(session, port, succeeded);
        }
    }
}

/// Ends the locks of the statement, where something was fetched or written.
pub fn relax<P: Port>(session: &mut SessionState, port: &mut P)
    requires ready { Ready session.old (P.past port.old) }
    requires begun { session.old.is_open ≡ true }
    ensures does { Did (P.past port.old) (P.past port.new) relaxes session.old (Ok result) session.new }
    ensures standing { (P.past port.new).standing ≡ (P.past port.old).standing }
    ensures ready { Ready session.new (P.past port.new) }
    ensures begun { session.new.is_open ≡ true }
    ensures vars { session.new.vars ≡ session.old.vars }
{
    if session.is_touched() {
        match session.ask(port, &Op::Relax) {
            Reply::Done => {}
            _ => unreachable!(),
        }
    }
}

/// Ends the statement's own transaction, by whether the statement succeeded.
pub fn close<P: Port>(session: &mut SessionState, port: &mut P, succeeded: bool)
    requires ready { Ready session.old (P.past port.old) }
    requires begun { session.old.is_open ≡ true }
    ensures does { Did (P.past port.old) (P.past port.new) (closes succeeded) session.old (Ok result) session.new }
    ensures ready { Ready session.new (P.past port.new) }
    ensures vars { session.new.vars ≡ session.old.vars }
{
    if succeeded {
        match session.ask(port, &Op::Commit) {
            Reply::Ended { .. } => {}
            _ => unreachable!(),
        }
    } else {
        match session.ask(port, &Op::Rollback) {
            Reply::Ended { .. } => {}
            _ => unreachable!(),
        }
    }
}

/// Ends the locks of a statement whose triggers have run, whatever was asked since.
pub fn relax_again<P: Port>(session: &mut SessionState, port: &mut P)
    requires ready { Ready session.old (P.past port.old) }
    requires begun { session.old.is_open ≡ true }
    ensures does { Did (P.past port.old) (P.past port.new) (relaxes_then (over tt)) session.old (Ok result) session.new }
    ensures asked { Exchanged (P.past port.old) (P.past port.new) ops.Relax session.old Done session.new }
    ensures ready { Ready session.new (P.past port.new) }
    ensures begun { session.new.is_open ≡ true }
{
    match session.ask(port, &Op::Relax) {
        Reply::Done => {}
        _ => unreachable!(),
    }
}
