//! How a WHILE goes on behind a turn.

ghost use Rattle.std.specs.Prelude.{◌≡◌, ℕ, ◌<◌, ◌≤◌, IfOk, None};
ghost use Rattle.binder.specs.Names.{form_of};
ghost use Rattle.batch_meaning.specs.Meaning.{mean_of, turned, turns_again};
ghost use Rattle.batch_meaning.specs.Progress.{Ready};
ghost use Rattle.batch_exec.specs.Running.{IsWhile, Loops};

use crate::errors::spend;
use batch_meaning::Exit;
use session_state::{Around, SessionState};
use std::alloc::Global;
use step_model::Port;
use tsql_tree::Statement;
use value_types::Memory;

/// Behind a turn of a WHILE: how it is left, or it begins again.
pub(crate) fn begin_again<P: Port>(
    alloc: Global,
    session: &mut SessionState,
    port: &mut P,
    statement: &Statement,
    body: &Statement,
    around: &Around<'_, '_>,
    exit: Exit,
) -> Result<Option<Exit>, Memory>
    requires loops { IsWhile body.now (form_of statement.now) }
    requires ready { Ready session.old (P.past port.old) }
    ensures does { (levels : ℕ) → session.old.statements_left ≤ levels → Loops (P.past port.old) (P.past port.new) (turns_again (mean_of levels statement.now around.now) (turned exit)) statement.now body.now around.now session.old result session.new }
    ensures ready { Ready session.new (P.past port.new) }
    ensures left { session.new.statements_left ≤ session.old.statements_left }
    ensures fewer { IfOk result (λ exit. exit ≡ None → session.new.statements_left < session.old.statements_left) }
{
    match turned(exit) {
        Some(exit) => Ok(Some(exit)),
        None => begin_anew(alloc, session, port, statement, body, around),
    }
}

/// A WHILE begins again, if a statement may begin.
fn begin_anew<P: Port>(
    alloc: Global,
    session: &mut SessionState,
    port: &mut P,
    statement: &Statement,
    body: &Statement,
    around: &Around<'_, '_>,
) -> Result<Option<Exit>, Memory>
    requires loops { IsWhile body.now (form_of statement.now) }
    requires ready { Ready session.old (P.past port.old) }
    ensures does { (levels : ℕ) → session.old.statements_left ≤ levels → Loops (P.past port.old) (P.past port.new) (mean_of levels statement.now around.now) statement.now body.now around.now session.old result session.new }
    ensures ready { Ready session.new (P.past port.new) }
    ensures left { session.new.statements_left ≤ session.old.statements_left }
    ensures fewer { IfOk result (λ exit. exit ≡ None → session.new.statements_left < session.old.statements_left) }
{
    if session.is_spent() {
        let exit = spend(alloc, session, port, statement, around)?;
        return Ok(Some(exit));
    }
    session.begin_statement();
    Ok(None)
}

/// How a loop is left behind a turn of it, if it is.
fn turned(exit: Exit) -> Option<Exit>
    ensures { result ≡ turned exit }
{
    match exit {
        Exit::On => None,
        Exit::Again => None,
        Exit::Leave => Some(Exit::On),
        exit => Some(exit),
    }
}
