//! A conversation about a step held, and what it left looked at.

ghost use Rattle.std.specs.Prelude.{◌≡◌, true, false};
ghost use Rattle.step_model.specs.Exchange.{MayAsk};
ghost use Rattle.engine_core.specs.Solo.{solo_open, solo_past};

use crate::judging::{Left, Outcome, Step, outcome_of, step_count, step_numbered};
use crate::replies::{put_batch, told_of};
use engine_core::SoloPort;
use outside_io::{Joined, MemorySink, MemorySource};
use session_server::{End, serve_on_port};
use std::alloc::Global;
use step_model::{Manner, Op, Patience, Port, Reply};
use tds_login::{Config, Entry};
use value_types::{Memory, Units};

/// The queries that show the tables.
const LOOK: &str = "SELECT * FROM orders; SELECT * FROM items";

/// The manner of a session that has said nothing of it.
const MANNER: Manner = Manner {
    patience: Patience::Forever,
    priority: 0,
};

/// Holds the conversations about all steps, each over an empty database of its own, and says what came of the first of which
/// something else came than everything.
pub(crate) fn hold_all(alloc: Global) -> Outcome {
    for place in 0..step_count() {
        let outcome = hold(alloc, place.saturating_add(1));
        if outcome != Outcome::Whole {
            return outcome;
        }
    }
    Outcome::Whole
}

/// Holds the conversation about the step of a number, and says what came of it.
pub(crate) fn hold(alloc: Global, number: u32) -> Outcome {
    let Some(step) = step_numbered(number) else {
        return Outcome::Wrong;
    };
    let Ok((input, look)) = inputs_of(alloc, &step) else {
        return Outcome::Before;
    };
    match hold_with(alloc, &step, input, look) {
        Ok(outcome) => outcome,
        Err(_) => Outcome::Unseen,
    }
}

/// The input of the conversation, and that of the connection behind it.
fn inputs_of(alloc: Global, step: &Step<'_>) -> Result<(Vec<u8>, Vec<u8>), Memory> {
    let mut look = Vec::new(alloc);
    put_batch(&mut look, LOOK)?;
    Ok((input_of(alloc, step)?, look))
}

/// The batches of the conversation: the steps that the step comes behind, if there are any, as one; the step; and a look at the
/// tables.
fn input_of(alloc: Global, step: &Step<'_>) -> Result<Vec<u8>, Memory> {
    let mut input = Vec::new(alloc);
    let before = text_before(alloc, step)?;
    if !before.is_empty() {
        put_batch(&mut input, &before)?;
    }
    put_batch(&mut input, step.text)?;
    put_batch(&mut input, LOOK)?;
    Ok(input)
}

/// The text of the steps that a step comes behind.
fn text_before(alloc: Global, step: &Step<'_>) -> Result<String, Memory> {
    let mut text = String::new(alloc);
    for word in step.behind.split('.') {
        if let Some(other) = step_numbered(word.parse().unwrap_or(0)) {
            if !text.is_empty() {
                text.push_str("; ")?;
            }
            text.push_str(other.text)?;
        }
    }
    Ok(text)
}

/// Holds it over an empty database, and looks at what it left by a second connection.
fn hold_with(
    alloc: Global,
    step: &Step<'_>,
    input: Vec<u8>,
    look: Vec<u8>,
) -> Result<Outcome, Memory> {
    let mut port = SoloPort::new(alloc, 1);
    let (end, written) = serve(alloc, &mut port, input);
    let is_open = port.in_transaction();
    let (_, shown) = serve(alloc, &mut port, look);
    if is_open || port.in_transaction() {
        return Ok(Outcome::Wrong);
    }
    let log = log_of(&mut port);
    let replies = told_of(alloc, &written)?;
    let shown = told_of(alloc, &shown)?;
    let left = Left {
        log,
        shown: match shown.as_slice() {
            [shown] => shown,
            _ => "",
        },
    };
    Ok(outcome_of(step, &replies, end == End::Memory, left))
}

/// The end of a bare connection of session 1 with this input, and what it wrote.
fn serve(alloc: Global, port: &mut SoloPort, input: Vec<u8>) -> (End, Vec<u8>)
    requires session { port.old.session ≡ 1 }
    requires idle { solo_open port.old ≡ false }
    ensures session { port.new.session ≡ 1 }
    ensures idle { solo_open port.new ≡ false }
{
    let config = Config {
        user: Units::new(alloc),
        password: Units::new(alloc),
        entry: Entry::Bare,
        drivers: false,
    };
    let mut line = Joined {
        source: MemorySource::new(input, 4096, Vec::new(alloc)),
        sink: MemorySink::new(alloc, 4096, Vec::new(alloc)),
    };
    let end = serve_on_port(alloc, 1, port, &config, &mut line);
    (end, line.sink.into_bytes())
}

/// How many commits the log has, if there is memory for a transaction that asks nothing.
fn log_of(port: &mut SoloPort) -> Option<u64> {
    let _began = ask(port, &Op::Begin)?;
    match ask(port, &Op::Rollback)? {
        Reply::Ended { place } => Some(place),
        _ => None,
    }
}

/// Asks the beginning or the end of a transaction where it may come.
fn ask(port: &mut SoloPort, op: &Op) -> Option<Reply> {
    if may_ask(port, op) {
        Some(port.ask(op, MANNER))
    } else {
        None
    }
}

fn may_ask(port: &SoloPort, op: &Op) -> bool
    ensures { result ≡ true → MayAsk (solo_past port.now).standing op.now MANNER }
{
    match op {
        Op::Begin => !port.in_transaction(),
        Op::Rollback => port.in_transaction(),
        _ => false,
    }
}
