//! The lines of a script, answered one after another.

ghost use Rattle.std.specs.Prelude.{◌≡◌, ◌≤◌, ◌++◌, List, ℕ, IsTrue, false, slice_set, length, OnErr, OnOk, IfOk};
ghost use Rattle.step_model.specs.Exchange.{IsPartOfFetch, MayCome};
ghost use Rattle.step_model.specs.Runs.{MayStep, standing_of};
ghost use Rattle.step_script.specs.Lines.{line_in};
ghost use Rattle.step_script.specs.Pieces.{pieces};
ghost use Rattle.steps_command.specs.Play.{Answers, Asks, Plays, bad_line, first_manners, manner_of};
ghost use Rattle.steps_command.specs.Script.{last_lines, lines_of, newline, script_limit, script_lines};
ghost use Rattle.steps_command.specs.Played.{Played};

use crate::engine::ScriptEngine;
use lock_modes::KeyPart;
use std::alloc::Global;
use step_model::{LAST_SESSION, Manner, Op, Patience, Reply};
use step_script::{Line, LineFault, cut, print_reply, print_text, read_line};
use thiserror::Error;
use value_types::Memory;

/// The most bytes of a script.
pub(crate) const SCRIPT_LIMIT: usize = 1_048_576;

/// What ends a line.
const NEWLINE: u8 = 0x0A;

/// How a session asks before it says otherwise.
const FIRST_MANNER: Manner = Manner {
    patience: Patience::Forever,
    priority: 0,
};

/// How many manners a script keeps: one for each session, and one for session 0, which is none.
const MANNERS: usize = 65;

/// Why a script's answers stop.
#[derive(Clone, Copy, Debug, PartialEq, Eq, Error)]
pub enum Stop {
    /// A line is none.
    #[error("a line of the script is none")]
    BadLine,
    /// Memory was wanting.
    #[error("memory was wanting")]
    Memory,
}

impl From<Memory> for Stop {
    ghost use Rattle.steps_command.specs.declared.play.Stop.TheVariants.{Memory as NoMemory};

    ghost from_gives = { λ _ stop. stop ≡ NoMemory };

    fn from(_e: Memory) -> Stop {
        Stop::Memory
    }
}

/// Answers the lines of a script over an engine, and appends what they print, up to where it stops.
#[tactic(auto, unfolding(crate::specs::Script::script_lines))]
pub fn play_script<E: ScriptEngine>(
    alloc: Global,
    engine: &mut E,
    input: &[u8],
    out: &mut Vec<u8>,
) -> Result<(), Stop>
    ensures { (printed : List ℕ) × (out.new.items ≡ out.old.items ++ printed)
        × Plays (record { engine = E.state engine.old; manners = first_manners }) 1 (script_lines input.now) printed result }
{
    let text = &input[..SCRIPT_LIMIT.min(input.len())];
    play_lines(alloc, engine, text, input.len() > SCRIPT_LIMIT, out)
}

/// Answers the lines of a text that is within the limit; the script passes it behind or not.
fn play_lines<E: ScriptEngine>(
    alloc: Global,
    engine: &mut E,
    text: &[u8],
    passes: bool,
    out: &mut Vec<u8>,
) -> Result<(), Stop>
    requires within { length text.now ≤ script_limit }
    ensures { (printed : List ℕ) × (out.new.items ≡ out.old.items ++ printed)
        × Plays (record { engine = E.state engine.old; manners = first_manners }) 1 (lines_of passes (pieces newline text.now)) printed result }
{
    let mut manners = [FIRST_MANNER; MANNERS];
    let mut left = text;
    let mut number: u64 = 1;
    loop {
        let (line, behind) = cut(left, NEWLINE);
        let Some(behind) = behind else {
            return play_last(alloc, engine, &mut manners, line, passes, number, out);
        };
        play_line(alloc, engine, &mut manners, line, number, out)?;
        left = behind;
        number += 1;
    }
}

/// Answers what stands behind the last byte that ends a line.
fn play_last<E: ScriptEngine>(
    alloc: Global,
    engine: &mut E,
    manners: &mut [Manner; MANNERS],
    text: &[u8],
    passes: bool,
    number: u64,
    out: &mut Vec<u8>,
) -> Result<(), Stop>
    ensures { (printed : List ℕ) × (out.new.items ≡ out.old.items ++ printed)
        × Plays (record { engine = E.state engine.old; manners = manners.old }) number (last_lines passes text.now) printed result }
{
    if passes {
        print_bad(alloc, number, out)?;
        Err(Stop::BadLine)
    } else if text.is_empty() {
        Ok(())
    } else {
        play_line(alloc, engine, manners, text, number, out)
    }
}

/// Answers one line.
fn play_line<E: ScriptEngine>(
    alloc: Global,
    engine: &mut E,
    manners: &mut [Manner; MANNERS],
    text: &[u8],
    number: u64,
    out: &mut Vec<u8>,
) -> Result<(), Stop>
    ensures { (printed : List ℕ) × (out.new.items ≡ out.old.items ++ printed)
        × Played (record { engine = E.state engine.old; manners = manners.old }) number (line_in text.now) printed (record { engine = E.state engine.new; manners = manners.new }) result }
{
    match read_line(alloc, text) {
        Ok(line) => Ok(answer(alloc, engine, manners, &line, out)?),
        Err(LineFault::Bad) => {
            print_bad(alloc, number, out)?;
            Err(Stop::BadLine)
        }
        Err(LineFault::Memory) => Err(Stop::Memory),
    }
}

/// Appends that the line of this number is none.
fn print_bad(alloc: Global, number: u64, out: &mut Vec<u8>) -> Result<(), Memory>
    ensures printed { IfOk result (λ _. out.new.items ≡ out.old.items ++ bad_line number) }
    ensures unchanged { OnErr result (out.new.items ≡ out.old.items) }
{
    let line = format!(in alloc; "bad line {number}\n")?;
    out.extend_from_slice(line.as_bytes())?;
    Ok(())
}

/// Does what a line says, and appends what it prints.
fn answer<E: ScriptEngine>(
    alloc: Global,
    engine: &mut E,
    manners: &mut [Manner; MANNERS],
    line: &Line,
    out: &mut Vec<u8>,
) -> Result<(), Memory>
    ensures printed { OnOk result ((said : List ℕ) × (out.new.items ≡ out.old.items ++ said)
        × Answers (record { engine = E.state engine.old; manners = manners.old }) line.now said (record { engine = E.state engine.new; manners = manners.new })) }
    ensures unchanged { OnErr result (out.new.items ≡ out.old.items) }
{
    match line {
        Line::Ask { session, op } => {
            let manner = manner_of(manners, *session);
            ask(alloc, engine, manner, *session, op, out)
        }
        Line::Patience { session, patience } => {
            let Manner { priority, .. } = manner_of(manners, *session);
            let manner = Manner {
                patience: *patience,
                priority,
            };
            set_manner(manners, *session, manner);
            print_text(alloc, *session, "done", out)
        }
        Line::Priority { session, priority } => {
            let Manner { patience, .. } = manner_of(manners, *session);
            let manner = Manner {
                patience,
                priority: *priority,
            };
            set_manner(manners, *session, manner);
            print_text(alloc, *session, "done", out)
        }
    }
}

/// Asks an operation where it may be asked, and appends what is printed.
fn ask<E: ScriptEngine>(
    alloc: Global,
    engine: &mut E,
    manner: Manner,
    session: u32,
    op: &Op,
    out: &mut Vec<u8>,
) -> Result<(), Memory>
    ensures printed { OnOk result ((said : List ℕ) × (out.new.items ≡ out.old.items ++ said)
        × Asks (E.state engine.old) session op.now manner said (E.state engine.new)) }
    ensures unchanged { OnErr result (out.new.items ≡ out.old.items) }
{
    if !may_step(engine, session, op, manner) {
        return print_text(alloc, session, "not now", out);
    }
    match engine.attempt(session, op, manner) {
        Reply::Memory => Err(Memory),
        reply => print_reply(alloc, session, &reply, out),
    }
}

/// The manner in which a session asks.
fn manner_of(manners: &[Manner; MANNERS], session: u32) -> Manner
    ensures { result ≡ manner_of session manners.now }
{
    manners
        .get(session as usize)
        .copied()
        .unwrap_or(FIRST_MANNER)
}

/// Lets a session ask in this manner from here on.
fn set_manner(manners: &mut [Manner; MANNERS], session: u32, manner: Manner)
    ensures { manners.new ≡ slice_set manners.old session manner }
{
    let place = session as usize;
    if place < MANNERS {
        manners[place] = manner;
    }
}

/// Whether a session may ask an operation in a manner.
fn may_step<E: ScriptEngine>(engine: &E, session: u32, op: &Op, manner: Manner) -> bool
    ensures may { IsTrue result → MayStep (E.state engine.now) session op.now manner }
    ensures may_not { result ≡ false → MayStep (E.state engine.now) session op.now manner → ⊥ }
{
    1 <= session
        && session <= LAST_SESSION
        && -10 <= manner.priority
        && manner.priority <= 10
        && may_come(engine, session, op)
}

/// Whether an operation may come where a session stands.
fn may_come<E: ScriptEngine>(engine: &E, session: u32, op: &Op) -> bool
    ensures may { IsTrue result → MayCome (standing_of session (E.state engine.now)) op.now }
    ensures may_not { result ≡ false → MayCome (standing_of session (E.state engine.now)) op.now → ⊥ }
{
    let is_open = engine.in_transaction(session);
    match op {
        Op::Begin => !is_open,
        Op::Fetch { part, .. } => is_open && is_part_of_fetch(*part),
        Op::Insert { .. } => is_open,
        Op::Replace { .. } => is_open,
        Op::Erase { .. } => is_open,
        Op::Mark => is_open,
        Op::BackTo { mark } => is_open && engine.is_mark(session, *mark),
        Op::Relax => is_open,
        Op::Commit => is_open,
        Op::Rollback => is_open,
    }
}

/// Whether a fetch may ask for this part of the lock.
fn is_part_of_fetch(part: KeyPart) -> bool
    ensures may { IsTrue result → IsPartOfFetch part }
    ensures may_not { result ≡ false → IsPartOfFetch part → ⊥ }
{
    match part {
        KeyPart::S => true,
        KeyPart::U => true,
        KeyPart::N => false,
        KeyPart::X => false,
    }
}
