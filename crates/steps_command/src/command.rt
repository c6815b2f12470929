//! The command.

ghost use Rattle.std.specs.Prelude.{◌≡◌, ◌≢◌, ◌≤◌, List, ℕ};
ghost use Rattle.outside_io.specs.Bytes.{HasRisen, Takes};
ghost use Rattle.steps_command.specs.Command.{EndsWell, Steps, no_memory, read_fault, status_of, write_fault};
ghost use Rattle.steps_command.specs.Play.{first_manners};

use crate::engine::ScriptEngine;
use crate::play::{Stop, play_script};
use crate::reading::{Unread, read_script};
use crate::writing::write_whole;
use outside_io::{Sink, SinkFault, Source};
use std::alloc::Global;

/// The status where reading failed.
const READ_FAULT: u8 = 3;

/// The status where writing failed.
const WRITE_FAULT: u8 = 4;

/// The status where memory was wanting.
const NO_MEMORY: u8 = 6;

/// Reads a script whole, answers its lines over an engine, and writes what they print.
///
/// The status is 0 where every line was answered, 3 where reading failed, 4 where writing failed, 5 where a
/// line is none or the script passes its limit, and 6 where memory was wanting.
pub fn run_steps<S: Source, K: Sink, E: ScriptEngine>(
    alloc: Global,
    engine: &mut E,
    input: &mut S,
    output: &mut K,
) -> u8
    ensures steps { (taken : List ℕ) × Takes S.left S.given input.old input.new taken
        × Steps (record { engine = E.state engine.old; manners = first_manners }) taken (S.left input.new) (K.written output.old) (K.written output.new) result }

    // Which faults there were.
    ensures fails_reading { result ≡ read_fault → HasRisen (S.faults input.old) (S.faults input.new) }
    ensures reads { result ≢ read_fault → S.faults input.new ≡ S.faults input.old }
    ensures counted_reading { S.faults input.old ≤ S.faults input.new }
    ensures fails_writing { result ≡ write_fault → HasRisen (K.faults output.old) (K.faults output.new) }
    ensures writes { result ≢ write_fault → K.faults output.new ≡ K.faults output.old }
    ensures counted_writing { K.faults output.old ≤ K.faults output.new }

    // Where nothing fails, memory is not wanting, and the lines are some, all of them are answered.
    ensures complete { result ≢ read_fault → result ≢ write_fault → EndsWell (S.left input.old) result }
{
    let script = match read_script(alloc, input) {
        Ok(script) => script,
        Err(Unread::ReadFault) => return READ_FAULT,
        Err(Unread::Memory) => return NO_MEMORY,
    };
    let mut printed = Vec::new(alloc);
    let end = play_script(alloc, engine, script.as_slice(), &mut printed);
    match write_whole(output, printed.as_slice()) {
        Ok(()) => status_of(end),
        Err(SinkFault::Failed) => WRITE_FAULT,
        Err(SinkFault::Memory) => NO_MEMORY,
    }
}

/// The status at the end of a script's answers.
fn status_of(end: Result<(), Stop>) -> u8
    ensures { result ≡ status_of end }
{
    match end {
        Ok(()) => 0,
        Err(Stop::BadLine) => 5,
        Err(Stop::Memory) => NO_MEMORY,
    }
}
