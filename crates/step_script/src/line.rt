//! The lines of a script.

ghost use Rattle.std.specs.Prelude.{◌≡◌, map};
ghost use Rattle.step_script.specs.Lines.{Reads, line_in, line_of};
ghost use Rattle.step_script.specs.declared.line.LineFault.TheVariants.{Memory as NoMemory};

use crate::command::read_command;
use crate::number::read_session;
use crate::pieces::{SPACE, pieces_of};
use std::alloc::{AllocError, AllocFailed, Global};
use step_model::{Op, Patience};
use thiserror::Error;
use value_types::Memory;

/// One line of a script.
#[derive(Drop)]
pub enum Line {
    /// A session asks the engine an operation.
    Ask {
        /// The session, 1 to 64.
        session: u32,
        /// What it asks.
        op: Op,
    },
    /// From here on a session has this patience.
    Patience {
        /// The session, 1 to 64.
        session: u32,
        /// What it does where a lock stands in its way.
        patience: Patience,
    },
    /// From here on a session has this deadlock priority.
    Priority {
        /// The session, 1 to 64.
        session: u32,
        /// The priority, -10 to 10.
        priority: i8,
    },
}

/// Why a text gives no line.
#[derive(Clone, Copy, Debug, Error)]
pub enum LineFault {
    /// It spells none.
    #[error("the text is no line of a script")]
    Bad,
    /// Memory was wanting.
    #[error("memory was wanting")]
    Memory,
}

impl From<Memory> for LineFault {
    ghost from_gives = { λ _ fault. fault ≡ NoMemory };

    fn from(_e: Memory) -> LineFault {
        LineFault::Memory
    }
}

impl From<AllocError> for LineFault {
    ghost from_gives = { λ _ fault. fault ≡ NoMemory };

    fn from(_e: AllocError) -> LineFault {
        LineFault::Memory
    }
}

impl<T: Drop> From<AllocFailed<T>> for LineFault {
    ghost from_gives = { λ _ fault. fault ≡ NoMemory };

    fn from(_e: AllocFailed<T>) -> LineFault {
        LineFault::Memory
    }
}

/// The line that a text spells, without the byte that ends it.
#[tactic(auto, unfolding(crate::specs::Lines::line_in))]
pub fn read_line(alloc: Global, text: &[u8]) -> Result<Line, LineFault>
    ensures { Reads result (line_in text.now) }
{
    let words = pieces_of(alloc, text, SPACE)?;
    line_of(alloc, words.as_slice())
}

/// The line that words spell.
#[tactic(auto, unfolding(crate::specs::Lines::line_of))]
fn line_of(alloc: Global, words: &[&[u8]]) -> Result<Line, LineFault>
    ensures { Reads result (line_of (map (λ word. word.now) words.now)) }
{
    let Some((session, command)) = words.split_first() else {
        return Err(LineFault::Bad);
    };
    read_command(alloc, read_session(session)?, command)
}
