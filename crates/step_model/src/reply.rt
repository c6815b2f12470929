//! What the engine answers.

ghost use Rattle.std.specs.Prelude.{◌≡◌, IfOk};

use crate::edge::Cycle;
use crate::resource::Resource;
use lock_modes::Pair;
use std::alloc::Global;
use value_types::{Key, Memory as NoMemory, Row};

/// The answer to an operation.
#[derive(Drop)]
pub enum Reply {
    /// A transaction has begun.
    Began,
    /// The row at the first key of the range.
    Row {
        /// The key.
        key: Key,
        /// Its row.
        row: Row,
        /// How many commits the log had.
        at: u64,
    },
    /// A key of the range before which there is no row, and at which there is none either.
    Gone {
        /// The key.
        key: Key,
        /// How many commits the log had.
        at: u64,
    },
    /// No key of the range has an entry.
    End {
        /// How many commits the log had.
        at: u64,
    },
    /// It is done.
    Done,
    /// There is a row at that key.
    Exists,
    /// There is no row at that key.
    Missing,
    /// A mark, counted from 1 in its transaction.
    Marked(u64),
    /// The transaction has ended.
    Ended {
        /// How many commits the log had before.
        place: u64,
    },
    /// A lock of another session stands in the way, and the operation is to be asked again later.
    Wait {
        /// The lowest session of which one stands in the way.
        holder: u32,
    },
    /// A lock of another session stands in the way of one that does not wait. Nothing has changed but that a wait
    /// of before has ended.
    TimedOut {
        /// The lowest session of which one stands in the way.
        holder: u32,
        /// What that has locked there.
        held: Pair,
        /// What was to be locked.
        asked: Pair,
        /// Where.
        on: Resource,
    },
    /// The session was the victim of a cycle of sessions that wait for one another, and waits no more.
    Victim {
        /// The cycle.
        cycle: Cycle,
    },
    /// Memory was wanting, and nothing has changed but that the session waits no more.
    Memory,
}

impl Reply {
    /// The same reply.
    pub fn copy(&self, alloc: Global) -> Result<Reply, NoMemory>
        ensures { IfOk result (λ copy. copy ≡ self.now) }
    {
        Ok(match self {
            Reply::Began => Reply::Began,
            Reply::Row { key, row, at } => Reply::Row {
                key: key.copy(alloc)?,
                row: row.copy(alloc)?,
                at: *at,
            },
            Reply::Gone { key, at } => Reply::Gone {
                key: key.copy(alloc)?,
                at: *at,
            },
            Reply::End { at } => Reply::End { at: *at },
            Reply::Done => Reply::Done,
            Reply::Exists => Reply::Exists,
            Reply::Missing => Reply::Missing,
            Reply::Marked(mark) => Reply::Marked(*mark),
            Reply::Ended { place } => Reply::Ended { place: *place },
            Reply::Wait { holder } => Reply::Wait { holder: *holder },
            Reply::TimedOut {
                holder,
                held,
                asked,
                on,
            } => Reply::TimedOut {
                holder: *holder,
                held: *held,
                asked: *asked,
                on: on.copy(alloc)?,
            },
            Reply::Victim { cycle } => Reply::Victim {
                cycle: cycle.copy(alloc)?,
            },
            Reply::Memory => Reply::Memory,
        })
    }
}
