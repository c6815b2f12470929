//! What a session asks of the engine.

ghost use Rattle.std.specs.Prelude.{◌≡◌, IfOk};

use crate::range::{Start, Stop};
use lock_modes::KeyPart;
use std::alloc::Global;
use value_types::{Key, Memory, Row, TableName, beside};

/// What a fetch locks, and for how long.
#[derive(Clone, Copy, Debug, PartialEq, Eq)]
pub enum Hold {
    /// The row alone, and to the statement's end only where the part is U.
    Row,
    /// The row and the range before it, for the transaction; where no key is found, the place behind the range.
    Range,
}

/// One operation of a transaction.
#[derive(Drop)]
pub enum Op {
    /// Begins a transaction.
    Begin,
    /// Looks for the first key of the range that the engine keeps; a row may stand there or not.
    Fetch {
        /// The table.
        table: TableName,
        /// Where the search starts.
        start: Start,
        /// Where the search ends.
        stop: Stop,
        /// What is locked.
        hold: Hold,
        /// The part of the lock on the row: S or U.
        part: KeyPart,
    },
    /// Sets a row at a key that has none.
    Insert {
        /// The table.
        table: TableName,
        /// The row's key.
        key: Key,
        /// The row.
        row: Row,
    },
    /// Sets a row at a key that has one, in its place.
    Replace {
        /// The table.
        table: TableName,
        /// The row's key.
        key: Key,
        /// The row.
        row: Row,
    },
    /// Removes the row at a key.
    Erase {
        /// The table.
        table: TableName,
        /// The row's key.
        key: Key,
    },
    /// Makes a mark to which the transaction can be taken back.
    Mark,
    /// Takes the transaction's changes back to what they were at a mark.
    BackTo {
        /// The mark, which is a live one of the transaction.
        mark: u64,
    },
    /// Ends the locks of a statement.
    Relax,
    /// Ends the transaction and keeps its changes.
    Commit,
    /// Ends the transaction and forgets its changes.
    Rollback,
}

impl Op {
    /// The same operation.
    pub fn copy(&self, alloc: Global) -> Result<Op, Memory>
        ensures { IfOk result (λ copy. copy ≡ self.now) }
    {
        Ok(match self {
            Op::Begin => Op::Begin,
            Op::Fetch {
                table,
                start,
                stop,
                hold,
                part,
            } => {
                let (table, start) = beside(table.copy(alloc)?, start.copy(alloc))?;
                let ((table, start), stop) = beside((table, start), stop.copy(alloc))?;
                Op::Fetch {
                    table,
                    start,
                    stop,
                    hold: *hold,
                    part: *part,
                }
            }
            Op::Insert { table, key, row } => {
                let (table, key) = beside(table.copy(alloc)?, key.copy(alloc))?;
                let ((table, key), row) = beside((table, key), row.copy(alloc))?;
                Op::Insert { table, key, row }
            }
            Op::Replace { table, key, row } => {
                let (table, key) = beside(table.copy(alloc)?, key.copy(alloc))?;
                let ((table, key), row) = beside((table, key), row.copy(alloc))?;
                Op::Replace { table, key, row }
            }
            Op::Erase { table, key } => {
                let (table, key) = beside(table.copy(alloc)?, key.copy(alloc))?;
                Op::Erase { table, key }
            }
            Op::Mark => Op::Mark,
            Op::BackTo { mark } => Op::BackTo { mark: *mark },
            Op::Relax => Op::Relax,
            Op::Commit => Op::Commit,
            Op::Rollback => Op::Rollback,
        })
    }
}
