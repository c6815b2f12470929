//! A port that keeps what it was asked, and answers one operation otherwise.

ghost use Rattle.std.specs.Prelude.{◌≡◌, true, None, IfSome};
ghost use Rattle.lock_modes.specs.declared.KeyPart.{KeyPart};
ghost use Rattle.step_model.specs.Exchange.{AsksLock, CanReply, MayLackMemory};
ghost use Rattle.step_model.specs.declared.op.Hold.{Hold};
ghost use Rattle.step_model.specs.declared.range.Start.{Start as From};
ghost use Rattle.step_model.specs.declared.range.Stop.{Stop as To};
ghost use Rattle.value_types.specs.declared.table_name.TableName.{TableName as Name};
ghost use Rattle.engine_core.specs.Solo.{solo_past};

use engine_core::SoloPort;
use lock_modes::Pair;
use std::alloc::{AllocError, Global};
use step_model::{Cycle, Hold, Manner, Op, Place, Port, Reply, Resource, Start};
use value_types::{Row, TableName};

/// How a port answers an operation.
#[derive(Clone, Copy)]
pub(crate) enum Answer {
    /// As the engine does.
    Plain,
    /// Memory is wanting.
    Memory,
    /// A lock of another session stands in the way of one that does not wait.
    Lock,
    /// The session fell as a victim.
    Fall,
    /// At the key that is fetched no row is visible.
    Gone,
    /// At the key that is fetched stands a row of no value.
    Unfit,
}

/// A port over another one. It has a line for each operation that it was asked.
#[derive(Drop)]
pub(crate) struct Watched {
    pub(crate) port: SoloPort,
    /// The operations asked, a line each.
    pub(crate) asked: String,
    /// How many they are.
    pub(crate) count: u32,
    /// Which of these, counted from 1, is answered otherwise, where it may be.
    pub(crate) number: u32,
    /// How.
    pub(crate) answer: Answer,
    pub(crate) alloc: Global,
}

impl Port for Watched {
    ghost past = { λ watched. record {
      session = watched.port.session;
      standing = (solo_past watched.port).standing;
      sure = λ span t x. Unit {0};
      told = None;
      led_by = λ _. Unit {0};
    } };

    fn ask(&mut self, op: &Op, manner: Manner) -> Reply {
        // A line for which there is no memory is missed by whoever compares them.
        let _ = put_op(&mut self.asked, op);
        self.count = self.count.saturating_add(1);
        let answer = if self.count == self.number {
            self.answer
        } else {
            Answer::Plain
        };
        match answer {
            Answer::Memory => {
                if may_lack_memory(op) {
                    return Reply::Memory;
                }
            }
            Answer::Lock => {
                if let Some(on) = locked_end(self.alloc, op) {
                    return Reply::TimedOut {
                        holder: 2,
                        held: Pair::EXCLUSIVE,
                        asked: Pair::EXCLUSIVE,
                        on,
                    };
                }
            }
            Answer::Fall => {
                if locked_table(op).is_some() {
                    return Reply::Victim {
                        cycle: Cycle::from(Vec::new(self.alloc)),
                    };
                }
            }
            Answer::Plain | Answer::Gone | Answer::Unfit => {}
        }
        // No row is written, and so none is missing where one is sure.
        if matches!(op, Op::Replace { .. } | Op::Erase { .. }) {
            return Reply::Memory;
        }
        let reply = self.port.ask(op, manner);
        match op {
            Op::Fetch { .. } => shown(self.alloc, answer, reply),
            _ => reply,
        }
    }
}

/// A fetch's reply, with what stands at its key in the place of a row.
fn shown(alloc: Global, answer: Answer, reply: Reply) -> Reply
    ensures { (table : Name) (start : From) (stop : To) (hold : Hold) (part : KeyPart)
        → CanReply (Op.Fetch table start stop hold part) reply → CanReply (Op.Fetch table start stop hold part) result }
{
    match reply {
        Reply::Row { key, row, at } => match answer {
            Answer::Gone => Reply::Gone { key, at },
            Answer::Unfit => Reply::Row {
                key,
                row: Row::from(Vec::new(alloc)),
                at,
            },
            _ => Reply::Row { key, row, at },
        },
        other => other,
    }
}

/// The end of the table in which an operation asks for a lock, if it does and there is memory to say it.
fn locked_end(alloc: Global, op: &Op) -> Option<Resource>
    ensures { IfSome result (λ _. AsksLock op.now) }
{
    Some(Resource {
        table: locked_table(op)?.copy(alloc).ok()?,
        place: Place::End,
    })
}

/// The table in which an operation asks for a lock, if it does.
fn locked_table(op: &Op) -> Option<&TableName>
    ensures { IfSome result (λ _. AsksLock op.now) }
{
    match op {
        Op::Fetch { table, .. } => Some(table),
        Op::Insert { table, .. } => Some(table),
        Op::Replace { table, .. } => Some(table),
        Op::Erase { table, .. } => Some(table),
        _ => None,
    }
}

fn may_lack_memory(op: &Op) -> bool
    ensures { result ≡ true → MayLackMemory op.now }
{
    match op {
        Op::BackTo { .. } | Op::Relax | Op::Commit | Op::Rollback => false,
        _ => true,
    }
}

/// Appends an operation: its name, its table and, of a fetch, where it starts and what it holds.
fn put_op(line: &mut String, op: &Op) -> Result<(), AllocError> {
    match op {
        Op::Begin => line.push_str("Begin\n"),
        Op::Fetch {
            table,
            start,
            hold,
            ..
        } => {
            put_named(line, "Fetch ", table)?;
            line.push_str(start_of(start))?;
            line.push_str(match hold {
                Hold::Row => " Row\n",
                Hold::Range => " Range\n",
            })
        }
        Op::Insert { table, .. } => put_write(line, "Insert ", table),
        Op::Replace { table, .. } => put_write(line, "Replace ", table),
        Op::Erase { table, .. } => put_write(line, "Erase ", table),
        Op::BackTo { .. } => line.push_str("BackTo\n"),
        Op::Mark => line.push_str("Mark\n"),
        Op::Relax => line.push_str("Relax\n"),
        Op::Commit => line.push_str("Commit\n"),
        Op::Rollback => line.push_str("Rollback\n"),
    }
}

fn start_of(start: &Start) -> &'static str {
    match start {
        Start::First => " First",
        Start::At(_) => " At",
        Start::Past(_) => " Past",
    }
}

fn put_write(line: &mut String, name: &str, table: &TableName) -> Result<(), AllocError> {
    put_named(line, name, table)?;
    line.push_str("\n")
}

/// Appends a name, that of a table, and the number of an index part. What is no character is a question mark.
fn put_named(line: &mut String, name: &str, table: &TableName) -> Result<(), AllocError> {
    line.push_str(name)?;
    for unit in table.object.as_slice() {
        line.push(char::from_u32(u32::from(*unit)).unwrap_or('?'))?;
    }
    line.push_str(part_of(table.part))
}

/// How a part is told: not at all, where it has the table's own rows.
fn part_of(part: u16) -> &'static str {
    match part {
        0 => "",
        1 => ".1",
        2 => ".2",
        _ => ".more",
    }
}
