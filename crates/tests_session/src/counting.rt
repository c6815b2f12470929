//! A port whose tables have as many keys as it is told, without keeping one.

ghost use Rattle.std.specs.Prelude.{◌≡◌, true, None, IsTrue};
ghost use Rattle.lock_modes.specs.declared.KeyPart.{KeyPart};
ghost use Rattle.step_model.specs.Exchange.{CanReply};
ghost use Rattle.step_model.specs.Database.{is_within};
ghost use Rattle.step_model.specs.declared.op.Hold.{Hold};
ghost use Rattle.value_types.specs.declared.table_name.TableName.{TableName as Name};
ghost use Rattle.engine_core.specs.Solo.{solo_past};

use engine_core::SoloPort;
use std::alloc::Global;
use std::cmp::Ordering;
use step_model::{Manner, Op, Port, Reply, Start, Stop};
use value_types::{Key, TableName, Value, prefix_order};

/// A port over another one, but for fetches of the table `t`, which has the keys from 1 to a last one, at none of which a row is
/// visible.
#[derive(Drop)]
pub(crate) struct Counting {
    pub(crate) port: SoloPort,
    /// The last key.
    pub(crate) last: i64,
    pub(crate) alloc: Global,
}

impl Counting {
    /// What is at the first key of a range.
    fn first(&self, start: &Start, stop: &Stop) -> Reply
        ensures { (table : Name) (hold : Hold) (part : KeyPart) → CanReply (Op.Fetch table start.now stop.now hold part) result }
    {
        let number = next_number(start);
        if number > self.last {
            return Reply::End { at: 0 };
        }
        let Ok(values) = vec![in self.alloc; Value::Whole(number)] else {
            return Reply::Memory;
        };
        let key = Key::new(values);
        if is_within(start, stop, &key) {
            Reply::Gone { key, at: 0 }
        } else {
            Reply::End { at: 0 }
        }
    }
}

impl Port for Counting {
    ghost past = { λ counting. record {
      session = counting.port.session;
      standing = (solo_past counting.port).standing;
      sure = λ span t x. Unit {0};
      told = None;
      led_by = λ _. Unit {0};
    } };

    fn ask(&mut self, op: &Op, manner: Manner) -> Reply {
        match op {
            Op::Fetch {
                table,
                start,
                stop,
                ..
            } if is_counted(table) => self.first(start, stop),
            // No row is written, and so none is missing where one is sure.
            Op::Replace { .. } | Op::Erase { .. } => Reply::Memory,
            _ => self.port.ask(op, manner),
        }
    }
}

/// Whether it is the table `t`.
fn is_counted(table: &TableName) -> bool {
    table.object.as_slice() == [0x74].as_slice()
}

/// The number behind that where a range starts.
fn next_number(start: &Start) -> i64 {
    match start {
        Start::First => 1,
        Start::At(key) | Start::Past(key) => match key.as_slice() {
            [Value::Whole(number)] => number.saturating_add(1),
            _ => 1,
        },
    }
}

/// Whether the key is one of a range from the first key, or from behind another, on.
fn is_within(start: &Start, stop: &Stop, key: &Key) -> bool
    ensures { result ≡ true → IsTrue (is_within start.now stop.now key.now) }
{
    let starts = match start {
        Start::First => true,
        Start::Past(before) => prefix_order(key, before) == Ordering::Greater,
        Start::At(_) => false,
    };
    starts && matches!(stop, Stop::Last)
}
