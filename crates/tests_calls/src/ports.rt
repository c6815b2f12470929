//! A port over an engine of its own: that it tells, keys of two lengths, and a write that plans nothing.

ghost use Rattle.std.specs.Prelude.{◌≡◌, true};
ghost use Rattle.step_model.specs.Exchange.{MayAsk};
ghost use Rattle.engine_core.specs.Solo.{solo_past};

use dml_exec::{Written, apply_write};
use engine_core::SoloPort;
use lock_modes::KeyPart;
use std::alloc::Global;
use std::test::Fail;
use step_model::{Hold, Manner, Op, Patience, Port, Reply, Start, Stop};
use value_types::{Key, Memory, Row, TableName, Units, Value};

const MANNER: Manner = Manner {
    patience: Patience::Forever,
    priority: 0,
};

fn name(alloc: Global) -> TableName {
    TableName {
        object: Units::new(alloc),
        part: 0,
    }
}

fn key_of_one(alloc: Global, number: i64) -> Result<Key, Memory> {
    Ok(Key::new(vec![in alloc; Value::Whole(number)]?))
}

fn key_of_two(alloc: Global, first: i64, second: i64) -> Result<Key, Memory> {
    Ok(Key::new(vec![in alloc; Value::Whole(first), Value::Whole(second)]?))
}

/// The insertion of a row at a key of two values.
fn insertion(alloc: Global, first: i64, second: i64) -> Result<Op, Memory> {
    Ok(Op::Insert {
        table: name(alloc),
        key: key_of_two(alloc, first, second)?,
        row: Row::from(vec![in alloc; Value::Null]?),
    })
}

/// A fetch of the first key from this start to the last that begins with a number.
fn fetch(alloc: Global, start: Start, number: i64) -> Result<Op, Memory> {
    Ok(Op::Fetch {
        table: name(alloc),
        start,
        stop: Stop::Within(key_of_one(alloc, number)?),
        hold: Hold::Range,
        part: KeyPart::S,
    })
}

fn may_ask(port: &SoloPort, op: &Op) -> bool
    ensures { result ≡ true → MayAsk (solo_past port.now).standing op.now MANNER }
{
    let open = port.in_transaction();
    match op {
        Op::Begin => !open,
        Op::Fetch { part, .. } => open && matches!(part, KeyPart::S | KeyPart::U),
        Op::BackTo { .. } => false,
        _ => open,
    }
}

/// What an operation is answered that may come, in a letter.
fn ask(port: &mut SoloPort, op: &Op) -> char {
    if !may_ask(port, op) {
        return '?';
    }
    match &port.ask(op, MANNER) {
        Reply::Began => 'b',
        Reply::Done => 'd',
        Reply::Row { .. } => 'r',
        Reply::End { .. } => 'e',
        Reply::Ended { .. } => 'c',
        _ => '?',
    }
}

fn inserted(alloc: Global, port: &mut SoloPort, first: i64, second: i64) -> Result<char, Memory> {
    let op = insertion(alloc, first, second)?;
    Ok(ask(port, &op))
}

fn fetched_at(alloc: Global, port: &mut SoloPort, from: i64, to: i64) -> Result<char, Memory> {
    let op = fetch(alloc, Start::At(key_of_one(alloc, from)?), to)?;
    Ok(ask(port, &op))
}

fn fetched_past(alloc: Global, port: &mut SoloPort, from: i64, to: i64) -> Result<char, Memory> {
    let op = fetch(alloc, Start::Past(key_of_one(alloc, from)?), to)?;
    Ok(ask(port, &op))
}

/// The range of all keys that begin with 1 has those of two values that do.
fn answers(alloc: Global, port: &mut SoloPort) -> Result<String, Memory> {
    let mut letters = String::new(alloc);
    letters.push(ask(port, &Op::Begin))?;
    letters.push(inserted(alloc, port, 1, 5)?)?;
    letters.push(inserted(alloc, port, 2, 0)?)?;
    letters.push(fetched_at(alloc, port, 1, 1)?)?;
    letters.push(fetched_past(alloc, port, 1, 1)?)?;
    letters.push(fetched_past(alloc, port, 1, 2)?)?;
    letters.push(ask(port, &Op::Commit))?;
    Ok(letters)
}

#[test]
fn a_range_has_longer_keys_and_the_port_tells(rt: HostRuntime) -> Result<(), Fail> {
    let mut port = SoloPort::new(rt.alloc(), 1);
    assert!(rt; answers(rt.alloc(), &mut port)?.as_str() == "bddrerc");
    for _turn in 0..100u32 {
        assert!(rt; ask(&mut port, &Op::Begin) == 'b');
        assert!(rt; ask(&mut port, &Op::Commit) == 'c');
    }
    assert!(rt; port.tells());
    Ok(())
}

/// The mark of a write that plans nothing.
fn mark_of_nothing(alloc: Global) -> Option<u64> {
    let mut port = SoloPort::new(alloc, 1);
    if ask(&mut port, &Op::Begin) != 'b' || !port.in_transaction() {
        return None;
    }
    match apply_write(alloc, &[], &[], MANNER, &mut port) {
        Ok(Written::Done { mark }) => Some(mark),
        _ => None,
    }
}

#[test]
fn a_write_of_nothing_has_a_mark(rt: HostRuntime) {
    assert!(rt; mark_of_nothing(rt.alloc()) == Some(1));
}
