//! What the words of a command say.

ghost use Rattle.std.specs.Prelude.{◌≡◌, codes, IfOk, IfSome, IsTrue};
ghost use Rattle.std.specs.List.{list_all};
ghost use Rattle.step_script.specs.Lines.{Reads, hold_in, is_letter, key_in, key_of, part_in, patience_in, row_of, start_in, stop_in, table_in};

use crate::line::LineFault;
use crate::number::read_long;
use lock_modes::KeyPart;
use std::alloc::Global;
use step_model::{Hold, Patience, Start, Stop};
use value_types::{Key, Memory, Row, TableName, Units, Value};

/// The table that a word names.
#[tactic(auto, unfolding(crate::specs::Lines::table_in))]
pub(crate) fn read_table(alloc: Global, word: &[u8]) -> Result<TableName, LineFault>
    ensures { Reads result (table_in word.now) }
{
    if 1 <= word.len() && word.len() <= 8 && is_letters(word) {
        Ok(TableName {
            object: Units::of_ascii(alloc, word)?,
            part: 0,
        })
    } else {
        Err(LineFault::Bad)
    }
}

/// Whether it is small letters alone.
fn is_letters(word: &[u8]) -> bool
    ensures { result ≡ list_all is_letter word.now }
{
    word.iter().all(|byte| is_letter(*byte))
}

/// a to z.
fn is_letter(byte: u8) -> bool
    ensures { result ≡ is_letter byte }
{
    byte.is_ascii_lowercase()
}

/// The key that is a number.
pub(crate) fn key_of(alloc: Global, key: i64) -> Result<Key, Memory>
    ensures { IfOk result (λ made. made ≡ key_of key) }
{
    let mut values = Vec::new(alloc);
    values.push(Value::Whole(key))?;
    Ok(Key::new(values))
}

/// The row of a key and a number.
pub(crate) fn row_of(alloc: Global, key: i64, value: i64) -> Result<Row, Memory>
    ensures { IfOk result (λ made. made ≡ row_of key value) }
{
    let mut values = Vec::new(alloc);
    values.push(Value::Whole(key))?;
    values.push(Value::Whole(value))?;
    Ok(Row::from(values))
}

/// The key that a word spells.
#[tactic(auto, unfolding(crate::specs::Lines::key_in))]
pub(crate) fn read_key(alloc: Global, word: &[u8]) -> Result<Key, LineFault>
    ensures { Reads result (key_in word.now) }
{
    Ok(key_of(alloc, read_long(word)?)?)
}

/// Where a fetch starts.
#[tactic(auto, unfolding(crate::specs::Lines::start_in))]
pub(crate) fn read_start(alloc: Global, word: &[u8]) -> Result<Start, LineFault>
    ensures { Reads result (start_in word.now) }
{
    if word == b"first".as_slice() {
        Ok(Start::First)
    } else if let Some(key) = word.strip_prefix(b"at:") {
        Ok(Start::At(read_key(alloc, key)?))
    } else if let Some(key) = word.strip_prefix(b"past:") {
        Ok(Start::Past(read_key(alloc, key)?))
    } else {
        Err(LineFault::Bad)
    }
}

/// Where a fetch stops.
#[tactic(auto, unfolding(crate::specs::Lines::stop_in))]
pub(crate) fn read_stop(alloc: Global, word: &[u8]) -> Result<Stop, LineFault>
    ensures { Reads result (stop_in word.now) }
{
    if word == b"last".as_slice() {
        Ok(Stop::Last)
    } else if let Some(key) = word.strip_prefix(b"to:") {
        Ok(Stop::Within(read_key(alloc, key)?))
    } else {
        Err(LineFault::Bad)
    }
}

/// What a fetch locks.
#[tactic(auto, unfolding(crate::specs::Lines::hold_in))]
pub(crate) fn read_hold(word: &[u8]) -> Result<Hold, LineFault>
    ensures { Reads result (hold_in word.now) }
{
    if word == b"row".as_slice() {
        Ok(Hold::Row)
    } else if word == b"range".as_slice() {
        Ok(Hold::Range)
    } else {
        Err(LineFault::Bad)
    }
}

/// The part of the lock that a fetch asks for.
#[tactic(auto, unfolding(crate::specs::Lines::part_in))]
pub(crate) fn read_part(word: &[u8]) -> Result<KeyPart, LineFault>
    ensures { Reads result (part_in word.now) }
{
    if word == b"S".as_slice() {
        Ok(KeyPart::S)
    } else if word == b"U".as_slice() {
        Ok(KeyPart::U)
    } else {
        Err(LineFault::Bad)
    }
}

/// What a session does where a lock stands in its way.
#[tactic(auto, unfolding(crate::specs::Lines::patience_in))]
pub(crate) fn read_patience(word: &[u8]) -> Result<Patience, LineFault>
    ensures { Reads result (patience_in word.now) }
{
    if word == b"none".as_slice() {
        Ok(Patience::Refuse)
    } else if word == b"forever".as_slice() {
        Ok(Patience::Forever)
    } else {
        Err(LineFault::Bad)
    }
}
