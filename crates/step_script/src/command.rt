//! The commands of a script.

ghost use Rattle.std.specs.Prelude.{Option, map, option_map};
ghost use Rattle.step_script.specs.Lines.{Reads, bare_in, command_in, erase_in, erase_of, fetch_in, fetch_of, insert_of, hold_in, key_in, part_in, replace_of, setting_in, start_in, stop_in, table_in, write_in};
ghost use Rattle.step_model.specs.declared.op.Op.{Op as AnyOp};
ghost use Rattle.step_script.specs.Numbers.{long_in};
ghost use Rattle.step_script.specs.declared.line.Line.TheVariants.{Ask};

use crate::line::{Line, LineFault};
use crate::number::{read_long, read_mark, read_priority};
use crate::words::{
    key_of, read_hold, read_key, read_part, read_patience, read_start, read_stop, read_table,
    row_of,
};
use std::alloc::Global;
use step_model::Op;
use value_types::beside;

/// The line of a session whose command has these words.
#[tactic(auto, unfolding(crate::specs::Lines::command_in))]
pub(crate) fn read_command(alloc: Global, session: u32, words: &[&[u8]]) -> Result<Line, LineFault>
    ensures { Reads result (command_in session (map (λ word. word.now) words.now)) }
{
    match words {
        [verb] => asked(session, read_bare(verb)),
        [verb, word] => read_setting(session, verb, word),
        [verb, table, key] => asked(session, read_erase(alloc, verb, table, key)),
        [verb, table, key, value] => asked(session, read_write(alloc, verb, table, key, value)),
        [verb, table, start, stop, hold, part] => asked(
            session,
            read_fetch(alloc, verb, table, start, stop, hold, part),
        ),
        _ => Err(LineFault::Bad),
    }
}

/// The line of a session that asks this.
fn asked(session: u32, op: Result<Op, LineFault>) -> Result<Line, LineFault>
    ensures { (told : Option AnyOp) → Reads op told → Reads result (option_map (Ask session) told) }
{
    Ok(Line::Ask { session, op: op? })
}

/// The operation that is a word alone.
#[tactic(auto, unfolding(crate::specs::Lines::bare_in))]
fn read_bare(verb: &[u8]) -> Result<Op, LineFault>
    ensures { Reads result (bare_in verb.now) }
{
    if verb == b"begin".as_slice() {
        Ok(Op::Begin)
    } else if verb == b"mark".as_slice() {
        Ok(Op::Mark)
    } else if verb == b"relax".as_slice() {
        Ok(Op::Relax)
    } else if verb == b"commit".as_slice() {
        Ok(Op::Commit)
    } else if verb == b"rollback".as_slice() {
        Ok(Op::Rollback)
    } else {
        Err(LineFault::Bad)
    }
}

/// The line of a session whose command is a word with one behind it.
#[tactic(auto, unfolding(crate::specs::Lines::setting_in))]
fn read_setting(session: u32, verb: &[u8], word: &[u8]) -> Result<Line, LineFault>
    ensures { Reads result (setting_in session verb.now word.now) }
{
    if verb == b"back".as_slice() {
        let mark = read_mark(word)?;
        Ok(Line::Ask {
            session,
            op: Op::BackTo { mark },
        })
    } else if verb == b"patience".as_slice() {
        let patience = read_patience(word)?;
        Ok(Line::Patience { session, patience })
    } else if verb == b"priority".as_slice() {
        let priority = read_priority(word)?;
        Ok(Line::Priority { session, priority })
    } else {
        Err(LineFault::Bad)
    }
}

/// The erasure that these words ask for.
#[tactic(auto, unfolding(crate::specs::Lines::erase_in))]
fn read_erase(alloc: Global, verb: &[u8], table: &[u8], key: &[u8]) -> Result<Op, LineFault>
    ensures { Reads result (erase_in verb.now table.now key.now) }
{
    if verb == b"erase".as_slice() {
        erase(alloc, table, key)
    } else {
        Err(LineFault::Bad)
    }
}

/// The insertion or replacement that these words ask for.
#[tactic(auto, unfolding(crate::specs::Lines::write_in))]
fn read_write(
    alloc: Global,
    verb: &[u8],
    table: &[u8],
    key: &[u8],
    value: &[u8],
) -> Result<Op, LineFault>
    ensures { Reads result (write_in verb.now table.now key.now value.now) }
{
    if verb == b"insert".as_slice() {
        insert(alloc, table, key, value)
    } else if verb == b"replace".as_slice() {
        replace(alloc, table, key, value)
    } else {
        Err(LineFault::Bad)
    }
}

/// The fetch that these words ask for.
#[tactic(auto, unfolding(crate::specs::Lines::fetch_in))]
fn read_fetch(
    alloc: Global,
    verb: &[u8],
    table: &[u8],
    start: &[u8],
    stop: &[u8],
    hold: &[u8],
    part: &[u8],
) -> Result<Op, LineFault>
    ensures { Reads result (fetch_in verb.now table.now start.now stop.now hold.now part.now) }
{
    if verb == b"fetch".as_slice() {
        fetch(alloc, table, start, stop, hold, part)
    } else {
        Err(LineFault::Bad)
    }
}

/// The erasure at a key.
fn erase(alloc: Global, table: &[u8], key: &[u8]) -> Result<Op, LineFault>
    ensures { Reads result (erase_of (table_in table.now) (key_in key.now)) }
{
    let table = read_table(alloc, table)?;
    let (table, key) = beside(table, read_key(alloc, key))?;
    Ok(Op::Erase { table, key })
}

/// The insertion of the row of a key and a number.
fn insert(alloc: Global, table: &[u8], key: &[u8], value: &[u8]) -> Result<Op, LineFault>
    ensures { Reads result (insert_of (table_in table.now) (long_in key.now) (long_in value.now)) }
{
    let number = read_long(key)?;
    let value = read_long(value)?;
    let table = read_table(alloc, table)?;
    let (table, key) = beside(table, key_of(alloc, number))?;
    let ((table, key), row) = beside((table, key), row_of(alloc, number, value))?;
    Ok(Op::Insert { table, key, row })
}

/// The replacement by the row of a key and a number.
fn replace(alloc: Global, table: &[u8], key: &[u8], value: &[u8]) -> Result<Op, LineFault>
    ensures { Reads result (replace_of (table_in table.now) (long_in key.now) (long_in value.now)) }
{
    let number = read_long(key)?;
    let value = read_long(value)?;
    let table = read_table(alloc, table)?;
    let (table, key) = beside(table, key_of(alloc, number))?;
    let ((table, key), row) = beside((table, key), row_of(alloc, number, value))?;
    Ok(Op::Replace { table, key, row })
}

/// The fetch from a table.
fn fetch(
    alloc: Global,
    table: &[u8],
    start: &[u8],
    stop: &[u8],
    hold: &[u8],
    part: &[u8],
) -> Result<Op, LineFault>
    ensures { Reads result (fetch_of (table_in table.now) (start_in start.now) (stop_in stop.now) (hold_in hold.now) (part_in part.now)) }
{
    let hold = read_hold(hold)?;
    let part = read_part(part)?;
    let table = read_table(alloc, table)?;
    let (table, start) = beside(table, read_start(alloc, start))?;
    let ((table, start), stop) = beside((table, start), read_stop(alloc, stop))?;
    Ok(Op::Fetch {
        table,
        start,
        stop,
        hold,
        part,
    })
}
