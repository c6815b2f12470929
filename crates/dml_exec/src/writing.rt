//! What is asked for the changes of a write.

ghost use Rattle.std.specs.Prelude.{◌≡◌, ◌==◌, IsTrue, IfOk, Some, true};
ghost use Rattle.std.specs.List.{list_any};
ghost use Rattle.std.specs.Option.{option_map};
ghost use Rattle.lock_modes.specs.declared.KeyPart.TheVariants.{S};
ghost use Rattle.step_model.specs.declared.op.Hold.TheVariants as hold;
ghost use Rattle.step_model.specs.declared.op.Op.TheVariants as ops;
ghost use Rattle.step_model.specs.Dialog.{Asks, asks, tries, over};
ghost use Rattle.table_rows.specs.Definitions as names;
ghost use Rattle.dml_exec.specs.Asking.{MayWork};
ghost use Rattle.dml_exec.specs.Indexes as private;
ghost use Rattle.dml_exec.specs.Planning.{as_found};
ghost use Rattle.dml_exec.specs.Reading.{fetch_of};
ghost use Rattle.dml_exec.specs.Writing as spec;

use crate::index_keys::{ask_keys, is_asked};
use crate::ranges::{is_one_key, key_width, part_shape, read_range, shape_of};
use crate::refusal::Refusal;
use crate::written::{Attempt, Halt, Written};
use bound_tree::Image;
use constraint_check::{CheckRead, judge, reads_for};
use lock_modes::KeyPart;
use std::alloc::Global;
use step_model::{Deed, Hold, KeyRange, Manner, Op, Planned, Port, Reply};
use table_rows::is_objects;
use tsql_tree::TableTree;
use value_types::{Key, Memory, Row, TableName, Units, Value, beside};

/// A row is at the key.
const DUPLICATE: i32 = 2627;

/// An object of the name is there.
const OBJECT_PRESENT: i32 = 2714;

/// Asks the changes of a write, behind a mark, and then the reads of their checks; `shapes` are the tables that are written, the
/// parents of their rows, and the tables that refer to them, these in order of their names. It gives the mark. Where a
/// constraint is broken, or it is asked no further, the changes are taken back.
///
/// # Errors
///
/// Why it was asked no further.
pub fn apply_write<P: Port>(
    alloc: Global,
    changes: &[Planned],
    shapes: &[TableTree],
    manner: Manner,
    port: &mut P,
) -> Result<Written, Refusal>
    requires may { MayWork (P.past port.old) manner }
    ensures asks { Asks (P.past port.old) (P.past port.new) manner (spec.writes shapes.now changes.now) result }
    ensures begun { (P.past port.new).standing.is_open ≡ true }
{
    attempt_write(alloc, changes, shapes, manner, port).came
}

/// The same, and the mark also where the changes were taken back to it. It is the last mark that stands, then.
pub fn attempt_write<P: Port>(
    alloc: Global,
    changes: &[Planned],
    shapes: &[TableTree],
    manner: Manner,
    port: &mut P,
) -> Attempt
    requires may { MayWork (P.past port.old) manner }
    ensures asks { Asks (P.past port.old) (P.past port.new) manner (spec.attempts shapes.now changes.now) result }
    ensures begun { (P.past port.new).standing.is_open ≡ true }
{
    match ask_keys(alloc, port, manner, changes) {
        Ok(found) => attempt_found(alloc, port, manner, shapes, changes, found.as_slice()),
        Err(refusal) => Attempt {
            mark: None,
            came: Err(refusal),
        },
    }
}

/// The same, where this was found of the index rows that were asked for.
fn attempt_found<P: Port>(
    alloc: Global,
    port: &mut P,
    manner: Manner,
    shapes: &[TableTree],
    changes: &[Planned],
    found: &[bool],
) -> Attempt
    requires may { MayWork (P.past port.old) manner }
    ensures asks { Asks (P.past port.old) (P.past port.new) manner (asks ops.Mark tt (spec.marked shapes.now changes.now found.now)) result }
    ensures begun { (P.past port.new).standing.is_open ≡ true }
{
    match port.ask(&Op::Mark, manner) {
        Reply::Marked(mark) => {
            let came = work(alloc, port, manner, shapes, changes, found);
            end(port, manner, mark, came)
        }
        Reply::Memory => Attempt {
            mark: None,
            came: Err(Refusal::Memory),
        },
        _ => unreachable!(),
    }
}

/// The mark; where something came in between the changes are taken back to it.
fn end<P: Port>(port: &mut P, manner: Manner, mark: u64, came: Result<(), Halt>) -> Attempt
    requires may { MayWork (P.past port.old) manner }
    requires live { IsTrue (list_any (λ live. live == mark) (P.past port.old).standing.marks) }
    ensures asks { Asks (P.past port.old) (P.past port.new) manner (spec.ends mark came) result }
    ensures begun { (P.past port.new).standing.is_open ≡ true }
{
    match came {
        Ok(()) => told(mark, Ok(Written::Done { mark })),
        Err(halt) => match port.ask(&Op::BackTo { mark }, manner) {
            Reply::Done => told(mark, outcome(halt)),
            _ => unreachable!(),
        },
    }
}

/// What came of changes behind a mark.
fn told(mark: u64, came: Result<Written, Refusal>) -> Attempt
    ensures { result ≡ spec.told (Some mark) came }
{
    Attempt {
        mark: Some(mark),
        came,
    }
}

/// What a caller sees of it.
fn outcome(halt: Halt) -> Result<Written, Refusal>
    ensures { result ≡ spec.outcome halt }
{
    match halt {
        Halt::Broken { number, name } => Ok(Written::Refused { number, name }),
        Halt::Refused(refusal) => Err(refusal),
    }
}

/// Asks the changes, as was found, and the reads of their checks.
fn work<P: Port>(
    alloc: Global,
    port: &mut P,
    manner: Manner,
    shapes: &[TableTree],
    changes: &[Planned],
    found: &[bool],
) -> Result<(), Halt>
    requires may { MayWork (P.past port.old) manner }
    ensures asks { Asks (P.past port.old) (P.past port.new) manner (spec.works shapes.now changes.now found.now) result }
    ensures standing { (P.past port.new).standing ≡ (P.past port.old).standing }
{
    write_all(alloc, port, manner, shapes, changes, found)?;
    match reads_for(alloc, changes, shapes) {
        Ok(reads) => check_all(alloc, port, manner, shapes, reads.as_slice()),
        Err(_) => Err(Halt::Refused(Refusal::Memory)),
    }
}

// ---- changes

/// Asks changes one after another, as was found of those index rows that were asked for.
fn write_all<P: Port>(
    alloc: Global,
    port: &mut P,
    manner: Manner,
    shapes: &[TableTree],
    changes: &[Planned],
    found: &[bool],
) -> Result<(), Halt>
    requires may { MayWork (P.past port.old) manner }
    ensures asks { Asks (P.past port.old) (P.past port.new) manner (spec.writes_all shapes.now (as_found changes.now found.now)) result }
    ensures standing { (P.past port.new).standing ≡ (P.past port.old).standing }
{
    let mut rest = found;
    for change in changes {
        write_told(alloc, port, manner, shapes, change, found_of(change, rest))?;
        rest = found_behind(change, rest);
    }
    Ok(())
}

/// What was found of the index row of a change, if that was asked for.
fn found_of(change: &Planned, found: &[bool]) -> Option<bool>
    ensures { result ≡ private.found_of change.now found.now }
{
    match found {
        [there, ..] if is_asked(change) => Some(*there),
        _ => None,
    }
}

/// What was found of those of the changes behind it.
fn found_behind<'a>(change: &Planned, found: &'a [bool]) -> &'a [bool]
    ensures { result.now ≡ private.found_behind change.now found.now }
{
    match found {
        [_, rest @ ..] if is_asked(change) => rest,
        _ => found,
    }
}

/// Asks a change, of which this was found.
fn write_told<P: Port>(
    alloc: Global,
    port: &mut P,
    manner: Manner,
    shapes: &[TableTree],
    change: &Planned,
    there: Option<bool>,
) -> Result<(), Halt>
    requires may { MayWork (P.past port.old) manner }
    ensures asks { Asks (P.past port.old) (P.past port.new) manner (private.writes_told shapes.now there change.now) result }
    ensures standing { (P.past port.new).standing ≡ (P.past port.old).standing }
{
    match there {
        Some(false) => write_unless(alloc, port, manner, shapes, change),
        _ => write_one(alloc, port, manner, shapes, change),
    }
}

/// Asks a change of an index row that was not there: it is not erased, and is inserted in the place of being replaced.
fn write_unless<P: Port>(
    alloc: Global,
    port: &mut P,
    manner: Manner,
    shapes: &[TableTree],
    change: &Planned,
) -> Result<(), Halt>
    requires may { MayWork (P.past port.old) manner }
    ensures asks { Asks (P.past port.old) (P.past port.new) manner (private.writes_unless shapes.now change.now change.now.deed) result }
    ensures standing { (P.past port.new).standing ≡ (P.past port.old).standing }
{
    match &change.deed {
        Deed::Erase => Ok(()),
        Deed::Replace(row) => insert_instead(alloc, port, manner, shapes, change, row),
        Deed::Insert(_) => write_one(alloc, port, manner, shapes, change),
    }
}

/// Asks the insertion of this row at the key of a change.
fn insert_instead<P: Port>(
    alloc: Global,
    port: &mut P,
    manner: Manner,
    shapes: &[TableTree],
    change: &Planned,
    row: &Row,
) -> Result<(), Halt>
    requires may { MayWork (P.past port.old) manner }
    ensures asks { Asks (P.past port.old) (P.past port.new) manner (spec.writes_one shapes.now (private.inserted_at change.now row.now)) result }
    ensures standing { (P.past port.new).standing ≡ (P.past port.old).standing }
{
    match insertion(alloc, change, row) {
        Ok(insertion) => write_one(alloc, port, manner, shapes, &insertion),
        Err(_) => Err(Halt::Refused(Refusal::Memory)),
    }
}

/// The insertion of this row at the key of a change.
fn insertion(alloc: Global, change: &Planned, row: &Row) -> Result<Planned, Memory>
    ensures { IfOk result (λ insertion. insertion ≡ private.inserted_at change.now row.now) }
{
    let (table, key) = places(alloc, change)?;
    let ((table, key), row) = beside((table, key), row.copy(alloc))?;
    Ok(Planned {
        table,
        key,
        deed: Deed::Insert(row),
    })
}

/// Asks a change.
fn write_one<P: Port>(
    alloc: Global,
    port: &mut P,
    manner: Manner,
    shapes: &[TableTree],
    change: &Planned,
) -> Result<(), Halt>
    requires may { MayWork (P.past port.old) manner }
    ensures asks { Asks (P.past port.old) (P.past port.new) manner (spec.writes_one shapes.now change.now) result }
    ensures standing { (P.past port.new).standing ≡ (P.past port.old).standing }
{
    match ask_deed(alloc, port, manner, change) {
        Reply::Done => Ok(()),
        Reply::Exists => there(alloc, shapes, change),
        Reply::Missing => Err(Halt::Refused(Refusal::Memory)),
        Reply::Memory => Err(Halt::Refused(Refusal::Memory)),
        Reply::TimedOut { .. } => Err(Halt::Refused(Refusal::TimedOut)),
        Reply::Victim { .. } => Err(Halt::Refused(Refusal::Victim)),
        _ => unreachable!(),
    }
}

/// Asks the operation of a change, if there is memory for it.
fn ask_deed<P: Port>(alloc: Global, port: &mut P, manner: Manner, change: &Planned) -> Reply
    requires may { MayWork (P.past port.old) manner }
    ensures asks { Asks (P.past port.old) (P.past port.new) manner (spec.asks_deed change.now.table change.now.key change.now.deed) result }
    ensures reply { spec.IsWriteReply result }
    ensures standing { (P.past port.new).standing ≡ (P.past port.old).standing }
{
    match places(alloc, change) {
        Ok((table, key)) => match &change.deed {
            Deed::Erase => port.ask(&Op::Erase { table, key }, manner),
            Deed::Replace(row) => ask_replace(alloc, port, manner, table, key, row),
            Deed::Insert(row) => ask_insert(alloc, port, manner, table, key, row),
        },
        Err(_) => Reply::Memory,
    }
}

/// The table and the key of a change.
fn places(alloc: Global, change: &Planned) -> Result<(TableName, Key), Memory>
    ensures { IfOk result (λ places. places ≡ (change.now.table, change.now.key)) }
{
    Ok((change.table.copy(alloc)?, change.key.copy(alloc)?))
}

fn ask_replace<P: Port>(
    alloc: Global,
    port: &mut P,
    manner: Manner,
    table: TableName,
    key: Key,
    row: &Row,
) -> Reply
    requires may { MayWork (P.past port.old) manner }
    ensures asks { Asks (P.past port.old) (P.past port.new) manner (tries (ops.Replace table key row.now) tt over) result }
    ensures reply { spec.IsWriteReply result }
    ensures standing { (P.past port.new).standing ≡ (P.past port.old).standing }
{
    match row.copy(alloc) {
        Ok(row) => port.ask(&Op::Replace { table, key, row }, manner),
        Err(_) => Reply::Memory,
    }
}

fn ask_insert<P: Port>(
    alloc: Global,
    port: &mut P,
    manner: Manner,
    table: TableName,
    key: Key,
    row: &Row,
) -> Reply
    requires may { MayWork (P.past port.old) manner }
    ensures asks { Asks (P.past port.old) (P.past port.new) manner (tries (ops.Insert table key row.now) tt over) result }
    ensures reply { spec.IsWriteReply result }
    ensures standing { (P.past port.new).standing ≡ (P.past port.old).standing }
{
    match row.copy(alloc) {
        Ok(row) => port.ask(&Op::Insert { table, key, row }, manner),
        Err(_) => Reply::Memory,
    }
}

/// What comes of an insertion where a row is there: into an index part it counts as done.
fn there(alloc: Global, shapes: &[TableTree], change: &Planned) -> Result<(), Halt>
    ensures { private.TellsThere shapes.now change.now result }
{
    if change.is_own() {
        Err(present(alloc, shapes, change))
    } else {
        Ok(())
    }
}

/// What stands in the way of an insertion.
fn present(alloc: Global, shapes: &[TableTree], change: &Planned) -> Halt
    ensures { spec.IsOrNoRoom (spec.present shapes.now change.now.table change.now.key) result }
{
    if is_objects(&change.table.object) {
        broken(alloc, OBJECT_PRESENT, name_in(&change.key))
    } else {
        broken(
            alloc,
            DUPLICATE,
            primary_name(shape_of(&change.table, shapes)),
        )
    }
}

/// The error of this number, which names something.
fn broken(alloc: Global, number: i32, name: Option<&Units>) -> Halt
    ensures { spec.IsOrNoRoom (spec.broken number (spec.or_nameless (option_map (λ name. name.now) name.entry))) result }
{
    let copy = match name {
        Some(name) => name.copy(alloc),
        None => Ok(Units::new(alloc)),
    };
    match copy {
        Ok(name) => Halt::Broken { number, name },
        Err(_) => Halt::Refused(Refusal::Memory),
    }
}

/// The name that a key of `objects` is.
fn name_in(key: &Key) -> Option<&Units>
    ensures { option_map (λ name. name.now) result ≡ names.name_in key.now }
{
    match key.as_slice() {
        [Value::Text(name)] => Some(name),
        _ => None,
    }
}

/// The name of the PRIMARY KEY of a table.
fn primary_name(shape: Option<&TableTree>) -> Option<&Units>
    ensures { option_map (λ name. name.now) result ≡ spec.primary_name (option_map (λ shape. shape.now) shape.entry) }
{
    match shape {
        Some(shape) => match shape.key.as_slice() {
            [] => None,
            [key, ..] => Some(&key.name),
        },
        None => None,
    }
}

// ---- checks

/// Asks the reads of checks, and judges each.
fn check_all<P: Port>(
    alloc: Global,
    port: &mut P,
    manner: Manner,
    shapes: &[TableTree],
    reads: &[CheckRead],
) -> Result<(), Halt>
    requires may { MayWork (P.past port.old) manner }
    ensures asks { Asks (P.past port.old) (P.past port.new) manner (spec.checks_all shapes.now reads.now) result }
    ensures standing { (P.past port.new).standing ≡ (P.past port.old).standing }
{
    for read in reads {
        check_one(alloc, port, manner, shapes, read)?;
    }
    Ok(())
}

/// Asks the reads of a check, and judges it.
fn check_one<P: Port>(
    alloc: Global,
    port: &mut P,
    manner: Manner,
    shapes: &[TableTree],
    read: &CheckRead,
) -> Result<(), Halt>
    requires may { MayWork (P.past port.old) manner }
    ensures asks { Asks (P.past port.old) (P.past port.new) manner (spec.checks_one shapes.now read.now) result }
    ensures standing { (P.past port.new).standing ≡ (P.past port.old).standing }
{
    let rows = rows_checked(alloc, port, manner, shapes, &read.range)?;
    match judge(read, &rows) {
        None => Ok(()),
        Some(number) => Err(broken(alloc, number, Some(&read.name))),
    }
}

/// The rows that a check reads.
fn rows_checked<P: Port>(
    alloc: Global,
    port: &mut P,
    manner: Manner,
    shapes: &[TableTree],
    range: &KeyRange,
) -> Result<Image, Halt>
    requires may { MayWork (P.past port.old) manner }
    ensures asks { Asks (P.past port.old) (P.past port.new) manner (spec.rows_checked shapes.now range.now) result }
    ensures standing { (P.past port.new).standing ≡ (P.past port.old).standing }
{
    let Ok(fetch) = fetch_of(alloc, range) else {
        return Err(Halt::Refused(Refusal::Memory));
    };
    let shape = part_shape(&range.table, shapes);
    let part = range.table.part;
    let one = is_one_key(key_width(shape, part), &range.start, &range.stop);
    match read_range(alloc, port, manner, shape, part, one, fetch) {
        Ok(rows) => Ok(Image::from(rows)),
        Err(refusal) => Err(Halt::Refused(refusal)),
    }
}

/// The fetch of a check's range.
fn fetch_of(alloc: Global, range: &KeyRange) -> Result<Op, Memory>
    ensures { IfOk result (λ fetch. fetch ≡ fetch_of range.now hold.Range S) }
{
    Ok(Op::Fetch {
        table: range.table.copy(alloc)?,
        start: range.start.copy(alloc)?,
        stop: range.stop.copy(alloc)?,
        hold: Hold::Range,
        part: KeyPart::S,
    })
}
