//! How the rows of a range are fetched.

ghost use Rattle.std.specs.Prelude.{◌≡◌, ◌≤◌, ◌++◌, [], ◌∷◌, IfOk, IsOk, Some, false, filter_map, length, suc, true};
ghost use Rattle.std.specs.Option.{option_map};
ghost use Rattle.value_types.specs.declared.value.Value.TheVariants.{Null};
ghost use Rattle.tsql_tree.specs.Places.{key_places, place_in};
ghost use Rattle.step_model.specs.declared.range.Start.TheVariants.{At};
ghost use Rattle.step_model.specs.Dialog.{Asks};
ghost use Rattle.step_model.specs.Ranges.{range_limit, with_row};
ghost use Rattle.table_rows.specs.Rows as checks;
ghost use Rattle.dml_exec.specs.Asking.{MayWork, beside, seen};
ghost use Rattle.dml_exec.specs.Reading as spec;

use crate::refusal::Refusal;
use std::alloc::Global;
use step_model::{Manner, Op, Port, Reply, Start, Stop};
use table_rows::{part_columns, place_in, row_fits};
use tsql_tree::{ColumnTree, TableTree};
use value_types::{KEY_LIMIT, Key, Memory, Row, TableName, Units, Value};

/// How many keys of one range are looked at, at most.
const RANGE_LIMIT: u32 = 10_000_000;

/// The rows of the range of a fetch, or the row at one whole key, of a part of a table. What is not read as a row is left out.
pub(crate) fn read_range<P: Port>(
    alloc: Global,
    port: &mut P,
    manner: Manner,
    shape: Option<&TableTree>,
    part: u16,
    one: bool,
    fetch: Op,
) -> Result<Vec<Row>, Refusal>
    requires may { MayWork (P.past port.old) manner }
    requires fetch { spec.IsFetch fetch }
    ensures asks { Asks (P.past port.old) (P.past port.new) manner (spec.rows_in (option_map (λ of. of.now) shape.entry) part one fetch) (seen result) }
    ensures standing { (P.past port.new).standing ≡ (P.past port.old).standing }
{
    let mut fetch = fetch;
    if one {
        read_key(alloc, port, manner, shape, part, &fetch)
    } else {
        read_rows(alloc, port, manner, shape, part, &mut fetch)
    }
}

/// The row at one whole key, or none.
fn read_key<P: Port>(
    alloc: Global,
    port: &mut P,
    manner: Manner,
    shape: Option<&TableTree>,
    part: u16,
    fetch: &Op,
) -> Result<Vec<Row>, Refusal>
    requires may { MayWork (P.past port.old) manner }
    requires fetch { spec.IsFetch fetch.now }
    ensures asks { Asks (P.past port.old) (P.past port.new) manner (spec.rows_in (option_map (λ of. of.now) shape.entry) part true fetch.now) (seen result) }
    ensures standing { (P.past port.new).standing ≡ (P.past port.old).standing }
{
    let mut rows = Vec::new(alloc);
    match read_next(alloc, port, manner, shape, part, fetch, &mut rows) {
        Ok(_) => Ok(rows),
        Err(refusal) => Err(refusal),
    }
}

/// The rows of a range, in order of their keys. The fetch is left at the last start.
fn read_rows<P: Port>(
    alloc: Global,
    port: &mut P,
    manner: Manner,
    shape: Option<&TableTree>,
    part: u16,
    fetch: &mut Op,
) -> Result<Vec<Row>, Refusal>
    requires may { MayWork (P.past port.old) manner }
    requires fetch { spec.IsFetch fetch.old }
    ensures asks { Asks (P.past port.old) (P.past port.new) manner (spec.rows_from (spec.key_width (option_map (λ of. of.now) shape.entry) part) (spec.fits (option_map (λ of. of.now) shape.entry) part) range_limit fetch.old []) (seen result) }
    ensures standing { (P.past port.new).standing ≡ (P.past port.old).standing }
{
    let mut rows = Vec::new(alloc);
    let mut left = RANGE_LIMIT;
    while 0 < left {
        match read_next(alloc, port, manner, shape, part, fetch, &mut rows)? {
            Some(start) => begin_at(fetch, start),
            None => return Ok(rows),
        }
        left -= 1;
    }
    Err(Refusal::Limit)
}

/// Asks a fetch, and adds its row, if it is read as one. Where to go on, or nothing at the end.
fn read_next<P: Port>(
    alloc: Global,
    port: &mut P,
    manner: Manner,
    shape: Option<&TableTree>,
    part: u16,
    fetch: &Op,
    rows: &mut Vec<Row>,
) -> Result<Option<Start>, Refusal>
    requires may { MayWork (P.past port.old) manner }
    requires fetch { spec.IsFetch fetch.now }
    ensures asks { Asks (P.past port.old) (P.past port.new) manner (spec.fetches (spec.key_width (option_map (λ of. of.now) shape.entry) part) (spec.fits (option_map (λ of. of.now) shape.entry) part) fetch.now rows.old.items) (beside rows.new.items result) }
    ensures standing { (P.past port.new).standing ≡ (P.past port.old).standing }
{
    match port.ask(fetch, manner) {
        Reply::Row { key, row, .. } => match keep(shape, part, rows, &key, row) {
            Ok(()) => Ok(Some(Start::Past(key))),
            Err(_) => Err(Refusal::Memory),
        },
        Reply::Gone { key, .. } => match behind_gone(alloc, shape, part, key) {
            Ok(start) => Ok(Some(start)),
            Err(_) => Err(Refusal::Memory),
        },
        Reply::End { .. } => Ok(None),
        Reply::Memory => Err(Refusal::Memory),
        Reply::TimedOut { .. } => Err(Refusal::TimedOut),
        Reply::Victim { .. } => Err(Refusal::Victim),
        _ => unreachable!(),
    }
}

/// Where a range goes on behind a key without a row: at the first key that begins with it, where it has fewer values than the
/// keys of the table, and else past it.
fn behind_gone(
    alloc: Global,
    shape: Option<&TableTree>,
    part: u16,
    key: Key,
) -> Result<Start, Memory>
    ensures start { IfOk result (λ start. start ≡ spec.behind_gone (spec.key_width (option_map (λ of. of.now) shape.entry) part) key) }
    ensures sure { spec.is_short (spec.key_width (option_map (λ of. of.now) shape.entry) part) key ≡ false → IsOk result }
{
    if key.as_slice().len() < key_width(shape, part) {
        Ok(Start::At(with_null(alloc, &key)?))
    } else {
        Ok(Start::Past(key))
    }
}

/// Whether a range is one whole key, where keys have so many values.
pub(crate) fn is_one_key(width: usize, start: &Start, stop: &Stop) -> bool
    ensures { result ≡ spec.is_one_key width start.now stop.now }
{
    match start {
        Start::First => false,
        Start::At(key) => ends_there(width, key, stop),
        Start::Past(_) => false,
    }
}

/// Whether a range that starts at a key stops there, where that is a whole key.
fn ends_there(width: usize, key: &Key, stop: &Stop) -> bool
    ensures { result ≡ spec.is_one_key width (At key.now) stop.now }
{
    match stop {
        Stop::Last => false,
        Stop::Within(last) => key.as_slice().len() == width && *key == *last,
    }
}

/// How many values the keys of a part of a table have.
#[tactic(auto, using(crate::proofs::Widths::no_width))]
pub(crate) fn key_width(shape: Option<&TableTree>, part: u16) -> usize
    ensures { result ≡ spec.key_width (option_map (λ of. of.now) shape.entry) part }
{
    match shape {
        Some(shape) => part_width(shape, part),
        None => 0,
    }
}

/// Those of a table of this shape.
fn part_width(shape: &TableTree, part: u16) -> usize
    ensures { result ≡ spec.key_width (Some shape.now) part }
{
    if part == 0 {
        own_width(shape)
    } else {
        index_width(shape, part - 1)
    }
}

/// How many values the keys of a table's own rows have.
fn own_width(shape: &TableTree) -> usize
    ensures { result ≡ length (key_places (Some shape.now)) }
{
    match shape.key.as_slice() {
        [] => 0,
        [key, ..] => places_in(shape.columns.as_slice(), key.columns.as_slice()),
    }
}

/// How many those of the index part at this place have: as many as its columns and the table's key.
fn index_width(shape: &TableTree, place: u16) -> usize
    ensures { result ≡ spec.index_width (Some shape.now) (suc place) }
{
    match part_columns(shape, place) {
        Some(names) => named_width(shape, names),
        None => 0,
    }
}

/// How many columns of these names there are, and of the table's key.
#[tactic(auto, using(crate::proofs::Widths::width_keyless, crate::proofs::Widths::width_keyed))]
fn named_width(shape: &TableTree, names: &[Units]) -> usize
    ensures { result ≡ length (checks.index_places shape.now names.now) }
{
    match shape.key.as_slice() {
        [] => places_in(shape.columns.as_slice(), names),
        [key, ..] => {
            let own = key.columns.as_slice();
            places_in(shape.columns.as_slice(), names) + places_in(shape.columns.as_slice(), own)
        }
    }
}

/// How many of these names are those of columns.
fn places_in(columns: &[ColumnTree], names: &[Units]) -> usize
    ensures many { result ≡ length (filter_map (place_in columns.now) names.now) }
    ensures few { result ≤ length names.now }
{
    let mut places = 0;
    for name in names {
        if place_in(columns, name).is_some() {
            places += 1;
        }
    }
    places
}

/// A key with a NULL behind its values. Of a key that has as many values as any may have there is none.
fn with_null(alloc: Global, key: &Key) -> Result<Key, Memory>
    ensures { IfOk result (λ longer. longer ≡ key.now ++ Null ∷ []) }
{
    let values = key.as_slice();
    if KEY_LIMIT <= values.len() {
        return Err(Memory);
    }
    let mut longer = Vec::with_capacity(alloc, values.len() + 1)?;
    for value in values {
        longer.push(value.copy(alloc)?)?;
    }
    longer.push(Value::Null)?;
    Ok(Key::new(longer))
}

/// Lets a fetch begin at another start.
fn begin_at(fetch: &mut Op, start: Start)
    ensures { fetch.new ≡ spec.from start fetch.old }
{
    if let Op::Fetch { start: earlier, .. } = fetch {
        *earlier = start;
    }
}

/// Adds a row, if it is read as one.
fn keep(
    shape: Option<&TableTree>,
    part: u16,
    rows: &mut Vec<Row>,
    key: &Key,
    row: Row,
) -> Result<(), Memory>
    ensures { IfOk result (λ _. rows.new.items ≡ with_row (spec.fits (option_map (λ of. of.now) shape.entry) part) rows.old.items key.now row) }
{
    if is_kept(shape, part, key, &row) {
        rows.push(row)?;
    }
    Ok(())
}

/// Whether a row is read as one.
fn is_kept(shape: Option<&TableTree>, part: u16, key: &Key, row: &Row) -> bool
    ensures { result ≡ spec.fits (option_map (λ of. of.now) shape.entry) part (key.now, row.now) }
{
    match shape {
        Some(shape) => row_fits(row, key, shape, part),
        None => false,
    }
}

/// The first shape of that table.
pub fn shape_of<'a>(table: &TableName, shapes: &'a [TableTree]) -> Option<&'a TableTree>
    ensures { option_map (λ shape. shape.now) result ≡ checks.shape_of table.now shapes.now }
{
    for shape in shapes {
        if is_shape_of(table, shape) {
            return Some(shape);
        }
    }
    None
}

/// Whether a shape is that of a table.
pub fn is_shape_of(table: &TableName, shape: &TableTree) -> bool
    ensures { result ≡ checks.is_shape_of table.now shape.now }
{
    table.part == 0 && table.object == shape.name
}

/// That of the table whose part this is.
pub(crate) fn part_shape<'a>(table: &TableName, shapes: &'a [TableTree]) -> Option<&'a TableTree>
    ensures { option_map (λ shape. shape.now) result ≡ checks.part_shape table.now shapes.now }
{
    for shape in shapes {
        if table.object == shape.name {
            return Some(shape);
        }
    }
    None
}
