//! Reading the value of a parameter as drivers spell it.

ghost use Rattle.std.specs.Prelude.{◌≡◌, ◌<◌, ◌≤◌, ◌^◌, length};
ghost use Rattle.rpc_requests.specs.Reading.{Gives};
ghost use Rattle.rpc_requests.specs.Drivers.{bounded_text, chunk_at, chunked_of, chunks_at, driver_value_at, is_half, joined_of, long_of, sized_of, text_of, units_in};

use crate::driver_types::DriverForm;
use crate::fault::{ReadFault, RpcKind, refused};
use crate::fields::{part_at, u8_at, u16_at, u32_at, u64_at};
use crate::values::{CHARBIN_NULL, filled_of};
use crate::windows::units_in;
use std::alloc::Global;
use value_types::Value;

/// The length of a NTEXT or TEXT that stands for NULL.
const LONG_NULL: u32 = 0xFFFF_FFFF;

/// The length of chunks that stands for NULL.
const PLP_NULL: u64 = 0xFFFF_FFFF_FFFF_FFFF;

/// The length of chunks that is not told.
const PLP_UNKNOWN: u64 = 0xFFFF_FFFF_FFFF_FFFE;

/// A value of the form; a text may have so many units.
#[tactic(auto, unfolding(crate::specs::Drivers::driver_value_at))]
pub(crate) fn driver_value_at(
    alloc: Global,
    most: usize,
    form: DriverForm,
    bytes: &[u8],
) -> Result<(Value, &[u8]), ReadFault>
    ensures { Gives (λ x. (x.0, x.1.now)) result (driver_value_at most form bytes.now) }
{
    match form {
        DriverForm::Number(kind) => {
            let (count, rest) = u8_at(bytes)?;
            filled_of(kind, count, bytes, rest)
        }
        DriverForm::Sized(wide, size) => {
            let (count, rest) = u16_at(bytes)?;
            sized_of(alloc, most, wide, size, count, bytes, rest)
        }
        DriverForm::Long(wide) => {
            let (count, rest) = u32_at(bytes)?;
            long_of(alloc, most, wide, count, bytes, rest)
        }
        DriverForm::Chunks(wide) => {
            let (told, rest) = u64_at(bytes)?;
            chunked_of(alloc, most, wide, told, bytes, rest)
        }
    }
}

/// A text of a size, where it is not NULL.
#[tactic(auto, unfolding(crate::specs::Drivers::sized_of))]
fn sized_of<'a>(
    alloc: Global,
    most: usize,
    wide: bool,
    size: u16,
    count: u16,
    start: &[u8],
    rest: &'a [u8],
) -> Result<(Value, &'a [u8]), ReadFault>
    ensures { Gives (λ x. (x.0, x.1.now)) result (sized_of most wide size count start.now rest.now) }
{
    if count == CHARBIN_NULL {
        return Ok((Value::Null, rest));
    }
    if size < count {
        return Err(refused(RpcKind::Value, start));
    }
    text_of(alloc, most, wide, usize::from(count), start, rest)
}

/// A NTEXT or TEXT, where it is not NULL.
#[tactic(auto, unfolding(crate::specs::Drivers::long_of))]
fn long_of<'a>(
    alloc: Global,
    most: usize,
    wide: bool,
    count: u32,
    start: &[u8],
    rest: &'a [u8],
) -> Result<(Value, &'a [u8]), ReadFault>
    ensures { Gives (λ x. (x.0, x.1.now)) result (long_of most wide count start.now rest.now) }
{
    if count == LONG_NULL {
        return Ok((Value::Null, rest));
    }
    text_of(alloc, most, wide, count as usize, start, rest)
}

/// Whether two bytes make a unit, and one is left.
fn is_half(wide: bool, count: usize) -> bool
    ensures { result ≡ is_half wide count }
{
    wide && count % 2 == 1
}

/// The text of so many bytes.
#[tactic(auto, unfolding(crate::specs::Drivers::text_of))]
fn text_of<'a>(
    alloc: Global,
    most: usize,
    wide: bool,
    count: usize,
    start: &[u8],
    rest: &'a [u8],
) -> Result<(Value, &'a [u8]), ReadFault>
    ensures { Gives (λ x. (x.0, x.1.now)) result (text_of most wide count start.now rest.now) }
{
    if is_half(wide, count) {
        return Err(refused(RpcKind::Value, start));
    }
    let (text, behind) = part_at(count, rest)?;
    bounded_text(alloc, most, wide, start, text, behind)
}

/// The text of these bytes, of which so many units may stand there.
fn bounded_text<'a>(
    alloc: Global,
    most: usize,
    wide: bool,
    start: &[u8],
    text: &[u8],
    rest: &'a [u8],
) -> Result<(Value, &'a [u8]), ReadFault>
    ensures { Gives (λ x. (x.0, x.1.now)) result (bounded_text most start.now (units_in wide text.now) rest.now) }
{
    match units_in(alloc, wide, text) {
        Ok(units) => {
            if most < units.len() {
                return Err(refused(RpcKind::Long, start));
            }
            Ok((Value::Text(units), rest))
        }
        Err(_) => Err(ReadFault::Memory),
    }
}

/// A text in chunks, where it is not NULL.
#[tactic(auto, unfolding(crate::specs::Drivers::chunked_of))]
fn chunked_of<'a>(
    alloc: Global,
    most: usize,
    wide: bool,
    told: u64,
    start: &[u8],
    rest: &'a [u8],
) -> Result<(Value, &'a [u8]), ReadFault>
    ensures { Gives (λ x. (x.0, x.1.now)) result (chunked_of most wide told start.now rest.now) }
{
    if told == PLP_NULL {
        return Ok((Value::Null, rest));
    }
    let (joined, behind) = chunks_at(alloc, rest)?;
    joined_of(alloc, most, wide, told, start, joined.as_slice(), behind)
}

/// The text of all chunks, of which the length in front was told, or not.
fn joined_of<'a>(
    alloc: Global,
    most: usize,
    wide: bool,
    told: u64,
    start: &[u8],
    joined: &[u8],
    rest: &'a [u8],
) -> Result<(Value, &'a [u8]), ReadFault>
    ensures { Gives (λ x. (x.0, x.1.now)) result (joined_of most wide told start.now joined.now rest.now) }
{
    let is_told = told == PLP_UNKNOWN || told == joined.len() as u64;
    if !is_told || is_half(wide, joined.len()) {
        return Err(refused(RpcKind::Value, start));
    }
    bounded_text(alloc, most, wide, start, joined, rest)
}

/// The bytes of chunks up to an empty one, the last.
fn chunks_at(alloc: Global, bytes: &[u8]) -> Result<(Vec<u8>, &[u8]), ReadFault>
    ensures { Gives (λ x. (x.0.items, x.1.now)) result (chunks_at (length bytes.now) bytes.now) }
{
    let mut joined = Vec::new(alloc);
    let (mut chunk, mut rest) = chunk_at(bytes)?;
    while !chunk.is_empty() {
        joined.extend_from_slice(chunk)?;
        let (next, behind) = chunk_at(rest)?;
        chunk = next;
        rest = behind;
    }
    Ok((joined, rest))
}

/// Bytes behind their number.
#[tactic(auto, unfolding(crate::specs::Drivers::chunk_at))]
fn chunk_at(bytes: &[u8]) -> Result<(&[u8], &[u8]), ReadFault>
    ensures { Gives (λ x. (x.0.now, x.1.now)) result (chunk_at bytes.now) }
{
    let (size, rest) = u32_at(bytes)?;
    part_at(size as usize, rest)
}
