//! Reading the fields of tokens.

ghost use Rattle.std.specs.Prelude.{◌≡◌, ◌<◌, ◌^◌};
ghost use Rattle.std.specs.Option.{option_copied};
ghost use Rattle.std.specs.Int.{w16, w32, w64};
ghost use Rattle.tds_tokens.specs.Reading.{Gives, strip, byte_at, number_at, big_number_at, bytes_at, signed_at, half_at, units_at, b_varbyte_at, b_varchar_at, us_varchar_at, body_at};

use crate::bytes::Bytes;
use crate::fault::ReadFault;
use std::alloc::Global;
use value_types::{Units, UnitsFault, units_of_le};

/// The bytes behind a text, if they begin with it.
#[tactic(auto, unfolding(crate::specs::Reading::strip))]
pub(super) fn behind<'a>(text: &[u8], bytes: &'a [u8]) -> Option<&'a [u8]>
    ensures { option_copied result ≡ strip text.now bytes.now }
{
    bytes.strip_prefix(text)
}

/// The bytes behind a text that they have to begin with.
pub(super) fn after<'a>(text: &[u8], bytes: &'a [u8]) -> Result<&'a [u8], ReadFault>
    ensures { Gives (λ rest. rest.now) result (strip text.now bytes.now) }
{
    behind(text, bytes).ok_or(ReadFault::Absent)
}

/// A byte.
#[tactic(auto, unfolding(crate::specs::Reading::byte_at))]
pub(super) fn u8_at(bytes: &[u8]) -> Result<(u8, &[u8]), ReadFault>
    ensures { Gives (λ x. (x.0, x.1.now)) result (byte_at bytes.now) }
{
    match bytes {
        [] => Err(ReadFault::Absent),
        [first, rest @ ..] => Ok((*first, rest)),
    }
}

/// So many bytes.
#[tactic(auto, unfolding(crate::specs::Reading::bytes_at))]
pub(super) fn part_at(count: usize, bytes: &[u8]) -> Result<(&[u8], &[u8]), ReadFault>
    ensures { Gives (λ x. (x.0.now, x.1.now)) result (bytes_at count bytes.now) }
{
    if bytes.len() < count {
        return Err(ReadFault::Absent);
    }
    Ok(bytes.split_at(count))
}

/// A number of two bytes, the lower first.
#[tactic(auto, unfolding(crate::specs::Reading::number_at))]
pub(super) fn u16_at(bytes: &[u8]) -> Result<(u16, &[u8]), ReadFault>
    ensures { Gives (λ x. (x.0, x.1.now)) result (number_at w16 bytes.now) }
{
    if bytes.len() < 2 {
        return Err(ReadFault::Absent);
    }
    let (front, rest) = bytes.split_at(2);
    Ok((u16::from_le_bytes([front[0], front[1]]), rest))
}

/// A number of four bytes, the lowest first.
#[tactic(auto, unfolding(crate::specs::Reading::number_at))]
pub(super) fn u32_at(bytes: &[u8]) -> Result<(u32, &[u8]), ReadFault>
    ensures { Gives (λ x. (x.0, x.1.now)) result (number_at w32 bytes.now) }
{
    if bytes.len() < 4 {
        return Err(ReadFault::Absent);
    }
    let (front, rest) = bytes.split_at(4);
    let number = u32::from_le_bytes([front[0], front[1], front[2], front[3]]);
    Ok((number, rest))
}

/// A number of four bytes, the highest first.
#[tactic(auto, unfolding(crate::specs::Reading::big_number_at))]
pub(super) fn u32_be_at(bytes: &[u8]) -> Result<(u32, &[u8]), ReadFault>
    ensures { Gives (λ x. (x.0, x.1.now)) result (big_number_at bytes.now) }
{
    if bytes.len() < 4 {
        return Err(ReadFault::Absent);
    }
    let (front, rest) = bytes.split_at(4);
    let number = u32::from_be_bytes([front[0], front[1], front[2], front[3]]);
    Ok((number, rest))
}

/// A number of eight bytes, the lowest first.
#[tactic(auto, unfolding(crate::specs::Reading::number_at))]
pub(super) fn u64_at(bytes: &[u8]) -> Result<(u64, &[u8]), ReadFault>
    ensures { Gives (λ x. (x.0, x.1.now)) result (number_at w64 bytes.now) }
{
    if bytes.len() < 8 {
        return Err(ReadFault::Absent);
    }
    let (front, rest) = bytes.split_at(8);
    let number = u64::from_le_bytes([
        front[0], front[1], front[2], front[3], front[4], front[5], front[6], front[7],
    ]);
    Ok((number, rest))
}

/// A signed number of two bytes in two's complement, the lower first.
#[tactic(auto, unfolding(crate::specs::Reading::signed_at))]
pub(super) fn i16_at(bytes: &[u8]) -> Result<(i16, &[u8]), ReadFault>
    ensures { Gives (λ x. (x.0, x.1.now)) result (signed_at w16 bytes.now) }
{
    let (number, rest) = u16_at(bytes)?;
    Ok((number.cast_signed(), rest))
}

/// A signed number of four bytes in two's complement, the lowest first.
#[tactic(auto, unfolding(crate::specs::Reading::signed_at))]
pub(super) fn i32_at(bytes: &[u8]) -> Result<(i32, &[u8]), ReadFault>
    ensures { Gives (λ x. (x.0, x.1.now)) result (signed_at w32 bytes.now) }
{
    let (number, rest) = u32_at(bytes)?;
    Ok((number.cast_signed(), rest))
}

/// A signed number of eight bytes in two's complement, the lowest first.
#[tactic(auto, unfolding(crate::specs::Reading::signed_at))]
pub(super) fn i64_at(bytes: &[u8]) -> Result<(i64, &[u8]), ReadFault>
    ensures { Gives (λ x. (x.0, x.1.now)) result (signed_at w64 bytes.now) }
{
    let (number, rest) = u64_at(bytes)?;
    Ok((number.cast_signed(), rest))
}

/// Half of an even number of two bytes.
#[tactic(auto, unfolding(crate::specs::Reading::half_at))]
pub(super) fn half_at(bytes: &[u8]) -> Result<(u16, &[u8]), ReadFault>
    ensures { Gives (λ x. (x.0, x.1.now)) result (half_at bytes.now) }
{
    let (number, rest) = u16_at(bytes)?;
    if number % 2 == 0 {
        Ok((number / 2, rest))
    } else {
        Err(ReadFault::Absent)
    }
}

/// So many units.
pub(super) fn units_of(
    alloc: Global,
    count: usize,
    bytes: &[u8],
) -> Result<(Units, &[u8]), ReadFault>
    requires { count < 2 ^ 16 }
    ensures { Gives (λ x. (x.0, x.1.now)) result (units_at count bytes.now) }
{
    let (front, rest) = part_at(2 * count, bytes)?;
    match units_of_le(alloc, front) {
        Ok(units) => Ok((units, rest)),
        Err(_) => Err(ReadFault::Memory),
    }
}

/// Bytes behind a count of one byte.
#[tactic(auto, unfolding(crate::specs::Reading::b_varbyte_at))]
pub(super) fn b_varbyte(alloc: Global, bytes: &[u8]) -> Result<(Bytes, &[u8]), ReadFault>
    ensures { Gives (λ x. (x.0, x.1.now)) result (b_varbyte_at bytes.now) }
{
    let (count, rest) = u8_at(bytes)?;
    let (front, rest) = part_at(count as usize, rest)?;
    Ok((Bytes::from(Vec::from_slice(alloc, front)?), rest))
}

/// A text behind a count of one byte.
#[tactic(auto, unfolding(crate::specs::Reading::b_varchar_at))]
pub(super) fn b_varchar(alloc: Global, bytes: &[u8]) -> Result<(Units, &[u8]), ReadFault>
    ensures { Gives (λ x. (x.0, x.1.now)) result (b_varchar_at bytes.now) }
{
    let (count, rest) = u8_at(bytes)?;
    units_of(alloc, count as usize, rest)
}

/// A text behind a count of two bytes.
#[tactic(auto, unfolding(crate::specs::Reading::us_varchar_at))]
pub(super) fn us_varchar(alloc: Global, bytes: &[u8]) -> Result<(Units, &[u8]), ReadFault>
    ensures { Gives (λ x. (x.0, x.1.now)) result (us_varchar_at bytes.now) }
{
    let (count, rest) = u16_at(bytes)?;
    units_of(alloc, count as usize, rest)
}

/// The bytes behind a length of two bytes, and those behind them.
#[tactic(auto, unfolding(crate::specs::Reading::body_at))]
pub(super) fn body_at(bytes: &[u8]) -> Result<(&[u8], &[u8]), ReadFault>
    ensures { Gives (λ x. (x.0.now, x.1.now)) result (body_at bytes.now) }
{
    let (count, rest) = u16_at(bytes)?;
    part_at(count as usize, rest)
}
