//! Reading the values of a row.

ghost use Rattle.std.specs.Prelude.{◌≡◌};
ghost use Rattle.tds_tokens.specs.Reading.{Gives, bit_at, text_at, filled_at, typed_at, value_at, values_at};

use crate::columns::ColumnInfo;
use crate::fault::ReadFault;
use crate::reading::columns::type_at;
use crate::reading::fields::{after, behind, half_at, i16_at, i32_at, i64_at, u8_at, units_of};
use crate::values::null_of;
use std::alloc::Global;
use value_types::{Row, SqlType, Units, Value};

/// The values of a row, one for each column.
pub(super) fn row_at<'a>(
    alloc: Global,
    columns: &[ColumnInfo],
    bytes: &'a [u8],
) -> Result<(Row, &'a [u8]), ReadFault>
    ensures { Gives (λ x. (x.0, x.1.now)) result (values_at columns.now bytes.now) }
{
    let mut values = Vec::new(alloc);
    let mut rest = bytes;
    for column in columns {
        let (value, behind) = value_at(alloc, column.kind, rest)?;
        values.push(value)?;
        rest = behind;
    }
    Ok((Row::from(values), rest))
}

/// A type, and a value of it.
#[tactic(auto, unfolding(crate::specs::Reading::typed_at))]
pub(super) fn typed_at(alloc: Global, bytes: &[u8]) -> Result<((SqlType, Value), &[u8]), ReadFault>
    ensures { Gives (λ x. (x.0, x.1.now)) result (typed_at bytes.now) }
{
    let (kind, rest) = type_at(bytes)?;
    let (value, rest) = value_at(alloc, kind, rest)?;
    Ok(((kind, value), rest))
}

/// A value of the type, which may be NULL.
#[tactic(auto, unfolding(crate::specs::Reading::value_at))]
fn value_at(alloc: Global, kind: SqlType, bytes: &[u8]) -> Result<(Value, &[u8]), ReadFault>
    ensures { Gives (λ x. (x.0, x.1.now)) result (value_at kind bytes.now) }
{
    match behind(null_of(kind), bytes) {
        Some(rest) => Ok((Value::Null, rest)),
        None => filled_at(alloc, kind, bytes),
    }
}

/// A value that is not NULL.
#[tactic(auto, unfolding(crate::specs::Reading::filled_at))]
fn filled_at(alloc: Global, kind: SqlType, bytes: &[u8]) -> Result<(Value, &[u8]), ReadFault>
    ensures { Gives (λ x. (x.0, x.1.now)) result (filled_at kind bytes.now) }
{
    match kind {
        SqlType::TinyInt => {
            let (number, rest) = u8_at(after(&[1], bytes)?)?;
            Ok((Value::Whole(i64::from(number)), rest))
        }
        SqlType::SmallInt => {
            let (number, rest) = i16_at(after(&[2], bytes)?)?;
            Ok((Value::Whole(i64::from(number)), rest))
        }
        SqlType::Int => {
            let (number, rest) = i32_at(after(&[4], bytes)?)?;
            Ok((Value::Whole(i64::from(number)), rest))
        }
        SqlType::BigInt => {
            let (number, rest) = i64_at(after(&[8], bytes)?)?;
            Ok((Value::Whole(number), rest))
        }
        SqlType::Bit => {
            let (bit, rest) = bit_at(after(&[1], bytes)?)?;
            Ok((Value::Bit(bit), rest))
        }
        SqlType::NText(size) => {
            let (text, rest) = text_at(alloc, size, bytes)?;
            Ok((Value::Text(text), rest))
        }
    }
}

/// A bit.
#[tactic(auto, unfolding(crate::specs::Reading::bit_at))]
fn bit_at(bytes: &[u8]) -> Result<(bool, &[u8]), ReadFault>
    ensures { Gives (λ x. (x.0, x.1.now)) result (bit_at bytes.now) }
{
    let (byte, rest) = u8_at(bytes)?;
    if byte < 2 {
        Ok((byte == 1, rest))
    } else {
        Err(ReadFault::Absent)
    }
}

/// A text of at most so many units, behind its length in bytes.
#[tactic(auto, unfolding(crate::specs::Reading::text_at))]
fn text_at(alloc: Global, size: u16, bytes: &[u8]) -> Result<(Units, &[u8]), ReadFault>
    ensures { Gives (λ x. (x.0, x.1.now)) result (text_at size bytes.now) }
{
    let (count, rest) = half_at(bytes)?;
    if count <= size {
        units_of(alloc, count as usize, rest)
    } else {
        Err(ReadFault::Absent)
    }
}
