//! Reading the value of a parameter.

ghost use Rattle.std.specs.Prelude.{◌≡◌, ◌<◌, ◌≤◌, ◌^◌, length};
ghost use Rattle.rpc_requests.specs.Reading.{Gives, value_at, ntext_of, ascii_of, ascii_text, is_ascii, filled_of, filled, size_of};

use crate::fault::{ReadFault, RpcKind, refused};
use crate::fields::{part_at, u8_at, u16_at, units_of};
use crate::types::Form;
use std::alloc::Global;
use value_types::{SqlType, Units, Value};

/// The length of a text that stands for NULL.
pub(crate) const CHARBIN_NULL: u16 = 0xFFFF;

/// A value of the form.
#[tactic(auto, unfolding(crate::specs::Reading::value_at))]
pub(crate) fn value_at(alloc: Global, form: Form, bytes: &[u8]) -> Result<(Value, &[u8]), ReadFault>
    ensures { Gives (λ x. (x.0, x.1.now)) result (value_at form bytes.now) }
{
    match form {
        Form::Units(size) => {
            let (count, rest) = u16_at(bytes)?;
            ntext_of(alloc, size, count, bytes, rest)
        }
        Form::Bytes(size) => {
            let (count, rest) = u16_at(bytes)?;
            ascii_of(alloc, size, count, bytes, rest)
        }
        Form::Number(kind) => {
            let (count, rest) = u8_at(bytes)?;
            filled_of(kind, count, bytes, rest)
        }
    }
}

/// A text of units behind its length, where it is not NULL.
#[tactic(auto, unfolding(crate::specs::Reading::ntext_of))]
fn ntext_of<'a>(
    alloc: Global,
    size: u16,
    count: u16,
    bytes: &[u8],
    rest: &'a [u8],
) -> Result<(Value, &'a [u8]), ReadFault>
    ensures { Gives (λ x. (x.0, x.1.now)) result (ntext_of size count bytes.now rest.now) }
{
    if count == CHARBIN_NULL {
        return Ok((Value::Null, rest));
    }
    if count % 2 == 1 || 2 * u32::from(size) < u32::from(count) {
        return Err(refused(RpcKind::Value, bytes));
    }
    let (text, rest) = units_of(alloc, usize::from(count / 2), rest)?;
    Ok((Value::Text(text), rest))
}

/// A text of bytes behind its length, where it is not NULL.
#[tactic(auto, unfolding(crate::specs::Reading::ascii_of))]
fn ascii_of<'a>(
    alloc: Global,
    size: u16,
    count: u16,
    bytes: &[u8],
    rest: &'a [u8],
) -> Result<(Value, &'a [u8]), ReadFault>
    ensures { Gives (λ x. (x.0, x.1.now)) result (ascii_of size count bytes.now rest.now) }
{
    if count == CHARBIN_NULL {
        return Ok((Value::Null, rest));
    }
    if size < count {
        return Err(refused(RpcKind::Value, bytes));
    }
    let (text, behind) = part_at(usize::from(count), rest)?;
    ascii_text(alloc, rest, text, behind)
}

/// Whether each byte is ASCII.
fn is_ascii(text: &[u8]) -> bool
    ensures { result ≡ is_ascii text.now }
{
    text.iter().all(|byte| *byte < 128)
}

/// A text that is ASCII.
#[tactic(auto, using(crate::proofs::Texts::are_ascii))]
fn ascii_text<'a>(
    alloc: Global,
    bytes: &[u8],
    text: &[u8],
    rest: &'a [u8],
) -> Result<(Value, &'a [u8]), ReadFault>
    ensures { Gives (λ x. (x.0, x.1.now)) result (ascii_text bytes.now text.now rest.now) }
{
    if !is_ascii(text) {
        return Err(refused(RpcKind::Value, bytes));
    }
    match Units::of_ascii(alloc, text) {
        Ok(units) => Ok((Value::Text(units), rest)),
        Err(_) => Err(ReadFault::Memory),
    }
}

/// A number or a bit behind its length, where it is not NULL.
#[tactic(auto, unfolding(crate::specs::Reading::filled_of))]
pub(crate) fn filled_of<'a>(
    kind: SqlType,
    count: u8,
    bytes: &[u8],
    rest: &'a [u8],
) -> Result<(Value, &'a [u8]), ReadFault>
    ensures { Gives (λ x. (x.0, x.1.now)) result (filled_of kind count bytes.now rest.now) }
{
    if count == 0 {
        return Ok((Value::Null, rest));
    }
    let size = size_of(kind);
    if count != size {
        return Err(refused(RpcKind::Value, bytes));
    }
    let (part, rest) = part_at(usize::from(size), rest)?;
    Ok((filled(kind, part), rest))
}

/// How many bytes a number or a bit has.
fn size_of(kind: SqlType) -> u8
    ensures { result ≡ size_of kind }
{
    match kind {
        SqlType::TinyInt | SqlType::Bit => 1,
        SqlType::SmallInt => 2,
        SqlType::Int => 4,
        SqlType::BigInt => 8,
        SqlType::NText(_) => 0,
    }
}

/// The number or the bit of these bytes.
fn filled(kind: SqlType, bytes: &[u8]) -> Value
    requires { length bytes.now ≡ size_of kind }
    ensures { result ≡ filled kind bytes.now }
{
    match kind {
        SqlType::TinyInt => Value::Whole(i64::from(bytes[0])),
        SqlType::SmallInt => {
            Value::Whole(i64::from(u16::from_le_bytes([bytes[0], bytes[1]]).cast_signed()))
        }
        SqlType::Int => {
            let number = u32::from_le_bytes([bytes[0], bytes[1], bytes[2], bytes[3]]);
            Value::Whole(i64::from(number.cast_signed()))
        }
        SqlType::BigInt => {
            let number = u64::from_le_bytes([
                bytes[0], bytes[1], bytes[2], bytes[3], bytes[4], bytes[5], bytes[6], bytes[7],
            ]);
            Value::Whole(number.cast_signed())
        }
        SqlType::Bit => Value::Bit(bytes[0] != 0),
        SqlType::NText(_) => Value::Null,
    }
}
