//! Reading the type of a parameter.

ghost use Rattle.std.specs.Prelude.{◌≡◌, ◌<◌, ◌≤◌, ◌^◌, length, take, drop, slice_index};
ghost use Rattle.std.specs.Int.{w16, from_le_bytes};
ghost use Rattle.rpc_requests.specs.Reading.{Gives, kind_of, type_at, tagged_at, sized_at, long_sized_at, formed, whole_form, bit_form, units_form, bytes_form};

use crate::fault::{ReadFault, RpcKind, refused};
use crate::fields::{part_at, u8_at};
use value_types::SqlType;

/// How a value is spelled, as its type says.
#[derive(Clone, Copy)]
pub(crate) enum Form {
    /// A number or a bit of the type, behind its length.
    Number(SqlType),
    /// At most so many units, each as two bytes, behind the number of bytes.
    Units(u16),
    /// At most so many bytes, each an ASCII unit, behind their number.
    Bytes(u16),
}

/// The type of whole numbers.
pub(crate) const INTNTYPE: u8 = 0x26;

/// The type of bits.
pub(crate) const BITNTYPE: u8 = 0x68;

/// The type of texts of 16-bit units.
pub(crate) const NVARCHARTYPE: u8 = 0xE7;

/// The type of texts of bytes.
pub(crate) const BIGVARCHARTYPE: u8 = 0xA7;

/// The most bytes of a text.
pub(crate) const MOST: u16 = 8000;

/// The type that a parameter of the form gets. A text of bytes is one of units, since the language
/// has no VARCHAR; its units are ASCII.
pub(crate) fn kind_of(form: Form) -> SqlType
    ensures { result ≡ kind_of form }
{
    match form {
        Form::Number(kind) => kind,
        Form::Units(size) | Form::Bytes(size) => SqlType::NText(size),
    }
}

/// The form that a type says.
#[tactic(auto, unfolding(crate::specs::Reading::type_at))]
pub(crate) fn type_at(bytes: &[u8]) -> Result<(Form, &[u8]), ReadFault>
    ensures { Gives (λ x. (x.0, x.1.now)) result (type_at bytes.now) }
{
    let (tag, _) = u8_at(bytes)?;
    tagged_at(tag, bytes)
}

/// The form of the type that begins with this byte.
#[tactic(auto, unfolding(crate::specs::Reading::tagged_at, crate::specs::Reading::sized_at, crate::specs::Reading::long_sized_at))]
fn tagged_at(tag: u8, bytes: &[u8]) -> Result<(Form, &[u8]), ReadFault>
    ensures { Gives (λ x. (x.0, x.1.now)) result (tagged_at tag bytes.now) }
{
    match tag {
        INTNTYPE => {
            let (front, rest) = part_at(2, bytes)?;
            formed(bytes, whole_form(front[1]), rest)
        }
        BITNTYPE => {
            let (front, rest) = part_at(2, bytes)?;
            formed(bytes, bit_form(front[1]), rest)
        }
        NVARCHARTYPE => {
            let (front, rest) = part_at(8, bytes)?;
            formed(bytes, units_form(size_in(front)), rest)
        }
        BIGVARCHARTYPE => {
            let (front, rest) = part_at(8, bytes)?;
            formed(bytes, bytes_form(size_in(front)), rest)
        }
        _ => Err(refused(RpcKind::Kind, bytes)),
    }
}

/// The size behind a type's first byte.
pub(crate) fn size_in(front: &[u8]) -> u16
    requires { length front.now ≡ 8 }
    ensures { result ≡ from_le_bytes w16 (take 2 (drop 1 front.now)) }
{
    u16::from_le_bytes([front[1], front[2]])
}

/// A form, where there is one.
pub(crate) fn formed<'a, T>(
    bytes: &[u8],
    form: Option<T>,
    rest: &'a [u8],
) -> Result<(T, &'a [u8]), ReadFault>
    ensures { Gives (λ x. (x.0, x.1.now)) result (formed bytes.now form rest.now) }
{
    match form {
        None => Err(refused(RpcKind::Kind, bytes)),
        Some(form) => Ok((form, rest)),
    }
}

/// Whole numbers of so many bytes.
pub(crate) fn whole_form(size: u8) -> Option<Form>
    ensures { result ≡ whole_form size }
{
    match size {
        1 => Some(Form::Number(SqlType::TinyInt)),
        2 => Some(Form::Number(SqlType::SmallInt)),
        4 => Some(Form::Number(SqlType::Int)),
        8 => Some(Form::Number(SqlType::BigInt)),
        _ => None,
    }
}

/// Bits of so many bytes.
pub(crate) fn bit_form(size: u8) -> Option<Form>
    ensures { result ≡ bit_form size }
{
    match size {
        1 => Some(Form::Number(SqlType::Bit)),
        _ => None,
    }
}

/// Texts of 16-bit units of so many bytes.
fn units_form(size: u16) -> Option<Form>
    ensures { result ≡ units_form size }
{
    if size % 2 == 1 || size == 0 || MOST < size {
        return None;
    }
    Some(Form::Units(size / 2))
}

/// Texts of so many bytes; what is above the limit is the limit.
fn bytes_form(size: u16) -> Option<Form>
    ensures { result ≡ bytes_form size }
{
    if size == 0 || MOST < size {
        return None;
    }
    Some(Form::Bytes(size.min(MOST / 2)))
}
