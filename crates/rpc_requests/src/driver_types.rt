//! Reading the type of a parameter as drivers spell it.

ghost use Rattle.std.specs.Prelude.{◌≡◌, ◌<◌, ◌≤◌, ◌^◌, length, take, drop, slice_index};
ghost use Rattle.std.specs.Int.{w16, from_le_bytes};
ghost use Rattle.rpc_requests.specs.Reading.{Gives, formed, whole_form, bit_form};
ghost use Rattle.rpc_requests.specs.Drivers.{driver_tagged_at, driver_type_at, kind_of_form, long_form_at, narrow_form, narrow_or_chunks, number_form, number_form_at, text_form_at, wide_form, wide_or_chunks};

use crate::fault::{ReadFault, RpcKind, refused};
use crate::fields::{part_at, u8_at};
use crate::types::{
    BIGVARCHARTYPE, BITNTYPE, Form, INTNTYPE, MOST, NVARCHARTYPE, bit_form, formed, kind_of,
    size_in, whole_form,
};
use value_types::SqlType;

/// How a value is spelled, as its type says. Where there is a `bool`, it says whether two bytes
/// of a text make a unit, or one.
#[derive(Clone, Copy)]
pub(crate) enum DriverForm {
    /// A number or a bit of the type, behind its length.
    Number(SqlType),
    /// A text of at most so many bytes, behind a length of two bytes.
    Sized(bool, u16),
    /// A text behind a length of four bytes.
    Long(bool),
    /// A text in chunks.
    Chunks(bool),
}

/// The type of texts of 16-bit units, with blanks at their end.
const NCHARTYPE: u8 = 0xEF;

/// The type of texts of bytes, with blanks at their end.
const BIGCHARTYPE: u8 = 0xAF;

/// The type NTEXT.
const NTEXTTYPE: u8 = 0x63;

/// The type TEXT.
const TEXTTYPE: u8 = 0x23;

/// The size of what has no largest one.
const MAX_SIZE: u16 = 0xFFFF;

/// The type that a parameter of the form gets.
pub(crate) fn kind_of_form(form: DriverForm) -> SqlType
    ensures { result ≡ kind_of_form form }
{
    match form {
        DriverForm::Number(kind) => kind,
        DriverForm::Sized(true, size) => SqlType::NText(size / 2),
        DriverForm::Sized(false, size) => SqlType::NText(size.min(MOST / 2)),
        DriverForm::Long(_) | DriverForm::Chunks(_) => SqlType::NText(MOST / 2),
    }
}

/// The form that a type says.
#[tactic(auto, unfolding(crate::specs::Drivers::driver_type_at))]
pub(crate) fn driver_type_at(bytes: &[u8]) -> Result<(DriverForm, &[u8]), ReadFault>
    ensures { Gives (λ x. (x.0, x.1.now)) result (driver_type_at bytes.now) }
{
    let (tag, _) = u8_at(bytes)?;
    driver_tagged_at(tag, bytes)
}

/// The form of the type that begins with this byte.
#[tactic(auto, unfolding(crate::specs::Drivers::driver_tagged_at, crate::specs::Drivers::number_form_at, crate::specs::Drivers::text_form_at))]
fn driver_tagged_at(tag: u8, bytes: &[u8]) -> Result<(DriverForm, &[u8]), ReadFault>
    ensures { Gives (λ x. (x.0, x.1.now)) result (driver_tagged_at tag bytes.now) }
{
    match tag {
        INTNTYPE => {
            let (front, rest) = part_at(2, bytes)?;
            formed(bytes, number_form(whole_form(front[1])), rest)
        }
        BITNTYPE => {
            let (front, rest) = part_at(2, bytes)?;
            formed(bytes, number_form(bit_form(front[1])), rest)
        }
        NVARCHARTYPE => {
            let (front, rest) = part_at(8, bytes)?;
            formed(bytes, wide_or_chunks(size_in(front)), rest)
        }
        BIGVARCHARTYPE => {
            let (front, rest) = part_at(8, bytes)?;
            formed(bytes, narrow_or_chunks(size_in(front)), rest)
        }
        NCHARTYPE => {
            let (front, rest) = part_at(8, bytes)?;
            formed(bytes, wide_form(size_in(front)), rest)
        }
        BIGCHARTYPE => {
            let (front, rest) = part_at(8, bytes)?;
            formed(bytes, narrow_form(size_in(front)), rest)
        }
        NTEXTTYPE => long_form_at(true, bytes),
        TEXTTYPE => long_form_at(false, bytes),
        _ => Err(refused(RpcKind::Kind, bytes)),
    }
}

/// A number or a bit of a form, where there is one.
fn number_form(form: Option<Form>) -> Option<DriverForm>
    ensures { result ≡ number_form form }
{
    match form {
        None => None,
        Some(form) => Some(DriverForm::Number(kind_of(form))),
    }
}

/// A text with a size of four bytes.
#[tactic(auto, unfolding(crate::specs::Drivers::long_form_at))]
fn long_form_at(wide: bool, bytes: &[u8]) -> Result<(DriverForm, &[u8]), ReadFault>
    ensures { Gives (λ x. (x.0, x.1.now)) result (long_form_at wide bytes.now) }
{
    let (_, rest) = part_at(10, bytes)?;
    Ok((DriverForm::Long(wide), rest))
}

/// Texts of so many bytes, of which two make a unit.
fn wide_form(size: u16) -> Option<DriverForm>
    ensures { result ≡ wide_form size }
{
    if size % 2 == 1 || size == 0 || MOST < size {
        return None;
    }
    Some(DriverForm::Sized(true, size))
}

/// Texts of so many bytes, each a unit.
fn narrow_form(size: u16) -> Option<DriverForm>
    ensures { result ≡ narrow_form size }
{
    if size == 0 || MOST < size {
        return None;
    }
    Some(DriverForm::Sized(false, size))
}

/// The same as [`wide_form`], and the size of MAX.
fn wide_or_chunks(size: u16) -> Option<DriverForm>
    ensures { result ≡ wide_or_chunks size }
{
    match size {
        MAX_SIZE => Some(DriverForm::Chunks(true)),
        _ => wide_form(size),
    }
}

/// The same as [`narrow_form`], and the size of MAX.
fn narrow_or_chunks(size: u16) -> Option<DriverForm>
    ensures { result ≡ narrow_or_chunks size }
{
    match size {
        MAX_SIZE => Some(DriverForm::Chunks(false)),
        _ => narrow_form(size),
    }
}
