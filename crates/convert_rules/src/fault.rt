//! Why a value is not converted, and which error that is.

ghost use Rattle.std.specs.Prelude.{◌≡◌, ◌≢◌};
ghost use Rattle.value_types.specs.declared.sql_type.SqlType.{SqlType as Kind};
ghost use Rattle.value_types.specs.declared.value.Value.{Value as SqlValue};
ghost use Rattle.value_types.specs.declared.value.Value.TheVariants.{Null};
ghost use Rattle.value_types.specs.Types.{IsOf, type_of};
ghost use Rattle.convert_rules.specs.Conversion.{is_text};
ghost use Rattle.convert_rules.specs.Errors.{error_of, no_number, number_outside, text_outside};
ghost use Rattle.convert_rules.specs.declared.fault.ConvertFault.{ConvertFault as Fault};
ghost use Rattle.convert_rules.specs.declared.fault.ConvertFault.TheVariants.{Memory as NoMemory};

use std::alloc::{AllocError, AllocFailed};
use thiserror::Error;
use value_types::{Memory, SqlType, Value};

/// Why a value is not converted.
#[derive(Clone, Copy, Debug, Error)]
pub enum ConvertFault {
    /// The number is outside the type, or its digits are longer than the type.
    #[error("the number is outside the type")]
    Overflow,
    /// The text spells no number.
    #[error("the text spells no number")]
    NotANumber,
    /// The text is longer than the type.
    #[error("the text is too long")]
    TooLong,
    /// Memory was wanting.
    #[error("memory was wanting")]
    Memory,
}

impl From<Memory> for ConvertFault {
    ghost from_gives = { λ _ fault. fault ≡ NoMemory };

    fn from(_e: Memory) -> ConvertFault {
        ConvertFault::Memory
    }
}

impl From<AllocError> for ConvertFault {
    ghost from_gives = { λ _ fault. fault ≡ NoMemory };

    fn from(_e: AllocError) -> ConvertFault {
        ConvertFault::Memory
    }
}

impl<T: Drop> From<AllocFailed<T>> for ConvertFault {
    ghost from_gives = { λ _ fault. fault ≡ NoMemory };

    fn from(_e: AllocFailed<T>) -> ConvertFault {
        ConvertFault::Memory
    }
}

/// The number of the error that a fault of a conversion between these types is; `None` for want of
/// memory.
pub fn error_of(fault: ConvertFault, from: SqlType, to: SqlType) -> Option<i32>
    ensures { result ≡ error_of fault from to }
{
    match fault {
        ConvertFault::Overflow if is_text(from) => Some(text_outside(to)),
        ConvertFault::Overflow => Some(number_outside(to)),
        ConvertFault::NotANumber => Some(no_number(to)),
        ConvertFault::TooLong => Some(49006),
        ConvertFault::Memory => None,
    }
}

/// A type of the value's own kind, from which it is converted where no other is known.
pub fn type_of(value: &Value) -> SqlType
    ensures { result ≡ type_of value.now }
{
    match value {
        Value::Null => SqlType::Int,
        Value::Whole(_) => SqlType::BigInt,
        Value::Bit(_) => SqlType::Bit,
        Value::Text(_) => SqlType::NText(4000),
    }
}

/// The error of a fault is the same from every type that has the value. NULL is never refused.
pub fn law_error_of()
    ensures { (fault : Fault) (value : SqlValue) (from to : Kind) → value ≢ Null → IsOf from value
        → error_of fault from to ≡ error_of fault (type_of value) to }
{}

/// The error where a number is outside this type.
fn number_outside(to: SqlType) -> i32
    ensures { result ≡ number_outside to }
{
    match to {
        SqlType::TinyInt | SqlType::SmallInt => 220,
        SqlType::Int | SqlType::BigInt | SqlType::Bit | SqlType::NText(_) => 8115,
    }
}

/// The error where the number in a text is outside this type.
fn text_outside(to: SqlType) -> i32
    ensures { result ≡ text_outside to }
{
    match to {
        SqlType::TinyInt | SqlType::SmallInt => 244,
        SqlType::Int => 248,
        SqlType::BigInt | SqlType::Bit | SqlType::NText(_) => 8115,
    }
}

/// The error where a text is no number of this type.
fn no_number(to: SqlType) -> i32
    ensures { result ≡ no_number to }
{
    match to {
        SqlType::BigInt => 8114,
        _ => 245,
    }
}

/// Whether it is a type of texts.
fn is_text(kind: SqlType) -> bool
    ensures { result ≡ is_text kind }
{
    matches!(kind, SqlType::NText(_))
}
