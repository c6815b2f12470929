//! Values converted to other types.

ghost use Rattle.std.specs.Prelude.{◌≡◌, zip, take, IsTrue, Ok};
ghost use Rattle.std.specs.List.{list_all};
ghost use Rattle.std.specs.Char.{to_ascii_lowercase};
ghost use Rattle.value_types.specs.Types.{is_in_range};
ghost use Rattle.convert_rules.specs.Conversion.{Gives, bit_in, bit_number, cast_of, converted, decimal_in, from_text, from_whole, is_letter, is_text, says, text_in, whole_in};
ghost use Rattle.convert_rules.specs.Partial.{bit_of_read, whole_of};

use crate::fault::ConvertFault;
use crate::reading::{TextNumber, read_number};
use itoa::Buffer;
use std::alloc::Global;
use value_types::{SqlType, Units, Value};

/// The value as one of the type `to`. A text that is too long is refused. The value says by itself of
/// which kind it comes, so nothing hangs on `from`, by which [`error_of`] names a fault.
pub fn convert(
    alloc: Global,
    value: &Value,
    from: SqlType,
    to: SqlType,
) -> Result<Value, ConvertFault>
    ensures value { Gives result (converted value.now to) }
    ensures memory { result ≡ Err ConvertFault.Memory → IsTrue (is_text to) }
{
    match value {
        Value::Null => Ok(Value::Null),
        Value::Whole(number) => from_whole(alloc, to, *number),
        Value::Bit(bit) => from_whole(alloc, to, bit_number(*bit)),
        Value::Text(units) => from_text(alloc, to, units),
    }
}

/// The value as one of the type `to`, as by [`convert`], but a text that is too long is cut.
pub fn cast(alloc: Global, value: &Value, from: SqlType, to: SqlType) -> Result<Value, ConvertFault>
    ensures value { Gives result (cast_of value.now to) }
    ensures memory { result ≡ Err ConvertFault.Memory → IsTrue (is_text to) }
{
    match (value, to) {
        (Value::Text(units), SqlType::NText(size)) => text_cut(alloc, size, units),
        _ => convert(alloc, value, from, to),
    }
}

/// A whole number as a value of the type.
fn from_whole(alloc: Global, to: SqlType, number: i64) -> Result<Value, ConvertFault>
    ensures value { Gives result (from_whole to number) }
    ensures memory { result ≡ Err ConvertFault.Memory → IsTrue (is_text to) }
{
    match to {
        SqlType::Bit => Ok(Value::Bit(number != 0)),
        SqlType::NText(size) => decimal_in(alloc, size, number),
        SqlType::TinyInt | SqlType::SmallInt | SqlType::Int | SqlType::BigInt => {
            whole_in(to, number)
        }
    }
}

/// A text as a value of the type.
#[tactic(auto, using(crate::proofs::Known::known_rules))]
fn from_text(alloc: Global, to: SqlType, units: &Units) -> Result<Value, ConvertFault>
    ensures value { Gives result (from_text to units.now) }
    ensures memory { result ≡ Err ConvertFault.Memory → IsTrue (is_text to) }
{
    match to {
        SqlType::Bit => bit_in(units.as_slice()),
        SqlType::NText(size) => text_in(alloc, size, units),
        SqlType::TinyInt | SqlType::SmallInt | SqlType::Int | SqlType::BigInt => {
            read_whole(to, read_number(units.as_slice()))
        }
    }
}

/// The number, where the type of whole numbers has it.
fn whole_in(kind: SqlType, number: i64) -> Result<Value, ConvertFault>
    ensures { result ≡ whole_in kind number }
{
    if is_in_range(kind, number) {
        Ok(Value::Whole(number))
    } else {
        Err(ConvertFault::Overflow)
    }
}

/// The decimal digits of a number, where they are not longer than the type.
fn decimal_in(alloc: Global, size: u16, number: i64) -> Result<Value, ConvertFault>
    ensures { Gives result (decimal_in size number) }
{
    let mut buffer = Buffer::new();
    let digits = buffer.format(number).as_bytes();
    if digits.len() <= usize::from(size) {
        Ok(Value::Text(Units::of_ascii(alloc, digits)?))
    } else {
        Err(ConvertFault::Overflow)
    }
}

/// The number of a bit.
fn bit_number(bit: bool) -> i64
    ensures { result ≡ bit_number bit }
{
    if bit { 1 } else { 0 }
}

/// What was read of a text as a number of a type of whole numbers.
fn read_whole(kind: SqlType, read: TextNumber) -> Result<Value, ConvertFault>
    ensures { result ≡ whole_of kind read }
{
    match read {
        TextNumber::NoNumber => Err(ConvertFault::NotANumber),
        TextNumber::Beyond => Err(ConvertFault::Overflow),
        TextNumber::Known(number) => whole_in(kind, number),
    }
}

/// A text as a bit.
#[tactic(auto, using(crate::proofs::Known::known_rules))]
fn bit_in(units: &[u16]) -> Result<Value, ConvertFault>
    ensures { result ≡ bit_in units.now }
{
    if says(units, "true") {
        Ok(Value::Bit(true))
    } else if says(units, "false") {
        Ok(Value::Bit(false))
    } else {
        read_bit(read_number(units))
    }
}

/// What was read of a text as a bit.
fn read_bit(read: TextNumber) -> Result<Value, ConvertFault>
    ensures { result ≡ bit_of_read read }
{
    match read {
        TextNumber::NoNumber => Err(ConvertFault::NotANumber),
        TextNumber::Beyond => Ok(Value::Bit(true)),
        TextNumber::Known(number) => Ok(Value::Bit(number != 0)),
    }
}

/// A text, where it is not longer than the type.
fn text_in(alloc: Global, size: u16, units: &Units) -> Result<Value, ConvertFault>
    ensures { Gives result (text_in size units.now) }
{
    if units.len() <= usize::from(size) {
        Ok(Value::Text(units.copy(alloc)?))
    } else {
        Err(ConvertFault::TooLong)
    }
}

/// The first units of a text, as many as the type has.
fn text_cut(alloc: Global, size: u16, units: &Units) -> Result<Value, ConvertFault>
    ensures { Gives result (Ok (Value.Text (take size units.now))) }
{
    let most = units.len().min(usize::from(size));
    let (kept, _) = units.as_slice().split_at(most);
    Ok(Value::Text(Units::from(Vec::from_slice(alloc, kept)?)))
}

/// Whether a number is in the range of a type of whole numbers.
fn is_in_range(kind: SqlType, number: i64) -> bool
    ensures { result ≡ is_in_range kind number }
{
    match kind {
        SqlType::TinyInt => (0..=255).contains(&number),
        SqlType::SmallInt => (-32768..=32767).contains(&number),
        SqlType::Int => (-2147483648..=2147483647).contains(&number),
        SqlType::BigInt => true,
        SqlType::Bit | SqlType::NText(_) => false,
    }
}

/// Whether units are this word of small letters, in letters of either case.
fn says(units: &[u16], word: &str) -> bool
    ensures { result ≡ says word.now units.now }
{
    let word = word.as_bytes();
    units.len() == word.len() && are_letters(units, word)
}

/// Whether each unit is the small letter beside it, or its capital.
fn are_letters(units: &[u16], word: &[u8]) -> bool
    ensures { result ≡ list_all is_letter (zip units.now word.now) }
{
    units
        .iter()
        .zip(word)
        .all(|(unit, letter)| small_letter(*unit) == u16::from(*letter))
}

/// The unit, or the small letter of a capital of ASCII.
fn small_letter(unit: u16) -> u16
    ensures { result ≡ to_ascii_lowercase unit }
{
    if (0x41..=0x5A).contains(&unit) {
        unit + 0x20
    } else {
        unit
    }
}
