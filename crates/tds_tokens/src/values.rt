//! Writing types, and values as their types have them.

ghost use Rattle.std.specs.Prelude.{◌≡◌, ◌+◌, ◌*◌, ◌^◌, ◌<◌, ◌≤◌, ◌++◌, length, vec_len, vec_capacity};
ghost use Rattle.std.specs.Int.{w16, w64, to_le_bytes, cast_unsigned};
ghost use Rattle.value_types.specs.Units.{le_bytes_of};
ghost use Rattle.value_types.specs.declared.value.Value.TheVariants.{Null, Whole};
ghost use Rattle.tds_tokens.specs.Spelling.{row_bytes, value_bytes, type_info};
ghost use Rattle.tds_tokens.specs.Fit.{FitsColumns, FitsKind, FitsType};

use crate::columns::ColumnInfo;
use crate::room::{append, put_i32, put_u16, put_u64, put_units};
use crate::wire::{BITNTYPE, CHARBIN_NULL, COLLATION, GEN_NULL, INTNTYPE, NVARCHARTYPE};
use value_types::{SqlType, Value};

/// Appends what COLMETADATA says of a type.
pub(crate) fn put_type(out: &mut Vec<u8>, kind: SqlType)
    requires fits { FitsKind kind }
    requires room { vec_len out.old + length (type_info kind) ≤ vec_capacity out.old }
    ensures items { out.new.items ≡ out.old.items ++ type_info kind }
    ensures len { vec_len out.new ≡ vec_len out.old + length (type_info kind) }
    ensures capacity { vec_capacity out.new ≡ vec_capacity out.old }
{
    match kind {
        SqlType::TinyInt => append(out, &[INTNTYPE, 1]),
        SqlType::SmallInt => append(out, &[INTNTYPE, 2]),
        SqlType::Int => append(out, &[INTNTYPE, 4]),
        SqlType::BigInt => append(out, &[INTNTYPE, 8]),
        SqlType::Bit => append(out, &[BITNTYPE, 1]),
        SqlType::NText(size) => {
            append(out, &[NVARCHARTYPE]);
            put_u16(out, 2 * size);
            append(out, &COLLATION);
        }
    }
}

/// Appends the values, each as its column has it.
pub(crate) fn put_values(out: &mut Vec<u8>, columns: &[ColumnInfo], values: &[Value])
    requires fits { FitsColumns columns.now values.now }
    requires room { vec_len out.old + length (row_bytes columns.now values.now) ≤ vec_capacity out.old }
    ensures items { out.new.items ≡ out.old.items ++ row_bytes columns.now values.now }
    ensures len { vec_len out.new ≡ vec_len out.old + length (row_bytes columns.now values.now) }
    ensures capacity { vec_capacity out.new ≡ vec_capacity out.old }
{
    for (column, value) in columns.iter().zip(values) {
        put_value(out, column.kind, value);
    }
}

/// Appends a value as its column has it.
pub(crate) fn put_value(out: &mut Vec<u8>, kind: SqlType, value: &Value)
    requires fits { FitsType kind value.now }
    requires room { vec_len out.old + length (value_bytes kind value.now) ≤ vec_capacity out.old }
    ensures items { out.new.items ≡ out.old.items ++ value_bytes kind value.now }
    ensures len { vec_len out.new ≡ vec_len out.old + length (value_bytes kind value.now) }
    ensures capacity { vec_capacity out.new ≡ vec_capacity out.old }
{
    match value {
        Value::Null => append(out, null_of(kind)),
        Value::Whole(number) => put_whole(out, kind, *number),
        Value::Bit(bit) => append(out, &[1, u8::from(*bit)]),
        Value::Text(units) => put_text(out, units.as_slice()),
    }
}

/// What stands for NULL in a column of the type.
pub(crate) fn null_of(kind: SqlType) -> &'static [u8]
    ensures { result.now ≡ value_bytes kind Null }
{
    match kind {
        SqlType::NText(_) => &CHARBIN_NULL,
        SqlType::TinyInt | SqlType::SmallInt | SqlType::Int | SqlType::BigInt | SqlType::Bit =>
            &GEN_NULL,
    }
}

/// Appends a whole number behind its length, in two's complement.
fn put_whole(out: &mut Vec<u8>, kind: SqlType, number: i64)
    requires fits { FitsType kind (Whole number) }
    requires room { vec_len out.old + length (value_bytes kind (Whole number)) ≤ vec_capacity out.old }
    ensures items { out.new.items ≡ out.old.items ++ value_bytes kind (Whole number) }
    ensures len { vec_len out.new ≡ vec_len out.old + length (value_bytes kind (Whole number)) }
    ensures capacity { vec_capacity out.new ≡ vec_capacity out.old }
{
    match kind {
        SqlType::TinyInt => append(out, &[1, number as u8]),
        SqlType::SmallInt => {
            append(out, &[2]);
            put_u16(out, (number as i16).cast_unsigned());
        }
        SqlType::Int => {
            append(out, &[4]);
            put_i32(out, number as i32);
        }
        SqlType::BigInt => {
            append(out, &[8]);
            put_u64(out, number.cast_unsigned());
        }
        SqlType::Bit | SqlType::NText(_) => {}
    }
}

/// Appends a text behind its length in bytes.
fn put_text(out: &mut Vec<u8>, units: &[u16])
    requires count { 2 * length units.now < 2 ^ 16 }
    requires room { vec_len out.old + (2 + 2 * length units.now) ≤ vec_capacity out.old }
    ensures items { out.new.items ≡ out.old.items ++ (to_le_bytes w16 (2 * length units.now) ++ le_bytes_of units.now) }
    ensures len { vec_len out.new ≡ vec_len out.old + (2 + 2 * length units.now) }
    ensures capacity { vec_capacity out.new ≡ vec_capacity out.old }
{
    put_u16(out, (2 * units.len()) as u16);
    put_units(out, units);
}
