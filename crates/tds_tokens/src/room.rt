//! Appending to a buffer that has the room, so that no memory is taken.

ghost use Rattle.std.specs.Prelude.{◌≡◌, ◌+◌, ◌*◌, ◌-◌, ◌^◌, ◌<◌, ◌≤◌, ◌++◌, length, OnOk, IsOk, vec_len, vec_capacity};
ghost use Rattle.std.specs.Int.{w16, w32, w64, to_le_bytes, to_be_bytes, cast_unsigned};
ghost use Rattle.value_types.specs.Units.{le_bytes_of};
ghost use Rattle.tds_tokens.specs.Spelling.{b_varbyte, b_varchar, us_varchar};

use byteorder::{BigEndian, ByteOrder, LittleEndian};
use std::alloc::AllocError;

/// Makes room for so many bytes, and takes no memory where it is there.
pub(crate) fn reserve(out: &mut Vec<u8>, size: usize) -> Result<(), AllocError>
    ensures items { out.new.items ≡ out.old.items }
    ensures len { vec_len out.new ≡ vec_len out.old }
    ensures room { OnOk result (vec_len out.new + size ≤ vec_capacity out.new) }
    ensures reserved { size ≤ vec_capacity out.old - vec_len out.old → IsOk result }
    ensures kept { size ≤ vec_capacity out.old - vec_len out.old → vec_capacity out.new ≡ vec_capacity out.old }
{
    if out.capacity() - out.len() < size {
        out.reserve(size)?;
    }
    Ok(())
}

/// Appends the bytes.
pub(crate) fn append(out: &mut Vec<u8>, bytes: &[u8])
    requires { vec_len out.old + length bytes.now ≤ vec_capacity out.old }
    ensures items { out.new.items ≡ out.old.items ++ bytes.now }
    ensures len { vec_len out.new ≡ vec_len out.old + length bytes.now }
    ensures capacity { vec_capacity out.new ≡ vec_capacity out.old }
{
    for byte in bytes {
        out.push_reserved(*byte);
    }
}

/// Appends a number of two bytes, the lower first.
pub(crate) fn put_u16(out: &mut Vec<u8>, number: u16)
    requires { vec_len out.old + 2 ≤ vec_capacity out.old }
    ensures items { out.new.items ≡ out.old.items ++ to_le_bytes w16 number }
    ensures len { vec_len out.new ≡ vec_len out.old + 2 }
    ensures capacity { vec_capacity out.new ≡ vec_capacity out.old }
{
    let mut bytes = [0; 2];
    LittleEndian::write_u16(&mut bytes, number);
    append(out, &bytes);
}

/// Appends a number of four bytes, the lowest first.
pub(crate) fn put_u32(out: &mut Vec<u8>, number: u32)
    requires { vec_len out.old + 4 ≤ vec_capacity out.old }
    ensures items { out.new.items ≡ out.old.items ++ to_le_bytes w32 number }
    ensures len { vec_len out.new ≡ vec_len out.old + 4 }
    ensures capacity { vec_capacity out.new ≡ vec_capacity out.old }
{
    let mut bytes = [0; 4];
    LittleEndian::write_u32(&mut bytes, number);
    append(out, &bytes);
}

/// Appends a signed number of four bytes in two's complement, the lowest first.
pub(crate) fn put_i32(out: &mut Vec<u8>, number: i32)
    requires { vec_len out.old + 4 ≤ vec_capacity out.old }
    ensures items { out.new.items ≡ out.old.items ++ to_le_bytes w32 (cast_unsigned w32 number) }
    ensures len { vec_len out.new ≡ vec_len out.old + 4 }
    ensures capacity { vec_capacity out.new ≡ vec_capacity out.old }
{
    put_u32(out, number.cast_unsigned());
}

/// Appends a number of four bytes, the highest first.
pub(crate) fn put_u32_be(out: &mut Vec<u8>, number: u32)
    requires { vec_len out.old + 4 ≤ vec_capacity out.old }
    ensures items { out.new.items ≡ out.old.items ++ to_be_bytes w32 number }
    ensures len { vec_len out.new ≡ vec_len out.old + 4 }
    ensures capacity { vec_capacity out.new ≡ vec_capacity out.old }
{
    let mut bytes = [0; 4];
    BigEndian::write_u32(&mut bytes, number);
    append(out, &bytes);
}

/// Appends a number of eight bytes, the lowest first.
pub(crate) fn put_u64(out: &mut Vec<u8>, number: u64)
    requires { vec_len out.old + 8 ≤ vec_capacity out.old }
    ensures items { out.new.items ≡ out.old.items ++ to_le_bytes w64 number }
    ensures len { vec_len out.new ≡ vec_len out.old + 8 }
    ensures capacity { vec_capacity out.new ≡ vec_capacity out.old }
{
    let mut bytes = [0; 8];
    LittleEndian::write_u64(&mut bytes, number);
    append(out, &bytes);
}

/// Appends bytes behind a count of one byte.
pub(crate) fn put_b_varbyte(out: &mut Vec<u8>, bytes: &[u8])
    requires count { length bytes.now < 2 ^ 8 }
    requires room { vec_len out.old + (1 + length bytes.now) ≤ vec_capacity out.old }
    ensures items { out.new.items ≡ out.old.items ++ b_varbyte bytes.now }
    ensures len { vec_len out.new ≡ vec_len out.old + (1 + length bytes.now) }
    ensures capacity { vec_capacity out.new ≡ vec_capacity out.old }
{
    append(out, &[bytes.len() as u8]);
    append(out, bytes);
}

/// Appends the units of a text, each as two bytes.
pub(crate) fn put_units(out: &mut Vec<u8>, units: &[u16])
    requires { vec_len out.old + 2 * length units.now ≤ vec_capacity out.old }
    ensures items { out.new.items ≡ out.old.items ++ le_bytes_of units.now }
    ensures len { vec_len out.new ≡ vec_len out.old + 2 * length units.now }
    ensures capacity { vec_capacity out.new ≡ vec_capacity out.old }
{
    for unit in units {
        put_u16(out, *unit);
    }
}

/// Appends a text behind a count of one byte.
pub(crate) fn put_b_varchar(out: &mut Vec<u8>, units: &[u16])
    requires count { length units.now < 2 ^ 8 }
    requires room { vec_len out.old + (1 + 2 * length units.now) ≤ vec_capacity out.old }
    ensures items { out.new.items ≡ out.old.items ++ b_varchar units.now }
    ensures len { vec_len out.new ≡ vec_len out.old + (1 + 2 * length units.now) }
    ensures capacity { vec_capacity out.new ≡ vec_capacity out.old }
{
    append(out, &[units.len() as u8]);
    put_units(out, units);
}

/// Appends a text behind a count of two bytes.
pub(crate) fn put_us_varchar(out: &mut Vec<u8>, units: &[u16])
    requires count { length units.now < 2 ^ 16 }
    requires room { vec_len out.old + (2 + 2 * length units.now) ≤ vec_capacity out.old }
    ensures items { out.new.items ≡ out.old.items ++ us_varchar units.now }
    ensures len { vec_len out.new ≡ vec_len out.old + (2 + 2 * length units.now) }
    ensures capacity { vec_capacity out.new ≡ vec_capacity out.old }
{
    put_u16(out, units.len() as u16);
    put_units(out, units);
}
