//! Windows-1252, in which drivers send texts of bytes.

ghost use Rattle.std.specs.Prelude.{◌≡◌, map, IfOk};
ghost use Rattle.rpc_requests.specs.Drivers.{unit_of_byte, units_in};

use std::alloc::Global;
use value_types::{Memory, Units, units_of_le};

/// The units of the bytes from 0x80 to 0x9F. Five of them are no letters there, and stand for
/// themselves.
const WINDOWS_1252: [u16; 32] = [
    0x20AC, 0x0081, 0x201A, 0x0192, 0x201E, 0x2026, 0x2020, 0x2021, // 80
    0x02C6, 0x2030, 0x0160, 0x2039, 0x0152, 0x008D, 0x017D, 0x008F, // 88
    0x0090, 0x2018, 0x2019, 0x201C, 0x201D, 0x2022, 0x2013, 0x2014, // 90
    0x02DC, 0x2122, 0x0161, 0x203A, 0x0153, 0x009D, 0x017E, 0x0178, // 98
];

/// The units of bytes, of two each or of one. An odd byte at the end is no unit, and refused as if
/// memory were wanting: who asks has looked for one.
pub(crate) fn units_in(alloc: Global, wide: bool, bytes: &[u8]) -> Result<Units, Memory>
    ensures { IfOk result (λ units. units ≡ units_in wide bytes.now) }
{
    if wide {
        return match units_of_le(alloc, bytes) {
            Ok(units) => Ok(units),
            Err(_) => Err(Memory),
        };
    }
    letters_of(alloc, bytes)
}

/// The units of bytes, of one each.
fn letters_of(alloc: Global, bytes: &[u8]) -> Result<Units, Memory>
    ensures { IfOk result (λ units. units ≡ map unit_of_byte bytes.now) }
{
    let mut units = Vec::with_capacity(alloc, bytes.len())?;
    for byte in bytes {
        units.push(unit_of_byte(*byte))?;
    }
    Ok(Units::from(units))
}

/// The unit of a byte.
#[tactic(auto, unfolding(crate::specs::Drivers::unit_of_byte, crate::specs::Drivers::windows_1252))]
fn unit_of_byte(byte: u8) -> u16
    ensures { result ≡ unit_of_byte byte }
{
    if byte < 0x80 || 0xA0 <= byte {
        return u16::from(byte);
    }
    WINDOWS_1252[usize::from(byte - 0x80)]
}
