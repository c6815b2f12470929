//! The numbers of the tokens' bytes, under their names in [MS-TDS], and the server's name.

ghost use Rattle.std.specs.Prelude.{◌≡◌, IfOk};
ghost use Rattle.tds_tokens.specs.Spelling.{server_name};

use std::alloc::Global;
use value_types::{Memory, Units, units_of_le};

/// The tag of RETURNSTATUS (2.2.7.18).
pub(crate) const RETURNSTATUS: u8 = 0x79;

/// The tag of RETURNVALUE (2.2.7.19).
pub(crate) const RETURNVALUE: u8 = 0xAC;

/// The tag of COLMETADATA (2.2.7.4).
pub(crate) const COLMETADATA: u8 = 0x81;

/// The tag of ERROR (2.2.7.10).
pub(crate) const ERROR: u8 = 0xAA;

/// The tag of INFO (2.2.7.13).
pub(crate) const INFO: u8 = 0xAB;

/// The tag of LOGINACK (2.2.7.14).
pub(crate) const LOGINACK: u8 = 0xAD;

/// The tag of ROW (2.2.7.20).
pub(crate) const ROW: u8 = 0xD1;

/// The tag of ENVCHANGE (2.2.7.9).
pub(crate) const ENVCHANGE: u8 = 0xE3;

/// The tag of DONE (2.2.7.6).
pub(crate) const DONE: u8 = 0xFD;

/// The tag of DONEPROC (2.2.7.8).
pub(crate) const DONEPROC: u8 = 0xFE;

/// The tag of DONEINPROC (2.2.7.7).
pub(crate) const DONEINPROC: u8 = 0xFF;

/// The interface of LOGINACK, SQL_TSQL: Transact-SQL (2.2.7.14).
pub(crate) const SQL_TSQL: u8 = 1;

/// The type of whole numbers that may be NULL (2.2.5.4.2).
pub(crate) const INTNTYPE: u8 = 0x26;

/// The type of bits that may be NULL (2.2.5.4.2).
pub(crate) const BITNTYPE: u8 = 0x68;

/// The type of texts of units (2.2.5.4.2).
pub(crate) const NVARCHARTYPE: u8 = 0xE7;

/// The collation of every text: LCID 0x0409, fBinary2, version 0, SortId 0 (2.2.5.1.2).
pub const COLLATION: [u8; 5] = [0x09, 0x04, 0x00, 0x02, 0x00];

/// What stands in a text's place where it is NULL.
pub(crate) static CHARBIN_NULL: [u8; 2] = [0xFF, 0xFF];

/// What stands in any other value's place where it is NULL.
pub(crate) static GEN_NULL: [u8; 1] = [0];

/// What stands before a column's type: user type 0 and the flag fNullable (2.2.7.4).
pub(crate) const COLUMN_START: [u8; 6] = [0, 0, 0, 0, 1, 0];

/// What stands before the type of a returned value: that it is an OUTPUT parameter's, user type 0
/// and the flag fNullable (2.2.7.19).
pub(crate) const RETURN_VALUE_START: [u8; 7] = [1, 0, 0, 0, 0, 1, 0];

/// The name that the server gives itself, `tsqld`, behind its count.
pub(crate) const SERVER: [u8; 11] = [5, 0x74, 0, 0x73, 0, 0x71, 0, 0x6C, 0, 0x64, 0];

/// The name that the server gives itself.
pub fn server_name(alloc: Global) -> Result<Units, Memory>
    ensures { IfOk result (λ name. name ≡ server_name) }
{
    match units_of_le(alloc, &SERVER[1..]) {
        Ok(name) => Ok(name),
        Err(_) => Err(Memory),
    }
}
