//! LOGIN7 ([MS-TDS] 2.2.6.4).

ghost use Rattle.std.specs.Prelude.{◌≡◌, ◌+◌, ◌++◌, ◌≤◌, ◌<◌, ◌^◌, ◌⊎◌, length, None, IfOk, IfErr, IsOk, IsTrue};
ghost use Rattle.std.specs.Result.{result_err};
ghost use Rattle.std.specs.List.{find, list_all};
ghost use Rattle.value_types.specs.Units.{units_of};
ghost use Rattle.tds_login.specs.Login.{login_of, fixed_length, login_length, long_at, short_at, fields, is_outside, field_bytes, plain_byte, password_units};
ghost use Rattle.tds_login.specs.Inside.{is_placed, IsInside, IsServed};
ghost use Rattle.tds_login.specs.declared.login.LoginFault.TheVariants.{Memory as NoMemory};

use byteorder::{ByteOrder, LittleEndian};
use std::alloc::{AllocError, AllocFailed, Global};
use thiserror::Error;
use value_types::{Units, units_of_le};

/// The version of the protocol that is served.
pub(crate) const TDS_7_4: u32 = 0x7400_0004;

/// How many bytes the fixed part has.
const FIXED_LEN: usize = 94;

/// Where TDSVersion stands.
const TDS_VERSION: usize = 4;

/// Where PacketSize stands.
const PACKET_SIZE: usize = 8;

/// Where the offset and the count of UserName stand.
const USER_NAME: usize = 40;

/// Where the offset and the count of Password stand.
const PASSWORD: usize = 44;

/// Where the offset and the count of Database stand.
const DATABASE: usize = 68;

/// A field of the variable part.
#[derive(Clone, Copy)]
pub(crate) struct Field {
    /// Its number, in the order of the fixed part.
    pub(crate) number: u8,
    /// Where its offset stands, and behind that its count.
    pub(crate) place: usize,
    /// How many bytes it counts as one.
    pub(crate) unit: usize,
}

/// The fields: HostName, UserName, Password, AppName, ServerName, Extension, CltIntName, Language,
/// Database, SSPI, AtchDBFile and ChangePassword.
#[rattlefmt::skip]
const FIELDS: [Field; 12] = [
    Field { number: 0, place: 36, unit: 2 },
    Field { number: 1, place: USER_NAME, unit: 2 },
    Field { number: 2, place: PASSWORD, unit: 2 },
    Field { number: 3, place: 48, unit: 2 },
    Field { number: 4, place: 52, unit: 2 },
    Field { number: 5, place: 56, unit: 1 },
    Field { number: 6, place: 60, unit: 2 },
    Field { number: 7, place: 64, unit: 2 },
    Field { number: 8, place: DATABASE, unit: 2 },
    Field { number: 9, place: 78, unit: 1 },
    Field { number: 10, place: 82, unit: 2 },
    Field { number: 11, place: 86, unit: 2 },
];

/// What a LOGIN7 says, as far as it is looked at. It is not `Debug`, which would print the password.
#[derive(Drop)]
pub struct Login {
    /// The version of the protocol.
    pub version: u32,
    /// The packet size that the client asks for, in bytes.
    pub packet_size: u32,
    /// The user.
    pub user: Units,
    /// The user's password.
    pub password: Units,
    /// The database, or nothing.
    pub database: Units,
}

/// Why a payload is no LOGIN7 that is served.
#[derive(Clone, Copy, Debug, Error)]
pub enum LoginFault {
    /// It has fewer than the 94 bytes of the fixed part.
    #[error("the login has fewer than 94 bytes")]
    Short,
    /// Its Length field is below 94 or above the payload.
    #[error("the Length of the login is below 94 or above its bytes")]
    Length,
    /// It is of another version than TDS 7.4.
    #[error("the version of the login is not TDS 7.4")]
    Version,
    /// A field passes the Length field.
    #[error("field {field} passes the Length of the login")]
    Range {
        /// The field's number, in the order of the fixed part.
        field: u8,
    },
    /// Memory was wanting.
    #[error("memory was wanting")]
    Memory,
}

impl From<AllocError> for LoginFault {
    ghost from_gives = { λ _ fault. fault ≡ NoMemory };

    fn from(_e: AllocError) -> LoginFault {
        LoginFault::Memory
    }
}

impl<T: Drop> From<AllocFailed<T>> for LoginFault {
    ghost from_gives = { λ _ fault. fault ≡ NoMemory };

    fn from(_e: AllocFailed<T>) -> LoginFault {
        LoginFault::Memory
    }
}

/// What a payload says as a LOGIN7, or its refusal. Memory is wanting only where the payload is not
/// refused.
pub fn read_login(alloc: Global, payload: &[u8]) -> Result<Login, LoginFault>
    ensures read { IfOk result (λ login. login_of payload.now ≡ Ok login) }
    ensures refused { IfErr result (λ fault. ((fault ≡ LoginFault.Memory) × IsOk (login_of payload.now)) ⊎ (login_of payload.now ≡ Err fault)) }
{
    match refusal(payload) {
        Some(fault) => Err(fault),
        None => login_in(alloc, payload),
    }
}

/// Bytes behind the Length field of a login of at least 94 bytes change nothing of what it says.
pub fn law_login_length(login: &[u8], rest: &[u8])
    ensures { fixed_length ≤ length login.now → login_length login.now ≡ length login.now → login_of (login.now ++ rest.now) ≡ login_of login.now }
{}

/// Why a payload is refused.
#[tactic(auto, unfolding(crate::specs::Login::login_of))]
fn refusal(payload: &[u8]) -> Option<LoginFault>
    ensures { result ≡ result_err (login_of payload.now) }
{
    if payload.len() < FIXED_LEN {
        return Some(LoginFault::Short);
    }
    let length = long_at(payload, 0) as usize;
    if length < FIXED_LEN || payload.len() < length {
        return Some(LoginFault::Length);
    }
    let version = long_at(payload, TDS_VERSION);
    if version != TDS_7_4 {
        return Some(LoginFault::Version);
    }
    let field = first_outside(payload, &FIELDS)?;
    Some(LoginFault::Range {
        field: field.number,
    })
}

/// The first of the fields that passes the Length field.
fn first_outside(payload: &[u8], fields: &[Field]) -> Option<Field>
    requires fixed { fixed_length ≤ length payload.now }
    requires places { IsTrue (list_all is_placed fields.now) }
    ensures { result ≡ find (is_outside payload.now) fields.now }
{
    for field in fields {
        if is_outside(payload, field) {
            return Some(*field);
        }
    }
    None
}

/// A field has something, and passes the Length field.
fn is_outside(payload: &[u8], field: &Field) -> bool
    requires fixed { fixed_length ≤ length payload.now }
    requires place { IsTrue (is_placed field.now) }
    ensures { result ≡ is_outside payload.now field.now }
{
    let count = short_at(payload, field.place + 2);
    let end = short_at(payload, field.place) + field.unit * count;
    count != 0 && (long_at(payload, 0) as usize) < end
}

/// What a payload says that is not refused.
fn login_in(alloc: Global, payload: &[u8]) -> Result<Login, LoginFault>
    requires { IsServed payload.now }
    ensures read { IfOk result (λ login. login_of payload.now ≡ Ok login) }
    ensures memory { IfErr result (λ fault. fault ≡ LoginFault.Memory) }
{
    Ok(Login {
        version: long_at(payload, TDS_VERSION),
        packet_size: long_at(payload, PACKET_SIZE),
        user: units(alloc, field_bytes(payload, USER_NAME))?,
        password: password_units(alloc, field_bytes(payload, PASSWORD))?,
        database: units(alloc, field_bytes(payload, DATABASE))?,
    })
}

/// The bytes of a field of characters, by where its offset and its count stand.
fn field_bytes(payload: &[u8], place: usize) -> &[u8]
    requires fixed { place + 4 ≤ length payload.now }
    requires inside { IsInside payload.now place }
    ensures { result.now ≡ field_bytes payload.now place }
{
    let count = short_at(payload, place + 2);
    if count == 0 {
        return &[];
    }
    let (_, behind) = payload.split_at(short_at(payload, place));
    let (bytes, _) = behind.split_at(2 * count);
    bytes
}

/// The units that the bytes are.
fn units(alloc: Global, bytes: &[u8]) -> Result<Units, LoginFault>
    ensures read { IfOk result (λ units. units ≡ units_of bytes.now) }
    ensures memory { IfErr result (λ fault. fault ≡ LoginFault.Memory) }
{
    match units_of_le(alloc, bytes) {
        Ok(units) => Ok(units),
        Err(_) => Err(LoginFault::Memory),
    }
}

/// The units of a password, by its bytes as they are sent.
fn password_units(alloc: Global, bytes: &[u8]) -> Result<Units, LoginFault>
    ensures read { IfOk result (λ units. units ≡ password_units bytes.now) }
    ensures memory { IfErr result (λ fault. fault ≡ LoginFault.Memory) }
{
    let plain: Vec<u8> = bytes.iter().map(|byte| plain_byte(*byte)).collect(alloc)?;
    units(alloc, &plain)
}

/// A byte of a password, by the byte that is sent for it.
fn plain_byte(byte: u8) -> u8
    ensures { result ≡ plain_byte byte }
{
    let turned = byte ^ 0xA5;
    (turned % 16) * 16 + turned / 16
}

/// A number of four bytes, the lowest first.
fn long_at(payload: &[u8], offset: usize) -> u32
    requires { offset + 4 ≤ length payload.now }
    ensures { result ≡ long_at payload.now offset }
{
    let (_, behind) = payload.split_at(offset);
    LittleEndian::read_u32(behind)
}

/// A number of two bytes, the lower first.
fn short_at(payload: &[u8], offset: usize) -> usize
    requires { offset + 2 ≤ length payload.now }
    ensures value { result ≡ short_at payload.now offset }
    ensures small { result < 2 ^ 16 }
{
    let (_, behind) = payload.split_at(offset);
    usize::from(LittleEndian::read_u16(behind))
}
