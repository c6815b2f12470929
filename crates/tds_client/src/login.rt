//! The user and the password of a client, and what its PRELOGIN and its LOGIN7 carry.

ghost use Rattle.std.specs.Prelude.{◌≡◌, ◌≤◌, ◌++◌, length, IfOk, OnOk};
ghost use Rattle.tds_client.specs.Sending.{FitsLogin, login_back, login_front, login_payload, login_places, name_limit, password_byte, password_bytes, place_bytes, prelogin_payload, three_empty};

use crate::batch::put_units;
use std::alloc::Global;
use value_types::{Memory, Units};

/// Who logs in. It is not `Debug`, which would print the password.
#[derive(Drop)]
pub struct ClientLogin {
    /// The user.
    pub user: Units,
    /// That user's password.
    pub password: Units,
}

/// Two options and the terminator, and behind them VERSION 0 and ENCRYPTION not supported.
#[rattlefmt::skip]
const PRELOGIN_PAYLOAD: [u8; 18] = [
    0x00, 0x00, 0x0B, 0x00, 0x06,
    0x01, 0x00, 0x11, 0x00, 0x01,
    0xFF,
    0x00, 0x00, 0x00, 0x00, 0x00, 0x00,
    0x02,
];

/// How many bytes the fixed part of a LOGIN7 has.
const FIXED_LEN: u16 = 94;

/// Behind Length: TDSVersion, PacketSize, ClientProgVer, ClientPID, ConnectionID, the flags, the time zone and the LCID.
#[rattlefmt::skip]
const NUMBERS: [u8; 32] = [
    0x04, 0x00, 0x00, 0x74,
    0x00, 0x10, 0x00, 0x00,
    0x00, 0x00, 0x00, 0x00, 0x00, 0x00, 0x00, 0x00, 0x00, 0x00, 0x00, 0x00,
    0x00, 0x00, 0x00, 0x00,
    0x00, 0x00, 0x00, 0x00,
    0x09, 0x04, 0x00, 0x00,
];

/// What a PRELOGIN carries.
#[tactic(auto, unfolding(crate::specs::Sending::prelogin_payload))]
pub(crate) fn prelogin_payload() -> [u8; 18]
    ensures { result ≡ prelogin_payload }
{
    PRELOGIN_PAYLOAD
}

/// What a LOGIN7 carries that has this user and password, and nothing else.
#[tactic(auto, unfolding(crate::specs::Sending::login_payload))]
pub(crate) fn login_payload(alloc: Global, login: &ClientLogin) -> Result<Vec<u8>, Memory>
    requires { FitsLogin login.now }
    ensures { IfOk result (λ payload. payload.items ≡ login_payload login.now) }
{
    let user = count_of(&login.user);
    let password = count_of(&login.password);
    let start = FIXED_LEN + 2 * user;
    let end = start + 2 * password;
    let mut out = Vec::new(alloc);
    put_front(&mut out, end)?;
    put_places(&mut out, user, start, password, end)?;
    put_back(&mut out, end)?;
    put_units(&mut out, login.user.as_slice())?;
    put_password(alloc, &mut out, login.password.as_slice())?;
    Ok(out)
}

/// How many units a user or a password has.
fn count_of(name: &Units) -> u16
    requires { length name.now ≤ name_limit }
    ensures { result ≡ length name.now }
{
    name.len() as u16
}

/// Appends what stands in front of the places of fields.
#[tactic(auto, unfolding(crate::specs::Sending::login_front))]
fn put_front(out: &mut Vec<u8>, end: u16) -> Result<(), Memory>
    ensures { OnOk result (out.new.items ≡ out.old.items ++ login_front end) }
{
    out.extend_from_slice(&u32::from(end).to_le_bytes())?;
    out.extend_from_slice(&NUMBERS)?;
    Ok(())
}

/// Appends the places of the fields from HostName to Database.
#[tactic(auto, unfolding(crate::specs::Sending::login_places))]
fn put_places(
    out: &mut Vec<u8>,
    user: u16,
    start: u16,
    password: u16,
    end: u16,
) -> Result<(), Memory>
    ensures { OnOk result (out.new.items ≡ out.old.items ++ login_places user start password end) }
{
    put_place(out, FIXED_LEN, 0)?;
    put_place(out, FIXED_LEN, user)?;
    put_place(out, start, password)?;
    put_three_empty(out, end)?;
    put_three_empty(out, end)?;
    Ok(())
}

/// Appends ClientID, and the places of the fields from SSPI on.
#[tactic(auto, unfolding(crate::specs::Sending::login_back))]
fn put_back(out: &mut Vec<u8>, end: u16) -> Result<(), Memory>
    ensures { OnOk result (out.new.items ≡ out.old.items ++ login_back end) }
{
    out.extend_from_slice(&[0, 0, 0, 0, 0, 0])?;
    put_three_empty(out, end)?;
    out.extend_from_slice(&[0, 0, 0, 0])?;
    Ok(())
}

/// Appends the places of three fields that are empty.
#[tactic(auto, unfolding(crate::specs::Sending::three_empty))]
fn put_three_empty(out: &mut Vec<u8>, start: u16) -> Result<(), Memory>
    ensures { OnOk result (out.new.items ≡ out.old.items ++ three_empty start) }
{
    put_place(out, start, 0)?;
    put_place(out, start, 0)?;
    put_place(out, start, 0)
}

/// Appends where a field begins, and how many characters it has.
fn put_place(out: &mut Vec<u8>, start: u16, count: u16) -> Result<(), Memory>
    ensures { OnOk result (out.new.items ≡ out.old.items ++ place_bytes start count) }
{
    out.extend_from_slice(&start.to_le_bytes())?;
    out.extend_from_slice(&count.to_le_bytes())?;
    Ok(())
}

/// Appends a password as it is sent.
fn put_password(alloc: Global, out: &mut Vec<u8>, password: &[u16]) -> Result<(), Memory>
    ensures { OnOk result (out.new.items ≡ out.old.items ++ password_bytes password.now) }
{
    let mut plain = Vec::new(alloc);
    put_units(&mut plain, password)?;
    let sent: Vec<u8> = plain
        .iter()
        .map(|byte| password_byte(*byte))
        .collect(alloc)?;
    out.extend_from_slice(&sent)?;
    Ok(())
}

/// A byte of a password as it is sent.
fn password_byte(byte: u8) -> u8
    ensures { result ≡ password_byte byte }
{
    let swapped = (byte % 16) * 16 + byte / 16;
    swapped ^ 0xA5
}
