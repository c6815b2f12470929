//! PRELOGIN ([MS-TDS] 2.2.6.5).

ghost use Rattle.std.specs.Prelude.{◌≡◌, ◌+◌, ◌^◌, ◌<◌, ◌≤◌, length, Some, Ok, IfOk};
ghost use Rattle.byteorder.specs.Endian.{big_from};
ghost use Rattle.tds_login.specs.Prelogin.{option_at, prelogin_of, prelogin_reply, encrypt_not_sup};
ghost use Rattle.tds_login.specs.Walk.{judge, look_at};

use byteorder::{BigEndian, ByteOrder};
use std::alloc::Global;
use thiserror::Error;
use value_types::Memory;

/// The token that ends the list of options.
const TERMINATOR: u8 = 0xFF;

/// The token of ENCRYPTION.
const ENCRYPTION: u8 = 0x01;

/// How many bytes an option has: its token, and the place and the length of its value.
const OPTION_LEN: usize = 5;

/// VERSION 15.0.0.0, ENCRYPTION not supported, INSTOPT 0, THREADID empty, MARS off: five bytes for
/// each option, the terminator, and the values.
#[rattlefmt::skip]
const REPLY: [u8; 35] = [
    0x00, 0x00, 0x1A, 0x00, 0x06,
    0x01, 0x00, 0x20, 0x00, 0x01,
    0x02, 0x00, 0x21, 0x00, 0x01,
    0x03, 0x00, 0x22, 0x00, 0x00,
    0x04, 0x00, 0x22, 0x00, 0x01,
    0xFF,
    0x0F, 0x00, 0x00, 0x00, 0x00, 0x00,
    0x02,
    0x00,
    0x00,
];

/// What a PRELOGIN says.
#[derive(Clone, Copy)]
pub struct Prelogin {
    /// The value of ENCRYPTION, where the client sent one: 0 ENCRYPT_OFF, 1 ENCRYPT_ON, 2
    /// ENCRYPT_NOT_SUP, 3 ENCRYPT_REQ. The answer is ENCRYPT_NOT_SUP, whatever it is.
    pub encryption: Option<u8>,
}

/// Why a payload is no PRELOGIN.
#[derive(Clone, Copy, Debug, PartialEq, Eq, Error)]
pub enum PreloginFault {
    /// The list of options is not ended.
    #[error("the options of the PRELOGIN are not ended")]
    NoEnd,
    /// The value of an option passes the payload.
    #[error("option {option} passes the PRELOGIN")]
    Range {
        /// The option's token.
        option: u8,
    },
}

/// What a payload says as a PRELOGIN. Its end is looked for first, and then the options' places.
pub fn read_prelogin(payload: &[u8]) -> Result<Prelogin, PreloginFault>
    ensures { result ≡ prelogin_of payload.now }
{
    let mut seen = Seen {
        refused: None,
        encryption: None,
    };
    let mut rest = payload;
    while !rest.is_empty() {
        if rest[0] == TERMINATOR {
            return judge(seen);
        }
        if rest.len() < OPTION_LEN {
            return Err(PreloginFault::NoEnd);
        }
        let (option, behind) = rest.split_at(OPTION_LEN);
        seen = look_at(payload, seen, option);
        rest = behind;
    }
    Err(PreloginFault::NoEnd)
}

/// The payload of the reply to every PRELOGIN.
pub fn prelogin_reply(alloc: Global) -> Result<Vec<u8>, Memory>
    ensures { IfOk result (λ bytes. bytes.items ≡ prelogin_reply) }
{
    Ok(Vec::from_slice(alloc, &REPLY)?)
}

/// The reply is itself a PRELOGIN, and says that encryption is not supported.
#[tactic(auto, unfolding(crate::specs::Prelogin::prelogin_of))]
pub fn law_prelogin_reply()
    ensures { prelogin_of prelogin_reply ≡ Ok (record { encryption = Some encrypt_not_sup }) }
{}

/// What the options before a place have shown.
#[derive(Clone, Copy)]
pub(crate) struct Seen {
    /// The token of the first option whose value passes the payload.
    pub(crate) refused: Option<u8>,
    /// The value of the first ENCRYPTION that has one.
    pub(crate) encryption: Option<u8>,
}

/// What the options have shown with one more of them.
#[tactic(auto, unfolding(crate::specs::Walk::look_at))]
fn look_at(payload: &[u8], seen: Seen, option: &[u8]) -> Seen
    requires { 5 ≤ length option.now }
    ensures { result ≡ look_at payload.now seen (option_at option.now) }
{
    if seen.refused.is_some() {
        return seen;
    }
    let token = option[0];
    let offset = number_at(option, 1);
    let length = number_at(option, 3);
    if payload.len() < offset + length {
        return Seen {
            refused: Some(token),
            encryption: seen.encryption,
        };
    }
    if seen.encryption.is_none() && token == ENCRYPTION && 1 <= length {
        return Seen {
            refused: None,
            encryption: Some(payload[offset]),
        };
    }
    seen
}

/// A number of two bytes, the higher first.
fn number_at(bytes: &[u8], place: usize) -> usize
    requires { place + 2 ≤ length bytes.now }
    ensures value { result ≡ big_from place 2 bytes.now }
    ensures small { result < 2 ^ 16 }
{
    let (_, behind) = bytes.split_at(place);
    usize::from(BigEndian::read_u16(behind))
}

/// What the options say once their end was seen.
#[tactic(auto, unfolding(crate::specs::Walk::judge))]
fn judge(seen: Seen) -> Result<Prelogin, PreloginFault>
    ensures { result ≡ judge seen }
{
    match seen.refused {
        Some(option) => Err(PreloginFault::Range { option }),
        None => Ok(Prelogin {
            encryption: seen.encryption,
        }),
    }
}
