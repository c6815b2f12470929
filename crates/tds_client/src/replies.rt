//! What a client makes of a server's replies.

ghost use Rattle.std.specs.Prelude.{◌≡◌, ◌≢◌, [], Some, Err, IfErr, IfOk};
ghost use Rattle.tds_tokens.specs.Ranges.{AreTokens};
ghost use Rattle.tds_tokens.specs.Spelling.{TokenBytes};
ghost use Rattle.tds_client.specs.Parts.{IsUnread};
ghost use Rattle.tds_client.specs.Replies.{error_number, first_error, greeting_of, is_granted, is_login_ack, is_plain, refusal_in, without_encryption};

use crate::end::{ClientEnd, end_of_tokens};
use crate::turn::Turn;
use std::alloc::Global;
use tds_login::read_prelogin;
use tds_tokens::{Token, read_tokens};

/// ENCRYPTION is available but off ([MS-TDS] 2.2.6.5).
const ENCRYPT_OFF: u8 = 0x00;

/// ENCRYPTION is not supported.
const ENCRYPT_NOT_SUP: u8 = 0x02;

/// Whether a client goes on behind a first reply of this payload, or its end.
#[tactic(auto, unfolding(crate::specs::Replies::greeting_of))]
pub(crate) fn judge_greeting(payload: &[u8]) -> Result<(), ClientEnd>
    ensures value { result ≡ greeting_of payload.now }
    ensures no_read_fault { result ≢ Err ClientEnd.ReadFault }
    ensures no_write_fault { result ≢ Err ClientEnd.WriteFault }
    ensures no_print_fault { result ≢ Err ClientEnd.PrintFault }
{
    match read_prelogin(payload) {
        Ok(said) => match said.encryption {
            None => Ok(()),
            Some(value) => without_encryption(value),
        },
        Err(fault) => Err(ClientEnd::BadPrelogin { fault }),
    }
}

/// The server asks for no encryption by this value; else the client ends.
fn without_encryption(value: u8) -> Result<(), ClientEnd>
    ensures value { result ≡ without_encryption (Some value) }
    ensures no_read_fault { result ≢ Err ClientEnd.ReadFault }
    ensures no_write_fault { result ≢ Err ClientEnd.WriteFault }
    ensures no_print_fault { result ≢ Err ClientEnd.PrintFault }
{
    if is_plain(value) {
        return Ok(());
    }
    Err(ClientEnd::Encrypted { value })
}

/// Whether what is sent behind the login is not encrypted.
fn is_plain(encryption: u8) -> bool
    ensures { result ≡ is_plain encryption }
{
    encryption == ENCRYPT_OFF || encryption == ENCRYPT_NOT_SUP
}

/// The tokens of a reply of this payload, or the client's end.
pub(crate) fn read_reply(alloc: Global, turn: Turn, payload: &[u8]) -> Result<Vec<Token>, ClientEnd>
    ensures tokens { IfOk result (λ tokens. AreTokens [] tokens.items × (TokenBytes tokens.items ≡ payload.now)) }
    ensures unread { IfErr result (IsUnread turn payload.now) }
    ensures no_read_fault { result ≢ Err ClientEnd.ReadFault }
    ensures no_write_fault { result ≢ Err ClientEnd.WriteFault }
    ensures no_print_fault { result ≢ Err ClientEnd.PrintFault }
{
    match read_tokens(alloc, payload) {
        Ok(tokens) => Ok(tokens),
        Err(fault) => Err(end_of_tokens(turn, fault)),
    }
}

/// Where the login is not granted, the number of the first ERROR, or 0.
pub(crate) fn refusal_in(tokens: &[Token]) -> Option<i32>
    ensures { result ≡ refusal_in tokens.now }
{
    if is_granted(tokens) {
        return None;
    }
    Some(first_error(tokens).unwrap_or(0))
}

/// Whether the login is granted.
fn is_granted(tokens: &[Token]) -> bool
    ensures { result ≡ is_granted tokens.now }
{
    tokens.iter().any(|token| is_login_ack(token))
}

/// Whether it is LOGINACK.
fn is_login_ack(token: &Token) -> bool
    ensures { result ≡ is_login_ack token.now }
{
    matches!(token, Token::LoginAck { .. })
}

/// The number of the first ERROR.
fn first_error(tokens: &[Token]) -> Option<i32>
    ensures { result ≡ first_error tokens.now }
{
    let mut left = tokens;
    while let [token, behind @ ..] = left {
        if let Some(number) = error_number(token) {
            return Some(number);
        }
        left = behind;
    }
    None
}

/// The number of an ERROR.
fn error_number(token: &Token) -> Option<i32>
    ensures { result ≡ error_number token.now }
{
    match token {
        Token::Error(notice) => Some(notice.number),
        _ => None,
    }
}
