//! Reading what stands behind a token's tag and length.

ghost use Rattle.std.specs.Prelude.{◌≡◌};
ghost use Rattle.tds_tokens.specs.Spelling.{b_varchar, server_name};
ghost use Rattle.tds_tokens.specs.Reading.{Gives, strip, at_end, framed, login_ack_at, notice_at, said_at, env_at, env_of, finished_at, return_value_at};

use crate::env::{ENV_COLLATION, ENV_DATABASE, ENV_PACKET_SIZE, ENV_ROLLBACK};
use crate::fault::ReadFault;
use crate::notice::Notice;
use crate::reading::fields::{
    after, b_varbyte, b_varchar, body_at, i32_at, u8_at, u16_at, u32_be_at, u64_at, us_varchar,
};
use crate::reading::values::typed_at;
use crate::token::{DoneKind, Token};
use crate::wire::{RETURN_VALUE_START, SERVER, SQL_TSQL};
use std::alloc::Global;
use value_types::Units;

/// A LOGINACK token behind its tag.
pub(super) fn login_ack_framed(alloc: Global, bytes: &[u8]) -> Result<(Token, &[u8]), ReadFault>
    ensures { Gives (λ x. (x.0, x.1.now)) result (framed login_ack_at bytes.now) }
{
    let (body, rest) = body_at(bytes)?;
    let (token, left) = login_ack_at(alloc, body)?;
    at_end(token, left, rest)
}

/// An ERROR or INFO token behind its tag.
pub(super) fn notice_framed(alloc: Global, bytes: &[u8]) -> Result<(Notice, &[u8]), ReadFault>
    ensures { Gives (λ x. (x.0, x.1.now)) result (framed notice_at bytes.now) }
{
    let (body, rest) = body_at(bytes)?;
    let (notice, left) = notice_at(alloc, body)?;
    at_end(notice, left, rest)
}

/// An ENVCHANGE token behind its tag.
pub(super) fn env_framed(alloc: Global, bytes: &[u8]) -> Result<(Token, &[u8]), ReadFault>
    ensures { Gives (λ x. (x.0, x.1.now)) result (framed env_at bytes.now) }
{
    let (body, rest) = body_at(bytes)?;
    let (token, left) = env_at(alloc, body)?;
    at_end(token, left, rest)
}

/// The value, unless bytes of its body are left.
fn at_end<'a, X: Drop>(value: X, left: &[u8], rest: &'a [u8]) -> Result<(X, &'a [u8]), ReadFault>
    ensures { Gives (λ x. (x.0, x.1.now)) result (at_end value left.now rest.now) }
{
    if left.is_empty() {
        Ok((value, rest))
    } else {
        Err(ReadFault::Absent)
    }
}

/// A LOGINACK token behind its length.
#[tactic(auto, unfolding(crate::specs::Reading::login_ack_at))]
fn login_ack_at(alloc: Global, bytes: &[u8]) -> Result<(Token, &[u8]), ReadFault>
    ensures { Gives (λ x. (x.0, x.1.now)) result (login_ack_at bytes.now) }
{
    let rest = after(&[SQL_TSQL], bytes)?;
    let (version, rest) = u32_be_at(rest)?;
    let (program, rest) = b_varchar(alloc, rest)?;
    let (release, rest) = u32_be_at(rest)?;
    let token = Token::LoginAck {
        version,
        program,
        release,
    };
    Ok((token, rest))
}

/// An ERROR or INFO token behind its length.
#[tactic(auto, unfolding(crate::specs::Reading::notice_at))]
fn notice_at(alloc: Global, bytes: &[u8]) -> Result<(Notice, &[u8]), ReadFault>
    ensures { Gives (λ x. (x.0, x.1.now)) result (notice_at bytes.now) }
{
    let (number, rest) = i32_at(bytes)?;
    let (state, rest) = u8_at(rest)?;
    let (class, rest) = u8_at(rest)?;
    let ((text, procedure, line), rest) = said_at(alloc, rest)?;
    let notice = Notice {
        number,
        state,
        class,
        text,
        procedure,
        line,
    };
    Ok((notice, rest))
}

/// A notice's text, and behind the server's name the procedure and the line.
#[tactic(auto, unfolding(crate::specs::Reading::said_at))]
fn said_at(alloc: Global, bytes: &[u8]) -> Result<((Units, Units, i32), &[u8]), ReadFault>
    ensures { Gives (λ x. ((x.0.0, (x.0.1, x.0.2)), x.1.now)) result (said_at bytes.now) }
{
    let (text, rest) = us_varchar(alloc, bytes)?;
    let rest = after_server(rest)?;
    let (procedure, rest) = b_varchar(alloc, rest)?;
    let (line, rest) = i32_at(rest)?;
    Ok(((text, procedure, line), rest))
}

/// The bytes behind the server's name, with which they have to begin.
fn after_server(bytes: &[u8]) -> Result<&[u8], ReadFault>
    ensures { Gives (λ rest. rest.now) result (strip (b_varchar server_name) bytes.now) }
{
    after(&SERVER, bytes)
}

/// An ENVCHANGE token behind its length.
#[tactic(auto, unfolding(crate::specs::Reading::env_at))]
fn env_at(alloc: Global, bytes: &[u8]) -> Result<(Token, &[u8]), ReadFault>
    ensures { Gives (λ x. (x.0, x.1.now)) result (env_at bytes.now) }
{
    let (kind, rest) = u8_at(bytes)?;
    env_of(alloc, kind, rest)
}

/// An ENVCHANGE token behind its kind.
#[tactic(auto, unfolding(crate::specs::Reading::env_of))]
fn env_of(alloc: Global, kind: u8, bytes: &[u8]) -> Result<(Token, &[u8]), ReadFault>
    ensures { Gives (λ x. (x.0, x.1.now)) result (env_of kind bytes.now) }
{
    match kind {
        ENV_DATABASE | ENV_PACKET_SIZE => {
            let (fresh, rest) = b_varchar(alloc, bytes)?;
            let (former, rest) = b_varchar(alloc, rest)?;
            let token = Token::EnvText {
                kind,
                fresh,
                former,
            };
            Ok((token, rest))
        }
        ENV_COLLATION..=ENV_ROLLBACK => {
            let (fresh, rest) = b_varbyte(alloc, bytes)?;
            let (former, rest) = b_varbyte(alloc, rest)?;
            let token = Token::EnvBytes {
                kind,
                fresh,
                former,
            };
            Ok((token, rest))
        }
        _ => Err(ReadFault::Absent),
    }
}

/// A RETURNVALUE token behind its tag.
#[tactic(auto, unfolding(crate::specs::Reading::return_value_at))]
pub(super) fn return_value_at(alloc: Global, bytes: &[u8]) -> Result<(Token, &[u8]), ReadFault>
    ensures { Gives (λ x. (x.0, x.1.now)) result (return_value_at bytes.now) }
{
    let (ordinal, rest) = u16_at(bytes)?;
    let (name, rest) = b_varchar(alloc, rest)?;
    let rest = after(&RETURN_VALUE_START, rest)?;
    let ((kind, value), rest) = typed_at(alloc, rest)?;
    let token = Token::ReturnValue {
        ordinal,
        name,
        kind,
        value,
    };
    Ok((token, rest))
}

/// A DONE, DONEPROC or DONEINPROC token behind its tag.
#[tactic(auto, unfolding(crate::specs::Reading::finished_at))]
pub(super) fn finished_at(kind: DoneKind, bytes: &[u8]) -> Result<(Token, &[u8]), ReadFault>
    ensures { Gives (λ x. (x.0, x.1.now)) result (finished_at kind bytes.now) }
{
    let (status, rest) = u16_at(bytes)?;
    let (command, rest) = u16_at(rest)?;
    let (rows, rest) = u64_at(rest)?;
    let token = Token::Finished {
        kind,
        status,
        command,
        rows,
    };
    Ok((token, rest))
}
