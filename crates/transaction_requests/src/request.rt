//! Reading requests.

ghost use Rattle.std.specs.Prelude.{option_map};
ghost use Rattle.value_types.specs.Units.{units_of};
ghost use Rattle.transaction_requests.specs.Reading.{anew_at, end_at, new_at, numbered_at, numbered_of, request_of};
ghost use Rattle.transaction_requests.specs.Fields.{Gives, seen, seen_new};

use crate::fault::{Refusal, TransactionKind};
use crate::fields::{behind_headers, byte_at, bytes_at, level_at, name_at, refused};

/// RequestType of TM_BEGIN_XACT.
const BEGIN_XACT: u16 = 5;

/// RequestType of TM_COMMIT_XACT.
const COMMIT_XACT: u16 = 7;

/// RequestType of TM_ROLLBACK_XACT.
const ROLLBACK_XACT: u16 = 8;

/// RequestType of TM_SAVE_XACT.
const SAVE_XACT: u16 = 9;

/// A transaction that is to begin.
#[derive(Clone, Copy)]
pub(crate) struct NewFields<'a> {
    /// At which level; 0 leaves the session's.
    pub(crate) level: u8,
    /// Its name, as the bytes of its units.
    pub(crate) name: &'a [u8],
}

/// A request, with names as the bytes of their units.
#[derive(Clone, Copy)]
pub(crate) enum RequestFields<'a> {
    /// TM_BEGIN_XACT.
    Begins(NewFields<'a>),
    /// TM_COMMIT_XACT, and what is to begin behind it.
    Commits(&'a [u8], Option<NewFields<'a>>),
    /// TM_ROLLBACK_XACT, and what is to begin behind it.
    RollsBack(&'a [u8], Option<NewFields<'a>>),
    /// TM_SAVE_XACT.
    Saves(&'a [u8]),
}

/// What a payload says as a request.
#[tactic(auto, unfolding(crate::specs::Reading::request_of))]
pub(crate) fn request_of(payload: &[u8]) -> Result<RequestFields<'_>, Refusal>
    ensures { Gives seen result (request_of payload.now) }
{
    let rest = behind_headers(payload)?;
    numbered_at(rest)
}

/// A request behind its headers.
#[tactic(auto, unfolding(crate::specs::Reading::numbered_at))]
fn numbered_at(bytes: &[u8]) -> Result<RequestFields<'_>, Refusal>
    ensures { Gives seen result (numbered_at bytes.now) }
{
    let (number, rest) = bytes_at(2, bytes)?;
    numbered_of(u16::from_le_bytes([number[0], number[1]]), bytes, rest)
}

/// The request of a number.
#[tactic(auto, unfolding(crate::specs::Reading::numbered_of))]
fn numbered_of<'a>(number: u16, bytes: &[u8], rest: &'a [u8]) -> Result<RequestFields<'a>, Refusal>
    ensures { Gives seen result (numbered_of number bytes.now rest.now) }
{
    match number {
        BEGIN_XACT => {
            let new = new_at(rest)?;
            Ok(RequestFields::Begins(new))
        }
        COMMIT_XACT => {
            let (name, anew) = end_at(rest)?;
            Ok(RequestFields::Commits(name, anew))
        }
        ROLLBACK_XACT => {
            let (name, anew) = end_at(rest)?;
            Ok(RequestFields::RollsBack(name, anew))
        }
        SAVE_XACT => {
            let (name, _) = name_at(rest)?;
            Ok(RequestFields::Saves(name))
        }
        _ => Err(refused(TransactionKind::Request, bytes)),
    }
}

/// What stands behind the number of a commit or a rollback: its name, and what is to begin.
#[tactic(auto, unfolding(crate::specs::Reading::end_at))]
fn end_at(bytes: &[u8]) -> Result<(&[u8], Option<NewFields<'_>>), Refusal>
    ensures { Gives (λ x. (units_of x.0.now, option_map seen_new x.1)) result (end_at bytes.now) }
{
    let (name, rest) = name_at(bytes)?;
    let (flags, rest) = byte_at(rest)?;
    let anew = anew_at(flags, rest)?;
    Ok((name, anew))
}

/// The transaction that is to begin behind another, where the flags say so.
#[tactic(auto, unfolding(crate::specs::Reading::anew_at))]
fn anew_at(flags: u8, bytes: &[u8]) -> Result<Option<NewFields<'_>>, Refusal>
    ensures { Gives (option_map seen_new) result (anew_at flags bytes.now) }
{
    if flags % 2 == 1 {
        let new = new_at(bytes)?;
        return Ok(Some(new));
    }
    Ok(None)
}

/// A transaction that is to begin.
#[tactic(auto, unfolding(crate::specs::Reading::new_at))]
fn new_at(bytes: &[u8]) -> Result<NewFields<'_>, Refusal>
    ensures { Gives seen_new result (new_at bytes.now) }
{
    let (level, rest) = level_at(bytes)?;
    let (name, _) = name_at(rest)?;
    Ok(NewFields { level, name })
}
