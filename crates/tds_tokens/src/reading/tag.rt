//! Which token a byte begins.

ghost use Rattle.std.specs.Prelude.{◌≡◌};
ghost use Rattle.tds_tokens.specs.Reading.{Gives, look_up, tag_at, tags};

use crate::fault::ReadFault;
use crate::reading::fields::u8_at;
use crate::token::DoneKind;
use crate::wire::{
    COLMETADATA, DONE, DONEINPROC, DONEPROC, ENVCHANGE, ERROR, INFO, LOGINACK, RETURNSTATUS,
    RETURNVALUE, ROW,
};

/// What kind of token it is, as far as its first byte tells.
#[derive(Clone, Copy)]
pub(super) enum Tag {
    LoginAck,
    Error,
    Info,
    Env,
    Columns,
    Row,
    ReturnStatus,
    ReturnValue,
    Finished(DoneKind),
}

/// The tag with which the bytes begin.
#[tactic(auto, unfolding(crate::specs::Reading::tag_at))]
pub(super) fn tag_at(bytes: &[u8]) -> Result<(Tag, &[u8]), ReadFault>
    ensures { Gives (λ x. (x.0, x.1.now)) result (tag_at bytes.now) }
{
    let (first, rest) = u8_at(bytes)?;
    match tag_of(first) {
        Some(tag) => Ok((tag, rest)),
        None => Err(ReadFault::Absent),
    }
}

/// The tag that the byte is.
fn tag_of(byte: u8) -> Option<Tag>
    ensures { result ≡ look_up byte tags }
{
    match byte {
        RETURNSTATUS => Some(Tag::ReturnStatus),
        RETURNVALUE => Some(Tag::ReturnValue),
        COLMETADATA => Some(Tag::Columns),
        ERROR => Some(Tag::Error),
        INFO => Some(Tag::Info),
        LOGINACK => Some(Tag::LoginAck),
        ROW => Some(Tag::Row),
        ENVCHANGE => Some(Tag::Env),
        DONE => Some(Tag::Finished(DoneKind::Done)),
        DONEPROC => Some(Tag::Finished(DoneKind::Proc)),
        DONEINPROC => Some(Tag::Finished(DoneKind::InProc)),
        _ => None,
    }
}
