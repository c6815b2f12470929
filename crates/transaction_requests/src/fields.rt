//! Reading numbers and names.

ghost use Rattle.std.specs.Prelude.{◌≡◌, length, IfOk};
ghost use Rattle.value_types.specs.Units.{units_of};
ghost use Rattle.transaction_requests.specs.Reading.{behind_headers, byte_at, bytes_at, level_at, level_of, name_at, whole_at};
ghost use Rattle.transaction_requests.specs.Fields.{Gives};

use crate::fault::{Refusal, TransactionKind};
use byteorder::{ByteOrder, LittleEndian};

/// The greatest ISOLATION_LEVEL.
const LAST_LEVEL: u8 = 5;

/// The field that begins with these bytes is refused.
pub(crate) fn refused(kind: TransactionKind, bytes: &[u8]) -> Refusal
    ensures { result ≡ record { left = length bytes.now; kind = kind } }
{
    Refusal {
        left: bytes.len(),
        kind,
    }
}

/// The bytes behind the headers.
#[tactic(auto, unfolding(crate::specs::Reading::behind_headers))]
pub(crate) fn behind_headers(payload: &[u8]) -> Result<&[u8], Refusal>
    ensures { Gives (λ x. x.now) result (behind_headers payload.now) }
{
    if payload.len() < 4 {
        return Err(refused(TransactionKind::Headers, payload));
    }
    let total = LittleEndian::read_u32(payload) as usize;
    if total < 4 || payload.len() < total {
        return Err(refused(TransactionKind::Headers, payload));
    }
    let (_, rest) = payload.split_at(total);
    Ok(rest)
}

/// A byte.
#[tactic(auto, unfolding(crate::specs::Reading::byte_at))]
pub(crate) fn byte_at(bytes: &[u8]) -> Result<(u8, &[u8]), Refusal>
    ensures { Gives (λ x. (x.0, x.1.now)) result (byte_at bytes.now) }
{
    match bytes {
        [] => Err(refused(TransactionKind::Cut, bytes)),
        [first, rest @ ..] => Ok((*first, rest)),
    }
}

/// So many bytes.
#[tactic(auto, unfolding(crate::specs::Reading::bytes_at))]
pub(crate) fn bytes_at(count: usize, bytes: &[u8]) -> Result<(&[u8], &[u8]), Refusal>
    ensures read { Gives (λ x. (x.0.now, x.1.now)) result (bytes_at count bytes.now) }
    ensures size { IfOk result (λ x. length x.0.now ≡ count) }
{
    if bytes.len() < count {
        return Err(refused(TransactionKind::Cut, bytes));
    }
    Ok(bytes.split_at(count))
}

/// A name, as the bytes of its units.
#[tactic(auto, unfolding(crate::specs::Reading::name_at))]
pub(crate) fn name_at(bytes: &[u8]) -> Result<(&[u8], &[u8]), Refusal>
    ensures { Gives (λ x. (units_of x.0.now, x.1.now)) result (name_at bytes.now) }
{
    let (count, rest) = byte_at(bytes)?;
    whole_at(usize::from(count), rest)
}

/// So many bytes that are whole units.
#[tactic(auto, unfolding(crate::specs::Reading::whole_at))]
fn whole_at(count: usize, bytes: &[u8]) -> Result<(&[u8], &[u8]), Refusal>
    ensures { Gives (λ x. (x.0.now, x.1.now)) result (whole_at count bytes.now) }
{
    if count % 2 == 1 {
        return Err(refused(TransactionKind::Cut, bytes));
    }
    bytes_at(count, bytes)
}

/// A level.
#[tactic(auto, unfolding(crate::specs::Reading::level_at, crate::specs::Reading::level_of))]
pub(crate) fn level_at(bytes: &[u8]) -> Result<(u8, &[u8]), Refusal>
    ensures { Gives (λ x. (x.0, x.1.now)) result (level_at bytes.now) }
{
    let (level, rest) = byte_at(bytes)?;
    if LAST_LEVEL < level {
        return Err(refused(TransactionKind::Level, bytes));
    }
    Ok((level, rest))
}
