//! Reading calls.

ghost use Rattle.std.specs.Prelude.{◌≡◌, ◌<◌, ◌^◌, ◌++◌, length, Ok, IfOk};
ghost use Rattle.rpc_requests.specs.declared.call.RpcCall.{RpcCall as AnyCall};
ghost use Rattle.rpc_requests.specs.Spelled.{Spells};
ghost use Rattle.rpc_requests.specs.Spelling.{call_bytes};
ghost use Rattle.rpc_requests.specs.Fit.{AreHeaders, IsCall, IsTarget};
ghost use Rattle.rpc_requests.specs.Reading.{Gives, Answers, rpc_of, whole_call, behind_headers, call_at, target_at, target_of, numbered_at, numbered_of, parameters_at, parameter_at, counted_at, named_at, has_bit};

use crate::call::{RpcCall, RpcParameter, RpcParameters, RpcTarget};
use crate::fault::{ReadFault, RpcFault, RpcKind, refused};
use crate::fields::{part_at, u8_at, u16_at, units_of};
use crate::types::{kind_of, type_at};
use crate::values::value_at;
use byteorder::{ByteOrder, LittleEndian};
use std::alloc::Global;
use value_types::Units;

/// In place of a name's count: a procedure's number follows.
pub(crate) const BY_NUMBER: u16 = 0xFFFF;

/// The number of `sp_executesql`.
pub(crate) const SP_EXECUTESQL: u16 = 10;

/// What a payload says as a call, or the first field that is refused.
pub fn read_rpc(alloc: Global, payload: &[u8]) -> Result<RpcCall, RpcFault>
    requires { length payload.now < 2 ^ 32 }
    // The payload spells the call that is read.
    ensures found { IfOk result (λ call. Spells call payload.now) }
    // A call that it spells is read, unless memory runs out.
    ensures only { (call : AnyCall) → Spells call payload.now → Answers result (Ok call) }
    // Which field is the first that is refused, and where it begins.
    ensures exact { Answers result (rpc_of payload.now) }
{
    answer(alloc, payload)
}

/// The same, from left to right.
#[tactic(auto, unfolding(crate::specs::Reading::rpc_of))]
fn answer(alloc: Global, payload: &[u8]) -> Result<RpcCall, RpcFault>
    requires { length payload.now < 2 ^ 32 }
    ensures { Answers result (rpc_of payload.now) }
{
    match whole_call(alloc, payload) {
        Ok(call) => Ok(call),
        Err(ReadFault::Refused(refusal)) => {
            let at = payload.len().saturating_sub(refusal.left) as u32;
            Err(RpcFault::Bad {
                at,
                kind: refusal.kind,
            })
        }
        Err(ReadFault::Memory) => Err(RpcFault::Memory),
    }
}

/// The bytes of a call, behind any headers that are read, are read as that call.
#[tactic(auto, using(crate::proofs::Again::written_again))]
pub fn law_written_call(headers: &[u8], call: &RpcCall)
    ensures { AreHeaders headers.now → IsCall call.now → rpc_of (headers.now ++ call_bytes call.now) ≡ Ok call.now }
{}

/// A call that is read can be written, where its procedure's name has at most 128 units.
pub fn law_read_call(payload: &[u8], call: &RpcCall)
    ensures { Spells call.now payload.now → IsTarget call.now.target → IsCall call.now }
{}

/// Headers and a call.
#[tactic(auto, unfolding(crate::specs::Reading::whole_call))]
fn whole_call(alloc: Global, payload: &[u8]) -> Result<RpcCall, ReadFault>
    ensures { Gives (λ x. x) result (whole_call payload.now) }
{
    let rest = behind_headers(payload)?;
    call_at(alloc, rest)
}

/// The bytes behind the headers.
#[tactic(auto, unfolding(crate::specs::Reading::behind_headers))]
pub(crate) fn behind_headers(payload: &[u8]) -> Result<&[u8], ReadFault>
    ensures { Gives (λ x. x.now) result (behind_headers payload.now) }
{
    if payload.len() < 4 {
        return Err(refused(RpcKind::Headers, payload));
    }
    let total = LittleEndian::read_u32(payload) as usize;
    if total < 4 || payload.len() < total {
        return Err(refused(RpcKind::Headers, payload));
    }
    let (_, rest) = payload.split_at(total);
    Ok(rest)
}

/// A call behind its headers.
#[tactic(auto, unfolding(crate::specs::Reading::call_at))]
fn call_at(alloc: Global, bytes: &[u8]) -> Result<RpcCall, ReadFault>
    ensures { Gives (λ x. x) result (call_at bytes.now) }
{
    let (target, rest) = target_at(alloc, bytes)?;
    let (_, rest) = part_at(2, rest)?;
    let parameters = parameters_at(alloc, rest)?;
    Ok(RpcCall {
        target,
        parameters: RpcParameters::from(parameters),
    })
}

/// The procedure: its name, or its number.
#[tactic(auto, unfolding(crate::specs::Reading::target_at))]
fn target_at(alloc: Global, bytes: &[u8]) -> Result<(RpcTarget, &[u8]), ReadFault>
    ensures { Gives (λ x. (x.0, x.1.now)) result (target_at bytes.now) }
{
    let (count, rest) = u16_at(bytes)?;
    target_of(alloc, count, rest)
}

/// The procedure behind the count of its name.
#[tactic(auto, unfolding(crate::specs::Reading::target_of))]
fn target_of(alloc: Global, count: u16, bytes: &[u8]) -> Result<(RpcTarget, &[u8]), ReadFault>
    ensures { Gives (λ x. (x.0, x.1.now)) result (target_of count bytes.now) }
{
    if count == BY_NUMBER {
        return numbered_at(bytes);
    }
    let (name, rest) = units_of(alloc, usize::from(count), bytes)?;
    Ok((RpcTarget::Named(name), rest))
}

/// A procedure's number.
#[tactic(auto, unfolding(crate::specs::Reading::numbered_at, crate::specs::Reading::numbered_of))]
fn numbered_at(bytes: &[u8]) -> Result<(RpcTarget, &[u8]), ReadFault>
    ensures { Gives (λ x. (x.0, x.1.now)) result (numbered_at bytes.now) }
{
    let (number, rest) = u16_at(bytes)?;
    match number {
        SP_EXECUTESQL => Ok((RpcTarget::ExecuteSql, rest)),
        _ => Err(refused(RpcKind::Procedure, bytes)),
    }
}

/// The parameters up to the end.
fn parameters_at(alloc: Global, bytes: &[u8]) -> Result<Vec<RpcParameter>, ReadFault>
    ensures { Gives (λ x. x.items) result (parameters_at (length bytes.now) bytes.now) }
{
    let mut parameters = Vec::new(alloc);
    let mut rest = bytes;
    while !rest.is_empty() {
        let (parameter, behind) = parameter_at(alloc, rest)?;
        parameters.push(parameter)?;
        rest = behind;
    }
    Ok(parameters)
}

/// A parameter.
#[tactic(auto, unfolding(crate::specs::Reading::parameter_at))]
fn parameter_at(alloc: Global, bytes: &[u8]) -> Result<(RpcParameter, &[u8]), ReadFault>
    ensures { Gives (λ x. (x.0, x.1.now)) result (parameter_at bytes.now) }
{
    let (count, rest) = u8_at(bytes)?;
    counted_at(alloc, count, bytes, rest)
}

/// A name of so many units, and what stands behind it.
#[tactic(auto, unfolding(crate::specs::Reading::counted_at))]
fn counted_at<'a>(
    alloc: Global,
    count: u8,
    bytes: &[u8],
    rest: &'a [u8],
) -> Result<(RpcParameter, &'a [u8]), ReadFault>
    ensures { Gives (λ x. (x.0, x.1.now)) result (counted_at count bytes.now rest.now) }
{
    if 128 < count {
        return Err(refused(RpcKind::Trailing, bytes));
    }
    let (name, rest) = units_of(alloc, usize::from(count), rest)?;
    named_at(alloc, name, rest)
}

/// What stands behind a parameter's name.
#[tactic(auto, unfolding(crate::specs::Reading::named_at))]
fn named_at(alloc: Global, name: Units, bytes: &[u8]) -> Result<(RpcParameter, &[u8]), ReadFault>
    ensures { Gives (λ x. (x.0, x.1.now)) result (named_at name bytes.now) }
{
    let (status, rest) = u8_at(bytes)?;
    let (form, rest) = type_at(rest)?;
    let (value, rest) = value_at(alloc, form, rest)?;
    let parameter = RpcParameter {
        name,
        output: status % 2 == 1,
        missing: (status / 2) % 2 == 1,
        kind: kind_of(form),
        value,
    };
    Ok((parameter, rest))
}
