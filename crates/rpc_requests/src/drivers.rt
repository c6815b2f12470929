//! Reading calls as drivers spell them.

ghost use Rattle.std.specs.Prelude.{◌≡◌, ◌<◌, ◌^◌, length, IfOk};
ghost use Rattle.rpc_requests.specs.Fit.{AreDriverParameters};
ghost use Rattle.rpc_requests.specs.Reading.{Answers, Gives};
ghost use Rattle.rpc_requests.specs.Drivers.{driver_call_at, driver_call_of, driver_counted_at, driver_named_at, driver_parameter_at, driver_parameters_at, driver_target_at, driver_target_of, most_at, front_count, front_of, procedure_of_name, procedure_of_number, target_of_name, target_of_number, whole_driver_call};

use crate::call::{DriverCall, DriverProcedure, DriverTarget, RpcParameter, RpcParameters};
use crate::driver_types::{driver_type_at, kind_of_form};
use crate::driver_values::driver_value_at;
use crate::fault::{ReadFault, RpcFault, RpcKind, refused};
use crate::fields::{part_at, u8_at, u16_at, units_of};
use crate::reading::{BY_NUMBER, SP_EXECUTESQL, behind_headers};
use std::alloc::Global;
use value_types::Units;

/// The number of `sp_prepare`.
const SP_PREPARE: u16 = 11;

/// The number of `sp_execute`.
const SP_EXECUTE: u16 = 12;

/// The number of `sp_prepexec`.
const SP_PREPEXEC: u16 = 13;

/// The number of `sp_unprepare`.
const SP_UNPREPARE: u16 = 15;

/// The most units of a text of a parameter that is no front one.
const MOST_UNITS: usize = 4000;

/// What a payload says as a call of a driver, or the first field that is refused.
pub fn read_driver_call(alloc: Global, payload: &[u8]) -> Result<DriverCall, RpcFault>
    requires { length payload.now < 2 ^ 32 }
    // Which call it is, or which field is the first that is refused, and where it begins.
    ensures exact { Answers result (driver_call_of payload.now) }
    // Values are of their types; but for those of front parameters, texts have at most 4,000 units.
    ensures fits { IfOk result (λ call. AreDriverParameters (front_count call.target) call.parameters) }
{
    answer(alloc, payload)
}

/// The same, from left to right.
#[tactic(auto, unfolding(crate::specs::Drivers::driver_call_of))]
fn answer(alloc: Global, payload: &[u8]) -> Result<DriverCall, RpcFault>
    requires { length payload.now < 2 ^ 32 }
    ensures { Answers result (driver_call_of payload.now) }
{
    match whole_driver_call(alloc, payload) {
        Ok(call) => Ok(call),
        Err(ReadFault::Refused(refusal)) => {
            let at = payload.len().saturating_sub(refusal.left) as u32;
            Err(RpcFault::Bad {
                at,
                kind: refusal.kind,
            })
        }
        Err(ReadFault::Memory) => Err(RpcFault::Memory),
    }
}

/// Headers and a call.
#[tactic(auto, unfolding(crate::specs::Drivers::whole_driver_call))]
fn whole_driver_call(alloc: Global, payload: &[u8]) -> Result<DriverCall, ReadFault>
    ensures { Gives (λ x. x) result (whole_driver_call payload.now) }
{
    let rest = behind_headers(payload)?;
    driver_call_at(alloc, payload.len(), rest)
}

/// A call behind its headers, in a payload of so many bytes.
#[tactic(auto, unfolding(crate::specs::Drivers::driver_call_at))]
fn driver_call_at(alloc: Global, size: usize, bytes: &[u8]) -> Result<DriverCall, ReadFault>
    ensures { Gives (λ x. x) result (driver_call_at size bytes.now) }
{
    let (target, rest) = driver_target_at(alloc, bytes)?;
    let (_, rest) = part_at(2, rest)?;
    let parameters = driver_parameters_at(alloc, front_count(&target), size, rest)?;
    Ok(DriverCall {
        target,
        parameters: RpcParameters::from(parameters),
    })
}

/// The procedure: its name, or its number.
#[tactic(auto, unfolding(crate::specs::Drivers::driver_target_at))]
fn driver_target_at(alloc: Global, bytes: &[u8]) -> Result<(DriverTarget, &[u8]), ReadFault>
    ensures { Gives (λ x. (x.0, x.1.now)) result (driver_target_at bytes.now) }
{
    let (count, rest) = u16_at(bytes)?;
    driver_target_of(alloc, count, rest)
}

/// The procedure behind the count of its name.
#[tactic(auto, unfolding(crate::specs::Drivers::driver_target_of))]
fn driver_target_of(
    alloc: Global,
    count: u16,
    bytes: &[u8],
) -> Result<(DriverTarget, &[u8]), ReadFault>
    ensures { Gives (λ x. (x.0, x.1.now)) result (driver_target_of count bytes.now) }
{
    if count == BY_NUMBER {
        let (number, rest) = u16_at(bytes)?;
        return target_of_number(bytes, procedure_of_number(number), rest);
    }
    let (name, rest) = units_of(alloc, usize::from(count), bytes)?;
    Ok((target_of_name(name), rest))
}

/// The procedure of a number.
fn procedure_of_number(number: u16) -> Option<DriverProcedure>
    ensures { result ≡ procedure_of_number number }
{
    match number {
        SP_EXECUTESQL => Some(DriverProcedure::ExecuteSql),
        SP_PREPARE => Some(DriverProcedure::Prepare),
        SP_EXECUTE => Some(DriverProcedure::Execute),
        SP_PREPEXEC => Some(DriverProcedure::PrepExec),
        SP_UNPREPARE => Some(DriverProcedure::Unprepare),
        _ => None,
    }
}

/// What a number calls.
fn target_of_number<'a>(
    bytes: &[u8],
    procedure: Option<DriverProcedure>,
    rest: &'a [u8],
) -> Result<(DriverTarget, &'a [u8]), ReadFault>
    ensures { Gives (λ x. (x.0, x.1.now)) result (target_of_number bytes.now procedure rest.now) }
{
    match procedure {
        None => Err(refused(RpcKind::Procedure, bytes)),
        Some(procedure) => Ok((DriverTarget::System(procedure), rest)),
    }
}

/// The procedure of a name.
fn procedure_of_name(name: &Units) -> Option<DriverProcedure>
    ensures { result ≡ procedure_of_name name.now }
{
    if name.is("sp_executesql") {
        Some(DriverProcedure::ExecuteSql)
    } else if name.is("sp_prepare") {
        Some(DriverProcedure::Prepare)
    } else if name.is("sp_execute") {
        Some(DriverProcedure::Execute)
    } else if name.is("sp_prepexec") {
        Some(DriverProcedure::PrepExec)
    } else if name.is("sp_unprepare") {
        Some(DriverProcedure::Unprepare)
    } else if name.is("sp_reset_connection") {
        Some(DriverProcedure::Reset)
    } else {
        None
    }
}

/// What a name calls.
fn target_of_name(name: Units) -> DriverTarget
    ensures { result ≡ target_of_name name (procedure_of_name name) }
{
    match procedure_of_name(&name) {
        None => DriverTarget::Named(name),
        Some(procedure) => DriverTarget::System(procedure),
    }
}

/// How many front parameters there are: those that a procedure of the server takes itself, in front
/// of those of what it runs.
fn front_count(target: &DriverTarget) -> usize
    ensures { result ≡ front_count target.now }
{
    match target {
        DriverTarget::Named(_) => 0,
        DriverTarget::System(procedure) => front_of(*procedure),
    }
}

/// The same of a procedure of the server.
fn front_of(procedure: DriverProcedure) -> usize
    ensures { result ≡ front_of procedure }
{
    match procedure {
        DriverProcedure::ExecuteSql => 2,
        DriverProcedure::Prepare | DriverProcedure::PrepExec => 3,
        DriverProcedure::Execute | DriverProcedure::Unprepare => 1,
        DriverProcedure::Reset => 0,
    }
}

/// The parameters up to the end, with so many front ones ahead.
fn driver_parameters_at(
    alloc: Global,
    ahead: usize,
    size: usize,
    bytes: &[u8],
) -> Result<Vec<RpcParameter>, ReadFault>
    ensures { Gives (λ x. x.items) result (driver_parameters_at ahead size (length bytes.now) bytes.now) }
{
    let mut parameters = Vec::new(alloc);
    let mut left = ahead;
    let mut rest = bytes;
    while !rest.is_empty() {
        let (parameter, behind) = driver_parameter_at(alloc, most_at(left, size), rest)?;
        parameters.push(parameter)?;
        left = left.saturating_sub(1);
        rest = behind;
    }
    Ok(parameters)
}

/// How many units a text may have, with so many front parameters ahead.
fn most_at(ahead: usize, size: usize) -> usize
    ensures { result ≡ most_at ahead size }
{
    match ahead {
        0 => MOST_UNITS,
        _ => size,
    }
}

/// A parameter.
#[tactic(auto, unfolding(crate::specs::Drivers::driver_parameter_at))]
fn driver_parameter_at(
    alloc: Global,
    most: usize,
    bytes: &[u8],
) -> Result<(RpcParameter, &[u8]), ReadFault>
    ensures { Gives (λ x. (x.0, x.1.now)) result (driver_parameter_at most bytes.now) }
{
    let (count, rest) = u8_at(bytes)?;
    driver_counted_at(alloc, most, count, bytes, rest)
}

/// A name of so many units, and what stands behind it.
#[tactic(auto, unfolding(crate::specs::Drivers::driver_counted_at))]
fn driver_counted_at<'a>(
    alloc: Global,
    most: usize,
    count: u8,
    start: &[u8],
    rest: &'a [u8],
) -> Result<(RpcParameter, &'a [u8]), ReadFault>
    ensures { Gives (λ x. (x.0, x.1.now)) result (driver_counted_at most count start.now rest.now) }
{
    if 128 < count {
        return Err(refused(RpcKind::Trailing, start));
    }
    let (name, rest) = units_of(alloc, usize::from(count), rest)?;
    driver_named_at(alloc, most, name, rest)
}

/// What stands behind a parameter's name.
#[tactic(auto, unfolding(crate::specs::Drivers::driver_named_at))]
fn driver_named_at(
    alloc: Global,
    most: usize,
    name: Units,
    bytes: &[u8],
) -> Result<(RpcParameter, &[u8]), ReadFault>
    ensures { Gives (λ x. (x.0, x.1.now)) result (driver_named_at most name bytes.now) }
{
    let (status, rest) = u8_at(bytes)?;
    let (form, rest) = driver_type_at(rest)?;
    let (value, rest) = driver_value_at(alloc, most, form, rest)?;
    let parameter = RpcParameter {
        name,
        output: status % 2 == 1,
        missing: (status / 2) % 2 == 1,
        kind: kind_of_form(form),
        value,
    };
    Ok((parameter, rest))
}
