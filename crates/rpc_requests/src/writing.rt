//! Writing calls.

ghost use Rattle.std.specs.Prelude.{◌≡◌, ◌++◌, OnOk};
ghost use Rattle.value_types.specs.Units.{le_bytes_of};
ghost use Rattle.rpc_requests.specs.Spelling.{call_bytes, target_bytes, parameter_bytes, status_of};
ghost use Rattle.tds_tokens.specs.Spelling.{type_info, value_bytes};
ghost use Rattle.rpc_requests.specs.Fit.{IsCall, IsTarget, IsParameter, IsKind, IsOf};

use crate::call::{RpcCall, RpcParameter, RpcTarget};
use crate::reading::{BY_NUMBER, SP_EXECUTESQL};
use crate::types::{BITNTYPE, INTNTYPE, NVARCHARTYPE};
use crate::values::CHARBIN_NULL;
use tds_tokens::COLLATION;
use value_types::{Memory, SqlType, Value};

/// Appends the bytes of a call, which stand behind headers.
pub fn write_rpc(call: &RpcCall, out: &mut Vec<u8>) -> Result<(), Memory>
    requires { IsCall call.now }
    ensures { OnOk result (out.new.items ≡ out.old.items ++ call_bytes call.now) }
{
    put_target(out, &call.target)?;
    out.extend_from_slice(&[0, 0])?;
    for parameter in call.parameters.as_slice() {
        put_parameter(out, parameter)?;
    }
    Ok(())
}

/// Appends the procedure: its name, or its number.
fn put_target(out: &mut Vec<u8>, target: &RpcTarget) -> Result<(), Memory>
    requires { IsTarget target.now }
    ensures { OnOk result (out.new.items ≡ out.old.items ++ target_bytes target.now) }
{
    match target {
        RpcTarget::Named(name) => {
            out.extend_from_slice(&(name.len() as u16).to_le_bytes())?;
            put_units(out, name.as_slice())
        }
        RpcTarget::ExecuteSql => {
            out.extend_from_slice(&BY_NUMBER.to_le_bytes())?;
            out.extend_from_slice(&SP_EXECUTESQL.to_le_bytes())?;
            Ok(())
        }
    }
}

/// Appends a parameter.
fn put_parameter(out: &mut Vec<u8>, parameter: &RpcParameter) -> Result<(), Memory>
    requires { IsParameter parameter.now }
    ensures { OnOk result (out.new.items ≡ out.old.items ++ parameter_bytes parameter.now) }
{
    out.push(parameter.name.len() as u8)?;
    put_units(out, parameter.name.as_slice())?;
    out.push(status_of(parameter.output, parameter.missing))?;
    put_type(out, parameter.kind)?;
    put_value(out, parameter.kind, &parameter.value)
}

/// The bits that hold of a parameter.
fn status_of(output: bool, missing: bool) -> u8
    ensures { result ≡ status_of output missing }
{
    match (output, missing) {
        (false, false) => 0,
        (true, false) => 1,
        (false, true) => 2,
        (true, true) => 3,
    }
}

/// Appends units, each as two bytes.
fn put_units(out: &mut Vec<u8>, units: &[u16]) -> Result<(), Memory>
    ensures { OnOk result (out.new.items ≡ out.old.items ++ le_bytes_of units.now) }
{
    for unit in units {
        out.extend_from_slice(&unit.to_le_bytes())?;
    }
    Ok(())
}

/// Appends a type.
fn put_type(out: &mut Vec<u8>, kind: SqlType) -> Result<(), Memory>
    requires { IsKind kind }
    ensures { OnOk result (out.new.items ≡ out.old.items ++ type_info kind) }
{
    match kind {
        SqlType::TinyInt => out.extend_from_slice(&[INTNTYPE, 1])?,
        SqlType::SmallInt => out.extend_from_slice(&[INTNTYPE, 2])?,
        SqlType::Int => out.extend_from_slice(&[INTNTYPE, 4])?,
        SqlType::BigInt => out.extend_from_slice(&[INTNTYPE, 8])?,
        SqlType::Bit => out.extend_from_slice(&[BITNTYPE, 1])?,
        SqlType::NText(size) => {
            out.push(NVARCHARTYPE)?;
            out.extend_from_slice(&(2 * size).to_le_bytes())?;
            out.extend_from_slice(&COLLATION)?;
        }
    }
    Ok(())
}

/// Appends a value as its type has it.
fn put_value(out: &mut Vec<u8>, kind: SqlType, value: &Value) -> Result<(), Memory>
    requires kind { IsKind kind }
    requires value { IsOf kind value.now }
    ensures { OnOk result (out.new.items ≡ out.old.items ++ value_bytes kind value.now) }
{
    match (kind, value) {
        (SqlType::NText(_), Value::Null) => out.extend_from_slice(&CHARBIN_NULL.to_le_bytes())?,
        (_, Value::Null) => out.push(0)?,
        (SqlType::TinyInt, Value::Whole(number)) => out.extend_from_slice(&[1, *number as u8])?,
        (SqlType::SmallInt, Value::Whole(number)) => {
            out.push(2)?;
            out.extend_from_slice(&(*number as i16).to_le_bytes())?;
        }
        (SqlType::Int, Value::Whole(number)) => {
            out.push(4)?;
            out.extend_from_slice(&(*number as i32).to_le_bytes())?;
        }
        (SqlType::BigInt, Value::Whole(number)) => {
            out.push(8)?;
            out.extend_from_slice(&number.to_le_bytes())?;
        }
        (SqlType::Bit, Value::Bit(bit)) => out.extend_from_slice(&[1, u8::from(*bit)])?,
        (SqlType::NText(_), Value::Text(units)) => {
            out.extend_from_slice(&(2 * units.len() as u16).to_le_bytes())?;
            put_units(out, units.as_slice())?;
        }
        _ => {}
    }
    Ok(())
}
