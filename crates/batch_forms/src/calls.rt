//! Calls by RPC: how one is run, and the text that is read for it.

ghost use Rattle.std.specs.Prelude.{◌≡◌, IfOk};
ghost use Rattle.std.specs.Option.{option_copied};
ghost use Rattle.rpc_requests.specs.declared.call.RpcTarget.TheVariants.{Named};
ghost use Rattle.batch_meaning.specs.Rpc.{ReadsFor, is_sql, naming_text, plain_errand, plain_way, rpc_text, sql_in, sql_text, text_in};

use crate::text::read_text;
use batch_meaning::{Errand, ReadText, Way};
use rpc_requests::{RpcCall, RpcParameter, RpcTarget};
use sqlite_items::Items;
use std::alloc::Global;
use value_types::{Memory, Units, Value};

/// How many parameters of `sp_executesql` are its own: the statement and its declarations.
pub(crate) const OWN_OF_SQL: u8 = 2;

/// What is read for a call, where it has a text.
pub fn read_call(alloc: Global, call: &Errand) -> Result<ReadText, Memory>
    ensures { IfOk result (ReadsFor call.now.text) }
{
    match &call.text {
        Some(text) => {
            let (read, _) = read_text(alloc, text)?;
            Ok(read)
        }
        None => Ok(ReadText::Statements(Items::from_vec(Vec::new(alloc)))),
    }
}

/// A call as it is run: `sp_executesql` runs what its text is read as, and what has another name is looked up.
pub fn plain_errand(alloc: Global, call: RpcCall) -> Result<Errand, Memory>
    ensures { IfOk result (λ errand. errand ≡ plain_errand call) }
{
    let text = rpc_text(alloc, &call)?;
    let RpcCall { target, parameters } = call;
    let way = plain_way(target);
    Ok(Errand {
        way,
        parameters,
        text,
    })
}

/// How the procedure of a target is found.
fn plain_way(target: RpcTarget) -> Way
    ensures { result ≡ plain_way target }
{
    match target {
        RpcTarget::ExecuteSql => Way::RunsRead(OWN_OF_SQL),
        RpcTarget::Named(name) => named_way(name),
    }
}

/// The same of a name.
fn named_way(name: Units) -> Way
    ensures { result ≡ plain_way (Named name) }
{
    if name.is("sp_executesql") {
        Way::RunsRead(OWN_OF_SQL)
    } else {
        Way::LooksUp(name)
    }
}

/// Whether `sp_executesql` is called, by its number or its name.
fn is_sql(target: &RpcTarget) -> bool
    ensures { result ≡ is_sql target.now }
{
    match target {
        RpcTarget::ExecuteSql => true,
        RpcTarget::Named(name) => name.is("sp_executesql"),
    }
}

/// The text that is read for a call. There is none where `sp_executesql` isn't given a statement.
fn rpc_text(alloc: Global, call: &RpcCall) -> Result<Option<Units>, Memory>
    ensures { IfOk result (λ text. text ≡ rpc_text call.now) }
{
    match &call.target {
        RpcTarget::Named(name) if !is_sql(&call.target) => Ok(Some(naming_text(alloc, name)?)),
        _ => sql_in(alloc, call.parameters.as_slice()),
    }
}

/// A definition that has nothing but this name, behind which the line ends.
pub(crate) fn naming_text(alloc: Global, name: &Units) -> Result<Units, Memory>
    ensures { IfOk result (λ text. text ≡ naming_text name.now) }
{
    let mut text = Units::of_ascii(alloc, b"CREATE PROCEDURE ")?.into_vec();
    text.extend_from_slice(name.as_slice())?;
    text.extend_from_slice(Units::of_ascii(alloc, b"\nAS")?.as_slice())?;
    Ok(Units::from(text))
}

/// The text of `sp_executesql`: the first parameter is the statement, the second its declarations.
fn sql_in(alloc: Global, parameters: &[RpcParameter]) -> Result<Option<Units>, Memory>
    ensures { IfOk result (λ text. text ≡ sql_in parameters.now) }
{
    match parameters {
        [] => Ok(None),
        [statement] => match text_in(statement) {
            Some(body) => Ok(Some(sql_text(alloc, &[], body)?)),
            None => Ok(None),
        },
        [statement, declarations, ..] => match (text_in(declarations), text_in(statement)) {
            (Some(declared), Some(body)) => Ok(Some(sql_text(alloc, declared, body)?)),
            _ => Ok(None),
        },
    }
}

/// The text that a parameter gives, if it is given and is one.
pub(crate) fn text_in(parameter: &RpcParameter) -> Option<&[u16]>
    ensures { option_copied result ≡ text_in parameter.now }
{
    match &parameter.value {
        Value::Text(units) if !parameter.missing => Some(units.as_slice()),
        _ => None,
    }
}

/// A statement as the body of a procedure, and declarations as its parameters.
pub(crate) fn sql_text(
    alloc: Global,
    declarations: &[u16],
    statement: &[u16],
) -> Result<Units, Memory>
    ensures { IfOk result (λ text. text ≡ sql_text declarations.now statement.now) }
{
    let mut text = Units::of_ascii(alloc, b"CREATE PROCEDURE ")?.into_vec();
    text.extend_from_slice(Units::of_ascii(alloc, b"[sp_executesql] ")?.as_slice())?;
    text.extend_from_slice(declarations)?;
    text.extend_from_slice(Units::of_ascii(alloc, b" AS ")?.as_slice())?;
    text.extend_from_slice(statement)?;
    Ok(Units::from(text))
}
