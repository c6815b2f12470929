//! The printed lines.

ghost use Rattle.std.specs.Prelude.{◌≡◌, ◌++◌, string_bytes, IfOk, OnErr};
ghost use Rattle.step_script.specs.Printed.{printed_of, reply_text, values_text, value_text, edges_text, line_text};

use std::alloc::Global;
use step_model::{Edge, Reply};
use value_types::{Memory, Value};

/// Appends the line that a reply to a session is printed as. Where memory is wanting nothing is appended.
#[tactic(auto, unfolding(crate::specs::Printed::printed_of))]
pub fn print_reply(
    alloc: Global,
    session: u32,
    reply: &Reply,
    out: &mut Vec<u8>,
) -> Result<(), Memory>
    ensures printed { IfOk result (λ _. out.new.items ≡ out.old.items ++ printed_of session reply.now) }
    ensures unchanged { OnErr result (out.new.items ≡ out.old.items) }
{
    if let Reply::Memory = reply {
        return Ok(());
    }
    print_text(alloc, session, reply_text(alloc, reply)?.as_str(), out)
}

/// Appends a line of a session. Where memory is wanting nothing is appended.
pub fn print_text(alloc: Global, session: u32, text: &str, out: &mut Vec<u8>) -> Result<(), Memory>
    ensures printed { IfOk result (λ _. out.new.items ≡ out.old.items ++ line_text session text.now) }
    ensures unchanged { OnErr result (out.new.items ≡ out.old.items) }
{
    let line = format!(in alloc; "{session} {text}\n")?;
    out.extend_from_slice(line.as_bytes())?;
    Ok(())
}

/// The words of a reply.
#[tactic(auto, unfolding(crate::specs::Printed::reply_text))]
fn reply_text(alloc: Global, reply: &Reply) -> Result<String, Memory>
    ensures { IfOk result (λ text. string_bytes text ≡ reply_text reply.now) }
{
    Ok(match reply {
        Reply::Began => String::from_str(alloc, "began")?,
        Reply::Row { row, at, .. } => {
            let values = values_text(alloc, row.as_slice())?;
            format!(in alloc; "row{values} at {at}")?
        }
        Reply::Gone { key, at } => {
            let values = values_text(alloc, key.as_slice())?;
            format!(in alloc; "gone{values} at {at}")?
        }
        Reply::End { at } => format!(in alloc; "end at {at}")?,
        Reply::Done => String::from_str(alloc, "done")?,
        Reply::Exists => String::from_str(alloc, "exists")?,
        Reply::Missing => String::from_str(alloc, "missing")?,
        Reply::Marked(mark) => format!(in alloc; "marked {mark}")?,
        Reply::Ended { place } => format!(in alloc; "ended {place}")?,
        Reply::Wait { holder } => format!(in alloc; "wait {holder}")?,
        Reply::TimedOut { holder, .. } => format!(in alloc; "timeout {holder}")?,
        Reply::Victim { cycle } => {
            let edges = edges_text(alloc, cycle.as_slice())?;
            format!(in alloc; "victim{edges}")?
        }
        Reply::Memory => String::new(alloc),
    })
}

/// Values, each behind a space.
fn values_text(alloc: Global, values: &[Value]) -> Result<String, Memory>
    ensures { IfOk result (λ text. string_bytes text ≡ values_text values.now) }
{
    let mut text = String::new(alloc);
    for value in values {
        let word = value_text(alloc, value)?;
        text.push_str(" ")?;
        text.push_str(word.as_str())?;
    }
    Ok(text)
}

/// Edges, each behind a space.
fn edges_text(alloc: Global, edges: &[Edge]) -> Result<String, Memory>
    ensures { IfOk result (λ text. string_bytes text ≡ edges_text edges.now) }
{
    let mut text = String::new(alloc);
    for edge in edges {
        let word = format!(in alloc; " {}>{}", edge.waiter, edge.holder)?;
        text.push_str(word.as_str())?;
    }
    Ok(text)
}

/// A value.
fn value_text(alloc: Global, value: &Value) -> Result<String, Memory>
    ensures { IfOk result (λ text. string_bytes text ≡ value_text value.now) }
{
    Ok(match value {
        Value::Whole(number) => format!(in alloc; "{number}")?,
        Value::Null => String::from_str(alloc, "null")?,
        Value::Bit(_) => String::from_str(alloc, "bit")?,
        Value::Text(_) => String::from_str(alloc, "text")?,
    })
}
