//! The values of the session that expressions read.

ghost use Rattle.std.specs.Prelude.{◌≡◌, ◌≤◌, length, take, IfOk, Some, None};
ghost use Rattle.bound_tree.specs.Typed.{AreOf};
ghost use Rattle.batch_meaning.specs.Progress.{system_in};
ghost use Rattle.batch_meaning.specs.Raised.{error_values, longest, procedure_value};
ghost use Rattle.session_state.specs.Parts.{count_kinds, counts_in, error_kinds};

use crate::around::Around;
use crate::state::SessionState;
use crate::tokens::procedure_of;
use batch_meaning::Raised;
use bound_tree::SystemValues;
use std::alloc::Global;
use value_types::{Memory, Units, Value};

/// How many units ERROR_MESSAGE has at most.
const LONGEST: usize = 4_000;

/// The values of a session, in the CATCH of an error or in none.
pub fn system_in(
    alloc: Global,
    session: &SessionState,
    around: &Around<'_, '_>,
) -> Result<SystemValues, Memory>
    ensures { IfOk result (λ system. system ≡ system_in around.now session.now) }
{
    let mut values = counts_in(alloc, session)?;
    let mut errors = error_values(alloc, around)?;
    values.append(&mut errors)?;
    Ok(SystemValues::new(values))
}

/// The values of a session but those of an error.
fn counts_in(alloc: Global, session: &SessionState) -> Result<Vec<Value>, Memory>
    ensures counts { IfOk result (λ values. values.items ≡ counts_in session.now) }
    ensures typed { IfOk result (λ values. AreOf count_kinds values.items) }
{
    Ok(vec![in alloc;
        Value::Whole(i64::from(session.count())),
        Value::Whole(i64::from(session.error())),
        Value::Whole(i64::from(session.row_count())),
        Value::Whole(i64::from(session.fetch_status())),
        Value::Whole(session.xact_state()),
    ]?)
}

/// The values of the error of the CATCH around.
fn error_values(alloc: Global, around: &Around<'_, '_>) -> Result<Vec<Value>, Memory>
    ensures errors { IfOk result (λ values. values.items ≡ error_values around.now.caught) }
    ensures typed { IfOk result (λ values. AreOf error_kinds values.items) }
{
    match around.caught() {
        Some(raised) => values_of(alloc, raised),
        None => no_values(alloc),
    }
}

/// The values of an error.
fn values_of(alloc: Global, raised: &Raised) -> Result<Vec<Value>, Memory>
    ensures errors { IfOk result (λ values. values.items ≡ error_values (Some raised.now)) }
    ensures typed { IfOk result (λ values. AreOf error_kinds values.items) }
{
    let text = text_of(alloc, raised)?;
    let procedure = procedure_value(alloc, raised)?;
    Ok(vec![in alloc;
        Value::Whole(i64::from(raised.number)),
        Value::Whole(i64::from(raised.class)),
        Value::Whole(i64::from(raised.state)),
        Value::Whole(i64::from(raised.line)),
        Value::Text(text),
        procedure,
    ]?)
}

/// ERROR_PROCEDURE: the name of the procedure or trigger, or NULL.
fn procedure_value(alloc: Global, raised: &Raised) -> Result<Value, Memory>
    ensures value { IfOk result (λ value. value ≡ procedure_value raised.now.procedure) }
    ensures short { IfOk result (λ _. length raised.now.procedure ≤ 128) }
{
    let name = procedure_of(alloc, raised)?;
    if name.is_empty() {
        Ok(Value::Null)
    } else {
        Ok(Value::Text(name))
    }
}

/// Outside of a CATCH there are none.
fn no_values(alloc: Global) -> Result<Vec<Value>, Memory>
    ensures errors { IfOk result (λ values. values.items ≡ error_values None) }
    ensures typed { IfOk result (λ values. AreOf error_kinds values.items) }
{
    Ok(vec![in alloc;
        Value::Null,
        Value::Null,
        Value::Null,
        Value::Null,
        Value::Null,
        Value::Null,
    ]?)
}

/// ERROR_MESSAGE: an error's text, or as much of it as a text may have.
fn text_of(alloc: Global, raised: &Raised) -> Result<Units, Memory>
    ensures { IfOk result (λ text. text ≡ take longest raised.now.text) }
{
    let mut text = raised.text.copy(alloc)?;
    text.truncate(LONGEST);
    Ok(text)
}
