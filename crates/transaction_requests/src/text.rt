//! The text of the batch that a request stands for.

ghost use Rattle.std.specs.Prelude.{◌≡◌, ◌<◌, ◌^◌, ◌++◌, length, option_map, IfOk, OnOk};
ghost use Rattle.std.specs.List.{flat_map};
ghost use Rattle.value_types.specs.Units.{units_of};
ghost use Rattle.transaction_requests.specs.Text.{Answers, anew_text, called, doubled, guard, if_closed, if_set, level_text, level_words, managed, new_text, next_text, set_level, text_of};
ghost use Rattle.transaction_requests.specs.Fields.{seen, seen_new};

use crate::fault::TransactionFault;
use crate::request::{NewFields, RequestFields, request_of};
use std::alloc::Global;
use value_types::{Memory, Units, units_of_le};

/// The unit that ends a name in brackets.
const BRACKET: u16 = 0x5D;

/// The text that a payload stands for, or its first field that is refused.
#[tactic(auto, unfolding(crate::specs::Text::managed))]
pub fn transaction_text(alloc: Global, payload: &[u8]) -> Result<Units, TransactionFault>
    requires { length payload.now < 2 ^ 32 }
    ensures { Answers result (managed payload.now) }
{
    match request_of(payload) {
        Ok(request) => match text_of(alloc, request) {
            Ok(text) => Ok(text),
            Err(_) => Err(TransactionFault::Memory),
        },
        Err(refusal) => {
            let at = payload.len().saturating_sub(refusal.left) as u32;
            Err(TransactionFault::Bad {
                at,
                kind: refusal.kind,
            })
        }
    }
}

/// The text of a request.
#[tactic(auto, unfolding(crate::specs::Text::text_of))]
fn text_of(alloc: Global, request: RequestFields<'_>) -> Result<Units, Memory>
    ensures { IfOk result (λ text. text ≡ text_of (seen request.entry)) }
{
    let mut out = Vec::new(alloc);
    match request {
        RequestFields::Begins(new) => add_new(alloc, &mut out, new)?,
        RequestFields::Commits(name, anew) => {
            add_named(alloc, &mut out, "COMMIT TRANSACTION", name)?;
            add_anew(alloc, &mut out, anew)?;
        }
        RequestFields::RollsBack(name, anew) => {
            add_guard(&mut out, anew)?;
            add_named(alloc, &mut out, "ROLLBACK TRANSACTION", name)?;
            add_anew(alloc, &mut out, anew)?;
        }
        RequestFields::Saves(name) => add_named(alloc, &mut out, "SAVE TRANSACTION", name)?,
    }
    Ok(Units::from(out))
}

/// Appends what begins behind another, where something does.
#[tactic(auto, unfolding(crate::specs::Text::anew_text))]
fn add_anew(alloc: Global, out: &mut Vec<u16>, anew: Option<NewFields<'_>>) -> Result<(), Memory>
    ensures { OnOk result (out.new.items ≡ out.old.items ++ anew_text (option_map seen_new anew.entry)) }
{
    match anew {
        None => Ok(()),
        Some(new) => {
            add_ascii(out, "; ")?;
            add_next(alloc, out, new)
        }
    }
}

/// Appends that a transaction begins behind another.
#[tactic(auto, unfolding(crate::specs::Text::next_text))]
fn add_next(alloc: Global, out: &mut Vec<u16>, new: NewFields<'_>) -> Result<(), Memory>
    ensures { OnOk result (out.new.items ≡ out.old.items ++ next_text (seen_new new.entry)) }
{
    add_level(out, new.level)?;
    add_ascii(out, if_closed())?;
    add_named(alloc, out, "BEGIN TRANSACTION", new.name)
}

/// Appends what stands in front of a rollback behind which something begins.
#[tactic(auto, unfolding(crate::specs::Text::guard))]
fn add_guard(out: &mut Vec<u16>, anew: Option<NewFields<'_>>) -> Result<(), Memory>
    ensures { OnOk result (out.new.items ≡ out.old.items ++ guard (option_map seen_new anew.entry)) }
{
    match anew {
        None => Ok(()),
        Some(_) => add_ascii(out, "IF @@TRANCOUNT > 0 "),
    }
}

/// Appends that a transaction begins.
#[tactic(auto, unfolding(crate::specs::Text::new_text))]
fn add_new(alloc: Global, out: &mut Vec<u16>, new: NewFields<'_>) -> Result<(), Memory>
    ensures { OnOk result (out.new.items ≡ out.old.items ++ new_text (seen_new new.entry)) }
{
    add_level(out, new.level)?;
    add_named(alloc, out, "BEGIN TRANSACTION", new.name)
}

/// Appends what stands in front of what begins at a level.
#[tactic(auto, unfolding(crate::specs::Text::level_text))]
fn add_level(out: &mut Vec<u16>, level: u8) -> Result<(), Memory>
    ensures { OnOk result (out.new.items ≡ out.old.items ++ level_text level) }
{
    if level == 0 {
        return Ok(());
    }
    add_ascii(out, set_level())?;
    add_ascii(out, level_words(level))?;
    add_ascii(out, if_set())
}

/// What stands in front of a level.
#[tactic(auto, unfolding(crate::specs::Text::set_level))]
fn set_level() -> &'static str
    ensures { result.now ≡ set_level }
{
    "SET TRANSACTION ISOLATION LEVEL "
}

/// What stands behind a level.
#[tactic(auto, unfolding(crate::specs::Text::if_set))]
fn if_set() -> &'static str
    ensures { result.now ≡ if_set }
{
    "; IF @@ERROR = 0 "
}

/// What stands in front of what begins behind another.
#[tactic(auto, unfolding(crate::specs::Text::if_closed))]
fn if_closed() -> &'static str
    ensures { result.now ≡ if_closed }
{
    "IF @@TRANCOUNT = 0 "
}

/// A level above 0 in words.
#[tactic(auto, unfolding(crate::specs::Text::level_words))]
fn level_words(level: u8) -> &'static str
    ensures { result.now ≡ level_words level }
{
    match level {
        1 => "READ UNCOMMITTED",
        2 => "READ COMMITTED",
        3 => "REPEATABLE READ",
        4 => "SERIALIZABLE",
        _ => "SNAPSHOT",
    }
}

/// Appends words, and behind them a name in brackets, where there is one.
#[tactic(auto, unfolding(crate::specs::Text::called))]
fn add_named(alloc: Global, out: &mut Vec<u16>, words: &str, name: &[u8]) -> Result<(), Memory>
    ensures { OnOk result (out.new.items ≡ out.old.items ++ words.now ++ called (units_of name.now)) }
{
    add_ascii(out, words)?;
    let Ok(name) = units_of_le(alloc, name) else {
        return Err(Memory);
    };
    if name.is_empty() {
        return Ok(());
    }
    add_ascii(out, " [")?;
    add_doubled(out, name.as_slice())?;
    add_ascii(out, "]")
}

/// Appends units; a bracket that would end the name stands twice.
fn add_doubled(out: &mut Vec<u16>, units: &[u16]) -> Result<(), Memory>
    ensures { OnOk result (out.new.items ≡ out.old.items ++ flat_map doubled units.now) }
{
    for unit in units {
        match *unit {
            BRACKET => out.extend_from_slice(&[BRACKET, BRACKET])?,
            other => out.push(other)?,
        }
    }
    Ok(())
}

/// Appends the units of an ASCII text.
fn add_ascii(out: &mut Vec<u16>, text: &str) -> Result<(), Memory>
    ensures { OnOk result (out.new.items ≡ out.old.items ++ text.now) }
{
    for byte in text.as_bytes() {
        out.push(u16::from(*byte))?;
    }
    Ok(())
}
