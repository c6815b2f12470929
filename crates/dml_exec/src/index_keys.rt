//! Which index rows are asked for before anything is changed, and how.

ghost use Rattle.std.specs.Prelude.{◌≡◌, ◌++◌, ◌∷◌, [], IfOk, IsTrue};
ghost use Rattle.lock_modes.specs.declared.KeyPart.TheVariants.{U};
ghost use Rattle.step_model.specs.declared.op.Hold.TheVariants.{Range};
ghost use Rattle.step_model.specs.declared.op.Op.TheVariants as ops;
ghost use Rattle.step_model.specs.declared.range.Start.TheVariants.{At};
ghost use Rattle.step_model.specs.declared.range.Stop.TheVariants.{Within};
ghost use Rattle.step_model.specs.Dialog.{Asks};
ghost use Rattle.step_model.specs.Own as own;
ghost use Rattle.dml_exec.specs.Asking.{MayWork, seen};
ghost use Rattle.dml_exec.specs.Indexes as private;
ghost use Rattle.dml_exec.specs.Planning as planning;
ghost use Rattle.dml_exec.specs.Writing as spec;

use crate::refusal::Refusal;
use lock_modes::KeyPart;
use std::alloc::Global;
use step_model::{Deed, Hold, Manner, Op, Planned, Port, Reply, Start, Stop};
use value_types::{Key, Memory, TableName};

/// Whether a change is one of an index row that goes or is replaced.
pub(crate) fn is_asked(change: &Planned) -> bool
    ensures { result ≡ planning.is_asked change.now }
{
    !change.is_own() && !is_insert(&change.deed)
}

fn is_insert(deed: &Deed) -> bool
    ensures { result ≡ own.is_insert deed.now }
{
    match deed {
        Deed::Erase => false,
        Deed::Replace(_) => false,
        Deed::Insert(_) => true,
    }
}

/// Asks for the index rows that changes erase or replace, one after another: whether each is there.
pub(crate) fn ask_keys<P: Port>(
    alloc: Global,
    port: &mut P,
    manner: Manner,
    changes: &[Planned],
) -> Result<Vec<bool>, Refusal>
    requires may { MayWork (P.past port.old) manner }
    ensures asks { Asks (P.past port.old) (P.past port.new) manner (spec.asks_keys changes.now []) (seen result) }
    ensures standing { (P.past port.new).standing ≡ (P.past port.old).standing }
{
    let mut found = Vec::new(alloc);
    for change in changes {
        if is_asked(change) {
            let there = ask_key(alloc, port, manner, change)?;
            if !add(&mut found, there) {
                return Err(Refusal::Memory);
            }
        }
    }
    Ok(found)
}

/// Adds an answer. Whether there was memory for it.
fn add(found: &mut Vec<bool>, there: bool) -> bool
    ensures { IsTrue result → found.new.items ≡ found.old.items ++ there ∷ [] }
{
    found.push(there).is_ok()
}

/// Asks whether a row is at the key of a change, if there is memory for it.
fn ask_key<P: Port>(
    alloc: Global,
    port: &mut P,
    manner: Manner,
    change: &Planned,
) -> Result<bool, Refusal>
    requires may { MayWork (P.past port.old) manner }
    ensures asks { Asks (P.past port.old) (P.past port.new) manner (spec.asks_key change.now.table change.now.key) result }
    ensures standing { (P.past port.new).standing ≡ (P.past port.old).standing }
{
    match key_fetch(alloc, &change.table, &change.key) {
        Ok(fetch) => told_by(port.ask(&fetch, manner)),
        Err(_) => Err(Refusal::Memory),
    }
}

/// What the reply to a fetch of a whole key tells: whether a row is there.
fn told_by(reply: Reply) -> Result<bool, Refusal>
    requires reply { private.IsRowReply reply }
    ensures { private.TellsRow reply result }
{
    match reply {
        Reply::Row { .. } => Ok(true),
        Reply::Gone { .. } => Ok(false),
        Reply::End { .. } => Ok(false),
        Reply::Memory => Err(Refusal::Memory),
        Reply::TimedOut { .. } => Err(Refusal::TimedOut),
        Reply::Victim { .. } => Err(Refusal::Victim),
        _ => unreachable!(),
    }
}

/// The fetch of a whole key, which holds its range; with U, since it is to be changed.
fn key_fetch(alloc: Global, table: &TableName, key: &Key) -> Result<Op, Memory>
    ensures { IfOk result (λ fetch. fetch ≡ ops.Fetch table.now (At key.now) (Within key.now) Range U) }
{
    Ok(Op::Fetch {
        table: table.copy(alloc)?,
        start: Start::At(key.copy(alloc)?),
        stop: Stop::Within(key.copy(alloc)?),
        hold: Hold::Range,
        part: KeyPart::U,
    })
}
