//! Which triggers a write fires.

ghost use Rattle.std.specs.Prelude.{◌≡◌, ◌++◌, ◌∷◌, [], if◌then◌else◌, option_to_list, IfOk, List, None, Ok, Some, filter, filter_map, map, slice_get, slice_set};
ghost use Rattle.tsql_tree.specs.declared.definition.Definition.{Definition as Defined};
ghost use Rattle.tsql_tree.specs.declared.definition.Definition.TheVariants.{Trigger};
ghost use Rattle.call_rules.specs.Triggers as seen;
ghost use Rattle.table_rows.specs.Definitions.{tables_of as tables_defined};
ghost use Rattle.batch_meaning.specs.Writes.{fires_of, is_fired, trigger_in};
ghost use Rattle.statement_exec.specs.Slots.{AreSlots, table_left};
ghost use Rattle.session_state.specs.Parts.{IsOrMemory};

use crate::changing::event_of;
use batch_meaning::Failure;
use bound_tree::BoundWrite;
use call_rules::triggers_for;
use dml_exec::table_written;
use session_state::{Around, no_memory};
use sqlite_items::Items;
use std::alloc::Global;
use tsql_tree::{Definition, Event, TableTree, TriggerTree};
use value_types::{Memory, Units};

/// More definitions than can be.
const MANY_DEFINITIONS: usize = 2_147_483_648;

/// The tables among definitions, and the triggers that a write fires, in the order of their names.
pub(crate) fn fired_among(
    alloc: Global,
    around: &Around<'_, '_>,
    definitions: Vec<Definition>,
    write: &BoundWrite,
) -> Result<(Items<TableTree>, Items<TriggerTree>), Failure>
    ensures { IsOrMemory (Ok (tables_defined definitions.items, fires_of around.now definitions.items write.now)) result }
{
    let table = &table_written(write).object;
    match parted(alloc, around, definitions, table, event_of(write)) {
        Ok(parts) => Ok(parts),
        Err(_) => Err(no_memory()),
    }
}

/// The tables among definitions, and the triggers that an event of a table fires.
fn parted(
    alloc: Global,
    around: &Around<'_, '_>,
    definitions: Vec<Definition>,
    table: &Units,
    event: Event,
) -> Result<(Items<TableTree>, Items<TriggerTree>), Memory>
    ensures { IfOk result (λ parts. parts ≡ (tables_defined definitions.items, filter (is_fired around.now) (filter_map (λ place. trigger_in (slice_get definitions.items place)) (seen.triggers_for table.now event definitions.items)))) }
{
    if MANY_DEFINITIONS <= definitions.len() {
        return Err(Memory);
    }
    let places = triggers_for(alloc, definitions.as_slice(), table, event)?;
    let mut slots = slots_of(alloc, definitions)?;
    let fires = take_fired(alloc, around, &mut slots, places.as_slice())?;
    let tables = tables_left(alloc, slots)?;
    Ok((Items::from_vec(tables), Items::from_vec(fires)))
}

/// A slot for each definition.
fn slots_of(alloc: Global, definitions: Vec<Definition>) -> Result<Vec<Option<Definition>>, Memory>
    ensures { IfOk result (λ slots. slots.items ≡ map (λ definition. Some definition) definitions.items) }
{
    let mut slots = Vec::with_capacity(alloc, definitions.len())?;
    for definition in definitions {
        slots.push(Some(definition))?;
    }
    Ok(slots)
}

/// Takes the triggers at these places out of their slots. A trigger is not fired by its own statements.
fn take_fired(
    alloc: Global,
    around: &Around<'_, '_>,
    slots: &mut [Option<Definition>],
    places: &[u32],
) -> Result<Vec<TriggerTree>, Memory>
    ensures slots { IfOk result (λ fires. (definitions : List Defined) → AreSlots slots.old definitions → AreSlots slots.new definitions) }
    ensures fires { IfOk result (λ fires. (definitions : List Defined) → AreSlots slots.old definitions → fires.items ≡ filter (is_fired around.now) (filter_map (λ place. trigger_in (slice_get definitions place)) places.now)) }
{
    let mut fires = Vec::new(alloc);
    for place in places {
        let trigger = take_trigger(slots, *place as usize)?;
        add_fired(around, &mut fires, trigger)?;
    }
    Ok(fires)
}

/// Adds a trigger, unless it is fired by its own statements.
fn add_fired(
    around: &Around<'_, '_>,
    fires: &mut Vec<TriggerTree>,
    trigger: TriggerTree,
) -> Result<(), Memory>
    ensures { IfOk result (λ _. fires.new.items ≡ fires.old.items ++ (if is_fired around.now trigger then trigger ∷ [] else [])) }
{
    if around.is_trigger(&trigger.name) {
        return Ok(());
    }
    fires.push(trigger)?;
    Ok(())
}

/// Takes a trigger out of its slot.
fn take_trigger(slots: &mut [Option<Definition>], place: usize) -> Result<TriggerTree, Memory>
    ensures { IfOk result (λ trigger. (slice_get slots.old place ≡ Some (Some (Trigger trigger))) × (slots.new ≡ slice_set slots.old place None)) }
{
    if slots.len() <= place {
        return Err(Memory);
    }
    match slots[place].take() {
        Some(Definition::Trigger(trigger)) => Ok(trigger),
        _ => Err(Memory),
    }
}

/// The tables among definitions of which some were taken.
fn tables_left(alloc: Global, slots: Vec<Option<Definition>>) -> Result<Vec<TableTree>, Memory>
    ensures { IfOk result (λ tables. tables.items ≡ filter_map table_left slots.items) }
{
    let mut tables = Vec::new(alloc);
    for slot in slots {
        add_table(&mut tables, slot)?;
    }
    Ok(tables)
}

/// Adds what is left in a slot, if it is a table.
fn add_table(tables: &mut Vec<TableTree>, slot: Option<Definition>) -> Result<(), Memory>
    ensures { IfOk result (λ _. tables.new.items ≡ tables.old.items ++ option_to_list (table_left slot)) }
{
    match slot {
        Some(Definition::Table(table)) => Ok(tables.push(table)?),
        _ => Ok(()),
    }
}
