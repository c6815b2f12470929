//! The triggers that a statement fires.

ghost use Rattle.std.specs.Prelude.{◌≡◌, ◌++◌, ◌<◌, ◌∷◌, [], IfOk, filter_map, length, option_to_list};
ghost use Rattle.std.specs.List.{enumerate_from, list_any};
ghost use Rattle.value_types.specs.declared.value.Value.TheVariants.{Text};
ghost use Rattle.call_rules.specs.Triggers as spec;

use crate::key_order::in_key_order;
use std::alloc::Global;
use tsql_tree::{Definition, Event, TriggerTree};
use value_types::{Key, Memory, Units, Value};

/// The places of the triggers on a table that an event fires, in the order of their names as keys.
///
/// Transact-SQL reference, "CREATE TRIGGER".
pub fn triggers_for(
    alloc: Global,
    definitions: &[Definition],
    table: &Units,
    event: Event,
) -> Result<Vec<u32>, Memory>
    requires { length definitions.now < 2147483648 }
    ensures { IfOk result (λ places. places.items ≡ spec.triggers_for table.now event definitions.now) }
{
    let fired = fired(alloc, definitions, table, event)?;
    in_key_order(alloc, fired)
}

/// The places of the triggers that are fired, beside their names as keys.
fn fired(
    alloc: Global,
    definitions: &[Definition],
    table: &Units,
    event: Event,
) -> Result<Vec<(Key, u32)>, Memory>
    requires { length definitions.now < 2147483648 }
    ensures { IfOk result (λ fired. fired.items ≡ filter_map (spec.fired_as table.now event) (enumerate_from 0 definitions.now)) }
{
    let mut fired = Vec::new(alloc);
    for (place, definition) in definitions.iter().enumerate() {
        add_fired(alloc, &mut fired, place as u32, definition, table, event)?;
    }
    Ok(fired)
}

/// Adds the place of a definition, if it is a trigger that is fired.
fn add_fired(
    alloc: Global,
    fired: &mut Vec<(Key, u32)>,
    place: u32,
    definition: &Definition,
    table: &Units,
    event: Event,
) -> Result<(), Memory>
    ensures { IfOk result (λ _. fired.new.items ≡ fired.old.items ++ option_to_list (spec.fired_as table.now event (place, definition.now))) }
{
    if let Definition::Trigger(trigger) = definition {
        if is_fired(trigger, table, event) {
            fired.push((name_key(alloc, &trigger.name)?, place))?;
        }
    }
    Ok(())
}

/// Whether a trigger is on this table, for this event.
fn is_fired(trigger: &TriggerTree, table: &Units, event: Event) -> bool
    ensures { result ≡ spec.is_fired table.now event trigger.now }
{
    trigger.table == *table && has_event(trigger.events.as_slice(), event)
}

fn has_event(events: &[Event], event: Event) -> bool
    ensures { result ≡ list_any (spec.is_event event) events.now }
{
    events.iter().any(|other| is_event(event, *other))
}

fn is_event(event: Event, other: Event) -> bool
    ensures { result ≡ spec.is_event event other }
{
    event == other
}

/// A name as the key of a row.
fn name_key(alloc: Global, name: &Units) -> Result<Key, Memory>
    ensures { IfOk result (λ key. key ≡ Text name.now ∷ []) }
{
    let mut values = Vec::with_capacity(alloc, 1)?;
    values.push(Value::Text(name.copy(alloc)?))?;
    Ok(Key::new(values))
}
