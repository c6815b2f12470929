//! Which argument is for which parameter.

ghost use Rattle.std.specs.Prelude.{◌≡◌, ◌<◌, ◌||◌, ◌&&◌, not, IfOk, None, List, ℕ, length, option_map, replicate};
ghost use Rattle.tsql_tree.specs.declared.definition.Parameter.{Parameter as Tree};
ghost use Rattle.call_rules.specs.Arguments as spec;
ghost use Rattle.call_rules.specs.Found.{ArePlaces, lent, lent_slots};

use std::alloc::Global;
use std::collections::BTreeMap;
use tsql_tree::{Argument, ArgumentValue, Parameter};
use value_types::{Memory, Units};

/// The arguments in the order of the parameters that they are for, where they match.
pub(crate) fn matched<'a>(
    alloc: Global,
    parameters: &[Parameter],
    arguments: &'a [Argument],
) -> Result<Option<Vec<&'a Argument>>, Memory>
    ensures { IfOk result (λ found. option_map (λ found. lent found.items) found ≡ spec.matched parameters.now arguments.now) }
{
    let places = places_of(alloc, parameters)?;
    let mut slots = empty_slots(alloc, parameters.len())?;
    for (at, argument) in arguments.iter().enumerate() {
        let Some(place) = place_for(&places, parameters.len(), at, &argument.name) else {
            return Ok(None);
        };
        if !may_be_for(argument, &parameters[place]) {
            return Ok(None);
        }
        if slots[place].is_some() {
            return Ok(None);
        }
        slots[place] = Some(argument);
    }
    all_there(alloc, &slots)
}

/// A place for the argument of each of so many parameters.
fn empty_slots<'a>(alloc: Global, count: usize) -> Result<Vec<Option<&'a Argument>>, Memory>
    ensures { IfOk result (λ slots. slots.items ≡ replicate count None) }
{
    let mut slots = Vec::with_capacity(alloc, count)?;
    for _place in 0..count {
        slots.push(None)?;
    }
    Ok(slots)
}

/// The places of parameters by their names: of one name the first.
fn places_of(alloc: Global, parameters: &[Parameter]) -> Result<BTreeMap<Units, usize>, Memory>
    ensures { IfOk result (λ places. ArePlaces places parameters.now) }
{
    let mut places = BTreeMap::new(alloc);
    let mut place = parameters.len();
    while 0 < place {
        place -= 1;
        places.insert(parameters[place].name.copy(alloc)?, place)?;
    }
    Ok(places)
}

/// The place of the parameter that an argument is for, by the argument's place and its name.
fn place_for(
    places: &BTreeMap<Units, usize>,
    count: usize,
    at: usize,
    name: &Option<Units>,
) -> Option<usize>
    ensures { (parameters : List Tree) → count ≡ length parameters → ArePlaces places.now parameters → result ≡ spec.place_for parameters at name.now }
{
    match name {
        Some(name) => places.get(name).copied(),
        None if at < count => Some(at),
        None => None,
    }
}

/// Whether an argument may be for this parameter.
fn may_be_for(argument: &Argument, parameter: &Parameter) -> bool
    ensures { result ≡ (not argument.now.output || (parameter.now.output && spec.is_variable argument.now.value)) }
{
    !argument.output || (parameter.output && is_variable(&argument.value))
}

fn is_variable(value: &ArgumentValue) -> bool
    ensures { result ≡ spec.is_variable value.now }
{
    match value {
        ArgumentValue::Constant(_) => false,
        ArgumentValue::Variable(_) => true,
    }
}

/// All of them, where each is there.
fn all_there<'a>(
    alloc: Global,
    slots: &[Option<&'a Argument>],
) -> Result<Option<Vec<&'a Argument>>, Memory>
    ensures { IfOk result (λ found. option_map (λ found. lent found.items) found ≡ spec.all_there (lent_slots slots.now)) }
{
    let mut found = Vec::with_capacity(alloc, slots.len())?;
    for slot in slots {
        let Some(argument) = *slot else {
            return Ok(None);
        };
        found.push(argument)?;
    }
    Ok(Some(found))
}
