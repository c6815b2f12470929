//! What rows of `objects`, the table of definitions, define.

ghost use Rattle.std.specs.Prelude.{◌≡◌, IfOk, option_map};
ghost use Rattle.table_rows.specs.Definitions as spec;

use std::alloc::Global;
use stmt_parser::{ParseFault, parse_definition};
use table_rows::has_values;
use tsql_tree::Definition;
use value_types::{Key, Memory, Row, Units, Value};

/// The places of the key of `objects`.
const KEY_PLACES: [u16; 1] = [0];

/// The most units of a text that is read as a definition.
pub const LONGEST_TEXT: usize = 2_147_483_647;

/// The constant is the limit.
pub fn law_longest_text()
    ensures { LONGEST_TEXT ≡ spec.longest_text }
{}

/// What a row of `objects` defines for a name; none where it is not the row of that name, or its text is not read as a
/// definition of that name.
#[tactic(auto, using(crate::proofs::Defining::text_found, crate::proofs::Defining::nothing_found))]
pub fn definition_of(alloc: Global, name: &Units, row: &Row) -> Result<Option<Definition>, Memory>
    ensures { IfOk result (λ found. spec.IsDefinitionOf name.now row.now found) }
{
    match text_in(name, row) {
        Some(text) => defined(alloc, name, text),
        None => Ok(None),
    }
}

/// The text in a row of this name.
fn text_in<'a>(name: &Units, row: &'a Row) -> Option<&'a Units>
    ensures { option_map (λ text. text.now) result ≡ spec.text_in name.now row.now }
{
    match row.as_slice() {
        [Value::Text(own), Value::Text(text)] if own == name => Some(text),
        _ => None,
    }
}

/// What a row of `objects` defines for its own name; none where it begins with no name, stands at another key than its
/// name's, or its text is no definition of that name.
#[tactic(auto, using(crate::proofs::Defining::at_name, crate::proofs::Defining::at_none))]
pub fn definition_in(alloc: Global, key: &Key, row: &Row) -> Result<Option<Definition>, Memory>
    ensures { IfOk result (λ found. spec.IsDefinitionIn (key.now, row.now) found) }
{
    match own_name(key, row) {
        Some(name) => definition_of(alloc, name, row),
        None => Ok(None),
    }
}

/// The name of a row that stands at its own key.
fn own_name<'a>(key: &Key, row: &'a Row) -> Option<&'a Units>
    ensures { option_map (λ name. name.now) result ≡ spec.own_name key.now row.now }
{
    match row.as_slice() {
        [Value::Text(name), ..] if has_values(row, &KEY_PLACES, key.as_slice()) => Some(name),
        _ => None,
    }
}

/// What a text defines for a name.
#[tactic(auto, using(crate::proofs::Defining::read, crate::proofs::Defining::refused, crate::proofs::Defining::too_long))]
fn defined(alloc: Global, name: &Units, text: &Units) -> Result<Option<Definition>, Memory>
    ensures { IfOk result (λ found. spec.IsDefinitionOf name.now (spec.row_of name.now text.now) found) }
{
    if text.len() > LONGEST_TEXT {
        return Ok(None);
    }
    match parse_definition(alloc, text) {
        Ok(definition) => Ok(named(name, definition)),
        Err(ParseFault::Refused { .. }) => Ok(None),
        Err(ParseFault::Memory) => Err(Memory),
    }
}

/// A definition, where it is one of this name.
fn named(name: &Units, definition: Definition) -> Option<Definition>
    ensures { result ≡ spec.only_named name.now definition }
{
    if *defined_name(&definition) == *name {
        Some(definition)
    } else {
        None
    }
}

/// The name of what is defined.
fn defined_name(definition: &Definition) -> &Units
    ensures { result.now ≡ spec.defined_name definition.now }
{
    match definition {
        Definition::Table(table) => &table.name,
        Definition::Procedure(procedure) => &procedure.name,
        Definition::Trigger(trigger) => &trigger.name,
    }
}
