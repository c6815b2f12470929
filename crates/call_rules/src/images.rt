//! The rows that triggers see.

ghost use Rattle.std.specs.Prelude.{◌≡◌, ◌≤◌, ◌++◌, ◌∷◌, [], IfOk, List, filter, filter_map, length, map, option_map, option_to_list};
ghost use Rattle.value_types.specs.Order.{key_limit};
ghost use Rattle.bound_tree.specs.Setting.{value_at};
ghost use Rattle.step_model.specs.declared.change.Planned.{Planned as Change};
ghost use Rattle.step_model.specs.Own.{row_of};
ghost use Rattle.call_rules.specs.Found.{AreTaken};
ghost use Rattle.call_rules.specs.Triggers as spec;

use crate::key_order::in_key_order;
use bound_tree::Image;
use std::alloc::Global;
use std::collections::BTreeSet;
use step_model::{Deed, Planned};
use value_types::{Key, Memory, Row, Value};

/// The images `deleted` and `inserted` of a write: of these rows of its table, whose key has the columns of
/// these places, those that its changes take away, and the rows that they put. Both are in the order of
/// their keys. Of an INSERT no rows are asked, of a DELETE none are put. Changes of index parts are none
/// of them.
///
/// Transact-SQL reference, "Use the inserted and deleted tables".
pub fn trigger_images(
    alloc: Global,
    key: &[u16],
    rows: &[Row],
    changes: &[Planned],
) -> Result<(Image, Image), Memory>
    requires not_empty { 1 ≤ length key.now }
    requires within_limit { length key.now ≤ key_limit }
    ensures deleted { IfOk result (λ images. images.0 ≡ spec.deleted key.now rows.now changes.now) }
    ensures inserted { IfOk result (λ images. images.1 ≡ spec.inserted changes.now) }
{
    let deleted = deleted(alloc, key, rows, changes)?;
    let inserted = inserted(alloc, changes)?;
    Ok((Image::from(deleted), Image::from(inserted)))
}

/// The rows that changes take away.
fn deleted(
    alloc: Global,
    key: &[u16],
    rows: &[Row],
    changes: &[Planned],
) -> Result<Vec<Row>, Memory>
    requires not_empty { 1 ≤ length key.now }
    requires within_limit { length key.now ≤ key_limit }
    ensures { IfOk result (λ found. found.items ≡ spec.deleted key.now rows.now changes.now) }
{
    let keys = taken_keys(alloc, changes)?;
    let mut taken = Vec::new(alloc);
    for row in rows {
        add_taken(alloc, &mut taken, &keys, key, row)?;
    }
    in_key_order(alloc, taken)
}

/// The keys of the rows that changes take away.
fn taken_keys(alloc: Global, changes: &[Planned]) -> Result<BTreeSet<Key>, Memory>
    ensures { IfOk result (λ keys. AreTaken keys changes.now) }
{
    let mut keys = BTreeSet::new(alloc);
    for change in changes {
        if takes_own(change) {
            keys.insert(change.key.copy(alloc)?)?;
        }
    }
    Ok(keys)
}

/// Whether an own row of the table stands at the key no more.
fn takes_own(change: &Planned) -> bool
    ensures { result ≡ spec.takes_own change.now }
{
    change.is_own() && takes_away(&change.deed)
}

/// Whether what stood at the key stands there no more.
fn takes_away(deed: &Deed) -> bool
    ensures { result ≡ spec.takes_away deed.now }
{
    match deed {
        Deed::Erase => true,
        Deed::Replace(_) => true,
        Deed::Insert(_) => false,
    }
}

/// Adds a row beside its key, if that is one of these.
fn add_taken(
    alloc: Global,
    taken: &mut Vec<(Key, Row)>,
    keys: &BTreeSet<Key>,
    places: &[u16],
    row: &Row,
) -> Result<(), Memory>
    requires not_empty { 1 ≤ length places.now }
    requires within_limit { length places.now ≤ key_limit }
    ensures { IfOk result (λ _. (changes : List Change) → AreTaken keys.now changes → taken.new.items ≡ taken.old.items ++ filter (spec.is_taken changes) (spec.keyed places.now row.now ∷ [])) }
{
    let key = key_of(alloc, places, row)?;
    if keys.contains(&key) {
        taken.push((key, row.copy(alloc)?))?;
    }
    Ok(())
}

/// The key of a row.
fn key_of(alloc: Global, places: &[u16], row: &Row) -> Result<Key, Memory>
    requires not_empty { 1 ≤ length places.now }
    requires within_limit { length places.now ≤ key_limit }
    ensures { IfOk result (λ key. key ≡ map (value_at row.now) places.now) }
{
    let values = values_at(alloc, places, row)?;
    Ok(Key::new(values))
}

/// The values at places of a row.
fn values_at(alloc: Global, places: &[u16], row: &Row) -> Result<Vec<Value>, Memory>
    ensures values { IfOk result (λ values. values.items ≡ map (value_at row.now) places.now) }
    ensures many { IfOk result (λ values. length values.items ≡ length places.now) }
{
    let mut values = Vec::with_capacity(alloc, places.len())?;
    for place in places {
        values.push(value_at(alloc, row, *place)?)?;
    }
    Ok(values)
}

/// The value at a place of a row. A place that is not there has NULL.
fn value_at(alloc: Global, row: &Row, place: u16) -> Result<Value, Memory>
    ensures { IfOk result (λ value. value ≡ value_at row.now place) }
{
    match row.as_slice().get(usize::from(place)) {
        Some(value) => value.copy(alloc),
        None => Ok(Value::Null),
    }
}

/// The rows that changes put.
fn inserted(alloc: Global, changes: &[Planned]) -> Result<Vec<Row>, Memory>
    ensures { IfOk result (λ found. found.items ≡ spec.inserted changes.now) }
{
    let mut put = Vec::new(alloc);
    for change in changes {
        add_put(alloc, &mut put, change)?;
    }
    in_key_order(alloc, put)
}

/// Adds the row that a change puts beside its key, if it puts one.
fn add_put(alloc: Global, put: &mut Vec<(Key, Row)>, change: &Planned) -> Result<(), Memory>
    ensures { IfOk result (λ _. put.new.items ≡ put.old.items ++ option_to_list (spec.put_at change.now)) }
{
    if let Some(row) = own_put(change) {
        put.push((change.key.copy(alloc)?, row.copy(alloc)?))?;
    }
    Ok(())
}

/// The own row of the table that a change puts.
fn own_put(change: &Planned) -> Option<&Row>
    ensures { option_map (λ row. row.now) result ≡ spec.own_put change.now }
{
    if change.is_own() {
        row_of(&change.deed)
    } else {
        None
    }
}

/// The row that a change puts.
fn row_of(deed: &Deed) -> Option<&Row>
    ensures { option_map (λ row. row.now) result ≡ row_of deed.now }
{
    match deed {
        Deed::Erase => None,
        Deed::Replace(row) => Some(row),
        Deed::Insert(row) => Some(row),
    }
}
