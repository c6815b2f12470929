//! Pairs that come again, which are dropped as they come.

ghost use Rattle.std.specs.Prelude.{◌≡◌, ◌∷◌, [], ◌++◌, IsTrue, OnOk};
ghost use Rattle.std.specs.List.{list_any};
ghost use Rattle.group_rows.specs.Equals.{same_row as is_same_row};
ghost use Rattle.group_rows.specs.Equals as spec;

use crate::order::same_row;
use value_types::{Memory, Row, Value};

/// By what a sum grows before a number is added.
const FACTOR: u64 = 31;

/// Where a row was put, and its sum, by which most that differ from it are told apart.
#[derive(Clone, Copy)]
pub struct Spot {
    sum: u64,
    place: u32,
}

impl Spot {
    /// Where no row was put yet.
    pub fn first() -> Spot {
        Spot { sum: 0, place: 0 }
    }
}

/// Adds a pair. It is left out where a pair is found whose second row equals its own, so that the first of
/// equals are the same. Looked for is the pair at the spot that such rows have; any spots will do, and those
/// that begin as [`Spot::first`] find most of the rows that come again.
pub fn push_pair(
    spots: &mut [Spot],
    pairs: &mut Vec<(Row, Row)>,
    pair: (Row, Row),
) -> Result<(), Memory>
    ensures { OnOk result (spec.firsts (λ a b. is_same_row a.1 b.1) pairs.new.items ≡ spec.firsts (λ a b. is_same_row a.1 b.1) (pairs.old.items ++ pair ∷ [])) }
{
    let sum = sum_of(pair.1.as_slice());
    let slot = slot_of(sum, spots.len());
    if is_kept(pairs.as_slice(), place_at(spots, slot, sum), &pair.1) {
        return Ok(());
    }
    put_spot(spots, slot, sum, pairs.len());
    Ok(pairs.push(pair)?)
}

/// Whether the pair at this place, if there is one, has this second row.
fn is_kept(pairs: &[(Row, Row)], place: Option<usize>, row: &Row) -> bool
    ensures { IsTrue result → IsTrue (list_any (λ pair. is_same_row row.now pair.1) pairs.now) }
{
    match place {
        Some(place) => is_at(pairs, place, row),
        None => false,
    }
}

/// Whether the pair at this place has this second row.
fn is_at(pairs: &[(Row, Row)], place: usize, row: &Row) -> bool
    ensures { IsTrue result → IsTrue (list_any (λ pair. is_same_row row.now pair.1) pairs.now) }
{
    match pairs.get(place) {
        Some(pair) => same_row(row, &pair.1),
        None => false,
    }
}

/// The place that a slot has for rows of this sum.
fn place_at(spots: &[Spot], slot: usize, sum: u64) -> Option<usize> {
    match spots.get(slot) {
        Some(spot) if spot.sum == sum => Some(spot.place as usize),
        _ => None,
    }
}

/// Gives a slot the place of a row of this sum.
fn put_spot(spots: &mut [Spot], slot: usize, sum: u64, place: usize) {
    if let (Some(spot), Ok(place)) = (spots.get_mut(slot), u32::try_from(place)) {
        *spot = Spot { sum, place };
    }
}

/// The slot of rows of this sum, of so many.
fn slot_of(sum: u64, count: usize) -> usize {
    match sum.checked_rem(count as u64) {
        Some(slot) => slot as usize,
        None => 0,
    }
}

/// The sum of a row.
fn sum_of(values: &[Value]) -> u64 {
    let mut sum: u64 = 0;
    for value in values {
        sum = with_value(sum, value);
    }
    sum
}

/// What a sum is with one value more.
fn with_value(sum: u64, value: &Value) -> u64 {
    match value {
        Value::Null => with_number(sum, 0),
        Value::Whole(number) => with_number(sum, number.unsigned_abs()),
        Value::Bit(bit) => with_number(sum, u64::from(*bit)),
        Value::Text(units) => with_units(sum, units.as_slice()),
    }
}

/// What a sum is with one number more.
fn with_number(sum: u64, number: u64) -> u64 {
    sum.wrapping_mul(FACTOR).wrapping_add(number)
}

/// What a sum is with the units of a text.
fn with_units(sum: u64, units: &[u16]) -> u64 {
    let mut sum = sum;
    for unit in units {
        sum = with_number(sum, u64::from(*unit));
    }
    sum
}
