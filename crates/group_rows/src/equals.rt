//! Rows that are equal.

ghost use Rattle.std.specs.Prelude.{◌≡◌, ◌<◌, ◌^◌, length, map, IfOk};
ghost use Rattle.std.specs.List.{filter, items_where_true, zip};
ghost use Rattle.group_rows.specs.Equals.{same_row};
ghost use Rattle.group_rows.specs.Equals as spec;

use crate::keyed::Keyed;
use std::alloc::Global;
use std::collections::{BTreeMap, BTreeSet};
use value_types::{Memory, Row};

/// The classes of equal rows, in the order of their first rows, each as the places of its rows. NULLs are
/// equal, and so are texts that differ in the spaces at their ends alone.
pub fn classes(alloc: Global, keys: &[Row]) -> Result<Vec<Vec<u32>>, Memory>
    requires { length keys.now < 2 ^ 31 }
    ensures { IfOk result (λ found. map (λ class. class.items) found.items ≡ spec.classes same_row keys.now) }
{
    let mut numbers: BTreeMap<Keyed<'_>, usize> = BTreeMap::new(alloc);
    let mut classes: Vec<Vec<u32>> = Vec::new(alloc);
    for (place, row) in keys.iter().enumerate() {
        let key = Keyed { row };
        match numbers.get(&key) {
            Some(number) => classes[*number].push(place as u32)?,
            None => {
                numbers.insert(key, classes.len())?;
                classes.push(vec![in alloc; place as u32]?)?;
            }
        }
    }
    Ok(classes)
}

/// The rows that equal none before them, in order.
pub fn distinct(alloc: Global, rows: Vec<Row>) -> Result<Vec<Row>, Memory>
    ensures { IfOk result (λ found. found.items ≡ spec.firsts same_row rows.items) }
{
    let kept = are_firsts(alloc, &rows)?;
    rows_kept(alloc, rows, kept)
}

/// The pairs whose second rows equal none before them, in order.
pub fn distinct_pairs(alloc: Global, pairs: Vec<(Row, Row)>) -> Result<Vec<(Row, Row)>, Memory>
    ensures { IfOk result (λ found. found.items ≡ spec.firsts (λ a b. same_row a.1 b.1) pairs.items) }
{
    let kept = are_first_pairs(alloc, &pairs)?;
    pairs_kept(alloc, pairs, kept)
}

/// The pairs that are kept, in order.
fn pairs_kept(
    alloc: Global,
    pairs: Vec<(Row, Row)>,
    kept: Vec<bool>,
) -> Result<Vec<(Row, Row)>, Memory>
    ensures { IfOk result (λ found. found.items ≡ map (λ pair. pair.0) (filter (λ pair. pair.1) (zip pairs.items kept.items))) }
{
    let beside = pairs.into_iter().zip(kept);
    Ok(
        beside
            .filter(|pair| pair.1)
            .map(|pair| pair.0)
            .collect(alloc)?,
    )
}

/// Of each pair, whether its second row equals none before it.
fn are_first_pairs(alloc: Global, pairs: &[(Row, Row)]) -> Result<Vec<bool>, Memory>
    ensures same_length { IfOk result (λ kept. length kept.items ≡ length pairs.now) }
    ensures firsts { IfOk result (λ kept. items_where_true kept.items pairs.now ≡ spec.firsts (λ a b. same_row a.1 b.1) pairs.now) }
{
    let mut seen: BTreeSet<Keyed<'_>> = BTreeSet::new(alloc);
    let mut kept = Vec::with_capacity(alloc, pairs.len())?;
    for pair in pairs {
        kept.push(seen.insert(Keyed { row: &pair.1 })?)?;
    }
    Ok(kept)
}

/// The rows that are kept, in order.
fn rows_kept(alloc: Global, rows: Vec<Row>, kept: Vec<bool>) -> Result<Vec<Row>, Memory>
    ensures { IfOk result (λ found. found.items ≡ map (λ pair. pair.0) (filter (λ pair. pair.1) (zip rows.items kept.items))) }
{
    let pairs = rows.into_iter().zip(kept);
    Ok(
        pairs
            .filter(|pair| pair.1)
            .map(|pair| pair.0)
            .collect(alloc)?,
    )
}

/// Of each row, whether it equals none before it.
fn are_firsts(alloc: Global, rows: &[Row]) -> Result<Vec<bool>, Memory>
    ensures same_length { IfOk result (λ kept. length kept.items ≡ length rows.now) }
    ensures firsts { IfOk result (λ kept. items_where_true kept.items rows.now ≡ spec.firsts same_row rows.now) }
{
    let mut seen: BTreeSet<Keyed<'_>> = BTreeSet::new(alloc);
    let mut kept = Vec::with_capacity(alloc, rows.len())?;
    for row in rows {
        kept.push(seen.insert(Keyed { row })?)?;
    }
    Ok(kept)
}
