//! The columns of a table, by name.

ghost use Rattle.std.specs.Prelude.{◌≡◌, [], Ok, position};
ghost use Rattle.std.specs.List.{list_any};
ghost use Rattle.typed_nodes.specs.Refusals.{Gives};
ghost use Rattle.value_types.specs.Units.{same_units};
ghost use Rattle.tsql_tree.specs.Places.{place_in};
ghost use Rattle.clause_binder.specs.Scope.{columns_of, table_of};
ghost use Rattle.binder.specs.Writes as spec;

use crate::fault::{INVALID_COLUMN, refused};
use clause_binder::TablesByName;
use sqlite_items::Items;
use std::alloc::Global;
use tsql_tree::ColumnTree;
use typed_nodes::BindFault;
use value_types::Units;

/// The greatest place that a tree can name.
const MAX_PLACE: usize = 65_535;

/// The columns of the first table of that name; what is not defined has none.
pub(crate) fn columns_of<'a>(table: &Units, definitions: &TablesByName<'a>) -> &'a [ColumnTree]
    ensures { result.now ≡ columns_of (table_of table.now definitions.now) }
{
    match definitions.find(table) {
        Some(table) => table.columns.as_slice(),
        None => &[],
    }
}

fn position_in(columns: &[ColumnTree], name: &Units) -> Option<usize>
    ensures { result ≡ position (λ column. same_units name.now column.name) columns.now }
{
    columns.iter().position(|column| *name == column.name)
}

/// Where the column of a name stands, where a tree can name its place.
pub(crate) fn place_in(columns: &[ColumnTree], name: &Units) -> Option<u16>
    ensures { result ≡ place_in columns.now name.now }
{
    match position_in(columns, name) {
        Some(place) => u16::try_from(place).ok(),
        None => None,
    }
}

/// Where the column of a name stands. Error 207 where there is none.
pub(crate) fn column_place(
    alloc: Global,
    columns: &[ColumnTree],
    name: &Units,
) -> Result<u16, BindFault>
    ensures { Gives result (spec.column_place columns.now name.now) }
{
    match place_in(columns, name) {
        Some(place) => Ok(place),
        None => refused(alloc, INVALID_COLUMN, name),
    }
}

/// Where the columns of names stand.
pub(crate) fn places_of(
    alloc: Global,
    columns: &[ColumnTree],
    names: &[Units],
) -> Result<Items<u16>, BindFault>
    ensures { Gives result (spec.places_onto columns.now [] names.now) }
{
    let mut places = Items::new(alloc);
    for name in names {
        places.push(column_place(alloc, columns, name)?)?;
    }
    Ok(places)
}

/// All places in order, as far as a tree can name them.
pub(crate) fn all_places(alloc: Global, columns: &[ColumnTree]) -> Result<Items<u16>, BindFault>
    ensures { Gives result (Ok (spec.all_places columns.now)) }
{
    let mut places = Items::new(alloc);
    let count = columns.len().min(MAX_PLACE) as u16;
    for place in 0..count {
        places.push(place)?;
    }
    Ok(places)
}

/// Whether a name is one of several.
fn is_among(name: &Units, names: &[Units]) -> bool
    ensures { result ≡ list_any (same_units name.now) names.now }
{
    names.iter().any(|other| *name == *other)
}

/// Whether a name stands twice.
pub(crate) fn is_repeated(mut names: &[Units]) -> bool
    ensures { result ≡ spec.is_repeated names.entry.now }
{
    while let [name, rest @ ..] = names {
        if is_among(name, rest) {
            return true;
        }
        names = rest;
    }
    false
}
