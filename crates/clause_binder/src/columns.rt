//! Columns, found by name.

ghost use Rattle.std.specs.Prelude.{◌≡◌, ℕ, List, IfOk, OnOk};
ghost use Rattle.std.specs.List.{list_any};
ghost use Rattle.value_types.specs.Units.{same_units};
ghost use Rattle.clause_binder.specs.declared.scope.Matches.TheVariants.{Nothing};
ghost use Rattle.clause_binder.specs.Scope as spec;
ghost use Rattle.clause_binder.specs.ByName as by;

use crate::scope::{Found, Matches, behind};
use std::alloc::Global;
use std::collections::BTreeMap;
use std::marker::Model;
use tsql_tree::ColumnTree;
use value_types::{Memory, Units};

/// Columns, found by name.
#[derive(Drop)]
pub struct ColumnsByName<'a> {
    columns: &'a [ColumnTree],
    matches: BTreeMap<&'a [u16], Matches>,
}

impl<'a> Model for ColumnsByName<'a> {
    ghost use Rattle.std.specs.Prelude.{List};
    ghost use Rattle.tsql_tree.specs.declared.definition.ColumnTree.{ColumnTree as Column};
    ghost use Rattle.clause_binder.specs.ByName.{AreColumns};

    ghost Value = { List Column };

    ghost view = { λ of. of.columns.now };

    ghost invariant = { λ of. AreColumns of.matches of.columns.now };
}

impl<'a> ColumnsByName<'a> {
    /// Of these columns.
    pub fn new(alloc: Global, columns: &'a [ColumnTree]) -> Result<ColumnsByName<'a>, Memory>
        ensures { IfOk result (λ of. of ≡ columns.now) }
    {
        let mut matches = BTreeMap::new(alloc);
        let mut place = 0;
        for column in columns {
            add(&mut matches, place, column)?;
            place = behind(place, 1);
        }
        Ok(ColumnsByName { columns, matches })
    }

    /// The columns.
    pub fn columns(&self) -> &'a [ColumnTree]
        ensures { result.now ≡ self.now }
    {
        self.columns
    }

    /// What is found of the name.
    pub fn find(&self, name: &Units) -> Matches
        ensures { result ≡ spec.found_in name.now 0 self.now Nothing }
    {
        matches_at(&self.matches, name.as_slice())
    }

    /// Whether a column has the name.
    pub fn has(&self, name: &Units) -> bool
        ensures { result ≡ list_any (λ column. same_units name.now column.name) self.now }
    {
        match self.find(name) {
            Matches::Nothing => false,
            Matches::One(_) => true,
            Matches::Several => true,
        }
    }
}

fn matches_at(matches: &BTreeMap<&[u16], Matches>, name: &[u16]) -> Matches
    ensures { result ≡ by.matches_at matches.now name.now }
{
    match matches.get(name) {
        Some(found) => *found,
        None => Matches::Nothing,
    }
}

/// Adds the column of a place to what is found of its name.
fn add<'a>(
    matches: &mut BTreeMap<&'a [u16], Matches>,
    place: usize,
    column: &'a ColumnTree,
) -> Result<(), Memory>
    ensures { OnOk result ((name : List ℕ) → by.matches_at matches.new name ≡ spec.found_at name place column.now (by.matches_at matches.old name)) }
{
    let name = column.name.as_slice();
    let found = matches_at(&*matches, name).and(Found {
        place,
        kind: column.kind,
    });
    matches.insert(name, found)?;
    Ok(())
}
