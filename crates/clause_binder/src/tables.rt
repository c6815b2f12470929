//! Definitions, whose tables are found by name.

ghost use Rattle.std.specs.Prelude.{◌≡◌, ℕ, List, [], IfOk, OnOk, option_map};
ghost use Rattle.tsql_tree.specs.declared.definition.Definition.TheVariants.{Table};
ghost use Rattle.clause_binder.specs.Scope as spec;
ghost use Rattle.clause_binder.specs.ByName as by;

use std::alloc::Global;
use std::collections::BTreeMap;
use std::marker::Model;
use tsql_tree::{Definition, TableTree};
use value_types::{Memory, Units};

/// Definitions, whose tables are found by name: the first of a name is meant.
#[derive(Drop)]
pub struct TablesByName<'a> {
    definitions: &'a [Definition],
    first: BTreeMap<&'a [u16], &'a TableTree>,
}

impl<'a> Model for TablesByName<'a> {
    ghost use Rattle.std.specs.Prelude.{List};
    ghost use Rattle.tsql_tree.specs.declared.definition.Definition.{Definition as Defined};
    ghost use Rattle.tsql_tree.specs.contracts.definition.Definition as definition;
    ghost use Rattle.std.specs.Coded.{codes};
    ghost use Rattle.clause_binder.specs.ByName.{AreTables};

    ghost Value = { List Defined };

    ghost coded = { Prim.hlevel (codes, definition.the_row.coded) };

    ghost view = { λ of. of.definitions.now };

    ghost invariant = { λ of. AreTables of.first of.definitions.now };
}

impl<'a> TablesByName<'a> {
    /// Of these definitions.
    pub fn new(alloc: Global, definitions: &'a [Definition]) -> Result<TablesByName<'a>, Memory>
        ensures { IfOk result (λ tables. tables ≡ definitions.now) }
    {
        let mut first = BTreeMap::new(alloc);
        for of in definitions {
            if let Definition::Table(table) = of {
                add_first(&mut first, table)?;
            }
        }
        Ok(TablesByName { definitions, first })
    }

    /// Of no definitions.
    pub fn none(alloc: Global) -> TablesByName<'a>
        ensures { result ≡ [] }
    {
        TablesByName {
            definitions: &[],
            first: BTreeMap::new(alloc),
        }
    }

    /// The first table of that name.
    pub fn find(&self, name: &Units) -> Option<&'a TableTree>
        ensures { option_map (λ table. table.now) result ≡ spec.table_of name.now self.now }
    {
        match self.first.get(name.as_slice()) {
            Some(table) => Some(*table),
            None => None,
        }
    }
}

/// The first table of that name, found by a walk: of many names ask [`TablesByName`].
pub fn table_of<'a>(name: &Units, definitions: &'a [Definition]) -> Option<&'a TableTree>
    ensures { option_map (λ table. table.now) result ≡ spec.table_of name.now definitions.now }
{
    for of in definitions {
        if let Definition::Table(table) = of {
            if *name == table.name {
                return Some(table);
            }
        }
    }
    None
}

/// Adds a table, unless there is one of its name.
fn add_first<'a>(
    first: &mut BTreeMap<&'a [u16], &'a TableTree>,
    table: &'a TableTree,
) -> Result<(), Memory>
    ensures { OnOk result ((name : List ℕ) → by.table_at first.new name ≡ spec.or_first (by.table_at first.old name) (spec.as_table name (Table table.now))) }
{
    let name = table.name.as_slice();
    if !first.contains_key(name) {
        first.insert(name, table)?;
    }
    Ok(())
}
