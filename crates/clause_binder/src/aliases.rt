//! The aliases of items, found by name.

ghost use Rattle.std.specs.Prelude.{◌≡◌, ◌++◌, ℕ, if◌then◌else◌, List, [], ◌∷◌, Ok, Some, None, OnOk, position};
ghost use Rattle.value_types.specs.Units.{same_units};
ghost use Rattle.typed_nodes.specs.Refusals.{Gives};
ghost use Rattle.clause_binder.specs.Scope.{has_name};
ghost use Rattle.clause_binder.specs.ByName as by;

use sqlite_items::Items;
use std::alloc::Global;
use std::collections::BTreeMap;
use std::marker::Model;
use typed_nodes::BindFault;
use value_types::{Memory, Units};

/// For each item the alias that is given to it, if one is; the first item of an alias is found by it.
#[derive(Drop)]
pub struct Aliases {
    all: Items<Option<Units>>,
    first: BTreeMap<Units, usize>,
}

impl Model for Aliases {
    ghost use Rattle.std.specs.Prelude.{ℕ, List, Option};
    ghost use Rattle.clause_binder.specs.ByName.{AreAliases};

    ghost Value = { List (Option (List ℕ)) };

    ghost view = { λ of. of.all };

    ghost invariant = { λ of. AreAliases of.first of.all };
}

impl Aliases {
    pub(crate) fn none(alloc: Global) -> Aliases
        ensures { result ≡ [] }
    {
        Aliases {
            all: Items::new(alloc),
            first: BTreeMap::new(alloc),
        }
    }

    /// These aliases, and that of one more item.
    pub(crate) fn with(self, alloc: Global, alias: Option<Units>) -> Result<Aliases, BindFault>
        ensures { Gives result (Ok (self ++ alias ∷ [])) }
    {
        let Aliases { mut all, mut first } = self;
        add_alias(alloc, &mut first, &alias, all.len())?;
        all.push(alias)?;
        Ok(Aliases { all, first })
    }

    /// The first item of that alias.
    pub(crate) fn place_of(&self, name: &Units) -> Option<usize>
        ensures { result ≡ position (has_name name.now) self.now }
    {
        self.first.get(name).copied()
    }
}

/// Adds the place of an item, unless one of its alias is there.
fn add_alias(
    alloc: Global,
    first: &mut BTreeMap<Units, usize>,
    alias: &Option<Units>,
    place: usize,
) -> Result<(), Memory>
    ensures { OnOk result ((name : List ℕ) → by.place_at first.new name ≡ by.or_place (by.place_at first.old name) (if has_name name alias.now then Some place else None)) }
{
    match alias {
        None => Ok(()),
        Some(alias) => add_place(alloc, first, alias, place),
    }
}

/// Adds the place of an item, unless that of one of its alias is there.
fn add_place(
    alloc: Global,
    first: &mut BTreeMap<Units, usize>,
    alias: &Units,
    place: usize,
) -> Result<(), Memory>
    ensures { OnOk result ((name : List ℕ) → by.place_at first.new name ≡ by.or_place (by.place_at first.old name) (if same_units name alias.now then Some place else None)) }
{
    if !first.contains_key(alias) {
        first.insert(alias.copy(alloc)?, place)?;
    }
    Ok(())
}
