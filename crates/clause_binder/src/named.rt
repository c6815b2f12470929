//! The items of a select, as ORDER BY may name them.

ghost use Rattle.std.specs.Prelude.{◌≡◌, Ok};
ghost use Rattle.typed_nodes.specs.Refusals.{Gives};
ghost use Rattle.clause_binder.specs.Clauses as spec;

use crate::aliases::Aliases;
use crate::and_next::and_next;
use bound_tree::Item;
use sqlite_items::Items;
use std::alloc::Global;
use typed_nodes::BindFault;
use value_types::Units;

/// How many columns an answer has at most.
pub const MAX_COLUMNS: usize = 64;

/// The items so far, and the variables that they are assigned to.
#[derive(Drop)]
pub struct NamedItems {
    /// The items.
    pub items: Items<Item>,
    /// Their aliases.
    pub aliases: Aliases,
    /// The places of the variables.
    pub places: Items<u16>,
    /// Whether any item is assigned.
    pub assigns: bool,
}

impl NamedItems {
    /// No items yet.
    pub fn none(alloc: Global) -> NamedItems
        ensures { result ≡ spec.no_items }
    {
        NamedItems {
            items: Items::new(alloc),
            aliases: Aliases::none(alloc),
            places: Items::new(alloc),
            assigns: false,
        }
    }

    /// Whether there are more items than an answer has.
    pub(crate) fn is_full(&self) -> bool
        ensures { result ≡ spec.is_full self.now }
    {
        self.items.len() > MAX_COLUMNS
    }

    /// These items and one more.
    pub(crate) fn with_item(
        self,
        alloc: Global,
        item: Item,
        alias: Option<Units>,
    ) -> Result<NamedItems, BindFault>
        ensures { Gives result (Ok (spec.with_item self item alias)) }
    {
        let NamedItems {
            mut items,
            aliases,
            places,
            assigns,
        } = self;
        let (item, aliases) = and_next(item, aliases.with(alloc, alias))?;
        items.push(item)?;
        Ok(NamedItems {
            items,
            aliases,
            places,
            assigns,
        })
    }

    /// These items, where the next is assigned to the variable of this place.
    pub(crate) fn with_place(self, place: u16) -> Result<NamedItems, BindFault>
        ensures { Gives result (Ok (spec.with_place self place)) }
    {
        let NamedItems {
            items,
            aliases,
            mut places,
            ..
        } = self;
        places.push(place)?;
        Ok(NamedItems {
            items,
            aliases,
            places,
            assigns: true,
        })
    }
}
