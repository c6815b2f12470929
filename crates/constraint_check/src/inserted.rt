//! The keys at which a list of changes inserts.

ghost use Rattle.std.specs.Prelude.{◌≡◌, IfOk, take};
ghost use Rattle.constraint_check.specs.Inserted.{HasSpots};
ghost use Rattle.constraint_check.specs.Reads as spec;

use std::alloc::Global;
use std::collections::BTreeSet;
use step_model::{Deed, Planned};
use value_types::{Key, Memory, TableName};

/// A key of a table.
#[derive(Clone, Copy, PartialEq, Eq, PartialOrd, Ord)]
pub(crate) struct Spot<'a> {
    table: &'a TableName,
    key: &'a Key,
}

/// Changes, and the keys at which they insert.
#[derive(Drop)]
pub(crate) struct Inserted<'a> {
    pub(crate) changes: &'a [Planned],
    spots: BTreeSet<Spot<'a>>,
    ghost spots_are: { HasSpots spots changes.now },
}

impl<'a> Inserted<'a> {
    /// The keys at which these changes insert.
    pub(crate) fn of(alloc: Global, changes: &'a [Planned]) -> Result<Inserted<'a>, Memory>
        ensures { IfOk result (λ inserted. inserted.changes.now ≡ changes.now) }
    {
        let spots = spots_of(alloc, changes)?;
        Ok(Inserted { changes, spots })
    }

    /// Whether a change erases an own row of a table that no change inserts again.
    pub(crate) fn is_gone(&self, change: &'a Planned) -> bool
        ensures { result ≡ spec.is_gone self.now.changes.now change.now }
    {
        change.is_own() && matches!(change.deed, Deed::Erase) && !self.is_again(change)
    }

    /// Whether a change inserts at this one's key.
    fn is_again(&self, change: &'a Planned) -> bool
        ensures { result ≡ spec.is_again self.now.changes.now change.now }
    {
        self.spots.contains(&Spot {
            table: &change.table,
            key: &change.key,
        })
    }
}

/// The keys at which changes insert.
fn spots_of<'a>(alloc: Global, changes: &'a [Planned]) -> Result<BTreeSet<Spot<'a>>, Memory>
    ensures { IfOk result (λ spots. HasSpots spots changes.now) }
{
    let mut spots = BTreeSet::new(alloc);
    for change in changes {
        if let Deed::Insert(_) = change.deed {
            spots.insert(Spot {
                table: &change.table,
                key: &change.key,
            })?;
        }
    }
    Ok(spots)
}
