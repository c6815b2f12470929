//! What a trigger sees.

use bound_tree::Image;
use std::marker::Model;
use tsql_tree::TableTree;

/// The shape of a trigger's table, and the rows that its statement took away and put there, in the order of their keys.
#[derive(Drop)]
pub struct Fired {
    /// The shape of the table.
    pub shape: TableTree,
    /// The rows that were taken away.
    pub deleted: Image,
    /// The rows that were put there.
    pub inserted: Image,
}

impl Model for Fired {
    ghost use Rattle.std.specs.Coded.{codes};
    ghost use Rattle.tsql_tree.specs.contracts.query.Test as tree;
    ghost use Rattle.batch_meaning.specs.Raised.{Fired as Seen};

    ghost Value = { Seen };

    ghost coded = { Prim.hlevel (codes, tree.the_row.coded) };

    ghost view = { λ fired. record { shape = fired.shape; deleted = fired.deleted; inserted = fired.inserted } };
}
