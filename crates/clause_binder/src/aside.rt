//! The inner queries of a select's items, which come before those of its other clauses.

ghost use Rattle.std.specs.Prelude.{◌≡◌, Ok};
ghost use Rattle.typed_nodes.specs.Refusals.{Gives};
ghost use Rattle.clause_binder.specs.Clauses as clause;

use crate::progress::Progress;
use bound_tree::InnerQuery;
use sqlite_items::Items;
use std::alloc::Global;
use typed_nodes::BindFault;

impl Progress {
    /// What is gathered for the items, whose inner queries have the first places, and the inner
    /// queries that are set aside.
    pub fn set_aside(self, alloc: Global) -> (Progress, Items<InnerQuery>)
        ensures { result ≡ (clause.set_aside self, self.inner) }
    {
        let Progress {
            inner,
            sums,
            count,
            beyond,
            ..
        } = self;
        let done = Progress {
            first: 0,
            inner: Items::new(alloc),
            sums,
            count,
            beyond,
        };
        (done, inner)
    }

    /// What is gathered behind the items, where the list of the other clauses' inner queries goes on,
    /// and the inner queries of the items.
    pub fn taken_up(self, first: usize, before: Items<InnerQuery>) -> (Progress, Items<InnerQuery>)
        ensures { result ≡ (clause.taken_up first before self, self.inner) }
    {
        let Progress {
            inner,
            sums,
            count,
            beyond,
            ..
        } = self;
        let done = Progress {
            first,
            inner: before,
            sums,
            count,
            beyond,
        };
        (done, inner)
    }

    /// What is gathered, with the inner queries of the items before the others.
    pub fn behind_inner(self, of_items: Items<InnerQuery>) -> Result<Progress, BindFault>
        ensures { Gives result (Ok (clause.behind_inner of_items self)) }
    {
        let Progress {
            first,
            inner: others,
            sums,
            count,
            beyond,
        } = self;
        let mut inner = of_items;
        inner.append(others)?;
        Ok(Progress {
            first,
            inner,
            sums,
            count,
            beyond,
        })
    }
}
