//! What stands in a part of a text.

ghost use Rattle.std.specs.Prelude.{◌≡◌};
ghost use Rattle.clause_binder.specs.Progress as part;

use crate::scope::behind;

/// What stands in a part of a text, apart from what stands in its inner queries.
#[derive(Clone, Copy, Debug, PartialEq, Eq)]
pub struct Inside {
    /// How many inner queries stand in it directly; those that no tree can name are counted as one.
    pub inners: usize,
    /// Whether an aggregate does.
    pub summed: bool,
}

impl Inside {
    /// Neither.
    pub fn nothing() -> Inside
        ensures { result ≡ part.nothing }
    {
        Inside {
            inners: 0,
            summed: false,
        }
    }

    /// An inner query.
    pub fn an_inner_query() -> Inside
        ensures { result ≡ part.an_inner_query }
    {
        Inside {
            inners: 1,
            summed: false,
        }
    }

    /// An aggregate.
    pub fn an_aggregate() -> Inside
        ensures { result ≡ part.an_aggregate }
    {
        Inside {
            inners: 0,
            summed: true,
        }
    }

    /// What stands in this part and in another.
    pub fn and(self, other: Inside) -> Inside
        ensures { result ≡ part.both self other }
    {
        Inside {
            inners: behind(self.inners, other.inners),
            summed: self.summed || other.summed,
        }
    }
}
