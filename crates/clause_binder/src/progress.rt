//! Where an expression stands, and what is gathered while a statement is bound.

ghost use Rattle.std.specs.Prelude.{◌≡◌};
ghost use Rattle.clause_binder.specs.Operands.{within_sum};
ghost use Rattle.clause_binder.specs.Progress as spec;

use crate::scope::TableSource;
use bound_tree::{BoundExpr, InnerQuery, Sum};
use sqlite_items::Items;
use std::alloc::Global;
use std::marker::Model;
use typed_nodes::{Facts, MAX_DEPTH};

/// Where an expression stands.
#[derive(Drop)]
pub struct Context<'s, 'd> {
    /// The tables whose columns may be named.
    pub sources: &'s [TableSource<'d>],
    /// The expressions that are grouped.
    pub groups: &'s [BoundExpr],
    /// At which place of the row aggregates begin, where they may stand.
    pub sums_from: Option<usize>,
    /// Whether nothing but the row may be named, as in a CHECK.
    pub row_alone: bool,
}

impl<'s, 'd> Model for Context<'s, 'd> {
    ghost use Rattle.clause_binder.specs.Progress.{Context as Standing};
    ghost use Rattle.bound_tree.specs.contracts.expr.BoundExpr as bound;
    ghost use Rattle.std.specs.Coded.{codes};

    ghost Value = { Standing };

    ghost coded = { Prim.hlevel (codes, bound.the_row.coded) };

    ghost view = { λ at. record {
      sources = at.sources.now;
      groups = at.groups.now;
      sums_from = at.sums_from;
      row_alone = at.row_alone;
    } };
}

impl<'s, 'd> Context<'s, 'd> {
    /// Of a clause over these tables in which no aggregate may stand.
    pub fn plain(sources: &'s [TableSource<'d>]) -> Context<'s, 'd>
        ensures { result ≡ spec.plain sources.now }
    {
        Context {
            sources,
            groups: &[],
            sums_from: None,
            row_alone: false,
        }
    }

    /// Of an aggregate's operand.
    pub fn within_sum(&self) -> Context<'s, 'd>
        ensures { result ≡ within_sum self.now }
    {
        Context {
            sources: self.sources,
            groups: &[],
            sums_from: None,
            row_alone: self.row_alone,
        }
    }
}

/// What is gathered while a statement is bound.
#[derive(Drop)]
pub struct Progress {
    /// The place of the clause's first inner query.
    pub first: usize,
    /// The inner queries of the clause.
    pub inner: Items<InnerQuery>,
    /// The aggregates of the query.
    pub sums: Items<Sum>,
    /// How many inner queries there are, those within others too; more than the limit are one more.
    pub count: u16,
    /// Whether something is outside a limit.
    pub beyond: bool,
}

impl Progress {
    /// Nothing yet, where the first inner query has this place.
    pub fn begin_at(alloc: Global, first: usize) -> Progress
        ensures { result ≡ spec.begin_at first }
    {
        Progress {
            first,
            inner: Items::new(alloc),
            sums: Items::new(alloc),
            count: 0,
            beyond: false,
        }
    }

    /// Notes that something is outside a limit, where that holds.
    pub fn note_beyond(&mut self, holds: bool)
        ensures { self.new ≡ spec.beyond_where holds self.old }
    {
        self.beyond = self.beyond || holds;
    }
}

/// Whether an expression or a test is too deep, or outside another limit.
pub fn is_deep(facts: Facts) -> bool
    ensures { result ≡ spec.is_deep facts }
{
    facts.depth > MAX_DEPTH
}
