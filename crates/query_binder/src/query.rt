//! A select made of clauses that are bound.

ghost use Rattle.std.specs.Prelude.{◌≡◌, map};
ghost use Rattle.clause_binder.specs.Clauses as clause;
ghost use Rattle.clause_binder.specs.Bind as spec;

use crate::binder::Binder;
use bound_tree::{BoundQuery, Reference};
use clause_binder::{
    BackClauses, FrontClauses, Inside, MAX_COLUMNS, MAX_INNER, NamedItems, Progress, Selected,
};
use sqlite_items::Items;
use tsql_tree::{Item, OrderItem, Select};

/// How many aggregates a query has at most.
const MAX_SUMS: usize = 10_000;

impl Binder<'_, '_> {
    /// What stands in the items.
    pub(crate) fn in_items(&self, items: &[Item]) -> Inside
        ensures { result ≡ clause.in_items (map (spec.item_of self.now.definitions.now self.now.vars.now) items.now) }
    {
        let mut done = Inside::nothing();
        for item in items {
            done = done.and(self.in_item(item));
        }
        done
    }

    fn in_item(&self, item: &Item) -> Inside
        ensures { result ≡ clause.item_inside (spec.item_of self.now.definitions.now self.now.vars.now item.now) }
    {
        match item {
            Item::All => Inside::nothing(),
            Item::AllOf(_) => Inside::nothing(),
            Item::Assign(_, a) => self.in_expr(a),
            Item::Value(a, _) => self.in_expr(a),
        }
    }

    /// What stands in ORDER BY.
    fn in_order(&self, order: &[OrderItem]) -> Inside
        ensures { result ≡ clause.in_order (map (spec.order_of self.now.definitions.now self.now.vars.now) order.now) }
    {
        let mut done = Inside::nothing();
        for by in order {
            done = done.and(self.in_expr(&by.expr));
        }
        done
    }

    /// Whether the rows of a select are gathered into classes.
    pub(crate) fn is_grouped(&self, select: &Select) -> bool
        ensures { result ≡ clause.is_grouped (spec.select_read self.now.definitions.now self.now.vars.now select.now) }
    {
        let groups = select.groups.as_slice();
        let items = self.in_items(select.items.as_slice());
        let order = self.in_order(select.order.as_slice());
        !groups.is_empty() || select.having.is_some() || items.summed || order.summed
    }

    /// Whether there are more columns, aggregates or inner queries than there may be.
    fn is_many(&self, select: &Select, items: &NamedItems, done: &Progress) -> bool
        ensures { result ≡ clause.is_many (spec.select_read self.now.definitions.now self.now.vars.now select.now) items.now done.now }
    {
        let is_limited = !items.assigns || select.distinct || !select.order.as_slice().is_empty();
        is_limited && items.items.len() > MAX_COLUMNS
            || done.sums.len() > MAX_SUMS
            || done.count > MAX_INNER
    }

    /// A select of clauses that are bound.
    pub(crate) fn query_from(
        &self,
        select: &Select,
        grouped: bool,
        refs: Items<Reference>,
        front: FrontClauses,
        back: BackClauses,
    ) -> Selected
        ensures { result ≡ clause.query_from (spec.select_read self.now.definitions.now self.now.vars.now select.now) grouped refs front back }
    {
        let beyond = self.is_many(select, &back.items, &back.done);
        let FrontClauses {
            filter,
            groups,
            having,
        } = front;
        let BackClauses { items, order, done } = back;
        let query = BoundQuery {
            refs,
            filter,
            grouped,
            groups,
            sums: done.sums,
            having,
            items: items.items,
            order,
            distinct: select.distinct,
            top: top_of(select.top),
            inner: done.inner,
        };
        Selected {
            query,
            places: items.places,
            assigns: items.assigns,
            count: done.count,
            beyond: done.beyond || beyond,
        }
    }
}

/// Above the greatest number that is kept all rows are taken.
fn top_of(top: Option<i64>) -> Option<u32>
    ensures { result ≡ clause.top_of top }
{
    match top {
        None => None,
        Some(top) => u32::try_from(top).ok(),
    }
}
