//! Selects: their clauses, in the order in which they are bound.

ghost use Rattle.std.specs.Prelude.{◌≡◌, Some, [], map};
ghost use Rattle.typed_nodes.specs.Refusals.{Gives};
ghost use Rattle.clause_binder.specs.Answers.{GivesOn};
ghost use Rattle.clause_binder.specs.Progress as part;
ghost use Rattle.clause_binder.specs.Clauses as clause;
ghost use Rattle.clause_binder.specs.Bind as spec;

use crate::and_next::and_next;
use crate::binder::Binder;
use bound_tree::{BoundExpr, BoundOrder, BoundTest, JoinKind, OrderKey};
use clause_binder::{
    BackClauses, Context, FrontClauses, JoinedTables, NamedItems, Progress, Selected, TableSource,
    are_beyond, assigned_onto, class_context, copied, expr_key, is_deep, is_long_alias,
    is_long_ref, item_key, name_or, named_place, noted_test, number_of, numbered_key, star_items,
    value_item, whole_having,
};
use sqlite_items::Items;
use tsql_tree::{Expr, FromClause, Item, Join, OrderItem, Select, Test};
use typed_nodes::BindFault;
use value_types::Units;

impl<'t, 'd> Binder<'t, 'd> {
    /// A select.
    #[cycle(bind)]
    pub fn bind_select(&self, select: &'d Select) -> Result<Selected, BindFault>
        ensures { Gives result (spec.query_of self.now.definitions.now self.now.vars.now select.now) }
    {
        let first = self.in_items(select.items.as_slice()).inners;
        let mut done = Progress::begin_at(self.alloc, first);
        match &select.from {
            None => {
                let tables = JoinedTables::none(self.alloc);
                self.bind_over(select, tables, done)
            }
            Some(from) => {
                let tables = self.bind_from(from, &mut done)?;
                self.bind_over(select, tables, done)
            }
        }
    }

    /// A select, behind its FROM.
    #[cycle(bind)]
    fn bind_over(
        &self,
        select: &'d Select,
        tables: JoinedTables<'d>,
        before: Progress,
    ) -> Result<Selected, BindFault>
        ensures { Gives result (clause.select_over self.now.definitions.now self.now.vars.now (spec.select_read self.now.definitions.now self.now.vars.now select.now) tables.entry before) }
    {
        let mut done = before;
        let JoinedTables { refs, sources } = tables;
        let grouped = self.is_grouped(select);
        done.note_beyond(are_beyond(sources.as_slice()));
        let front = self.bind_front(select, grouped, sources.as_slice(), &mut done)?;
        let at = class_context(grouped, sources.as_slice(), front.groups.as_slice());
        let back = self.bind_back(select, &at, done);
        let (front, back) = and_next(front, back)?;
        Ok(self.query_from(select, grouped, refs, front, back))
    }

    /// WHERE, GROUP BY and HAVING.
    #[cycle(bind)]
    fn bind_front(
        &self,
        select: &'d Select,
        grouped: bool,
        sources: &[TableSource<'d>],
        done: &mut Progress,
    ) -> Result<FrontClauses, BindFault>
        ensures { GivesOn result (clause.front_of (spec.select_read self.now.definitions.now self.now.vars.now select.now) grouped sources.now done.old) done.new }
    {
        match &select.filter {
            None => self.bind_grouped(select, grouped, sources, None, done),
            Some(filter) => {
                let test = self.bind_test(filter.get(), &Context::plain(&*sources), done)?;
                let filter = Some(noted_test(test, done));
                self.bind_grouped(select, grouped, sources, filter, done)
            }
        }
    }

    /// GROUP BY and HAVING, behind WHERE.
    #[cycle(bind)]
    fn bind_grouped(
        &self,
        select: &'d Select,
        grouped: bool,
        sources: &[TableSource<'d>],
        filter: Option<BoundTest>,
        done: &mut Progress,
    ) -> Result<FrontClauses, BindFault>
        ensures { GivesOn result (clause.grouped_of (spec.select_read self.now.definitions.now self.now.vars.now select.now) grouped sources.now filter done.old) done.new }
    {
        let plain = Context::plain(&*sources);
        let groups = self.bind_groups(select.groups.as_slice(), &plain, done);
        let (filter, groups) = and_next(filter, groups)?;
        match &select.having {
            None => Ok(FrontClauses {
                filter,
                groups,
                having: None,
            }),
            Some(having) => {
                let at = class_context(grouped, &*sources, groups.as_slice());
                let having = self.bind_having(having.get(), &at, done);
                let (filter, having) = and_next(filter, having)?;
                Ok(FrontClauses {
                    filter,
                    groups,
                    having: Some(having),
                })
            }
        }
    }

    /// HAVING.
    #[cycle(bind)]
    fn bind_having(
        &self,
        having: &'d Test,
        at: &Context<'_, 'd>,
        done: &mut Progress,
    ) -> Result<BoundTest, BindFault>
        ensures { GivesOn result (part.and_then (spec.test_of self.now.definitions.now self.now.vars.now having.now).bind clause.whole_having at.now done.old) done.new }
    {
        let test = self.bind_test(having, at, done)?;
        whole_having(self.alloc, test, at, done)
    }

    /// The items and ORDER BY.
    #[cycle(bind)]
    fn bind_back(
        &self,
        select: &'d Select,
        at: &Context<'_, 'd>,
        before: Progress,
    ) -> Result<BackClauses, BindFault>
        ensures { Gives result (clause.back_of self.now.vars.now (spec.select_read self.now.definitions.now self.now.vars.now select.now) at.now before) }
    {
        let first = before.first;
        let (mut done, inner) = before.set_aside(self.alloc);
        let items = self.bind_items(select.items.as_slice(), at, &mut done)?;
        let (mut done, of_items) = done.taken_up(first, inner);
        let order = self.bind_order(
            select.order.as_slice(),
            select.distinct,
            &items,
            at,
            &mut done,
        )?;
        let done = done.behind_inner(of_items)?;
        Ok(BackClauses { items, order, done })
    }

    /// FROM.
    #[cycle(bind)]
    fn bind_from(
        &self,
        from: &'d FromClause,
        done: &mut Progress,
    ) -> Result<JoinedTables<'d>, BindFault>
        ensures { GivesOn result (clause.from_of self.now.definitions.now (Some (spec.from_of self.now.definitions.now self.now.vars.now from.now)) done.old) done.new }
    {
        let tables = JoinedTables::first(self.alloc, &from.first, self.definitions)?;
        done.note_beyond(is_long_ref(&from.first));
        self.bind_joins(from.joins.as_slice(), tables, done)
    }

    /// The further tables of a FROM.
    #[cycle(bind)]
    fn bind_joins(
        &self,
        joins: &'d [Join],
        first: JoinedTables<'d>,
        done: &mut Progress,
    ) -> Result<JoinedTables<'d>, BindFault>
        ensures { GivesOn result (clause.joins_onto self.now.definitions.now first.entry (map (spec.join_of self.now.definitions.now self.now.vars.now) joins.now) done.old) done.new }
    {
        let mut tables = first;
        for join in joins {
            tables = self.bind_join(join, tables, done)?;
        }
        Ok(tables)
    }

    /// A further table of a FROM. Its ON sees it and those before it.
    #[cycle(bind)]
    fn bind_join(
        &self,
        join: &'d Join,
        before: JoinedTables<'d>,
        done: &mut Progress,
    ) -> Result<JoinedTables<'d>, BindFault>
        ensures { GivesOn result (clause.join_onto self.now.definitions.now before.entry (spec.join_of self.now.definitions.now self.now.vars.now join.now) done.old) done.new }
    {
        match join {
            Join::Comma(of) => {
                let tables = before.with_source(of, self.definitions)?;
                tables.with_read(
                    self.alloc,
                    of,
                    self.definitions,
                    JoinKind::Cross,
                    None,
                    done,
                )
            }
            Join::Cross(of) => {
                let tables = before.with_source(of, self.definitions)?;
                tables.with_read(
                    self.alloc,
                    of,
                    self.definitions,
                    JoinKind::Cross,
                    None,
                    done,
                )
            }
            Join::Inner(of, on) => {
                let tables = before.with_source(of, self.definitions)?;
                let on = self.bind_test(on, &Context::plain(tables.sources.as_slice()), done)?;
                let on = noted_test(on, done);
                tables.with_read(
                    self.alloc,
                    of,
                    self.definitions,
                    JoinKind::Inner,
                    Some(on),
                    done,
                )
            }
            Join::Left(of, on) => {
                let tables = before.with_source(of, self.definitions)?;
                let on = self.bind_test(on, &Context::plain(tables.sources.as_slice()), done)?;
                let on = noted_test(on, done);
                tables.with_read(
                    self.alloc,
                    of,
                    self.definitions,
                    JoinKind::Left,
                    Some(on),
                    done,
                )
            }
        }
    }

    /// GROUP BY.
    #[cycle(bind)]
    fn bind_groups(
        &self,
        groups: &'d [Expr],
        at: &Context<'_, 'd>,
        done: &mut Progress,
    ) -> Result<Items<BoundExpr>, BindFault>
        ensures { GivesOn result (clause.groups_onto [] (map (spec.expr_of self.now.definitions.now self.now.vars.now) groups.now) at.now done.old) done.new }
    {
        let mut bound = Items::new(self.alloc);
        for group in groups {
            let a = self.bind_expr(group, at, done)?;
            done.note_beyond(is_deep(a.facts));
            bound.push(a.expr)?;
        }
        Ok(bound)
    }

    /// The items.
    #[cycle(bind)]
    fn bind_items(
        &self,
        items: &'d [Item],
        at: &Context<'_, 'd>,
        done: &mut Progress,
    ) -> Result<NamedItems, BindFault>
        ensures { GivesOn result (clause.items_onto self.now.vars.now clause.no_items (map (spec.item_of self.now.definitions.now self.now.vars.now) items.now) at.now done.old) done.new }
    {
        let mut named = NamedItems::none(self.alloc);
        for item in items {
            named = self.bind_item(item, named, at, done)?;
        }
        Ok(named)
    }

    /// An item, behind those before it.
    #[cycle(bind)]
    fn bind_item(
        &self,
        item: &'d Item,
        before: NamedItems,
        at: &Context<'_, 'd>,
        done: &mut Progress,
    ) -> Result<NamedItems, BindFault>
        ensures { GivesOn result (clause.item self.now.vars.now (spec.item_of self.now.definitions.now self.now.vars.now item.now) before at.now done.old) done.new }
    {
        match item {
            Item::All => star_items(self.alloc, None, before, at, done),
            Item::AllOf(name) => star_items(self.alloc, Some(name), before, at, done),
            Item::Assign(name, a) => {
                let before = assigned_onto(self.alloc, self.vars, name, before, done)?;
                let (before, a) = and_next(before, self.bind_expr(a, at, done))?;
                value_item(
                    self.alloc,
                    Units::new(self.alloc),
                    None,
                    before,
                    a,
                    at,
                    done,
                )
            }
            Item::Value(of, alias) => {
                done.note_beyond(is_long_alias(alias));
                let name = name_or(self.alloc, alias, self.called(of))?;
                let alias = copied(self.alloc, alias)?;
                let (before, a) = and_next(before, self.bind_expr(of, at, done))?;
                value_item(self.alloc, name, alias, before, a, at, done)
            }
        }
    }

    /// ORDER BY.
    #[cycle(bind)]
    fn bind_order(
        &self,
        order: &'d [OrderItem],
        distinct: bool,
        items: &NamedItems,
        at: &Context<'_, 'd>,
        done: &mut Progress,
    ) -> Result<Items<BoundOrder>, BindFault>
        ensures { GivesOn result (clause.order_onto distinct items.now [] (map (spec.order_of self.now.definitions.now self.now.vars.now) order.now) at.now done.old) done.new }
    {
        let mut bound = Items::new(self.alloc);
        for by in order {
            let key = self.bind_key(&by.expr, distinct, items, at, done)?;
            bound.push(BoundOrder {
                key,
                descending: by.descending,
            })?;
        }
        Ok(bound)
    }

    /// What rows are ordered by.
    #[cycle(bind)]
    fn bind_key(
        &self,
        of: &'d Expr,
        distinct: bool,
        items: &NamedItems,
        at: &Context<'_, 'd>,
        done: &mut Progress,
    ) -> Result<OrderKey, BindFault>
        ensures { GivesOn result (clause.key_of distinct items.now (spec.expr_of self.now.definitions.now self.now.vars.now of.now) at.now done.old) done.new }
    {
        let shape = self.shape(of);
        match number_of(shape) {
            Some(number) => Ok(numbered_key(number, items.items.len(), done)),
            None => match named_place(shape, self.called(of), items) {
                Some(place) => Ok(item_key(place)),
                None => {
                    let a = self.bind_expr(of, at, done)?;
                    expr_key(self.alloc, distinct, items, a, at, done)
                }
            },
        }
    }
}
