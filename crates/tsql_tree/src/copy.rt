//! A select copied, with all that it holds.

ghost use Rattle.std.specs.Prelude.{◌≡◌, IfOk};

use crate::{
    AddSign, Arm, Expr, Factor, FromClause, Item, Join, OrderItem, Select, TableRef, Term, Test,
};
use sqlite_items::{Boxed, Items};
use std::alloc::Global;
use value_types::{Memory, Units};

impl Select {
    /// The same select.
    pub fn copy(&self, alloc: Global) -> Result<Select, Memory>
        ensures { IfOk result (λ copy. copy ≡ self.now) }
    {
        copy_select(alloc, self)
    }
}

impl TableRef {
    fn copy(&self, alloc: Global) -> Result<TableRef, Memory>
        ensures { IfOk result (λ copy. copy ≡ self.now) }
    {
        Ok(TableRef {
            name: self.name.copy(alloc)?,
            alias: copy_name(alloc, &self.alias)?,
        })
    }
}

fn copy_name(alloc: Global, name: &Option<Units>) -> Result<Option<Units>, Memory>
    ensures { IfOk result (λ copy. copy ≡ name.now) }
{
    match name {
        None => Ok(None),
        Some(name) => Ok(Some(name.copy(alloc)?)),
    }
}

fn copy_table(alloc: Global, table: &Option<Boxed<Units>>) -> Result<Option<Boxed<Units>>, Memory>
    ensures { IfOk result (λ copy. copy ≡ table.now) }
{
    match table {
        None => Ok(None),
        Some(table) => Ok(Some(Boxed::new(alloc, table.get().copy(alloc)?)?)),
    }
}

fn copy_signs(alloc: Global, signs: &Items<AddSign>) -> Result<Items<AddSign>, Memory>
    ensures { IfOk result (λ copy. copy ≡ signs.now) }
{
    Ok(Items::from_slice(alloc, signs.as_slice())?)
}

#[cycle(copy)]
fn copy_select(alloc: Global, select: &Select) -> Result<Select, Memory>
    ensures { IfOk result (λ copy. copy ≡ select.now) }
{
    let items = copy_items(alloc, select.items.as_slice())?;
    let from = match &select.from {
        None => None,
        Some(from) => Some(copy_from(alloc, from)?),
    };
    let filter = match &select.filter {
        None => None,
        Some(filter) => Some(Boxed::new(alloc, copy_test(alloc, filter.get())?)?),
    };
    let groups = copy_exprs(alloc, select.groups.as_slice())?;
    let having = match &select.having {
        None => None,
        Some(having) => Some(Boxed::new(alloc, copy_test(alloc, having.get())?)?),
    };
    let order = copy_order(alloc, select.order.as_slice())?;
    Ok(Select {
        distinct: select.distinct,
        top: select.top,
        items,
        from,
        filter,
        groups,
        having,
        order,
    })
}

#[cycle(copy)]
fn copy_items(alloc: Global, items: &[Item]) -> Result<Items<Item>, Memory>
    ensures { IfOk result (λ copy. copy ≡ items.now) }
{
    let mut copies = Items::new(alloc);
    for item in items {
        let copy = match item {
            Item::All => Item::All,
            Item::AllOf(table) => Item::AllOf(table.copy(alloc)?),
            Item::Assign(name, expr) => Item::Assign(name.copy(alloc)?, copy_expr(alloc, expr)?),
            Item::Value(expr, alias) => {
                Item::Value(copy_expr(alloc, expr)?, copy_name(alloc, alias)?)
            }
        };
        copies.push(copy)?;
    }
    Ok(copies)
}

#[cycle(copy)]
fn copy_from(alloc: Global, from: &FromClause) -> Result<FromClause, Memory>
    ensures { IfOk result (λ copy. copy ≡ from.now) }
{
    let joins = copy_joins(alloc, from.joins.as_slice())?;
    Ok(FromClause {
        first: from.first.copy(alloc)?,
        joins,
    })
}

#[cycle(copy)]
fn copy_joins(alloc: Global, joins: &[Join]) -> Result<Items<Join>, Memory>
    ensures { IfOk result (λ copy. copy ≡ joins.now) }
{
    let mut copies = Items::new(alloc);
    for join in joins {
        let copy = match join {
            Join::Comma(table) => Join::Comma(table.copy(alloc)?),
            Join::Inner(table, on) => Join::Inner(table.copy(alloc)?, copy_test(alloc, on)?),
            Join::Left(table, on) => Join::Left(table.copy(alloc)?, copy_test(alloc, on)?),
            Join::Cross(table) => Join::Cross(table.copy(alloc)?),
        };
        copies.push(copy)?;
    }
    Ok(copies)
}

#[cycle(copy)]
fn copy_order(alloc: Global, order: &[OrderItem]) -> Result<Items<OrderItem>, Memory>
    ensures { IfOk result (λ copy. copy ≡ order.now) }
{
    let mut copies = Items::new(alloc);
    for item in order {
        copies.push(OrderItem {
            expr: copy_expr(alloc, &item.expr)?,
            descending: item.descending,
        })?;
    }
    Ok(copies)
}

#[cycle(copy)]
fn copy_exprs(alloc: Global, exprs: &[Expr]) -> Result<Items<Expr>, Memory>
    ensures { IfOk result (λ copy. copy ≡ exprs.now) }
{
    let mut copies = Items::new(alloc);
    for expr in exprs {
        copies.push(copy_expr(alloc, expr)?)?;
    }
    Ok(copies)
}

#[cycle(copy)]
fn copy_expr(alloc: Global, expr: &Expr) -> Result<Expr, Memory>
    ensures { IfOk result (λ copy. copy ≡ expr.now) }
{
    match expr {
        Expr::Number(number) => Ok(Expr::Number(*number)),
        Expr::Text(text) => Ok(Expr::Text(text.copy(alloc)?)),
        Expr::Null => Ok(Expr::Null),
        Expr::Variable(name) => Ok(Expr::Variable(name.copy(alloc)?)),
        Expr::System(word) => Ok(Expr::System(*word)),
        Expr::Column(table, name) => {
            Ok(Expr::Column(copy_table(alloc, table)?, name.copy(alloc)?))
        }
        Expr::Parens(inner) => Ok(Expr::Parens(copy_boxed(alloc, inner)?)),
        Expr::Query(select) => {
            let select = copy_select(alloc, select.get())?;
            Ok(Expr::Query(Boxed::new(alloc, select)?))
        }
        Expr::Case(arms, None) => Ok(Expr::Case(copy_arms(alloc, arms.as_slice())?, None)),
        Expr::Case(arms, Some(other)) => {
            let arms = copy_arms(alloc, arms.as_slice())?;
            Ok(Expr::Case(arms, Some(copy_boxed(alloc, other)?)))
        }
        Expr::Cast(inner, kind) => Ok(Expr::Cast(copy_boxed(alloc, inner)?, *kind)),
        Expr::IsNull(first, second) => {
            let first = copy_boxed(alloc, first)?;
            Ok(Expr::IsNull(first, copy_boxed(alloc, second)?))
        }
        Expr::NullIf(first, second) => {
            let first = copy_boxed(alloc, first)?;
            Ok(Expr::NullIf(first, copy_boxed(alloc, second)?))
        }
        Expr::Coalesce(exprs) => Ok(Expr::Coalesce(copy_exprs(alloc, exprs.as_slice())?)),
        Expr::Length(inner) => Ok(Expr::Length(copy_boxed(alloc, inner)?)),
        Expr::CountRows => Ok(Expr::CountRows),
        Expr::Aggregate(function, distinct, inner) => {
            let inner = copy_boxed(alloc, inner)?;
            Ok(Expr::Aggregate(*function, *distinct, inner))
        }
        Expr::Signed(signs, inner) => {
            let signs = copy_signs(alloc, signs)?;
            Ok(Expr::Signed(signs, copy_boxed(alloc, inner)?))
        }
        Expr::Product(first, more) => {
            let first = copy_boxed(alloc, first)?;
            Ok(Expr::Product(first, copy_factors(alloc, more.as_slice())?))
        }
        Expr::Sum(first, more) => {
            let first = copy_boxed(alloc, first)?;
            Ok(Expr::Sum(first, copy_terms(alloc, more.as_slice())?))
        }
    }
}

#[cycle(copy)]
fn copy_boxed(alloc: Global, expr: &Boxed<Expr>) -> Result<Boxed<Expr>, Memory>
    ensures { IfOk result (λ copy. copy ≡ expr.now) }
{
    let copy = copy_expr(alloc, expr.get())?;
    Ok(Boxed::new(alloc, copy)?)
}

#[cycle(copy)]
fn copy_arms(alloc: Global, arms: &[Arm]) -> Result<Items<Arm>, Memory>
    ensures { IfOk result (λ copy. copy ≡ arms.now) }
{
    let mut copies = Items::new(alloc);
    for arm in arms {
        copies.push(Arm {
            test: copy_test(alloc, &arm.test)?,
            gives: copy_expr(alloc, &arm.gives)?,
        })?;
    }
    Ok(copies)
}

#[cycle(copy)]
fn copy_factors(alloc: Global, factors: &[Factor]) -> Result<Items<Factor>, Memory>
    ensures { IfOk result (λ copy. copy ≡ factors.now) }
{
    let mut copies = Items::new(alloc);
    for factor in factors {
        copies.push(Factor {
            sign: factor.sign,
            operand: copy_expr(alloc, &factor.operand)?,
        })?;
    }
    Ok(copies)
}

#[cycle(copy)]
fn copy_terms(alloc: Global, terms: &[Term]) -> Result<Items<Term>, Memory>
    ensures { IfOk result (λ copy. copy ≡ terms.now) }
{
    let mut copies = Items::new(alloc);
    for term in terms {
        copies.push(Term {
            sign: term.sign,
            operand: copy_expr(alloc, &term.operand)?,
        })?;
    }
    Ok(copies)
}

#[cycle(copy)]
fn copy_test(alloc: Global, test: &Test) -> Result<Test, Memory>
    ensures { IfOk result (λ copy. copy ≡ test.now) }
{
    match test {
        Test::Parens(inner) => {
            let inner = copy_test(alloc, inner.get())?;
            Ok(Test::Parens(Boxed::new(alloc, inner)?))
        }
        Test::Exists(select) => {
            let select = copy_select(alloc, select.get())?;
            Ok(Test::Exists(Boxed::new(alloc, select)?))
        }
        Test::Compare(left, sign, right) => {
            let left = copy_boxed(alloc, left)?;
            Ok(Test::Compare(left, *sign, copy_boxed(alloc, right)?))
        }
        Test::IsNull(expr, negated) => Ok(Test::IsNull(copy_boxed(alloc, expr)?, *negated)),
        Test::Between(expr, negated, low, high) => {
            let expr = copy_boxed(alloc, expr)?;
            let low = copy_boxed(alloc, low)?;
            Ok(Test::Between(expr, *negated, low, copy_boxed(alloc, high)?))
        }
        Test::InQuery(expr, negated, select) => {
            let expr = copy_boxed(alloc, expr)?;
            let select = copy_select(alloc, select.get())?;
            Ok(Test::InQuery(expr, *negated, Boxed::new(alloc, select)?))
        }
        Test::InList(expr, negated, exprs) => {
            let expr = copy_boxed(alloc, expr)?;
            let exprs = copy_exprs(alloc, exprs.as_slice())?;
            Ok(Test::InList(expr, *negated, exprs))
        }
        Test::Not(count, inner) => {
            let inner = copy_test(alloc, inner.get())?;
            Ok(Test::Not(*count, Boxed::new(alloc, inner)?))
        }
        Test::And(first, more) => {
            let first = Boxed::new(alloc, copy_test(alloc, first.get())?)?;
            Ok(Test::And(first, copy_tests(alloc, more.as_slice())?))
        }
        Test::Or(first, more) => {
            let first = Boxed::new(alloc, copy_test(alloc, first.get())?)?;
            Ok(Test::Or(first, copy_tests(alloc, more.as_slice())?))
        }
    }
}

#[cycle(copy)]
fn copy_tests(alloc: Global, tests: &[Test]) -> Result<Items<Test>, Memory>
    ensures { IfOk result (λ copy. copy ≡ tests.now) }
{
    let mut copies = Items::new(alloc);
    for test in tests {
        copies.push(copy_test(alloc, test)?)?;
    }
    Ok(copies)
}
