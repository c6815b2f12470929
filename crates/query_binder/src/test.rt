//! Tests.

ghost use Rattle.std.specs.Prelude.{map};
ghost use Rattle.typed_nodes.specs.Tests as tests;
ghost use Rattle.clause_binder.specs.Answers.{GivesItemsOn, GivesOn};
ghost use Rattle.clause_binder.specs.Operands.{in_query};
ghost use Rattle.clause_binder.specs.Progress as part;
ghost use Rattle.clause_binder.specs.Bind as spec;

use crate::and_next::and_next;
use crate::binder::Binder;
use bound_tree::CompareOp;
use clause_binder::{Context, Progress, compare_op, exists_from, in_query_from, test_left_out};
use tsql_tree::{Expr, Select, Test};
use typed_nodes::{
    BindFault, Junction, TypedExpr, TypedTest, all_joined, between_test, compare_test,
    in_list_test, is_null_test,
};

impl<'t, 'd> Binder<'t, 'd> {
    /// A test.
    #[cycle(bind)]
    pub fn bind_test(
        &self,
        of: &'d Test,
        at: &Context<'_, 'd>,
        done: &mut Progress,
    ) -> Result<TypedTest, BindFault>
        ensures { GivesOn result ((spec.test_of self.now.definitions.now self.now.vars.now of.now).bind at.now done.old) done.new }
    {
        match of {
            Test::Parens(a) => self.bind_test(a.get(), at, done),
            Test::Exists(select) => {
                if at.row_alone {
                    return test_left_out(self.alloc);
                }
                let select = self.bind_select(select.get())?;
                exists_from(self.alloc, select, done)
            }
            Test::Compare(a, sign, b) => {
                let a = self.bind_expr(a.get(), at, done)?;
                self.bind_compare(a, compare_op(*sign), b.get(), at, done)
            }
            Test::IsNull(a, negated) => {
                let a = self.bind_expr(a.get(), at, done)?;
                let test = is_null_test(self.alloc, a)?;
                test.negated_where(self.alloc, *negated)
            }
            Test::Between(a, negated, low, high) => {
                let a = self.bind_expr(a.get(), at, done)?;
                let low = self.bind_expr(low.get(), at, done)?;
                self.bind_between(a, *negated, low, high.get(), at, done)
            }
            Test::InQuery(a, negated, select) => {
                let a = self.bind_expr(a.get(), at, done)?;
                self.bind_in_query(a, *negated, select.get(), at, done)
            }
            Test::InList(a, negated, items) => {
                let a = self.bind_expr(a.get(), at, done)?;
                self.bind_in_list(a, *negated, items.as_slice(), at, done)
            }
            Test::Not(count, a) => {
                let a = self.bind_test(a.get(), at, done)?;
                a.negated_where(self.alloc, *count % 2 == 1)
            }
            Test::And(first, rest) => {
                let first = self.bind_test(first.get(), at, done)?;
                let (first, rest) = and_next(first, self.bind_tests(rest.as_slice(), at, done))?;
                all_joined(self.alloc, Junction::And, first, rest)
            }
            Test::Or(first, rest) => {
                let first = self.bind_test(first.get(), at, done)?;
                let (first, rest) = and_next(first, self.bind_tests(rest.as_slice(), at, done))?;
                all_joined(self.alloc, Junction::Or, first, rest)
            }
        }
    }

    /// Tests one after another.
    #[cycle(bind)]
    fn bind_tests(
        &self,
        tests: &'d [Test],
        at: &Context<'_, 'd>,
        done: &mut Progress,
    ) -> Result<Vec<TypedTest>, BindFault>
        ensures { GivesItemsOn result (part.each (map part.bind_of (map (spec.test_of self.now.definitions.now self.now.vars.now) tests.now)) at.now done.old) done.new }
    {
        let mut bound = Vec::new(self.alloc);
        for test in tests {
            bound.push(self.bind_test(test, at, done)?)?;
        }
        Ok(bound)
    }

    /// BETWEEN of an operand and a lower limit that are bound.
    #[cycle(bind)]
    fn bind_between(
        &self,
        a: TypedExpr,
        negated: bool,
        low: TypedExpr,
        high: &'d Expr,
        at: &Context<'_, 'd>,
        done: &mut Progress,
    ) -> Result<TypedTest, BindFault>
        ensures { GivesOn result (part.and_then (spec.expr_of self.now.definitions.now self.now.vars.now high.now).read.bind (λ z. spec.tested negated (tests.between_test a low z)) at.now done.old) done.new }
    {
        let (a, (low, high)) = and_next(a, and_next(low, self.bind_expr(high, at, done)))?;
        let test = between_test(self.alloc, a, low, high)?;
        test.negated_where(self.alloc, negated)
    }

    /// IN of an operand that is bound over an inner query.
    #[cycle(bind)]
    fn bind_in_query(
        &self,
        a: TypedExpr,
        negated: bool,
        select: &'d Select,
        at: &Context<'_, 'd>,
        done: &mut Progress,
    ) -> Result<TypedTest, BindFault>
        ensures { GivesOn result (part.and_then (in_query (spec.query_of self.now.definitions.now self.now.vars.now select.now) a) (spec.tested negated) at.now done.old) done.new }
    {
        if at.row_alone {
            drop(a);
            let test = test_left_out(self.alloc)?;
            return test.negated_where(self.alloc, negated);
        }
        let (a, select) = and_next(a, self.bind_select(select))?;
        let test = in_query_from(self.alloc, a, select, done)?;
        test.negated_where(self.alloc, negated)
    }

    /// IN of an operand that is bound over a list.
    #[cycle(bind)]
    fn bind_in_list(
        &self,
        a: TypedExpr,
        negated: bool,
        items: &'d [Expr],
        at: &Context<'_, 'd>,
        done: &mut Progress,
    ) -> Result<TypedTest, BindFault>
        ensures { GivesOn result (part.and_then (part.each (map part.bind_of (map spec.read_of (map (spec.expr_of self.now.definitions.now self.now.vars.now) items.now)))) (λ xs. spec.tested negated (tests.in_list_test a xs)) at.now done.old) done.new }
    {
        let (a, items) = and_next(a, self.bind_each(items, at, done))?;
        let test = in_list_test(self.alloc, a, items)?;
        test.negated_where(self.alloc, negated)
    }

    /// An operand that is bound compared with another.
    #[cycle(bind)]
    fn bind_compare(
        &self,
        a: TypedExpr,
        op: CompareOp,
        b: &'d Expr,
        at: &Context<'_, 'd>,
        done: &mut Progress,
    ) -> Result<TypedTest, BindFault>
        ensures { GivesOn result (part.and_then (spec.expr_of self.now.definitions.now self.now.vars.now b.now).read.bind (λ y. part.pure (tests.compare_test op a y)) at.now done.old) done.new }
    {
        let (a, b) = and_next(a, self.bind_expr(b, at, done))?;
        compare_test(self.alloc, op, a, b)
    }
}
