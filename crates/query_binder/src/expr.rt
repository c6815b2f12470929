//! Expressions.

ghost use Rattle.std.specs.Prelude.{◌≡◌, map};
ghost use Rattle.clause_binder.specs.Answers.{GivesItemsOn, GivesOn, SettlesOn};
ghost use Rattle.clause_binder.specs.Progress as part;
ghost use Rattle.clause_binder.specs.Bind as spec;

use crate::and_next::and_next;
use crate::binder::Binder;
use bound_tree::InfixOp;
use clause_binder::{
    Context, Progress, Shape, add_op, column, count_rows, left_out, literal, misplaced,
    multiply_op, scalar_from, settled, signed_null, signed_number, signed_onto, sum_of,
    system_expr, variable_in,
};
use tsql_tree::{Arm, Expr, Factor, Term};
use typed_nodes::{
    BindFault, TypedArm, TypedExpr, case_expr, cast_expr, coalesce_expr, infix_expr, is_null_expr,
    length_expr, null_if_expr,
};

impl<'t, 'd> Binder<'t, 'd> {
    /// An expression.
    #[cycle(bind)]
    pub fn bind_expr(
        &self,
        of: &'d Expr,
        at: &Context<'_, 'd>,
        done: &mut Progress,
    ) -> Result<TypedExpr, BindFault>
        ensures { GivesOn result ((spec.expr_of self.now.definitions.now self.now.vars.now of.now).read.bind at.now done.old) done.new }
    {
        let a = self.bind_node(of, at, done)?;
        Ok(settled(at.groups, a))
    }

    /// An expression before it is looked whether it is grouped as a whole.
    #[cycle(bind)]
    fn bind_node(
        &self,
        of: &'d Expr,
        at: &Context<'_, 'd>,
        done: &mut Progress,
    ) -> Result<TypedExpr, BindFault>
        ensures { SettlesOn at.now.groups result ((spec.expr_of self.now.definitions.now self.now.vars.now of.now).read.bind at.now done.old) done.new }
    {
        match of {
            Expr::Number(number) => Ok(literal(*number)),
            Expr::Text(units) => TypedExpr::text(self.alloc, units),
            Expr::Null => Ok(TypedExpr::lone_null()),
            Expr::Variable(name) => variable_in(self.alloc, at, name, self.vars),
            Expr::System(word) => system_expr(self.alloc, *word, at),
            Expr::Column(table, name) => column(self.alloc, table, name, at),
            Expr::Parens(a) => self.bind_node(a.get(), at, done),
            Expr::Query(select) => {
                if at.row_alone {
                    return Ok(left_out(None));
                }
                let select = self.bind_select(select.get())?;
                scalar_from(self.alloc, select, done)
            }
            Expr::Case(arms, other) => {
                let arms = self.bind_arms(arms.as_slice(), at, done)?;
                match other {
                    Some(other) => {
                        let other = self.bind_expr(other.get(), at, done)?;
                        case_expr(self.alloc, arms, other)
                    }
                    None => case_expr(self.alloc, arms, TypedExpr::lone_null()),
                }
            }
            Expr::Cast(a, kind) => {
                let a = self.bind_expr(a.get(), at, done)?;
                cast_expr(self.alloc, *kind, a)
            }
            Expr::IsNull(a, b) => {
                let a = self.bind_expr(a.get(), at, done)?;
                let (a, b) = and_next(a, self.bind_expr(b.get(), at, done))?;
                is_null_expr(self.alloc, a, b)
            }
            Expr::NullIf(a, b) => {
                let a = self.bind_expr(a.get(), at, done)?;
                let (a, b) = and_next(a, self.bind_expr(b.get(), at, done))?;
                null_if_expr(self.alloc, a, b)
            }
            Expr::Coalesce(items) => {
                let items = self.bind_each(items.as_slice(), at, done)?;
                coalesce_expr(self.alloc, items)
            }
            Expr::Length(a) => {
                let a = self.bind_expr(a.get(), at, done)?;
                length_expr(self.alloc, a)
            }
            Expr::CountRows => count_rows(self.alloc, at, done),
            Expr::Aggregate(of, distinct, a) => match at.sums_from {
                Some(from) => {
                    let a = self.bind_expr(a.get(), &at.within_sum(), done)?;
                    sum_of(self.alloc, *of, *distinct, from, a, done)
                }
                None => misplaced(self.alloc, *of),
            },
            Expr::Signed(signs, a) => match self.shape(a.get()) {
                Shape::Number(number) => { Ok(literal(signed_number(signs.as_slice(), number))) }
                Shape::Null => Ok(signed_null(signs.as_slice())),
                Shape::Name => {
                    let a = self.bind_expr(a.get(), at, done)?;
                    signed_onto(self.alloc, at.groups, a, signs.as_slice())
                }
                Shape::Node => {
                    let a = self.bind_expr(a.get(), at, done)?;
                    signed_onto(self.alloc, at.groups, a, signs.as_slice())
                }
            },
            Expr::Product(first, factors) => {
                let first = self.bind_expr(first.get(), at, done)?;
                self.bind_factors(factors.as_slice(), first, at, done)
            }
            Expr::Sum(first, terms) => {
                let first = self.bind_expr(first.get(), at, done)?;
                self.bind_terms(terms.as_slice(), first, at, done)
            }
        }
    }

    /// Expressions one after another.
    #[cycle(bind)]
    pub(crate) fn bind_each(
        &self,
        items: &'d [Expr],
        at: &Context<'_, 'd>,
        done: &mut Progress,
    ) -> Result<Vec<TypedExpr>, BindFault>
        ensures { GivesItemsOn result (part.each (map part.bind_of (map spec.read_of (map (spec.expr_of self.now.definitions.now self.now.vars.now) items.now))) at.now done.old) done.new }
    {
        let mut bound = Vec::new(self.alloc);
        for item in items {
            bound.push(self.bind_expr(item, at, done)?)?;
        }
        Ok(bound)
    }

    /// The arms of a CASE.
    #[cycle(bind)]
    fn bind_arms(
        &self,
        arms: &'d [Arm],
        at: &Context<'_, 'd>,
        done: &mut Progress,
    ) -> Result<Vec<TypedArm>, BindFault>
        ensures { GivesItemsOn result (part.each (map part.bind_of (map (spec.arm_of self.now.definitions.now self.now.vars.now) arms.now)) at.now done.old) done.new }
    {
        let mut bound = Vec::new(self.alloc);
        for arm in arms {
            let test = self.bind_test(&arm.test, at, done)?;
            let gives = self.bind_expr(&arm.gives, at, done)?;
            bound.push(TypedArm { test, gives })?;
        }
        Ok(bound)
    }

    /// Operands of a product behind the first.
    #[cycle(bind)]
    fn bind_factors(
        &self,
        factors: &'d [Factor],
        first: TypedExpr,
        at: &Context<'_, 'd>,
        done: &mut Progress,
    ) -> Result<TypedExpr, BindFault>
        ensures { GivesOn result (spec.chain_onto first (map (spec.factor_of self.now.definitions.now self.now.vars.now) factors.now) at.now done.old) done.new }
    {
        let mut before = first;
        for factor in factors {
            before = self.bind_operand(
                multiply_op(factor.sign),
                before,
                &factor.operand,
                at,
                done,
            )?;
        }
        Ok(before)
    }

    /// Operands of a sum behind the first.
    #[cycle(bind)]
    fn bind_terms(
        &self,
        terms: &'d [Term],
        first: TypedExpr,
        at: &Context<'_, 'd>,
        done: &mut Progress,
    ) -> Result<TypedExpr, BindFault>
        ensures { GivesOn result (spec.chain_onto first (map (spec.term_of self.now.definitions.now self.now.vars.now) terms.now) at.now done.old) done.new }
    {
        let mut before = first;
        for term in terms {
            before = self.bind_operand(add_op(term.sign), before, &term.operand, at, done)?;
        }
        Ok(before)
    }

    /// An operand joined to what stands before it.
    #[cycle(bind)]
    fn bind_operand(
        &self,
        op: InfixOp,
        before: TypedExpr,
        operand: &'d Expr,
        at: &Context<'_, 'd>,
        done: &mut Progress,
    ) -> Result<TypedExpr, BindFault>
        ensures { GivesOn result (spec.joined_to before (record { op = op; read = (spec.expr_of self.now.definitions.now self.now.vars.now operand.now).read }) at.now done.old) done.new }
    {
        let (before, a) = and_next(before, self.bind_expr(operand, at, done))?;
        let joined = infix_expr(self.alloc, op, before, a)?;
        Ok(settled(at.groups, joined))
    }
}
