//! What stands in a tree: how many inner queries stand in it directly, and whether an aggregate does.

ghost use Rattle.std.specs.Prelude.{◌≡◌, map};
ghost use Rattle.clause_binder.specs.Bind as spec;
ghost use Rattle.clause_binder.specs.Progress as part;

use crate::binder::Binder;
use clause_binder::Inside;
use tsql_tree::{Arm, Expr, Factor, Term, Test};

impl Binder<'_, '_> {
    /// What stands in an expression.
    #[cycle(inside)]
    pub fn in_expr(&self, of: &Expr) -> Inside
        ensures { result ≡ (spec.expr_of self.now.definitions.now self.now.vars.now of.now).read.inside }
    {
        match of {
            Expr::Number(_) => Inside::nothing(),
            Expr::Text(_) => Inside::nothing(),
            Expr::Null => Inside::nothing(),
            Expr::Variable(_) => Inside::nothing(),
            Expr::System(_) => Inside::nothing(),
            Expr::Column(_, _) => Inside::nothing(),
            Expr::Parens(a) => self.in_expr(a.get()),
            Expr::Cast(a, _) => self.in_expr(a.get()),
            Expr::Length(a) => self.in_expr(a.get()),
            Expr::Signed(_, a) => self.in_expr(a.get()),
            Expr::Query(_) => Inside::an_inner_query(),
            Expr::Case(arms, other) => {
                let arms = self.in_arms(arms.as_slice());
                match other {
                    Some(other) => arms.and(self.in_expr(other.get())),
                    None => arms.and(Inside::nothing()),
                }
            }
            Expr::IsNull(a, b) => self.in_expr(a.get()).and(self.in_expr(b.get())),
            Expr::NullIf(a, b) => self.in_expr(a.get()).and(self.in_expr(b.get())),
            Expr::Coalesce(items) => self.in_exprs(items.as_slice()),
            Expr::CountRows => Inside::an_aggregate(),
            Expr::Aggregate(_, _, a) => Inside {
                summed: true,
                ..self.in_expr(a.get())
            },
            Expr::Product(first, factors) => self.in_factors(
                self.in_expr(first.get()),
                factors.as_slice(),
            ),
            Expr::Sum(first, terms) => self.in_terms(self.in_expr(first.get()), terms.as_slice()),
        }
    }

    /// What stands in a test.
    #[cycle(inside)]
    pub fn in_test(&self, of: &Test) -> Inside
        ensures { result ≡ (spec.test_of self.now.definitions.now self.now.vars.now of.now).inside }
    {
        match of {
            Test::Parens(a) => self.in_test(a.get()),
            Test::Not(_, a) => self.in_test(a.get()),
            Test::Exists(_) => Inside::an_inner_query(),
            Test::Compare(a, _, b) => self.in_expr(a.get()).and(self.in_expr(b.get())),
            Test::IsNull(a, _) => self.in_expr(a.get()),
            Test::Between(a, _, low, high) => {
                self.in_expr(a.get())
                    .and(self.in_expr(low.get()).and(self.in_expr(high.get())))
            }
            Test::InQuery(a, _, _) => self.in_expr(a.get()).and(Inside::an_inner_query()),
            Test::InList(a, _, items) => self.in_expr(a.get()).and(self.in_exprs(items.as_slice())),
            Test::And(first, rest) => {
                let rest = rest.as_slice();
                let mut done = self.in_test(first.get());
                for test in rest {
                    done = done.and(self.in_test(test));
                }
                done
            }
            Test::Or(first, rest) => {
                let rest = rest.as_slice();
                let mut done = self.in_test(first.get());
                for test in rest {
                    done = done.and(self.in_test(test));
                }
                done
            }
        }
    }

    #[cycle(inside)]
    fn in_exprs(&self, items: &[Expr]) -> Inside
        ensures { result ≡ part.all_onto part.nothing (map part.inside_of (map spec.read_of (map (spec.expr_of self.now.definitions.now self.now.vars.now) items.now))) }
    {
        let mut done = Inside::nothing();
        for item in items {
            done = done.and(self.in_expr(item));
        }
        done
    }

    #[cycle(inside)]
    fn in_arms(&self, arms: &[Arm]) -> Inside
        ensures { result ≡ part.all_onto part.nothing (map part.inside_of (map (spec.arm_of self.now.definitions.now self.now.vars.now) arms.now)) }
    {
        let mut done = Inside::nothing();
        for arm in arms {
            let both = self.in_test(&arm.test).and(self.in_expr(&arm.gives));
            done = done.and(both);
        }
        done
    }

    #[cycle(inside)]
    fn in_factors(&self, first: Inside, factors: &[Factor]) -> Inside
        ensures { result ≡ part.all_onto first (map spec.term_inside (map (spec.factor_of self.now.definitions.now self.now.vars.now) factors.now)) }
    {
        let mut done = first;
        for factor in factors {
            done = done.and(self.in_expr(&factor.operand));
        }
        done
    }

    #[cycle(inside)]
    fn in_terms(&self, first: Inside, terms: &[Term]) -> Inside
        ensures { result ≡ part.all_onto first (map spec.term_inside (map (spec.term_of self.now.definitions.now self.now.vars.now) terms.now)) }
    {
        let mut done = first;
        for term in terms {
            done = done.and(self.in_expr(&term.operand));
        }
        done
    }
}
