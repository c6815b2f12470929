//! Expressions that are grouped as a whole.

ghost use Rattle.std.specs.Prelude.{◌≡◌};
ghost use Rattle.std.specs.List.{list_any};
ghost use Rattle.clause_binder.specs.Same as same;
ghost use Rattle.clause_binder.specs.Clauses as spec;

use crate::progress::is_deep;
use bound_tree::BoundExpr;
use typed_nodes::{Facts, TypedExpr};

/// An expression, which is grouped as a whole where it is one of GROUP BY's.
pub fn settled(groups: &[BoundExpr], a: TypedExpr) -> TypedExpr
    ensures { result ≡ spec.settled groups.now a }
{
    if !is_deep(a.facts) && is_grouped(&a.expr, groups) {
        let TypedExpr { expr, facts } = a;
        TypedExpr {
            expr,
            facts: Facts {
                loose: None,
                ..facts
            },
        }
    } else {
        a
    }
}

/// Whether it is one of GROUP BY's.
fn is_grouped(a: &BoundExpr, groups: &[BoundExpr]) -> bool
    ensures { result ≡ list_any (same.same_expr a.now) groups.now }
{
    for group in groups {
        if same_expr(a, group) {
            return true;
        }
    }
    false
}

/// Whether two expressions are equal.
pub(crate) fn same_expr(a: &BoundExpr, b: &BoundExpr) -> bool
    ensures { result ≡ same.same_expr a.now b.now }
{
    a.is_same(b)
}
