//! Whether two trees are the same.

ghost use Rattle.std.specs.Prelude.{◌≡◌, ◌↔◌, IsTrue};

use crate::{BoundArm, BoundExpr, BoundSide, BoundTest};

impl BoundExpr {
    /// Whether it is the same expression, node by node. It takes the time of the smaller of the two, no
    /// memory, and as deep a recursion as they are deep.
    pub fn is_same(&self, other: &BoundExpr) -> bool
        ensures { IsTrue result ↔ (self.now ≡ other.now) }
    {
        same_expr(self, other)
    }
}

impl BoundTest {
    /// Whether it is the same test, node by node, as [`BoundExpr::is_same`].
    pub fn is_same(&self, other: &BoundTest) -> bool
        ensures { IsTrue result ↔ (self.now ≡ other.now) }
    {
        same_test(self, other)
    }
}

#[cycle(same)]
fn same_expr(a: &BoundExpr, b: &BoundExpr) -> bool
    ensures { IsTrue result ↔ (a.now ≡ b.now) }
{
    match a {
        BoundExpr::Constant(x) => matches!(b, BoundExpr::Constant(y) if x == y),
        BoundExpr::Cell(x) => matches!(b, BoundExpr::Cell(y) if x == y),
        BoundExpr::Variable(x) => matches!(b, BoundExpr::Variable(y) if x == y),
        BoundExpr::System(x) => matches!(b, BoundExpr::System(y) if x == y),
        BoundExpr::Scalar(x) => matches!(b, BoundExpr::Scalar(y) if x == y),
        BoundExpr::Negate(kind, x) => match b {
            BoundExpr::Negate(to, y) => kind == to && same_expr(x.get(), y.get()),
            _ => false,
        },
        BoundExpr::Length(x) => match b {
            BoundExpr::Length(y) => same_expr(x.get(), y.get()),
            _ => false,
        },
        BoundExpr::Infix(op, kind, x, y) => match b {
            BoundExpr::Infix(by, to, z, w) => {
                op == by && kind == to && same_expr(x.get(), z.get()) && same_expr(y.get(), w.get())
            }
            _ => false,
        },
        BoundExpr::Convert(from, to, x) => match b {
            BoundExpr::Convert(source, target, y) => {
                from == source && to == target && same_expr(x.get(), y.get())
            }
            _ => false,
        },
        BoundExpr::Case(arms, x) => match b {
            BoundExpr::Case(others, y) => {
                same_arms(arms.as_slice(), others.as_slice()) && same_expr(x.get(), y.get())
            }
            _ => false,
        },
        BoundExpr::Coalesce(items) => match b {
            BoundExpr::Coalesce(others) => same_exprs(items.as_slice(), others.as_slice()),
            _ => false,
        },
        BoundExpr::NullIf(kind, x, side) => match b {
            BoundExpr::NullIf(to, y, other) => {
                kind == to && same_expr(x.get(), y.get()) && same_side(side.get(), other.get())
            }
            _ => false,
        },
    }
}

#[cycle(same)]
fn same_exprs(a: &[BoundExpr], b: &[BoundExpr]) -> bool
    ensures { IsTrue result ↔ (a.now ≡ b.now) }
{
    if a.len() != b.len() {
        return false;
    }
    for (x, y) in a.iter().zip(b) {
        if !same_expr(x, y) {
            return false;
        }
    }
    true
}

#[cycle(same)]
fn same_arms(a: &[BoundArm], b: &[BoundArm]) -> bool
    ensures { IsTrue result ↔ (a.now ≡ b.now) }
{
    if a.len() != b.len() {
        return false;
    }
    for (x, y) in a.iter().zip(b) {
        if !(same_test(&x.test, &y.test) && same_expr(&x.gives, &y.gives)) {
            return false;
        }
    }
    true
}

#[cycle(same)]
fn same_side(a: &BoundSide, b: &BoundSide) -> bool
    ensures { IsTrue result ↔ (a.now ≡ b.now) }
{
    a.pair == b.pair && same_expr(&a.expr, &b.expr)
}

#[cycle(same)]
fn same_sides(a: &[BoundSide], b: &[BoundSide]) -> bool
    ensures { IsTrue result ↔ (a.now ≡ b.now) }
{
    if a.len() != b.len() {
        return false;
    }
    for (x, y) in a.iter().zip(b) {
        if !same_side(x, y) {
            return false;
        }
    }
    true
}

#[cycle(same)]
fn same_test(a: &BoundTest, b: &BoundTest) -> bool
    ensures { IsTrue result ↔ (a.now ≡ b.now) }
{
    match a {
        BoundTest::Compare(op, x, y) => match b {
            BoundTest::Compare(by, z, w) => {
                op == by && same_expr(x.get(), z.get()) && same_expr(y.get(), w.get())
            }
            _ => false,
        },
        BoundTest::IsNull(x) => match b {
            BoundTest::IsNull(y) => same_expr(x.get(), y.get()),
            _ => false,
        },
        BoundTest::Between(kind, x, low, high) => match b {
            BoundTest::Between(to, y, least, most) => {
                kind == to
                    && same_expr(x.get(), y.get())
                    && same_side(low.get(), least.get())
                    && same_side(high.get(), most.get())
            }
            _ => false,
        },
        BoundTest::InList(kind, x, sides) => match b {
            BoundTest::InList(to, y, others) => {
                kind == to
                    && same_expr(x.get(), y.get())
                    && same_sides(sides.as_slice(), others.as_slice())
            }
            _ => false,
        },
        BoundTest::InQuery(kind, x, other, place) => match b {
            BoundTest::InQuery(to, y, of, at) => {
                kind == to && other == of && place == at && same_expr(x.get(), y.get())
            }
            _ => false,
        },
        BoundTest::Exists(place) => matches!(b, BoundTest::Exists(at) if place == at),
        BoundTest::And(x, y) => match b {
            BoundTest::And(z, w) => same_test(x.get(), z.get()) && same_test(y.get(), w.get()),
            _ => false,
        },
        BoundTest::Or(x, y) => match b {
            BoundTest::Or(z, w) => same_test(x.get(), z.get()) && same_test(y.get(), w.get()),
            _ => false,
        },
        BoundTest::Not(x) => match b {
            BoundTest::Not(y) => same_test(x.get(), y.get()),
            _ => false,
        },
    }
}
