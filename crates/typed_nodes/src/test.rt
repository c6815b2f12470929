//! Tests.

ghost use Rattle.std.specs.Prelude.{Ok, map};
ghost use Rattle.std.specs.Vec.Iter.{into_iter_items};
ghost use Rattle.typed_nodes.specs.Refusals.{Gives, GivesItems};
ghost use Rattle.bound_tree.specs.declared.expr.BoundTest.TheVariants.{IsNull};
ghost use Rattle.typed_nodes.specs.Nodes as nodes;
ghost use Rattle.typed_nodes.specs.Tests as spec;

use crate::BindFault;
use crate::and_next::and_next;
use crate::expr::{TypedExpr, boxed_pair, boxed_side, facts_onto, pair_kind, side_kind, side_of};
use crate::facts::{Facts, MAX_DEPTH};
use bound_tree::{BoundExpr, BoundSide, BoundTest, CompareOp};
use sqlite_items::{Boxed, Items};
use std::alloc::Global;
use std::vec::IntoIter;
use value_types::{SqlType, Value};

/// A bound test, and what is known of it. What is too deep is left out: a test of NULL stands there.
#[derive(Drop)]
pub struct TypedTest {
    /// The test.
    pub test: BoundTest,
    /// What is known of it; it has no type.
    pub facts: Facts,
}

/// How tests are joined.
#[derive(Clone, Copy, Debug, PartialEq, Eq)]
pub enum Junction {
    /// AND
    And,
    /// OR
    Or,
}

impl TypedTest {
    /// A test over these parts.
    fn node(alloc: Global, parts: Facts, test: BoundTest) -> Result<TypedTest, BindFault>
        ensures { Gives result (Ok (spec.test_node parts test)) }
    {
        let facts = parts.test_above();
        if facts.depth <= MAX_DEPTH {
            return Ok(TypedTest { test, facts });
        }
        TypedTest::of_null(alloc, facts)
    }

    /// What stands in the place of a test that is too deep.
    fn of_null(alloc: Global, facts: Facts) -> Result<TypedTest, BindFault>
        ensures { Gives result (Ok (record { test = IsNull nodes.null; facts = facts })) }
    {
        let null = Boxed::new(alloc, BoundExpr::Constant(Value::Null))?;
        Ok(TypedTest {
            test: BoundTest::IsNull(null),
            facts,
        })
    }

    /// The test, or its NOT.
    pub fn negated_where(self, alloc: Global, negated: bool) -> Result<TypedTest, BindFault>
        ensures { Gives result (Ok (spec.negated_where negated self)) }
    {
        if !negated {
            return Ok(self);
        }
        let test = BoundTest::Not(Boxed::new(alloc, self.test)?);
        TypedTest::node(alloc, self.facts, test)
    }

    /// This and another, joined.
    fn joined(self, alloc: Global, by: Junction, other: TypedTest) -> Result<TypedTest, BindFault>
        ensures { Gives result (Ok (spec.joined_test by self other)) }
    {
        let parts = self.facts.beside(other.facts);
        let (other, a) = and_next(other, Boxed::new(alloc, self.test))?;
        let b = Boxed::new(alloc, other.test)?;
        let test = match by {
            Junction::And => BoundTest::And(a, b),
            Junction::Or => BoundTest::Or(a, b),
        };
        TypedTest::node(alloc, parts, test)
    }
}

/// Two expressions compared.
pub fn compare_test(
    alloc: Global,
    op: CompareOp,
    a: TypedExpr,
    b: TypedExpr,
) -> Result<TypedTest, BindFault>
    ensures { Gives result (Ok (spec.compare_test op a b)) }
{
    let parts = a.facts.beside(b.facts);
    let pair = pair_kind(a.facts.kind, b.facts.kind);
    let (a, b) = boxed_pair(alloc, pair, a, b)?;
    TypedTest::node(alloc, parts, BoundTest::Compare(op, a, b))
}

/// IS NULL.
pub fn is_null_test(alloc: Global, a: TypedExpr) -> Result<TypedTest, BindFault>
    ensures { Gives result (Ok (spec.is_null_test a)) }
{
    let parts = a.facts;
    let test = BoundTest::IsNull(Boxed::new(alloc, a.expr)?);
    TypedTest::node(alloc, parts, test)
}

/// BETWEEN.
pub fn between_test(
    alloc: Global,
    a: TypedExpr,
    low: TypedExpr,
    high: TypedExpr,
) -> Result<TypedTest, BindFault>
    ensures { Gives result (Ok (spec.between_test a low high)) }
{
    let parts = a.facts.beside(low.facts.beside(high.facts));
    let kind = a.facts.kind;
    let (a, (low, high)) = and_next(a, boxed_sides(alloc, kind, low, high))?;
    let test = BoundTest::Between(side_kind(kind), Boxed::new(alloc, a.expr)?, low, high);
    TypedTest::node(alloc, parts, test)
}

/// The other sides of two pairs, each in a box.
fn boxed_sides(
    alloc: Global,
    first: Option<SqlType>,
    low: TypedExpr,
    high: TypedExpr,
) -> Result<(Boxed<BoundSide>, Boxed<BoundSide>), BindFault>
    ensures { Gives result (Ok (nodes.side_of first low, nodes.side_of first high)) }
{
    let (high, low) = and_next(high, boxed_side(alloc, first, low))?;
    let high = boxed_side(alloc, first, high)?;
    Ok((low, high))
}

/// IN over a list.
pub fn in_list_test(
    alloc: Global,
    a: TypedExpr,
    items: Vec<TypedExpr>,
) -> Result<TypedTest, BindFault>
    ensures { Gives result (Ok (spec.in_list_test a items.items)) }
{
    let parts = facts_onto(a.facts, items.as_slice());
    let kind = a.facts.kind;
    let expr = Boxed::new(alloc, a.expr)?;
    let sides = sides_of(alloc, kind, items)?;
    TypedTest::node(
        alloc,
        parts,
        BoundTest::InList(side_kind(kind), expr, sides),
    )
}

/// The other sides of pairs.
fn sides_of(
    alloc: Global,
    first: Option<SqlType>,
    items: Vec<TypedExpr>,
) -> Result<Items<BoundSide>, BindFault>
    ensures { Gives result (Ok (map (nodes.side_of first) items.items)) }
{
    let mut sides = Vec::new(alloc);
    for item in items {
        sides.push(side_of(alloc, first, item)?)?;
    }
    Ok(Items::from_vec(sides))
}

/// IN over the inner query of a place, whose column has this type.
pub fn in_query_test(
    alloc: Global,
    a: TypedExpr,
    column: SqlType,
    place: u16,
) -> Result<TypedTest, BindFault>
    ensures { Gives result (Ok (spec.in_query_test a column place)) }
{
    let parts = a.facts;
    let kind = side_kind(a.facts.kind);
    let test = BoundTest::InQuery(kind, Boxed::new(alloc, a.expr)?, column, place);
    TypedTest::node(alloc, parts, test)
}

/// All of these tests joined, as a tree of twos.
pub fn all_joined(
    alloc: Global,
    by: Junction,
    first: TypedTest,
    rest: Vec<TypedTest>,
) -> Result<TypedTest, BindFault>
    ensures { Gives result (Ok (spec.all_joined by first rest.items)) }
{
    let mut first = first;
    let mut rest = rest;
    for _round in 0..rest.len() {
        let mut tests = rest.into_iter();
        let Some(second) = tests.next() else {
            return Ok(first);
        };
        first = first.joined(alloc, by, second)?;
        rest = joined_twos(alloc, by, tests)?;
    }
    Ok(first)
}

/// Neighbors joined by twos.
fn joined_twos(
    alloc: Global,
    by: Junction,
    tests: IntoIter<TypedTest>,
) -> Result<Vec<TypedTest>, BindFault>
    ensures { GivesItems result (Ok (spec.joined_twos by (into_iter_items tests))) }
{
    let mut done = Vec::new(alloc);
    let mut waiting = None;
    for test in tests {
        match waiting {
            None => waiting = Some(test),
            Some(before) => {
                done.push(before.joined(alloc, by, test)?)?;
                waiting = None;
            }
        }
    }
    match waiting {
        None => Ok(done),
        Some(last) => {
            done.push(last)?;
            Ok(done)
        }
    }
}
