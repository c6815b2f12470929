//! Expressions and their types.

ghost use Rattle.std.specs.Prelude.{◌≡◌, Ok, [], length, map};
ghost use Rattle.convert_rules.specs.Conversion.{is_text};
ghost use Rattle.bound_tree.specs.declared.expr.BoundExpr.TheVariants.{Coalesce};
ghost use Rattle.typed_nodes.specs.declared.fault.BindFault.TheVariants.{Number};
ghost use Rattle.typed_nodes.specs.Facts.{no_facts};
ghost use Rattle.typed_nodes.specs.Refusals.{Gives, operand_not_allowed};
ghost use Rattle.typed_nodes.specs.Nodes as spec;

use crate::BindFault;
use crate::and_next::and_next;
use crate::facts::{Facts, MAX_DEPTH, highest_of, or_int};
use crate::test::TypedTest;
use bound_tree::{BoundArm, BoundExpr, BoundSide, InfixOp};
use sqlite_items::{Boxed, Items};
use std::alloc::Global;
use value_types::{SqlType, Units, Value};

/// How many units a text has at most.
const TEXT_LIMIT: u16 = 4_000;

/// The type in which LEN takes what is no text.
const DIGITS: SqlType = SqlType::NText(20);

/// The greatest number that is an INT where a literal says it.
const GREATEST_INT: u64 = 2_147_483_647;

/// The error of an operand that is not allowed.
const OPERAND_NOT_ALLOWED: i32 = 49_008;

/// A bound expression, and what is known of it. What is too deep is left out: NULL stands there.
#[derive(Drop)]
pub struct TypedExpr {
    /// The expression.
    pub expr: BoundExpr,
    /// What is known of it.
    pub facts: Facts,
}

/// An arm of a CASE.
#[derive(Drop)]
pub struct TypedArm {
    /// What is tested.
    pub test: TypedTest,
    /// What the CASE gives where the test is true.
    pub gives: TypedExpr,
}

impl TypedExpr {
    /// The expression with these facts.
    pub fn with_facts(facts: Facts, expr: BoundExpr) -> TypedExpr
        ensures { result ≡ spec.with_facts facts expr }
    {
        let expr = if facts.depth <= MAX_DEPTH {
            expr
        } else {
            BoundExpr::Constant(Value::Null)
        };
        TypedExpr { expr, facts }
    }

    /// An expression without parts.
    pub fn leaf(kind: SqlType, expr: BoundExpr) -> TypedExpr
        ensures { result ≡ spec.leaf kind expr }
    {
        TypedExpr::with_facts(Facts::alone(Some(kind)), expr)
    }

    /// A node over these parts.
    fn node(parts: Facts, kind: SqlType, expr: BoundExpr) -> TypedExpr
        ensures { result ≡ spec.node parts kind expr }
    {
        TypedExpr::with_facts(parts.above(kind), expr)
    }

    /// A number with the signs before it.
    pub fn number(number: i64) -> TypedExpr
        ensures { result ≡ spec.number_expr number }
    {
        TypedExpr::leaf(
            number_kind(number),
            BoundExpr::Constant(Value::Whole(number)),
        )
    }

    /// NULL.
    pub fn lone_null() -> TypedExpr
        ensures { result ≡ spec.lone_null }
    {
        TypedExpr::with_facts(Facts::alone(None), BoundExpr::Constant(Value::Null))
    }

    /// A text literal. One that is too long for a text is left out.
    pub fn text(alloc: Global, units: &Units) -> Result<TypedExpr, BindFault>
        ensures { Gives result (Ok (spec.text_expr units.now)) }
    {
        let kind = text_kind(units);
        if units.len() <= usize::from(TEXT_LIMIT) {
            let units = units.copy(alloc)?;
            return Ok(TypedExpr::leaf(kind, BoundExpr::Constant(Value::Text(units))));
        }
        let facts = Facts::alone(Some(kind)).outside();
        Ok(TypedExpr::with_facts(facts, BoundExpr::Constant(Value::Null)))
    }

    /// The negative.
    pub fn negative(self, alloc: Global) -> Result<TypedExpr, BindFault>
        ensures { Gives result (spec.negative_expr self) }
    {
        let a = as_number(alloc, self)?;
        let parts = a.facts;
        let expr = Boxed::new(alloc, a.expr)?;
        match negative_kind(or_int(parts.kind)) {
            Some(kind) => Ok(TypedExpr::node(parts, kind, BoundExpr::Negate(kind, expr))),
            None => Err(not_allowed(alloc)),
        }
    }
}

/// Arithmetic, or two texts joined. Error 49008 where texts stand before another sign than `+`.
pub fn infix_expr(
    alloc: Global,
    op: InfixOp,
    a: TypedExpr,
    b: TypedExpr,
) -> Result<TypedExpr, BindFault>
    ensures { Gives result (spec.infix_expr op a b) }
{
    let (b, a) = and_next(b, as_number(alloc, a))?;
    let (a, b) = and_next(a, as_number(alloc, b))?;
    infix_of_numbers(alloc, op, a, b)
}

/// Arithmetic on what is no bit, or two texts joined.
fn infix_of_numbers(
    alloc: Global,
    op: InfixOp,
    a: TypedExpr,
    b: TypedExpr,
) -> Result<TypedExpr, BindFault>
    ensures { Gives result (spec.infix_of_numbers op a b) }
{
    let parts = a.facts.beside(b.facts);
    let to = or_int(highest_of(a.facts.kind, b.facts.kind));
    let kind = infix_kind(alloc, op, to, a.facts.kind, b.facts.kind);
    let (a, b) = boxed_pair(alloc, to, a, b)?;
    let kind = kind?;
    Ok(TypedExpr::node(parts, kind, BoundExpr::Infix(op, kind, a, b)))
}

/// CAST.
pub fn cast_expr(alloc: Global, to: SqlType, a: TypedExpr) -> Result<TypedExpr, BindFault>
    ensures { Gives result (Ok (spec.cast_expr to a)) }
{
    let facts = limited(to, a.facts.above(to));
    let from = or_int(a.facts.kind);
    let expr = BoundExpr::Convert(from, to, Boxed::new(alloc, a.expr)?);
    Ok(TypedExpr::with_facts(facts, expr))
}

/// LEN.
pub fn length_expr(alloc: Global, a: TypedExpr) -> Result<TypedExpr, BindFault>
    ensures { Gives result (Ok (spec.length_expr a)) }
{
    let parts = a.facts;
    let text = text_from(alloc, a)?;
    let expr = BoundExpr::Length(Boxed::new(alloc, text)?);
    Ok(TypedExpr::node(parts, SqlType::Int, expr))
}

/// ISNULL.
pub fn is_null_expr(alloc: Global, a: TypedExpr, b: TypedExpr) -> Result<TypedExpr, BindFault>
    ensures { Gives result (Ok (spec.is_null_expr a b)) }
{
    let parts = a.facts.beside(b.facts);
    let to = is_null_kind(a.facts.kind, b.facts.kind);
    let mut items = Vec::new(alloc);
    let (b, _) = and_next(b, items.push(a))?;
    items.push(b)?;
    first_of_items(alloc, parts, to, items)
}

/// NULLIF.
pub fn null_if_expr(alloc: Global, a: TypedExpr, b: TypedExpr) -> Result<TypedExpr, BindFault>
    ensures { Gives result (Ok (spec.null_if_expr a b)) }
{
    let parts = a.facts.beside(b.facts);
    let kind = is_null_kind(a.facts.kind, b.facts.kind);
    let first = a.facts.kind;
    let (a, side) = and_next(a, boxed_side(alloc, first, b))?;
    let expr = BoundExpr::NullIf(kind, Boxed::new(alloc, a.expr)?, side);
    Ok(TypedExpr::node(parts, kind, expr))
}

/// COALESCE.
pub fn coalesce_expr(alloc: Global, items: Vec<TypedExpr>) -> Result<TypedExpr, BindFault>
    ensures { Gives result (Ok (spec.coalesce_expr items.items)) }
{
    let parts = facts_onto(Facts::none(), items.as_slice());
    first_of_items(alloc, parts, or_int(parts.kind), items)
}

/// The first of these that isn't NULL, as one of a type.
fn first_of_items(
    alloc: Global,
    parts: Facts,
    to: SqlType,
    items: Vec<TypedExpr>,
) -> Result<TypedExpr, BindFault>
    ensures { Gives result (Ok (spec.node parts to (Coalesce (map (spec.converted to) items.items)))) }
{
    let mut done = Vec::new(alloc);
    for item in items {
        done.push(converted(alloc, to, item)?)?;
    }
    Ok(TypedExpr::node(parts, to, BoundExpr::Coalesce(Items::from_vec(done))))
}

/// CASE.
pub fn case_expr(
    alloc: Global,
    arms: Vec<TypedArm>,
    other: TypedExpr,
) -> Result<TypedExpr, BindFault>
    ensures { Gives result (Ok (spec.case_expr arms.items other)) }
{
    let parts = arms_facts(arms.as_slice()).beside(other.facts);
    let to = or_int(parts.kind);
    let other = Boxed::new(alloc, converted(alloc, to, other)?)?;
    let arms = arms_to(alloc, to, arms)?;
    Ok(TypedExpr::node(parts, to, BoundExpr::Case(arms, other)))
}

/// An operand as one of a type.
pub(crate) fn converted(alloc: Global, to: SqlType, a: TypedExpr) -> Result<BoundExpr, BindFault>
    ensures { Gives result (Ok (spec.converted to a)) }
{
    match a.facts.kind {
        None => Ok(a.expr),
        Some(from) => {
            if is_within(from, to) {
                return Ok(a.expr);
            }
            Ok(BoundExpr::Convert(from, to, Boxed::new(alloc, a.expr)?))
        }
    }
}

/// An operand in a box, which was of the first type, as one of the second.
fn boxed_as(
    alloc: Global,
    from: Option<SqlType>,
    to: SqlType,
    a: Boxed<BoundExpr>,
) -> Result<Boxed<BoundExpr>, BindFault>
    ensures { Gives result (Ok (spec.converted_from from to a)) }
{
    match from {
        None => Ok(a),
        Some(from) => {
            if is_within(from, to) {
                return Ok(a);
            }
            Ok(Boxed::new(alloc, BoundExpr::Convert(from, to, a))?)
        }
    }
}

/// Two operands as those of a type, each in a box.
pub(crate) fn boxed_pair(
    alloc: Global,
    to: SqlType,
    a: TypedExpr,
    b: TypedExpr,
) -> Result<(Boxed<BoundExpr>, Boxed<BoundExpr>), BindFault>
    ensures { Gives result (Ok (spec.converted to a, spec.converted to b)) }
{
    let of_a = a.facts.kind;
    let of_b = b.facts.kind;
    let (b, a) = and_next(b, Boxed::new(alloc, a.expr))?;
    let b = Boxed::new(alloc, b.expr)?;
    let a = boxed_as(alloc, of_a, to, a)?;
    let b = boxed_as(alloc, of_b, to, b)?;
    Ok((a, b))
}

/// The other side of a pair, in a box.
pub(crate) fn boxed_side(
    alloc: Global,
    first: Option<SqlType>,
    b: TypedExpr,
) -> Result<Boxed<BoundSide>, BindFault>
    ensures { Gives result (Ok (spec.side_of first b)) }
{
    let side = side_of(alloc, first, b)?;
    Ok(Boxed::new(alloc, side)?)
}

/// The other side of a pair.
pub(crate) fn side_of(
    alloc: Global,
    first: Option<SqlType>,
    b: TypedExpr,
) -> Result<BoundSide, BindFault>
    ensures { Gives result (Ok (spec.side_of first b)) }
{
    let pair = pair_kind(first, b.facts.kind);
    let expr = converted(alloc, pair, b)?;
    Ok(BoundSide { pair, expr })
}

/// The type in which two expressions are compared.
pub(crate) fn pair_kind(a: Option<SqlType>, b: Option<SqlType>) -> SqlType
    ensures { result ≡ spec.pair_kind a b }
{
    or_int(highest_of(a, b))
}

/// The type that the first side of pairs is said to have.
pub(crate) fn side_kind(kind: Option<SqlType>) -> SqlType
    ensures { result ≡ spec.side_kind kind }
{
    kind.unwrap_or(SqlType::NText(1))
}

/// What is known of expressions, behind what is known of those before them.
pub(crate) fn facts_onto(before: Facts, items: &[TypedExpr]) -> Facts
    ensures { result ≡ spec.facts_onto before items.now }
{
    let mut done = before;
    for item in items {
        done = done.beside(item.facts);
    }
    done
}

fn arms_facts(arms: &[TypedArm]) -> Facts
    ensures { result ≡ spec.arms_facts_onto no_facts arms.now }
{
    let mut done = Facts::none();
    for arm in arms {
        done = done.beside(arm.test.facts.beside(arm.gives.facts));
    }
    done
}

/// The arms, which give what they give as one of a type.
fn arms_to(alloc: Global, to: SqlType, arms: Vec<TypedArm>) -> Result<Items<BoundArm>, BindFault>
    ensures { Gives result (Ok (map (spec.arm_to to) arms.items)) }
{
    let mut done = Vec::new(alloc);
    for arm in arms {
        done.push(arm_to(alloc, to, arm)?)?;
    }
    Ok(Items::from_vec(done))
}

fn arm_to(alloc: Global, to: SqlType, arm: TypedArm) -> Result<BoundArm, BindFault>
    ensures { Gives result (Ok (spec.arm_to to arm)) }
{
    let TypedArm { test, gives } = arm;
    let (test, gives) = and_next(test, converted(alloc, to, gives))?;
    Ok(BoundArm {
        test: test.test,
        gives,
    })
}

fn not_allowed(alloc: Global) -> BindFault
    ensures { result ≡ Number operand_not_allowed [] }
{
    BindFault::Number(OPERAND_NOT_ALLOWED, Units::new(alloc))
}

fn number_kind(number: i64) -> SqlType
    ensures { result ≡ spec.number_kind number }
{
    if number.unsigned_abs() <= GREATEST_INT {
        SqlType::Int
    } else {
        SqlType::BigInt
    }
}

fn text_kind(units: &Units) -> SqlType
    ensures { result ≡ spec.text_kind (length units.now) }
{
    let size = units.len().min(usize::from(TEXT_LIMIT)).max(1);
    SqlType::NText(size as u16)
}

fn is_text(kind: SqlType) -> bool
    ensures { result ≡ is_text kind }
{
    matches!(kind, SqlType::NText(_))
}

fn is_within(from: SqlType, to: SqlType) -> bool
    ensures { result ≡ spec.is_within from to }
{
    match (from, to) {
        (SqlType::NText(n), SqlType::NText(m)) => n <= m,
        _ => from == to,
    }
}

fn limited(to: SqlType, facts: Facts) -> Facts
    ensures { result ≡ spec.limited to facts }
{
    match to {
        SqlType::NText(size) if size < 1 || size > TEXT_LIMIT => facts.outside(),
        _ => facts,
    }
}

fn as_number(alloc: Global, a: TypedExpr) -> Result<TypedExpr, BindFault>
    ensures { Gives result (Ok (spec.as_number a)) }
{
    if a.facts.kind != Some(SqlType::Bit) {
        return Ok(a);
    }
    let facts = Facts {
        kind: Some(SqlType::Int),
        ..a.facts
    };
    let expr = BoundExpr::Convert(SqlType::Bit, SqlType::Int, Boxed::new(alloc, a.expr)?);
    Ok(TypedExpr { expr, facts })
}

fn size_beside(a: Option<SqlType>, b: Option<SqlType>) -> u16
    ensures { result ≡ spec.size_beside a b }
{
    match a.or(b) {
        Some(SqlType::NText(size)) => size,
        _ => 0,
    }
}

fn joined_kind(a: Option<SqlType>, b: Option<SqlType>) -> SqlType
    ensures { result ≡ spec.joined_kind a b }
{
    let size = size_beside(a, b).saturating_add(size_beside(b, a));
    SqlType::NText(size.min(TEXT_LIMIT))
}

fn infix_kind(
    alloc: Global,
    op: InfixOp,
    higher: SqlType,
    a: Option<SqlType>,
    b: Option<SqlType>,
) -> Result<SqlType, BindFault>
    ensures { Gives result (spec.infix_kind op higher a b) }
{
    if !is_text(higher) {
        return Ok(higher);
    }
    match op {
        InfixOp::Add => Ok(joined_kind(a, b)),
        _ => Err(not_allowed(alloc)),
    }
}

fn negative_kind(kind: SqlType) -> Option<SqlType>
    ensures { result ≡ spec.negative_kind kind }
{
    match kind {
        SqlType::TinyInt | SqlType::SmallInt => Some(SqlType::SmallInt),
        SqlType::Int => Some(SqlType::Int),
        SqlType::BigInt => Some(SqlType::BigInt),
        SqlType::Bit | SqlType::NText(_) => None,
    }
}

fn text_from(alloc: Global, a: TypedExpr) -> Result<BoundExpr, BindFault>
    ensures { Gives result (Ok (spec.text_from a.facts.kind a.expr)) }
{
    match a.facts.kind {
        Some(kind) if !is_text(kind) => {
            Ok(BoundExpr::Convert(kind, DIGITS, Boxed::new(alloc, a.expr)?))
        }
        _ => Ok(a.expr),
    }
}

fn is_null_kind(a: Option<SqlType>, b: Option<SqlType>) -> SqlType
    ensures { result ≡ spec.is_null_kind a b }
{
    or_int(a.or(b))
}
