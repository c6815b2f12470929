//! What a side of a comparison is.

ghost use Rattle.std.specs.Prelude.{◌≡◌, IfOk, MatchOption, unwrap_or};
ghost use Rattle.value_types.specs.declared.value.Value.TheVariants.{Null};
ghost use Rattle.bound_tree.specs.Kinds as kinds;
ghost use Rattle.bound_tree.specs.Setting.{value_at};
ghost use Rattle.bound_tree.specs.Typed as typed;
ghost use Rattle.scalar_eval.specs.Scopes.{values_of};
ghost use Rattle.query_eval.specs.KeyTests as spec;
ghost use Rattle.query_eval.specs.Sides.{test_side};

use bound_tree::{BoundExpr, CompareOp};
use session_vars::Vars;
use std::alloc::Global;
use value_types::{Memory, SqlType, Value};

/// What a side of a comparison is.
#[derive(Drop)]
pub(crate) enum Side {
    /// The column at this place.
    Column(u16),
    /// A literal.
    Literal(Value),
    /// A variable, of which this is the value.
    Variable(Value),
    /// Another expression.
    Other,
}

/// What an expression is as a side. A conversion that changes no value is looked through.
pub(crate) fn side_of(alloc: Global, vars: &Vars, expr: &BoundExpr) -> Result<Side, Memory>
    ensures { IfOk result (λ side. test_side side ≡ spec.side_of (values_of vars.now) expr.now) }
{
    match expr {
        BoundExpr::Constant(value) => Ok(Side::Literal(value.copy(alloc)?)),
        BoundExpr::Cell(place) => Ok(Side::Column(*place)),
        BoundExpr::Variable(place) => Ok(Side::Variable(variable(alloc, vars, *place)?)),
        BoundExpr::Convert(from, to, a) => {
            if is_widened(*from, *to) {
                side_of(alloc, vars, a.get())
            } else {
                Ok(Side::Other)
            }
        }
        BoundExpr::System(_) => Ok(Side::Other),
        BoundExpr::Negate(_, _) => Ok(Side::Other),
        BoundExpr::Infix(_, _, _, _) => Ok(Side::Other),
        BoundExpr::Case(_, _) => Ok(Side::Other),
        BoundExpr::Coalesce(_) => Ok(Side::Other),
        BoundExpr::NullIf(_, _, _) => Ok(Side::Other),
        BoundExpr::Length(_) => Ok(Side::Other),
        BoundExpr::Scalar(_) => Ok(Side::Other),
    }
}

/// The value of the variable at a place; NULL where there is none.
fn variable(alloc: Global, vars: &Vars, place: u16) -> Result<Value, Memory>
    ensures { IfOk result (λ value. value ≡ value_at (values_of vars.now) place) }
{
    match lent_variable(vars, place) {
        Some(value) => value.copy(alloc),
        None => Ok(Value::Null),
    }
}

/// The value of the variable at a place, where there is one.
fn lent_variable(vars: &Vars, place: u16) -> Option<&Value>
    ensures { let found = value_at (values_of vars.now) place in
        MatchOption result (found ≡ Null) (λ value. found ≡ value.now) }
{
    if place < vars.count() {
        Some(vars.get(place))
    } else {
        None
    }
}

/// Whether a first side of BETWEEN or IN, which is of the first type, is compared as it is in a pair of the
/// other type.
pub(crate) fn is_as_it_is(side: &Side, kind: SqlType, pair: SqlType) -> bool
    ensures { result ≡ spec.is_as_it_is (test_side side.now) kind pair }
{
    match side {
        Side::Literal(Value::Null) => true,
        _ => is_one_sort(kind, pair),
    }
}

/// Whether both are types of whole numbers, both of texts or both of bits.
fn is_one_sort(a: SqlType, b: SqlType) -> bool
    ensures { result ≡ spec.is_one_sort a b }
{
    is_whole(a) && is_whole(b) || rank(a) == rank(b)
}

/// Whether each value of the one type is the same value of the other.
fn is_widened(from: SqlType, to: SqlType) -> bool
    ensures { result ≡ spec.is_widened from to }
{
    is_one_sort(from, to) && (rank(from) <= rank(to) && text_size(from) <= text_size(to))
}

/// Whether a type is one of whole numbers.
fn is_whole(kind: SqlType) -> bool
    ensures { result ≡ typed.is_whole kind }
{
    match kind {
        SqlType::TinyInt | SqlType::SmallInt | SqlType::Int | SqlType::BigInt => true,
        SqlType::Bit | SqlType::NText(_) => false,
    }
}

/// The place of a type among the types, the lowest first.
fn rank(kind: SqlType) -> u8
    ensures { result ≡ kinds.rank kind }
{
    match kind {
        SqlType::NText(_) => 0,
        SqlType::Bit => 1,
        SqlType::TinyInt => 2,
        SqlType::SmallInt => 3,
        SqlType::Int => 4,
        SqlType::BigInt => 5,
    }
}

/// How many units a text of the type may have; 0 of no text.
fn text_size(kind: SqlType) -> u16
    ensures { result ≡ unwrap_or (kinds.text_size kind) 0 }
{
    match kind {
        SqlType::NText(size) => size,
        SqlType::TinyInt => 0,
        SqlType::SmallInt => 0,
        SqlType::Int => 0,
        SqlType::BigInt => 0,
        SqlType::Bit => 0,
    }
}

/// An operator with its sides exchanged.
pub(crate) fn mirror_of(op: CompareOp) -> CompareOp
    ensures { result ≡ spec.mirror_of op }
{
    match op {
        CompareOp::Equal => CompareOp::Equal,
        CompareOp::NotEqual => CompareOp::NotEqual,
        CompareOp::Less => CompareOp::Greater,
        CompareOp::LessEqual => CompareOp::GreaterEqual,
        CompareOp::Greater => CompareOp::Less,
        CompareOp::GreaterEqual => CompareOp::LessEqual,
    }
}
