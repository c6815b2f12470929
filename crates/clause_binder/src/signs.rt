//! What the signs of a text stand for.

ghost use Rattle.std.specs.Prelude.{◌≡◌};
ghost use Rattle.std.specs.List.{list_any};
ghost use Rattle.typed_nodes.specs.Refusals.{Gives};
ghost use Rattle.clause_binder.specs.Bind as spec;

use crate::settling::settled;
use bound_tree::{BoundExpr, CompareOp, InfixOp};
use std::alloc::Global;
use tsql_tree::{AddSign, CompareSign, MultiplySign};
use typed_nodes::{BindFault, TypedExpr};
use value_types::{SqlType, Value};

/// A number as it stands in a text.
pub fn literal(number: i64) -> TypedExpr
    ensures { result ≡ spec.literal number }
{
    TypedExpr::number(number)
}

/// A number under its signs.
pub fn signed_number(signs: &[AddSign], number: i64) -> i64
    ensures { result ≡ spec.signed_number signs.now number }
{
    let mut signed = number;
    for sign in signs {
        match sign {
            AddSign::Plus => {}
            AddSign::Minus => signed = signed.wrapping_neg(),
        }
    }
    signed
}

/// Whether there is a minus among the signs.
fn has_minus(signs: &[AddSign]) -> bool
    ensures { result ≡ list_any spec.is_minus signs.now }
{
    for sign in signs {
        if is_minus(*sign) {
            return true;
        }
    }
    false
}

fn is_minus(sign: AddSign) -> bool
    ensures { result ≡ spec.is_minus sign }
{
    match sign {
        AddSign::Plus => false,
        AddSign::Minus => true,
    }
}

/// NULL under signs: under a minus it is an INT.
pub fn signed_null(signs: &[AddSign]) -> TypedExpr
    ensures { result ≡ spec.signed_null signs.now }
{
    if has_minus(signs) {
        TypedExpr::leaf(SqlType::Int, BoundExpr::Constant(Value::Null))
    } else {
        TypedExpr::lone_null()
    }
}

/// An expression under its signs.
pub fn signed_onto(
    alloc: Global,
    groups: &[BoundExpr],
    first: TypedExpr,
    signs: &[AddSign],
) -> Result<TypedExpr, BindFault>
    ensures { Gives result (spec.signed_onto groups.now first signs.now) }
{
    let mut a = first;
    for sign in signs {
        a = signed_by(alloc, groups, *sign, a)?;
    }
    Ok(a)
}

fn signed_by(
    alloc: Global,
    groups: &[BoundExpr],
    sign: AddSign,
    a: TypedExpr,
) -> Result<TypedExpr, BindFault>
    ensures { Gives result (spec.signed_by groups.now sign a) }
{
    match sign {
        AddSign::Plus => Ok(a),
        AddSign::Minus => Ok(settled(groups, a.negative(alloc)?)),
    }
}

pub fn add_op(sign: AddSign) -> InfixOp
    ensures { result ≡ spec.add_op sign }
{
    match sign {
        AddSign::Plus => InfixOp::Add,
        AddSign::Minus => InfixOp::Subtract,
    }
}

pub fn multiply_op(sign: MultiplySign) -> InfixOp
    ensures { result ≡ spec.multiply_op sign }
{
    match sign {
        MultiplySign::Times => InfixOp::Multiply,
        MultiplySign::Divide => InfixOp::Divide,
        MultiplySign::Remainder => InfixOp::Remainder,
    }
}

pub fn compare_op(sign: CompareSign) -> CompareOp
    ensures { result ≡ spec.compare_op sign }
{
    match sign {
        CompareSign::Equal => CompareOp::Equal,
        CompareSign::NotEqual => CompareOp::NotEqual,
        CompareSign::Less => CompareOp::Less,
        CompareSign::LessEqual => CompareOp::LessEqual,
        CompareSign::Greater => CompareOp::Greater,
        CompareSign::GreaterEqual => CompareOp::GreaterEqual,
    }
}
