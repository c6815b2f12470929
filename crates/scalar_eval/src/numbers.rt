//! Arithmetic on whole numbers.

ghost use Rattle.std.specs.Prelude.{◌≡◌, ◌+ℤ◌, ◌-ℤ◌, ◌*ℤ◌, neg_ℤ};
ghost use Rattle.value_types.specs.Types.{is_in_range};
ghost use Rattle.bound_tree.specs.Numbers as spec;
ghost use Rattle.scalar_eval.specs.Answers.{Finds};

use crate::fault::Stop;
use bound_tree::InfixOp;
use value_types::{SqlType, Value};

/// A result outside its type.
pub(crate) const OVERFLOW: i32 = 8115;

/// A divisor of zero.
const ZERO_DIVISOR: i32 = 8134;

/// The number that a value is, where it is one.
pub(crate) fn number_of(value: &Value) -> Option<i64>
    ensures { result ≡ spec.number_of value.now }
{
    match value {
        Value::Whole(number) => Some(*number),
        Value::Null | Value::Bit(_) | Value::Text(_) => None,
    }
}

/// The number as a value.
pub(crate) fn value_of(number: Option<i64>) -> Value
    ensures { result ≡ spec.value_of number }
{
    match number {
        Some(number) => Value::Whole(number),
        None => Value::Null,
    }
}

/// Two numbers and an operator. Of NULL comes NULL.
pub(crate) fn arithmetic(
    op: InfixOp,
    kind: SqlType,
    a: Option<i64>,
    b: Option<i64>,
) -> Result<Option<i64>, Stop>
    ensures { Finds result (spec.arithmetic op kind a b) }
{
    let (Some(a), Some(b)) = (a, b) else {
        return Ok(None);
    };
    match op {
        InfixOp::Add => sum(kind, a, b),
        InfixOp::Subtract => difference(kind, a, b),
        InfixOp::Multiply => product(kind, a, b),
        InfixOp::Divide => quotient(kind, a, b),
        InfixOp::Remainder => remainder(kind, a, b),
    }
}

/// The negative of a number.
pub(crate) fn negation(kind: SqlType, number: Option<i64>) -> Result<Option<i64>, Stop>
    ensures { Finds result (spec.negation kind number) }
{
    match number {
        None => Ok(None),
        Some(number) => match number.checked_neg() {
            Some(negative) => fitted(kind, negative),
            None => Err(Stop::Number(OVERFLOW)),
        },
    }
}

fn sum(kind: SqlType, a: i64, b: i64) -> Result<Option<i64>, Stop>
    ensures { Finds result (spec.fitted kind (a +ℤ b)) }
{
    match a.checked_add(b) {
        Some(number) => fitted(kind, number),
        None => Err(Stop::Number(OVERFLOW)),
    }
}

fn difference(kind: SqlType, a: i64, b: i64) -> Result<Option<i64>, Stop>
    ensures { Finds result (spec.fitted kind (a -ℤ b)) }
{
    match a.checked_sub(b) {
        Some(number) => fitted(kind, number),
        None => Err(Stop::Number(OVERFLOW)),
    }
}

fn product(kind: SqlType, a: i64, b: i64) -> Result<Option<i64>, Stop>
    ensures { Finds result (spec.fitted kind (a *ℤ b)) }
{
    match a.checked_mul(b) {
        Some(number) => fitted(kind, number),
        None => Err(Stop::Number(OVERFLOW)),
    }
}

fn quotient(kind: SqlType, a: i64, b: i64) -> Result<Option<i64>, Stop>
    ensures { Finds result (spec.quotient kind a b) }
{
    if b == 0 {
        return Err(Stop::Number(ZERO_DIVISOR));
    }
    match a.checked_div(b) {
        Some(number) => fitted(kind, number),
        None => Err(Stop::Number(OVERFLOW)),
    }
}

fn remainder(kind: SqlType, a: i64, b: i64) -> Result<Option<i64>, Stop>
    ensures { Finds result (spec.remainder kind a b) }
{
    if b == 0 {
        return Err(Stop::Number(ZERO_DIVISOR));
    }
    match a.checked_rem(b) {
        Some(number) => fitted(kind, number),
        // The least number by -1, whose quotient alone is too great.
        None => fitted(kind, 0),
    }
}

/// The number, where it is in the range of its type.
pub(crate) fn fitted(kind: SqlType, number: i64) -> Result<Option<i64>, Stop>
    ensures { Finds result (spec.fitted kind number) }
{
    if fits(kind, number) {
        Ok(Some(number))
    } else {
        Err(Stop::Number(OVERFLOW))
    }
}

/// Whether a number is in the range of its type.
fn fits(kind: SqlType, number: i64) -> bool
    ensures { result ≡ is_in_range kind number }
{
    match kind {
        SqlType::TinyInt => (0..=255).contains(&number),
        SqlType::SmallInt => (-32768..=32767).contains(&number),
        SqlType::Int => (-2147483648..=2147483647).contains(&number),
        SqlType::BigInt => true,
        SqlType::Bit | SqlType::NText(_) => false,
    }
}
