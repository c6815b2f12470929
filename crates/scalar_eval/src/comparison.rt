//! Texts joined and measured, conversions, and what a comparison says.

ghost use Rattle.std.specs.Prelude.{◌≡◌, if◌then◌else◌, map, None, Ok, Some};
ghost use Rattle.value_types.specs.Order.{comparison};
ghost use Rattle.convert_rules.specs.Conversion.{is_text};
ghost use Rattle.bound_tree.specs.Kinds as kinds;
ghost use Rattle.bound_tree.specs.Numbers as numbers;
ghost use Rattle.bound_tree.specs.Truths as truths;
ghost use Rattle.bound_tree.specs.Texts as texts;
ghost use Rattle.bound_tree.specs.Conversions as conversions;
ghost use Rattle.bound_tree.specs.Comparisons as spec;
ghost use Rattle.bound_tree.specs.Meaning as meaning;
ghost use Rattle.scalar_eval.specs.Answers.{Finds};
ghost use Rattle.scalar_eval.specs.Operands.{FindsOperand, operand_value};
ghost use Rattle.value_types.specs.declared.value.Value.TheVariants.{Null};

use crate::fault::Stop;
use crate::numbers::{OVERFLOW, fitted};
use crate::operand::{Operand, lent_or_null};
use crate::scope::cell;
use bound_tree::{CompareOp, Truth, higher};
use convert_rules::{cast, error_of};
use std::alloc::Global;
use std::cmp::Ordering;
use value_types::{Row, SqlType, Units, Value, compare, letting_go};

const SPACE: u16 = 0x20;

/// The most units of a text that is made of two.
const TEXT_LIMIT: usize = 4000;

pub(crate) fn is_text(kind: SqlType) -> bool
    ensures { result ≡ is_text kind }
{
    matches!(kind, SqlType::NText(_))
}

pub(crate) fn is_null(value: &Value) -> bool
    ensures { result ≡ meaning.is_null value.now }
{
    matches!(value, Value::Null)
}

pub(crate) fn is_true(truth: Truth) -> bool
    ensures { result ≡ truths.is_true truth }
{
    matches!(truth, Truth::True)
}

pub(crate) fn is_false(truth: Truth) -> bool
    ensures { result ≡ truths.is_false truth }
{
    matches!(truth, Truth::False)
}

pub(crate) fn truth_of(holds: bool) -> Truth
    ensures { result ≡ truths.truth_of holds }
{
    if holds { Truth::True } else { Truth::False }
}

/// A value, where it isn't NULL.
pub(crate) fn known(value: Value) -> Option<Value>
    ensures { result ≡ (if meaning.is_null value then None else Some value) }
{
    match value {
        Value::Null => None,
        value => Some(value),
    }
}

/// NULL where a value equals another, else the value, owned.
pub(crate) fn null_if(alloc: Global, value: Operand<'_>, equal: Truth) -> Result<Value, Stop>
    ensures { let value = operand_value value.entry in
        Finds result (Ok (if truths.is_true equal then Null else value)) }
{
    if is_true(equal) {
        return Ok(Value::Null);
    }
    Ok(value.into_value(alloc)?)
}

/// Two texts joined, and cut where they are too long.
pub(crate) fn joined(a: Value, b: &Value) -> Result<Value, Stop>
    ensures { Finds result (Ok (texts.joined a b.now)) }
{
    match (a, b) {
        (Value::Text(a), Value::Text(b)) => {
            let mut units = a.into_vec();
            units.extend_from_slice(b.as_slice())?;
            units.truncate(TEXT_LIMIT);
            Ok(Value::Text(Units::from(units)))
        }
        _ => Ok(Value::Null),
    }
}

/// LEN of a text.
pub(crate) fn length_of(value: &Value) -> Result<Option<i64>, Stop>
    ensures { Finds result (texts.length_of value.now) }
{
    match value {
        Value::Text(units) => match i64::try_from(count_units(units.as_slice())) {
            Ok(count) => fitted(SqlType::Int, count),
            Err(_) => Err(Stop::Number(OVERFLOW)),
        },
        Value::Null | Value::Whole(_) | Value::Bit(_) => Ok(None),
    }
}

/// How many units there are, without the spaces at the end.
#[tactic(auto, using(crate::proofs::Reading::count_units_behind))]
fn count_units(units: &[u16]) -> usize
    ensures { result ≡ texts.count_units units.now }
{
    let mut count = 0;
    for (place, unit) in units.iter().enumerate() {
        if *unit != SPACE {
            count = place + 1;
        }
    }
    count
}

/// A value of one type as one of another, by the rules of CAST.
pub(crate) fn conversion(
    alloc: Global,
    from: SqlType,
    to: SqlType,
    value: &Value,
) -> Result<Value, Stop>
    ensures { Finds result (conversions.conversion from to value.now) }
{
    match cast(alloc, value, from, to) {
        Ok(value) => Ok(value),
        Err(fault) => match error_of(fault, from, to) {
            Some(number) => Err(Stop::Number(number)),
            None => Err(Stop::Memory),
        },
    }
}

/// A value as one of the type in which a pair is compared.
pub(crate) fn brought(
    alloc: Global,
    from: SqlType,
    to: SqlType,
    value: &Value,
) -> Result<Operand<'_>, Stop>
    ensures { FindsOperand result (conversions.brought from to value.now) }
{
    if are_alike(from, to) {
        return Ok(Operand::Lent(value));
    }
    Ok(Operand::Made(conversion(alloc, from, to, value)?))
}

/// Whether both are texts, or both are the same type.
pub(crate) fn are_alike(a: SqlType, b: SqlType) -> bool
    ensures { result ≡ kinds.are_alike a b }
{
    match (a, b) {
        (SqlType::NText(_), SqlType::NText(_)) => true,
        _ => a == b,
    }
}

/// How two values of one kind compare; values of two kinds don't.
pub(crate) fn order_of(a: &Value, b: &Value) -> Option<Ordering>
    ensures { result ≡ spec.order_of a.now b.now }
{
    match (a, b) {
        (Value::Whole(a), Value::Whole(b)) => Some(a.cmp(b)),
        (Value::Bit(_), Value::Bit(_)) | (Value::Text(_), Value::Text(_)) => compare(a, b),
        _ => None,
    }
}

/// The same of what two expressions gave.
pub(crate) fn order_of_operands(a: Operand<'_>, b: Operand<'_>) -> Option<Ordering>
    ensures { result ≡ spec.order_of (operand_value a.entry) (operand_value b.entry) }
{
    let order = order_of(a.get(), b.get());
    letting_go(a, letting_go(b, order))
}

/// How two numbers compare, where both are there.
pub(crate) fn order_of_numbers(a: Option<i64>, b: Option<i64>) -> Option<Ordering>
    ensures { result ≡ spec.order_of (numbers.value_of a) (numbers.value_of b) }
{
    match (a, b) {
        (Some(a), Some(b)) => Some(a.cmp(&b)),
        _ => None,
    }
}

/// What a comparison says of two values that compare so; they don't where one is NULL.
pub(crate) fn order_truth(op: CompareOp, order: Option<Ordering>) -> Truth
    ensures { result ≡ spec.order_truth op order }
{
    let Some(order) = order else {
        return Truth::Unknown;
    };
    truth_of(match op {
        CompareOp::Equal => order.is_eq(),
        CompareOp::NotEqual => order.is_ne(),
        CompareOp::Less => order.is_lt(),
        CompareOp::LessEqual => order.is_le(),
        CompareOp::Greater => order.is_gt(),
        CompareOp::GreaterEqual => order.is_ge(),
    })
}

/// Whether a value of the first type equals that of one of the rows, which are of the second.
#[tactic(auto, using(crate::proofs::Reading::any_onto_decided))]
pub(crate) fn in_rows(
    alloc: Global,
    kind: SqlType,
    value: &Value,
    other: SqlType,
    rows: &[Row],
) -> Result<Truth, Stop>
    ensures { Finds result (spec.any_of (map (meaning.equals_row kind other value.now) rows.now)) }
{
    let mut so_far = Truth::False;
    for row in rows {
        if is_true(so_far) {
            return Ok(Truth::True);
        }
        so_far = so_far.or(equals_row(alloc, kind, other, value, row)?);
    }
    Ok(so_far)
}

/// Whether a value of the first type equals that of a row, which is of the second.
fn equals_row(
    alloc: Global,
    kind: SqlType,
    other: SqlType,
    value: &Value,
    row: &Row,
) -> Result<Truth, Stop>
    ensures { Finds result (meaning.equals_row kind other value.now row.now) }
{
    let pair = higher(kind, other);
    let a = brought(alloc, kind, pair, value)?;
    let only = lent_or_null(cell(row, 0));
    let b = brought(alloc, other, pair, only.get())?;
    Ok(order_truth(CompareOp::Equal, order_of(a.get(), b.get())))
}
