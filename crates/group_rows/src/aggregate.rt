//! Aggregates over the values of a class.

ghost use Rattle.std.specs.Prelude.{◌≡◌, length, option_map, IfOk};
ghost use Rattle.value_types.specs.Types as types;
ghost use Rattle.bound_tree.specs.Meaning as meaning;
ghost use Rattle.group_rows.specs.Steps as steps;
ghost use Rattle.group_rows.specs.Totals as spec;

use crate::GroupFault;
use crate::in_order::directed;
use crate::order::value_order;
use bound_tree::SumKind;
use std::alloc::Global;
use value_types::{Memory, SqlType, Value};

/// What an aggregate makes of the values, as a value of a type. All but COUNT(*), which counts the values,
/// skip NULLs; of no value COUNT is 0 and the others are NULL. SUM and AVG take the whole numbers among
/// the values, MIN and MAX the first of several that are equal.
///
/// # Errors
///
/// `Overflow` where the exact total of SUM and AVG, or the count, is outside the type; `Memory`.
pub fn total(
    alloc: Global,
    values: &[Value],
    kind: SumKind,
    to: SqlType,
) -> Result<Value, GroupFault>
    ensures { spec.Gives result (spec.total kind to values.now) }
{
    match kind {
        SumKind::CountRows => whole(to, values.len() as i128),
        SumKind::Count => whole(to, known_count(values) as i128),
        SumKind::Sum => summed(to, values),
        SumKind::Avg => averaged(to, values),
        SumKind::Min => Ok(first_of(alloc, false, values)?),
        SumKind::Max => Ok(first_of(alloc, true, values)?),
    }
}

/// The numbers among values: their exact sum, and how many they are.
#[derive(Clone, Copy)]
struct Sum {
    total: i128,
    count: u64,
}

/// The sum of the numbers among values.
fn sum_of(values: &[Value]) -> Sum
    ensures sum { result.total ≡ spec.sum_of (spec.numbers_of values.now) }
    ensures count { result.count ≡ length (spec.numbers_of values.now) }
{
    let mut total = 0i128;
    let mut count = 0u64;
    for value in values {
        if let Value::Whole(number) = value {
            total += i128::from(*number);
            count += 1;
        }
    }
    Sum { total, count }
}

/// Their sum as a value of a type; of no number NULL.
fn summed(to: SqlType, values: &[Value]) -> Result<Value, GroupFault>
    ensures { spec.Gives result (spec.summed to (spec.numbers_of values.now)) }
{
    let sum = sum_of(values);
    if sum.count == 0 {
        return Ok(Value::Null);
    }
    whole(to, sum.total)
}

/// Their sum, which has to be of the type, divided by their count; of no number NULL.
fn averaged(to: SqlType, values: &[Value]) -> Result<Value, GroupFault>
    ensures { spec.Gives result (spec.averaged to (spec.numbers_of values.now)) }
{
    let sum = sum_of(values);
    if sum.count == 0 {
        return Ok(Value::Null);
    }
    whole(to, sum.total)?;
    Ok(Value::Whole((sum.total / i128::from(sum.count)) as i64))
}

/// A number as a value of a type.
fn whole(to: SqlType, number: i128) -> Result<Value, GroupFault>
    ensures { spec.Gives result (spec.whole to number) }
{
    if is_in_range(to, number) {
        Ok(Value::Whole(number as i64))
    } else {
        Err(GroupFault::Overflow)
    }
}

/// Whether a number is in the range of a type.
fn is_in_range(kind: SqlType, number: i128) -> bool
    ensures { result ≡ types.is_in_range kind number }
{
    match kind {
        SqlType::TinyInt => (0..=255).contains(&number),
        SqlType::SmallInt => (-32768..=32767).contains(&number),
        SqlType::Int => (-2147483648..=2147483647).contains(&number),
        SqlType::BigInt => (-9223372036854775808..=9223372036854775807).contains(&number),
        SqlType::Bit | SqlType::NText(_) => false,
    }
}

/// How many of the values aren't NULL.
fn known_count(values: &[Value]) -> usize
    ensures { result ≡ length (spec.known values.now) }
{
    values.iter().filter(|value| !is_null(value)).count()
}

/// The first of the values that aren't NULL before which none comes, up or down.
fn first_of(alloc: Global, down: bool, values: &[Value]) -> Result<Value, Memory>
    ensures { IfOk result (λ value. value ≡ spec.first_of down (spec.known values.now)) }
{
    let mut first = None;
    for value in values {
        first = first_with(down, first, value);
    }
    match first {
        Some(value) => value.copy(alloc),
        None => Ok(Value::Null),
    }
}

/// The first of those before a value and of the value.
fn first_with<'a>(down: bool, first: Option<&'a Value>, value: &'a Value) -> Option<&'a Value>
    ensures { option_map (λ found. found.now) result ≡ steps.first_with down (option_map (λ found. found.now) first.entry) value.now }
{
    match first {
        None => { if is_null(value) { None } else { Some(value) } }
        Some(so_far) => {
            if is_null(value) {
                Some(so_far)
            } else if directed(down, value_order(value, so_far)).is_lt() {
                Some(value)
            } else {
                Some(so_far)
            }
        }
    }
}

/// Whether a value is NULL.
fn is_null(value: &Value) -> bool
    ensures { result ≡ meaning.is_null value.now }
{
    matches!(value, Value::Null)
}
