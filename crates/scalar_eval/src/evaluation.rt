//! The evaluation of expressions and tests.

ghost use Rattle.std.specs.Prelude.{◌≡◌, ◌||◌, IfSome, map, Ok};
ghost use Rattle.bound_tree.specs.Setting.{Setting};
ghost use Rattle.bound_tree.specs.Numbers.{number_outcome};
ghost use Rattle.bound_tree.specs.Comparisons as spec;
ghost use Rattle.bound_tree.specs.Meaning as meaning;
ghost use Rattle.scalar_eval.specs.Answers.{Finds, Gives};
ghost use Rattle.scalar_eval.specs.Operands.{FindsOperand, computes};
ghost use Rattle.scalar_eval.specs.Scopes.{setting_of};

use crate::comparison::{
    are_alike, brought, conversion, in_rows, is_false, is_null, is_text, is_true, joined, known,
    length_of, null_if, order_of, order_of_numbers, order_of_operands, order_truth, truth_of,
};
use crate::fault::{EvalFault, Stop, widened};
use crate::numbers::{arithmetic, negation, number_of, value_of};
use crate::operand::{Operand, lent_or_null};
use crate::scope::{Scope, cell, rows, scalar, variable};
use bound_tree::{BoundArm, BoundExpr, BoundSide, BoundTest, CompareOp, Truth};
use std::alloc::Global;
use value_types::{SqlType, Value, beside, letting_go};

/// What an expression gives.
pub fn eval(alloc: Global, expr: &BoundExpr, scope: &Scope<'_>) -> Result<Value, EvalFault>
    ensures { Gives result (meaning.value (setting_of scope.now) expr.now) }
{
    match value(alloc, expr, &scope.shorter()) {
        Ok(value) => Ok(value),
        Err(stop) => Err(widened(stop)),
    }
}

/// What a test says.
pub fn test(alloc: Global, of: &BoundTest, scope: &Scope<'_>) -> Result<Truth, EvalFault>
    ensures { Gives result (meaning.truth (setting_of scope.now) of.now) }
{
    match truth(alloc, of, &scope.shorter()) {
        Ok(truth) => Ok(truth),
        Err(stop) => Err(widened(stop)),
    }
}

/// The value of an expression that only reads it, lent.
#[inline(always)]
fn seen<'a>(expr: &'a BoundExpr, scope: &Scope<'a>) -> Option<&'a Value>
    ensures { IfSome result (λ value. meaning.value (setting_of scope.now) expr.now ≡ Ok value.now) }
{
    match expr {
        BoundExpr::Constant(value) => Some(value),
        BoundExpr::Cell(place) => cell(scope.row, *place),
        BoundExpr::Variable(place) => variable(scope.vars, *place),
        BoundExpr::System(of) => Some(scope.system.get(*of)),
        _ => None,
    }
}

/// Whether an expression computes a whole number.
#[inline(always)]
fn is_computed(expr: &BoundExpr) -> bool
    ensures { result ≡ computes expr.now }
{
    match expr {
        BoundExpr::Negate(_, _) => true,
        BoundExpr::Infix(_, kind, _, _) => !is_text(*kind),
        _ => false,
    }
}

/// Whether one of two expressions does.
fn is_one_computed(a: &BoundExpr, b: &BoundExpr) -> bool
    ensures { result ≡ (computes a.now || computes b.now) }
{
    is_computed(a) || is_computed(b)
}

/// The value of an expression, owned.
#[cycle(evaluate)]
fn value<'a>(alloc: Global, expr: &'a BoundExpr, scope: &Scope<'a>) -> Result<Value, Stop>
    ensures { Finds result (meaning.value (setting_of scope.now) expr.now) }
{
    match expr {
        BoundExpr::Constant(value) => Ok(value.copy(alloc)?),
        BoundExpr::Cell(place) => Ok(lent_or_null(cell(scope.row, *place)).into_value(alloc)?),
        BoundExpr::Variable(place) => Ok(lent_or_null(variable(scope.vars, *place)).into_value(
            alloc,
        )?),
        BoundExpr::System(of) => Ok(scope.system.get(*of).copy(alloc)?),
        BoundExpr::Scalar(place) => Ok(scalar(rows(scope.inner, *place))?.into_value(alloc)?),
        BoundExpr::Negate(kind, a) => {
            let a = number(alloc, a.get(), scope)?;
            Ok(value_of(negation(*kind, a)?))
        }
        BoundExpr::Infix(op, kind, a, b) => {
            if is_text(*kind) {
                let x = value(alloc, a.get(), scope)?;
                let (x, y) = beside(x, operand(alloc, b.get(), scope))?;
                let text = joined(x, y.get());
                return letting_go(y, text);
            }
            let x = number(alloc, a.get(), scope)?;
            let y = number(alloc, b.get(), scope)?;
            Ok(value_of(arithmetic(*op, *kind, x, y)?))
        }
        BoundExpr::Convert(from, to, a) => {
            let a = operand(alloc, a.get(), scope)?;
            let converted = conversion(alloc, *from, *to, a.get());
            letting_go(a, converted)
        }
        BoundExpr::Case(arms, other) => match chosen(alloc, arms.as_slice(), scope)? {
            Some(value) => Ok(value),
            None => value(alloc, other.get(), scope),
        },
        BoundExpr::Coalesce(items) => first_known(alloc, items.as_slice(), scope),
        BoundExpr::NullIf(kind, a, side) => {
            let a = operand(alloc, a.get(), scope)?;
            let equal = compared(alloc, CompareOp::Equal, *kind, a.get(), side.get(), scope);
            let (a, equal) = beside(a, equal)?;
            null_if(alloc, a, equal)
        }
        BoundExpr::Length(a) => {
            let a = operand(alloc, a.get(), scope)?;
            let length = length_of(a.get());
            Ok(value_of(letting_go(a, length)?))
        }
    }
}

/// The value of an expression, lent where it stands somewhere.
#[cycle(evaluate)]
fn operand<'a>(alloc: Global, expr: &'a BoundExpr, scope: &Scope<'a>) -> Result<Operand<'a>, Stop>
    ensures { FindsOperand result (meaning.value (setting_of scope.now) expr.now) }
{
    if let Some(value) = seen(expr, scope) {
        return Ok(Operand::Lent(value));
    }
    if is_computed(expr) {
        return Ok(Operand::Made(value_of(computed(alloc, expr, scope)?)));
    }
    Ok(Operand::Made(value(alloc, expr, scope)?))
}

/// The number that an expression gives, where it gives one.
#[cycle(evaluate)]
#[inline(always)]
fn number<'a>(alloc: Global, expr: &'a BoundExpr, scope: &Scope<'a>) -> Result<Option<i64>, Stop>
    ensures { Finds result (number_outcome (meaning.value (setting_of scope.now) expr.now)) }
{
    match seen(expr, scope) {
        Some(value) => Ok(number_of(value)),
        None => computed(alloc, expr, scope),
    }
}

/// The number that an expression computes. Of arithmetic no value is made on the way.
#[cycle(evaluate)]
fn computed<'a>(alloc: Global, expr: &'a BoundExpr, scope: &Scope<'a>) -> Result<Option<i64>, Stop>
    ensures { Finds result (number_outcome (meaning.value (setting_of scope.now) expr.now)) }
{
    match expr {
        BoundExpr::Infix(op, kind, a, b) if !is_text(*kind) => {
            let x = number(alloc, a.get(), scope)?;
            let y = number(alloc, b.get(), scope)?;
            arithmetic(*op, *kind, x, y)
        }
        BoundExpr::Negate(kind, a) => {
            let a = number(alloc, a.get(), scope)?;
            negation(*kind, a)
        }
        _ => {
            let value = value(alloc, expr, scope)?;
            let number = number_of(&value);
            Ok(letting_go(value, number))
        }
    }
}

/// The first value that isn't NULL.
#[cycle(evaluate)]
fn first_known<'a>(alloc: Global, items: &'a [BoundExpr], scope: &Scope<'a>) -> Result<Value, Stop>
    ensures { let value = meaning.value (setting_of scope.now) in
        Finds result (meaning.first_known (map value items.now)) }
{
    for item in items {
        if let Some(known) = known(value(alloc, item, scope)?) {
            return Ok(known);
        }
    }
    Ok(Value::Null)
}

/// What the first arm gives whose test is true, where there is one.
#[cycle(evaluate)]
fn chosen<'a>(alloc: Global, arms: &'a [BoundArm], scope: &Scope<'a>) -> Result<Option<Value>, Stop>
    ensures { Finds result (meaning.chosen (map (meaning.arm_of (setting_of scope.now)) arms.now)) }
{
    for arm in arms {
        let truth = truth(alloc, &arm.test, scope)?;
        if is_true(truth) {
            return Ok(Some(value(alloc, &arm.gives, scope)?));
        }
    }
    Ok(None)
}

/// How a value of a type compares with the other side of its pair.
#[cycle(evaluate)]
fn compared<'a>(
    alloc: Global,
    op: CompareOp,
    kind: SqlType,
    value: &Value,
    side: &'a BoundSide,
    scope: &Scope<'a>,
) -> Result<Truth, Stop>
    ensures { let side = meaning.side_of (setting_of scope.now) side.now in
        Finds result (meaning.with_side op kind value.now side) }
{
    if are_alike(kind, side.pair)
        && let Some(y) = seen(&side.expr, scope)
    {
        return Ok(order_truth(op, order_of(value, y)));
    }
    let x = brought(alloc, kind, side.pair, &*value)?;
    let (x, y) = beside(x, operand(alloc, &side.expr, scope))?;
    Ok(order_truth(op, order_of_operands(x, y)))
}

/// Whether a value of a type equals one of the sides.
#[cycle(evaluate)]
#[tactic(auto, using(crate::proofs::Reading::any_onto_decided))]
fn in_sides<'a>(
    alloc: Global,
    kind: SqlType,
    value: &Value,
    sides: &'a [BoundSide],
    scope: &Scope<'a>,
) -> Result<Truth, Stop>
    ensures { let sides = map (meaning.side_of (setting_of scope.now)) sides.now in
        Finds result (spec.any_of (map (meaning.equals_side kind value.now) sides)) }
{
    let mut so_far = Truth::False;
    for side in sides {
        if is_true(so_far) {
            return Ok(Truth::True);
        }
        so_far = so_far.or(compared(alloc, CompareOp::Equal, kind, value, side, scope)?);
    }
    Ok(so_far)
}

/// What a test says. Numbers are compared with no value made of them.
#[cycle(evaluate)]
fn truth<'a>(alloc: Global, of: &'a BoundTest, scope: &Scope<'a>) -> Result<Truth, Stop>
    ensures { Finds result (meaning.truth (setting_of scope.now) of.now) }
{
    match of {
        BoundTest::Compare(op, a, b) if is_one_computed(a.get(), b.get()) => {
            let x = number(alloc, a.get(), scope)?;
            let y = number(alloc, b.get(), scope)?;
            Ok(order_truth(*op, order_of_numbers(x, y)))
        }
        BoundTest::Compare(op, a, b)
            if let Some(x) = seen(a.get(), scope) && let Some(y) = seen(b.get(), scope) => {
            Ok(order_truth(*op, order_of(x, y)))
        }
        _ => truth_by_parts(alloc, of, scope),
    }
}

/// What a test says, by what its parts say and give.
#[cycle(evaluate)]
#[inline(never)]
fn truth_by_parts<'a>(alloc: Global, of: &'a BoundTest, scope: &Scope<'a>) -> Result<Truth, Stop>
    ensures { Finds result (meaning.truth (setting_of scope.now) of.now) }
{
    match of {
        BoundTest::And(a, b) => {
            let x = truth(alloc, a.get(), scope)?;
            if is_false(x) {
                return Ok(Truth::False);
            }
            let y = truth(alloc, b.get(), scope)?;
            Ok(x.and(y))
        }
        BoundTest::Or(a, b) => {
            let x = truth(alloc, a.get(), scope)?;
            if is_true(x) {
                return Ok(Truth::True);
            }
            let y = truth(alloc, b.get(), scope)?;
            Ok(x.or(y))
        }
        BoundTest::Not(a) => Ok(truth(alloc, a.get(), scope)?.not()),
        BoundTest::Exists(place) => Ok(truth_of(!rows(scope.inner, *place).is_empty())),
        BoundTest::Compare(op, a, b) => {
            let x = operand(alloc, a.get(), scope)?;
            let (x, y) = beside(x, operand(alloc, b.get(), scope))?;
            Ok(order_truth(*op, order_of_operands(x, y)))
        }
        BoundTest::IsNull(a) => {
            let a = operand(alloc, a.get(), scope)?;
            let is_null = is_null(a.get());
            Ok(truth_of(letting_go(a, is_null)))
        }
        BoundTest::Between(kind, a, low, high) => {
            let a = operand(alloc, a.get(), scope)?;
            let least = CompareOp::GreaterEqual;
            let above = compared(alloc, least, *kind, a.get(), low.get(), scope);
            let (a, above) = beside(a, above)?;
            if is_false(above) {
                return Ok(letting_go(a, Truth::False));
            }
            let most = CompareOp::LessEqual;
            let below = compared(alloc, most, *kind, a.get(), high.get(), scope);
            Ok(above.and(letting_go(a, below)?))
        }
        BoundTest::InList(kind, a, sides) => {
            let a = operand(alloc, a.get(), scope)?;
            let truth = in_sides(alloc, *kind, a.get(), sides.as_slice(), scope);
            letting_go(a, truth)
        }
        BoundTest::InQuery(kind, a, other, place) => {
            let a = operand(alloc, a.get(), scope)?;
            let truth = in_rows(alloc, *kind, a.get(), *other, rows(scope.inner, *place));
            letting_go(a, truth)
        }
    }
}
