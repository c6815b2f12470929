//! The tests of WHERE by which rows are read.

ghost use Rattle.std.specs.Prelude.{◌≡◌, ◌+◌, ◌++◌, nat_eq, IfOk, OnOk};
ghost use Rattle.std.specs.List.{filter, list_all, list_any};
ghost use Rattle.bound_tree.specs.Comparisons as comparisons;
ghost use Rattle.bound_tree.specs.Truths.{is_true};
ghost use Rattle.scalar_eval.specs.Scopes.{values_of};
ghost use Rattle.query_eval.specs.KeyTests as spec;
ghost use Rattle.query_eval.specs.Sides.{test_side};

use crate::side::{Side, is_as_it_is, mirror_of, side_of};
use bound_tree::{BoundSide, BoundTest, CompareOp, JoinKind};
use session_vars::Vars;
use std::alloc::Global;
use std::cmp::Ordering;
use value_types::{Memory, Row, SqlType, Value, compare};

/// A column of a row, how it is compared, and with what.
#[derive(Drop)]
pub struct ColumnTest {
    /// The place of the column in the row.
    pub column: u16,
    /// How it is compared.
    pub op: CompareOp,
    /// With what.
    pub value: Value,
}

/// The columns that conjuncts of WHERE compare with constants and variables, in the order of the text.
pub fn where_tests(
    alloc: Global,
    vars: &Vars,
    filter: &Option<BoundTest>,
) -> Result<Vec<ColumnTest>, Memory>
    ensures { IfOk result (λ tests. tests.items ≡ spec.where_tests (values_of vars.now) filter.now) }
{
    let mut tests = Vec::new(alloc);
    match filter {
        Some(test) => push_tests(alloc, vars, test, &mut tests)?,
        None => {}
    }
    Ok(tests)
}

/// Adds those of a test.
fn push_tests(
    alloc: Global,
    vars: &Vars,
    test: &BoundTest,
    tests: &mut Vec<ColumnTest>,
) -> Result<(), Memory>
    ensures { OnOk result (tests.new.items ≡ tests.old.items ++ spec.column_tests (values_of vars.now) test.now) }
{
    match test {
        BoundTest::Compare(op, a, b) => {
            let a = side_of(alloc, vars, a.get())?;
            let b = side_of(alloc, vars, b.get())?;
            push_compared(alloc, *op, &a, &b, tests)
        }
        BoundTest::Between(kind, a, low, high) => {
            let a = side_of(alloc, vars, a.get())?;
            push_pair(
                alloc,
                vars,
                CompareOp::GreaterEqual,
                *kind,
                &a,
                low.get(),
                tests,
            )?;
            push_pair(
                alloc,
                vars,
                CompareOp::LessEqual,
                *kind,
                &a,
                high.get(),
                tests,
            )
        }
        BoundTest::InList(kind, a, sides) => match sides.as_slice() {
            [side] => {
                let a = side_of(alloc, vars, a.get())?;
                push_pair(alloc, vars, CompareOp::Equal, *kind, &a, side, tests)
            }
            _ => Ok(()),
        },
        BoundTest::And(a, b) => {
            push_tests(alloc, vars, a.get(), tests)?;
            push_tests(alloc, vars, b.get(), tests)
        }
        BoundTest::IsNull(_) => Ok(()),
        BoundTest::InQuery(_, _, _, _) => Ok(()),
        BoundTest::Exists(_) => Ok(()),
        BoundTest::Or(_, _) => Ok(()),
        BoundTest::Not(_) => Ok(()),
    }
}

/// Adds that of a first side of BETWEEN or IN, which is of a type, and the other side of a pair.
fn push_pair(
    alloc: Global,
    vars: &Vars,
    op: CompareOp,
    kind: SqlType,
    a: &Side,
    side: &BoundSide,
    tests: &mut Vec<ColumnTest>,
) -> Result<(), Memory>
    ensures { OnOk result (tests.new.items ≡ tests.old.items ++ spec.pair_tests op kind (test_side a.now) (spec.pair_of (values_of vars.now) side.now)) }
{
    if !is_as_it_is(a, kind, side.pair) {
        return Ok(());
    }
    let b = side_of(alloc, vars, &side.expr)?;
    push_sides(alloc, op, a, &b, tests)
}

/// Adds that of two sides, unless they are compared by `<>`.
fn push_compared(
    alloc: Global,
    op: CompareOp,
    a: &Side,
    b: &Side,
    tests: &mut Vec<ColumnTest>,
) -> Result<(), Memory>
    ensures { OnOk result (tests.new.items ≡ tests.old.items ++ spec.compare_tests op (test_side a.now) (test_side b.now)) }
{
    match op {
        CompareOp::NotEqual => Ok(()),
        CompareOp::Equal => push_sides(alloc, op, a, b, tests),
        CompareOp::Less => push_sides(alloc, op, a, b, tests),
        CompareOp::LessEqual => push_sides(alloc, op, a, b, tests),
        CompareOp::Greater => push_sides(alloc, op, a, b, tests),
        CompareOp::GreaterEqual => push_sides(alloc, op, a, b, tests),
    }
}

/// Adds that of two sides, where one is a column and the other a constant or a variable.
fn push_sides(
    alloc: Global,
    op: CompareOp,
    a: &Side,
    b: &Side,
    tests: &mut Vec<ColumnTest>,
) -> Result<(), Memory>
    ensures { OnOk result (tests.new.items ≡ tests.old.items ++ spec.side_tests op (test_side a.now) (test_side b.now)) }
{
    match a {
        Side::Column(column) => push_value(alloc, op, *column, b, tests),
        Side::Literal(value) => push_column(alloc, op, value, b, tests),
        Side::Variable(value) => push_column(alloc, op, value, b, tests),
        Side::Other => Ok(()),
    }
}

/// Adds that of a column and what stands on the right.
fn push_value(
    alloc: Global,
    op: CompareOp,
    column: u16,
    side: &Side,
    tests: &mut Vec<ColumnTest>,
) -> Result<(), Memory>
    ensures { OnOk result (tests.new.items ≡ tests.old.items ++ spec.side_tests op (spec.column column) (test_side side.now)) }
{
    match side {
        Side::Literal(value) => push_one(alloc, column, op, value, tests),
        Side::Variable(value) => push_one(alloc, column, op, value, tests),
        Side::Column(_) => Ok(()),
        Side::Other => Ok(()),
    }
}

/// Adds that of a constant or a variable and what stands on the right; a column there stands on the left.
fn push_column(
    alloc: Global,
    op: CompareOp,
    value: &Value,
    side: &Side,
    tests: &mut Vec<ColumnTest>,
) -> Result<(), Memory>
    ensures { OnOk result (tests.new.items ≡ tests.old.items ++ spec.side_tests op (spec.literal value.now) (test_side side.now)) }
{
    match side {
        Side::Column(column) => push_one(alloc, *column, mirror_of(op), value, tests),
        Side::Literal(_) => Ok(()),
        Side::Variable(_) => Ok(()),
        Side::Other => Ok(()),
    }
}

/// Adds one.
fn push_one(
    alloc: Global,
    column: u16,
    op: CompareOp,
    value: &Value,
    tests: &mut Vec<ColumnTest>,
) -> Result<(), Memory>
    ensures { OnOk result (tests.new.items ≡ tests.old.items ++ spec.one_test column op value.now) }
{
    let value = value.copy(alloc)?;
    tests.push(ColumnTest { column, op, value })?;
    Ok(())
}

/// The rows of an image that are read for a reference, whose first column has a place among all; the right
/// side of a LEFT JOIN is read whole.
pub(crate) fn rows_read(
    alloc: Global,
    key: &[u16],
    first: u32,
    tests: &[ColumnTest],
    kind: JoinKind,
    image: &[Row],
) -> Result<Vec<Row>, Memory>
    ensures { IfOk result (λ rows. rows.items ≡ spec.rows_read key.now first tests.now kind image.now) }
{
    match kind {
        JoinKind::Left => copies(alloc, image),
        JoinKind::Inner => rows_of_key(alloc, key, first, tests, image),
        JoinKind::Cross => rows_of_key(alloc, key, first, tests, image),
    }
}

/// The same rows.
fn copies(alloc: Global, rows: &[Row]) -> Result<Vec<Row>, Memory>
    ensures { IfOk result (λ copies. copies.items ≡ rows.now) }
{
    let mut copies = Vec::with_capacity(alloc, rows.len())?;
    for row in rows {
        copies.push(row.copy(alloc)?)?;
    }
    Ok(copies)
}

/// The rows of an image that meet the key tests of a reference.
fn rows_of_key(
    alloc: Global,
    key: &[u16],
    first: u32,
    tests: &[ColumnTest],
    image: &[Row],
) -> Result<Vec<Row>, Memory>
    ensures { IfOk result (λ rows. rows.items ≡ filter (λ row. list_all (spec.meets row) (spec.key_tests key.now first tests.now)) image.now) }
{
    let own = tests_of_key(alloc, key, first, tests)?;
    rows_meeting(alloc, own.as_slice(), image)
}

/// The rows that meet all of some tests.
fn rows_meeting(alloc: Global, tests: &[ColumnTest], rows: &[Row]) -> Result<Vec<Row>, Memory>
    ensures { IfOk result (λ found. found.items ≡ filter (λ row. list_all (spec.meets row) tests.now) rows.now) }
{
    let mut found = Vec::new(alloc);
    for row in rows {
        if meets_all(row, tests) {
            found.push(row.copy(alloc)?)?;
        }
    }
    Ok(found)
}

/// Of tests those of a key's columns, with each column counted among the reference's own.
pub fn tests_of_key(
    alloc: Global,
    key: &[u16],
    first: u32,
    tests: &[ColumnTest],
) -> Result<Vec<ColumnTest>, Memory>
    ensures { IfOk result (λ found. found.items ≡ spec.key_tests key.now first tests.now) }
{
    let mut found = Vec::new(alloc);
    for test in tests {
        if is_of_key(key, first, test.column) {
            found.push(own_test(alloc, first, test)?)?;
        }
    }
    Ok(found)
}

/// Whether a column is one of a key, whose reference's first column has a place among all.
fn is_of_key(key: &[u16], first: u32, column: u16) -> bool
    ensures { result ≡ list_any (λ place. nat_eq column (first + place)) key.now }
{
    key.iter().any(|place| u64::from(column) == u64::from(first) + u64::from(*place))
}

/// A test with its column counted among the reference's own.
fn own_test(alloc: Global, first: u32, test: &ColumnTest) -> Result<ColumnTest, Memory>
    ensures { IfOk result (λ own. own ≡ spec.own_test first test.now) }
{
    Ok(ColumnTest {
        column: u32::from(test.column).saturating_sub(first) as u16,
        op: test.op,
        value: test.value.copy(alloc)?,
    })
}

/// Whether a row meets all of some tests.
fn meets_all(row: &Row, tests: &[ColumnTest]) -> bool
    ensures { result ≡ list_all (spec.meets row.now) tests.now }
{
    tests.iter().all(|test| meets(row, test))
}

/// Whether a row meets a test; what is NULL meets none.
fn meets(row: &Row, test: &ColumnTest) -> bool
    ensures { result ≡ spec.meets row.now test.now }
{
    match row.as_slice().get(usize::from(test.column)) {
        Some(value) => holds(test.op, value, &test.value),
        None => holds(test.op, &Value::Null, &test.value),
    }
}

/// Whether a comparison is true.
fn holds(op: CompareOp, a: &Value, b: &Value) -> bool
    ensures { result ≡ is_true (comparisons.order_truth op (comparisons.order_of a.now b.now)) }
{
    match order_of(a, b) {
        Some(order) => allows(op, order),
        None => false,
    }
}

/// How two values of one kind compare; values of two kinds don't.
fn order_of(a: &Value, b: &Value) -> Option<Ordering>
    ensures { result ≡ comparisons.order_of a.now b.now }
{
    match (a, b) {
        (Value::Whole(_), Value::Whole(_))
        | (Value::Bit(_), Value::Bit(_))
        | (Value::Text(_), Value::Text(_)) => compare(a, b),
        _ => None,
    }
}

/// Whether an order is one that the comparison allows.
fn allows(op: CompareOp, order: Ordering) -> bool
    ensures { result ≡ comparisons.allows op order }
{
    match op {
        CompareOp::Equal => order.is_eq(),
        CompareOp::NotEqual => order.is_ne(),
        CompareOp::Less => order.is_lt(),
        CompareOp::LessEqual => order.is_le(),
        CompareOp::Greater => order.is_gt(),
        CompareOp::GreaterEqual => order.is_ge(),
    }
}
