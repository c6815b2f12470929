//! The range of a reference.

ghost use Rattle.std.specs.Prelude.{◌≡◌, ◌≤◌, ◌++◌, ◌∷◌, [], length, IfOk};
ghost use Rattle.std.specs.Option.{option_map};
ghost use Rattle.scalar_eval.specs.Scopes.{values_of};
ghost use Rattle.range_plan.specs.RangeOf as spec;

use bound_tree::{BoundTest, CompareOp};
use query_eval::{ColumnTest, tests_of_key, where_tests};
use session_vars::Vars;
use std::alloc::Global;
use step_model::{KeyRange, Start, Stop};
use value_types::{KEY_LIMIT, Key, Memory, TableName, Value};

/// The range on which a write's target is fetched, or a reference that is no right side of a LEFT JOIN, whose key has columns at
/// these places and whose first column has a place among all. A range that begins or ends at more values than a key has is not made, for which memory is wanting.
pub fn plan_range(
    alloc: Global,
    filter: &Option<BoundTest>,
    first: u32,
    table: &TableName,
    key: &[u16],
    vars: &Vars,
) -> Result<KeyRange, Memory>
    ensures { IfOk result (λ range. range ≡ spec.RangeOf filter.now first table.now key.now (values_of vars.now)) }
{
    let tests = where_tests(alloc, vars, filter)?;
    let own = tests_of_key(alloc, key, first, tests.as_slice())?;
    range_with(alloc, table, key, own.as_slice())
}

/// The range of a table, by the tests of its key.
pub(crate) fn range_with(
    alloc: Global,
    table: &TableName,
    key: &[u16],
    tests: &[ColumnTest],
) -> Result<KeyRange, Memory>
    ensures { IfOk result (λ range. range ≡ spec.range_with table.now (spec.bounds_of key.now tests.now)) }
{
    let mut values = Vec::new(alloc);
    for place in key {
        match first_equal(tests, *place) {
            Some(test) => values.push(test.value.copy(alloc)?)?,
            None => return ends_at(alloc, table, values.as_slice(), *place, tests),
        }
    }
    Ok(KeyRange {
        table: table.copy(alloc)?,
        start: start_at(alloc, values.as_slice())?,
        stop: stop_within(alloc, values.as_slice())?,
    })
}

/// The range behind these values, where the next column has no test by `=`.
fn ends_at(
    alloc: Global,
    table: &TableName,
    values: &[Value],
    place: u16,
    tests: &[ColumnTest],
) -> Result<KeyRange, Memory>
    ensures { IfOk result (λ range. range ≡ spec.range_with table.now (spec.ends_at tests.now values.now place)) }
{
    Ok(KeyRange {
        table: table.copy(alloc)?,
        start: start_of(alloc, values, first_lower(tests, place))?,
        stop: stop_of(alloc, values, first_upper(tests, place))?,
    })
}

/// Where a range starts behind these values, by the first test of the next column that has a lower end.
fn start_of(alloc: Global, values: &[Value], test: Option<&ColumnTest>) -> Result<Start, Memory>
    ensures { IfOk result (λ start. start ≡ spec.start_of values.now (option_map (λ test. test.now) test.entry)) }
{
    match test {
        Some(test) => start_by(alloc, test.op, values, &test.value),
        None => start_at(alloc, values),
    }
}

/// The same by the operator of that test.
fn start_by(alloc: Global, op: CompareOp, values: &[Value], last: &Value) -> Result<Start, Memory>
    ensures { IfOk result (λ start. start ≡ spec.start_by op (values.now ++ last.now ∷ [])) }
{
    match op {
        CompareOp::Greater => Ok(Start::Past(key_with(alloc, values, last)?)),
        CompareOp::GreaterEqual => Ok(Start::At(key_with(alloc, values, last)?)),
        CompareOp::Equal => Ok(Start::At(key_with(alloc, values, last)?)),
        CompareOp::NotEqual => Ok(Start::First),
        CompareOp::Less => Ok(Start::First),
        CompareOp::LessEqual => Ok(Start::First),
    }
}

/// Where a range stops behind these values, by the first test of the next column that has an upper end.
fn stop_of(alloc: Global, values: &[Value], test: Option<&ColumnTest>) -> Result<Stop, Memory>
    ensures { IfOk result (λ stop. stop ≡ spec.stop_of values.now (option_map (λ test. test.now) test.entry)) }
{
    match test {
        Some(test) => Ok(Stop::Within(key_with(alloc, values, &test.value)?)),
        None => stop_within(alloc, values),
    }
}

/// At the keys that begin with these values; without one at every key.
fn start_at(alloc: Global, values: &[Value]) -> Result<Start, Memory>
    ensures { IfOk result (λ start. start ≡ spec.start_at values.now) }
{
    match values {
        [] => Ok(Start::First),
        [..] => Ok(Start::At(key_of(alloc, values)?)),
    }
}

/// Up to the keys that begin with these values; without one up to every key.
fn stop_within(alloc: Global, values: &[Value]) -> Result<Stop, Memory>
    ensures { IfOk result (λ stop. stop ≡ spec.stop_within values.now) }
{
    match values {
        [] => Ok(Stop::Last),
        [..] => Ok(Stop::Within(key_of(alloc, values)?)),
    }
}

/// The key of these values. Of more than a key has there is none.
fn key_of(alloc: Global, values: &[Value]) -> Result<Key, Memory>
    requires { 1 ≤ length values.now }
    ensures { IfOk result (λ key. key ≡ values.now) }
{
    if KEY_LIMIT < values.len() {
        return Err(Memory);
    }
    Ok(Key::new(copies(alloc, values)?))
}

/// The key of these values and one more.
fn key_with(alloc: Global, values: &[Value], last: &Value) -> Result<Key, Memory>
    ensures { IfOk result (λ key. key ≡ values.now ++ last.now ∷ []) }
{
    if KEY_LIMIT <= values.len() {
        return Err(Memory);
    }
    let mut more = copies(alloc, values)?;
    more.push(last.copy(alloc)?)?;
    Ok(Key::new(more))
}

/// The same values.
fn copies(alloc: Global, values: &[Value]) -> Result<Vec<Value>, Memory>
    ensures { IfOk result (λ copies. copies.items ≡ values.now) }
{
    let mut copies = Vec::with_capacity(alloc, values.len())?;
    for value in values {
        copies.push(value.copy(alloc)?)?;
    }
    Ok(copies)
}

/// The first test of a column by `=`.
fn first_equal(tests: &[ColumnTest], place: u16) -> Option<&ColumnTest>
    ensures { option_map (λ test. test.now) result ≡ spec.first_by spec.is_equal place tests.now }
{
    tests
        .iter()
        .find(|test| test.column == place && is_equal(test.op))
}

/// The first that has a lower end.
fn first_lower(tests: &[ColumnTest], place: u16) -> Option<&ColumnTest>
    ensures { option_map (λ test. test.now) result ≡ spec.first_by spec.is_lower place tests.now }
{
    tests
        .iter()
        .find(|test| test.column == place && is_lower(test.op))
}

/// The first that has an upper end.
fn first_upper(tests: &[ColumnTest], place: u16) -> Option<&ColumnTest>
    ensures { option_map (λ test. test.now) result ≡ spec.first_by spec.is_upper place tests.now }
{
    tests
        .iter()
        .find(|test| test.column == place && is_upper(test.op))
}

/// Whether an operator is `=`.
fn is_equal(op: CompareOp) -> bool
    ensures { result ≡ spec.is_equal op }
{
    match op {
        CompareOp::Equal => true,
        CompareOp::NotEqual => false,
        CompareOp::Less => false,
        CompareOp::LessEqual => false,
        CompareOp::Greater => false,
        CompareOp::GreaterEqual => false,
    }
}

/// Whether what lies below a value fails it.
fn is_lower(op: CompareOp) -> bool
    ensures { result ≡ spec.is_lower op }
{
    match op {
        CompareOp::Greater => true,
        CompareOp::GreaterEqual => true,
        CompareOp::Equal => false,
        CompareOp::NotEqual => false,
        CompareOp::Less => false,
        CompareOp::LessEqual => false,
    }
}

/// Whether what lies above a value fails it.
fn is_upper(op: CompareOp) -> bool
    ensures { result ≡ spec.is_upper op }
{
    match op {
        CompareOp::Less => true,
        CompareOp::LessEqual => true,
        CompareOp::Equal => false,
        CompareOp::NotEqual => false,
        CompareOp::Greater => false,
        CompareOp::GreaterEqual => false,
    }
}
