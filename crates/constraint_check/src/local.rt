//! NOT NULL and CHECK, which say something of a row alone.

ghost use Rattle.std.specs.Prelude.{◌≡◌, IfOk, map, option_map, Some, Err};
ghost use Rattle.std.specs.List.{list_any};
ghost use Rattle.value_types.specs.Units.{same_units};
ghost use Rattle.value_types.specs.declared.value.Value.TheVariants.{Null};
ghost use Rattle.bound_tree.specs.Meaning.{is_null, truth};
ghost use Rattle.bound_tree.specs.Typed.{system_kinds};
ghost use Rattle.scalar_eval.specs.Scopes.{setting_of};
ghost use Rattle.scalar_eval.specs.declared.fault.EvalFault.TheVariants.{Named};
ghost use Rattle.constraint_check.specs.Answers.{Finds};
ghost use Rattle.constraint_check.specs.Local as spec;

use bound_tree::{BoundTest, SystemValues, Truth};
use scalar_eval::{EvalFault, Scope, test};
use session_vars::Vars;
use std::alloc::Global;
use tsql_tree::{CheckTree, ColumnTree, KeyTree, TableTree};
use value_types::{Memory, Row, Units, Value};

/// A column takes no NULL.
const NULL_REFUSED: i32 = 515;

/// A CHECK is false, a row has no parent, or a row's parent is gone.
pub(crate) const CONFLICT: i32 = 547;

/// The first thing that is wrong with rows of a table, in their order: 515 with the name of the column for a NULL that
/// it does not take; where there is none, 547 with the name of the first CHECK that is false, or the number of the
/// error that one gives. `checks` are what the table's CHECKs are bound to, in their order.
pub fn first_local(
    alloc: Global,
    rows: &[Row],
    shape: &TableTree,
    checks: &[BoundTest],
) -> Result<(), EvalFault>
    ensures { Finds result (spec.first_local rows.now shape.now checks.now) }
{
    all_known(alloc, rows, shape)?;
    all_hold(alloc, rows, shape.checks.as_slice(), checks)
}

/// That no column of any row has a NULL that it does not take.
fn all_known(alloc: Global, rows: &[Row], shape: &TableTree) -> Result<(), EvalFault>
    ensures { Finds result (spec.first_given (spec.null_fault shape.now) rows.now) }
{
    for row in rows {
        known(alloc, row, shape)?;
    }
    Ok(())
}

/// That no column of a row has a NULL that it does not take.
fn known(alloc: Global, row: &Row, shape: &TableTree) -> Result<(), EvalFault>
    ensures { Finds result (spec.null_fault shape.now row.now) }
{
    match null_in(row, shape) {
        Some(name) => Err(named(alloc, NULL_REFUSED, name)),
        None => Ok(()),
    }
}

/// The error of this number, which names something.
fn named(alloc: Global, number: i32, name: &Units) -> EvalFault
    ensures { Finds (Err result) (Some (Named number name.now)) }
{
    match name.copy(alloc) {
        Ok(name) => EvalFault::Named { number, name },
        Err(Memory) => EvalFault::Memory,
    }
}

/// The name of the first column that takes no NULL and has one.
fn null_in<'a>(row: &Row, shape: &'a TableTree) -> Option<&'a Units>
    ensures { option_map (λ name. name.now) result ≡ spec.null_in shape.now row.now }
{
    let mut rest = row.as_slice();
    for column in shape.columns.as_slice() {
        let [value, others @ ..] = rest else {
            return None;
        };
        if is_null(value) && is_required(column, shape) {
            return Some(&column.name);
        }
        rest = others;
    }
    None
}

fn is_null(value: &Value) -> bool
    ensures { result ≡ is_null value.now }
{
    matches!(value, Value::Null)
}

/// Whether a column takes no NULL: NOT NULL stands, or it is one of the PRIMARY KEY.
fn is_required(column: &ColumnTree, shape: &TableTree) -> bool
    ensures { result ≡ spec.is_required shape.now column.now }
{
    column.required || is_of_key(&column.name, shape.key.as_slice())
}

fn is_of_key(name: &Units, keys: &[KeyTree]) -> bool
    ensures { result ≡ list_any (λ key. list_any (same_units name.now) key.columns) keys.now }
{
    keys.iter()
        .any(|key| is_named(name, key.columns.as_slice()))
}

fn is_named(name: &Units, names: &[Units]) -> bool
    ensures { result ≡ list_any (same_units name.now) names.now }
{
    names.iter().any(|other| *name == *other)
}

/// That no CHECK of any row is false or fails.
fn all_hold(
    alloc: Global,
    rows: &[Row],
    checks: &[CheckTree],
    tests: &[BoundTest],
) -> Result<(), EvalFault>
    ensures { Finds result (spec.first_given (spec.broken_among checks.now tests.now) rows.now) }
{
    let Ok(system) = no_values(alloc) else {
        return Err(EvalFault::Memory);
    };
    let vars = Vars::new(alloc);
    for row in rows {
        let scope = Scope {
            row,
            vars: &vars,
            system: &system,
            inner: &[],
        };
        hold(alloc, &scope, checks, tests)?;
    }
    Ok(())
}

/// The values of a session that has none.
fn no_values(alloc: Global) -> Result<SystemValues, Memory>
    ensures { IfOk result (λ values. values ≡ map (λ kind. Null) system_kinds) }
{
    let values = vec![in alloc;
        Value::Null,
        Value::Null,
        Value::Null,
        Value::Null,
        Value::Null,
        Value::Null,
        Value::Null,
        Value::Null,
        Value::Null,
        Value::Null,
        Value::Null,
    ]?;
    Ok(SystemValues::new(values))
}

/// That no CHECK of a row is false or fails.
fn hold(
    alloc: Global,
    scope: &Scope<'_>,
    checks: &[CheckTree],
    tests: &[BoundTest],
) -> Result<(), EvalFault>
    requires alone { setting_of scope.now ≡ spec.row_setting scope.now.row.now }
    ensures { Finds result (spec.broken_among checks.now tests.now scope.now.row.now) }
{
    let mut rest = tests;
    for check in checks {
        let [test, others @ ..] = rest else {
            return Ok(());
        };
        holds(alloc, scope, check, test)?;
        rest = others;
    }
    Ok(())
}

/// That a CHECK of a row is not false and does not fail.
fn holds(
    alloc: Global,
    scope: &Scope<'_>,
    check: &CheckTree,
    of: &BoundTest,
) -> Result<(), EvalFault>
    requires alone { setting_of scope.now ≡ spec.row_setting scope.now.row.now }
    ensures { Finds result (spec.check_fault check.now.name (truth (spec.row_setting scope.now.row.now) of.now)) }
{
    match test(alloc, of, scope) {
        Ok(Truth::False) => Err(named(alloc, CONFLICT, &check.name)),
        Ok(Truth::Unknown) => Ok(()),
        Ok(Truth::True) => Ok(()),
        Err(fault) => Err(fault),
    }
}
