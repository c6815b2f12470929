//! What an expression reads beside its own tree.

ghost use Rattle.std.specs.Prelude.{◌≡◌, map, MatchOption, Ok};
ghost use Rattle.value_types.specs.declared.value.Value.TheVariants.{Null};
ghost use Rattle.bound_tree.specs.Setting.{rows_at, scalar_of, value_at};
ghost use Rattle.scalar_eval.specs.Operands.{FindsOperand};
ghost use Rattle.scalar_eval.specs.Scopes.{inner_rows, setting_of, values_of};

use crate::fault::Stop;
use crate::operand::{Operand, lent_or_null};
use bound_tree::{SystemValues, Table};
use session_vars::Vars;
use value_types::{Row, Value};

/// What an expression reads beside its own tree.
#[derive(Clone, Copy)]
pub struct Scope<'a> {
    /// The row.
    pub row: &'a Row,
    /// The variables.
    pub vars: &'a Vars,
    /// The values of the session.
    pub system: &'a SystemValues,
    /// The answers of the inner queries, in the order of the text.
    pub inner: &'a [Table],
}

impl Scope<'_> {
    /// The same, lent for as long as this one.
    pub(crate) fn shorter(&self) -> Scope<'_>
        ensures { setting_of result ≡ setting_of self.now }
    {
        Scope {
            row: &*self.row,
            vars: &*self.vars,
            system: &*self.system,
            inner: &*self.inner,
        }
    }
}

/// The value at a place of a row, where there is one.
#[inline(always)]
pub(crate) fn cell(row: &Row, place: u16) -> Option<&Value>
    ensures { let found = value_at row.now place in
        MatchOption result (found ≡ Null) (λ value. found ≡ value.now) }
{
    row.as_slice().get(usize::from(place))
}

/// The value of the variable at a place, where there is one.
#[inline(always)]
pub(crate) fn variable(vars: &Vars, place: u16) -> Option<&Value>
    ensures { let found = value_at (values_of vars.now) place in
        MatchOption result (found ≡ Null) (λ value. found ≡ value.now) }
{
    if place < vars.count() {
        Some(vars.get(place))
    } else {
        None
    }
}

/// The rows of the inner query at a place; none where there is no such query.
pub(crate) fn rows(inner: &[Table], place: u16) -> &[Row]
    ensures { result.now ≡ rows_at (inner_rows inner.now) place }
{
    match inner.get(usize::from(place)) {
        Some(table) => table.rows.as_slice(),
        None => &[],
    }
}

/// The rows as one value: NULL where there is none.
pub(crate) fn scalar(rows: &[Row]) -> Result<Operand<'_>, Stop>
    ensures { FindsOperand result (scalar_of rows.now) }
{
    match rows {
        [] => Ok(Operand::Made(Value::Null)),
        [row] => Ok(lent_or_null(cell(row, 0))),
        _ => Err(Stop::Number(512)),
    }
}
