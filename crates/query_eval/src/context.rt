//! Expressions and tests at a row of a query.

ghost use Rattle.std.specs.Prelude.{◌≡◌};
ghost use Rattle.bound_tree.specs.Meaning as meaning;
ghost use Rattle.scalar_eval.specs.Scopes.{setting_of};
ghost use Rattle.query_eval.specs.Found.{Finds, setting_at};

use crate::fault::Stop;
use bound_tree::{BoundExpr, BoundTest, SystemValues, Table, Truth};
use scalar_eval::{EvalFault, Scope, eval, test};
use session_vars::Vars;
use std::alloc::Global;
use value_types::{Row, Value};

/// What the expressions of a query read beside its rows.
#[derive(Clone, Copy)]
pub(crate) struct Context<'a> {
    /// The variables.
    pub(crate) vars: &'a Vars,
    /// The values of the session.
    pub(crate) system: &'a SystemValues,
    /// The answers of the inner queries, in the order of the text.
    pub(crate) inner: &'a [Table],
}

impl Context<'_> {
    /// What an expression reads at a row.
    fn at<'b>(&'b self, row: &'b Row) -> Scope<'b>
        ensures { setting_of result ≡ setting_at self.now row.now }
    {
        Scope {
            row,
            vars: &*self.vars,
            system: &*self.system,
            inner: &*self.inner,
        }
    }

    /// What an expression gives at a row.
    pub(crate) fn value(&self, alloc: Global, expr: &BoundExpr, row: &Row) -> Result<Value, Stop>
        ensures { Finds result (meaning.value (setting_at self.now row.now) expr.now) }
    {
        match eval(alloc, expr, &self.at(row)) {
            Ok(value) => Ok(value),
            Err(EvalFault::Number(number)) => Err(Stop::Number(number)),
            Err(EvalFault::Named { number, .. }) => Err(Stop::Number(number)),
            Err(EvalFault::Memory) => Err(Stop::Memory),
        }
    }

    /// What a test says at a row.
    pub(crate) fn truth(&self, alloc: Global, of: &BoundTest, row: &Row) -> Result<Truth, Stop>
        ensures { Finds result (meaning.truth (setting_at self.now row.now) of.now) }
    {
        match test(alloc, of, &self.at(row)) {
            Ok(truth) => Ok(truth),
            Err(EvalFault::Number(number)) => Err(Stop::Number(number)),
            Err(EvalFault::Named { number, .. }) => Err(Stop::Number(number)),
            Err(EvalFault::Memory) => Err(Stop::Memory),
        }
    }
}
