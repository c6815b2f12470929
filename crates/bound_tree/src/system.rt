//! The values of the session that an expression may name.

ghost use Rattle.std.specs.Prelude.{◌≡◌, length};
ghost use Rattle.bound_tree.specs.Setting.{system_place, value_at};
ghost use Rattle.bound_tree.specs.Typed.{AreOf, system_kinds};

use std::marker::Model;
use value_types::Value;

/// A value of the session.
#[derive(Clone, Copy, PartialEq, Eq)]
pub enum SystemValue {
    /// `@@TRANCOUNT`
    TranCount,
    /// `@@ERROR`
    Error,
    /// `@@ROWCOUNT`
    RowCount,
    /// `@@FETCH_STATUS`
    FetchStatus,
    /// `XACT_STATE()`
    XactState,
    /// `ERROR_NUMBER()`
    ErrorNumber,
    /// `ERROR_SEVERITY()`
    ErrorSeverity,
    /// `ERROR_STATE()`
    ErrorState,
    /// `ERROR_LINE()`
    ErrorLine,
    /// `ERROR_MESSAGE()`
    ErrorMessage,
    /// `ERROR_PROCEDURE()`
    ErrorProcedure,
}

impl SystemValue {
    /// Its place in [`SystemValues`].
    pub fn place(self) -> usize
        ensures { result ≡ system_place self }
    {
        match self {
            SystemValue::TranCount => 0,
            SystemValue::Error => 1,
            SystemValue::RowCount => 2,
            SystemValue::FetchStatus => 3,
            SystemValue::XactState => 4,
            SystemValue::ErrorNumber => 5,
            SystemValue::ErrorSeverity => 6,
            SystemValue::ErrorState => 7,
            SystemValue::ErrorLine => 8,
            SystemValue::ErrorMessage => 9,
            SystemValue::ErrorProcedure => 10,
        }
    }
}

/// The values of the session, one for each [`SystemValue`], in that order, each NULL or of its type.
#[derive(Drop)]
pub struct SystemValues {
    values: Vec<Value>,
}

impl Model for SystemValues {
    ghost use Rattle.std.specs.Prelude.{◌≡◌, List, length};
    ghost use Rattle.value_types.specs.declared.value.Value.{Value as SqlValue};
    ghost use Rattle.bound_tree.specs.Typed.{AreOf, system_kinds};

    ghost Value = { List SqlValue };

    ghost view = { λ system. system.values.items };

    ghost invariant = { λ system. (length system.values.items ≡ length system_kinds)
        × AreOf system_kinds system.values.items };
}

impl SystemValues {
    /// These values, of which there are eleven.
    pub fn new(values: Vec<Value>) -> SystemValues
        requires count { length values.items ≡ length system_kinds }
        requires typed { AreOf system_kinds values.items }
        ensures { result ≡ values.items }
    {
        SystemValues { values }
    }

    /// The value.
    pub fn get(&self, of: SystemValue) -> &Value
        ensures { result.now ≡ value_at self.now (system_place of) }
    {
        &self.values[of.place()]
    }

    /// Each value is NULL or of its type.
    pub fn law_typed(&self)
        ensures { AreOf system_kinds self.now }
    {
        let _ = &self.values;
    }
}
