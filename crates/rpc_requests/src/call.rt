//! A call of a procedure.

ghost use Rattle.std.specs.Prelude.{◌≡◌};

use std::marker::Model;
use value_types::{SqlType, Units, Value};

/// One argument of a call.
#[derive(Drop)]
pub struct RpcParameter {
    /// The name of the procedure's parameter, or nothing.
    pub name: Units,
    /// Whether its last value is to be told.
    pub output: bool,
    /// Whether it is not given, so that the procedure takes its default.
    pub missing: bool,
    /// The type of its value.
    pub kind: SqlType,
    /// Its value.
    pub value: Value,
}

/// Which procedure is called.
#[derive(Drop)]
pub enum RpcTarget {
    /// The procedure of this name.
    Named(Units),
    /// `sp_executesql`, by its number.
    ExecuteSql,
}

/// The arguments of a call, in order.
#[derive(Drop)]
pub struct RpcParameters {
    parameters: Vec<RpcParameter>,
}

impl Model for RpcParameters {
    ghost use Rattle.std.specs.Prelude.{List};
    ghost use Rattle.rpc_requests.specs.declared.call.RpcParameter.{RpcParameter as Parameter};

    ghost Value = { List Parameter };

    ghost view = { λ list. list.parameters.items };
}

impl From<Vec<RpcParameter>> for RpcParameters {
    ghost from_gives = { λ parameters list. list ≡ parameters.items };

    fn from(parameters: Vec<RpcParameter>) -> RpcParameters {
        RpcParameters { parameters }
    }
}

impl RpcParameters {
    /// The arguments in order.
    pub fn as_slice(&self) -> &[RpcParameter]
        ensures { result.now ≡ self.now }
    {
        self.parameters.as_slice()
    }

    /// The arguments in order, owned.
    pub fn into_vec(self) -> Vec<RpcParameter>
        ensures { result.items ≡ self }
    {
        self.parameters
    }
}

/// A call of a procedure.
#[derive(Drop)]
pub struct RpcCall {
    /// Which procedure.
    pub target: RpcTarget,
    /// Its arguments.
    pub parameters: RpcParameters,
}

/// A procedure of the server that drivers call.
#[derive(Clone, Copy)]
pub enum DriverProcedure {
    /// `sp_executesql`: runs a text.
    ExecuteSql,
    /// `sp_prepare`: keeps a text.
    Prepare,
    /// `sp_execute`: runs a text that was kept.
    Execute,
    /// `sp_prepexec`: keeps a text and runs it.
    PrepExec,
    /// `sp_unprepare`: keeps a text no longer.
    Unprepare,
    /// `sp_reset_connection`: makes the session as new.
    Reset,
}

/// What a driver calls.
#[derive(Drop)]
pub enum DriverTarget {
    /// The procedure of this name.
    Named(Units),
    /// A procedure of the server, by its number or its name.
    System(DriverProcedure),
}

/// A call as a driver spells it.
#[derive(Drop)]
pub struct DriverCall {
    /// What is called.
    pub target: DriverTarget,
    /// Its arguments.
    pub parameters: RpcParameters,
}
