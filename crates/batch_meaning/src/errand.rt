//! A call by RPC as it is run.

use rpc_requests::RpcParameters;
use value_types::Units;

/// How the procedure of a call is found.
#[derive(Drop)]
pub enum Way {
    /// It is looked up by this name.
    LooksUp(Units),
    /// It is what was read; so many parameters in front are not its.
    RunsRead(u8),
    /// What was read runs as a batch.
    RunsBatch,
    /// None is run: that the text reads is all.
    Tells,
    /// None: the arguments are none that the procedure takes.
    Unmatched,
    /// None: nothing is kept under the handle that is written so.
    Unknown(Units),
}

/// A call as it is run.
#[derive(Drop)]
pub struct Errand {
    /// How its procedure is found.
    pub way: Way,
    /// Its arguments.
    pub parameters: RpcParameters,
    /// The text that is read for it.
    pub text: Option<Units>,
}
