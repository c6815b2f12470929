//! The payload of an RPC request of [MS-TDS], which calls a procedure: read and written.
//!
//! `specs/Lib.antt` says in which order to read: the bytes that a client sends for a call, which
//! calls have such bytes, what a payload says as a call or the first field that is refused, and
//! which payloads spell a call. The layer above may rely on [`read_rpc`] giving exactly the call
//! that the payload spells, or the first refused field and its offset; it asks for a payload below
//! 4 GiB, and messages are at most 1 MiB. [`write_rpc`] appends the bytes of a call, which behind
//! any headers are read as that call again ([`law_written_call`]); its names have at most 128
//! units, its texts a size from 1 to 4,000, and its values are NULL or of their types. What is read
//! can be written, unless the procedure's name is longer ([`law_read_call`]).
//! [`read_driver_call`] reads calls as drivers spell them instead, with the procedures that prepare
//! statements and texts of every kind: exactly the call that `specs/Drivers.antt` says, or the first
//! refused field and its offset.
//!
//! ```text
//! let call = read_rpc(alloc, payload)?;
//! let mut out = headers;
//! write_rpc(&call, &mut out)?;
//! ```
#![tactic(auto)]

mod call;
mod driver_types;
mod driver_values;
mod drivers;
mod fault;
mod fields;
mod reading;
mod types;
mod values;
mod windows;
mod writing;

pub use call::{
    DriverCall, DriverProcedure, DriverTarget, RpcCall, RpcParameter, RpcParameters, RpcTarget,
};
pub use drivers::read_driver_call;
pub use fault::{RpcFault, RpcKind};
pub use reading::{law_read_call, law_written_call, read_rpc};
pub use writing::write_rpc;
