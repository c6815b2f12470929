//! One connection over a port: its messages read, its login judged, its batches and calls run, its responses sent.
//!
//! Read `specs/Lib.antt`: it names the definitions in order. The layer above relies on [`serve_on_port`],
//! whatever stands behind the port, the source and the sink: every byte written and every operation asked
//! is what the messages mean, up to the end that is answered, and no transaction is open then. It asks of
//! its caller that the port is the session's own, with no transaction open. Only tests show that memory
//! is not said to be wanting where there is enough.
#![tactic(auto)]

mod batches;
mod calls;
mod end;
mod message;
mod prepared;
mod requests;
mod response;
mod serving;

pub use end::{BatchFault, End};
pub use serving::serve_on_port;
