//! A port over a desk: a session on a thread of its own asks the engine that all sessions share.
//!
//! Read `specs/Asked.antt` and `specs/SharedPort.antt`. The layers above rely on [`SharedPort`] as a port, on each
//! asking being steps of its seat alone, of which the last gives the reply, and on what the seat has done since an
//! entry fitting what the log has grown by. A caller owes a seat of this desk that waits for nobody. That a session
//! which waits sleeps, and that it is woken when it may go on, only tests show: nothing is claimed of the bell.
//!
//! ```text
//! let mut port = SharedPort::<R, E>::new(alloc, &rt, &desk, &bell, seat);
//! let reply = port.ask(&op, manner);
//! let seat = port.into_seat();
//! ```
#![tactic(auto)]

mod bell;
mod port;

pub use bell::Bell;
pub use port::{Entrance, SharedPort};
