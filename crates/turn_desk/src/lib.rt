//! A desk at which sessions on threads step one machine, one at a time.
//!
//! Read `specs/Seats.antt` and `specs/Acts.antt` first, then the laws of [`Machine`]. The layers
//! above rely on [`Desk::act`] making exactly one step of the machine that stands at the desk, which
//! knows all that was done by this seat, and on [`Desk::close`] giving that machine back, which
//! knows what was done by each. A caller owes a machine with its laws, seats of this desk, and calls
//! that are ready. That threads wait their turn without keeping the cores busy, and that they ever
//! get it, is tested and not proved.
//!
//! ```text
//! let (desk, mut seats) = Desk::start(alloc, machine, 2)?;
//! let reply = desk.act(&rt, &mut seats[0], &call);
//! let machine = desk.close(seats);
//! ```
#![tactic(auto)]

mod desk;
mod machine;
mod machine_box;
mod rule;
mod seat;
mod turns;
mod view;

pub use desk::Desk;
pub use machine::Machine;
pub use seat::{Seat, law_within};
