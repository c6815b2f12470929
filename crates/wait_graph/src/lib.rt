//! Who waits for whom: whether sessions that wait stand in a cycle, and which of them falls as its victim.
//!
//! Read the files Cycles and Victims in the definitions of `step_model`. The layers above may rely on [`cycle_through`] finding a
//! cycle through a session exactly where the edges have one, and on [`victim`] being the one of it that the rules
//! choose. Both take edges and ranks as they are given; whether they stand is the caller's to know. That the
//! search looks at each edge once, as long as sessions have the numbers from 1 to 64, no clause says.
#![tactic(auto)]

mod cycle;
mod holders;
mod rank;
mod trail;

pub use cycle::cycle_through;
pub use rank::victim;
pub use step_model::Rank;
