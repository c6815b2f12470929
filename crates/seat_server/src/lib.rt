//! Connections of many sessions at once, on one desk: each is served from a seat, by a worker on a thread.
//!
//! Read `specs/Lib.antt`: it names the definitions in order. The layer above relies on [`serve_connection`], whatever the other
//! seats of the desk do at once: one log of commits stands; every byte written is what the messages mean against it; each
//! commit of the session stands in it once, and keeps its database intact; and no transaction is left open. [`serve_workers`]
//! says so of each connection of a hall, and counts them; [`law_follow`] makes one stretch of connections one behind another;
//! and [`House`] keeps a desk with its seats, and says at its end that every database of the log is sound. That workers run at
//! once, that a turn is ever got and that who waits wakes is not claimed.
#![tactic(auto)]

mod connection;
mod house;
mod tally;
mod worker;
mod workers;

pub use connection::{law_follow, serve_connection};
pub use house::House;
pub use tally::Tally;
pub use workers::serve_workers;
