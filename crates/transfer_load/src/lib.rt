//! The command `load`: accounts, transfers between them by many workers at once, and what is counted of the replies.
//!
//! Read `specs/Lib.antt`: it names the definitions in order. The layer above relies on [`load`]: what its seats served were the
//! batches of the load's texts, which are messages ([`law_batches`]), and what is printed is read off the replies to them, which are
//! one list ([`law_one_reading`]) and the tokens of the responses that were made ([`law_responses`]). It asks of its caller a house
//! with all its seats. That no transfer is refused, and that the total stays the same, is shown by tests alone.
#![tactic(auto)]

mod batches;
mod command;
mod connection;
mod hall;
mod laws;
mod replies;
mod summary;
mod transfers;

pub use command::load;
pub use laws::{law_batches, law_one_reading, law_responses};
