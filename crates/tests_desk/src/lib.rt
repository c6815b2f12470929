//! Tests of the desk with a machine that adds: acts in turn on one thread, want of memory, seats that
//! go to other threads and come back, and four threads at once.
//!
//! The machine stands beside the tests, since its definitions name its types. They are in
//! `specs/Adding.antt`, its laws in `specs/AddingLaws.antt`.
#![tactic(auto)]

mod adder;
#[cfg(test)]
mod in_turn;
#[cfg(test)]
mod on_threads;

pub use adder::{AddReply, Adder};
