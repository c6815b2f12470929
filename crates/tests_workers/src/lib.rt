//! Tests of connections served at once, on threads: by a hall with a source that waits for what the other connection is answered, so
//! that a body which serves one connection behind another does not pass; and of doors that fail.
#![tactic(auto)]

#[cfg(test)]
mod at_once;
mod gated;

pub use gated::{Floor, GatedDoor, GatedHall, GatedSource, KeptSink};
