//! Tests of the crates below the server, of what no row can say: adapters whose reader or writer fails once, the same messages in
//! pieces of any size, and sources and sinks that fail at each call, are full or want memory.
#![tactic(auto)]

#[cfg(test)]
mod adapters;
#[cfg(test)]
mod reading;
#[cfg(test)]
mod sending;

/// The crate has tests alone.
pub fn nothing() {}
