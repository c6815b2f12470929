//! Tests of a connection over a port, of what no row can say: a source or a sink that fails at each call, what each statement asks
//! of its port and what it tells where the port refuses that, for want of memory, for a lock, or since the session has fallen, or
//! answers with a row that is none of the table; and the limit of a range.
#![tactic(auto)]

#[cfg(test)]
mod asked;
#[cfg(test)]
mod counting;
#[cfg(test)]
mod faults;
#[cfg(test)]
mod limits;
#[cfg(test)]
mod messages;
#[cfg(test)]
mod served;
#[cfg(test)]
mod watched;

/// The crate has tests alone.
pub fn nothing() {}
