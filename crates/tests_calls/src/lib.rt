//! The public calls that the program makes nowhere, each once with ample memory: what they answer is proved, and that they answer
//! is shown here. The others answer in the rows.
#![tactic(auto)]

#[cfg(test)]
mod modes;
#[cfg(test)]
mod outside;
#[cfg(test)]
mod ports;
#[cfg(test)]
mod replies;
#[cfg(test)]
mod trees;

/// The crate has tests alone.
pub fn nothing() {}
