//! The rules of a call: whose the arguments of an EXEC are, what the parameters take and what is written
//! back; which triggers a statement fires, and which rows they see.
//!
//! `specs/Lib.antt` says in which order to read. The layers above rely on [`match_arguments`],
//! [`outputs_of`], [`triggers_for`] and [`trigger_images`] answering exactly what stands there. They ask
//! that each variable that an argument names is declared, which [`are_declared`] tests, that there are
//! fewer than 2^31 definitions, and that a key has one to eight columns. No clause says that each takes
//! n log n steps; that want of memory is not answered where there is memory, only tests show.
#![tactic(auto)]

mod arguments;
mod fault;
mod images;
mod key_order;
mod matching;
mod triggers;

pub use arguments::{Output, are_declared, match_arguments, outputs_of};
pub use fault::CallFault;
pub use images::trigger_images;
pub use triggers::triggers_for;
