//! The payload of a transaction manager request of [MS-TDS]: the text of the batch that it stands for,
//! or the first field that is refused.
//!
//! `specs/Lib.antt` says in which order to read: what a payload says as a request, and the text of a
//! request. The layer above may rely on [`transaction_text`] giving exactly that text, or the first
//! refused field and its offset; memory is wanting only where no field is refused. It asks for a
//! payload below 4 GiB, and messages are at most 1 MiB.
//!
//! ```text
//! match transaction_text(alloc, payload) {
//!     Ok(text) => run(text),
//!     Err(TransactionFault::Bad { at, kind }) => refuse(at, kind),
//!     Err(TransactionFault::Memory) => end(),
//! }
//! ```
#![tactic(auto)]

mod fault;
mod fields;
mod request;
mod text;

pub use fault::{TransactionFault, TransactionKind};
pub use text::transaction_text;
