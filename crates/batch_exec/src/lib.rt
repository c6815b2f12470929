//! Batches run over any port: the statements of a batch one after another, those that hold others, those on
//! transactions, and what becomes of errors.
//!
//! What they mean stands in `batch_meaning`. The layer above relies on [`run_batch`], and for a call by RPC on
//! [`run_call`]: what is asked, and what comes of the replies, is the meaning of the batch, or a front of it where
//! memory is wanting. It asks of its caller
//! a session that agrees with its port on whether a transaction is open, as `SessionState::new` does with an
//! idle one. What a text is read as is told by `batch_forms`. Only tests show that memory is not
//! said to be wanting where there is enough.
#![tactic(auto)]

mod batch;
mod calls;
mod errors;
mod firing;
mod looping;
mod options;
mod returning;
mod rpc;
mod running;
mod simple;
mod transactions;
mod unseen;

pub use batch::run_batch;
pub use errors::roll_back_open;
pub use rpc::run_call;
