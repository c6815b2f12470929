//! A session's state of transactions: how many are open in one another, the doom, the serial number and
//! name of the outermost, and the savepoints.
//!
//! `specs/Lib.antt` says in which order to read. The layers above rely on each call of [`TxnState`]
//! making of the state exactly what `specs/State.antt` says, and being refused exactly by its errors.
//! They ask that fewer than 2147483647 transactions are open before another begins, and set the doom
//! themselves. Only tests show that want of memory is not answered where there is memory.
#![tactic(auto)]

mod savepoints;
mod state;

pub use savepoints::{Savepoint, Savepoints};
pub use state::{BackKind, TxnFault, TxnState};
