//! The cursors of a connection: names, queries, and the rows that are still to come.
//!
//! `specs/Cursors.antt` says how they are seen: as the list of [`Cursor`]s in the order in which they were
//! declared. The layers above rely on each call of [`Cursors`] making of the list exactly what stands there
//! for it, and on being refused exactly as stands there. They ask that rows are of the types that they are
//! given with. Only [`Cursors::declare`] takes memory, and after its want nothing has changed; that it is
//! not answered where there is memory, only tests show.
#![tactic(auto)]

mod cursor;
mod cursors;
mod fault;

pub use cursor::{Answer, Cursor};
pub use cursors::Cursors;
pub use fault::{CursorFault, number_of};
