//! Lists of rows and of values: equal rows, rows in order, and what aggregates make of values.
//!
//! `specs/Lib.antt` says in which order to read. The layer above relies on [`classes`], [`distinct`]
//! and [`distinct_pairs`] giving the classes and the first of equal rows, in the order of the list; on [`ordered`] giving rows in
//! the order of their keys, with ties as they were, which [`law_in_order`] says of its definition; and on
//! [`total`] being exact, with a fault where the exact total is not of its type. It asks that fewer than
//! 2^31 rows are put into classes. No clause says that each takes n log n steps; that want of memory is
//! not answered where there is memory, only tests show.
#![tactic(auto)]

mod aggregate;
mod equals;
mod fault;
mod fewer;
mod in_order;
mod keyed;
mod laws;
mod order;

pub use aggregate::total;
pub use equals::{classes, distinct, distinct_pairs};
pub use fault::GroupFault;
pub use fewer::{Spot, push_pair};
pub use in_order::ordered;
pub use laws::law_in_order;
