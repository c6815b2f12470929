//! The value of a bound expression, and what a bound test says, on one row.
//!
//! `specs/Lib.antt` says in which order to read. The layers above rely on [`eval`] and [`test`]
//! giving exactly what `value` and `truth` of `bound_tree` say, with the first error from the left,
//! of every tree over every scope; nothing is asked of either. That a well-formed tree's value is of
//! its type is a law of `bound_tree`. No clause says that numbers and tests on numbers take no
//! memory, that a text is copied once where it is used, or that want of memory is not answered where
//! there is memory. Both recurse as deep as the tree is.
//!
//! ```text
//! eval(alloc, &sum(2147483647, 1), &scope) == Err(EvalFault::Number(8115))
//! ```
#![tactic(auto)]

mod comparison;
mod evaluation;
mod fault;
mod numbers;
mod operand;
mod scope;

pub use evaluation::{eval, test};
pub use fault::EvalFault;
pub use scope::Scope;
