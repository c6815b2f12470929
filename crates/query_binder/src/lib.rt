//! What an expression, a test and a select are bound to.
//!
//! Each type of tree has one function over its node, in which each part is replaced by what it is bound to:
//! `expr_of`, `test_of` and `query_of` of `clause_binder`, which also says what is made of the parts. The layers above
//! rely on a [`Binder`] giving exactly that: the bound tree and what is known of it, what is gathered on the way, or
//! the first refusal, with its number and the name in its text.
//!
//! Nothing is asked of a caller. Only tests show that want of memory is not answered where there is memory.
#![tactic(auto)]

mod and_next;
mod binder;
mod expr;
mod inside;
mod query;
mod select;
mod shape;
mod test;

pub use binder::Binder;
