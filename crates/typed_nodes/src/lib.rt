//! The nodes of bound trees, with their types: each is made of parts that are bound, with the
//! conversions that its parts need.
//!
//! `specs/Lib.antt` says in which order to read. The layers above rely on each call making exactly
//! the node of its definition; nothing is asked of them. A tree that is deeper than [`MAX_DEPTH`] is left
//! out as soon as it is, and its [`Facts`] say so for good, so that nothing is ever built or dropped that
//! is much deeper. Only tests show that want of memory is not answered where there is memory.
#![tactic(auto)]

mod and_next;
mod expr;
mod facts;
mod fault;
mod test;

pub use expr::{
    TypedArm, TypedExpr, case_expr, cast_expr, coalesce_expr, infix_expr, is_null_expr,
    length_expr, null_if_expr,
};
pub use facts::{Facts, MAX_DEPTH, TOO_DEEP};
pub use fault::BindFault;
pub use test::{
    Junction, TypedTest, all_joined, between_test, compare_test, in_list_test, in_query_test,
    is_null_test,
};
