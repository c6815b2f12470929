//! Selects read by descent, with the expressions and tests in them.
//!
//! The layers above rely on that [`read_select`], [`read_test`], [`read_expr`] and their like go along
//! the lexemes that are left and give what reading by descent is (`Gives` of `lexeme_reader`); nothing
//! is asked of the caller. Memory may be wanting at any time, and a reader says the same of a text that
//! nests deeper than it may follow. That no text that was recognized does so is shown by tests alone.
//!
//! `knot.rt` ties the readers of `expr_reader` and of selects, so that no two of them call each other.
//! `specs/Parts.antt` names parts of productions; `proofs/SelectEquations.antt` says what is read of
//! each rule.
#![tactic(auto)]

mod item;
mod knot;
mod select;
mod source;

pub use knot::{read_expr, read_exprs, read_filter, read_select, read_test};
