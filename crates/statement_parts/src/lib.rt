//! Statements that hold expressions, and no statement, read by the grammar of `tsql_grammar`.
//!
//! Read `specs/Forms.antt` first: what is read behind the first word of a statement. Each function goes
//! along [`Lexemes`](lexeme_reader::Lexemes) and gives what reading by descent is, as `Gives` of
//! `lexeme_reader` says it; the layer above relies on exactly that. Nothing is asked of the caller. Memory
//! may be wanting at any time.
//!
//! `proofs/` says what reading by descent is, rule by rule.
#![tactic(auto)]

mod control;
mod cursor;
mod session;
mod writes;

pub use control::{print, raise_error, return_from, throw};
pub use session::{after_declare, after_set};
pub use writes::{delete, insert, select, update};
