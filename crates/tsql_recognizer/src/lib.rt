//! Whether a text is of the grammar of Transact-SQL, and where it stops if it is not.
//!
//! Read `specs/Verdict.antt` first: what [`recognize`] says of a text. The layer above relies on
//! exactly that: the longest part that begins a text of the rule, or that the whole is one, and the
//! first thing in it that is wrong although it reads; and on [`law_plain_verdict`], that this is so of
//! the lexemes as they are, though a semicolon before ELSE is read as one of a kind of its own. Nothing
//! is asked of the caller. A text is read with a stack and no recursion, whatever its nesting. That long
//! texts are read in a time that grows with their length is not proved.
//!
//! `table.rt` and `open.rt` have the productions in the code, by their symbols alone, and `choice.rt`
//! picks the one that a lexeme chooses; `proofs/Picks.antt` says that it is the grammar's. In front of
//! that, `common.rt`, `operands.rt` and `counting.rt` have what the commonest rules come to, several
//! steps at once, and past the lexeme where it is the first of that.
#![tactic(auto)]

mod choice;
mod common;
mod counting;
mod counts;
mod first;
mod fronts;
mod laws;
mod lexemes;
mod notes;
mod open;
mod operands;
mod recognizer;
mod step;
mod symbol;
mod table;

pub use laws::law_plain_verdict;
pub use recognizer::{Verdict, recognize};
