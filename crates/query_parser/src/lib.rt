//! Selects, tests and expressions parsed by the grammar of `tsql_grammar`.
//!
//! Read `specs/Parsed.antt` first: what [`parse_select`], [`parse_test`] and [`parse_expr`] give of
//! the lexemes from a place on. They take the longest run that begins some text of the rule, as
//! `tsql_recognizer` finds it, and read it by descent, with `query_reader`. Who calls them may rely on
//! exactly that; the program does not, it parses whole batches. Of the caller it is asked that the place
//! is one of the list. Memory may be wanting at any time.
#![tactic(auto)]

mod parse;
mod place;
mod run;

pub use parse::{parse_expr, parse_select, parse_test};
pub use run::Run;
