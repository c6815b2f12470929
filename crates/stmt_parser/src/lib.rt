//! Batches and the texts of definitions, read whole.
//!
//! Read `specs/Parsed.antt` of `tsql_grammar` first: what [`parse_batch`] and [`parse_definition`] give of
//! a text. It is the tree that the text stands for; or 102 at the first lexeme behind the longest part
//! that begins some batch, be it the lexer's flaw or the end; or the first thing that is wrong with a text
//! that reads: 137, 49009 or 49013. Line and shown units are those of the text. The layers above rely on
//! exactly that. Nothing is asked of the caller. Memory may be wanting at any time, and is for a text of
//! 2^31 units or more.
//!
//! Whether a text reads is found by `tsql_recognizer` without recursion; only a text that reads, and in
//! which nothing is wrong, is read by descent.
#![tactic(auto)]

mod judge;
mod parse;
mod place;

pub use parse::{parse_batch, parse_definition};
pub use tsql_grammar::ParseFault;
