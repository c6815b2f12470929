//! Statements, batches and definitions read by descent, by the grammar of `tsql_grammar`.
//!
//! Read `specs/Parts.antt` first: what is read behind the first word of a statement, and of a batch.
//! [`read_batch`] and [`read_definition`] go along [`Lexemes`](lexeme_reader::Lexemes) and give what
//! reading by descent is, as `Gives` of `lexeme_reader` says it; the layer above relies on exactly that.
//! Trees keep parts of the batch's text, which readers are given. Nothing is asked of the caller. Memory
//! may be wanting at any time; the same is said of a text that nests deeper than 128, which none that
//! was recognized without a fault does.
//!
//! Readers of statements are methods of `Reader`, over the function that reads statements within others,
//! so that no two of them call each other; `knot.rt` ties them.
#![tactic(auto)]

mod begins;
mod block;
mod definition;
mod knot;
mod nested;
mod part;
mod reader;
mod statement;

pub use definition::{read_batch, read_definition};
pub use nested::{FoundInner, Inner};
pub use part::slice;
