//! Tables read by the grammar of `tsql_grammar`: their columns and their constraints.
//!
//! Read `specs/Drafts.antt` first: a table while it is read. [`table`] goes along
//! [`Lexemes`](lexeme_reader::Lexemes) and gives what reading by descent is, as `Gives` of `lexeme_reader`
//! says it; the layer above relies on exactly that. Nothing is asked of the caller. Memory may be
//! wanting at any time.
#![tactic(auto)]

mod column;
mod draft;
mod tables;

pub use draft::{Constraint, TableDraft};
pub use tables::table;
