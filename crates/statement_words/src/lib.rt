//! Statements and parts of definitions that hold no expression, read by the grammar of `tsql_grammar`.
//!
//! Read `specs/Forms.antt` first: what is read behind the first word of a statement. Each function goes
//! along [`Lexemes`](lexeme_reader::Lexemes) and gives what reading by descent is, as `Gives` of
//! `lexeme_reader` says it; the layers above rely on exactly that. Nothing is asked of the caller. Memory
//! may be wanting at any time.
//!
//! `proofs/` says what reading by descent is, rule by rule.
#![tactic(auto)]

mod call;
mod cursor;
mod database;
mod drops;
mod names_list;
mod options;
mod signature;
mod transaction;

pub use call::after_execute;
pub use cursor::{close_cursor, deallocate, fetch, open_cursor};
pub use database::use_database;
pub use drops::drop_object;
pub use names_list::names;
pub use options::{on_off, set_other};
pub use signature::{events, params, trigger_time};
pub use transaction::{begin_transaction, commit, rollback, save};
