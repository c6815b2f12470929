//! What a statement is bound to.
//!
//! `specs/Lib.antt` says in which order to read. The layers above rely on [`names_of`] telling the
//! objects that a statement looks up, in the order of the text and each once; on [`bind`] giving
//! exactly what a statement is bound to over the tables that are defined and the variables, or its
//! first refusal with the name that is refused; and on [`bind_checks`] giving a table's CHECKs in
//! the order of the text. Nothing is asked of them: what is not defined is refused. Only tests show
//! that want of memory is not answered where there is memory.
#![tactic(auto)]

mod and_next;
mod create_table;
mod delete;
mod fault;
mod insert;
mod limits;
mod made;
mod names;
mod outside;
mod places;
mod statement;
mod update;
mod values;

pub use made::Made;
pub use names::names_of;
pub use statement::{bind, bind_checks};
