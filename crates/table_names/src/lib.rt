//! The tables that an expression, a test or a select names.
//!
//! A statement is bound over the tables that it names, so they are looked up before it is. `specs/Contents.antt`
//! says which they are: those of inner queries too, where they stand in the text. The layer above may rely
//! on each call noting exactly these, in the order of the text, each once, the first time that it stands.
//! Nothing is asked of it. Only tests show that want of memory is not answered where there is memory.
#![tactic(auto)]

mod names;

pub use names::TableNames;
