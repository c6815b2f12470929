//! Scripts of engine steps: the line that a text spells, and the line that a reply is printed as.
//!
//! `specs/Lib.antt` says in which order to read. The layers above rely on [`read_line`] giving exactly the line
//! that a text spells by the form of a line, and on [`print_reply`] appending exactly the line of a reply.
//! Memory apart, neither is ever refused for a text that spells a line, or for a reply.
#![tactic(auto)]

mod command;
mod laws;
mod line;
mod number;
mod pieces;
mod print;
mod words;

pub use laws::law_pieces;
pub use line::{Line, LineFault, read_line};
pub use pieces::cut;
pub use print::{print_reply, print_text};
