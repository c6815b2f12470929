//! Lexemes read one by one, and what reading by descent is.
//!
//! Read `specs/Reading.antt` first: [`Lexemes`] are those of a text that are still to be read, and a
//! reader gives what is read of a rule, with the lexemes behind it (`Gives`). The layers above rely on
//! that a lexeme is taken exactly where one of the class comes next; nothing is asked of the caller.
//! Memory may be wanting where units are taken. [`object`] and [`sql_type`] read the names that many
//! rules have.
//!
//! `proofs/Ways.antt` says what reading by descent is, rule by rule: the first production that may
//! begin so. `proofs/Front.antt` reads a list member by member.
#![tactic(auto)]

mod cursor;
mod fault;
mod holds;
mod named;

pub use cursor::Lexemes;
pub use fault::{ReadFault, no_room};
pub use holds::{number_of, units_of};
pub use named::{object, sql_type};
