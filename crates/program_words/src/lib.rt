//! The words of the program: the command that a list of words asks for, as `clap` reads them.
//!
//! `specs/Lib.antt` says in which order to read. The layer above relies on [`read_words`] giving exactly the
//! command that the words spell, and on its refusing words only where the `clap` command doesn't take them or
//! a number among them is out of form, and never those that ask for help or the version alone. Only tests show
//! what the texts of these say.
#![tactic(auto)]

mod command;
mod fault;
mod laws;
mod number;
mod options;
mod read;

pub use command::ProgramCommand;
pub use fault::WordsFault;
pub use laws::law_spelled;
pub use read::read_words;
