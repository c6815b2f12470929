//! The command `steps`: a script of engine steps, read whole and answered line by line.
//!
//! `specs/Lib.antt` says in which order to read. The layers above rely on [`run_steps`]: what it takes and writes,
//! and each status, are those of the script's lines over the engine that it is given.
#![tactic(auto)]

mod command;
mod engine;
mod laws;
mod play;
mod reading;
mod writing;

pub use command::run_steps;
pub use engine::ScriptEngine;
pub use laws::law_script_run;
pub use play::{Stop, play_script};
pub use writing::write_whole;
