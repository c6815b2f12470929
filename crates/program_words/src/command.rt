//! What the words of the program ask for.

use value_types::Units;

/// What the words ask for. It is not `Debug`, which would print the password.
#[derive(Drop)]
pub enum ProgramCommand {
    /// To serve one connection on standard input and output.
    Pipe {
        /// The user who may log in.
        user: Units,
        /// That user's password.
        password: Units,
        /// Whether the client is logged in from the beginning.
        bare: bool,
        /// Whether what drivers send is served.
        drivers: bool,
    },
    /// To serve connections on a port of this machine.
    Listen {
        /// The port, from 1.
        port: u16,
        /// How many workers serve, from 1 to 64.
        workers: u32,
        /// How many connections all of them serve, where there is an end.
        rounds: Option<u32>,
        /// The user who may log in.
        user: Units,
        /// That user's password.
        password: Units,
        /// Whether what drivers send is served.
        drivers: bool,
    },
    /// To answer a script of engine steps.
    Steps,
    /// To run transfers between accounts on a database in memory.
    Load {
        /// How many transfers each worker sends, from 1 to 10000.
        transfers: u32,
        /// How many workers send them, from 1 to 64.
        workers: u32,
    },
    /// To print this text: help, or the version.
    Show {
        /// The text.
        text: String,
    },
}
