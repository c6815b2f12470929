//! How a connection is to be served.

use value_types::Units;

/// How a connection begins.
#[derive(Clone, Copy)]
pub enum Entry {
    /// The client logs in first.
    Login,
    /// The client is logged in from the beginning, with packets of 4096 bytes.
    Bare,
}

/// What a server asks of its clients. It is not `Debug`, which would print the password.
#[derive(Drop)]
pub struct Config {
    /// The user who may log in.
    pub user: Units,
    /// That user's password.
    pub password: Units,
    /// How a connection begins.
    pub entry: Entry,
    /// Whether what drivers send is served: transaction manager requests, calls that are not served, which leave the connection, and one DONE at a batch's end.
    pub drivers: bool,
}
