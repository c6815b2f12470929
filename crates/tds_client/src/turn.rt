//! The three messages of a client.

ghost use Rattle.std.specs.Prelude.{◌≡◌};
ghost use Rattle.tds_client.specs.Replies.{number_of};

/// Which of its messages a client sends, and waits for the reply to.
#[derive(Clone, Copy)]
pub enum Turn {
    /// PRELOGIN ([MS-TDS] 2.2.6.5).
    Prelogin,
    /// LOGIN7 (2.2.6.4).
    Login,
    /// The batch (2.2.6.7).
    Batch,
}

impl Turn {
    /// The number of the reply, from 1.
    pub(crate) fn number(self) -> u8
        ensures { result ≡ number_of self }
    {
        match self {
            Turn::Prelogin => 1,
            Turn::Login => 2,
            Turn::Batch => 3,
        }
    }
}
