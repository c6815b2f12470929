//! How workers are counted.

ghost use Rattle.std.specs.Prelude.{◌≡◌, true};
ghost use Rattle.seat_server.specs.Posts.{counted};

use crate::worker::Outcome;

/// What the workers of a hall did, in numbers. A count stands still at the end of its type.
#[derive(Clone, Copy, Debug, PartialEq, Eq, Default)]
pub struct Tally {
    /// The connections that were served.
    pub connections: u64,
    /// Those of them that ended since memory was wanting.
    pub starved: u64,
    /// The workers whose door failed.
    pub failed: u32,
    /// The workers whose door answered that no connection will come any more.
    pub closed: u32,
    /// Whether memory was wanting for a door or for the list of the workers. Then no worker began.
    pub memory: bool,
}

impl Tally {
    /// The tally where memory was wanting before any worker began.
    pub(crate) fn without_memory() -> Tally
        ensures { result ≡ record { connections = 0; starved = 0; failed = 0; closed = 0; memory = true } }
    {
        Tally {
            memory: true,
            ..Tally::default()
        }
    }

    /// Counts a worker that has served so many connections and stands so by its door.
    pub(crate) fn count(&mut self, served: u64, starved: u64, outcome: Outcome)
        ensures { self.new ≡ counted self.old served starved outcome }
    {
        self.connections = self.connections.saturating_add(served);
        self.starved = self.starved.saturating_add(starved);
        match outcome {
            Outcome::Going => (),
            Outcome::Failed => self.failed = self.failed.saturating_add(1),
            Outcome::Closed => self.closed = self.closed.saturating_add(1),
        }
    }
}
