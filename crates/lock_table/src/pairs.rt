//! The pairs of all sessions on one resource.

ghost use Rattle.std.specs.Prelude.{◌≡◌, ◌≢◌, ◌<◌, ℕ, true, None, IfSome};
ghost use Rattle.lock_modes.specs.Agreement.{pairs_agree};
ghost use Rattle.lock_modes.specs.Join.{join_pairs};
ghost use Rattle.lock_modes.specs.Modes.{none as no_lock};
ghost use Rattle.lock_table.specs.Table.{pair_at};
ghost use Rattle.lock_table.specs.BySession.{numbers, ChangesPair, IsFoeAmong};

use lock_modes::{KeyPart, Pair, RangePart, agree, join};
use std::marker::Model;

/// How many numbers there are up to the last session's. Number 0 is no session's, and never has a lock.
pub(crate) const NUMBERS: usize = 65;

/// The pair of each session on a resource.
#[derive(Drop)]
pub struct Pairs {
    by_session: [Pair; NUMBERS],
}

impl Model for Pairs {
    ghost use Rattle.std.specs.Prelude.{◌≡◌, List, length};
    ghost use Rattle.lock_modes.specs.declared.Pair.{Pair as Mode};
    ghost use Rattle.lock_table.specs.BySession.{numbers};

    ghost Value = { List Mode };

    ghost view = { λ pairs. pairs.by_session };

    ghost invariant = { λ pairs. length pairs.by_session ≡ numbers };
}

impl Pairs {
    /// No session has a lock.
    pub(crate) fn none() -> Pairs
        ensures { (session : ℕ) → pair_at session result ≡ no_lock }
    {
        Pairs {
            by_session: [Pair::NONE; NUMBERS],
        }
    }

    /// Joins a pair to a session's.
    pub(crate) fn add(&mut self, session: u32, pair: Pair)
        requires { session < numbers }
        ensures { ChangesPair session (λ old. join_pairs old pair) self.old self.new }
    {
        let at = session as usize;
        self.by_session[at] = join(self.by_session[at], pair);
    }

    /// Puts a pair in the place of a session's.
    pub(crate) fn set(&mut self, session: u32, pair: Pair)
        requires { session < numbers }
        ensures { ChangesPair session (λ old. pair) self.old self.new }
    {
        self.by_session[session as usize] = pair;
    }

    /// Joins to each session's pair its pair among others.
    pub(crate) fn join(&mut self, others: &Pairs)
        ensures { (who : ℕ) → pair_at who self.new ≡ join_pairs (pair_at who self.old) (pair_at who others.now) }
    {
        let others = &others.by_session;
        for session in 0..NUMBERS as u32 {
            self.add(session, others[session as usize]);
        }
    }

    /// Whether no session has a lock.
    pub(crate) fn is_empty(&self) -> bool
        ensures { result ≡ true → (who : ℕ) → pair_at who self.now ≡ no_lock }
    {
        for pair in &self.by_session {
            if !is_none(*pair) {
                return false;
            }
        }
        true
    }

    /// The lowest other session whose pair does not agree with what is asked, with that pair.
    pub(crate) fn foe(&self, session: u32, asked: Pair) -> Option<(u32, Pair)>
        ensures free { result ≡ None → (other : ℕ) → other ≢ session → pairs_agree (pair_at other self.now) asked ≡ true }
        ensures foe { IfSome result (λ found. IsFoeAmong session asked self.now found.0 found.1) }
    {
        // Looking at the list opens it: it has a pair for each number up to the last.
        let _pairs = &self.by_session;
        for other in 0..NUMBERS as u32 {
            if other != session {
                let pair = self.of(other);
                if !agree(pair, asked) {
                    return Some((other, pair));
                }
            }
        }
        None
    }

    /// The session's pair.
    pub fn of(&self, session: u32) -> Pair
        ensures { result ≡ pair_at session self.now }
    {
        match self.by_session.get(session as usize) {
            Some(pair) => *pair,
            None => Pair::NONE,
        }
    }
}

/// Whether it is no lock.
fn is_none(pair: Pair) -> bool
    ensures { result ≡ true → pair ≡ no_lock }
{
    matches!(pair.range, RangePart::N) && matches!(pair.key, KeyPart::N)
}
