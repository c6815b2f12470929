//! The locks of all sessions: who stands in the way of what is asked, and how locks come and go.
//!
//! Read `specs/Table.antt`. The layers above may rely on each session's locks being a list in the order of their
//! grants, which changes exactly as each call says, while no other session's does. A caller asks [`LockTable::foe`]
//! before it grants; the table itself takes what it is given. That calls print nothing and end is the proof's. No
//! clause says what they cost: a look-up goes down two ordered maps, the end of a statement goes over the locks that
//! its session got since the end of the one before, the end of a transaction over all of its session's, and so does a
//! lock that is taken back for want of memory. Of a key on which no session has a lock nothing is kept.
#![tactic(auto)]

ghost use Rattle.std.specs.Prelude.{◌≡◌, ◌≢◌, ◌<◌, ◌++◌, ◌∷◌, [], ℕ, Ok, None, true, false, filter, IfOk, IfSome, OnOk, OnErr};
ghost use Rattle.lock_modes.specs.Join.{join_pairs};
ghost use Rattle.lock_modes.specs.declared.KeyPart.TheVariants.{N};
ghost use Rattle.lock_modes.specs.declared.RangePart.TheVariants.{S as RangeS};
ghost use Rattle.step_model.specs.declared.resource.Span.TheVariants.{Transaction as Whole};
ghost use Rattle.step_model.specs.Exchange.{IsSession};
ghost use Rattle.step_model.specs.Locks.{pair_on, is_whole, is_range_s};
ghost use Rattle.lock_table.specs.Table.{ChangesLocks, KeepsLocks, NoFoeIn, IsFoeIn, ArePairsOn, of_session, all_but_last};
ghost use Rattle.lock_table.specs.BySession.{numbers};
ghost use Rattle.lock_table.specs.Places.{Changes, Keeps, KeepsOthers, HasPairsOf};

mod by_place;
mod index;
mod own_locks;
mod pairs;

use crate::index::Index;
use crate::own_locks::{Lock, OwnLocks};
use crate::pairs::NUMBERS;
use lock_modes::{KeyPart, Pair, RangePart};
pub use pairs::Pairs;
use std::alloc::Global;
use std::array::from_fn;
use std::marker::Model;
use step_model::{Resource, Span};
use value_types::Memory;

/// The locks of all sessions: the list of each, by its number, and what they make together on each resource.
#[derive(Drop)]
pub struct LockTable {
    by_session: [OwnLocks; NUMBERS],
    index: Index,
    alloc: Global,
}

impl Model for LockTable {
    ghost use Rattle.std.specs.Prelude.{List};
    ghost use Rattle.lock_table.specs.Table.{SessionLock as OfSession};
    ghost use Rattle.lock_table.specs.BySession.{all_from};
    ghost use Rattle.lock_table.specs.Places.{AreOfLists};

    ghost Value = { List OfSession };

    ghost view = { λ table. all_from 0 table.by_session };

    ghost invariant = { λ table. AreOfLists table.by_session table.index };
}

impl LockTable {
    /// No locks.
    pub fn new(alloc: Global) -> LockTable
        ensures { (session : ℕ) → of_session session result ≡ [] }
    {
        LockTable {
            by_session: from_fn(|_session| OwnLocks::none(alloc)),
            index: Index::none(alloc),
            alloc,
        }
    }

    /// The session's pair on a resource.
    pub fn pair(&self, session: u32, on: &Resource) -> Pair
        ensures { result ≡ pair_on on.now (of_session session self.now) }
    {
        self.index.pair(session, on)
    }

    /// The pairs of all sessions on a resource.
    pub fn pairs(&self, on: &Resource) -> Pairs
        ensures { ArePairsOn on.now self.now result }
    {
        self.index.pairs(on)
    }

    /// The lowest other session whose pair does not agree with what is asked, with that pair.
    pub fn foe(&self, session: u32, on: &Resource, asked: Pair) -> Option<(u32, Pair)>
        ensures free { result ≡ None → NoFoeIn session on.now asked self.now }
        ensures foe { IfSome result (λ found. IsFoeIn session on.now asked self.now found.0 found.1) }
    {
        self.pairs(on).foe(session, asked)
    }

    /// Adds a lock, also beside an equal one.
    pub fn grant(
        &mut self,
        session: u32,
        on: &Resource,
        pair: Pair,
        span: Span,
    ) -> Result<(), Memory>
        requires session { IsSession session }
        ensures ok { OnOk result (ChangesLocks session (λ locks. locks ++ record { on = on.now; pair = pair; span = span } ∷ []) self.old self.new) }
        ensures err { OnErr result (KeepsLocks self.old self.new) }
    {
        let lock = Lock {
            on: on.copy(self.alloc)?,
            pair,
            span,
        };
        let own = &mut self.by_session[session as usize];
        add_lock(own, &mut self.index, self.alloc, session, lock, on)
    }

    /// Adds range part S on a resource, for the transaction, where the session has it on another one; and
    /// whether it did.
    pub fn inherit(&mut self, session: u32, from: &Resource, to: &Resource) -> Result<bool, Memory>
        requires session { IsSession session }
        ensures whether { IfOk result (λ whether. whether ≡ is_range_s (pair_on from.now (of_session session self.old)).range) }
        ensures added { result ≡ Ok true → ChangesLocks session (λ locks. locks ++ record { on = to.now; pair = record { range = RangeS; key = N }; span = Whole } ∷ []) self.old self.new }
        ensures none { result ≡ Ok false → KeepsLocks self.old self.new }
        ensures err { OnErr result (KeepsLocks self.old self.new) }
    {
        let inherits = matches!(self.pair(session, from).range, RangePart::S);
        if inherits {
            let pair = Pair {
                range: RangePart::S,
                key: KeyPart::N,
            };
            self.grant(session, to, pair, Span::Transaction)?;
        }
        Ok(inherits)
    }

    /// Takes back the session's latest lock.
    pub fn withdraw(&mut self, session: u32)
        requires locks { of_session session self.old ≢ [] }
        ensures { ChangesLocks session all_but_last self.old self.new }
    {
        if self.has_list(session) {
            let own = &mut self.by_session[session as usize];
            take_back(own, &mut self.index, session);
        }
    }

    /// Frees the session's locks of the statement.
    pub fn relax(&mut self, session: u32)
        ensures { ChangesLocks session (filter (λ lock. is_whole lock.span)) self.old self.new }
    {
        if self.has_list(session) {
            let own = &mut self.by_session[session as usize];
            self.index
                .forget(session, own.since_relax(), Span::Statement);
            own.relax();
        }
    }

    /// Frees all the session's locks.
    pub fn release(&mut self, session: u32)
        ensures { ChangesLocks session (λ locks. []) self.old self.new }
    {
        if self.has_list(session) {
            let own = &mut self.by_session[session as usize];
            self.index
                .forget(session, own.since_relax(), Span::Statement);
            self.index
                .forget(session, own.as_slice(), Span::Transaction);
            *own = OwnLocks::none(self.alloc);
        }
    }

    /// Whether there is a list for the number; no other has locks.
    fn has_list(&self, session: u32) -> bool
        ensures within { result ≡ true → session < numbers }
        ensures past { result ≡ false → of_session session self.now ≡ [] }
    {
        let lists = &self.by_session;
        (session as usize) < lists.len()
    }
}

/// Adds a lock to its session's, and its pair to the session's on its resource. Where either wants memory, neither
/// is done.
fn add_lock(
    own: &mut OwnLocks,
    index: &mut Index,
    alloc: Global,
    session: u32,
    lock: Lock,
    on: &Resource,
) -> Result<(), Memory>
    requires session { session < numbers }
    requires on { on.now ≡ lock.on }
    ensures own { OnOk result (own.new ≡ own.old ++ lock ∷ []) }
    ensures index { OnOk result (Changes lock.span lock.on session (λ old. join_pairs old lock.pair) index.old index.new) }
    ensures err_own { OnErr result (own.new ≡ own.old) }
    ensures err_index { OnErr result (Keeps index.old index.new) }
{
    let (pair, span) = (lock.pair, lock.span);
    own.push(lock)?;
    match index.add(alloc, session, on, pair, span) {
        Ok(()) => Ok(()),
        Err(Memory) => {
            let _lock = own.pop();
            Err(Memory)
        }
    }
}

/// Takes the session's latest lock away, if there is one, and makes its pair on that resource anew.
fn take_back(own: &mut OwnLocks, index: &mut Index, session: u32)
    requires session { session < numbers }
    requires pairs { HasPairsOf session own.old index.old }
    ensures own { own.new ≡ all_but_last own.old }
    ensures pairs { HasPairsOf session own.new index.new }
    ensures others { KeepsOthers session index.old index.new }
{
    if let Some(lock) = own.pop() {
        let left = own.pair_on(&lock.on, lock.span);
        index.set(session, &lock.on, left, lock.span);
    }
}
