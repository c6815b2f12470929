//! The locks of one session.

ghost use Rattle.std.specs.Prelude.{◌≡◌, ◌++◌, ◌∷◌, ◌&&◌, [], filter, if◌then◌else◌, IfSome, IfNone, OnOk, OnErr};
ghost use Rattle.lock_modes.specs.Join.{join_pairs};
ghost use Rattle.step_model.specs.declared.resource.Span.TheVariants.{Statement};
ghost use Rattle.step_model.specs.Locks.{pair_on as pair_of, same_resource as is_same, is_whole};
ghost use Rattle.lock_table.specs.Table.{all_but_last};
ghost use Rattle.lock_table.specs.BySession.{is_of as is_of_span};

use lock_modes::{Pair, join};
use std::alloc::Global;
use std::marker::Model;
use step_model::{Resource, Span, same_resource};
use value_types::Memory;

/// A lock of a session.
#[derive(Drop)]
pub(crate) struct Lock {
    pub(crate) on: Resource,
    pub(crate) pair: Pair,
    pub(crate) span: Span,
}

impl Model for Lock {
    ghost use Rattle.step_model.specs.Locks.{Lock as Kept};

    ghost Value = { Kept };

    ghost view = { λ lock. record { on = lock.on; pair = lock.pair; span = lock.span } };
}

impl Lock {
    /// Whether it is kept so long.
    pub(crate) fn is_of(&self, span: Span) -> bool
        ensures { result ≡ is_of_span span self.now }
    {
        self.span == span
    }

    /// Whether it is kept to the transaction's end.
    fn is_whole(&self) -> bool
        ensures { result ≡ is_whole self.now.span }
    {
        matches!(self.span, Span::Transaction)
    }

    /// A pair with this lock's, where it is one of the span on the resource.
    fn added_to(&self, pair: Pair, on: &Resource, span: Span) -> Pair
        ensures { result ≡ (if is_of_span span self.now && is_same self.now.on on.now then join_pairs pair self.now.pair else pair) }
    {
        if self.is_of(span) && same_resource(&self.on, on) {
            join(pair, self.pair)
        } else {
            pair
        }
    }
}

/// The locks of a session, in the order of their grants, and how many at the front are known to be kept to the
/// transaction's end. All that are left at the end of a statement are, so the end of the next one looks only at what
/// stands behind them, and takes no longer in a long transaction.
#[derive(Drop)]
pub(crate) struct OwnLocks {
    locks: Vec<Lock>,
    whole_count: usize,
}

impl Model for OwnLocks {
    ghost use Rattle.std.specs.Prelude.{List};
    ghost use Rattle.step_model.specs.Locks.{Lock as Kept};
    ghost use Rattle.lock_table.specs.BySession.{BeginsWhole};

    ghost Value = { List Kept };

    ghost view = { λ own. own.locks.items };

    ghost invariant = { λ own. BeginsWhole own.whole_count own.locks.items };
}

impl OwnLocks {
    /// No locks.
    pub(crate) fn none(alloc: Global) -> OwnLocks
        ensures { result ≡ [] }
    {
        OwnLocks {
            locks: Vec::new(alloc),
            whole_count: 0,
        }
    }

    /// The locks.
    pub(crate) fn as_slice(&self) -> &[Lock]
        ensures { result.now ≡ self.now }
    {
        self.locks.as_slice()
    }

    /// The locks granted since the end of the last statement, among which are all of this one. That they are no more
    /// than those is no part of the clause.
    pub(crate) fn since_relax(&self) -> &[Lock]
        ensures { filter (is_of_span Statement) result.now ≡ filter (is_of_span Statement) self.now }
    {
        &self.locks[self.whole_count..]
    }

    /// Adds a lock.
    pub(crate) fn push(&mut self, lock: Lock) -> Result<(), Memory>
        ensures ok { OnOk result (self.new ≡ self.old ++ lock ∷ []) }
        ensures err { OnErr result (self.new ≡ self.old) }
    {
        self.locks.push(lock)?;
        Ok(())
    }

    /// Takes the latest lock away.
    pub(crate) fn pop(&mut self) -> Option<Lock>
        ensures latest { IfSome result (λ lock. self.old ≡ self.new ++ lock ∷ []) }
        ensures none { IfNone result (self.old ≡ []) }
        ensures rest { self.new ≡ all_but_last self.old }
    {
        let lock = self.locks.pop();
        self.whole_count = self.whole_count.min(self.locks.len());
        lock
    }

    /// The pair that those of a span make together on a resource, by one look at each lock.
    pub(crate) fn pair_on(&self, on: &Resource, span: Span) -> Pair
        ensures { result ≡ pair_of on.now (filter (is_of_span span) self.now) }
    {
        let mut pair = Pair::NONE;
        for lock in &self.locks {
            pair = lock.added_to(pair, on, span);
        }
        pair
    }

    /// Takes those of the statement away. The others that were granted since the end of the last one move up in
    /// their order; `retain` would do the same, and look at all locks.
    pub(crate) fn relax(&mut self)
        ensures { self.new ≡ filter (λ lock. is_whole lock.span) self.old }
    {
        let mut kept = self.whole_count;
        for place in self.whole_count..self.locks.len() {
            if self.locks[place].is_whole() {
                self.locks.swap(kept, place);
                kept += 1;
            }
        }
        self.locks.truncate(kept);
        self.whole_count = kept;
    }
}
