//! The pairs at the places of one table.

ghost use Rattle.std.specs.Prelude.{◌≡◌, ◌<◌, ℕ, true, OnOk, OnErr};
ghost use Rattle.std.specs.BTreeMap.{get};
ghost use Rattle.std.specs.Option.{option_copied};
ghost use Rattle.value_types.specs.Order.{key_cmp};
ghost use Rattle.step_model.specs.declared.resource.Place.{Place as Where};
ghost use Rattle.lock_modes.specs.Join.{join_pairs};
ghost use Rattle.lock_modes.specs.Modes.{none as no_lock};
ghost use Rattle.lock_table.specs.BySession.{numbers};
ghost use Rattle.lock_table.specs.Places.{pair_in, pairs_at, ChangesAtKey, ChangesAtPlace, KeepsAtKeys, KeepsAtPlaces, MaySet};

use crate::pairs::Pairs;
use lock_modes::Pair;
use std::alloc::Global;
use std::collections::BTreeMap;
use step_model::Place;
use value_types::{Key, Memory};

/// The pairs at the places of one table: at its keys, where some session has a lock, and at its end.
#[derive(Drop)]
pub(crate) struct ByPlace {
    keys: BTreeMap<Key, Pairs>,
    end: Pairs,
}

impl ByPlace {
    /// No locks.
    pub(crate) fn none(alloc: Global) -> ByPlace
        ensures { (place : Where) (who : ℕ) → pair_in who (pairs_at result place) ≡ no_lock }
    {
        ByPlace {
            keys: BTreeMap::new(alloc),
            end: Pairs::none(),
        }
    }

    /// The pairs at a place, where some are kept.
    pub(crate) fn pairs(&self, place: &Place) -> Option<&Pairs>
        ensures { option_copied result ≡ pairs_at self.now place.now }
    {
        match place {
            Place::At(key) => self.keys.get(key),
            Place::End => Some(&self.end),
        }
    }

    /// Joins a pair to a session's at a place.
    pub(crate) fn add(
        &mut self,
        alloc: Global,
        session: u32,
        place: &Place,
        pair: Pair,
    ) -> Result<(), Memory>
        requires { session < numbers }
        ensures ok { OnOk result (ChangesAtPlace place.now session (λ old. join_pairs old pair) self.old self.new) }
        ensures err { OnErr result (KeepsAtPlaces self.old self.new) }
    {
        match place {
            Place::At(key) => add_at(&mut self.keys, alloc, session, key, pair),
            Place::End => {
                self.end.add(session, pair);
                Ok(())
            }
        }
    }

    /// Puts a pair in the place of a session's at a place.
    pub(crate) fn set(&mut self, session: u32, place: &Place, pair: Pair)
        requires session { session < numbers }
        requires may { MaySet pair (pair_in session (pairs_at self.old place.now)) }
        ensures { ChangesAtPlace place.now session (λ old. pair) self.old self.new }
    {
        match place {
            Place::At(key) => set_at(&mut self.keys, session, key, pair),
            Place::End => self.end.set(session, pair),
        }
    }

    /// Whether there are no locks.
    pub(crate) fn is_empty(&self) -> bool
        ensures { result ≡ true → (place : Where) (who : ℕ) → pair_in who (pairs_at self.now place) ≡ no_lock }
    {
        self.keys.is_empty() && self.end.is_empty()
    }
}

/// Joins a pair to a session's at a key.
fn add_at(
    keys: &mut BTreeMap<Key, Pairs>,
    alloc: Global,
    session: u32,
    key: &Key,
    pair: Pair,
) -> Result<(), Memory>
    requires { session < numbers }
    ensures ok { OnOk result (ChangesAtKey key.now session (λ old. join_pairs old pair) keys.old keys.new) }
    ensures err { OnErr result (KeepsAtKeys keys.old keys.new) }
{
    match keys.get_mut(key) {
        Some(pairs) => pairs.add(session, pair),
        None => {
            let mut pairs = Pairs::none();
            pairs.add(session, pair);
            keys.insert(key.copy(alloc)?, pairs)?;
        }
    }
    Ok(())
}

/// Puts a pair in the place of a session's at a key.
fn set_at(keys: &mut BTreeMap<Key, Pairs>, session: u32, key: &Key, pair: Pair)
    requires session { session < numbers }
    requires may { MaySet pair (pair_in session (get key_cmp keys.old key.now)) }
    ensures { ChangesAtKey key.now session (λ old. pair) keys.old keys.new }
{
    if write_at(keys, session, key, pair) {
        let _pairs = keys.remove(key);
    }
}

/// Writes it there; and whether no session has a lock at the key then.
fn write_at(keys: &mut BTreeMap<Key, Pairs>, session: u32, key: &Key, pair: Pair) -> bool
    requires session { session < numbers }
    requires may { MaySet pair (pair_in session (get key_cmp keys.old key.now)) }
    ensures written { ChangesAtKey key.now session (λ old. pair) keys.old keys.new }
    ensures empty { result ≡ true → (who : ℕ) → pair_in who (get key_cmp keys.new key.now) ≡ no_lock }
{
    match keys.get_mut(key) {
        Some(pairs) => {
            pairs.set(session, pair);
            pairs.is_empty()
        }
        None => false,
    }
}
