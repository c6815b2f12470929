//! The pairs of all sessions, found by their resource.

ghost use Rattle.std.specs.Prelude.{◌≡◌, ◌<◌, ℕ, true, OnOk, OnErr};
ghost use Rattle.std.specs.BTreeMap.{get};
ghost use Rattle.std.specs.Option.{option_copied};
ghost use Rattle.value_types.specs.Order.{table_cmp};
ghost use Rattle.lock_modes.specs.Join.{join_pairs};
ghost use Rattle.lock_modes.specs.Modes.{none as no_lock};
ghost use Rattle.step_model.specs.declared.resource.Place.{Place as Where};
ghost use Rattle.step_model.specs.declared.resource.Resource.{Resource as OnWhat};
ghost use Rattle.step_model.specs.declared.resource.Span.{Span as HowLong};
ghost use Rattle.step_model.specs.declared.resource.Span.TheVariants.{Statement, Transaction};
ghost use Rattle.lock_table.specs.Table.{pair_at};
ghost use Rattle.lock_table.specs.BySession.{numbers};
ghost use Rattle.lock_table.specs.Places.{pair_in, pairs_in, pairs_on, pair_found, Changes, ChangesOn, Keeps, KeepsOn, Forgets, MaySet};

use crate::by_place::ByPlace;
use crate::own_locks::Lock;
use crate::pairs::Pairs;
use lock_modes::{Pair, join};
use std::alloc::Global;
use std::collections::BTreeMap;
use step_model::{Resource, Span};
use value_types::{Memory, TableName};

/// The pairs that each session's locks make together on each resource: those of the statement, and those of the
/// transaction, so that the first are taken away without a look at the others.
#[derive(Drop)]
pub(crate) struct Index {
    statement: BTreeMap<TableName, ByPlace>,
    transaction: BTreeMap<TableName, ByPlace>,
}

impl Index {
    /// No locks.
    pub(crate) fn none(alloc: Global) -> Index
        ensures { (span : HowLong) (on : OnWhat) (who : ℕ) → pair_found result span on who ≡ no_lock }
    {
        Index {
            statement: BTreeMap::new(alloc),
            transaction: BTreeMap::new(alloc),
        }
    }

    /// The session's pair on a resource.
    pub(crate) fn pair(&self, session: u32, on: &Resource) -> Pair
        ensures { result ≡ join_pairs (pair_found self.now Statement on.now session) (pair_found self.now Transaction on.now session) }
    {
        join(
            pair_on(&self.statement, session, on),
            pair_on(&self.transaction, session, on),
        )
    }

    /// The pairs of all sessions on a resource.
    pub(crate) fn pairs(&self, on: &Resource) -> Pairs
        ensures { (who : ℕ) → pair_at who result ≡ join_pairs (pair_found self.now Statement on.now who) (pair_found self.now Transaction on.now who) }
    {
        let mut pairs = Pairs::none();
        if let Some(found) = pairs_on(&self.statement, on) {
            pairs.join(found);
        }
        if let Some(found) = pairs_on(&self.transaction, on) {
            pairs.join(found);
        }
        pairs
    }

    /// Joins a pair to a session's on a resource.
    pub(crate) fn add(
        &mut self,
        alloc: Global,
        session: u32,
        on: &Resource,
        pair: Pair,
        span: Span,
    ) -> Result<(), Memory>
        requires { session < numbers }
        ensures ok { OnOk result (Changes span on.now session (λ old. join_pairs old pair) self.old self.new) }
        ensures err { OnErr result (Keeps self.old self.new) }
    {
        match span {
            Span::Statement => add_on(&mut self.statement, alloc, session, on, pair),
            Span::Transaction => add_on(&mut self.transaction, alloc, session, on, pair),
        }
    }

    /// Puts a pair in the place of a session's on a resource.
    pub(crate) fn set(&mut self, session: u32, on: &Resource, pair: Pair, span: Span)
        requires session { session < numbers }
        requires may { MaySet pair (pair_found self.old span on.now session) }
        ensures { Changes span on.now session (λ old. pair) self.old self.new }
    {
        match span {
            Span::Statement => set_on(&mut self.statement, session, on, pair),
            Span::Transaction => set_on(&mut self.transaction, session, on, pair),
        }
    }

    /// Takes a session's pairs away on the resources of those of its locks that are of a span.
    pub(crate) fn forget(&mut self, session: u32, locks: &[Lock], span: Span)
        requires { session < numbers }
        ensures { Forgets session locks.now span self.old self.new }
    {
        for lock in locks {
            if lock.is_of(span) {
                self.set(session, &lock.on, Pair::NONE, span);
            }
        }
    }
}

/// The pairs on a resource, where some are kept.
fn pairs_on<'a>(tables: &'a BTreeMap<TableName, ByPlace>, on: &Resource) -> Option<&'a Pairs>
    ensures { option_copied result ≡ pairs_on tables.now on.now }
{
    match tables.get(&on.table) {
        Some(places) => places.pairs(&on.place),
        None => None,
    }
}

/// The session's pair on a resource.
fn pair_on(tables: &BTreeMap<TableName, ByPlace>, session: u32, on: &Resource) -> Pair
    ensures { result ≡ pair_in session (pairs_on tables.now on.now) }
{
    match pairs_on(tables, on) {
        Some(pairs) => pairs.of(session),
        None => Pair::NONE,
    }
}

/// Joins a pair to a session's on a resource.
fn add_on(
    tables: &mut BTreeMap<TableName, ByPlace>,
    alloc: Global,
    session: u32,
    on: &Resource,
    pair: Pair,
) -> Result<(), Memory>
    requires { session < numbers }
    ensures ok { OnOk result (ChangesOn on.now session (λ old. join_pairs old pair) tables.old tables.new) }
    ensures err { OnErr result (KeepsOn tables.old tables.new) }
{
    match tables.get_mut(&on.table) {
        Some(places) => places.add(alloc, session, &on.place, pair),
        None => {
            let mut places = ByPlace::none(alloc);
            places.add(alloc, session, &on.place, pair)?;
            tables.insert(on.table.copy(alloc)?, places)?;
            Ok(())
        }
    }
}

/// Puts a pair in the place of a session's on a resource.
fn set_on(tables: &mut BTreeMap<TableName, ByPlace>, session: u32, on: &Resource, pair: Pair)
    requires session { session < numbers }
    requires may { MaySet pair (pair_in session (pairs_on tables.old on.now)) }
    ensures { ChangesOn on.now session (λ old. pair) tables.old tables.new }
{
    if write_on(tables, session, on, pair) {
        let _places = tables.remove(&on.table);
    }
}

/// Writes it there; and whether no session has a lock on the table then.
fn write_on(
    tables: &mut BTreeMap<TableName, ByPlace>,
    session: u32,
    on: &Resource,
    pair: Pair,
) -> bool
    requires session { session < numbers }
    requires may { MaySet pair (pair_in session (pairs_on tables.old on.now)) }
    ensures written { ChangesOn on.now session (λ old. pair) tables.old tables.new }
    ensures empty { result ≡ true → (place : Where) (who : ℕ) → pair_in who (pairs_in (get table_cmp tables.new on.now.table) place) ≡ no_lock }
{
    match tables.get_mut(&on.table) {
        Some(places) => {
            places.set(session, &on.place, pair);
            places.is_empty()
        }
        None => false,
    }
}
