//! What an operation asks to lock.

ghost use Rattle.std.specs.Prelude.{◌≡◌, ◌++◌, Some, IfOk, OnOk, OnErr};
ghost use Rattle.std.specs.Option.{option_copied};
ghost use Rattle.step_model.specs.Exchange.{IsSession};
ghost use Rattle.step_model.specs.Database.{includes};
ghost use Rattle.step_model.specs.Claims.{locks_for, row_kept};
ghost use Rattle.step_model.specs.Deadlocks.{wait_for};
ghost use Rattle.lock_table.specs.Table.{ChangesLocks, KeepsLocks};
ghost use Rattle.engine_core.specs.AtKeys.{resource_at, fetch_claim_at, claim_x, claim_insertion};

use crate::wait::StandingWait;
use lock_modes::{KeyPart, Pair, RangePart};
use lock_table::LockTable;
use std::alloc::Global;
use std::marker::Model;
use step_model::{Hold, Place, Resource, Span, Stop};
use value_types::{Key, Memory, TableName, prefix_order};

/// A mode that is asked on a resource, and how long the lock is kept, if it is kept.
#[derive(Drop)]
pub(crate) struct Claim {
    pub(crate) on: Resource,
    pub(crate) pair: Pair,
    pub(crate) kept: Option<Span>,
}

impl Model for Claim {
    ghost use Rattle.step_model.specs.Claims.{Claim as Asked};

    ghost Value = { Asked };

    ghost view = { λ claim. record { on = claim.on; pair = claim.pair; kept = claim.kept } };
}

impl Claim {
    /// X to the transaction's end.
    pub(crate) fn x(on: Resource) -> Claim
        ensures { result ≡ claim_x on }
    {
        Claim {
            on,
            pair: Pair::EXCLUSIVE,
            kept: Some(Span::Transaction),
        }
    }

    /// What an insertion asks on the place above a new key.
    pub(crate) fn insertion(on: Resource) -> Claim
        ensures { result ≡ claim_insertion on }
    {
        Claim {
            on,
            pair: Pair::RANGE_I_N,
            kept: None,
        }
    }

    /// Where.
    pub(crate) fn on(&self) -> &Resource
        ensures { result.now ≡ self.now.on }
    {
        &self.on
    }

    /// In which mode.
    pub(crate) fn pair(&self) -> Pair
        ensures { result ≡ self.now.pair }
    {
        self.pair
    }

    /// The wait for it.
    pub(crate) fn wait(self, priority: i8) -> StandingWait
        ensures { result ≡ wait_for self priority }
    {
        StandingWait {
            on: self.on,
            asked: self.pair,
            priority,
        }
    }

    /// Adds the lock, where it is kept.
    pub(crate) fn keep(&self, locks: &mut LockTable, session: u32) -> Result<(), Memory>
        requires session { IsSession session }
        ensures ok { OnOk result (ChangesLocks session (λ own. own ++ locks_for (Some self.now)) locks.old locks.new) }
        ensures err { OnErr result (KeepsLocks locks.old locks.new) }
    {
        if let Some(span) = self.kept {
            locks.grant(session, &self.on, self.pair, span)?;
        }
        Ok(())
    }
}

/// A claim in whose way another session's pair stands.
#[derive(Drop)]
pub(crate) struct Foe {
    pub(crate) claim: Claim,
    pub(crate) holder: u32,
    pub(crate) held: Pair,
}

/// The resource of a found key, or the end of its table.
pub(crate) fn resource_at(
    alloc: Global,
    table: &TableName,
    found: Option<&Key>,
) -> Result<Resource, Memory>
    ensures { IfOk result (λ on. on ≡ resource_at table.now (option_copied found.entry)) }
{
    Ok(Resource {
        table: table.copy(alloc)?,
        place: match found {
            Some(key) => Place::At(key.copy(alloc)?),
            None => Place::End,
        },
    })
}

/// What a fetch asks, by the key that it finds.
pub(crate) fn fetch_claim_at(
    alloc: Global,
    hold: Hold,
    part: KeyPart,
    table: &TableName,
    stop: &Stop,
    found: Option<&Key>,
) -> Result<Option<Claim>, Memory>
    ensures { IfOk result (λ claim. claim ≡ fetch_claim_at hold part table.now stop.now (option_copied found.entry)) }
{
    let inside = match found {
        Some(key) => includes(stop, key),
        None => false,
    };
    let (pair, kept) = match (hold, inside) {
        (Hold::Row, false) => return Ok(None),
        (Hold::Range, false) => (Pair::RANGE_S_S, Some(Span::Transaction)),
        (Hold::Row, true) => (
            Pair {
                range: RangePart::N,
                key: part,
            },
            row_kept(part),
        ),
        (Hold::Range, true) => (
            Pair {
                range: RangePart::S,
                key: part,
            },
            Some(Span::Transaction),
        ),
    };
    Ok(Some(Claim {
        on: resource_at(alloc, table, found)?,
        pair,
        kept,
    }))
}

/// How long a lock on a row alone is kept.
fn row_kept(part: KeyPart) -> Option<Span>
    ensures { result ≡ row_kept part }
{
    if matches!(part, KeyPart::U) {
        Some(Span::Statement)
    } else {
        None
    }
}

/// Whether a range that stops so does not end before the key.
pub(crate) fn includes(stop: &Stop, key: &Key) -> bool
    ensures { result ≡ includes stop.now key.now }
{
    match stop {
        Stop::Last => true,
        Stop::Within(last) => !prefix_order(key, last).is_gt(),
    }
}
