//! The parts of the engine, what passes, and what is kept.

ghost use Rattle.std.specs.Prelude.{◌≡◌, ℕ, true, Some, IfOk, IfErr, OnOk, OnErr};
ghost use Rattle.step_model.specs.Exchange.{IsSession};
ghost use Rattle.step_model.specs.Entries.{place_on};
ghost use Rattle.step_model.specs.State.{is_open};
ghost use Rattle.step_model.specs.Claims.{Passes, IsFoe, with_claim};
ghost use Rattle.step_model.specs.Runs.{opening};
ghost use Rattle.history_laws.specs.Sane.{Sane};

use crate::claim::{Claim, Foe, resource_at};
use crate::commit::Commit;
use crate::transaction::Transaction;
use lock_table::LockTable;
use row_store::RowStore;
use std::alloc::Global;
use std::marker::Model;
use step_model::{Resource, Start};
use value_types::{Key, Memory, TableName};

/// The entries, the locks, the open transactions and the log.
#[derive(Drop)]
pub(crate) struct Parts {
    pub(crate) rows: RowStore,
    pub(crate) locks: LockTable,
    pub(crate) active: Vec<Transaction>,
    pub(crate) log: Vec<Commit>,
    pub(crate) alloc: Global,
}

impl Model for Parts {
    ghost use Rattle.step_model.specs.State.{Engine as State};

    ghost Value = { State };

    ghost use Rattle.engine_core.specs.WellFormed.{state, IsWellFormed};

    ghost view = { state };

    ghost invariant = { λ parts. IsWellFormed parts };
}

impl Parts {
    /// Those of an engine before any step.
    pub(crate) fn new(alloc: Global) -> Parts
        ensures { result ≡ opening }
    {
        Parts {
            rows: RowStore::new(alloc),
            locks: LockTable::new(alloc),
            active: Vec::new(alloc),
            log: Vec::new(alloc),
            alloc,
        }
    }

    /// The resource of a key's place.
    pub(crate) fn place_on(&self, table: &TableName, key: &Key) -> Result<Resource, Memory>
        ensures { IfOk result (λ on. on ≡ place_on self.now.entries table.now key.now) }
    {
        let start = Start::At(key.copy(self.alloc)?);
        resource_at(self.alloc, table, self.rows.next_entry(table, &start))
    }

    /// Gives back a claim that passes, or else the lowest session that stands in its way.
    pub(crate) fn passed(&self, session: u32, claim: Claim) -> Result<Claim, Foe>
        ensures same { IfOk result (λ passed. passed ≡ claim) }
        ensures passes { IfOk result (λ passed. Passes session (Some claim) self.now) }
        ensures asked { IfErr result (λ foe. foe.claim ≡ claim) }
        ensures foe { IfErr result (λ foe. IsFoe session claim.on claim.pair self.now foe.holder foe.held) }
    {
        match self.locks.foe(session, claim.on(), claim.pair()) {
            None => Ok(claim),
            Some((holder, held)) => Err(Foe {
                claim,
                holder,
                held,
            }),
        }
    }

    /// Adds the lock of a claim that passes, where it is kept.
    pub(crate) fn keep(&mut self, session: u32, claim: &Claim) -> Result<(), Memory>
        requires session { IsSession session }
        requires begun { is_open session self.old ≡ true }
        requires sane { Sane self.old }
        requires passes { Passes session (Some claim.now) self.old }
        ensures ok { OnOk result (self.new ≡ with_claim session (Some claim.now) self.old) }
        ensures err { OnErr result (self.new ≡ self.old) }
    {
        claim.keep(&mut self.locks, session)
    }
}
