//! A replacement or an erasure, and whatever sets a session's state at an entry.

ghost use Rattle.std.specs.Prelude.{◌≡◌, ◌++◌, true, Ok, Some, None, if◌then◌else◌, IsSome, IfSome, IfOk, OnOk, OnErr};
ghost use Rattle.std.specs.Option.{option_copied};
ghost use Rattle.step_model.specs.Exchange.{IsSession};
ghost use Rattle.step_model.specs.Entries.{entry_at, place_on};
ghost use Rattle.step_model.specs.State.{is_open};
ghost use Rattle.step_model.specs.Step.{StepFrom};
ghost use Rattle.step_model.specs.Moves.{with_pending, set_at, without_wait};
ghost use Rattle.step_model.specs.Claims.{Passes, with_claim, locks_for, write_claim};
ghost use Rattle.history_laws.specs.Sane.{Sane};
ghost use Rattle.row_store.specs.Rows.{entries_of, pending_state, KeepsMakers, KeepsPast, KeepsBelow, MayWrite};
ghost use Rattle.lock_table.specs.Table.{ChangesLocks, KeepsLocks};
ghost use Rattle.engine_core.specs.AtKeys.{IsRefusedX, claim_x, write_op};

use crate::claim::Claim;
use crate::parts::Parts;
use crate::transaction::made_in;
use lock_modes::Pair;
use lock_table::LockTable;
use row_store::RowStore;
use step_model::{Manner, Reply, Resource, Span};
use value_types::{Key, Memory, Row, TableName};

impl Parts {
    /// Sets a row, or its absence, where the session sees a row.
    pub(crate) fn write(
        &mut self,
        session: u32,
        table: &TableName,
        key: &Key,
        row: Option<&Row>,
        manner: Manner,
    ) -> Result<Reply, Memory>
        requires session { IsSession session }
        requires begun { is_open session self.old ≡ true }
        requires sane { Sane self.old }
        requires calm { without_wait session self.old ≡ self.old }
        ensures step { let op = write_op table.now key.now (option_copied row.entry) in
            IfOk result (λ reply. StepFrom self.old session op manner reply self.new) }
        ensures err { OnErr result (self.new ≡ self.old) }
    {
        if !self.rows.has_entry(table, key) {
            return Ok(Reply::Missing);
        }
        let seen = self.rows.visible(session, table, key).is_some();
        match self.ask_x(session, table, key, row, seen, manner)? {
            Some(refusal) => Ok(refusal),
            None if seen => Ok(Reply::Done),
            None => Ok(Reply::Missing),
        }
    }

    /// Asks X on a key's entry; where that passes, keeps it, and sets the session's state there if `sets` says so.
    /// The answer where another session's pair stands in the way.
    pub(crate) fn ask_x(
        &mut self,
        session: u32,
        table: &TableName,
        key: &Key,
        row: Option<&Row>,
        sets: bool,
        manner: Manner,
    ) -> Result<Option<Reply>, Memory>
        requires session { IsSession session }
        requires begun { is_open session self.old ≡ true }
        requires sane { Sane self.old }
        requires calm { without_wait session self.old ≡ self.old }
        requires there { IsSome (entry_at self.old.entries table.now key.now) }
        ensures refused { IfOk result (λ refusal. IfSome refusal (λ reply. IsRefusedX self.old session table.now key.now manner reply self.new)) }
        ensures passes { result ≡ Ok None → Passes session (write_claim (entry_at self.old.entries table.now key.now)) self.old }
        ensures done { let kept = with_claim session (write_claim (entry_at self.old.entries table.now key.now)) self.old in
            let set = with_pending session table.now key.now (option_copied row.entry) kept in
            result ≡ Ok None → self.new ≡ (if sets then set else kept) }
        ensures err { OnErr result (self.new ≡ self.old) }
    {
        let on = self.place_on(table, key)?;
        match self.passed(session, Claim::x(on)) {
            Err(foe) => {
                let refusal = self.refuse(session, foe, manner)?;
                Ok(Some(refusal))
            }
            Ok(claim) => {
                if sets {
                    self.set(session, claim.on(), table, key, row)?;
                    return Ok(None);
                }
                self.keep(session, &claim)?;
                Ok(None)
            }
        }
    }

    // Locks a key's entry with X, and sets the session's state there.
    fn set(
        &mut self,
        session: u32,
        on: &Resource,
        table: &TableName,
        key: &Key,
        row: Option<&Row>,
    ) -> Result<(), Memory>
        requires session { IsSession session }
        requires begun { is_open session self.old ≡ true }
        requires sane { Sane self.old }
        requires there { IsSome (entry_at self.old.entries table.now key.now) }
        requires place { on.now ≡ place_on self.old.entries table.now key.now }
        requires passes { Passes session (Some (claim_x on.now)) self.old }
        ensures ok { let kept = with_claim session (Some (claim_x on.now)) self.old in
            OnOk result (self.new ≡ with_pending session table.now key.now (option_copied row.entry) kept) }
        ensures err { OnErr result (self.new ≡ self.old) }
    {
        let level = made_in(&self.active, session);
        set_locked(
            &mut self.rows,
            &mut self.locks,
            session,
            level,
            on,
            table,
            key,
            row,
        )
    }
}

// Adds X on a resource, and sets a session's state at a key. Where either wants memory, neither is done.
fn set_locked(
    rows: &mut RowStore,
    locks: &mut LockTable,
    session: u32,
    level: u64,
    on: &Resource,
    table: &TableName,
    key: &Key,
    row: Option<&Row>,
) -> Result<(), Memory>
    requires session { IsSession session }
    requires may { MayWrite session rows.old table.now key.now }
    ensures entries { let entries = entries_of rows.old in
        let state = pending_state session key.now (option_copied row.entry) in
        OnOk result (entries_of rows.new ≡ set_at (Some state) entries (entry_at entries table.now key.now)) }
    ensures makers { OnOk result (KeepsMakers rows.old rows.new) }
    ensures past { OnOk result (KeepsPast session level rows.old rows.new) }
    ensures below { OnOk result (KeepsBelow session level rows.old rows.new) }
    ensures locks { OnOk result (ChangesLocks session (λ own. own ++ locks_for (Some (claim_x on.now))) locks.old locks.new) }
    ensures err_rows { OnErr result (rows.new ≡ rows.old) }
    ensures err_locks { OnErr result (KeepsLocks locks.old locks.new) }
{
    locks.grant(session, on, Pair::EXCLUSIVE, Span::Transaction)?;
    match rows.set_pending(session, level, table, key, row) {
        Ok(()) => Ok(()),
        Err(Memory) => {
            locks.withdraw(session);
            Err(Memory)
        }
    }
}
