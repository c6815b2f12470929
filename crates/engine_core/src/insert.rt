//! An insertion: at an entry where the session sees no row, or with a new entry.

ghost use Rattle.std.specs.Prelude.{◌≡◌, ◌≢◌, ◌++◌, [], true, None, if◌then◌else◌, IsSome, IfOk, OnOk, OnErr};
ghost use Rattle.step_model.specs.Exchange.{IsSession};
ghost use Rattle.step_model.specs.Locks.{is_range_s, pair_on};
ghost use Rattle.step_model.specs.Entries.{entry_at, place_on, put_entry};
ghost use Rattle.step_model.specs.State.{is_open};
ghost use Rattle.step_model.specs.Step.{StepFrom};
ghost use Rattle.step_model.specs.Moves.{new_entry, with_entry, without_wait};
ghost use Rattle.step_model.specs.Claims.{new_locks, inherits};
ghost use Rattle.history_laws.specs.Sane.{Sane};
ghost use Rattle.row_store.specs.Rows.{entries_of, AddsMaker, KeepsPast, KeepsBelow};
ghost use Rattle.lock_table.specs.Table.{ChangesLocks, KeepsLocks, of_session, all_but_last};

use crate::claim::{Claim, resource_at};
use crate::parts::Parts;
use crate::transaction::made_in;
use lock_modes::Pair;
use lock_table::LockTable;
use row_store::RowStore;
use std::alloc::Global;
use step_model::{Manner, Op, Reply, Resource, Span};
use value_types::{Key, Memory, Row, TableName};

impl Parts {
    /// Sets a row where the session sees none.
    pub(crate) fn insert(
        &mut self,
        session: u32,
        table: &TableName,
        key: &Key,
        row: &Row,
        manner: Manner,
    ) -> Result<Reply, Memory>
        requires session { IsSession session }
        requires begun { is_open session self.old ≡ true }
        requires sane { Sane self.old }
        requires calm { without_wait session self.old ≡ self.old }
        ensures step { let op = Op.Insert table.now key.now row.now in
            IfOk result (λ reply. StepFrom self.old session op manner reply self.new) }
        ensures err { OnErr result (self.new ≡ self.old) }
    {
        if self.rows.has_entry(table, key) {
            self.insert_at(session, table, key, row, manner)
        } else {
            self.insert_new(session, table, key, row, manner)
        }
    }

    // Where an entry stands.
    fn insert_at(
        &mut self,
        session: u32,
        table: &TableName,
        key: &Key,
        row: &Row,
        manner: Manner,
    ) -> Result<Reply, Memory>
        requires session { IsSession session }
        requires begun { is_open session self.old ≡ true }
        requires sane { Sane self.old }
        requires calm { without_wait session self.old ≡ self.old }
        requires there { IsSome (entry_at self.old.entries table.now key.now) }
        ensures step { let op = Op.Insert table.now key.now row.now in
            IfOk result (λ reply. StepFrom self.old session op manner reply self.new) }
        ensures err { OnErr result (self.new ≡ self.old) }
    {
        let free = self.rows.visible(session, table, key).is_none();
        match self.ask_x(session, table, key, Some(row), free, manner)? {
            Some(refusal) => Ok(refusal),
            None if free => Ok(Reply::Done),
            None => Ok(Reply::Exists),
        }
    }

    // Where none stands.
    fn insert_new(
        &mut self,
        session: u32,
        table: &TableName,
        key: &Key,
        row: &Row,
        manner: Manner,
    ) -> Result<Reply, Memory>
        requires session { IsSession session }
        requires begun { is_open session self.old ≡ true }
        requires sane { Sane self.old }
        requires calm { without_wait session self.old ≡ self.old }
        requires absent { entry_at self.old.entries table.now key.now ≡ None }
        ensures step { let op = Op.Insert table.now key.now row.now in
            IfOk result (λ reply. StepFrom self.old session op manner reply self.new) }
        ensures err { OnErr result (self.new ≡ self.old) }
    {
        let claim = Claim::insertion(self.place_on(table, key)?);
        match self.passed(session, claim) {
            Err(foe) => self.refuse(session, foe, manner),
            Ok(claim) => {
                self.add(session, claim.on(), table, key, row)?;
                Ok(Reply::Done)
            }
        }
    }

    // Makes an entry, with the session's locks on it.
    fn add(
        &mut self,
        session: u32,
        above: &Resource,
        table: &TableName,
        key: &Key,
        row: &Row,
    ) -> Result<(), Memory>
        requires session { IsSession session }
        requires begun { is_open session self.old ≡ true }
        requires sane { Sane self.old }
        requires absent { entry_at self.old.entries table.now key.now ≡ None }
        requires place { above.now ≡ place_on self.old.entries table.now key.now }
        ensures ok { let locks = new_locks table.now key.now (inherits session table.now key.now self.old) in
            OnOk result (self.new ≡ with_entry session table.now key.now row.now locks self.old) }
        ensures err { OnErr result (self.new ≡ self.old) }
    {
        let level = made_in(&self.active, session);
        add_locked(
            &mut self.rows,
            &mut self.locks,
            self.alloc,
            session,
            level,
            above,
            table,
            key,
            row,
        )
    }
}

// Adds the locks of a new entry, and makes it. Where either wants memory, neither is done.
fn add_locked(
    rows: &mut RowStore,
    locks: &mut LockTable,
    alloc: Global,
    session: u32,
    level: u64,
    above: &Resource,
    table: &TableName,
    key: &Key,
    row: &Row,
) -> Result<(), Memory>
    requires session { IsSession session }
    requires absent { entry_at (entries_of rows.old) table.now key.now ≡ None }
    ensures entries { let entry = new_entry session table.now key.now row.now in
        OnOk result (entries_of rows.new ≡ put_entry entry (entries_of rows.old)) }
    ensures makers { OnOk result (AddsMaker session table.now key.now rows.old rows.new) }
    ensures past { OnOk result (KeepsPast session level rows.old rows.new) }
    ensures below { OnOk result (KeepsBelow session level rows.old rows.new) }
    ensures locks { let whether = is_range_s (pair_on above.now (of_session session locks.old)).range in
        OnOk result (ChangesLocks session (λ own. own ++ new_locks table.now key.now whether) locks.old locks.new) }
    ensures err_rows { OnErr result (rows.new ≡ rows.old) }
    ensures err_locks { OnErr result (KeepsLocks locks.old locks.new) }
{
    let inherited = lock_new(locks, alloc, session, above, table, key)?;
    match rows.set_new(session, level, table, key, row) {
        Ok(()) => Ok(()),
        Err(Memory) => {
            unlock_new(locks, session, inherited);
            Err(Memory)
        }
    }
}

// Adds X on a new key's resource, and range part S where the session has it above; and whether that was so.
fn lock_new(
    locks: &mut LockTable,
    alloc: Global,
    session: u32,
    above: &Resource,
    table: &TableName,
    key: &Key,
) -> Result<bool, Memory>
    requires session { IsSession session }
    ensures whether { IfOk result (λ whether. whether ≡ is_range_s (pair_on above.now (of_session session locks.old)).range) }
    ensures ok { IfOk result (λ whether. ChangesLocks session (λ own. own ++ new_locks table.now key.now whether) locks.old locks.new) }
    ensures err { OnErr result (KeepsLocks locks.old locks.new) }
{
    let on = resource_at(alloc, table, Some(key))?;
    locks.grant(session, &on, Pair::EXCLUSIVE, Span::Transaction)?;
    match locks.inherit(session, above, &on) {
        Ok(inherited) => Ok(inherited),
        Err(Memory) => {
            locks.withdraw(session);
            Err(Memory)
        }
    }
}

// Takes these back.
fn unlock_new(locks: &mut LockTable, session: u32, inherited: bool)
    requires one { of_session session locks.old ≢ [] }
    requires two { inherited ≡ true → all_but_last (of_session session locks.old) ≢ [] }
    ensures { ChangesLocks session (λ own. if inherited then all_but_last (all_but_last own) else all_but_last own) locks.old locks.new }
{
    locks.withdraw(session);
    if !inherited {
        return;
    }
    locks.withdraw(session);
}
