//! An entry as the store keeps it, and what the open transaction that has written there has done.

ghost use Rattle.std.specs.Prelude.{◌≡◌, ◌==◌, ◌+◌, ◌<◌, ◌^◌, ◌∷◌, ◌++◌, [], Some, nat_lt, is_some, IfOk, OnOk, OnErr};
ghost use Rattle.std.specs.List.{slice_get};
ghost use Rattle.std.specs.LinkedList.{linked_list_len};
ghost use Rattle.std.specs.Option.{option_copied, option_to_list};
ghost use Rattle.step_model.specs.Entries.{pending_by, seen_by};
ghost use Rattle.row_store.specs.Rows.{entry_of};
ghost use Rattle.row_store.specs.Writes.{state_at, new_stored, written, put_state, is_past, before_mark, back_stored, settled, dropped, is_kept, kept_row, kept_change, change_in};

use std::alloc::Global;
use std::collections::LinkedList;
use std::marker::Model;
use std::mem::replace;
use step_model::Change;
use value_types::{Key, Memory, Row, TableName, beside, letting_go};

/// A state that a session has given a key, as the change that it is: with the key as it was asked last. The log's
/// copy is made beforehand, so that a commit takes no memory.
#[derive(Drop)]
struct State {
    level: u64,
    change: Change,
    logged: LinkedList<Change>,
}

impl Model for State {
    ghost use Rattle.std.specs.Prelude.{◌≡◌, ◌∷◌, []};
    ghost use Rattle.row_store.specs.Rows.{State as Kept};

    ghost Value = { Kept };

    ghost view = { λ state. record { level = state.level; change = state.change } };

    ghost invariant = { λ state. state.logged ≡ state.change ∷ [] };
}

impl State {
    /// A state of this row, or of its absence.
    fn new(
        alloc: Global,
        level: u64,
        table: &TableName,
        key: &Key,
        row: Option<&Row>,
    ) -> Result<State, Memory>
        ensures { IfOk result (λ state. state ≡ state_at level table.now key.now (option_copied row.entry)) }
    {
        let change = change_to(alloc, table, key, row)?;
        let logged = logged_of(alloc, &change);
        let (change, logged) = beside(change, logged)?;
        Ok(State {
            level,
            change,
            logged,
        })
    }

    /// Whether it was written at a level below this.
    fn is_below(&self, limit: u64) -> bool
        ensures { result ≡ nat_lt self.now.level limit }
    {
        self.level < limit
    }

    /// The row, or none.
    fn row(&self) -> Option<&Row>
        ensures { option_copied result ≡ self.now.change.row }
    {
        self.change.row.as_ref()
    }

    /// The row, or none, and the log's copy.
    fn into_parts(self) -> (Option<Row>, LinkedList<Change>)
        ensures row { result.0 ≡ self.change.row }
        ensures logged { result.1 ≡ self.change ∷ [] }
    {
        let State {
            level: _,
            change,
            logged,
        } = self;
        (change.row, logged)
    }
}

/// The change that gives a key this row, or its absence.
fn change_to(
    alloc: Global,
    table: &TableName,
    key: &Key,
    row: Option<&Row>,
) -> Result<Change, Memory>
    ensures { let row = option_copied row.entry in
        IfOk result (λ change. change ≡ record { table = table.now; key = key.now; row = row }) }
{
    let table = table.copy(alloc)?;
    let (table, key) = beside(table, key.copy(alloc))?;
    let (at, row) = beside((table, key), row_copied(alloc, row))?;
    let (table, key) = at;
    Ok(Change { table, key, row })
}

/// A row, or its absence, copied.
fn row_copied(alloc: Global, row: Option<&Row>) -> Result<Option<Row>, Memory>
    ensures { IfOk result (λ copy. copy ≡ option_copied row.entry) }
{
    match row {
        Some(row) => Ok(Some(row.copy(alloc)?)),
        None => Ok(None),
    }
}

/// The log's copy of a change.
fn logged_of(alloc: Global, change: &Change) -> Result<LinkedList<Change>, Memory>
    ensures { IfOk result (λ logged. logged ≡ change.now ∷ []) }
{
    let copy = change.copy(alloc)?;
    let mut logged = LinkedList::new(alloc);
    logged.push_back(copy)?;
    Ok(logged)
}

/// What an open transaction has done at an entry: whether it made it, and its states, the latest first.
#[derive(Drop)]
struct Work {
    owner: u32,
    is_maker: bool,
    states: LinkedList<State>,
}

impl Model for Work {
    ghost use Rattle.row_store.specs.Rows.{Work as Done};

    ghost Value = { Done };

    ghost view = { λ work. record { owner = work.owner; is_maker = work.is_maker; states = work.states } };
}

impl Work {
    /// A first state.
    fn new(alloc: Global, owner: u32, is_maker: bool, state: State) -> Result<Work, Memory>
        ensures { let states = state ∷ [] in
            IfOk result (λ work. work ≡ record { owner = owner; is_maker = is_maker; states = states }) }
    {
        let mut states = LinkedList::new(alloc);
        states.push_front(state)?;
        Ok(Work {
            owner,
            is_maker,
            states,
        })
    }

    /// Whether it is a session's.
    fn is_of(&self, session: u32) -> bool
        ensures { result ≡ (self.now.owner == session) }
    {
        self.owner == session
    }

    /// The latest state.
    fn latest(&self) -> Option<&State>
        ensures { option_copied result ≡ slice_get self.now.states 0 }
    {
        self.states.front()
    }

    /// Adds a state, in place of the latest one if that is of its level.
    fn write(&mut self, state: State) -> Result<(), Memory>
        ensures ok { OnOk result (self.new ≡ record self.old { states = put_state state self.old.states }) }
        ensures err { OnErr result (self.new ≡ self.old) }
    {
        match self.states.front_mut() {
            Some(latest) if !latest.is_below(state.level) => {
                letting_go(replace(latest, state), Ok(()))
            }
            _ => Ok(self.states.push_front(state)?),
        }
    }

    /// Takes the states away that were written at this mark or later.
    fn back_to(&mut self, mark: u64)
        ensures { self.new ≡ record self.old { states = before_mark mark self.old.states } }
    {
        while self.is_past(mark) {
            let _later = self.states.pop_front();
        }
    }

    /// Whether the latest state was written at this mark or later.
    fn is_past(&self, mark: u64) -> bool
        ensures { result ≡ is_past mark self.now.states }
    {
        match self.states.front() {
            Some(latest) => !latest.is_below(mark),
            None => false,
        }
    }
}

/// A key of a table, with its committed row, and what an open transaction has done there.
#[derive(Drop)]
pub(crate) struct Stored {
    table: TableName,
    key: Key,
    committed: Option<Row>,
    work: Option<Work>,
}

impl Model for Stored {
    ghost use Rattle.row_store.specs.Rows.{Stored as Kept};

    ghost Value = { Kept };

    ghost view = { λ stored. record {
      table = stored.table;
      key = stored.key;
      committed = stored.committed;
      work = stored.work;
    } };
}

impl Stored {
    /// The entry that a session makes by setting a row at a key that has none.
    pub(crate) fn new(
        alloc: Global,
        session: u32,
        level: u64,
        table: &TableName,
        key: &Key,
        row: &Row,
    ) -> Result<Stored, Memory>
        ensures { IfOk result (λ stored. stored ≡ new_stored session level table.now key.now row.now) }
    {
        let state = State::new(alloc, level, table, key, Some(row))?;
        let work = Work::new(alloc, session, true, state)?;
        Ok(Stored {
            table: table.copy(alloc)?,
            key: key.copy(alloc)?,
            committed: None,
            work: Some(work),
        })
    }

    /// Sets a row, or its absence, as a session's pending state.
    pub(crate) fn write(
        &mut self,
        alloc: Global,
        session: u32,
        level: u64,
        key: &Key,
        row: Option<&Row>,
    ) -> Result<(), Memory>
        ensures ok { OnOk result (self.new ≡ written session level key.now (option_copied row.entry) self.old) }
        ensures err { OnErr result (self.new ≡ self.old) }
    {
        let state = State::new(alloc, level, &self.table, key, row)?;
        match &mut self.work {
            Some(work) if work.is_of(session) => work.write(state)?,
            work => *work = Some(Work::new(alloc, session, false, state)?),
        }
        Ok(())
    }

    /// Takes a session's states away that were written at this mark or later.
    pub(crate) fn back_to(&mut self, session: u32, mark: u64)
        ensures { self.new ≡ back_stored session mark self.old }
    {
        if let Some(work) = &mut self.work
            && work.is_of(session)
        {
            work.back_to(mark);
        }
    }

    /// Makes a session's pending state the committed row, and adds what it changes.
    pub(crate) fn settle(&mut self, session: u32, changes: &mut LinkedList<Change>)
        requires { linked_list_len changes.old + 1 < 2 ^ 63 }
        ensures stored { self.new ≡ settled session self.old }
        ensures changes { changes.new ≡ changes.old ++ option_to_list (change_in session self.old) }
    {
        match self.work.take() {
            Some(work) if work.is_of(session) => self.keep(work, changes),
            others => self.work = others,
        }
    }

    /// Makes the latest state of what was done the committed row, and adds what it changes.
    fn keep(&mut self, mut work: Work, changes: &mut LinkedList<Change>)
        requires { linked_list_len changes.old + 1 < 2 ^ 63 }
        ensures stored { self.new ≡ record self.old { committed = kept_row self.old.committed work.states } }
        ensures changes { changes.new ≡ changes.old ++ option_to_list (kept_change self.old.committed work.states) }
    {
        if let Some(state) = work.states.pop_front() {
            let (row, mut logged) = state.into_parts();
            if row.is_some() || self.committed.is_some() {
                let _appended = changes.append(&mut logged);
            }
            self.committed = row;
        }
    }

    /// Drops what a session has done.
    pub(crate) fn drop_pending(&mut self, session: u32)
        ensures { self.new ≡ dropped session self.old }
    {
        if let Some(work) = &self.work
            && work.is_of(session)
        {
            self.work = None;
        }
    }

    /// Whether a row is committed, or somebody has done something.
    pub(crate) fn is_kept(&self) -> bool
        ensures { result ≡ is_kept self.now }
    {
        self.committed.is_some() || self.work.is_some()
    }

    /// The table.
    pub(crate) fn table(&self) -> &TableName
        ensures { result.now ≡ self.now.table }
    {
        &self.table
    }

    /// The key.
    pub(crate) fn key(&self) -> &Key
        ensures { result.now ≡ self.now.key }
    {
        &self.key
    }

    /// Whether a session has a state pending here.
    pub(crate) fn is_changed_by(&self, session: u32) -> bool
        ensures { result ≡ is_some (pending_by session (entry_of self.now) (entry_of self.now).pending) }
    {
        match &self.work {
            Some(work) if work.is_of(session) => work.latest().is_some(),
            _ => false,
        }
    }

    /// The row that a session sees here.
    pub(crate) fn seen_by(&self, session: u32) -> Option<&Row>
        ensures { option_copied result ≡ seen_by session (entry_of self.now) }
    {
        match &self.work {
            Some(work) if work.is_of(session) => match work.latest() {
                Some(latest) => latest.row(),
                None => self.committed.as_ref(),
            },
            _ => self.committed.as_ref(),
        }
    }
}
