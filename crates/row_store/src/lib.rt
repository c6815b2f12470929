//! The entries of all tables, in order of table and key: what is committed at a key, and the states that a session
//! has given it.
//!
//! Read `specs/Rows.antt`. The layers above may rely on each look-up answering what the definitions of `step_model`
//! say of the list of entries, and on each write changing that list as they say. A caller tells with each write how
//! many marks the session's transaction has made, and writes only where no other session does. No clause says what
//! calls cost: a look-up or a write goes down two ordered maps, and an end of a transaction, or the way back to a mark,
//! goes over the keys at which the session has done something since its last end, each with such a look-up.
#![tactic(auto)]

ghost use Rattle.std.specs.Prelude.{◌≡◌, ℕ, [], None, Some, map, length, is_some, OnOk, OnErr};
ghost use Rattle.std.specs.Option.{option_copied, option_map};
ghost use Rattle.step_model.specs.Entries.{next_entry, entry_at, row_at, put_entry, pending_of, changes_by};
ghost use Rattle.step_model.specs.Moves.{new_entry, set_at, restore, settle as settle_entry, drop_pending as drop_entry};
ghost use Rattle.row_store.specs.Rows.{entries_of, MayWrite, AddsMaker, KeepsMakers, DropsMaker, KeepsPast, KeepsBelow, KeepsOthers, AreBelow, pending_state, pending_before, swept};

mod owned;
mod parts;
mod prefix;
mod stored;
mod sweep;

use crate::owned::Owned;
use crate::parts::Parts;
use crate::stored::Stored;
use crate::sweep::{back_at, changes_at, drop_at, settle_at};
use std::alloc::Global;
use std::collections::LinkedList;
use std::marker::Model;
use step_model::{Change, Start};
use value_types::{Key, Memory, Row, TableName};

/// The entries of all tables, and at which of them each session has done something.
#[derive(Drop)]
pub struct RowStore {
    parts: Parts,
    owned: Owned,
    alloc: Global,
}

impl Model for RowStore {
    ghost use Rattle.row_store.specs.Rows.{Rows};
    ghost use Rattle.row_store.specs.Parts.{rows_of};
    ghost use Rattle.row_store.specs.Owned.{IsStore};

    ghost Value = { Rows };

    ghost view = { λ store. rows_of store.parts };

    ghost invariant = { λ store. IsStore store.parts store.owned };
}

impl RowStore {
    /// No entries.
    pub fn new(alloc: Global) -> RowStore
        ensures { result ≡ [] }
    {
        RowStore {
            parts: Parts::none(alloc),
            owned: Owned::none(alloc),
            alloc,
        }
    }

    /// The key of the first entry of a table at which a range may begin.
    pub fn next_entry(&self, table: &TableName, start: &Start) -> Option<&Key>
        ensures { option_copied result ≡ option_map (λ entry. entry.key) (next_entry (entries_of self.now) table.now start.now) }
    {
        match self.parts.next(table, start) {
            Some(stored) => Some(stored.key()),
            None => None,
        }
    }

    /// The row that a session sees at a key.
    pub fn visible(&self, session: u32, table: &TableName, key: &Key) -> Option<&Row>
        ensures { option_copied result ≡ row_at session (entries_of self.now) table.now key.now }
    {
        match self.parts.get(table, key) {
            Some(stored) => stored.seen_by(session),
            None => None,
        }
    }

    /// Whether an entry stands at a key.
    pub fn has_entry(&self, table: &TableName, key: &Key) -> bool
        ensures { result ≡ is_some (entry_at (entries_of self.now) table.now key.now) }
    {
        self.parts.get(table, key).is_some()
    }

    /// Makes an entry of a session at a key that has none, with this row as its pending state. `level` is how many
    /// marks the session's transaction has made.
    pub fn set_new(
        &mut self,
        session: u32,
        level: u64,
        table: &TableName,
        key: &Key,
        row: &Row,
    ) -> Result<(), Memory>
        requires { entry_at (entries_of self.old) table.now key.now ≡ None }
        ensures entries { let entry = new_entry session table.now key.now row.now in
            OnOk result (entries_of self.new ≡ put_entry entry (entries_of self.old)) }
        ensures makers { OnOk result (AddsMaker session table.now key.now self.old self.new) }
        ensures past { OnOk result (KeepsPast session level self.old self.new) }
        ensures below { OnOk result (KeepsBelow session level self.old self.new) }
        ensures err { OnErr result (self.new ≡ self.old) }
    {
        let stored = Stored::new(self.alloc, session, level, table, key, row)?;
        self.owned.note(self.alloc, session, table, key)?;
        self.parts.insert(self.alloc, stored)
    }

    /// Sets a row, or its absence, as a session's pending state at the entry of a key.
    pub fn set_pending(
        &mut self,
        session: u32,
        level: u64,
        table: &TableName,
        key: &Key,
        row: Option<&Row>,
    ) -> Result<(), Memory>
        requires { MayWrite session self.old table.now key.now }
        ensures entries { let entries = entries_of self.old in
            let state = pending_state session key.now (option_copied row.entry) in
            OnOk result (entries_of self.new ≡ set_at (Some state) entries (entry_at entries table.now key.now)) }
        ensures makers { OnOk result (KeepsMakers self.old self.new) }
        ensures past { OnOk result (KeepsPast session level self.old self.new) }
        ensures below { OnOk result (KeepsBelow session level self.old self.new) }
        ensures err { OnErr result (self.new ≡ self.old) }
    {
        self.owned.note(self.alloc, session, table, key)?;
        self.parts
            .write(self.alloc, session, level, table, key, row)
    }

    /// Takes a session's pending states back to what they were when its transaction made a mark.
    pub fn back_to(&mut self, session: u32, mark: u64)
        ensures entries { entries_of self.new ≡ map (restore session (pending_before session mark self.old)) (entries_of self.old) }
        ensures makers { KeepsMakers self.old self.new }
        ensures past { KeepsPast session mark self.old self.new }
        ensures below { (who : ℕ) (limit : ℕ) → AreBelow who limit self.old → AreBelow who limit self.new }
    {
        let Some(spots) = self.owned.of(session) else {
            return;
        };
        back_at(&mut self.parts, session, mark, spots);
    }

    /// Makes a session's pending states the committed rows, and gives what they change, in order.
    pub fn settle(&mut self, session: u32) -> LinkedList<Change>
        ensures changes { result ≡ changes_by session (entries_of self.old) }
        ensures entries { entries_of self.new ≡ swept session (settle_entry session) self.old }
        ensures makers { DropsMaker session self.old self.new }
        ensures others { KeepsOthers session self.old self.new }
        ensures below { (limit : ℕ) → AreBelow session limit self.new }
    {
        let spots = self.owned.take(self.alloc, session);
        settle_at(&mut self.parts, self.alloc, session, &spots)
    }

    /// Drops a session's pending states.
    pub fn drop_pending(&mut self, session: u32)
        ensures entries { entries_of self.new ≡ swept session (drop_entry session) self.old }
        ensures makers { DropsMaker session self.old self.new }
        ensures others { KeepsOthers session self.old self.new }
        ensures below { (limit : ℕ) → AreBelow session limit self.new }
    {
        let spots = self.owned.take(self.alloc, session);
        drop_at(&mut self.parts, session, &spots);
    }

    /// How many states the session has pending.
    pub fn changes(&self, session: u32) -> u64
        ensures { result ≡ length (pending_of session (entries_of self.now)) }
    {
        match self.owned.of(session) {
            Some(spots) => changes_at(&self.parts, session, spots),
            None => 0,
        }
    }

    /// What was pending before a mark that is above all of a session's states is what is pending now.
    pub fn law_pending_now(&self)
        ensures { (session : ℕ) (limit : ℕ) → AreBelow session limit self.now
            → pending_before session limit self.now ≡ pending_of session (entries_of self.now) }
    {
        // Looking at what is kept opens the store: a state there is of its entry's table.
        let _none = self.parts.is_empty();
    }
}
