//! The cursors of a connection.

ghost use Rattle.std.specs.Prelude.{◌≡◌, [], All, OnErr, OnOk, option_map};
ghost use Rattle.std.specs.Option.{option_copied};
ghost use Rattle.std.specs.Result.{result_map_both};
ghost use Rattle.session_cursors.specs.Answers.{HasKinds};
ghost use Rattle.session_cursors.specs.Cursors as spec;
ghost use Rattle.session_cursors.specs.Faults.{Gives};

use crate::cursor::Cursor;
use crate::fault::CursorFault;
use std::alloc::Global;
use std::marker::Model;
use value_types::{Row, SqlType, Units};

/// The cursors over queries of one type, in the order in which they were declared.
///
/// Transact-SQL reference, "Cursors". Names are compared unit by unit, with case. Each call walks the list of
/// cursors once, to the one of its name; none walks rows.
#[derive(Drop)]
pub struct Cursors<Q> {
    cursors: Vec<Cursor<Q>>,
}

impl<Q> Model for Cursors<Q> {
    ghost use Rattle.std.specs.Prelude.{All, List};
    ghost use Rattle.session_cursors.specs.declared.cursor.Cursor.{Cursor as Declared};
    ghost use Rattle.session_cursors.specs.Cursors.{HasItsKinds};

    ghost Value = { List (Declared Q) };

    ghost view = { λ cursors. cursors.cursors.items };

    ghost invariant = { λ cursors. All HasItsKinds cursors.cursors.items };
}

impl<Q: Drop> Cursors<Q> {
    /// No cursors.
    pub fn new(alloc: Global) -> Cursors<Q>
        ensures { result ≡ [] }
    {
        Cursors {
            cursors: Vec::new(alloc),
        }
    }

    /// Adds a cursor of a new name, which is not open. Refused by `Present` where there is one of that name.
    ///
    /// Transact-SQL reference, "DECLARE CURSOR".
    pub fn declare(&mut self, name: Units, query: Q) -> Result<(), CursorFault>
        ensures answer { Gives result (spec.declare_answer name self.old) }
        ensures declared { OnOk result (self.new ≡ spec.declared name query self.old) }
        ensures err { OnErr result (self.new ≡ self.old) }
    {
        if self.find(&name).is_some() {
            return Err(CursorFault::Present);
        }
        self.cursors.push(Cursor {
            name,
            query,
            answer: None,
        })?;
        Ok(())
    }

    /// The query of the cursor of this name. Refused by `NoSuch` where there is none.
    pub fn query(&self, name: &Units) -> Result<&Q, CursorFault>
        ensures { result_map_both (λ query. query.now) (λ fault. fault) result ≡ spec.query_of name.now self.now }
    {
        match self.find(name) {
            Some(cursor) => Ok(&cursor.query),
            None => Err(CursorFault::NoSuch),
        }
    }

    /// Opens the cursor of this name on an answer. Refused by `NoSuch` where there is none, and by
    /// `AlreadyFilled` where it is open.
    ///
    /// Transact-SQL reference, "OPEN".
    pub fn fill(
        &mut self,
        name: &Units,
        kinds: Vec<SqlType>,
        rows: Vec<Row>,
    ) -> Result<(), CursorFault>
        requires { All (HasKinds kinds.items) rows.items }
        ensures answer { result ≡ spec.fill_answer name.now self.old }
        ensures cursors { self.new ≡ spec.filled name.now kinds.items rows.items self.old }
    {
        match self.place_of(name) {
            Some(place) => self.cursors[place].fill(kinds, rows),
            None => Err(CursorFault::NoSuch),
        }
    }

    /// The types of the columns of the open cursor of this name. Refused by `NoSuch` where there is none, and
    /// by `NotFilled` where it is not open.
    pub fn kinds(&self, name: &Units) -> Result<&[SqlType], CursorFault>
        ensures { result_map_both (λ kinds. kinds.now) (λ fault. fault) result ≡ spec.kinds_of name.now self.now }
    {
        match self.find(name) {
            Some(cursor) => cursor.kinds(),
            None => Err(CursorFault::NoSuch),
        }
    }

    /// The next row of the open cursor of this name, which stays the next, or `None` past the last. Refused by
    /// `NoSuch` where there is none, and by `NotFilled` where it is not open.
    pub fn peek(&self, name: &Units) -> Result<Option<&Row>, CursorFault>
        ensures { result_map_both option_copied (λ fault. fault) result ≡ spec.next_of name.now self.now }
    {
        match self.find(name) {
            Some(cursor) => cursor.peek(),
            None => Err(CursorFault::NoSuch),
        }
    }

    /// Takes the next row of the open cursor of this name, and answers `None` past the last. Refused by
    /// `NoSuch` where there is none, and by `NotFilled` where it is not open.
    ///
    /// Transact-SQL reference, "FETCH".
    pub fn next(&mut self, name: &Units) -> Result<Option<Row>, CursorFault>
        ensures answer { result ≡ spec.next_of name.now self.old }
        ensures cursors { self.new ≡ spec.fetched name.now self.old }
    {
        match self.place_of(name) {
            Some(place) => self.cursors[place].next(),
            None => Err(CursorFault::NoSuch),
        }
    }

    /// Closes the open cursor of this name, and drops the rows that were still to come. Refused by `NoSuch`
    /// where there is none, and by `NotFilled` where it is not open.
    ///
    /// Transact-SQL reference, "CLOSE".
    pub fn close(&mut self, name: &Units) -> Result<(), CursorFault>
        ensures answer { result ≡ spec.close_answer name.now self.old }
        ensures cursors { self.new ≡ spec.closed name.now self.old }
    {
        match self.place_of(name) {
            Some(place) => self.cursors[place].close(),
            None => Err(CursorFault::NoSuch),
        }
    }

    /// Removes the cursor of this name, open or not; the others stay in their order. Refused by `NoSuch`
    /// where there is none.
    ///
    /// Transact-SQL reference, "DEALLOCATE".
    pub fn remove(&mut self, name: &Units) -> Result<(), CursorFault>
        ensures answer { result ≡ spec.remove_answer name.now self.old }
        ensures cursors { self.new ≡ spec.removed name.now self.old }
    {
        match self.place_of(name) {
            Some(place) => {
                self.cursors.remove(place);
                Ok(())
            }
            None => Err(CursorFault::NoSuch),
        }
    }

    /// The rows that are still to come have a value for each column, NULL or of its type.
    pub fn law_typed(&self)
        ensures { All spec.HasItsKinds self.now }
    {
        let _ = &self.cursors;
    }

    /// The cursor of this name.
    fn find(&self, name: &Units) -> Option<&Cursor<Q>>
        ensures { option_map (λ cursor. cursor.now) result ≡ spec.cursor_of name.now self.now }
    {
        self.cursors.iter().find(|cursor| cursor.name == *name)
    }

    /// The place of the cursor of this name.
    fn place_of(&self, name: &Units) -> Option<usize>
        ensures { result ≡ spec.place_of name.now self.now }
    {
        self.cursors.iter().position(|cursor| cursor.name == *name)
    }
}
