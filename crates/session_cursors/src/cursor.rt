//! A cursor, and the answer that it goes through.

ghost use Rattle.std.specs.Prelude.{◌≡◌};
ghost use Rattle.std.specs.Option.{option_copied};
ghost use Rattle.std.specs.Result.{result_map_both};
ghost use Rattle.session_cursors.specs.Cursors as spec;

use crate::fault::CursorFault;
use std::collections::VecDeque;
use std::marker::Model;
use value_types::{Row, SqlType, Units};

/// What the query of an open cursor answered: the types of its columns, and the rows that are still to come.
#[derive(Drop)]
pub struct Answer {
    kinds: Vec<SqlType>,
    rows: VecDeque<Row>,
}

impl Model for Answer {
    ghost use Rattle.session_cursors.specs.Answers.{AnswerLeft};

    ghost Value = { AnswerLeft };

    ghost view = { λ answer. record { kinds = answer.kinds.items; rows = answer.rows.items } };
}

impl Answer {
    /// An answer of which all rows are still to come.
    fn new(kinds: Vec<SqlType>, rows: Vec<Row>) -> Answer
        ensures { result ≡ record { kinds = kinds.items; rows = rows.items } }
    {
        Answer {
            kinds,
            rows: VecDeque::from(rows),
        }
    }

    /// The types of its columns.
    fn kinds(&self) -> &[SqlType]
        ensures { result.now ≡ self.now.kinds }
    {
        self.kinds.as_slice()
    }

    /// The first of the rows that are still to come.
    fn first_row(&self) -> Option<&Row>
        ensures { option_copied result ≡ spec.first_row self.now }
    {
        self.rows.front()
    }

    /// Takes the first of the rows that are still to come.
    fn take_row(&mut self) -> Option<Row>
        ensures row { result ≡ spec.first_row self.old }
        ensures left { self.new ≡ spec.behind_first self.old }
    {
        self.rows.pop_front()
    }
}

/// A cursor.
#[derive(Drop)]
pub struct Cursor<Q> {
    /// Its name.
    pub name: Units,
    /// What it was declared for.
    pub query: Q,
    /// What that answered, while it is open.
    pub answer: Option<Answer>,
}

impl<Q: Drop> Cursor<Q> {
    /// The types of its columns.
    pub(crate) fn kinds(&self) -> Result<&[SqlType], CursorFault>
        ensures { result_map_both (λ kinds. kinds.now) (λ fault. fault) result ≡ spec.given_by (λ left. left.kinds) self.now.answer }
    {
        match &self.answer {
            Some(answer) => Ok(answer.kinds()),
            None => Err(CursorFault::NotFilled),
        }
    }

    /// Opens it on an answer.
    pub(crate) fn fill(&mut self, kinds: Vec<SqlType>, rows: Vec<Row>) -> Result<(), CursorFault>
        ensures answer { result ≡ spec.fill_on self.old.answer }
        ensures cursor { self.new ≡ spec.opened kinds.items rows.items self.old }
    {
        match self.answer {
            Some(_) => Err(CursorFault::AlreadyFilled),
            None => {
                self.answer = Some(Answer::new(kinds, rows));
                Ok(())
            }
        }
    }

    /// Its next row, which stays the next.
    pub(crate) fn peek(&self) -> Result<Option<&Row>, CursorFault>
        ensures { result_map_both option_copied (λ fault. fault) result ≡ spec.given_by spec.first_row self.now.answer }
    {
        match &self.answer {
            Some(answer) => Ok(answer.first_row()),
            None => Err(CursorFault::NotFilled),
        }
    }

    /// Takes its next row.
    pub(crate) fn next(&mut self) -> Result<Option<Row>, CursorFault>
        ensures answer { result ≡ spec.given_by spec.first_row self.old.answer }
        ensures cursor { self.new ≡ spec.advanced self.old }
    {
        match &mut self.answer {
            Some(answer) => Ok(answer.take_row()),
            None => Err(CursorFault::NotFilled),
        }
    }

    /// Closes it.
    pub(crate) fn close(&mut self) -> Result<(), CursorFault>
        ensures answer { result ≡ spec.given_by (λ left. tt) self.old.answer }
        ensures cursor { self.new ≡ spec.shut self.old }
    {
        match self.answer {
            Some(_) => {
                self.answer = None;
                Ok(())
            }
            None => Err(CursorFault::NotFilled),
        }
    }
}
