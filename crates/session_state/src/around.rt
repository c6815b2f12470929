//! What stands around a statement.

ghost use Rattle.std.specs.Prelude.{◌≡◌, ◌<◌, nat_le, IfOk, option_map};
ghost use Rattle.batch_meaning.specs.Raised.{action_in, around_batch, catches, in_body, in_catch, in_some_try, in_try, is_caught_in};
ghost use Rattle.batch_meaning.specs.Tokens.{done_kind};
ghost use Rattle.error_table.specs.Act.{base_caught};
ghost use Rattle.value_types.specs.Units.{same_units};
ghost use Rattle.session_state.specs.Parts.{is_level_up, is_trigger_of};

use crate::fired::Fired;
use batch_meaning::Raised;
use error_table::{Action, Caught, RaisedBy, action_of, row_of};
use std::alloc::Global;
use std::marker::Model;
use tds_tokens::DoneKind;
use value_types::{Memory, Units};

/// How deep procedures and triggers may stand in one another.
const DEPTH_LIMIT: u32 = 32;

/// What stands around a statement: whether a TRY of its own batch, procedure or trigger does, and one around what called
/// or fired that; the error of the innermost CATCH, if one does; and the procedure or trigger itself, with how deep it
/// is and what a trigger sees.
#[derive(Drop)]
pub struct Around<'c, 'p> {
    tries: bool,
    tries_outside: bool,
    caught: Option<&'c Raised>,
    procedure: Option<&'p Units>,
    depth: u32,
    fired: Option<&'p Fired>,
}

impl<'c, 'p> Model for Around<'c, 'p> {
    ghost use Rattle.std.specs.Coded.{codes};
    ghost use Rattle.tsql_tree.specs.contracts.query.Test as tree;
    ghost use Rattle.std.specs.Prelude.{◌≤◌, option_map};
    ghost use Rattle.batch_meaning.specs.Raised.{Around as Stands, named};

    ghost Value = { Stands };

    ghost coded = { Prim.hlevel (codes, tree.the_row.coded) };

    ghost view = { λ around. record {
      tries = around.tries;
      tries_outside = around.tries_outside;
      caught = option_map (λ raised. raised.now) around.caught;
      procedure = named (option_map (λ name. name.now) around.procedure);
      depth = around.depth;
      fired = option_map (λ fired. fired.now) around.fired;
    } };

    ghost invariant = { λ around. around.depth ≤ 32 };
}

impl<'c, 'p> Around<'c, 'p> {
    /// Around a batch there is nothing.
    pub fn batch() -> Around<'c, 'p>
        ensures { result ≡ around_batch }
    {
        Around {
            tries: false,
            tries_outside: false,
            caught: None,
            procedure: None,
            depth: 0,
            fired: None,
        }
    }

    /// In a TRY.
    pub fn in_try(&self) -> Around<'c, 'p>
        ensures { result ≡ in_try self.now }
    {
        Around {
            tries: true,
            tries_outside: self.tries_outside,
            caught: self.caught,
            procedure: self.procedure,
            depth: self.depth,
            fired: self.fired,
        }
    }

    /// In the CATCH of an error.
    pub fn in_catch<'b>(&self, raised: &'b Raised) -> Around<'b, 'p>
        ensures { result ≡ in_catch raised.now self.now }
    {
        Around {
            tries: self.tries,
            tries_outside: self.tries_outside,
            caught: Some(raised),
            procedure: self.procedure,
            depth: self.depth,
            fired: self.fired,
        }
    }

    /// In a procedure or trigger of this name, which a statement calls or fires.
    pub fn in_body<'b>(&self, name: &'b Units, fired: Option<&'b Fired>) -> Around<'c, 'b>
        requires room { self.now.depth < 32 }
        ensures { result ≡ in_body name.now (option_map (λ fired. fired.now) fired.entry) self.now }
    {
        Around {
            tries: false,
            tries_outside: self.in_some_try(),
            caught: self.caught,
            procedure: Some(name),
            depth: self.depth + 1,
            fired,
        }
    }

    /// The error of the CATCH around.
    pub fn caught(&self) -> Option<&'c Raised>
        ensures { option_map (λ raised. raised.now) result ≡ self.now.caught }
    {
        self.caught
    }

    /// What a trigger sees, in one.
    pub fn fired(&self) -> Option<&'p Fired>
        ensures { option_map (λ fired. fired.now) result ≡ self.now.fired }
    {
        self.fired
    }

    /// Whether it is a trigger of this name.
    pub fn is_trigger(&self, name: &Units) -> bool
        ensures { result ≡ is_trigger_of name.now self.now.fired self.now.procedure }
    {
        match self.fired {
            Some(_) => self.is_called(name),
            None => false,
        }
    }

    /// Whether this is the name of the procedure or trigger; of a batch it is empty.
    fn is_called(&self, name: &Units) -> bool
        ensures { result ≡ same_units name.now self.now.procedure }
    {
        match self.procedure {
            Some(own) => *name == *own,
            None => name.is_empty(),
        }
    }

    /// Whether one procedure or trigger more would be too deep.
    pub fn is_deepest(&self) -> bool
        ensures { result ≡ nat_le 32 self.now.depth }
    {
        DEPTH_LIMIT <= self.depth
    }

    /// A copy of the name of the procedure or trigger; of a batch it is empty.
    pub fn procedure(&self, alloc: Global) -> Result<Units, Memory>
        ensures { IfOk result (λ name. name ≡ self.now.procedure) }
    {
        match self.procedure {
            Some(name) => name.copy(alloc),
            None => Ok(Units::new(alloc)),
        }
    }

    /// Which DONE ends a statement here.
    pub fn done_kind(&self) -> DoneKind
        ensures { result ≡ done_kind self.now }
    {
        if self.depth == 0 {
            DoneKind::Done
        } else {
            DoneKind::InProc
        }
    }

    /// Whether a TRY stands around.
    fn in_some_try(&self) -> bool
        ensures { result ≡ in_some_try self.now }
    {
        self.tries || self.tries_outside
    }

    /// Whether a TRY around catches an error.
    pub fn catches(&self, raised: &Raised) -> bool
        ensures { result ≡ is_caught_in self.now raised.now }
    {
        match base_caught(raised.number, raised.by) {
            Caught::Yes => self.in_some_try(),
            Caught::LevelUp => self.tries_outside,
            Caught::No => false,
        }
    }

    /// What an error ends.
    pub fn action(&self, xact_abort: bool, raised: &Raised) -> Action
        ensures { result ≡ action_in self.now xact_abort raised.now }
    {
        action_of(raised.number, raised.by, xact_abort, self.catches(raised))
    }
}

/// Whether an error is caught only one level up.
pub fn is_for_outside(raised: &Raised) -> bool
    ensures { result ≡ is_level_up (base_caught raised.now.number raised.now.by) }
{
    base_caught(raised.number, raised.by) == Caught::LevelUp
}

/// Which TRY catches an error.
fn base_caught(number: i32, by: RaisedBy) -> Caught
    ensures { result ≡ base_caught number by }
{
    match by {
        RaisedBy::Engine => match row_of(number) {
            Some(row) => row.caught,
            None => Caught::Yes,
        },
        RaisedBy::Raiserror => Caught::Yes,
        RaisedBy::Throw => Caught::Yes,
    }
}
