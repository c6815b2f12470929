//! Statements that are prepared, by their handles.

ghost use Rattle.std.specs.Prelude.{◌≡◌, ◌-◌, [], IfOk, None, Some, if◌then◌else◌, nat_le, nat_lt, option_map, sum_by};
ghost use Rattle.batch_meaning.specs.Drivers.{are_many, are_within, is_of, kept_under, has_handle, next_handle, none_kept, place_of, shed, units_in, used_by, with_statement, without};

use std::alloc::Global;
use std::marker::Model;
use value_types::{Memory, Units};

/// How many statements are kept.
const MOST_KEPT: usize = 1000;

/// How many units of all of them, with their declarations.
const MOST_UNITS: usize = 1_048_576;

/// The last handle, which is the greatest INT.
const LAST_HANDLE: u32 = 2_147_483_647;

/// A statement that is kept.
#[derive(Drop)]
pub struct PreparedStatement {
    /// Its handle.
    pub handle: u32,
    /// The declarations of its parameters.
    pub declarations: Units,
    /// The statement.
    pub statement: Units,
}

/// The statements that are kept, that which was used last at the end.
#[derive(Drop)]
pub struct PreparedStatements {
    given: u32,
    kept: Vec<PreparedStatement>,
}

impl Model for PreparedStatements {
    ghost use Rattle.batch_meaning.specs.Drivers.{KeptStatements};

    ghost Value = { KeptStatements };

    ghost view = { λ p. record { given = p.given; kept = p.kept.items } };
}

impl PreparedStatements {
    /// None.
    pub fn new(alloc: Global) -> PreparedStatements
        ensures { result ≡ none_kept }
    {
        PreparedStatements {
            given: 0,
            kept: Vec::new(alloc),
        }
    }

    /// What is kept under a handle.
    pub fn find(&self, handle: i64) -> Option<&PreparedStatement>
        ensures { option_map (λ one. one.now) result ≡ kept_under handle self.now }
    {
        let Some(place) = self.place_of(handle) else {
            return None;
        };
        Some(&self.kept[place])
    }

    /// Whether a handle is left to be given.
    pub fn has_handle(&self) -> bool
        ensures { result ≡ has_handle self.now }
    {
        self.given < LAST_HANDLE
    }

    /// The handle that is given next.
    pub fn next_handle(&self) -> u32
        ensures { result ≡ next_handle self.now }
    {
        self.given.saturating_add(1).min(LAST_HANDLE)
    }

    /// Keeps a statement with its declarations under the next handle. What was not used for longest goes, where too
    /// much is kept.
    pub fn keep(
        &mut self,
        alloc: Global,
        declarations: &[u16],
        statement: &[u16],
    ) -> Result<(), Memory>
        ensures { IfOk result (λ done. self.new ≡ with_statement declarations.now statement.now self.old) }
    {
        let handle = self.next_handle();
        let one = PreparedStatement {
            handle,
            declarations: Units::from(Vec::from_slice(alloc, declarations)?),
            statement: Units::from(Vec::from_slice(alloc, statement)?),
        };
        self.kept.push(one)?;
        shed(&mut self.kept);
        self.given = handle;
        Ok(())
    }

    /// What is kept under a handle becomes what was used last.
    pub fn use_of(&mut self, handle: i64)
        ensures { self.new ≡ used_by handle self.old (kept_under handle self.old) }
    {
        let Some(place) = self.place_of(handle) else {
            return;
        };
        let one = self.kept.remove(place);
        self.kept.push_reserved(one);
    }

    /// Keeps what is under a handle no longer.
    pub fn drop_of(&mut self, handle: i64)
        ensures { self.new ≡ without handle self.old }
    {
        let Some(place) = self.place_of(handle) else {
            return;
        };
        let _one = self.kept.remove(place);
    }

    /// Keeps nothing any longer.
    pub fn drop_all(&mut self)
        ensures { self.new ≡ record self.old { kept = [] } }
    {
        self.kept.clear();
    }

    /// The place of what is kept under a handle.
    fn place_of(&self, handle: i64) -> Option<usize>
        ensures { result ≡ place_of handle self.now }
    {
        self.kept.iter().position(|one| is_of(one, handle))
    }
}

/// Whether this is what is kept under a handle.
fn is_of(one: &PreparedStatement, handle: i64) -> bool
    ensures { result ≡ is_of handle one.now }
{
    i64::from(one.handle) == handle
}

/// What was not used for longest goes, until no more than are kept are left.
fn shed(kept: &mut Vec<PreparedStatement>)
    ensures { kept.new.items ≡ shed kept.old.items }
{
    while are_many(kept.as_slice()) {
        let _oldest = kept.remove(0);
    }
}

/// Whether these are more than one, and more than are kept.
fn are_many(kept: &[PreparedStatement]) -> bool
    ensures { result ≡ are_many kept.now }
{
    1 < kept.len() && !are_within(kept)
}

/// Whether they may all be kept.
fn are_within(kept: &[PreparedStatement]) -> bool
    ensures { result ≡ are_within kept.now }
{
    kept.len() <= MOST_KEPT && fit_into(kept, MOST_UNITS)
}

/// Whether they have at most so many units.
fn fit_into(kept: &[PreparedStatement], most: usize) -> bool
    ensures { result ≡ nat_le (sum_by units_in kept.now) most }
{
    let mut left = most;
    for one in kept {
        match left_behind(left, one) {
            Some(rest) => left = rest,
            None => return false,
        }
    }
    true
}

/// How many of so many units are left behind a statement, if it has no more.
fn left_behind(left: usize, one: &PreparedStatement) -> Option<usize>
    ensures { result ≡ (if nat_lt left (units_in one.now) then None else Some (left - units_in one.now)) }
{
    let left = left.checked_sub(one.declarations.len())?;
    left.checked_sub(one.statement.len())
}
