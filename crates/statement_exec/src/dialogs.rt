//! The dialogs of a statement, held on the session's port.

ghost use Rattle.std.specs.Prelude.{◌≡◌, [], None, true, Ok, IfOk, option_map};
ghost use Rattle.batch_meaning.specs.Asking.{applies, reads_at, unless_broken};
ghost use Rattle.batch_meaning.specs.Doing.{Did, over};
ghost use Rattle.batch_meaning.specs.Progress.{Ready, values_of};
ghost use Rattle.batch_meaning.specs.Working.{given_in, trigger_rows};
ghost use Rattle.dml_exec.specs.Reading.{fetches_any, given_of, tables_of_reads};
ghost use Rattle.statement_exec.specs.Selected.{ImagesFit, IsLive, taken_back, touched_if};

use batch_meaning::Failure;
use bound_tree::{Bound, Image};
use dml_exec::{
    Attempt, GivenTables, Level, Refusal, Written, attempt_write, fetches_any, read_images,
};
use session_state::{Fired, SessionState, stopped_by};
use sqlite_items::Items;
use std::alloc::Global;
use step_model::{Planned, Port};
use tsql_tree::TableTree;

/// Reads the tables of a statement, if it names any.
pub(crate) fn read<P: Port>(
    alloc: Global,
    session: &mut SessionState,
    port: &mut P,
    given: Option<&Fired>,
    level: Level,
    shapes: &[TableTree],
    of: &Bound,
) -> Result<Items<Image>, Failure>
    requires ready { Ready session.old (P.past port.old) }
    requires begun { fetches_any (given_in (option_map (λ fired. fired.now) given)) of.now ≡ true → session.old.is_open ≡ true }
    ensures does { Did (P.past port.old) (P.past port.new) (reads_at (given_in (option_map (λ fired. fired.now) given.entry)) level (values_of session.old.vars) shapes.now of.now) session.old (Ok result) session.new }
    ensures ready { Ready session.new (P.past port.new) }
    ensures kept { session.new.is_open ≡ session.old.is_open }
    ensures vars { session.new.vars ≡ session.old.vars }
    ensures fit { option_map (λ fired. fired.now) given.entry ≡ None → (shapes.now ≡ [] → ⊥) → IfOk result (ImagesFit shapes.now (tables_of_reads of.now)) }
{
    if shapes.is_empty() {
        return Ok(Items::new(alloc));
    }
    read_shaped(alloc, session, port, given, level, shapes, of)
}

/// Reads the tables of a statement, which names these.
fn read_shaped<P: Port>(
    alloc: Global,
    session: &mut SessionState,
    port: &mut P,
    given: Option<&Fired>,
    level: Level,
    shapes: &[TableTree],
    of: &Bound,
) -> Result<Items<Image>, Failure>
    requires ready { Ready session.old (P.past port.old) }
    requires some { shapes.now ≡ [] → ⊥ }
    requires begun { fetches_any (given_in (option_map (λ fired. fired.now) given)) of.now ≡ true → session.old.is_open ≡ true }
    ensures does { Did (P.past port.old) (P.past port.new) (reads_at (given_in (option_map (λ fired. fired.now) given.entry)) level (values_of session.old.vars) shapes.now of.now) session.old (Ok result) session.new }
    ensures ready { Ready session.new (P.past port.new) }
    ensures kept { session.new.is_open ≡ session.old.is_open }
    ensures vars { session.new.vars ≡ session.old.vars }
    ensures fit { option_map (λ fired. fired.now) given.entry ≡ None → IfOk result (ImagesFit shapes.now (tables_of_reads of.now)) }
{
    let tables = given_tables(given);
    let came = read_given(alloc, session, port, tables.as_ref(), level, shapes, of);
    end(tables);
    came
}

/// Reads them; these tables are given, and not fetched.
fn read_given<P: Port>(
    alloc: Global,
    session: &mut SessionState,
    port: &mut P,
    given: Option<&GivenTables<'_>>,
    level: Level,
    shapes: &[TableTree],
    of: &Bound,
) -> Result<Items<Image>, Failure>
    requires ready { Ready session.old (P.past port.old) }
    requires some { shapes.now ≡ [] → ⊥ }
    requires begun { fetches_any (given_of (option_map (λ tables. tables.now) given)) of.now ≡ true → session.old.is_open ≡ true }
    ensures does { Did (P.past port.old) (P.past port.new) (reads_at (given_of (option_map (λ tables. tables.now) given.entry)) level (values_of session.old.vars) shapes.now of.now) session.old (Ok result) session.new }
    ensures ready { Ready session.new (P.past port.new) }
    ensures kept { session.new.is_open ≡ session.old.is_open }
    ensures vars { session.new.vars ≡ session.old.vars }
    ensures fit { option_map (λ tables. tables.now) given.entry ≡ None → IfOk result (ImagesFit shapes.now (tables_of_reads of.now)) }
{
    touch_if(session, fetches_any(of, given));
    match read_images(
        alloc,
        of,
        shapes,
        given,
        session.vars(),
        level,
        session.settings().manner,
        port,
    ) {
        Ok(images) => Ok(Items::from_vec(images)),
        Err(refusal) => Err(stopped_by(refusal)),
    }
}

/// Where something is fetched, the end of the statement has to relax it.
fn touch_if(session: &mut SessionState, is_fetched: bool)
    ensures { session.new ≡ touched_if is_fetched session.old }
{
    if is_fetched {
        session.touch();
    }
}

/// Whether a table is fetched for a statement, and not given.
pub(crate) fn fetches(of: &Bound, given: Option<&Fired>) -> bool
    ensures { result ≡ fetches_any (given_in (option_map (λ fired. fired.now) given.entry)) of.now }
{
    let tables = given_tables(given);
    let is_fetched = fetches_any(of, tables.as_ref());
    end(tables);
    is_fetched
}

/// What a trigger sees, as tables that are not fetched.
fn given_tables(given: Option<&Fired>) -> Option<GivenTables<'_>>
    ensures { result ≡ option_map trigger_rows (option_map (λ fired. fired.now) given.entry) }
{
    match given {
        Some(fired) => Some(GivenTables {
            deleted: &fired.deleted,
            inserted: &fired.inserted,
        }),
        None => None,
    }
}

/// Ends the loan of such tables.
fn end(tables: Option<GivenTables<'_>>) {
    match tables {
        Some(tables) => {
            let GivenTables {
                deleted: _deleted,
                inserted: _inserted,
            } = tables;
        }
        None => {}
    }
}

/// Asks changes, and what checks them; where they are taken back, the savepoints behind their mark are no more.
pub(crate) fn apply<P: Port>(
    alloc: Global,
    session: &mut SessionState,
    port: &mut P,
    shapes: &[TableTree],
    changes: &[Planned],
) -> Result<u64, Failure>
    requires ready { Ready session.old (P.past port.old) }
    requires begun { session.old.is_open ≡ true }
    ensures does { Did (P.past port.old) (P.past port.new) (applies shapes.now changes.now) session.old (Ok result) session.new }
    ensures ready { Ready session.new (P.past port.new) }
    ensures begun { session.new.is_open ≡ true }
    ensures live { IfOk result (λ mark. IsLive mark (P.past port.new)) }
{
    session.touch();
    let attempt = attempt_write(alloc, changes, shapes, session.settings().manner, port);
    session.cut_to(taken_back(&attempt));
    unless_broken(attempt.came)
}

/// The mark to which changes were taken back, if they were.
fn taken_back(attempt: &Attempt) -> Option<u64>
    ensures { result ≡ taken_back attempt.now }
{
    match &attempt.came {
        Ok(Written::Done { .. }) => None,
        _ => attempt.mark,
    }
}

/// What came of changes.
fn unless_broken(came: Result<Written, Refusal>) -> Result<u64, Failure>
    ensures { unless_broken came ≡ over result }
{
    match came {
        Ok(Written::Done { mark }) => Ok(mark),
        Ok(Written::Refused { number, name }) => Err(Failure {
            number,
            name: Some(name),
        }),
        Err(refusal) => Err(stopped_by(refusal)),
    }
}
