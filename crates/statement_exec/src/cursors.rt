//! The statements on cursors.

ghost use Rattle.std.specs.Prelude.{◌≡◌, [], map, true, All, Ok, IfOk};
ghost use Rattle.bound_tree.specs.declared.write.Bound.TheVariants.{Query};
ghost use Rattle.dml_exec.specs.Asking.{seen};
ghost use Rattle.session_cursors.specs.Answers.{HasKinds};
ghost use Rattle.session_cursors.specs.Cursors as list;
ghost use Rattle.batch_meaning.specs.Asking.{with_room};
ghost use Rattle.batch_meaning.specs.Cursors.{closes_cursor, declares_cursor, fetches_cursor, fills_with, kinds_of, opens_bound, opens_cursor, removes_cursor, select_statement};
ghost use Rattle.batch_meaning.specs.Doing.{Did, makes, over};
ghost use Rattle.batch_meaning.specs.Progress.{Ready, fills};
ghost use Rattle.batch_meaning.specs.Selecting.{no_effect};
ghost use Rattle.batch_meaning.specs.Working.{given_in, within};
ghost use Rattle.statement_exec.specs.Selected.{IsBoundOver, IsSelect, asks_bound};
ghost use Rattle.statement_exec.specs.CursorAnswers.{IsCounted, IsKept, IsRefused, Passes};
ghost use Rattle.session_state.specs.Parts.{SetsFit, Stepped};

use crate::discard::discard;
use crate::home::leave;
use crate::prepare::{bind_first, prepare_home};
use crate::query::answer;
use batch_meaning::Failure;
use bound_tree::{Bound, BoundQuery, Item};
use session_cursors::CursorFault;
use session_state::{
    Around, CURSOR_OPEN, CURSOR_PRESENT, CURSOR_SHUT, Effect, NO_SUCH_CURSOR, OTHER_COUNT,
    OUTSIDE_LIMITS, SessionState, TokenList, WANTING, naming, no_memory, sets_of,
};
use sqlite_items::Boxed;
use std::alloc::Global;
use step_model::Port;
use tsql_tree::{Form, Select, Statement, TableTree};
use value_types::{Memory, Row, SqlType, Units, Value};

/// `@@FETCH_STATUS` behind a FETCH that gave a row.
const FETCHED: i32 = 0;

/// `@@FETCH_STATUS` behind a FETCH past the last row.
const PAST_LAST: i32 = -1;

/// Why a statement on a cursor is refused, as its error.
fn refused(alloc: Global, name: &Units, fault: CursorFault) -> Failure
    ensures { IsRefused name.now fault result }
{
    match fault {
        CursorFault::Present => naming(alloc, CURSOR_PRESENT, name),
        CursorFault::NoSuch => naming(alloc, NO_SUCH_CURSOR, name),
        CursorFault::AlreadyFilled => Failure::plain(CURSOR_OPEN),
        CursorFault::NotFilled => Failure::plain(CURSOR_SHUT),
        CursorFault::Memory => no_memory(),
    }
}

// ---- DECLARE

/// DECLARE of a cursor: its select is kept.
#[inline(never)]
pub fn declare_cursor(
    alloc: Global,
    session: &mut SessionState,
    statement: &Statement,
    name: &Units,
    select: &Select,
) -> Result<Effect, Failure>
    ensures came { Stepped (declares_cursor statement.now name.now select.now) session.old (Ok result) session.new }
    ensures only { session.new ≡ record session.old { cursors = session.new.cursors } }
    ensures none { IfOk result (λ effect. effect.sets ≡ []) }
{
    bind_first(alloc, session, statement)?;
    let Ok((kept, select)) = copied(alloc, name, select) else {
        return Err(no_memory());
    };
    match session.declare_cursor(kept, select) {
        Ok(()) => Ok(Effect::none(alloc)),
        Err(fault) => Err(refused(alloc, name, fault)),
    }
}

/// A name and a select that are kept.
fn copied(alloc: Global, name: &Units, select: &Select) -> Result<(Units, Select), Memory>
    ensures { IfOk result (λ kept. kept ≡ (name.now, select.now)) }
{
    Ok((name.copy(alloc)?, select.copy(alloc)?))
}

// ---- OPEN

/// OPEN: the select is answered with the variables as they are, and its rows are kept.
#[inline(never)]
pub fn open_cursor<P: Port>(
    alloc: Global,
    session: &mut SessionState,
    port: &mut P,
    statement: &Statement,
    name: &Units,
    around: &Around<'_, '_>,
) -> Result<Effect, Failure>
    requires ready { Ready session.old (P.past port.old) }
    ensures does { Did (P.past port.old) (P.past port.new) (opens_cursor around.now statement.now name.now) session.old (Ok result) session.new }
    ensures ready { Ready session.new (P.past port.new) }
    ensures none { IfOk result (λ effect. effect.sets ≡ []) }
{
    bind_first(alloc, session, statement)?;
    let select = kept_select(alloc, session, statement, name)?;
    fill(alloc, session, port, &select, name, around)
}

/// The select of a cursor that is not open, as a statement at the line of this one.
fn kept_select(
    alloc: Global,
    session: &SessionState,
    statement: &Statement,
    name: &Units,
) -> Result<Statement, Failure>
    ensures came { IsKept statement.now name.now session.now.cursors result }
    ensures select { IfOk result IsSelect }
{
    match session.cursors().query(name) {
        Ok(_) if session.cursors().kinds(name).is_ok() => Err(Failure::plain(CURSOR_OPEN)),
        Ok(select) => match select_statement(alloc, statement, select) {
            Ok(select) => Ok(select),
            Err(_) => Err(no_memory()),
        },
        Err(fault) => Err(refused(alloc, name, fault)),
    }
}

/// A select as a statement at the line of this one.
fn select_statement(
    alloc: Global,
    statement: &Statement,
    select: &Select,
) -> Result<Statement, Memory>
    ensures { IfOk result (λ made. made ≡ select_statement statement.now select.now) }
{
    Ok(Statement {
        line: statement.line,
        form: Form::Select(Boxed::new(alloc, select.copy(alloc)?)?),
    })
}

/// The select is answered, and its rows are kept.
fn fill<P: Port>(
    alloc: Global,
    session: &mut SessionState,
    port: &mut P,
    select: &Statement,
    name: &Units,
    around: &Around<'_, '_>,
) -> Result<Effect, Failure>
    requires ready { Ready session.old (P.past port.old) }
    requires select { IsSelect select.now }
    ensures does { Did (P.past port.old) (P.past port.new) (within around.now select.now (opens_bound around.now name.now)) session.old (Ok result) session.new }
    ensures ready { Ready session.new (P.past port.new) }
    ensures none { IfOk result (λ effect. effect.sets ≡ []) }
{
    let (home, (shapes, of)) = prepare_home(alloc, session, port, around, select)?;
    let came = fill_bound(
        alloc,
        session,
        port,
        select,
        shapes.as_slice(),
        &of,
        name,
        around,
    );
    discard(of);
    leave(session, port, home, came.is_ok());
    came
}

/// The same by what the select is bound to: one that assigns variables is none of a cursor.
fn fill_bound<P: Port>(
    alloc: Global,
    session: &mut SessionState,
    port: &mut P,
    select: &Statement,
    shapes: &[TableTree],
    of: &Bound,
    name: &Units,
    around: &Around<'_, '_>,
) -> Result<Effect, Failure>
    requires ready { Ready session.old (P.past port.old) }
    requires begun { asks_bound (given_in around.now.fired) of.now ≡ true → session.old.is_open ≡ true }
    requires select { IsSelect select.now }
    requires bound { IsBoundOver shapes.now session.old.vars select.now of.now }
    ensures does { Did (P.past port.old) (P.past port.new) (opens_bound around.now name.now shapes.now of.now) session.old (Ok result) session.new }
    ensures ready { Ready session.new (P.past port.new) }
    ensures kept { session.new.is_open ≡ session.old.is_open }
    ensures none { IfOk result (λ effect. effect.sets ≡ []) }
{
    match of {
        Bound::Query(query) => fill_with(
            alloc, session, port, select, shapes, of, query, name, around,
        ),
        _ => Err(Failure::plain(OUTSIDE_LIMITS)),
    }
}

/// Reads the tables of a query, answers it, and keeps its rows.
fn fill_with<P: Port>(
    alloc: Global,
    session: &mut SessionState,
    port: &mut P,
    select: &Statement,
    shapes: &[TableTree],
    of: &Bound,
    query: &BoundQuery,
    name: &Units,
    around: &Around<'_, '_>,
) -> Result<Effect, Failure>
    requires ready { Ready session.old (P.past port.old) }
    requires begun { asks_bound (given_in around.now.fired) of.now ≡ true → session.old.is_open ≡ true }
    requires select { IsSelect select.now }
    requires bound { IsBoundOver shapes.now session.old.vars select.now of.now }
    requires query { of.now ≡ Query query.now }
    ensures does { Did (P.past port.old) (P.past port.new) (fills_with around.now name.now shapes.now query.now) session.old (Ok result) session.new }
    ensures ready { Ready session.new (P.past port.new) }
    ensures kept { session.new.is_open ≡ session.old.is_open }
    ensures none { IfOk result (λ effect. effect.sets ≡ []) }
{
    let rows = answer(alloc, session, port, around, shapes, of, query)?;
    keep_rows(alloc, session, query, name, rows)
}

/// A cursor keeps the rows of its query.
fn keep_rows(
    alloc: Global,
    session: &mut SessionState,
    query: &BoundQuery,
    name: &Units,
    rows: Vec<Row>,
) -> Result<Effect, Failure>
    requires typed { All (HasKinds (kinds_of query.now)) rows.items }
    ensures came { Stepped (with_room (makes (fills name.now (kinds_of query.now) rows.items) (over (Ok no_effect)))) session.old (Ok result) session.new }
    ensures only { session.new ≡ record session.old { cursors = session.new.cursors } }
    ensures none { IfOk result (λ effect. effect.sets ≡ []) }
{
    match kinds_of(alloc, query) {
        Ok(kinds) => {
            session.fill_cursor(name, kinds, rows);
            Ok(Effect::none(alloc))
        }
        Err(_) => Err(no_memory()),
    }
}

/// The types of an answer's columns.
fn kinds_of(alloc: Global, query: &BoundQuery) -> Result<Vec<SqlType>, Memory>
    ensures { IfOk result (λ kinds. kinds.items ≡ kinds_of query.now) }
{
    kinds_in(alloc, query.items.as_slice())
}

/// The types of items.
fn kinds_in(alloc: Global, items: &[Item]) -> Result<Vec<SqlType>, Memory>
    ensures { IfOk result (λ kinds. kinds.items ≡ map (λ item. item.kind) items.now) }
{
    let mut kinds = Vec::with_capacity(alloc, items.len())?;
    for item in items {
        kinds.push(item.kind)?;
    }
    Ok(kinds)
}

// ---- FETCH

/// FETCH: the next row is assigned to variables.
#[inline(never)]
pub fn fetch(
    alloc: Global,
    session: &mut SessionState,
    statement: &Statement,
    name: &Units,
    variables: &[Units],
) -> Result<Effect, Failure>
    ensures came { Stepped (fetches_cursor statement.now name.now variables.now) session.old (Ok result) session.new }
    ensures only { session.new ≡ record session.old { fetch_status = session.new.fetch_status; cursors = session.new.cursors } }
    ensures fits { IfOk result (λ effect. SetsFit session.new.vars effect.sets) }
{
    bind_first(alloc, session, statement)?;
    check_count(alloc, session, name, variables.len())?;
    match session.cursors().peek(name) {
        Ok(Some(row)) => {
            let sets = sets_of(alloc, session.vars(), variables, row.as_slice());
            pass_row(alloc, session, name, sets)
        }
        Ok(None) => {
            session.tell_fetch(PAST_LAST);
            Ok(Effect::none(alloc))
        }
        Err(fault) => Err(refused(alloc, name, fault)),
    }
}

/// An open cursor has so many columns.
fn check_count(
    alloc: Global,
    session: &SessionState,
    name: &Units,
    count: usize,
) -> Result<(), Failure>
    ensures { IsCounted name.now count (list.kinds_of name.now session.now.cursors) result }
{
    match session.cursors().kinds(name) {
        Ok(kinds) if count == kinds.len() => Ok(()),
        Ok(_) => Err(Failure::plain(OTHER_COUNT)),
        Err(fault) => Err(refused(alloc, name, fault)),
    }
}

/// The next row is passed by what it assigns, or why a value of it can't be assigned. Where memory was wanting for
/// that it stays the next.
fn pass_row(
    alloc: Global,
    session: &mut SessionState,
    name: &Units,
    sets: Result<Vec<(u16, Value)>, Failure>,
) -> Result<Effect, Failure>
    requires fits { IfOk sets (λ sets. SetsFit session.old.vars sets.items) }
    ensures came { Passes name.now (seen sets) session.old result session.new }
    ensures only { session.new ≡ record session.old { fetch_status = session.new.fetch_status; cursors = session.new.cursors } }
    ensures fits { IfOk result (λ effect. SetsFit session.new.vars effect.sets) }
{
    match sets {
        Ok(sets) => {
            let _ = session.fetch_next(name);
            session.tell_fetch(FETCHED);
            Ok(Effect {
                sets,
                rows: 1,
                tokens: TokenList::none(alloc),
            })
        }
        Err(failure) if failure.number == WANTING => Err(no_memory()),
        Err(failure) => {
            let _ = session.fetch_next(name);
            Err(failure)
        }
    }
}

// ---- CLOSE and DEALLOCATE

/// CLOSE: the rows of a cursor are dropped.
#[inline(never)]
pub fn close_cursor(
    alloc: Global,
    session: &mut SessionState,
    statement: &Statement,
    name: &Units,
) -> Result<Effect, Failure>
    ensures came { Stepped (closes_cursor statement.now name.now) session.old (Ok result) session.new }
    ensures only { session.new ≡ record session.old { cursors = session.new.cursors } }
    ensures none { IfOk result (λ effect. effect.sets ≡ []) }
{
    bind_first(alloc, session, statement)?;
    match session.close_cursor(name) {
        Ok(()) => Ok(Effect::none(alloc)),
        Err(fault) => Err(refused(alloc, name, fault)),
    }
}

/// DEALLOCATE: a cursor is dropped.
#[inline(never)]
pub fn remove_cursor(
    alloc: Global,
    session: &mut SessionState,
    statement: &Statement,
    name: &Units,
) -> Result<Effect, Failure>
    ensures came { Stepped (removes_cursor statement.now name.now) session.old (Ok result) session.new }
    ensures only { session.new ≡ record session.old { cursors = session.new.cursors } }
    ensures none { IfOk result (λ effect. effect.sets ≡ []) }
{
    bind_first(alloc, session, statement)?;
    match session.remove_cursor(name) {
        Ok(()) => Ok(Effect::none(alloc)),
        Err(fault) => Err(refused(alloc, name, fault)),
    }
}
