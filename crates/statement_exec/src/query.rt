//! What a query runs: its tables are read, and it is answered.

ghost use Rattle.std.specs.Prelude.{◌≡◌, ◌⊎◌, [], IsTrue, None, length, map, true, All, Ok, IfOk};
ghost use Rattle.bound_tree.specs.Typed.{AreOf, system_kinds};
ghost use Rattle.session_vars.specs.Variables.{HasItsType};
ghost use Rattle.bound_tree.specs.declared.write.Bound.TheVariants.{Assign, Query};
ghost use Rattle.batch_meaning.specs.Asking.{with_room};
ghost use Rattle.batch_meaning.specs.Doing.{Did};
ghost use Rattle.batch_meaning.specs.Progress.{Ready, system_in};
ghost use Rattle.batch_meaning.specs.Selecting.{answer_in, columns_of, result_of};
ghost use Rattle.batch_meaning.specs.Tokens.{result_tokens};
ghost use Rattle.batch_meaning.specs.Values.{rows_assigned};
ghost use Rattle.batch_meaning.specs.Working.{answers, assigns_rows, given_in, if_it_fits, select_bound, selects, selects_into};
ghost use Rattle.clause_binder.specs.Operands.{items_of};
ghost use Rattle.statement_exec.specs.Selected.{IsAnswer, IsBoundOver, IsOfQuery, IsSelect, are_typed, asks_bound};
ghost use Rattle.session_state.specs.Parts.{IsOrMemory, SetsFit, Stepped};
ghost use Rattle.session_state.specs.Sendable.{IsResult};
ghost use Rattle.dml_exec.specs.Asking.{seen};

use crate::dialogs::read;
use crate::typed::are_typed;
use batch_meaning::Failure;
use bound_tree::{Bound, BoundQuery, Image, Item};
use query_eval::answer_rows;
use scalar_eval::EvalFault;
use session_state::{
    Around, Effect, OUTSIDE_LIMITS, RESULT_FULL, SessionState, TokenList, no_memory, result_tokens,
    rows_assigned, system_in,
};
use std::alloc::Global;
use step_model::Port;
use tds_tokens::{ColumnInfo, ColumnList, DoneKind};
use tsql_tree::{Statement, TableTree};
use value_types::{Memory, Row, Value};

/// How many rows a result has at most.
const RESULT_LIMIT: usize = 1_000_000;

/// What a SELECT comes to, by what it is bound to.
pub(crate) fn select_bound<P: Port>(
    alloc: Global,
    session: &mut SessionState,
    port: &mut P,
    statement: &Statement,
    around: &Around<'_, '_>,
    shapes: &[TableTree],
    of: &Bound,
) -> Result<Effect, Failure>
    requires ready { Ready session.old (P.past port.old) }
    requires begun { asks_bound (given_in around.now.fired) of.now ≡ true → session.old.is_open ≡ true }
    requires bound { IsBoundOver shapes.now session.old.vars statement.now of.now }
    requires select { IsSelect statement.now }
    ensures does { Did (P.past port.old) (P.past port.new) (select_bound around.now shapes.now of.now) session.old (Ok result) session.new }
    ensures ready { Ready session.new (P.past port.new) }
    ensures kept { session.new.is_open ≡ session.old.is_open }
    ensures fits { IfOk result (λ effect. SetsFit session.new.vars effect.sets) }
{
    match of {
        Bound::Query(query) => select(alloc, session, port, statement, around, shapes, of, query),
        Bound::Assign(query, places) => {
            select_into(
                alloc,
                session,
                port,
                around,
                shapes,
                of,
                query,
                places.as_slice(),
            )
        }
        _ => Err(Failure::plain(OUTSIDE_LIMITS)),
    }
}

/// Reads the tables of what a SELECT is bound to, and answers it.
fn select<P: Port>(
    alloc: Global,
    session: &mut SessionState,
    port: &mut P,
    statement: &Statement,
    around: &Around<'_, '_>,
    shapes: &[TableTree],
    of: &Bound,
    query: &BoundQuery,
) -> Result<Effect, Failure>
    requires ready { Ready session.old (P.past port.old) }
    requires begun { asks_bound (given_in around.now.fired) of.now ≡ true → session.old.is_open ≡ true }
    requires bound { IsBoundOver shapes.now session.old.vars statement.now of.now }
    requires select { IsSelect statement.now }
    requires query { of.now ≡ Query query.now }
    ensures does { Did (P.past port.old) (P.past port.new) (selects around.now shapes.now query.now) session.old (Ok result) session.new }
    ensures ready { Ready session.new (P.past port.new) }
    ensures kept { session.new.is_open ≡ session.old.is_open }
    ensures fits { IfOk result (λ effect. SetsFit session.new.vars effect.sets) }
{
    let rows = answer(alloc, session, port, around, shapes, of, query)?;
    let effect = result_of(
        alloc,
        around.done_kind(),
        session.settings().no_count,
        query,
        rows,
    )?;
    if_it_fits(session, effect)
}

/// Reads the tables of a SELECT that assigns, and answers it.
fn select_into<P: Port>(
    alloc: Global,
    session: &mut SessionState,
    port: &mut P,
    around: &Around<'_, '_>,
    shapes: &[TableTree],
    of: &Bound,
    query: &BoundQuery,
    places: &[u16],
) -> Result<Effect, Failure>
    requires ready { Ready session.old (P.past port.old) }
    requires begun { asks_bound (given_in around.now.fired) of.now ≡ true → session.old.is_open ≡ true }
    requires query { of.now ≡ Assign query.now places.now }
    ensures does { Did (P.past port.old) (P.past port.new) (selects_into around.now shapes.now query.now places.now) session.old (Ok result) session.new }
    ensures ready { Ready session.new (P.past port.new) }
    ensures kept { session.new.is_open ≡ session.old.is_open }
    ensures fits { IfOk result (λ effect. SetsFit session.new.vars effect.sets) }
{
    let rows = answer(alloc, session, port, around, shapes, of, query)?;
    assign_rows(alloc, session, places, rows.as_slice())
}

/// An effect whose tokens the batch may still send; too many bytes are an error.
pub(crate) fn if_it_fits(session: &SessionState, effect: Effect) -> Result<Effect, Failure>
    ensures came { Stepped (if_it_fits effect) session.now (Ok result) session.now }
    ensures same { IfOk result (λ fit. fit ≡ effect) }
{
    if session.is_full(effect.tokens()) {
        Err(Failure::plain(RESULT_FULL))
    } else {
        Ok(effect)
    }
}

// ---- answers

/// Reads the tables of a query, and answers it.
pub(crate) fn answer<P: Port>(
    alloc: Global,
    session: &mut SessionState,
    port: &mut P,
    around: &Around<'_, '_>,
    shapes: &[TableTree],
    of: &Bound,
    query: &BoundQuery,
) -> Result<Vec<Row>, Failure>
    requires ready { Ready session.old (P.past port.old) }
    requires begun { asks_bound (given_in around.now.fired) of.now ≡ true → session.old.is_open ≡ true }
    requires query { IsOfQuery query.now of.now }
    ensures does { Did (P.past port.old) (P.past port.new) (answers around.now shapes.now query.now) session.old (Ok (seen result)) session.new }
    ensures ready { Ready session.new (P.past port.new) }
    ensures kept { session.new.is_open ≡ session.old.is_open }
    ensures vars { session.new.vars ≡ session.old.vars }
    ensures answered { IfOk result (λ rows. IsAnswer around.now session.new shapes.now query.now rows.items) }
{
    let level = session.settings().level;
    let images = read(alloc, session, port, around.fired(), level, shapes, of)?;
    answered(alloc, session, around, query, images.as_slice())
}

/// What a query answers on images. In a trigger, where they may be given, its rows are looked at.
fn answered(
    alloc: Global,
    session: &SessionState,
    around: &Around<'_, '_>,
    query: &BoundQuery,
    images: &[Image],
) -> Result<Vec<Row>, Failure>
    ensures came { IsOrMemory (answer_in around.now session.now query.now images.now) (seen result) }
    ensures typed { IfOk result (λ rows. All HasItsType session.now.vars × AreOf system_kinds (system_in around.now session.now)) }
    ensures fit { IfOk result (λ rows. (around.now.fired ≡ None) ⊎ IsTrue (are_typed (items_of query.now) rows.items)) }
{
    match answer_on(alloc, session, around, query, images) {
        Ok(rows) if is_typed(around, query, rows.as_slice()) => Ok(rows),
        Ok(_) => Err(no_memory()),
        Err(failure) => Err(failure),
    }
}

/// Whether rows are of a query's types, in a trigger; elsewhere they are.
fn is_typed(around: &Around<'_, '_>, query: &BoundQuery, rows: &[Row]) -> bool
    ensures { IsTrue result → (around.now.fired ≡ None) ⊎ IsTrue (are_typed (items_of query.now) rows.now) }
{
    match around.fired() {
        Some(_) => are_typed(query.items.as_slice(), rows),
        None => true,
    }
}

/// What a query answers on images.
fn answer_on(
    alloc: Global,
    session: &SessionState,
    around: &Around<'_, '_>,
    query: &BoundQuery,
    images: &[Image],
) -> Result<Vec<Row>, Failure>
    ensures came { IsOrMemory (answer_in around.now session.now query.now images.now) (seen result) }
    ensures typed { IfOk result (λ rows. All HasItsType session.now.vars × AreOf system_kinds (system_in around.now session.now)) }
{
    let Ok(system) = system_in(alloc, session, around) else {
        return Err(no_memory());
    };
    system.law_typed();
    match answer_rows(alloc, query, images, session.vars(), &system) {
        Ok(rows) => Ok(rows),
        Err(EvalFault::Number(number)) => Err(Failure { number, name: None }),
        Err(EvalFault::Named { .. }) => unreachable!(),
        Err(EvalFault::Memory) => Err(no_memory()),
    }
}

/// The tokens of rows that are not too many.
fn result_of(
    alloc: Global,
    kind: DoneKind,
    no_count: bool,
    query: &BoundQuery,
    rows: Vec<Row>,
) -> Result<Effect, Failure>
    requires fit { IsResult kind no_count (columns_of query.now) rows.items }
    ensures came { IsOrMemory (result_of kind no_count query.now rows.items) result }
    ensures none { IfOk result (λ effect. effect.sets ≡ []) }
{
    if RESULT_LIMIT < rows.len() {
        return Err(Failure::plain(RESULT_FULL));
    }
    let count = rows.len() as u64;
    match sent_result(alloc, kind, no_count, query, rows) {
        Ok(tokens) => Ok(Effect {
            sets: Vec::new(alloc),
            rows: count,
            tokens,
        }),
        Err(_) => Err(no_memory()),
    }
}

/// The tokens of a query's result.
fn sent_result(
    alloc: Global,
    kind: DoneKind,
    no_count: bool,
    query: &BoundQuery,
    rows: Vec<Row>,
) -> Result<TokenList, Memory>
    requires fit { IsResult kind no_count (columns_of query.now) rows.items }
    ensures { IfOk result (λ tokens. tokens ≡ result_tokens kind no_count (columns_of query.now) rows.items) }
{
    let columns = columns_of(alloc, query.items.as_slice())?;
    result_tokens(alloc, kind, no_count, columns, rows)
}

/// The columns of items.
fn columns_of(alloc: Global, items: &[Item]) -> Result<ColumnList, Memory>
    ensures { IfOk result (λ columns. columns ≡ map (λ item. record { kind = item.kind; name = item.name }) items.now) }
{
    let mut columns = Vec::with_capacity(alloc, items.len())?;
    for item in items {
        columns.push(ColumnInfo {
            kind: item.kind,
            name: item.name.copy(alloc)?,
        })?;
    }
    Ok(ColumnList::from(columns))
}

/// What the rows of a SELECT assign; where one can't be assigned, those before it are.
fn assign_rows(
    alloc: Global,
    session: &mut SessionState,
    places: &[u16],
    rows: &[Row],
) -> Result<Effect, Failure>
    ensures came { Stepped (with_room (assigns_rows (length rows.now) (rows_assigned session.old.vars places.now [] rows.now))) session.old (Ok result) session.new }
    ensures only { session.new ≡ record session.old { vars = session.new.vars } }
    ensures fits { IfOk result (λ effect. SetsFit session.new.vars effect.sets) }
{
    match rows_assigned(alloc, session.vars(), places, rows) {
        Ok((sets, stopped)) => assign_or_stop(alloc, session, rows.len() as u64, sets, stopped),
        Err(_) => Err(no_memory()),
    }
}

/// What so many rows assign; where one can't be assigned, those before it are, and its failure stands.
fn assign_or_stop(
    alloc: Global,
    session: &mut SessionState,
    rows: u64,
    sets: Vec<(u16, Value)>,
    stopped: Option<Failure>,
) -> Result<Effect, Failure>
    requires fits { SetsFit session.old.vars sets.items }
    ensures came { Stepped (assigns_rows rows (sets.items, stopped)) session.old (Ok result) session.new }
    ensures only { session.new ≡ record session.old { vars = session.new.vars } }
    ensures fits { IfOk result (λ effect. SetsFit session.new.vars effect.sets) }
{
    match stopped {
        None => Ok(Effect {
            sets,
            rows,
            tokens: TokenList::none(alloc),
        }),
        Some(failure) => {
            session.assign_all(sets);
            Err(failure)
        }
    }
}
