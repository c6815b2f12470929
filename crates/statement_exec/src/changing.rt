//! What INSERT, UPDATE and DELETE run, up to where their triggers do.

ghost use Rattle.std.specs.Prelude.{◌≡◌, ◌∷◌, [], true, false, Ok, IfOk, List, is_ok};
ghost use Rattle.binder.specs.Names.{looked_up};
ghost use Rattle.bound_tree.specs.declared.write.Bound.TheVariants.{Write};
ghost use Rattle.tsql_tree.specs.declared.definition.TableTree.{TableTree as Shape};
ghost use Rattle.tsql_tree.specs.declared.statement.Statement.{Statement as Tree};
ghost use Rattle.batch_meaning.specs.Changing.{event_of, planned_in, planned_over, planned_with, told_by, write_command};
ghost use Rattle.batch_meaning.specs.Doing.{Did, ◌then◌};
ghost use Rattle.batch_meaning.specs.Raised.{Around as Stands};
ghost use Rattle.batch_meaning.specs.Meaning.{Meaning, writes, writes_in, written_with};
ghost use Rattle.batch_meaning.specs.Progress.{Ready};
ghost use Rattle.batch_meaning.specs.Working.{asks_any, binds, enters, given_in, known_by};
ghost use Rattle.batch_meaning.specs.Writes.{change_bound, changes, fired_by, fires_of, shape_or};
ghost use Rattle.table_rows.specs.Definitions.{tables_of};
ghost use Rattle.table_rows.specs.Rows.{shape_of};
ghost use Rattle.dml_exec.specs.Planning.{table_written};
ghost use Rattle.statement_exec.specs.Changed.{HasWritten, MayFire, changes_planned, changes_read, effect_in};
ghost use Rattle.statement_exec.specs.Selected.{IsLive, asks_bound};
ghost use Rattle.session_state.specs.Parts.{IsOrMemory};

use crate::dialogs::{apply, read};
use crate::discard::discard;
use crate::fired::fired_among;
use crate::home::{enter, leave};
use crate::known::asks_any;
use crate::objects::read_definitions;
use crate::prepare::prepare;
use crate::query::if_it_fits;
use crate::seen::seen_by_triggers;
use batch_meaning::{Failure, Home};
use binder::{bind_checks, names_of};
use bound_tree::{Bound, BoundTest, BoundWrite, Image};
use dml_exec::{plan_write, rows_told, shape_of, table_written};
use session_state::{
    Around, Effect, Fired, OUTSIDE_LIMITS, SessionState, UNKNOWN_TABLE, no_memory, system_in,
    unbound_by, unplanned_by, written_tokens,
};
use sqlite_items::Items;
use std::alloc::Global;
use std::marker::Model;
use step_model::{Planned, Port};
use tds_tokens::{COMMAND_DELETE, COMMAND_INSERT, COMMAND_UPDATE, DoneKind};
use tsql_tree::{Definition, Event, Statement, TableTree, TriggerTree};
use value_types::{Units, beside};

/// What a write has done: what it tells, its statement's mark, the triggers that it fires, in the order of their names,
/// and what they see.
#[derive(Drop)]
pub struct Written {
    /// What it tells.
    pub effect: Effect,
    /// Its statement's mark.
    pub mark: u64,
    /// The triggers that it fires.
    pub fires: Items<TriggerTree>,
    /// What they see.
    pub fired: Fired,
}

impl Model for Written {
    ghost use Rattle.std.specs.Coded.{codes};
    ghost use Rattle.tsql_tree.specs.contracts.query.Test as test;
    ghost use Rattle.tsql_tree.specs.contracts.statement.Statement as tree;
    ghost use Rattle.batch_meaning.specs.Writes.{Written as HasDone};

    ghost Value = { HasDone };

    ghost coded = { Prim.hlevel (codes, test.the_row.coded, tree.the_row.coded) };

    ghost view = { λ written. record { effect = written.effect; mark = written.mark; fires = written.fires; fired = written.fired } };
}

/// What came of a write within its transaction.
#[derive(Drop)]
pub enum Change {
    /// It is done.
    Done(Effect),
    /// Its locks are to end, and then its triggers to run in this transaction.
    Fires(Home, Written),
}

/// INSERT, UPDATE or DELETE, up to where its triggers run.
#[inline(never)]
pub fn write<P: Port>(
    alloc: Global,
    session: &mut SessionState,
    port: &mut P,
    statement: &Statement,
    around: &Around<'_, '_>,
) -> Result<Change, Failure>
    requires ready { Ready session.old (P.past port.old) }
    ensures does { (one : Tree → Meaning) → HasWritten (P.past port.old) (P.past port.new) (writes one around.now statement.now) one around.now session.old result session.new }
    ensures ready { Ready session.new (P.past port.new) }
    ensures may { IfOk result (λ change. MayFire change (P.past port.new)) }
    ensures none { IfOk result (λ change. (effect_in change).sets ≡ []) }
    ensures left { session.new.statements_left ≡ session.old.statements_left }
{
    match names_of(alloc, statement) {
        Ok(names) => write_named(alloc, session, port, statement, names.as_slice(), around),
        Err(_) => Err(no_memory()),
    }
}

/// The same of one that looks these names up.
fn write_named<P: Port>(
    alloc: Global,
    session: &mut SessionState,
    port: &mut P,
    statement: &Statement,
    names: &[Units],
    around: &Around<'_, '_>,
) -> Result<Change, Failure>
    requires ready { Ready session.old (P.past port.old) }
    requires names { names.now ≡ looked_up statement.now }
    ensures does { (one : Tree → Meaning) → HasWritten (P.past port.old) (P.past port.new) (enters (asks_any (known_by around.now statement.now) names.now) then writes_in one around.now statement.now) one around.now session.old result session.new }
    ensures ready { Ready session.new (P.past port.new) }
    ensures may { IfOk result (λ change. MayFire change (P.past port.new)) }
    ensures none { IfOk result (λ change. (effect_in change).sets ≡ []) }
    ensures left { session.new.statements_left ≡ session.old.statements_left }
{
    let home = enter(session, port, asks_any(around, &statement.form, names))?;
    match write_in(alloc, session, port, statement, names, around) {
        Ok(written) => Ok(done_or_fires(session, port, home, written)),
        Err(failure) => {
            leave(session, port, home, false);
            Err(failure)
        }
    }
}

/// A write is done where it fires no triggers.
fn done_or_fires<P: Port>(
    session: &mut SessionState,
    port: &mut P,
    home: Home,
    written: Written,
) -> Change
    requires ready { Ready session.old (P.past port.old) }
    requires begun { session.old.is_open ≡ true }
    requires live { IsLive written.mark (P.past port.old) }
    ensures does { (one : Tree → Meaning) (around : Stands) → HasWritten (P.past port.old) (P.past port.new) (written_with one around home written written.fires) one around session.old (Ok result) session.new }
    ensures ready { Ready session.new (P.past port.new) }
    ensures may { MayFire result (P.past port.new) }
    ensures effect { effect_in result ≡ written.effect }
    ensures left { session.new.statements_left ≡ session.old.statements_left }
{
    if written.fires.as_slice().is_empty() {
        leave(session, port, home, true);
        Change::Done(effect_of(written))
    } else {
        Change::Fires(home, written)
    }
}

/// What a write tells.
fn effect_of(written: Written) -> Effect
    ensures { result ≡ written.effect }
{
    written.effect
}

/// A write within its transaction.
fn write_in<P: Port>(
    alloc: Global,
    session: &mut SessionState,
    port: &mut P,
    statement: &Statement,
    names: &[Units],
    around: &Around<'_, '_>,
) -> Result<Written, Failure>
    requires ready { Ready session.old (P.past port.old) }
    requires begun { asks_any (known_by around.now statement.now) names.now ≡ true → session.old.is_open ≡ true }
    requires names { names.now ≡ looked_up statement.now }
    ensures does { Did (P.past port.old) (P.past port.new) (binds around.now statement.now (change_bound around.now)) session.old (Ok result) session.new }
    ensures ready { Ready session.new (P.past port.new) }
    ensures kept { session.new.is_open ≡ session.old.is_open }
    ensures begun { IfOk result (λ written. session.new.is_open ≡ true) }
    ensures live { IfOk result (λ written. IsLive written.mark (P.past port.new)) }
    ensures none { IfOk result (λ written. written.effect.sets ≡ []) }
{
    let (shapes, of) = prepare(alloc, session, port, around, statement, names)?;
    let came = change_bound(alloc, session, port, around, shapes, &of);
    discard(of);
    came
}

/// What a write comes to, by what it is bound to.
fn change_bound<P: Port>(
    alloc: Global,
    session: &mut SessionState,
    port: &mut P,
    around: &Around<'_, '_>,
    shapes: Items<TableTree>,
    of: &Bound,
) -> Result<Written, Failure>
    requires ready { Ready session.old (P.past port.old) }
    requires begun { asks_bound (given_in around.now.fired) of.now ≡ true → session.old.is_open ≡ true }
    ensures does { Did (P.past port.old) (P.past port.new) (change_bound around.now shapes of.now) session.old (Ok result) session.new }
    ensures ready { Ready session.new (P.past port.new) }
    ensures kept { session.new.is_open ≡ session.old.is_open }
    ensures begun { IfOk result (λ written. session.new.is_open ≡ true) }
    ensures live { IfOk result (λ written. IsLive written.mark (P.past port.new)) }
    ensures none { IfOk result (λ written. written.effect.sets ≡ []) }
{
    if shapes.as_slice().is_empty() {
        return Err(Failure::plain(OUTSIDE_LIMITS));
    }
    match of {
        Bound::Write(write) => change_rows(alloc, session, port, around, shapes, of, write),
        Bound::Query(_) => Err(Failure::plain(OUTSIDE_LIMITS)),
        Bound::Assign(_, _) => Err(Failure::plain(OUTSIDE_LIMITS)),
        Bound::Plain => Err(Failure::plain(OUTSIDE_LIMITS)),
    }
}

/// Reads the definitions and the tables of a write, plans what it changes, and asks that.
fn change_rows<P: Port>(
    alloc: Global,
    session: &mut SessionState,
    port: &mut P,
    around: &Around<'_, '_>,
    shapes: Items<TableTree>,
    of: &Bound,
    write: &BoundWrite,
) -> Result<Written, Failure>
    requires ready { Ready session.old (P.past port.old) }
    requires begun { session.old.is_open ≡ true }
    requires write { of.now ≡ Write write.now }
    ensures does { (shape : Shape) (others : List Shape) → shapes ≡ shape ∷ others → Did (P.past port.old) (P.past port.new) (changes around.now shape others write.now) session.old (Ok result) session.new }
    ensures ready { Ready session.new (P.past port.new) }
    ensures begun { session.new.is_open ≡ true }
    ensures live { IfOk result (λ written. IsLive written.mark (P.past port.new)) }
    ensures none { IfOk result (λ written. written.effect.sets ≡ []) }
{
    let definitions = read_definitions(alloc, session, port)?;
    let level = session.settings().level;
    let given = around.fired();
    let images = read(alloc, session, port, given, level, shapes.as_slice(), of)?;
    let read = Read {
        definitions,
        shapes,
        images,
    };
    change_read(alloc, session, port, around, read, write)
}

/// What a write has read: all definitions, and the shapes and rows of the tables that it names.
#[derive(Drop)]
struct Read {
    definitions: Vec<Definition>,
    shapes: Items<TableTree>,
    images: Items<Image>,
}

/// Plans what a write changes by what it has read, and asks that where it can be told.
fn change_read<P: Port>(
    alloc: Global,
    session: &mut SessionState,
    port: &mut P,
    around: &Around<'_, '_>,
    read: Read,
    write: &BoundWrite,
) -> Result<Written, Failure>
    requires ready { Ready session.old (P.past port.old) }
    requires begun { session.old.is_open ≡ true }
    ensures does { (shape : Shape) (others : List Shape) → read.shapes ≡ shape ∷ others → Did (P.past port.old) (P.past port.new) (changes_read around.now shape others write.now read.definitions.items read.images) session.old (Ok result) session.new }
    ensures ready { Ready session.new (P.past port.new) }
    ensures begun { session.new.is_open ≡ true }
    ensures live { IfOk result (λ written. IsLive written.mark (P.past port.new)) }
    ensures none { IfOk result (λ written. written.effect.sets ≡ []) }
{
    let planned = plan(
        alloc,
        session,
        around,
        read.shapes.as_slice(),
        write,
        read.images.as_slice(),
    )?;
    let effect = told(
        alloc,
        around.done_kind(),
        session.settings().no_count,
        write,
        planned.as_slice(),
    )?;
    let fitting = if_it_fits(session, effect)?;
    change_planned(alloc, session, port, around, read, planned, fitting, write)
}

/// Asks what a write has planned; what its triggers see is there before.
fn change_planned<P: Port>(
    alloc: Global,
    session: &mut SessionState,
    port: &mut P,
    around: &Around<'_, '_>,
    read: Read,
    planned: Items<Planned>,
    effect: Effect,
    write: &BoundWrite,
) -> Result<Written, Failure>
    requires ready { Ready session.old (P.past port.old) }
    requires begun { session.old.is_open ≡ true }
    requires none { effect.sets ≡ [] }
    ensures does { (shape : Shape) (others : List Shape) → read.shapes ≡ shape ∷ others → Did (P.past port.old) (P.past port.new) (changes_planned around.now shape others write.now read.definitions.items read.images planned effect) session.old (Ok result) session.new }
    ensures ready { Ready session.new (P.past port.new) }
    ensures begun { session.new.is_open ≡ true }
    ensures live { IfOk result (λ written. IsLive written.mark (P.past port.new)) }
    ensures none { IfOk result (λ written. written.effect.sets ≡ []) }
{
    let came = fired_by_write(alloc, around, read, planned.as_slice(), write);
    let (told, (tables, fires, seen)) = beside(effect, came)?;
    let marked = apply(alloc, session, port, tables.as_slice(), planned.as_slice());
    let (parts, mark) = beside((told, seen), marked)?;
    let (effect, fired) = parts;
    Ok(Written {
        effect,
        mark,
        fires,
        fired,
    })
}

/// All tables, the triggers that a write fires, and what they see.
fn fired_by_write(
    alloc: Global,
    around: &Around<'_, '_>,
    read: Read,
    planned: &[Planned],
    write: &BoundWrite,
) -> Result<(Items<TableTree>, Items<TriggerTree>, Fired), Failure>
    ensures { (first : Shape) → IsOrMemory (Ok (tables_of read.definitions.items, fires_of around.now read.definitions.items write.now, fired_by (shape_or first (shape_of (table_written write.now) read.shapes)) write.now read.images planned.now)) result }
{
    let Read {
        definitions,
        shapes,
        images,
    } = read;
    let (tables, fires) = fired_among(alloc, around, definitions, write)?;
    let fired = seen_by_triggers(alloc, shapes, images, planned, write)?;
    Ok((tables, fires, fired))
}

/// The event that a write is.
pub(crate) fn event_of(write: &BoundWrite) -> Event
    ensures { result ≡ event_of write.now }
{
    match write {
        BoundWrite::Insert { .. } => Event::Insert,
        BoundWrite::Update { .. } => Event::Update,
        BoundWrite::Delete { .. } => Event::Delete,
    }
}

/// The changes of a write.
fn plan(
    alloc: Global,
    session: &SessionState,
    around: &Around<'_, '_>,
    shapes: &[TableTree],
    write: &BoundWrite,
    images: &[Image],
) -> Result<Items<Planned>, Failure>
    ensures { IsOrMemory (planned_over around.now session.now shapes.now write.now images.now) result }
{
    match shape_of(table_written(write), shapes) {
        Some(shape) => plan_in(alloc, session, around, shape, write, images),
        None => Err(Failure::plain(UNKNOWN_TABLE)),
    }
}

/// The changes of a write of a table of this shape.
fn plan_in(
    alloc: Global,
    session: &SessionState,
    around: &Around<'_, '_>,
    shape: &TableTree,
    write: &BoundWrite,
    images: &[Image],
) -> Result<Items<Planned>, Failure>
    ensures { IsOrMemory (planned_in around.now session.now (Some shape.now) write.now images.now) result }
{
    match bind_checks(alloc, shape) {
        Ok(checks) => plan_with(
            alloc,
            session,
            around,
            shape,
            checks.as_slice(),
            write,
            images,
        ),
        Err(fault) => Err(unbound_by(fault)),
    }
}

/// The changes of a write, where the CHECKs of its table are bound to these tests.
pub(crate) fn plan_with(
    alloc: Global,
    session: &SessionState,
    around: &Around<'_, '_>,
    shape: &TableTree,
    checks: &[BoundTest],
    write: &BoundWrite,
    images: &[Image],
) -> Result<Items<Planned>, Failure>
    ensures { IsOrMemory (planned_with around.now session.now shape.now write.now images.now (Ok checks.now)) result }
{
    let Ok(system) = system_in(alloc, session, around) else {
        return Err(no_memory());
    };
    match plan_write(alloc, write, images, shape, checks, session.vars(), &system) {
        Ok(planned) => Ok(Items::from_vec(planned)),
        Err(fault) => Err(unplanned_by(fault)),
    }
}

/// What is told of a write.
fn told(
    alloc: Global,
    kind: DoneKind,
    no_count: bool,
    write: &BoundWrite,
    planned: &[Planned],
) -> Result<Effect, Failure>
    ensures came { IsOrMemory (Ok (told_by kind no_count write.now planned.now)) result }
    ensures none { IfOk result (λ effect. effect.sets ≡ []) }
{
    let rows = rows_told(write, planned) as u64;
    match written_tokens(alloc, kind, no_count, write_command(write), rows) {
        Ok(tokens) => Ok(Effect {
            sets: Vec::new(alloc),
            rows,
            tokens,
        }),
        Err(_) => Err(no_memory()),
    }
}

/// The command that the DONE of a write names.
fn write_command(write: &BoundWrite) -> u16
    ensures { result ≡ write_command write.now }
{
    match write {
        BoundWrite::Insert { .. } => COMMAND_INSERT,
        BoundWrite::Update { .. } => COMMAND_UPDATE,
        BoundWrite::Delete { .. } => COMMAND_DELETE,
    }
}
