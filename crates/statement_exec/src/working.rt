//! What a statement does within a transaction, and how it comes to one.

ghost use Rattle.std.specs.Prelude.{◌≡◌, true, Ok, IfOk};
ghost use Rattle.binder.specs.Names.{form_of};
ghost use Rattle.tsql_tree.specs.declared.statement.Form.{out-Form};
ghost use Rattle.batch_meaning.specs.Asking.{if_bytes_left, with_room};
ghost use Rattle.batch_meaning.specs.Doing.{Did, over};
ghost use Rattle.batch_meaning.specs.Progress.{Ready};
ghost use Rattle.batch_meaning.specs.Selecting.{messages, raised_by};
ghost use Rattle.batch_meaning.specs.Values.{first_row};
ghost use Rattle.batch_meaning.specs.Meaning.{line_of};
ghost use Rattle.batch_meaning.specs.Working.{composes, composes_bound, computes, given_in, status_bound, statuses, tests, tests_bound, values_bound, works, works_bound};
ghost use Rattle.statement_exec.specs.Selected.{IsBoundOver, asks_bound};
ghost use Rattle.session_state.specs.Parts.{IsOrMemory, SetsFit, Stepped};
ghost use Rattle.dml_exec.specs.Asking.{seen};

use crate::discard::discard;
use crate::home::leave;
use crate::prepare::prepare_home;
use crate::query::{answer, select_bound};
use batch_meaning::{Failure, Raised};
use bound_tree::Bound;
use session_state::{
    Around, Effect, OUTSIDE_LIMITS, RESULT_FULL, SessionState, first_row, is_true, made_of,
    messages, no_memory, raised_by, status_of,
};
use sqlite_items::Boxed;
use std::alloc::Global;
use step_model::Port;
use tsql_tree::{Form, Statement, TableTree};
use value_types::{Memory, Row};

// ---- statements that are done with their effect

/// What a statement comes to that is done with its effect.
#[inline(never)]
pub fn work<P: Port>(
    alloc: Global,
    session: &mut SessionState,
    port: &mut P,
    statement: &Statement,
    around: &Around<'_, '_>,
) -> Result<Effect, Failure>
    requires ready { Ready session.old (P.past port.old) }
    ensures does { Did (P.past port.old) (P.past port.new) (works around.now statement.now) session.old (Ok result) session.new }
    ensures ready { Ready session.new (P.past port.new) }
    ensures fits { IfOk result (λ effect. SetsFit session.new.vars effect.sets) }
{
    let (home, (shapes, of)) = prepare_home(alloc, session, port, around, statement)?;
    let came = work_bound(
        alloc,
        session,
        port,
        statement,
        around,
        shapes.as_slice(),
        &of,
    );
    discard(of);
    leave(session, port, home, came.is_ok());
    came
}

/// The same by what the statement is bound to.
fn work_bound<P: Port>(
    alloc: Global,
    session: &mut SessionState,
    port: &mut P,
    statement: &Statement,
    around: &Around<'_, '_>,
    shapes: &[TableTree],
    of: &Bound,
) -> Result<Effect, Failure>
    requires ready { Ready session.old (P.past port.old) }
    requires begun { asks_bound (given_in around.now.fired) of.now ≡ true → session.old.is_open ≡ true }
    requires bound { IsBoundOver shapes.now session.old.vars statement.now of.now }
    ensures does { Did (P.past port.old) (P.past port.new) (works_bound around.now (form_of statement.now) shapes.now of.now) session.old (Ok result) session.new }
    ensures ready { Ready session.new (P.past port.new) }
    ensures kept { session.new.is_open ≡ session.old.is_open }
    ensures fits { IfOk result (λ effect. SetsFit session.new.vars effect.sets) }
{
    match &statement.form {
        Form::Select(_) => select_bound(alloc, session, port, statement, around, shapes, of),
        form => compute(alloc, session, port, form, around, shapes, of),
    }
}

/// What is made of the values of a statement's expressions.
fn compute<P: Port>(
    alloc: Global,
    session: &mut SessionState,
    port: &mut P,
    form: &Form,
    around: &Around<'_, '_>,
    shapes: &[TableTree],
    of: &Bound,
) -> Result<Effect, Failure>
    requires ready { Ready session.old (P.past port.old) }
    requires begun { asks_bound (given_in around.now.fired) of.now ≡ true → session.old.is_open ≡ true }
    ensures does { Did (P.past port.old) (P.past port.new) (computes around.now (out-Form form.now) shapes.now of.now) session.old (Ok result) session.new }
    ensures ready { Ready session.new (P.past port.new) }
    ensures kept { session.new.is_open ≡ session.old.is_open }
    ensures fits { IfOk result (λ effect. SetsFit session.new.vars effect.sets) }
{
    let rows = values(alloc, session, port, around, shapes, of)?;
    made_of(alloc, form, session.vars(), first_row(rows.as_slice()))
}

/// The values of a statement's expressions, as rows of which the first has them.
fn values<P: Port>(
    alloc: Global,
    session: &mut SessionState,
    port: &mut P,
    around: &Around<'_, '_>,
    shapes: &[TableTree],
    of: &Bound,
) -> Result<Vec<Row>, Failure>
    requires ready { Ready session.old (P.past port.old) }
    requires begun { asks_bound (given_in around.now.fired) of.now ≡ true → session.old.is_open ≡ true }
    ensures does { Did (P.past port.old) (P.past port.new) (values_bound around.now shapes.now of.now) session.old (Ok (seen result)) session.new }
    ensures ready { Ready session.new (P.past port.new) }
    ensures kept { session.new.is_open ≡ session.old.is_open }
{
    match of {
        Bound::Query(query) => answer(alloc, session, port, around, shapes, of, query),
        Bound::Plain => Ok(Vec::new(alloc)),
        Bound::Write(_) => Err(Failure::plain(OUTSIDE_LIMITS)),
        Bound::Assign(_, _) => Err(Failure::plain(OUTSIDE_LIMITS)),
    }
}

// ---- tests

/// Whether the test of a statement is true.
#[inline(never)]
pub fn test<P: Port>(
    alloc: Global,
    session: &mut SessionState,
    port: &mut P,
    statement: &Statement,
    around: &Around<'_, '_>,
) -> Result<bool, Failure>
    requires ready { Ready session.old (P.past port.old) }
    ensures does { Did (P.past port.old) (P.past port.new) (tests around.now statement.now) session.old (Ok result) session.new }
    ensures ready { Ready session.new (P.past port.new) }
    ensures left { session.new.statements_left ≡ session.old.statements_left }
{
    let (home, (shapes, of)) = prepare_home(alloc, session, port, around, statement)?;
    let came = test_bound(alloc, session, port, around, shapes.as_slice(), &of);
    discard(of);
    leave(session, port, home, came.is_ok());
    came
}

/// The same by what the statement is bound to.
fn test_bound<P: Port>(
    alloc: Global,
    session: &mut SessionState,
    port: &mut P,
    around: &Around<'_, '_>,
    shapes: &[TableTree],
    of: &Bound,
) -> Result<bool, Failure>
    requires ready { Ready session.old (P.past port.old) }
    requires begun { asks_bound (given_in around.now.fired) of.now ≡ true → session.old.is_open ≡ true }
    ensures does { Did (P.past port.old) (P.past port.new) (tests_bound around.now shapes.now of.now) session.old (Ok result) session.new }
    ensures ready { Ready session.new (P.past port.new) }
    ensures kept { session.new.is_open ≡ session.old.is_open }
{
    let rows = values(alloc, session, port, around, shapes, of)?;
    Ok(is_true(first_row(rows.as_slice())))
}

// ---- messages

/// What PRINT, RAISERROR or THROW raises or tells.
#[inline(never)]
pub fn compose<P: Port>(
    alloc: Global,
    session: &mut SessionState,
    port: &mut P,
    statement: &Statement,
    around: &Around<'_, '_>,
) -> Result<Boxed<Raised>, Failure>
    requires ready { Ready session.old (P.past port.old) }
    ensures does { Did (P.past port.old) (P.past port.new) (composes around.now statement.now) session.old (Ok result) session.new }
    ensures ready { Ready session.new (P.past port.new) }
{
    let (home, (shapes, of)) = prepare_home(alloc, session, port, around, statement)?;
    let came = compose_bound(
        alloc,
        session,
        port,
        statement,
        around,
        shapes.as_slice(),
        &of,
    );
    discard(of);
    leave(session, port, home, came.is_ok());
    came
}

/// The same by what the statement is bound to.
fn compose_bound<P: Port>(
    alloc: Global,
    session: &mut SessionState,
    port: &mut P,
    statement: &Statement,
    around: &Around<'_, '_>,
    shapes: &[TableTree],
    of: &Bound,
) -> Result<Boxed<Raised>, Failure>
    requires ready { Ready session.old (P.past port.old) }
    requires begun { asks_bound (given_in around.now.fired) of.now ≡ true → session.old.is_open ≡ true }
    ensures does { Did (P.past port.old) (P.past port.new) (composes_bound around.now statement.now shapes.now of.now) session.old (Ok result) session.new }
    ensures ready { Ready session.new (P.past port.new) }
    ensures kept { session.new.is_open ≡ session.old.is_open }
{
    let rows = values(alloc, session, port, around, shapes, of)?;
    let raised = raised_from(alloc, around, statement, rows.as_slice())?;
    if_heard(alloc, session, raised)
}

/// What a statement raises or tells, by the rows of its values.
fn raised_from(
    alloc: Global,
    around: &Around<'_, '_>,
    statement: &Statement,
    rows: &[Row],
) -> Result<Boxed<Raised>, Failure>
    ensures { IsOrMemory (raised_by (form_of statement.now) around.now.procedure (line_of statement.now) (first_row rows.now)) result }
{
    let Ok(line) = line_of(statement) else {
        return Err(no_memory());
    };
    match around.procedure(alloc) {
        Ok(procedure) => raised_by(alloc, &statement.form, procedure, line, first_row(rows)),
        Err(_) => Err(no_memory()),
    }
}

/// A message for which the batch has bytes left, or what is an error.
fn if_heard(
    alloc: Global,
    session: &SessionState,
    raised: Boxed<Raised>,
) -> Result<Boxed<Raised>, Failure>
    ensures { Stepped (with_room (if_bytes_left (messages raised) (over (Ok raised)))) session.now (Ok result) session.now }
{
    match messages(alloc, raised.get()) {
        Ok(tokens) if session.is_full(&tokens) => Err(Failure::plain(RESULT_FULL)),
        Ok(_) => Ok(raised),
        Err(_) => Err(no_memory()),
    }
}

/// The line of a statement.
pub fn line_of(statement: &Statement) -> Result<i32, Memory>
    ensures { IfOk result (λ line. line ≡ line_of statement.now) }
{
    match i32::try_from(statement.line) {
        Ok(line) => Ok(line),
        Err(_) => Err(Memory),
    }
}

// ---- RETURN

/// The status that a RETURN gives.
#[inline(never)]
pub fn status<P: Port>(
    alloc: Global,
    session: &mut SessionState,
    port: &mut P,
    statement: &Statement,
    around: &Around<'_, '_>,
) -> Result<i32, Failure>
    requires ready { Ready session.old (P.past port.old) }
    ensures does { Did (P.past port.old) (P.past port.new) (statuses around.now statement.now) session.old (Ok result) session.new }
    ensures ready { Ready session.new (P.past port.new) }
{
    let (home, (shapes, of)) = prepare_home(alloc, session, port, around, statement)?;
    let came = status_bound(alloc, session, port, around, shapes.as_slice(), &of);
    discard(of);
    leave(session, port, home, came.is_ok());
    came
}

/// The same by what the statement is bound to.
fn status_bound<P: Port>(
    alloc: Global,
    session: &mut SessionState,
    port: &mut P,
    around: &Around<'_, '_>,
    shapes: &[TableTree],
    of: &Bound,
) -> Result<i32, Failure>
    requires ready { Ready session.old (P.past port.old) }
    requires begun { asks_bound (given_in around.now.fired) of.now ≡ true → session.old.is_open ≡ true }
    ensures does { Did (P.past port.old) (P.past port.new) (status_bound around.now shapes.now of.now) session.old (Ok result) session.new }
    ensures ready { Ready session.new (P.past port.new) }
    ensures kept { session.new.is_open ≡ session.old.is_open }
{
    let rows = values(alloc, session, port, around, shapes, of)?;
    status_of(alloc, first_row(rows.as_slice()))
}
