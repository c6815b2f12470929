//! How a statement is bound, over what its names are defined as.

ghost use Rattle.std.specs.Prelude.{◌≡◌, true, Ok, IfOk, IsTrue, option_map};
ghost use Rattle.binder.specs.Names.{looked_up};
ghost use Rattle.table_rows.specs.Definitions.{tables_of as tables_defined};
ghost use Rattle.batch_meaning.specs.Doing.{Did};
ghost use Rattle.batch_meaning.specs.Progress.{Ready};
ghost use Rattle.batch_meaning.specs.Selecting.{bound_over};
ghost use Rattle.batch_meaning.specs.declared.home.Home.TheVariants.{Nowhere};
ghost use Rattle.batch_meaning.specs.Working.{asks_any, given_in, known_by, prepares};
ghost use Rattle.statement_exec.specs.Selected.{IsBoundFirst, IsBoundOver, asks_bound};
ghost use Rattle.statement_exec.specs.Prepared.{prepares_home, prepares_named};
ghost use Rattle.session_state.specs.Parts.{IsOrMemory};

use crate::dialogs::fetches;
use crate::discard::discard;
use crate::home::{enter, leave};
use crate::known::asks_any;
use crate::look_up::look_up_all;
use batch_meaning::{Failure, Home};
use binder::{bind, names_of};
use bound_tree::Bound;
use session_state::{Around, Fired, SessionState, no_memory, unbound_by};
use session_vars::Vars;
use sqlite_items::Items;
use std::alloc::Global;
use step_model::Port;
use table_rows::tables_of;
use tsql_tree::{Definition, Statement, TableTree};
use value_types::Units;

/// Where a statement works, the tables that it names, and what it is bound to over them. Where it is not bound, its
/// own transaction has ended.
#[inline(never)]
pub(crate) fn prepare_home<P: Port>(
    alloc: Global,
    session: &mut SessionState,
    port: &mut P,
    around: &Around<'_, '_>,
    statement: &Statement,
) -> Result<(Home, (Items<TableTree>, Bound)), Failure>
    requires ready { Ready session.old (P.past port.old) }
    ensures does { Did (P.past port.old) (P.past port.new) (prepares_home around.now statement.now) session.old (Ok result) session.new }
    ensures ready { Ready session.new (P.past port.new) }
    ensures home { IfOk result (λ made. (made.0 ≡ Nowhere → ⊥) → session.new.is_open ≡ true) }
    ensures begun { IfOk result (λ made. asks_bound (given_in around.now.fired) made.1.1 ≡ true → session.new.is_open ≡ true) }
    ensures bound { IfOk result (λ made. IsBoundOver made.1.0 session.new.vars statement.now made.1.1) }
{
    match names_of(alloc, statement) {
        Ok(names) => prepare_named(alloc, session, port, around, statement, names.as_slice()),
        Err(_) => Err(no_memory()),
    }
}

/// The same of one that looks these names up.
fn prepare_named<P: Port>(
    alloc: Global,
    session: &mut SessionState,
    port: &mut P,
    around: &Around<'_, '_>,
    statement: &Statement,
    names: &[Units],
) -> Result<(Home, (Items<TableTree>, Bound)), Failure>
    requires ready { Ready session.old (P.past port.old) }
    requires names { names.now ≡ looked_up statement.now }
    ensures does { Did (P.past port.old) (P.past port.new) (prepares_named around.now statement.now names.now) session.old (Ok result) session.new }
    ensures ready { Ready session.new (P.past port.new) }
    ensures home { IfOk result (λ made. (made.0 ≡ Nowhere → ⊥) → session.new.is_open ≡ true) }
    ensures begun { IfOk result (λ made. asks_bound (given_in around.now.fired) made.1.1 ≡ true → session.new.is_open ≡ true) }
    ensures bound { IfOk result (λ made. IsBoundOver made.1.0 session.new.vars statement.now made.1.1) }
{
    let home = enter(session, port, asks_any(around, &statement.form, names))?;
    match prepare(alloc, session, port, around, statement, names) {
        Ok(made) => Ok((home, made)),
        Err(failure) => {
            leave(session, port, home, false);
            Err(failure)
        }
    }
}

/// The tables that a statement names, and what it is bound to over them.
pub(crate) fn prepare<P: Port>(
    alloc: Global,
    session: &mut SessionState,
    port: &mut P,
    around: &Around<'_, '_>,
    statement: &Statement,
    names: &[Units],
) -> Result<(Items<TableTree>, Bound), Failure>
    requires ready { Ready session.old (P.past port.old) }
    requires begun { asks_any (known_by around.now statement.now) names.now ≡ true → session.old.is_open ≡ true }
    requires names { names.now ≡ looked_up statement.now }
    ensures does { Did (P.past port.old) (P.past port.new) (prepares around.now statement.now) session.old (Ok result) session.new }
    ensures ready { Ready session.new (P.past port.new) }
    ensures kept { session.new.is_open ≡ session.old.is_open }
    ensures vars { session.new.vars ≡ session.old.vars }
    ensures begun { IfOk result (λ made. asks_bound (given_in around.now.fired) made.1 ≡ true → session.new.is_open ≡ true) }
    ensures bound { IfOk result (λ made. IsBoundOver made.0 session.old.vars statement.now made.1) }
{
    let definitions = look_up_all(alloc, session, port, around, &statement.form, names)?;
    match bound_in(alloc, session, around, statement, definitions.as_slice()) {
        Ok(of) => shaped(alloc, definitions, of),
        Err(failure) => Err(failure),
    }
}

/// What a statement is bound to, over definitions and the variables of the session. Where no transaction is open, what it
/// names was not looked up, so it writes no table, and those that it reads are given.
fn bound_in(
    alloc: Global,
    session: &SessionState,
    around: &Around<'_, '_>,
    statement: &Statement,
    definitions: &[Definition],
) -> Result<Bound, Failure>
    ensures came { IsOrMemory (bound_over definitions.now session.now.vars statement.now) result }
    ensures begun { IfOk result (λ of. asks_bound (given_in around.now.fired) of ≡ true → session.now.is_open ≡ true) }
{
    match bound_over(alloc, statement, definitions, session.vars()) {
        Ok(of) => {
            if may_go_on(session, around, &of) {
                Ok(of)
            } else {
                discard(of);
                Err(no_memory())
            }
        }
        Err(failure) => Err(failure),
    }
}

/// Whether a transaction is open, or nothing is asked for what a statement is bound to.
fn may_go_on(session: &SessionState, around: &Around<'_, '_>, of: &Bound) -> bool
    ensures { IsTrue result → asks_bound (given_in around.now.fired) of.now ≡ true → session.now.is_open ≡ true }
{
    if session.in_transaction() {
        return true;
    }
    !asks_bound(around.fired(), of)
}

/// Whether something is asked for what a statement is bound to.
fn asks_bound(given: Option<&Fired>, of: &Bound) -> bool
    ensures { result ≡ asks_bound (given_in (option_map (λ fired. fired.now) given.entry)) of.now }
{
    match of {
        Bound::Write(_) => true,
        Bound::Query(_) => fetches(of, given),
        Bound::Assign(_, _) => fetches(of, given),
        Bound::Plain => false,
    }
}

/// What a statement is bound to, over definitions and variables.
pub(crate) fn bound_over(
    alloc: Global,
    statement: &Statement,
    definitions: &[Definition],
    vars: &Vars,
) -> Result<Bound, Failure>
    ensures { IsOrMemory (bound_over definitions.now vars.now statement.now) result }
{
    match bind(alloc, statement, definitions, vars) {
        Ok(of) => Ok(of),
        Err(fault) => Err(unbound_by(fault)),
    }
}

/// The tables among definitions, beside what is bound over them.
fn shaped(
    alloc: Global,
    definitions: Vec<Definition>,
    of: Bound,
) -> Result<(Items<TableTree>, Bound), Failure>
    ensures { IsOrMemory (Ok (tables_defined definitions.items, of)) result }
{
    match tables_of(alloc, definitions) {
        Ok(shapes) => Ok((Items::from_vec(shapes), of)),
        Err(_) => {
            discard(of);
            Err(no_memory())
        }
    }
}

/// A statement on transactions or on a cursor, or EXEC, is bound, over no definitions; it names nothing that is looked up.
pub fn bind_first(
    alloc: Global,
    session: &SessionState,
    statement: &Statement,
) -> Result<(), Failure>
    ensures { IsBoundFirst session.now statement.now result }
{
    match bound_over(alloc, statement, &[], session.vars()) {
        Ok(of) => {
            discard(of);
            Ok(())
        }
        Err(failure) => Err(failure),
    }
}
