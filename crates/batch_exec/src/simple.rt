//! Statements that hold no others, and which forms of statements a doomed transaction refuses.

ghost use Rattle.std.specs.Prelude.{◌≡◌, ◌&&◌, IfOk, Ok};
ghost use Rattle.std.specs.Result.{ForOk};
ghost use Rattle.binder.specs.Names.{form_of};
ghost use Rattle.batch_meaning.specs.Doing.{Did, over};
ghost use Rattle.batch_meaning.specs.Meaning.{Meaning, concluded, concludes, is_refused_doomed, mean_form, raises_again, raises_or_tells, sets_option, succeeds, tells};
ghost use Rattle.batch_meaning.specs.Selecting.{no_effect};
ghost use Rattle.batch_meaning.specs.Working.{statuses};
ghost use Rattle.batch_meaning.specs.Raised.{again};
ghost use Rattle.tsql_tree.specs.declared.statement.Form.{out-Form};
ghost use Rattle.tsql_tree.specs.declared.statement.Statement.{Statement as Tree};
ghost use Rattle.batch_meaning.specs.Progress.{Ready};
ghost use Rattle.batch_meaning.specs.declared.exit.Exit.TheVariants.{Return};
ghost use Rattle.batch_exec.specs.Running.{IsSimple, effects};
ghost use Rattle.session_state.specs.Parts.{SetsFit};

use crate::errors::{fail, raise_counted, succeed};
use crate::options::set_option;
use crate::transactions::{
    begin_transaction, commit_transaction, roll_back_transaction, save_transaction,
};
use batch_meaning::{Exit, Failure, Raised};
use error_table::RaisedBy;
use session_state::{Around, Effect, OUTSIDE_PROFILE, SessionState, is_message, messages};
use sqlite_items::Boxed;
use statement_exec::{
    close_cursor, compose, create_table, declare_cursor, drop_object, fetch, open_cursor,
    remove_cursor, status, use_database, work,
};
use std::alloc::Global;
use step_model::Port;
use tsql_tree::{Form, SessionOption, Statement};
use value_types::Memory;

/// A statement that holds no statements.
#[inline(never)]
pub(crate) fn run_simple<P: Port>(
    alloc: Global,
    session: &mut SessionState,
    port: &mut P,
    statement: &Statement,
    around: &Around<'_, '_>,
) -> Result<Exit, Memory>
    requires ready { Ready session.old (P.past port.old) }
    requires simple { IsSimple (form_of statement.now) }
    ensures does { (one : Tree → Meaning) → Did (P.past port.old) (P.past port.new) (mean_form one around.now statement.now (form_of statement.now)) session.old result session.new }
    ensures ready { Ready session.new (P.past port.new) }
    ensures left { session.new.statements_left ≡ session.old.statements_left }
{
    match &statement.form {
        Form::Break => {
            session.tell_error(0);
            Ok(Exit::Leave)
        }
        Form::Continue => {
            session.tell_error(0);
            Ok(Exit::Again)
        }
        Form::Print(_) => tell(alloc, session, port, statement, around),
        Form::RaiseError(_, _, _) => tell(alloc, session, port, statement, around),
        Form::Throw(_, _, _) => tell(alloc, session, port, statement, around),
        Form::ThrowAgain => throw_again(alloc, session, port, statement, around),
        Form::SetOption(option) => set(alloc, session, port, statement, *option, around),
        Form::Return(_) => give(alloc, session, port, statement, around),
        _ => {
            let came = work_by_form(alloc, session, port, statement, around);
            conclude(alloc, session, port, statement, around, came, Exit::On)
        }
    }
}

/// RETURN: its status is the exit's.
#[inline(never)]
fn give<P: Port>(
    alloc: Global,
    session: &mut SessionState,
    port: &mut P,
    statement: &Statement,
    around: &Around<'_, '_>,
) -> Result<Exit, Memory>
    requires ready { Ready session.old (P.past port.old) }
    ensures does { Did (P.past port.old) (P.past port.new) (concludes around.now statement.now (λ status. succeeds statement.now no_effect (over (Return status))) (statuses around.now statement.now)) session.old result session.new }
    ensures ready { Ready session.new (P.past port.new) }
    ensures left { session.new.statements_left ≡ session.old.statements_left }
{
    match status(alloc, session, port, statement, around) {
        Ok(number) => succeed(
            session,
            statement,
            Effect::none(alloc),
            Exit::Return(number),
        ),
        Err(failure) => fail(alloc, session, port, statement, around, failure),
    }
}

/// What a statement comes to that is done with its effect.
#[inline(never)]
fn work_by_form<P: Port>(
    alloc: Global,
    session: &mut SessionState,
    port: &mut P,
    statement: &Statement,
    around: &Around<'_, '_>,
) -> Result<Effect, Failure>
    requires ready { Ready session.old (P.past port.old) }
    ensures does { Did (P.past port.old) (P.past port.new) (effects around.now statement.now (form_of statement.now)) session.old (Ok result) session.new }
    ensures ready { Ready session.new (P.past port.new) }
    ensures left { session.new.statements_left ≡ session.old.statements_left }
    ensures fits { IfOk result (λ effect. SetsFit session.new.vars effect.sets) }
{
    match &statement.form {
        Form::BeginTransaction(name) => {
            begin_transaction(alloc, session, port, statement, name.as_ref())
        }
        Form::Commit(name) => commit_transaction(alloc, session, port, name.as_ref()),
        Form::Rollback(name) => roll_back_transaction(alloc, session, port, name.as_ref()),
        Form::Save(name) => save_transaction(alloc, session, port, statement, name),
        Form::Drop(kind, name) => {
            drop_object(alloc, session, port, statement, *kind, name, around)
        }
        Form::CreateTable(table, text) => {
            let name = &table.get().name;
            create_table(alloc, session, port, statement, name, text, around)
        }
        Form::DeclareCursor(name, select) => {
            declare_cursor(alloc, session, statement, name, select.get())
        }
        Form::OpenCursor(name) => open_cursor(alloc, session, port, statement, name, around),
        Form::Fetch(name, variables) => {
            fetch(alloc, session, statement, name, variables.as_slice())
        }
        Form::CloseCursor(name) => close_cursor(alloc, session, statement, name),
        Form::Deallocate(name) => remove_cursor(alloc, session, statement, name),
        Form::Use(name) => use_database(alloc, session, statement, name, around),
        _ => work(alloc, session, port, statement, around),
    }
}

/// A statement ends by what it came to.
#[inline(never)]
fn conclude<P: Port>(
    alloc: Global,
    session: &mut SessionState,
    port: &mut P,
    statement: &Statement,
    around: &Around<'_, '_>,
    came: Result<Effect, Failure>,
    exit: Exit,
) -> Result<Exit, Memory>
    requires ready { Ready session.old (P.past port.old) }
    requires fits { ForOk came (λ effect. SetsFit session.old.vars effect.sets) }
    ensures does { Did (P.past port.old) (P.past port.new) (concluded around.now statement.now (λ effect. succeeds statement.now effect (over exit)) came) session.old result session.new }
    ensures ready { Ready session.new (P.past port.new) }
    ensures left { session.new.statements_left ≡ session.old.statements_left }
{
    match came {
        Ok(effect) => succeed(session, statement, effect, exit),
        Err(failure) => fail(alloc, session, port, statement, around, failure),
    }
}

/// PRINT, RAISERROR and THROW.
#[inline(never)]
fn tell<P: Port>(
    alloc: Global,
    session: &mut SessionState,
    port: &mut P,
    statement: &Statement,
    around: &Around<'_, '_>,
) -> Result<Exit, Memory>
    requires ready { Ready session.old (P.past port.old) }
    ensures does { Did (P.past port.old) (P.past port.new) (tells around.now statement.now) session.old result session.new }
    ensures ready { Ready session.new (P.past port.new) }
    ensures left { session.new.statements_left ≡ session.old.statements_left }
{
    match compose(alloc, session, port, statement, around) {
        Ok(raised) => raise_or_tell(alloc, session, port, statement, around, raised),
        Err(failure) => fail(alloc, session, port, statement, around, failure),
    }
}

/// What is no error is sent, and the batch goes on; what is one is raised.
fn raise_or_tell<P: Port>(
    alloc: Global,
    session: &mut SessionState,
    port: &mut P,
    statement: &Statement,
    around: &Around<'_, '_>,
    raised: Boxed<Raised>,
) -> Result<Exit, Memory>
    requires ready { Ready session.old (P.past port.old) }
    ensures does { Did (P.past port.old) (P.past port.new) (raises_or_tells around.now statement.now raised) session.old result session.new }
    ensures ready { Ready session.new (P.past port.new) }
    ensures left { session.new.statements_left ≡ session.old.statements_left }
{
    if !is_message(raised.get()) {
        return raise_counted(alloc, session, port, statement, around, raised);
    }
    let tokens = messages(alloc, raised.get())?;
    succeed(session, statement, Effect::sending(alloc, tokens), Exit::On)
}

/// THROW without arguments.
#[inline(never)]
fn throw_again<P: Port>(
    alloc: Global,
    session: &mut SessionState,
    port: &mut P,
    statement: &Statement,
    around: &Around<'_, '_>,
) -> Result<Exit, Memory>
    requires ready { Ready session.old (P.past port.old) }
    ensures does { Did (P.past port.old) (P.past port.new) (raises_again around.now statement.now around.now.caught) session.old result session.new }
    ensures ready { Ready session.new (P.past port.new) }
    ensures left { session.new.statements_left ≡ session.old.statements_left }
{
    match around.caught() {
        Some(raised) => {
            let raised = again(alloc, raised)?;
            raise_counted(alloc, session, port, statement, around, raised)
        }
        None => {
            let failure = Failure::plain(OUTSIDE_PROFILE);
            fail(alloc, session, port, statement, around, failure)
        }
    }
}

/// An error that THROW raises again.
fn again(alloc: Global, raised: &Raised) -> Result<Boxed<Raised>, Memory>
    ensures { IfOk result (λ thrown. thrown ≡ again raised.now) }
{
    let thrown = Raised {
        number: raised.number,
        class: raised.class,
        state: raised.state,
        text: raised.text.copy(alloc)?,
        procedure: raised.procedure.copy(alloc)?,
        line: raised.line,
        by: RaisedBy::Throw,
    };
    Ok(Boxed::new(alloc, thrown)?)
}

/// SET of an option.
#[inline(never)]
fn set<P: Port>(
    alloc: Global,
    session: &mut SessionState,
    port: &mut P,
    statement: &Statement,
    option: SessionOption,
    around: &Around<'_, '_>,
) -> Result<Exit, Memory>
    requires ready { Ready session.old (P.past port.old) }
    ensures does { Did (P.past port.old) (P.past port.new) (sets_option around.now statement.now option) session.old result session.new }
    ensures ready { Ready session.new (P.past port.new) }
    ensures left { session.new.statements_left ≡ session.old.statements_left }
{
    match set_option(option, session.settings()) {
        Ok(settings) => {
            session.set(settings);
            succeed(session, statement, Effect::none(alloc), Exit::On)
        }
        Err(failure) => fail(alloc, session, port, statement, around, failure),
    }
}

// ---- in a doomed transaction

/// Whether a form of statements is refused, as the transaction is doomed.
pub(crate) fn is_refused(session: &SessionState, form: &Form) -> bool
    ensures { result ≡ (session.now.txn.doomed && is_refused_doomed (out-Form form.now)) }
{
    session.is_doomed() && is_refused_doomed(form)
}

/// Whether a doomed transaction refuses a form of statements.
fn is_refused_doomed(form: &Form) -> bool
    ensures { result ≡ is_refused_doomed (out-Form form.now) }
{
    match form {
        Form::Insert(_, _, _) => true,
        Form::Update(_, _, _) => true,
        Form::Delete(_, _) => true,
        Form::CreateTable(_, _) => true,
        Form::Drop(_, _) => true,
        Form::BeginTransaction(_) => true,
        Form::Commit(_) => true,
        Form::Save(_) => true,
        _ => false,
    }
}
