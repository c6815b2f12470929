//! What CREATE puts into `objects`.

ghost use Rattle.std.specs.Prelude.{◌≡◌, ◌||◌, [], not, true, false, Ok, IfOk};
ghost use Rattle.std.specs.List.{list_any};
ghost use Rattle.binder.specs.Names.{looked_up};
ghost use Rattle.batch_meaning.specs.Doing.{Did};
ghost use Rattle.batch_meaning.specs.Progress.{Ready};
ghost use Rattle.batch_meaning.specs.Working.{asks_any, binds, known_by, own};
ghost use Rattle.clause_binder.specs.Scope.{is_long};
ghost use Rattle.typed_nodes.specs.Nodes.{is_kind};
ghost use Rattle.table_rows.specs.Definitions.{is_objects};
ghost use Rattle.tsql_tree.specs.declared.definition.Definition.TheVariants.{Procedure, Trigger};
ghost use Rattle.batch_meaning.specs.Writes.{creates, creates_definition, creates_table, is_odd_list, is_odd_parameter, is_odd_procedure, unless_objects};
ghost use Rattle.statement_exec.specs.Created.{MayBePut, creates_trigger};

use crate::discard::discard;
use crate::dropping::is_found;
use crate::home::{enter, leave};
use crate::known::asks_any;
use crate::look_up::look_up;
use crate::prepare::prepare;
use crate::putting::create;
use batch_meaning::Failure;
use binder::names_of;
use session_state::{
    Around, Effect, LONGEST_NAME, OBJECT_PRESENT, OUTSIDE_LIMITS, SessionState, UNKNOWN_TABLE,
    naming, no_memory,
};
use std::alloc::Global;
use step_model::Port;
use table_rows::is_objects;
use tsql_tree::{Definition, DropKind, Parameter, ProcedureTree, Statement, TriggerTree};
use value_types::{SqlType, Units};

/// How many variables a procedure may have.
const MAX_VARIABLES: usize = 10_000;

// ---- CREATE TABLE

/// Creates a table: it is bound first, with the parents that it names.
#[inline(never)]
pub fn create_table<P: Port>(
    alloc: Global,
    session: &mut SessionState,
    port: &mut P,
    statement: &Statement,
    name: &Units,
    text: &Units,
    around: &Around<'_, '_>,
) -> Result<Effect, Failure>
    requires ready { Ready session.old (P.past port.old) }
    ensures does { Did (P.past port.old) (P.past port.new) (creates_table around.now statement.now name.now text.now) session.old (Ok result) session.new }
    ensures ready { Ready session.new (P.past port.new) }
    ensures none { IfOk result (λ effect. effect.sets ≡ []) }
{
    match names_of(alloc, statement) {
        Ok(names) if asks_any(around, &statement.form, names.as_slice()) => {
            create_named(
                alloc,
                session,
                port,
                statement,
                names.as_slice(),
                name,
                text,
                around,
            )
        }
        Ok(names) => create_alone(
            alloc,
            session,
            port,
            statement,
            names.as_slice(),
            name,
            text,
            around,
        ),
        Err(_) => Err(no_memory()),
    }
}

/// One whose parents are looked up.
fn create_named<P: Port>(
    alloc: Global,
    session: &mut SessionState,
    port: &mut P,
    statement: &Statement,
    names: &[Units],
    name: &Units,
    text: &Units,
    around: &Around<'_, '_>,
) -> Result<Effect, Failure>
    requires ready { Ready session.old (P.past port.old) }
    requires names { names.now ≡ looked_up statement.now }
    ensures does { Did (P.past port.old) (P.past port.new) (own true (binds around.now statement.now (λ shapes of. unless_objects name.now (creates name.now text.now)))) session.old (Ok result) session.new }
    ensures ready { Ready session.new (P.past port.new) }
    ensures none { IfOk result (λ effect. effect.sets ≡ []) }
{
    let home = enter(session, port, true)?;
    let came = create_in(alloc, session, port, statement, names, name, text, around);
    leave(session, port, home, came.is_ok());
    came
}

/// One whose parents are looked up, within its transaction.
fn create_in<P: Port>(
    alloc: Global,
    session: &mut SessionState,
    port: &mut P,
    statement: &Statement,
    names: &[Units],
    name: &Units,
    text: &Units,
    around: &Around<'_, '_>,
) -> Result<Effect, Failure>
    requires ready { Ready session.old (P.past port.old) }
    requires begun { session.old.is_open ≡ true }
    requires names { names.now ≡ looked_up statement.now }
    ensures does { Did (P.past port.old) (P.past port.new) (binds around.now statement.now (λ shapes of. unless_objects name.now (creates name.now text.now))) session.old (Ok result) session.new }
    ensures ready { Ready session.new (P.past port.new) }
    ensures begun { session.new.is_open ≡ true }
    ensures none { IfOk result (λ effect. effect.sets ≡ []) }
{
    let (_shapes, of) = prepare(alloc, session, port, around, statement, names)?;
    discard(of);
    if is_objects(name) {
        return Err(naming(alloc, OBJECT_PRESENT, name));
    }
    create(alloc, session, port, name, text)
}

/// One without parents, whose transaction is begun behind the binding.
fn create_alone<P: Port>(
    alloc: Global,
    session: &mut SessionState,
    port: &mut P,
    statement: &Statement,
    names: &[Units],
    name: &Units,
    text: &Units,
    around: &Around<'_, '_>,
) -> Result<Effect, Failure>
    requires ready { Ready session.old (P.past port.old) }
    requires alone { asks_any (known_by around.now statement.now) names.now ≡ false }
    requires names { names.now ≡ looked_up statement.now }
    ensures does { Did (P.past port.old) (P.past port.new) (binds around.now statement.now (λ shapes of. unless_objects name.now (own true (creates name.now text.now)))) session.old (Ok result) session.new }
    ensures ready { Ready session.new (P.past port.new) }
    ensures none { IfOk result (λ effect. effect.sets ≡ []) }
{
    let (_shapes, of) = prepare(alloc, session, port, around, statement, names)?;
    discard(of);
    if is_objects(name) {
        return Err(naming(alloc, OBJECT_PRESENT, name));
    }
    create_own(alloc, session, port, name, text)
}

/// A table's definition is put into `objects`, within the open transaction or one of its own.
fn create_own<P: Port>(
    alloc: Global,
    session: &mut SessionState,
    port: &mut P,
    name: &Units,
    text: &Units,
) -> Result<Effect, Failure>
    requires ready { Ready session.old (P.past port.old) }
    ensures does { Did (P.past port.old) (P.past port.new) (own true (creates name.now text.now)) session.old (Ok result) session.new }
    ensures ready { Ready session.new (P.past port.new) }
    ensures none { IfOk result (λ effect. effect.sets ≡ []) }
{
    let home = enter(session, port, true)?;
    let came = create(alloc, session, port, name, text);
    leave(session, port, home, came.is_ok());
    came
}

// ---- CREATE PROCEDURE and CREATE TRIGGER

/// Puts the definition of a procedure or trigger into `objects`.
#[inline(never)]
pub fn create_definition<P: Port>(
    alloc: Global,
    session: &mut SessionState,
    port: &mut P,
    of: &Definition,
    text: &Units,
) -> Result<Effect, Failure>
    requires ready { Ready session.old (P.past port.old) }
    ensures does { Did (P.past port.old) (P.past port.new) (creates_definition of.now text.now) session.old (Ok result) session.new }
    ensures ready { Ready session.new (P.past port.new) }
    ensures none { IfOk result (λ effect. effect.sets ≡ []) }
{
    match of {
        Definition::Table(_) => Err(Failure::plain(OUTSIDE_LIMITS)),
        Definition::Procedure(procedure) => {
            create_procedure(alloc, session, port, procedure, text)
        }
        Definition::Trigger(trigger) => create_trigger(alloc, session, port, trigger, text),
    }
}

/// A procedure names nothing that is looked up.
fn create_procedure<P: Port>(
    alloc: Global,
    session: &mut SessionState,
    port: &mut P,
    procedure: &ProcedureTree,
    text: &Units,
) -> Result<Effect, Failure>
    requires ready { Ready session.old (P.past port.old) }
    ensures does { Did (P.past port.old) (P.past port.new) (creates_definition (Procedure procedure.now) text.now) session.old (Ok result) session.new }
    ensures ready { Ready session.new (P.past port.new) }
    ensures none { IfOk result (λ effect. effect.sets ≡ []) }
{
    may_be_put(alloc, is_odd_procedure(procedure), &procedure.name)?;
    create_own(alloc, session, port, &procedure.name, text)
}

/// Whether a procedure has too long a name, too many parameters or an odd one.
pub fn is_odd_procedure(procedure: &ProcedureTree) -> bool
    ensures { result ≡ is_odd_procedure procedure.now }
{
    is_long(&procedure.name) || is_odd_list(procedure.parameters.as_slice())
}

/// A definition is within the limits, and has not the name of `objects`.
fn may_be_put(alloc: Global, is_outside: bool, name: &Units) -> Result<(), Failure>
    ensures { MayBePut is_outside (is_objects name.now) name.now result }
{
    if is_outside {
        return Err(Failure::plain(OUTSIDE_LIMITS));
    }
    if is_objects(name) {
        return Err(naming(alloc, OBJECT_PRESENT, name));
    }
    Ok(())
}

/// Whether parameters are more than a procedure may have variables, or one of them is odd.
fn is_odd_list(parameters: &[Parameter]) -> bool
    ensures { result ≡ is_odd_list parameters.now }
{
    MAX_VARIABLES < parameters.len() || is_one_odd(parameters)
}

/// Whether one of them is odd.
fn is_one_odd(parameters: &[Parameter]) -> bool
    ensures { result ≡ list_any is_odd_parameter parameters.now }
{
    parameters
        .iter()
        .any(|parameter| is_odd_parameter(parameter))
}

/// Whether a parameter has too long a name, or is a text of a size that there is not.
fn is_odd_parameter(parameter: &Parameter) -> bool
    ensures { result ≡ is_odd_parameter parameter.now }
{
    is_long(&parameter.name) || !is_kind(parameter.kind)
}

/// A trigger's table is looked up first.
fn create_trigger<P: Port>(
    alloc: Global,
    session: &mut SessionState,
    port: &mut P,
    trigger: &TriggerTree,
    text: &Units,
) -> Result<Effect, Failure>
    requires ready { Ready session.old (P.past port.old) }
    ensures does { Did (P.past port.old) (P.past port.new) (creates_definition (Trigger trigger.now) text.now) session.old (Ok result) session.new }
    ensures ready { Ready session.new (P.past port.new) }
    ensures none { IfOk result (λ effect. effect.sets ≡ []) }
{
    let home = enter(session, port, !is_objects(&trigger.table))?;
    let came = create_trigger_in(alloc, session, port, trigger, text);
    leave(session, port, home, came.is_ok());
    came
}

/// The same within its transaction.
fn create_trigger_in<P: Port>(
    alloc: Global,
    session: &mut SessionState,
    port: &mut P,
    trigger: &TriggerTree,
    text: &Units,
) -> Result<Effect, Failure>
    requires ready { Ready session.old (P.past port.old) }
    requires begun { not (is_objects trigger.now.table) ≡ true → session.old.is_open ≡ true }
    ensures does { Did (P.past port.old) (P.past port.new) (creates_trigger trigger.now text.now) session.old (Ok result) session.new }
    ensures ready { Ready session.new (P.past port.new) }
    ensures kept { session.new.is_open ≡ session.old.is_open }
    ensures none { IfOk result (λ effect. effect.sets ≡ []) }
{
    let table = &trigger.table;
    let is_there = is_found(
        DropKind::Table,
        table,
        &look_up(alloc, session, port, table)?,
    );
    if !is_there {
        return Err(naming(alloc, UNKNOWN_TABLE, table));
    }
    may_be_put(alloc, is_long(&trigger.name), &trigger.name)?;
    create(alloc, session, port, &trigger.name, text)
}

/// Whether a name is too long.
fn is_long(name: &Units) -> bool
    ensures { result ≡ is_long name.now }
{
    LONGEST_NAME < name.len()
}

/// Whether there is such a type.
fn is_kind(kind: SqlType) -> bool
    ensures { result ≡ is_kind kind }
{
    match kind {
        SqlType::NText(size) => 1 <= size && size <= 4_000,
        _ => true,
    }
}
