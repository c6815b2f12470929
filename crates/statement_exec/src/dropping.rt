//! What DROP runs.

ghost use Rattle.std.specs.Prelude.{◌≡◌, ◌++◌, ◌∷◌, [], map, option_to_list, true, Ok, Some, IfOk};
ghost use Rattle.std.specs.List.{list_any};
ghost use Rattle.bound_tree.specs.declared.write.Bound.TheVariants.{Write};
ghost use Rattle.tsql_tree.specs.declared.statement.DropKind.TheVariants as drop;
ghost use Rattle.table_rows.specs.Definitions.{tables_of as tables_defined};
ghost use Rattle.dml_exec.specs.declared.refusal.Level.TheVariants.{Serializable};
ghost use Rattle.dml_exec.specs.Reading.{none_given};
ghost use Rattle.batch_meaning.specs.Asking.{reads_at, with_room};
ghost use Rattle.batch_meaning.specs.Changing.{definition_erased, dropped, dropped_as, refers, trigger_of, unless_referred, whole, with_definitions};
ghost use Rattle.batch_meaning.specs.Doing.{Did};
ghost use Rattle.batch_meaning.specs.Raised.{Around as Stands};
ghost use Rattle.batch_meaning.specs.Progress.{Ready};
ghost use Rattle.batch_meaning.specs.Working.{asks_any, known_by};
ghost use Rattle.batch_meaning.specs.Writes.{drops, drops_definition, drops_found, drops_table};
ghost use Rattle.statement_exec.specs.Dropped.{drops_bound, drops_in, is_found, refers_from};
ghost use Rattle.session_state.specs.Parts.{IsOrMemory};

use crate::changing::plan_with;
use crate::dialogs::{apply, read};
use crate::discard::{discard, discard_write};
use crate::home::{enter, leave};
use crate::known::asks_named;
use crate::look_up::{find_name, objects};
use crate::objects::read_definitions;
use crate::prepare::bound_over;
use batch_meaning::Failure;
use bound_tree::{Bound, BoundWrite, Image};
use dml_exec::Level;
use session_state::{Around, Effect, IS_PARENT, NOT_THERE, SessionState, naming, no_memory};
use sqlite_items::Items;
use std::alloc::Global;
use std::slice;
use step_model::{Deed, Planned, Port};
use table_rows::object_key;
use tsql_tree::{Definition, DropKind, Statement, TableTree};
use value_types::{Memory, TableName, Units};

/// Drops what is of a kind and a name.
#[inline(never)]
pub fn drop_object<P: Port>(
    alloc: Global,
    session: &mut SessionState,
    port: &mut P,
    statement: &Statement,
    kind: DropKind,
    name: &Units,
    around: &Around<'_, '_>,
) -> Result<Effect, Failure>
    requires ready { Ready session.old (P.past port.old) }
    ensures does { Did (P.past port.old) (P.past port.new) (drops around.now statement.now kind name.now) session.old (Ok result) session.new }
    ensures ready { Ready session.new (P.past port.new) }
    ensures none { IfOk result (λ effect. effect.sets ≡ []) }
{
    let home = enter(session, port, asks_named(around, &statement.form, name))?;
    let came = drop_in(alloc, session, port, statement, kind, name, around);
    leave(session, port, home, came.is_ok());
    came
}

/// The same within its transaction.
fn drop_in<P: Port>(
    alloc: Global,
    session: &mut SessionState,
    port: &mut P,
    statement: &Statement,
    kind: DropKind,
    name: &Units,
    around: &Around<'_, '_>,
) -> Result<Effect, Failure>
    requires ready { Ready session.old (P.past port.old) }
    requires begun { asks_any (known_by around.now statement.now) (name.now ∷ []) ≡ true → session.old.is_open ≡ true }
    ensures does { Did (P.past port.old) (P.past port.new) (drops_in around.now statement.now kind name.now) session.old (Ok result) session.new }
    ensures ready { Ready session.new (P.past port.new) }
    ensures kept { session.new.is_open ≡ session.old.is_open }
    ensures none { IfOk result (λ effect. effect.sets ≡ []) }
{
    let found = find_name(alloc, session, port, around, &statement.form, name)?;
    drop_bound(alloc, session, port, statement, kind, name, around, &found)
}

/// Binds the statement, over no definitions, and drops what was found under the name.
fn drop_bound<P: Port>(
    alloc: Global,
    session: &mut SessionState,
    port: &mut P,
    statement: &Statement,
    kind: DropKind,
    name: &Units,
    around: &Around<'_, '_>,
    found: &Option<Definition>,
) -> Result<Effect, Failure>
    requires ready { Ready session.old (P.past port.old) }
    ensures does { Did (P.past port.old) (P.past port.new) (drops_bound around.now statement.now kind name.now found.now) session.old (Ok result) session.new }
    ensures ready { Ready session.new (P.past port.new) }
    ensures kept { session.new.is_open ≡ session.old.is_open }
    ensures none { IfOk result (λ effect. effect.sets ≡ []) }
{
    match bound_over(alloc, statement, &[], session.vars()) {
        Ok(of) => {
            discard(of);
            drop_found(alloc, session, port, kind, name, around, found)
        }
        Err(failure) => Err(failure),
    }
}

/// Drops what was found under the name, if it has that name and is of the kind. What was found was looked up in a
/// transaction.
fn drop_found<P: Port>(
    alloc: Global,
    session: &mut SessionState,
    port: &mut P,
    kind: DropKind,
    name: &Units,
    around: &Around<'_, '_>,
    found: &Option<Definition>,
) -> Result<Effect, Failure>
    requires ready { Ready session.old (P.past port.old) }
    ensures does { Did (P.past port.old) (P.past port.new) (drops_found around.now kind name.now found.now) session.old (Ok result) session.new }
    ensures ready { Ready session.new (P.past port.new) }
    ensures kept { session.new.is_open ≡ session.old.is_open }
    ensures none { IfOk result (λ effect. effect.sets ≡ []) }
{
    if !is_found(kind, name, found) {
        return Err(naming(alloc, NOT_THERE, name));
    }
    if !session.in_transaction() {
        return Err(no_memory());
    }
    match found {
        Some(Definition::Table(shape)) => drop_table(alloc, session, port, around, shape, name),
        Some(Definition::Procedure(_)) => drop_definition(alloc, session, port, name),
        Some(Definition::Trigger(_)) => drop_definition(alloc, session, port, name),
        None => Err(no_memory()),
    }
}

/// Whether what was found has this name, and is of a kind.
pub(crate) fn is_found(kind: DropKind, name: &Units, found: &Option<Definition>) -> bool
    ensures { result ≡ is_found kind name.now found.now }
{
    match found {
        Some(definition) => is_called(kind, name, definition),
        None => false,
    }
}

/// Whether a definition has this name, and is of a kind.
fn is_called(kind: DropKind, name: &Units, definition: &Definition) -> bool
    ensures { result ≡ is_found kind name.now (Some definition.now) }
{
    match kind {
        DropKind::Table => is_table_called(name, definition),
        DropKind::Procedure => is_procedure_called(name, definition),
        DropKind::Trigger => is_trigger_called(name, definition),
    }
}

/// Whether it is a table of this name.
fn is_table_called(name: &Units, definition: &Definition) -> bool
    ensures { result ≡ is_found drop.Table name.now (Some definition.now) }
{
    match definition {
        Definition::Table(table) => table.name == *name,
        Definition::Procedure(_) => false,
        Definition::Trigger(_) => false,
    }
}

/// Whether it is a procedure of this name.
fn is_procedure_called(name: &Units, definition: &Definition) -> bool
    ensures { result ≡ is_found drop.Procedure name.now (Some definition.now) }
{
    match definition {
        Definition::Table(_) => false,
        Definition::Procedure(procedure) => procedure.name == *name,
        Definition::Trigger(_) => false,
    }
}

/// Whether it is a trigger of this name.
fn is_trigger_called(name: &Units, definition: &Definition) -> bool
    ensures { result ≡ is_found drop.Trigger name.now (Some definition.now) }
{
    match definition {
        Definition::Table(_) => false,
        Definition::Procedure(_) => false,
        Definition::Trigger(trigger) => trigger.name == *name,
    }
}

/// Erases the definition of a procedure or trigger.
fn drop_definition<P: Port>(
    alloc: Global,
    session: &mut SessionState,
    port: &mut P,
    name: &Units,
) -> Result<Effect, Failure>
    requires ready { Ready session.old (P.past port.old) }
    requires begun { session.old.is_open ≡ true }
    ensures does { (around : Stands) → Did (P.past port.old) (P.past port.new) (drops_definition around name.now) session.old (Ok result) session.new }
    ensures ready { Ready session.new (P.past port.new) }
    ensures begun { session.new.is_open ≡ true }
    ensures none { IfOk result (λ effect. effect.sets ≡ []) }
{
    let Ok(planned) = erasure(alloc, name) else {
        return Err(no_memory());
    };
    apply(alloc, session, port, &[], planned.as_slice())?;
    Ok(Effect::none(alloc))
}

/// The erasure of a definition alone.
fn erasure(alloc: Global, name: &Units) -> Result<Items<Planned>, Memory>
    ensures { IfOk result (λ planned. planned ≡ definition_erased name.now ∷ []) }
{
    let mut planned = Items::new(alloc);
    add_definition(alloc, name, &mut planned)?;
    Ok(planned)
}

/// Drops a table of this shape, with its triggers.
fn drop_table<P: Port>(
    alloc: Global,
    session: &mut SessionState,
    port: &mut P,
    around: &Around<'_, '_>,
    shape: &TableTree,
    name: &Units,
) -> Result<Effect, Failure>
    requires ready { Ready session.old (P.past port.old) }
    requires begun { session.old.is_open ≡ true }
    ensures does { Did (P.past port.old) (P.past port.new) (drops_table around.now shape.now name.now) session.old (Ok result) session.new }
    ensures ready { Ready session.new (P.past port.new) }
    ensures begun { session.new.is_open ≡ true }
    ensures none { IfOk result (λ effect. effect.sets ≡ []) }
{
    let definitions = read_definitions(alloc, session, port)?;
    free(alloc, definitions.as_slice(), name)?;
    let images = read_whole(alloc, session, port, slice::from_ref(shape), name)?;
    let planned = plan_drop(
        alloc,
        session,
        around,
        definitions.as_slice(),
        shape,
        name,
        images.as_slice(),
    )?;
    apply(alloc, session, port, &[], planned.as_slice())?;
    Ok(Effect::none(alloc))
}

/// No other table refers to that of this name.
fn free(alloc: Global, definitions: &[Definition], name: &Units) -> Result<(), Failure>
    ensures { IsOrMemory (unless_referred name.now (tables_defined definitions.now)) result }
{
    if is_referred(name, definitions) {
        return Err(naming(alloc, IS_PARENT, name));
    }
    Ok(())
}

/// Whether another table refers to that of this name.
fn is_referred(name: &Units, definitions: &[Definition]) -> bool
    ensures { result ≡ list_any (refers_from name.now) definitions.now }
{
    definitions
        .iter()
        .any(|definition| refers_from(name, definition))
}

/// Whether a definition is another table that refers to that of this name.
fn refers_from(name: &Units, definition: &Definition) -> bool
    ensures { result ≡ refers_from name.now definition.now }
{
    match definition {
        Definition::Table(table) => table.name != *name && refers(name, table),
        Definition::Procedure(_) => false,
        Definition::Trigger(_) => false,
    }
}

/// Whether a FOREIGN KEY of a table refers to that of this name.
fn refers(name: &Units, table: &TableTree) -> bool
    ensures { result ≡ refers name.now table.now }
{
    table
        .foreigns
        .as_slice()
        .iter()
        .any(|foreign| foreign.parent == *name)
}

/// Reads all rows of a table, its range held, as they are to be erased.
fn read_whole<P: Port>(
    alloc: Global,
    session: &mut SessionState,
    port: &mut P,
    shapes: &[TableTree],
    name: &Units,
) -> Result<Items<Image>, Failure>
    requires ready { Ready session.old (P.past port.old) }
    requires begun { session.old.is_open ≡ true }
    ensures does { Did (P.past port.old) (P.past port.new) (with_room (reads_at none_given Serializable [] shapes.now (Write (whole name.now)))) session.old (Ok result) session.new }
    ensures ready { Ready session.new (P.past port.new) }
    ensures begun { session.new.is_open ≡ true }
{
    match whole(alloc, name) {
        Ok(write) => {
            let of = Bound::Write(write);
            let came = read(alloc, session, port, None, Level::Serializable, shapes, &of);
            discard(of);
            came
        }
        Err(_) => Err(no_memory()),
    }
}

/// The DELETE of all rows of a table.
fn whole(alloc: Global, name: &Units) -> Result<BoundWrite, Memory>
    ensures { IfOk result (λ write. write ≡ whole name.now) }
{
    Ok(BoundWrite::Delete {
        table: TableName {
            object: name.copy(alloc)?,
            part: 0,
        },
        filter: None,
        inner: Items::new(alloc),
    })
}

/// The changes by which a table of these rows is dropped, with its triggers among these definitions.
fn plan_drop(
    alloc: Global,
    session: &SessionState,
    around: &Around<'_, '_>,
    definitions: &[Definition],
    shape: &TableTree,
    name: &Units,
    images: &[Image],
) -> Result<Items<Planned>, Failure>
    ensures { IsOrMemory (dropped around.now session.now definitions.now shape.now name.now images.now) result }
{
    match whole(alloc, name) {
        Ok(write) => {
            let planned = plan_with(alloc, session, around, shape, &[], &write, images);
            discard_write(write);
            dropped_as(alloc, definitions, name, planned)
        }
        Err(_) => Err(no_memory()),
    }
}

/// The changes by which a table is dropped, by those that erase its rows.
fn dropped_as(
    alloc: Global,
    definitions: &[Definition],
    name: &Units,
    planned: Result<Items<Planned>, Failure>,
) -> Result<Items<Planned>, Failure>
    ensures { IsOrMemory (dropped_as definitions.now name.now planned) result }
{
    match planned {
        Ok(mut planned) => match add_definitions(alloc, definitions, name, &mut planned) {
            Ok(()) => Ok(planned),
            Err(_) => Err(no_memory()),
        },
        Err(failure) => Err(failure),
    }
}

/// Adds the erasures of the triggers of a table, and of its own definition.
fn add_definitions(
    alloc: Global,
    definitions: &[Definition],
    name: &Units,
    planned: &mut Items<Planned>,
) -> Result<(), Memory>
    ensures { IfOk result (λ _. planned.new ≡ with_definitions definitions.now name.now planned.old) }
{
    for definition in definitions {
        add_trigger(alloc, definition, name, planned)?;
    }
    add_definition(alloc, name, planned)
}

/// Adds the erasure of a definition that is a trigger of the table.
fn add_trigger(
    alloc: Global,
    definition: &Definition,
    table: &Units,
    planned: &mut Items<Planned>,
) -> Result<(), Memory>
    ensures { IfOk result (λ _. planned.new ≡ planned.old ++ map definition_erased (option_to_list (trigger_of table.now definition.now))) }
{
    match definition {
        Definition::Table(_) => Ok(()),
        Definition::Procedure(_) => Ok(()),
        Definition::Trigger(trigger) => {
            if trigger.table == *table {
                add_definition(alloc, &trigger.name, planned)
            } else {
                Ok(())
            }
        }
    }
}

/// Adds the erasure of a definition.
fn add_definition(alloc: Global, name: &Units, planned: &mut Items<Planned>) -> Result<(), Memory>
    ensures { IfOk result (λ _. planned.new ≡ planned.old ++ definition_erased name.now ∷ []) }
{
    let change = Planned {
        table: objects(alloc)?,
        key: object_key(alloc, name)?,
        deed: Deed::Erase,
    };
    planned.push(change)?;
    Ok(())
}
