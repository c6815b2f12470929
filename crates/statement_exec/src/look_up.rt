//! How names are looked up in `objects`.

ghost use Rattle.std.specs.Prelude.{Bool, ◌≡◌, ◌∷◌, [], true, false, Ok, IfOk, IsTrue, is_some};
ghost use Rattle.lock_modes.specs.declared.KeyPart.TheVariants.{S};
ghost use Rattle.step_model.specs.declared.op.Hold.TheVariants as hold;
ghost use Rattle.step_model.specs.declared.op.Op.TheVariants as ops;
ghost use Rattle.step_model.specs.declared.range.Start.TheVariants.{At};
ghost use Rattle.step_model.specs.declared.range.Stop.TheVariants.{Within};
ghost use Rattle.tsql_tree.specs.declared.statement.Form.{out-Form};
ghost use Rattle.batch_meaning.specs.Doing.{Did, asks};
ghost use Rattle.batch_meaning.specs.Asking.{unless_refused, finds_by, is_table, known, look_up, looks_up, with_found};
ghost use Rattle.batch_meaning.specs.Working.{asks_any, asks_first, known_in};
ghost use Rattle.batch_meaning.specs.Progress.{Ready};
ghost use Rattle.dml_exec.specs.Asking.{seen};
ghost use Rattle.table_rows.specs.Definitions.{is_objects, objects_name, object_key};
ghost use Rattle.table_rows.specs.Rows.{rows_table};
ghost use Rattle.statement_exec.specs.Fetched.{IsFetch};
ghost use Rattle.statement_exec.specs.Selected.{IsDefined};

use crate::known::{StandsFor, known, table_called};
use batch_meaning::Failure;
use catalog_rows::definition_in;
use lock_modes::KeyPart;
use session_state::{Around, DEADLOCK, LOCK_TIMEOUT, NO_MEMORY, SessionState};
use std::alloc::Global;
use step_model::{Hold, Op, Port, Reply, Start, Stop};
use table_rows::{is_objects, object_key};
use tsql_tree::{Definition, Form};
use value_types::{Key, Memory, Row, TableName, Units};

/// What names are defined as, one after another, up to the first that is no table's.
pub(crate) fn look_up_all<P: Port>(
    alloc: Global,
    session: &mut SessionState,
    port: &mut P,
    around: &Around<'_, '_>,
    form: &Form,
    names: &[Units],
) -> Result<Vec<Definition>, Failure>
    requires ready { Ready session.old (P.past port.old) }
    requires begun { asks_any (known_in around.now.fired (out-Form form.now)) names.now ≡ true → session.old.is_open ≡ true }
    ensures does { Did (P.past port.old) (P.past port.new) (looks_up (known_in around.now.fired (out-Form form.now)) [] names.now) session.old (Ok (seen result)) session.new }
    ensures ready { Ready session.new (P.past port.new) }
    ensures kept { session.new.is_open ≡ session.old.is_open }
    ensures vars { session.new.vars ≡ session.old.vars }
{
    let mut definitions = Vec::new(alloc);
    for name in names {
        let found = find_name(alloc, session, port, around, form, name)?;
        if !is_table(&found) {
            return Ok(definitions);
        }
        if !add(&mut definitions, found) {
            return Err(Failure::plain(NO_MEMORY));
        }
    }
    Ok(definitions)
}

/// What a name is defined as; in a trigger `inserted` and `deleted` are not looked up.
pub fn find_name<P: Port>(
    alloc: Global,
    session: &mut SessionState,
    port: &mut P,
    around: &Around<'_, '_>,
    form: &Form,
    name: &Units,
) -> Result<Option<Definition>, Failure>
    requires ready { Ready session.old (P.past port.old) }
    requires begun { asks_any (known_in around.now.fired (out-Form form.now)) (name.now ∷ []) ≡ true → session.old.is_open ≡ true }
    ensures does { Did (P.past port.old) (P.past port.new) (finds_by (known_in around.now.fired (out-Form form.now) name.now) name.now) session.old (Ok result) session.new }
    ensures ready { Ready session.new (P.past port.new) }
    ensures kept { session.new.is_open ≡ session.old.is_open }
    ensures vars { session.new.vars ≡ session.old.vars }
    ensures more { IfOk result (λ found. is_some found ≡ true → (others : Bool) → (asks_first (known_in around.now.fired (out-Form form.now) name.now) name.now others ≡ true → session.old.is_open ≡ true) → others ≡ true → session.new.is_open ≡ true) }
{
    match known(around, form, name) {
        StandsFor::LookedUp => look_up(alloc, session, port, name),
        StandsFor::Nothing => Ok(None),
        StandsFor::Given(fired) => match table_called(alloc, name, fired) {
            Ok(table) => Ok(Some(table)),
            Err(_) => Err(Failure::plain(NO_MEMORY)),
        },
    }
}

/// Whether what was found is a table.
fn is_table(found: &Option<Definition>) -> bool
    ensures { result ≡ is_table found.now }
{
    matches!(found, Some(Definition::Table(_)))
}

/// Adds a definition, where there is one. Whether there was memory for it.
pub(crate) fn add(definitions: &mut Vec<Definition>, found: Option<Definition>) -> bool
    ensures { IsTrue result → definitions.new.items ≡ with_found definitions.old.items found }
{
    match found {
        Some(definition) => definitions.push(definition).is_ok(),
        None => true,
    }
}

/// What a name is defined as; `objects` is no table of a batch, and nothing is asked of it.
pub(crate) fn look_up<P: Port>(
    alloc: Global,
    session: &mut SessionState,
    port: &mut P,
    name: &Units,
) -> Result<Option<Definition>, Failure>
    requires ready { Ready session.old (P.past port.old) }
    requires begun { is_objects name.now ≡ false → session.old.is_open ≡ true }
    ensures does { Did (P.past port.old) (P.past port.new) (look_up name.now) session.old (Ok result) session.new }
    ensures ready { Ready session.new (P.past port.new) }
    ensures kept { session.new.is_open ≡ session.old.is_open }
    ensures vars { session.new.vars ≡ session.old.vars }
    ensures found { IfOk result (λ found. is_some found ≡ true → session.new.is_open ≡ true) }
{
    if is_objects(name) {
        return Ok(None);
    }
    match object_range(alloc, name) {
        Ok((table, start, stop)) => find(alloc, session, port, table, start, stop),
        Err(_) => Err(Failure::plain(NO_MEMORY)),
    }
}

/// What stands in a range of one key.
fn find<P: Port>(
    alloc: Global,
    session: &mut SessionState,
    port: &mut P,
    table: TableName,
    start: Key,
    stop: Key,
) -> Result<Option<Definition>, Failure>
    requires ready { Ready session.old (P.past port.old) }
    requires begun { session.old.is_open ≡ true }
    ensures does { Did (P.past port.old) (P.past port.new) (asks (ops.Fetch table (At start) (Within stop) hold.Range S) (unless_refused known)) session.old (Ok result) session.new }
    ensures ready { Ready session.new (P.past port.new) }
    ensures begun { session.new.is_open ≡ true }
    ensures vars { session.new.vars ≡ session.old.vars }
{
    let fetch = Op::Fetch {
        table,
        start: Start::At(start),
        stop: Stop::Within(stop),
        hold: Hold::Range,
        part: KeyPart::S,
    };
    fetch_defined(alloc, session, port, &fetch)
}

/// What the row of a fetch defines, if it gives one.
fn fetch_defined<P: Port>(
    alloc: Global,
    session: &mut SessionState,
    port: &mut P,
    fetch: &Op,
) -> Result<Option<Definition>, Failure>
    requires ready { Ready session.old (P.past port.old) }
    requires begun { session.old.is_open ≡ true }
    requires fetch { IsFetch fetch.now }
    ensures does { Did (P.past port.old) (P.past port.new) (asks fetch.now (unless_refused known)) session.old (Ok result) session.new }
    ensures ready { Ready session.new (P.past port.new) }
    ensures begun { session.new.is_open ≡ true }
    ensures vars { session.new.vars ≡ session.old.vars }
{
    match session.ask(port, fetch) {
        Reply::Row { key, row, .. } => defined(alloc, &key, &row),
        Reply::Gone { .. } => Ok(None),
        Reply::End { .. } => Ok(None),
        Reply::Memory => Err(Failure::plain(NO_MEMORY)),
        Reply::TimedOut { .. } => Err(Failure::plain(LOCK_TIMEOUT)),
        Reply::Victim { .. } => Err(Failure::plain(DEADLOCK)),
        _ => unreachable!(),
    }
}

/// What a row of `objects` at a key defines.
pub(crate) fn defined(alloc: Global, key: &Key, row: &Row) -> Result<Option<Definition>, Failure>
    ensures { IsDefined (key.now, row.now) result }
{
    match definition_in(alloc, key, row) {
        Ok(found) => Ok(found),
        Err(_) => Err(Failure::plain(NO_MEMORY)),
    }
}

/// The table of definitions, and twice a definition's key.
fn object_range(alloc: Global, name: &Units) -> Result<(TableName, Key, Key), Memory>
    ensures { IfOk result (λ range. range ≡ (rows_table objects_name, object_key name.now, object_key name.now)) }
{
    Ok((
        objects(alloc)?,
        object_key(alloc, name)?,
        object_key(alloc, name)?,
    ))
}

/// The table that has the definitions.
pub(crate) fn objects(alloc: Global) -> Result<TableName, Memory>
    ensures { IfOk result (λ table. table ≡ rows_table objects_name) }
{
    Ok(TableName {
        object: Units::of_ascii(alloc, b"objects")?,
        part: 0,
    })
}
