//! How all definitions are read.

ghost use Rattle.std.specs.Prelude.{◌≡◌, [], true, Ok};
ghost use Rattle.step_model.specs.declared.range.Start.TheVariants.{First};
ghost use Rattle.step_model.specs.Ranges.{range_limit};
ghost use Rattle.batch_meaning.specs.Doing.{Did, asks};
ghost use Rattle.batch_meaning.specs.Asking.{defined_by, defined_from, reads_definitions, unless_refused};
ghost use Rattle.batch_meaning.specs.Progress.{Ready};
ghost use Rattle.table_rows.specs.Rows.{rows_table};
ghost use Rattle.table_rows.specs.Definitions.{objects_name};
ghost use Rattle.statement_exec.specs.Fetched.{fetch_behind, ReadsObjects, IsKeyDefined};
ghost use Rattle.dml_exec.specs.Asking.{beside, seen};

use crate::look_up::{add, defined, objects};
use batch_meaning::Failure;
use lock_modes::KeyPart;
use session_state::{DEADLOCK, LOCK_TIMEOUT, NO_MEMORY, RANGE_FULL, SessionState};
use std::alloc::Global;
use step_model::{Hold, Op, Port, Reply, Start, Stop};
use tsql_tree::Definition;
use value_types::{Key, Row, TableName};

/// How many keys of one range are looked at, at most.
const RANGE_LIMIT: u32 = 10_000_000;

/// All definitions, in the order of their names.
pub(crate) fn read_definitions<P: Port>(
    alloc: Global,
    session: &mut SessionState,
    port: &mut P,
) -> Result<Vec<Definition>, Failure>
    requires ready { Ready session.old (P.past port.old) }
    requires begun { session.old.is_open ≡ true }
    ensures does { Did (P.past port.old) (P.past port.new) reads_definitions session.old (Ok (seen result)) session.new }
    ensures ready { Ready session.new (P.past port.new) }
    ensures begun { session.new.is_open ≡ true }
{
    match objects(alloc) {
        Ok(table) => read_all(alloc, session, port, table),
        Err(_) => Err(Failure::plain(NO_MEMORY)),
    }
}

/// What the rows of `objects`, which is this table, define.
fn read_all<P: Port>(
    alloc: Global,
    session: &mut SessionState,
    port: &mut P,
    table: TableName,
) -> Result<Vec<Definition>, Failure>
    requires ready { Ready session.old (P.past port.old) }
    requires begun { session.old.is_open ≡ true }
    requires table { table ≡ rows_table objects_name }
    ensures does { Did (P.past port.old) (P.past port.new) (defined_from range_limit First []) session.old (Ok (seen result)) session.new }
    ensures ready { Ready session.new (P.past port.new) }
    ensures begun { session.new.is_open ≡ true }
{
    let mut definitions = Vec::new(alloc);
    let mut fetch = Op::Fetch {
        table,
        start: Start::First,
        stop: Stop::Last,
        hold: Hold::Range,
        part: KeyPart::S,
    };
    let mut left = RANGE_LIMIT;
    while 0 < left {
        match read_next(alloc, session, port, &fetch, &mut definitions)? {
            Some(key) => fetch = behind(fetch, key),
            None => return Ok(definitions),
        }
        left -= 1;
    }
    Err(Failure::plain(RANGE_FULL))
}

/// Asks a fetch, and adds what its row defines. The key to go on from, or none at the end.
fn read_next<P: Port>(
    alloc: Global,
    session: &mut SessionState,
    port: &mut P,
    fetch: &Op,
    definitions: &mut Vec<Definition>,
) -> Result<Option<Key>, Failure>
    requires ready { Ready session.old (P.past port.old) }
    requires begun { session.old.is_open ≡ true }
    requires range { ReadsObjects fetch.now }
    ensures does { Did (P.past port.old) (P.past port.new) (asks fetch.now (unless_refused (defined_by definitions.old.items))) session.old (Ok (beside definitions.new.items result)) session.new }
    ensures ready { Ready session.new (P.past port.new) }
    ensures begun { session.new.is_open ≡ true }
{
    match session.ask(port, fetch) {
        Reply::Row { key, row, .. } => add_at(alloc, key, &row, definitions),
        Reply::Gone { key, .. } => Ok(Some(key)),
        Reply::End { .. } => Ok(None),
        Reply::Memory => Err(Failure::plain(NO_MEMORY)),
        Reply::TimedOut { .. } => Err(Failure::plain(LOCK_TIMEOUT)),
        Reply::Victim { .. } => Err(Failure::plain(DEADLOCK)),
        _ => unreachable!(),
    }
}

/// Adds what a row of `objects` defines, and gives its key.
fn add_at(
    alloc: Global,
    key: Key,
    row: &Row,
    definitions: &mut Vec<Definition>,
) -> Result<Option<Key>, Failure>
    ensures { IsKeyDefined key row.now definitions.old.items result definitions.new.items }
{
    let found = defined(alloc, &key, row)?;
    if add(definitions, found) {
        Ok(Some(key))
    } else {
        Err(Failure::plain(NO_MEMORY))
    }
}

/// The fetch of the rest of its range, behind a key. A key has at least one value, and one at which a definition stands has
/// exactly one, so none of these is passed over.
fn behind(fetch: Op, key: Key) -> Op
    ensures { result ≡ fetch_behind fetch key }
{
    match fetch {
        Op::Fetch {
            table,
            stop,
            hold,
            part,
            ..
        } => Op::Fetch {
            table,
            start: Start::Past(key),
            stop,
            hold,
            part,
        },
        other => other,
    }
}
