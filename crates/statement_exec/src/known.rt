//! What names stand for in a trigger, without a look-up.

ghost use Rattle.std.specs.Prelude.{◌≡◌, ◌∷◌, [], not, IfOk};
ghost use Rattle.value_types.specs.Units.{same_units};
ghost use Rattle.tsql_tree.specs.declared.statement.Form.{out-Form};
ghost use Rattle.batch_meaning.specs.Working.{asks_any, is_of_trigger, is_read_by, known_in, table_called};
ghost use Rattle.statement_exec.specs.Named.{known_so};

use dml_exec::{is_deleted, is_inserted};
use session_state::{Around, Fired};
use sqlite_items::Items;
use std::alloc::Global;
use table_rows::is_objects;
use tsql_tree::{ColumnTree, Definition, Form, KeyTree, TableTree};
use value_types::{Memory, Units};

/// What a name stands for where a statement names it.
#[derive(Clone, Copy)]
pub(crate) enum StandsFor<'p> {
    /// What `objects` says.
    LookedUp,
    /// Nothing.
    Nothing,
    /// A table with the columns of a trigger's.
    Given(&'p Fired),
}

/// What a name stands for in a statement of this form. In a trigger `inserted` and `deleted` are not looked up: where
/// they are read they stand for its rows, and else for nothing.
pub(crate) fn known<'p>(around: &Around<'_, 'p>, form: &Form, name: &Units) -> StandsFor<'p>
    ensures { known_so name.now result ≡ known_in around.now.fired (out-Form form.now) name.now }
{
    match around.fired() {
        Some(fired) => {
            if !is_of_trigger(name) {
                StandsFor::LookedUp
            } else if is_read_by(form, name) {
                StandsFor::Given(fired)
            } else {
                StandsFor::Nothing
            }
        }
        None => StandsFor::LookedUp,
    }
}

/// Whether a name is one of the tables of a trigger.
fn is_of_trigger(name: &Units) -> bool
    ensures { result ≡ is_of_trigger name.now }
{
    is_inserted(name) || is_deleted(name)
}

/// Whether a statement of this form reads rows of the table of a name: it doesn't write it, drop it, run it or refer to
/// it.
fn is_read_by(form: &Form, name: &Units) -> bool
    ensures { result ≡ is_read_by (out-Form form.now) name.now }
{
    match form {
        Form::Insert(table, _, _) => is_other(table, name),
        Form::Update(table, _, _) => is_other(table, name),
        Form::Delete(table, _) => is_other(table, name),
        Form::CreateTable(_, _) => false,
        Form::Drop(_, _) => false,
        Form::Execute(_, _, _) => false,
        _ => true,
    }
}

/// Whether it is another name.
fn is_other(table: &Units, name: &Units) -> bool
    ensures { result ≡ not (same_units table.now name.now) }
{
    *table != *name
}

/// Whether something is asked where these names are looked up.
pub(crate) fn asks_any(around: &Around<'_, '_>, form: &Form, names: &[Units]) -> bool
    ensures { result ≡ asks_any (known_in around.now.fired (out-Form form.now)) names.now }
{
    for name in names {
        match known(around, form, name) {
            StandsFor::LookedUp => return !is_objects(name),
            StandsFor::Nothing => return false,
            StandsFor::Given(_) => {}
        }
    }
    false
}

/// Whether something is asked where this name alone is looked up.
pub fn asks_named(around: &Around<'_, '_>, form: &Form, name: &Units) -> bool
    ensures { result ≡ asks_any (known_in around.now.fired (out-Form form.now)) (name.now ∷ []) }
{
    match known(around, form, name) {
        StandsFor::LookedUp => !is_objects(name),
        StandsFor::Nothing => false,
        StandsFor::Given(_) => false,
    }
}

/// The table with the columns and the key of a trigger's that has this name there.
pub(crate) fn table_called(alloc: Global, name: &Units, fired: &Fired) -> Result<Definition, Memory>
    ensures { IfOk result (λ table. table ≡ table_called name.now fired.now) }
{
    Ok(Definition::Table(TableTree {
        name: name.copy(alloc)?,
        columns: copied_columns(alloc, fired.shape.columns.as_slice())?,
        key: copied_keys(alloc, fired.shape.key.as_slice())?,
        uniques: Items::new(alloc),
        checks: Items::new(alloc),
        foreigns: Items::new(alloc),
    }))
}

/// A copy of columns.
fn copied_columns(alloc: Global, columns: &[ColumnTree]) -> Result<Items<ColumnTree>, Memory>
    ensures { IfOk result (λ copies. copies ≡ columns.now) }
{
    let mut copies = Vec::with_capacity(alloc, columns.len())?;
    for column in columns {
        copies.push(ColumnTree {
            name: column.name.copy(alloc)?,
            kind: column.kind,
            required: column.required,
        })?;
    }
    Ok(Items::from_vec(copies))
}

/// A copy of PRIMARY KEYs.
fn copied_keys(alloc: Global, keys: &[KeyTree]) -> Result<Items<KeyTree>, Memory>
    ensures { IfOk result (λ copies. copies ≡ keys.now) }
{
    let mut copies = Vec::with_capacity(alloc, keys.len())?;
    for key in keys {
        copies.push(KeyTree {
            name: key.name.copy(alloc)?,
            columns: copied_names(alloc, key.columns.as_slice())?,
        })?;
    }
    Ok(Items::from_vec(copies))
}

/// A copy of names.
fn copied_names(alloc: Global, names: &[Units]) -> Result<Items<Units>, Memory>
    ensures { IfOk result (λ copies. copies ≡ names.now) }
{
    let mut copies = Vec::with_capacity(alloc, names.len())?;
    for name in names {
        copies.push(name.copy(alloc)?)?;
    }
    Ok(Items::from_vec(copies))
}
