//! The images that a statement is answered or planned on.

ghost use Rattle.std.specs.Prelude.{◌≡◌, ◌++◌, [], ◌∷◌, IfOk, IsTrue, OnErr, Err, true, not, is_some, option_map};
ghost use Rattle.std.specs.List.{list_any};
ghost use Rattle.value_types.specs.Units.{same_units};
ghost use Rattle.scalar_eval.specs.Scopes.{values_of};
ghost use Rattle.tsql_tree.specs.Places as scope;
ghost use Rattle.query_eval.specs.Given.{tables_read};
ghost use Rattle.step_model.specs.Dialog.{Asks};
ghost use Rattle.table_rows.specs.Rows as find;
ghost use Rattle.dml_exec.specs.Asking.{MayWork, seen};
ghost use Rattle.dml_exec.specs.Reading as spec;

use crate::keys::key_places;
use crate::ranges::{is_one_key, key_width, read_range, shape_of};
use crate::refusal::{Level, Refusal};
use bound_tree::{
    Bound, BoundQuery, BoundRows, BoundTest, BoundWrite, Image, InnerQuery, Reference,
};
use lock_modes::KeyPart;
use range_plan::{plan_range, query_ranges};
use session_vars::Vars;
use std::alloc::Global;
use std::marker::Model;
use step_model::{Hold, KeyRange, Manner, Op, Port};
use tsql_tree::TableTree;
use value_types::{Memory, Row, TableName, Units, letting_go};

/// The rows of the tables of a trigger, which are not fetched.
pub struct GivenTables<'g> {
    /// Those of `deleted`.
    pub deleted: &'g Image,
    /// Those of `inserted`.
    pub inserted: &'g Image,
}

impl<'g> Model for GivenTables<'g> {
    ghost use Rattle.dml_exec.specs.Reading.{TriggerRows};

    ghost Value = { TriggerRows };

    ghost view = { λ given. record { deleted = given.deleted.now; inserted = given.inserted.now } };
}

impl<'g> GivenTables<'g> {
    /// The rows of a table, if they are given.
    fn rows_of(&self, table: &TableName) -> Option<&'g Image>
        ensures { option_map (λ rows. rows.now) result ≡ spec.rows_called table.now.object self.now }
    {
        if is_inserted(&table.object) {
            Some(self.inserted)
        } else if is_deleted(&table.object) {
            Some(self.deleted)
        } else {
            None
        }
    }
}

/// Whether a name is `inserted`.
pub fn is_inserted(name: &Units) -> bool
    ensures { result ≡ same_units name.now spec.inserted_name }
{
    name.is("inserted")
}

/// Whether a name is `deleted`.
pub fn is_deleted(name: &Units) -> bool
    ensures { result ≡ same_units name.now spec.deleted_name }
{
    name.is("deleted")
}

/// Reads the images of a statement: of the references of its inner queries, then of its own, then of the target of UPDATE or
/// DELETE, each on its range of keys by the values of variables. `shapes` are the tables that it names. Where all are given
/// nothing is asked.
///
/// # Errors
///
/// Why it is asked no further.
pub fn read_images<P: Port>(
    alloc: Global,
    of: &Bound,
    shapes: &[TableTree],
    given: Option<&GivenTables<'_>>,
    vars: &Vars,
    level: Level,
    manner: Manner,
    port: &mut P,
) -> Result<Vec<Image>, Refusal>
    requires may { spec.fetches_any (spec.given_of (option_map (λ tables. tables.now) given)) of.now ≡ true → MayWork (P.past port.old) manner }
    ensures asks { Asks (P.past port.old) (P.past port.new) manner (spec.images_of (spec.given_of (option_map (λ tables. tables.now) given.entry)) shapes.now level (values_of vars.now) of.now) (seen result) }
    ensures standing { (P.past port.new).standing ≡ (P.past port.old).standing }
{
    match reads_of(alloc, of, shapes, vars) {
        Ok(reads) => read_all(alloc, reads, shapes, given, level, manner, port),
        Err(_) => Err(Refusal::Memory),
    }
}

/// Reads ranges one after another.
fn read_all<P: Port>(
    alloc: Global,
    reads: Vec<(KeyRange, bool)>,
    shapes: &[TableTree],
    given: Option<&GivenTables<'_>>,
    level: Level,
    manner: Manner,
    port: &mut P,
) -> Result<Vec<Image>, Refusal>
    requires may { list_any (spec.is_read_fetched (spec.given_of (option_map (λ tables. tables.now) given))) reads.items ≡ true → MayWork (P.past port.old) manner }
    ensures asks { Asks (P.past port.old) (P.past port.new) manner (spec.images_from (spec.given_of (option_map (λ tables. tables.now) given.entry)) shapes.now level [] reads.items) (seen result) }
    ensures standing { (P.past port.new).standing ≡ (P.past port.old).standing }
{
    let mut images = Vec::new(alloc);
    for read in reads {
        let rows = read_table(alloc, read, shapes, given, level, manner, port)?;
        if !add(&mut images, rows) {
            return Err(Refusal::Memory);
        }
    }
    Ok(images)
}

/// Adds an image. Whether there was memory for it.
fn add(images: &mut Vec<Image>, rows: Vec<Row>) -> bool
    ensures { IsTrue result → images.new.items ≡ images.old.items ++ rows.items ∷ [] }
{
    images.push(Image::from(rows)).is_ok()
}

/// Reads the range of a table.
fn read_table<P: Port>(
    alloc: Global,
    read: (KeyRange, bool),
    shapes: &[TableTree],
    given: Option<&GivenTables<'_>>,
    level: Level,
    manner: Manner,
    port: &mut P,
) -> Result<Vec<Row>, Refusal>
    requires may { spec.is_read_fetched (spec.given_of (option_map (λ tables. tables.now) given)) read ≡ true → MayWork (P.past port.old) manner }
    ensures asks { Asks (P.past port.old) (P.past port.new) manner (spec.reads_table (spec.given_of (option_map (λ tables. tables.now) given.entry)) shapes.now level read) (seen result) }
    ensures standing { (P.past port.new).standing ≡ (P.past port.old).standing }
{
    match rows_given(&read.0.table, given) {
        Some(rows) => letting_go(read.0, copy_given(alloc, rows.as_slice())),
        None => fetch_range(alloc, read, shapes, level, manner, port),
    }
}

/// The rows of a table, if they are given.
fn rows_given<'g>(table: &TableName, given: Option<&GivenTables<'g>>) -> Option<&'g Image>
    ensures { option_map (λ rows. rows.now) result ≡ spec.given_of (option_map (λ tables. tables.now) given.entry) table.now }
{
    match given {
        Some(tables) => tables.rows_of(table),
        None => None,
    }
}

/// A copy of rows that are given, if there is memory for it.
fn copy_given(alloc: Global, rows: &[Row]) -> Result<Vec<Row>, Refusal>
    ensures copied { IfOk result (λ copies. copies.items ≡ rows.now) }
    ensures err { OnErr result (result ≡ Err Refusal.Memory) }
{
    match copied(alloc, rows) {
        Ok(copies) => Ok(copies),
        Err(_) => Err(Refusal::Memory),
    }
}

/// A copy of rows.
fn copied(alloc: Global, rows: &[Row]) -> Result<Vec<Row>, Memory>
    ensures { IfOk result (λ copies. copies.items ≡ rows.now) }
{
    let mut copies = Vec::with_capacity(alloc, rows.len())?;
    for row in rows {
        copies.push(row.copy(alloc)?)?;
    }
    Ok(copies)
}

/// Fetches the range of a table.
fn fetch_range<P: Port>(
    alloc: Global,
    read: (KeyRange, bool),
    shapes: &[TableTree],
    level: Level,
    manner: Manner,
    port: &mut P,
) -> Result<Vec<Row>, Refusal>
    requires may { MayWork (P.past port.old) manner }
    ensures asks { Asks (P.past port.old) (P.past port.new) manner (spec.reads_range (find.shape_of read.0.table shapes.now) level read) (seen result) }
    ensures standing { (P.past port.new).standing ≡ (P.past port.old).standing }
{
    let shape = shape_of(&read.0.table, shapes);
    let one = is_one_key(key_width(shape, 0), &read.0.start, &read.0.stop);
    let fetch = table_fetch(level, read);
    read_range(alloc, port, manner, shape, 0, one, fetch)
}

/// The fetch of a range that is read.
fn table_fetch(level: Level, read: (KeyRange, bool)) -> Op
    ensures { result ≡ spec.table_fetch level read }
{
    let (range, is_target) = read;
    Op::Fetch {
        table: range.table,
        start: range.start,
        stop: range.stop,
        hold: hold_at(level),
        part: part_of(is_target),
    }
}

/// A target is read with U.
fn part_of(is_target: bool) -> KeyPart
    ensures { result ≡ spec.part_of is_target }
{
    if is_target { KeyPart::U } else { KeyPart::S }
}

/// What a level holds of the tables that it reads.
fn hold_at(level: Level) -> Hold
    ensures { result ≡ spec.hold_at level }
{
    match level {
        Level::ReadCommitted => Hold::Row,
        Level::Serializable => Hold::Range,
    }
}

/// Whether a table is fetched for a statement, and not given.
pub fn fetches_any(of: &Bound, given: Option<&GivenTables<'_>>) -> bool
    ensures { result ≡ spec.fetches_any (spec.given_of (option_map (λ tables. tables.now) given.entry)) of.now }
{
    match of {
        Bound::Query(query) => fetches_in(query, given),
        Bound::Assign(query, _) => fetches_in(query, given),
        Bound::Write(write) => fetches_for(write, given),
        Bound::Plain => false,
    }
}

/// Whether one is fetched for a write.
fn fetches_for(write: &BoundWrite, given: Option<&GivenTables<'_>>) -> bool
    ensures { result ≡ list_any (spec.is_fetched (spec.given_of (option_map (λ tables. tables.now) given.entry))) (spec.write_tables write.now) }
{
    match write {
        BoundWrite::Insert { rows, .. } => fetches_of(rows, given),
        BoundWrite::Update { table, inner, .. } => {
            fetches_within(inner.as_slice(), given) || is_fetched(table, given)
        }
        BoundWrite::Delete { table, inner, .. } => {
            fetches_within(inner.as_slice(), given) || is_fetched(table, given)
        }
    }
}

/// Whether one is fetched for the rows of an INSERT.
fn fetches_of(rows: &BoundRows, given: Option<&GivenTables<'_>>) -> bool
    ensures { result ≡ list_any (spec.is_fetched (spec.given_of (option_map (λ tables. tables.now) given.entry))) (spec.rows_tables rows.now) }
{
    match rows {
        BoundRows::Values(_, inner) => fetches_within(inner.as_slice(), given),
        BoundRows::Query(query) => fetches_in(query, given),
    }
}

/// Whether one is fetched for a query. It recurses as deep as inner queries nest.
#[cycle(fetching)]
fn fetches_in(query: &BoundQuery, given: Option<&GivenTables<'_>>) -> bool
    ensures { result ≡ list_any (spec.is_fetched (spec.given_of (option_map (λ tables. tables.now) given.entry))) (tables_read query.now) }
{
    fetches_within(query.inner.as_slice(), given) || fetches_own(query.refs.as_slice(), given)
}

/// Whether one is fetched for inner queries.
#[cycle(fetching)]
fn fetches_within(inner: &[InnerQuery], given: Option<&GivenTables<'_>>) -> bool
    ensures { result ≡ list_any (spec.is_fetched (spec.given_of (option_map (λ tables. tables.now) given.entry))) (spec.inner_tables inner.now) }
{
    for of in inner {
        if fetches_in(&of.query, given) {
            return true;
        }
    }
    false
}

/// Whether one of references is fetched.
fn fetches_own(refs: &[Reference], given: Option<&GivenTables<'_>>) -> bool
    ensures { result ≡ list_any (λ ref. spec.is_fetched (spec.given_of (option_map (λ tables. tables.now) given.entry)) ref.table) refs.now }
{
    for reference in refs {
        if is_fetched(&reference.table, given) {
            return true;
        }
    }
    false
}

/// Whether a table is fetched.
fn is_fetched(table: &TableName, given: Option<&GivenTables<'_>>) -> bool
    ensures { result ≡ not (is_some (spec.given_of (option_map (λ tables. tables.now) given.entry) table.now)) }
{
    rows_given(table, given).is_none()
}

/// What is read for a statement, for inner queries first: each range, and whether it is the target's.
fn reads_of(
    alloc: Global,
    of: &Bound,
    shapes: &[TableTree],
    vars: &Vars,
) -> Result<Vec<(KeyRange, bool)>, Memory>
    ensures { IfOk result (λ reads. reads.items ≡ spec.reads_of (values_of vars.now) shapes.now of.now) }
{
    let mut reads = Vec::new(alloc);
    match of {
        Bound::Query(query) => add_query(alloc, query, vars, &mut reads)?,
        Bound::Assign(query, _) => add_query(alloc, query, vars, &mut reads)?,
        Bound::Write(write) => add_write(alloc, write, shapes, vars, &mut reads)?,
        Bound::Plain => {}
    }
    Ok(reads)
}

/// Adds that of a write.
fn add_write(
    alloc: Global,
    write: &BoundWrite,
    shapes: &[TableTree],
    vars: &Vars,
    reads: &mut Vec<(KeyRange, bool)>,
) -> Result<(), Memory>
    ensures { IfOk result (λ _. reads.new.items ≡ reads.old.items ++ spec.write_reads (values_of vars.now) shapes.now write.now) }
{
    match write {
        BoundWrite::Insert { rows, .. } => add_rows(alloc, rows, vars, reads),
        BoundWrite::Update {
            table,
            filter,
            inner,
            ..
        } => {
            add_inner(alloc, inner.as_slice(), vars, reads)?;
            add_target(alloc, table, filter, shapes, vars, reads)
        }
        BoundWrite::Delete {
            table,
            filter,
            inner,
        } => {
            add_inner(alloc, inner.as_slice(), vars, reads)?;
            add_target(alloc, table, filter, shapes, vars, reads)
        }
    }
}

/// Adds that of the rows of an INSERT.
fn add_rows(
    alloc: Global,
    rows: &BoundRows,
    vars: &Vars,
    reads: &mut Vec<(KeyRange, bool)>,
) -> Result<(), Memory>
    ensures { IfOk result (λ _. reads.new.items ≡ reads.old.items ++ spec.rows_reads (values_of vars.now) rows.now) }
{
    match rows {
        BoundRows::Values(_, inner) => add_inner(alloc, inner.as_slice(), vars, reads),
        BoundRows::Query(query) => add_query(alloc, query, vars, reads),
    }
}

/// Adds that of inner queries.
fn add_inner(
    alloc: Global,
    inner: &[InnerQuery],
    vars: &Vars,
    reads: &mut Vec<(KeyRange, bool)>,
) -> Result<(), Memory>
    ensures { IfOk result (λ _. reads.new.items ≡ reads.old.items ++ spec.inner_reads (values_of vars.now) inner.now) }
{
    for of in inner {
        add_query(alloc, &of.query, vars, reads)?;
    }
    Ok(())
}

/// Adds that of a query.
fn add_query(
    alloc: Global,
    query: &BoundQuery,
    vars: &Vars,
    reads: &mut Vec<(KeyRange, bool)>,
) -> Result<(), Memory>
    ensures { IfOk result (λ _. reads.new.items ≡ reads.old.items ++ spec.query_reads (values_of vars.now) query.now) }
{
    for range in query_ranges(alloc, query, vars)? {
        reads.push((range, false))?;
    }
    Ok(())
}

/// Adds the range of a target.
fn add_target(
    alloc: Global,
    table: &TableName,
    filter: &Option<BoundTest>,
    shapes: &[TableTree],
    vars: &Vars,
    reads: &mut Vec<(KeyRange, bool)>,
) -> Result<(), Memory>
    ensures { IfOk result (λ _. reads.new.items ≡ reads.old.items ++ spec.target_read (values_of vars.now) shapes.now table.now filter.now ∷ []) }
{
    let key = places_of(alloc, shape_of(table, shapes))?;
    let range = plan_range(alloc, filter, 0, table, key.as_slice(), vars)?;
    reads.push((range, true))?;
    Ok(())
}

/// The places of the columns of a table's key, if its shape is known.
fn places_of(alloc: Global, shape: Option<&TableTree>) -> Result<Vec<u16>, Memory>
    ensures { IfOk result (λ places. places.items ≡ scope.key_places (option_map (λ of. of.now) shape.entry)) }
{
    match shape {
        Some(shape) => key_places(alloc, shape),
        None => Ok(Vec::new(alloc)),
    }
}
