//! What a name may mean.

ghost use Rattle.std.specs.Prelude.{◌≡◌, Ok, IfOk, min, filter_map, option_map, position};
ghost use Rattle.std.specs.List.{list_any};
ghost use Rattle.value_types.specs.Units.{same_units};
ghost use Rattle.typed_nodes.specs.Refusals.{Gives};
ghost use Rattle.clause_binder.specs.declared.scope.Matches.TheVariants.{Nothing};
ghost use Rattle.clause_binder.specs.Scope as spec;
ghost use Rattle.tsql_tree.specs.Places as placing;

use crate::columns::ColumnsByName;
use crate::fault::{AMBIGUOUS_COLUMN, INVALID_COLUMN, refused};
use crate::named::MAX_COLUMNS;
use crate::operand::is_kind;
use crate::tables::TablesByName;
use sqlite_items::Items;
use std::alloc::{AllocError, Global};
use std::marker::Model;
use tsql_tree::{ColumnTree, KeyTree, TableRef, TableTree};
use typed_nodes::BindFault;
use value_types::{Memory, SqlType, Units};

/// The greatest place that a tree can name.
pub(crate) const MAX_PLACE: usize = 65_535;

/// How many units a name has at most.
const MAX_NAME: usize = 128;

/// How many tables a query reads at most.
const MAX_REFERENCES: usize = 8;

/// A table that is read: the name that it has in the query, and its columns.
#[derive(Drop)]
pub struct TableSource<'a> {
    name: &'a Units,
    pub(crate) columns: &'a [ColumnTree],
    by_name: Option<ColumnsByName<'a>>,
}

impl<'a> Model for TableSource<'a> {
    ghost use Rattle.std.specs.Prelude.{◌≡◌, IfSome};
    ghost use Rattle.clause_binder.specs.Scope.{TableSource as Named};

    ghost Value = { Named };

    ghost view = { λ source. record { name = source.name.now; columns = source.columns.now } };

    ghost invariant = { λ source. IfSome source.by_name (λ columns. columns ≡ source.columns.now) };
}

/// A column that a name means.
#[derive(Clone, Copy, Debug, PartialEq, Eq)]
pub struct Found {
    /// Its place in the row; a place that no tree can name is the one behind the greatest.
    pub place: usize,
    /// Its type.
    pub kind: SqlType,
}

/// Whether a name is longer than a name may be.
pub(crate) fn is_long(name: &Units) -> bool
    ensures { result ≡ spec.is_long name.now }
{
    name.len() > MAX_NAME
}

pub(crate) fn columns_of(table: Option<&TableTree>) -> &[ColumnTree]
    ensures { result.now ≡ spec.columns_of (option_map (λ table. table.now) table.entry) }
{
    match table {
        Some(table) => table.columns.as_slice(),
        None => &[],
    }
}

impl<'a> TableSource<'a> {
    /// What a reference reads. A table that is not defined has no columns.
    pub fn of(of: &'a TableRef, definitions: &TablesByName<'a>) -> TableSource<'a>
        ensures { result ≡ spec.source_of definitions.now of.now }
    {
        TableSource::new(alias_of(of), columns_of(definitions.find(&of.name)))
    }

    /// A table of this name and these columns.
    pub fn new(name: &'a Units, columns: &'a [ColumnTree]) -> TableSource<'a>
        ensures { result ≡ record { name = name.now; columns = columns.now } }
    {
        TableSource {
            name,
            columns,
            by_name: None,
        }
    }

    /// The same, whose columns are found by name.
    pub fn by_name(
        alloc: Global,
        name: &'a Units,
        columns: &'a [ColumnTree],
    ) -> Result<TableSource<'a>, Memory>
        ensures { IfOk result (λ source. source ≡ record { name = name.now; columns = columns.now }) }
    {
        let by_name = Some(ColumnsByName::new(alloc, columns)?);
        Ok(TableSource {
            name,
            columns,
            by_name,
        })
    }

    /// What is found of the name in this table too, whose columns are counted from a place on.
    fn found(&self, name: &Units, first: usize, before: Matches) -> Matches
        ensures { result ≡ spec.found_in name.now first self.now.columns before }
    {
        match &self.by_name {
            Some(columns) => found_by(columns, name, first, before),
            None => found_in(name, first, self.columns, before),
        }
    }

    pub(crate) fn is_meant(&self, qualifier: Option<&Units>) -> bool
        ensures { result ≡ spec.is_meant (option_map (λ name. name.now) qualifier.entry) self.now.name }
    {
        match qualifier {
            Some(name) => *name == *self.name,
            None => true,
        }
    }
}

/// The name that a reference has in its query.
pub(crate) fn alias_of(of: &TableRef) -> &Units
    ensures { result.now ≡ spec.alias_of of.now }
{
    match &of.alias {
        Some(alias) => alias,
        None => &of.name,
    }
}

/// How many columns a row of these tables has, as far as a tree can name them.
pub(crate) fn width_of(sources: &[TableSource<'_>]) -> usize
    ensures { result ≡ spec.width_of sources.now }
{
    let mut width = 0;
    for source in sources {
        width = behind(width, source.columns.len());
    }
    width
}

/// The place so far behind another; all places that no tree can name are one.
pub(crate) fn behind(place: usize, count: usize) -> usize
    ensures { result ≡ spec.behind place count }
{
    place.saturating_add(count).min(MAX_PLACE + 1)
}

/// The place, where a tree can name it, else the greatest that it can name.
pub(crate) fn last_place(place: usize) -> u16
    ensures { result ≡ min place placing.max_place }
{
    u16::try_from(place).unwrap_or(u16::MAX)
}

/// Whether there are more tables than a query may read, one that no table may be, or two of one name.
pub fn are_beyond(sources: &[TableSource<'_>]) -> bool
    ensures { result ≡ spec.are_beyond sources.now }
{
    sources.len() > MAX_REFERENCES || has_odd(sources) || has_twice(sources)
}

/// Whether one is no table.
fn has_odd(sources: &[TableSource<'_>]) -> bool
    ensures { result ≡ list_any spec.is_odd_source sources.now }
{
    for source in sources {
        if is_odd_source(source) {
            return true;
        }
    }
    false
}

fn is_odd_source(source: &TableSource<'_>) -> bool
    ensures { result ≡ spec.is_odd_source source.now }
{
    source.columns.len() > MAX_COLUMNS || has_odd_column(source.columns)
}

fn has_odd_column(columns: &[ColumnTree]) -> bool
    ensures { result ≡ list_any spec.is_odd_column columns.now }
{
    for column in columns {
        if is_odd_column(column) {
            return true;
        }
    }
    false
}

/// Whether no table may have a column of this name or type.
fn is_odd_column(column: &ColumnTree) -> bool
    ensures { result ≡ spec.is_odd_column column.now }
{
    is_long(&column.name) || !is_kind(column.kind)
}

/// Whether two tables have one name.
fn has_twice(sources: &[TableSource<'_>]) -> bool
    ensures { result ≡ spec.has_twice sources.now }
{
    let mut rest = sources;
    while let [source, others @ ..] = rest {
        if is_named(source.name, others) {
            return true;
        }
        rest = others;
    }
    false
}

/// Whether a table has this name.
fn is_named(name: &Units, sources: &[TableSource<'_>]) -> bool
    ensures { result ≡ list_any (λ other. same_units name.now other.name) sources.now }
{
    for source in sources {
        if *name == *source.name {
            return true;
        }
    }
    false
}

/// The place of the first column of that name, where a tree can name it.
fn place_in(columns: &[ColumnTree], name: &Units) -> Option<u16>
    ensures { result ≡ placing.place_in columns.now name.now }
{
    nameable(position_in(columns, name))
}

fn position_in(columns: &[ColumnTree], name: &Units) -> Option<usize>
    ensures { result ≡ position (λ column. same_units name.now column.name) columns.now }
{
    columns.iter().position(|column| *name == column.name)
}

fn nameable(place: Option<usize>) -> Option<u16>
    ensures { result ≡ placing.nameable place }
{
    match place {
        Some(place) => u16::try_from(place).ok(),
        None => None,
    }
}

/// The places of a table's key.
pub(crate) fn key_places(alloc: Global, table: Option<&TableTree>) -> Result<Items<u16>, BindFault>
    ensures { Gives result (Ok (placing.key_places (option_map (λ table. table.now) table.entry))) }
{
    match table {
        Some(table) => places_of(alloc, table.columns.as_slice(), table.key.as_slice()),
        None => Ok(Items::new(alloc)),
    }
}

/// The places of the first key's columns.
fn places_of(
    alloc: Global,
    columns: &[ColumnTree],
    keys: &[KeyTree],
) -> Result<Items<u16>, BindFault>
    ensures { Gives result (Ok (placing.places_of columns.now keys.now)) }
{
    match keys {
        [] => Ok(Items::new(alloc)),
        [key, ..] => Ok(Items::from_vec(places_in(alloc, columns, key.columns.as_slice())?)),
    }
}

/// The places of the columns of these names.
fn places_in(alloc: Global, columns: &[ColumnTree], names: &[Units]) -> Result<Vec<u16>, AllocError>
    ensures { IfOk result (λ places. places.items ≡ filter_map (placing.place_in columns.now) names.now) }
{
    names
        .iter()
        .filter_map(|name| place_in(columns, name))
        .collect(alloc)
}

/// What is found of a name.
#[derive(Clone, Copy, Debug, PartialEq, Eq)]
pub enum Matches {
    /// No column.
    Nothing,
    /// One column.
    One(Found),
    /// More than one.
    Several,
}

impl Matches {
    pub(crate) fn and(self, found: Found) -> Matches
        ensures { result ≡ spec.found_too self found }
    {
        match self {
            Matches::Nothing => Matches::One(found),
            Matches::One(_) => Matches::Several,
            Matches::Several => Matches::Several,
        }
    }
}

fn found_at(name: &Units, place: usize, column: &ColumnTree, before: Matches) -> Matches
    ensures { result ≡ spec.found_at name.now place column.now before }
{
    if *name == column.name {
        before.and(Found {
            place,
            kind: column.kind,
        })
    } else {
        before
    }
}

/// The same by a look-up, where nothing is found before.
fn found_by(columns: &ColumnsByName<'_>, name: &Units, first: usize, before: Matches) -> Matches
    ensures { result ≡ spec.found_in name.now first columns.now before }
{
    if let Matches::Nothing = before {
        if first == 0 {
            return columns.find(name);
        }
    }
    found_in(name, first, columns.columns(), before)
}

/// What is found of the name in columns too, which are counted from a place on.
fn found_in(name: &Units, first: usize, columns: &[ColumnTree], before: Matches) -> Matches
    ensures { result ≡ spec.found_in name.now first columns.now before }
{
    let mut found = before;
    let mut place = first;
    for column in columns {
        found = found_at(name, place, column, found);
        place = behind(place, 1);
    }
    found
}

fn found_of(
    qualifier: Option<&Units>,
    name: &Units,
    place: usize,
    source: &TableSource<'_>,
    before: Matches,
) -> Matches
    ensures { result ≡ spec.found_of (option_map (λ name. name.now) qualifier.entry) name.now place source.now before }
{
    if source.is_meant(qualifier) {
        source.found(name, place, before)
    } else {
        before
    }
}

/// What is found of the name in all tables.
fn found_from(qualifier: Option<&Units>, name: &Units, sources: &[TableSource<'_>]) -> Matches
    ensures { result ≡ spec.found_from (option_map (λ name. name.now) qualifier.entry) name.now 0 sources.now Nothing }
{
    let mut found = Matches::Nothing;
    let mut place = 0;
    for source in sources {
        found = found_of(qualifier, name, place, source, found);
        place = behind(place, source.columns.len());
    }
    found
}

/// The column that a name means. Error 207 where there is none, and 209 where there are several.
pub(crate) fn column_of(
    alloc: Global,
    qualifier: Option<&Units>,
    name: &Units,
    sources: &[TableSource<'_>],
) -> Result<Found, BindFault>
    ensures { Gives result (spec.column_of (option_map (λ name. name.now) qualifier.entry) name.now sources.now) }
{
    match found_from(qualifier, name, sources) {
        Matches::Nothing => refused(alloc, INVALID_COLUMN, name),
        Matches::One(found) => Ok(found),
        Matches::Several => refused(alloc, AMBIGUOUS_COLUMN, name),
    }
}
