//! The tables of a FROM.

ghost use Rattle.std.specs.Prelude.{◌≡◌, Ok};
ghost use Rattle.typed_nodes.specs.Refusals.{Gives};
ghost use Rattle.clause_binder.specs.Answers.{GivesOn};
ghost use Rattle.clause_binder.specs.Clauses as clause;

use crate::and_next::and_next;
use crate::progress::Progress;
use crate::scope::{TableSource, alias_of, columns_of, is_long, key_places, last_place};
use crate::tables::TablesByName;
use bound_tree::{BoundTest, JoinKind, Reference};
use sqlite_items::Items;
use std::alloc::Global;
use tsql_tree::TableRef;
use typed_nodes::BindFault;
use value_types::TableName;

/// Tables from left to right, as they are read, and as names mean them.
#[derive(Drop)]
pub struct JoinedTables<'d> {
    /// As they are read.
    pub refs: Items<Reference>,
    /// As names mean them.
    pub sources: Items<TableSource<'d>>,
}

impl<'d> JoinedTables<'d> {
    /// No tables.
    pub fn none(alloc: Global) -> JoinedTables<'d>
        ensures { result ≡ clause.no_tables }
    {
        JoinedTables {
            refs: Items::new(alloc),
            sources: Items::new(alloc),
        }
    }

    /// The first table of a FROM.
    pub fn first(
        alloc: Global,
        of: &'d TableRef,
        definitions: &TablesByName<'d>,
    ) -> Result<JoinedTables<'d>, BindFault>
        ensures { Gives result (Ok (clause.first_table definitions.now of.now)) }
    {
        let tables = JoinedTables::none(alloc).with_source(of, definitions)?;
        tables.with_reference(reference(alloc, of, definitions, JoinKind::Cross, None)?)
    }

    /// These tables, where names may mean one more.
    pub fn with_source(
        self,
        of: &'d TableRef,
        definitions: &TablesByName<'d>,
    ) -> Result<JoinedTables<'d>, BindFault>
        ensures { Gives result (Ok (clause.with_source definitions.now self.entry of.now)) }
    {
        let JoinedTables { refs, mut sources } = self;
        sources.push(TableSource::of(of, definitions))?;
        Ok(JoinedTables { refs, sources })
    }

    /// These tables, where one more is read.
    fn with_reference(self, of: Reference) -> Result<JoinedTables<'d>, BindFault>
        ensures { Gives result (Ok (clause.with_reference self.entry of)) }
    {
        let JoinedTables { mut refs, sources } = self;
        refs.push(of)?;
        Ok(JoinedTables { refs, sources })
    }

    /// These tables and one more, which names mean already, and which is read under this test.
    pub fn with_read(
        self,
        alloc: Global,
        of: &TableRef,
        definitions: &TablesByName<'d>,
        join: JoinKind,
        on: Option<BoundTest>,
        done: &mut Progress,
    ) -> Result<JoinedTables<'d>, BindFault>
        ensures { GivesOn result (clause.table_read definitions.now self.entry of.now join on done.old) done.new }
    {
        done.note_beyond(is_long_ref(of));
        self.with_reference(reference(alloc, of, definitions, join, on)?)
    }
}

/// Whether the name that a table has in its query is longer than a name may be.
pub fn is_long_ref(of: &TableRef) -> bool
    ensures { result ≡ clause.is_long_ref of.now }
{
    is_long(alias_of(of))
}

/// A table as it is read.
fn reference(
    alloc: Global,
    of: &TableRef,
    definitions: &TablesByName<'_>,
    join: JoinKind,
    on: Option<BoundTest>,
) -> Result<Reference, BindFault>
    ensures { Gives result (Ok (clause.reference definitions.now of.now join on)) }
{
    let (on, object) = and_next(on, of.name.copy(alloc))?;
    let table = definitions.find(&of.name);
    let (on, key) = and_next(on, key_places(alloc, table))?;
    Ok(Reference {
        table: TableName { object, part: 0 },
        width: last_place(columns_of(table).len()),
        key,
        join,
        on,
    })
}
