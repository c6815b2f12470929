//! The tables that are read for a query.

ghost use Rattle.std.specs.Prelude.{◌≡◌, ◌++◌, map, IfOk};
ghost use Rattle.query_eval.specs.Ans.{references_of};
ghost use Rattle.query_eval.specs.Given.{tables_read};

use bound_tree::{BoundQuery, Reference};
use std::alloc::Global;
use value_types::{Memory, TableName};

/// The tables that are read for a query, in the order of its images: those of inner queries, and then its own,
/// each from left to right. It recurses as deep as inner queries nest.
pub fn tables_read(alloc: Global, query: &BoundQuery) -> Result<Vec<TableName>, Memory>
    ensures { IfOk result (λ tables. tables.items ≡ tables_read query.now) }
{
    let mut tables = Vec::new(alloc);
    add_tables(alloc, query, &mut tables)?;
    Ok(tables)
}

/// Adds them behind others.
#[cycle(references)]
#[tactic(auto, using(crate::proofs::TablesRead::tables_are, crate::proofs::TablesRead::inner_append))]
fn add_tables(alloc: Global, query: &BoundQuery, tables: &mut Vec<TableName>) -> Result<(), Memory>
    ensures { IfOk result (λ _. tables.new.items ≡ tables.old.items ++ tables_read query.now) }
{
    for inner in query.inner.as_slice() {
        add_tables(alloc, &inner.query, tables)?;
    }
    add_own(alloc, query.refs.as_slice(), tables)
}

/// Adds the tables of references.
fn add_own(alloc: Global, refs: &[Reference], tables: &mut Vec<TableName>) -> Result<(), Memory>
    ensures { IfOk result (λ _. tables.new.items ≡ tables.old.items ++ map (λ ref. ref.table) refs.now) }
{
    for reference in refs {
        tables.push(reference.table.copy(alloc)?)?;
    }
    Ok(())
}
