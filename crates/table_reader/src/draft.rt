//! A table while its elements are read.

ghost use Rattle.std.specs.Prelude.{◌≡◌, ◌<◌, ◌++◌, codes, decimal, suc, All, IfOk, OnOk};
ghost use Rattle.tsql_grammar.specs.Trees as trees;
ghost use Rattle.table_reader.specs.Drafts.{draft_of, added_by};

use itoa::Buffer;
use sqlite_items::Items;
use std::alloc::Global;
use tsql_tree::{CheckTree, ColumnTree, ForeignTree, KeyTree, TableTree, Test};
use value_types::{Memory, Units, beside};

/// A constraint, but for its name.
#[derive(Drop)]
pub enum Constraint {
    /// PRIMARY KEY
    Key(Items<Units>),
    /// UNIQUE
    Unique(Items<Units>),
    /// CHECK
    Check(Test),
    /// FOREIGN KEY or REFERENCES: the columns, the parent and its columns.
    Foreign(Items<Units>, Units, Items<Units>),
}

/// A table while its elements are read, and how many of its constraints had no name so far.
#[derive(Drop)]
pub struct TableDraft {
    /// The table, as far as it is read.
    pub table: TableTree,
    /// How many UNIQUEs had no name.
    pub uniques: usize,
    /// How many CHECKs had none.
    pub checks: usize,
    /// How many FOREIGN KEYs and REFERENCES had none.
    pub foreigns: usize,
}

impl TableDraft {
    /// The draft of a table without elements.
    pub(crate) fn new(alloc: Global, name: Units) -> TableDraft
        ensures { draft_of result ≡ trees.empty_draft name }
    {
        TableDraft {
            table: TableTree {
                name,
                columns: Items::new(alloc),
                key: Items::new(alloc),
                uniques: Items::new(alloc),
                checks: Items::new(alloc),
                foreigns: Items::new(alloc),
            },
            uniques: 0,
            checks: 0,
            foreigns: 0,
        }
    }

    /// Adds a column.
    pub(crate) fn add_column(&mut self, column: ColumnTree) -> Result<(), Memory>
        ensures { OnOk result (draft_of self.new ≡ trees.add_column column (draft_of self.old)) }
    {
        self.table.columns.push(column)?;
        Ok(())
    }

    /// Adds a constraint, of this name or of none.
    pub(crate) fn add(
        &mut self,
        alloc: Global,
        constraint: Constraint,
        name: Option<Units>,
    ) -> Result<(), Memory>
        ensures { OnOk result (draft_of self.new ≡ added_by constraint name (draft_of self.old)) }
    {
        match constraint {
            Constraint::Key(columns) => self.add_key(alloc, columns, name),
            Constraint::Unique(columns) => self.add_unique(alloc, columns, name),
            Constraint::Check(test) => self.add_check(alloc, test, name),
            Constraint::Foreign(columns, parent, parent_columns) => {
                self.add_foreign(alloc, columns, parent, parent_columns, name)
            }
        }
    }

    /// Adds a PRIMARY KEY.
    fn add_key(
        &mut self,
        alloc: Global,
        columns: Items<Units>,
        name: Option<Units>,
    ) -> Result<(), Memory>
        ensures { OnOk result (draft_of self.new ≡ trees.add_key columns name (draft_of self.old)) }
    {
        let name = match name {
            Some(name) => name,
            None => key_name(alloc, &self.table.name)?,
        };
        self.table.key.push(KeyTree { name, columns })?;
        Ok(())
    }

    /// Adds a UNIQUE.
    fn add_unique(
        &mut self,
        alloc: Global,
        columns: Items<Units>,
        name: Option<Units>,
    ) -> Result<(), Memory>
        ensures { OnOk result (draft_of self.new ≡ trees.add_unique columns name (draft_of self.old)) }
    {
        let (name, count) = named(alloc, name, b"UQ_", &self.table.name, self.uniques)?;
        self.uniques = count;
        self.table.uniques.push(KeyTree { name, columns })?;
        Ok(())
    }

    /// Adds a CHECK.
    fn add_check(&mut self, alloc: Global, test: Test, name: Option<Units>) -> Result<(), Memory>
        ensures { OnOk result (draft_of self.new ≡ trees.add_check test name (draft_of self.old)) }
    {
        let named = named(alloc, name, b"CK_", &self.table.name, self.checks);
        let (test, (name, count)) = beside(test, named)?;
        self.checks = count;
        self.table.checks.push(CheckTree { name, test })?;
        Ok(())
    }

    /// Adds a FOREIGN KEY or REFERENCES.
    fn add_foreign(
        &mut self,
        alloc: Global,
        columns: Items<Units>,
        parent: Units,
        parent_columns: Items<Units>,
        name: Option<Units>,
    ) -> Result<(), Memory>
        ensures { OnOk result (draft_of self.new ≡ trees.add_foreign columns parent parent_columns name (draft_of self.old)) }
    {
        let (name, count) = named(alloc, name, b"FK_", &self.table.name, self.foreigns)?;
        self.foreigns = count;
        self.table.foreigns.push(ForeignTree {
            name,
            columns,
            parent,
            parent_columns,
        })?;
        Ok(())
    }
}

/// The name of a constraint, and how many had none with it: the written name, or one that is given.
fn named(
    alloc: Global,
    name: Option<Units>,
    prefix: &[u8],
    table: &Units,
    count: usize,
) -> Result<(Units, usize), Memory>
    requires { All (λ byte. byte < 128) prefix.now }
    ensures called { IfOk result (λ it. it.0 ≡ trees.named name (trees.given_name prefix.now table.now count)) }
    ensures counted { IfOk result (λ it. it.1 ≡ trees.counted name count) }
{
    match name {
        Some(name) => Ok((name, count)),
        None => {
            let count = one_more(count)?;
            Ok((given_name(alloc, prefix, table, count)?, count))
        }
    }
}

/// A count with one more.
fn one_more(count: usize) -> Result<usize, Memory>
    ensures { IfOk result (λ n. n ≡ suc count) }
{
    match count.checked_add(1) {
        Some(count) => Ok(count),
        None => Err(Memory),
    }
}

/// The name of a PRIMARY KEY that has none.
fn key_name(alloc: Global, table: &Units) -> Result<Units, Memory>
    ensures { IfOk result (λ name. name ≡ codes "PK_" ++ table.now) }
{
    let mut name = Units::of_ascii(alloc, b"PK_")?.into_vec();
    name.extend_from_slice(table.as_slice())?;
    Ok(Units::from(name))
}

/// The name of another constraint that has none: a prefix, the table and a number.
fn given_name(alloc: Global, prefix: &[u8], table: &Units, number: usize) -> Result<Units, Memory>
    requires { All (λ byte. byte < 128) prefix.now }
    ensures { IfOk result (λ name. name ≡ prefix.now ++ table.now ++ codes "_" ++ decimal number) }
{
    let mut buffer = Buffer::new();
    let mut name = Units::of_ascii(alloc, prefix)?.into_vec();
    name.extend_from_slice(table.as_slice())?;
    name.push(0x5F)?;
    let digits = Units::of_ascii(alloc, buffer.format(number).as_bytes())?;
    name.extend_from_slice(digits.as_slice())?;
    Ok(Units::from(name))
}
