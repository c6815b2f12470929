//! What CREATE defines: tables, procedures and triggers.

use crate::{Statement, Test};
use sqlite_items::Items;
use value_types::{SqlType, Units};

/// A column of a table.
#[derive(Drop)]
pub struct ColumnTree {
    /// Its name.
    pub name: Units,
    /// Its type.
    pub kind: SqlType,
    /// Whether NOT NULL stands.
    pub required: bool,
}

/// A PRIMARY KEY or a UNIQUE, with its columns as they are named.
#[derive(Drop)]
pub struct KeyTree {
    /// The constraint's name: the written one, or one that the table gives it.
    pub name: Units,
    /// The columns.
    pub columns: Items<Units>,
}

/// A CHECK.
#[derive(Drop)]
pub struct CheckTree {
    /// The constraint's name: the written one, or one that the table gives it.
    pub name: Units,
    /// What has to hold of a row.
    pub test: Test,
}

/// A FOREIGN KEY, or a REFERENCES of a column.
#[derive(Drop)]
pub struct ForeignTree {
    /// The constraint's name: the written one, or one that the table gives it.
    pub name: Units,
    /// The columns that refer.
    pub columns: Items<Units>,
    /// The table that is referred to.
    pub parent: Units,
    /// Its columns; empty where none are written.
    pub parent_columns: Items<Units>,
}

/// A table.
#[derive(Drop)]
pub struct TableTree {
    /// Its name.
    pub name: Units,
    /// Its columns, in the order of the text, as are the constraints.
    pub columns: Items<ColumnTree>,
    /// The PRIMARY KEYs, of which a table that is bound has one.
    pub key: Items<KeyTree>,
    /// The UNIQUEs.
    pub uniques: Items<KeyTree>,
    /// The CHECKs.
    pub checks: Items<CheckTree>,
    /// The FOREIGN KEYs and REFERENCES.
    pub foreigns: Items<ForeignTree>,
}

/// A parameter of a procedure.
#[derive(Drop)]
pub struct Parameter {
    /// Its name, with its `@`.
    pub name: Units,
    /// Its type.
    pub kind: SqlType,
    /// Whether OUTPUT stands.
    pub output: bool,
}

/// A procedure.
#[derive(Drop)]
pub struct ProcedureTree {
    /// Its name.
    pub name: Units,
    /// Its parameters.
    pub parameters: Items<Parameter>,
    /// What it does.
    pub body: Items<Statement>,
}

/// What fires a trigger.
#[derive(Clone, Copy, Debug, PartialEq, Eq)]
pub enum Event {
    /// INSERT
    Insert,
    /// UPDATE
    Update,
    /// DELETE
    Delete,
}

/// A trigger.
#[derive(Drop)]
pub struct TriggerTree {
    /// Its name.
    pub name: Units,
    /// The table whose statements fire it.
    pub table: Units,
    /// The statements that do.
    pub events: Items<Event>,
    /// What it does.
    pub body: Items<Statement>,
}

/// What a text that begins with CREATE defines.
#[derive(Drop)]
pub enum Definition {
    /// CREATE TABLE
    Table(TableTree),
    /// CREATE PROCEDURE
    Procedure(ProcedureTree),
    /// CREATE TRIGGER
    Trigger(TriggerTree),
}
