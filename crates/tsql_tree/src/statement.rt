//! Statements and batches.

use crate::{Definition, Expr, Select, SessionOption, TableTree, Test};
use sqlite_items::{Boxed, Items};
use value_types::{SqlType, Units, Value};

/// The rows of an INSERT.
#[derive(Drop)]
pub enum InsertRows {
    /// `VALUES list of ( list of expr )`
    Values(Items<Items<Expr>>),
    /// A select.
    Query(Select),
}

/// `name = expr`
#[derive(Drop)]
pub struct Assignment {
    /// The column that is set.
    pub name: Units,
    /// What it is set to.
    pub value: Expr,
}

/// What a DROP drops.
#[derive(Clone, Copy, Debug, PartialEq, Eq)]
pub enum DropKind {
    /// TABLE
    Table,
    /// PROCEDURE
    Procedure,
    /// TRIGGER
    Trigger,
}

/// `variable [AS] type [= expr]`
#[derive(Drop)]
pub struct Declaration {
    /// The variable, with its `@`.
    pub name: Units,
    /// Its type.
    pub kind: SqlType,
    /// Its first value, if one stands.
    pub initial: Option<Expr>,
}

/// What an argument is.
#[derive(Drop)]
pub enum ArgumentValue {
    /// A number with its sign, a text or NULL.
    Constant(Value),
    /// A variable, with its `@`.
    Variable(Units),
}

/// An argument of an EXEC.
#[derive(Drop)]
pub struct Argument {
    /// The parameter that it is for, with its `@`, if it is named.
    pub name: Option<Units>,
    /// What it is.
    pub value: ArgumentValue,
    /// Whether OUTPUT stands.
    pub output: bool,
}

/// A statement.
#[cycle(statement)]
#[derive(Drop)]
pub struct Statement {
    /// The line at which it begins.
    pub line: u32,
    /// What it says.
    pub form: Form,
}

/// The forms of statements.
#[cycle(statement)]
#[derive(Drop)]
pub enum Form {
    /// SELECT
    Select(Boxed<Select>),
    /// INSERT into a table, its columns as named (none where no list stands), and the rows.
    Insert(Units, Items<Units>, Boxed<InsertRows>),
    /// UPDATE of a table, what is set, and WHERE.
    Update(Units, Items<Assignment>, Option<Boxed<Test>>),
    /// DELETE from a table, and WHERE.
    Delete(Units, Option<Boxed<Test>>),
    /// CREATE TABLE, and its text.
    CreateTable(Boxed<TableTree>, Units),
    /// DROP of what so is named.
    Drop(DropKind, Units),
    /// IF, with the statement behind its test and the one behind ELSE.
    If(Boxed<Test>, Boxed<Statement>, Option<Boxed<Statement>>),
    /// WHILE
    While(Boxed<Test>, Boxed<Statement>),
    /// BREAK
    Break,
    /// CONTINUE
    Continue,
    /// BEGIN .. END
    Block(Items<Statement>),
    /// BEGIN TRY .. END TRY BEGIN CATCH .. END CATCH
    TryCatch(Items<Statement>, Items<Statement>),
    /// PRINT
    Print(Boxed<Expr>),
    /// RAISERROR, with its text, its severity and its state.
    RaiseError(Boxed<Expr>, Boxed<Expr>, Boxed<Expr>),
    /// RETURN
    Return(Option<Boxed<Expr>>),
    /// THROW without arguments.
    ThrowAgain,
    /// THROW, with its number, its text and its state.
    Throw(Boxed<Expr>, Boxed<Expr>, Boxed<Expr>),
    /// DECLARE of variables.
    Declare(Items<Declaration>),
    /// SET of a variable.
    SetVariable(Units, Boxed<Expr>),
    /// SET of an option.
    SetOption(SessionOption),
    /// BEGIN TRANSACTION
    BeginTransaction(Option<Units>),
    /// COMMIT
    Commit(Option<Units>),
    /// ROLLBACK
    Rollback(Option<Units>),
    /// SAVE TRANSACTION
    Save(Units),
    /// DECLARE of a cursor.
    DeclareCursor(Units, Boxed<Select>),
    /// OPEN
    OpenCursor(Units),
    /// FETCH from a cursor into variables.
    Fetch(Units, Items<Units>),
    /// CLOSE
    CloseCursor(Units),
    /// DEALLOCATE
    Deallocate(Units),
    /// USE
    Use(Units),
    /// EXEC: the variable that takes the status, if one does, the procedure and the arguments.
    Execute(Option<Units>, Units, Items<Argument>),
}

/// A batch.
#[derive(Drop)]
pub enum Batch {
    /// CREATE PROCEDURE or CREATE TRIGGER: its line, what it defines, and its text.
    Definition(u32, Definition, Units),
    /// Statements.
    Body(Items<Statement>),
}
