//! The rules of the grammar by name, the classes of its lexemes, and what is noted between them.

use crate::{Function, Kind};

/// A class of lexemes that a production takes.
#[derive(Clone, Copy)]
pub enum Class {
    /// Those of one kind.
    One(Kind),
    /// Names, the words among them that the grammar knows too.
    Name,
    /// Names but `dbo`.
    OtherName,
    /// Names but those of functions.
    PlainName,
    /// Semicolons, whatever stands behind them.
    Semicolon,
}

/// What is noted of a text, behind the lexeme that was read last.
#[derive(Clone, Copy)]
pub enum Mark {
    /// The lexeme opens what counts as nesting.
    Enter,
    /// What was opened last is closed.
    Leave,
    /// The lexeme is a variable that is used.
    Uses,
    /// The lexeme is a variable that is declared.
    Declares,
}

/// What stands around a statement.
#[derive(Clone, Copy)]
pub struct Around {
    /// A WHILE does, so that BREAK and CONTINUE may stand.
    pub in_while: bool,
    /// A CATCH does, so that THROW may stand alone.
    pub in_catch: bool,
}

/// The rules, in the order of the language's grammar: batches and definitions, statements, selects,
/// tests, expressions. A rule that is named for what stands before it is the rest of a production
/// whose beginning another has too.
#[derive(Clone, Copy)]
pub enum Rule {
    /// A batch.
    Batch,
    /// A batch behind the CREATE that it begins with.
    AfterFirstCreate,
    /// The text of one definition.
    Definition,
    /// It behind CREATE.
    AfterCreate,
    /// CREATE PROCEDURE behind CREATE.
    Procedure,
    /// CREATE TRIGGER behind CREATE.
    Trigger,
    /// AFTER or FOR.
    TriggerTime,
    /// INSERT, UPDATE or DELETE.
    Event,
    /// Further events, each behind a comma.
    MoreEvents,
    /// The parameters of a procedure, if there are any.
    Params,
    /// One parameter.
    Param,
    /// Further parameters, each behind a comma.
    MoreParams,
    /// OUTPUT, or nothing.
    Output,
    /// The name of an object.
    Object,
    /// What follows the name `dbo`, where an object is named.
    AfterDbo,
    /// A type.
    Type,
    /// Names with commas between them.
    Names,
    /// Further names, each behind a comma.
    MoreNames,

    /// Statements and semicolons.
    Body(Around),
    /// A statement.
    Statement(Around),
    /// A statement that is no CREATE TABLE.
    OtherStatement(Around),
    /// Semicolons.
    Semicolons,
    /// One semicolon, or none.
    OptionalSemicolon,
    /// What follows a BEGIN.
    AfterBegin(Around),
    /// ELSE and its statement, if there are any.
    Else(Around),
    /// The arguments of THROW; inside a CATCH maybe none.
    ThrowArguments(Around),
    /// An expression, or none.
    OptionalExpr,
    /// INTO, or nothing.
    Into,
    /// What follows the table of an INSERT.
    AfterInsertTable,
    /// The rows of an INSERT.
    InsertRows,
    /// A row of VALUES.
    ValueRow,
    /// Further rows, each behind a comma.
    MoreValueRows,
    /// A column that is set, and to what.
    Assignment,
    /// Further assignments, each behind a comma.
    MoreAssignments,
    /// FROM, or nothing.
    DeleteFrom,
    /// TABLE, PROCEDURE or TRIGGER.
    DropKind,

    /// CREATE TABLE behind CREATE.
    Table,
    /// A column or a constraint of a table.
    Element,
    /// Further elements, each behind a comma.
    MoreElements,
    /// What follows the type of a column.
    ColumnTraits,
    /// A constraint of a column.
    ColumnConstraint,
    /// The column that REFERENCES names, if it names one.
    ReferencedColumn,
    /// A constraint of a table.
    TableConstraint,

    /// What follows DECLARE.
    AfterDeclare,
    /// A variable that is declared.
    Declaration,
    /// Further declarations, each behind a comma.
    MoreDeclarations,
    /// AS, or nothing.
    OptionalAs,
    /// The first value of a variable, if one stands.
    Initial,
    /// LOCAL or GLOBAL, or nothing.
    CursorScope,
    /// STATIC, or nothing.
    CursorStatic,
    /// READ_ONLY, or nothing.
    CursorReadOnly,
    /// What follows SET.
    AfterSet,
    /// ON or OFF.
    OnOff,
    /// A level of isolation.
    Level,
    /// What follows the READ of a level.
    AfterRead,
    /// A number with a minus or none.
    SignedNumber,
    /// What DEADLOCK_PRIORITY is set to.
    Priority,
    /// The name that an option is set to, as a name or as a text.
    OptionName,
    /// TRAN or TRANSACTION.
    TransactionWord,
    /// The word and a name, or the word, or nothing.
    TransactionEnd,
    /// A name, or none.
    OptionalName,
    /// NEXT, or nothing.
    Next,
    /// Variables with commas between them.
    Variables,
    /// Further variables, each behind a comma.
    MoreVariables,
    /// What follows EXEC.
    AfterExecute,
    /// The arguments of an EXEC, if there are any.
    Arguments,
    /// Further arguments, each behind a comma.
    MoreArguments,
    /// An argument.
    Argument,
    /// What follows a variable that an argument begins with.
    AfterArgumentVariable,
    /// The value of an argument that is named.
    ArgumentValue,
    /// A number with its sign, a text or NULL.
    Constant,

    /// A select behind SELECT.
    Select,
    /// DISTINCT, or nothing.
    Distinct,
    /// TOP, or nothing.
    Top,
    /// The number of TOP.
    TopNumber,
    /// The items of a select.
    Items,
    /// What follows a variable that the items begin with.
    AfterFirstVariable,
    /// Further items that assign, each behind a comma.
    MoreAssigns,
    /// An item that does not assign.
    Item,
    /// Further such items, each behind a comma.
    MoreItems,
    /// An item that begins with a name.
    NamedItem,
    /// What follows the name that an item begins with.
    AfterItemName,
    /// What follows the dot behind it.
    AfterItemDot,
    /// What follows the name of a function that an item begins with.
    AfterItemFunction(Function),
    /// An item that begins with neither a name, nor a variable, nor a star.
    OtherItem,
    /// What follows the first operand of an item.
    AfterItemOperand,
    /// A name that is given, with AS or without, or none.
    Alias,
    /// FROM, or nothing.
    From,
    /// A table that is read.
    TableRef,
    /// Further tables.
    Joins,
    /// OUTER, or nothing.
    Outer,
    /// WHERE, or nothing.
    Where,
    /// GROUP BY, or nothing.
    GroupBy,
    /// HAVING, or nothing.
    Having,
    /// ORDER BY, or nothing.
    OrderBy,
    /// What rows are ordered by.
    OrderItem,
    /// Further such items, each behind a comma.
    MoreOrderItems,
    /// ASC or DESC, or nothing.
    Direction,

    /// A test.
    Test,
    /// Further tests joined by OR.
    MoreOrs,
    /// Tests joined by AND.
    AndTest,
    /// Further tests joined by AND.
    MoreAnds,
    /// A test with its NOTs.
    NotTest,
    /// Further NOTs.
    MoreNots,
    /// A test without connectives.
    Basic,
    /// What follows a parenthesis that opens in a test, so many others being open before it.
    Opened(u32),
    /// What follows the first operand of a test, so many parentheses being open before the operand.
    Operand(u32),
    /// What follows the left expression of a test, so many being open.
    Compared(u32),
    /// What follows a test within parentheses, so many being open.
    Tested(u32),
    /// What follows the left expression of a test.
    Comparison,
    /// A sign of comparison.
    CompareSign,
    /// NOT, or nothing.
    OptionalNot,
    /// BETWEEN or IN.
    Membership,
    /// What the parentheses of an IN enclose.
    InList,

    /// An expression.
    Expr,
    /// Further operands of a sum.
    MoreTerms,
    /// `+` or `-`.
    AddSign,
    /// Operands joined by `*`, `/` and `%`.
    Product,
    /// Further operands of a product.
    MoreFactors,
    /// `*`, `/` or `%`.
    MultiplySign,
    /// An operand with its signs.
    Unary,
    /// Further signs.
    MoreSigns,
    /// An operand.
    Primary,
    /// An operand that begins with no parenthesis.
    SimplePrimary,
    /// One that begins with neither a name nor a variable either.
    OtherPrimary,
    /// What a parenthesis of an expression encloses.
    Enclosed,
    /// A column or a function.
    NamedPrimary,
    /// What follows the first name of a column.
    AfterName,
    /// What follows the name of a function, or of a column of its name.
    AfterFunction(Function),
    /// The arguments of a function, with their parentheses.
    FunctionArguments(Function),
    /// What follows the parenthesis of COUNT.
    CountArguments,
    /// An arm of a CASE.
    Arm,
    /// Further arms.
    MoreArms,
    /// The ELSE of a CASE, or nothing.
    CaseElse,
    /// Expressions with commas between them.
    Exprs,
    /// Further expressions, each behind a comma.
    MoreExprs,
}
