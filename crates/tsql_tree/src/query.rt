//! Expressions, tests and selects.

use sqlite_items::{Boxed, Items};
use value_types::{SqlType, Units};

/// A sign before an operand, or between operands that are added.
#[derive(Clone, Copy, Debug, PartialEq, Eq)]
pub enum AddSign {
    /// `+`
    Plus,
    /// `-`
    Minus,
}

/// A sign between operands that are multiplied.
#[derive(Clone, Copy, Debug, PartialEq, Eq)]
pub enum MultiplySign {
    /// `*`
    Times,
    /// `/`
    Divide,
    /// `%`
    Remainder,
}

/// A sign between operands that are compared.
#[derive(Clone, Copy, Debug, PartialEq, Eq)]
pub enum CompareSign {
    /// `=`
    Equal,
    /// `<>` or `!=`
    NotEqual,
    /// `<`
    Less,
    /// `<=`
    LessEqual,
    /// `>`
    Greater,
    /// `>=`
    GreaterEqual,
}

/// A value of the session, or what the server says of itself, by the word for it.
#[derive(Clone, Copy)]
pub enum SystemWord {
    /// `@@TRANCOUNT`
    TranCount,
    /// `@@ERROR`
    Error,
    /// `@@ROWCOUNT`
    RowCount,
    /// `@@FETCH_STATUS`
    FetchStatus,
    /// `XACT_STATE()`
    XactState,
    /// `ERROR_NUMBER()`
    ErrorNumber,
    /// `ERROR_SEVERITY()`
    ErrorSeverity,
    /// `ERROR_STATE()`
    ErrorState,
    /// `ERROR_LINE()`
    ErrorLine,
    /// `ERROR_MESSAGE()`
    ErrorMessage,
    /// `ERROR_PROCEDURE()`
    ErrorProcedure,
    /// `@@VERSION`
    Version,
    /// `@@SERVERNAME`
    ServerName,
    /// `@@MAX_PRECISION`
    MaxPrecision,
    /// `SCHEMA_NAME()`
    SchemaName,
    /// `DB_NAME()`
    DatabaseName,
    /// `USER_NAME()`
    UserName,
}

/// A function over the rows of a group.
#[derive(Clone, Copy)]
pub enum Aggregate {
    /// `COUNT`
    Count,
    /// `SUM`
    Sum,
    /// `AVG`
    Avg,
    /// `MIN`
    Min,
    /// `MAX`
    Max,
}

/// An expression.
#[cycle(tree)]
#[derive(Drop)]
pub enum Expr {
    /// A number, which has no sign.
    Number(i64),
    /// A text literal.
    Text(Units),
    /// `NULL`
    Null,
    /// A variable, with its `@`.
    Variable(Units),
    /// A value of the session.
    System(SystemWord),
    /// `[name .] name`: a column, maybe of the table so named.
    Column(Option<Boxed<Units>>, Units),
    /// `( expr )`
    Parens(Boxed<Expr>),
    /// `( select )`
    Query(Boxed<Select>),
    /// `CASE {WHEN test THEN expr} [ELSE expr] END`; there is one arm at least.
    Case(Items<Arm>, Option<Boxed<Expr>>),
    /// `CAST ( expr AS type )`
    Cast(Boxed<Expr>, SqlType),
    /// `ISNULL ( expr , expr )`
    IsNull(Boxed<Expr>, Boxed<Expr>),
    /// `NULLIF ( expr , expr )`
    NullIf(Boxed<Expr>, Boxed<Expr>),
    /// `COALESCE ( list of expr )`
    Coalesce(Items<Expr>),
    /// `LEN ( expr )`
    Length(Boxed<Expr>),
    /// `COUNT ( * )`
    CountRows,
    /// An aggregate, whether DISTINCT stands, and its operand.
    Aggregate(Aggregate, bool, Boxed<Expr>),
    /// Signs before an operand, the first of the text first; there is one at least.
    Signed(Items<AddSign>, Boxed<Expr>),
    /// Operands joined by `*`, `/` and `%` from the left; there are two at least.
    Product(Boxed<Expr>, Items<Factor>),
    /// Operands joined by `+` and `-` from the left; there are two at least.
    Sum(Boxed<Expr>, Items<Term>),
}

/// `WHEN test THEN expr`
#[cycle(tree)]
#[derive(Drop)]
pub struct Arm {
    /// What is tested.
    pub test: Test,
    /// What the CASE gives where the test is true.
    pub gives: Expr,
}

/// A further operand of a product, with the sign before it.
#[cycle(tree)]
#[derive(Drop)]
pub struct Factor {
    /// The sign.
    pub sign: MultiplySign,
    /// The operand.
    pub operand: Expr,
}

/// A further operand of a sum, with the sign before it.
#[cycle(tree)]
#[derive(Drop)]
pub struct Term {
    /// The sign.
    pub sign: AddSign,
    /// The operand.
    pub operand: Expr,
}

/// A test.
#[cycle(tree)]
#[derive(Drop)]
pub enum Test {
    /// `( test )`
    Parens(Boxed<Test>),
    /// `EXISTS ( select )`
    Exists(Boxed<Select>),
    /// `expr compare expr`
    Compare(Boxed<Expr>, CompareSign, Boxed<Expr>),
    /// `expr IS [NOT] NULL`, and whether NOT stands.
    IsNull(Boxed<Expr>, bool),
    /// `expr [NOT] BETWEEN expr AND expr`, and whether NOT stands.
    Between(Boxed<Expr>, bool, Boxed<Expr>, Boxed<Expr>),
    /// `expr [NOT] IN ( select )`, and whether NOT stands.
    InQuery(Boxed<Expr>, bool, Boxed<Select>),
    /// `expr [NOT] IN ( list of expr )`, and whether NOT stands.
    InList(Boxed<Expr>, bool, Items<Expr>),
    /// So many NOTs before a test; there is one at least.
    Not(u32, Boxed<Test>),
    /// Tests joined by AND; there are two at least.
    And(Boxed<Test>, Items<Test>),
    /// Tests joined by OR; there are two at least.
    Or(Boxed<Test>, Items<Test>),
}

/// What a select gives for a row.
#[cycle(tree)]
#[derive(Drop)]
pub enum Item {
    /// `*`
    All,
    /// `name . *`
    AllOf(Units),
    /// `variable = expr`
    Assign(Units, Expr),
    /// `expr [[AS] name]`
    Value(Expr, Option<Units>),
}

/// `object [[AS] name]`: a table that is read, and the name that it has in the query.
#[derive(Drop)]
pub struct TableRef {
    /// The table.
    pub name: Units,
    /// The name that is given to it, if one is.
    pub alias: Option<Units>,
}

/// A further table of a FROM, and how it is joined to those before it.
#[cycle(tree)]
#[derive(Drop)]
pub enum Join {
    /// `, ref`
    Comma(TableRef),
    /// `[INNER] JOIN ref ON test`
    Inner(TableRef, Test),
    /// `LEFT [OUTER] JOIN ref ON test`
    Left(TableRef, Test),
    /// `CROSS JOIN ref`
    Cross(TableRef),
}

/// The tables of a FROM.
#[cycle(tree)]
#[derive(Drop)]
pub struct FromClause {
    /// The first table.
    pub first: TableRef,
    /// Those that are joined to it, in the order of the text.
    pub joins: Items<Join>,
}

/// `expr [ASC | DESC]`
#[cycle(tree)]
#[derive(Drop)]
pub struct OrderItem {
    /// What rows are ordered by.
    pub expr: Expr,
    /// Whether DESC stands.
    pub descending: bool,
}

/// A select.
#[cycle(tree)]
#[derive(Drop)]
pub struct Select {
    /// Whether DISTINCT stands.
    pub distinct: bool,
    /// The number of TOP, if one stands.
    pub top: Option<i64>,
    /// What it gives for each row; there is one item at least.
    pub items: Items<Item>,
    /// FROM.
    pub from: Option<FromClause>,
    /// WHERE.
    pub filter: Option<Boxed<Test>>,
    /// GROUP BY; empty where none stands.
    pub groups: Items<Expr>,
    /// HAVING.
    pub having: Option<Boxed<Test>>,
    /// ORDER BY; empty where none stands.
    pub order: Items<OrderItem>,
}
