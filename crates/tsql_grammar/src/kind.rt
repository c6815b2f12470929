//! The kinds of lexemes: all that the grammar asks of a lexeme before it takes it.

use tsql_lexer::Sign;
use tsql_tree::FixedOption;

/// What a lexeme is to the grammar. A word that the grammar knows is a kind of its own, whatever its
/// case; the spellings of one word, as EXEC and EXECUTE, are one kind.
#[derive(Clone, Copy)]
pub enum Kind {
    /// A number.
    Number,
    /// A text.
    Text,
    /// A variable.
    Variable,
    /// A name that is nothing else: a quoted one, or a word that the grammar does not know.
    Name,
    /// The name `dbo`, with that case, quoted or not.
    Dbo,
    /// A system name that the grammar does not know.
    OtherSystem,
    /// `@@TRANCOUNT`
    TranCount,
    /// `@@ERROR`
    Error,
    /// `@@ROWCOUNT`
    RowCount,
    /// `@@FETCH_STATUS`
    FetchStatus,
    /// `@@VERSION`
    Version,
    /// `@@SERVERNAME`
    ServerName,
    /// `@@MAX_PRECISION`
    MaxPrecision,
    /// A semicolon with ELSE directly behind it.
    BeforeElse,
    /// Any other sign.
    Sign(Sign),
    /// An option of a session that is ON or OFF; a name elsewhere.
    Fixed(FixedOption),
    /// The name of a function where a parenthesis follows; a name elsewhere.
    Function(Function),
    /// Any other word that the grammar knows, and that is a name elsewhere.
    Word(Word),
    /// A reserved word, which is never a name.
    Reserved(Reserved),
}

/// The functions whose names are not reserved.
#[derive(Clone, Copy)]
pub enum Function {
    /// `CAST`
    Cast,
    /// `ISNULL`
    IsNull,
    /// `LEN`
    Len,
    /// `COUNT`
    Count,
    /// `SUM`
    Sum,
    /// `AVG`
    Avg,
    /// `MIN`
    Min,
    /// `MAX`
    Max,
    /// `XACT_STATE`
    XactState,
    /// `ERROR_NUMBER`
    ErrorNumber,
    /// `ERROR_SEVERITY`
    ErrorSeverity,
    /// `ERROR_STATE`
    ErrorState,
    /// `ERROR_LINE`
    ErrorLine,
    /// `ERROR_MESSAGE`
    ErrorMessage,
    /// `ERROR_PROCEDURE`
    ErrorProcedure,
    /// `SCHEMA_NAME`
    SchemaName,
    /// `DB_NAME`
    DatabaseName,
    /// `USER_NAME`
    UserName,
}

/// Words that are not reserved.
#[derive(Clone, Copy)]
pub enum Word {
    /// `OUT` or `OUTPUT`
    Output,
    /// `TINYINT`
    TinyInt,
    /// `SMALLINT`
    SmallInt,
    /// `INT` or `INTEGER`
    Int,
    /// `BIGINT`
    BigInt,
    /// `BIT`
    Bit,
    /// `NVARCHAR`
    NVarChar,
    /// `AFTER`
    After,
    /// `TRY`
    Try,
    /// `CATCH`
    Catch,
    /// `XACT_ABORT`
    XactAbort,
    /// `NOCOUNT`
    NoCount,
    /// `IMPLICIT_TRANSACTIONS`
    ImplicitTransactions,
    /// `OFF`
    Off,
    /// `ISOLATION`
    Isolation,
    /// `LEVEL`
    Level,
    /// `LOCK_TIMEOUT`
    LockTimeout,
    /// `TEXTSIZE`
    TextSize,
    /// `DEADLOCK_PRIORITY`
    DeadlockPriority,
    /// `LOW`
    Low,
    /// `NORMAL`
    Normal,
    /// `HIGH`
    High,
    /// `READ`
    Read,
    /// `COMMITTED`
    Committed,
    /// `UNCOMMITTED`
    Uncommitted,
    /// `REPEATABLE`
    Repeatable,
    /// `SNAPSHOT`
    Snapshot,
    /// `SERIALIZABLE`
    Serializable,
    /// `LOCAL`
    Local,
    /// `GLOBAL`
    Global,
    /// `STATIC`
    Static,
    /// `READ_ONLY`
    ReadOnly,
    /// `NEXT`
    Next,
    /// `DATEFIRST`
    DateFirst,
    /// `DATEFORMAT`
    DateFormat,
    /// `LANGUAGE`
    Language,
    /// `ROWCOUNT`
    RowCount,
}

/// Reserved words.
#[derive(Clone, Copy)]
pub enum Reserved {
    /// `AND`
    And,
    /// `AS`
    As,
    /// `ASC`
    Asc,
    /// `BEGIN`
    Begin,
    /// `BETWEEN`
    Between,
    /// `BREAK`
    Break,
    /// `BY`
    By,
    /// `CASE`
    Case,
    /// `CHECK`
    Check,
    /// `CLOSE`
    Close,
    /// `COALESCE`
    Coalesce,
    /// `COMMIT`
    Commit,
    /// `CONSTRAINT`
    Constraint,
    /// `CONTINUE`
    Continue,
    /// `CREATE`
    Create,
    /// `CROSS`
    Cross,
    /// `CURSOR`
    Cursor,
    /// `DEALLOCATE`
    Deallocate,
    /// `DECLARE`
    Declare,
    /// `DELETE`
    Delete,
    /// `DESC`
    Desc,
    /// `DISTINCT`
    Distinct,
    /// `DROP`
    Drop,
    /// `ELSE`
    Else,
    /// `END`
    End,
    /// `EXEC` or `EXECUTE`
    Execute,
    /// `EXISTS`
    Exists,
    /// `FETCH`
    Fetch,
    /// `FOR`
    For,
    /// `FOREIGN`
    Foreign,
    /// `FROM`
    From,
    /// `GROUP`
    Group,
    /// `HAVING`
    Having,
    /// `IF`
    If,
    /// `IN`
    In,
    /// `INNER`
    Inner,
    /// `INSERT`
    Insert,
    /// `INTO`
    Into,
    /// `IS`
    Is,
    /// `JOIN`
    Join,
    /// `KEY`
    Key,
    /// `LEFT`
    Left,
    /// `NOT`
    Not,
    /// `NULL`
    Null,
    /// `NULLIF`
    NullIf,
    /// `ON`
    On,
    /// `OPEN`
    Open,
    /// `OR`
    Or,
    /// `ORDER`
    Order,
    /// `OUTER`
    Outer,
    /// `PRIMARY`
    Primary,
    /// `PRINT`
    Print,
    /// `PROC` or `PROCEDURE`
    Procedure,
    /// `RAISERROR`
    RaiseError,
    /// `REFERENCES`
    References,
    /// `RETURN`
    Return,
    /// `ROLLBACK`
    Rollback,
    /// `SAVE`
    Save,
    /// `SELECT`
    Select,
    /// `SET`
    Set,
    /// `TABLE`
    Table,
    /// `THEN`
    Then,
    /// `THROW`
    Throw,
    /// `TOP`
    Top,
    /// `TRAN`
    Tran,
    /// `TRANSACTION`
    Transaction,
    /// `TRIGGER`
    Trigger,
    /// `UNIQUE`
    Unique,
    /// `UPDATE`
    Update,
    /// `USE`
    Use,
    /// `VALUES`
    Values,
    /// `WHEN`
    When,
    /// `WHERE`
    Where,
    /// `WHILE`
    While,
    /// `UNION`, `EXCEPT`, `INTERSECT`, `RIGHT` or `FULL`, which begin forms that this server leaves out.
    LeftOut,
}
