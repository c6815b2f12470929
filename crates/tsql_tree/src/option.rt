//! What SET sets of a session.

/// An option of the session that is ON or OFF, and whose known settings change nothing.
#[derive(Clone, Copy, Debug, PartialEq, Eq)]
pub enum FixedOption {
    /// `ANSI_NULLS`
    AnsiNulls,
    /// `ANSI_NULL_DFLT_ON`
    AnsiNullDefaultOn,
    /// `ANSI_PADDING`
    AnsiPadding,
    /// `ANSI_WARNINGS`
    AnsiWarnings,
    /// `ARITHABORT`
    ArithAbort,
    /// `CONCAT_NULL_YIELDS_NULL`
    ConcatNullYieldsNull,
    /// `QUOTED_IDENTIFIER`
    QuotedIdentifier,
    /// `CURSOR_CLOSE_ON_COMMIT`
    CursorCloseOnCommit,
    /// `FMTONLY`
    FormatOnly,
    /// `NUMERIC_ROUNDABORT`
    NumericRoundAbort,
}

/// A level of isolation, as it is written.
#[derive(Clone, Copy)]
pub enum IsolationLevel {
    /// `READ COMMITTED`
    ReadCommitted,
    /// `READ UNCOMMITTED`
    ReadUncommitted,
    /// `REPEATABLE READ`
    RepeatableRead,
    /// `SNAPSHOT`
    Snapshot,
    /// `SERIALIZABLE`
    Serializable,
}

/// What DEADLOCK_PRIORITY is set to.
#[derive(Clone, Copy)]
pub enum PriorityWord {
    /// `LOW`
    Low,
    /// `NORMAL`
    Normal,
    /// `HIGH`
    High,
    /// `[-] number`
    Number(i64),
}

/// An option of a session with its setting; `true` stands for ON.
#[derive(Clone, Copy)]
pub enum SessionOption {
    /// `XACT_ABORT`
    XactAbort(bool),
    /// `NOCOUNT`
    NoCount(bool),
    /// `IMPLICIT_TRANSACTIONS`
    ImplicitTransactions(bool),
    /// An option whose known settings change nothing.
    Fixed(FixedOption, bool),
    /// `TRANSACTION ISOLATION LEVEL`
    Isolation(IsolationLevel),
    /// `LOCK_TIMEOUT [-] number`
    LockTimeout(i64),
    /// `TEXTSIZE [-] number`
    TextSize(i64),
    /// `DEADLOCK_PRIORITY`
    DeadlockPriority(PriorityWord),
    /// `DATEFIRST [-] number`
    DateFirst(i64),
    /// `ROWCOUNT [-] number`
    RowCount(i64),
    /// `DATEFORMAT` of a name, by whether that is an order of day, month and year.
    DateFormat(bool),
    /// `LANGUAGE` of a name, by whether that is the name of the one language.
    Language(bool),
}
