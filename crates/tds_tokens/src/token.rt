//! One token of a server's answer.

ghost use Rattle.std.specs.Prelude.{◌≡◌};
ghost use Rattle.tds_tokens.specs.Spelling.{columns_after};

use crate::bytes::Bytes;
use crate::columns::{ColumnInfo, ColumnList};
use crate::notice::Notice;
use value_types::{Row, SqlType, Units, Value};

/// Which of the DONE tokens it is ([MS-TDS] 2.2.7.6 to 2.2.7.8).
#[derive(Clone, Copy)]
pub enum DoneKind {
    /// DONE: a statement of a batch, or the batch, is over.
    Done,
    /// DONEPROC: a procedure is over.
    Proc,
    /// DONEINPROC: a statement of a procedure is over.
    InProc,
}

/// A token ([MS-TDS] 2.2.7).
#[derive(Drop)]
pub enum Token {
    /// LOGINACK (2.2.7.14): the login is granted.
    LoginAck {
        /// The version of the protocol.
        version: u32,
        /// The name of the server's program.
        program: Units,
        /// The program's release.
        release: u32,
    },
    /// ERROR (2.2.7.10): an error.
    Error(Notice),
    /// INFO (2.2.7.13): a message that is no error.
    Info(Notice),
    /// ENVCHANGE (2.2.7.9) of a setting that is a text.
    EnvText {
        /// `ENV_DATABASE` or `ENV_PACKET_SIZE`.
        kind: u8,
        /// The setting from now on.
        fresh: Units,
        /// The setting before.
        former: Units,
    },
    /// ENVCHANGE (2.2.7.9) of a setting that is bytes.
    EnvBytes {
        /// `ENV_COLLATION`, or `ENV_BEGIN`, `ENV_COMMIT` or `ENV_ROLLBACK` of a transaction.
        kind: u8,
        /// The setting from now on.
        fresh: Bytes,
        /// The setting before.
        former: Bytes,
    },
    /// COLMETADATA (2.2.7.4): the columns of the rows that follow.
    Columns(ColumnList),
    /// ROW (2.2.7.20): one value for each of the latest columns.
    Row(Row),
    /// RETURNSTATUS (2.2.7.18): what a procedure returned.
    ReturnStatus(i32),
    /// RETURNVALUE (2.2.7.19): the last value of an OUTPUT parameter.
    ReturnValue {
        /// The parameter's place in the call, from 0.
        ordinal: u16,
        /// Its name, or nothing.
        name: Units,
        /// Its type.
        kind: SqlType,
        /// Its value.
        value: Value,
    },
    /// DONE, DONEPROC or DONEINPROC (2.2.7.6 to 2.2.7.8).
    Finished {
        /// Which of the three.
        kind: DoneKind,
        /// The status: `DONE_FINAL`, or those of the bits `DONE_MORE`, `DONE_ERROR`, `DONE_COUNT`
        /// and `DONE_ATTN` that hold.
        status: u16,
        /// The kind of statement: `COMMAND_SELECT`, `COMMAND_INSERT`, `COMMAND_DELETE`,
        /// `COMMAND_UPDATE`, else `COMMAND_NONE`.
        command: u16,
        /// How many rows there were.
        rows: u64,
    },
}

impl Token {
    /// The columns that rows have after the token, where they had these before it.
    pub(crate) fn columns_after<'a>(&'a self, columns: &'a [ColumnInfo]) -> &'a [ColumnInfo]
        ensures { result.now ≡ columns_after columns.now self.now }
    {
        match self {
            Token::Columns(described) => described.as_slice(),
            _ => columns,
        }
    }
}
