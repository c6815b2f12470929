//! How many bytes the parts of a token have. A number above 2^64 - 1 is given as that.

ghost use Rattle.std.specs.Prelude.{◌≡◌, ◌+◌, ◌-◌, ◌*◌, ◌^◌, length, min};
ghost use Rattle.std.specs.List.{flat_map};
ghost use Rattle.tds_tokens.specs.Spelling.{column_bytes, notice_bytes, row_bytes, token_bytes, type_info, value_bytes};

use crate::bytes::Bytes;
use crate::columns::ColumnInfo;
use crate::notice::Notice;
use crate::token::Token;
use value_types::{SqlType, Units, Value};

/// How many bytes a token has, where the latest columns before it are these.
pub(crate) fn token_size(columns: &[ColumnInfo], token: &Token) -> u64
    ensures { result ≡ min (length (token_bytes columns.now token.now)) (2 ^ 64 - 1) }
{
    match token {
        Token::LoginAck { program, .. } => login_ack_size(program).saturating_add(3),
        Token::Error(notice) => notice_size(notice).saturating_add(3),
        Token::Info(notice) => notice_size(notice).saturating_add(3),
        Token::EnvText { fresh, former, .. } => env_text_size(fresh, former).saturating_add(3),
        Token::EnvBytes { fresh, former, .. } => env_bytes_size(fresh, former).saturating_add(3),
        Token::Columns(described) => columns_size(described.as_slice()).saturating_add(3),
        Token::Row(row) => row_size(columns, row.as_slice()).saturating_add(1),
        Token::ReturnStatus(_) => 5,
        Token::ReturnValue {
            name,
            kind,
            value,
            ..
        } => return_value_size(name, *kind, value).saturating_add(1),
        Token::Finished { .. } => 13,
    }
}

/// How many bytes a LOGINACK token has behind its length.
pub(crate) fn login_ack_size(program: &Units) -> u64
    ensures { result ≡ min (10 + 2 * length program.now) (2 ^ 64 - 1) }
{
    text_size(program).saturating_add(10)
}

/// How many bytes an ENVCHANGE token of texts has behind its length.
pub(crate) fn env_text_size(fresh: &Units, former: &Units) -> u64
    ensures { result ≡ min (3 + 2 * length fresh.now + 2 * length former.now) (2 ^ 64 - 1) }
{
    text_size(fresh)
        .saturating_add(text_size(former))
        .saturating_add(3)
}

/// How many bytes an ENVCHANGE token of bytes has behind its length.
pub(crate) fn env_bytes_size(fresh: &Bytes, former: &Bytes) -> u64
    ensures { result ≡ min (3 + length fresh.now + length former.now) (2 ^ 64 - 1) }
{
    (fresh.as_slice().len() as u64)
        .saturating_add(former.as_slice().len() as u64)
        .saturating_add(3)
}

/// How many bytes an ERROR or INFO token has behind its length.
pub(crate) fn notice_size(notice: &Notice) -> u64
    ensures { result ≡ min (length (notice_bytes notice.now)) (2 ^ 64 - 1) }
{
    text_size(&notice.text)
        .saturating_add(text_size(&notice.procedure))
        .saturating_add(24)
}

/// How many bytes a RETURNVALUE token has behind its tag.
fn return_value_size(name: &Units, kind: SqlType, value: &Value) -> u64
    ensures { result ≡ min (10 + 2 * length name.now + length (type_info kind) + length (value_bytes kind value.now)) (2 ^ 64 - 1) }
{
    text_size(name)
        .saturating_add(type_size(kind))
        .saturating_add(value_size(kind, value))
        .saturating_add(10)
}

/// How many bytes columns have.
fn columns_size(columns: &[ColumnInfo]) -> u64
    ensures { result ≡ min (length (flat_map column_bytes columns.now)) (2 ^ 64 - 1) }
{
    let mut size: u64 = 0;
    for column in columns {
        size = size.saturating_add(column_size(column));
    }
    size
}

/// How many bytes a column has.
fn column_size(column: &ColumnInfo) -> u64
    ensures { result ≡ min (length (column_bytes column.now)) (2 ^ 64 - 1) }
{
    text_size(&column.name)
        .saturating_add(type_size(column.kind))
        .saturating_add(7)
}

/// How many bytes a type has.
fn type_size(kind: SqlType) -> u64
    ensures { result ≡ length (type_info kind) }
{
    match kind {
        SqlType::NText(_) => 8,
        _ => 2,
    }
}

/// How many bytes the values of a row have.
fn row_size(columns: &[ColumnInfo], values: &[Value]) -> u64
    ensures { result ≡ min (length (row_bytes columns.now values.now)) (2 ^ 64 - 1) }
{
    let mut size: u64 = 0;
    for (column, value) in columns.iter().zip(values) {
        size = size.saturating_add(value_size(column.kind, value));
    }
    size
}

/// How many bytes a value has.
fn value_size(kind: SqlType, value: &Value) -> u64
    ensures { result ≡ min (length (value_bytes kind value.now)) (2 ^ 64 - 1) }
{
    match (kind, value) {
        (SqlType::NText(_), Value::Null) => 2,
        (SqlType::NText(_), Value::Text(units)) => text_size(units).saturating_add(2),
        (SqlType::NText(_), _) => 0,
        (_, Value::Null) => 1,
        (SqlType::TinyInt, Value::Whole(_)) => 2,
        (SqlType::SmallInt, Value::Whole(_)) => 3,
        (SqlType::Int, Value::Whole(_)) => 5,
        (SqlType::BigInt, Value::Whole(_)) => 9,
        (SqlType::Bit, Value::Bit(_)) => 2,
        _ => 0,
    }
}

/// How many bytes the units of a text have.
fn text_size(text: &Units) -> u64
    ensures { result ≡ min (2 * length text.now) (2 ^ 64 - 1) }
{
    (text.len() as u64).saturating_mul(2)
}
