//! Writing tokens.

ghost use Rattle.std.specs.Prelude.{◌≡◌, ◌+◌, ◌*◌, ◌-◌, ◌^◌, ◌<◌, ◌≤◌, ◌++◌, [], ◌∷◌, length, min, All, OnOk, OnErr, IsOk, vec_len, vec_capacity};
ghost use Rattle.std.specs.List.{flat_map};
ghost use Rattle.std.specs.Int.{w16, w32, w64, to_le_bytes, cast_unsigned};
ghost use Rattle.tds_tokens.specs.Numbers.{done_tag};
ghost use Rattle.tds_tokens.specs.Spelling.{TokenBytes, token_bytes, login_ack_bytes, notice_bytes, column_bytes, return_value_bytes, row_bytes, b_varchar, b_varbyte, with_length};
ghost use Rattle.tds_tokens.specs.Fit.{FitTokens, FitsToken, FitsNotice, FitsColumns, FitsKind, FitsType};

use crate::bytes::Bytes;
use crate::columns::ColumnInfo;
use crate::notice::Notice;
use crate::room::{
    append, put_b_varbyte, put_b_varchar, put_i32, put_u16, put_u32_be, put_u64, put_us_varchar,
    reserve,
};
use crate::sizes::{env_bytes_size, env_text_size, login_ack_size, notice_size, token_size};
use crate::token::{DoneKind, Token};
use crate::values::{put_type, put_value, put_values};
use crate::wire::{
    COLMETADATA, COLUMN_START, DONE, DONEINPROC, DONEPROC, ENVCHANGE, ERROR, INFO, LOGINACK,
    RETURN_VALUE_START, RETURNSTATUS, RETURNVALUE, ROW, SERVER, SQL_TSQL,
};
use value_types::{Memory, SqlType, Units, Value};

/// How many bytes the tokens have. A number above 2^64 - 1 is given as that.
pub fn bytes_of_tokens(tokens: &[Token]) -> u64
    ensures { result ≡ min (length (TokenBytes tokens.now)) (2 ^ 64 - 1) }
{
    let mut columns: &[ColumnInfo] = &[];
    let mut size: u64 = 0;
    for token in tokens {
        size = size.saturating_add(token_size(columns, token));
        columns = token.columns_after(columns);
    }
    size
}

/// Appends the bytes of the tokens. It reserves the room first, so want of memory leaves `out` as
/// it was; where the room is there it takes no memory, and the capacity stays.
pub fn write_tokens(tokens: &[Token], out: &mut Vec<u8>) -> Result<(), Memory>
    requires { FitTokens [] tokens.now }
    ensures bytes { OnOk result (out.new.items ≡ out.old.items ++ TokenBytes tokens.now) }
    ensures unchanged { OnErr result (out.new.items ≡ out.old.items) }
    ensures reserved { length (TokenBytes tokens.now) ≤ vec_capacity out.old - vec_len out.old → IsOk result }
    ensures kept { length (TokenBytes tokens.now) ≤ vec_capacity out.old - vec_len out.old → vec_capacity out.new ≡ vec_capacity out.old }
{
    reserve(out, bytes_of_tokens(tokens) as usize)?;
    let mut columns: &[ColumnInfo] = &[];
    for token in tokens {
        put_token(out, columns, token);
        columns = token.columns_after(columns);
    }
    Ok(())
}

/// Appends a token, where rows have these columns.
fn put_token(out: &mut Vec<u8>, columns: &[ColumnInfo], token: &Token)
    requires fits { FitsToken columns.now token.now }
    requires room { vec_len out.old + length (token_bytes columns.now token.now) ≤ vec_capacity out.old }
    ensures items { out.new.items ≡ out.old.items ++ token_bytes columns.now token.now }
    ensures len { vec_len out.new ≡ vec_len out.old + length (token_bytes columns.now token.now) }
    ensures capacity { vec_capacity out.new ≡ vec_capacity out.old }
{
    match token {
        Token::LoginAck {
            version,
            program,
            release,
        } => put_login_ack(out, *version, program, *release),
        Token::Error(notice) => put_notice(out, ERROR, notice),
        Token::Info(notice) => put_notice(out, INFO, notice),
        Token::EnvText {
            kind,
            fresh,
            former,
        } => put_env_text(out, *kind, fresh, former),
        Token::EnvBytes {
            kind,
            fresh,
            former,
        } => put_env_bytes(out, *kind, fresh, former),
        Token::Columns(described) => put_description(out, described.as_slice()),
        Token::Row(row) => put_row(out, columns, row.as_slice()),
        Token::ReturnStatus(status) => put_return_status(out, *status),
        Token::ReturnValue {
            ordinal,
            name,
            kind,
            value,
        } => put_return_value(out, *ordinal, name, *kind, value),
        Token::Finished {
            kind,
            status,
            command,
            rows,
        } => put_done(out, *kind, *status, *command, *rows),
    }
}

/// Appends LOGINACK.
fn put_login_ack(out: &mut Vec<u8>, version: u32, program: &Units, release: u32)
    requires fits { length program.now < 2 ^ 8 }
    requires room { vec_len out.old + (13 + 2 * length program.now) ≤ vec_capacity out.old }
    ensures items { out.new.items ≡ out.old.items ++ LOGINACK ∷ with_length (login_ack_bytes version program.now release) }
    ensures len { vec_len out.new ≡ vec_len out.old + (13 + 2 * length program.now) }
    ensures capacity { vec_capacity out.new ≡ vec_capacity out.old }
{
    append(out, &[LOGINACK]);
    put_u16(out, login_ack_size(program) as u16);
    append(out, &[SQL_TSQL]);
    put_u32_be(out, version);
    put_b_varchar(out, program.as_slice());
    put_u32_be(out, release);
}

/// Appends ENVCHANGE of a text.
fn put_env_text(out: &mut Vec<u8>, kind: u8, fresh: &Units, former: &Units)
    requires fits { (length fresh.now < 2 ^ 8) × (length former.now < 2 ^ 8) }
    requires room { vec_len out.old + (6 + 2 * length fresh.now + 2 * length former.now) ≤ vec_capacity out.old }
    ensures items { out.new.items ≡ out.old.items ++ ENVCHANGE ∷ with_length (kind ∷ b_varchar fresh.now ++ b_varchar former.now) }
    ensures len { vec_len out.new ≡ vec_len out.old + (6 + 2 * length fresh.now + 2 * length former.now) }
    ensures capacity { vec_capacity out.new ≡ vec_capacity out.old }
{
    append(out, &[ENVCHANGE]);
    put_u16(out, env_text_size(fresh, former) as u16);
    append(out, &[kind]);
    put_b_varchar(out, fresh.as_slice());
    put_b_varchar(out, former.as_slice());
}

/// Appends ENVCHANGE of bytes.
fn put_env_bytes(out: &mut Vec<u8>, kind: u8, fresh: &Bytes, former: &Bytes)
    requires fits { (length fresh.now < 2 ^ 8) × (length former.now < 2 ^ 8) }
    requires room { vec_len out.old + (6 + length fresh.now + length former.now) ≤ vec_capacity out.old }
    ensures items { out.new.items ≡ out.old.items ++ ENVCHANGE ∷ with_length (kind ∷ b_varbyte fresh.now ++ b_varbyte former.now) }
    ensures len { vec_len out.new ≡ vec_len out.old + (6 + length fresh.now + length former.now) }
    ensures capacity { vec_capacity out.new ≡ vec_capacity out.old }
{
    append(out, &[ENVCHANGE]);
    put_u16(out, env_bytes_size(fresh, former) as u16);
    append(out, &[kind]);
    put_b_varbyte(out, fresh.as_slice());
    put_b_varbyte(out, former.as_slice());
}

/// Appends ERROR or INFO.
fn put_notice(out: &mut Vec<u8>, tag: u8, notice: &Notice)
    requires fits { FitsNotice notice.now }
    requires room { vec_len out.old + (3 + length (notice_bytes notice.now)) ≤ vec_capacity out.old }
    ensures items { out.new.items ≡ out.old.items ++ tag ∷ with_length (notice_bytes notice.now) }
    ensures len { vec_len out.new ≡ vec_len out.old + (3 + length (notice_bytes notice.now)) }
    ensures capacity { vec_capacity out.new ≡ vec_capacity out.old }
{
    append(out, &[tag]);
    put_u16(out, notice_size(notice) as u16);
    put_notice_body(out, notice);
}

/// Appends what stands behind the length of an ERROR or INFO token.
fn put_notice_body(out: &mut Vec<u8>, notice: &Notice)
    requires fits { FitsNotice notice.now }
    requires room { vec_len out.old + length (notice_bytes notice.now) ≤ vec_capacity out.old }
    ensures items { out.new.items ≡ out.old.items ++ notice_bytes notice.now }
    ensures len { vec_len out.new ≡ vec_len out.old + length (notice_bytes notice.now) }
    ensures capacity { vec_capacity out.new ≡ vec_capacity out.old }
{
    put_i32(out, notice.number);
    append(out, &[notice.state, notice.class]);
    put_us_varchar(out, notice.text.as_slice());
    append(out, &SERVER);
    put_b_varchar(out, notice.procedure.as_slice());
    put_i32(out, notice.line);
}

/// Appends COLMETADATA.
fn put_description(out: &mut Vec<u8>, columns: &[ColumnInfo])
    requires count { length columns.now < 2 ^ 16 }
    requires fits { All (λ column. FitsKind column.kind × (length column.name < 2 ^ 8)) columns.now }
    requires room { vec_len out.old + (3 + length (flat_map column_bytes columns.now)) ≤ vec_capacity out.old }
    ensures items { out.new.items ≡ out.old.items ++ (COLMETADATA ∷ to_le_bytes w16 (length columns.now) ++ flat_map column_bytes columns.now) }
    ensures len { vec_len out.new ≡ vec_len out.old + (3 + length (flat_map column_bytes columns.now)) }
    ensures capacity { vec_capacity out.new ≡ vec_capacity out.old }
{
    append(out, &[COLMETADATA]);
    put_u16(out, columns.len() as u16);
    put_columns(out, columns);
}

/// Appends the columns of COLMETADATA.
fn put_columns(out: &mut Vec<u8>, columns: &[ColumnInfo])
    requires fits { All (λ column. FitsKind column.kind × (length column.name < 2 ^ 8)) columns.now }
    requires room { vec_len out.old + length (flat_map column_bytes columns.now) ≤ vec_capacity out.old }
    ensures items { out.new.items ≡ out.old.items ++ flat_map column_bytes columns.now }
    ensures len { vec_len out.new ≡ vec_len out.old + length (flat_map column_bytes columns.now) }
    ensures capacity { vec_capacity out.new ≡ vec_capacity out.old }
{
    for column in columns {
        put_column(out, column);
    }
}

/// Appends a column.
fn put_column(out: &mut Vec<u8>, column: &ColumnInfo)
    requires kind { FitsKind column.now.kind }
    requires name { length column.now.name < 2 ^ 8 }
    requires room { vec_len out.old + length (column_bytes column.now) ≤ vec_capacity out.old }
    ensures items { out.new.items ≡ out.old.items ++ column_bytes column.now }
    ensures len { vec_len out.new ≡ vec_len out.old + length (column_bytes column.now) }
    ensures capacity { vec_capacity out.new ≡ vec_capacity out.old }
{
    append(out, &COLUMN_START);
    put_type(out, column.kind);
    put_b_varchar(out, column.name.as_slice());
}

/// Appends ROW.
fn put_row(out: &mut Vec<u8>, columns: &[ColumnInfo], values: &[Value])
    requires fits { FitsColumns columns.now values.now }
    requires room { vec_len out.old + (1 + length (row_bytes columns.now values.now)) ≤ vec_capacity out.old }
    ensures items { out.new.items ≡ out.old.items ++ ROW ∷ row_bytes columns.now values.now }
    ensures len { vec_len out.new ≡ vec_len out.old + (1 + length (row_bytes columns.now values.now)) }
    ensures capacity { vec_capacity out.new ≡ vec_capacity out.old }
{
    append(out, &[ROW]);
    put_values(out, columns, values);
}

/// Appends RETURNSTATUS.
fn put_return_status(out: &mut Vec<u8>, status: i32)
    requires { vec_len out.old + 5 ≤ vec_capacity out.old }
    ensures items { out.new.items ≡ out.old.items ++ RETURNSTATUS ∷ to_le_bytes w32 (cast_unsigned w32 status) }
    ensures len { vec_len out.new ≡ vec_len out.old + 5 }
    ensures capacity { vec_capacity out.new ≡ vec_capacity out.old }
{
    append(out, &[RETURNSTATUS]);
    put_i32(out, status);
}

/// Appends RETURNVALUE.
fn put_return_value(out: &mut Vec<u8>, ordinal: u16, name: &Units, kind: SqlType, value: &Value)
    requires name { length name.now < 2 ^ 8 }
    requires kind { FitsKind kind }
    requires value { FitsType kind value.now }
    requires room { vec_len out.old + (1 + length (return_value_bytes ordinal name.now kind value.now)) ≤ vec_capacity out.old }
    ensures items { out.new.items ≡ out.old.items ++ RETURNVALUE ∷ return_value_bytes ordinal name.now kind value.now }
    ensures len { vec_len out.new ≡ vec_len out.old + (1 + length (return_value_bytes ordinal name.now kind value.now)) }
    ensures capacity { vec_capacity out.new ≡ vec_capacity out.old }
{
    append(out, &[RETURNVALUE]);
    put_u16(out, ordinal);
    put_b_varchar(out, name.as_slice());
    append(out, &RETURN_VALUE_START);
    put_type(out, kind);
    put_value(out, kind, value);
}

/// Appends DONE, DONEPROC or DONEINPROC.
fn put_done(out: &mut Vec<u8>, kind: DoneKind, status: u16, command: u16, rows: u64)
    requires { vec_len out.old + 13 ≤ vec_capacity out.old }
    ensures items { out.new.items ≡ out.old.items ++ (done_tag kind ∷ to_le_bytes w16 status ++ to_le_bytes w16 command ++ to_le_bytes w64 rows) }
    ensures len { vec_len out.new ≡ vec_len out.old + 13 }
    ensures capacity { vec_capacity out.new ≡ vec_capacity out.old }
{
    append(out, &[tag_of(kind)]);
    put_u16(out, status);
    put_u16(out, command);
    put_u64(out, rows);
}

/// The tag of a DONE.
fn tag_of(kind: DoneKind) -> u8
    ensures { result ≡ done_tag kind }
{
    match kind {
        DoneKind::Done => DONE,
        DoneKind::Proc => DONEPROC,
        DoneKind::InProc => DONEINPROC,
    }
}
