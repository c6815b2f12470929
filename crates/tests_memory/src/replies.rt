//! Batches of a client, and the replies of a server as lines.

use std::alloc::{AllocError, Global};
use std::fmt::Write;
use tds_tokens::{ColumnInfo, Notice, Token, TokenFault, read_tokens};
use value_types::{Memory, SqlType, Units, Value};

/// ALL_HEADERS with a transaction descriptor ([MS-TDS] 2.2.5.3): 22 bytes.
const ALL_HEADERS: &[u8; 22] =
    b"\x16\x00\x00\x00\x12\x00\x00\x00\x02\x00\x00\x00\x00\x00\x00\x00\x00\x00\x01\x00\x00\x00";

/// Appends a SQL batch with this text, of ASCII and at most 32,000 letters, in one packet.
pub(crate) fn put_batch(bytes: &mut Vec<u8>, text: &str) -> Result<(), AllocError> {
    let [high, low] = (30 + 2 * (text.len().min(32_000) as u16)).to_be_bytes();
    bytes.extend_from_slice(&[0x01, 0x01, high, low, 0x00, 0x00, 0x01, 0x00])?;
    bytes.extend_from_slice(ALL_HEADERS)?;
    for letter in text.as_bytes() {
        bytes.push(*letter)?;
        bytes.push(0)?;
    }
    Ok(())
}

/// The replies that a connection wrote, each of one packet, as lines.
pub(crate) fn told_of(alloc: Global, written: &[u8]) -> Result<Vec<String>, Memory> {
    let mut told = Vec::new(alloc);
    let mut left = written;
    for _turn in 0..written.len() {
        let Some((payload, behind)) = first_payload(left) else {
            break;
        };
        told.push(lines_in(alloc, payload)?)?;
        left = behind;
    }
    if !left.is_empty() {
        told.push("no packets".to_string(alloc)?)?;
    }
    Ok(told)
}

/// What the packet carries with which the bytes begin, and the bytes behind it.
fn first_payload(bytes: &[u8]) -> Option<(&[u8], &[u8])> {
    let [0x04, 0x01, high, low, _, _, _, _, behind @ ..] = bytes else {
        return None;
    };
    let length = usize::from(u16::from_be_bytes([*high, *low]));
    behind.split_at_checked(length.checked_sub(8)?)
}

/// The tokens of a reply, a line each.
fn lines_in(alloc: Global, payload: &[u8]) -> Result<String, Memory> {
    let mut lines = String::new(alloc);
    match read_tokens(alloc, payload) {
        Ok(tokens) => {
            for token in &tokens {
                put_token(&mut lines, token)?;
            }
        }
        Err(TokenFault::Memory) => return Err(Memory),
        Err(_) => lines.push_str("no tokens\n")?,
    }
    Ok(lines)
}

/// Appends the line of a token. Those that no step tells are `other`.
fn put_token(lines: &mut String, token: &Token) -> Result<(), AllocError> {
    match token {
        Token::Error(notice) => put_error(lines, notice),
        Token::EnvBytes { kind, .. } => write!(lines, "ENVCHANGE {kind}\n"),
        Token::Columns(columns) => put_columns(lines, columns.as_slice()),
        Token::Row(row) => put_values(lines, row.as_slice()),
        Token::Finished {
            status,
            command,
            rows,
            ..
        } => write!(lines, "DONE({status:02X},{command:X},{rows})\n"),
        _ => lines.push_str("other\n"),
    }
}

fn put_error(lines: &mut String, notice: &Notice) -> Result<(), AllocError> {
    let number = notice.number;
    let class = notice.class;
    let state = notice.state;
    let at = notice.line;
    write!(
        lines,
        "ERROR {number} class {class} state {state} line {at}: "
    )?;
    put_text(lines, &notice.text)?;
    lines.push('\n')
}

/// Appends the columns of a result, each by its name and its type.
fn put_columns(lines: &mut String, columns: &[ColumnInfo]) -> Result<(), AllocError> {
    lines.push_str("COL(")?;
    let mut between = "";
    for column in columns {
        lines.push_str(between)?;
        put_text(lines, &column.name)?;
        lines.push_str(match column.kind {
            SqlType::Int => " INT",
            SqlType::SmallInt => " SMALLINT",
            SqlType::NText(20) => " NVARCHAR(20)",
            _ => " other",
        })?;
        between = ", ";
    }
    lines.push_str(")\n")
}

fn put_values(lines: &mut String, values: &[Value]) -> Result<(), AllocError> {
    lines.push_str("ROW(")?;
    let mut between = "";
    for value in values {
        lines.push_str(between)?;
        match value {
            Value::Null => lines.push_str("NULL")?,
            Value::Whole(number) => write!(lines, "{number}")?,
            Value::Bit(_) => lines.push_str("other")?,
            Value::Text(text) => {
                lines.push('\'')?;
                put_text(lines, text)?;
                lines.push('\'')?;
            }
        }
        between = ", ";
    }
    lines.push_str(")\n")
}

/// Appends a text. What is no character is a question mark.
fn put_text(lines: &mut String, text: &Units) -> Result<(), AllocError> {
    for unit in text.as_slice() {
        lines.push(char::from_u32(u32::from(*unit)).unwrap_or('?'))?;
    }
    Ok(())
}
