//! Messages of a client, and the tokens of replies as words.

use std::alloc::{AllocError, Global};
use std::fmt::Write;
use tds_tokens::Token;
use value_types::{Memory, Value};

/// ALL_HEADERS with a transaction descriptor ([MS-TDS] 2.2.5.3): 22 bytes.
const ALL_HEADERS: &[u8; 22] =
    b"\x16\x00\x00\x00\x12\x00\x00\x00\x02\x00\x00\x00\x00\x00\x00\x00\x00\x00\x01\x00\x00\x00";

/// A SQL batch with this text, of ASCII and at most 32,000 letters, in one packet.
pub(crate) fn batch(alloc: Global, text: &str) -> Result<Vec<u8>, AllocError> {
    let [high, low] = (30 + 2 * (text.len().min(32_000) as u16)).to_be_bytes();
    let mut bytes = vec![in alloc; 0x01, 0x01, high, low, 0x00, 0x00, 0x01, 0x00]?;
    bytes.extend_from_slice(ALL_HEADERS)?;
    for letter in text.as_bytes() {
        bytes.push(*letter)?;
        bytes.push(0)?;
    }
    Ok(bytes)
}

/// The tokens, a word each: an error by its number, a change by its kind, a row by its values, and a DONE by its status, its command
/// and its rows.
pub(crate) fn words_of(alloc: Global, tokens: &[Token]) -> Result<String, Memory> {
    let mut words = String::new(alloc);
    for token in tokens {
        if !words.is_empty() {
            words.push(' ')?;
        }
        put_token(&mut words, token)?;
    }
    Ok(words)
}

fn put_token(words: &mut String, token: &Token) -> Result<(), AllocError> {
    match token {
        Token::Error(notice) => put_error(words, notice.number),
        Token::EnvBytes { kind, .. } => write!(words, "change {kind},"),
        Token::Columns(_) => words.push_str("columns,"),
        Token::Row(row) => put_values(words, row.as_slice()),
        Token::Finished {
            status,
            command,
            rows,
            ..
        } => write!(words, "done {status:X} {command:X} {rows},"),
        _ => words.push_str("other,"),
    }
}

fn put_error(words: &mut String, number: i32) -> Result<(), AllocError> {
    write!(words, "error {number},")
}

fn put_values(words: &mut String, values: &[Value]) -> Result<(), AllocError> {
    words.push_str("row")?;
    for value in values {
        match value {
            Value::Whole(number) => write!(words, " {number}")?,
            _ => words.push_str(" other")?,
        }
    }
    words.push(',')
}
