//! What the tokens of a reply are printed as.

ghost use Rattle.std.specs.Prelude.{◌≡◌, map, string_bytes, IfOk};
ghost use Rattle.tds_client.specs.Printing.{Print, count_text, error_head, error_text, joined, name_text, token_text, utf8_of, value_text};

use std::alloc::Global;
use tds_tokens::{ColumnInfo, DONE_COUNT, Notice, Token};
use value_types::{Memory, Units, Value};

/// The bytes that these tokens are printed as.
pub(crate) fn print_tokens(alloc: Global, tokens: &[Token]) -> Result<Vec<u8>, Memory>
    ensures { IfOk result (λ printed. printed.items ≡ Print tokens.now) }
{
    let mut printed = Vec::new(alloc);
    for token in tokens {
        let text = token_text(alloc, token)?;
        printed.extend_from_slice(text.as_bytes())?;
    }
    Ok(printed)
}

/// A token.
#[tactic(auto, unfolding(crate::specs::Printing::token_text))]
fn token_text(alloc: Global, token: &Token) -> Result<String, Memory>
    ensures { IfOk result (λ text. string_bytes text ≡ token_text token.now) }
{
    Ok(match token {
        Token::Columns(columns) => {
            let names = names_text(alloc, columns.as_slice())?;
            format!(in alloc; "{names}\n")?
        }
        Token::Row(row) => {
            let values = values_text(alloc, row.as_slice())?;
            format!(in alloc; "{values}\n")?
        }
        Token::Finished { status, rows, .. } => count_text(alloc, *status, *rows)?,
        Token::Error(notice) => error_text(alloc, notice)?,
        Token::Info(notice) => {
            let text = utf8_of(alloc, &notice.text)?;
            format!(in alloc; "{text}\n")?
        }
        Token::ReturnStatus(status) => format!(in alloc; "return {status}\n")?,
        Token::ReturnValue { name, value, .. } => {
            let name = utf8_of(alloc, name)?;
            let text = value_text(alloc, value)?;
            format!(in alloc; "{name} = {text}\n")?
        }
        Token::LoginAck { .. } => String::new(alloc),
        Token::EnvText { .. } => String::new(alloc),
        Token::EnvBytes { .. } => String::new(alloc),
    })
}

/// The names of columns, joined by bars.
fn names_text(alloc: Global, columns: &[ColumnInfo]) -> Result<String, Memory>
    ensures { IfOk result (λ text. string_bytes text ≡ joined (map name_text columns.now)) }
{
    let [first, others @ ..] = columns else {
        return Ok(String::new(alloc));
    };
    let mut text = utf8_of(alloc, &first.name)?;
    for column in others {
        let name = utf8_of(alloc, &column.name)?;
        text.push_str("|")?;
        text.push_str(name.as_str())?;
    }
    Ok(text)
}

/// Values, joined by bars.
fn values_text(alloc: Global, values: &[Value]) -> Result<String, Memory>
    ensures { IfOk result (λ text. string_bytes text ≡ joined (map value_text values.now)) }
{
    let [first, others @ ..] = values else {
        return Ok(String::new(alloc));
    };
    let mut text = value_text(alloc, first)?;
    for value in others {
        let word = value_text(alloc, value)?;
        text.push_str("|")?;
        text.push_str(word.as_str())?;
    }
    Ok(text)
}

/// A value.
#[tactic(auto, unfolding(crate::specs::Printing::value_text))]
fn value_text(alloc: Global, value: &Value) -> Result<String, Memory>
    ensures { IfOk result (λ text. string_bytes text ≡ value_text value.now) }
{
    Ok(match value {
        Value::Null => String::from_str(alloc, "NULL")?,
        Value::Whole(number) => format!(in alloc; "{number}")?,
        Value::Bit(false) => String::from_str(alloc, "0")?,
        Value::Bit(true) => String::from_str(alloc, "1")?,
        Value::Text(units) => utf8_of(alloc, units)?,
    })
}

/// The count of rows, where the status of a DONE says that it is valid.
#[tactic(auto, unfolding(crate::specs::Printing::count_text))]
fn count_text(alloc: Global, status: u16, rows: u64) -> Result<String, Memory>
    ensures { IfOk result (λ text. string_bytes text ≡ count_text status rows) }
{
    if status / DONE_COUNT % 2 != 1 {
        return Ok(String::new(alloc));
    }
    let text = format!(in alloc; "({rows} rows)\n")?;
    Ok(text)
}

/// An error.
#[tactic(auto, unfolding(crate::specs::Printing::error_text))]
fn error_text(alloc: Global, notice: &Notice) -> Result<String, Memory>
    ensures { IfOk result (λ text. string_bytes text ≡ error_text notice.now) }
{
    let head = error_head(alloc, notice)?;
    let text = utf8_of(alloc, &notice.text)?;
    let error = format!(in alloc; "{head}: {text}\n")?;
    Ok(error)
}

/// The number, the class and the line of an error.
#[tactic(auto, unfolding(crate::specs::Printing::error_head))]
fn error_head(alloc: Global, notice: &Notice) -> Result<String, Memory>
    ensures { IfOk result (λ text. string_bytes text ≡ error_head notice.now) }
{
    let number = notice.number;
    let class = notice.class;
    let line = notice.line;
    let head = format!(in alloc; "error {number}, class {class}, line {line}")?;
    Ok(head)
}

/// A text in UTF-8, with U+FFFD for a surrogate that has no partner.
fn utf8_of(alloc: Global, units: &Units) -> Result<String, Memory>
    ensures { IfOk result (λ text. string_bytes text ≡ utf8_of units.now) }
{
    let text = String::from_utf16_lossy(alloc, units.as_slice())?;
    Ok(text)
}
