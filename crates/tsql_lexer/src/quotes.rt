//! What stands between quotes.

ghost use Rattle.std.specs.Prelude.{◌≡◌, ◌≤◌, IfOk, IfSome, length};
ghost use Rattle.tsql_lexer.specs.Quotes.{enclosed};

use std::alloc::Global;
use value_types::{Memory, Units};

/// The value behind an opening quote, with doubled closing quotes undone, and how many units it takes
/// with the closing quote that is not doubled, if there is one.
pub(crate) fn enclosed(
    alloc: Global,
    close: u16,
    text: &[u16],
) -> Result<Option<(Units, usize)>, Memory>
    ensures value { IfOk result (λ value. value ≡ enclosed close text.now) }
    ensures within { IfOk result (λ value. IfSome value (λ read. read.1 ≤ length text.now)) }
{
    let mut value = Vec::new(alloc);
    let mut at = 0;
    while at < text.len() {
        let unit = text[at];
        let mut width = 1;
        if unit == close {
            if at + 1 == text.len() || text[at + 1] != close {
                return Ok(Some((Units::from(value), at + 1)));
            }
            width = 2;
        }
        value.push(unit)?;
        at += width;
    }
    Ok(None)
}
