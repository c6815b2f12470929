//! Where an error stands in a text, and what is shown of it.

ghost use Rattle.std.specs.Prelude.{◌≡◌, None, IfOk};
ghost use Rattle.std.specs.List.{slice_get};
ghost use Rattle.tsql_lexer.specs.Parts.{line_behind};
ghost use Rattle.tsql_grammar.specs.Parsed.{line_by, near_by, end_of};

use statement_reader::slice;
use std::alloc::Global;
use tsql_lexer::{Lexing, Spanned};
use value_types::{Memory, Units};

const LINE_FEED: u16 = 0x0A;

/// The line of the lexeme at a place. Behind the last one it is that of the flaw, or the last line.
pub(crate) fn line_in(text: &Units, lexing: &Lexing, at: usize) -> Result<u32, Memory>
    ensures { IfOk result (λ line. line ≡ line_by text.now lexing.now.flaw (slice_get lexing.now.lexemes.items at)) }
{
    match lexing.lexemes.get(at) {
        Some(spanned) => Ok(spanned.line),
        None => line_of_end(text, lexing),
    }
}

/// The line of the flaw, or the last line.
fn line_of_end(text: &Units, lexing: &Lexing) -> Result<u32, Memory>
    ensures { IfOk result (λ line. line ≡ line_by text.now lexing.now.flaw None) }
{
    match lexing.flaw {
        Some(flaw) => Ok(flaw.line),
        None => last_line(text),
    }
}

/// The last line of a text.
fn last_line(text: &Units) -> Result<u32, Memory>
    ensures { IfOk result (λ line. line ≡ line_behind text.now) }
{
    let count = text
        .as_slice()
        .iter()
        .filter(|unit| **unit == LINE_FEED)
        .count();
    let Ok(count) = u32::try_from(count) else {
        return Err(Memory);
    };
    match count.checked_add(1) {
        Some(line) => Ok(line),
        None => Err(Memory),
    }
}

/// The lexeme at a place as it is spelled. Behind the last one it is the unit at the flaw, or nothing.
pub(crate) fn near_in(
    alloc: Global,
    text: &Units,
    lexing: &Lexing,
    at: usize,
) -> Result<Units, Memory>
    ensures { IfOk result (λ near. near ≡ near_by text.now lexing.now.flaw (slice_get lexing.now.lexemes.items at)) }
{
    match lexing.lexemes.get(at) {
        Some(spanned) => slice(alloc, text, spanned.start, spanned.end),
        None => near_end(alloc, text, lexing),
    }
}

/// The unit at the flaw, or nothing.
fn near_end(alloc: Global, text: &Units, lexing: &Lexing) -> Result<Units, Memory>
    ensures { IfOk result (λ near. near ≡ near_by text.now lexing.now.flaw None) }
{
    let Some(flaw) = lexing.flaw else {
        return Ok(Units::new(alloc));
    };
    match flaw.at.checked_add(1) {
        Some(behind) => slice(alloc, text, flaw.at, behind),
        None => Err(Memory),
    }
}

/// Where the last lexeme ends.
pub(crate) fn end_of(lexemes: &[Spanned]) -> u32
    ensures { result ≡ end_of lexemes.now }
{
    match lexemes.last() {
        Some(spanned) => spanned.end,
        None => 0,
    }
}
