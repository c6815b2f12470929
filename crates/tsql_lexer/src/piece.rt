//! The piece of a text that stands at its front.

ghost use Rattle.std.specs.Prelude.{◌≡◌, ◌<◌, ◌≤◌, IfOk, length};
ghost use Rattle.tsql_lexer.specs.Reading.{at_name_piece, number_piece, name_piece, text_piece, comment_piece, sign_piece, word_piece, piece_of};
ghost use Rattle.tsql_lexer.specs.Lexemes.{is_name};
ghost use Rattle.tsql_lexer.specs.declared.lexeme.Lexeme.TheVariants.{Variable as ToVariable, SystemName as ToSystemName};

use crate::classes::{
    SPACE, count_blanks, count_digits, count_in_line, count_word_units, front_of, unit_at,
};
use crate::comments::comment_size;
use crate::fault::LexKind;
use crate::lexeme::Lexeme;
use crate::numbers::number_of;
use crate::opening::{CLOSING_BRACKET, DOUBLE_QUOTE, Opening, QUOTE, opening_of};
use crate::quotes::enclosed;
use crate::signs::{double_sign, single_sign};
use std::alloc::Global;
use value_types::Memory;

/// What stands at the front of a text.
#[derive(Drop)]
pub(crate) enum Piece {
    /// Blanks or a comment of so many units.
    Gap(usize),
    /// A lexeme of so many units.
    Lexeme(Lexeme, usize),
    /// Nothing that the rules know.
    Flaw(LexKind),
}

/// What begins a text of at least one unit.
#[tactic(auto, unfolding(crate::specs::Reading::piece_of, crate::specs::Reading::piece_by))]
pub(crate) fn piece_of(alloc: Global, text: &[u16]) -> Result<Piece, Memory>
    requires { 0 < length text.now }
    ensures { IfOk result (λ piece. piece ≡ piece_of text.now) }
{
    match opening_of(unit_at(text, 0), unit_at(text, 1)) {
        Opening::Blank => Ok(Piece::Gap(count_blanks(text))),
        Opening::LineComment => Ok(Piece::Gap(count_in_line(text))),
        Opening::Comment => Ok(comment_piece(text)),
        Opening::Word => word_piece(alloc, text),
        Opening::Number => Ok(number_piece(text)),
        Opening::Bracket => name_piece(alloc, CLOSING_BRACKET, text),
        Opening::DoubleQuote => name_piece(alloc, DOUBLE_QUOTE, text),
        Opening::Variable => variable_piece(alloc, text),
        Opening::SystemName => system_name_piece(alloc, text),
        Opening::Text => text_piece(alloc, 1, text),
        Opening::NationalText => text_piece(alloc, 2, text),
        Opening::Sign => Ok(sign_piece(unit_at(text, 0), unit_at(text, 1))),
    }
}

/// A word, as long as its units go.
#[tactic(auto, using(crate::proofs::Runs::run_within))]
fn word_piece(alloc: Global, text: &[u16]) -> Result<Piece, Memory>
    ensures { IfOk result (λ piece. piece ≡ word_piece text.now) }
{
    let size = count_word_units(text);
    Ok(Piece::Lexeme(Lexeme::Word(front_of(alloc, text, size)?), size))
}

/// A variable: `@` and at least one unit of words.
#[tactic(auto, using(crate::proofs::Runs::run_within), unfolding(crate::specs::Reading::at_name_piece))]
fn variable_piece(alloc: Global, text: &[u16]) -> Result<Piece, Memory>
    ensures { IfOk result (λ piece. piece ≡ at_name_piece ToVariable 2 text.now) }
{
    let size = count_word_units(text);
    if size < 2 {
        return Ok(Piece::Flaw(LexKind::BadUnit));
    }
    Ok(Piece::Lexeme(Lexeme::Variable(front_of(alloc, text, size)?), size))
}

/// A system name: `@@` and at least one unit of words.
#[tactic(auto, using(crate::proofs::Runs::run_within), unfolding(crate::specs::Reading::at_name_piece))]
fn system_name_piece(alloc: Global, text: &[u16]) -> Result<Piece, Memory>
    ensures { IfOk result (λ piece. piece ≡ at_name_piece ToSystemName 3 text.now) }
{
    let size = count_word_units(text);
    if size < 3 {
        return Ok(Piece::Flaw(LexKind::BadUnit));
    }
    Ok(Piece::Lexeme(Lexeme::SystemName(front_of(alloc, text, size)?), size))
}

/// A number, as long as its digits go.
#[tactic(auto, unfolding(crate::specs::Reading::number_piece))]
fn number_piece(text: &[u16]) -> Piece
    ensures { result ≡ number_piece text.now }
{
    let size = count_digits(text);
    let (digits, _) = text.split_at(size);
    match number_of(digits) {
        Some(value) => Piece::Lexeme(Lexeme::Number(value), size),
        None => Piece::Flaw(LexKind::NumberTooBig),
    }
}

/// A name between quotes, of which this is the closing one.
#[tactic(auto, unfolding(crate::specs::Reading::name_piece))]
fn name_piece(alloc: Global, close: u16, text: &[u16]) -> Result<Piece, Memory>
    requires { 0 < length text.now }
    ensures { IfOk result (λ piece. piece ≡ name_piece close text.now) }
{
    let (_, inside) = text.split_at(1);
    Ok(match enclosed(alloc, close, inside)? {
        Some((name, size)) => {
            if is_name(name.as_slice()) {
                Piece::Lexeme(Lexeme::Quoted(name), size + 1)
            } else {
                Piece::Flaw(LexKind::OpenName)
            }
        }
        None => Piece::Flaw(LexKind::OpenName),
    })
}

/// Whether a name between quotes is none that the rules refuse: it is not empty, and ends in no space.
fn is_name(name: &[u16]) -> bool
    ensures { result ≡ is_name name.now }
{
    !name.is_empty() && name[name.len() - 1] != SPACE
}

/// A text between quotes, which so many units open.
#[tactic(auto, unfolding(crate::specs::Reading::text_piece))]
fn text_piece(alloc: Global, front: usize, text: &[u16]) -> Result<Piece, Memory>
    requires { front ≤ length text.now }
    ensures { IfOk result (λ piece. piece ≡ text_piece front text.now) }
{
    let (_, inside) = text.split_at(front);
    Ok(match enclosed(alloc, QUOTE, inside)? {
        Some((value, size)) => Piece::Lexeme(Lexeme::Text(value), front + size),
        None => Piece::Flaw(LexKind::OpenText),
    })
}

/// A comment that may nest.
#[tactic(auto, unfolding(crate::specs::Reading::comment_piece))]
fn comment_piece(text: &[u16]) -> Piece
    ensures { result ≡ comment_piece text.now }
{
    match comment_size(text) {
        Some(size) => Piece::Gap(size),
        None => Piece::Flaw(LexKind::OpenComment),
    }
}

/// The sign of two units, else the sign of one.
#[tactic(auto, unfolding(crate::specs::Reading::sign_piece))]
fn sign_piece(first: u16, second: u16) -> Piece
    ensures { result ≡ sign_piece first second }
{
    if let Some(sign) = double_sign(first, second) {
        return Piece::Lexeme(Lexeme::Sign(sign), 2);
    }
    match single_sign(first) {
        Some(sign) => Piece::Lexeme(Lexeme::Sign(sign), 1),
        None => Piece::Flaw(LexKind::BadUnit),
    }
}
