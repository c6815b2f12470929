//! Where a refusal stands among the lexemes, and what it shows of them.

ghost use Rattle.std.specs.Prelude.{◌≡◌, IfOk};
ghost use Rattle.std.specs.Fmt.{signed_decimal};
ghost use Rattle.query_parser.specs.Parsed.{line_at, near_at, shown, last_line, first_of};
ghost use Rattle.tsql_lexer.specs.Signs.{sign_spellings};

use itoa::Buffer;
use std::alloc::Global;
use tsql_lexer::{Lexeme, Sign, Spanned};
use value_types::{Memory, Units};

/// The line of the lexeme at a place; past the last lexeme it is that one's, or 1.
pub(crate) fn line_at(lexemes: &[Spanned], at: usize) -> u32
    ensures { result ≡ line_at lexemes.now at }
{
    match lexemes.get(at) {
        Some(spanned) => spanned.line,
        None => last_line(lexemes),
    }
}

/// The line of the last lexeme, or 1.
fn last_line(lexemes: &[Spanned]) -> u32
    ensures { result ≡ last_line 1 lexemes.now }
{
    let mut line = 1;
    for spanned in lexemes {
        line = spanned.line;
    }
    line
}

/// What the lexeme at a place holds; past the last there is nothing.
pub(crate) fn near_at(alloc: Global, lexemes: &[Spanned], at: usize) -> Result<Units, Memory>
    ensures { IfOk result (λ near. near ≡ near_at lexemes.now at) }
{
    match lexemes.get(at) {
        Some(spanned) => shown(alloc, &spanned.lexeme),
        None => Ok(Units::new(alloc)),
    }
}

/// What a lexeme holds, as it is shown.
fn shown(alloc: Global, lexeme: &Lexeme) -> Result<Units, Memory>
    ensures { IfOk result (λ units. units ≡ shown lexeme.now) }
{
    match lexeme {
        Lexeme::Word(units) => units.copy(alloc),
        Lexeme::Quoted(units) => units.copy(alloc),
        Lexeme::Variable(units) => units.copy(alloc),
        Lexeme::SystemName(units) => units.copy(alloc),
        Lexeme::Text(units) => units.copy(alloc),
        Lexeme::Number(number) => digits_of(alloc, *number),
        Lexeme::Sign(sign) => spelling_of(alloc, *sign),
    }
}

/// A number in decimal.
fn digits_of(alloc: Global, number: i64) -> Result<Units, Memory>
    ensures { IfOk result (λ units. units ≡ signed_decimal number) }
{
    let mut buffer = Buffer::new();
    Ok(Units::of_ascii(alloc, buffer.format(number).as_bytes())?)
}

/// The first spelling of a sign.
fn spelling_of(alloc: Global, sign: Sign) -> Result<Units, Memory>
    ensures { IfOk result (λ units. units ≡ first_of (sign_spellings sign)) }
{
    match sign {
        Sign::Open => Units::of_ascii(alloc, b"("),
        Sign::Close => Units::of_ascii(alloc, b")"),
        Sign::Comma => Units::of_ascii(alloc, b","),
        Sign::Dot => Units::of_ascii(alloc, b"."),
        Sign::Semicolon => Units::of_ascii(alloc, b";"),
        Sign::Plus => Units::of_ascii(alloc, b"+"),
        Sign::Minus => Units::of_ascii(alloc, b"-"),
        Sign::Star => Units::of_ascii(alloc, b"*"),
        Sign::Slash => Units::of_ascii(alloc, b"/"),
        Sign::Percent => Units::of_ascii(alloc, b"%"),
        Sign::Equal => Units::of_ascii(alloc, b"="),
        Sign::NotEqual => Units::of_ascii(alloc, b"<>"),
        Sign::Less => Units::of_ascii(alloc, b"<"),
        Sign::LessEqual => Units::of_ascii(alloc, b"<="),
        Sign::Greater => Units::of_ascii(alloc, b">"),
        Sign::GreaterEqual => Units::of_ascii(alloc, b">="),
    }
}
