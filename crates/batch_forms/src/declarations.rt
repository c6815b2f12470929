//! Statements as drivers send them: what their declarations are read as, and the text by which they are run.

ghost use Rattle.std.specs.Prelude.{◌≡◌, ◌++◌, IfOk, drop, false, map};
ghost use Rattle.value_types.specs.Units.{same_units};
ghost use Rattle.tsql_grammar.specs.Parsed.{lexemes_of};
ghost use Rattle.tsql_grammar.specs.Trees.{slice};
ghost use Rattle.tsql_grammar.specs.Words.{capital};
ghost use Rattle.batch_meaning.specs.Drivers.{declared_as, declared_from, is_batch, is_creating, is_defining, is_open, longest_for, number_for, or_own, size_for, source_for, stands_for, type_for, word_for};

use crate::calls::sql_text;
use batch_meaning::Way;
use std::alloc::Global;
use tsql_grammar::{Kind, Reserved, kind_of, same_kind};
use tsql_lexer::{Lexeme, Sign, Spanned, lexing_of};
use value_types::{Memory, Units};

/// How many units are too many for a text.
const TOO_MANY: usize = 1 << 31;

/// How a statement with its declarations is run, where so many parameters in front are not its, and by which text.
pub(crate) fn source_for(
    alloc: Global,
    own: u8,
    declarations: &[u16],
    statement: &[u16],
) -> Result<(Way, Units), Memory>
    ensures { IfOk result (λ source. source ≡ source_for own declarations.now statement.now) }
{
    let is_batch = is_batch(alloc, declarations, statement)?;
    if is_batch {
        Ok((Way::RunsBatch, units_of(alloc, statement)?))
    } else {
        let declared = declared_as(alloc, declarations)?;
        let text = sql_text(alloc, declared.as_slice(), statement)?;
        Ok((Way::RunsRead(own), text))
    }
}

/// Whether a statement is a definition, and nothing is declared for it.
fn is_batch(alloc: Global, declarations: &[u16], statement: &[u16]) -> Result<bool, Memory>
    ensures { IfOk result (λ is. is ≡ is_batch declarations.now statement.now) }
{
    if !declarations.is_empty() {
        return Ok(false);
    }
    let text = units_of(alloc, statement)?;
    let lexemes = lexemes_of(alloc, &text)?;
    Ok(is_defining(lexemes.as_slice()))
}

/// Whether CREATE PROCEDURE or CREATE TRIGGER stands in front.
fn is_defining(lexemes: &[Spanned]) -> bool
    ensures { result ≡ is_defining lexemes.now }
{
    match lexemes {
        [] => false,
        [_] => false,
        [first, second, ..] => is_creating(kind_of(&first.lexeme), kind_of(&second.lexeme)),
    }
}

/// Whether these are CREATE, and PROCEDURE or TRIGGER.
fn is_creating(first: Kind, second: Kind) -> bool
    ensures { result ≡ is_creating first second }
{
    same_kind(first, Kind::Reserved(Reserved::Create))
        && (same_kind(second, Kind::Reserved(Reserved::Procedure))
            || same_kind(second, Kind::Reserved(Reserved::Trigger)))
}

/// The lexemes of a text.
fn lexemes_of(alloc: Global, text: &Units) -> Result<Vec<Spanned>, Memory>
    ensures { IfOk result (λ lexemes. lexemes.items ≡ lexemes_of text.now) }
{
    if TOO_MANY <= text.len() {
        return Err(Memory);
    }
    let lexing = lexing_of(alloc, text)?;
    Ok(lexing.lexemes)
}

/// The same units.
fn units_of(alloc: Global, units: &[u16]) -> Result<Units, Memory>
    ensures { IfOk result (λ text. text ≡ units.now) }
{
    Ok(Units::from(Vec::from_slice(alloc, units)?))
}

// ---- declarations

/// What declarations are read as.
fn declared_as(alloc: Global, declarations: &[u16]) -> Result<Units, Memory>
    ensures { IfOk result (λ declared. declared ≡ declared_as declarations.now) }
{
    let text = units_of(alloc, declarations)?;
    let lexemes = lexemes_of(alloc, &text)?;
    declared_from(alloc, declarations, lexemes.as_slice())
}

/// The text with these lexemes, each as what it is read as.
fn declared_from(alloc: Global, text: &[u16], lexemes: &[Spanned]) -> Result<Units, Memory>
    ensures { IfOk result (λ declared. declared ≡ declared_from text.now 0 false lexemes.now) }
{
    let mut declared = Vec::new(alloc);
    let mut at = 0;
    let mut opened = false;
    for spanned in lexemes {
        add_lexeme(alloc, &mut declared, text, at, opened, spanned)?;
        at = spanned.end;
        opened = is_open(&spanned.lexeme);
    }
    declared.extend_from_slice(behind(text, at))?;
    Ok(Units::from(declared))
}

/// Adds what stands in front of a lexeme, and what that is read as.
fn add_lexeme(
    alloc: Global,
    declared: &mut Vec<u16>,
    text: &[u16],
    at: u32,
    opened: bool,
    spanned: &Spanned,
) -> Result<(), Memory>
    ensures { IfOk result (λ done. declared.new.items ≡ declared.old.items ++ (slice text.now at spanned.now.start ++ or_own (slice text.now spanned.now.start spanned.now.end) (stands_for opened spanned.now.lexeme))) }
{
    declared.extend_from_slice(slice(text, at, spanned.start))?;
    match stands_for(alloc, opened, &spanned.lexeme)? {
        Some(other) => Ok(declared.extend_from_slice(other.as_slice())?),
        None => Ok(declared.extend_from_slice(slice(text, spanned.start, spanned.end))?),
    }
}

/// Whether it is a `(`, behind which a size stands.
fn is_open(lexeme: &Lexeme) -> bool
    ensures { result ≡ is_open lexeme.now }
{
    match lexeme {
        Lexeme::Sign(Sign::Open) => true,
        _ => false,
    }
}

/// What a lexeme of declarations is read as, if it does not stand for itself.
fn stands_for(alloc: Global, opened: bool, lexeme: &Lexeme) -> Result<Option<Units>, Memory>
    ensures { IfOk result (λ other. other ≡ stands_for opened lexeme.now) }
{
    if opened {
        size_for(alloc, lexeme)
    } else {
        word_for(alloc, lexeme)
    }
}

/// The same of a size.
fn size_for(alloc: Global, lexeme: &Lexeme) -> Result<Option<Units>, Memory>
    ensures { IfOk result (λ other. other ≡ size_for lexeme.now) }
{
    match lexeme {
        Lexeme::Word(word) => longest_for(alloc, word.as_slice()),
        Lexeme::Number(number) => number_for(alloc, *number),
        _ => Ok(None),
    }
}

/// The same of a word that is no size.
fn word_for(alloc: Global, lexeme: &Lexeme) -> Result<Option<Units>, Memory>
    ensures { IfOk result (λ other. other ≡ word_for lexeme.now) }
{
    match lexeme {
        Lexeme::Word(word) => type_for(alloc, word.as_slice()),
        _ => Ok(None),
    }
}

/// What the words of types are read as.
fn type_for(alloc: Global, word: &[u16]) -> Result<Option<Units>, Memory>
    ensures { IfOk result (λ other. other ≡ type_for (map capital word.now)) }
{
    if is_spelling(b"VARCHAR", word) {
        return Ok(Some(Units::of_ascii(alloc, b"NVARCHAR")?));
    }
    if is_spelling(b"CHAR", word) {
        return Ok(Some(Units::of_ascii(alloc, b"NVARCHAR")?));
    }
    if is_spelling(b"NCHAR", word) {
        return Ok(Some(Units::of_ascii(alloc, b"NVARCHAR")?));
    }
    if is_spelling(b"TEXT", word) {
        return Ok(Some(Units::of_ascii(alloc, b"NVARCHAR(4000)")?));
    }
    if is_spelling(b"NTEXT", word) {
        return Ok(Some(Units::of_ascii(alloc, b"NVARCHAR(4000)")?));
    }
    Ok(None)
}

/// What MAX is read as.
fn longest_for(alloc: Global, word: &[u16]) -> Result<Option<Units>, Memory>
    ensures { IfOk result (λ other. other ≡ longest_for (map capital word.now)) }
{
    if is_spelling(b"MAX", word) {
        Ok(Some(Units::of_ascii(alloc, b"4000")?))
    } else {
        Ok(None)
    }
}

/// What a size is read as: one of bytes above 4,000 is 4,000.
fn number_for(alloc: Global, number: i64) -> Result<Option<Units>, Memory>
    ensures { IfOk result (λ other. other ≡ number_for number) }
{
    if (4001..=8000).contains(&number) {
        Ok(Some(Units::of_ascii(alloc, b"4000")?))
    } else {
        Ok(None)
    }
}

/// Whether a word has these capitals.
fn is_spelling(mut capitals: &[u8], mut word: &[u16]) -> bool
    ensures { result ≡ same_units capitals.entry.now (map capital word.entry.now) }
{
    while let [letter, letters @ ..] = capitals {
        let [unit, units @ ..] = word else {
            return false;
        };
        if u16::from(*letter) != capital(*unit) {
            return false;
        }
        capitals = letters;
        word = units;
    }
    word.is_empty()
}

/// The capital of a unit, if it is one of the letters a to z.
fn capital(unit: u16) -> u16
    ensures { result ≡ capital unit }
{
    if (0x61..=0x7A).contains(&unit) {
        unit - 0x20
    } else {
        unit
    }
}

/// The units from a place to another.
fn slice(units: &[u16], from: u32, to: u32) -> &[u16]
    ensures { result.now ≡ slice units.now from to }
{
    let rest = behind(units, from);
    let size = (to.saturating_sub(from) as usize).min(rest.len());
    let (part, _behind) = rest.split_at(size);
    part
}

/// The units from a place on.
fn behind(units: &[u16], from: u32) -> &[u16]
    ensures { result.now ≡ drop from units.now }
{
    let (_front, rest) = units.split_at((from as usize).min(units.len()));
    rest
}
