//! Which units are blanks, digits and units of words, and runs of them at the front of a text.

ghost use Rattle.std.specs.Prelude.{◌≡◌, ◌≤◌, ◌==◌, IfOk, length, take, slice_index, count_by};
ghost use Rattle.std.specs.List.{prefix_len};
ghost use Rattle.tsql_lexer.specs.Classes.{is_blank, is_digit, is_word_start, is_word_unit, stays_in_line, line_feed};

use std::alloc::Global;
use value_types::{Memory, Units};

/// The unit at which a line ends.
const LINE_FEED: u16 = 0x0A;

const TAB: u16 = 0x09;

const CARRIAGE_RETURN: u16 = 0x0D;

pub(crate) const SPACE: u16 = 0x20;

pub(crate) const DIGIT_ZERO: u16 = 0x30;

const DIGIT_NINE: u16 = 0x39;

pub(crate) const AT: u16 = 0x40;

const NUMBER_SIGN: u16 = 0x23;

const DOLLAR: u16 = 0x24;

const UNDERSCORE: u16 = 0x5F;

/// Tab, line feed, carriage return and space.
pub(crate) fn is_blank(unit: u16) -> bool
    ensures { result ≡ is_blank unit }
{
    unit == TAB || unit == LINE_FEED || unit == CARRIAGE_RETURN || unit == SPACE
}

/// A unit that ends no line.
fn stays_in_line(unit: u16) -> bool
    ensures { result ≡ stays_in_line unit }
{
    unit != LINE_FEED
}

/// 0 to 9.
pub(crate) fn is_digit(unit: u16) -> bool
    ensures { result ≡ is_digit unit }
{
    (DIGIT_ZERO..=DIGIT_NINE).contains(&unit)
}

/// A to Z, a to z, and `_`.
pub(crate) fn is_word_start(unit: u16) -> bool
    ensures { result ≡ is_word_start unit }
{
    (0x41..=0x5A).contains(&unit) || (0x61..=0x7A).contains(&unit) || unit == UNDERSCORE
}

/// What a word goes on with.
fn is_word_unit(unit: u16) -> bool
    ensures { result ≡ is_word_unit unit }
{
    is_word_start(unit) || is_digit(unit) || unit == AT || unit == DOLLAR || unit == NUMBER_SIGN
}

/// How many blanks a text begins with.
pub(crate) fn count_blanks(text: &[u16]) -> usize
    ensures { result ≡ prefix_len is_blank text.now }
{
    text.iter().take_while(|unit| is_blank(**unit)).count()
}

/// How many units a text has before its first line feed.
pub(crate) fn count_in_line(text: &[u16]) -> usize
    ensures { result ≡ prefix_len stays_in_line text.now }
{
    text.iter().take_while(|unit| stays_in_line(**unit)).count()
}

/// How many digits a text begins with.
pub(crate) fn count_digits(text: &[u16]) -> usize
    ensures { result ≡ prefix_len is_digit text.now }
{
    text.iter().take_while(|unit| is_digit(**unit)).count()
}

/// How many units of words a text begins with.
pub(crate) fn count_word_units(text: &[u16]) -> usize
    ensures { result ≡ prefix_len is_word_unit text.now }
{
    text.iter().take_while(|unit| is_word_unit(**unit)).count()
}

/// How many line feeds a text has.
pub(crate) fn count_line_feeds(text: &[u16]) -> usize
    ensures { result ≡ count_by (λ unit. unit == line_feed) text.now }
{
    text.iter().filter(|unit| **unit == LINE_FEED).count()
}

/// The unit at a place, or 0 where the text has none.
pub(crate) fn unit_at(text: &[u16], place: usize) -> u16
    ensures { result ≡ slice_index text.now place }
{
    text.get(place).copied().unwrap_or(0)
}

/// The first units of a text, so many of them.
pub(crate) fn front_of(alloc: Global, text: &[u16], size: usize) -> Result<Units, Memory>
    requires { size ≤ length text.now }
    ensures { IfOk result (λ front. front ≡ take size text.now) }
{
    let (front, _) = text.split_at(size);
    Ok(Units::from(Vec::from_slice(alloc, front)?))
}
