//! What the first units of a text open.

ghost use Rattle.std.specs.Prelude.{◌≡◌};
ghost use Rattle.tsql_lexer.specs.Reading.{opening_of};

use crate::classes::{AT, is_blank, is_digit, is_word_start};
use crate::signs::{HYPHEN, SLASH, STAR};

/// What the first two units of a text open.
#[derive(Clone, Copy)]
pub(crate) enum Opening {
    /// Blanks.
    Blank,
    /// A comment to the end of its line.
    LineComment,
    /// A comment that may nest.
    Comment,
    /// A word.
    Word,
    /// A number.
    Number,
    /// A name in brackets.
    Bracket,
    /// A name in double quotes.
    DoubleQuote,
    /// A variable.
    Variable,
    /// A system name.
    SystemName,
    /// A text behind `'`.
    Text,
    /// A text behind `N'`.
    NationalText,
    /// A sign, or nothing.
    Sign,
}

/// `[`, which opens a name.
const BRACKET: u16 = 0x5B;

/// `]`, which closes it.
pub(crate) const CLOSING_BRACKET: u16 = 0x5D;

/// `"`, which opens a name and closes it.
pub(crate) const DOUBLE_QUOTE: u16 = 0x22;

/// `'`, which opens a text and closes it.
pub(crate) const QUOTE: u16 = 0x27;

/// `N`, which opens a text where `'` stands behind it.
const NATIONAL: u16 = 0x4E;

/// What two units open; 0 stands for a unit that is not there.
#[tactic(auto, unfolding(crate::specs::Reading::opening_of))]
pub(crate) fn opening_of(first: u16, second: u16) -> Opening
    ensures { result ≡ opening_of first second }
{
    if is_blank(first) {
        Opening::Blank
    } else if first == HYPHEN && second == HYPHEN {
        Opening::LineComment
    } else if first == SLASH && second == STAR {
        Opening::Comment
    } else if first == NATIONAL && second == QUOTE {
        Opening::NationalText
    } else if is_word_start(first) {
        Opening::Word
    } else if is_digit(first) {
        Opening::Number
    } else if first == BRACKET {
        Opening::Bracket
    } else if first == DOUBLE_QUOTE {
        Opening::DoubleQuote
    } else if first == QUOTE {
        Opening::Text
    } else if first == AT && second == AT {
        Opening::SystemName
    } else if first == AT {
        Opening::Variable
    } else {
        Opening::Sign
    }
}
