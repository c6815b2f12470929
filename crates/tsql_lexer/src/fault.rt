//! Why a text has no lexemes, or none from some place on.

ghost use Rattle.std.specs.Prelude.{◌≡◌};
ghost use Rattle.tsql_lexer.specs.declared.fault.LexFault.TheVariants.{Memory as NoMemory};

use thiserror::Error;
use value_types::Memory;

/// Which rule no text keeps that goes on as this one does.
#[derive(Clone, Copy, Debug, Error)]
pub enum LexKind {
    /// A text that no quote closes.
    #[error("a text is not closed")]
    OpenText,
    /// A comment that no `*/` closes.
    #[error("a comment is not closed")]
    OpenComment,
    /// A quoted name that nothing closes, that is empty, or that ends in a space.
    #[error("a quoted name is not closed, empty, or ends in a space")]
    OpenName,
    /// A number above 9223372036854775807.
    #[error("a number is too big")]
    NumberTooBig,
    /// A unit that begins no lexeme and no comment where it stands.
    #[error("a unit begins nothing")]
    BadUnit,
}

/// The first place of a text where the lexical rules fail.
#[derive(Clone, Copy)]
pub struct Flaw {
    /// How many units stand before it.
    pub at: u32,
    /// Its line, counted from 1.
    pub line: u32,
    /// Which rule fails.
    pub kind: LexKind,
}

/// Why a text has no list of lexemes.
#[derive(Clone, Copy, Debug, Error)]
pub enum LexFault {
    /// The lexical rules fail, at this place first.
    #[error("{kind}, at unit {at} in line {line}")]
    Bad {
        /// How many units stand before it.
        at: u32,
        /// Its line, counted from 1.
        line: u32,
        /// Which rule fails.
        kind: LexKind,
    },
    /// Memory was wanting.
    #[error("memory was wanting")]
    Memory,
}

impl From<Memory> for LexFault {
    ghost from_gives = { λ _ fault. fault ≡ NoMemory };

    fn from(_e: Memory) -> LexFault {
        LexFault::Memory
    }
}
