//! Signs of two units and of one.

ghost use Rattle.std.specs.Prelude.{◌≡◌};
ghost use Rattle.tsql_lexer.specs.Reading.{double_sign, single_sign};

use crate::lexeme::Sign;

pub(crate) const HYPHEN: u16 = 0x2D;

pub(crate) const SLASH: u16 = 0x2F;

pub(crate) const STAR: u16 = 0x2A;

const EXCLAMATION: u16 = 0x21;

const PERCENT: u16 = 0x25;

const OPEN: u16 = 0x28;

const CLOSE: u16 = 0x29;

const PLUS: u16 = 0x2B;

const COMMA: u16 = 0x2C;

const DOT: u16 = 0x2E;

const SEMICOLON: u16 = 0x3B;

const LESS: u16 = 0x3C;

const EQUAL: u16 = 0x3D;

const GREATER: u16 = 0x3E;

/// The sign of two units, if they are one.
#[tactic(auto, unfolding(crate::specs::Reading::double_sign))]
pub(crate) fn double_sign(first: u16, second: u16) -> Option<Sign>
    ensures { result ≡ double_sign first second }
{
    match (first, second) {
        (LESS, GREATER) => Some(Sign::NotEqual),
        (EXCLAMATION, EQUAL) => Some(Sign::NotEqual),
        (LESS, EQUAL) => Some(Sign::LessEqual),
        (GREATER, EQUAL) => Some(Sign::GreaterEqual),
        _ => None,
    }
}

/// The sign of one unit, if it is one.
#[tactic(auto, unfolding(crate::specs::Reading::single_sign))]
pub(crate) fn single_sign(unit: u16) -> Option<Sign>
    ensures { result ≡ single_sign unit }
{
    match unit {
        OPEN => Some(Sign::Open),
        CLOSE => Some(Sign::Close),
        COMMA => Some(Sign::Comma),
        DOT => Some(Sign::Dot),
        SEMICOLON => Some(Sign::Semicolon),
        PLUS => Some(Sign::Plus),
        HYPHEN => Some(Sign::Minus),
        STAR => Some(Sign::Star),
        SLASH => Some(Sign::Slash),
        PERCENT => Some(Sign::Percent),
        EQUAL => Some(Sign::Equal),
        LESS => Some(Sign::Less),
        GREATER => Some(Sign::Greater),
        _ => None,
    }
}
