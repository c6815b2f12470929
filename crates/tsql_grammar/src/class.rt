//! Which kinds are of a class.

ghost use Rattle.std.specs.Prelude.{◌≡◌};
ghost use Rattle.tsql_grammar.specs.Terminals.{is_name, is_plain_name, admits};

use crate::place::{is_kind, same_kind};
use crate::{Class, Kind};
use tsql_lexer::Sign;

/// A name, or a word that is one where the grammar has no other use for it.
pub fn is_name(kind: Kind) -> bool
    ensures { result ≡ is_name kind }
{
    matches!(
        kind,
        Kind::Name | Kind::Dbo | Kind::Fixed(_) | Kind::Function(_) | Kind::Word(_)
    )
}

/// The same but for the names of functions.
fn is_plain_name(kind: Kind) -> bool
    ensures { result ≡ is_plain_name kind }
{
    matches!(
        kind,
        Kind::Name | Kind::Dbo | Kind::Fixed(_) | Kind::Word(_)
    )
}

/// Whether lexemes of the kind are of the class.
#[inline(always)]
pub fn admits(class: Class, kind: Kind) -> bool
    ensures { result ≡ admits class kind }
{
    match class {
        Class::One(one) => same_kind(one, kind),
        Class::Name => is_name(kind),
        Class::OtherName => is_name(kind) && !same_kind(Kind::Dbo, kind),
        Class::PlainName => is_plain_name(kind),
        Class::Semicolon => {
            same_kind(Kind::Sign(Sign::Semicolon), kind) || same_kind(Kind::BeforeElse, kind)
        }
    }
}

/// The same without a call, for the recognizer's loop.
#[inline(always)]
pub fn takes(class: Class, kind: Kind) -> bool
    ensures { result ≡ admits class kind }
{
    match class {
        Class::One(one) => is_kind(one, kind),
        _ => admits(class, kind),
    }
}
