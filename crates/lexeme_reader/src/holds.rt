//! What a lexeme holds.

ghost use Rattle.std.specs.Prelude.{◌≡◌, IfOk};
ghost use Rattle.tsql_grammar.specs.Terminals.{units_of, number_of};

use std::alloc::Global;
use tsql_lexer::Lexeme;
use value_types::{Memory, Units};

/// The units that a lexeme holds: of a name, a variable or a text.
pub fn units_of(alloc: Global, lexeme: &Lexeme) -> Result<Units, Memory>
    ensures { IfOk result (λ units. units ≡ units_of lexeme.now) }
{
    match lexeme {
        Lexeme::Word(units) => units.copy(alloc),
        Lexeme::Quoted(units) => units.copy(alloc),
        Lexeme::Variable(units) => units.copy(alloc),
        Lexeme::SystemName(units) => units.copy(alloc),
        Lexeme::Text(units) => units.copy(alloc),
        Lexeme::Number(_) => Ok(Units::new(alloc)),
        Lexeme::Sign(_) => Ok(Units::new(alloc)),
    }
}

/// The number that a lexeme is.
pub fn number_of(lexeme: &Lexeme) -> i64
    ensures { result ≡ number_of lexeme.now }
{
    match lexeme {
        Lexeme::Number(number) => *number,
        _ => 0,
    }
}
