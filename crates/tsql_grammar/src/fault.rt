//! Why lexemes give no tree.

ghost use Rattle.std.specs.Prelude.{◌≡◌};
ghost use Rattle.tsql_grammar.specs.declared.fault.ParseFault.TheVariants.{Memory as NoMemory};

use value_types::{Memory, Units};

/// Why lexemes give no tree.
#[derive(Drop)]
pub enum ParseFault {
    /// An error of the language.
    Refused {
        /// Its number.
        number: i32,
        /// The line at which it stands, counted from 1.
        line: u32,
        /// What is shown of the place; each call says what.
        near: Units,
    },
    /// Memory was wanting.
    Memory,
}

impl From<Memory> for ParseFault {
    ghost from_gives = { λ _ fault. fault ≡ NoMemory };

    fn from(_memory: Memory) -> Self {
        ParseFault::Memory
    }
}
