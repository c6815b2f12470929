//! The grammar of Transact-SQL, as far as this server reads it.
//!
//! Read `specs/Productions.antt` first, beside `docs/LANGUAGE.md`: it has each production with the
//! tree that it stands for. `specs/Language.antt` says which texts are of a rule, and where a text
//! stops; `specs/Noted.antt` what is wrong with a text that reads. The layers above rely on the laws,
//! which are the `law_` functions: no text stands for two trees, or has two outcomes when it is parsed
//! whole (`specs/Parsed.antt`), what reads can be cut into the pieces of its productions, reading by
//! descent gives its tree, and a test is read as it is written (`specs/BasicTest.antt`), though the
//! table counts its parentheses, and the kind of a semicolon before ELSE moves nothing
//! (`specs/PlainText.antt`); and on [`kind_of`], which says what a lexeme is to the grammar,
//! [`same_kind`] and [`admits`], which compare kinds. That one lexeme ahead tells which production to
//! take is tried for every rule and every kind of lexeme (`proofs/RuleTests.antt`).
#![tactic(auto)]

mod class;
mod fault;
mod kind;
mod laws;
mod noted;
mod place;
mod rule;
mod words;

pub use class::{admits, is_name, takes};
pub use fault::ParseFault;
pub use kind::{Function, Kind, Reserved, Word};
pub use laws::{
    law_basic, law_descent, law_one_outcome, law_one_reading, law_pieces, law_plain_reads,
    law_plain_stops,
};
pub use noted::TextFault;
pub use place::same_kind;
pub use rule::{Around, Class, Mark, Rule};
pub use words::{is_date_order, is_language, kind_of};
