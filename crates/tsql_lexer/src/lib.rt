//! The lexemes of Transact-SQL: words, quoted names, variables, numbers, texts and signs, each with its
//! place, and the first place where the lexical rules fail.
//!
//! Read `specs/Lexemes.antt` first, then `specs/Parts.antt`. The layers above rely on [`lex`] giving all
//! lexemes of a text or the first place where the rules fail, and on [`lexing_of`] giving beside that
//! place the lexemes in front of it. What they give is what the rules say, and nothing else
//! ([`law_lexing`]): a text is cut into lexemes, blanks and comments up to its end or to a place where
//! none of these begins. A lexeme has as many units as it can have ([`law_longest`]). A text has fewer
//! than 2^31 units. That long texts are read in a time that grows with their length is only tested.
//!
//! ```text
//! let lexing = lexing_of(alloc, &text)?;
//! let batch = parse(alloc, lexing.lexemes.as_slice())?;
//! if let Some(flaw) = lexing.flaw {
//!     return Err(refused(flaw.line, flaw.kind));
//! }
//! ```
#![tactic(auto)]

mod classes;
mod comments;
mod fault;
mod laws;
mod lexeme;
mod lexing;
mod numbers;
mod opening;
mod piece;
mod quotes;
mod signs;

pub use fault::{Flaw, LexFault, LexKind};
pub use laws::{law_lexing, law_longest};
pub use lexeme::{Lexeme, Sign, Spanned};
pub use lexing::{Lexing, lex, lexing_of};
