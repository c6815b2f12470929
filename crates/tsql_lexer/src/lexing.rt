//! Reading a whole text.

ghost use Rattle.std.specs.Prelude.{◌≡◌, ◌<◌, ◌^◌, IfOk, IfErr, None, length};
ghost use Rattle.tsql_lexer.specs.Reading.{lexing_of};
ghost use Rattle.tsql_lexer.specs.Answer.{IsFaultOf};

use crate::classes::count_line_feeds;
use crate::fault::{Flaw, LexFault};
use crate::lexeme::Spanned;
use crate::piece::{Piece, piece_of};
use std::alloc::Global;
use value_types::{Memory, Units};

/// The lexemes of a text in front of its first flaw, and that flaw, where it has one.
#[derive(Drop)]
pub struct Lexing {
    /// The lexemes in order.
    pub lexemes: Vec<Spanned>,
    /// The first place where the lexical rules fail.
    pub flaw: Option<Flaw>,
}

/// The lexemes of a text in front of its first flaw, and that flaw, where it has one.
pub fn lexing_of(alloc: Global, text: &Units) -> Result<Lexing, Memory>
    requires { length text.now < 2 ^ 31 }
    ensures { IfOk result (λ lexing. (lexing.lexemes.items, lexing.flaw) ≡ lexing_of text.now) }
{
    let units = text.as_slice();
    let mut lexemes = Vec::new(alloc);
    let mut at: usize = 0;
    let mut line: usize = 1;
    while at < units.len() {
        let (_, rest) = units.split_at(at);
        let size = match piece_of(alloc, rest)? {
            Piece::Gap(size) => size,
            Piece::Lexeme(lexeme, size) => {
                lexemes.push(Spanned {
                    lexeme,
                    start: at as u32,
                    end: (at + size) as u32,
                    line: line as u32,
                })?;
                size
            }
            Piece::Flaw(kind) => {
                let flaw = Flaw {
                    at: at as u32,
                    line: line as u32,
                    kind,
                };
                return Ok(Lexing {
                    lexemes,
                    flaw: Some(flaw),
                });
            }
        };
        let (part, _) = rest.split_at(size);
        line += count_line_feeds(part);
        at += size;
    }
    Ok(Lexing {
        lexemes,
        flaw: None,
    })
}

/// The lexemes of a text, or the first place where the lexical rules fail.
pub fn lex(alloc: Global, text: &Units) -> Result<Vec<Spanned>, LexFault>
    requires { length text.now < 2 ^ 31 }
    ensures lexemes { IfOk result (λ lexemes. (lexemes.items, None) ≡ lexing_of text.now) }
    ensures fault { IfErr result (λ fault. IsFaultOf fault (lexing_of text.now).1) }
{
    let lexing = lexing_of(alloc, text)?;
    match lexing.flaw {
        None => Ok(lexing.lexemes),
        Some(flaw) => Err(LexFault::Bad {
            at: flaw.at,
            line: flaw.line,
            kind: flaw.kind,
        }),
    }
}
