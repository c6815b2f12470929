//! Batches and definitions as whole texts.

ghost use Rattle.std.specs.Prelude.{◌≡◌, None, Ok, IfOk};
ghost use Rattle.tsql_grammar.specs.declared.rule.Rule.TheVariants as r;
ghost use Rattle.tsql_grammar.specs.Productions.{Tree};
ghost use Rattle.tsql_lexer.specs.Reading.{lexing_of};
ghost use Rattle.tsql_grammar.specs.Parsed.{Stands, BatchOf, DefinitionOf};

use crate::judge::judge;
use crate::place::end_of;
use lexeme_reader::{Lexemes, ReadFault};
use statement_reader::{read_batch, read_definition};
use std::alloc::Global;
use tsql_grammar::{ParseFault, Rule};
use tsql_lexer::{Lexing, lexing_of};
use tsql_tree::{Batch, Definition};
use value_types::{Memory, Units};

/// How many units are too many.
const TOO_MANY: usize = 1 << 31;

/// The batch that a text is, or the first thing that is wrong with the text.
pub fn parse_batch(alloc: Global, text: &Units) -> Result<Batch, ParseFault>
    ensures { BatchOf text.now result }
{
    let lexing = lex(alloc, text)?;
    judge(alloc, text, &lexing, Rule::Batch)?;
    let batch = whole_batch(alloc, text, &lexing)?;
    Ok(batch)
}

/// The definition that a text is, or the first thing that is wrong with the text. Nothing stands behind
/// it.
pub fn parse_definition(alloc: Global, text: &Units) -> Result<Definition, ParseFault>
    ensures { DefinitionOf text.now result }
{
    let lexing = lex(alloc, text)?;
    judge(alloc, text, &lexing, Rule::Definition)?;
    let definition = whole_definition(alloc, text, &lexing)?;
    Ok(definition)
}

/// The lexemes of a text in front of its first flaw, and that flaw.
fn lex(alloc: Global, text: &Units) -> Result<Lexing, Memory>
    ensures { IfOk result (λ lexing. (lexing.lexemes.items, lexing.flaw) ≡ lexing_of text.now) }
{
    if text.len() >= TOO_MANY {
        return Err(Memory);
    }
    lexing_of(alloc, text)
}

/// The batch that a text is which was judged to be one.
fn whole_batch(alloc: Global, text: &Units, lexing: &Lexing) -> Result<Batch, Memory>
    requires lexed { (lexing.now.lexemes.items, lexing.now.flaw) ≡ lexing_of text.now }
    requires stands { (tree : Tree r.Batch) × Stands r.Batch text.now tree None }
    ensures { IfOk result (λ batch. BatchOf text.now (Ok batch)) }
{
    let lexemes = lexing.lexemes.as_slice();
    match read_batch(alloc, text, &mut Lexemes::new(lexemes), end_of(lexemes)) {
        Ok(batch) => Ok(batch),
        Err(ReadFault::NoRoom) => Err(Memory),
        Err(ReadFault::Refused) => unreachable!(),
    }
}

/// The definition that a text is which was judged to be one.
fn whole_definition(alloc: Global, text: &Units, lexing: &Lexing) -> Result<Definition, Memory>
    requires lexed { (lexing.now.lexemes.items, lexing.now.flaw) ≡ lexing_of text.now }
    requires stands { (tree : Tree r.Definition) × Stands r.Definition text.now tree None }
    ensures { IfOk result (λ definition. DefinitionOf text.now (Ok definition)) }
{
    let lexemes = lexing.lexemes.as_slice();
    match read_definition(alloc, text, &mut Lexemes::new(lexemes)) {
        Ok(definition) => Ok(definition),
        Err(ReadFault::NoRoom) => Err(Memory),
        Err(ReadFault::Refused) => unreachable!(),
    }
}
