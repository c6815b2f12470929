//! Texts: what one is read as, by its tree.

ghost use Rattle.std.specs.Prelude.{◌≡◌, Err, IfOk, pos};
ghost use Rattle.batch_meaning.specs.Meaning.{vars_in_text};
ghost use Rattle.batch_meaning.specs.declared.form.ReadText.TheVariants.{Defines, Statements};
ghost use Rattle.batch_meaning.specs.Statements.{IsRead, ReadsAs, text_of};
ghost use Rattle.tsql_grammar.specs.declared.fault.ParseFault.TheVariants.{Refused as RefusedFault};

use crate::variables::vars_of;
use batch_meaning::ReadText;
use session_vars::Vars;
use sqlite_items::Items;
use std::alloc::Global;
use stmt_parser::{ParseFault, parse_batch};
use tsql_tree::{Batch, Definition, Statement};
use value_types::{Memory, Units};

/// What a text is read as, and the variables that it declares.
pub fn read_text(alloc: Global, text: &Units) -> Result<(ReadText, Vars), Memory>
    ensures read { IfOk result (λ read. ReadsAs text.now read.0) }
    ensures vars { IfOk result (λ read. read.1 ≡ vars_in_text read.0) }
{
    match parse_batch(alloc, text) {
        Ok(batch) => text_of(alloc, batch),
        Err(ParseFault::Refused { number, line, near }) => {
            Ok((refused(number, line, near)?, Vars::new(alloc)))
        }
        Err(ParseFault::Memory) => Err(Memory),
    }
}

/// A text that is refused tells why.
fn refused(number: i32, line: u32, near: Units) -> Result<ReadText, Memory>
    ensures { IfOk result (IsRead (Err (RefusedFault number line near))) }
{
    let Ok(code) = u16::try_from(number) else {
        return Err(Memory);
    };
    let Ok(line) = i32::try_from(line) else {
        return Err(Memory);
    };
    Ok(ReadText::Refused { line, code, near })
}

/// What the text of a batch is read as.
fn text_of(alloc: Global, batch: Batch) -> Result<(ReadText, Vars), Memory>
    ensures text { IfOk result (λ read. read.0 ≡ text_of batch) }
    ensures vars { IfOk result (λ read. read.1 ≡ vars_in_text read.0) }
{
    match batch {
        Batch::Body(statements) => body_of(alloc, statements),
        Batch::Definition(line, of, text) => defined(alloc, line, of, text),
    }
}

/// What statements are read as.
fn body_of(alloc: Global, statements: Items<Statement>) -> Result<(ReadText, Vars), Memory>
    ensures text { IfOk result (λ read. read.0 ≡ Statements statements) }
    ensures vars { IfOk result (λ read. read.1 ≡ vars_in_text read.0) }
{
    let vars = vars_of(alloc, statements.as_slice())?;
    Ok((ReadText::Statements(statements), vars))
}

/// The definition of a procedure or trigger, of this line and text.
fn defined(
    alloc: Global,
    line: u32,
    of: Definition,
    text: Units,
) -> Result<(ReadText, Vars), Memory>
    ensures text { IfOk result (λ read. read.0 ≡ Defines (pos line) of text) }
    ensures vars { IfOk result (λ read. read.1 ≡ vars_in_text read.0) }
{
    let Ok(line) = i32::try_from(line) else {
        return Err(Memory);
    };
    Ok((ReadText::Defines(line, of, text), Vars::new(alloc)))
}
