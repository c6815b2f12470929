//! Statements on cursors that are declared, behind their first words.

ghost use Rattle.std.specs.Prelude.{◌≡◌};
ghost use Rattle.tsql_grammar.specs.declared.rule.Rule.TheVariants as r;
ghost use Rattle.lexeme_reader.specs.Reading.{read, Gives};
ghost use Rattle.statement_words.specs.Forms.{open_cursor_form, fetch_form, close_cursor_form, deallocate_form};

use crate::names_list::variables;
use lexeme_reader::{Lexemes, ReadFault};
use std::alloc::Global;
use tsql_grammar::{Class, Kind, Reserved, Word};
use tsql_tree::Form;

/// An OPEN.
pub fn open_cursor(alloc: Global, lexemes: &mut Lexemes<'_>) -> Result<Form, ReadFault>
    ensures { Gives (open_cursor_form lexemes.old) result lexemes.new }
{
    let name = lexemes.want_units(alloc, Class::Name)?;
    Ok(Form::OpenCursor(name))
}

/// A FETCH.
pub fn fetch(alloc: Global, lexemes: &mut Lexemes<'_>) -> Result<Form, ReadFault>
    ensures { Gives (fetch_form lexemes.old) result lexemes.new }
{
    next(lexemes)?;
    lexemes.want_word(Reserved::From)?;
    let name = lexemes.want_units(alloc, Class::Name)?;
    lexemes.want_word(Reserved::Into)?;
    let variables = variables(alloc, lexemes)?;
    Ok(Form::Fetch(name, variables))
}

/// NEXT, or nothing.
#[tactic(auto, using(crate::proofs::Clauses::next_is))]
fn next(lexemes: &mut Lexemes<'_>) -> Result<(), ReadFault>
    ensures { Gives (read r.Next lexemes.old) result lexemes.new }
{
    if lexemes.accept(Class::One(Kind::Word(Word::Next))) {
        return Ok(());
    }
    Ok(())
}

/// A CLOSE.
pub fn close_cursor(alloc: Global, lexemes: &mut Lexemes<'_>) -> Result<Form, ReadFault>
    ensures { Gives (close_cursor_form lexemes.old) result lexemes.new }
{
    let name = lexemes.want_units(alloc, Class::Name)?;
    Ok(Form::CloseCursor(name))
}

/// A DEALLOCATE.
pub fn deallocate(alloc: Global, lexemes: &mut Lexemes<'_>) -> Result<Form, ReadFault>
    ensures { Gives (deallocate_form lexemes.old) result lexemes.new }
{
    let name = lexemes.want_units(alloc, Class::Name)?;
    Ok(Form::Deallocate(name))
}
