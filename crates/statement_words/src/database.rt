//! USE, behind that word.

ghost use Rattle.lexeme_reader.specs.Reading.{Gives};
ghost use Rattle.statement_words.specs.Forms.{use_form};

use lexeme_reader::{Lexemes, ReadFault};
use std::alloc::Global;
use tsql_grammar::Class;
use tsql_tree::Form;

/// A USE.
pub fn use_database(alloc: Global, lexemes: &mut Lexemes<'_>) -> Result<Form, ReadFault>
    ensures { Gives (use_form lexemes.old) result lexemes.new }
{
    let name = lexemes.want_units(alloc, Class::Name)?;
    Ok(Form::Use(name))
}
