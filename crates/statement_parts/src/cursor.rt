//! DECLARE of a cursor, behind that word.

ghost use Rattle.std.specs.Prelude.{◌≡◌};
ghost use Rattle.tsql_grammar.specs.declared.rule.Rule.TheVariants as r;
ghost use Rattle.lexeme_reader.specs.Reading.{read, Gives};
ghost use Rattle.statement_parts.specs.Forms.{declare_cursor_form};

use lexeme_reader::{Lexemes, ReadFault};
use query_reader::read_select;
use sqlite_items::Boxed;
use std::alloc::Global;
use tsql_grammar::{Class, Kind, Reserved, Word};
use tsql_tree::Form;

/// A DECLARE of a cursor.
pub(crate) fn declare_cursor(alloc: Global, lexemes: &mut Lexemes<'_>) -> Result<Form, ReadFault>
    ensures { Gives (declare_cursor_form lexemes.old) result lexemes.new }
{
    let name = lexemes.want_units(alloc, Class::Name)?;
    lexemes.want_word(Reserved::Cursor)?;
    cursor_scope(lexemes)?;
    cursor_static(lexemes)?;
    cursor_read_only(lexemes)?;
    lexemes.want_word(Reserved::For)?;
    lexemes.want_word(Reserved::Select)?;
    let select = read_select(alloc, lexemes)?;
    Ok(Form::DeclareCursor(name, Boxed::new(alloc, select)?))
}

/// LOCAL or GLOBAL, or nothing.
#[tactic(auto, using(crate::proofs::Clauses::cursor_scope_is))]
fn cursor_scope(lexemes: &mut Lexemes<'_>) -> Result<(), ReadFault>
    ensures { Gives (read r.CursorScope lexemes.old) result lexemes.new }
{
    if lexemes.accept(Class::One(Kind::Word(Word::Local))) {
        return Ok(());
    }
    if lexemes.accept(Class::One(Kind::Word(Word::Global))) {
        return Ok(());
    }
    Ok(())
}

/// STATIC, or nothing.
#[tactic(auto, using(crate::proofs::Clauses::cursor_static_is))]
fn cursor_static(lexemes: &mut Lexemes<'_>) -> Result<(), ReadFault>
    ensures { Gives (read r.CursorStatic lexemes.old) result lexemes.new }
{
    if lexemes.accept(Class::One(Kind::Word(Word::Static))) {
        return Ok(());
    }
    Ok(())
}

/// READ_ONLY, or nothing.
#[tactic(auto, using(crate::proofs::Clauses::cursor_read_only_is))]
fn cursor_read_only(lexemes: &mut Lexemes<'_>) -> Result<(), ReadFault>
    ensures { Gives (read r.CursorReadOnly lexemes.old) result lexemes.new }
{
    if lexemes.accept(Class::One(Kind::Word(Word::ReadOnly))) {
        return Ok(());
    }
    Ok(())
}
