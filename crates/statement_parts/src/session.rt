//! DECLARE and SET, behind these words.

ghost use Rattle.std.specs.Prelude.{◌≡◌};
ghost use Rattle.tsql_grammar.specs.declared.rule.Rule.TheVariants as r;
ghost use Rattle.lexeme_reader.specs.Reading.{read, Gives};
ghost use Rattle.statement_parts.specs.Forms.{declare_form, set_variable_form};

use crate::control::boxed_expr;
use crate::cursor::declare_cursor;
use lexeme_reader::{Lexemes, ReadFault, sql_type};
use query_reader::read_expr;
use sqlite_items::Items;
use statement_words::{on_off, set_other};
use std::alloc::Global;
use tsql_grammar::{Class, Kind, Reserved, Word};
use tsql_lexer::Sign;
use tsql_tree::{Declaration, Expr, Form, SessionOption};
use value_types::Units;

/// A DECLARE, of variables or of a cursor.
#[tactic(auto, using(crate::proofs::Clauses::after_declare_is))]
pub fn after_declare(alloc: Global, lexemes: &mut Lexemes<'_>) -> Result<Form, ReadFault>
    ensures { Gives (read r.AfterDeclare lexemes.old) result lexemes.new }
{
    if lexemes.sees_any(&[Class::One(Kind::Variable)]) {
        return declare(alloc, lexemes);
    }
    declare_cursor(alloc, lexemes)
}

/// A DECLARE of variables.
fn declare(alloc: Global, lexemes: &mut Lexemes<'_>) -> Result<Form, ReadFault>
    ensures { Gives (declare_form lexemes.old) result lexemes.new }
{
    let mut declarations = Items::new(alloc);
    declarations.push(declaration(alloc, lexemes)?)?;
    declarations.append(more_declarations(alloc, lexemes)?)?;
    Ok(Form::Declare(declarations))
}

/// A variable, its type and its first value.
#[tactic(auto, using(crate::proofs::Clauses::declaration_is))]
fn declaration(alloc: Global, lexemes: &mut Lexemes<'_>) -> Result<Declaration, ReadFault>
    ensures { Gives (read r.Declaration lexemes.old) result lexemes.new }
{
    let name = lexemes.want_units(alloc, Class::One(Kind::Variable))?;
    optional_as(lexemes)?;
    let kind = sql_type(lexemes)?;
    let initial = initial(alloc, lexemes)?;
    Ok(Declaration {
        name,
        kind,
        initial,
    })
}

/// Further declarations, each behind a comma.
#[tactic(auto, using(crate::proofs::Clauses::more_declarations_on, lexeme_reader::proofs::Front::front_begin))]
fn more_declarations(
    alloc: Global,
    lexemes: &mut Lexemes<'_>,
) -> Result<Items<Declaration>, ReadFault>
    ensures { Gives (read r.MoreDeclarations lexemes.old) result lexemes.new }
{
    let mut more = Items::new(alloc);
    for _turn in 0..u64::MAX {
        if !lexemes.accept_sign(Sign::Comma) {
            return Ok(more);
        }
        let found = declaration(alloc, lexemes)?;
        more.push(found)?;
    }
    Err(ReadFault::NoRoom)
}

/// AS, or nothing.
#[tactic(auto, using(crate::proofs::Clauses::optional_as_is))]
fn optional_as(lexemes: &mut Lexemes<'_>) -> Result<(), ReadFault>
    ensures { Gives (read r.OptionalAs lexemes.old) result lexemes.new }
{
    if lexemes.accept_word(Reserved::As) {
        return Ok(());
    }
    Ok(())
}

/// The first value of a variable, if one stands.
#[tactic(auto, using(crate::proofs::Clauses::initial_is))]
fn initial(alloc: Global, lexemes: &mut Lexemes<'_>) -> Result<Option<Expr>, ReadFault>
    ensures { Gives (read r.Initial lexemes.old) result lexemes.new }
{
    if !lexemes.accept_sign(Sign::Equal) {
        return Ok(None);
    }
    let value = read_expr(alloc, lexemes)?;
    Ok(Some(value))
}

/// A SET, of a variable or of an option.
#[tactic(auto, using(crate::proofs::Clauses::after_set_is))]
pub fn after_set(alloc: Global, lexemes: &mut Lexemes<'_>) -> Result<Form, ReadFault>
    ensures { Gives (read r.AfterSet lexemes.old) result lexemes.new }
{
    if let Some(name) = lexemes.take_units(alloc, Class::One(Kind::Variable))? {
        return set_variable(alloc, lexemes, name);
    }
    if lexemes.accept(Class::One(Kind::Word(Word::XactAbort))) {
        let on = on_off(lexemes)?;
        return Ok(Form::SetOption(SessionOption::XactAbort(on)));
    }
    if lexemes.accept(Class::One(Kind::Word(Word::NoCount))) {
        let on = on_off(lexemes)?;
        return Ok(Form::SetOption(SessionOption::NoCount(on)));
    }
    if lexemes.accept(Class::One(Kind::Word(Word::ImplicitTransactions))) {
        let on = on_off(lexemes)?;
        return Ok(Form::SetOption(SessionOption::ImplicitTransactions(on)));
    }
    set_other(alloc, lexemes)
}

/// The value that a variable is set to.
fn set_variable(alloc: Global, lexemes: &mut Lexemes<'_>, name: Units) -> Result<Form, ReadFault>
    ensures { Gives (set_variable_form name lexemes.old) result lexemes.new }
{
    lexemes.want_sign(Sign::Equal)?;
    let value = boxed_expr(alloc, lexemes)?;
    Ok(Form::SetVariable(name, value))
}
