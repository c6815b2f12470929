//! PRINT, RAISERROR, RETURN and THROW, behind these words.

ghost use Rattle.std.specs.Prelude.{◌≡◌};
ghost use Rattle.tsql_grammar.specs.declared.rule.Rule.TheVariants as r;
ghost use Rattle.lexeme_reader.specs.Reading.{read, Gives};
ghost use Rattle.statement_parts.specs.Forms.{print_form, raise_error_form, return_form, throw_form};

use lexeme_reader::{Lexemes, ReadFault};
use query_reader::read_expr;
use sqlite_items::Boxed;
use std::alloc::Global;
use tsql_grammar::{Around, Class, Kind, Reserved};
use tsql_lexer::Sign;
use tsql_tree::{Expr, Form};

/// What expressions begin with.
const BEGINS_EXPR: [Class; 18] = [
    Class::One(Kind::Sign(Sign::Open)),
    Class::One(Kind::Sign(Sign::Plus)),
    Class::One(Kind::Sign(Sign::Minus)),
    Class::Name,
    Class::One(Kind::Variable),
    Class::One(Kind::Number),
    Class::One(Kind::Text),
    Class::One(Kind::TranCount),
    Class::One(Kind::Error),
    Class::One(Kind::RowCount),
    Class::One(Kind::FetchStatus),
    Class::One(Kind::Version),
    Class::One(Kind::ServerName),
    Class::One(Kind::MaxPrecision),
    Class::One(Kind::Reserved(Reserved::Case)),
    Class::One(Kind::Reserved(Reserved::Coalesce)),
    Class::One(Kind::Reserved(Reserved::Null)),
    Class::One(Kind::Reserved(Reserved::NullIf)),
];

/// An expression, boxed.
pub(crate) fn boxed_expr(alloc: Global, lexemes: &mut Lexemes<'_>) -> Result<Boxed<Expr>, ReadFault>
    ensures { Gives (read r.Expr lexemes.old) result lexemes.new }
{
    let expr = read_expr(alloc, lexemes)?;
    Ok(Boxed::new(alloc, expr)?)
}

/// A PRINT.
pub fn print(alloc: Global, lexemes: &mut Lexemes<'_>) -> Result<Form, ReadFault>
    ensures { Gives (print_form lexemes.old) result lexemes.new }
{
    let text = boxed_expr(alloc, lexemes)?;
    Ok(Form::Print(text))
}

/// A RAISERROR.
pub fn raise_error(alloc: Global, lexemes: &mut Lexemes<'_>) -> Result<Form, ReadFault>
    ensures { Gives (raise_error_form lexemes.old) result lexemes.new }
{
    lexemes.want_sign(Sign::Open)?;
    let text = boxed_expr(alloc, lexemes)?;
    lexemes.want_sign(Sign::Comma)?;
    let severity = boxed_expr(alloc, lexemes)?;
    lexemes.want_sign(Sign::Comma)?;
    let state = boxed_expr(alloc, lexemes)?;
    lexemes.want_sign(Sign::Close)?;
    Ok(Form::RaiseError(text, severity, state))
}

/// A RETURN.
pub fn return_from(alloc: Global, lexemes: &mut Lexemes<'_>) -> Result<Form, ReadFault>
    ensures { Gives (return_form lexemes.old) result lexemes.new }
{
    let value = optional_expr(alloc, lexemes)?;
    Ok(Form::Return(value))
}

/// An expression, or none.
#[tactic(auto, using(crate::proofs::Clauses::optional_expr_is))]
fn optional_expr(alloc: Global, lexemes: &mut Lexemes<'_>) -> Result<Option<Boxed<Expr>>, ReadFault>
    ensures { Gives (read r.OptionalExpr lexemes.old) result lexemes.new }
{
    if !lexemes.sees_any(&BEGINS_EXPR) {
        return Ok(None);
    }
    let value = boxed_expr(alloc, lexemes)?;
    Ok(Some(value))
}

/// A THROW; without arguments it stands only where a CATCH is around.
#[tactic(auto, using(crate::proofs::Clauses::throw_arguments_is))]
pub fn throw(alloc: Global, lexemes: &mut Lexemes<'_>, around: Around) -> Result<Form, ReadFault>
    ensures { Gives (read (r.ThrowArguments around) lexemes.old) result lexemes.new }
{
    if around.in_catch && !lexemes.sees_any(&BEGINS_EXPR) {
        return Ok(Form::ThrowAgain);
    }
    thrown(alloc, lexemes)
}

/// The arguments of a THROW.
fn thrown(alloc: Global, lexemes: &mut Lexemes<'_>) -> Result<Form, ReadFault>
    ensures { Gives (throw_form lexemes.old) result lexemes.new }
{
    let number = boxed_expr(alloc, lexemes)?;
    lexemes.want_sign(Sign::Comma)?;
    let text = boxed_expr(alloc, lexemes)?;
    lexemes.want_sign(Sign::Comma)?;
    let state = boxed_expr(alloc, lexemes)?;
    Ok(Form::Throw(number, text, state))
}
