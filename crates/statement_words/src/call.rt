//! EXEC, behind that word.

ghost use Rattle.std.specs.Prelude.{◌≡◌};
ghost use Rattle.tsql_grammar.specs.declared.rule.Rule.TheVariants as r;
ghost use Rattle.lexeme_reader.specs.Reading.{read, applied, Gives};

use crate::options::signed_number;
use crate::signature::output;
use lexeme_reader::{Lexemes, ReadFault, object};
use sqlite_items::Items;
use std::alloc::Global;
use tsql_grammar::{Class, Kind, Reserved};
use tsql_lexer::Sign;
use tsql_tree::{Argument, ArgumentValue, Form};
use value_types::{Units, Value};

/// What arguments begin with.
const BEGINS_ARGUMENT: [Class; 5] = [
    Class::One(Kind::Number),
    Class::One(Kind::Text),
    Class::One(Kind::Variable),
    Class::One(Kind::Sign(Sign::Minus)),
    Class::One(Kind::Reserved(Reserved::Null)),
];

/// What numbers with a minus or none begin with.
pub(crate) const BEGINS_NUMBER: [Class; 2] = [
    Class::One(Kind::Number),
    Class::One(Kind::Sign(Sign::Minus)),
];

/// An EXEC: the variable that takes the status, the procedure and the arguments.
#[tactic(auto, using(crate::proofs::Clauses::after_execute_is))]
pub fn after_execute(alloc: Global, lexemes: &mut Lexemes<'_>) -> Result<Form, ReadFault>
    ensures { Gives (read r.AfterExecute lexemes.old) result lexemes.new }
{
    if let Some(status) = lexemes.take_units(alloc, Class::One(Kind::Variable))? {
        lexemes.want_sign(Sign::Equal)?;
        let name = object(alloc, lexemes)?;
        let arguments = arguments(alloc, lexemes)?;
        return Ok(Form::Execute(Some(status), name, arguments));
    }
    let name = object(alloc, lexemes)?;
    let arguments = arguments(alloc, lexemes)?;
    Ok(Form::Execute(None, name, arguments))
}

/// The arguments, if there are any.
#[tactic(auto, using(crate::proofs::Clauses::arguments_is))]
fn arguments(alloc: Global, lexemes: &mut Lexemes<'_>) -> Result<Items<Argument>, ReadFault>
    ensures { Gives (read r.Arguments lexemes.old) result lexemes.new }
{
    let mut arguments = Items::new(alloc);
    if !lexemes.sees_any(&BEGINS_ARGUMENT) {
        return Ok(arguments);
    }
    arguments.push(argument(alloc, lexemes)?)?;
    arguments.append(more_arguments(alloc, lexemes)?)?;
    Ok(arguments)
}

/// Further arguments, each behind a comma.
#[tactic(auto, using(crate::proofs::Clauses::more_arguments_on, lexeme_reader::proofs::Front::front_begin))]
fn more_arguments(alloc: Global, lexemes: &mut Lexemes<'_>) -> Result<Items<Argument>, ReadFault>
    ensures { Gives (read r.MoreArguments lexemes.old) result lexemes.new }
{
    let mut more = Items::new(alloc);
    for _turn in 0..u64::MAX {
        if !lexemes.accept_sign(Sign::Comma) {
            return Ok(more);
        }
        let found = argument(alloc, lexemes)?;
        more.push(found)?;
    }
    Err(ReadFault::NoRoom)
}

/// An argument.
#[tactic(auto, using(crate::proofs::Clauses::argument_is))]
fn argument(alloc: Global, lexemes: &mut Lexemes<'_>) -> Result<Argument, ReadFault>
    ensures { Gives (read r.Argument lexemes.old) result lexemes.new }
{
    if let Some(name) = lexemes.take_units(alloc, Class::One(Kind::Variable))? {
        return after_argument_variable(alloc, lexemes, name);
    }
    let value = constant(alloc, lexemes)?;
    let output = output(lexemes)?;
    Ok(Argument {
        name: None,
        value,
        output,
    })
}

/// What follows a variable that an argument begins with: its value, if it names a parameter.
#[tactic(auto, using(crate::proofs::Clauses::after_argument_variable_on))]
fn after_argument_variable(
    alloc: Global,
    lexemes: &mut Lexemes<'_>,
    name: Units,
) -> Result<Argument, ReadFault>
    ensures { Gives (applied name (read r.AfterArgumentVariable lexemes.old)) result lexemes.new }
{
    if lexemes.accept_sign(Sign::Equal) {
        let value = argument_value(alloc, lexemes)?;
        let output = output(lexemes)?;
        return Ok(Argument {
            name: Some(name),
            value,
            output,
        });
    }
    let output = output(lexemes)?;
    Ok(Argument {
        name: None,
        value: ArgumentValue::Variable(name),
        output,
    })
}

/// The value of an argument that is named.
#[tactic(auto, using(crate::proofs::Clauses::argument_value_is))]
fn argument_value(alloc: Global, lexemes: &mut Lexemes<'_>) -> Result<ArgumentValue, ReadFault>
    ensures { Gives (read r.ArgumentValue lexemes.old) result lexemes.new }
{
    if let Some(name) = lexemes.take_units(alloc, Class::One(Kind::Variable))? {
        return Ok(ArgumentValue::Variable(name));
    }
    let value = constant(alloc, lexemes)?;
    Ok(value)
}

/// A number with its sign, a text or NULL.
#[tactic(auto, using(crate::proofs::Clauses::constant_is))]
fn constant(alloc: Global, lexemes: &mut Lexemes<'_>) -> Result<ArgumentValue, ReadFault>
    ensures { Gives (read r.Constant lexemes.old) result lexemes.new }
{
    if lexemes.sees_any(&BEGINS_NUMBER) {
        let number = signed_number(lexemes)?;
        return Ok(ArgumentValue::Constant(Value::Whole(number)));
    }
    if let Some(text) = lexemes.take_units(alloc, Class::One(Kind::Text))? {
        return Ok(ArgumentValue::Constant(Value::Text(text)));
    }
    lexemes.want_word(Reserved::Null)?;
    Ok(ArgumentValue::Constant(Value::Null))
}
