//! Names and variables, with commas between them.

ghost use Rattle.std.specs.Prelude.{◌≡◌};
ghost use Rattle.tsql_grammar.specs.declared.rule.Rule.TheVariants as r;
ghost use Rattle.lexeme_reader.specs.Reading.{read, Gives};

use lexeme_reader::{Lexemes, ReadFault};
use sqlite_items::Items;
use std::alloc::Global;
use tsql_grammar::{Class, Kind};
use tsql_lexer::Sign;
use value_types::Units;

/// Names.
#[tactic(auto, using(crate::proofs::Clauses::names_is))]
pub fn names(alloc: Global, lexemes: &mut Lexemes<'_>) -> Result<Items<Units>, ReadFault>
    ensures { Gives (read r.Names lexemes.old) result lexemes.new }
{
    let mut names = Items::new(alloc);
    names.push(lexemes.want_units(alloc, Class::Name)?)?;
    names.append(more_names(alloc, lexemes)?)?;
    Ok(names)
}

/// Further names, each behind a comma.
#[tactic(auto, using(crate::proofs::Clauses::more_names_on, lexeme_reader::proofs::Front::front_begin))]
fn more_names(alloc: Global, lexemes: &mut Lexemes<'_>) -> Result<Items<Units>, ReadFault>
    ensures { Gives (read r.MoreNames lexemes.old) result lexemes.new }
{
    let mut more = Items::new(alloc);
    for _turn in 0..u64::MAX {
        if !lexemes.accept_sign(Sign::Comma) {
            return Ok(more);
        }
        let found = lexemes.want_units(alloc, Class::Name)?;
        more.push(found)?;
    }
    Err(ReadFault::NoRoom)
}

/// A name, or none.
#[tactic(auto, using(crate::proofs::Clauses::optional_name_is))]
pub(crate) fn optional_name(
    alloc: Global,
    lexemes: &mut Lexemes<'_>,
) -> Result<Option<Units>, ReadFault>
    ensures { Gives (read r.OptionalName lexemes.old) result lexemes.new }
{
    let name = lexemes.take_units(alloc, Class::Name)?;
    Ok(name)
}

/// Variables.
#[tactic(auto, using(crate::proofs::Clauses::variables_is))]
pub(crate) fn variables(alloc: Global, lexemes: &mut Lexemes<'_>) -> Result<Items<Units>, ReadFault>
    ensures { Gives (read r.Variables lexemes.old) result lexemes.new }
{
    let mut variables = Items::new(alloc);
    variables.push(lexemes.want_units(alloc, Class::One(Kind::Variable))?)?;
    variables.append(more_variables(alloc, lexemes)?)?;
    Ok(variables)
}

/// Further variables, each behind a comma.
#[tactic(auto, using(crate::proofs::Clauses::more_variables_on, lexeme_reader::proofs::Front::front_begin))]
fn more_variables(alloc: Global, lexemes: &mut Lexemes<'_>) -> Result<Items<Units>, ReadFault>
    ensures { Gives (read r.MoreVariables lexemes.old) result lexemes.new }
{
    let mut more = Items::new(alloc);
    for _turn in 0..u64::MAX {
        if !lexemes.accept_sign(Sign::Comma) {
            return Ok(more);
        }
        let found = lexemes.want_units(alloc, Class::One(Kind::Variable))?;
        more.push(found)?;
    }
    Err(ReadFault::NoRoom)
}
