//! The names of objects and of types.

ghost use Rattle.std.specs.Prelude.{◌≡◌, min, nat_abs};
ghost use Rattle.tsql_grammar.specs.declared.rule.Rule.TheVariants as r;
ghost use Rattle.lexeme_reader.specs.Reading.{read, applied, Gives};

use crate::{Lexemes, ReadFault};
use std::alloc::Global;
use tsql_grammar::{Class, Kind, Word};
use tsql_lexer::Sign;
use value_types::{SqlType, Units};

/// The name of an object.
#[tactic(auto, using(crate::proofs::NameRules::object_is))]
pub fn object(alloc: Global, lexemes: &mut Lexemes<'_>) -> Result<Units, ReadFault>
    ensures { Gives (read r.Object lexemes.old) result lexemes.new }
{
    if let Some(name) = lexemes.take_units(alloc, Class::OtherName)? {
        return Ok(name);
    }
    let name = lexemes.want_units(alloc, Class::One(Kind::Dbo))?;
    after_dbo(alloc, lexemes, name)
}

/// What follows `dbo`, and the name that it all is.
#[tactic(auto, using(crate::proofs::NameRules::after_dbo_is))]
fn after_dbo(alloc: Global, lexemes: &mut Lexemes<'_>, dbo: Units) -> Result<Units, ReadFault>
    ensures { Gives (applied dbo (read r.AfterDbo lexemes.old)) result lexemes.new }
{
    if !lexemes.accept_sign(Sign::Dot) {
        return Ok(dbo);
    }
    lexemes.want_units(alloc, Class::Name)
}

/// A type.
#[tactic(auto, using(crate::proofs::NameRules::sql_type_is))]
pub fn sql_type(lexemes: &mut Lexemes<'_>) -> Result<SqlType, ReadFault>
    ensures { Gives (read r.Type lexemes.old) result lexemes.new }
{
    if lexemes.accept(Class::One(Kind::Word(Word::TinyInt))) {
        return Ok(SqlType::TinyInt);
    }
    if lexemes.accept(Class::One(Kind::Word(Word::SmallInt))) {
        return Ok(SqlType::SmallInt);
    }
    if lexemes.accept(Class::One(Kind::Word(Word::Int))) {
        return Ok(SqlType::Int);
    }
    if lexemes.accept(Class::One(Kind::Word(Word::BigInt))) {
        return Ok(SqlType::BigInt);
    }
    if lexemes.accept(Class::One(Kind::Word(Word::Bit))) {
        return Ok(SqlType::Bit);
    }
    lexemes.want(Class::One(Kind::Word(Word::NVarChar)))?;
    lexemes.want_sign(Sign::Open)?;
    let size = text_size(lexemes.want_number()?);
    lexemes.want_sign(Sign::Close)?;
    Ok(SqlType::NText(size))
}

/// The size of a text type; above 65,535 it is kept as 65,535.
fn text_size(number: i64) -> u16
    ensures { result ≡ min (nat_abs number) 65535 }
{
    number.unsigned_abs().min(65535) as u16
}
