//! What stands before the body of a procedure or a trigger.

ghost use Rattle.std.specs.Prelude.{◌≡◌};
ghost use Rattle.tsql_grammar.specs.declared.rule.Rule.TheVariants as r;
ghost use Rattle.lexeme_reader.specs.Reading.{read, Gives};
ghost use Rattle.statement_words.specs.Signatures.{events_from};

use lexeme_reader::{Lexemes, ReadFault, sql_type};
use sqlite_items::Items;
use std::alloc::Global;
use tsql_grammar::{Class, Kind, Reserved, Word};
use tsql_lexer::Sign;
use tsql_tree::{Event, Parameter};

/// The parameters of a procedure, if there are any.
#[tactic(auto, using(crate::proofs::Clauses::params_is))]
pub fn params(alloc: Global, lexemes: &mut Lexemes<'_>) -> Result<Items<Parameter>, ReadFault>
    ensures { Gives (read r.Params lexemes.old) result lexemes.new }
{
    let mut params = Items::new(alloc);
    if !lexemes.sees_any(&[Class::One(Kind::Variable)]) {
        return Ok(params);
    }
    params.push(param(alloc, lexemes)?)?;
    params.append(more_params(alloc, lexemes)?)?;
    Ok(params)
}

/// A parameter.
#[tactic(auto, using(crate::proofs::Clauses::param_is))]
fn param(alloc: Global, lexemes: &mut Lexemes<'_>) -> Result<Parameter, ReadFault>
    ensures { Gives (read r.Param lexemes.old) result lexemes.new }
{
    let name = lexemes.want_units(alloc, Class::One(Kind::Variable))?;
    let kind = sql_type(lexemes)?;
    let output = output(lexemes)?;
    Ok(Parameter { name, kind, output })
}

/// Further parameters, each behind a comma.
#[tactic(auto, using(crate::proofs::Clauses::more_params_on, lexeme_reader::proofs::Front::front_begin))]
fn more_params(alloc: Global, lexemes: &mut Lexemes<'_>) -> Result<Items<Parameter>, ReadFault>
    ensures { Gives (read r.MoreParams lexemes.old) result lexemes.new }
{
    let mut more = Items::new(alloc);
    for _turn in 0..u64::MAX {
        if !lexemes.accept_sign(Sign::Comma) {
            return Ok(more);
        }
        let found = param(alloc, lexemes)?;
        more.push(found)?;
    }
    Err(ReadFault::NoRoom)
}

/// OUTPUT, or nothing.
#[tactic(auto, using(crate::proofs::Clauses::output_is))]
pub(crate) fn output(lexemes: &mut Lexemes<'_>) -> Result<bool, ReadFault>
    ensures { Gives (read r.Output lexemes.old) result lexemes.new }
{
    if lexemes.accept(Class::One(Kind::Word(Word::Output))) {
        return Ok(true);
    }
    Ok(false)
}

/// AFTER or FOR.
#[tactic(auto, using(crate::proofs::Clauses::trigger_time_is))]
pub fn trigger_time(lexemes: &mut Lexemes<'_>) -> Result<(), ReadFault>
    ensures { Gives (read r.TriggerTime lexemes.old) result lexemes.new }
{
    if lexemes.accept(Class::One(Kind::Word(Word::After))) {
        return Ok(());
    }
    lexemes.want_word(Reserved::For)?;
    Ok(())
}

/// The statements that fire a trigger.
pub fn events(alloc: Global, lexemes: &mut Lexemes<'_>) -> Result<Items<Event>, ReadFault>
    ensures { Gives (events_from lexemes.old) result lexemes.new }
{
    let mut events = Items::new(alloc);
    events.push(event(lexemes)?)?;
    events.append(more_events(alloc, lexemes)?)?;
    Ok(events)
}

/// INSERT, UPDATE or DELETE.
#[tactic(auto, using(crate::proofs::Clauses::event_is))]
fn event(lexemes: &mut Lexemes<'_>) -> Result<Event, ReadFault>
    ensures { Gives (read r.Event lexemes.old) result lexemes.new }
{
    if lexemes.accept_word(Reserved::Insert) {
        return Ok(Event::Insert);
    }
    if lexemes.accept_word(Reserved::Update) {
        return Ok(Event::Update);
    }
    lexemes.want_word(Reserved::Delete)?;
    Ok(Event::Delete)
}

/// Further events, each behind a comma.
#[tactic(auto, using(crate::proofs::Clauses::more_events_on, lexeme_reader::proofs::Front::front_begin))]
fn more_events(alloc: Global, lexemes: &mut Lexemes<'_>) -> Result<Items<Event>, ReadFault>
    ensures { Gives (read r.MoreEvents lexemes.old) result lexemes.new }
{
    let mut more = Items::new(alloc);
    for _turn in 0..u64::MAX {
        if !lexemes.accept_sign(Sign::Comma) {
            return Ok(more);
        }
        let found = event(lexemes)?;
        more.push(found)?;
    }
    Err(ReadFault::NoRoom)
}
