//! The options of SET, and numbers with their signs.

ghost use Rattle.std.specs.Prelude.{◌≡◌};
ghost use Rattle.tsql_grammar.specs.declared.rule.Rule.TheVariants as r;
ghost use Rattle.lexeme_reader.specs.Reading.{read, Gives};
ghost use Rattle.statement_words.specs.Forms.{other_option_form, named_option_form, fixed_option_form, known_option_form};

use lexeme_reader::{Lexemes, ReadFault};
use std::alloc::Global;
use tsql_grammar::{Class, Kind, Reserved, Word, is_date_order, is_language};
use tsql_lexer::Sign;
use tsql_tree::{FixedOption, Form, IsolationLevel, PriorityWord, SessionOption};
use value_types::Units;

/// An option that is no switch, or whose known settings change nothing.
pub fn set_other(alloc: Global, lexemes: &mut Lexemes<'_>) -> Result<Form, ReadFault>
    ensures { Gives (other_option_form lexemes.old) result lexemes.new }
{
    if lexemes.accept_word(Reserved::Transaction) {
        lexemes.want(Class::One(Kind::Word(Word::Isolation)))?;
        lexemes.want(Class::One(Kind::Word(Word::Level)))?;
        let level = level(lexemes)?;
        return Ok(Form::SetOption(SessionOption::Isolation(level)));
    }
    if lexemes.accept(Class::One(Kind::Word(Word::LockTimeout))) {
        let number = signed_number(lexemes)?;
        return Ok(Form::SetOption(SessionOption::LockTimeout(number)));
    }
    if lexemes.accept(Class::One(Kind::Word(Word::TextSize))) {
        let number = signed_number(lexemes)?;
        return Ok(Form::SetOption(SessionOption::TextSize(number)));
    }
    if lexemes.accept(Class::One(Kind::Word(Word::DeadlockPriority))) {
        let priority = priority(lexemes)?;
        return Ok(Form::SetOption(SessionOption::DeadlockPriority(priority)));
    }
    set_named(alloc, lexemes)
}

/// An option with a number or a name, or a switch, whose known settings change nothing.
fn set_named(alloc: Global, lexemes: &mut Lexemes<'_>) -> Result<Form, ReadFault>
    ensures { Gives (named_option_form lexemes.old) result lexemes.new }
{
    if lexemes.accept(Class::One(Kind::Word(Word::DateFirst))) {
        let number = signed_number(lexemes)?;
        return Ok(Form::SetOption(SessionOption::DateFirst(number)));
    }
    if lexemes.accept(Class::One(Kind::Word(Word::RowCount))) {
        let number = signed_number(lexemes)?;
        return Ok(Form::SetOption(SessionOption::RowCount(number)));
    }
    if lexemes.accept(Class::One(Kind::Word(Word::DateFormat))) {
        let name = option_name(alloc, lexemes)?;
        let known = is_date_order(&name);
        return Ok(Form::SetOption(SessionOption::DateFormat(known)));
    }
    if lexemes.accept(Class::One(Kind::Word(Word::Language))) {
        let name = option_name(alloc, lexemes)?;
        let known = is_language(&name);
        return Ok(Form::SetOption(SessionOption::Language(known)));
    }
    set_fixed(lexemes)
}

/// The name that an option is set to.
#[tactic(auto, using(crate::proofs::Clauses::option_name_is))]
fn option_name(alloc: Global, lexemes: &mut Lexemes<'_>) -> Result<Units, ReadFault>
    ensures { Gives (read r.OptionName lexemes.old) result lexemes.new }
{
    if let Some(name) = lexemes.take_units(alloc, Class::Name)? {
        return Ok(name);
    }
    lexemes.want_units(alloc, Class::One(Kind::Text))
}

/// An option whose known settings change nothing.
#[tactic(auto, using(crate::proofs::FixedOptions::fixed_gives))]
fn set_fixed(lexemes: &mut Lexemes<'_>) -> Result<Form, ReadFault>
    ensures { Gives (fixed_option_form lexemes.old) result lexemes.new }
{
    match lexemes.peek() {
        Some(Kind::Fixed(option)) => set_known(lexemes, option),
        _ => Err(ReadFault::NoRoom),
    }
}

/// The same, of this option.
fn set_known(lexemes: &mut Lexemes<'_>, option: FixedOption) -> Result<Form, ReadFault>
    ensures { Gives (known_option_form option lexemes.old) result lexemes.new }
{
    lexemes.want(Class::One(Kind::Fixed(option)))?;
    let on = on_off(lexemes)?;
    Ok(Form::SetOption(SessionOption::Fixed(option, on)))
}

/// ON or OFF.
#[tactic(auto, using(crate::proofs::Clauses::on_off_is))]
pub fn on_off(lexemes: &mut Lexemes<'_>) -> Result<bool, ReadFault>
    ensures { Gives (read r.OnOff lexemes.old) result lexemes.new }
{
    if lexemes.accept_word(Reserved::On) {
        return Ok(true);
    }
    lexemes.want(Class::One(Kind::Word(Word::Off)))?;
    Ok(false)
}

/// A level of isolation.
#[tactic(auto, using(crate::proofs::Clauses::level_is))]
fn level(lexemes: &mut Lexemes<'_>) -> Result<IsolationLevel, ReadFault>
    ensures { Gives (read r.Level lexemes.old) result lexemes.new }
{
    if lexemes.accept(Class::One(Kind::Word(Word::Read))) {
        return after_read(lexemes);
    }
    if lexemes.accept(Class::One(Kind::Word(Word::Repeatable))) {
        lexemes.want(Class::One(Kind::Word(Word::Read)))?;
        return Ok(IsolationLevel::RepeatableRead);
    }
    if lexemes.accept(Class::One(Kind::Word(Word::Snapshot))) {
        return Ok(IsolationLevel::Snapshot);
    }
    lexemes.want(Class::One(Kind::Word(Word::Serializable)))?;
    Ok(IsolationLevel::Serializable)
}

/// What follows the READ of a level.
#[tactic(auto, using(crate::proofs::Clauses::after_read_is))]
fn after_read(lexemes: &mut Lexemes<'_>) -> Result<IsolationLevel, ReadFault>
    ensures { Gives (read r.AfterRead lexemes.old) result lexemes.new }
{
    if lexemes.accept(Class::One(Kind::Word(Word::Committed))) {
        return Ok(IsolationLevel::ReadCommitted);
    }
    lexemes.want(Class::One(Kind::Word(Word::Uncommitted)))?;
    Ok(IsolationLevel::ReadUncommitted)
}

/// A number with a minus or none.
#[tactic(auto, using(crate::proofs::Clauses::signed_number_is))]
pub(crate) fn signed_number(lexemes: &mut Lexemes<'_>) -> Result<i64, ReadFault>
    ensures { Gives (read r.SignedNumber lexemes.old) result lexemes.new }
{
    if let Some(number) = lexemes.take_number() {
        return Ok(number);
    }
    lexemes.want_sign(Sign::Minus)?;
    let number = lexemes.want_number()?;
    match number.checked_neg() {
        Some(number) => Ok(number),
        None => Err(ReadFault::NoRoom),
    }
}

/// What DEADLOCK_PRIORITY is set to.
#[tactic(auto, using(crate::proofs::Clauses::priority_is))]
fn priority(lexemes: &mut Lexemes<'_>) -> Result<PriorityWord, ReadFault>
    ensures { Gives (read r.Priority lexemes.old) result lexemes.new }
{
    if lexemes.accept(Class::One(Kind::Word(Word::Low))) {
        return Ok(PriorityWord::Low);
    }
    if lexemes.accept(Class::One(Kind::Word(Word::Normal))) {
        return Ok(PriorityWord::Normal);
    }
    if lexemes.accept(Class::One(Kind::Word(Word::High))) {
        return Ok(PriorityWord::High);
    }
    let number = signed_number(lexemes)?;
    Ok(PriorityWord::Number(number))
}
