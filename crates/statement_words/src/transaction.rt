//! Statements on transactions, behind their first words.

ghost use Rattle.std.specs.Prelude.{◌≡◌};
ghost use Rattle.tsql_grammar.specs.declared.rule.Rule.TheVariants as r;
ghost use Rattle.lexeme_reader.specs.Reading.{read, Gives};
ghost use Rattle.statement_words.specs.Forms.{begin_form, commit_form, rollback_form, save_form};

use crate::names_list::optional_name;
use lexeme_reader::{Lexemes, ReadFault};
use std::alloc::Global;
use tsql_grammar::{Class, Kind, Reserved};
use tsql_tree::Form;
use value_types::Units;

/// BEGIN TRANSACTION, behind BEGIN.
pub fn begin_transaction(alloc: Global, lexemes: &mut Lexemes<'_>) -> Result<Form, ReadFault>
    ensures { Gives (begin_form lexemes.old) result lexemes.new }
{
    transaction_word(lexemes)?;
    let name = optional_name(alloc, lexemes)?;
    Ok(Form::BeginTransaction(name))
}

/// A COMMIT.
pub fn commit(alloc: Global, lexemes: &mut Lexemes<'_>) -> Result<Form, ReadFault>
    ensures { Gives (commit_form lexemes.old) result lexemes.new }
{
    let name = transaction_end(alloc, lexemes)?;
    Ok(Form::Commit(name))
}

/// A ROLLBACK.
pub fn rollback(alloc: Global, lexemes: &mut Lexemes<'_>) -> Result<Form, ReadFault>
    ensures { Gives (rollback_form lexemes.old) result lexemes.new }
{
    let name = transaction_end(alloc, lexemes)?;
    Ok(Form::Rollback(name))
}

/// A SAVE.
pub fn save(alloc: Global, lexemes: &mut Lexemes<'_>) -> Result<Form, ReadFault>
    ensures { Gives (save_form lexemes.old) result lexemes.new }
{
    transaction_word(lexemes)?;
    let name = lexemes.want_units(alloc, Class::Name)?;
    Ok(Form::Save(name))
}

/// TRAN or TRANSACTION.
#[tactic(auto, using(crate::proofs::Clauses::transaction_word_is))]
fn transaction_word(lexemes: &mut Lexemes<'_>) -> Result<(), ReadFault>
    ensures { Gives (read r.TransactionWord lexemes.old) result lexemes.new }
{
    if lexemes.accept_word(Reserved::Tran) {
        return Ok(());
    }
    lexemes.want_word(Reserved::Transaction)?;
    Ok(())
}

/// The word and a name, or the word, or nothing.
#[tactic(auto, using(crate::proofs::Clauses::transaction_end_is))]
fn transaction_end(alloc: Global, lexemes: &mut Lexemes<'_>) -> Result<Option<Units>, ReadFault>
    ensures { Gives (read r.TransactionEnd lexemes.old) result lexemes.new }
{
    let words = [
        Class::One(Kind::Reserved(Reserved::Tran)),
        Class::One(Kind::Reserved(Reserved::Transaction)),
    ];
    if !lexemes.sees_any(&words) {
        return Ok(None);
    }
    transaction_word(lexemes)?;
    let name = optional_name(alloc, lexemes)?;
    Ok(name)
}
