//! DROP, behind that word.

ghost use Rattle.std.specs.Prelude.{◌≡◌};
ghost use Rattle.tsql_grammar.specs.declared.rule.Rule.TheVariants as r;
ghost use Rattle.lexeme_reader.specs.Reading.{read, Gives};
ghost use Rattle.statement_words.specs.Forms.{drop_form};

use lexeme_reader::{Lexemes, ReadFault, object};
use std::alloc::Global;
use tsql_grammar::Reserved;
use tsql_tree::{DropKind, Form};

/// A DROP behind that word.
pub fn drop_object(alloc: Global, lexemes: &mut Lexemes<'_>) -> Result<Form, ReadFault>
    ensures { Gives (drop_form lexemes.old) result lexemes.new }
{
    let kind = drop_kind(lexemes)?;
    let name = object(alloc, lexemes)?;
    Ok(Form::Drop(kind, name))
}

/// TABLE, PROCEDURE or TRIGGER.
#[tactic(auto, using(crate::proofs::Clauses::drop_kind_is))]
fn drop_kind(lexemes: &mut Lexemes<'_>) -> Result<DropKind, ReadFault>
    ensures { Gives (read r.DropKind lexemes.old) result lexemes.new }
{
    if lexemes.accept_word(Reserved::Table) {
        return Ok(DropKind::Table);
    }
    if lexemes.accept_word(Reserved::Procedure) {
        return Ok(DropKind::Procedure);
    }
    lexemes.want_word(Reserved::Trigger)?;
    Ok(DropKind::Trigger)
}
