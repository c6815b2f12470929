//! CREATE TABLE, behind CREATE.

ghost use Rattle.std.specs.Prelude.{◌≡◌};
ghost use Rattle.tsql_grammar.specs.declared.rule.Rule.TheVariants as r;
ghost use Rattle.lexeme_reader.specs.Reading.{read, applied, Gives};
ghost use Rattle.table_reader.specs.Drafts.{draft_of, GivesDraft, GivesConstraint, enclosed_names};

use crate::column::column;
use crate::draft::{Constraint, TableDraft};
use lexeme_reader::{Lexemes, ReadFault, object, sql_type};
use query_reader::read_test;
use sqlite_items::Items;
use statement_words::names;
use std::alloc::Global;
use tsql_grammar::{Class, Kind, Reserved};
use tsql_lexer::Sign;
use tsql_tree::TableTree;
use value_types::{Units, beside};

/// A table, and where its last lexeme ends.
#[tactic(auto, using(crate::proofs::Elements::table_is))]
pub fn table(alloc: Global, lexemes: &mut Lexemes<'_>) -> Result<(TableTree, u32), ReadFault>
    ensures { Gives (read r.Table lexemes.old) result lexemes.new }
{
    lexemes.want_word(Reserved::Table)?;
    let name = object(alloc, lexemes)?;
    lexemes.want_sign(Sign::Open)?;
    let mut draft = TableDraft::new(alloc, name);
    element(alloc, lexemes, &mut draft)?;
    more_elements(alloc, lexemes, &mut draft)?;
    match lexemes.take(Class::One(Kind::Sign(Sign::Close))) {
        Some(last) => Ok((draft.table, last.end)),
        None => Err(ReadFault::Refused),
    }
}

/// Further elements, each behind a comma.
#[tactic(auto, using(crate::proofs::Elements::more_elements_on))]
fn more_elements(
    alloc: Global,
    lexemes: &mut Lexemes<'_>,
    draft: &mut TableDraft,
) -> Result<(), ReadFault>
    ensures { GivesDraft (applied (draft_of draft.old) (read r.MoreElements lexemes.old)) result draft.new lexemes.new }
{
    for _turn in 0..u64::MAX {
        if !lexemes.accept_sign(Sign::Comma) {
            return Ok(());
        }
        element(alloc, lexemes, draft)?;
    }
    Err(ReadFault::NoRoom)
}

/// A column or a constraint of the table.
#[tactic(auto, using(crate::proofs::Elements::element_on))]
fn element(
    alloc: Global,
    lexemes: &mut Lexemes<'_>,
    draft: &mut TableDraft,
) -> Result<(), ReadFault>
    ensures { GivesDraft (applied (draft_of draft.old) (read r.Element lexemes.old)) result draft.new lexemes.new }
{
    if let Some(name) = lexemes.take_units(alloc, Class::Name)? {
        let kind = sql_type(lexemes)?;
        return column(alloc, lexemes, draft, name, kind);
    }
    if lexemes.accept_word(Reserved::Constraint) {
        let name = lexemes.want_units(alloc, Class::Name)?;
        let found = constraint(alloc, lexemes)?;
        draft.add(alloc, found, Some(name))?;
        return Ok(());
    }
    let found = constraint(alloc, lexemes)?;
    draft.add(alloc, found, None)?;
    Ok(())
}

/// A constraint of the table.
#[tactic(auto, using(crate::proofs::Elements::table_constraint_is))]
fn constraint(alloc: Global, lexemes: &mut Lexemes<'_>) -> Result<Constraint, ReadFault>
    ensures { GivesConstraint (read r.TableConstraint lexemes.old) result lexemes.new }
{
    if lexemes.accept_word(Reserved::Primary) {
        lexemes.want_word(Reserved::Key)?;
        let columns = enclosed_names(alloc, lexemes)?;
        return Ok(Constraint::Key(columns));
    }
    if lexemes.accept_word(Reserved::Unique) {
        let columns = enclosed_names(alloc, lexemes)?;
        return Ok(Constraint::Unique(columns));
    }
    if lexemes.accept_word(Reserved::Check) {
        lexemes.want_sign(Sign::Open)?;
        let test = read_test(alloc, lexemes)?;
        let (test, ()) = beside(test, lexemes.want_sign(Sign::Close))?;
        return Ok(Constraint::Check(test));
    }
    lexemes.want_word(Reserved::Foreign)?;
    lexemes.want_word(Reserved::Key)?;
    let columns = enclosed_names(alloc, lexemes)?;
    lexemes.want_word(Reserved::References)?;
    let parent = object(alloc, lexemes)?;
    let parent_columns = enclosed_names(alloc, lexemes)?;
    Ok(Constraint::Foreign(columns, parent, parent_columns))
}

/// Names in parentheses.
fn enclosed_names(alloc: Global, lexemes: &mut Lexemes<'_>) -> Result<Items<Units>, ReadFault>
    ensures { Gives (enclosed_names lexemes.old) result lexemes.new }
{
    lexemes.want_sign(Sign::Open)?;
    let columns = names(alloc, lexemes)?;
    lexemes.want_sign(Sign::Close)?;
    Ok(columns)
}
