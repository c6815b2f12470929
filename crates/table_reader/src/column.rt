//! What follows the type of a column.

ghost use Rattle.std.specs.Prelude.{◌≡◌, ◌∷◌, [], IfOk};
ghost use Rattle.tsql_grammar.specs.declared.rule.Rule.TheVariants as r;
ghost use Rattle.lexeme_reader.specs.Reading.{read, Gives};
ghost use Rattle.table_reader.specs.Drafts.{draft_of, GivesDraft, GivesConstraint, column_from, column_constraint_from};

use crate::draft::{Constraint, TableDraft};
use lexeme_reader::{Lexemes, ReadFault, object};
use query_reader::read_test;
use sqlite_items::Items;
use std::alloc::Global;
use tsql_grammar::{Class, Kind, Reserved};
use tsql_lexer::Sign;
use tsql_tree::ColumnTree;
use value_types::{Memory, SqlType, Units, beside};

/// What constraints of columns begin with.
const BEGINS_CONSTRAINT: [Class; 4] = [
    Class::One(Kind::Reserved(Reserved::Check)),
    Class::One(Kind::Reserved(Reserved::Primary)),
    Class::One(Kind::Reserved(Reserved::References)),
    Class::One(Kind::Reserved(Reserved::Unique)),
];

/// A column behind its name and its type, with its constraints.
#[tactic(auto, using(crate::proofs::Elements::column_on))]
pub(crate) fn column(
    alloc: Global,
    lexemes: &mut Lexemes<'_>,
    draft: &mut TableDraft,
    name: Units,
    kind: SqlType,
) -> Result<(), ReadFault>
    ensures { GivesDraft (column_from name kind (draft_of draft.old) lexemes.old) result draft.new lexemes.new }
{
    let mut required = false;
    for _turn in 0..u64::MAX {
        if lexemes.accept_word(Reserved::Null) {
            continue;
        }
        if lexemes.accept_word(Reserved::Not) {
            lexemes.want_word(Reserved::Null)?;
            required = true;
            continue;
        }
        if lexemes.accept_word(Reserved::Constraint) {
            let given = lexemes.want_units(alloc, Class::Name)?;
            let found = constraint(alloc, lexemes, &name)?;
            draft.add(alloc, found, Some(given))?;
            continue;
        }
        if !lexemes.sees_any(&BEGINS_CONSTRAINT) {
            let column = ColumnTree {
                name,
                kind,
                required,
            };
            draft.add_column(column)?;
            return Ok(());
        }
        let found = constraint(alloc, lexemes, &name)?;
        draft.add(alloc, found, None)?;
    }
    Err(ReadFault::NoRoom)
}

/// A constraint of a column.
#[tactic(auto, using(crate::proofs::Elements::column_constraint_is))]
fn constraint(
    alloc: Global,
    lexemes: &mut Lexemes<'_>,
    column: &Units,
) -> Result<Constraint, ReadFault>
    ensures { GivesConstraint (column_constraint_from column.now lexemes.old) result lexemes.new }
{
    if lexemes.accept_word(Reserved::Primary) {
        lexemes.want_word(Reserved::Key)?;
        let columns = only(alloc, column)?;
        return Ok(Constraint::Key(columns));
    }
    if lexemes.accept_word(Reserved::Unique) {
        let columns = only(alloc, column)?;
        return Ok(Constraint::Unique(columns));
    }
    if lexemes.accept_word(Reserved::Check) {
        lexemes.want_sign(Sign::Open)?;
        let test = read_test(alloc, lexemes)?;
        let (test, ()) = beside(test, lexemes.want_sign(Sign::Close))?;
        return Ok(Constraint::Check(test));
    }
    lexemes.want_word(Reserved::References)?;
    let parent = object(alloc, lexemes)?;
    let parent_columns = referenced_column(alloc, lexemes)?;
    let columns = only(alloc, column)?;
    Ok(Constraint::Foreign(columns, parent, parent_columns))
}

/// One name as a list.
fn only(alloc: Global, name: &Units) -> Result<Items<Units>, Memory>
    ensures { IfOk result (λ names. names ≡ name.now ∷ []) }
{
    let mut names = Items::new(alloc);
    names.push(name.copy(alloc)?)?;
    Ok(names)
}

/// The column that REFERENCES names, if it names one.
#[tactic(auto, using(crate::proofs::Elements::referenced_column_is))]
fn referenced_column(alloc: Global, lexemes: &mut Lexemes<'_>) -> Result<Items<Units>, ReadFault>
    ensures { Gives (read r.ReferencedColumn lexemes.old) result lexemes.new }
{
    let mut columns = Items::new(alloc);
    if !lexemes.accept_sign(Sign::Open) {
        return Ok(columns);
    }
    columns.push(lexemes.want_units(alloc, Class::Name)?)?;
    lexemes.want_sign(Sign::Close)?;
    Ok(columns)
}
