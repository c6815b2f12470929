//! Queries, and statements that write rows, behind their first words.

ghost use Rattle.std.specs.Prelude.{◌≡◌};
ghost use Rattle.tsql_grammar.specs.declared.rule.Rule.TheVariants as r;
ghost use Rattle.lexeme_reader.specs.Reading.{read, applied, Gives};
ghost use Rattle.statement_parts.specs.Forms.{select_form, insert_form, update_form, delete_form};

use lexeme_reader::{Lexemes, ReadFault, object};
use query_reader::{read_expr, read_exprs, read_filter, read_select};
use sqlite_items::{Boxed, Items};
use statement_words::names;
use std::alloc::Global;
use tsql_grammar::{Class, Reserved};
use tsql_lexer::Sign;
use tsql_tree::{Assignment, Expr, Form, InsertRows};
use value_types::Units;

/// A SELECT behind that word.
pub fn select(alloc: Global, lexemes: &mut Lexemes<'_>) -> Result<Form, ReadFault>
    ensures { Gives (select_form lexemes.old) result lexemes.new }
{
    let select = read_select(alloc, lexemes)?;
    Ok(Form::Select(Boxed::new(alloc, select)?))
}

/// An INSERT behind that word.
pub fn insert(alloc: Global, lexemes: &mut Lexemes<'_>) -> Result<Form, ReadFault>
    ensures { Gives (insert_form lexemes.old) result lexemes.new }
{
    into(lexemes)?;
    let table = object(alloc, lexemes)?;
    after_insert_table(alloc, lexemes, table)
}

/// INTO, or nothing.
#[tactic(auto, using(crate::proofs::Clauses::into_is))]
fn into(lexemes: &mut Lexemes<'_>) -> Result<(), ReadFault>
    ensures { Gives (read r.Into lexemes.old) result lexemes.new }
{
    if lexemes.accept_word(Reserved::Into) {
        return Ok(());
    }
    Ok(())
}

/// What follows the table of an INSERT.
#[tactic(auto, using(crate::proofs::Clauses::after_insert_table_on))]
fn after_insert_table(
    alloc: Global,
    lexemes: &mut Lexemes<'_>,
    table: Units,
) -> Result<Form, ReadFault>
    ensures { Gives (applied table (read r.AfterInsertTable lexemes.old)) result lexemes.new }
{
    if !lexemes.accept_sign(Sign::Open) {
        let rows = insert_rows(alloc, lexemes)?;
        return Ok(Form::Insert(table, Items::new(alloc), Boxed::new(alloc, rows)?));
    }
    let columns = names(alloc, lexemes)?;
    lexemes.want_sign(Sign::Close)?;
    let rows = insert_rows(alloc, lexemes)?;
    Ok(Form::Insert(table, columns, Boxed::new(alloc, rows)?))
}

/// The rows of an INSERT.
#[tactic(auto, using(crate::proofs::Clauses::insert_rows_is))]
fn insert_rows(alloc: Global, lexemes: &mut Lexemes<'_>) -> Result<InsertRows, ReadFault>
    ensures { Gives (read r.InsertRows lexemes.old) result lexemes.new }
{
    if lexemes.accept_word(Reserved::Values) {
        let mut rows = Items::new(alloc);
        rows.push(value_row(alloc, lexemes)?)?;
        rows.append(more_value_rows(alloc, lexemes)?)?;
        return Ok(InsertRows::Values(rows));
    }
    lexemes.want_word(Reserved::Select)?;
    let select = read_select(alloc, lexemes)?;
    Ok(InsertRows::Query(select))
}

/// A row of VALUES.
#[tactic(auto, using(crate::proofs::Clauses::value_row_is))]
fn value_row(alloc: Global, lexemes: &mut Lexemes<'_>) -> Result<Items<Expr>, ReadFault>
    ensures { Gives (read r.ValueRow lexemes.old) result lexemes.new }
{
    lexemes.want_sign(Sign::Open)?;
    let values = read_exprs(alloc, lexemes)?;
    lexemes.want_sign(Sign::Close)?;
    Ok(values)
}

/// Further rows, each behind a comma.
#[tactic(auto, using(crate::proofs::Clauses::more_value_rows_on, lexeme_reader::proofs::Front::front_begin))]
fn more_value_rows(
    alloc: Global,
    lexemes: &mut Lexemes<'_>,
) -> Result<Items<Items<Expr>>, ReadFault>
    ensures { Gives (read r.MoreValueRows lexemes.old) result lexemes.new }
{
    let mut more = Items::new(alloc);
    for _turn in 0..u64::MAX {
        if !lexemes.accept_sign(Sign::Comma) {
            return Ok(more);
        }
        let found = value_row(alloc, lexemes)?;
        more.push(found)?;
    }
    Err(ReadFault::NoRoom)
}

/// An UPDATE behind that word.
pub fn update(alloc: Global, lexemes: &mut Lexemes<'_>) -> Result<Form, ReadFault>
    ensures { Gives (update_form lexemes.old) result lexemes.new }
{
    let table = object(alloc, lexemes)?;
    lexemes.want_word(Reserved::Set)?;
    let mut assignments = Items::new(alloc);
    assignments.push(assignment(alloc, lexemes)?)?;
    assignments.append(more_assignments(alloc, lexemes)?)?;
    let filter = read_filter(alloc, lexemes)?;
    Ok(Form::Update(table, assignments, filter))
}

/// A column that is set, and to what.
#[tactic(auto, using(crate::proofs::Clauses::assignment_is))]
fn assignment(alloc: Global, lexemes: &mut Lexemes<'_>) -> Result<Assignment, ReadFault>
    ensures { Gives (read r.Assignment lexemes.old) result lexemes.new }
{
    let name = lexemes.want_units(alloc, Class::Name)?;
    lexemes.want_sign(Sign::Equal)?;
    let value = read_expr(alloc, lexemes)?;
    Ok(Assignment { name, value })
}

/// Further assignments, each behind a comma.
#[tactic(auto, using(crate::proofs::Clauses::more_assignments_on, lexeme_reader::proofs::Front::front_begin))]
fn more_assignments(
    alloc: Global,
    lexemes: &mut Lexemes<'_>,
) -> Result<Items<Assignment>, ReadFault>
    ensures { Gives (read r.MoreAssignments lexemes.old) result lexemes.new }
{
    let mut more = Items::new(alloc);
    for _turn in 0..u64::MAX {
        if !lexemes.accept_sign(Sign::Comma) {
            return Ok(more);
        }
        let found = assignment(alloc, lexemes)?;
        more.push(found)?;
    }
    Err(ReadFault::NoRoom)
}

/// A DELETE behind that word.
pub fn delete(alloc: Global, lexemes: &mut Lexemes<'_>) -> Result<Form, ReadFault>
    ensures { Gives (delete_form lexemes.old) result lexemes.new }
{
    delete_from(lexemes)?;
    let table = object(alloc, lexemes)?;
    let filter = read_filter(alloc, lexemes)?;
    Ok(Form::Delete(table, filter))
}

/// FROM, or nothing.
#[tactic(auto, using(crate::proofs::Clauses::delete_from_is))]
fn delete_from(lexemes: &mut Lexemes<'_>) -> Result<(), ReadFault>
    ensures { Gives (read r.DeleteFrom lexemes.old) result lexemes.new }
{
    if lexemes.accept_word(Reserved::From) {
        return Ok(());
    }
    Ok(())
}
