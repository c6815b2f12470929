//! The tables of a select.

ghost use Rattle.std.specs.Prelude.{◌≡◌};
ghost use Rattle.tsql_grammar.specs.declared.rule.Rule.TheVariants as r;
ghost use Rattle.expr_reader.specs.Nests.{Nests};
ghost use Rattle.query_reader.specs.Parts.{join_from, inner_from, left_from};
ghost use Rattle.lexeme_reader.specs.Reading.{read, Gives};

use crate::item::alias;
use crate::select::SelectReader;
use expr_reader::{Found, Nested};
use lexeme_reader::{Lexemes, ReadFault, object};
use sqlite_items::Items;
use std::alloc::Global;
use tsql_grammar::Reserved;
use tsql_lexer::Sign;
use tsql_tree::{FromClause, Join, TableRef};
use value_types::beside;

impl<F: Fn(Global, &mut Lexemes<'_>, usize, Nested) -> Result<Found, ReadFault>> SelectReader<F> {
    /// FROM with its tables, or nothing.
    #[tactic(auto, using(crate::proofs::SelectEquations::from_is))]
    pub(crate) fn from(&self, lexemes: &mut Lexemes<'_>) -> Result<Option<FromClause>, ReadFault>
        requires { Nests self.now.reader.depth (F.pre self.now.reader.nested) (F.post self.now.reader.nested) }
        ensures { Gives (read r.From lexemes.old) result lexemes.new }
    {
        if !lexemes.accept_word(Reserved::From) {
            return Ok(None);
        }
        let first = table_ref(self.reader.alloc, lexemes)?;
        let (first, joins) = beside(first, self.joins(lexemes))?;
        Ok(Some(FromClause { first, joins }))
    }

    /// The tables that are joined.
    #[tactic(auto, using(crate::proofs::SelectEquations::joins_on, lexeme_reader::proofs::Front::front_begin))]
    pub(crate) fn joins(&self, lexemes: &mut Lexemes<'_>) -> Result<Items<Join>, ReadFault>
        requires { Nests self.now.reader.depth (F.pre self.now.reader.nested) (F.post self.now.reader.nested) }
        ensures { Gives (read r.Joins lexemes.old) result lexemes.new }
    {
        let mut more = Items::new(self.reader.alloc);
        for _turn in 0..u64::MAX {
            let Some(found) = self.join(lexemes)? else {
                return Ok(more);
            };
            more.push(found)?;
        }
        Err(ReadFault::NoRoom)
    }

    /// A further table, if one is joined.
    pub(crate) fn join(&self, lexemes: &mut Lexemes<'_>) -> Result<Option<Join>, ReadFault>
        requires { Nests self.now.reader.depth (F.pre self.now.reader.nested) (F.post self.now.reader.nested) }
        ensures { Gives (join_from lexemes.old) result lexemes.new }
    {
        if lexemes.accept_sign(Sign::Comma) {
            let table = table_ref(self.reader.alloc, lexemes)?;
            return Ok(Some(Join::Comma(table)));
        }
        if lexemes.accept_word(Reserved::Join) {
            let join = self.inner(lexemes)?;
            return Ok(Some(join));
        }
        if lexemes.accept_word(Reserved::Inner) {
            lexemes.want_word(Reserved::Join)?;
            let join = self.inner(lexemes)?;
            return Ok(Some(join));
        }
        if lexemes.accept_word(Reserved::Left) {
            let join = self.left(lexemes)?;
            return Ok(Some(join));
        }
        if lexemes.accept_word(Reserved::Cross) {
            lexemes.want_word(Reserved::Join)?;
            let table = table_ref(self.reader.alloc, lexemes)?;
            return Ok(Some(Join::Cross(table)));
        }
        Ok(None)
    }

    /// An inner join behind JOIN.
    pub(crate) fn inner(&self, lexemes: &mut Lexemes<'_>) -> Result<Join, ReadFault>
        requires { Nests self.now.reader.depth (F.pre self.now.reader.nested) (F.post self.now.reader.nested) }
        ensures { Gives (inner_from lexemes.old) result lexemes.new }
    {
        let table = table_ref(self.reader.alloc, lexemes)?;
        lexemes.want_word(Reserved::On)?;
        Ok(Join::Inner(table, self.reader.test(lexemes)?))
    }

    /// A left join behind LEFT.
    pub(crate) fn left(&self, lexemes: &mut Lexemes<'_>) -> Result<Join, ReadFault>
        requires { Nests self.now.reader.depth (F.pre self.now.reader.nested) (F.post self.now.reader.nested) }
        ensures { Gives (left_from lexemes.old) result lexemes.new }
    {
        outer(lexemes)?;
        lexemes.want_word(Reserved::Join)?;
        let table = table_ref(self.reader.alloc, lexemes)?;
        lexemes.want_word(Reserved::On)?;
        Ok(Join::Left(table, self.reader.test(lexemes)?))
    }
}

/// OUTER, or nothing.
#[tactic(auto, using(crate::proofs::SelectEquations::outer_is))]
fn outer(lexemes: &mut Lexemes<'_>) -> Result<(), ReadFault>
    ensures { Gives (read r.Outer lexemes.old) result lexemes.new }
{
    if lexemes.accept_word(Reserved::Outer) {
        return Ok(());
    }
    Ok(())
}

/// A table and the name that it is given.
#[tactic(auto, using(crate::proofs::SelectEquations::table_ref_is))]
fn table_ref(alloc: Global, lexemes: &mut Lexemes<'_>) -> Result<TableRef, ReadFault>
    ensures { Gives (read r.TableRef lexemes.old) result lexemes.new }
{
    let name = object(alloc, lexemes)?;
    let alias = alias(alloc, lexemes)?;
    Ok(TableRef { name, alias })
}
