//! What nests, to a depth.

ghost use Rattle.std.specs.Prelude.{◌≡◌};
ghost use Rattle.expr_reader.specs.declared.nested.Nested.TheVariants as nested;
ghost use Rattle.expr_reader.specs.Nests.{Nests, read_nested};
ghost use Rattle.lexeme_reader.specs.Reading.{read, Gives};
ghost use Rattle.tsql_grammar.specs.declared.rule.Rule.TheVariants as r;

use crate::select::SelectReader;
use expr_reader::{Found, Nested, Reader};
use lexeme_reader::{Lexemes, ReadFault};
use sqlite_items::{Boxed, Items};
use std::alloc::Global;
use tsql_grammar::Reserved;
use tsql_tree::{Expr, Select, Test};

/// How many readers may stand within one another: one for each nesting, and one outside of all.
const MAX_DEPTH: usize = 129;

/// Reads what nests, so deep at most.
pub(crate) fn read_nested(
    alloc: Global,
    lexemes: &mut Lexemes<'_>,
    depth: usize,
    what: Nested,
) -> Result<Found, ReadFault>
    ensures { Gives (read_nested what lexemes.old) result lexemes.new }
{
    if depth == 0 {
        return Err(ReadFault::NoRoom);
    }
    let reader = SelectReader {
        reader: Reader {
            alloc,
            depth: depth - 1,
            nested: read_nested,
        },
    };
    match what {
        Nested::Expr => reader.find_expr(lexemes),
        Nested::Exprs => reader.find_exprs(lexemes),
        Nested::Test => reader.find_test(lexemes),
        Nested::Basic => reader.find_basic(lexemes),
        Nested::Ands => reader.find_ands(lexemes),
        Nested::Ors => reader.find_ors(lexemes),
        Nested::Select => reader.find_select(lexemes),
    }
}

impl<F: Fn(Global, &mut Lexemes<'_>, usize, Nested) -> Result<Found, ReadFault>> SelectReader<F> {
    /// An expression.
    fn find_expr(&self, lexemes: &mut Lexemes<'_>) -> Result<Found, ReadFault>
        requires { Nests self.now.reader.depth (F.pre self.now.reader.nested) (F.post self.now.reader.nested) }
        ensures { Gives (read_nested nested.Expr lexemes.old) result lexemes.new }
    {
        let found = self.reader.expr(lexemes)?;
        Ok(Found::Expr(Boxed::new(self.reader.alloc, found)?))
    }

    /// Expressions with commas between them.
    fn find_exprs(&self, lexemes: &mut Lexemes<'_>) -> Result<Found, ReadFault>
        requires { Nests self.now.reader.depth (F.pre self.now.reader.nested) (F.post self.now.reader.nested) }
        ensures { Gives (read_nested nested.Exprs lexemes.old) result lexemes.new }
    {
        let found = self.reader.exprs(lexemes)?;
        Ok(Found::Exprs(found))
    }

    /// A test.
    fn find_test(&self, lexemes: &mut Lexemes<'_>) -> Result<Found, ReadFault>
        requires { Nests self.now.reader.depth (F.pre self.now.reader.nested) (F.post self.now.reader.nested) }
        ensures { Gives (read_nested nested.Test lexemes.old) result lexemes.new }
    {
        let found = self.reader.test(lexemes)?;
        Ok(Found::Test(Boxed::new(self.reader.alloc, found)?))
    }

    /// A test without connectives.
    fn find_basic(&self, lexemes: &mut Lexemes<'_>) -> Result<Found, ReadFault>
        requires { Nests self.now.reader.depth (F.pre self.now.reader.nested) (F.post self.now.reader.nested) }
        ensures { Gives (read_nested nested.Basic lexemes.old) result lexemes.new }
    {
        let found = self.reader.basic(lexemes)?;
        Ok(Found::Test(Boxed::new(self.reader.alloc, found)?))
    }

    /// Further tests joined by AND.
    fn find_ands(&self, lexemes: &mut Lexemes<'_>) -> Result<Found, ReadFault>
        requires { Nests self.now.reader.depth (F.pre self.now.reader.nested) (F.post self.now.reader.nested) }
        ensures { Gives (read_nested nested.Ands lexemes.old) result lexemes.new }
    {
        let found = self.reader.more_ands(lexemes)?;
        Ok(Found::Tests(found))
    }

    /// Further tests joined by OR.
    fn find_ors(&self, lexemes: &mut Lexemes<'_>) -> Result<Found, ReadFault>
        requires { Nests self.now.reader.depth (F.pre self.now.reader.nested) (F.post self.now.reader.nested) }
        ensures { Gives (read_nested nested.Ors lexemes.old) result lexemes.new }
    {
        let found = self.reader.more_ors(lexemes)?;
        Ok(Found::Tests(found))
    }

    /// A select behind its word.
    fn find_select(&self, lexemes: &mut Lexemes<'_>) -> Result<Found, ReadFault>
        requires { Nests self.now.reader.depth (F.pre self.now.reader.nested) (F.post self.now.reader.nested) }
        ensures { Gives (read_nested nested.Select lexemes.old) result lexemes.new }
    {
        let found = self.select(lexemes)?;
        Ok(Found::Select(Boxed::new(self.reader.alloc, found)?))
    }
}

/// Reads an expression.
#[tactic(auto, using(expr_reader::proofs::Nesting::nested_expr))]
pub fn read_expr(alloc: Global, lexemes: &mut Lexemes<'_>) -> Result<Expr, ReadFault>
    ensures { Gives (read r.Expr lexemes.old) result lexemes.new }
{
    let found = read_nested(alloc, lexemes, MAX_DEPTH, Nested::Expr)?;
    Ok(found.into_expr()?.into_inner())
}

/// Reads expressions with commas between them.
#[tactic(auto, using(expr_reader::proofs::Nesting::nested_exprs))]
pub fn read_exprs(alloc: Global, lexemes: &mut Lexemes<'_>) -> Result<Items<Expr>, ReadFault>
    ensures { Gives (read r.Exprs lexemes.old) result lexemes.new }
{
    let found = read_nested(alloc, lexemes, MAX_DEPTH, Nested::Exprs)?;
    found.into_exprs()
}

/// Reads a test.
#[tactic(auto, using(expr_reader::proofs::Nesting::nested_test))]
pub fn read_test(alloc: Global, lexemes: &mut Lexemes<'_>) -> Result<Test, ReadFault>
    ensures { Gives (read r.Test lexemes.old) result lexemes.new }
{
    let found = read_nested(alloc, lexemes, MAX_DEPTH, Nested::Test)?;
    Ok(found.into_test()?.into_inner())
}

/// Reads WHERE with its test, or nothing.
#[tactic(auto, using(crate::proofs::SelectEquations::where_is))]
pub fn read_filter(
    alloc: Global,
    lexemes: &mut Lexemes<'_>,
) -> Result<Option<Boxed<Test>>, ReadFault>
    ensures { Gives (read r.Where lexemes.old) result lexemes.new }
{
    if !lexemes.accept_word(Reserved::Where) {
        return Ok(None);
    }
    let test = read_test(alloc, lexemes)?;
    Ok(Some(Boxed::new(alloc, test)?))
}

/// Reads a select behind its word.
#[tactic(auto, using(expr_reader::proofs::Nesting::nested_select))]
pub fn read_select(alloc: Global, lexemes: &mut Lexemes<'_>) -> Result<Select, ReadFault>
    ensures { Gives (read r.Select lexemes.old) result lexemes.new }
{
    let found = read_nested(alloc, lexemes, MAX_DEPTH, Nested::Select)?;
    Ok(found.into_select()?.into_inner())
}
