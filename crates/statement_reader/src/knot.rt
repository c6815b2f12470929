//! Statements within others, to a depth.

ghost use Rattle.std.specs.Prelude.{◌≡◌};
ghost use Rattle.tsql_grammar.specs.declared.rule.Rule.TheVariants as r;
ghost use Rattle.lexeme_reader.specs.Reading.{Gives};
ghost use Rattle.statement_reader.specs.declared.nested.Inner.TheVariants as inner;
ghost use Rattle.statement_reader.specs.Nests.{Nests, read_inner};

use crate::nested::{FoundInner, Inner};
use crate::reader::Reader;
use lexeme_reader::{Lexemes, ReadFault};
use sqlite_items::Boxed;
use std::alloc::Global;
use tsql_grammar::Around;
use value_types::Units;

/// How deep statements nest that are read.
pub(crate) const MAX_DEPTH: usize = 128;

/// Reads statements within another, so deep at most.
pub(crate) fn read_inner(
    alloc: Global,
    text: &Units,
    lexemes: &mut Lexemes<'_>,
    depth: usize,
    what: Inner,
) -> Result<FoundInner, ReadFault>
    ensures { Gives (read_inner text.now what lexemes.old) result lexemes.new }
{
    if depth == 0 {
        return Err(ReadFault::NoRoom);
    }
    let reader = Reader {
        alloc,
        text,
        depth: depth - 1,
        nested: read_inner,
    };
    match what {
        Inner::One(around) => reader.find_one(lexemes, around),
        Inner::Body(around) => reader.find_body(lexemes, around),
    }
}

impl<
    't,
    F: Fn(Global, &Units, &mut Lexemes<'_>, usize, Inner) -> Result<FoundInner, ReadFault>,
> Reader<'t, F> {
    /// A statement.
    fn find_one(&self, lexemes: &mut Lexemes<'_>, around: Around) -> Result<FoundInner, ReadFault>
        requires { Nests self.now.depth (F.pre self.now.nested) (F.post self.now.nested) }
        ensures { Gives (read_inner self.now.text.now (inner.One around) lexemes.old) result lexemes.new }
    {
        let found = self.statement(lexemes, around)?;
        Ok(FoundInner::One(Boxed::new(self.alloc, found)?))
    }

    /// Statements and semicolons.
    fn find_body(&self, lexemes: &mut Lexemes<'_>, around: Around) -> Result<FoundInner, ReadFault>
        requires { Nests self.now.depth (F.pre self.now.nested) (F.post self.now.nested) }
        ensures { Gives (read_inner self.now.text.now (inner.Body around) lexemes.old) result lexemes.new }
    {
        let found = self.body(lexemes, around)?;
        Ok(FoundInner::Body(found))
    }
}
