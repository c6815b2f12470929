//! The reader of what may hold statements.

ghost use Rattle.std.specs.Prelude.{◌≡◌};
ghost use Rattle.tsql_grammar.specs.declared.rule.Rule.TheVariants as r;
ghost use Rattle.lexeme_reader.specs.Reading.{Gives, read_in};
ghost use Rattle.statement_reader.specs.Nests.{Nests};

use crate::nested::{FoundInner, Inner};
use lexeme_reader::{Lexemes, ReadFault};
use sqlite_items::{Boxed, Items};
use std::alloc::Global;
use tsql_grammar::Around;
use tsql_tree::Statement;
use value_types::Units;

/// A reader, with the function that reads statements within others. So each rule is proved by itself.
#[derive(Clone, Copy)]
pub(crate) struct Reader<'t, F> {
    pub alloc: Global,
    /// The text of the batch.
    pub text: &'t Units,
    /// How deep may still be nested.
    pub depth: usize,
    pub nested: F,
}

impl<
    't,
    F: Fn(Global, &Units, &mut Lexemes<'_>, usize, Inner) -> Result<FoundInner, ReadFault>,
> Reader<'t, F> {
    /// A statement within another.
    #[tactic(auto, using(crate::proofs::Nesting::inner_one))]
    pub(crate) fn inner_one(
        &self,
        lexemes: &mut Lexemes<'_>,
        around: Around,
    ) -> Result<Boxed<Statement>, ReadFault>
        requires { Nests self.now.depth (F.pre self.now.nested) (F.post self.now.nested) }
        ensures { Gives (read_in self.now.text.now (r.Statement around) lexemes.old) result lexemes.new }
    {
        let found = (self.nested)(
            self.alloc,
            self.text,
            lexemes,
            self.depth,
            Inner::One(around),
        )?;
        found.into_one()
    }

    /// Statements within another.
    #[tactic(auto, using(crate::proofs::Nesting::inner_body))]
    pub(crate) fn inner_body(
        &self,
        lexemes: &mut Lexemes<'_>,
        around: Around,
    ) -> Result<Items<Statement>, ReadFault>
        requires { Nests self.now.depth (F.pre self.now.nested) (F.post self.now.nested) }
        ensures { Gives (read_in self.now.text.now (r.Body around) lexemes.old) result lexemes.new }
    {
        let found = (self.nested)(
            self.alloc,
            self.text,
            lexemes,
            self.depth,
            Inner::Body(around),
        )?;
        found.into_body()
    }
}
