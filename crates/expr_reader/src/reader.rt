//! The reader of what may hold expressions, tests and selects.

ghost use Rattle.std.specs.Prelude.{◌≡◌};
ghost use Rattle.tsql_grammar.specs.declared.rule.Rule.TheVariants as r;
ghost use Rattle.lexeme_reader.specs.Reading.{read, Gives};
ghost use Rattle.expr_reader.specs.Nests.{Nests, read_nested};

use crate::nested::{Found, Nested};
use lexeme_reader::{Lexemes, ReadFault};
use sqlite_items::{Boxed, Items};
use std::alloc::Global;
use tsql_tree::{Expr, Select, Test};

/// A reader, with the function that reads what nests. So each rule is proved by itself.
#[derive(Clone, Copy)]
pub struct Reader<F> {
    pub alloc: Global,
    /// How deep may still be nested.
    pub depth: usize,
    pub nested: F,
}

impl<F: Fn(Global, &mut Lexemes<'_>, usize, Nested) -> Result<Found, ReadFault>> Reader<F> {
    /// A nested expression.
    #[tactic(auto, using(crate::proofs::Nesting::nested_expr))]
    pub fn nested_expr(&self, lexemes: &mut Lexemes<'_>) -> Result<Boxed<Expr>, ReadFault>
        requires { Nests self.now.depth (F.pre self.now.nested) (F.post self.now.nested) }
        ensures { Gives (read r.Expr lexemes.old) result lexemes.new }
    {
        let found = (self.nested)(self.alloc, lexemes, self.depth, Nested::Expr)?;
        found.into_expr()
    }

    /// A nested test.
    #[tactic(auto, using(crate::proofs::Nesting::nested_test))]
    pub fn nested_test(&self, lexemes: &mut Lexemes<'_>) -> Result<Boxed<Test>, ReadFault>
        requires { Nests self.now.depth (F.pre self.now.nested) (F.post self.now.nested) }
        ensures { Gives (read r.Test lexemes.old) result lexemes.new }
    {
        let found = (self.nested)(self.alloc, lexemes, self.depth, Nested::Test)?;
        found.into_test()
    }

    /// A nested test without connectives.
    #[tactic(auto, using(crate::proofs::Nesting::nested_basic))]
    pub fn nested_basic(&self, lexemes: &mut Lexemes<'_>) -> Result<Boxed<Test>, ReadFault>
        requires { Nests self.now.depth (F.pre self.now.nested) (F.post self.now.nested) }
        ensures { Gives (read r.Basic lexemes.old) result lexemes.new }
    {
        let found = (self.nested)(self.alloc, lexemes, self.depth, Nested::Basic)?;
        found.into_test()
    }

    /// A nested select.
    #[tactic(auto, using(crate::proofs::Nesting::nested_select))]
    pub fn nested_select(&self, lexemes: &mut Lexemes<'_>) -> Result<Boxed<Select>, ReadFault>
        requires { Nests self.now.depth (F.pre self.now.nested) (F.post self.now.nested) }
        ensures { Gives (read r.Select lexemes.old) result lexemes.new }
    {
        let found = (self.nested)(self.alloc, lexemes, self.depth, Nested::Select)?;
        found.into_select()
    }

    /// Nested expressions with commas between them.
    #[tactic(auto, using(crate::proofs::Nesting::nested_exprs))]
    pub fn nested_exprs(&self, lexemes: &mut Lexemes<'_>) -> Result<Items<Expr>, ReadFault>
        requires { Nests self.now.depth (F.pre self.now.nested) (F.post self.now.nested) }
        ensures { Gives (read r.Exprs lexemes.old) result lexemes.new }
    {
        let found = (self.nested)(self.alloc, lexemes, self.depth, Nested::Exprs)?;
        found.into_exprs()
    }

    /// Nested tests joined by AND.
    #[tactic(auto, using(crate::proofs::Nesting::nested_ands))]
    pub fn nested_ands(&self, lexemes: &mut Lexemes<'_>) -> Result<Items<Test>, ReadFault>
        requires { Nests self.now.depth (F.pre self.now.nested) (F.post self.now.nested) }
        ensures { Gives (read r.MoreAnds lexemes.old) result lexemes.new }
    {
        let found = (self.nested)(self.alloc, lexemes, self.depth, Nested::Ands)?;
        found.into_tests()
    }

    /// Nested tests joined by OR.
    #[tactic(auto, using(crate::proofs::Nesting::nested_ors))]
    pub fn nested_ors(&self, lexemes: &mut Lexemes<'_>) -> Result<Items<Test>, ReadFault>
        requires { Nests self.now.depth (F.pre self.now.nested) (F.post self.now.nested) }
        ensures { Gives (read r.MoreOrs lexemes.old) result lexemes.new }
    {
        let found = (self.nested)(self.alloc, lexemes, self.depth, Nested::Ors)?;
        found.into_tests()
    }
}
