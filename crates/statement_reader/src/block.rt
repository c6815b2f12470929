//! Statements that hold others, behind their first words.

ghost use Rattle.std.specs.Prelude.{◌≡◌};
ghost use Rattle.tsql_grammar.specs.declared.rule.Rule.TheVariants as r;
ghost use Rattle.tsql_grammar.specs.Productions as grammar;
ghost use Rattle.lexeme_reader.specs.Reading.{read, Gives, read_in};
ghost use Rattle.statement_reader.specs.Nests.{Nests};
ghost use Rattle.statement_reader.specs.Parts.{if_form, while_form, try_form, block_form};

use crate::nested::{FoundInner, Inner};
use crate::reader::Reader;
use lexeme_reader::{Lexemes, ReadFault};
use query_reader::read_test;
use sqlite_items::{Boxed, Items};
use statement_words::begin_transaction;
use std::alloc::Global;
use tsql_grammar::{Around, Class, Kind, Reserved, Word};
use tsql_tree::{Form, Statement};
use value_types::Units;

impl<
    't,
    F: Fn(Global, &Units, &mut Lexemes<'_>, usize, Inner) -> Result<FoundInner, ReadFault>,
> Reader<'t, F> {
    /// An IF.
    pub(crate) fn if_form(
        &self,
        lexemes: &mut Lexemes<'_>,
        around: Around,
    ) -> Result<Form, ReadFault>
        requires { Nests self.now.depth (F.pre self.now.nested) (F.post self.now.nested) }
        ensures { Gives (if_form self.now.text.now around lexemes.old) result lexemes.new }
    {
        let test = read_test(self.alloc, lexemes)?;
        let test = Boxed::new(self.alloc, test)?;
        let does = self.inner_one(lexemes, around)?;
        let other = self.else_form(lexemes, around)?;
        Ok(Form::If(test, does, other))
    }

    /// ELSE and its statement, if there are any.
    #[tactic(auto, using(crate::proofs::Statements::else_is))]
    fn else_form(
        &self,
        lexemes: &mut Lexemes<'_>,
        around: Around,
    ) -> Result<Option<Boxed<Statement>>, ReadFault>
        requires { Nests self.now.depth (F.pre self.now.nested) (F.post self.now.nested) }
        ensures { Gives (read_in self.now.text.now (r.Else around) lexemes.old) result lexemes.new }
    {
        if lexemes.accept_word(Reserved::Else) {
            let other = self.inner_one(lexemes, around)?;
            return Ok(Some(other));
        }
        if lexemes.accept(Class::One(Kind::BeforeElse)) {
            lexemes.want_word(Reserved::Else)?;
            let other = self.inner_one(lexemes, around)?;
            return Ok(Some(other));
        }
        Ok(None)
    }

    /// A WHILE.
    pub(crate) fn while_form(
        &self,
        lexemes: &mut Lexemes<'_>,
        around: Around,
    ) -> Result<Form, ReadFault>
        requires { Nests self.now.depth (F.pre self.now.nested) (F.post self.now.nested) }
        ensures { Gives (while_form self.now.text.now around lexemes.old) result lexemes.new }
    {
        let test = read_test(self.alloc, lexemes)?;
        let test = Boxed::new(self.alloc, test)?;
        let does = self.inner_one(lexemes, within_while(around))?;
        Ok(Form::While(test, does))
    }

    /// What follows a BEGIN: a transaction, a TRY or a block.
    #[tactic(auto, using(crate::proofs::Statements::after_begin_is))]
    pub(crate) fn after_begin(
        &self,
        lexemes: &mut Lexemes<'_>,
        around: Around,
    ) -> Result<Form, ReadFault>
        requires { Nests self.now.depth (F.pre self.now.nested) (F.post self.now.nested) }
        ensures { Gives (read_in self.now.text.now (r.AfterBegin around) lexemes.old) result lexemes.new }
    {
        let words = [
            Class::One(Kind::Reserved(Reserved::Tran)),
            Class::One(Kind::Reserved(Reserved::Transaction)),
        ];
        if lexemes.sees_any(&words) {
            return begin_transaction(self.alloc, lexemes);
        }
        if lexemes.accept(Class::One(Kind::Word(Word::Try))) {
            return self.try_form(lexemes, around);
        }
        self.block_form(lexemes, around)
    }

    /// A TRY behind BEGIN TRY, with its CATCH.
    fn try_form(&self, lexemes: &mut Lexemes<'_>, around: Around) -> Result<Form, ReadFault>
        requires { Nests self.now.depth (F.pre self.now.nested) (F.post self.now.nested) }
        ensures { Gives (try_form self.now.text.now around lexemes.old) result lexemes.new }
    {
        let tried = self.inner_body(lexemes, around)?;
        lexemes.want_word(Reserved::End)?;
        lexemes.want(Class::One(Kind::Word(Word::Try)))?;
        optional_semicolon(lexemes)?;
        lexemes.want_word(Reserved::Begin)?;
        lexemes.want(Class::One(Kind::Word(Word::Catch)))?;
        let caught = self.inner_body(lexemes, within_catch(around))?;
        lexemes.want_word(Reserved::End)?;
        lexemes.want(Class::One(Kind::Word(Word::Catch)))?;
        Ok(Form::TryCatch(tried, caught))
    }

    /// A block behind BEGIN.
    fn block_form(&self, lexemes: &mut Lexemes<'_>, around: Around) -> Result<Form, ReadFault>
        requires { Nests self.now.depth (F.pre self.now.nested) (F.post self.now.nested) }
        ensures { Gives (block_form self.now.text.now around lexemes.old) result lexemes.new }
    {
        semicolons(lexemes)?;
        let first = self.inner_one(lexemes, around)?;
        let mut body = Items::new(self.alloc);
        body.push(first.into_inner())?;
        body.append(self.inner_body(lexemes, around)?)?;
        lexemes.want_word(Reserved::End)?;
        Ok(Form::Block(body))
    }
}

/// What stands around the statement of a WHILE.
fn within_while(around: Around) -> Around
    ensures { result ≡ grammar.within_while around }
{
    Around {
        in_while: true,
        in_catch: around.in_catch,
    }
}

/// What stands around the statements of a CATCH.
fn within_catch(around: Around) -> Around
    ensures { result ≡ grammar.within_catch around }
{
    Around {
        in_while: around.in_while,
        in_catch: true,
    }
}

/// Semicolons.
#[tactic(auto, using(crate::proofs::Statements::semicolons_is))]
fn semicolons(lexemes: &mut Lexemes<'_>) -> Result<(), ReadFault>
    ensures { Gives (read r.Semicolons lexemes.old) result lexemes.new }
{
    for _turn in 0..u64::MAX {
        if !lexemes.accept(Class::Semicolon) {
            return Ok(());
        }
    }
    Err(ReadFault::NoRoom)
}

/// One semicolon, or none.
#[tactic(auto, using(crate::proofs::Statements::optional_semicolon_is))]
fn optional_semicolon(lexemes: &mut Lexemes<'_>) -> Result<(), ReadFault>
    ensures { Gives (read r.OptionalSemicolon lexemes.old) result lexemes.new }
{
    if lexemes.accept(Class::Semicolon) {
        return Ok(());
    }
    Ok(())
}
