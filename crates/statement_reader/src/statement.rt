//! Statements.

ghost use Rattle.std.specs.Prelude.{◌≡◌};
ghost use Rattle.tsql_grammar.specs.declared.rule.Rule.TheVariants as r;
ghost use Rattle.lexeme_reader.specs.Reading.{Gives, read_in};
ghost use Rattle.statement_reader.specs.Nests.{Nests};
ghost use Rattle.statement_reader.specs.Parts.{create_table_from, form_from, formed};

use crate::begins::begins_statement;
use crate::nested::{FoundInner, Inner};
use crate::part::slice;
use crate::reader::Reader;
use lexeme_reader::{Lexemes, ReadFault};
use sqlite_items::{Boxed, Items};
use statement_parts::{
    after_declare, after_set, delete, insert, print, raise_error, return_from, select, throw,
    update,
};
use statement_words::{
    after_execute, close_cursor, commit, deallocate, drop_object, fetch, open_cursor, rollback,
    save, use_database,
};
use std::alloc::Global;
use table_reader::table;
use tsql_grammar::{Around, Class, Kind, Reserved};
use tsql_tree::{Form, Statement};
use value_types::Units;

impl<
    't,
    F: Fn(Global, &Units, &mut Lexemes<'_>, usize, Inner) -> Result<FoundInner, ReadFault>,
> Reader<'t, F> {
    /// Statements and semicolons.
    #[tactic(auto, using(crate::proofs::Statements::body_on, crate::proofs::Lists::begins))]
    pub(crate) fn body(
        &self,
        lexemes: &mut Lexemes<'_>,
        around: Around,
    ) -> Result<Items<Statement>, ReadFault>
        requires { Nests self.now.depth (F.pre self.now.nested) (F.post self.now.nested) }
        ensures { Gives (read_in self.now.text.now (r.Body around) lexemes.old) result lexemes.new }
    {
        let mut body = Items::new(self.alloc);
        for _turn in 0..u64::MAX {
            if lexemes.accept(Class::Semicolon) {
                continue;
            }
            if !begins_statement(lexemes, around) {
                return Ok(body);
            }
            let found = self.statement(lexemes, around)?;
            body.push(found)?;
        }
        Err(ReadFault::NoRoom)
    }

    /// A statement.
    #[tactic(auto, using(crate::proofs::Statements::statement_is))]
    pub(crate) fn statement(
        &self,
        lexemes: &mut Lexemes<'_>,
        around: Around,
    ) -> Result<Statement, ReadFault>
        requires { Nests self.now.depth (F.pre self.now.nested) (F.post self.now.nested) }
        ensures { Gives (read_in self.now.text.now (r.Statement around) lexemes.old) result lexemes.new }
    {
        let create = Class::One(Kind::Reserved(Reserved::Create));
        match lexemes.take(create) {
            Some(first) => create_table(self.alloc, self.text, lexemes, first.line, first.start),
            None => self.other_statement(lexemes, around),
        }
    }

    /// A statement that is no CREATE TABLE.
    #[tactic(auto, using(crate::proofs::Statements::reserved_gives))]
    pub(crate) fn other_statement(
        &self,
        lexemes: &mut Lexemes<'_>,
        around: Around,
    ) -> Result<Statement, ReadFault>
        requires { Nests self.now.depth (F.pre self.now.nested) (F.post self.now.nested) }
        ensures { Gives (read_in self.now.text.now (r.OtherStatement around) lexemes.old) result lexemes.new }
    {
        match lexemes.peek() {
            Some(Kind::Reserved(word)) => self.formed(lexemes, around, word),
            _ => Err(ReadFault::NoRoom),
        }
    }

    /// One that begins with this word.
    fn formed(
        &self,
        lexemes: &mut Lexemes<'_>,
        around: Around,
        word: Reserved,
    ) -> Result<Statement, ReadFault>
        requires { Nests self.now.depth (F.pre self.now.nested) (F.post self.now.nested) }
        ensures { Gives (formed self.now.text.now around word lexemes.old) result lexemes.new }
    {
        let Some(first) = lexemes.take(Class::One(Kind::Reserved(word))) else {
            return Err(ReadFault::Refused);
        };
        let line = first.line;
        let form = self.form(lexemes, around, word)?;
        Ok(Statement { line, form })
    }

    /// What follows the first word of a statement that is no CREATE TABLE.
    fn form(
        &self,
        lexemes: &mut Lexemes<'_>,
        around: Around,
        word: Reserved,
    ) -> Result<Form, ReadFault>
        requires { Nests self.now.depth (F.pre self.now.nested) (F.post self.now.nested) }
        ensures { Gives (form_from self.now.text.now around word lexemes.old) result lexemes.new }
    {
        let alloc = self.alloc;
        match word {
            Reserved::Select => select(alloc, lexemes),
            Reserved::Insert => insert(alloc, lexemes),
            Reserved::Update => update(alloc, lexemes),
            Reserved::Delete => delete(alloc, lexemes),
            Reserved::Drop => drop_object(alloc, lexemes),
            Reserved::If => self.if_form(lexemes, around),
            Reserved::While => self.while_form(lexemes, around),
            Reserved::Begin => self.after_begin(lexemes, around),
            Reserved::Print => print(alloc, lexemes),
            Reserved::RaiseError => raise_error(alloc, lexemes),
            Reserved::Return => return_from(alloc, lexemes),
            Reserved::Throw => throw(alloc, lexemes, around),
            Reserved::Declare => after_declare(alloc, lexemes),
            Reserved::Set => after_set(alloc, lexemes),
            Reserved::Commit => commit(alloc, lexemes),
            Reserved::Rollback => rollback(alloc, lexemes),
            Reserved::Save => save(alloc, lexemes),
            Reserved::Open => open_cursor(alloc, lexemes),
            Reserved::Fetch => fetch(alloc, lexemes),
            Reserved::Close => close_cursor(alloc, lexemes),
            Reserved::Deallocate => deallocate(alloc, lexemes),
            Reserved::Use => use_database(alloc, lexemes),
            Reserved::Execute => after_execute(alloc, lexemes),
            Reserved::Break if around.in_while => Ok(Form::Break),
            Reserved::Continue if around.in_while => Ok(Form::Continue),
            _ => Err(ReadFault::NoRoom),
        }
    }
}

/// CREATE TABLE behind CREATE, which stands at a line and has so many units before it.
pub(crate) fn create_table(
    alloc: Global,
    text: &Units,
    lexemes: &mut Lexemes<'_>,
    line: u32,
    start: u32,
) -> Result<Statement, ReadFault>
    ensures { Gives (create_table_from text.now line start lexemes.old) result lexemes.new }
{
    let (tree, ends) = table(alloc, lexemes)?;
    let tree = Boxed::new(alloc, tree)?;
    let part = slice(alloc, text, start, ends)?;
    let form = Form::CreateTable(tree, part);
    Ok(Statement { line, form })
}
