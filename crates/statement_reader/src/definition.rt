//! Batches, and the texts of definitions.

ghost use Rattle.std.specs.Prelude.{◌≡◌};
ghost use Rattle.tsql_grammar.specs.declared.rule.Rule.TheVariants as r;
ghost use Rattle.lexeme_reader.specs.Reading.{Gives, applied, read_in};
ghost use Rattle.statement_reader.specs.Nests.{Nests};
ghost use Rattle.statement_reader.specs.Parts.{procedure_from, trigger_from, definition_from, behind_from, first_created};

use crate::begins::begins_other_statement;
use crate::knot::{MAX_DEPTH, read_inner};
use crate::nested::{FoundInner, Inner};
use crate::part::slice;
use crate::reader::Reader;
use crate::statement::create_table;
use lexeme_reader::{Lexemes, ReadFault, object};
use sqlite_items::Items;
use statement_words::{events, params, trigger_time};
use std::alloc::Global;
use table_reader::table;
use tsql_grammar::{Around, Class, Kind, Reserved};
use tsql_tree::{Batch, Definition, ProcedureTree, Statement, TriggerTree};
use value_types::Units;

/// What stands around the statements of a batch, or of a definition.
const OUTSIDE: Around = Around {
    in_while: false,
    in_catch: false,
};

/// Reads a batch of a text. Its last lexeme ends behind so many units.
pub fn read_batch(
    alloc: Global,
    text: &Units,
    lexemes: &mut Lexemes<'_>,
    ends: u32,
) -> Result<Batch, ReadFault>
    ensures { Gives (applied ends (read_in text.now r.Batch lexemes.old)) result lexemes.new }
{
    let reader = Reader {
        alloc,
        text,
        depth: MAX_DEPTH,
        nested: read_inner,
    };
    reader.batch(lexemes, ends)
}

/// Reads the text of one definition.
pub fn read_definition(
    alloc: Global,
    text: &Units,
    lexemes: &mut Lexemes<'_>,
) -> Result<Definition, ReadFault>
    ensures { Gives (read_in text.now r.Definition lexemes.old) result lexemes.new }
{
    let reader = Reader {
        alloc,
        text,
        depth: MAX_DEPTH,
        nested: read_inner,
    };
    reader.definition(lexemes)
}

impl<
    't,
    F: Fn(Global, &Units, &mut Lexemes<'_>, usize, Inner) -> Result<FoundInner, ReadFault>,
> Reader<'t, F> {
    /// A batch, whose last lexeme ends behind so many units.
    #[tactic(auto, using(crate::proofs::Batches::batch_on))]
    fn batch(&self, lexemes: &mut Lexemes<'_>, ends: u32) -> Result<Batch, ReadFault>
        requires { Nests self.now.depth (F.pre self.now.nested) (F.post self.now.nested) }
        ensures { Gives (applied ends (read_in self.now.text.now r.Batch lexemes.old)) result lexemes.new }
    {
        let create = Class::One(Kind::Reserved(Reserved::Create));
        if let Some(first) = lexemes.take(create) {
            return self.after_first_create(lexemes, first.line, first.start, ends);
        }
        if lexemes.accept(Class::Semicolon) {
            let body = self.body(lexemes, OUTSIDE)?;
            return Ok(Batch::Body(body));
        }
        if begins_other_statement(lexemes) {
            let first = self.other_statement(lexemes, OUTSIDE)?;
            let body = self.behind(lexemes, first)?;
            return Ok(Batch::Body(body));
        }
        Ok(Batch::Body(Items::new(self.alloc)))
    }

    /// A statement and those that follow it.
    fn behind(
        &self,
        lexemes: &mut Lexemes<'_>,
        first: Statement,
    ) -> Result<Items<Statement>, ReadFault>
        requires { Nests self.now.depth (F.pre self.now.nested) (F.post self.now.nested) }
        ensures { Gives (behind_from self.now.text.now first lexemes.old) result lexemes.new }
    {
        let mut body = Items::new(self.alloc);
        body.push(first)?;
        body.append(self.body(lexemes, OUTSIDE)?)?;
        Ok(body)
    }

    /// A batch behind its first CREATE.
    fn after_first_create(
        &self,
        lexemes: &mut Lexemes<'_>,
        line: u32,
        start: u32,
        ends: u32,
    ) -> Result<Batch, ReadFault>
        requires { Nests self.now.depth (F.pre self.now.nested) (F.post self.now.nested) }
        ensures { Gives (first_created self.now.text.now line start ends lexemes.old) result lexemes.new }
    {
        if lexemes.sees_any(&[Class::One(Kind::Reserved(Reserved::Procedure))]) {
            let part = slice(self.alloc, self.text, start, ends)?;
            let procedure = self.procedure(lexemes)?;
            return Ok(Batch::Definition(line, procedure, part));
        }
        if lexemes.sees_any(&[Class::One(Kind::Reserved(Reserved::Trigger))]) {
            let part = slice(self.alloc, self.text, start, ends)?;
            let trigger = self.trigger(lexemes)?;
            return Ok(Batch::Definition(line, trigger, part));
        }
        let first = create_table(self.alloc, self.text, lexemes, line, start)?;
        let body = self.behind(lexemes, first)?;
        Ok(Batch::Body(body))
    }

    /// The text of one definition.
    #[tactic(auto, using(crate::proofs::Batches::definition_is))]
    fn definition(&self, lexemes: &mut Lexemes<'_>) -> Result<Definition, ReadFault>
        requires { Nests self.now.depth (F.pre self.now.nested) (F.post self.now.nested) }
        ensures { Gives (read_in self.now.text.now r.Definition lexemes.old) result lexemes.new }
    {
        lexemes.want_word(Reserved::Create)?;
        self.after_create(lexemes)
    }

    /// It behind CREATE.
    fn after_create(&self, lexemes: &mut Lexemes<'_>) -> Result<Definition, ReadFault>
        requires { Nests self.now.depth (F.pre self.now.nested) (F.post self.now.nested) }
        ensures { Gives (definition_from self.now.text.now lexemes.old) result lexemes.new }
    {
        if lexemes.sees_any(&[Class::One(Kind::Reserved(Reserved::Procedure))]) {
            return self.procedure(lexemes);
        }
        if lexemes.sees_any(&[Class::One(Kind::Reserved(Reserved::Trigger))]) {
            return self.trigger(lexemes);
        }
        let (tree, _ends) = table(self.alloc, lexemes)?;
        Ok(Definition::Table(tree))
    }

    /// A procedure behind CREATE.
    fn procedure(&self, lexemes: &mut Lexemes<'_>) -> Result<Definition, ReadFault>
        requires { Nests self.now.depth (F.pre self.now.nested) (F.post self.now.nested) }
        ensures { Gives (procedure_from self.now.text.now lexemes.old) result lexemes.new }
    {
        lexemes.want_word(Reserved::Procedure)?;
        let name = object(self.alloc, lexemes)?;
        let parameters = params(self.alloc, lexemes)?;
        lexemes.want_word(Reserved::As)?;
        let body = self.body(lexemes, OUTSIDE)?;
        Ok(Definition::Procedure(ProcedureTree {
            name,
            parameters,
            body,
        }))
    }

    /// A trigger behind CREATE.
    fn trigger(&self, lexemes: &mut Lexemes<'_>) -> Result<Definition, ReadFault>
        requires { Nests self.now.depth (F.pre self.now.nested) (F.post self.now.nested) }
        ensures { Gives (trigger_from self.now.text.now lexemes.old) result lexemes.new }
    {
        lexemes.want_word(Reserved::Trigger)?;
        let name = object(self.alloc, lexemes)?;
        lexemes.want_word(Reserved::On)?;
        let table = object(self.alloc, lexemes)?;
        trigger_time(lexemes)?;
        let events = events(self.alloc, lexemes)?;
        lexemes.want_word(Reserved::As)?;
        let body = self.body(lexemes, OUTSIDE)?;
        Ok(Definition::Trigger(TriggerTree {
            name,
            table,
            events,
            body,
        }))
    }
}
