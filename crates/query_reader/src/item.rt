//! What a select gives for a row.

ghost use Rattle.std.specs.Prelude.{◌≡◌};
ghost use Rattle.tsql_grammar.specs.declared.rule.Rule.TheVariants as r;
ghost use Rattle.expr_reader.specs.Nests.{Nests};
ghost use Rattle.query_reader.specs.Parts.{items_from, assigns_from, assign_from};
ghost use Rattle.lexeme_reader.specs.Reading.{read, applied, Gives};

use crate::select::SelectReader;
use expr_reader::{Found, Nested};
use lexeme_reader::{Lexemes, ReadFault};
use sqlite_items::{Boxed, Items};
use std::alloc::Global;
use tsql_grammar::{Class, Function, Kind, Reserved};
use tsql_lexer::Sign;
use tsql_tree::{Expr, Item};
use value_types::{Units, beside};

const BEGINS_OTHER: [Class; 13] = [
    Class::One(Kind::Number),
    Class::One(Kind::Text),
    Class::One(Kind::TranCount),
    Class::One(Kind::Error),
    Class::One(Kind::RowCount),
    Class::One(Kind::FetchStatus),
    Class::One(Kind::Version),
    Class::One(Kind::ServerName),
    Class::One(Kind::MaxPrecision),
    Class::One(Kind::Reserved(Reserved::Case)),
    Class::One(Kind::Reserved(Reserved::Coalesce)),
    Class::One(Kind::Reserved(Reserved::Null)),
    Class::One(Kind::Reserved(Reserved::NullIf)),
];

impl<F: Fn(Global, &mut Lexemes<'_>, usize, Nested) -> Result<Found, ReadFault>> SelectReader<F> {
    /// The items of a select, all with variables that take values or none of them.
    #[tactic(auto, using(crate::proofs::SelectEquations::items_is))]
    pub(crate) fn items(&self, lexemes: &mut Lexemes<'_>) -> Result<Items<Item>, ReadFault>
        requires { Nests self.now.reader.depth (F.pre self.now.reader.nested) (F.post self.now.reader.nested) }
        ensures { Gives (read r.Items lexemes.old) result lexemes.new }
    {
        if let Some(name) = lexemes.take_units(self.reader.alloc, Class::One(Kind::Variable))? {
            return self.after_first_variable(lexemes, name);
        }
        if lexemes.accept_sign(Sign::Star) {
            return self.items_behind(lexemes, Item::All);
        }
        if lexemes.sees_any(&[Class::Name]) {
            let first = self.named_item(lexemes)?;
            return self.items_behind(lexemes, first);
        }
        let first = self.other_item(lexemes)?;
        self.items_behind(lexemes, first)
    }

    /// An item and those that follow it.
    pub(crate) fn items_behind(
        &self,
        lexemes: &mut Lexemes<'_>,
        first: Item,
    ) -> Result<Items<Item>, ReadFault>
        requires { Nests self.now.reader.depth (F.pre self.now.reader.nested) (F.post self.now.reader.nested) }
        ensures { Gives (items_from first lexemes.old) result lexemes.new }
    {
        let mut items = Items::new(self.reader.alloc);
        items.push(first)?;
        items.append(self.more_items(lexemes)?)?;
        Ok(items)
    }

    /// What follows the variable that the items begin with.
    #[tactic(auto, using(crate::proofs::SelectEquations::after_first_variable_is))]
    pub(crate) fn after_first_variable(
        &self,
        lexemes: &mut Lexemes<'_>,
        name: Units,
    ) -> Result<Items<Item>, ReadFault>
        requires { Nests self.now.reader.depth (F.pre self.now.reader.nested) (F.post self.now.reader.nested) }
        ensures { Gives (applied name (read r.AfterFirstVariable lexemes.old)) result lexemes.new }
    {
        if lexemes.accept_sign(Sign::Equal) {
            return self.assigns_behind(lexemes, name);
        }
        let first = self.after_item_operand(lexemes, Expr::Variable(name))?;
        self.items_behind(lexemes, first)
    }

    /// The value that the first variable takes, and further variables with theirs.
    pub(crate) fn assigns_behind(
        &self,
        lexemes: &mut Lexemes<'_>,
        name: Units,
    ) -> Result<Items<Item>, ReadFault>
        requires { Nests self.now.reader.depth (F.pre self.now.reader.nested) (F.post self.now.reader.nested) }
        ensures { Gives (assigns_from name lexemes.old) result lexemes.new }
    {
        let value = self.reader.expr(lexemes)?;
        let mut items = Items::new(self.reader.alloc);
        items.push(Item::Assign(name, value))?;
        items.append(self.more_assigns(lexemes)?)?;
        Ok(items)
    }

    /// Further variables, each behind a comma.
    #[tactic(auto, using(crate::proofs::SelectEquations::more_assigns_on, lexeme_reader::proofs::Front::front_begin))]
    pub(crate) fn more_assigns(&self, lexemes: &mut Lexemes<'_>) -> Result<Items<Item>, ReadFault>
        requires { Nests self.now.reader.depth (F.pre self.now.reader.nested) (F.post self.now.reader.nested) }
        ensures { Gives (read r.MoreAssigns lexemes.old) result lexemes.new }
    {
        let mut more = Items::new(self.reader.alloc);
        for _turn in 0..u64::MAX {
            if !lexemes.accept_sign(Sign::Comma) {
                return Ok(more);
            }
            let found = self.assign(lexemes)?;
            more.push(found)?;
        }
        Err(ReadFault::NoRoom)
    }

    /// A variable and the value that it takes.
    pub(crate) fn assign(&self, lexemes: &mut Lexemes<'_>) -> Result<Item, ReadFault>
        requires { Nests self.now.reader.depth (F.pre self.now.reader.nested) (F.post self.now.reader.nested) }
        ensures { Gives (assign_from lexemes.old) result lexemes.new }
    {
        let name = lexemes.want_units(self.reader.alloc, Class::One(Kind::Variable))?;
        lexemes.want_sign(Sign::Equal)?;
        let value = self.reader.expr(lexemes)?;
        Ok(Item::Assign(name, value))
    }

    /// Further items, each behind a comma.
    #[tactic(auto, using(crate::proofs::SelectEquations::more_items_on, lexeme_reader::proofs::Front::front_begin))]
    pub(crate) fn more_items(&self, lexemes: &mut Lexemes<'_>) -> Result<Items<Item>, ReadFault>
        requires { Nests self.now.reader.depth (F.pre self.now.reader.nested) (F.post self.now.reader.nested) }
        ensures { Gives (read r.MoreItems lexemes.old) result lexemes.new }
    {
        let mut more = Items::new(self.reader.alloc);
        for _turn in 0..u64::MAX {
            if !lexemes.accept_sign(Sign::Comma) {
                return Ok(more);
            }
            let found = self.item(lexemes)?;
            more.push(found)?;
        }
        Err(ReadFault::NoRoom)
    }

    /// An item behind a comma.
    #[tactic(auto, using(crate::proofs::SelectEquations::item_is))]
    pub(crate) fn item(&self, lexemes: &mut Lexemes<'_>) -> Result<Item, ReadFault>
        requires { Nests self.now.reader.depth (F.pre self.now.reader.nested) (F.post self.now.reader.nested) }
        ensures { Gives (read r.Item lexemes.old) result lexemes.new }
    {
        if let Some(name) = lexemes.take_units(self.reader.alloc, Class::One(Kind::Variable))? {
            return self.after_item_operand(lexemes, Expr::Variable(name));
        }
        if lexemes.accept_sign(Sign::Star) {
            return Ok(Item::All);
        }
        if lexemes.sees_any(&[Class::Name]) {
            self.named_item(lexemes)
        } else {
            self.other_item(lexemes)
        }
    }

    /// An item that begins with a name.
    #[tactic(auto, using(crate::proofs::SelectEquations::named_item_is, crate::proofs::SelectEquations::named_item_function_is))]
    pub(crate) fn named_item(&self, lexemes: &mut Lexemes<'_>) -> Result<Item, ReadFault>
        requires { Nests self.now.reader.depth (F.pre self.now.reader.nested) (F.post self.now.reader.nested) }
        ensures { Gives (read r.NamedItem lexemes.old) result lexemes.new }
    {
        if let Some(name) = lexemes.take_units(self.reader.alloc, Class::PlainName)? {
            return self.after_item_name(lexemes, name);
        }
        let Some(Kind::Function(function)) = lexemes.peek() else {
            return Err(ReadFault::NoRoom);
        };
        let name = lexemes.want_units(self.reader.alloc, Class::One(Kind::Function(function)))?;
        self.after_item_function(lexemes, function, name)
    }

    /// What follows the name that an item begins with.
    #[tactic(auto, using(crate::proofs::SelectEquations::after_item_name_is))]
    pub(crate) fn after_item_name(
        &self,
        lexemes: &mut Lexemes<'_>,
        name: Units,
    ) -> Result<Item, ReadFault>
        requires { Nests self.now.reader.depth (F.pre self.now.reader.nested) (F.post self.now.reader.nested) }
        ensures { Gives (applied name (read r.AfterItemName lexemes.old)) result lexemes.new }
    {
        if lexemes.accept_sign(Sign::Dot) {
            return self.after_item_dot(lexemes, name);
        }
        self.after_item_operand(lexemes, Expr::Column(None, name))
    }

    /// What follows that name and a dot.
    #[tactic(auto, using(crate::proofs::SelectEquations::after_item_dot_is))]
    pub(crate) fn after_item_dot(
        &self,
        lexemes: &mut Lexemes<'_>,
        table: Units,
    ) -> Result<Item, ReadFault>
        requires { Nests self.now.reader.depth (F.pre self.now.reader.nested) (F.post self.now.reader.nested) }
        ensures { Gives (applied table (read r.AfterItemDot lexemes.old)) result lexemes.new }
    {
        if lexemes.accept_sign(Sign::Star) {
            return Ok(Item::AllOf(table));
        }
        let name = lexemes.want_units(self.reader.alloc, Class::Name)?;
        let table = Boxed::new(self.reader.alloc, table)?;
        self.after_item_operand(lexemes, Expr::Column(Some(table), name))
    }

    /// What follows the name of a function, or of a column of its name, at the front of an item.
    #[tactic(auto, using(crate::proofs::SelectEquations::after_item_function_is))]
    pub(crate) fn after_item_function(
        &self,
        lexemes: &mut Lexemes<'_>,
        function: Function,
        name: Units,
    ) -> Result<Item, ReadFault>
        requires { Nests self.now.reader.depth (F.pre self.now.reader.nested) (F.post self.now.reader.nested) }
        ensures { Gives (applied name (read (r.AfterItemFunction function) lexemes.old)) result lexemes.new }
    {
        if lexemes.sees_any(&[Class::One(Kind::Sign(Sign::Open))]) {
            let call = self.reader.function_arguments(lexemes, function)?;
            return self.after_item_operand(lexemes, call);
        }
        self.after_item_name(lexemes, name)
    }

    /// An item that begins with neither a name nor a variable.
    #[tactic(auto, using(crate::proofs::SelectEquations::other_item_is))]
    pub(crate) fn other_item(&self, lexemes: &mut Lexemes<'_>) -> Result<Item, ReadFault>
        requires { Nests self.now.reader.depth (F.pre self.now.reader.nested) (F.post self.now.reader.nested) }
        ensures { Gives (read r.OtherItem lexemes.old) result lexemes.new }
    {
        if lexemes.sees_any(&BEGINS_OTHER) {
            let first = self.reader.other_primary(lexemes)?;
            return self.after_item_operand(lexemes, first);
        }
        if lexemes.accept_sign(Sign::Open) {
            let first = self.reader.enclosed(lexemes)?;
            let (first, ()) = beside(first, lexemes.want_sign(Sign::Close))?;
            return self.after_item_operand(lexemes, first);
        }
        let first = self.reader.signed(lexemes)?;
        self.after_item_operand(lexemes, first)
    }

    /// What follows the first operand of an item.
    #[tactic(auto, using(crate::proofs::SelectEquations::after_item_operand_is))]
    pub(crate) fn after_item_operand(
        &self,
        lexemes: &mut Lexemes<'_>,
        first: Expr,
    ) -> Result<Item, ReadFault>
        requires { Nests self.now.reader.depth (F.pre self.now.reader.nested) (F.post self.now.reader.nested) }
        ensures { Gives (applied first (read r.AfterItemOperand lexemes.old)) result lexemes.new }
    {
        let value = self.reader.chain(lexemes, first)?;
        let (value, alias) = beside(value, alias(self.reader.alloc, lexemes))?;
        Ok(Item::Value(value, alias))
    }
}

/// A name that is given, or nothing.
#[tactic(auto, using(crate::proofs::SelectEquations::alias_is))]
pub(crate) fn alias(alloc: Global, lexemes: &mut Lexemes<'_>) -> Result<Option<Units>, ReadFault>
    ensures { Gives (read r.Alias lexemes.old) result lexemes.new }
{
    if lexemes.accept_word(Reserved::As) {
        let name = lexemes.want_units(alloc, Class::Name)?;
        return Ok(Some(name));
    }
    if let Some(name) = lexemes.take_units(alloc, Class::Name)? {
        return Ok(Some(name));
    }
    Ok(None)
}
