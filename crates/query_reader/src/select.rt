//! Selects, behind the word SELECT.

ghost use Rattle.std.specs.Prelude.{◌≡◌};
ghost use Rattle.tsql_grammar.specs.declared.rule.Rule.TheVariants as r;
ghost use Rattle.expr_reader.specs.Nests.{Nests};
ghost use Rattle.lexeme_reader.specs.Reading.{read, Gives};

use expr_reader::{Found, Nested, Reader, distinct};
use lexeme_reader::{Lexemes, ReadFault};
use sqlite_items::{Boxed, Items};
use std::alloc::Global;
use tsql_grammar::Reserved;
use tsql_lexer::Sign;
use tsql_tree::{Expr, OrderItem, Select, Test};
use value_types::beside;

/// A reader of selects.
#[derive(Clone, Copy)]
pub(crate) struct SelectReader<F> {
    /// The reader of the expressions and tests in them.
    pub reader: Reader<F>,
}

impl<F: Fn(Global, &mut Lexemes<'_>, usize, Nested) -> Result<Found, ReadFault>> SelectReader<F> {
    /// A select behind that word.
    #[tactic(auto, using(crate::proofs::SelectEquations::select_is))]
    pub(crate) fn select(&self, lexemes: &mut Lexemes<'_>) -> Result<Select, ReadFault>
        requires { Nests self.now.reader.depth (F.pre self.now.reader.nested) (F.post self.now.reader.nested) }
        ensures { Gives (read r.Select lexemes.old) result lexemes.new }
    {
        let distinct = distinct(lexemes)?;
        let top = top(lexemes)?;
        let read = beside(self.items(lexemes)?, self.from(lexemes))?;
        let read = beside(read, self.filter(lexemes))?;
        let read = beside(read, self.group_by(lexemes))?;
        let read = beside(read, self.having(lexemes))?;
        let read = beside(read, self.order_by(lexemes))?;
        let (((((items, from), filter), groups), having), order) = read;
        Ok(Select {
            distinct,
            top,
            items,
            from,
            filter,
            groups,
            having,
            order,
        })
    }

    /// WHERE with its test, or nothing.
    #[tactic(auto, using(crate::proofs::SelectEquations::where_is))]
    pub(crate) fn filter(&self, lexemes: &mut Lexemes<'_>) -> Result<Option<Boxed<Test>>, ReadFault>
        requires { Nests self.now.reader.depth (F.pre self.now.reader.nested) (F.post self.now.reader.nested) }
        ensures { Gives (read r.Where lexemes.old) result lexemes.new }
    {
        if !lexemes.accept_word(Reserved::Where) {
            return Ok(None);
        }
        let test = self.reader.test(lexemes)?;
        Ok(Some(Boxed::new(self.reader.alloc, test)?))
    }

    /// GROUP BY with its expressions, or nothing.
    #[tactic(auto, using(crate::proofs::SelectEquations::group_by_is))]
    pub(crate) fn group_by(&self, lexemes: &mut Lexemes<'_>) -> Result<Items<Expr>, ReadFault>
        requires { Nests self.now.reader.depth (F.pre self.now.reader.nested) (F.post self.now.reader.nested) }
        ensures { Gives (read r.GroupBy lexemes.old) result lexemes.new }
    {
        if !lexemes.accept_word(Reserved::Group) {
            return Ok(Items::new(self.reader.alloc));
        }
        lexemes.want_word(Reserved::By)?;
        self.reader.exprs(lexemes)
    }

    /// HAVING with its test, or nothing.
    #[tactic(auto, using(crate::proofs::SelectEquations::having_is))]
    pub(crate) fn having(&self, lexemes: &mut Lexemes<'_>) -> Result<Option<Boxed<Test>>, ReadFault>
        requires { Nests self.now.reader.depth (F.pre self.now.reader.nested) (F.post self.now.reader.nested) }
        ensures { Gives (read r.Having lexemes.old) result lexemes.new }
    {
        if !lexemes.accept_word(Reserved::Having) {
            return Ok(None);
        }
        let test = self.reader.test(lexemes)?;
        Ok(Some(Boxed::new(self.reader.alloc, test)?))
    }

    /// ORDER BY with what it names, or nothing.
    #[tactic(auto, using(crate::proofs::SelectEquations::order_by_is))]
    pub(crate) fn order_by(&self, lexemes: &mut Lexemes<'_>) -> Result<Items<OrderItem>, ReadFault>
        requires { Nests self.now.reader.depth (F.pre self.now.reader.nested) (F.post self.now.reader.nested) }
        ensures { Gives (read r.OrderBy lexemes.old) result lexemes.new }
    {
        let mut order = Items::new(self.reader.alloc);
        if !lexemes.accept_word(Reserved::Order) {
            return Ok(order);
        }
        lexemes.want_word(Reserved::By)?;
        order.push(self.order_item(lexemes)?)?;
        order.append(self.more_order_items(lexemes)?)?;
        Ok(order)
    }

    /// An expression and the direction.
    #[tactic(auto, using(crate::proofs::SelectEquations::order_item_is))]
    pub(crate) fn order_item(&self, lexemes: &mut Lexemes<'_>) -> Result<OrderItem, ReadFault>
        requires { Nests self.now.reader.depth (F.pre self.now.reader.nested) (F.post self.now.reader.nested) }
        ensures { Gives (read r.OrderItem lexemes.old) result lexemes.new }
    {
        let expr = self.reader.expr(lexemes)?;
        let (expr, descending) = beside(expr, direction(lexemes))?;
        Ok(OrderItem { expr, descending })
    }

    /// Further ones, each behind a comma.
    #[tactic(auto, using(crate::proofs::SelectEquations::more_order_items_on, lexeme_reader::proofs::Front::front_begin))]
    pub(crate) fn more_order_items(
        &self,
        lexemes: &mut Lexemes<'_>,
    ) -> Result<Items<OrderItem>, ReadFault>
        requires { Nests self.now.reader.depth (F.pre self.now.reader.nested) (F.post self.now.reader.nested) }
        ensures { Gives (read r.MoreOrderItems lexemes.old) result lexemes.new }
    {
        let mut more = Items::new(self.reader.alloc);
        for _turn in 0..u64::MAX {
            if !lexemes.accept_sign(Sign::Comma) {
                return Ok(more);
            }
            let found = self.order_item(lexemes)?;
            more.push(found)?;
        }
        Err(ReadFault::NoRoom)
    }
}

/// TOP with its number, or nothing.
#[tactic(auto, using(crate::proofs::SelectEquations::top_is))]
fn top(lexemes: &mut Lexemes<'_>) -> Result<Option<i64>, ReadFault>
    ensures { Gives (read r.Top lexemes.old) result lexemes.new }
{
    if !lexemes.accept_word(Reserved::Top) {
        return Ok(None);
    }
    let number = top_number(lexemes)?;
    Ok(Some(number))
}

/// The number of a TOP.
#[tactic(auto, using(crate::proofs::SelectEquations::top_number_is))]
fn top_number(lexemes: &mut Lexemes<'_>) -> Result<i64, ReadFault>
    ensures { Gives (read r.TopNumber lexemes.old) result lexemes.new }
{
    if let Some(number) = lexemes.take_number() {
        return Ok(number);
    }
    lexemes.want_sign(Sign::Open)?;
    let number = lexemes.want_number()?;
    lexemes.want_sign(Sign::Close)?;
    Ok(number)
}

/// ASC or DESC, or nothing; whether it is DESC.
#[tactic(auto, using(crate::proofs::SelectEquations::direction_is))]
fn direction(lexemes: &mut Lexemes<'_>) -> Result<bool, ReadFault>
    ensures { Gives (read r.Direction lexemes.old) result lexemes.new }
{
    if lexemes.accept_word(Reserved::Asc) {
        return Ok(false);
    }
    if lexemes.accept_word(Reserved::Desc) {
        return Ok(true);
    }
    Ok(false)
}
