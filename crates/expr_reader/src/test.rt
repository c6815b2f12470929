//! Tests.

ghost use Rattle.std.specs.Prelude.{◌≡◌, ◌+◌, ◌<◌, ◌^◌, Ok, Err, IfOk, OnErr};
ghost use Rattle.tsql_grammar.specs.declared.rule.Rule.TheVariants as r;
ghost use Rattle.tsql_grammar.specs.Trees as trees;
ghost use Rattle.expr_reader.specs.Nests.{Nests};
ghost use Rattle.expr_reader.specs.Parts.{operand_from, chain_from, compared_from, simple_from, enclosed_signed_from, enclosed_select_from, enclosed_not_from, enclosed_exists_from, exists_from, closed_from, enclosed_from, negated_from, is_from, between_from, membership_from, in_list_from, Opens};
ghost use Rattle.lexeme_reader.specs.Reading.{read, applied, Gives};
ghost use Rattle.lexeme_reader.specs.declared.fault.ReadFault.TheVariants.{NoRoom};

use crate::expr::ADDS;
use crate::nested::{Found, Nested};
use crate::reader::Reader;
use lexeme_reader::{Lexemes, ReadFault};
use sqlite_items::{Boxed, Items};
use std::alloc::{AllocError, Global};
use tsql_grammar::{Class, Kind, Reserved};
use tsql_lexer::Sign;
use tsql_tree::{CompareSign, Expr, Test};
use value_types::beside;

const COMPARES: [Class; 6] = [
    Class::One(Kind::Sign(Sign::Equal)),
    Class::One(Kind::Sign(Sign::NotEqual)),
    Class::One(Kind::Sign(Sign::Less)),
    Class::One(Kind::Sign(Sign::LessEqual)),
    Class::One(Kind::Sign(Sign::Greater)),
    Class::One(Kind::Sign(Sign::GreaterEqual)),
];

const BEGINS_SIMPLE: [Class; 15] = [
    Class::Name,
    Class::One(Kind::Variable),
    Class::One(Kind::Number),
    Class::One(Kind::Text),
    Class::One(Kind::TranCount),
    Class::One(Kind::Error),
    Class::One(Kind::RowCount),
    Class::One(Kind::FetchStatus),
    Class::One(Kind::Version),
    Class::One(Kind::ServerName),
    Class::One(Kind::MaxPrecision),
    Class::One(Kind::Reserved(Reserved::Case)),
    Class::One(Kind::Reserved(Reserved::Coalesce)),
    Class::One(Kind::Reserved(Reserved::Null)),
    Class::One(Kind::Reserved(Reserved::NullIf)),
];

impl<F: Fn(Global, &mut Lexemes<'_>, usize, Nested) -> Result<Found, ReadFault>> Reader<F> {
    /// A test.
    #[tactic(auto, using(crate::proofs::TestEquations::test_is))]
    pub fn test(&self, lexemes: &mut Lexemes<'_>) -> Result<Test, ReadFault>
        requires { Nests self.now.depth (F.pre self.now.nested) (F.post self.now.nested) }
        ensures { Gives (read r.Test lexemes.old) result lexemes.new }
    {
        let first = self.and_test(lexemes)?;
        let (first, more) = beside(first, self.more_ors(lexemes))?;
        Ok(any_of(self.alloc, first, more)?)
    }

    /// Further tests joined by OR.
    #[tactic(auto, using(crate::proofs::TestEquations::more_ors_on, lexeme_reader::proofs::Front::front_begin))]
    pub fn more_ors(&self, lexemes: &mut Lexemes<'_>) -> Result<Items<Test>, ReadFault>
        requires { Nests self.now.depth (F.pre self.now.nested) (F.post self.now.nested) }
        ensures { Gives (read r.MoreOrs lexemes.old) result lexemes.new }
    {
        let mut more = Items::new(self.alloc);
        for _turn in 0..u64::MAX {
            if !lexemes.accept_word(Reserved::Or) {
                return Ok(more);
            }
            let found = self.and_test(lexemes)?;
            more.push(found)?;
        }
        Err(ReadFault::NoRoom)
    }

    /// Tests joined by AND.
    #[tactic(auto, using(crate::proofs::TestEquations::and_test_is))]
    pub(crate) fn and_test(&self, lexemes: &mut Lexemes<'_>) -> Result<Test, ReadFault>
        requires { Nests self.now.depth (F.pre self.now.nested) (F.post self.now.nested) }
        ensures { Gives (read r.AndTest lexemes.old) result lexemes.new }
    {
        let first = self.not_test(lexemes)?;
        let (first, more) = beside(first, self.more_ands(lexemes))?;
        Ok(all_of(self.alloc, first, more)?)
    }

    /// Further tests joined by AND.
    #[tactic(auto, using(crate::proofs::TestEquations::more_ands_on, lexeme_reader::proofs::Front::front_begin))]
    pub fn more_ands(&self, lexemes: &mut Lexemes<'_>) -> Result<Items<Test>, ReadFault>
        requires { Nests self.now.depth (F.pre self.now.nested) (F.post self.now.nested) }
        ensures { Gives (read r.MoreAnds lexemes.old) result lexemes.new }
    {
        let mut more = Items::new(self.alloc);
        for _turn in 0..u64::MAX {
            if !lexemes.accept_word(Reserved::And) {
                return Ok(more);
            }
            let found = self.not_test(lexemes)?;
            more.push(found)?;
        }
        Err(ReadFault::NoRoom)
    }

    /// A test with its NOTs.
    #[tactic(auto, using(crate::proofs::TestEquations::not_test_is))]
    pub(crate) fn not_test(&self, lexemes: &mut Lexemes<'_>) -> Result<Test, ReadFault>
        requires { Nests self.now.depth (F.pre self.now.nested) (F.post self.now.nested) }
        ensures { Gives (read r.NotTest lexemes.old) result lexemes.new }
    {
        if !lexemes.accept_word(Reserved::Not) {
            return self.basic(lexemes);
        }
        let count = one_more(more_nots(lexemes)?)?;
        let inner = self.basic(lexemes)?;
        Ok(Test::Not(count, Boxed::new(self.alloc, inner)?))
    }

    /// A test without connectives.
    #[tactic(auto, using(crate::proofs::TestEquations::basic_is))]
    pub fn basic(&self, lexemes: &mut Lexemes<'_>) -> Result<Test, ReadFault>
        requires { Nests self.now.depth (F.pre self.now.nested) (F.post self.now.nested) }
        ensures { Gives (read r.Basic lexemes.old) result lexemes.new }
    {
        if lexemes.accept_word(Reserved::Exists) {
            return self.exists(lexemes);
        }
        if lexemes.accept_sign(Sign::Open) {
            return self.opened(lexemes);
        }
        self.operand_test(lexemes)
    }

    /// A test that begins with an operand in no parenthesis.
    pub(crate) fn operand_test(&self, lexemes: &mut Lexemes<'_>) -> Result<Test, ReadFault>
        requires { Nests self.now.depth (F.pre self.now.nested) (F.post self.now.nested) }
        ensures { Gives (operand_from lexemes.old) result lexemes.new }
    {
        if lexemes.sees_any(&BEGINS_SIMPLE) {
            let first = self.simple_primary(lexemes)?;
            return self.operand(lexemes, 0, first);
        }
        let first = self.signed(lexemes)?;
        self.operand(lexemes, 0, first)
    }

    /// An EXISTS behind that word.
    pub(crate) fn exists(&self, lexemes: &mut Lexemes<'_>) -> Result<Test, ReadFault>
        requires { Nests self.now.depth (F.pre self.now.nested) (F.post self.now.nested) }
        ensures { Gives (exists_from lexemes.old) result lexemes.new }
    {
        lexemes.want_sign(Sign::Open)?;
        lexemes.want_word(Reserved::Select)?;
        let select = self.nested_select(lexemes)?;
        lexemes.want_sign(Sign::Close)?;
        Ok(Test::Exists(select))
    }

    /// A test that begins with a parenthesis, behind that.
    pub(crate) fn opened(&self, lexemes: &mut Lexemes<'_>) -> Result<Test, ReadFault>
        requires { Nests self.now.depth (F.pre self.now.nested) (F.post self.now.nested) }
        ensures { Gives (read (r.Opened 0) lexemes.old) result lexemes.new }
    {
        let opens = more_opens(lexemes)?;
        self.enclosed_test(lexemes, opens)
    }

    /// What stands behind parentheses: the last of them, and so many before it.
    pub(crate) fn enclosed_test(
        &self,
        lexemes: &mut Lexemes<'_>,
        opens: u32,
    ) -> Result<Test, ReadFault>
        requires { Nests self.now.depth (F.pre self.now.nested) (F.post self.now.nested) }
        ensures { Gives (enclosed_from opens lexemes.old) result lexemes.new }
    {
        if lexemes.sees_any(&BEGINS_SIMPLE) {
            return self.enclosed_simple(lexemes, opens);
        }
        if lexemes.sees_any(&ADDS) {
            return self.enclosed_signed(lexemes, opens);
        }
        if lexemes.accept_word(Reserved::Select) {
            return self.enclosed_select(lexemes, opens);
        }
        if lexemes.accept_word(Reserved::Not) {
            return self.enclosed_not(lexemes, opens);
        }
        lexemes.want_word(Reserved::Exists)?;
        self.enclosed_exists(lexemes, opens)
    }

    /// The same, where it begins with an operand that is no parenthesis.
    pub(crate) fn enclosed_simple(
        &self,
        lexemes: &mut Lexemes<'_>,
        opens: u32,
    ) -> Result<Test, ReadFault>
        requires { Nests self.now.depth (F.pre self.now.nested) (F.post self.now.nested) }
        ensures { Gives (simple_from opens lexemes.old) result lexemes.new }
    {
        let opens = one_more(opens)?;
        let first = self.simple_primary(lexemes)?;
        self.operand(lexemes, opens, first)
    }

    /// The same, where it begins with a sign.
    pub(crate) fn enclosed_signed(
        &self,
        lexemes: &mut Lexemes<'_>,
        opens: u32,
    ) -> Result<Test, ReadFault>
        requires { Nests self.now.depth (F.pre self.now.nested) (F.post self.now.nested) }
        ensures { Gives (enclosed_signed_from opens lexemes.old) result lexemes.new }
    {
        let opens = one_more(opens)?;
        let first = self.signed(lexemes)?;
        self.operand(lexemes, opens, first)
    }

    /// The same behind SELECT.
    pub(crate) fn enclosed_select(
        &self,
        lexemes: &mut Lexemes<'_>,
        opens: u32,
    ) -> Result<Test, ReadFault>
        requires { Nests self.now.depth (F.pre self.now.nested) (F.post self.now.nested) }
        ensures { Gives (enclosed_select_from opens lexemes.old) result lexemes.new }
    {
        let select = self.nested_select(lexemes)?;
        lexemes.want_sign(Sign::Close)?;
        self.operand(lexemes, opens, Expr::Query(select))
    }

    /// The same behind NOT.
    pub(crate) fn enclosed_not(
        &self,
        lexemes: &mut Lexemes<'_>,
        opens: u32,
    ) -> Result<Test, ReadFault>
        requires { Nests self.now.depth (F.pre self.now.nested) (F.post self.now.nested) }
        ensures { Gives (enclosed_not_from opens lexemes.old) result lexemes.new }
    {
        let negated = self.negated(lexemes)?;
        let first = self.closed(lexemes, negated)?;
        self.tested(lexemes, opens, first)
    }

    /// The same behind EXISTS.
    pub(crate) fn enclosed_exists(
        &self,
        lexemes: &mut Lexemes<'_>,
        opens: u32,
    ) -> Result<Test, ReadFault>
        requires { Nests self.now.depth (F.pre self.now.nested) (F.post self.now.nested) }
        ensures { Gives (enclosed_exists_from opens lexemes.old) result lexemes.new }
    {
        let exists = self.exists(lexemes)?;
        let first = self.closed(lexemes, exists)?;
        self.tested(lexemes, opens, first)
    }

    /// A test with NOTs in parentheses, behind the first NOT.
    pub(crate) fn negated(&self, lexemes: &mut Lexemes<'_>) -> Result<Test, ReadFault>
        requires { Nests self.now.depth (F.pre self.now.nested) (F.post self.now.nested) }
        ensures { Gives (negated_from lexemes.old) result lexemes.new }
    {
        let count = one_more(more_nots(lexemes)?)?;
        let inner = self.nested_basic(lexemes)?;
        Ok(Test::Not(count, inner))
    }

    /// What follows the first operand of a test, in so many parentheses.
    #[tactic(auto, using(crate::proofs::TestEquations::operand_on, crate::proofs::TestEquations::operand_none))]
    pub(crate) fn operand(
        &self,
        lexemes: &mut Lexemes<'_>,
        opens: u32,
        first: Expr,
    ) -> Result<Test, ReadFault>
        requires { Nests self.now.depth (F.pre self.now.nested) (F.post self.now.nested) }
        ensures { Gives (applied first (read (r.Operand opens) lexemes.old)) result lexemes.new }
    {
        let mut first = first;
        let mut closes = opens;
        while 0 < closes {
            closes -= 1;
            let left = self.boxed_chain(lexemes, first)?;
            if !lexemes.accept_sign(Sign::Close) {
                return self.compared(lexemes, closes, left);
            }
            first = Expr::Parens(left);
        }
        let left = self.boxed_chain(lexemes, first)?;
        self.comparison(lexemes, left)
    }

    /// A comparison to the end of the parenthesis round it, in so many further ones.
    pub(crate) fn compared(
        &self,
        lexemes: &mut Lexemes<'_>,
        opens: u32,
        left: Boxed<Expr>,
    ) -> Result<Test, ReadFault>
        requires { Nests self.now.depth (F.pre self.now.nested) (F.post self.now.nested) }
        ensures { Gives (compared_from left opens lexemes.old) result lexemes.new }
    {
        let test = self.comparison(lexemes, left)?;
        let test = self.closed(lexemes, test)?;
        self.tested(lexemes, opens, test)
    }

    /// The operands that are joined to a first one, boxed.
    pub(crate) fn boxed_chain(
        &self,
        lexemes: &mut Lexemes<'_>,
        first: Expr,
    ) -> Result<Boxed<Expr>, ReadFault>
        requires { Nests self.now.depth (F.pre self.now.nested) (F.post self.now.nested) }
        ensures { Gives (chain_from first lexemes.old) result lexemes.new }
    {
        let chain = self.chain(lexemes, first)?;
        Ok(Boxed::new(self.alloc, chain)?)
    }

    /// What follows a test in a parenthesis, and the end of that.
    pub(crate) fn closed(&self, lexemes: &mut Lexemes<'_>, first: Test) -> Result<Test, ReadFault>
        requires { Nests self.now.depth (F.pre self.now.nested) (F.post self.now.nested) }
        ensures { Gives (closed_from first lexemes.old) result lexemes.new }
    {
        let (first, ands) = beside(first, self.nested_ands(lexemes))?;
        let first = all_of(self.alloc, first, ands)?;
        let (first, ors) = beside(first, self.nested_ors(lexemes))?;
        let test = any_of(self.alloc, first, ors)?;
        let inner = Boxed::new(self.alloc, test)?;
        lexemes.want_sign(Sign::Close)?;
        Ok(Test::Parens(inner))
    }

    /// What follows a test, in so many parentheses.
    #[tactic(auto, using(crate::proofs::TestEquations::tested_on, crate::proofs::TestEquations::tested_none))]
    pub(crate) fn tested(
        &self,
        lexemes: &mut Lexemes<'_>,
        opens: u32,
        first: Test,
    ) -> Result<Test, ReadFault>
        requires { Nests self.now.depth (F.pre self.now.nested) (F.post self.now.nested) }
        ensures { Gives (applied first (read (r.Tested opens) lexemes.old)) result lexemes.new }
    {
        let mut test = first;
        let mut closes = opens;
        while 0 < closes {
            closes -= 1;
            test = self.closed(lexemes, test)?;
        }
        Ok(test)
    }

    /// What follows the left expression of a test.
    #[tactic(auto, using(crate::proofs::TestEquations::comparison_is))]
    pub(crate) fn comparison(
        &self,
        lexemes: &mut Lexemes<'_>,
        left: Boxed<Expr>,
    ) -> Result<Test, ReadFault>
        requires { Nests self.now.depth (F.pre self.now.nested) (F.post self.now.nested) }
        ensures { Gives (applied left (read r.Comparison lexemes.old)) result lexemes.new }
    {
        if lexemes.sees_any(&COMPARES) {
            let sign = compare_sign(lexemes)?;
            let right = self.boxed_expr(lexemes)?;
            return Ok(Test::Compare(left, sign, right));
        }
        if lexemes.accept_word(Reserved::Is) {
            return is_test(lexemes, left);
        }
        if lexemes.accept_word(Reserved::Not) {
            return self.membership(lexemes, left, true);
        }
        self.membership(lexemes, left, false)
    }

    /// BETWEEN or IN.
    #[tactic(auto, using(crate::proofs::TestEquations::membership_is))]
    pub(crate) fn membership(
        &self,
        lexemes: &mut Lexemes<'_>,
        left: Boxed<Expr>,
        negated: bool,
    ) -> Result<Test, ReadFault>
        requires { Nests self.now.depth (F.pre self.now.nested) (F.post self.now.nested) }
        ensures { Gives (membership_from left negated lexemes.old) result lexemes.new }
    {
        if lexemes.accept_word(Reserved::Between) {
            return self.between(lexemes, left, negated);
        }
        lexemes.want_word(Reserved::In)?;
        lexemes.want_sign(Sign::Open)?;
        let test = self.in_list(lexemes, left, negated)?;
        let (test, ()) = beside(test, lexemes.want_sign(Sign::Close))?;
        Ok(test)
    }

    /// A BETWEEN behind that word.
    pub(crate) fn between(
        &self,
        lexemes: &mut Lexemes<'_>,
        left: Boxed<Expr>,
        negated: bool,
    ) -> Result<Test, ReadFault>
        requires { Nests self.now.depth (F.pre self.now.nested) (F.post self.now.nested) }
        ensures { Gives (between_from left negated lexemes.old) result lexemes.new }
    {
        let low = self.boxed_expr(lexemes)?;
        lexemes.want_word(Reserved::And)?;
        let high = self.boxed_expr(lexemes)?;
        Ok(Test::Between(left, negated, low, high))
    }

    /// What the parentheses of an IN enclose.
    #[tactic(auto, using(crate::proofs::TestEquations::in_list_is))]
    pub(crate) fn in_list(
        &self,
        lexemes: &mut Lexemes<'_>,
        left: Boxed<Expr>,
        negated: bool,
    ) -> Result<Test, ReadFault>
        requires { Nests self.now.depth (F.pre self.now.nested) (F.post self.now.nested) }
        ensures { Gives (in_list_from left negated lexemes.old) result lexemes.new }
    {
        if lexemes.accept_word(Reserved::Select) {
            let select = self.nested_select(lexemes)?;
            return Ok(Test::InQuery(left, negated, select));
        }
        let exprs = self.exprs(lexemes)?;
        Ok(Test::InList(left, negated, exprs))
    }
}

/// One more of what is counted.
fn one_more(count: u32) -> Result<u32, ReadFault>
    ensures ok { IfOk result (λ more. more ≡ count + 1) }
    ensures err { OnErr result (result ≡ Err NoRoom) }
    ensures fits { count + 1 < 2 ^ 32 → result ≡ Ok (count + 1) }
{
    match count.checked_add(1) {
        Some(more) => Ok(more),
        None => Err(ReadFault::NoRoom),
    }
}

/// How many further parentheses open.
#[tactic(auto, using(crate::proofs::TestEquations::opened_is))]
fn more_opens(lexemes: &mut Lexemes<'_>) -> Result<u32, ReadFault>
    ensures { Opens lexemes.old result lexemes.new }
{
    for opens in 0..u32::MAX {
        if !lexemes.accept_sign(Sign::Open) {
            return Ok(opens);
        }
    }
    Err(ReadFault::NoRoom)
}

/// Further NOTs.
#[tactic(auto, using(crate::proofs::TestEquations::more_nots_on, lexeme_reader::proofs::Front::counted_begin))]
fn more_nots(lexemes: &mut Lexemes<'_>) -> Result<u32, ReadFault>
    ensures { Gives (read r.MoreNots lexemes.old) result lexemes.new }
{
    for nots in 0..u32::MAX {
        if !lexemes.accept_word(Reserved::Not) {
            return Ok(nots);
        }
    }
    Err(ReadFault::NoRoom)
}

/// An IS NULL behind IS.
fn is_test(lexemes: &mut Lexemes<'_>, left: Boxed<Expr>) -> Result<Test, ReadFault>
    ensures { Gives (is_from left lexemes.old) result lexemes.new }
{
    let negated = optional_not(lexemes)?;
    lexemes.want_word(Reserved::Null)?;
    Ok(Test::IsNull(left, negated))
}

/// NOT, or nothing.
#[tactic(auto, using(crate::proofs::TestEquations::optional_not_is))]
fn optional_not(lexemes: &mut Lexemes<'_>) -> Result<bool, ReadFault>
    ensures { Gives (read r.OptionalNot lexemes.old) result lexemes.new }
{
    if lexemes.accept_word(Reserved::Not) {
        return Ok(true);
    }
    Ok(false)
}

/// A sign of comparison.
#[tactic(auto, using(crate::proofs::TestEquations::compare_sign_is))]
fn compare_sign(lexemes: &mut Lexemes<'_>) -> Result<CompareSign, ReadFault>
    ensures { Gives (read r.CompareSign lexemes.old) result lexemes.new }
{
    if lexemes.accept_sign(Sign::Equal) {
        return Ok(CompareSign::Equal);
    }
    if lexemes.accept_sign(Sign::NotEqual) {
        return Ok(CompareSign::NotEqual);
    }
    if lexemes.accept_sign(Sign::Less) {
        return Ok(CompareSign::Less);
    }
    if lexemes.accept_sign(Sign::LessEqual) {
        return Ok(CompareSign::LessEqual);
    }
    if lexemes.accept_sign(Sign::Greater) {
        return Ok(CompareSign::Greater);
    }
    lexemes.want_sign(Sign::GreaterEqual)?;
    Ok(CompareSign::GreaterEqual)
}

/// A test, and those that OR joins to it.
fn any_of(alloc: Global, first: Test, more: Items<Test>) -> Result<Test, AllocError>
    ensures { IfOk result (λ test. test ≡ trees.any_of first more) }
{
    if more.is_empty() {
        Ok(first)
    } else {
        Ok(Test::Or(Boxed::new(alloc, first)?, more))
    }
}

/// A test, and those that AND joins to it.
fn all_of(alloc: Global, first: Test, more: Items<Test>) -> Result<Test, AllocError>
    ensures { IfOk result (λ test. test ≡ trees.all_of first more) }
{
    if more.is_empty() {
        Ok(first)
    } else {
        Ok(Test::And(Boxed::new(alloc, first)?, more))
    }
}
