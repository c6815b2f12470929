//! Expressions.

ghost use Rattle.std.specs.Prelude.{◌≡◌, ◌||◌, IfOk};
ghost use Rattle.tsql_tree.specs.declared.query.Expr.TheVariants as tree;
ghost use Rattle.tsql_grammar.specs.declared.rule.Rule.TheVariants as r;
ghost use Rattle.tsql_grammar.specs.Trees as trees;
ghost use Rattle.expr_reader.specs.Nests.{Nests};
ghost use Rattle.expr_reader.specs.Parts.{case_from, pair_from, coalesce_from, signed_from, chain_from};
ghost use Rattle.lexeme_reader.specs.Reading.{read, sees_any, Gives};
ghost use Rattle.tsql_grammar.specs.Lookahead.{adds, multiplies};

use crate::nested::{Found, Nested};
use crate::reader::Reader;
use lexeme_reader::{Lexemes, ReadFault};
use sqlite_items::{Boxed, Items};
use std::alloc::{AllocError, Global};
use tsql_grammar::{Class, Kind, Reserved};
use tsql_lexer::Sign;
use tsql_tree::{AddSign, Arm, Expr, Factor, MultiplySign, SystemWord, Term};
use value_types::beside;

/// The signs that an operand may begin with.
pub const ADDS: [Class; 2] = [
    Class::One(Kind::Sign(Sign::Plus)),
    Class::One(Kind::Sign(Sign::Minus)),
];

const MULTIPLIES: [Class; 3] = [
    Class::One(Kind::Sign(Sign::Star)),
    Class::One(Kind::Sign(Sign::Slash)),
    Class::One(Kind::Sign(Sign::Percent)),
];

impl<F: Fn(Global, &mut Lexemes<'_>, usize, Nested) -> Result<Found, ReadFault>> Reader<F> {
    /// An expression.
    #[tactic(auto, using(crate::proofs::Equations::expr_is, crate::proofs::Equations::expr_alone))]
    pub fn expr(&self, lexemes: &mut Lexemes<'_>) -> Result<Expr, ReadFault>
        requires { Nests self.now.depth (F.pre self.now.nested) (F.post self.now.nested) }
        ensures { Gives (read r.Expr lexemes.old) result lexemes.new }
    {
        let first = self.product(lexemes)?;
        if !lexemes.sees_any(&ADDS) {
            return Ok(first);
        }
        let (first, more) = beside(first, self.more_terms(lexemes))?;
        Ok(sum(self.alloc, first, more)?)
    }

    /// An expression, boxed.
    pub(crate) fn boxed_expr(&self, lexemes: &mut Lexemes<'_>) -> Result<Boxed<Expr>, ReadFault>
        requires { Nests self.now.depth (F.pre self.now.nested) (F.post self.now.nested) }
        ensures { Gives (read r.Expr lexemes.old) result lexemes.new }
    {
        let expr = self.expr(lexemes)?;
        Ok(Boxed::new(self.alloc, expr)?)
    }

    /// Further operands of a sum.
    #[tactic(auto, using(crate::proofs::Equations::more_terms_on, lexeme_reader::proofs::Front::front_begin))]
    pub(crate) fn more_terms(&self, lexemes: &mut Lexemes<'_>) -> Result<Items<Term>, ReadFault>
        requires { Nests self.now.depth (F.pre self.now.nested) (F.post self.now.nested) }
        ensures { Gives (read r.MoreTerms lexemes.old) result lexemes.new }
    {
        let mut more = Items::new(self.alloc);
        for _turn in 0..u64::MAX {
            if !lexemes.sees_any(&ADDS) {
                return Ok(more);
            }
            let sign = add_sign(lexemes)?;
            let operand = self.product(lexemes)?;
            more.push(Term { sign, operand })?;
        }
        Err(ReadFault::NoRoom)
    }

    /// Operands joined by `*`, `/` and `%`.
    #[tactic(auto, using(crate::proofs::Equations::product_is, crate::proofs::Equations::product_alone))]
    pub(crate) fn product(&self, lexemes: &mut Lexemes<'_>) -> Result<Expr, ReadFault>
        requires { Nests self.now.depth (F.pre self.now.nested) (F.post self.now.nested) }
        ensures { Gives (read r.Product lexemes.old) result lexemes.new }
    {
        let first = self.unary(lexemes)?;
        if !lexemes.sees_any(&MULTIPLIES) {
            return Ok(first);
        }
        let (first, more) = beside(first, self.more_factors(lexemes))?;
        Ok(product(self.alloc, first, more)?)
    }

    /// Further operands of a product.
    #[tactic(auto, using(crate::proofs::Equations::more_factors_on, lexeme_reader::proofs::Front::front_begin))]
    pub(crate) fn more_factors(&self, lexemes: &mut Lexemes<'_>) -> Result<Items<Factor>, ReadFault>
        requires { Nests self.now.depth (F.pre self.now.nested) (F.post self.now.nested) }
        ensures { Gives (read r.MoreFactors lexemes.old) result lexemes.new }
    {
        let mut more = Items::new(self.alloc);
        for _turn in 0..u64::MAX {
            if !lexemes.sees_any(&MULTIPLIES) {
                return Ok(more);
            }
            let sign = multiply_sign(lexemes)?;
            let operand = self.unary(lexemes)?;
            more.push(Factor { sign, operand })?;
        }
        Err(ReadFault::NoRoom)
    }

    /// An operand with its signs.
    #[tactic(auto, using(crate::proofs::Equations::unary_is))]
    pub(crate) fn unary(&self, lexemes: &mut Lexemes<'_>) -> Result<Expr, ReadFault>
        requires { Nests self.now.depth (F.pre self.now.nested) (F.post self.now.nested) }
        ensures { Gives (read r.Unary lexemes.old) result lexemes.new }
    {
        if lexemes.sees_any(&ADDS) {
            self.signed(lexemes)
        } else {
            self.primary(lexemes)
        }
    }

    /// An operand behind signs.
    pub fn signed(&self, lexemes: &mut Lexemes<'_>) -> Result<Expr, ReadFault>
        requires { Nests self.now.depth (F.pre self.now.nested) (F.post self.now.nested) }
        ensures { Gives (signed_from lexemes.old) result lexemes.new }
    {
        let mut signs = Items::new(self.alloc);
        signs.push(add_sign(lexemes)?)?;
        signs.append(more_signs(self.alloc, lexemes)?)?;
        let operand = self.primary(lexemes)?;
        Ok(Expr::Signed(signs, Boxed::new(self.alloc, operand)?))
    }

    /// The operands that are joined to a first one.
    #[tactic(auto, using(crate::proofs::Equations::chain_alone))]
    pub fn chain(&self, lexemes: &mut Lexemes<'_>, first: Expr) -> Result<Expr, ReadFault>
        requires { Nests self.now.depth (F.pre self.now.nested) (F.post self.now.nested) }
        ensures { Gives (chain_from first lexemes.old) result lexemes.new }
    {
        if !joins(lexemes) {
            return Ok(first);
        }
        let (first, factors) = beside(first, self.more_factors(lexemes))?;
        let first = product(self.alloc, first, factors)?;
        let (first, terms) = beside(first, self.more_terms(lexemes))?;
        Ok(sum(self.alloc, first, terms)?)
    }

    /// An operand.
    #[tactic(auto, using(crate::proofs::Equations::primary_is))]
    pub(crate) fn primary(&self, lexemes: &mut Lexemes<'_>) -> Result<Expr, ReadFault>
        requires { Nests self.now.depth (F.pre self.now.nested) (F.post self.now.nested) }
        ensures { Gives (read r.Primary lexemes.old) result lexemes.new }
    {
        if !lexemes.accept_sign(Sign::Open) {
            return self.simple_primary(lexemes);
        }
        let inner = self.enclosed(lexemes)?;
        let (inner, ()) = beside(inner, lexemes.want_sign(Sign::Close))?;
        Ok(inner)
    }

    /// What a parenthesis of an expression encloses.
    #[tactic(auto, using(crate::proofs::Equations::enclosed_is))]
    pub fn enclosed(&self, lexemes: &mut Lexemes<'_>) -> Result<Expr, ReadFault>
        requires { Nests self.now.depth (F.pre self.now.nested) (F.post self.now.nested) }
        ensures { Gives (read r.Enclosed lexemes.old) result lexemes.new }
    {
        if lexemes.accept_word(Reserved::Select) {
            return Ok(Expr::Query(self.nested_select(lexemes)?));
        }
        Ok(Expr::Parens(self.nested_expr(lexemes)?))
    }

    /// An operand that begins with no parenthesis.
    #[tactic(auto, using(crate::proofs::Equations::simple_primary_is))]
    pub(crate) fn simple_primary(&self, lexemes: &mut Lexemes<'_>) -> Result<Expr, ReadFault>
        requires { Nests self.now.depth (F.pre self.now.nested) (F.post self.now.nested) }
        ensures { Gives (read r.SimplePrimary lexemes.old) result lexemes.new }
    {
        if let Some(name) = lexemes.take_units(self.alloc, Class::One(Kind::Variable))? {
            return Ok(Expr::Variable(name));
        }
        if lexemes.sees_any(&[Class::Name]) {
            self.named_primary(lexemes)
        } else {
            self.other_primary(lexemes)
        }
    }

    /// One that begins with neither a name nor a variable either.
    #[tactic(auto, using(crate::proofs::Equations::other_primary_is))]
    pub fn other_primary(&self, lexemes: &mut Lexemes<'_>) -> Result<Expr, ReadFault>
        requires { Nests self.now.depth (F.pre self.now.nested) (F.post self.now.nested) }
        ensures { Gives (read r.OtherPrimary lexemes.old) result lexemes.new }
    {
        if let Some(number) = lexemes.take_number() {
            return Ok(Expr::Number(number));
        }
        if let Some(text) = lexemes.take_units(self.alloc, Class::One(Kind::Text))? {
            return Ok(Expr::Text(text));
        }
        if lexemes.accept_word(Reserved::Null) {
            return Ok(Expr::Null);
        }
        if lexemes.accept(Class::One(Kind::TranCount)) {
            return Ok(Expr::System(SystemWord::TranCount));
        }
        if lexemes.accept(Class::One(Kind::Error)) {
            return Ok(Expr::System(SystemWord::Error));
        }
        if lexemes.accept(Class::One(Kind::RowCount)) {
            return Ok(Expr::System(SystemWord::RowCount));
        }
        if lexemes.accept(Class::One(Kind::FetchStatus)) {
            return Ok(Expr::System(SystemWord::FetchStatus));
        }
        if lexemes.accept(Class::One(Kind::Version)) {
            return Ok(Expr::System(SystemWord::Version));
        }
        if lexemes.accept(Class::One(Kind::ServerName)) {
            return Ok(Expr::System(SystemWord::ServerName));
        }
        if lexemes.accept(Class::One(Kind::MaxPrecision)) {
            return Ok(Expr::System(SystemWord::MaxPrecision));
        }
        if lexemes.accept_word(Reserved::Case) {
            return self.case(lexemes);
        }
        if lexemes.accept_word(Reserved::NullIf) {
            return self.null_if(lexemes);
        }
        lexemes.want_word(Reserved::Coalesce)?;
        self.coalesce(lexemes)
    }

    /// A CASE behind that word.
    pub(crate) fn case(&self, lexemes: &mut Lexemes<'_>) -> Result<Expr, ReadFault>
        requires { Nests self.now.depth (F.pre self.now.nested) (F.post self.now.nested) }
        ensures { Gives (case_from lexemes.old) result lexemes.new }
    {
        let mut arms = Items::new(self.alloc);
        arms.push(self.arm(lexemes)?)?;
        arms.append(self.more_arms(lexemes)?)?;
        let other = self.case_else(lexemes)?;
        lexemes.want_word(Reserved::End)?;
        Ok(Expr::Case(arms, other))
    }

    /// An arm of a CASE.
    #[tactic(auto, using(crate::proofs::Equations::arm_is))]
    pub(crate) fn arm(&self, lexemes: &mut Lexemes<'_>) -> Result<Arm, ReadFault>
        requires { Nests self.now.depth (F.pre self.now.nested) (F.post self.now.nested) }
        ensures { Gives (read r.Arm lexemes.old) result lexemes.new }
    {
        lexemes.want_word(Reserved::When)?;
        let test = self.nested_test(lexemes)?;
        lexemes.want_word(Reserved::Then)?;
        let gives = self.nested_expr(lexemes)?;
        Ok(Arm {
            test: test.into_inner(),
            gives: gives.into_inner(),
        })
    }

    /// Further arms.
    #[tactic(auto, using(crate::proofs::Equations::more_arms_on, lexeme_reader::proofs::Front::front_begin))]
    pub(crate) fn more_arms(&self, lexemes: &mut Lexemes<'_>) -> Result<Items<Arm>, ReadFault>
        requires { Nests self.now.depth (F.pre self.now.nested) (F.post self.now.nested) }
        ensures { Gives (read r.MoreArms lexemes.old) result lexemes.new }
    {
        let mut more = Items::new(self.alloc);
        for _turn in 0..u64::MAX {
            if !lexemes.sees_any(&[Class::One(Kind::Reserved(Reserved::When))]) {
                return Ok(more);
            }
            let arm = self.arm(lexemes)?;
            more.push(arm)?;
        }
        Err(ReadFault::NoRoom)
    }

    /// The ELSE of a CASE, if there is one.
    #[tactic(auto, using(crate::proofs::Equations::case_else_is))]
    pub(crate) fn case_else(
        &self,
        lexemes: &mut Lexemes<'_>,
    ) -> Result<Option<Boxed<Expr>>, ReadFault>
        requires { Nests self.now.depth (F.pre self.now.nested) (F.post self.now.nested) }
        ensures { Gives (read r.CaseElse lexemes.old) result lexemes.new }
    {
        if !lexemes.accept_word(Reserved::Else) {
            return Ok(None);
        }
        let other = self.nested_expr(lexemes)?;
        Ok(Some(other))
    }

    /// A NULLIF behind that word.
    pub(crate) fn null_if(&self, lexemes: &mut Lexemes<'_>) -> Result<Expr, ReadFault>
        requires { Nests self.now.depth (F.pre self.now.nested) (F.post self.now.nested) }
        ensures { Gives (pair_from tree.NullIf lexemes.old) result lexemes.new }
    {
        lexemes.want_sign(Sign::Open)?;
        let first = self.nested_expr(lexemes)?;
        lexemes.want_sign(Sign::Comma)?;
        let second = self.nested_expr(lexemes)?;
        lexemes.want_sign(Sign::Close)?;
        Ok(Expr::NullIf(first, second))
    }

    /// An ISNULL behind that word.
    pub(crate) fn is_null(&self, lexemes: &mut Lexemes<'_>) -> Result<Expr, ReadFault>
        requires { Nests self.now.depth (F.pre self.now.nested) (F.post self.now.nested) }
        ensures { Gives (pair_from tree.IsNull lexemes.old) result lexemes.new }
    {
        lexemes.want_sign(Sign::Open)?;
        let first = self.nested_expr(lexemes)?;
        lexemes.want_sign(Sign::Comma)?;
        let second = self.nested_expr(lexemes)?;
        lexemes.want_sign(Sign::Close)?;
        Ok(Expr::IsNull(first, second))
    }

    /// A COALESCE behind that word.
    pub(crate) fn coalesce(&self, lexemes: &mut Lexemes<'_>) -> Result<Expr, ReadFault>
        requires { Nests self.now.depth (F.pre self.now.nested) (F.post self.now.nested) }
        ensures { Gives (coalesce_from lexemes.old) result lexemes.new }
    {
        lexemes.want_sign(Sign::Open)?;
        let exprs = self.nested_exprs(lexemes)?;
        lexemes.want_sign(Sign::Close)?;
        Ok(Expr::Coalesce(exprs))
    }

    /// Expressions with commas between them.
    #[tactic(auto, using(crate::proofs::Equations::exprs_is))]
    pub fn exprs(&self, lexemes: &mut Lexemes<'_>) -> Result<Items<Expr>, ReadFault>
        requires { Nests self.now.depth (F.pre self.now.nested) (F.post self.now.nested) }
        ensures { Gives (read r.Exprs lexemes.old) result lexemes.new }
    {
        let mut exprs = Items::new(self.alloc);
        exprs.push(self.expr(lexemes)?)?;
        exprs.append(self.more_exprs(lexemes)?)?;
        Ok(exprs)
    }

    /// Further expressions, each behind a comma.
    #[tactic(auto, using(crate::proofs::Equations::more_exprs_on, lexeme_reader::proofs::Front::front_begin))]
    pub(crate) fn more_exprs(&self, lexemes: &mut Lexemes<'_>) -> Result<Items<Expr>, ReadFault>
        requires { Nests self.now.depth (F.pre self.now.nested) (F.post self.now.nested) }
        ensures { Gives (read r.MoreExprs lexemes.old) result lexemes.new }
    {
        let mut more = Items::new(self.alloc);
        for _turn in 0..u64::MAX {
            if !lexemes.accept_sign(Sign::Comma) {
                return Ok(more);
            }
            let found = self.expr(lexemes)?;
            more.push(found)?;
        }
        Err(ReadFault::NoRoom)
    }
}

/// Whether a sign comes next that joins operands.
fn joins(lexemes: &Lexemes<'_>) -> bool
    ensures { result ≡ (sees_any multiplies lexemes.now || sees_any adds lexemes.now) }
{
    lexemes.sees_any(&MULTIPLIES) || lexemes.sees_any(&ADDS)
}

/// `+` or `-`.
#[tactic(auto, using(crate::proofs::Equations::add_sign_is))]
pub(crate) fn add_sign(lexemes: &mut Lexemes<'_>) -> Result<AddSign, ReadFault>
    ensures { Gives (read r.AddSign lexemes.old) result lexemes.new }
{
    if lexemes.accept_sign(Sign::Plus) {
        return Ok(AddSign::Plus);
    }
    lexemes.want_sign(Sign::Minus)?;
    Ok(AddSign::Minus)
}

/// `*`, `/` or `%`.
#[tactic(auto, using(crate::proofs::Equations::multiply_sign_is))]
fn multiply_sign(lexemes: &mut Lexemes<'_>) -> Result<MultiplySign, ReadFault>
    ensures { Gives (read r.MultiplySign lexemes.old) result lexemes.new }
{
    if lexemes.accept_sign(Sign::Star) {
        return Ok(MultiplySign::Times);
    }
    if lexemes.accept_sign(Sign::Slash) {
        return Ok(MultiplySign::Divide);
    }
    lexemes.want_sign(Sign::Percent)?;
    Ok(MultiplySign::Remainder)
}

/// Further signs.
#[tactic(auto, using(crate::proofs::Equations::more_signs_on, lexeme_reader::proofs::Front::front_begin))]
pub(crate) fn more_signs(
    alloc: Global,
    lexemes: &mut Lexemes<'_>,
) -> Result<Items<AddSign>, ReadFault>
    ensures { Gives (read r.MoreSigns lexemes.old) result lexemes.new }
{
    let mut more = Items::new(alloc);
    for _turn in 0..u64::MAX {
        if !lexemes.sees_any(&ADDS) {
            return Ok(more);
        }
        let sign = add_sign(lexemes)?;
        more.push(sign)?;
    }
    Err(ReadFault::NoRoom)
}

/// An operand, and those that are added to it.
pub(crate) fn sum(alloc: Global, first: Expr, more: Items<Term>) -> Result<Expr, AllocError>
    ensures { IfOk result (λ e. e ≡ trees.sum first more) }
{
    if more.is_empty() {
        Ok(first)
    } else {
        Ok(Expr::Sum(Boxed::new(alloc, first)?, more))
    }
}

/// An operand, and those that it is multiplied with.
pub(crate) fn product(alloc: Global, first: Expr, more: Items<Factor>) -> Result<Expr, AllocError>
    ensures { IfOk result (λ e. e ≡ trees.product first more) }
{
    if more.is_empty() {
        Ok(first)
    } else {
        Ok(Expr::Product(Boxed::new(alloc, first)?, more))
    }
}
