//! What tests and expressions come to before the commonest operands, all steps at once.

ghost use Rattle.std.specs.Prelude.{IfSome};
ghost use Rattle.tsql_grammar.specs.declared.rule.Rule.TheVariants as r;
ghost use Rattle.tsql_recognizer.specs.Stack.{shown, ComesTo};

use crate::common::{
    of_comparison, of_enclosed, of_expr, of_more_factors, of_more_terms, of_product,
    of_simple_primary, of_test, of_unary,
};
use crate::symbol::Symbol;
use crate::table;
use tsql_grammar::{Kind, Reserved};
use tsql_lexer::Sign;

/// What is expected in the place of `Expr`.
pub(crate) fn expr_before(kind: Kind) -> Option<&'static [Symbol]>
    ensures { IfSome result (λ it. ComesTo kind r.Expr (shown it)) }
{
    match kind {
        Kind::Number => Some(table::EXPR_BY_OPERAND[0]),
        Kind::Text => Some(table::EXPR_BY_OPERAND[1]),
        Kind::Reserved(Reserved::Null) => Some(table::EXPR_BY_OPERAND[2]),
        Kind::Name => Some(table::EXPR_BY_OPERAND[3]),
        Kind::Variable => Some(table::EXPR_BY_OPERAND[4]),
        Kind::Sign(Sign::Open) => Some(table::EXPR_BY_OPERAND[5]),
        Kind::Reserved(Reserved::Case) => Some(table::EXPR_BY_OPERAND[6]),
        _ => of_expr(kind),
    }
}

/// What is expected in the place of `Enclosed`.
pub(crate) fn enclosed_before(kind: Kind) -> Option<&'static [Symbol]>
    ensures { IfSome result (λ it. ComesTo kind r.Enclosed (shown it)) }
{
    match kind {
        Kind::Number => Some(table::EXPR_BY_OPERAND[0]),
        Kind::Text => Some(table::EXPR_BY_OPERAND[1]),
        Kind::Reserved(Reserved::Null) => Some(table::EXPR_BY_OPERAND[2]),
        Kind::Name => Some(table::EXPR_BY_OPERAND[3]),
        Kind::Variable => Some(table::EXPR_BY_OPERAND[4]),
        Kind::Sign(Sign::Open) => Some(table::EXPR_BY_OPERAND[5]),
        Kind::Reserved(Reserved::Case) => Some(table::EXPR_BY_OPERAND[6]),
        _ => of_enclosed(kind),
    }
}

/// What is expected in the place of `Product`.
pub(crate) fn product_before(kind: Kind) -> Option<&'static [Symbol]>
    ensures { IfSome result (λ it. ComesTo kind r.Product (shown it)) }
{
    match kind {
        Kind::Number => Some(table::PRODUCT_BY_OPERAND[0]),
        Kind::Text => Some(table::PRODUCT_BY_OPERAND[1]),
        Kind::Reserved(Reserved::Null) => Some(table::PRODUCT_BY_OPERAND[2]),
        Kind::Name => Some(table::PRODUCT_BY_OPERAND[3]),
        Kind::Variable => Some(table::PRODUCT_BY_OPERAND[4]),
        Kind::Sign(Sign::Open) => Some(table::PRODUCT_BY_OPERAND[5]),
        Kind::Reserved(Reserved::Case) => Some(table::PRODUCT_BY_OPERAND[6]),
        _ => of_product(kind),
    }
}

/// What is expected in the place of `Unary`.
pub(crate) fn unary_before(kind: Kind) -> Option<&'static [Symbol]>
    ensures { IfSome result (λ it. ComesTo kind r.Unary (shown it)) }
{
    match kind {
        Kind::Number => Some(table::UNARY_BY_OPERAND[0]),
        Kind::Text => Some(table::UNARY_BY_OPERAND[1]),
        Kind::Reserved(Reserved::Null) => Some(table::UNARY_BY_OPERAND[2]),
        Kind::Name => Some(table::UNARY_BY_OPERAND[3]),
        Kind::Variable => Some(table::UNARY_BY_OPERAND[4]),
        Kind::Sign(Sign::Open) => Some(table::UNARY_BY_OPERAND[5]),
        Kind::Reserved(Reserved::Case) => Some(table::UNARY_BY_OPERAND[6]),
        _ => of_unary(kind),
    }
}

/// What is expected in the place of `Test`.
pub(crate) fn test_before(kind: Kind) -> Option<&'static [Symbol]>
    ensures { IfSome result (λ it. ComesTo kind r.Test (shown it)) }
{
    match kind {
        Kind::Number => Some(table::TEST_BY_OPERAND[0]),
        Kind::Text => Some(table::TEST_BY_OPERAND[1]),
        Kind::Reserved(Reserved::Null) => Some(table::TEST_BY_OPERAND[2]),
        Kind::Name => Some(table::TEST_BY_OPERAND[3]),
        Kind::Variable => Some(table::TEST_BY_OPERAND[4]),
        Kind::Sign(Sign::Open) => Some(table::TEST_BY_OPERAND[5]),
        Kind::Reserved(Reserved::Case) => Some(table::TEST_BY_OPERAND[6]),
        _ => of_test(kind),
    }
}

/// What is expected in the place of `SimplePrimary`.
pub(crate) fn simple_primary_before(kind: Kind) -> Option<&'static [Symbol]>
    ensures { IfSome result (λ it. ComesTo kind r.SimplePrimary (shown it)) }
{
    match kind {
        Kind::Number => Some(table::SIMPLE_PRIMARY_BY_OPERAND[0]),
        Kind::Text => Some(table::SIMPLE_PRIMARY_BY_OPERAND[1]),
        Kind::Reserved(Reserved::Null) => Some(table::SIMPLE_PRIMARY_BY_OPERAND[2]),
        Kind::Name => Some(table::SIMPLE_PRIMARY_BY_OPERAND[3]),
        Kind::Variable => Some(table::SIMPLE_PRIMARY_BY_OPERAND[4]),
        _ => of_simple_primary(kind),
    }
}

/// What is expected in the place of `MoreTerms`.
pub(crate) fn more_terms_before(kind: Kind) -> Option<&'static [Symbol]>
    ensures { IfSome result (λ it. ComesTo kind r.MoreTerms (shown it)) }
{
    match kind {
        Kind::Sign(Sign::Plus) => Some(table::MORE_TERMS_BY_SIGN[0]),
        Kind::Sign(Sign::Minus) => Some(table::MORE_TERMS_BY_SIGN[1]),
        _ => of_more_terms(kind),
    }
}

/// What is expected in the place of `MoreFactors`.
pub(crate) fn more_factors_before(kind: Kind) -> Option<&'static [Symbol]>
    ensures { IfSome result (λ it. ComesTo kind r.MoreFactors (shown it)) }
{
    match kind {
        Kind::Sign(Sign::Star) => Some(table::MORE_FACTORS_BY_SIGN[0]),
        Kind::Sign(Sign::Slash) => Some(table::MORE_FACTORS_BY_SIGN[1]),
        Kind::Sign(Sign::Percent) => Some(table::MORE_FACTORS_BY_SIGN[2]),
        _ => of_more_factors(kind),
    }
}

/// What is expected in the place of `Comparison`.
pub(crate) fn comparison_before(kind: Kind) -> Option<&'static [Symbol]>
    ensures { IfSome result (λ it. ComesTo kind r.Comparison (shown it)) }
{
    match kind {
        Kind::Sign(Sign::Equal) => Some(table::COMPARISON_BY_SIGN[0]),
        Kind::Sign(Sign::NotEqual) => Some(table::COMPARISON_BY_SIGN[1]),
        Kind::Sign(Sign::Less) => Some(table::COMPARISON_BY_SIGN[2]),
        Kind::Sign(Sign::LessEqual) => Some(table::COMPARISON_BY_SIGN[3]),
        Kind::Sign(Sign::Greater) => Some(table::COMPARISON_BY_SIGN[4]),
        Kind::Sign(Sign::GreaterEqual) => Some(table::COMPARISON_BY_SIGN[5]),
        Kind::Reserved(Reserved::In) => Some(table::COMPARISON_BY_SIGN[6]),
        _ => of_comparison(kind),
    }
}
