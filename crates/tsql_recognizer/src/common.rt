//! The productions of the commonest rules, picked by one look at the next lexeme's kind.

ghost use Rattle.std.specs.Prelude.{◌≡◌, ◌++◌, [], true, map, Some, IfOk, IfSome};
ghost use Rattle.tsql_grammar.specs.declared.rule.Rule.TheVariants as r;
ghost use Rattle.tsql_recognizer.specs.Stack.{symbol_of, expected, shown, pick, symbols_of_rule, ComesTo, Develops, Shows, Follows};

use crate::choice::push_all;
use crate::counting::{counted_before, otherwise};
use crate::fronts::may_begin;
use crate::operands::{
    comparison_before, enclosed_before, expr_before, more_factors_before, more_terms_before,
    product_before, simple_primary_before, test_before, unary_before,
};
use crate::step::Step;
use crate::symbol::Symbol;
use crate::table;
use std::alloc::AllocError;
use tsql_grammar::{Class, Kind, Mark, Reserved, Rule, admits, same_kind, takes};
use tsql_lexer::Sign;

/// Puts what is expected in a rule's place on the stack, some steps on, or behind the lexeme of the kind.
#[inline(always)]
pub(crate) fn step_before(
    rule: Rule,
    kind: Kind,
    stack: &mut Vec<Symbol>,
) -> Result<Step, AllocError>
    ensures { IfOk result (λ step. Develops kind rule step (expected stack.old.items) (expected stack.new.items)) }
{
    match rule {
        Rule::Opened(_) | Rule::Operand(_) | Rule::Compared(_) | Rule::Tested(_) => {
            counted_before(rule, kind, stack)
        }
        _ => plain_before(rule, kind, stack),
    }
}

/// The same, where the rule counts nothing.
#[inline(always)]
fn plain_before(rule: Rule, kind: Kind, stack: &mut Vec<Symbol>) -> Result<Step, AllocError>
    ensures { IfOk result (λ step. Develops kind rule step (expected stack.old.items) (expected stack.new.items)) }
{
    if falls_away(rule, kind) {
        return Ok(Step::Opens);
    }
    match pick_common(rule, kind) {
        None => otherwise(rule, kind, stack),
        Some(production) => put(stack, production, kind),
    }
}

/// Whether the rule is one that comes to nothing before the kind; not all such are found.
#[inline(never)]
fn falls_away(rule: Rule, kind: Kind) -> bool
    ensures { result ≡ true → ComesTo kind rule [] }
{
    match rule {
        Rule::MoreFactors => !may_begin(Rule::MultiplySign, kind),
        Rule::MoreTerms => !may_begin(Rule::AddSign, kind),
        Rule::MoreAnds => !same_kind(Kind::Reserved(Reserved::And), kind),
        Rule::MoreOrs => !same_kind(Kind::Reserved(Reserved::Or), kind),
        Rule::MoreExprs => !same_kind(Kind::Sign(Sign::Comma), kind),
        Rule::MoreValueRows => !same_kind(Kind::Sign(Sign::Comma), kind),
        Rule::MoreItems => !same_kind(Kind::Sign(Sign::Comma), kind),
        Rule::MoreArms => !may_begin(Rule::Arm, kind),
        Rule::CaseElse => !same_kind(Kind::Reserved(Reserved::Else), kind),
        Rule::AfterName => !same_kind(Kind::Sign(Sign::Dot), kind),
        _ => false,
    }
}

/// Puts a production on the stack, or what stands behind its first symbol, if that is the lexeme of the kind.
#[inline(always)]
pub(crate) fn put(
    stack: &mut Vec<Symbol>,
    production: &[Symbol],
    kind: Kind,
) -> Result<Step, AllocError>
    ensures { IfOk result (λ step. Shows kind step (map symbol_of production.now ++ expected stack.old.items) (expected stack.new.items)) }
{
    if let [Symbol::Lexeme(class), rest @ ..] = production {
        if takes(*class, kind) {
            return put_behind(stack, rest);
        }
    }
    push_all(stack, production)?;
    Ok(Step::Opens)
}

/// Puts what stands behind a lexeme that is taken on the stack.
#[inline(always)]
fn put_behind(stack: &mut Vec<Symbol>, rest: &[Symbol]) -> Result<Step, AllocError>
    ensures { IfOk result (λ step. Follows step (map symbol_of rest.now ++ expected stack.old.items) (expected stack.new.items)) }
{
    if let [Symbol::Mark(Mark::Enter), more @ ..] = rest {
        push_all(stack, more)?;
        return Ok(Step::Enters);
    }
    push_all(stack, rest)?;
    Ok(Step::Takes)
}

/// What the rule comes to before the kind, if it is a common one and one is chosen.
#[inline(never)]
fn pick_common(rule: Rule, kind: Kind) -> Option<&'static [Symbol]>
    ensures { IfSome result (λ it. ComesTo kind rule (shown it)) }
{
    match rule {
        Rule::MoreValueRows => of_more_value_rows(kind),
        Rule::MoreItems => of_more_items(kind),
        Rule::Test => test_before(kind),
        Rule::MoreOrs => of_more_ors(kind),
        Rule::AndTest => of_and_test(kind),
        Rule::MoreAnds => of_more_ands(kind),
        Rule::NotTest => of_not_test(kind),
        Rule::MoreNots => of_more_nots(kind),
        Rule::Basic => of_basic(kind),
        Rule::Comparison => comparison_before(kind),
        Rule::CompareSign => of_compare_sign(kind),
        Rule::OptionalNot => of_optional_not(kind),
        Rule::Membership => of_membership(kind),
        Rule::InList => of_in_list(kind),
        Rule::Expr => expr_before(kind),
        Rule::MoreTerms => more_terms_before(kind),
        Rule::AddSign => of_add_sign(kind),
        Rule::Product => product_before(kind),
        Rule::MoreFactors => more_factors_before(kind),
        Rule::MultiplySign => of_multiply_sign(kind),
        Rule::Unary => unary_before(kind),
        Rule::MoreSigns => of_more_signs(kind),
        Rule::Primary => of_primary(kind),
        Rule::SimplePrimary => simple_primary_before(kind),
        Rule::OtherPrimary => of_other_primary(kind),
        Rule::Enclosed => enclosed_before(kind),
        Rule::NamedPrimary => of_named_primary(kind),
        Rule::AfterName => of_after_name(kind),
        Rule::Arm => of_arm(kind),
        Rule::MoreArms => of_more_arms(kind),
        Rule::CaseElse => of_case_else(kind),
        Rule::Exprs => of_exprs(kind),
        Rule::MoreExprs => of_more_exprs(kind),
        _ => None,
    }
}

fn of_more_value_rows(kind: Kind) -> Option<&'static [Symbol]>
    ensures { IfSome result (λ it. Some (shown it) ≡ pick (symbols_of_rule r.MoreValueRows) (Some kind)) }
{
    if same_kind(Kind::Sign(Sign::Comma), kind) {
        return Some(table::OF_MORE_VALUE_ROWS[0]);
    }
    Some(table::OF_MORE_VALUE_ROWS[1])
}

fn of_more_items(kind: Kind) -> Option<&'static [Symbol]>
    ensures { IfSome result (λ it. Some (shown it) ≡ pick (symbols_of_rule r.MoreItems) (Some kind)) }
{
    if same_kind(Kind::Sign(Sign::Comma), kind) {
        return Some(table::OF_MORE_ITEMS[0]);
    }
    Some(table::OF_MORE_ITEMS[1])
}

pub(crate) fn of_test(kind: Kind) -> Option<&'static [Symbol]>
    ensures { IfSome result (λ it. Some (shown it) ≡ pick (symbols_of_rule r.Test) (Some kind)) }
{
    if may_begin(Rule::AndTest, kind) {
        return Some(table::OF_TEST[0]);
    }
    None
}

fn of_more_ors(kind: Kind) -> Option<&'static [Symbol]>
    ensures { IfSome result (λ it. Some (shown it) ≡ pick (symbols_of_rule r.MoreOrs) (Some kind)) }
{
    if same_kind(Kind::Reserved(Reserved::Or), kind) {
        return Some(table::OF_MORE_ORS[0]);
    }
    Some(table::OF_MORE_ORS[1])
}

fn of_and_test(kind: Kind) -> Option<&'static [Symbol]>
    ensures { IfSome result (λ it. Some (shown it) ≡ pick (symbols_of_rule r.AndTest) (Some kind)) }
{
    if may_begin(Rule::NotTest, kind) {
        return Some(table::OF_AND_TEST[0]);
    }
    None
}

fn of_more_ands(kind: Kind) -> Option<&'static [Symbol]>
    ensures { IfSome result (λ it. Some (shown it) ≡ pick (symbols_of_rule r.MoreAnds) (Some kind)) }
{
    if same_kind(Kind::Reserved(Reserved::And), kind) {
        return Some(table::OF_MORE_ANDS[0]);
    }
    Some(table::OF_MORE_ANDS[1])
}

fn of_not_test(kind: Kind) -> Option<&'static [Symbol]>
    ensures { IfSome result (λ it. Some (shown it) ≡ pick (symbols_of_rule r.NotTest) (Some kind)) }
{
    if same_kind(Kind::Reserved(Reserved::Not), kind) {
        return Some(table::OF_NOT_TEST[0]);
    }
    if may_begin(Rule::Basic, kind) {
        return Some(table::OF_NOT_TEST[1]);
    }
    None
}

fn of_more_nots(kind: Kind) -> Option<&'static [Symbol]>
    ensures { IfSome result (λ it. Some (shown it) ≡ pick (symbols_of_rule r.MoreNots) (Some kind)) }
{
    if same_kind(Kind::Reserved(Reserved::Not), kind) {
        return Some(table::OF_MORE_NOTS[0]);
    }
    Some(table::OF_MORE_NOTS[1])
}

fn of_basic(kind: Kind) -> Option<&'static [Symbol]>
    ensures { IfSome result (λ it. Some (shown it) ≡ pick (symbols_of_rule r.Basic) (Some kind)) }
{
    if same_kind(Kind::Reserved(Reserved::Exists), kind) {
        return Some(table::OF_BASIC[0]);
    }
    if same_kind(Kind::Sign(Sign::Open), kind) {
        return Some(table::OF_BASIC[1]);
    }
    if may_begin(Rule::SimplePrimary, kind) {
        return Some(table::OF_BASIC[2]);
    }
    if may_begin(Rule::AddSign, kind) {
        return Some(table::OF_BASIC[3]);
    }
    None
}

pub(crate) fn of_comparison(kind: Kind) -> Option<&'static [Symbol]>
    ensures { IfSome result (λ it. Some (shown it) ≡ pick (symbols_of_rule r.Comparison) (Some kind)) }
{
    if may_begin(Rule::CompareSign, kind) {
        return Some(table::OF_COMPARISON[0]);
    }
    if same_kind(Kind::Reserved(Reserved::Is), kind) {
        return Some(table::OF_COMPARISON[1]);
    }
    if same_kind(Kind::Reserved(Reserved::Not), kind) {
        return Some(table::OF_COMPARISON[2]);
    }
    if may_begin(Rule::Membership, kind) {
        return Some(table::OF_COMPARISON[3]);
    }
    None
}

fn of_compare_sign(kind: Kind) -> Option<&'static [Symbol]>
    ensures { IfSome result (λ it. Some (shown it) ≡ pick (symbols_of_rule r.CompareSign) (Some kind)) }
{
    match kind {
        Kind::Sign(Sign::Equal) => Some(table::OF_COMPARE_SIGN[0]),
        Kind::Sign(Sign::NotEqual) => Some(table::OF_COMPARE_SIGN[1]),
        Kind::Sign(Sign::Less) => Some(table::OF_COMPARE_SIGN[2]),
        Kind::Sign(Sign::LessEqual) => Some(table::OF_COMPARE_SIGN[3]),
        Kind::Sign(Sign::Greater) => Some(table::OF_COMPARE_SIGN[4]),
        Kind::Sign(Sign::GreaterEqual) => Some(table::OF_COMPARE_SIGN[5]),
        _ => None,
    }
}

fn of_optional_not(kind: Kind) -> Option<&'static [Symbol]>
    ensures { IfSome result (λ it. Some (shown it) ≡ pick (symbols_of_rule r.OptionalNot) (Some kind)) }
{
    if same_kind(Kind::Reserved(Reserved::Not), kind) {
        return Some(table::OF_OPTIONAL_NOT[0]);
    }
    Some(table::OF_OPTIONAL_NOT[1])
}

fn of_membership(kind: Kind) -> Option<&'static [Symbol]>
    ensures { IfSome result (λ it. Some (shown it) ≡ pick (symbols_of_rule r.Membership) (Some kind)) }
{
    if same_kind(Kind::Reserved(Reserved::Between), kind) {
        return Some(table::OF_MEMBERSHIP[0]);
    }
    if same_kind(Kind::Reserved(Reserved::In), kind) {
        return Some(table::OF_MEMBERSHIP[1]);
    }
    None
}

fn of_in_list(kind: Kind) -> Option<&'static [Symbol]>
    ensures { IfSome result (λ it. Some (shown it) ≡ pick (symbols_of_rule r.InList) (Some kind)) }
{
    if same_kind(Kind::Reserved(Reserved::Select), kind) {
        return Some(table::OF_IN_LIST[0]);
    }
    if may_begin(Rule::Exprs, kind) {
        return Some(table::OF_IN_LIST[1]);
    }
    None
}

pub(crate) fn of_expr(kind: Kind) -> Option<&'static [Symbol]>
    ensures { IfSome result (λ it. Some (shown it) ≡ pick (symbols_of_rule r.Expr) (Some kind)) }
{
    if may_begin(Rule::Product, kind) {
        return Some(table::OF_EXPR[0]);
    }
    None
}

pub(crate) fn of_more_terms(kind: Kind) -> Option<&'static [Symbol]>
    ensures { IfSome result (λ it. Some (shown it) ≡ pick (symbols_of_rule r.MoreTerms) (Some kind)) }
{
    if may_begin(Rule::AddSign, kind) {
        return Some(table::OF_MORE_TERMS[0]);
    }
    Some(table::OF_MORE_TERMS[1])
}

fn of_add_sign(kind: Kind) -> Option<&'static [Symbol]>
    ensures { IfSome result (λ it. Some (shown it) ≡ pick (symbols_of_rule r.AddSign) (Some kind)) }
{
    if same_kind(Kind::Sign(Sign::Plus), kind) {
        return Some(table::OF_ADD_SIGN[0]);
    }
    if same_kind(Kind::Sign(Sign::Minus), kind) {
        return Some(table::OF_ADD_SIGN[1]);
    }
    None
}

pub(crate) fn of_product(kind: Kind) -> Option<&'static [Symbol]>
    ensures { IfSome result (λ it. Some (shown it) ≡ pick (symbols_of_rule r.Product) (Some kind)) }
{
    if may_begin(Rule::Unary, kind) {
        return Some(table::OF_PRODUCT[0]);
    }
    None
}

pub(crate) fn of_more_factors(kind: Kind) -> Option<&'static [Symbol]>
    ensures { IfSome result (λ it. Some (shown it) ≡ pick (symbols_of_rule r.MoreFactors) (Some kind)) }
{
    if may_begin(Rule::MultiplySign, kind) {
        return Some(table::OF_MORE_FACTORS[0]);
    }
    Some(table::OF_MORE_FACTORS[1])
}

fn of_multiply_sign(kind: Kind) -> Option<&'static [Symbol]>
    ensures { IfSome result (λ it. Some (shown it) ≡ pick (symbols_of_rule r.MultiplySign) (Some kind)) }
{
    match kind {
        Kind::Sign(Sign::Star) => Some(table::OF_MULTIPLY_SIGN[0]),
        Kind::Sign(Sign::Slash) => Some(table::OF_MULTIPLY_SIGN[1]),
        Kind::Sign(Sign::Percent) => Some(table::OF_MULTIPLY_SIGN[2]),
        _ => None,
    }
}

pub(crate) fn of_unary(kind: Kind) -> Option<&'static [Symbol]>
    ensures { IfSome result (λ it. Some (shown it) ≡ pick (symbols_of_rule r.Unary) (Some kind)) }
{
    if may_begin(Rule::AddSign, kind) {
        return Some(table::OF_UNARY[0]);
    }
    if may_begin(Rule::Primary, kind) {
        return Some(table::OF_UNARY[1]);
    }
    None
}

fn of_more_signs(kind: Kind) -> Option<&'static [Symbol]>
    ensures { IfSome result (λ it. Some (shown it) ≡ pick (symbols_of_rule r.MoreSigns) (Some kind)) }
{
    if may_begin(Rule::AddSign, kind) {
        return Some(table::OF_MORE_SIGNS[0]);
    }
    Some(table::OF_MORE_SIGNS[1])
}

fn of_primary(kind: Kind) -> Option<&'static [Symbol]>
    ensures { IfSome result (λ it. Some (shown it) ≡ pick (symbols_of_rule r.Primary) (Some kind)) }
{
    if same_kind(Kind::Sign(Sign::Open), kind) {
        return Some(table::OF_PRIMARY[0]);
    }
    if may_begin(Rule::SimplePrimary, kind) {
        return Some(table::OF_PRIMARY[1]);
    }
    None
}

pub(crate) fn of_simple_primary(kind: Kind) -> Option<&'static [Symbol]>
    ensures { IfSome result (λ it. Some (shown it) ≡ pick (symbols_of_rule r.SimplePrimary) (Some kind)) }
{
    if same_kind(Kind::Variable, kind) {
        return Some(table::OF_SIMPLE_PRIMARY[0]);
    }
    if may_begin(Rule::NamedPrimary, kind) {
        return Some(table::OF_SIMPLE_PRIMARY[1]);
    }
    if may_begin(Rule::OtherPrimary, kind) {
        return Some(table::OF_SIMPLE_PRIMARY[2]);
    }
    None
}

fn of_other_primary(kind: Kind) -> Option<&'static [Symbol]>
    ensures { IfSome result (λ it. Some (shown it) ≡ pick (symbols_of_rule r.OtherPrimary) (Some kind)) }
{
    match kind {
        Kind::Number => Some(table::OF_OTHER_PRIMARY[0]),
        Kind::Text => Some(table::OF_OTHER_PRIMARY[1]),
        Kind::Reserved(Reserved::Null) => Some(table::OF_OTHER_PRIMARY[2]),
        Kind::Reserved(Reserved::Case) => Some(table::OF_OTHER_PRIMARY[10]),
        _ => None,
    }
}

pub(crate) fn of_enclosed(kind: Kind) -> Option<&'static [Symbol]>
    ensures { IfSome result (λ it. Some (shown it) ≡ pick (symbols_of_rule r.Enclosed) (Some kind)) }
{
    if same_kind(Kind::Reserved(Reserved::Select), kind) {
        return Some(table::OF_ENCLOSED[0]);
    }
    if may_begin(Rule::Expr, kind) {
        return Some(table::OF_ENCLOSED[1]);
    }
    None
}

fn of_named_primary(kind: Kind) -> Option<&'static [Symbol]>
    ensures { IfSome result (λ it. Some (shown it) ≡ pick (symbols_of_rule r.NamedPrimary) (Some kind)) }
{
    if admits(Class::PlainName, kind) {
        return Some(table::OF_NAMED_PRIMARY[0]);
    }
    None
}

fn of_after_name(kind: Kind) -> Option<&'static [Symbol]>
    ensures { IfSome result (λ it. Some (shown it) ≡ pick (symbols_of_rule r.AfterName) (Some kind)) }
{
    if same_kind(Kind::Sign(Sign::Dot), kind) {
        return Some(table::OF_AFTER_NAME[0]);
    }
    Some(table::OF_AFTER_NAME[1])
}

fn of_arm(kind: Kind) -> Option<&'static [Symbol]>
    ensures { IfSome result (λ it. Some (shown it) ≡ pick (symbols_of_rule r.Arm) (Some kind)) }
{
    if same_kind(Kind::Reserved(Reserved::When), kind) {
        return Some(table::OF_ARM[0]);
    }
    None
}

fn of_more_arms(kind: Kind) -> Option<&'static [Symbol]>
    ensures { IfSome result (λ it. Some (shown it) ≡ pick (symbols_of_rule r.MoreArms) (Some kind)) }
{
    if may_begin(Rule::Arm, kind) {
        return Some(table::OF_MORE_ARMS[0]);
    }
    Some(table::OF_MORE_ARMS[1])
}

fn of_case_else(kind: Kind) -> Option<&'static [Symbol]>
    ensures { IfSome result (λ it. Some (shown it) ≡ pick (symbols_of_rule r.CaseElse) (Some kind)) }
{
    if same_kind(Kind::Reserved(Reserved::Else), kind) {
        return Some(table::OF_CASE_ELSE[0]);
    }
    Some(table::OF_CASE_ELSE[1])
}

fn of_exprs(kind: Kind) -> Option<&'static [Symbol]>
    ensures { IfSome result (λ it. Some (shown it) ≡ pick (symbols_of_rule r.Exprs) (Some kind)) }
{
    if may_begin(Rule::Expr, kind) {
        return Some(table::OF_EXPRS[0]);
    }
    None
}

fn of_more_exprs(kind: Kind) -> Option<&'static [Symbol]>
    ensures { IfSome result (λ it. Some (shown it) ≡ pick (symbols_of_rule r.MoreExprs) (Some kind)) }
{
    if same_kind(Kind::Sign(Sign::Comma), kind) {
        return Some(table::OF_MORE_EXPRS[0]);
    }
    Some(table::OF_MORE_EXPRS[1])
}
