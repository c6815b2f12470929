//! What the commonest rules begin with: tests, expressions, their operands and their signs.

ghost use Rattle.std.specs.Prelude.{◌≡◌};
ghost use Rattle.tsql_grammar.specs.Lookahead.{first};
ghost use Rattle.tsql_recognizer.specs.Starts as starts;

use crate::choice::of_any;
use crate::first::first_classes;
use tsql_grammar::{Kind, Reserved, Rule, is_name};
use tsql_lexer::Sign;

/// Whether the kind may begin a text of the rule.
#[inline(always)]
pub(crate) fn may_begin(rule: Rule, kind: Kind) -> bool
    ensures { result ≡ first rule kind }
{
    match rule {
        Rule::Test => begins_test(kind),
        Rule::AndTest => begins_test(kind),
        Rule::NotTest => begins_test(kind),
        Rule::Basic => begins_basic(kind),
        Rule::Comparison => begins_comparison(kind),
        Rule::Compared(0) => begins_comparison(kind),
        Rule::Membership => begins_membership(kind),
        Rule::Exprs => begins_expr(kind),
        Rule::Expr => begins_expr(kind),
        Rule::MoreTerms => begins_add(kind),
        Rule::Product => begins_expr(kind),
        Rule::Unary => begins_expr(kind),
        Rule::Primary => begins_primary(kind),
        Rule::SimplePrimary => begins_simple(kind),
        Rule::OtherPrimary => begins_other(kind),
        Rule::NamedPrimary => is_name(kind),
        Rule::AddSign => begins_add(kind),
        Rule::MoreFactors => begins_multiply(kind),
        Rule::MultiplySign => begins_multiply(kind),
        Rule::CompareSign => begins_compare(kind),
        _ => of_any(first_classes(rule), kind),
    }
}

#[inline(always)]
fn begins_test(kind: Kind) -> bool
    ensures { result ≡ starts.begins_test kind }
{
    matches!(kind, Kind::Reserved(Reserved::Not)) || begins_basic(kind)
}

#[inline(always)]
fn begins_basic(kind: Kind) -> bool
    ensures { result ≡ starts.begins_basic kind }
{
    matches!(kind, Kind::Reserved(Reserved::Exists)) || begins_expr(kind)
}

#[inline(always)]
fn begins_comparison(kind: Kind) -> bool
    ensures { result ≡ starts.begins_comparison kind }
{
    matches!(kind, Kind::Reserved(Reserved::Is | Reserved::Not))
        || begins_membership(kind)
        || begins_compare(kind)
}

#[inline(always)]
fn begins_membership(kind: Kind) -> bool
    ensures { result ≡ starts.begins_membership kind }
{
    matches!(kind, Kind::Reserved(Reserved::Between | Reserved::In))
}

#[inline(always)]
fn begins_expr(kind: Kind) -> bool
    ensures { result ≡ starts.begins_expr kind }
{
    matches!(kind, Kind::Sign(Sign::Plus | Sign::Minus)) || begins_primary(kind)
}

#[inline(always)]
fn begins_primary(kind: Kind) -> bool
    ensures { result ≡ starts.begins_primary kind }
{
    matches!(kind, Kind::Sign(Sign::Open)) || begins_simple(kind)
}

#[inline(always)]
fn begins_simple(kind: Kind) -> bool
    ensures { result ≡ starts.begins_simple kind }
{
    matches!(
        kind,
        Kind::Name | Kind::Dbo | Kind::Variable | Kind::Fixed(_) | Kind::Function(_) | Kind::Word(_)
    ) || begins_other(kind)
}

#[inline(always)]
fn begins_other(kind: Kind) -> bool
    ensures { result ≡ starts.begins_other kind }
{
    matches!(
        kind,
        Kind::Number
            | Kind::Text
            | Kind::TranCount
            | Kind::Error
            | Kind::RowCount
            | Kind::FetchStatus
            | Kind::Version
            | Kind::ServerName
            | Kind::MaxPrecision
            | Kind::Reserved(
                Reserved::Case | Reserved::Coalesce | Reserved::Null | Reserved::NullIf
            )
    )
}

#[inline(always)]
fn begins_add(kind: Kind) -> bool
    ensures { result ≡ starts.begins_add kind }
{
    matches!(kind, Kind::Sign(Sign::Plus | Sign::Minus))
}

#[inline(always)]
fn begins_multiply(kind: Kind) -> bool
    ensures { result ≡ starts.begins_multiply kind }
{
    matches!(kind, Kind::Sign(Sign::Star | Sign::Slash | Sign::Percent))
}

#[inline(always)]
fn begins_compare(kind: Kind) -> bool
    ensures { result ≡ starts.begins_compare kind }
{
    matches!(
        kind,
        Kind::Sign(
            Sign::Equal
                | Sign::NotEqual
                | Sign::Less
                | Sign::LessEqual
                | Sign::Greater
                | Sign::GreaterEqual
        )
    )
}
