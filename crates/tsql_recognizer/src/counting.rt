//! What becomes of the rules that count open parentheses before the commonest lexemes.

ghost use Rattle.std.specs.Prelude.{◌≡◌, ◌∷◌, ◌||◌, suc, [], map, Some, IfOk, OnOk};
ghost use Rattle.tsql_grammar.specs.Lookahead.{first};
ghost use Rattle.tsql_grammar.specs.declared.rule.Rule.TheVariants as r;
ghost use Rattle.tsql_recognizer.specs.Stack.{symbol_of, expected, pick, symbols_of_rule, Develops};
ghost use Rattle.tsql_recognizer.specs.declared.symbol.Symbol.TheVariants as code;

use crate::choice::push_all;
use crate::common::put;
use crate::fronts::may_begin;
use crate::open::open;
use crate::operands::simple_primary_before;
use crate::step::Step;
use crate::symbol::Symbol;
use std::alloc::AllocError;
use tsql_grammar::{Kind, Rule};
use tsql_lexer::Sign;

/// Puts what is expected in a rule's place on the stack, or behind the lexeme of the kind.
#[inline(never)]
pub(crate) fn counted_before(
    rule: Rule,
    kind: Kind,
    stack: &mut Vec<Symbol>,
) -> Result<Step, AllocError>
    ensures { IfOk result (λ step. Develops kind rule step (expected stack.old.items) (expected stack.new.items)) }
{
    match rule {
        Rule::Opened(count) => opened_before(count, kind, stack),
        Rule::Operand(count) => operand_before(count, kind, stack),
        Rule::Compared(count) => compared_before(count, kind, stack),
        Rule::Tested(count) => tested_before(count, kind, stack),
        _ => otherwise(rule, kind, stack),
    }
}

/// The same, whatever the rule and the kind.
#[inline(never)]
pub(crate) fn otherwise(rule: Rule, kind: Kind, stack: &mut Vec<Symbol>) -> Result<Step, AllocError>
    ensures { IfOk result (λ step. Develops kind rule step (expected stack.old.items) (expected stack.new.items)) }
{
    if open(rule, Some(kind), stack)? {
        Ok(Step::Opens)
    } else {
        Ok(Step::Stops)
    }
}

fn opened_before(count: u32, kind: Kind, stack: &mut Vec<Symbol>) -> Result<Step, AllocError>
    ensures { IfOk result (λ step. Develops kind (r.Opened count) step (expected stack.old.items) (expected stack.new.items)) }
{
    let Some(more) = count.checked_add(1) else {
        return Err(AllocError);
    };
    match kind {
        Kind::Sign(Sign::Open) => {
            push_rule(stack, Rule::Opened(more))?;
            Ok(Step::Enters)
        }
        _ if may_begin(Rule::SimplePrimary, kind) => opened_simple(count, more, kind, stack),
        _ => otherwise(Rule::Opened(count), kind, stack),
    }
}

/// The same before an operand that is no parenthesis.
fn opened_simple(
    count: u32,
    more: u32,
    kind: Kind,
    stack: &mut Vec<Symbol>,
) -> Result<Step, AllocError>
    requires { pick (symbols_of_rule (r.Opened count)) (Some kind) ≡ Some (map symbol_of (code.Rule r.SimplePrimary ∷ code.Rule (r.Operand more) ∷ [])) }
    ensures { IfOk result (λ step. Develops kind (r.Opened count) step (expected stack.old.items) (expected stack.new.items)) }
{
    match simple_primary_before(kind) {
        None => otherwise(Rule::Opened(count), kind, stack),
        Some(production) => {
            push_rule(stack, Rule::Operand(more))?;
            put(stack, production, kind)
        }
    }
}

fn operand_before(count: u32, kind: Kind, stack: &mut Vec<Symbol>) -> Result<Step, AllocError>
    ensures { IfOk result (λ step. Develops kind (r.Operand count) step (expected stack.old.items) (expected stack.new.items)) }
{
    match count.checked_sub(1) {
        None => operand_joined(count, kind, stack),
        Some(less) => match kind {
            Kind::Sign(Sign::Close) => {
                push_rule(stack, Rule::Operand(less))?;
                Ok(Step::Leaves)
            }
            _ => operand_joined(count, kind, stack),
        },
    }
}

/// The same before what joins an operand with others.
fn operand_joined(count: u32, kind: Kind, stack: &mut Vec<Symbol>) -> Result<Step, AllocError>
    ensures { IfOk result (λ step. Develops kind (r.Operand count) step (expected stack.old.items) (expected stack.new.items)) }
{
    if !joins(kind) {
        return otherwise(Rule::Operand(count), kind, stack);
    }
    push_all(
        stack,
        &[
            Symbol::Rule(Rule::MoreFactors),
            Symbol::Rule(Rule::MoreTerms),
            Symbol::Rule(Rule::Compared(count)),
        ],
    )?;
    Ok(Step::Opens)
}

/// Whether the kind joins an operand with others, or a test with it.
fn joins(kind: Kind) -> bool
    ensures { result ≡ (first r.MoreFactors kind || first r.MoreTerms kind || first r.Comparison kind) }
{
    may_begin(Rule::MoreFactors, kind)
        || may_begin(Rule::MoreTerms, kind)
        || may_begin(Rule::Comparison, kind)
}

fn compared_before(count: u32, kind: Kind, stack: &mut Vec<Symbol>) -> Result<Step, AllocError>
    ensures { IfOk result (λ step. Develops kind (r.Compared count) step (expected stack.old.items) (expected stack.new.items)) }
{
    match count.checked_sub(1) {
        None => compared_alone(count, kind, stack),
        Some(less) => match kind {
            Kind::Sign(Sign::Close) => {
                push_rule(stack, Rule::Operand(less))?;
                Ok(Step::Leaves)
            }
            _ => otherwise(Rule::Compared(count), kind, stack),
        },
    }
}

/// The same in no parenthesis.
fn compared_alone(count: u32, kind: Kind, stack: &mut Vec<Symbol>) -> Result<Step, AllocError>
    requires { count ≡ 0 }
    ensures { IfOk result (λ step. Develops kind (r.Compared count) step (expected stack.old.items) (expected stack.new.items)) }
{
    if !may_begin(Rule::Comparison, kind) {
        return otherwise(Rule::Compared(count), kind, stack);
    }
    push_rule(stack, Rule::Comparison)?;
    Ok(Step::Opens)
}

fn tested_before(count: u32, kind: Kind, stack: &mut Vec<Symbol>) -> Result<Step, AllocError>
    ensures { IfOk result (λ step. Develops kind (r.Tested count) step (expected stack.old.items) (expected stack.new.items)) }
{
    match count.checked_sub(1) {
        None => Ok(Step::Opens),
        Some(less) => match kind {
            Kind::Sign(Sign::Close) => {
                push_rule(stack, Rule::Tested(less))?;
                Ok(Step::Leaves)
            }
            _ => otherwise(Rule::Tested(count), kind, stack),
        },
    }
}

/// Puts a rule on the stack.
fn push_rule(stack: &mut Vec<Symbol>, rule: Rule) -> Result<(), AllocError>
    ensures { OnOk result (expected stack.new.items ≡ symbol_of (code.Rule rule) ∷ expected stack.old.items) }
{
    stack.push(Symbol::Rule(rule))?;
    Ok(())
}
