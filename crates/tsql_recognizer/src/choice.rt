//! Which production of a rule one lexeme ahead chooses.

ghost use Rattle.std.specs.Prelude.{◌≡◌, ◌++◌, map, IfOk, OnOk};
ghost use Rattle.grammar_laws.specs.Lookahead.{begins_by, empties_by};
ghost use Rattle.tsql_grammar.specs.Lookahead as look;
ghost use Rattle.tsql_recognizer.specs.Stack.{symbol_of, expected, shown, found_symbols, first_begun, first_empty, pick, Opens};
ghost use Rattle.tsql_grammar.specs.Terminals.{admits};

use crate::first::nullable;
use crate::fronts::may_begin;
use crate::symbol::Symbol;
use std::alloc::AllocError;
use tsql_grammar::{Class, Kind, admits};

/// Whether the kind is of one of the classes.
pub(crate) fn of_any(classes: &[Class], kind: Kind) -> bool
    ensures { result ≡ look.of_any classes.now kind }
{
    for class in classes {
        if admits(*class, kind) {
            return true;
        }
    }
    false
}

/// Whether the kind may begin a text of the symbols.
fn begins(symbols: &[Symbol], kind: Kind) -> bool
    ensures { result ≡ begins_by admits look.first look.nullable (map symbol_of symbols.now) kind }
{
    for symbol in symbols {
        match *symbol {
            Symbol::Mark(_) => {}
            Symbol::Lexeme(class) => return admits(class, kind),
            Symbol::Rule(rule) => {
                if may_begin(rule, kind) {
                    return true;
                }
                if !nullable(rule) {
                    return false;
                }
            }
        }
    }
    false
}

/// Whether the empty text is of the symbols.
fn empties(symbols: &[Symbol]) -> bool
    ensures { result ≡ empties_by look.nullable (map symbol_of symbols.now) }
{
    for symbol in symbols {
        match *symbol {
            Symbol::Mark(_) => {}
            Symbol::Lexeme(_) => return false,
            Symbol::Rule(rule) => {
                if !nullable(rule) {
                    return false;
                }
            }
        }
    }
    true
}

/// Puts the symbols on the stack, the first of them on top.
pub(crate) fn push_all(stack: &mut Vec<Symbol>, symbols: &[Symbol]) -> Result<(), AllocError>
    ensures { OnOk result (expected stack.new.items ≡ map symbol_of symbols.now ++ expected stack.old.items) }
{
    for symbol in symbols.iter().rev().copied() {
        stack.push(symbol)?;
    }
    Ok(())
}

/// The first production that the kind may begin.
fn first_begun<'a>(productions: &'a [&'a [Symbol]], kind: Kind) -> Option<&'a [Symbol]>
    ensures { found_symbols result ≡ first_begun (map shown productions.now) kind }
{
    for production in productions {
        if begins(production, kind) {
            return Some(production);
        }
    }
    None
}

/// The first production that may be empty.
fn first_empty<'a>(productions: &'a [&'a [Symbol]]) -> Option<&'a [Symbol]>
    ensures { found_symbols result ≡ first_empty (map shown productions.now) }
{
    for production in productions {
        if empties(production) {
            return Some(production);
        }
    }
    None
}

/// The production that the next lexeme chooses.
fn pick<'a>(productions: &'a [&'a [Symbol]], next: Option<Kind>) -> Option<&'a [Symbol]>
    ensures { found_symbols result ≡ pick (map shown productions.now) next }
{
    match next {
        None => first_empty(productions),
        Some(kind) => match first_begun(productions, kind) {
            None => first_empty(productions),
            Some(production) => Some(production),
        },
    }
}

/// Puts the symbols of the production on the stack that the next lexeme chooses, if one is chosen.
pub(crate) fn push_chosen(
    stack: &mut Vec<Symbol>,
    productions: &[&[Symbol]],
    next: Option<Kind>,
) -> Result<bool, AllocError>
    ensures { IfOk result (λ found. Opens (pick (map shown productions.now) next) found (expected stack.old.items) (expected stack.new.items)) }
{
    match pick(productions, next) {
        None => Ok(false),
        Some(production) => {
            push_all(stack, production)?;
            Ok(true)
        }
    }
}
