//! Whether a text is one of a rule, and the first thing that is wrong with it.

ghost use Rattle.std.specs.Prelude.{◌≡◌, false, None, Some, length, IfOk, IfErr, OnOk};
ghost use Rattle.tsql_grammar.specs.PlainText.{may_end_before_else};
ghost use Rattle.tsql_grammar.specs.Productions.{Tree};
ghost use Rattle.tsql_recognizer.specs.declared.recognizer.Verdict.TheVariants.{Reads};
ghost use Rattle.tsql_lexer.specs.Reading.{lexing_of};
ghost use Rattle.stmt_parser.specs.Judging.{IsJudged};
ghost use Rattle.tsql_grammar.specs.Parsed.{Stands, StopsText, IsFault, number_of, shown_of};

use crate::place::{line_in, near_in};
use std::alloc::Global;
use tsql_grammar::{ParseFault, Rule, TextFault};
use tsql_lexer::Lexing;
use tsql_recognizer::{Verdict, recognize};
use value_types::{Memory, Units};

/// Incorrect syntax.
const SYNTAX_ERROR: i32 = 102;

/// The text nests too deep.
const TOO_DEEP: i32 = 49009;

/// A variable is used that is not declared before.
const NOT_DECLARED: i32 = 137;

/// A variable is declared a second time.
const DECLARED_TWICE: i32 = 49013;

/// Nothing, where the text is one of the rule in which nothing is wrong.
pub(crate) fn judge(
    alloc: Global,
    text: &Units,
    lexing: &Lexing,
    rule: Rule,
) -> Result<(), ParseFault>
    requires lexed { (lexing.now.lexemes.items, lexing.now.flaw) ≡ lexing_of text.now }
    requires ends { may_end_before_else rule ≡ false }
    ensures stands { OnOk result ((tree : Tree rule) × Stands rule text.now tree None) }
    ensures fault { IfErr result (λ fault. IsFault rule text.now fault) }
{
    match verdict_of(alloc, lexing, rule)? {
        Verdict::Stops(at) => Err(unread(alloc, text, lexing, rule, at)),
        Verdict::Reads(fault) => judge_whole(alloc, text, lexing, rule, fault),
    }
}

/// What the lexemes are to the rule.
#[tactic(auto, unfolding(crate::specs::Judging::IsJudged))]
fn verdict_of(alloc: Global, lexing: &Lexing, rule: Rule) -> Result<Verdict, Memory>
    ensures { IfOk result (λ verdict. IsJudged rule lexing.now.lexemes.items verdict) }
{
    recognize(alloc, rule, lexing.lexemes.as_slice(), true)
}

/// The same, where all lexemes are a text of the rule, of which this is known.
fn judge_whole(
    alloc: Global,
    text: &Units,
    lexing: &Lexing,
    rule: Rule,
    fault: Option<(TextFault, usize)>,
) -> Result<(), ParseFault>
    requires lexed { (lexing.now.lexemes.items, lexing.now.flaw) ≡ lexing_of text.now }
    requires reads { IsJudged rule lexing.now.lexemes.items (Reads fault) }
    ensures stands { OnOk result ((tree : Tree rule) × Stands rule text.now tree None) }
    ensures fault { IfErr result (λ fault. IsFault rule text.now fault) }
{
    match (lexing.flaw, fault) {
        (Some(_flaw), _) => Err(unread(alloc, text, lexing, rule, count_of(lexing))),
        (None, None) => Ok(()),
        (None, Some((fault, at))) => Err(wrong(alloc, text, lexing, rule, fault, at)),
    }
}

/// How many lexemes these are.
fn count_of(lexing: &Lexing) -> usize
    ensures { result ≡ length lexing.now.lexemes.items }
{
    lexing.lexemes.as_slice().len()
}

/// What is said of a text that stops at a place.
#[tactic(auto, using(crate::proofs::Verdicts::unread_given))]
fn unread(alloc: Global, text: &Units, lexing: &Lexing, rule: Rule, at: usize) -> ParseFault
    requires lexed { (lexing.now.lexemes.items, lexing.now.flaw) ≡ lexing_of text.now }
    requires stops { StopsText rule text.now at }
    ensures { IsFault rule text.now result }
{
    let _rule = rule;
    let Ok(line) = line_in(text, lexing, at) else {
        return ParseFault::Memory;
    };
    match near_in(alloc, text, lexing, at) {
        Ok(near) => ParseFault::Refused {
            number: SYNTAX_ERROR,
            line,
            near,
        },
        Err(Memory) => ParseFault::Memory,
    }
}

/// What is said of a text that reads, and in which this is wrong at a place.
#[tactic(auto, using(crate::proofs::Verdicts::wrong_given))]
fn wrong(
    alloc: Global,
    text: &Units,
    lexing: &Lexing,
    rule: Rule,
    fault: TextFault,
    at: usize,
) -> ParseFault
    requires lexed { (lexing.now.lexemes.items, lexing.now.flaw) ≡ lexing_of text.now }
    requires stands { (tree : Tree rule) × Stands rule text.now tree (Some (fault, at)) }
    ensures { IsFault rule text.now result }
{
    let _rule = rule;
    let Ok(line) = line_in(text, lexing, at) else {
        return ParseFault::Memory;
    };
    match shown_of(alloc, text, lexing, fault, at) {
        Ok(near) => ParseFault::Refused {
            number: number_of(fault),
            line,
            near,
        },
        Err(Memory) => ParseFault::Memory,
    }
}

/// The number of what is wrong with a text that reads.
fn number_of(fault: TextFault) -> i32
    ensures { result ≡ number_of fault }
{
    match fault {
        TextFault::TooDeep => TOO_DEEP,
        TextFault::NotDeclared => NOT_DECLARED,
        TextFault::DeclaredTwice => DECLARED_TWICE,
    }
}

/// What is shown of it.
#[tactic(auto, using(crate::proofs::Verdicts::near_given))]
fn shown_of(
    alloc: Global,
    text: &Units,
    lexing: &Lexing,
    fault: TextFault,
    at: usize,
) -> Result<Units, Memory>
    requires lexed { (lexing.now.lexemes.items, lexing.now.flaw) ≡ lexing_of text.now }
    ensures { IfOk result (λ near. near ≡ shown_of fault text.now at) }
{
    match fault {
        TextFault::TooDeep => Ok(Units::new(alloc)),
        TextFault::NotDeclared => near_in(alloc, text, lexing, at),
        TextFault::DeclaredTwice => near_in(alloc, text, lexing, at),
    }
}
