//! Reads a text with a stack of what is expected: whether it is of a rule, and where it stops.

ghost use Rattle.std.specs.Prelude.{◌≡◌, ◌∷◌, ◌+◌, ◌<◌, ◌^◌, if◌then◌else◌, length, IfOk};
ghost use Rattle.tsql_grammar.specs.Noted.{start};
ghost use Rattle.tsql_grammar.specs.Terminals as terminal;
ghost use Rattle.tsql_grammar.specs.Terminals.{Terminal, terminals, kind_before, units, units_of, begins_else};
ghost use Rattle.tsql_grammar.specs.Words.{kind_of};
ghost use Rattle.tsql_recognizer.specs.Notes.{Goes};
ghost use Rattle.tsql_recognizer.specs.Stack.{expected};
ghost use Rattle.tsql_recognizer.specs.Steps.{Fed, Finished};
ghost use Rattle.tsql_recognizer.specs.Verdict.{IsVerdict};

use crate::common::step_before;
use crate::notes::Notes;
use crate::open::open;
use crate::step::Step;
use crate::symbol::Symbol;
use std::alloc::{AllocError, Global};
use tsql_grammar::{Kind, Mark, Reserved, Rule, TextFault, kind_of, same_kind, takes};
use tsql_lexer::{Lexeme, Sign, Spanned};
use value_types::Memory;

/// What a list of lexemes is to a rule.
#[derive(Clone, Copy)]
pub enum Verdict {
    /// So many lexemes are the longest part that begins a text of the rule; the whole is no text of it.
    Stops(usize),
    /// The whole is a text of the rule. This is the first thing in it that is wrong, and the place of
    /// the lexeme at which it is.
    Reads(Option<(TextFault, usize)>),
}

/// Whether the lexemes are a text of the rule. Variables are judged where `judges` says so.
pub fn recognize(
    alloc: Global,
    rule: Rule,
    lexemes: &[Spanned],
    judges: bool,
) -> Result<Verdict, Memory>
    ensures { IfOk result (λ verdict. IsVerdict rule (terminals lexemes.now) (start judges) verdict) }
{
    let count = count_of(lexemes);
    let mut stack = Vec::new(alloc);
    stack.push(Symbol::Rule(rule))?;
    let mut notes = Notes::new(alloc, judges);
    let mut rest = lexemes;
    while let Some((spanned, more)) = rest.split_first() {
        let kind = terminal_kind(&spanned.lexeme, more);
        if !feed(&mut stack, kind, units_of(&spanned.lexeme), &mut notes)? {
            return Ok(Verdict::Stops(notes.place));
        }
        rest = more;
    }
    if finish(&mut stack, &mut notes)? {
        Ok(Verdict::Reads(notes.fault))
    } else {
        Ok(Verdict::Stops(count))
    }
}

/// How many lexemes these are.
fn count_of(lexemes: &[Spanned]) -> usize
    ensures { result ≡ length lexemes.now }
{
    lexemes.len()
}

/// Reads one lexeme of a kind, and answers whether it may stand here.
fn feed<'a>(
    stack: &mut Vec<Symbol>,
    kind: Kind,
    held: &'a [u16],
    notes: &mut Notes<'a>,
) -> Result<bool, AllocError>
    requires { notes.old.place + 1 < 2 ^ 64 }
    ensures means { IfOk result (λ taken. Goes (λ s t. (l : Terminal) → terminal.kind l ≡ kind → units l ≡ held.now → Fed (expected stack.old.items) s l taken (expected stack.new.items) t) notes.old notes.new) }
    ensures place { IfOk result (λ taken. notes.new.place ≡ (if taken then notes.old.place + 1 else notes.old.place)) }
{
    while let Some(symbol) = stack.pop() {
        match symbol {
            Symbol::Lexeme(class) => {
                if !takes(class, kind) {
                    return Ok(false);
                }
                notes.see(held);
                return Ok(true);
            }
            Symbol::Mark(mark) => notes.note(mark)?,
            Symbol::Rule(rule) => match step_before(rule, kind, stack)? {
                Step::Stops => return Ok(false),
                Step::Opens => {}
                Step::Takes => {
                    notes.see(held);
                    return Ok(true);
                }
                Step::Enters => {
                    notes.see(held);
                    notes.note(Mark::Enter)?;
                    return Ok(true);
                }
                Step::Leaves => {
                    notes.see(held);
                    notes.note(Mark::Leave)?;
                    return Ok(true);
                }
            },
        }
    }
    Ok(false)
}

/// The text has ended: whether it is whole.
fn finish(stack: &mut Vec<Symbol>, notes: &mut Notes) -> Result<bool, AllocError>
    ensures { IfOk result (λ whole. Goes (λ s t. Finished (expected stack.old.items) s whole t) notes.old notes.new) }
{
    while let Some(symbol) = stack.pop() {
        match symbol {
            Symbol::Lexeme(_) => return Ok(false),
            Symbol::Mark(mark) => notes.note(mark)?,
            Symbol::Rule(rule) => {
                if !open(rule, None, stack)? {
                    return Ok(false);
                }
            }
        }
    }
    Ok(true)
}

/// The kind of a lexeme with these behind it.
fn terminal_kind(lexeme: &Lexeme, behind: &[Spanned]) -> Kind
    ensures { result ≡ kind_before (begins_else behind.now) (kind_of lexeme.now) }
{
    match kind_of(lexeme) {
        Kind::Sign(Sign::Semicolon) if begins_else(behind) => Kind::BeforeElse,
        kind => kind,
    }
}

/// Whether the lexemes begin with ELSE.
fn begins_else(lexemes: &[Spanned]) -> bool
    ensures { result ≡ begins_else lexemes.now }
{
    match lexemes.first() {
        None => false,
        Some(first) => same_kind(kind_of(&first.lexeme), Kind::Reserved(Reserved::Else)),
    }
}

/// The units that a lexeme holds: of a name, a variable or a text.
fn units_of(lexeme: &Lexeme) -> &[u16]
    ensures { result.now ≡ units_of lexeme.now }
{
    match lexeme {
        Lexeme::Word(word) => word.as_slice(),
        Lexeme::Quoted(name) => name.as_slice(),
        Lexeme::Variable(name) => name.as_slice(),
        Lexeme::SystemName(name) => name.as_slice(),
        Lexeme::Text(text) => text.as_slice(),
        Lexeme::Number(_) => &[],
        Lexeme::Sign(_) => &[],
    }
}
