//! The longest run of lexemes that begins some text of a rule.

ghost use Rattle.std.specs.Prelude.{◌≡◌, false, IfOk};
ghost use Rattle.query_parser.specs.Parsed.{IsRun, run_with};
ghost use Rattle.tsql_grammar.specs.Noted.{start};
ghost use Rattle.tsql_grammar.specs.Terminals.{terminals};
ghost use Rattle.tsql_recognizer.specs.Verdict.{IsVerdict};
ghost use Rattle.tsql_recognizer.specs.declared.recognizer.Verdict.TheVariants.{Stops};

use std::alloc::Global;
use tsql_grammar::{Rule, TextFault};
use tsql_lexer::Spanned;
use tsql_recognizer::{Verdict, recognize};
use value_types::Memory;

/// What the longest run is that begins some text of a rule, and how many lexemes it has.
#[derive(Clone, Copy)]
pub enum Run {
    /// A text of the rule.
    Reads(usize),
    /// One that nests too deep, at this lexeme of it.
    TooDeep(usize, usize),
    /// None.
    Stops(usize),
}

/// The longest run.
pub(crate) fn run_of(alloc: Global, rule: Rule, lexemes: &[Spanned]) -> Result<Run, Memory>
    ensures { IfOk result (λ run. IsRun rule lexemes.now run) }
{
    match recognize(alloc, rule, lexemes, false)? {
        Verdict::Reads(fault) => Ok(run_with(lexemes.len(), fault)),
        Verdict::Stops(taken) => part_of(alloc, rule, lexemes, taken),
    }
}

/// It, where it is not all of the lexemes, or all of them are no text.
fn part_of(alloc: Global, rule: Rule, lexemes: &[Spanned], taken: usize) -> Result<Run, Memory>
    requires { IsVerdict rule (terminals lexemes.now) (start false) (Stops taken) }
    ensures { IfOk result (λ run. IsRun rule lexemes.now run) }
{
    match recognize(alloc, rule, &lexemes[..taken], false)? {
        Verdict::Reads(fault) => Ok(run_with(taken, fault)),
        Verdict::Stops(_) => Ok(Run::Stops(taken)),
    }
}

/// A run that reads, by what is wrong in it.
#[tactic(auto, unfolding(crate::specs::Parsed::run_with))]
fn run_with(taken: usize, fault: Option<(TextFault, usize)>) -> Run
    ensures { result ≡ run_with taken fault }
{
    match fault {
        None => Run::Reads(taken),
        Some((_fault, place)) => Run::TooDeep(taken, place),
    }
}
