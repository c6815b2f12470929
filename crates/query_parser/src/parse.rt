//! Selects, tests and expressions among the lexemes of a text.

ghost use Rattle.std.specs.Prelude.{◌≡◌, ◌≤◌, ◌<◌, ◌+◌, true, length, take, drop, None, Err, IfOk, OnErr, ℕ};
ghost use Rattle.tsql_grammar.specs.declared.rule.Rule.TheVariants as r;
ghost use Rattle.tsql_grammar.specs.Productions.{Tree};
ghost use Rattle.query_parser.specs.Parsed.{ReadsWith, IsRun, IsSaid, IsParsed, IsParsedSelect, IsUnbegun, begins_select};
ghost use Rattle.tsql_grammar.specs.declared.fault.ParseFault.TheVariants.{Memory as NoMemory};
ghost use Rattle.query_parser.specs.declared.run.Run.TheVariants as run;
ghost use Rattle.std.specs.List.{slice_get};

use crate::place::{line_at, near_at};
use crate::run::{Run, run_of};
use lexeme_reader::{Lexemes, ReadFault};
use query_reader::{read_expr, read_select, read_test};
use std::alloc::Global;
use tsql_grammar::{Kind, ParseFault, Reserved, Rule, kind_of, same_kind};
use tsql_lexer::Spanned;
use tsql_tree::{Expr, Select, Test};
use value_types::{Memory, Units};

/// Incorrect syntax.
const SYNTAX_ERROR: i32 = 102;

/// The text nests too deep.
const TOO_DEEP: i32 = 49009;

/// The expression that the lexemes from a place on begin with, and the place behind it.
///
/// Its lexemes are the longest run that begins some expression. Where the run is none, 102 stands at
/// the lexeme behind it; where it nests deeper than 128, 49009 at the one that opens too much.
pub fn parse_expr(alloc: Global, lexemes: &[Spanned], at: u32) -> Result<(Expr, u32), ParseFault>
    requires { at ≤ length lexemes.now }
    ensures { IsParsed r.Expr lexemes.now at result }
{
    match run_at(alloc, Rule::Expr, lexemes, at)? {
        Run::Reads(taken) => {
            let after = place_behind(at, taken)?;
            let expr = whole_expr(alloc, lexemes_of_run(lexemes, at, taken))?;
            Ok((expr, after))
        }
        Run::TooDeep(_, place) => Err(too_deep(alloc, lexemes, at, place)),
        Run::Stops(taken) => Err(unread(alloc, lexemes, at, taken)),
    }
}

/// The test that the lexemes from a place on begin with, and the place behind it, as [`parse_expr`]
/// says of expressions.
pub fn parse_test(alloc: Global, lexemes: &[Spanned], at: u32) -> Result<(Test, u32), ParseFault>
    requires { at ≤ length lexemes.now }
    ensures { IsParsed r.Test lexemes.now at result }
{
    match run_at(alloc, Rule::Test, lexemes, at)? {
        Run::Reads(taken) => {
            let after = place_behind(at, taken)?;
            let test = whole_test(alloc, lexemes_of_run(lexemes, at, taken))?;
            Ok((test, after))
        }
        Run::TooDeep(_, place) => Err(too_deep(alloc, lexemes, at, place)),
        Run::Stops(taken) => Err(unread(alloc, lexemes, at, taken)),
    }
}

/// The select that the lexemes from a place on begin with, and the place behind it, as [`parse_expr`]
/// says of expressions. Where SELECT does not come first, 102 stands there.
pub fn parse_select(
    alloc: Global,
    lexemes: &[Spanned],
    at: u32,
) -> Result<(Select, u32), ParseFault>
    requires { at ≤ length lexemes.now }
    ensures { IsParsedSelect lexemes.now at result }
{
    if !begins_select(lexemes, at as usize) {
        return Err(unbegun(alloc, lexemes, at));
    }
    let Some(behind) = at.checked_add(1) else {
        return Err(ParseFault::Memory);
    };
    select_behind(alloc, lexemes, behind)
}

/// Whether the lexeme at a place is SELECT.
fn begins_select(lexemes: &[Spanned], at: usize) -> bool
    ensures begins { result ≡ begins_select (slice_get lexemes.now at) }
    ensures within { result ≡ true → at < length lexemes.now }
{
    match lexemes.get(at) {
        None => false,
        Some(first) => same_kind(kind_of(&first.lexeme), Kind::Reserved(Reserved::Select)),
    }
}

/// The select behind its word.
fn select_behind(alloc: Global, lexemes: &[Spanned], at: u32) -> Result<(Select, u32), ParseFault>
    requires { at ≤ length lexemes.now }
    ensures { IsParsed r.Select lexemes.now at result }
{
    match run_at(alloc, Rule::Select, lexemes, at)? {
        Run::Reads(taken) => {
            let after = place_behind(at, taken)?;
            let select = whole_select(alloc, lexemes_of_run(lexemes, at, taken))?;
            Ok((select, after))
        }
        Run::TooDeep(_, place) => Err(too_deep(alloc, lexemes, at, place)),
        Run::Stops(taken) => Err(unread(alloc, lexemes, at, taken)),
    }
}

/// The longest run from a place on.
fn run_at(alloc: Global, rule: Rule, lexemes: &[Spanned], at: u32) -> Result<Run, Memory>
    requires { at ≤ length lexemes.now }
    ensures { IfOk result (λ run. IsRun rule (drop at lexemes.now) run) }
{
    let (_past, rest) = lexemes.split_at(at as usize);
    run_of(alloc, rule, rest)
}

/// The lexemes of a run from a place on.
fn lexemes_of_run(lexemes: &[Spanned], at: u32, taken: usize) -> &[Spanned]
    requires at_within { at ≤ length lexemes.now }
    requires run_within { taken ≤ length (drop at lexemes.now) }
    ensures { result.now ≡ take taken (drop at lexemes.now) }
{
    let (_past, rest) = lexemes.split_at(at as usize);
    rest.split_at(taken).0
}

/// The expression that a run is.
#[tactic(auto, using(crate::proofs::Whole::reads_as, crate::proofs::Whole::reads_some))]
fn whole_expr(alloc: Global, run: &[Spanned]) -> Result<Expr, Memory>
    requires { (tree : Tree r.Expr) × ReadsWith r.Expr run.now tree None }
    ensures { IfOk result (λ tree. ReadsWith r.Expr run.now tree None) }
{
    match read_expr(alloc, &mut Lexemes::new(run)) {
        Ok(expr) => Ok(expr),
        Err(ReadFault::NoRoom) => Err(Memory),
        Err(ReadFault::Refused) => unreachable!(),
    }
}

/// The test that a run is.
#[tactic(auto, using(crate::proofs::Whole::reads_as, crate::proofs::Whole::reads_some))]
fn whole_test(alloc: Global, run: &[Spanned]) -> Result<Test, Memory>
    requires { (tree : Tree r.Test) × ReadsWith r.Test run.now tree None }
    ensures { IfOk result (λ tree. ReadsWith r.Test run.now tree None) }
{
    match read_test(alloc, &mut Lexemes::new(run)) {
        Ok(test) => Ok(test),
        Err(ReadFault::NoRoom) => Err(Memory),
        Err(ReadFault::Refused) => unreachable!(),
    }
}

/// The select that a run is, behind its word.
#[tactic(auto, using(crate::proofs::Whole::reads_as, crate::proofs::Whole::reads_some))]
fn whole_select(alloc: Global, run: &[Spanned]) -> Result<Select, Memory>
    requires { (tree : Tree r.Select) × ReadsWith r.Select run.now tree None }
    ensures { IfOk result (λ tree. ReadsWith r.Select run.now tree None) }
{
    match read_select(alloc, &mut Lexemes::new(run)) {
        Ok(select) => Ok(select),
        Err(ReadFault::NoRoom) => Err(Memory),
        Err(ReadFault::Refused) => unreachable!(),
    }
}

/// The place behind a run of so many lexemes.
fn place_behind(at: u32, taken: usize) -> Result<u32, ParseFault>
    ensures ok { IfOk result (λ after. after ≡ at + taken) }
    ensures err { OnErr result (result ≡ Err NoMemory) }
{
    let Ok(taken) = u32::try_from(taken) else {
        return Err(ParseFault::Memory);
    };
    match at.checked_add(taken) {
        Some(after) => Ok(after),
        None => Err(ParseFault::Memory),
    }
}

/// What is said of a run that nests too deep at a lexeme of it.
fn too_deep(alloc: Global, lexemes: &[Spanned], at: u32, place: usize) -> ParseFault
    ensures { (n : ℕ) → IsSaid lexemes.now at (run.TooDeep n place) result }
{
    let Some(place) = place.checked_add(at as usize) else {
        return ParseFault::Memory;
    };
    ParseFault::Refused {
        number: TOO_DEEP,
        line: line_at(lexemes, place),
        near: Units::new(alloc),
    }
}

/// What is said of a run of so many lexemes that is no text.
fn unread(alloc: Global, lexemes: &[Spanned], at: u32, taken: usize) -> ParseFault
    ensures { IsSaid lexemes.now at (run.Stops taken) result }
{
    let Some(place) = taken.checked_add(at as usize) else {
        return ParseFault::Memory;
    };
    match near_at(alloc, lexemes, place) {
        Err(Memory) => ParseFault::Memory,
        Ok(near) => ParseFault::Refused {
            number: SYNTAX_ERROR,
            line: line_at(lexemes, place),
            near,
        },
    }
}

/// What is said where SELECT has to stand.
fn unbegun(alloc: Global, lexemes: &[Spanned], at: u32) -> ParseFault
    ensures { IsUnbegun lexemes.now at result }
{
    match near_at(alloc, lexemes, at as usize) {
        Err(Memory) => ParseFault::Memory,
        Ok(near) => ParseFault::Refused {
            number: SYNTAX_ERROR,
            line: line_at(lexemes, at as usize),
            near,
        },
    }
}
