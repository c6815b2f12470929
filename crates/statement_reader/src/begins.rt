//! What statements begin with.

ghost use Rattle.std.specs.Prelude.{◌≡◌};
ghost use Rattle.statement_reader.specs.Parts.{begins_statement, begins_in_while, begins_outside, begins_other_statement};

use lexeme_reader::Lexemes;
use tsql_grammar::{Around, Class, Kind, Reserved};

/// What statements begin with inside a WHILE.
const IN_WHILE: [Class; 26] = [
    Class::One(Kind::Reserved(Reserved::Create)),
    Class::One(Kind::Reserved(Reserved::Begin)),
    Class::One(Kind::Reserved(Reserved::Close)),
    Class::One(Kind::Reserved(Reserved::Commit)),
    Class::One(Kind::Reserved(Reserved::Deallocate)),
    Class::One(Kind::Reserved(Reserved::Declare)),
    Class::One(Kind::Reserved(Reserved::Delete)),
    Class::One(Kind::Reserved(Reserved::Drop)),
    Class::One(Kind::Reserved(Reserved::Execute)),
    Class::One(Kind::Reserved(Reserved::Fetch)),
    Class::One(Kind::Reserved(Reserved::If)),
    Class::One(Kind::Reserved(Reserved::Insert)),
    Class::One(Kind::Reserved(Reserved::Open)),
    Class::One(Kind::Reserved(Reserved::Print)),
    Class::One(Kind::Reserved(Reserved::RaiseError)),
    Class::One(Kind::Reserved(Reserved::Return)),
    Class::One(Kind::Reserved(Reserved::Rollback)),
    Class::One(Kind::Reserved(Reserved::Save)),
    Class::One(Kind::Reserved(Reserved::Select)),
    Class::One(Kind::Reserved(Reserved::Set)),
    Class::One(Kind::Reserved(Reserved::Throw)),
    Class::One(Kind::Reserved(Reserved::Update)),
    Class::One(Kind::Reserved(Reserved::Use)),
    Class::One(Kind::Reserved(Reserved::While)),
    Class::One(Kind::Reserved(Reserved::Break)),
    Class::One(Kind::Reserved(Reserved::Continue)),
];

/// What they begin with elsewhere.
const OUTSIDE: [Class; 24] = [
    Class::One(Kind::Reserved(Reserved::Create)),
    Class::One(Kind::Reserved(Reserved::Begin)),
    Class::One(Kind::Reserved(Reserved::Close)),
    Class::One(Kind::Reserved(Reserved::Commit)),
    Class::One(Kind::Reserved(Reserved::Deallocate)),
    Class::One(Kind::Reserved(Reserved::Declare)),
    Class::One(Kind::Reserved(Reserved::Delete)),
    Class::One(Kind::Reserved(Reserved::Drop)),
    Class::One(Kind::Reserved(Reserved::Execute)),
    Class::One(Kind::Reserved(Reserved::Fetch)),
    Class::One(Kind::Reserved(Reserved::If)),
    Class::One(Kind::Reserved(Reserved::Insert)),
    Class::One(Kind::Reserved(Reserved::Open)),
    Class::One(Kind::Reserved(Reserved::Print)),
    Class::One(Kind::Reserved(Reserved::RaiseError)),
    Class::One(Kind::Reserved(Reserved::Return)),
    Class::One(Kind::Reserved(Reserved::Rollback)),
    Class::One(Kind::Reserved(Reserved::Save)),
    Class::One(Kind::Reserved(Reserved::Select)),
    Class::One(Kind::Reserved(Reserved::Set)),
    Class::One(Kind::Reserved(Reserved::Throw)),
    Class::One(Kind::Reserved(Reserved::Update)),
    Class::One(Kind::Reserved(Reserved::Use)),
    Class::One(Kind::Reserved(Reserved::While)),
];

/// What statements but CREATE TABLE begin with, outside a WHILE.
const OTHER: [Class; 23] = [
    Class::One(Kind::Reserved(Reserved::Begin)),
    Class::One(Kind::Reserved(Reserved::Close)),
    Class::One(Kind::Reserved(Reserved::Commit)),
    Class::One(Kind::Reserved(Reserved::Deallocate)),
    Class::One(Kind::Reserved(Reserved::Declare)),
    Class::One(Kind::Reserved(Reserved::Delete)),
    Class::One(Kind::Reserved(Reserved::Drop)),
    Class::One(Kind::Reserved(Reserved::Execute)),
    Class::One(Kind::Reserved(Reserved::Fetch)),
    Class::One(Kind::Reserved(Reserved::If)),
    Class::One(Kind::Reserved(Reserved::Insert)),
    Class::One(Kind::Reserved(Reserved::Open)),
    Class::One(Kind::Reserved(Reserved::Print)),
    Class::One(Kind::Reserved(Reserved::RaiseError)),
    Class::One(Kind::Reserved(Reserved::Return)),
    Class::One(Kind::Reserved(Reserved::Rollback)),
    Class::One(Kind::Reserved(Reserved::Save)),
    Class::One(Kind::Reserved(Reserved::Select)),
    Class::One(Kind::Reserved(Reserved::Set)),
    Class::One(Kind::Reserved(Reserved::Throw)),
    Class::One(Kind::Reserved(Reserved::Update)),
    Class::One(Kind::Reserved(Reserved::Use)),
    Class::One(Kind::Reserved(Reserved::While)),
];

/// Whether a statement may begin with the next lexeme.
#[tactic(auto, using(crate::proofs::Statements::begun))]
pub(crate) fn begins_statement(lexemes: &Lexemes<'_>, around: Around) -> bool
    ensures { result ≡ begins_statement around lexemes.now }
{
    if around.in_while {
        begins_in_while(lexemes)
    } else {
        begins_outside(lexemes)
    }
}

/// The same inside a WHILE.
#[tactic(auto, unfolding(crate::specs::Parts::begins_in_while, crate::specs::Parts::begins_statement))]
fn begins_in_while(lexemes: &Lexemes<'_>) -> bool
    ensures { result ≡ begins_in_while lexemes.now }
{
    lexemes.sees_any(&IN_WHILE)
}

/// The same elsewhere.
#[tactic(auto, unfolding(crate::specs::Parts::begins_outside, crate::specs::Parts::begins_statement))]
fn begins_outside(lexemes: &Lexemes<'_>) -> bool
    ensures { result ≡ begins_outside lexemes.now }
{
    lexemes.sees_any(&OUTSIDE)
}

/// Whether a statement that is no CREATE TABLE may begin with the next lexeme, outside a WHILE.
#[tactic(auto, unfolding(crate::specs::Parts::begins_other_statement))]
pub(crate) fn begins_other_statement(lexemes: &Lexemes<'_>) -> bool
    ensures { result ≡ begins_other_statement lexemes.now }
{
    lexemes.sees_any(&OTHER)
}
