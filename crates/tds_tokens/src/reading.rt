//! Reading tokens.

ghost use Rattle.std.specs.Prelude.{◌≡◌, List, [], IfOk, IfErr};
ghost use Rattle.tds_tokens.specs.declared.token.Token.{Token as AnyToken};
ghost use Rattle.tds_tokens.specs.Spelling.{TokenBytes};
ghost use Rattle.tds_tokens.specs.Ranges.{AreTokens};
ghost use Rattle.tds_tokens.specs.Answer.{AnswersTokens, IsFaultOf, NoneBeginsAnother};
ghost use Rattle.tds_tokens.specs.Reading.{Gives, columns_of_place, place_after, tagged_at, token_at};

mod bodies;
mod columns;
mod fields;
mod tag;
mod values;

use crate::columns::ColumnInfo;
use crate::fault::{ReadFault, TokenFault};
use crate::token::Token;
use bodies::{env_framed, finished_at, login_ack_framed, notice_framed, return_value_at};
use columns::columns_at;
use fields::i32_at;
use std::alloc::Global;
use tag::{Tag, tag_at};
use values::row_at;

/// The tokens that the bytes are, all of the bytes.
pub fn read_tokens(alloc: Global, bytes: &[u8]) -> Result<Vec<Token>, TokenFault>
    // What is read is spelled so.
    ensures found { IfOk result (λ read. AreTokens [] read.items × (TokenBytes read.items ≡ bytes.now)) }
    // What is spelled so is read, unless memory runs out.
    ensures only { (tokens : List AnyToken) → AreTokens [] tokens → TokenBytes tokens ≡ bytes.now → AnswersTokens result tokens }
    // The fault is the first place where no token begins.
    ensures bad { IfErr result (IsFaultOf bytes.now) }
{
    let mut tokens = Vec::new(alloc);
    let mut rest = bytes;
    let mut described = None;
    while !rest.is_empty() {
        match token_at(alloc, columns_of_place(&tokens, described), rest) {
            Ok((token, behind)) => {
                described = place_after(&token, tokens.len(), described);
                tokens.push(token)?;
                rest = behind;
            }
            Err(ReadFault::Absent) => {
                let at = (bytes.len() - rest.len()) as u64;
                return Err(TokenFault::Bad { at });
            }
            Err(ReadFault::Memory) => return Err(TokenFault::Memory),
        }
    }
    Ok(tokens)
}

/// No token's bytes are the beginning of another's where the latest columns are the same, so a
/// client finds where each token ends.
pub fn law_tokens()
    ensures { NoneBeginsAnother }
{}

/// The latest columns, which the token at the place describes.
fn columns_of_place(tokens: &[Token], place: Option<usize>) -> &[ColumnInfo]
    ensures { result.now ≡ columns_of_place tokens.now place }
{
    match place {
        None => &[],
        Some(place) => match tokens.get(place) {
            None => &[],
            Some(token) => token.columns_after(&[]),
        },
    }
}

/// Where the latest columns stand behind one more token, which stands at `next`.
fn place_after(token: &Token, next: usize, place: Option<usize>) -> Option<usize>
    ensures { result ≡ place_after token.now next place }
{
    match token {
        Token::Columns(_) => Some(next),
        _ => place,
    }
}

/// The token with which the bytes begin, where the latest columns before it are these.
#[tactic(auto, unfolding(crate::specs::Reading::token_at))]
fn token_at<'a>(
    alloc: Global,
    columns: &[ColumnInfo],
    bytes: &'a [u8],
) -> Result<(Token, &'a [u8]), ReadFault>
    ensures { Gives (λ x. (x.0, x.1.now)) result (token_at columns.now bytes.now) }
{
    let (tag, rest) = tag_at(bytes)?;
    tagged_at(alloc, columns, tag, rest)
}

/// What stands behind a token's tag.
#[tactic(auto, unfolding(crate::specs::Reading::tagged_at))]
fn tagged_at<'a>(
    alloc: Global,
    columns: &[ColumnInfo],
    tag: Tag,
    bytes: &'a [u8],
) -> Result<(Token, &'a [u8]), ReadFault>
    ensures { Gives (λ x. (x.0, x.1.now)) result (tagged_at columns.now tag bytes.now) }
{
    match tag {
        Tag::LoginAck => login_ack_framed(alloc, bytes),
        Tag::Error => {
            let (notice, rest) = notice_framed(alloc, bytes)?;
            Ok((Token::Error(notice), rest))
        }
        Tag::Info => {
            let (notice, rest) = notice_framed(alloc, bytes)?;
            Ok((Token::Info(notice), rest))
        }
        Tag::Env => env_framed(alloc, bytes),
        Tag::Columns => {
            let (columns, rest) = columns_at(alloc, bytes)?;
            Ok((Token::Columns(columns), rest))
        }
        Tag::Row => {
            let (row, rest) = row_at(alloc, columns, bytes)?;
            Ok((Token::Row(row), rest))
        }
        Tag::ReturnStatus => {
            let (status, rest) = i32_at(bytes)?;
            Ok((Token::ReturnStatus(status), rest))
        }
        Tag::ReturnValue => return_value_at(alloc, bytes),
        Tag::Finished(kind) => finished_at(kind, bytes),
    }
}
