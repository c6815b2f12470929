//! The tokens of responses for which nothing is asked, and the one DONE of a batch.

ghost use Rattle.std.specs.Prelude.{◌≡◌, ◌<◌, ◌&&◌, [], ◌∷◌, ◌++◌, List, length, true, IfOk, IfSome, IfNone, Some, None, if◌then◌else◌};
ghost use Rattle.std.specs.Fmt.{decimal};
ghost use Rattle.tds_tokens.specs.declared.token.Token.{Token};
ghost use Rattle.tds_tokens.specs.Fit.{FitTokens};
ghost use Rattle.batch_meaning.specs.Tokens.{last_done};
ghost use Rattle.session_server.specs.Response.{attention_tokens, refusal_tokens, unserved, ended_once, is_followed, is_final, unfollowed};
ghost use Rattle.session_server.specs.Parts.{IsDone};

use session_state::error_of;
use std::alloc::Global;
use tds_tokens::{COMMAND_NONE, DONE_ATTN, DONE_ERROR, DONE_FINAL, DONE_MORE, DoneKind, Token};
use value_types::{Memory, Units};

/// The end of an attention.
pub(crate) fn attention_done() -> Token
    ensures token { result ∷ [] ≡ attention_tokens }
    ensures fit { FitTokens [] (result ∷ []) }
{
    done(DoneKind::Done, DONE_ATTN)
}

/// ERROR, and DONE with DONE_ERROR, by which a login is refused.
pub(crate) fn refusal_tokens(alloc: Global, number: i32) -> Result<Vec<Token>, Memory>
    ensures tokens { IfOk result (λ tokens. tokens.items ≡ refusal_tokens number) }
    ensures fit { IfOk result (λ tokens. FitTokens [] tokens.items) }
{
    tokens_of_refusal(alloc, number)
}

/// An error, and the end of what it refuses.
fn tokens_of_refusal(alloc: Global, number: i32) -> Result<Vec<Token>, Memory>
    ensures { IfOk result (λ tokens. tokens.items ≡ refusal_tokens number) }
{
    let error = error_of(alloc, number, Units::new(alloc), 1)?;
    Ok(vec![in alloc; error, done(DoneKind::Done, DONE_ERROR)]?)
}

/// ERROR of this number, which tells an offset, and a last token of this kind, by which a message is refused that leaves
/// the connection.
pub(crate) fn unserved_tokens(
    alloc: Global,
    number: u16,
    at: u32,
    kind: DoneKind,
) -> Result<Vec<Token>, Memory>
    ensures tokens { IfOk result (λ tokens. tokens.items ≡ unserved number at (last_done kind true)) }
    ensures fit { IfOk result (λ tokens. FitTokens [] tokens.items) }
{
    tokens_of_unserved(alloc, number, at, kind)
}

/// An error that tells an offset, and the end of what it refuses.
fn tokens_of_unserved(
    alloc: Global,
    number: u16,
    at: u32,
    kind: DoneKind,
) -> Result<Vec<Token>, Memory>
    ensures { IfOk result (λ tokens. tokens.items ≡ unserved number at (last_done kind true)) }
{
    let error = error_of(alloc, i32::from(number), digits_of(alloc, at)?, 1)?;
    Ok(vec![in alloc; error, done(kind, DONE_ERROR)]?)
}

/// The digits of an offset.
fn digits_of(alloc: Global, at: u32) -> Result<Units, Memory>
    ensures { IfOk result (λ digits. digits ≡ decimal at) }
{
    let digits = format!(in alloc; "{at}")?;
    Units::of_ascii(alloc, digits.as_bytes())
}

/// A DONE of this kind and status, which names no command and counts no rows.
fn done(kind: DoneKind, status: u16) -> Token
    ensures { result ≡ Token.Finished kind status 0 0 }
{
    Token::Finished {
        kind,
        status,
        command: COMMAND_NONE,
        rows: 0,
    }
}

// ---- one DONE

/// Where a statement's DONE stands right in front of a batch's own: what stands in front of both, and the one DONE that
/// takes their place.
pub(crate) fn ended_once(tokens: &[Token]) -> Option<(&[Token], Token)>
    ensures once { IfSome result (λ parts. ended_once tokens.now ≡ parts.0.now ++ parts.1 ∷ []) }
    ensures still { IfNone result (ended_once tokens.now ≡ tokens.now) }
    ensures front { IfSome result (λ parts. (rest : List Token) × (tokens.now ≡ parts.0.now ++ rest)) }
    ensures done { IfSome result (λ parts. IsDone parts.1) }
{
    let (front, first, last) = last_two(tokens)?;
    let done = one_done(first, last)?;
    Some((front, done))
}

/// The last two of these tokens, behind the others.
fn last_two(tokens: &[Token]) -> Option<(&[Token], &Token, &Token)>
    ensures parts { IfSome result (λ parts. tokens.now ≡ parts.0.now ++ parts.1.now ∷ parts.2.now ∷ []) }
    ensures few { IfNone result (length tokens.now < 2) }
{
    let (last, others) = tokens.split_last()?;
    let (first, front) = others.split_last()?;
    Some((front, first, last))
}

/// The DONE that takes the place of a statement's and of a batch's own, if these are such.
fn one_done(first: &Token, last: &Token) -> Option<Token>
    ensures one { result ≡ (if is_followed first.now && is_final last.now then Some (unfollowed first.now) else None) }
    ensures done { IfSome result IsDone }
{
    match first {
        Token::Finished {
            kind: DoneKind::Done,
            status,
            command,
            rows,
        } if *status % 2 == DONE_MORE && is_final(last) => Some(Token::Finished {
            kind: DoneKind::Done,
            status: *status - DONE_MORE,
            command: *command,
            rows: *rows,
        }),
        _ => None,
    }
}

/// Whether a token is the DONE of a batch that no error has ended.
fn is_final(token: &Token) -> bool
    ensures { result ≡ is_final token.now }
{
    match token {
        Token::Finished {
            kind: DoneKind::Done,
            status,
            ..
        } => *status == DONE_FINAL,
        _ => false,
    }
}
