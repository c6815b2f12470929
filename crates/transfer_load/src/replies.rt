//! The replies of a server, read from its bytes.

ghost use Rattle.std.specs.Prelude.{◌≡◌, ◌≤◌, ℕ, ℤ, ◌+◌, List, [], ◌∷◌, length, IfOk, OnOk, Option};
ghost use Rattle.std.specs.List.{list_any};
ghost use Rattle.outside_io.specs.Bytes.{Takes};
ghost use Rattle.outside_io.specs.Memory.{told_given, told_left};
ghost use Rattle.tds_tokens.specs.declared.token.Token.{Token as AnyToken};
ghost use Rattle.transfer_load.specs.Replies.{AreReplies, first_number, is_error, is_refused, number_in, refused_in, row_number, transfers_in, whole_in};
ghost use Rattle.transfer_load.specs.Reading.{IsNext, IsOver};

use outside_io::MemorySource;
use std::alloc::Global;
use tds_packets::{MessageFault, Reader};
use tds_tokens::{Token, read_tokens};
use value_types::{Memory, Value};

/// How many replies to transfers have no ERROR, and how many have one.
#[derive(Clone, Copy, Debug, PartialEq, Eq)]
pub(crate) struct Counts {
    pub(crate) transfers: u32,
    pub(crate) refused: u32,
}

/// Reads so many replies from these bytes, and counts them.
pub(crate) fn count_replies(alloc: Global, bytes: Vec<u8>, many: u32) -> Result<Counts, Memory>
    ensures { IfOk result (λ counts. (replies : List (List AnyToken)) × AreReplies bytes.items replies × (length replies ≡ many)
        × (counts.transfers ≡ transfers_in replies) × (counts.refused ≡ refused_in replies) × (counts.transfers + counts.refused ≡ many)) }
{
    let mut source = MemorySource::new(bytes, u32::MAX, Vec::new(alloc));
    let mut reader = Reader::new();
    let mut counts = Counts {
        transfers: 0,
        refused: 0,
    };
    for _reply in 0..many {
        if is_refused(&next_reply(alloc, &mut reader, &mut source)?) {
            counts.refused += 1;
        } else {
            counts.transfers += 1;
        }
    }
    ends(alloc, &mut reader, &mut source)?;
    Ok(counts)
}

/// Reads one reply from these bytes: the number in it.
pub(crate) fn read_number(alloc: Global, bytes: Vec<u8>) -> Result<Option<i64>, Memory>
    ensures { IfOk result (λ number. (reply : List AnyToken) × AreReplies bytes.items (reply ∷ []) × (number ≡ number_in reply)) }
{
    let mut source = MemorySource::new(bytes, u32::MAX, Vec::new(alloc));
    let mut reader = Reader::new();
    let reply = next_reply(alloc, &mut reader, &mut source)?;
    ends(alloc, &mut reader, &mut source)?;
    Ok(number_in(&reply))
}

/// The tokens of the next message.
fn next_reply(
    alloc: Global,
    reader: &mut Reader,
    source: &mut MemorySource,
) -> Result<Vec<Token>, Memory>
    ensures { IfOk result (λ tokens. (bytes : List ℕ) × Takes told_left told_given source.old source.new bytes
        × (reader.new ≡ reader.old + length bytes) × IsNext reader.old bytes tokens.items) }
{
    let Ok(message) = reader.next_message(alloc, source) else {
        return Err(Memory);
    };
    match read_tokens(alloc, message.payload.as_slice()) {
        Ok(tokens) => Ok(tokens),
        Err(_) => Err(Memory),
    }
}

/// There is no message more.
fn ends(alloc: Global, reader: &mut Reader, source: &mut MemorySource) -> Result<(), Memory>
    ensures { OnOk result ((bytes : List ℕ) × Takes told_left told_given source.old source.new bytes × IsOver reader.old bytes source.new.left) }
{
    match reader.next_message(alloc, source) {
        Err(MessageFault::Closed) => Ok(()),
        _ => Err(Memory),
    }
}

/// Whether there is an ERROR among them.
fn is_refused(tokens: &[Token]) -> bool
    ensures { result ≡ is_refused tokens.now }
{
    tokens.iter().any(|token| is_error(token))
}

/// Whether it is one.
fn is_error(token: &Token) -> bool
    ensures { result ≡ is_error token.now }
{
    matches!(token, Token::Error(_))
}

/// The number in the first row that has one.
fn number_in(tokens: &[Token]) -> Option<i64>
    ensures { result ≡ number_in tokens.now }
{
    let mut left = tokens;
    while let [token, behind @ ..] = left {
        if let Some(number) = row_number(token) {
            return Some(number);
        }
        left = behind;
    }
    None
}

/// The first value of a row, where it is a number.
fn row_number(token: &Token) -> Option<i64>
    ensures { result ≡ row_number token.now }
{
    match token {
        Token::Row(values) => first_number(values.as_slice()),
        _ => None,
    }
}

/// The first of these values, where it is a number.
fn first_number(values: &[Value]) -> Option<i64>
    ensures { result ≡ first_number values.now }
{
    match values {
        [Value::Whole(number), ..] => Some(*number),
        _ => None,
    }
}
