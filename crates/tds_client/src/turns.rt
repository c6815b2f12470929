//! What a client says and hears, up to the tokens that it prints.

ghost use Rattle.std.specs.Prelude.{◌≡◌, ◌≢◌, ◌≤◌, Err, IfErr, IfOk, OnOk, length};
ghost use Rattle.outside_io.specs.Bytes.{HasRisen, Takes};
ghost use Rattle.tds_packets.specs.declared.message.Message.{Message as AnyMessage};
ghost use Rattle.tds_client.specs.Sending.{FitsLogin, batch_payload, login_payload, packets_at, prelogin_payload, text_limit};
ghost use Rattle.tds_client.specs.Replies.{Carries, Greets};
ghost use Rattle.tds_client.specs.Parts.{Answered, EndsInTurn, HasEnded, IsTold};

use crate::batch::batch_payload;
use crate::end::ClientEnd;
use crate::exchange::{exchange, tokens_for};
use crate::login::{ClientLogin, login_payload, prelogin_payload};
use crate::replies::{judge_greeting, refusal_in};
use crate::turn::Turn;
use outside_io::Line;
use std::alloc::Global;
use tds_packets::{LOGIN7, PRELOGIN, Reader, SQL_BATCH};
use tds_tokens::Token;
use value_types::Units;

/// What is to be printed at a client's end.
#[derive(Drop)]
pub(crate) struct Told {
    /// Where the login is not granted, the number of the first ERROR, or 0.
    pub(crate) refused: Option<i32>,
    /// The tokens of the last reply.
    pub(crate) tokens: Vec<Token>,
}

/// Logs in and asks a batch: the tokens of the reply, or of that by which the login is refused.
pub(crate) fn take_turns<L: Line>(
    alloc: Global,
    login: &ClientLogin,
    text: &Units,
    line: &mut L,
) -> Result<Told, ClientEnd>
    requires login { FitsLogin login.now }
    requires text { length text.now ≤ text_limit }
    ensures told { IfOk result (λ told. IsTold login.now text.now (Takes L.left L.given line.old line.new) (L.left line.new)
        (L.written line.old) (L.written line.new) told.tokens.items told.refused) }
    ensures ended { IfErr result (HasEnded login.now text.now (Takes L.left L.given line.old line.new) (L.left line.new)
        (L.written line.old) (L.written line.new)) }
    ensures read_fault { result ≡ Err ClientEnd.ReadFault → HasRisen (L.Source.faults line.old) (L.Source.faults line.new) }
    ensures write_fault { result ≡ Err ClientEnd.WriteFault → HasRisen (L.Sink.faults line.old) (L.Sink.faults line.new) }
    ensures no_read_fault { result ≢ Err ClientEnd.ReadFault → L.Source.faults line.new ≡ L.Source.faults line.old }
    ensures no_write_fault { result ≢ Err ClientEnd.WriteFault → L.Sink.faults line.new ≡ L.Sink.faults line.old }
    ensures reads_counted { L.Source.faults line.old ≤ L.Source.faults line.new }
    ensures writes_counted { L.Sink.faults line.old ≤ L.Sink.faults line.new }
    ensures no_print_fault { result ≢ Err ClientEnd.PrintFault }
    ensures held { L.held line.new ≡ L.held line.old }
{
    let mut reader = Reader::new();
    greet(alloc, &mut reader, line)?;
    let tokens = log_in(alloc, login, &mut reader, line)?;
    let refused = refusal_in(&tokens);
    if refused.is_some() {
        return Ok(Told { refused, tokens });
    }
    let answer = ask(alloc, text, &mut reader, line)?;
    Ok(Told {
        refused,
        tokens: answer,
    })
}

/// Sends a PRELOGIN, and reads a reply behind which the client goes on.
fn greet<L: Line>(alloc: Global, reader: &mut Reader, line: &mut L) -> Result<(), ClientEnd>
    ensures greeted { OnOk result ((reply : AnyMessage) × Answered (packets_at Turn.Prelogin prelogin_payload) reader.old reader.new
        (Takes L.left L.given line.old line.new) (L.written line.old) (L.written line.new) reply × Greets reply) }
    ensures ended { IfErr result (EndsInTurn Turn.Prelogin (packets_at Turn.Prelogin prelogin_payload) reader.old
        (Takes L.left L.given line.old line.new) (L.left line.new) (L.written line.old) (L.written line.new)) }
    ensures read_fault { result ≡ Err ClientEnd.ReadFault → HasRisen (L.Source.faults line.old) (L.Source.faults line.new) }
    ensures write_fault { result ≡ Err ClientEnd.WriteFault → HasRisen (L.Sink.faults line.old) (L.Sink.faults line.new) }
    ensures no_read_fault { result ≢ Err ClientEnd.ReadFault → L.Source.faults line.new ≡ L.Source.faults line.old }
    ensures no_write_fault { result ≢ Err ClientEnd.WriteFault → L.Sink.faults line.new ≡ L.Sink.faults line.old }
    ensures reads_counted { L.Source.faults line.old ≤ L.Source.faults line.new }
    ensures writes_counted { L.Sink.faults line.old ≤ L.Sink.faults line.new }
    ensures no_print_fault { result ≢ Err ClientEnd.PrintFault }
    ensures held { L.held line.new ≡ L.held line.old }
{
    let payload = prelogin_payload();
    let reply = exchange(alloc, reader, line, Turn::Prelogin, PRELOGIN, &payload)?;
    judge_greeting(reply.payload.as_slice())
}

/// Sends a LOGIN7, and reads the tokens of the reply.
fn log_in<L: Line>(
    alloc: Global,
    login: &ClientLogin,
    reader: &mut Reader,
    line: &mut L,
) -> Result<Vec<Token>, ClientEnd>
    requires { FitsLogin login.now }
    ensures answered { IfOk result (λ tokens. (reply : AnyMessage) × Answered (packets_at Turn.Login (login_payload login.now)) reader.old reader.new
        (Takes L.left L.given line.old line.new) (L.written line.old) (L.written line.new) reply × Carries reply tokens.items) }
    ensures ended { IfErr result (EndsInTurn Turn.Login (packets_at Turn.Login (login_payload login.now)) reader.old
        (Takes L.left L.given line.old line.new) (L.left line.new) (L.written line.old) (L.written line.new)) }
    ensures read_fault { result ≡ Err ClientEnd.ReadFault → HasRisen (L.Source.faults line.old) (L.Source.faults line.new) }
    ensures write_fault { result ≡ Err ClientEnd.WriteFault → HasRisen (L.Sink.faults line.old) (L.Sink.faults line.new) }
    ensures no_read_fault { result ≢ Err ClientEnd.ReadFault → L.Source.faults line.new ≡ L.Source.faults line.old }
    ensures no_write_fault { result ≢ Err ClientEnd.WriteFault → L.Sink.faults line.new ≡ L.Sink.faults line.old }
    ensures reads_counted { L.Source.faults line.old ≤ L.Source.faults line.new }
    ensures writes_counted { L.Sink.faults line.old ≤ L.Sink.faults line.new }
    ensures no_print_fault { result ≢ Err ClientEnd.PrintFault }
    ensures held { L.held line.new ≡ L.held line.old }
{
    let payload = login_payload(alloc, login)?;
    tokens_for(alloc, reader, line, Turn::Login, LOGIN7, &payload)
}

/// Sends the batch of a text, and reads the tokens of the reply.
fn ask<L: Line>(
    alloc: Global,
    text: &Units,
    reader: &mut Reader,
    line: &mut L,
) -> Result<Vec<Token>, ClientEnd>
    ensures answered { IfOk result (λ tokens. (reply : AnyMessage) × Answered (packets_at Turn.Batch (batch_payload text.now)) reader.old reader.new
        (Takes L.left L.given line.old line.new) (L.written line.old) (L.written line.new) reply × Carries reply tokens.items) }
    ensures ended { IfErr result (EndsInTurn Turn.Batch (packets_at Turn.Batch (batch_payload text.now)) reader.old
        (Takes L.left L.given line.old line.new) (L.left line.new) (L.written line.old) (L.written line.new)) }
    ensures read_fault { result ≡ Err ClientEnd.ReadFault → HasRisen (L.Source.faults line.old) (L.Source.faults line.new) }
    ensures write_fault { result ≡ Err ClientEnd.WriteFault → HasRisen (L.Sink.faults line.old) (L.Sink.faults line.new) }
    ensures no_read_fault { result ≢ Err ClientEnd.ReadFault → L.Source.faults line.new ≡ L.Source.faults line.old }
    ensures no_write_fault { result ≢ Err ClientEnd.WriteFault → L.Sink.faults line.new ≡ L.Sink.faults line.old }
    ensures reads_counted { L.Source.faults line.old ≤ L.Source.faults line.new }
    ensures writes_counted { L.Sink.faults line.old ≤ L.Sink.faults line.new }
    ensures no_print_fault { result ≢ Err ClientEnd.PrintFault }
    ensures held { L.held line.new ≡ L.held line.old }
{
    let payload = batch_payload(alloc, text)?;
    tokens_for(alloc, reader, line, Turn::Batch, SQL_BATCH, &payload)
}
