//! A message that is sent, and the reply to it.

ghost use Rattle.std.specs.Prelude.{◌≡◌, ◌≢◌, ◌+◌, ◌≤◌, ℕ, List, length, Err, IfErr, IfOk, OnOk};
ghost use Rattle.std.specs.Io.KnownBytes.{Appends, IsAtEnd};
ghost use Rattle.outside_io.specs.Bytes.{HasRisen, Takes};
ghost use Rattle.tds_packets.specs.declared.message.Message.{Message as AnyMessage};
ghost use Rattle.tds_packets.specs.Packets.{IsPartSent, Packets, default_size};
ghost use Rattle.tds_packets.specs.Reading.{Gives, IsEnd};
ghost use Rattle.tds_client.specs.Parts.{Answered, EndsInTurn, Missed, Replied};
ghost use Rattle.tds_client.specs.Replies.{Carries};

use crate::end::{ClientEnd, end_of_message};
use crate::replies::read_reply;
use crate::turn::Turn;
use outside_io::Line;
use std::alloc::Global;
use tds_packets::{
    DEFAULT_SIZE, Message, MessageFault, Reader, SendFault, TABULAR_RESULT, send_message,
};
use tds_tokens::Token;

/// The SPID of what a client sends ([MS-TDS] 2.2.3.1.4).
const CLIENT_SPID: u16 = 0;

/// Sends a message of a turn, which has this type and carries this payload, and reads the reply to it.
pub(crate) fn exchange<L: Line>(
    alloc: Global,
    reader: &mut Reader,
    line: &mut L,
    turn: Turn,
    kind: u8,
    payload: &[u8],
) -> Result<Message, ClientEnd>
    ensures answered { IfOk result (Answered (Packets kind 0 default_size payload.now) reader.old reader.new
        (Takes L.left L.given line.old line.new) (L.written line.old) (L.written line.new)) }
    ensures ended { IfErr result (EndsInTurn turn (Packets kind 0 default_size payload.now) reader.old
        (Takes L.left L.given line.old line.new) (L.left line.new) (L.written line.old) (L.written line.new)) }
    ensures read_fault { result ≡ Err ClientEnd.ReadFault → HasRisen (L.Source.faults line.old) (L.Source.faults line.new) }
    ensures write_fault { result ≡ Err ClientEnd.WriteFault → HasRisen (L.Sink.faults line.old) (L.Sink.faults line.new) }
    ensures no_read_fault { result ≢ Err ClientEnd.ReadFault → L.Source.faults line.new ≡ L.Source.faults line.old }
    ensures no_write_fault { result ≢ Err ClientEnd.WriteFault → L.Sink.faults line.new ≡ L.Sink.faults line.old }
    ensures reads_counted { L.Source.faults line.old ≤ L.Source.faults line.new }
    ensures writes_counted { L.Sink.faults line.old ≤ L.Sink.faults line.new }
    ensures no_print_fault { result ≢ Err ClientEnd.PrintFault }
    ensures held { L.held line.new ≡ L.held line.old }
{
    send(alloc, line, kind, payload)?;
    receive(alloc, reader, line, turn)
}

/// The tokens of the reply to a message of a turn, which has this type and carries this payload.
pub(crate) fn tokens_for<L: Line>(
    alloc: Global,
    reader: &mut Reader,
    line: &mut L,
    turn: Turn,
    kind: u8,
    payload: &[u8],
) -> Result<Vec<Token>, ClientEnd>
    requires { turn ≢ Turn.Prelogin }
    ensures answered { IfOk result (λ tokens. (reply : AnyMessage) × Answered (Packets kind 0 default_size payload.now) reader.old reader.new
        (Takes L.left L.given line.old line.new) (L.written line.old) (L.written line.new) reply × Carries reply tokens.items) }
    ensures ended { IfErr result (EndsInTurn turn (Packets kind 0 default_size payload.now) reader.old
        (Takes L.left L.given line.old line.new) (L.left line.new) (L.written line.old) (L.written line.new)) }
    ensures read_fault { result ≡ Err ClientEnd.ReadFault → HasRisen (L.Source.faults line.old) (L.Source.faults line.new) }
    ensures write_fault { result ≡ Err ClientEnd.WriteFault → HasRisen (L.Sink.faults line.old) (L.Sink.faults line.new) }
    ensures no_read_fault { result ≢ Err ClientEnd.ReadFault → L.Source.faults line.new ≡ L.Source.faults line.old }
    ensures no_write_fault { result ≢ Err ClientEnd.WriteFault → L.Sink.faults line.new ≡ L.Sink.faults line.old }
    ensures reads_counted { L.Source.faults line.old ≤ L.Source.faults line.new }
    ensures writes_counted { L.Sink.faults line.old ≤ L.Sink.faults line.new }
    ensures no_print_fault { result ≢ Err ClientEnd.PrintFault }
    ensures held { L.held line.new ≡ L.held line.old }
{
    let reply = exchange(alloc, reader, line, turn, kind, payload)?;
    read_reply(alloc, turn, reply.payload.as_slice())
}

/// Sends a message whole on a line, or a front of it where writing fails or memory is wanting.
fn send<L: Line>(alloc: Global, line: &mut L, kind: u8, payload: &[u8]) -> Result<(), SendFault>
    ensures sent { OnOk result (Appends (L.written line.old) (L.written line.new) (Packets kind 0 default_size payload.now)) }
    ensures part { IfErr result (IsPartSent (L.written line.old) (L.written line.new) (Packets kind 0 default_size payload.now)) }
    ensures write_fault { result ≡ Err SendFault.WriteFault → HasRisen (L.Sink.faults line.old) (L.Sink.faults line.new) }
    ensures no_fault { result ≢ Err SendFault.WriteFault → L.Sink.faults line.new ≡ L.Sink.faults line.old }
    ensures counted { L.Sink.faults line.old ≤ L.Sink.faults line.new }

    // Nothing is read.
    ensures left { L.left line.new ≡ L.left line.old }
    ensures given { L.given line.new ≡ L.given line.old }
    ensures reads { L.Source.faults line.new ≡ L.Source.faults line.old }
    ensures held { L.held line.new ≡ L.held line.old }
{
    send_message(alloc, line, kind, CLIENT_SPID, DEFAULT_SIZE, payload)
}

/// Reads the reply of a turn.
fn receive<L: Line>(
    alloc: Global,
    reader: &mut Reader,
    line: &mut L,
    turn: Turn,
) -> Result<Message, ClientEnd>
    ensures replied { IfOk result (Replied reader.old reader.new (Takes L.left L.given line.old line.new)) }
    ensures missed { IfErr result (Missed turn reader.old (Takes L.left L.given line.old line.new) (L.left line.new)) }
    ensures read_fault { result ≡ Err ClientEnd.ReadFault → HasRisen (L.Source.faults line.old) (L.Source.faults line.new) }
    ensures no_read_fault { result ≢ Err ClientEnd.ReadFault → L.Source.faults line.new ≡ L.Source.faults line.old }
    ensures counted { L.Source.faults line.old ≤ L.Source.faults line.new }
    ensures no_write_fault { result ≢ Err ClientEnd.WriteFault }
    ensures no_print_fault { result ≢ Err ClientEnd.PrintFault }

    // Nothing is written.
    ensures unwritten { L.written line.new ≡ L.written line.old }
    ensures writes { L.Sink.faults line.new ≡ L.Sink.faults line.old }
    ensures held { L.held line.new ≡ L.held line.old }
{
    let reply = match next_message(alloc, reader, line) {
        Ok(reply) => reply,
        Err(fault) => return Err(end_of_message(turn, fault)),
    };
    if reply.kind != TABULAR_RESULT {
        return Err(ClientEnd::Kind {
            reply: turn.number(),
            kind: reply.kind,
        });
    }
    Ok(reply)
}

/// Reads the next message of a line. Nothing is written there.
fn next_message<L: Line>(
    alloc: Global,
    reader: &mut Reader,
    line: &mut L,
) -> Result<Message, MessageFault>
    ensures next { (bytes : List ℕ) × Takes L.left L.given line.old line.new bytes
        × (reader.new ≡ reader.old + length bytes) × Gives reader.old bytes result }
    ensures ended { IsEnd result → IsAtEnd (L.left line.new) }
    ensures read_fault { result ≡ Err MessageFault.ReadFault → HasRisen (L.Source.faults line.old) (L.Source.faults line.new) }
    ensures no_fault { result ≢ Err MessageFault.ReadFault → L.Source.faults line.new ≡ L.Source.faults line.old }
    ensures counted { L.Source.faults line.old ≤ L.Source.faults line.new }
    ensures unwritten { L.written line.new ≡ L.written line.old }
    ensures writes { L.Sink.faults line.new ≡ L.Sink.faults line.old }
    ensures held { L.held line.new ≡ L.held line.old }
{
    reader.next_message(alloc, line)
}
