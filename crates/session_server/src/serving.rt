//! Serving one connection.

ghost use Rattle.std.specs.Prelude.{◌≡◌, ◌≢◌, ◌+◌, ◌<◌, ◌≤◌, ℕ, false, List, length, Ok, Err, IfErr, OnOk};
ghost use Rattle.outside_io.specs.Bytes.{Takes, HasRisen};
ghost use Rattle.session_server.specs.Conversation.{Conversation, Completes, CountsFault};
ghost use Rattle.session_server.specs.Parts.{IsSized, Spoke, Turned, Ended};
ghost use Rattle.batch_meaning.specs.Progress.{Ready, first_progress};
ghost use Rattle.std.specs.Io.KnownBytes.{IsAtEnd};
ghost use Rattle.tds_packets.specs.Reading.{Gives, IsEnd, byte_limit};

use crate::end::End;
use crate::message::{Handling, ServerState, handle};
use batch_exec::roll_back_open;
use outside_io::Line;
use session_state::SessionState;
use std::alloc::Global;
use step_model::Port;
use tds_login::Config;
use tds_packets::{Message, MessageFault, Reader};

/// What a session's SPID is above its number ([MS-TDS] 2.2.3.1.4).
const SPID_BASE: u16 = 50;

/// Serves one connection of a session, from 1 to 64, over its port, by the server's states in [MS-TDS]
/// 3.3.5: reads a message of the client's line, asks the port what it asks, and writes the response there. The packets have the SPID
/// 50 plus the session, but that which answers a PRELOGIN has 51. The answer says why the connection
/// ended ([`End`]); a transaction that was open is then rolled back.
pub fn serve_on_port<P: Port, L: Line>(
    alloc: Global,
    session: u32,
    port: &mut P,
    config: &Config,
    line: &mut L,
) -> End
    requires first { 1 ≤ session }
    requires last { session ≤ 64 }
    requires session { (P.past port.old).session ≡ session }
    requires idle { (P.past port.old).standing.is_open ≡ false }

    // What was taken, asked and written, and why the connection ended.
    ensures conversation { Conversation config.now session (Takes L.left L.given line.old line.new) (L.left line.new)
        (P.past port.old) (P.past port.new) (L.written line.old) (L.written line.new) result }
    ensures session { (P.past port.new).session ≡ session }
    ensures idle { (P.past port.new).standing.is_open ≡ false }

    // When reading and writing have failed.
    ensures reads { CountsFault (L.Source.faults line.old) (L.Source.faults line.new) (result ≡ End.ReadFault) }
    ensures writes { CountsFault (L.Sink.faults line.old) (L.Sink.faults line.new) (result ≡ End.WriteFault) }

    // The line keeps the references that it holds.
    ensures held { L.held line.new ≡ L.held line.old }

    // Memory was wanting only after a whole header was taken.
    ensures memory { result ≡ End.Memory → (taken : List ℕ) × Takes L.left L.given line.old line.new taken
        × (8 ≤ length taken) }

    // Where nothing fails, memory is not wanting, and the input is fewer than 2^40 bytes of whole messages
    // that can be read, in their places, with no login that is refused, all of them are answered.
    ensures complete { result ≢ End.ReadFault → result ≢ End.WriteFault → Completes config.now (L.left line.old) result }
{
    let spid = SPID_BASE + session as u16;
    let mut progress = SessionState::new(alloc);
    let end = serve_messages(alloc, config, spid, &mut progress, port, line);
    roll_back_open(&mut progress, port);
    end
}

/// Serves message after message, until one ends the connection or none comes.
fn serve_messages<P: Port, L: Line>(
    alloc: Global,
    config: &Config,
    spid: u16,
    session: &mut SessionState,
    port: &mut P,
    line: &mut L,
) -> End
    requires ready { Ready session.old (P.past port.old) }
    requires first { session.old ≡ first_progress }
    ensures spoke { Spoke config.now spid (Takes L.left L.given line.old line.new) (L.left line.new)
        (P.past port.old) (P.past port.new) (L.written line.old) (L.written line.new) session.new result }
    ensures ready { Ready session.new (P.past port.new) }
    ensures read_fault { result ≡ End.ReadFault → HasRisen (L.Source.faults line.old) (L.Source.faults line.new) }
    ensures write_fault { result ≡ End.WriteFault → HasRisen (L.Sink.faults line.old) (L.Sink.faults line.new) }
    ensures no_read_fault { result ≢ End.ReadFault → L.Source.faults line.new ≡ L.Source.faults line.old }
    ensures no_write_fault { result ≢ End.WriteFault → L.Sink.faults line.new ≡ L.Sink.faults line.old }
    ensures reads_counted { L.Source.faults line.old ≤ L.Source.faults line.new }
    ensures writes_counted { L.Sink.faults line.old ≤ L.Sink.faults line.new }
    ensures held { L.held line.new ≡ L.held line.old }
{
    let mut state = ServerState::first(alloc, config);
    let mut reader = Reader::new();
    loop {
        match serve_message(
            alloc,
            config,
            spid,
            session,
            port,
            &mut reader,
            &mut state,
            line,
        ) {
            Ok(()) => {}
            Err(end) => return end,
        }
    }
}

/// Reads a message, handles it in this state, and sends its response. Where the connection goes on, the
/// state becomes that behind it; else why it ended.
fn serve_message<P: Port, L: Line>(
    alloc: Global,
    config: &Config,
    spid: u16,
    session: &mut SessionState,
    port: &mut P,
    reader: &mut Reader,
    state: &mut ServerState,
    line: &mut L,
) -> Result<(), End>
    requires ready { Ready session.old (P.past port.old) }
    requires sized { IsSized state.old }
    requires within { reader.old ≤ byte_limit }
    ensures turned { OnOk result (Turned config.now spid reader.old state.old (Takes L.left L.given line.old line.new)
        (P.past port.old) (P.past port.new) (L.written line.old) (L.written line.new) session.old session.new reader.new state.new) }
    ensures sized { OnOk result (IsSized state.new) }
    ensures within { OnOk result ((reader.old < reader.new) × (reader.new ≤ byte_limit)) }
    ensures ended { IfErr result (Ended config.now spid reader.old state.old (Takes L.left L.given line.old line.new) (L.left line.new)
        (P.past port.old) (P.past port.new) (L.written line.old) (L.written line.new) session.old session.new) }
    ensures ready { Ready session.new (P.past port.new) }
    ensures read_fault { result ≡ Err End.ReadFault → HasRisen (L.Source.faults line.old) (L.Source.faults line.new) }
    ensures write_fault { result ≡ Err End.WriteFault → HasRisen (L.Sink.faults line.old) (L.Sink.faults line.new) }
    ensures no_read_fault { result ≢ Err End.ReadFault → L.Source.faults line.new ≡ L.Source.faults line.old }
    ensures no_write_fault { result ≢ Err End.WriteFault → L.Sink.faults line.new ≡ L.Sink.faults line.old }
    ensures reads_counted { L.Source.faults line.old ≤ L.Source.faults line.new }
    ensures writes_counted { L.Sink.faults line.old ≤ L.Sink.faults line.new }
    ensures held { L.held line.new ≡ L.held line.old }
{
    let message = next_message(alloc, reader, line)?;
    match handle(alloc, config, spid, session, port, state, &message)? {
        Handling::Responds { response, next } => {
            response.send(alloc, line)?;
            next
        }
        Handling::Ends { end } => Err(end),
    }
}

/// Reads the next message of a line. Nothing is written there.
fn next_message<L: Line>(
    alloc: Global,
    reader: &mut Reader,
    line: &mut L,
) -> Result<Message, MessageFault>
    ensures next { (bytes : List ℕ) × Takes L.left L.given line.old line.new bytes
        × (reader.new ≡ reader.old + length bytes) × Gives reader.old bytes result }
    ensures ended { IsEnd result → IsAtEnd (L.left line.new) }
    ensures read_fault { result ≡ Err MessageFault.ReadFault → HasRisen (L.Source.faults line.old) (L.Source.faults line.new) }
    ensures no_fault { result ≢ Err MessageFault.ReadFault → L.Source.faults line.new ≡ L.Source.faults line.old }
    ensures counted { L.Source.faults line.old ≤ L.Source.faults line.new }
    ensures within { reader.new ≤ byte_limit }
    ensures unwritten { L.written line.new ≡ L.written line.old }
    ensures writes { L.Sink.faults line.new ≡ L.Sink.faults line.old }
    ensures held { L.held line.new ≡ L.held line.old }
{
    reader.next_message(alloc, line)
}
