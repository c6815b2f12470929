//! How a batch is handled.

ghost use Rattle.std.specs.Prelude.{◌≡◌, ◌%◌, [], length, drop, None, Some, IfOk, IfErr};
ghost use Rattle.session_server.specs.Parts.{IsHandled};
ghost use Rattle.batch_meaning.specs.Progress.{Ready};
ghost use Rattle.session_server.specs.Talk.{runs, handle_batch, batch_fault, batch_tokens, headers_length};
ghost use Rattle.session_server.specs.declared.message.ServerState.TheVariants.{LoggedIn};
ghost use Rattle.tds_packets.specs.Packets.{IsPacketSize};
ghost use Rattle.tds_tokens.specs.Fit.{FitTokens};
ghost use Rattle.tds_tokens.specs.Spelling.{TokenBytes};
ghost use Rattle.value_types.specs.Units.{units_of};

use crate::end::{BatchFault, End};
use crate::message::{Connected, Handling};
use crate::prepared::PreparedResponse;
use batch_exec::run_batch;
use batch_forms::read_text;
use byteorder::{ByteOrder, LittleEndian};
use session_state::SessionState;
use std::alloc::Global;
use step_model::Port;
use tds_tokens::Token;
use value_types::{Memory, Units, UnitsFault, units_of_le};

/// How many bytes the length of ALL_HEADERS has ([MS-TDS] 2.2.5.3).
const HEADERS_LENGTH_LEN: usize = 4;

/// Handles a batch with this payload.
pub(crate) fn handle_batch<P: Port>(
    alloc: Global,
    spid: u16,
    session: &mut SessionState,
    port: &mut P,
    connected: &Connected,
    payload: &[u8],
) -> Result<Handling, Memory>
    requires ready { Ready session.old (P.past port.old) }
    requires sized { IsPacketSize connected.now.packet_size }
    ensures handled { IsHandled spid (P.past port.old) (P.past port.new) (handle_batch connected.now payload.now (batch_fault payload.now)) session.old result session.new (LoggedIn connected.now) }
    ensures ready { Ready session.new (P.past port.new) }
{
    match batch_text(payload) {
        Ok(text) => respond_to_batch(alloc, spid, session, port, connected, text),
        Err(fault) => Ok(Handling::Ends {
            end: End::BadBatch { fault },
        }),
    }
}

/// Runs the batch of a text that has these bytes, and responds by what it sends.
fn respond_to_batch<P: Port>(
    alloc: Global,
    spid: u16,
    session: &mut SessionState,
    port: &mut P,
    connected: &Connected,
    text: &[u8],
) -> Result<Handling, Memory>
    requires ready { Ready session.old (P.past port.old) }
    requires sized { IsPacketSize connected.now.packet_size }
    requires whole { length text.now % 2 ≡ 0 }
    ensures handled { IsHandled spid (P.past port.old) (P.past port.new) (runs connected.now (units_of text.now)) session.old result session.new (LoggedIn connected.now) }
    ensures ready { Ready session.new (P.past port.new) }
{
    let units = units_in(alloc, text)?;
    respond_to_text(alloc, spid, session, port, connected, &units)
}

/// Runs the batch of this text, and responds by what it sends.
pub(crate) fn respond_to_text<P: Port>(
    alloc: Global,
    spid: u16,
    session: &mut SessionState,
    port: &mut P,
    connected: &Connected,
    text: &Units,
) -> Result<Handling, Memory>
    requires ready { Ready session.old (P.past port.old) }
    requires sized { IsPacketSize connected.now.packet_size }
    ensures handled { IsHandled spid (P.past port.old) (P.past port.new) (runs connected.now text.now) session.old result session.new (LoggedIn connected.now) }
    ensures ready { Ready session.new (P.past port.new) }
{
    let (read, vars) = read_text(alloc, text)?;
    run_batch(alloc, session, port, &read, vars)?;
    let response = prepare_batch(alloc, spid, connected, session.tokens())?;
    Ok(Handling::Responds {
        response,
        next: Ok(()),
    })
}

/// What is sent for a batch that has sent these tokens.
fn prepare_batch(
    alloc: Global,
    spid: u16,
    connected: &Connected,
    tokens: &[Token],
) -> Result<PreparedResponse, Memory>
    requires fit { FitTokens [] tokens.now }
    ensures channel { IfOk result (λ prepared. prepared.channel ≡ record { spid = spid; packet_size = connected.now.packet_size }) }
    ensures payload { IfOk result (λ prepared. prepared.payload.items ≡ TokenBytes (batch_tokens connected.now tokens.now)) }
{
    let channel = connected.channel(spid);
    if connected.drivers {
        PreparedResponse::of_batch(alloc, channel, tokens)
    } else {
        PreparedResponse::of_tokens(alloc, channel, tokens)
    }
}

/// The units of a text of whole units.
fn units_in(alloc: Global, text: &[u8]) -> Result<Units, Memory>
    requires { length text.now % 2 ≡ 0 }
    ensures { IfOk result (λ units. units ≡ units_of text.now) }
{
    match units_of_le(alloc, text) {
        Ok(units) => Ok(units),
        Err(UnitsFault::OddLength) => unreachable!(),
        Err(UnitsFault::Memory) => Err(Memory),
    }
}

/// The text of a batch's payload, as its bytes behind ALL_HEADERS, or what is wrong with it.
fn batch_text(payload: &[u8]) -> Result<&[u8], BatchFault>
    ensures text { IfOk result (λ text. (batch_fault payload.now ≡ None) × (text.now ≡ drop (headers_length payload.now) payload.now)) }
    ensures even { IfOk result (λ text. length text.now % 2 ≡ 0) }
    ensures fault { IfErr result (λ fault. batch_fault payload.now ≡ Some fault) }
{
    if payload.len() < HEADERS_LENGTH_LEN {
        return Err(BatchFault::HeadersShort);
    }
    let total = LittleEndian::read_u32(payload) as usize;
    if total < HEADERS_LENGTH_LEN || payload.len() < total {
        return Err(BatchFault::HeadersTotal);
    }
    let (_, text) = payload.split_at(total);
    if text.len() % 2 == 1 {
        return Err(BatchFault::OddText);
    }
    Ok(text)
}
