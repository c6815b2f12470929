//! A response that is about to be sent, and how its packets are sent.

ghost use Rattle.std.specs.Prelude.{◌≡◌, ◌≢◌, ◌≤◌, [], Err, IfOk, IfErr, OnOk};
ghost use Rattle.std.specs.Io.KnownBytes.{Appends};
ghost use Rattle.outside_io.specs.Bytes.{HasRisen};
ghost use Rattle.tds_packets.specs.Header.{tabular_result};
ghost use Rattle.tds_packets.specs.Packets.{Packets, IsPartSent, IsPacketSize};
ghost use Rattle.tds_tokens.specs.Spelling.{TokenBytes};
ghost use Rattle.tds_tokens.specs.Fit.{FitTokens};
ghost use Rattle.session_server.specs.Response.{ended_once};

use crate::response::ended_once;
use outside_io::Line;
use std::alloc::Global;
use tds_packets::{SendFault, TABULAR_RESULT, send_message};
use tds_tokens::{Token, write_tokens};
use value_types::Memory;

/// How packets are sent: their SPID ([MS-TDS] 2.2.3.1.4) and their size in bytes.
#[derive(Clone, Copy)]
pub(crate) struct Channel {
    /// The SPID.
    pub(crate) spid: u16,
    /// The size.
    pub(crate) packet_size: u16,
}

/// What is sent for a message.
#[derive(Drop)]
pub(crate) struct PreparedResponse {
    /// How its packets are sent.
    pub(crate) channel: Channel,
    /// What its packets carry.
    pub(crate) payload: Vec<u8>,
}

impl PreparedResponse {
    /// Tokens in packets of this channel.
    pub(crate) fn of_tokens(
        alloc: Global,
        channel: Channel,
        tokens: &[Token],
    ) -> Result<PreparedResponse, Memory>
        requires fit { FitTokens [] tokens.now }
        ensures channel { IfOk result (λ prepared. prepared.channel ≡ channel) }
        ensures payload { IfOk result (λ prepared. prepared.payload.items ≡ TokenBytes tokens.now) }
    {
        let mut payload = Vec::new(alloc);
        write_tokens(tokens, &mut payload)?;
        Ok(PreparedResponse { channel, payload })
    }

    /// The tokens of a batch in packets of this channel, with one DONE at their end.
    pub(crate) fn of_batch(
        alloc: Global,
        channel: Channel,
        tokens: &[Token],
    ) -> Result<PreparedResponse, Memory>
        requires fit { FitTokens [] tokens.now }
        ensures channel { IfOk result (λ prepared. prepared.channel ≡ channel) }
        ensures payload { IfOk result (λ prepared. prepared.payload.items ≡ TokenBytes (ended_once tokens.now)) }
    {
        let Some((front, done)) = ended_once(tokens) else {
            return PreparedResponse::of_tokens(alloc, channel, tokens);
        };
        let mut payload = Vec::new(alloc);
        write_tokens(front, &mut payload)?;
        write_tokens(&[done], &mut payload)?;
        Ok(PreparedResponse { channel, payload })
    }

    /// Sends it whole on a line, or a front of it where writing fails or memory is wanting.
    pub(crate) fn send<L: Line>(&self, alloc: Global, line: &mut L) -> Result<(), SendFault>
        requires { IsPacketSize self.now.channel.packet_size }
        ensures sent { OnOk result (Appends (L.written line.old) (L.written line.new) (Packets tabular_result self.now.channel.spid self.now.channel.packet_size self.now.payload.items)) }
        ensures part { IfErr result (IsPartSent (L.written line.old) (L.written line.new) (Packets tabular_result self.now.channel.spid self.now.channel.packet_size self.now.payload.items)) }
        ensures write_fault { result ≡ Err SendFault.WriteFault → HasRisen (L.Sink.faults line.old) (L.Sink.faults line.new) }
        ensures no_fault { result ≢ Err SendFault.WriteFault → L.Sink.faults line.new ≡ L.Sink.faults line.old }
        ensures counted { L.Sink.faults line.old ≤ L.Sink.faults line.new }

        // Nothing is read.
        ensures left { L.left line.new ≡ L.left line.old }
        ensures given { L.given line.new ≡ L.given line.old }
        ensures reads { L.Source.faults line.new ≡ L.Source.faults line.old }
        ensures held { L.held line.new ≡ L.held line.old }
    {
        let Channel { spid, packet_size } = self.channel;
        let payload = self.payload.as_slice();
        send_message(alloc, line, TABULAR_RESULT, spid, packet_size, payload)
    }
}
