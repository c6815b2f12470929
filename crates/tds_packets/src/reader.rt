//! Reading messages.

ghost use Rattle.std.specs.Prelude.{◌≡◌, ◌≢◌, ◌+◌, ◌≤◌, List, ℕ, length, vec_len};
ghost use Rattle.std.specs.Io.KnownBytes.{IsAtEnd};
ghost use Rattle.outside_io.specs.Bytes.{Takes, HasRisen};
ghost use Rattle.tds_packets.specs.Reading.{Gives, IsEnd, byte_limit};
ghost use Rattle.tds_packets.specs.Parts.{GivesPacket, GivesHeader, Fills};
ghost use Rattle.tds_packets.specs.Stream.{payload_limit};

use crate::fault::MessageFault;
use crate::header::{HEADER_LEN, PacketHeader, read_header};
use crate::message::{Message, Payload};
use outside_io::{Failed, Source};
use std::alloc::Global;
use std::marker::Model;

/// How many bytes a reader takes at most.
const BYTE_LIMIT: u64 = 1 << 40;

/// Reads the messages of one stream. A clause sees it as how many bytes it has taken so far.
#[derive(Drop)]
pub struct Reader {
    taken: u64,
}

impl Model for Reader {
    ghost use Rattle.std.specs.Prelude.{ℕ, ◌≤◌};
    ghost use Rattle.tds_packets.specs.Reading.{byte_limit};

    ghost Value = { ℕ };

    ghost view = { λ reader. reader.taken };

    ghost invariant = { λ reader. reader.taken ≤ byte_limit };
}

impl Default for Reader {
    ghost is_default = { λ reader. reader ≡ 0 };

    fn default() -> Reader {
        Reader::new()
    }
}

impl Reader {
    /// A reader at the beginning of a stream.
    pub fn new() -> Reader
        ensures { result ≡ 0 }
    {
        Reader { taken: 0 }
    }

    /// Reads the next message, and no byte behind it. After a fault a reader is not used again: its
    /// contract would then speak of a stream that begins where the fault left it.
    pub fn next_message<S: Source>(
        &mut self,
        alloc: Global,
        source: &mut S,
    ) -> Result<Message, MessageFault>
        ensures next { (bytes : List ℕ) × Takes S.left S.given source.old source.new bytes
            × (self.new ≡ self.old + length bytes) × Gives self.old bytes result }
        ensures ended { IsEnd result → IsAtEnd (S.left source.new) }
        ensures read_fault { result ≡ Err MessageFault.ReadFault → HasRisen (S.faults source.old) (S.faults source.new) }
        ensures no_fault { result ≢ Err MessageFault.ReadFault → S.faults source.new ≡ S.faults source.old }
        ensures counted { S.faults source.old ≤ S.faults source.new }
        ensures beside { S.beside source.new ≡ S.beside source.old }
        ensures within { self.new ≤ byte_limit }
    {
        let at = self.taken;
        let mut begun = None;
        let mut payload = Vec::new(alloc);
        'packets: loop {
            let packet = self.next_packet(source, begun, &mut payload)?;
            if packet.last {
                return Ok(Message {
                    kind: packet.kind,
                    at,
                    payload: Payload::from(payload),
                });
            }
            begun = Some(packet.kind);
        }
    }

    /// Reads the next packet of a message whose earlier packets have the type `begun`, where there
    /// are any, and appends its data to theirs.
    fn next_packet<S: Source>(
        &mut self,
        source: &mut S,
        begun: Option<u8>,
        payload: &mut Vec<u8>,
    ) -> Result<PacketHeader, MessageFault>
        requires { vec_len payload.old ≤ payload_limit }
        ensures next { (bytes : List ℕ) × Takes S.left S.given source.old source.new bytes
            × (self.new ≡ self.old + length bytes) × GivesPacket begun self.old bytes payload.old.items payload.new.items result }
        ensures ended { IsEnd result → IsAtEnd (S.left source.new) }
        ensures read_fault { result ≡ Err MessageFault.ReadFault → HasRisen (S.faults source.old) (S.faults source.new) }
        ensures no_fault { result ≢ Err MessageFault.ReadFault → S.faults source.new ≡ S.faults source.old }
        ensures counted { S.faults source.old ≤ S.faults source.new }
        ensures beside { S.beside source.new ≡ S.beside source.old }
        ensures within { self.new ≤ byte_limit }
    {
        let size = payload.len();
        let header = self.next_header(source, begun, size)?;
        payload.resize(size + header.body_len, 0)?;
        let (_, body) = payload.split_at_mut(size);
        self.fill(source, body)?;
        Ok(header)
    }

    /// Reads the header of a packet behind packets of the type `begun`, where there are any, that
    /// carry `size` bytes.
    fn next_header<S: Source>(
        &mut self,
        source: &mut S,
        begun: Option<u8>,
        size: usize,
    ) -> Result<PacketHeader, MessageFault>
        requires { size ≤ payload_limit }
        ensures next { (bytes : List ℕ) × Takes S.left S.given source.old source.new bytes
            × (self.new ≡ self.old + length bytes) × GivesHeader begun size self.old bytes result }
        ensures ended { IsEnd result → IsAtEnd (S.left source.new) }
        ensures read_fault { result ≡ Err MessageFault.ReadFault → HasRisen (S.faults source.old) (S.faults source.new) }
        ensures no_fault { result ≢ Err MessageFault.ReadFault → S.faults source.new ≡ S.faults source.old }
        ensures counted { S.faults source.old ≤ S.faults source.new }
        ensures beside { S.beside source.new ≡ S.beside source.old }
        ensures within { self.new ≤ byte_limit }
    {
        let at = self.taken;
        let mut header = [0; HEADER_LEN];
        match self.fill(source, &mut header) {
            Ok(()) => read_header(&header, begun, size, at),
            Err(MessageFault::Cut { at: end }) if end == at && begun.is_none() => {
                Err(MessageFault::Closed)
            }
            Err(fault) => Err(fault),
        }
    }

    /// Reads until `into` is full.
    fn fill<S: Source>(&mut self, source: &mut S, into: &mut [u8]) -> Result<(), MessageFault>
        ensures next { (bytes : List ℕ) × Takes S.left S.given source.old source.new bytes
            × (self.new ≡ self.old + length bytes) × Fills self.new into.new bytes result }
        ensures ended { IsEnd result → IsAtEnd (S.left source.new) }
        ensures read_fault { result ≡ Err MessageFault.ReadFault → HasRisen (S.faults source.old) (S.faults source.new) }
        ensures no_fault { result ≢ Err MessageFault.ReadFault → S.faults source.new ≡ S.faults source.old }
        ensures counted { S.faults source.old ≤ S.faults source.new }
        ensures beside { S.beside source.new ≡ S.beside source.old }
        ensures within { self.new ≤ byte_limit }
    {
        let mut filled = 0;
        while filled < into.len() {
            let room = BYTE_LIMIT - self.taken;
            if room == 0 {
                return Err(MessageFault::Spent);
            }
            let end = filled + (into.len() - filled).min(room as usize);
            match source.read(&mut into[filled..end]) {
                Ok(0) => return Err(MessageFault::Cut { at: self.taken }),
                Ok(n) => {
                    filled += n;
                    self.taken += n as u64;
                }
                Err(Failed) => return Err(MessageFault::ReadFault),
            }
        }
        Ok(())
    }
}
