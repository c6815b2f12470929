//! Sending a payload in packets.

ghost use Rattle.std.specs.Prelude.{◌≡◌, ◌≢◌, ◌+◌, ◌*◌, ◌^◌, ◌<◌, ◌≤◌, ◌++◌, length, OnOk, IfErr};
ghost use Rattle.std.specs.Io.KnownBytes.{Appends};
ghost use Rattle.outside_io.specs.Bytes.{HasRisen, StaysHidden};
ghost use Rattle.tds_packets.specs.Packets.{Packets, packet_at, IsPartSent, least_size, most_size};

use crate::fault::SendFault;
use crate::header::{HEADER_LEN, header_bytes};
use outside_io::{Sink, SinkFault};
use std::alloc::{AllocError, Global};

/// The least size that packets may have, in bytes ([MS-TDS] 2.2.3.1.3).
pub const LEAST_SIZE: u16 = 512;

/// The most that they may have.
pub const MOST_SIZE: u16 = 32767;

/// The size of packets before a login, and where a client asks for none that is served.
pub const DEFAULT_SIZE: u16 = 4096;

/// Writes a payload in packets of `size` bytes, the last of which may be shorter, with one call of
/// the sink a packet where the sink takes what it is given. After an error some front of the
/// packets was written.
pub fn send_message<K: Sink>(
    alloc: Global,
    sink: &mut K,
    kind: u8,
    spid: u16,
    size: u16,
    payload: &[u8],
) -> Result<(), SendFault>
    requires least { least_size ≤ size }
    requires most { size ≤ most_size }
    ensures sent { OnOk result (Appends (K.written sink.old) (K.written sink.new) (Packets kind spid size payload.now)) }
    ensures part { IfErr result (IsPartSent (K.written sink.old) (K.written sink.new) (Packets kind spid size payload.now)) }
    ensures write_fault { result ≡ Err SendFault.WriteFault → HasRisen (K.faults sink.old) (K.faults sink.new) }
    ensures no_fault { result ≢ Err SendFault.WriteFault → K.faults sink.new ≡ K.faults sink.old }
    ensures counted { K.faults sink.old ≤ K.faults sink.new }
    ensures quiet { StaysHidden (K.faults sink.old) (K.written sink.old) (K.written sink.new) }
    ensures beside { K.beside sink.new ≡ K.beside sink.old }
{
    let room = usize::from(size) - HEADER_LEN;
    let count = payload.len().saturating_sub(1) / room + 1;
    let mut packet = Vec::with_capacity(alloc, HEADER_LEN + payload.len().min(room))?;
    for k in 0..count {
        packet.clear();
        put_packet(&mut packet, kind, spid, room, payload, k)?;
        write_whole(sink, &packet)?;
    }
    Ok(())
}

/// Appends packet `k` of the payload, counted from 0.
fn put_packet(
    packet: &mut Vec<u8>,
    kind: u8,
    spid: u16,
    room: usize,
    payload: &[u8],
    k: usize,
) -> Result<(), AllocError>
    requires least { 0 < room }
    requires most { room + 8 < 2 ^ 16 }
    requires within { room * k ≤ length payload.now }
    ensures { OnOk result (packet.new.items ≡ packet.old.items ++ packet_at kind spid (room + 8) payload.now k) }
{
    let start = room * k;
    let rest = &payload[start..];
    let body = &rest[..rest.len().min(room)];
    let last = rest.len() <= room;
    let packet_id = ((k % 256) as u8).wrapping_add(1);
    let header = header_bytes(kind, last, body.len() as u16, spid, packet_id);
    packet.extend_from_slice(&header)?;
    packet.extend_from_slice(body)
}

/// Writes all of the bytes.
fn write_whole<K: Sink>(sink: &mut K, bytes: &[u8]) -> Result<(), SendFault>
    ensures sent { OnOk result (Appends (K.written sink.old) (K.written sink.new) bytes.now) }
    ensures part { IfErr result (IsPartSent (K.written sink.old) (K.written sink.new) bytes.now) }
    ensures write_fault { result ≡ Err SendFault.WriteFault → HasRisen (K.faults sink.old) (K.faults sink.new) }
    ensures no_fault { result ≢ Err SendFault.WriteFault → K.faults sink.new ≡ K.faults sink.old }
    ensures counted { K.faults sink.old ≤ K.faults sink.new }
    ensures quiet { StaysHidden (K.faults sink.old) (K.written sink.old) (K.written sink.new) }
    ensures beside { K.beside sink.new ≡ K.beside sink.old }
{
    let mut rest = bytes;
    while !rest.is_empty() {
        match sink.write(rest) {
            Ok(0) | Err(SinkFault::Failed) => return Err(SendFault::WriteFault),
            Ok(n) => rest = &rest[n..],
            Err(SinkFault::Memory) => return Err(SendFault::Memory),
        }
    }
    Ok(())
}
