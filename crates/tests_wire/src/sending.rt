//! A message that is sent to a sink that fails, is full, or wants memory.

ghost use Rattle.std.specs.Prelude.{◌≤◌, None};

use outside_io::{MemorySink, Sink, SinkFault};
use std::alloc::{AllocError, Global};
use std::test::Fail;
use tds_packets::{SendFault, TABULAR_RESULT, send_message};

/// The data of a packet of 512 bytes.
const DATA: &[u8; 504] = &[0x61; 504];

/// Sends a payload in packets of 512 bytes, as a message of SPID 51.
fn send<K: Sink>(alloc: Global, sink: &mut K, payload: &[u8]) -> Result<(), SendFault> {
    send_message(alloc, sink, TABULAR_RESULT, 51, 512, payload)
}

/// Two packets of 512 bytes.
fn two_packets(alloc: Global) -> Result<Vec<u8>, AllocError> {
    let mut bytes = Vec::from_slice(alloc, b"\x04\x00\x02\x00\x00\x33\x01\x00")?;
    bytes.extend_from_slice(DATA)?;
    bytes.extend_from_slice(b"\x04\x01\x02\x00\x00\x33\x02\x00")?;
    bytes.extend_from_slice(DATA)?;
    Ok(bytes)
}

/// Whether two packets of which the writes take at most so many bytes, and that of a number fails, are sent up to this front.
fn leaves_front(alloc: Global, piece: u32, failing: u32, front: usize) -> Result<bool, AllocError>
    requires { 1 ≤ piece }
{
    let payload = [0x61; 1008];
    let mut sink = MemorySink::new(alloc, piece, vec![in alloc; failing]?);
    let sent = send(alloc, &mut sink, &payload);
    let ends_so = if front == 1024 {
        sent == Ok(())
    } else {
        sent == Err(SendFault::WriteFault)
    };
    let mut wanted = two_packets(alloc)?;
    wanted.truncate(front);
    Ok(ends_so && sink.into_bytes() == wanted)
}

/// How many bytes so many writes of at most 100 have written: a packet takes six, of which the sixth has 12.
fn written_by(writes: u32) -> usize {
    match writes {
        0..=5 => writes as usize * 100,
        6..=11 => 512 + (writes - 6) as usize * 100,
        _ => 1024,
    }
}

#[test]
fn a_write_that_fails_leaves_a_front_of_the_packets(rt: HostRuntime) -> Result<(), Fail> {
    assert!(rt; leaves_front(rt.alloc(), 4096, 1, 0)?);
    assert!(rt; leaves_front(rt.alloc(), 4096, 2, 512)?);
    assert!(rt; leaves_front(rt.alloc(), 4096, 3, 1024)?);
    for write in 1..=13u32 {
        let front = written_by(write.saturating_sub(1));
        assert!(rt; leaves_front(rt.alloc(), 100, write, front)?, "{write}");
    }
    Ok(())
}

/// The PacketID of the 256th packet is 0, and that of the 300th is 44.
#[test]
fn packet_ids_begin_again(rt: HostRuntime) -> Result<(), Fail> {
    let mut payload = Vec::new(rt.alloc());
    for _turn in 0..300u32 {
        payload.extend_from_slice(DATA)?;
    }
    let mut sink = MemorySink::new(rt.alloc(), 1_000_000, Vec::new(rt.alloc()));
    send(rt.alloc(), &mut sink, &payload)?;
    let bytes = sink.into_bytes();
    assert!(rt; bytes.len() == 300 * 512);
    assert!(rt; bytes.get(255 * 512 + 6) == Some(&0));
    assert!(rt; bytes.get(299 * 512 + 6) == Some(&44));
    Ok(())
}

/// A sink with room for so many bytes. When it is full, memory is wanting, or it takes nothing.
#[derive(Drop)]
struct FullSink {
    room: usize,
    wants_memory: bool,
    faults: u64,
}

impl Sink for FullSink {
    ghost written = { λ _. None };

    ghost faults = { λ s. s.faults };

    fn write(&mut self, from: &[u8]) -> Result<usize, SinkFault> {
        if self.room == 0 {
            if self.wants_memory {
                return Err(SinkFault::Memory);
            }
            if !from.is_empty() {
                self.faults = self.faults.saturating_add(1);
            }
            return Ok(0);
        }
        let n = from.len().min(self.room);
        self.room -= n;
        Ok(n)
    }
}

/// Whether two packets sent to a sink with room for so many bytes come to this, with or without a fault of the sink.
fn comes_to(
    alloc: Global,
    room: usize,
    wants_memory: bool,
    wanted: Result<(), SendFault>,
    has_fault: bool,
) -> bool {
    let payload = [0x61; 1008];
    let mut sink = FullSink {
        room,
        wants_memory,
        faults: 0,
    };
    let sent = send(alloc, &mut sink, &payload);
    sent == wanted && (sink.faults > 0) == has_fault
}

#[test]
fn a_full_sink_is_a_write_fault_and_want_of_memory_is_none(rt: HostRuntime) {
    for room in [0, 1, 8, 511, 512, 513, 1023] {
        let fault = Err(SendFault::WriteFault);
        assert!(rt;
            comes_to(rt.alloc(), room, false, fault, true),
            "room for {room}"
        );
        let memory = Err(SendFault::Memory);
        assert!(rt;
            comes_to(rt.alloc(), room, true, memory, false),
            "room for {room}"
        );
    }
    assert!(rt; comes_to(rt.alloc(), 1024, false, Ok(()), false));
}
