//! A stream of three messages in pieces, and from sources that fail.

use outside_io::MemorySource;
use std::alloc::{AllocError, Global};
use std::test::Fail;
use tds_packets::{Message, MessageFault, Reader};

/// Three messages, of two packets, of one, and of one without data: 12 and 11, 10, and 8 bytes.
const STREAM: &[u8] = b"\x10\x00\x00\x0C\x00\x00\x01\x00abcd\
\x10\x01\x00\x0B\x00\x00\x01\x00efg\
\x01\x01\x00\x0A\x00\x00\x01\x00hi\
\x06\x01\x00\x08\x00\x00\x01\x00";

/// A packet of 12 bytes that ends with its eleventh.
const CUT: &[u8] = b"\x01\x01\x00\x0C\x00\x00\x01\x00abc";

/// A header of an unknown type in front of a packet.
const UNKNOWN: &[u8] = b"\x02\x01\x00\x09\x00\x00\x01\x00\x01\x01\x00\x09\x00\x00\x01\x00a";

/// What the stream is read as.
const MESSAGES: &str = "\x10abcdefg;\x01hi;\x06;";

/// What of that the messages in so many of its bytes are read as.
fn front(count: u32) -> &'static str {
    match count {
        0..=22 => "",
        23..=32 => "\x10abcdefg;",
        33..=40 => "\x10abcdefg;\x01hi;",
        _ => MESSAGES,
    }
}

/// Each message of a stream, by its type and what it carries, and then how it ends; where the bytes come in pieces of at most so
/// many, and the read of a number fails.
fn read_of(
    alloc: Global,
    bytes: &[u8],
    piece: u32,
    failing: u32,
) -> Result<(String, MessageFault), AllocError> {
    let bytes = Vec::from_slice(alloc, bytes)?;
    let mut source = MemorySource::new(bytes, piece.max(1), vec![in alloc; failing]?);
    let mut reader = Reader::new();
    let mut line = String::new(alloc);
    for _turn in 0..3 {
        match reader.next_message(alloc, &mut source) {
            Ok(message) => put_message(&mut line, &message)?,
            Err(fault) => return Ok((line, fault)),
        }
    }
    let fault = match reader.next_message(alloc, &mut source) {
        Ok(_) => MessageFault::Memory,
        Err(fault) => fault,
    };
    Ok((line, fault))
}

fn put_message(line: &mut String, message: &Message) -> Result<(), AllocError> {
    line.push(char::from(message.kind))?;
    for byte in message.payload.as_slice() {
        line.push(char::from(*byte))?;
    }
    line.push(';')
}

/// Whether a stream is read so.
fn is_read(
    alloc: Global,
    bytes: &[u8],
    piece: u32,
    failing: u32,
    wanted: &str,
    end: MessageFault,
) -> Result<bool, AllocError> {
    let (line, fault) = read_of(alloc, bytes, piece, failing)?;
    Ok(line.as_str() == wanted && fault == end)
}

#[test]
fn pieces_of_any_size_are_the_same_messages(rt: HostRuntime) -> Result<(), Fail> {
    for piece in 1..=42 {
        assert!(rt;
            is_read(rt.alloc(), STREAM, piece, 0, MESSAGES, MessageFault::Closed)?,
            "{piece}"
        );
    }
    Ok(())
}

/// The reads of one byte before one that fails gave the bytes before it, and the 42nd finds the end.
#[test]
fn a_failing_read_of_one_byte_is_a_read_fault(rt: HostRuntime) -> Result<(), Fail> {
    for read in 1..=42u32 {
        let wanted = front(read.saturating_sub(1));
        assert!(rt;
            is_read(rt.alloc(), STREAM, 1, read, wanted, MessageFault::ReadFault)?,
            "{read}"
        );
    }
    Ok(())
}

/// The reads are a header and data, a header and data; a header and data; a header; and the end.
#[test]
fn a_failing_read_of_a_whole_piece_is_a_read_fault(rt: HostRuntime) -> Result<(), Fail> {
    for read in 1..=8 {
        let wanted = front(match read {
            1..=4 => 0,
            5..=6 => 23,
            7 => 33,
            _ => 41,
        });
        assert!(rt;
            is_read(
                rt.alloc(),
                STREAM,
                4096,
                read,
                wanted,
                MessageFault::ReadFault
            )?,
            "{read}"
        );
    }
    Ok(())
}

/// The third read gives the last three bytes, and the fourth finds the end. Behind a header that is refused no read is made.
#[test]
fn a_failing_read_is_no_cut(rt: HostRuntime) -> Result<(), Fail> {
    let cut = MessageFault::Cut { at: 11 };
    let unknown = MessageFault::BadHeader { at: 0 };
    assert!(rt; is_read(rt.alloc(), CUT, 4, 3, "", MessageFault::ReadFault)?);
    assert!(rt; is_read(rt.alloc(), CUT, 4, 4, "", MessageFault::ReadFault)?);
    assert!(rt; is_read(rt.alloc(), CUT, 4, 5, "", cut)?);
    assert!(rt; is_read(rt.alloc(), UNKNOWN, 4096, 2, "", unknown)?);
    Ok(())
}
