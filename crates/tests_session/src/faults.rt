//! A source or a sink that fails around a login.

use crate::messages::batch;
use engine_core::SoloPort;
use outside_io::{Joined, MemorySink, MemorySource};
use session_server::{End, serve_on_port};
use std::alloc::{AllocError, Global};
use std::test::Fail;
use tds_login::{Config, Entry};
use value_types::{Memory, units_of_str};

/// A PRELOGIN with VERSION and ENCRYPTION, which says that it is not supported, in one packet.
const PRELOGIN: &[u8; 26] =
    b"\x12\x01\x00\x1A\x00\x00\x01\x00\x00\x00\x0B\x00\x06\x01\x00\x11\x00\x01\xFF\x0F\x00\x00\x00\x00\
\x00\x02";

/// A LOGIN7 of the user `sa` with the password `A`, whose first byte stands at 106, in one packet.
const LOGIN: &[u8; 108] =
    b"\x10\x01\x00\x6C\x00\x00\x01\x00\x64\x00\x00\x00\x04\x00\x00\x74\x00\x10\x00\x00\x00\x00\x00\x00\
\x00\x00\x00\x00\x00\x00\x00\x00\x00\x00\x00\x00\x00\x00\x00\x00\x09\x04\x00\x00\x5E\x00\x00\x00\
\x5E\x00\x02\x00\x62\x00\x01\x00\x64\x00\x00\x00\x64\x00\x00\x00\x64\x00\x00\x00\x64\x00\x00\x00\
\x64\x00\x00\x00\x64\x00\x00\x00\x00\x00\x00\x00\x00\x00\x64\x00\x00\x00\x64\x00\x00\x00\x64\x00\
\x00\x00\x00\x00\x00\x00\x73\x00\x61\x00\xB1\xA5";

/// The reply to every PRELOGIN.
const PRELOGIN_REPLY: &[u8; 43] =
    b"\x04\x01\x00\x2B\x00\x33\x01\x00\x00\x00\x1A\x00\x06\x01\x00\x20\x00\x01\x02\x00\x21\x00\x01\x03\
\x00\x22\x00\x00\x04\x00\x22\x00\x01\xFF\x0F\x00\x00\x00\x00\x00\x02\x00\x00";

/// The reply that grants the login.
const LOGIN_REPLY: &[u8; 91] =
    b"\x04\x01\x00\x5B\x00\x33\x01\x00\xE3\x0B\x00\x01\x04\x6D\x00\x61\x00\x69\x00\x6E\x00\x00\xE3\x08\
\x00\x07\x05\x09\x04\x00\x02\x00\x00\xAD\x14\x00\x01\x74\x00\x00\x04\x05\x74\x00\x73\x00\x71\x00\
\x6C\x00\x64\x00\x0F\x00\x00\x00\xE3\x13\x00\x04\x04\x34\x00\x30\x00\x39\x00\x36\x00\x04\x34\x00\
\x30\x00\x39\x00\x36\x00\xFD\x00\x00\x00\x00\x00\x00\x00\x00\x00\x00\x00\x00";

/// The reply to a login by another password: ERROR 18456 `Login failed.` and DONE.
const REFUSAL: &[u8; 74] =
    b"\x04\x01\x00\x4A\x00\x33\x01\x00\xAA\x32\x00\x18\x48\x00\x00\x01\x0E\x0D\x00\x4C\x00\x6F\x00\x67\
\x00\x69\x00\x6E\x00\x20\x00\x66\x00\x61\x00\x69\x00\x6C\x00\x65\x00\x64\x00\x2E\x00\x05\x74\x00\
\x73\x00\x71\x00\x6C\x00\x64\x00\x00\x01\x00\x00\x00\xFD\x02\x00\x00\x00\x00\x00\x00\x00\x00\x00\
\x00\x00";

/// The reply to a batch that is done: DONE.
const DONE: &[u8; 21] =
    b"\x04\x01\x00\x15\x00\x33\x01\x00\xFD\x00\x00\x00\x00\x00\x00\x00\x00\x00\x00\x00\x00";

/// No call has this number: they are counted from 1.
const NEVER: u32 = 0;

/// The end of a connection of session 1 over a new port, of which the user is to be `sa` and the password `A`.
fn serve_over(alloc: Global, line: &mut Joined<MemorySource, MemorySink>) -> Result<End, Memory> {
    let config = Config {
        user: units_of_str(alloc, "sa")?,
        password: units_of_str(alloc, "A")?,
        entry: Entry::Login,
        drivers: false,
    };
    let mut port = SoloPort::new(alloc, 1);
    Ok(serve_on_port(alloc, 1, &mut port, &config, line))
}

/// Whether a connection of which the reads give one byte each and the writes take at most seven, and a read and a write of these
/// numbers fail, ends so, with these bytes written.
fn ends_so(
    alloc: Global,
    input: &[u8],
    read: u32,
    write: u32,
    end: End,
    bytes: &[u8],
) -> Result<bool, Memory> {
    let input = Vec::from_slice(alloc, input)?;
    let mut line = Joined {
        source: MemorySource::new(input, 1, vec![in alloc; read]?),
        sink: MemorySink::new(alloc, 7, vec![in alloc; write]?),
    };
    let ended = serve_over(alloc, &mut line)?;
    Ok(ended == end && line.sink.into_bytes().as_slice() == bytes)
}

/// Three lists of bytes, one behind another.
fn joined(alloc: Global, first: &[u8], second: &[u8], third: &[u8]) -> Result<Vec<u8>, AllocError> {
    let mut bytes = Vec::from_slice(alloc, first)?;
    bytes.extend_from_slice(second)?;
    bytes.extend_from_slice(third)?;
    Ok(bytes)
}

/// A PRELOGIN, the login and a batch, of 26, 108 and 148 bytes.
fn granted(alloc: Global) -> Result<Vec<u8>, AllocError> {
    let create = batch(
        alloc,
        "CREATE TABLE t (k INT NOT NULL PRIMARY KEY, v INT NOT NULL)",
    )?;
    joined(alloc, PRELOGIN, LOGIN, &create)
}

/// Whether a connection whose read of this number fails ends there, with the messages before it answered.
fn fails_at_read(alloc: Global, input: &[u8], read: u32) -> Result<bool, Memory> {
    let mut written = joined(alloc, PRELOGIN_REPLY, LOGIN_REPLY, DONE)?;
    written.truncate(match read {
        1..=26 => 0,
        27..=134 => 43,
        135..=282 => 134,
        _ => 155,
    });
    ends_so(alloc, input, read, NEVER, End::ReadFault, &written)
}

/// Where a byte can't be read, or the end, the messages before it are answered.
#[test]
fn a_source_may_fail_at_each_byte(rt: HostRuntime) -> Result<(), Fail> {
    let input = granted(rt.alloc())?;
    assert!(rt; input.len() == 282);
    for read in 1..=283 {
        assert!(rt; fails_at_read(rt.alloc(), &input, read)?, "read {read}");
    }
    Ok(())
}

/// Whether each write of the replies, where it fails, ends the connection with what was written before, and the connection ends
/// so where the one behind them fails. The writes are those of a reply, seven bytes each and then the rest, and of the next.
fn fails_at_writes(
    alloc: Global,
    input: &[u8],
    replies: &[&[u8]],
    end: End,
) -> Result<bool, Memory> {
    let mut written = Vec::new(alloc);
    let mut write = 1u32;
    for reply in replies {
        for piece in reply.chunks(7) {
            if !ends_so(alloc, input, NEVER, write, End::WriteFault, &written)? {
                return Ok(false);
            }
            write = write.saturating_add(1);
            written.extend_from_slice(piece)?;
        }
    }
    ends_so(alloc, input, NEVER, write, end, &written)
}

#[test]
fn a_sink_may_fail_at_each_write(rt: HostRuntime) -> Result<(), Fail> {
    let input = granted(rt.alloc())?;
    let replies: [&[u8]; 3] = [PRELOGIN_REPLY, LOGIN_REPLY, DONE];
    assert!(rt; fails_at_writes(rt.alloc(), &input, &replies, End::Closed)?);
    let mut input = joined(rt.alloc(), PRELOGIN, LOGIN, &[])?;
    if let Some(password) = input.get_mut(132) {
        *password = 0xB0;
    }
    let replies: [&[u8]; 2] = [PRELOGIN_REPLY, REFUSAL];
    let end = End::LoginRefused { number: 18456 };
    assert!(rt; fails_at_writes(rt.alloc(), &input, &replies, end)?);
    Ok(())
}
