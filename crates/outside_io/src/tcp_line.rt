//! A line over one of std's sockets: the edge of what is proved.

ghost use Rattle.std.specs.Prelude.{◌≡◌, [], None, refl};

use crate::line::Line;
use crate::sink::{Sink, SinkFault};
use crate::source::{Failed, Source};
use std::io::{Read, Write};
use std::net::TcpStream;

/// A line over one socket, which is read and written through one handle. Every error is a fault of its side, and so is a write that
/// takes nothing. It tells nothing of its bytes, so no clause says that the answers go to the client whose bytes came.
#[derive(Drop)]
pub struct TcpLine {
    stream: TcpStream,
    pub(crate) read_faults: u64,
    pub(crate) write_faults: u64,
}

impl TcpLine {
    /// A line over this socket, with no fault yet.
    pub(crate) fn new(stream: TcpStream) -> TcpLine
        ensures reads { result.read_faults ≡ 0 }
        ensures writes { result.write_faults ≡ 0 }
    {
        TcpLine {
            stream,
            read_faults: 0,
            write_faults: 0,
        }
    }
}

impl Source for TcpLine {
    ghost left = { λ _. None };

    ghost given = { λ _. None };

    ghost faults = { λ line. line.read_faults };

    ghost beside = { λ line. record { written = None; faults = line.write_faults; held = [] } };

    fn read(&mut self, into: &mut [u8]) -> Result<usize, Failed> {
        match (&self.stream).read(into) {
            Ok(n) => Ok(n),
            Err(_) => {
                self.read_faults = self.read_faults.saturating_add(1);
                Err(Failed)
            }
        }
    }
}

impl Sink for TcpLine {
    ghost written = { λ _. None };

    ghost faults = { λ line. line.write_faults };

    ghost beside = { λ line. record { left = None; given = None; faults = line.read_faults; held = [] } };

    fn write(&mut self, from: &[u8]) -> Result<usize, SinkFault> {
        let taken = (&self.stream).write(from);
        let flushed = (&self.stream).flush();
        match (taken, flushed) {
            (Ok(n), Ok(())) if n > 0 || from.is_empty() => Ok(n),
            _ => {
                self.write_faults = self.write_faults.saturating_add(1);
                Err(SinkFault::Failed)
            }
        }
    }
}

impl Line for TcpLine {
    ghost held = { λ _. [] };

    ghost reads_leave = { λ _. refl };

    ghost writes_leave = { λ _. refl };
}
