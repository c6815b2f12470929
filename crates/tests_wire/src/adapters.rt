//! Sources and sinks over std's readers and writers, that fail.

use outside_io::{ReadSource, Sink, Source, WriteSink};
use std::io::{self, ErrorKind, Read, Write};

/// A reader whose call of this number fails, counted from 1, and which gives a byte at each other one.
#[derive(Drop)]
struct FailsOnce {
    call: u32,
    fails: u32,
}

impl Read for FailsOnce {
    fn read(&mut self, into: &mut [u8]) -> io::Result<usize> {
        self.call = self.call.saturating_add(1);
        if self.call == self.fails {
            return Err(io::Error::from(ErrorKind::Interrupted));
        }
        match into.first_mut() {
            Some(first) => {
                *first = 7;
                Ok(1)
            }
            None => Ok(0),
        }
    }
}

/// Even where the reader says that it was only interrupted: no call is made twice for one read.
#[test]
fn a_reader_may_fail_once_and_go_on(rt: HostRuntime) {
    let mut source = ReadSource::new(FailsOnce { call: 0, fails: 2 });
    let mut into = [0; 4];
    assert!(rt; source.read(&mut into) == Ok(1));
    assert!(rt; source.read(&mut into).is_err());
    assert!(rt; source.read(&mut into) == Ok(1));
    assert!(rt; source.read(&mut []) == Ok(0));
    assert!(rt; into == [7, 0, 0, 0]);
}

/// A writer that answers each call as the next letter says: `t` takes two bytes, `f` fails, `n` takes nothing, and `s` takes
/// two, which then can't be flushed. Behind the letters it takes all.
#[derive(Drop)]
struct Scripted {
    answers: &'static [u8],
    is_stuck: bool,
}

impl Write for Scripted {
    fn write(&mut self, from: &[u8]) -> io::Result<usize> {
        let Some((answer, behind)) = self.answers.split_first() else {
            return Ok(from.len());
        };
        self.answers = behind;
        match *answer {
            b'f' => return Err(io::Error::from(ErrorKind::Interrupted)),
            b'n' => return Ok(0),
            answer => self.is_stuck = answer == b's',
        }
        Ok(from.len().min(2))
    }

    fn flush(&mut self) -> io::Result<()> {
        if self.is_stuck {
            self.is_stuck = false;
            return Err(io::Error::from(ErrorKind::BrokenPipe));
        }
        Ok(())
    }
}

/// A write that the writer fails, takes nothing of, or can't flush has failed, and the next one goes on.
#[test]
fn a_writer_may_fail_once_and_go_on(rt: HostRuntime) {
    let mut sink = WriteSink::new(Scripted {
        answers: b"tfsnt",
        is_stuck: false,
    });
    assert!(rt; sink.write(&[1, 2, 3]) == Ok(2));
    assert!(rt; sink.write(&[1, 2, 3]).is_err());
    assert!(rt; sink.write(&[1, 2, 3]).is_err());
    assert!(rt; sink.write(&[1, 2, 3]).is_err());
    assert!(rt; sink.write(&[1, 2, 3]) == Ok(2));
    assert!(rt; sink.write(&[1, 2, 3]) == Ok(3));
    assert!(rt; sink.write(&[]) == Ok(0));
}
