//! A hall of two connections, of which one waits for the other.

ghost use Rattle.std.specs.Prelude.{◌≡◌, None, true};

use outside_io::{Door, Failed, Hall, Joined, Sink, SinkFault, Source};
use std::sync::atomic::AtomicU64;
use std::sync::atomic::Ordering::SeqCst;
use value_types::Memory;

/// How often a source looks whether the other connection was answered before it fails.
const TURNS: u64 = 200_000_000;

/// The batch `SELECT 1`, which each connection sends.
const BATCH: &[u8; 46] = b"\x01\x01\x00\x2E\x00\x00\x01\x00\
\x16\x00\x00\x00\x12\x00\x00\x00\x02\x00\x00\x00\x00\x00\x00\x00\x00\x00\x01\x00\x00\x00\
S\x00E\x00L\x00E\x00C\x00T\x00 \x001\x00";

/// What the two connections have done.
#[derive(Drop)]
pub struct Floor {
    /// How many connections were handed out.
    handed: AtomicU64,
    /// How many writes were made to the sink of the second.
    written: AtomicU64,
    /// How many connections came back that were read to their end and had an answer to each of their batches.
    answered: AtomicU64,
}

impl Floor {
    /// A floor before its first connection.
    pub fn new() -> Floor {
        Floor {
            handed: AtomicU64::new(0),
            written: AtomicU64::new(0),
            answered: AtomicU64::new(0),
        }
    }

    /// How many connections came back whole.
    pub fn answered(&self) -> u64 {
        self.answered.load(SeqCst)
    }

    /// Whether the second connection is answered while that is looked at so many times.
    fn waits(&self) -> bool {
        for _turn in 0..TURNS {
            if self.written.load(SeqCst) > 0 {
                return true;
            }
        }
        false
    }
}

/// A source that gives its batches, and waits before the last of two. It tells no bytes.
#[derive(Drop)]
pub struct GatedSource<'a> {
    floor: &'a Floor,
    /// What is left of the batch.
    left: &'static [u8],
    /// How many batches come behind it.
    behind: u64,
    faults: u64,
}

impl<'a> Source for GatedSource<'a> {
    ghost left = { λ s. None };

    ghost given = { λ s. None };

    ghost faults = { λ s. s.faults };

    fn read(&mut self, into: &mut [u8]) -> Result<usize, Failed> {
        if self.left.is_empty() && self.behind > 0 {
            if !self.floor.waits() {
                self.faults = self.faults.saturating_add(1);
                return Err(Failed);
            }
            self.behind -= 1;
            self.left = BATCH;
        }
        let n = into.len().min(self.left.len());
        let (front, left) = self.left.split_at(n);
        into[..n].copy_from_slice(front);
        self.left = left;
        Ok(n)
    }
}

/// A sink that counts its bytes. It tells none.
#[derive(Drop)]
pub struct KeptSink<'a> {
    floor: &'a Floor,
    is_second: bool,
    count: usize,
}

impl<'a> Sink for KeptSink<'a> {
    ghost written = { λ s. None };

    ghost faults = { λ s. 0 };

    fn write(&mut self, from: &[u8]) -> Result<usize, SinkFault> {
        self.count = self.count.saturating_add(from.len());
        if self.is_second {
            self.floor.written.fetch_add(1, SeqCst);
        }
        Ok(from.len())
    }
}

/// A door of the hall.
#[derive(Drop)]
pub struct GatedDoor<'a> {
    floor: &'a Floor,
    is_out: bool,
    has_closed: bool,
    finished: u64,
}

impl<'a> Door for GatedDoor<'a> {
    type Line = Joined<GatedSource<'a>, KeptSink<'a>>;

    ghost faults = { λ d. 0 };

    ghost finished = { λ d. d.finished };

    ghost is_out = { λ d. d.is_out };

    ghost may_close = { λ d. true };

    ghost has_closed = { λ d. d.has_closed };

    ghost told = { λ d. None };

    fn accept(&mut self) -> Result<Option<Joined<GatedSource<'a>, KeptSink<'a>>>, Failed> {
        let number = self.floor.handed.fetch_add(1, SeqCst);
        if number > 1 {
            self.has_closed = true;
            return Ok(None);
        }
        self.is_out = true;
        let source = GatedSource {
            floor: self.floor,
            left: BATCH,
            behind: if number == 0 { 1 } else { 0 },
            faults: 0,
        };
        let sink = KeptSink {
            floor: self.floor,
            is_second: number == 1,
            count: 0,
        };
        Ok(Some(Joined { source, sink }))
    }

    /// Each answer has 52 bytes, and the first connection two of them.
    fn finish(&mut self, line: Joined<GatedSource<'a>, KeptSink<'a>>) {
        self.is_out = false;
        self.finished = self.finished.saturating_add(1);
        let Joined { source, sink } = line;
        let wanted = if sink.is_second { 52 } else { 104 };
        if source.left.is_empty() && source.behind == 0 && sink.count == wanted {
            self.floor.answered.fetch_add(1, SeqCst);
        }
    }
}

/// The hall.
#[derive(Drop)]
pub struct GatedHall<'a> {
    floor: &'a Floor,
    finished: u64,
    closed: u64,
    made: u64,
    back: u64,
    begun: u64,
    at_port: Option<u16>,
}

impl<'a> GatedHall<'a> {
    /// A hall of the connections of this floor.
    pub fn new(floor: &'a Floor) -> GatedHall<'a> {
        GatedHall {
            floor,
            finished: 0,
            closed: 0,
            made: 0,
            back: 0,
            begun: 0,
            at_port: None,
        }
    }
}

impl<'a> Hall for GatedHall<'a> {
    type Door = GatedDoor<'a>;

    ghost begun = { λ h. h.begun };

    ghost at_port = { λ h. h.at_port };

    ghost faults = { λ h. 0 };

    ghost finished = { λ h. h.finished };

    ghost failed = { λ h. 0 };

    ghost closed = { λ h. h.closed };

    ghost made = { λ h. h.made };

    ghost back = { λ h. h.back };

    ghost told = { λ h. None };

    fn begin(&mut self, port: u16) -> Result<(), Failed> {
        self.begun = self.begun.saturating_add(1);
        self.at_port = Some(port);
        Ok(())
    }

    fn door(&mut self) -> Result<GatedDoor<'a>, Memory> {
        self.made = self.made.saturating_add(1);
        Ok(GatedDoor {
            floor: self.floor,
            is_out: false,
            has_closed: false,
            finished: 0,
        })
    }

    fn rejoin(&mut self, door: GatedDoor<'a>) {
        self.finished = self.finished.saturating_add(door.finished);
        self.closed = self.closed.saturating_add(u64::from(door.has_closed));
        self.back = self.back.saturating_add(1);
    }
}
