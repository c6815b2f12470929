//! A worker's connection in memory: a source of its batches, and a sink of the replies.

ghost use Rattle.std.specs.Prelude.{◌≡◌, ◌≤◌, ◌<◌, [], true, IfOk};
ghost use Rattle.transfer_load.specs.Batches.{batches_bytes, worker_texts};

use crate::batches::worker_bytes;
use outside_io::{Failed, Sink, SinkFault, Source};
use std::alloc::Global;
use std::marker::Model;
use value_types::Memory;

/// A source of the batches of one worker, which gives them as they are asked for and never fails. It tells its bytes.
#[derive(Drop)]
pub struct BatchSource {
    worker: u32,
    transfers: u32,
    bytes: Vec<u8>,
    at: usize,
}

impl Model for BatchSource {
    ghost use Rattle.std.specs.Prelude.{◌≡◌, ◌≤◌, take, drop, length};
    ghost use Rattle.transfer_load.specs.Batches.{batches_bytes, worker_texts};
    ghost use Rattle.transfer_load.specs.Connections.{InputState};

    ghost Value = { InputState };

    ghost view = { λ s. record { left = drop s.at s.bytes.items; given = take s.at s.bytes.items } };

    ghost invariant = { λ s. (s.at ≤ length s.bytes.items) × (s.bytes.items ≡ batches_bytes (worker_texts s.transfers s.worker)) };
}

impl BatchSource {
    /// The source of a worker's batches, of which there are so many.
    pub(crate) fn new(alloc: Global, transfers: u32, worker: u32) -> Result<BatchSource, Memory>
        requires transfers { transfers ≤ 10000 }
        requires worker { worker < 64 }
        ensures { IfOk result (λ source. source.given ≡ []) }
    {
        let bytes = worker_bytes(alloc, transfers, worker)?;
        Ok(BatchSource {
            worker,
            transfers,
            bytes,
            at: 0,
        })
    }

    /// Whether it is the source of this worker, for so many transfers, and all was taken.
    pub(crate) fn has_given_all(&self, transfers: u32, worker: u32) -> bool
        ensures { result ≡ true → (self.now.given ≡ batches_bytes (worker_texts transfers worker)) × (self.now.left ≡ []) }
    {
        self.worker == worker && self.transfers == transfers && self.at == self.bytes.len()
    }
}

impl Source for BatchSource {
    ghost use Rattle.transfer_load.specs.Connections.{input_faults, input_given, input_left};

    ghost left = { input_left };

    ghost given = { input_given };

    ghost faults = { input_faults };

    fn read(&mut self, into: &mut [u8]) -> Result<usize, Failed> {
        let (_, left) = self.bytes.split_at(self.at);
        let n = into.len().min(left.len());
        into[..n].copy_from_slice(&left[..n]);
        self.at += n;
        Ok(n)
    }
}

/// A sink that keeps the replies, and never fails. It tells its bytes.
#[derive(Drop)]
pub struct ReplySink {
    bytes: Vec<u8>,
}

impl Model for ReplySink {
    ghost use Rattle.std.specs.Prelude.{ℕ, List};

    ghost Value = { List ℕ };

    ghost view = { λ s. s.bytes.items };
}

impl ReplySink {
    /// A sink to which nothing was written.
    pub(crate) fn new(alloc: Global) -> ReplySink
        ensures { result ≡ [] }
    {
        ReplySink {
            bytes: Vec::new(alloc),
        }
    }

    /// What was written.
    pub(crate) fn as_slice(&self) -> &[u8]
        ensures { result.now ≡ self.now }
    {
        self.bytes.as_slice()
    }
}

impl Sink for ReplySink {
    ghost use Rattle.transfer_load.specs.Connections.{output_faults, output_written};

    ghost written = { output_written };

    ghost faults = { output_faults };

    fn write(&mut self, from: &[u8]) -> Result<usize, SinkFault> {
        match self.bytes.extend_from_slice(from) {
            Ok(()) => Ok(from.len()),
            Err(_) => Err(SinkFault::Memory),
        }
    }
}
