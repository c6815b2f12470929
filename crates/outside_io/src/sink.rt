//! Where bytes go.

ghost use Rattle.std.specs.Prelude.{◌≡◌, ℕ, ◌≤◌, ◌<◌, List, [], length, take, IfOk, Option};
ghost use Rattle.std.specs.Io.KnownBytes.{Appends};
ghost use Rattle.outside_io.specs.Bytes.{HasRisen, AppendsOrHides, StaysHidden};
ghost use Rattle.outside_io.specs.Lines.{SourceSide, no_source};

use thiserror::Error;

/// Why bytes could not be written.
#[derive(Clone, Copy, Debug, PartialEq, Eq, Error)]
pub enum SinkFault {
    /// The sink failed, and counts it among its faults.
    #[error("writing failed")]
    Failed,
    /// Memory was wanting. Nothing was taken, and it is no fault of the sink.
    #[error("memory was wanting")]
    Memory,
}

/// Where bytes go: a socket, standard output, a list in memory.
pub trait Sink {
    // The bytes written so far, where it tells them.
    ghost written: { Self → Option (List ℕ) };

    // How many faults were answered, as `Failed` or as 0 for a nonempty slice. `HasRisen` says when one more
    // was counted. A sink that gets over a fault by itself does not count it, so `no_fault` asks more than
    // that a failure comes only with a risen count.
    ghost faults: { Self → ℕ };

    // What writes leave as it is of a value that is a source too ([`Line`](crate::Line)).
    ghost beside: { Self → SourceSide } = { λ _. no_source };

    /// Takes some bytes from the front of `from` and answers how many. An answer of 0 for a
    /// nonempty slice is a fault too, and is counted.
    fn write(&mut self, from: &[u8]) -> Result<usize, SinkFault>
        ensures bound { IfOk result (λ n. n ≤ length from.now) }
        ensures takes { IfOk result (λ n. Appends (written self.old) (written self.new) (take n from.now)) }
        ensures zero { IfOk result (λ n. n ≡ 0 → 0 < length from.now → HasRisen (faults self.old) (faults self.new)) }

        // A write that failed took nothing, or the sink tells its bytes no longer.
        ensures failed { result ≡ Err SinkFault.Failed → HasRisen (faults self.old) (faults self.new) }
        ensures hidden { result ≡ Err SinkFault.Failed → AppendsOrHides (written self.old) (written self.new) [] }
        ensures memory { result ≡ Err SinkFault.Memory → Appends (written self.old) (written self.new) [] }
        ensures counted { faults self.old ≤ faults self.new }

        // A sink that has hidden its bytes at a fault tells none any more.
        ensures quiet { StaysHidden (faults self.old) (written self.old) (written self.new) }

        // A write that took something is no fault, and neither is one of nothing or want of memory.
        ensures no_fault { IfOk result (λ n. (n ≡ 0 → length from.now ≡ 0) → faults self.new ≡ faults self.old) }
        ensures memory_no_fault { result ≡ Err SinkFault.Memory → faults self.new ≡ faults self.old }
        ensures beside { beside self.new ≡ beside self.old };
}
