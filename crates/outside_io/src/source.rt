//! Where bytes come from.

ghost use Rattle.std.specs.Prelude.{◌≡◌, ℕ, ◌≤◌, ◌<◌, List, [], length, take, IfOk, OnErr, Option};
ghost use Rattle.std.specs.Io.KnownBytes.{IsAtEnd};
ghost use Rattle.outside_io.specs.Bytes.{Takes, HasRisen};
ghost use Rattle.outside_io.specs.Lines.{SinkSide, no_sink};

use thiserror::Error;

/// A read that failed. The source counts it among its faults.
#[derive(Clone, Copy, Debug, PartialEq, Eq, Error)]
#[error("reading failed")]
pub struct Failed;

/// Where bytes come from: a socket, standard input, a list in memory.
pub trait Source {
    // The bytes that reads will give from here on, where it tells them.
    ghost left: { Self → Option (List ℕ) };

    // The bytes that reads have given so far, where it tells those.
    ghost given: { Self → Option (List ℕ) };

    // How many faults were answered, each as `Failed`. `HasRisen` says when one more was counted. A source
    // that gets over a fault by itself does not count it, so `no_fault` asks more than that a failure comes
    // only with a risen count.
    ghost faults: { Self → ℕ };

    // What reads leave as it is of a value that is a sink too ([`Line`](crate::Line)).
    ghost beside: { Self → SinkSide } = { λ _. no_sink };

    /// Reads some bytes into the front of `into` and answers how many. An answer of 0 for a
    /// nonempty slice is the end of input. What lies behind the bytes read is not said.
    fn read(&mut self, into: &mut [u8]) -> Result<usize, Failed>
        ensures bound { IfOk result (λ n. n ≤ length into.old) }
        ensures gives { IfOk result (λ n. Takes left given self.old self.new (take n into.new)) }
        ensures end { IfOk result (λ n. n ≡ 0 → 0 < length into.old → IsAtEnd (left self.new)) }

        // A read that failed gave nothing, and the count of faults rose.
        ensures failed { OnErr result (HasRisen (faults self.old) (faults self.new)) }
        ensures unchanged { OnErr result (Takes left given self.old self.new []) }
        ensures counted { faults self.old ≤ faults self.new }

        // A read that did not fail is no fault.
        ensures no_fault { IfOk result (λ _. faults self.new ≡ faults self.old) }
        ensures beside { beside self.new ≡ beside self.old };
}
