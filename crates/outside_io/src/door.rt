//! Where connections come in.

ghost use Rattle.std.specs.Prelude.{◌≡◌, ℕ, ◌≤◌, ◌||◌, Bool, true, false, IsTrue, List, Option, IfOk, OnErr, IsSome};
ghost use Rattle.outside_io.specs.Bytes.{HasRisen};
ghost use Rattle.outside_io.specs.Doors.{count_on, gives_one, gives_none, IfOne, IsUntouched, with_one};

use crate::line::Line;
use crate::source::Failed;
use std::marker::Send;

/// Where connections come in, one after another: a socket that listens, a list in memory.
pub trait Door {
    /// A connection: the line to its client.
    type Line: Line + Send;

    // How many faults were answered.
    ghost faults: { Self → ℕ };

    // How many connections were finished.
    ghost finished: { Self → ℕ };

    // Whether a connection is out: it was given, and is not finished.
    ghost is_out: { Self → Bool };

    // Whether there may come no connection any more.
    ghost may_close: { Self → Bool };

    // Whether it has answered so.
    ghost has_closed: { Self → Bool };

    // The finished connections, where it tells them, each as it was finished.
    ghost told: { Self → Option (List Self.Line) };

    /// Waits for the next connection. `None` says that none will come any more.
    fn accept(&mut self) -> Result<Option<Self::Line>, Failed>
        requires { is_out self.old ≡ false }
        ensures out { is_out self.new ≡ gives_one result }

        // Nothing went through the line yet, and neither side of it has a fault.
        ensures given { IfOne result (λ line. IsUntouched (Self.Line.Source.given line)) }
        ensures written { IfOne result (λ line. IsUntouched (Self.Line.Sink.written line)) }
        ensures read_faults { IfOne result (λ line. Self.Line.Source.faults line ≡ 0) }
        ensures write_faults { IfOne result (λ line. Self.Line.Sink.faults line ≡ 0) }

        // A door that tells its connections gives lines whose sources tell their bytes.
        ensures tells { IsSome (told self.old) → IfOne result (λ line. IsSome (Self.Line.Source.left line) × IsSome (Self.Line.Source.given line)) }

        // It answers `None` only where it may close.
        ensures closed { IsTrue (gives_none result) → IsTrue (may_close self.old) }
        ensures has_closed { has_closed self.new ≡ (has_closed self.old || gives_none result) }

        // It fails only with a risen count.
        ensures failed { OnErr result (HasRisen (faults self.old) (faults self.new)) }
        ensures counted { faults self.old ≤ faults self.new }
        ensures no_fault { IfOk result (λ _. faults self.new ≡ faults self.old) }
        ensures finished { finished self.new ≡ finished self.old }
        ensures told { told self.new ≡ told self.old };

    /// Takes a connection back at its end.
    fn finish(&mut self, line: Self::Line)
        requires { is_out self.old ≡ true }
        ensures out { is_out self.new ≡ false }
        ensures finished { finished self.new ≡ count_on (finished self.old) 1 }
        ensures told { told self.new ≡ with_one (told self.old) line }
        ensures faults { faults self.new ≡ faults self.old }
        ensures may_close { may_close self.new ≡ may_close self.old }
        ensures has_closed { has_closed self.new ≡ has_closed self.old };
}
