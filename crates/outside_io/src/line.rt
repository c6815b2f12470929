//! A client's line: one value from which its bytes come, and to which its answers go.

ghost use Rattle.std.specs.Prelude.{◌≡◌, ℕ, List};

use crate::sink::Sink;
use crate::source::Source;

/// A client's line: a source and a sink in one value. What goes through its one side leaves what is told of the other, and its faults.
/// That both are the same client's, whoever makes the line sees to it: no clause says it.
pub trait Line: Source + Sink {
    // The references that it holds, by their names in proofs: it keeps them.
    ghost held: { Self → List ℕ };

    // What reads leave is its sink's side, and what writes leave its source's.
    ghost reads_leave: { (line : Self) → Self.Source.beside line ≡ record { written = Self.Sink.written line; faults = Self.Sink.faults line; held = held line } };

    ghost writes_leave: { (line : Self) → Self.Sink.beside line
        ≡ record { left = Self.Source.left line; given = Self.Source.given line; faults = Self.Source.faults line; held = held line } };
}
