//! A source and a sink that are made one line.

ghost use Rattle.std.specs.Prelude.{◌++◌};

use crate::line::Line;
use crate::sink::{Sink, SinkFault};
use crate::source::{Failed, Source};

/// A source and a sink as one line: two lists in memory, or standard input and output, which are lent.
#[derive(Drop)]
pub struct Joined<S, K> {
    /// Where its bytes come from.
    pub source: S,
    /// Where its answers go.
    pub sink: K,
}

impl<S: Source, K: Sink> Source for Joined<S, K> {
    ghost left = { λ line. S.left line.source };

    ghost given = { λ line. S.given line.source };

    ghost faults = { λ line. S.faults line.source };

    ghost beside = { λ line. record {
      written = K.written line.sink;
      faults = K.faults line.sink;
      held = (S.beside line.source).held ++ (K.beside line.sink).held;
    } };

    fn read(&mut self, into: &mut [u8]) -> Result<usize, Failed> {
        self.source.read(into)
    }
}

impl<S: Source, K: Sink> Sink for Joined<S, K> {
    ghost written = { λ line. K.written line.sink };

    ghost faults = { λ line. K.faults line.sink };

    ghost beside = { λ line. record {
      left = S.left line.source;
      given = S.given line.source;
      faults = S.faults line.source;
      held = (S.beside line.source).held ++ (K.beside line.sink).held;
    } };

    fn write(&mut self, from: &[u8]) -> Result<usize, SinkFault> {
        self.sink.write(from)
    }
}

impl<S: Source, K: Sink> Line for Joined<S, K> {
    ghost use Rattle.std.specs.Prelude.{refl};

    ghost held = { λ line. (S.beside line.source).held ++ (K.beside line.sink).held };

    ghost reads_leave = { λ _. refl };

    ghost writes_leave = { λ _. refl };
}
