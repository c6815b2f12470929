//! A source that is lent is a source, and a sink that is lent is a sink.

ghost use Rattle.std.specs.Prelude.{[], ◌∷◌};

use crate::sink::{Sink, SinkFault};
use crate::source::{Failed, Source};

impl<S: Source> Source for &mut S {
    ghost left = { λ lent. S.left lent.now };

    ghost given = { λ lent. S.given lent.now };

    ghost faults = { λ lent. S.faults lent.now };

    ghost beside = { λ lent. record (S.beside lent.now) { held = lent.ghost_name ∷ [] } };

    fn read(&mut self, into: &mut [u8]) -> Result<usize, Failed> {
        (**self).read(into)
    }
}

impl<K: Sink> Sink for &mut K {
    ghost written = { λ lent. K.written lent.now };

    ghost faults = { λ lent. K.faults lent.now };

    ghost beside = { λ lent. record (K.beside lent.now) { held = lent.ghost_name ∷ [] } };

    fn write(&mut self, from: &[u8]) -> Result<usize, SinkFault> {
        (**self).write(from)
    }
}
