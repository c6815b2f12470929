//! Bytes written whole.

ghost use Rattle.std.specs.Prelude.{◌≡◌, ◌≢◌, ◌≤◌, ℕ, List, OnErr, OnOk};
ghost use Rattle.std.specs.Io.KnownBytes.{Appends};
ghost use Rattle.outside_io.specs.Bytes.{AppendsOrHides, HasRisen, IsProperFront};

use outside_io::{Sink, SinkFault};

/// Writes all of the bytes.
pub(crate) fn write_whole<K: Sink>(sink: &mut K, bytes: &[u8]) -> Result<(), SinkFault>
    ensures written { OnOk result (Appends (K.written sink.old) (K.written sink.new) bytes.now) }
    ensures part { OnErr result ((part : List ℕ) × IsProperFront bytes.now part × AppendsOrHides (K.written sink.old) (K.written sink.new) part) }
    ensures fault { result ≡ Err SinkFault.Failed → HasRisen (K.faults sink.old) (K.faults sink.new) }
    ensures no_fault { result ≢ Err SinkFault.Failed → K.faults sink.new ≡ K.faults sink.old }
    ensures counted { K.faults sink.old ≤ K.faults sink.new }
{
    let mut rest = bytes;
    while !rest.is_empty() {
        match sink.write(rest) {
            Ok(0) | Err(SinkFault::Failed) => return Err(SinkFault::Failed),
            Ok(n) => rest = &rest[n..],
            Err(SinkFault::Memory) => return Err(SinkFault::Memory),
        }
    }
    Ok(())
}
