//! A script read whole.

ghost use Rattle.std.specs.Prelude.{◌≡◌, ◌≢◌, ◌≤◌, List, ℕ, IfOk};
ghost use Rattle.outside_io.specs.Bytes.{HasRisen, Takes};
ghost use Rattle.steps_command.specs.Command.{IsWhole};

use crate::play::SCRIPT_LIMIT;
use outside_io::{Failed, Source};
use std::alloc::{AllocError, Global};

/// How many bytes are read at a time.
const PIECE: usize = 4096;

/// Why a script is not read.
#[derive(Clone, Copy, Debug, PartialEq, Eq)]
pub(crate) enum Unread {
    /// The source failed.
    ReadFault,
    /// Memory was wanting.
    Memory,
}

impl From<AllocError> for Unread {
    ghost use Rattle.steps_command.specs.declared.reading.Unread.TheVariants.{Memory as NoMemory};

    ghost from_gives = { λ _ unread. unread ≡ NoMemory };

    fn from(_e: AllocError) -> Unread {
        Unread::Memory
    }
}

/// The bytes of a source up to its end, or until they are more than a script may have.
pub(crate) fn read_script<S: Source>(alloc: Global, source: &mut S) -> Result<Vec<u8>, Unread>
    ensures took { (taken : List ℕ) × Takes S.left S.given source.old source.new taken
        × IfOk result (λ script. (script.items ≡ taken) × IsWhole (S.left source.new) taken) }
    ensures fault { result ≡ Err Unread.ReadFault → HasRisen (S.faults source.old) (S.faults source.new) }
    ensures no_fault { result ≢ Err Unread.ReadFault → S.faults source.new ≡ S.faults source.old }
    ensures counted { S.faults source.old ≤ S.faults source.new }
{
    let mut script = Vec::new(alloc);
    let mut piece = [0; PIECE];
    while script.len() <= SCRIPT_LIMIT {
        match source.read(&mut piece) {
            Ok(0) => return Ok(script),
            Ok(n) => script.extend_from_slice(&piece[..n])?,
            Err(Failed) => return Err(Unread::ReadFault),
        }
    }
    Ok(script)
}
