//! Why a statement that fires triggers goes no further.

use crate::exit::Exit;
use crate::failure::Failure;

/// Why a statement that fires triggers goes no further.
#[derive(Drop)]
pub enum Stop {
    /// It failed.
    Failed(Failure),
    /// A trigger of it was left so.
    Left(Exit),
}
