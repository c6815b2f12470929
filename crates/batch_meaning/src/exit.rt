//! How it goes on behind a statement.

use crate::raised::Raised;
use sqlite_items::Boxed;

/// How it goes on behind a statement.
#[derive(Drop)]
pub enum Exit {
    /// The next statement comes.
    On,
    /// BREAK: the WHILE around is left.
    Leave,
    /// CONTINUE: the WHILE around turns again.
    Again,
    /// RETURN: the batch, the procedure or the trigger is left, with this status.
    Return(i32),
    /// An error is on its way to the CATCH of a TRY around.
    Raise(Boxed<Raised>),
    /// An error is on its way out of its procedure or trigger, to the CATCH of a TRY around what called or fired that.
    RaiseUp(Boxed<Raised>),
    /// An error has ended the batch.
    End,
}
