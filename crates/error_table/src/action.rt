//! What an error ends: `Act`.

ghost use Rattle.std.specs.Prelude.{◌≡◌};
ghost use Rattle.error_table.specs.Act.{action_of, base_action, base_caught};

use crate::row::row_of;

/// What an error ends.
#[derive(Clone, Copy)]
pub enum Action {
    /// The statement.
    Statement,
    /// The batch.
    Batch,
    /// The batch, and the transaction is rolled back.
    BatchAndTransaction,
    /// The statement, and the transaction, if one is open, can only be rolled back from then on.
    Doom,
}

/// Which TRY catches an error.
#[derive(Clone, Copy, PartialEq, Eq)]
pub enum Caught {
    /// Every TRY around.
    Yes,
    /// A TRY of an outer procedure or batch only.
    LevelUp,
    /// None.
    No,
}

/// Who raised an error.
#[derive(Clone, Copy, PartialEq, Eq)]
pub enum RaisedBy {
    /// The server itself.
    Engine,
    /// RAISERROR.
    Raiserror,
    /// THROW, with arguments or without.
    Throw,
}

/// What this error ends. `in_try` says whether a TRY stands around it; for an error that is caught
/// only one level up, whether a TRY of an outer procedure or batch does.
pub fn action_of(number: i32, by: RaisedBy, xact_abort: bool, in_try: bool) -> Action
    ensures { result ≡ action_of number by xact_abort in_try }
{
    let (action, caught) = action_and_caught(number, by);
    // SET XACT_ABORT ON does not count for RAISERROR.
    let aborts = xact_abort && by != RaisedBy::Raiserror;
    if in_try && caught != Caught::No {
        match action {
            Action::BatchAndTransaction => Action::Doom,
            _ if aborts => Action::Doom,
            _ => Action::Statement,
        }
    } else {
        match action {
            Action::Statement | Action::Batch if aborts => Action::BatchAndTransaction,
            _ => action,
        }
    }
}

/// What an error ends outside TRY where XACT_ABORT is OFF, and which TRY catches it.
fn action_and_caught(number: i32, by: RaisedBy) -> (Action, Caught)
    ensures action { result.0 ≡ base_action number by }
    ensures caught { result.1 ≡ base_caught number by }
{
    match by {
        RaisedBy::Engine => match row_of(number) {
            Some(row) => (row.action, row.caught),
            None => (Action::Batch, Caught::Yes),
        },
        RaisedBy::Raiserror => (Action::Statement, Caught::Yes),
        RaisedBy::Throw => (Action::Batch, Caught::Yes),
    }
}
