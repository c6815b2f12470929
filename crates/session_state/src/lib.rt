//! A session in memory: how far it has come, what it sends, what its expressions read, and what is made of them.
//!
//! What these things are stands in `batch_meaning`. The layers above rely on each call of [`SessionState`] making of
//! the session exactly the step that is named there, and on [`SessionState::ask`], which asks the port, with
//! [`SessionState::commit`] and [`SessionState::roll_back`] alone: what was asked, what that changed, and that session
//! and port still agree. It asks of its callers that they agreed before, and that the operation may come. Only tests
//! show that memory is not said to be wanting where there is enough.
#![tactic(auto)]

mod around;
mod effect;
mod endings;
mod failures;
mod fired;
mod numbers;
mod sendable;
mod state;
mod system;
mod tokens;
mod values;

pub use around::{Around, is_for_outside};
pub use effect::Effect;
pub use endings::Endings;
pub use failures::{naming, no_memory, stopped_by, unbound_by, unplanned_by};
pub use fired::Fired;
pub use numbers::{
    CURSOR_OPEN, CURSOR_PRESENT, CURSOR_SHUT, DEADLOCK, DOOMED_AT_END, DOOMED_IN_TRIGGER,
    DOOMED_WRITE, ENDED_IN_TRIGGER, IS_PARENT, LOCK_TIMEOUT, NO_DATABASE, NO_MEMORY, NO_PROCEDURE,
    NO_SUCH_CURSOR, NOT_THERE, NOTHING_OPEN, OBJECT_PRESENT, OTHER_COUNT, OUTSIDE_LIMITS,
    OUTSIDE_PROFILE, RANGE_FULL, RESULT_FULL, STATEMENTS_SPENT, TOO_DEEP, UNEVEN, UNKNOWN_TABLE,
    WANTING,
};
pub use sendable::TokenList;
pub use state::SessionState;
pub use system::system_in;
pub use tokens::{
    LONGEST_NAME, command_of, context_tokens, error_and_done, error_in_front, error_of,
    error_tokens, is_message, last_tokens, messages, procedure_done, raised_at, raised_in,
    result_tokens, returned_tokens, told_tokens, transaction_begun, transaction_rolled_back,
    written_tokens,
};
pub use values::{first_row, is_true, made_of, raised_by, rows_assigned, sets_of, status_of};
