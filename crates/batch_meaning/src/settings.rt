//! What SET sets of a session.

use dml_exec::Level;
use step_model::Manner;

/// What SET sets of a session.
#[derive(Clone, Copy, Debug)]
pub struct Settings {
    /// XACT_ABORT: an error ends the transaction.
    pub xact_abort: bool,
    /// NOCOUNT: no count of rows is told.
    pub no_count: bool,
    /// IMPLICIT_TRANSACTIONS: a statement that reads or writes tables begins a transaction where none is open.
    pub implicit: bool,
    /// TRANSACTION ISOLATION LEVEL
    pub level: Level,
    /// LOCK_TIMEOUT and DEADLOCK_PRIORITY: how operations are asked.
    pub manner: Manner,
}
