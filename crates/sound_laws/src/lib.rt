//! Laws of soundness: what a statement, a batch or a call by RPC asks, with the procedures and triggers that it runs, keeps what
//! stands in its transaction, and each commit that it asks keeps its database intact, and so sound; and so is each database that
//! the commits of the log leave.
//!
//! Read `specs/Tied.antt` first: what is asked of the exchanges of a session, and of its statements; then `specs/Stands.antt`:
//! the database at a transaction's place, with the transaction's changes so far, is intact, and so it was at each of its live
//! marks. The functions do nothing: each one's contract is a law. They ask nothing of their caller; only the definitions that
//! they cite say what they mean.
#![tactic(auto)]

ghost use Rattle.sound_laws.specs.Laws.{BatchSound, CallSound, IntactSound, LogSound, RollbackSound, ShutStands, StatementSound, TaskAgrees, WholeLogSound};
ghost use Rattle.sound_laws.specs.Runs.{RunSound};

/// An intact database is sound.
#[tactic(auto, using(crate::proofs::Logs::intact_sound))]
pub fn law_intact_sound()
    ensures { IntactSound }
{}

/// Where no transaction is open, what is to stand does: a session begins so, and comes to it behind each commit and each
/// rollback.
pub fn law_shut_stands()
    ensures { ShutStands }
{}

/// What a statement asks keeps what stands, and each commit that it asks keeps its database intact, be it done or left in the
/// middle; so does what stands in the statement, at whatever level.
pub fn law_statement_sound()
    ensures { StatementSound }
{}

/// So does what a batch or a call by RPC asks, and the rollback of what it has left open.
pub fn law_batch_sound()
    ensures batch { BatchSound }
    ensures call { CallSound }
    ensures open { TaskAgrees }
    ensures rollback { RollbackSound }
{}

/// Where each commit of the log is one of a session that serves batches and calls, every database that its first commits leave is
/// intact.
pub fn law_log_sound()
    ensures from { LogSound }
    ensures whole { WholeLogSound }
{}

/// In every run, of any sessions that serve connections one behind another, every database that the first commits of the log
/// leave is intact.
pub fn law_run_sound()
    ensures { RunSound }
{}
