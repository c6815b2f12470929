//! Laws of writes of rows that are sure: each Replace and Erase that a statement asks is of a row that it has fetched, and that is kept since, so
//! that a port does not answer it by `Missing`.
//!
//! Read `specs/Asked.antt` first, then `specs/Laws.antt`. The functions do nothing: each one's contract is a law of the trees of `batch_meaning` and
//! the dialogs of `dml_exec`. They ask nothing of their caller; only the definitions that they cite say what they mean.
#![tactic(auto)]

ghost use Rattle.sure_laws.specs.Laws.{BatchesSure, BothSure, CallsSure, StatementsSure, SureAnswered, ToldAlike, ToldOfKey, UnhinderedBatches, UnhinderedCalls};

/// Each Replace and Erase of a statement is of a row that it has fetched, and that is kept since.
#[tactic(auto, using(crate::proofs::Laws::statements_sure))]
pub fn law_statements()
    ensures { StatementsSure }
{}

/// So is each of a batch.
#[tactic(auto, using(crate::proofs::Laws::batches_sure))]
pub fn law_batches()
    ensures { BatchesSure }
{}

/// And of a call by RPC.
#[tactic(auto, using(crate::proofs::Laws::calls_sure))]
pub fn law_calls()
    ensures { CallsSure }
{}

/// So are those of one such behind another.
#[tactic(auto, using(crate::proofs::Laws::both_sure))]
pub fn law_both()
    ensures { BothSure }
{}

/// What writes only rows that are sure, and is answered as a port says, is never answered by Missing.
#[tactic(auto, using(crate::proofs::Laws::sure_answered))]
pub fn law_answered()
    ensures { SureAnswered }
{}

/// In what fits a log, what is told twice with its range held is told alike, where only fetches come between.
pub fn law_alike()
    ensures { ToldAlike }
{}

/// And the index row that is told to a fetch of a whole key with U stands at that key, where all keys of its part have as many
/// values.
pub fn law_of_key()
    ensures { ToldOfKey }
{}

/// Where each question for room was answered by yes, and no reply refuses but by Missing, which then does not come, a batch tells
/// none of 701, 1205 and 1222.
pub fn law_unhindered()
    ensures { UnhinderedBatches }
{}

/// Nor does a call by RPC.
#[tactic(auto, using(crate::proofs::Laws::unhindered_calls))]
pub fn law_call_unhindered()
    ensures { UnhinderedCalls }
{}
