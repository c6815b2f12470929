//! Paths of statements: what a statement has asked that is done with its effect, part by part. What it found where it looked its names
//! up, what it read, what it wrote, and what it read behind that; in the open transaction, or in one of its own. Of a write it is the
//! way up to where its triggers run. Each part is given with the exchanges that are all of it, so that a layer above can read it
//! against the log of commits.
//!
//! Read `specs/Paths.antt` first, then `specs/Laws.antt` and `specs/Cursors.antt`. The functions do nothing: each one's contract is a law of the trees of
//! `batch_meaning`, for every reply that may come. They ask nothing of their caller; only the definitions that they cite say what they
//! mean. That the exchanges of a session fit the log is no part of it (`Fits` of `step_model`).
#![tactic(auto)]

ghost use Rattle.statement_paths.specs.Cursors.{OpenDone};
ghost use Rattle.statement_paths.specs.Laws.{CallDone, CallFailed, ChangeDone, ChangeFailed, DefinitionDone, DefinitionFailed, DefinitionLeft, ReturnDone, ReturnFailed, WorkDone, WorkFailed, WorkLeft, WorkUnasked, WriteComes, WriteLeft, WriteUnasked};

/// A statement that came to its effect has done its work, part by part, in the open transaction or in one of its own, which
/// was committed.
#[tactic(auto, using(crate::proofs::Laws::work_done))]
pub fn law_done()
    ensures { WorkDone }
{}

/// One that failed has read, and what it wrote behind that is undone.
#[tactic(auto, using(crate::proofs::Laws::work_failed))]
pub fn law_failed()
    ensures { WorkFailed }
{}

/// One that was left in the middle, for want of memory, has committed nothing, or has done all its work.
#[tactic(auto, using(crate::proofs::Laws::work_was_left))]
pub fn law_left()
    ensures { WorkLeft }
{}

/// Where a statement asks nothing, as one that names no table, nothing was asked for it.
#[tactic(auto, using(crate::proofs::Laws::work_unasked))]
pub fn law_unasked()
    ensures { WorkUnasked }
{}

/// A write is done, or has failed, as other statements, where it fires no trigger; else it has come to where its triggers run.
#[tactic(auto, using(crate::proofs::Laws::write_comes, crate::proofs::Laws::write_left, crate::proofs::Laws::write_unasked))]
pub fn law_writes()
    ensures comes { WriteComes }
    ensures left { WriteLeft }
    ensures unasked { WriteUnasked }
{}

/// So it is without its triggers, with those that it fires.
#[tactic(auto, using(crate::proofs::Laws::change_is_done, crate::proofs::Laws::change_has_failed))]
pub fn law_changes()
    ensures done { ChangeDone }
    ensures failed { ChangeFailed }
{}

/// RETURN has read what it gives.
#[tactic(auto, using(crate::proofs::Laws::return_done, crate::proofs::Laws::return_failed))]
pub fn law_returns()
    ensures done { ReturnDone }
    ensures failed { ReturnFailed }
{}

/// EXEC has looked up what it calls, before that runs.
#[tactic(auto, using(crate::proofs::Laws::call_done, crate::proofs::Laws::call_failed))]
pub fn law_calls()
    ensures done { CallDone }
    ensures failed { CallFailed }
{}

/// CREATE PROCEDURE and CREATE TRIGGER have put a definition, a trigger's behind its table's look-up.
#[tactic(auto, using(crate::proofs::Laws::definition_done, crate::proofs::Laws::definition_failed, crate::proofs::Laws::definition_was_left))]
pub fn law_defines()
    ensures done { DefinitionDone }
    ensures failed { DefinitionFailed }
    ensures left { DefinitionLeft }
{}

/// OPEN that succeeded has filled its cursor with what the select answers for which that was declared, in the open
/// transaction or in one of its own, which was committed.
#[tactic(auto, using(crate::proofs::Opening::open_done))]
pub fn law_opened()
    ensures { OpenDone }
{}
