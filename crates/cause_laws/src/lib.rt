//! The law of causes: a client is told ERROR 1205 only where the engine has replied that its session fell as the victim of a deadlock, and
//! ERROR 1222 only where it has replied that a lock of another session stood in its way.
//!
//! Each of these errors has its cause in the exchanges of one statement, the one that sends it, or where that is a THROW, the one whose error is thrown again.
//!
//! Read `specs/Causes.antt`, then `specs/Statements.antt`. The functions do nothing: their contracts are laws of the trees of `batch_meaning`, for every reply that may
//! come, and ask nothing of their caller; only the definitions that it cites say what it means. That the engine's replies have their causes
//! in turn is no part of it (`refusals_caused` of `step_model`), and nothing is said of ERROR 701, since want of memory may come at any time,
//! but that no value is refused by it.
#![tactic(auto)]

ghost use Rattle.cause_laws.specs.Causes.{AssignedFails, BatchCauses, CallCauses, StatementCauses};
ghost use Rattle.cause_laws.specs.Statements.{BatchTells, CallTells, StatementTells};

/// Where no reply makes the session the victim of a deadlock, or says that a lock stands in its way, no batch and no call by RPC tells
/// that error, and no statement but in the CATCH of that error.
#[tactic(auto, using(crate::proofs::Causes::statement_causes))]
pub fn law_causes()
    ensures statement { StatementCauses }
    ensures batch { BatchCauses }
    ensures call { CallCauses }
{}

/// Each ERROR 1205 and ERROR 1222 that a batch or a call by RPC sends was sent by a statement to whose own operations the engine has replied so, or by a THROW in the
/// CATCH of the error that such a statement has raised. So it is of each that a statement sends, and of the error that it leaves on its way to a CATCH, where it stands
/// in no CATCH of such an error.
pub fn law_statement_causes()
    ensures statement { StatementTells }
    ensures batch { BatchTells }
    ensures call { CallTells }
{}

/// A value that can't be assigned to a variable is no want of memory.
#[tactic(auto, using(crate::proofs::Causes::assigned_fails))]
pub fn law_assigned()
    ensures { AssignedFails }
{}
