//! Nothing is refused without a refusal: where memory is not wanting, and the engine refuses no operation, a client is told none of the errors
//! 701, 1205 and 1222; each batch ends with its last DONE, and each call by RPC with its last DONEPROC; ERROR 49001 is told only where all statements
//! that a batch may begin have begun, and ERROR 49002 only where a result is more than its limit.
//!
//! Read `specs/Ample.antt` first, then `specs/Small.antt`, `specs/Telling.antt` and `specs/Laws.antt`. The functions do nothing: each one's contract is a law
//! of the trees of `batch_meaning`, for every reply that may come, and asks nothing of its caller; only the definitions that they cite say what they mean.
//! That memory is wanting only where it was refused is not said.
#![tactic(auto)]

ghost use Rattle.ample_laws.specs.Laws.{AmpleBatches, AmpleCalls, AmpleIsHeld, AmpleStatements, BatchesEnd, BatchesWithin, CallsEnd, CallsWithin, CountsBytes, SmallBatches, SmallCalls, SmallIsHeld, SmallStatements, StatementsWithin};

/// Where memory was never wanting and no reply refuses its operation, no batch and no call by RPC tells ERROR 701, 1205 or 1222, and no statement but in the
/// CATCH of such an error. What was done so was done: the other laws hold of it, too.
#[tactic(auto, using(crate::proofs::Refusals::ample_is_held, crate::proofs::Refusals::ample_statements))]
pub fn law_ample()
    ensures held { AmpleIsHeld }
    ensures statement { AmpleStatements }
    ensures batch { AmpleBatches }
    ensures call { AmpleCalls }
{}

/// Each batch that was done ends with its last DONE, and each call by RPC with its last DONEPROC; no DONE before it is the end.
pub fn law_ends()
    ensures batch { BatchesEnd }
    ensures call { CallsEnd }
{}

/// A batch or a call by RPC behind which some statements are left does not tell ERROR 49001, nor does a statement but in the CATCH of it.
#[tactic(auto, using(crate::proofs::Within::statements_within))]
pub fn law_within()
    ensures statement { StatementsWithin }
    ensures batch { BatchesWithin }
    ensures call { CallsWithin }
{}

/// A batch or a call by RPC by which nothing was more than the result limit does not tell ERROR 49002, nor does a statement but in the CATCH of it. What was
/// done so was done; a batch begins with all bytes that it may send, and counts those that it sends.
#[tactic(auto, using(crate::proofs::Small::small_is_held, crate::proofs::Small::counts_bytes, crate::proofs::Small::small_statements))]
pub fn law_small()
    ensures held { SmallIsHeld }
    ensures counts { CountsBytes }
    ensures statement { SmallStatements }
    ensures batch { SmallBatches }
    ensures call { SmallCalls }
{}
