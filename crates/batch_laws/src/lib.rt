//! Laws of statements and batches: what they leave of their transaction and commit, and what they send. A statement that succeeded in an
//! open transaction has left its changes behind what that had written; one in a transaction of its own has committed them, as one
//! commit. One that failed has left its transaction as it was, or its error has ended it. EXEC, and a write that fires triggers, do what the
//! statements do that they run.
//!
//! Read `specs/Committing.antt` first, then `specs/Laws.antt` and the others in the order of `specs/Lib.antt`; what a statement has
//! asked is in `statement_paths`. The functions do nothing: each one's contract is a law of the trees of `batch_meaning` and of the dialogs of
//! `dml_exec`, for every reply that may come. They ask nothing of their caller; only the definitions that they cite say what they
//! mean. That the commits of exchanges are those in the log is no part of it (`commits_once` of `step_model`).
#![tactic(auto)]

ghost use Rattle.std.specs.Prelude.{Bool, ℤ};
ghost use Rattle.batch_meaning.specs.declared.raised.Raised.{Raised};
ghost use Rattle.batch_meaning.specs.Selecting.{Effect};
ghost use Rattle.batch_laws.specs.Control.{DoomedStrikes, FormControls, NamedDoes, SpentStrikes};
ghost use Rattle.batch_laws.specs.Cursors.{CloseMoves, DeclareMoves, FetchMoves, OpenLeaves, OpenMoves, RemoveMoves};
ghost use Rattle.batch_laws.specs.Laws.{BatchCommits, BatchRuns, DefinesEnds, DefinitionRuns, EachInTurn, EffectTells, ErrorStrikes, FailureLeaves, LeftRun, MessageLeaves, PlainEnds, PlainRun, RefusedEnds, StatementEnds, StatusLeaves, TestLeaves, WorkLeaves, WorkTells, WriteLeaves, WritesWhole};
ghost use Rattle.batch_laws.specs.Unseen.{UnseenBegins, UnseenDefines, UnseenRun};
ghost use Rattle.batch_laws.specs.Settled.{BatchSettles, CallSettles, StatementSettles, SteadyIdle};
ghost use Rattle.batch_laws.specs.Transactions.{BeginLeaves, CommitLeaves, RollbackLeaves, SaveLeaves};

/// The changes of a write stay whole or not at all: where they were made and checked they stand behind what the
/// transaction had written, those of index rows as these were found; and else that is as it was.
pub fn law_writes()
    ensures { WritesWhole }
{}

/// The work of a statement that succeeded leaves its changes in the open transaction, or they are committed in its own; where
/// it failed, the transaction is as it was. So it is of a write that fires no triggers; one that does has its changes in an open
/// transaction where these begin to run, and has committed nothing.
#[tactic(auto, using(crate::proofs::Statements::work_leaves, crate::proofs::Statements::failure_leaves, crate::proofs::Writing::write_leaves))]
pub fn law_work()
    ensures done { WorkLeaves }
    ensures failed { FailureLeaves }
    ensures write { WriteLeaves }
{}

/// A statement that is done with its effect has done its work, sent what that came to and left its changes; or it has
/// failed, its error has struck, and the transaction is as it was, or rolled back. What is assigned and counted is told of its
/// session, and so is the state of its transaction; all that SET has set stays, and so do its cursors. Or it is a write, and has
/// fired triggers: then `law_forms` says what it does.
#[tactic(auto, using(crate::proofs::Turns::statement_ends, crate::proofs::Turns::plain_ends))]
pub fn law_statement()
    ensures ends { StatementEnds }
    ensures begun { PlainEnds }
{}

/// Whatever a statement does comes first, and then it goes on by what that came to, or its error strikes; one that is done
/// with its effect sends its tokens, and leaves its session as that says. An error that is caught and would end the transaction
/// dooms it.
#[tactic(auto, using(crate::proofs::Telling::effect_tells, crate::proofs::Telling::error_strikes))]
pub fn law_told()
    ensures works { WorkTells Effect }
    ensures tests { WorkTells Bool }
    ensures messages { WorkTells Raised }
    ensures statuses { WorkTells ℤ }
    ensures effect { EffectTells }
    ensures errors { ErrorStrikes }
{}

/// A test, a message and the status of RETURN only read, and leave their transaction as it was.
#[tactic(auto, using(crate::proofs::Telling::test_leaves, crate::proofs::Telling::message_leaves, crate::proofs::Telling::status_leaves))]
pub fn law_read()
    ensures tests { TestLeaves }
    ensures messages { MessageLeaves }
    ensures statuses { StatusLeaves }
{}

/// BEGIN TRANSACTION, SAVE TRANSACTION and ROLLBACK commit nothing; the first two leave what the transaction has, and the last
/// nothing, or what it had at a mark. The outermost COMMIT commits all that the transaction has, and an inner one nothing.
/// COMMIT, and a ROLLBACK that has what it goes back to, are refused by no want of memory.
#[tactic(auto, using(crate::proofs::Transactions::begin_leaves))]
pub fn law_transactions()
    ensures begins { BeginLeaves }
    ensures commits { CommitLeaves }
    ensures rolls_back { RollbackLeaves }
    ensures saves { SaveLeaves }
{}

/// DECLARE of a cursor, FETCH, CLOSE and DEALLOCATE ask nothing, and change the cursors and `@@FETCH_STATUS` alone, by what is
/// answered of the cursor that they name. A FETCH that failed has moved its cursor only where a value of the row can't be assigned.
/// OPEN only reads, and leaves its transaction as it was; where it fails it leaves the cursors, too.
#[tactic(auto, using(crate::proofs::Cursors::declare_moves, crate::proofs::Cursors::fetch_moves, crate::proofs::Cursors::close_moves, crate::proofs::Cursors::remove_moves, crate::proofs::Cursors::open_moves, crate::proofs::Cursors::open_leaves))]
pub fn law_cursors()
    ensures declares { DeclareMoves }
    ensures fetches { FetchMoves }
    ensures closes { CloseMoves }
    ensures removes { RemoveMoves }
    ensures opens { OpenMoves }
    ensures leaves { OpenLeaves }
{}

/// A statement that may begin, and is not refused since its transaction is doomed, does what its form says: one on transactions
/// or cursors its own work; IF the statement that its test says, WHILE its body and then the same again, TRY its statements and,
/// where an error of theirs was caught, those of CATCH, and a block its statements; EXEC the statements of its procedure, and a write
/// those of the triggers that it fires; PRINT, RAISERROR and THROW send their message, or it strikes, and SET sets. Of one that may
/// not begin, or is refused, an error strikes at once. Of one that begins a transaction unseen `law_unseen` says it.
#[tactic(auto, using(crate::proofs::Control::named_does, crate::proofs::Control::form_controls, crate::proofs::Control::spent_strikes, crate::proofs::Control::doomed_strikes))]
pub fn law_forms()
    ensures works { NamedDoes }
    ensures controls { FormControls }
    ensures spent { SpentStrikes }
    ensures doomed { DoomedStrikes }
{}

/// Under IMPLICIT_TRANSACTIONS ON a statement, or the definition of a procedure or trigger, that begins a transaction unseen
/// begins that first, and does then what it does in a transaction that is open; or that failed, and its error strikes. Plain
/// statements that fire no triggers commit nothing then.
#[tactic(auto, using(crate::proofs::Control::unseen_begins, crate::proofs::Defining::unseen_defines, crate::proofs::Implicit::unseen_run))]
pub fn law_unseen()
    ensures statement { UnseenBegins }
    ensures definition { UnseenDefines }
    ensures run { UnseenRun }
{}

/// Of statements one after another each did what it means, from where the one before it had left its session, until one left
/// the others.
#[tactic(auto, using(crate::proofs::Turns::each_in_turn))]
pub fn law_turns()
    ensures { EachInTurn }
{}

/// Plain statements, and a batch of them, that begin where no transaction is open and fire no triggers have sent and committed what
/// each has, one after another; a batch then its end. No transaction is open behind them.
#[tactic(auto, using(crate::proofs::Batches::plain_run, crate::proofs::Batches::batch_runs))]
pub fn law_batch()
    ensures statements { PlainRun }
    ensures batch { BatchRuns }
{}

/// A batch whose text is refused asks nothing: its error is told, and its end.
#[tactic(auto, using(crate::proofs::Batches::refused_ends))]
pub fn law_refused()
    ensures { RefusedEnds }
{}

/// A batch that defines a procedure or a trigger puts the definition in the open transaction, or in one of its own, and tells
/// nothing; or that is refused or fails, its error strikes, and the transaction is as it was, or rolled back.
#[tactic(auto, using(crate::proofs::Defining::defines_ends, crate::proofs::Defining::definition_runs))]
pub fn law_defines()
    ensures object { DefinesEnds }
    ensures batch { DefinitionRuns }
{}

/// A batch of plain statements that fire no triggers and that was left in the middle, for want of memory, has committed whole statements
/// alone.
#[tactic(auto, using(crate::proofs::Lefts::left_run))]
pub fn law_left()
    ensures { LeftRun }
{}

/// Each commit of such a batch, done or left, is the last exchange of a statement's own transaction, in which that did its
/// work, and at whose beginning none was open; all that SET has set is then as at the batch's beginning.
pub fn law_commits()
    ensures { BatchCommits }
{}

/// Between two statements a transaction is open at the port exactly where BEGIN TRANSACTION has opened one, whatever statements
/// they are; behind a batch or a call by RPC that was done none is doomed, and where none is open BEGIN TRANSACTION has opened none.
#[tactic(auto, using(crate::proofs::Settled::statement_settles, crate::proofs::Settled::batch_settles, crate::proofs::Settled::call_settles, crate::proofs::Settled::steady_idle))]
pub fn law_settled()
    ensures statement { StatementSettles }
    ensures batch { BatchSettles }
    ensures call { CallSettles }
    ensures idle { SteadyIdle }
{}
