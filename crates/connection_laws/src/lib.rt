//! Laws of connections: what one connection asks of its port are batches and calls by RPC, one behind another, and what texts of
//! its messages keep reads back; a transaction may go over them, and what is open at the end is rolled back. So each commit of a
//! session that serves connections keeps its database sound, and in every run of such sessions each database that the commits of
//! the log leave is sound. And each response is whole, tells ERROR 1205 and ERROR 1222 only where the engine has
//! replied so to one of its statements, where memory is not wanting, ERROR 701 only where the engine refused an operation, and ERROR 49002 only
//! where a result was more than its limit.
//!
//! Read `specs/Tasks.antt` first, then `specs/Laws.antt`, `specs/Causes.antt` and `specs/Ample.antt`. The functions do nothing: each one's contract is a law of what
//! messages ask (`session_server`), for every reply that may come, and of runs of the engine (`step_model`). They ask nothing
//! of their caller; only the definitions that they cite say what they mean.
#![tactic(auto)]

ghost use Rattle.connection_laws.specs.Ample.{ConnectionAmple, ConnectionEnds, ConnectionSmall};
ghost use Rattle.connection_laws.specs.Causes.{ConnectionCauses};
ghost use Rattle.connection_laws.specs.Laws.{ConnectionAsks, ConnectionServed, ConnectionSound, ConnectionsKeep, ConnectionsSound, HistorySound};

/// What a connection has asked is what the batches and calls of its requests ask, one behind another, each done, and each from where the
/// one before it has come to; then, where the last response was not made, a front of what one more asks, and the rollback of
/// what they left open. This is served, as the laws of soundness ask for it.
pub fn law_served_connection()
    ensures asks { ConnectionAsks }
    ensures served { ConnectionServed }
{}

/// Each commit of a session that has served connections, one behind another, keeps its database intact, and so sound.
pub fn law_connections_keep()
    ensures { ConnectionsKeep }
{}

/// Where the exchanges of each session fit one log, and are those of connections, every database that the first commits of the
/// log leave is intact, and so sound.
pub fn law_history_sound()
    ensures { HistorySound }
{}

/// In every run of any sessions that have served connections, one behind another, every database that the first commits of
/// the log leave is intact, and so sound.
pub fn law_connections_sound()
    ensures { ConnectionsSound }
{}

/// So it is where one session has served one, and no other has stepped.
pub fn law_connection_sound()
    ensures { ConnectionSound }
{}

/// Each response of a connection is what its message comes to by its own stretch of what the connection has asked, one behind another.
/// Where no reply in that makes the session the victim of a deadlock, or says that a lock stands in its way, the response does not tell
/// that error.
/// Each such error that it tells has its cause in the exchanges of one statement that ran for it: of the one that sent it, or where that is
/// a THROW, of the one whose error is thrown again.
pub fn law_connection_causes()
    ensures { ConnectionCauses }
{}

/// Each response of a connection is whole: its tokens end with the one DONE behind which nothing follows.
pub fn law_connection_ends()
    ensures { ConnectionEnds }
{}

/// Where memory was never wanting, each response of a connection has its own stretch of what the connection has asked, one behind another. Where no reply in that
/// refuses an operation, the response tells no ERROR 701, 1205 or 1222.
pub fn law_connection_ample()
    ensures { ConnectionAmple }
{}

/// Each response of a connection is what its message comes to by its own stretch of what the connection has asked, one behind another.
/// Where by that nothing was more than the result limit, the response tells no ERROR 49002.
pub fn law_connection_small()
    ensures { ConnectionSmall }
{}
