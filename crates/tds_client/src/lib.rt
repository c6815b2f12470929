//! A client of [MS-TDS] that asks one batch: it logs in, sends the batch, and prints the reply.
//!
//! `specs/Lib.antt` says in which order to read: what is sent, what tokens are printed as, which replies let the client go on,
//! and how a query ends. The layer above may rely on [`run_query`]: what was taken, sent and printed at each end, and that a
//! failure comes only with a risen count. It asks for a user and a password of at most 128 units each, and a text of at most
//! 500,000. No clause says that the peer is a server of this repository, or that memory suffices.
//!
//! ```text
//! let login = ClientLogin { user, password };
//! match run_query(alloc, &login, &text, &mut line, &mut out) {
//!     ClientEnd::Done => 0,
//!     end => status_of(end),
//! }
//! ```
#![tactic(auto)]

mod batch;
mod end;
mod exchange;
mod login;
mod printing;
mod query;
mod replies;
mod turn;
mod turns;
mod writing;

pub use end::ClientEnd;
pub use login::ClientLogin;
pub use query::run_query;
pub use turn::Turn;
