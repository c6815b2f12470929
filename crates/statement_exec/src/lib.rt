//! What a statement does with tables and values, in the open transaction or in one of its own: it is bound, reads,
//! answers, computes and changes.
//!
//! What that means stands in `batch_meaning`. The layer above relies on [`work`], [`test`], [`compose`],
//! [`status`], [`write`], [`drop_object`], [`create_table`] and [`create_definition`]: what is asked, and what
//! comes of the replies, is what the statement means; and, for the statements on transactions, on
//! [`bind_first`] and [`take_back`]. It asks of its caller a session that agrees with its port on whether a
//! transaction is open. What becomes of an effect or of a failure is not seen here. Only tests show that memory
//! is not said to be wanting where there is enough.
#![tactic(auto)]

mod changing;
mod creating;
mod cursors;
mod databases;
mod dialogs;
mod discard;
mod dropping;
mod fired;
mod home;
mod known;
mod look_up;
mod objects;
mod prepare;
mod putting;
mod query;
mod seen;
mod typed;
mod working;

pub use changing::{Change, Written, write};
pub use creating::{create_definition, create_table, is_odd_procedure};
pub use cursors::{close_cursor, declare_cursor, fetch, open_cursor, remove_cursor};
pub use databases::use_database;
pub use dropping::drop_object;
pub use home::{close, enter, leave, relax, relax_again};
pub use known::asks_named;
pub use look_up::find_name;
pub use prepare::bind_first;
pub use putting::take_back;
pub use working::{compose, line_of, status, test, work};
