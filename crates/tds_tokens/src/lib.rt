//! The tokens in which a server answers, and their bytes, written and read.
//!
//! `specs/Lib.antt` says in which order to read: the bytes that [MS-TDS] gives each token, then which
//! tokens there are. A caller writes only tokens that have a spelling. The layers above rely on two
//! functions: [`write_tokens`] appends exactly those bytes, and [`read_tokens`] gives the one list of
//! tokens that has the bytes, or the first place where no token stands. So that a client finds where a
//! token ends, no token's bytes begin another's ([`law_tokens`]).
//!
//! ```text
//! let text = Units::of_ascii(alloc, b"Divide by zero error encountered.")?;
//! let reply = vec![in alloc;
//!     Token::Error(Notice::new(8134, 1, 16, text, Units::new(alloc), 1)),
//!     Token::Finished {
//!         kind: DoneKind::Done,
//!         status: DONE_ERROR,
//!         command: COMMAND_SELECT,
//!         rows: 0,
//!     },
//! ]?;
//! let mut out = Vec::new(alloc);
//! write_tokens(&reply, &mut out)?;
//! let same = read_tokens(alloc, &out)?;
//! ```
#![tactic(auto)]

mod bytes;
mod columns;
mod done;
mod env;
mod fault;
mod notice;
mod reading;
mod room;
mod sizes;
mod token;
mod values;
mod wire;
mod writing;

pub use bytes::Bytes;
pub use columns::{ColumnInfo, ColumnList};
pub use done::{
    COMMAND_DELETE, COMMAND_INSERT, COMMAND_NONE, COMMAND_SELECT, COMMAND_UPDATE, DONE_ATTN,
    DONE_COUNT, DONE_ERROR, DONE_FINAL, DONE_MORE, law_done_command, law_done_status,
};
pub use env::{
    ENV_BEGIN, ENV_COLLATION, ENV_COMMIT, ENV_DATABASE, ENV_PACKET_SIZE, ENV_ROLLBACK,
    law_env_kinds,
};
pub use fault::TokenFault;
pub use notice::{Notice, TEXT_LIMIT};
pub use reading::{law_tokens, read_tokens};
pub use token::{DoneKind, Token};
pub use wire::{COLLATION, server_name};
pub use writing::{bytes_of_tokens, write_tokens};
