//! The messages of a login, PRELOGIN and LOGIN7 of [MS-TDS], and what is answered to them.
//!
//! `specs/Lib.antt` says in which order to read: what a payload says as a LOGIN7 or why it is refused,
//! then the same of a PRELOGIN, and who may log in. The layers above rely on each function giving
//! exactly what those definitions give. [`read_prelogin`] and [`judge_login`] take no memory; for
//! [`read_login`] memory is wanting only where the payload is not refused. Bytes behind the Length
//! field of a login of at least 94 bytes change nothing ([`law_login_length`]).
//!
//! ```text
//! let prelogin = read_prelogin(first)?;
//! send(prelogin_reply(alloc)?);
//! let login = read_login(alloc, second)?;
//! match judge_login(&login, &config) {
//!     Ok(size) => write_tokens(&login_reply(alloc, size)?, &mut out)?,
//!     Err(number) => refuse(number),
//! }
//! ```
#![tactic(auto)]

mod config;
mod login;
mod prelogin;
mod verdict;

pub use config::{Config, Entry};
pub use login::{Login, LoginFault, law_login_length, read_login};
pub use prelogin::{Prelogin, PreloginFault, law_prelogin_reply, prelogin_reply, read_prelogin};
pub use tds_packets::DEFAULT_SIZE;
pub use verdict::{LOGIN_FAILED, UNKNOWN_DATABASE, judge_login, login_reply};
