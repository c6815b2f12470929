//! The table of errors: number, class, action, catching and text of each, and what an error ends.
//!
//! Read `specs/Table.antt` first, the table in lines; then `specs/Act.antt`, what an error ends by
//! who raised it, XACT_ABORT and TRY, and `specs/Text.antt`, a text with a name for its placeholder. The
//! layers above rely on [`row_of`] giving the row of the table, and `None` exactly where there is
//! none; on [`action_of`] following those rules at every number; and on [`parts_of`] giving what the
//! name goes between. [`action_of`] asks its caller to say what stands around. Nothing here takes
//! memory.
//!
//! ```text
//! let row = row_of(208)?;
//! let (before, behind) = parts_of(row.text)?;
//! send(row.number, row.class, before + name + behind);
//! let ends = action_of(208, RaisedBy::Engine, session.xact_abort, outer_try);
//! ```
#![tactic(auto)]

mod action;
mod row;
mod text;

pub use action::{Action, Caught, RaisedBy, action_of};
pub use row::{ErrorRow, row_of};
pub use text::parts_of;
