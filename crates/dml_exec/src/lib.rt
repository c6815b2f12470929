//! What a write changes, and what is asked of the port for it.
//!
//! `specs/Lib.antt` says in which order to read. The layers above rely on [`plan_write`] giving exactly the changes of a write
//! on images of its tables, those of index rows behind those of rows, in their order, or its first error; and on [`read_images`], [`attempt_write`] and [`apply_write`]
//! asking exactly what `images_of`, `attempts` and `writes` ask, and giving what these come to by the replies. These three
//! want an open transaction and a priority that may be asked. Only tests show that want of memory is not answered where there
//! is memory. It recurses as deep as inner queries nest, and as deep as trees are.
#![tactic(auto)]

mod changes;
mod fault;
mod filling;
mod images;
mod index;
mod index_keys;
mod keys;
mod planning;
mod ranges;
mod refusal;
mod rewriting;
mod rewritten;
mod writing;
mod written;

pub use images::{GivenTables, fetches_any, is_deleted, is_inserted, read_images};
pub use keys::{has_key, key_places};
pub use planning::{plan_write, rows_told, table_written};
pub use ranges::{is_shape_of, shape_of};
pub use refusal::{Level, Refusal};
pub use rewritten::Rewritten;
pub use writing::{apply_write, attempt_write};
pub use written::{Attempt, Written};
