//! Which rows are rows of a table, and how a definition is a row of `objects`.
//!
//! Read `specs/Rows.antt` first: which rows are rows of a table, and which index parts it has; then
//! `specs/Definitions.antt`: what a row of `objects` defines. The layers above rely on [`row_fits`] being exactly that
//! test, on [`part_columns`] giving the index parts in their order, and on [`row_of`] being the row that is read again
//! as the definition (`catalog_rows`). Nothing is asked of the caller. Only tests show that want of memory is not answered
//! where there is memory.
#![tactic(auto)]

mod objects;
mod parts;
mod rows;

pub use objects::{is_objects, object_key, row_of, tables_of};
pub use parts::part_columns;
pub use rows::{has_values, is_value_of, place_in, row_fits};
