//! Definitions, read from the rows of `objects`.
//!
//! Read `specs/Definitions.antt` of `table_rows` first: what a row of `objects` defines. The layers above rely on
//! [`definition_in`] giving the definition that the text of a row at its own key reads as, or none, and on the laws of
//! `specs/Laws.antt`. Nothing is asked of the caller. Only tests show that want of memory is not answered where there
//! is memory.
#![tactic(auto)]

mod definitions;
mod laws;

pub use definitions::{LONGEST_TEXT, definition_in, definition_of, law_longest_text};
pub use laws::{
    law_image_typed, law_one_definition, law_row_typed, law_value_of_type, law_written_read,
};
pub use table_rows::row_of;
