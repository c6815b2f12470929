//! The answer of a query on images, phase by phase.
//!
//! `specs/Lib.antt` says in which order to read. The layers above rely on [`answer`] giving what `Ans` says,
//! with the first error in the order of the phases; nothing is asked of it. [`law_key_tests`] says that rows
//! which are not read take no part in it, and [`law_images`] which images it takes. No clause says how much
//! memory it takes, or that want of memory is not answered where there is memory. It recurses as deep as
//! inner queries nest, and as deep as trees are.
#![tactic(auto)]

mod answering;
mod classes;
mod context;
mod fault;
mod firsts;
mod joining;
mod key_tests;
mod laws;
mod limit;
mod phases;
mod references;
mod side;
mod target;

pub use answering::{answer, answer_rows};
pub use key_tests::{ColumnTest, tests_of_key, where_tests};
pub use laws::{law_images, law_key_tests};
pub use limit::{PAIR_LIMIT, law_pair_limit};
pub use references::tables_read;
pub use target::{InnerAnswers, inner_answers, rows_meant};
