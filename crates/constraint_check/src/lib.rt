//! The constraints of tables: what is wrong with rows by themselves, what is read to check them beside others, and what
//! the rows that were read say.
//!
//! Read `specs/Local.antt` first: NOT NULL and CHECK; then `specs/Reads.antt` and `specs/Judged.antt`: UNIQUE and FOREIGN
//! KEY. The layers above rely on [`first_local`] giving the first error of the rows, on [`reads_for`] giving exactly the
//! reads of the changes, in their order, and on [`judge`] giving exactly what the rows say, by which a read passes
//! ([`law_judged_passes`]). `specs/Integrity.antt` says what a database keeps of its tables, and [`law_checked_kept`] that it
//! keeps it behind changes that pass all these checks. Nothing is asked of the caller. That the rows are those of the ranges, read behind the changes, is the
//! caller's part. Only tests show that want of memory is not answered where there is memory.
#![tactic(auto)]

mod check_read;
mod inserted;
mod laws;
mod local;
mod reads;
mod verdict;

pub use check_read::{Check, CheckRead};
pub use laws::{law_checked_kept, law_judged_passes};
pub use local::first_local;
pub use reads::reads_for;
pub use verdict::judge;
