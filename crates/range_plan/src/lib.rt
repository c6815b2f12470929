//! On which range of keys a reference is fetched, by the tests of its key in WHERE.
//!
//! `specs/Lib.antt` says in which order to read. The layers above rely on [`plan_range`] giving exactly `RangeOf`, and on the
//! laws: a row outside fails a key test, so a query answers on its ranges what it answers on the whole tables. Nothing is
//! asked of the caller. No clause says that want of memory is not answered where there is memory.
#![tactic(auto)]

mod laws;
mod planning;
mod ranges;

pub use laws::{law_answers, law_outside, law_targets};
pub use planning::plan_range;
pub use ranges::query_ranges;
