//! What a text is read as, by its tree: statements with their variables, or why there are none.
//!
//! What a text is read as is defined in `batch_meaning`, by the trees that `stmt_parser` gives. The layer above
//! relies on [`read_text`], which gives what a text is read as, on [`plain_errand`] and [`take_call`], which say how a
//! call by RPC is run, as the papers or as a driver spells it, and on [`read_call`], which gives what is read for that.
//! [`take_call`] asks for a call that was read: values of their types. Nothing else is asked of the caller. Only tests
//! show that memory is not said to be wanting where there is enough.
#![tactic(auto)]

mod calls;
mod declarations;
mod drivers;
mod text;
mod variables;

pub use calls::{plain_errand, read_call};
pub use drivers::take_call;
pub use text::read_text;
pub use variables::{vars_behind, vars_of};
