//! What the parts of a select are bound to, once the expressions and tests in them are: names, inner queries,
//! aggregates, signs, and clauses.
//!
//! `specs/Lib.antt` says in which order to read; its end, `Bind`, says what whole trees are bound to, which is the
//! contract of the layer above. The layers above rely on each function giving exactly that: the bound part and what
//! is known of it, what is gathered on the way ([`Progress`]), or the first refusal, with its number and the name in
//! its text. What is outside a limit is left out and noted, since any other refusal comes before it: who binds
//! a statement refuses it in the end.
//!
//! Nothing is asked of a caller. A table that is not defined has no columns; its name is looked up before. A
//! [`Context`] says which columns may be named, what is grouped, and where aggregates may stand.
//! Only tests show that want of memory is not answered where there is memory.
#![tactic(auto)]

mod aliases;
mod and_next;
mod aside;
mod back;
mod columns;
mod fault;
mod from;
mod front;
mod groups;
mod inside;
mod items;
mod named;
mod operand;
mod order;
mod progress;
mod scope;
mod server;
mod settling;
mod shape;
mod signs;
mod tables;

pub use aliases::Aliases;
pub use back::BackClauses;
pub use columns::ColumnsByName;
pub use from::{JoinedTables, is_long_ref};
pub use front::FrontClauses;
pub use groups::{class_context, noted_test, whole_having};
pub use inside::Inside;
pub use items::{assigned_onto, copied, is_long_alias, name_or, star_items, value_item};
pub use named::{MAX_COLUMNS, NamedItems};
pub use operand::{
    MAX_INNER, Selected, column, count_rows, exists_from, in_query_from, left_out, misplaced,
    scalar_from, sum_of, system_expr, test_left_out, variable_in,
};
pub use order::{expr_key, item_key, named_place, number_of, numbered_key};
pub use progress::{Context, Progress, is_deep};
pub use scope::{Found, Matches, TableSource, are_beyond};
pub use settling::settled;
pub use shape::Shape;
pub use signs::{
    add_op, compare_op, literal, multiply_op, signed_null, signed_number, signed_onto,
};
pub use tables::{TablesByName, table_of};
