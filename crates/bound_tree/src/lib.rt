//! The bound trees of Transact-SQL: expressions and tests whose names are places and whose types are
//! known, the queries and writes that are made of them, and what an expression and a test mean.
//!
//! `specs/Lib.antt` says in which order to read. The layers above rely on trees being plain data in
//! a clause, with a list for each list and a value for each box; on `value` and `truth` of
//! `specs/Meaning.antt` as what an expression gives and a test says, with the first error from the
//! left; on [`law_typed`]: a tree that is well formed over the types of what it reads gives values
//! of its type; on [`law_faults`]: which errors there are; and on [`BoundExpr::is_same`] and
//! [`BoundTest::is_same`] telling exactly whether two trees are equal. The meaning is total: what a
//! well-formed tree never meets has an outcome too, mostly NULL or unknown. What queries and writes
//! mean is said by the crates that answer them.
//!
//! A tree is as deep as its binder lets it be; dropping one and comparing two recurse as deep.
#![tactic(auto)]

mod expr;
mod kinds;
mod query;
mod same;
mod system;
mod table;
mod truth;
mod write;

pub use expr::{
    BoundArm, BoundExpr, BoundSide, BoundTest, CompareOp, InfixOp, law_faults, law_row_alone,
    law_typed,
};
pub use kinds::higher;
pub use query::{
    BoundOrder, BoundQuery, InnerQuery, Item, JoinKind, OrderKey, Reference, Sum, SumKind,
};
pub use system::{SystemValue, SystemValues};
pub use table::{Image, Table};
pub use truth::Truth;
pub use write::{Bound, BoundRows, BoundSet, BoundWrite};
