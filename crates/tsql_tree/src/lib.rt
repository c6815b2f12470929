//! The trees of Transact-SQL: what a text of the language stands for.
//!
//! `query.rt` has expressions, tests and selects, `statement.rt` statements and batches,
//! `definition.rt` what CREATE defines, and `option.rt` what SET sets. Each form of the language is
//! one variant or struct, with its parts in the order of the text, so the grammar lies beside these
//! types; `docs/LANGUAGE.md` has it.
//!
//! The layers above rely on trees being plain data in a clause, with a list for each list and a
//! value for each box, and on [`Select::copy`] giving an equal select. What can stand in any number
//! without nesting is flat: chains of operators, signs, NOTs, joins and statements are lists or
//! counts. So the depth of a tree is at most a few times the nesting of its text, and a tree of a
//! text that nests 128 deep is walked, copied and dropped on an ordinary stack.
#![tactic(auto)]

mod copy;
mod definition;
mod option;
mod query;
mod statement;

pub use definition::{
    CheckTree, ColumnTree, Definition, Event, ForeignTree, KeyTree, Parameter, ProcedureTree,
    TableTree, TriggerTree,
};
pub use option::{FixedOption, IsolationLevel, PriorityWord, SessionOption};
pub use query::{
    AddSign, Aggregate, Arm, CompareSign, Expr, Factor, FromClause, Item, Join, MultiplySign,
    OrderItem, Select, SystemWord, TableRef, Term, Test,
};
pub use statement::{
    Argument, ArgumentValue, Assignment, Batch, Declaration, DropKind, Form, InsertRows, Statement,
};
