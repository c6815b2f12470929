//! Laws of binding: what a whole statement is bound to is well formed, and so is what the CHECKs of a table are bound to.
//!
//! Read `specs/Formed.antt` first: which statements that are bound are well formed; then `specs/Laws.antt`. The functions
//! do nothing: each one's contract is a law, of the definitions of `binder`. Where a statement is run or a CHECK is kept,
//! the layers above may rely on each place of its trees being there, and on their types. The laws ask that tables are
//! sound: at most 64 columns, each of a type that there is and a name that is not too long. That is what CREATE TABLE
//! keeps: a table for which it is bound is sound. Well formed is not right: that what is bound means the text is the
//! contract of `binder`.
#![tactic(auto)]

ghost use Rattle.binding_laws.specs.Laws.{BoundFormed, ChecksFormed, TableCreated};

/// What a statement is bound to, where each table that is defined is sound, is well formed: each query; the variables that
/// are assigned; and of a write the columns, the values and WHERE, over a row of its table, the variables, the values of
/// the session and its inner queries.
pub fn law_bound()
    ensures { BoundFormed }
{}

/// A table is sound where the CREATE TABLE that makes it is bound, over whatever definitions and variables: what `law_bound`
/// asks of each table that is defined is what CREATE TABLE keeps.
pub fn law_created()
    ensures { TableCreated }
{}

/// What the CHECKs of a sound table are bound to is well formed over a row of the table alone: a CHECK reads no variable, no
/// value of the session and no inner query, and gives the same whatever they are (`law_row_alone` of `bound_tree`).
pub fn law_checks()
    ensures { ChecksFormed }
{}
