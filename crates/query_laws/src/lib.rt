//! Laws of queries: what a select is bound to is well formed, and what it answers on rows of its tables has a value for
//! each item, of the item's type.
//!
//! Read `specs/Formed.antt` first: which queries are well formed; then `specs/Laws.antt`. The functions do nothing:
//! each one's contract is a law, of the definitions of `clause_binder` and `query_eval`. The layers above rely on
//! them where an answer is sent: it has as many values as columns, each of its column's type. They ask nothing of
//! their caller; only the definitions that they cite say what they mean. Well formed is not right: that the tree means
//! the text is the contract of `query_binder`.
#![tactic(auto)]

ghost use Rattle.query_laws.specs.Laws.{AnswerTyped, SelectFormed, SelectTyped};
ghost use Rattle.query_laws.specs.Named.{TablesNamed};
ghost use Rattle.query_laws.specs.Parts.{ExprFormed, TestFormed};
ghost use Rattle.query_laws.specs.Placed.{PlacesFound};

/// What a select is bound to is well formed over the columns of its tables and over the variables, each item has a type
/// that there is and a name that is not too long, and there are at most 64 of them unless they are assigned; but for
/// what is outside a limit, for which the statement is refused.
pub fn law_select()
    ensures { SelectFormed }
{}

/// What a well-formed query answers on rows of its tables has a value for each item, of the item's type.
#[tactic(auto, using(crate::proofs::Laws::answer_typed))]
pub fn law_answer()
    ensures { AnswerTyped }
{}

/// What a select is bound to answers, on rows of its tables and over the values of its variables, a value for each item,
/// of the item's type.
pub fn law_select_answer()
    ensures { SelectTyped }
{}

/// Each table that a bound select reads, in its inner queries too, is one that the select names; so where all that it
/// names are defined, each is defined.
pub fn law_tables()
    ensures { TablesNamed }
{}

/// What an expression by itself is bound to is well formed, unless something is outside a limit.
pub fn law_expr()
    ensures { ExprFormed }
{}

/// What a test by itself is bound to is well formed, unless something is outside a limit.
pub fn law_test()
    ensures { TestFormed }
{}

/// The variables that the items of a select are assigned to are there, one for each item where all are assigned, unless
/// something is outside a limit.
pub fn law_places()
    ensures { PlacesFound }
{}
