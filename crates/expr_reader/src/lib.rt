//! Expressions and tests read by descent.
//!
//! Each reader is a method of [`Reader`], over the function that reads what nests within another: so
//! no two readers call each other, and each rule is proved by itself. The layers above rely on that a
//! reader gives what is read of its rule, with the lexemes behind it (`Gives`); they give it a function
//! that does so of what nests (`specs/Nests.antt`). Memory may be wanting at any time, and a reader says
//! the same where it may nest no deeper.
//!
//! `specs/Parts.antt` names what stands behind a first lexeme or tree, each a part of a production;
//! `proofs/Equations.antt` and `proofs/TestEquations.antt` say what is read of each rule.
#![tactic(auto)]

mod expr;
mod functions;
mod nested;
mod reader;
mod test;

pub use expr::ADDS;
pub use functions::distinct;
pub use nested::{Found, Nested};
pub use reader::Reader;
