//! Statements that stand within another.

ghost use Rattle.std.specs.Prelude.{◌≡◌, Err, IfOk, OnErr};
ghost use Rattle.lexeme_reader.specs.declared.fault.ReadFault.TheVariants.{NoRoom};

use lexeme_reader::{ReadFault, no_room};
use sqlite_items::{Boxed, Items};
use tsql_grammar::Around;
use tsql_tree::Statement;

/// What is to be read.
#[derive(Clone, Copy)]
pub enum Inner {
    /// A statement.
    One(Around),
    /// Statements and semicolons.
    Body(Around),
}

/// What was read.
#[derive(Drop)]
pub enum FoundInner {
    /// A statement.
    One(Boxed<Statement>),
    /// Statements.
    Body(Items<Statement>),
}

impl FoundInner {
    ghost use Rattle.statement_reader.specs.declared.nested.FoundInner.TheVariants as found;

    /// The statement.
    pub(crate) fn into_one(self) -> Result<Boxed<Statement>, ReadFault>
        ensures ok { IfOk result (λ it. self ≡ found.One it) }
        ensures err { OnErr result (result ≡ Err NoRoom) }
    {
        match self {
            FoundInner::One(it) => Ok(it),
            other => Err(no_room(other)),
        }
    }

    /// The statements.
    pub(crate) fn into_body(self) -> Result<Items<Statement>, ReadFault>
        ensures ok { IfOk result (λ it. self ≡ found.Body it) }
        ensures err { OnErr result (result ≡ Err NoRoom) }
    {
        match self {
            FoundInner::Body(it) => Ok(it),
            other => Err(no_room(other)),
        }
    }
}
