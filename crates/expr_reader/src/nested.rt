//! What may nest in an expression or a test.

ghost use Rattle.std.specs.Prelude.{◌≡◌, Ok, Err, IfOk, OnErr};
ghost use Rattle.lexeme_reader.specs.declared.fault.ReadFault.TheVariants.{NoRoom};

use lexeme_reader::{ReadFault, no_room};
use sqlite_items::{Boxed, Items};
use tsql_tree::{Expr, Select, Test};

/// What is to be read.
#[derive(Clone, Copy)]
pub enum Nested {
    /// An expression.
    Expr,
    /// Expressions with commas between them.
    Exprs,
    /// A test.
    Test,
    /// A test without connectives.
    Basic,
    /// Further tests joined by AND.
    Ands,
    /// Further tests joined by OR.
    Ors,
    /// A select.
    Select,
}

/// What was read.
#[derive(Drop)]
pub enum Found {
    /// An expression.
    Expr(Boxed<Expr>),
    /// Expressions.
    Exprs(Items<Expr>),
    /// A test.
    Test(Boxed<Test>),
    /// Tests.
    Tests(Items<Test>),
    /// A select.
    Select(Boxed<Select>),
}

impl Found {
    ghost use Rattle.expr_reader.specs.declared.nested.Found.TheVariants as found;

    /// The expression.
    pub fn into_expr(self) -> Result<Boxed<Expr>, ReadFault>
        ensures ok { IfOk result (λ it. self ≡ found.Expr it) }
        ensures err { OnErr result (result ≡ Err NoRoom) }
        ensures is { (it : _) → self ≡ found.Expr it → result ≡ Ok it }
    {
        match self {
            Found::Expr(it) => Ok(it),
            other => Err(no_room(other)),
        }
    }

    /// The expressions.
    pub fn into_exprs(self) -> Result<Items<Expr>, ReadFault>
        ensures ok { IfOk result (λ it. self ≡ found.Exprs it) }
        ensures err { OnErr result (result ≡ Err NoRoom) }
        ensures is { (it : _) → self ≡ found.Exprs it → result ≡ Ok it }
    {
        match self {
            Found::Exprs(it) => Ok(it),
            other => Err(no_room(other)),
        }
    }

    /// The test.
    pub fn into_test(self) -> Result<Boxed<Test>, ReadFault>
        ensures ok { IfOk result (λ it. self ≡ found.Test it) }
        ensures err { OnErr result (result ≡ Err NoRoom) }
        ensures is { (it : _) → self ≡ found.Test it → result ≡ Ok it }
    {
        match self {
            Found::Test(it) => Ok(it),
            other => Err(no_room(other)),
        }
    }

    /// The tests.
    pub fn into_tests(self) -> Result<Items<Test>, ReadFault>
        ensures ok { IfOk result (λ it. self ≡ found.Tests it) }
        ensures err { OnErr result (result ≡ Err NoRoom) }
        ensures is { (it : _) → self ≡ found.Tests it → result ≡ Ok it }
    {
        match self {
            Found::Tests(it) => Ok(it),
            other => Err(no_room(other)),
        }
    }

    /// The select.
    pub fn into_select(self) -> Result<Boxed<Select>, ReadFault>
        ensures ok { IfOk result (λ it. self ≡ found.Select it) }
        ensures err { OnErr result (result ≡ Err NoRoom) }
        ensures is { (it : _) → self ≡ found.Select it → result ≡ Ok it }
    {
        match self {
            Found::Select(it) => Ok(it),
            other => Err(no_room(other)),
        }
    }
}
