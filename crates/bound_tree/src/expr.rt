//! Expressions and tests.

ghost use Rattle.std.specs.Prelude.{◌≡◌, ℤ, List, IsTrue, Err};
ghost use Rattle.value_types.specs.declared.sql_type.SqlType.{SqlType as Kind};
ghost use Rattle.bound_tree.specs.declared.expr.BoundExpr.{BoundExpr};
ghost use Rattle.bound_tree.specs.declared.expr.BoundTest.{BoundTest};
ghost use Rattle.bound_tree.specs.Setting.{Setting};
ghost use Rattle.bound_tree.specs.Faults.{is_fault};
ghost use Rattle.bound_tree.specs.Meaning.{truth, value};
ghost use Rattle.bound_tree.specs.Typed.{Fits, GivesOf, SettingTypes, is_formed, is_formed_test, row_types};

use crate::SystemValue;
use sqlite_items::{Boxed, Items};
use value_types::{SqlType, Value};

/// What is done with two operands of arithmetic.
#[derive(Clone, Copy, PartialEq, Eq)]
pub enum InfixOp {
    /// `+`, which joins two texts.
    Add,
    /// `-`
    Subtract,
    /// `*`
    Multiply,
    /// `/`, which truncates toward zero.
    Divide,
    /// `%`, which has the dividend's sign.
    Remainder,
}

/// How two values are compared.
#[derive(Clone, Copy, PartialEq, Eq)]
pub enum CompareOp {
    /// `=`
    Equal,
    /// `<>`
    NotEqual,
    /// `<`
    Less,
    /// `<=`
    LessEqual,
    /// `>`
    Greater,
    /// `>=`
    GreaterEqual,
}

/// An expression. Where operands have two types, the binder has converted them.
#[cycle(bound)]
#[derive(Drop)]
pub enum BoundExpr {
    /// A literal, with the signs before it.
    Constant(Value),
    /// The value at this place of the row.
    Cell(u16),
    /// The value of the variable at this place.
    Variable(u16),
    /// A value of the session.
    System(SystemValue),
    /// The negative of a number, as one of this type.
    Negate(SqlType, Boxed<BoundExpr>),
    /// Arithmetic, with a result of this type; of a type of texts, two texts joined.
    Infix(InfixOp, SqlType, Boxed<BoundExpr>, Boxed<BoundExpr>),
    /// The value of an operand of the first type as one of the second, by the rules of CAST.
    Convert(SqlType, SqlType, Boxed<BoundExpr>),
    /// CASE: what the first arm gives whose test is true, else the last expression.
    Case(Items<BoundArm>, Boxed<BoundExpr>),
    /// ISNULL and COALESCE: the first that isn't NULL. Those behind it are not evaluated.
    Coalesce(Items<BoundExpr>),
    /// NULLIF: NULL where the operand, which is of this type, equals the other side; else the
    /// operand. It is converted to the type of the pair when it is compared.
    NullIf(SqlType, Boxed<BoundExpr>, Boxed<BoundSide>),
    /// LEN of a text.
    Length(Boxed<BoundExpr>),
    /// The one value of the inner query of this place; NULL where it has no row. Who answered that
    /// query came first, and refused there what has more rows than one.
    Scalar(u16),
}

/// One arm of a CASE.
#[cycle(bound)]
#[derive(Drop)]
pub struct BoundArm {
    /// What is tested.
    pub test: BoundTest,
    /// What the CASE gives where the test is true.
    pub gives: BoundExpr,
}

/// The other side of a comparison whose first side stands once before several.
#[cycle(bound)]
#[derive(Drop)]
pub struct BoundSide {
    /// The type in which the pair is compared. The first side is converted to it.
    pub pair: SqlType,
    /// The other side, converted by the binder.
    pub expr: BoundExpr,
}

/// A test.
#[cycle(bound)]
#[derive(Drop)]
pub enum BoundTest {
    /// Two values of one type compared.
    Compare(CompareOp, Boxed<BoundExpr>, Boxed<BoundExpr>),
    /// IS NULL.
    IsNull(Boxed<BoundExpr>),
    /// BETWEEN: the operand, which is of this type, is at least the first side and at most the
    /// second. It is converted to each pair's type when that pair is compared.
    Between(SqlType, Boxed<BoundExpr>, Boxed<BoundSide>, Boxed<BoundSide>),
    /// IN: the operand, which is of this type, equals one of the sides. It is converted to each
    /// pair's type when that pair is compared.
    InList(SqlType, Boxed<BoundExpr>, Items<BoundSide>),
    /// IN: the operand, which is of the first type, equals a value of the inner query of this place,
    /// which are of the second type. Both are converted to the higher type when they are compared.
    InQuery(SqlType, Boxed<BoundExpr>, SqlType, u16),
    /// The inner query of this place has a row.
    Exists(u16),
    /// AND. The second is evaluated unless the first is false.
    And(Boxed<BoundTest>, Boxed<BoundTest>),
    /// OR. The second is evaluated unless the first is true.
    Or(Boxed<BoundTest>, Boxed<BoundTest>),
    /// NOT.
    Not(Boxed<BoundTest>),
}

/// What a well-formed expression gives is of its type.
pub fn law_typed()
    ensures { (types : SettingTypes) (setting : Setting) → Fits types setting
        → (expr : BoundExpr) (kind : Kind) → IsTrue (is_formed types expr kind)
        → GivesOf kind (value setting expr) }
{}

/// The errors of expressions and tests are eight, whatever is evaluated over whatever is read.
pub fn law_faults()
    ensures expr { (setting : Setting) (expr : BoundExpr) (number : ℤ)
        → value setting expr ≡ Err number → IsTrue (is_fault number) }
    ensures test { (setting : Setting) (test : BoundTest) (number : ℤ)
        → truth setting test ≡ Err number → IsTrue (is_fault number) }
{}

/// What is well formed over the types of a row alone, as a CHECK is, gives the same whatever the
/// variables, the values of the session and the rows of inner queries are.
pub fn law_row_alone()
    ensures expr { (kinds : List Kind) (a b : Setting) → a.row ≡ b.row → (expr : BoundExpr) (kind : Kind)
        → IsTrue (is_formed (row_types kinds) expr kind) → value a expr ≡ value b expr }
    ensures test { (kinds : List Kind) (a b : Setting) → a.row ≡ b.row → (test : BoundTest)
        → IsTrue (is_formed_test (row_types kinds) test) → truth a test ≡ truth b test }
{}
