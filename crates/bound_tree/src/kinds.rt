//! The order of types, by which operands of two types are converted.

ghost use Rattle.std.specs.Prelude.{◌≡◌};
ghost use Rattle.bound_tree.specs.Kinds.{higher, rank};

use value_types::SqlType;

/// The higher of two types: BIGINT, INT, SMALLINT, TINYINT, BIT, NVARCHAR. Of two texts it is the
/// longer.
pub fn higher(a: SqlType, b: SqlType) -> SqlType
    ensures { result ≡ higher a b }
{
    match (a, b) {
        (SqlType::NText(n), SqlType::NText(m)) => SqlType::NText(n.max(m)),
        _ if rank(a) < rank(b) => b,
        _ => a,
    }
}

/// The place of a type among the types, the lowest first.
fn rank(kind: SqlType) -> u8
    ensures { result ≡ rank kind }
{
    match kind {
        SqlType::NText(_) => 0,
        SqlType::Bit => 1,
        SqlType::TinyInt => 2,
        SqlType::SmallInt => 3,
        SqlType::Int => 4,
        SqlType::BigInt => 5,
    }
}
