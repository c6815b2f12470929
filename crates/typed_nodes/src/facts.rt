//! What is known of an expression beside its tree.

ghost use Rattle.std.specs.Prelude.{◌≡◌};
ghost use Rattle.typed_nodes.specs.Facts.{above, alone, beside, deeper, first_of, highest_of, no_facts, or_int, outside, test_above};

use bound_tree::higher;
use value_types::SqlType;

/// How deep an expression or a test may be: what has no parts is 1 deep, and each other node one
/// deeper than its deepest part. Conversions that are added count for nothing.
pub const MAX_DEPTH: u16 = 1_000;

/// The depth of what is deeper, or outside another limit. A statement that has such a part is refused.
pub const TOO_DEEP: u16 = 1_001;

/// What is known of an expression, or of several.
#[derive(Clone, Copy, Debug, PartialEq, Eq)]
pub struct Facts {
    /// The type; a lone NULL has none, nor has a test. Of several it is the highest.
    pub kind: Option<SqlType>,
    /// The depth, from 1 to [`TOO_DEEP`]. Of several it is the greatest.
    pub depth: u16,
    /// The place of a column that is in no GROUP BY, the first of the text.
    pub loose: Option<u16>,
}

impl Facts {
    /// Of no expression.
    pub fn none() -> Facts
        ensures { result ≡ no_facts }
    {
        Facts {
            kind: None,
            depth: 0,
            loose: None,
        }
    }

    /// Of an expression without parts.
    pub fn alone(kind: Option<SqlType>) -> Facts
        ensures { result ≡ alone kind }
    {
        Facts {
            kind,
            depth: 1,
            loose: None,
        }
    }

    /// Of this and what stands behind it.
    pub fn beside(self, other: Facts) -> Facts
        ensures { result ≡ beside self other }
    {
        Facts {
            kind: highest_of(self.kind, other.kind),
            depth: self.depth.max(other.depth),
            loose: first_of(self.loose, other.loose),
        }
    }

    /// Of a node of this type above these parts.
    pub fn above(self, kind: SqlType) -> Facts
        ensures { result ≡ above self kind }
    {
        Facts {
            kind: Some(kind),
            depth: deeper(self.depth),
            loose: self.loose,
        }
    }

    /// Of a test above these parts.
    pub fn test_above(self) -> Facts
        ensures { result ≡ test_above self }
    {
        Facts {
            kind: None,
            depth: deeper(self.depth),
            loose: self.loose,
        }
    }

    /// Of what is outside a limit.
    pub fn outside(self) -> Facts
        ensures { result ≡ outside self }
    {
        Facts {
            depth: TOO_DEEP,
            ..self
        }
    }
}

/// The type of a value that has none is INT.
pub fn or_int(kind: Option<SqlType>) -> SqlType
    ensures { result ≡ or_int kind }
{
    kind.unwrap_or(SqlType::Int)
}

/// The higher of two types, of which a lone NULL has none.
pub fn highest_of(a: Option<SqlType>, b: Option<SqlType>) -> Option<SqlType>
    ensures { result ≡ highest_of a b }
{
    match (a, b) {
        (None, b) => b,
        (a, None) => a,
        (Some(a), Some(b)) => Some(higher(a, b)),
    }
}

fn first_of(a: Option<u16>, b: Option<u16>) -> Option<u16>
    ensures { result ≡ first_of a b }
{
    match a {
        None => b,
        Some(place) => Some(place),
    }
}

fn deeper(depth: u16) -> u16
    ensures { result ≡ deeper depth }
{
    depth.saturating_add(1).min(TOO_DEEP)
}
