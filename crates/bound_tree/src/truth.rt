//! The three truth values of SQL.

ghost use Rattle.std.specs.Prelude.{◌≡◌};
ghost use Rattle.bound_tree.specs.Truths.{and, not, or};

/// What a test says. NULL beside a comparison makes it unknown.
#[derive(Clone, Copy, PartialEq, Eq)]
pub enum Truth {
    /// It is false.
    False,
    /// It is neither true nor false.
    Unknown,
    /// It is true.
    True,
}

impl Truth {
    /// AND, which takes the least.
    pub fn and(self, other: Truth) -> Truth
        ensures { result ≡ and self other }
    {
        match (self, other) {
            (Truth::False, _) | (_, Truth::False) => Truth::False,
            (Truth::True, Truth::True) => Truth::True,
            _ => Truth::Unknown,
        }
    }

    /// OR, which takes the greatest.
    pub fn or(self, other: Truth) -> Truth
        ensures { result ≡ or self other }
    {
        match (self, other) {
            (Truth::True, _) | (_, Truth::True) => Truth::True,
            (Truth::False, Truth::False) => Truth::False,
            _ => Truth::Unknown,
        }
    }

    /// NOT, which turns the order round.
    pub fn not(self) -> Truth
        ensures { result ≡ not self }
    {
        match self {
            Truth::False => Truth::True,
            Truth::Unknown => Truth::Unknown,
            Truth::True => Truth::False,
        }
    }
}
