//! Limits.

ghost use Rattle.std.specs.Prelude.{◌≡◌};
ghost use Rattle.typed_nodes.specs.Nodes.{is_kind};
ghost use Rattle.clause_binder.specs.Scope.{is_long};
ghost use Rattle.binder.specs.Limits as spec;

use clause_binder::Progress;
use value_types::{SqlType, Units};

/// How many units a name has at most.
const MAX_NAME: usize = 128;

/// How many units a text has at most.
pub(crate) const TEXT_LIMIT: u16 = 4_000;

/// How many inner queries a statement has at most.
const MAX_INNER: u16 = 10_000;

/// Whether a name is longer than a name may be.
pub(crate) fn is_long(name: &Units) -> bool
    ensures { result ≡ is_long name.now }
{
    name.len() > MAX_NAME
}

/// Whether there is such a type: a text has from 1 to 4,000 units.
pub(crate) fn is_kind(kind: SqlType) -> bool
    ensures { result ≡ is_kind kind }
{
    match kind {
        SqlType::NText(size) => 1 <= size && size <= TEXT_LIMIT,
        SqlType::TinyInt => true,
        SqlType::SmallInt => true,
        SqlType::Int => true,
        SqlType::BigInt => true,
        SqlType::Bit => true,
    }
}

/// Whether something of a statement is outside a limit.
pub(crate) fn is_beyond(done: &Progress) -> bool
    ensures { result ≡ spec.is_beyond done.now }
{
    done.beyond || done.count > MAX_INNER
}
