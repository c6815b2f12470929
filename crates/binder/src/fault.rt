//! Refusals.

ghost use Rattle.std.specs.Prelude.{◌≡◌, Err};
ghost use Rattle.typed_nodes.specs.Refusals.{Gives, unnamed};
ghost use Rattle.binder.specs.Limits as limits;

use std::alloc::Global;
use typed_nodes::BindFault;
use value_types::Units;

/// A column that a table has not.
pub(crate) const INVALID_COLUMN: i32 = 207;

/// A name that is no table's.
pub(crate) const INVALID_OBJECT: i32 = 208;

/// A number of values that is not the number of columns.
pub(crate) const WRONG_COUNT: i32 = 213;

/// Something outside the limits.
pub(crate) const OUTSIDE_LIMITS: i32 = 49_007;

/// The refusal whose text has this name, where there is memory to say it.
pub(crate) fn refused<A: Drop>(alloc: Global, number: i32, name: &Units) -> Result<A, BindFault>
    ensures { Gives result (Err (number, name.now)) }
{
    Err(BindFault::Number(number, name.copy(alloc)?))
}

/// The refusal whose text names nothing.
pub(crate) fn refused_unnamed<A: Drop>(alloc: Global, number: i32) -> Result<A, BindFault>
    ensures { Gives result (unnamed number) }
{
    Err(BindFault::Number(number, Units::new(alloc)))
}

/// What is made, unless something is outside a limit.
pub(crate) fn within_limits<A: Drop>(alloc: Global, beyond: bool, made: A) -> Result<A, BindFault>
    ensures { Gives result (limits.within_limits beyond made) }
{
    if beyond {
        refused_unnamed(alloc, OUTSIDE_LIMITS)
    } else {
        Ok(made)
    }
}
