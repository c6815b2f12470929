//! Refusals.

ghost use Rattle.std.specs.Prelude.{◌≡◌, Err};
ghost use Rattle.typed_nodes.specs.Refusals.{Gives, unnamed};

use std::alloc::Global;
use typed_nodes::BindFault;
use value_types::Units;

/// A column that no table has.
pub(crate) const INVALID_COLUMN: i32 = 207;

/// A column that more than one table has.
pub(crate) const AMBIGUOUS_COLUMN: i32 = 209;

/// A variable that is not declared.
pub(crate) const UNDECLARED_VARIABLE: i32 = 137;

/// An aggregate where none may stand.
pub(crate) const SYNTAX_ERROR: i32 = 102;

/// More or fewer items than one in an inner query that stands as a value.
pub(crate) const SEVERAL_ITEMS: i32 = 116;

/// A column that is neither aggregated nor grouped.
pub(crate) const NOT_GROUPED: i32 = 8_120;

/// An operand whose type is not allowed.
pub(crate) const OPERAND_NOT_ALLOWED: i32 = 49_008;

/// The refusal whose text has this name, where there is memory to say it.
pub(crate) fn refused<A: Drop>(alloc: Global, number: i32, name: &Units) -> Result<A, BindFault>
    ensures { Gives result (Err (number, name.now)) }
{
    Err(BindFault::Number(number, name.copy(alloc)?))
}

/// The refusal whose text names nothing.
pub(crate) fn refused_unnamed<A: Drop>(alloc: Global, number: i32) -> Result<A, BindFault>
    ensures { Gives result (unnamed number) }
{
    Err(BindFault::Number(number, Units::new(alloc)))
}
