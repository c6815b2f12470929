//! That the definition of the order is what the reference says of it.

ghost use Rattle.std.specs.Prelude.{Bool, List, IsSorted};
ghost use Rattle.std.specs.List.Sorted.{IsStable};
ghost use Rattle.value_types.specs.declared.value.Value.{Value as SqlValue};
ghost use Rattle.group_rows.specs.Ordered.{by_key, in_order};

/// Keys with their rows, put in order, are in the order of the keys, and those whose keys tie stand as they
/// stood.
pub fn law_in_order()
    ensures sorted { (downs : List Bool) (pairs : List (List SqlValue × List SqlValue))
        → IsSorted (by_key downs) (in_order (by_key downs) pairs) }
    ensures stable { (downs : List Bool) (pairs : List (List SqlValue × List SqlValue))
        → IsStable (by_key downs) pairs (in_order (by_key downs) pairs) }
{}
