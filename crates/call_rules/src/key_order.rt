//! The order of keys.

ghost use Rattle.std.specs.Prelude.{◌≡◌, IfOk, OnOk, map};
ghost use Rattle.value_types.specs.Order.{key_cmp};
ghost use Rattle.group_rows.specs.Ordered.{in_order};
ghost use Rattle.call_rules.specs.Triggers as spec;

use std::alloc::{AllocError, Global};
use value_types::{Key, Memory, key_order};

/// What stands beside keys, in the order of the keys; where keys tie, as it stood.
pub(crate) fn in_key_order<X: Drop>(alloc: Global, pairs: Vec<(Key, X)>) -> Result<Vec<X>, Memory>
    ensures { IfOk result (λ found. found.items ≡ spec.in_key_order pairs.items) }
{
    let mut pairs = pairs;
    sort_by_key(&mut pairs)?;
    without_keys(alloc, pairs)
}

/// Puts what stands beside keys in the order of the keys.
fn sort_by_key<X: Drop>(pairs: &mut Vec<(Key, X)>) -> Result<(), AllocError>
    ensures { OnOk result (pairs.new.items ≡ in_order (λ a b. key_cmp a.0 b.0) pairs.old.items) }
{
    pairs.sort_by(|a, b| key_order(&a.0, &b.0))
}

/// What stands beside keys.
fn without_keys<X: Drop>(alloc: Global, pairs: Vec<(Key, X)>) -> Result<Vec<X>, Memory>
    ensures { IfOk result (λ found. found.items ≡ map (λ pair. pair.1) pairs.items) }
{
    Ok(pairs.into_iter().map(|pair| pair.1).collect(alloc)?)
}
