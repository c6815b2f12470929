//! Parts of a text.

ghost use Rattle.std.specs.Prelude.{◌≡◌, IfOk};
ghost use Rattle.tsql_grammar.specs.Trees as trees;

use std::alloc::Global;
use value_types::{Memory, Units};

/// The units of a text from a place to another.
pub fn slice(alloc: Global, text: &Units, from: u32, to: u32) -> Result<Units, Memory>
    ensures { IfOk result (λ part. part ≡ trees.slice text.now from to) }
{
    let units = text.as_slice();
    let first = (from as usize).min(units.len());
    let (_before, rest) = units.split_at(first);
    let size = (to.saturating_sub(from) as usize).min(rest.len());
    let (part, _behind) = rest.split_at(size);
    Ok(Units::from(Vec::from_slice(alloc, part)?))
}
