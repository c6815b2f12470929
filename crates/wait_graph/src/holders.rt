//! Edges in lists by the session that stands in the way.

ghost use Rattle.std.specs.Prelude.{◌≡◌, ◌↔◌, ◌%◌, ◌<◌, ℕ, [], length, replicate, IsTrue, IfOk};
ghost use Rattle.step_model.specs.Cycles.{Conflicts};
ghost use Rattle.wait_graph.specs.Lists.{AreListed, shown, lists};

use lock_modes::agree;
use std::alloc::Global;
use step_model::Edge;
use value_types::Memory;

/// How many lists there are: as many as sessions, so that each session has one of its own.
const LISTS: u32 = 64;

/// The edges that conflict, each in the list of the session that stands in the way.
pub(crate) fn by_holder<'a>(alloc: Global, edges: &'a [Edge]) -> Result<Vec<Vec<&'a Edge>>, Memory>
    ensures { IfOk result (λ made. AreListed edges.now (shown made.items)) }
{
    let mut made = empty_lists(alloc)?;
    for edge in edges {
        if conflicts(edge) {
            made[list_of(edge.holder)].push(edge)?;
        }
    }
    Ok(made)
}

/// The place of a session's list.
pub(crate) fn list_of(session: u32) -> usize
    ensures at { result ≡ session % lists }
    ensures within { result < lists }
{
    (session % LISTS) as usize
}

fn empty_lists<'a>(alloc: Global) -> Result<Vec<Vec<&'a Edge>>, Memory>
    ensures { IfOk result (λ made. shown made.items ≡ replicate lists []) }
{
    let mut made = Vec::new(alloc);
    for _ in 0..LISTS {
        made.push(Vec::new(alloc))?;
    }
    Ok(made)
}

/// Whether another session holds what does not agree with what is asked.
fn conflicts(edge: &Edge) -> bool
    ensures { IsTrue result ↔ Conflicts edge.now }
{
    edge.waiter != edge.holder && !agree(edge.held, edge.asked)
}
