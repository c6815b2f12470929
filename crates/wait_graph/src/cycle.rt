//! Cycles through a session.

ghost use Rattle.std.specs.Prelude.{◌≡◌, ◌≢◌, [], Contains, Ok, None, IfOk, IfSome};
ghost use Rattle.step_model.specs.Cycles.{IsCycleAt, HasNoCycle};

use crate::holders::by_holder;
use crate::trail::Trail;
use std::alloc::Global;
use step_model::Edge;
use value_types::Memory;

/// A cycle of the edges that begins with the session's edge, or `None` exactly where no cycle of them goes
/// through the session. Of several it gives any.
pub fn cycle_through(
    alloc: Global,
    edges: &[Edge],
    session: u32,
) -> Result<Option<Vec<Edge>>, Memory>
    ensures found { IfOk result (λ found. IfSome found (λ cycle. IsCycleAt (Contains edges.now) session cycle.items)) }
    ensures none { result ≡ Ok None → HasNoCycle (Contains edges.now) session }
{
    let waiting = by_holder(alloc, edges)?;
    let mut trail = Trail::new(alloc, session);
    trail.follow(&waiting, session)?;
    let mut next = 0;
    while next < trail.len() {
        let holder = trail.waiter(next);
        trail.follow(&waiting, holder)?;
        next += 1;
    }
    let back = trail.back()?;
    Ok(if_any(back))
}

/// The edges, if there are any.
fn if_any(edges: Vec<Edge>) -> Option<Vec<Edge>>
    ensures none { result ≡ None → edges.items ≡ [] }
    ensures some { IfSome result (λ kept. (kept.items ≡ edges.items) × (edges.items ≢ [])) }
{
    if edges.is_empty() { None } else { Some(edges) }
}
