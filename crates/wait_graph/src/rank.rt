//! Who of a cycle falls.

ghost use Rattle.std.specs.Prelude.{◌≡◌, ◌≢◌, ◌↔◌, [], IsTrue};
ghost use Rattle.step_model.specs.Victims.{rank_of, HaveRanks, FallsBefore, IsVictim};

use step_model::{Edge, Rank};

/// The waiter of a cycle that falls: that of the lowest priority, of several that of the lowest cost, and of
/// several that with the greatest number.
pub fn victim(cycle: &[Edge], ranks: &[Rank]) -> u32
    requires some { cycle.now ≢ [] }
    requires ranked { HaveRanks cycle.now ranks.now }
    ensures { IsVictim cycle.now ranks.now result }
{
    let mut first = rank_of(cycle[0].waiter, ranks).unwrap();
    for edge in cycle {
        let rank = rank_of(edge.waiter, ranks).unwrap();
        if falls_before(&rank, &first) {
            first = rank;
        }
    }
    first.session
}

/// The rank of a session, if it has one.
fn rank_of(session: u32, ranks: &[Rank]) -> Option<Rank>
    ensures { result ≡ rank_of session ranks.now }
{
    for rank in ranks {
        if rank.session == session {
            return Some(*rank);
        }
    }
    None
}

/// Whether one falls before another.
fn falls_before(one: &Rank, other: &Rank) -> bool
    ensures { IsTrue result ↔ FallsBefore one.now other.now }
{
    if one.priority != other.priority {
        one.priority < other.priority
    } else if one.cost != other.cost {
        one.cost < other.cost
    } else {
        one.session > other.session
    }
}
