//! What a session waits for.

ghost use Rattle.std.specs.Prelude.{◌≡◌, IfOk};
ghost use Rattle.engine_core.specs.Breaking.{edge_if};

use lock_modes::{Pair, agree};
use std::alloc::Global;
use std::marker::Model;
use step_model::{Edge, Resource};
use value_types::Memory;

/// What a session waits for, and the priority with which it waits.
#[derive(Drop)]
pub(crate) struct StandingWait {
    pub(crate) on: Resource,
    pub(crate) asked: Pair,
    pub(crate) priority: i8,
}

impl Model for StandingWait {
    ghost use Rattle.step_model.specs.State.{StandingWait as Waiting};

    ghost Value = { Waiting };

    ghost view = { λ wait. record { on = wait.on; asked = wait.asked; priority = wait.priority } };
}

impl StandingWait {
    /// Where.
    pub(crate) fn on(&self) -> &Resource
        ensures { result.now ≡ self.now.on }
    {
        &self.on
    }

    /// With which priority.
    pub(crate) fn priority(&self) -> i8
        ensures { result ≡ self.now.priority }
    {
        self.priority
    }
    /// The edge to a session with this pair there, if that stands in the way of the one that waits so.
    pub(crate) fn edge(
        &self,
        alloc: Global,
        waiter: u32,
        holder: u32,
        held: Pair,
    ) -> Result<Option<Edge>, Memory>
        ensures { IfOk result (λ edge. edge ≡ edge_if waiter self.now holder held) }
    {
        if holder == waiter || agree(held, self.asked) {
            return Ok(None);
        }
        Ok(Some(Edge {
            waiter,
            asked: self.asked,
            on: self.on.copy(alloc)?,
            holder,
            held,
        }))
    }
}
