//! The edges by which sessions wait for one session, directly or behind others.

ghost use Rattle.std.specs.Prelude.{◌≡◌, ◌<◌, List, [], length, OnOk, IfOk};
ghost use Rattle.step_model.specs.Cycles.{Conflicts};
ghost use Rattle.wait_graph.specs.Lists.{AreAmong};
ghost use Rattle.wait_graph.specs.Trails.{IsBehind, IsTrail, Grows, HasWaiters, with_step, waiter_at, back_from};
ghost use Rattle.wait_graph.specs.Lists.{AreListed, shown};
ghost use Rattle.step_model.specs.declared.edge.Edge.{Edge};

use crate::holders::list_of;
use std::alloc::Global;
use std::collections::BTreeSet;
use std::marker::Model;
use step_model::Edge;
use value_types::Memory;

/// Sessions that wait for one session, directly or behind others: of each the edge by which it does.
#[derive(Drop)]
pub(crate) struct Trail<'a> {
    session: u32,
    steps: Vec<&'a Edge>,
    waiters: BTreeSet<u32>,
    alloc: Global,
}

impl<'a> Model for Trail<'a> {
    ghost use Rattle.std.specs.Prelude.{◌≡◌, ℕ, map, reverse};
    ghost use Rattle.std.specs.Ordering.{nat_cmp};
    ghost use Rattle.std.specs.BTreeSet as tree;
    ghost use Rattle.step_model.specs.Cycles.{is_waiter};
    ghost use Rattle.wait_graph.specs.Trails.{Trail as OfSession, IsTrail};

    ghost Value = { OfSession };

    ghost view = { λ trail. record { session = trail.session; edges = reverse (map (λ step. step.now) trail.steps.items) } };

    ghost invariant = { λ trail. IsTrail trail.session (reverse (map (λ step. step.now) trail.steps.items)) × ((who : ℕ) → tree.contains nat_cmp trail.waiters who ≡ is_waiter who (reverse (map (λ step. step.now) trail.steps.items))) };
}

impl<'a> Trail<'a> {
    /// No session waits.
    pub(crate) fn new(alloc: Global, session: u32) -> Trail<'a>
        ensures session { result.session ≡ session }
        ensures edges { result.edges ≡ [] }
    {
        Trail {
            session,
            steps: Vec::new(alloc),
            waiters: BTreeSet::new(alloc),
            alloc,
        }
    }

    /// How many sessions wait.
    pub(crate) fn len(&self) -> usize
        ensures count { result ≡ length self.now.edges }
        ensures trail { IsTrail self.now.session self.now.edges }
    {
        self.steps.len()
    }

    /// The session that was found at a place.
    pub(crate) fn waiter(&self, place: usize) -> u32
        requires { place < length self.now.edges }
        ensures { result ≡ waiter_at place self.now.edges }
    {
        self.steps[place].waiter
    }

    /// Adds an edge, unless its waiter is known to wait.
    pub(crate) fn add(&mut self, edge: &'a Edge) -> Result<(), Memory>
        requires conflicts { Conflicts edge.now }
        requires behind { IsBehind edge.now.holder self.old }
        ensures { OnOk result (self.new ≡ with_step edge.now self.old) }
    {
        if !self.waiters.contains(&edge.waiter) {
            self.steps.reserve(1)?;
            self.waiters.insert(edge.waiter)?;
            self.steps.push(edge)?;
        }
        Ok(())
    }

    /// Adds the edges of all that wait for a session, each in the list of those that it stands in the way.
    pub(crate) fn follow(&mut self, waiting: &[Vec<&'a Edge>], holder: u32) -> Result<(), Memory>
        requires listed { (all : List Edge) × AreListed all (shown waiting.now) }
        requires behind { IsBehind holder self.old }
        ensures grows { OnOk result (Grows self.old self.new) }
        ensures among { OnOk result ((all : List Edge) → AreListed all (shown waiting.now) → AreAmong self.old.edges all → AreAmong self.new.edges all) }
        ensures waiters { OnOk result ((all : List Edge) → AreListed all (shown waiting.now) → HasWaiters all holder self.new.edges) }
    {
        for edge in &waiting[list_of(holder)] {
            if edge.holder == holder {
                self.add(edge)?;
            }
        }
        Ok(())
    }

    /// The edges from the session's on, each the one of the session that stood in the way of the last.
    pub(crate) fn back(&self) -> Result<Vec<Edge>, Memory>
        ensures back { IfOk result (λ edges. edges.items ≡ back_from self.now.session self.now.edges) }
    {
        let mut edges = Vec::new(self.alloc);
        let mut wanted = self.session;
        for step in self.steps.iter().rev() {
            if step.waiter == wanted {
                wanted = step.holder;
                edges.push(step.copy(self.alloc)?)?;
            }
        }
        Ok(edges)
    }
}
