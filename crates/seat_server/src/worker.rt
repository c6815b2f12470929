//! One worker: a seat of the desk, and a door where its connections come in.

ghost use Rattle.std.specs.Prelude.{◌≡◌, ◌≢◌, ◌-◌, ◌^◌, ◌<◌, true, false, Some, IfSome};
ghost use Rattle.shared_port.specs.Asked.{EngineSeat};
ghost use Rattle.shared_port.specs.SharedPort.{IsIdle};
ghost use Rattle.seat_server.specs.Workers.{is_memory};
ghost use Rattle.seat_server.specs.Posts.{Begins, HasPost, IsFresh, IsPosted, Serves, SomeMayClose, WorkedNone, WorkedOne, Works, count_up, is_served, one_more};

use crate::connection::serve_connection;
use engine_core::Engine;
use outside_io::Door;
use session_server::End;
use shared_port::Bell;
use std::alloc::Global;
use std::sync::Wait;
use tds_login::Config;
use turn_desk::{Desk, Seat};

/// How a worker stands by its door.
#[derive(Clone, Copy, Debug, PartialEq, Eq)]
pub enum Outcome {
    /// The door has neither failed nor closed.
    Going,
    /// The door has failed.
    Failed,
    /// The door has answered that no connection will come any more.
    Closed,
}

/// A worker: its seat, its door, how many connections it is to serve at most, and how many it has served.
#[derive(Drop)]
pub struct Worker<D: Drop> {
    pub seat: Option<Seat<Engine>>,
    pub door: D,
    pub share: Option<u32>,
    pub served: u64,
    pub starved: u64,
    pub outcome: Outcome,
}

impl<D: Door + Drop> Worker<D> {
    /// A worker before its first connection.
    pub fn new(seat: Seat<Engine>, door: D, share: Option<u32>) -> Worker<D>
        ensures { result ≡ record { seat = Some seat; door = door; share = share; served = 0; starved = 0; outcome = Outcome.Going } }
    {
        Worker {
            seat: Some(seat),
            door,
            share,
            served: 0,
            starved: 0,
            outcome: Outcome::Going,
        }
    }

    /// Serves its share of the connections, one after another, or all that come.
    pub fn serve_all<R: Wait>(
        &mut self,
        alloc: Global,
        rt: &R,
        desk: &Desk<Engine>,
        bell: &Bell,
        config: &Config,
    )
        requires begin { Begins D.faults D.is_out D.has_closed desk.now.desk self.old }
        ensures { Works D.faults D.is_out D.has_closed D.Line.left D.Line.given D.Line.Source.faults D.Line.written D.Line.Sink.faults D.finished D.told
            config.now desk.now.desk (SomeMayClose D.may_close) self.old self.new }
    {
        for _ in rt.forever() {
            if self.has_served_all() {
                return;
            }
            if !self.serve_next(alloc, rt, desk, bell, config) {
                return;
            }
        }
        unreachable!()
    }

    /// Whether it has served its share of the connections.
    fn has_served_all(&self) -> bool
        ensures served { result ≡ is_served self.now.share self.now.served }
        ensures range { IfSome self.now.share (λ share. share < 2 ^ 32) }
    {
        match self.share {
            Some(share) => u64::from(share) <= self.served,
            None => false,
        }
    }

    /// Waits for a connection at the door, and serves it. Whether one came.
    fn serve_next<R: Wait>(
        &mut self,
        alloc: Global,
        rt: &R,
        desk: &Desk<Engine>,
        bell: &Bell,
        config: &Config,
    ) -> bool
        requires post { HasPost D.faults D.is_out D.has_closed desk.now.desk self.old }
        requires going { self.old.outcome ≡ Outcome.Going }
        ensures closes { self.new.outcome ≡ Outcome.Closed → SomeMayClose D.may_close }
        ensures none { result ≡ false → (self.new.outcome ≢ Outcome.Going)
            × ((seat : EngineSeat) → IsPosted D.faults D.is_out D.has_closed desk.now.desk seat self.old
            → WorkedNone D.faults D.is_out D.has_closed D.Line.left D.Line.given D.Line.Source.faults D.Line.written D.Line.Sink.faults D.finished D.told
            config.now desk.now.desk seat self.old self.new) }
        ensures one { result ≡ true → (self.new.outcome ≡ Outcome.Going)
            × ((seat : EngineSeat) → IsPosted D.faults D.is_out D.has_closed desk.now.desk seat self.old
            → WorkedOne D.faults D.is_out D.has_closed D.Line.left D.Line.given D.Line.Source.faults D.Line.written D.Line.Sink.faults D.finished D.told
            config.now desk.now.desk seat self.old self.new) }
    {
        match self.door.accept() {
            Ok(Some(line)) => {
                self.serve(alloc, rt, desk, bell, config, line);
                true
            }
            Ok(None) => {
                self.outcome = Outcome::Closed;
                false
            }
            Err(_) => {
                self.outcome = Outcome::Failed;
                false
            }
        }
    }

    /// Serves a connection that came in at the door, and gives it back to that.
    fn serve<R: Wait>(
        &mut self,
        alloc: Global,
        rt: &R,
        desk: &Desk<Engine>,
        bell: &Bell,
        config: &Config,
        mut line: D::Line,
    )
        requires seat { (seat : EngineSeat) × (self.old.seat ≡ Some seat) × (seat.desk ≡ desk.now.desk) × IsIdle seat }
        requires out { D.is_out self.old.door ≡ true }
        requires fresh { IsFresh D.Line.given D.Line.Source.faults D.Line.written D.Line.Sink.faults line (D.told self.old.door) }
        ensures { (seat : EngineSeat) → self.old.seat ≡ Some seat
            → Serves D.faults D.is_out D.has_closed D.Line.left D.Line.given D.Line.Source.faults D.Line.written D.Line.Sink.faults D.finished D.told
            config.now seat self.old self.new }
    {
        let Some(seat) = self.seat.take() else {
            unreachable!()
        };
        let (seat, end) = serve_connection(alloc, rt, desk, bell, seat, config, &mut line);
        self.seat = Some(seat);
        self.door.finish(line);
        self.count(end);
    }

    /// Counts a connection that ended so.
    fn count(&mut self, end: End)
        ensures { self.new ≡ record self.old { served = count_up self.old.served 1; starved = one_more (is_memory end) (2 ^ 64 - 1) self.old.starved } }
    {
        self.served = self.served.saturating_add(1);
        if matches!(end, End::Memory) {
            self.starved = self.starved.saturating_add(1);
        }
    }
}
