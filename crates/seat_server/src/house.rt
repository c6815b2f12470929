//! A desk of the engine with all its seats.

ghost use Rattle.std.specs.Prelude.{◌≡◌, ◌≢◌, ℕ, ◌+◌, ◌≤◌, ◌<◌, [], ◌++◌, IfOk, IsTrue, length, take, drop, reverse};
ghost use Rattle.std.specs.Vec.{vec_capacity};
ghost use Rattle.std.specs.List.{All};
ghost use Rattle.step_model.specs.Log.{State};
ghost use Rattle.history_laws.specs.Knows.{Knows};
ghost use Rattle.connection_laws.specs.Laws.{Intact, Sound};
ghost use Rattle.outside_io.specs.Bytes.{Takes};
ghost use Rattle.session_server.specs.Conversation.{Completes, CountsFault};
ghost use Rattle.seat_server.specs.Served.{ServedConnection};
ghost use Rattle.seat_server.specs.Workers.{AllWorked, Tallied, numbers_of};
ghost use Rattle.seat_server.specs.House.{AreHosted, IsFull, KnowsSeat, SameNumbers, ServesFirst};

use crate::connection::serve_connection;
use crate::tally::Tally;
use crate::workers::serve_workers;
use engine_core::Engine;
use outside_io::{Hall, Line};
use session_server::End;
use shared_port::Bell;
use std::alloc::Global;
use std::marker::Model;
use std::mem;
use std::sync::Wait;
use std::thread::Threads;
use tds_login::Config;
use turn_desk::{Desk, Seat};
use value_types::Memory;

/// A desk over an engine, the bell of those who wait at it, and its seats. All that these have done were connections. In a
/// clause it is its desk and the list of its seats.
#[derive(Drop)]
pub struct House {
    desk: Desk<Engine>,
    bell: Bell,
    seats: Vec<Seat<Engine>>,
}

impl Model for House {
    ghost use Rattle.std.specs.Prelude.{◌≡◌, []};
    ghost use Rattle.seat_server.specs.House.{AreHosted, HouseState};

    ghost Value = { HouseState };

    ghost view = { λ house. record { desk = house.desk; seats = house.seats.items } };

    ghost invariant = { λ house. (house.desk.base ≡ []) × AreHosted house.desk.desk house.seats.items };
}

impl House {
    /// A house with so many seats, over an engine before any step.
    pub fn open(alloc: Global, seats: u32) -> Result<House, Memory>
        requires seats { (1 ≤ seats) × (seats ≤ 64) }
        ensures full { IfOk result (IsFull seats) }
        ensures new { IfOk result (λ house. All (λ s. (s.steps ≡ []) × (s.log ≡ [])) house.seats) }
    {
        let (desk, seats) = Desk::start(alloc, Engine::new(alloc), seats)?;
        Ok(House {
            desk,
            bell: Bell::new(),
            seats,
        })
    }

    /// Ends the house, which holds all seats of its desk, and gives the engine. That knows the steps of every seat, and of every
    /// other number that it has made none; each seat's log is a front of its own. Every database that the first commits of its log
    /// leave is sound.
    pub fn close(self) -> Engine
        requires all { length self.seats ≡ self.desk.seats }
        ensures seats { All (KnowsSeat result) self.seats }
        ensures others { (number : ℕ) → All (λ s. s.number ≢ number) self.seats → Knows result number [] }
        ensures sound { (place : ℕ) → Sound (State (take place result.log)) }
        ensures intact { (place : ℕ) → Intact (State (take place result.log)) }
    {
        let House {
            desk,
            bell: _,
            seats,
        } = self;
        desk.close(seats)
    }

    /// Serves one connection by the first seat, as [`serve_connection`] does.
    pub fn serve_first<L: Line, R: Wait>(
        &mut self,
        alloc: Global,
        rt: &R,
        config: &Config,
        line: &mut L,
    ) -> End
        requires some { 0 < length self.old.seats }
        ensures served { ServesFirst (λ old new. ServedConnection config.now (Takes L.left L.given line.old line.new) (L.left line.new)
            (L.written line.old) (L.written line.new) old new result) self.old.seats self.new.seats }
        ensures desk { self.new.desk ≡ self.old.desk }
        ensures full { (many : ℕ) → IsFull many self.old → IsFull many self.new }
        ensures reads { CountsFault (L.Source.faults line.old) (L.Source.faults line.new) (result ≡ End.ReadFault) }
        ensures writes { CountsFault (L.Sink.faults line.old) (L.Sink.faults line.new) (result ≡ End.WriteFault) }
        ensures held { L.held line.new ≡ L.held line.old }
        ensures complete { result ≢ End.ReadFault → result ≢ End.WriteFault → Completes config.now (L.left line.old) result }
    {
        serve_by_first(
            alloc,
            rt,
            &self.desk,
            &self.bell,
            &mut self.seats,
            config,
            line,
        )
    }

    /// Serves the connections of a hall by the first seats, so many, as [`serve_workers`] does.
    pub fn serve_hall<H: Hall, R: Threads + Wait + Sync>(
        &mut self,
        alloc: Global,
        rt: &R,
        workers: u32,
        config: &Config,
        hall: &mut H,
        rounds: Option<u32>,
    ) -> Tally
        requires some { 1 ≤ workers }
        requires few { workers ≤ length self.old.seats }
        ensures worked { AllWorked H.Door.Line.left H.Door.Line.given H.Door.Line.Source.faults H.Door.Line.written H.Door.Line.Sink.faults
            config.now rounds (take workers self.old.seats) (take workers self.new.seats) (H.told hall.old) (H.told hall.new) result }
        ensures others { drop workers self.new.seats ≡ drop workers self.old.seats }
        ensures desk { self.new.desk ≡ self.old.desk }
        ensures full { (many : ℕ) → IsFull many self.old → IsFull many self.new }
        ensures tallied { Tallied rounds workers (numbers_of H.faults H.finished H.failed H.closed H.made H.back H.begun H.at_port hall.old)
            (numbers_of H.faults H.finished H.failed H.closed H.made H.back H.begun H.at_port hall.new) result }
        ensures begun { (H.begun hall.new ≡ H.begun hall.old) × (H.at_port hall.new ≡ H.at_port hall.old) }
        ensures may_close { 0 < result.closed → (door : H.Door) × IsTrue (H.Door.may_close door) }
    {
        serve_by_many(
            alloc,
            rt,
            &self.desk,
            &self.bell,
            &mut self.seats,
            workers,
            config,
            hall,
            rounds,
        )
    }
}

/// Serves one connection by the first of these seats, which goes to its end and comes back to the front.
fn serve_by_first<L: Line, R: Wait>(
    alloc: Global,
    rt: &R,
    desk: &Desk<Engine>,
    bell: &Bell,
    seats: &mut Vec<Seat<Engine>>,
    config: &Config,
    line: &mut L,
) -> End
    requires some { 0 < length seats.old.items }
    requires hosted { AreHosted desk.now.desk seats.old.items }
    ensures served { ServesFirst (λ old new. ServedConnection config.now (Takes L.left L.given line.old line.new) (L.left line.new)
        (L.written line.old) (L.written line.new) old new result) seats.old.items seats.new.items }
    ensures hosted { AreHosted desk.now.desk seats.new.items }
    ensures numbers { SameNumbers seats.old.items seats.new.items }
    ensures reads { CountsFault (L.Source.faults line.old) (L.Source.faults line.new) (result ≡ End.ReadFault) }
    ensures writes { CountsFault (L.Sink.faults line.old) (L.Sink.faults line.new) (result ≡ End.WriteFault) }
    ensures held { L.held line.new ≡ L.held line.old }
    ensures complete { result ≢ End.ReadFault → result ≢ End.WriteFault → Completes config.now (L.left line.old) result }
{
    let seat = seats.remove(0);
    let (seat, end) = serve_connection(alloc, rt, desk, bell, seat, config, line);
    seats.push_reserved(seat);
    seats.as_mut_slice().rotate_right(1);
    end
}

/// Serves a hall by the first of these seats, so many; the others stand aside meanwhile.
fn serve_by_many<H: Hall, R: Threads + Wait + Sync>(
    alloc: Global,
    rt: &R,
    desk: &Desk<Engine>,
    bell: &Bell,
    seats: &mut Vec<Seat<Engine>>,
    workers: u32,
    config: &Config,
    hall: &mut H,
    rounds: Option<u32>,
) -> Tally
    requires some { 1 ≤ workers }
    requires few { workers ≤ length seats.old.items }
    requires hosted { AreHosted desk.now.desk seats.old.items }
    ensures worked { AllWorked H.Door.Line.left H.Door.Line.given H.Door.Line.Source.faults H.Door.Line.written H.Door.Line.Sink.faults
        config.now rounds (take workers seats.old.items) (take workers seats.new.items) (H.told hall.old) (H.told hall.new) result }
    ensures others { drop workers seats.new.items ≡ drop workers seats.old.items }
    ensures hosted { AreHosted desk.now.desk seats.new.items }
    ensures numbers { SameNumbers seats.old.items seats.new.items }
    ensures tallied { Tallied rounds workers (numbers_of H.faults H.finished H.failed H.closed H.made H.back H.begun H.at_port hall.old)
        (numbers_of H.faults H.finished H.failed H.closed H.made H.back H.begun H.at_port hall.new) result }
    ensures begun { (H.begun hall.new ≡ H.begun hall.old) × (H.at_port hall.new ≡ H.at_port hall.old) }
    ensures may_close { 0 < result.closed → (door : H.Door) × IsTrue (H.Door.may_close door) }
{
    let Ok(mut others) = Vec::with_capacity(alloc, seats.len() - workers as usize) else {
        return Tally::without_memory();
    };
    stand_aside(seats, workers as usize, &mut others);
    let first = mem::replace(seats, Vec::new(alloc));
    let (first, tally) = serve_workers(alloc, rt, desk, bell, first, config, hall, rounds);
    *seats = first;
    stand_back(seats, others);
    tally
}

/// The seats behind the first, so many, go to `others`, the last one first.
fn stand_aside(seats: &mut Vec<Seat<Engine>>, many: usize, others: &mut Vec<Seat<Engine>>)
    requires many { many ≤ length seats.old.items }
    requires room { (others.old.items ≡ []) × (length seats.old.items ≤ vec_capacity others.old + many) }
    ensures first { seats.new.items ≡ take many seats.old.items }
    ensures others { reverse others.new.items ≡ drop many seats.old.items }
    ensures capacity { vec_capacity seats.new ≡ vec_capacity seats.old }
{
    while seats.len() > many {
        others.push_reserved(seats.take_last());
    }
}

/// And come back.
fn stand_back(seats: &mut Vec<Seat<Engine>>, mut others: Vec<Seat<Engine>>)
    requires room { length seats.old.items + length others.items ≤ vec_capacity seats.old }
    ensures { seats.new.items ≡ seats.old.items ++ reverse others.items }
{
    while let Some(seat) = others.pop() {
        seats.push_reserved(seat);
    }
}
