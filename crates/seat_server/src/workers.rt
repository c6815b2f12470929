//! All workers of a hall, each on a thread.

ghost use Rattle.std.specs.Prelude.{◌≡◌, ◌+◌, ◌^◌, ◌<◌, ◌≤◌, false, [], ◌++◌, length, reverse, IfOk, IfSome, IsTrue, OnErr};
ghost use Rattle.std.specs.Vec.{vec_capacity};
ghost use Rattle.std.specs.List.{All, AllZip};
ghost use Rattle.shared_port.specs.SharedPort.{IsIdle};
ghost use Rattle.outside_io.specs.Doors.{has_failed, one_if};
ghost use Rattle.seat_server.specs.Posts.{AreBack, AreHired, Begins, IsNewDoor, IsUnmoved, SomeMayClose, TakesAll, Works, count_after, no_tally, seats_of, tally_after, with_seat};
ghost use Rattle.seat_server.specs.Workers.{AllWorked, RisesBy, Tallied, numbers_of, share_of as dealt};

use crate::tally::Tally;
use crate::worker::{Outcome, Worker};
use engine_core::Engine;
use outside_io::{Door, Hall};
use shared_port::Bell;
use std::alloc::Global;
use std::marker::Send;
use std::sync::Wait;
use std::thread::{self, Threads};
use tds_login::Config;
use turn_desk::{Desk, Seat};
use value_types::Memory;

/// How many workers there may be at most.
const MOST_WORKERS: usize = 64;

/// Serves the connections of a hall: each seat gets a door and a worker, which accepts, serves and finishes connections one
/// after another, beside the others. It gives the seats back in their order, and how much was done ([`Tally`]).
///
/// Where rounds are given, none of W workers serves more than its share of them, `rounds / W` and one more of the first `rounds % W`, and
/// just as many of them are short of it as have a door that failed or closed. Without rounds each worker goes on until its door has
/// failed or closed. Where memory is wanting for the doors or the list of workers, which are made first, no worker begins. That workers
/// run at once no clause says.
pub fn serve_workers<H: Hall, R: Threads + Wait + Sync>(
    alloc: Global,
    rt: &R,
    desk: &Desk<Engine>,
    bell: &Bell,
    mut seats: Vec<Seat<Engine>>,
    config: &Config,
    hall: &mut H,
    rounds: Option<u32>,
) -> (Vec<Seat<Engine>>, Tally)
    requires some { 0 < length seats.items }
    requires few { length seats.items ≤ 64 }
    requires desk { All (λ s. s.desk ≡ desk.now.desk) seats.items }
    requires idle { All IsIdle seats.items }

    // What each seat served, of its share, and what the hall tells of its connections.
    ensures worked { AllWorked H.Door.Line.left H.Door.Line.given H.Door.Line.Source.faults H.Door.Line.written H.Door.Line.Sink.faults
        config.now rounds seats.items result.0.items (H.told hall.old) (H.told hall.new) result.1 }

    // How much was done.
    ensures tallied { Tallied rounds (length seats.items) (numbers_of H.faults H.finished H.failed H.closed H.made H.back H.begun H.at_port hall.old)
        (numbers_of H.faults H.finished H.failed H.closed H.made H.back H.begun H.at_port hall.new) result.1 }

    // The hall has not begun anew.
    ensures begun { (H.begun hall.new ≡ H.begun hall.old) × (H.at_port hall.new ≡ H.at_port hall.old) }

    // Doors are counted as closed only where there is one that may close.
    ensures may_close { 0 < result.1.closed → (door : H.Door) × IsTrue (H.Door.may_close door) }
    ensures room { vec_capacity result.0 ≡ vec_capacity seats }
{
    law_rounds(rounds);
    let Ok(doors) = open_doors(alloc, hall, seats.len()) else {
        return (seats, Tally::without_memory());
    };
    let Ok(mut workers) = Vec::with_capacity(alloc, seats.len()) else {
        shut_doors(hall, doors);
        return (seats, Tally::without_memory());
    };
    hire(&mut seats, doors, rounds, &mut workers);
    serve_at_once(alloc, rt, desk, bell, config, &mut workers);
    let tally = dismiss(workers, hall, &mut seats);
    (seats, tally)
}

/// Makes a door for each of so many workers. Where memory is wanting for one, those that were made go back.
fn open_doors<H: Hall>(alloc: Global, hall: &mut H, many: usize) -> Result<Vec<H::Door>, Memory>
    ensures many { IfOk result (λ doors. length doors.items ≡ many) }
    ensures new { IfOk result (λ doors. All (IsNewDoor H.Door.faults H.Door.is_out H.Door.has_closed H.Door.finished H.Door.told) doors.items) }
    ensures unmoved { IsUnmoved H.faults H.finished H.failed H.closed H.told hall.old hall.new }
    ensures faults { IfOk result (λ _. H.faults hall.new ≡ H.faults hall.old) }
    ensures made { IfOk result (λ _. RisesBy (H.made hall.old) (H.made hall.new) many) }
    ensures away { IfOk result (λ _. H.back hall.new ≡ H.back hall.old) }
    ensures begun { (H.begun hall.new ≡ H.begun hall.old) × (H.at_port hall.new ≡ H.at_port hall.old) }
    ensures none { OnErr result (AreBack (H.made hall.old) (H.made hall.new) (H.back hall.old) (H.back hall.new)) }
{
    let mut doors = Vec::with_capacity(alloc, many)?;
    for _made in 0..many {
        match hall.door() {
            Ok(door) => doors.push_reserved(door),
            Err(Memory) => {
                shut_doors(hall, doors);
                return Err(Memory);
            }
        }
    }
    Ok(doors)
}

/// Gives doors back at which no connection came in.
fn shut_doors<H: Hall>(hall: &mut H, mut doors: Vec<H::Door>)
    requires new { All (IsNewDoor H.Door.faults H.Door.is_out H.Door.has_closed H.Door.finished H.Door.told) doors.items }
    ensures unmoved { IsUnmoved H.faults H.finished H.failed H.closed H.told hall.old hall.new }
    ensures made { H.made hall.new ≡ H.made hall.old }
    ensures back { RisesBy (H.back hall.old) (H.back hall.new) (length doors.items) }
    ensures begun { (H.begun hall.new ≡ H.begun hall.old) × (H.at_port hall.new ≡ H.at_port hall.old) }
{
    while let Some(door) = doors.pop() {
        hall.rejoin(door);
    }
}

/// How many connections the worker at this place serves at most.
fn share_of(rounds: Option<u32>, many: u32, at: u32) -> Option<u32>
    requires { 0 < many }
    ensures { result ≡ dealt rounds many at }
{
    let rounds = rounds?;
    Some(rounds / many + u32::from(at < rounds % many))
}

/// Rounds are fewer than 2^32. A function with no effect, whose contract is the fact.
fn law_rounds(rounds: Option<u32>)
    ensures { IfSome rounds (λ all. all < 2 ^ 32) }
{
    let Some(_all) = rounds else {
        return;
    };
}

/// A worker for each seat and door, the last seat's first.
fn hire<D: Door + Drop>(
    seats: &mut Vec<Seat<Engine>>,
    mut doors: Vec<D>,
    rounds: Option<u32>,
    workers: &mut Vec<Worker<D>>,
)
    requires many { length doors.items ≡ length seats.old.items }
    requires few { length seats.old.items ≤ 64 }
    requires new { All (IsNewDoor D.faults D.is_out D.has_closed D.finished D.told) doors.items }
    requires room { (workers.old.items ≡ []) × (length seats.old.items ≤ vec_capacity workers.old) }
    ensures hired { AreHired D.faults D.is_out D.has_closed D.finished D.told rounds (length seats.old.items) 0 seats.old.items (reverse workers.new.items) }
    ensures left { seats.new.items ≡ [] }
    ensures capacity { vec_capacity seats.new ≡ vec_capacity seats.old }
{
    let many = seats.len() as u32;
    while let Some(door) = doors.pop() {
        let seat = seats.take_last();
        let share = share_of(rounds, many, seats.len() as u32);
        workers.push_reserved(Worker::new(seat, door, share));
    }
}

/// All workers serve, each on a thread.
fn serve_at_once<D: Door + Send + Drop, R: Threads + Wait + Sync>(
    alloc: Global,
    rt: &R,
    desk: &Desk<Engine>,
    bell: &Bell,
    config: &Config,
    workers: &mut Vec<Worker<D>>,
)
    requires begin { All (Begins D.faults D.is_out D.has_closed desk.now.desk) workers.old.items }
    ensures { AllZip (Works D.faults D.is_out D.has_closed D.Line.left D.Line.given D.Line.Source.faults D.Line.written D.Line.Sink.faults D.finished D.told
        config.now desk.now.desk (SomeMayClose D.may_close)) workers.old.items workers.new.items }
{
    thread::for_each_mut(
        rt,
        workers.as_mut_slice(),
        MOST_WORKERS,
        &|_, worker: &mut Worker<D>|
            requires { Begins D.faults D.is_out D.has_closed desk.now.desk worker.old }
            ensures { Works D.faults D.is_out D.has_closed D.Line.left D.Line.given D.Line.Source.faults D.Line.written D.Line.Sink.faults D.finished D.told
                config.entry.now desk.entry.now.desk (SomeMayClose D.may_close) worker.old worker.new }
        { worker.serve_all(alloc, rt, desk, bell, config) },
    );
}

/// Counts what the workers have done, the first seat's first, and gives their doors and their seats back.
fn dismiss<H: Hall>(
    mut workers: Vec<Worker<H::Door>>,
    hall: &mut H,
    seats: &mut Vec<Seat<Engine>>,
) -> Tally
    requires home { All (λ worker. H.Door.is_out worker.door ≡ false) workers.items }
    requires room { length seats.old.items + length workers.items ≤ vec_capacity seats.old }
    ensures tally { result ≡ tally_after no_tally (reverse workers.items) }
    ensures seats { seats.new.items ≡ seats.old.items ++ seats_of (reverse workers.items) }
    ensures capacity { vec_capacity seats.new ≡ vec_capacity seats.old }
    ensures faults { H.faults hall.new ≡ count_after H.Door.faults (H.faults hall.old) (reverse workers.items) }
    ensures finished { H.finished hall.new ≡ count_after H.Door.finished (H.finished hall.old) (reverse workers.items) }
    ensures failed { H.failed hall.new ≡ count_after (λ door. one_if (has_failed (H.Door.faults door))) (H.failed hall.old) (reverse workers.items) }
    ensures closed { H.closed hall.new ≡ count_after (λ door. one_if (H.Door.has_closed door)) (H.closed hall.old) (reverse workers.items) }
    ensures made { H.made hall.new ≡ H.made hall.old }
    ensures back { H.back hall.new ≡ count_after (λ door. 1) (H.back hall.old) (reverse workers.items) }
    ensures begun { (H.begun hall.new ≡ H.begun hall.old) × (H.at_port hall.new ≡ H.at_port hall.old) }
    ensures told { TakesAll H.Door.told (H.told hall.old) (reverse workers.items) (H.told hall.new) }
{
    let mut tally = Tally::default();
    while let Some(worker) = workers.pop() {
        let Worker {
            seat,
            door,
            share: _,
            served,
            starved,
            outcome,
        } = worker;
        tally.count(served, starved, outcome);
        hall.rejoin(door);
        give_back(seats, seat);
    }
    tally
}

/// Puts a seat that is there behind the others.
fn give_back(seats: &mut Vec<Seat<Engine>>, seat: Option<Seat<Engine>>)
    requires room { length seats.old.items < vec_capacity seats.old }
    ensures seats { seats.new.items ≡ seats.old.items ++ with_seat seat [] }
    ensures capacity { vec_capacity seats.new ≡ vec_capacity seats.old }
{
    if let Some(seat) = seat {
        seats.push_reserved(seat);
    }
}
