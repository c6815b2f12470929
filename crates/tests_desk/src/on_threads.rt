//! Seats on threads.

ghost use Rattle.std.specs.Prelude.{◌≡◌, ◌≤◌, IfOk, length};
ghost use Rattle.std.specs.List.{All};

use crate::in_turn::{desk_of_two, machine_of_two};
use crate::{AddReply, Adder};
use std::alloc::Global;
use std::sync::Wait;
use std::test::Fail;
use std::thread;
use std::thread::Threads;
use turn_desk::{Desk, Seat};

/// How many acts each seat makes.
const ACTS: u64 = 10_000;

/// Adds 0, 1, 2 and so on.
fn add_all<R: Wait>(rt: &R, desk: &Desk<Adder<Global>>, seat: &mut Seat<Adder<Global>>)
    requires { seat.old.desk ≡ desk.now.desk }
    ensures { seat.new.desk ≡ desk.now.desk }
{
    for call in 0..ACTS {
        desk.act(rt, seat, &call);
    }
}

/// All seats at once, each on a thread.
fn add_at_once<R: Threads + Wait + Sync>(
    rt: &R,
    desk: &Desk<Adder<Global>>,
    seats: &mut Vec<Seat<Adder<Global>>>,
)
    requires { All (λ s. s.desk ≡ desk.now.desk) seats.old.items }
    ensures { All (λ s. s.desk ≡ desk.now.desk) seats.new.items × (length seats.new.items ≡ length seats.old.items) }
{
    thread::for_each_mut(
        rt,
        seats.as_mut_slice(),
        4,
        &|_, seat: &mut Seat<Adder<Global>>|
            requires { seat.old.desk ≡ desk.now.desk }
            ensures { seat.new.desk ≡ desk.entry.now.desk }
        { add_all(rt, desk, seat) },
    );
}

/// The machine after the acts of four seats.
fn machine_of_four<R: Threads + Wait + Sync>(rt: &R, alloc: Global) -> Result<Adder<Global>, Fail> {
    let (desk, mut seats) = Desk::start(alloc, Adder::new(alloc), 4)?;
    add_at_once(rt, &desk, &mut seats);
    Ok(desk.close(seats))
}

#[test]
fn four_threads_add_each_once(rt: HostRuntime) -> Result<(), Fail> {
    let machine = machine_of_four(&rt, rt.alloc())?;
    let mut next = [0u64; 5];
    for (number, call) in machine.calls() {
        let seat = *number as usize;
        assert!(rt; 1 <= seat && seat <= 4);
        assert!(rt; *call == next[seat]);
        next[seat] = next[seat].wrapping_add(1);
    }
    assert!(rt; next == [0, ACTS, ACTS, ACTS, ACTS]);
    assert!(rt; machine.sum() == 4 * (ACTS * (ACTS - 1) / 2));
    Ok(())
}

/// One act, on whatever thread the seat is.
fn add_one<R: Wait>(
    rt: &R,
    desk: &Desk<Adder<Global>>,
    mut seat: Seat<Adder<Global>>,
    call: u64,
) -> Seat<Adder<Global>>
    requires { seat.desk ≡ desk.now.desk }
    ensures { result.desk ≡ desk.now.desk }
{
    desk.act(rt, &mut seat, &call);
    seat
}

/// Each seat goes to a thread, acts there, and comes back.
fn add_apart<R: Threads + Wait + Sync>(
    rt: &R,
    desk: &Desk<Adder<Global>>,
    first: Seat<Adder<Global>>,
    second: Seat<Adder<Global>>,
) -> (Seat<Adder<Global>>, Seat<Adder<Global>>)
    requires { (first.desk ≡ desk.now.desk) × (second.desk ≡ desk.now.desk) }
    ensures { (result.0.desk ≡ desk.now.desk) × (result.1.desk ≡ desk.now.desk) }
{
    thread::join(
        rt,
        move || add_one(rt, desk, first, 5),
        move || add_one(rt, desk, second, 7),
    )
}

#[test]
fn seats_go_to_threads_and_back(rt: HostRuntime) -> Result<(), Fail> {
    let (desk, first, second) = desk_of_two(rt.alloc(), Adder::new(rt.alloc()))?;
    let (mut first, second) = add_apart(&rt, &desk, first, second);
    assert!(rt; first.number() == 1 && second.number() == 2);
    assert!(rt; desk.act(&rt, &mut first, &1) == AddReply::Was(12));
    let machine = machine_of_two(rt.alloc(), desk, first, second)?;
    assert!(rt; machine.sum() == 13);
    Ok(())
}
