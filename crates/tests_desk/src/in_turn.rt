//! Acts in turn on one thread.

ghost use Rattle.std.specs.Prelude.{◌≡◌, [], IfOk};

use crate::{AddReply, Adder};
use linked_list_allocator::LocalHeap;
use std::alloc::{Allocator, Global};
use std::sync::Wait;
use std::test::Fail;
use turn_desk::{Desk, Seat};

/// A desk with two seats.
pub(crate) fn desk_of_two<A: Allocator>(
    alloc: Global,
    machine: Adder<A>,
) -> Result<(Desk<Adder<A>>, Seat<Adder<A>>, Seat<Adder<A>>), Fail>
    requires { machine.calls ≡ [] }
    ensures { IfOk result (λ r. (r.0.seats ≡ 2) × (r.1.desk ≡ r.0.desk) × (r.2.desk ≡ r.0.desk)) }
{
    let (desk, mut seats) = Desk::start(alloc, machine, 2)?;
    let second = seats.pop().unwrap();
    let first = seats.pop().unwrap();
    Ok((desk, first, second))
}

/// The machine of a desk with two seats.
pub(crate) fn machine_of_two<A: Allocator>(
    alloc: Global,
    desk: Desk<Adder<A>>,
    first: Seat<Adder<A>>,
    second: Seat<Adder<A>>,
) -> Result<Adder<A>, Fail>
    requires { (desk.seats ≡ 2) × (first.desk ≡ desk.desk) × (second.desk ≡ desk.desk) }
{
    let mut seats = Vec::new(alloc);
    seats.push(first)?;
    seats.push(second)?;
    Ok(desk.close(seats))
}

#[test]
fn two_seats_add_in_turn(rt: HostRuntime) -> Result<(), Fail> {
    let (desk, mut first, mut second) = desk_of_two(rt.alloc(), Adder::new(rt.alloc()))?;
    assert!(rt; desk.seats() == 2 && first.number() == 1 && second.number() == 2);
    assert!(rt; desk.act(&rt, &mut first, &5) == AddReply::Was(0));
    assert!(rt; desk.act(&rt, &mut second, &7) == AddReply::Was(5));
    assert!(rt; desk.act(&rt, &mut first, &1) == AddReply::Was(12));
    let machine = machine_of_two(rt.alloc(), desk, first, second)?;
    assert!(rt; machine.sum() == 13);
    assert!(rt; machine.calls() == [(1, 5), (2, 7), (1, 1)].as_slice());
    Ok(())
}

/// Adds 1 until that is refused, at most 17 times. Gives how often it was added.
fn add_ones<R: Wait, A: Allocator>(rt: &R, desk: &Desk<Adder<A>>, seat: &mut Seat<Adder<A>>) -> u64
    requires { seat.old.desk ≡ desk.now.desk }
    ensures { seat.new.desk ≡ desk.now.desk }
{
    for added in 0..17 {
        if desk.act(rt, seat, &1) != AddReply::Was(added) {
            return added;
        }
    }
    17
}

#[test]
fn want_of_memory_adds_nothing(rt: HostRuntime) -> Result<(), Fail> {
    let heap = LocalHeap::new(rt.alloc(), 256)?;
    let (desk, mut first, mut second) = desk_of_two(rt.alloc(), Adder::new(&heap))?;
    let added = add_ones(&rt, &desk, &mut first);
    assert!(rt; 0 < added && added < 17);
    assert!(rt; desk.act(&rt, &mut second, &7) == AddReply::Memory);
    let machine = machine_of_two(rt.alloc(), desk, first, second)?;
    assert!(rt; machine.sum() == added && machine.calls().len() as u64 == added);
    Ok(())
}
