//! Connections at once, by two workers, and doors that fail.

ghost use Rattle.std.specs.Prelude.{◌≤◌};

use crate::gated::{Floor, GatedHall};
use outside_io::{Hall, MemoryHall};
use seat_server::{House, Tally};
use std::alloc::Global;
use std::sync::Wait;
use std::test::Fail;
use std::thread::Threads;
use tds_login::{Config, Entry};
use value_types::{Memory, Units};

/// What so many workers do with the connections of a hall, in a house of their own, where clients are logged in from the beginning.
fn served<H: Hall, R: Threads + Wait + Sync>(
    rt: &R,
    alloc: Global,
    workers: u32,
    hall: &mut H,
) -> Result<Tally, Memory>
    requires { (1 ≤ workers) × (workers ≤ 2) }
{
    let config = Config {
        user: Units::new(alloc),
        password: Units::new(alloc),
        entry: Entry::Bare,
        drivers: false,
    };
    let mut house = House::open(alloc, 2)?;
    let tally = house.serve_hall(alloc, rt, workers, &config, hall, None);
    house.close();
    Ok(tally)
}

#[test]
fn two_connections_are_served_at_once(rt: HostRuntime) -> Result<(), Fail> {
    let floor = Floor::new();
    let mut hall = GatedHall::new(&floor);
    let tally = served(&rt, rt.alloc(), 2, &mut hall)?;
    assert!(rt; tally.connections == 2 && tally.closed == 2 && floor.answered() == 2);
    Ok(())
}

/// What a worker does with two connections without input, where an `accept` fails.
fn tally_of<R: Threads + Wait + Sync>(
    rt: &R,
    alloc: Global,
    failing: u32,
) -> Result<(u64, u32, u32), Memory> {
    let inputs = vec![in alloc; Vec::new(alloc), Vec::new(alloc)]?;
    let mut hall = MemoryHall::new(alloc, inputs, vec![in alloc; failing]?);
    let tally = served(rt, alloc, 1, &mut hall)?;
    Ok((tally.connections, tally.failed, tally.closed))
}

/// The worker whose door fails ends behind the connections that it has served.
#[test]
fn a_door_may_fail_at_each_call(rt: HostRuntime) -> Result<(), Fail> {
    assert!(rt; tally_of(&rt, rt.alloc(), 1)? == (0, 1, 0));
    assert!(rt; tally_of(&rt, rt.alloc(), 2)? == (1, 1, 0));
    assert!(rt; tally_of(&rt, rt.alloc(), 3)? == (2, 1, 0));
    assert!(rt; tally_of(&rt, rt.alloc(), 4)? == (2, 0, 1));
    Ok(())
}
