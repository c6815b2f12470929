//! Clocks, and the hall in memory.

use outside_io::{Clock, Door, Hall, MemoryClock, MemoryHall, SystemClock};
use std::alloc::Global;
use std::test::Fail;
use value_types::Memory;

#[test]
fn the_clock_of_the_system_never_goes_back(rt: HostRuntime) {
    let mut clock = SystemClock::new(&rt);
    let mut last = 0;
    for _turn in 0..1000u32 {
        let now = clock.now_ms();
        assert!(rt; last <= now);
        last = now;
    }
}

#[test]
fn a_clock_in_memory_has_its_times(rt: HostRuntime) -> Result<(), Fail> {
    let mut clock = MemoryClock::new(vec![in rt.alloc(); 5u64, 3]?);
    assert!(rt; clock.now_ms() == 5);
    assert!(rt; clock.now_ms() == 5);
    assert!(rt; clock.now_ms() == 5);
    Ok(())
}

/// Whether the first door of a hall gives its one input, and then none.
fn is_given(alloc: Global) -> Result<bool, Memory> {
    let inputs = vec![in alloc; vec![in alloc; 7u8]?]?;
    let mut hall = MemoryHall::new(alloc, inputs, Vec::new(alloc));
    let has_begun = hall.begin(1).is_ok();
    let mut door = hall.door()?;
    let Ok(Some(line)) = door.accept() else {
        return Ok(false);
    };
    door.finish(line);
    let has_closed = matches!(door.accept(), Ok(None));
    hall.rejoin(door);
    Ok(has_begun && has_closed)
}

#[test]
fn a_hall_in_memory_gives_its_inputs(rt: HostRuntime) -> Result<(), Fail> {
    assert!(rt; is_given(rt.alloc())?);
    Ok(())
}
