//! What no clause says: that the calls succeed where there is memory.

use ps_formula::World;
use ps_io::NoMemory;
use ps_table::{Col, Event, Pool, PoolError, Trace};
use std::alloc::Global;
use std::test::Fail;

fn world(alloc: Global, a: bool, b: bool) -> Result<World, NoMemory> {
    let mut world = World::new(alloc);
    world.push(a)?;
    world.push(b)?;
    Ok(world)
}

// Worlds that are added one after the other, each with what is answered.
const ADDED: [(bool, bool, Result<u32, PoolError>); 5] = [
    (true, false, Ok(1)),
    (false, true, Ok(2)),
    (true, false, Err(PoolError::Present { at: 1 })),
    (false, true, Err(PoolError::Present { at: 2 })),
    (false, false, Ok(3)),
];

fn is_added(alloc: Global, pool: &mut Pool, row: &(bool, bool, Result<u32, PoolError>)) -> bool {
    let Ok(world) = world(alloc, row.0, row.1) else {
        return false;
    };
    pool.len() < 5 && pool.add(world) == row.2
}

fn is_second(alloc: Global, pool: &Pool) -> bool {
    let Ok(second) = world(alloc, false, true) else {
        return false;
    };
    pool.world(2) == Some(&second) && pool.world(0).is_none() && pool.world(4).is_none()
}

#[test]
fn worlds_are_numbered_in_order(rt: HostRuntime) -> Result<(), Fail> {
    let alloc = rt.alloc();
    let mut pool = Pool::new(alloc);
    for row in ADDED {
        assert!(rt; is_added(alloc, &mut pool, &row));
    }
    assert!(rt; pool.len() == 3 && is_second(alloc, &pool));
    Ok(())
}

#[test]
fn a_trace_keeps_its_events(rt: HostRuntime) -> Result<(), Fail> {
    let alloc = rt.alloc();
    let mut trace = Trace::new(alloc);
    trace.push(Event::Priced {
        world: world(alloc, true, true)?,
    })?;
    trace.push(Event::Pivot {
        enter: Col::World(1),
        leave: 0,
    })?;
    assert_eq!(rt; trace.len(), 2);
    Ok(())
}
