// A world takes at most a million events.

use crate::numbered::process;
use rapid_config::{Configuration, Params};
use rapid_world::WorldEvent::{Crash, Deliver, Leave, Probe, Start, Tick};
use rapid_world::{World, WorldError};
use std::alloc::Global;
use std::process::Abort;
use std::test::Fail;

/// A world of process 1 alone, with 3 rings and the marks 3 and 1.
fn alone(alloc: Global) -> Result<World, Fail> {
    let params = Params::new(3, 3, 1)?;
    let founders = [process(1)];
    let _configuration = Configuration::seed(alloc, params, &founders)?;
    Ok(World::new(alloc, params, &founders)?)
}

/// Ticks a member so often, and says how often that was accepted.
fn tick_often(world: &mut World, thousands: usize) -> usize {
    let ticks = [Tick(process(1).id()); 1000];
    let mut accepted: usize = 0;
    for _ in 0..thousands {
        accepted = accepted.saturating_add(world.run(&ticks));
    }
    accepted
}

/// Checks that a full world of process 1 refuses each kind of event as one too many. This is so
/// also if it would be refused otherwise: none runs under the number 2, no packet was sent, and
/// there is no edge.
fn assert_full(rt: &impl Abort, world: &mut World) {
    let (one, two) = (process(1), process(2));
    let events = [
        Start(two, one.endpoint()),
        Start(one, one.endpoint()),
        Probe(one.id(), 0, true),
        Tick(one.id()),
        Tick(two.id()),
        Deliver(1),
        Crash(one.id()),
        Crash(two.id()),
        Leave(one.id()),
        Leave(two.id()),
    ];
    for event in events {
        assert!(rt;
            world.step(&event).err() == Some(WorldError::EventsFull),
            "at {event:?}"
        );
    }
}

#[test]
fn a_million_events_are_all(rt: HostRuntime) -> Result<(), Fail> {
    let mut world = alone(rt.alloc())?;
    assert_eq!(rt; tick_often(&mut world, 1000), 1_000_000);
    assert_full(&rt, &mut world);
    assert_eq!(rt; world.accepted(), 1_000_000);
    Ok(())
}
