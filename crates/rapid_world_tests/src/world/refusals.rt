// Events that a world refuses, and crashes.

use crate::numbered::{endpoint, id, process, tagged};
use crate::world::worlds::alone;
use rapid_endpoint::Process;
use rapid_world::WorldEvent::{Crash, Deliver, Leave, Probe, Start, Tick};
use rapid_world::{World, WorldError, WorldEvent};
use std::test::Fail;

/// Whether the world refuses the event so, and accepts nothing.
fn refuses(world: &mut World, event: &WorldEvent, error: WorldError) -> bool {
    let before = world.accepted();
    match world.step(event) {
        Ok(_) => false,
        Err(found) => found == error && world.accepted() == before,
    }
}

#[test]
fn refuses_by_the_rules(rt: HostRuntime) -> Result<(), Fail> {
    let mut world = alone(rt.alloc())?;
    let cases = [
        (Start(process(1), endpoint(1)), WorldError::IdentifierUsed),
        (
            Start(tagged(1, &[b"db"])?, endpoint(1)),
            WorldError::IdentifierUsed,
        ),
        (
            Start(Process::new(id(2), endpoint(1)), endpoint(1)),
            WorldError::EndpointBusy,
        ),
        (Tick(id(2)), WorldError::NoSuchNode),
        (Crash(id(2)), WorldError::NoSuchNode),
        (Leave(id(2)), WorldError::NoSuchNode),
        (Probe(id(2), 0, false), WorldError::NoSuchNode),
        (Probe(id(1), 0, false), WorldError::NotObserved),
        (Deliver(0), WorldError::NoSuchPacket),
        (Deliver(1), WorldError::NoSuchPacket),
    ];
    for (event, error) in cases {
        assert!(rt; refuses(&mut world, &event, error), "at {event:?}");
    }
    Ok(())
}

/// A process that crashed never starts again, and another may start at its endpoint.
#[test]
fn a_crash_ends_a_node(rt: HostRuntime) -> Result<(), Fail> {
    let mut world = alone(rt.alloc())?;
    let next = Process::new(id(3), endpoint(1));
    let ran = world.run_counted(&[
        Crash(id(1)),
        Start(process(1), endpoint(1)),
        Crash(id(1)),
        Start(next, endpoint(1)),
        Tick(id(3)),
    ]);
    assert_eq!(rt; (ran.accepted, ran.wanted), (3, 0));
    let running = world.running()?;
    assert_eq!(rt; running.as_slice(), [id(3)].as_slice());
    // what the newcomer asks the endpoint comes to itself
    assert!(rt; world.can_deliver(1));
    Ok(())
}

/// Those that run follow one another by identifier and begin again at the least. One that crashed
/// is left out.
#[test]
fn running_nodes_follow_one_another(rt: HostRuntime) -> Result<(), Fail> {
    let mut world = alone(rt.alloc())?;
    assert!(rt; world.next_running(Some(id(1))) == Some(id(1)));
    let starts = [4, 2, 3].map(|number| Start(process(number), endpoint(1)));
    assert_eq!(rt; world.run(&starts), 3);
    assert_eq!(rt; world.run(&[Crash(id(3))]), 1);
    let after = [
        (None, 1),
        (Some(1), 2),
        (Some(2), 4),
        (Some(3), 4),
        (Some(4), 1),
        (Some(9), 1),
    ];
    for (last, next) in after {
        assert!(rt;
            world.next_running(last.map(id)) == Some(id(next)),
            "after {last:?}"
        );
    }
    assert_eq!(rt; world.run(&[Crash(id(1)), Crash(id(2)), Crash(id(4))]), 3);
    assert!(rt; world.next_running(None).is_none());
    Ok(())
}

/// Two joiners ask process 1. A packet is next while a node runs at its endpoint.
#[test]
fn the_next_packet_can_be_delivered(rt: HostRuntime) -> Result<(), Fail> {
    let mut world = alone(rt.alloc())?;
    let starts = [
        Start(process(2), endpoint(1)),
        Start(process(3), endpoint(2)),
        Tick(id(2)),
        Tick(id(3)),
    ];
    assert_eq!(rt; world.run(&starts), 4);
    assert!(rt; world.packets() == 2);
    assert!(rt; world.next_deliverable(0) == Some(1));
    assert!(rt; world.next_deliverable(1) == Some(2));
    assert!(rt; world.next_deliverable(2).is_none());
    assert_eq!(rt; world.run(&[Crash(id(1))]), 1);
    assert!(rt; world.next_deliverable(0) == Some(2));
    Ok(())
}
