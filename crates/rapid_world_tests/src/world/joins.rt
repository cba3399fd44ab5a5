// A join in a world.

use crate::numbered::{endpoint, id, process, tagged};
use crate::world::worlds::alone;
use rapid_endpoint::Process;
use rapid_node::Phase;
use rapid_world::WorldEvent::{Crash, Deliver, Leave, Probe, Start, Tick};
use rapid_world::{World, WorldError, WorldEvent};
use std::process::Abort;
use std::test::Fail;

/// The events by which the process 2 joins the process 1.
fn join() -> [WorldEvent; 9] {
    join_of(process(2))
}

/// The events by which a process with the identifier 2 joins the process 1.
fn join_of(guest: Process) -> [WorldEvent; 9] {
    [
        Start(guest, endpoint(1)),
        Tick(id(2)),
        Deliver(1),
        Deliver(2),
        Deliver(3),
        Deliver(4),
        Deliver(5),
        Tick(id(1)),
        Deliver(6),
    ]
}

/// Checks that the node of a process is a member at a height.
fn assert_member(rt: &impl Abort, world: &World, number: u16, height: u64) {
    let node = world.node(&id(number)).expect(rt, "a node");
    assert!(rt; node.phase() == Phase::Member);
    let stamp = node.installed().last().expect(rt, "a view");
    assert_eq!(rt; stamp.height(), height);
}

#[test]
fn a_guest_is_let_in(rt: HostRuntime) -> Result<(), Fail> {
    let mut world = alone(rt.alloc())?;
    let ran = world.run_counted(&join());
    assert_eq!(&rt; (ran.accepted, ran.wanted), (9, 0));
    assert_member(&rt, &world, 2, 1);
    assert_member(&rt, &world, 1, 1);
    Ok(())
}

/// Checks that the node of a process shows these two members.
fn assert_two(rt: &impl Abort, world: &World, number: u16, members: &[Process; 2]) {
    let node = world.node(&id(number)).expect(rt, "a node");
    let configuration = node.configuration().expect(rt, "a view");
    assert!(rt; configuration.members() == members.as_slice());
}

#[test]
fn a_guest_with_tags_is_let_in(rt: HostRuntime) -> Result<(), Fail> {
    let guest = tagged(2, &[b"db", b"web"])?;
    let mut world = alone(rt.alloc())?;
    let ran = world.run_counted(&join_of(guest));
    assert_eq!(&rt; (ran.accepted, ran.wanted), (9, 0));
    assert_member(&rt, &world, 2, 1);
    assert_two(&rt, &world, 1, &[process(1), guest]);
    assert_two(&rt, &world, 2, &[process(1), guest]);
    assert!(&rt; is_stored(&world, 0, &Start(guest, endpoint(1))));
    assert!(&rt; !is_stored(&world, 0, &Start(process(2), endpoint(1))));
    Ok(())
}

#[test]
fn events_are_kept_and_refused(rt: HostRuntime) -> Result<(), Fail> {
    let mut world = alone(rt.alloc())?;
    let accepted = world.run(&join());
    assert_eq!(&rt; accepted, world.accepted());
    assert!(&rt; matches!(world.event(2), Some((Deliver(1), false))));
    let again = world.step(&Start(process(2), endpoint(1)));
    assert!(&rt; matches!(again, Err(WorldError::IdentifierUsed)));
    assert_eq!(&rt; world.packets(), 6);
    let unsent = world.step(&Deliver(7));
    assert!(&rt; matches!(unsent, Err(WorldError::NoSuchPacket)));
    Ok(())
}

/// Events of each kind, after a join: four of them are refused.
fn of_each_kind() -> [WorldEvent; 11] {
    [
        Probe(id(1), 0, false),
        Probe(id(3), 0, false),
        Probe(id(2), 1, true),
        Start(process(3), endpoint(1)),
        Start(process(3), endpoint(1)),
        Tick(id(2)),
        Deliver(6),
        Leave(id(2)),
        Crash(id(3)),
        Crash(id(3)),
        Leave(id(3)),
    ]
}

/// With memory nothing is skipped but what is refused, of each kind of event.
#[test]
fn only_refused_events_are_passed_over(rt: HostRuntime) -> Result<(), Fail> {
    let mut world = alone(rt.alloc())?;
    let _joined = world.run(&join());
    let ran = world.run_counted(&of_each_kind());
    assert_eq!(&rt; (ran.accepted, ran.wanted), (7, 0));
    Ok(())
}

/// So too by a run that does not say how often memory ran out.
#[test]
fn a_run_skips_only_refused_events(rt: HostRuntime) -> Result<(), Fail> {
    let mut world = alone(rt.alloc())?;
    let _joined = world.run(&join());
    assert_eq!(&rt; world.run(&of_each_kind()), 7);
    assert_eq!(&rt; world.accepted(), 16);
    Ok(())
}

/// Whether two events are the same.
fn is_same(one: &WorldEvent, other: &WorldEvent) -> bool {
    match (*one, *other) {
        (Start(p, seed), Start(q, same)) => p == q && seed == same,
        (Probe(a, ring, ok), Probe(b, same, answered)) => a == b && ring == same && ok == answered,
        (Tick(a), Tick(b)) => a == b,
        (Deliver(packet), Deliver(same)) => packet == same,
        (Crash(a), Crash(b)) => a == b,
        (Leave(a), Leave(b)) => a == b,
        _ => false,
    }
}

/// Whether the event at a place is this one, without a mark.
fn is_stored(world: &World, place: usize, event: &WorldEvent) -> bool {
    match world.event(place) {
        Some((stored, halts)) => is_same(&stored, event) && !halts,
        None => false,
    }
}

/// Steps by an event. If it is accepted, it is stored behind the others.
fn is_kept(world: &mut World, event: &WorldEvent) -> bool {
    let before = world.accepted();
    match world.step(event) {
        Ok(_reports) => is_stored(world, before, event),
        Err(_refused) => world.event(before).is_none(),
    }
}

/// Events are stored as they were given: of each kind, of a founder and of those who started.
#[test]
fn events_are_stored_as_given(rt: HostRuntime) -> Result<(), Fail> {
    let mut world = alone(rt.alloc())?;
    for event in join().iter().chain(&of_each_kind()) {
        assert!(&rt; is_kept(&mut world, event));
    }
    for (place, event) in join().iter().enumerate() {
        assert!(&rt; is_stored(&world, place, event));
    }
    assert_eq!(&rt; world.accepted(), 16);
    Ok(())
}
