// A world out of memory: an event is refused and changes nothing, or the node halts whose step it was.

use crate::numbered::{endpoint, id, process, tagged};
use rapid_config::{Configuration, Params};
use rapid_endpoint::{ParseError, Process};
use rapid_world::WorldEvent::{Deliver, Leave, Probe, Start, Tick};
use rapid_world::{Report, World, WorldError, WorldEvent};
use std::alloc::Global;
use std::test::Fail;

/// A world of the process 1 alone, with 3 rings and the marks 3 and 1.
fn alone(alloc: Global) -> Result<World, Fail> {
    let params = Params::new(3, 3, 1)?;
    let founders = [process(1)];
    let _configuration = Configuration::seed(alloc, params, &founders)?;
    Ok(World::new(alloc, params, &founders)?)
}

/// A world of the processes 1 and 2, with 3 rings and the marks 3 and 1.
fn pair(alloc: Global) -> Result<World, Fail> {
    let params = Params::new(3, 3, 1)?;
    let founders = [process(1), process(2)];
    let _configuration = Configuration::seed(alloc, params, &founders)?;
    Ok(World::new(alloc, params, &founders)?)
}

/// Whether a step by the event is accepted and marked as it reports, or refused out of memory
/// and not counted.
fn is_accounted_for(world: &mut World, event: &WorldEvent) -> bool {
    let before = world.accepted();
    match world.step(event) {
        Ok(reports) => {
            let halted = reports
                .iter()
                .any(|report| matches!(report, Report::Halted(_)));
            let marked = matches!(world.event(before), Some((_, mark)) if mark == halted);
            marked && world.accepted() == before.saturating_add(1)
        }
        Err(error) => error == WorldError::OutOfMemory && world.accepted() == before,
    }
}

#[test]
fn out_of_memory_in_a_step(rt: HostRuntime) -> Result<(), Fail> {
    let mut world = alone(rt.alloc())?;
    let _started = world.step(&Start(process(2), endpoint(1)))?;
    assert!(rt; is_accounted_for(&mut world, &Tick(id(2))));
    Ok(())
}

/// Six processes, every other one with tags, the last with as many as there may be.
fn guests() -> Result<[Process; 6], ParseError> {
    let longest: &[u8] = &[b'z'; 64];
    Ok([
        process(2),
        tagged(3, &[b"db", b"web"])?,
        process(4),
        tagged(5, &[longest])?,
        process(6),
        tagged(7, &[b"a", b"b", b"c", b"d", b"e", b"f", b"g", longest])?,
    ])
}

/// Whether the event at a place is the start of this process by the process 1.
fn is_start_of(world: &World, place: usize, guest: &Process) -> bool {
    match world.event(place) {
        Some((Start(started, seed), halts)) => {
            started == *guest && seed == endpoint(1) && !halts
        }
        _ => false,
    }
}

/// A process starts by the process 1. If the world has no memory for that it has not started, and it
/// starts when that is told again.
fn has_started(world: &mut World, guest: &Process) -> bool {
    let start = Start(*guest, endpoint(1));
    let place = world.accepted();
    if !is_accounted_for(world, &start) {
        return false;
    }
    if world.accepted() == place {
        let is_new = world.event(place).is_none() && world.node(&guest.id()).is_none();
        return is_new && world.step(&start).is_ok();
    }
    true
}

/// Each start is given back as it came, with its tags or without, however often the list grew.
#[test]
fn out_of_memory_as_processes_start(rt: HostRuntime) -> Result<(), Fail> {
    let guests = guests()?;
    let mut world = alone(rt.alloc())?;
    for guest in &guests {
        assert!(rt; has_started(&mut world, guest));
    }
    for (place, guest) in guests.iter().enumerate() {
        assert!(rt; is_start_of(&world, place, guest));
    }
    assert_eq!(rt; world.accepted(), 6);
    Ok(())
}

/// The events by which the process 2 joins the process 1.
fn join() -> [WorldEvent; 9] {
    [
        Start(process(2), endpoint(1)),
        Tick(id(2)),
        Deliver(1),
        Deliver(2),
        Deliver(3),
        Deliver(4),
        Deliver(5),
        Tick(id(1)),
        Deliver(6),
    ]
}

#[test]
fn out_of_memory_in_a_run(rt: HostRuntime) -> Result<(), Fail> {
    let mut world = alone(rt.alloc())?;
    let ran = world.run_counted(&join());
    assert_eq!(rt; ran.accepted, world.accepted());
    // all are accepted, unless memory was refused
    assert!(rt; ran.wanted > 0 || ran.accepted == 9);
    Ok(())
}

/// Steps by an event, and once more if the world had no memory for it. Whether it was accepted.
fn is_taken_again(world: &mut World, event: &WorldEvent) -> bool {
    match world.step(event) {
        Err(WorldError::OutOfMemory) => world.step(event).is_ok(),
        result => result.is_ok(),
    }
}

/// Whether a node halted out of memory in some event.
fn has_halted(world: &World) -> bool {
    for i in 0..world.accepted() {
        if matches!(world.event(i), Some((_, true))) {
            return true;
        }
    }
    false
}

/// The frame by which the process 2 asks to join.
const PRE_JOIN: [u8; 29] = [
    0, 0, 0, 0x19, 2, 8, 0, 0, 0, 0, 0, 0, 0, 0, 0, 0, 0, 0, 0, 0, 0, 2, 0x7f, 0, 0, 1, 0, 2, 0,
];

/// Whether all six packets of a join were sent, the first of them with its frame.
fn has_sent_all(world: &World) -> bool {
    let asks: &[u8] = &PRE_JOIN;
    match world.frame(1) {
        Some(packet) => world.packets() == 6 && packet.1 == asks,
        None => false,
    }
}

#[test]
fn an_event_refused_for_memory_is_taken_again(rt: HostRuntime) -> Result<(), Fail> {
    let mut world = alone(rt.alloc())?;
    let mut taken = 0usize;
    for event in &join() {
        if is_taken_again(&mut world, event) {
            taken = taken.saturating_add(1);
        }
    }
    assert!(rt; has_halted(&world) || taken == 9 && has_sent_all(&world));
    Ok(())
}

/// The node of process 2 tells process 1 on each of three rings that it leaves, or halts. An event that
/// the world refused for memory is taken when it is given again.
#[test]
fn out_of_memory_as_a_node_leaves(rt: HostRuntime) -> Result<(), Fail> {
    let mut world = pair(rt.alloc())?;
    let leave = Leave(id(2));
    assert!(rt; is_accounted_for(&mut world, &leave));
    if world.accepted() == 0 {
        assert!(rt; world.packets() == 0);
        let _reports = world.step(&leave)?;
    }
    let told = if has_halted(&world) { 0 } else { 3 };
    assert_eq!(rt; world.packets(), told);
    Ok(())
}

/// The node of process 1 has this many results of probes of process 2 on the first ring, all in vain.
fn in_vain(world: &mut World, count: usize) -> Result<(), WorldError> {
    for _ in 0..count {
        let _reports = world.step(&Probe(id(1), 0, false))?;
    }
    Ok(())
}

/// How many packets were sent after a tick of the node of process 1, unless it has halted.
fn sent_at_a_tick(world: &mut World) -> Result<u64, WorldError> {
    if !has_halted(world) {
        let _reports = world.step(&Tick(id(1)))?;
    }
    Ok(world.packets())
}

/// The fourth probe in vain brings the edge down, and the node tells process 2 of that at its next tick, or
/// halts. If the world refused the probe for memory it does not count: after one that was answered the edge is
/// up, and the node has nothing to tell.
#[test]
fn out_of_memory_as_an_edge_goes_down(rt: HostRuntime) -> Result<(), Fail> {
    let mut world = pair(rt.alloc())?;
    in_vain(&mut world, 3)?;
    assert!(rt; is_accounted_for(&mut world, &Probe(id(1), 0, false)));
    let is_down = world.accepted() == 4;
    if !is_down {
        let _reports = world.step(&Probe(id(1), 0, true))?;
    }
    let sent = sent_at_a_tick(&mut world)?;
    let told = if is_down && !has_halted(&world) { 1 } else { 0 };
    assert_eq!(rt; sent, told);
    Ok(())
}
