// Worlds out of memory. Events are refused and nodes halt. What all nodes installed still lies on
// one line, of which each has a stretch.

ghost use Rattle.std.specs.Prelude.{◌≤◌, length};

use crate::numbered::{cut, endpoint, id, process};
use rapid_config::{Configuration, Params, Stamp};
use rapid_endpoint::Process;
use rapid_world::WorldEvent::{Crash, Deliver, Leave, Probe, Start, Tick};
use rapid_world::{World, WorldEvent};
use std::alloc::Global;
use std::process::Abort;
use std::test::Fail;

/// A line of two configurations.
type Line = [Configuration; 2];

/// A world of these founders, with 3 rings and the marks 3 and 1. Beside it the line of their
/// configuration, and of the one after the cut of the process with this number.
fn begun(alloc: Global, founders: &[Process], number: u16) -> Result<(World, Line), Fail>
    requires { 1 ≤ length founders.now }
{
    let params = Params::new(3, 3, 1)?;
    let first = Configuration::seed(alloc, params, founders)?;
    let second = first.apply(alloc, &cut(alloc, number)?)?;
    Ok((World::new(alloc, params, founders)?, [first, second]))
}

/// Whether a stamp is that of a configuration.
fn is_stamp_of(stamp: &Stamp, configuration: &Configuration) -> bool {
    stamp.height() == configuration.height()
        && stamp.id() == configuration.id()
        && stamp.members() == configuration.members().len()
}

/// Whether a list of stamps is a stretch of a line of two.
fn is_stretch(stamps: &[Stamp], [first, second]: &Line) -> bool {
    match stamps {
        [] => true,
        [only] => is_stamp_of(only, first) || is_stamp_of(only, second),
        [one, next] => is_stamp_of(one, first) && is_stamp_of(next, second),
        _ => false,
    }
}

/// Checks that what the nodes with these numbers installed are stretches of a line.
fn assert_on_one_line(rt: &impl Abort, world: &World, line: &Line, numbers: &[u16]) {
    for number in numbers {
        let installed = match world.node(&id(*number)) {
            Some(node) => node.installed(),
            None => &[],
        };
        assert!(rt; is_stretch(installed, line), "at the node {number}");
    }
}

/// Makes these events happen, and says how many were refused.
fn refused(world: &mut World, events: &[WorldEvent]) -> usize {
    events.len().saturating_sub(world.run(events))
}

/// The node with this number loses process 3: on each ring on which it observes it, four probes fail.
/// Says how many were refused.
fn lose(world: &mut World, number: u16) -> usize {
    let mut count: usize = 0;
    for ring in 0..3u8 {
        if world.observed(&id(number), ring) == Some(process(3)) {
            let probes = [Probe(id(number), ring, false); 4];
            count = count.saturating_add(refused(world, &probes));
        }
    }
    count
}

/// The most packets that are sent here.
const MOST_PACKETS: u64 = 200;

/// Delivers each packet after those before this one, in order, if a node runs at its endpoint, and what
/// is sent at that. Says how many deliveries were refused.
fn flow(world: &mut World, from: u64) -> usize {
    let mut count: usize = 0;
    for packet in from..MOST_PACKETS {
        if world.can_deliver(packet) {
            count = count.saturating_add(refused(world, &[Deliver(packet)]));
        }
    }
    count
}

/// The number of the next packet that is sent.
fn next_packet(world: &World) -> u64 {
    world.packets().saturating_add(1)
}

/// Process 3 of three founders crashes. The two others lose it and vote to take it out. They are
/// too few for the fast round, and recovery decides. Says how many events were refused.
fn recover(world: &mut World) -> usize {
    let crashed = refused(world, &[Crash(id(3))]);
    let lost = lose(world, 1).saturating_add(lose(world, 2));
    let told = refused(world, &[Tick(id(1)), Tick(id(2))]);
    let voted = flow(world, 1);
    let next = next_packet(world);
    let ticked = refused(world, &[Tick(id(1)); 20]);
    let recovered = flow(world, next);
    [lost, told, voted, ticked, recovered]
        .iter()
        .fold(crashed, |sum: usize, count| sum.saturating_add(*count))
}

/// Process 2 joins process 1, whose requests come twice. Says how many events were refused.
fn join(world: &mut World) -> usize {
    let begun = refused(world, &[Start(process(2), endpoint(1)), Tick(id(2))]);
    let asked = flow(world, 1);
    let again = refused(world, &[Deliver(3), Deliver(4), Deliver(5), Tick(id(1))]);
    let confirmed = flow(world, 6);
    [asked, again, confirmed]
        .iter()
        .fold(begun, |sum: usize, count| sum.saturating_add(*count))
}

/// Process 2 of two founders leaves: process 1 observes it, and both vote to take it out. Says how many
/// events were refused.
fn leave(world: &mut World) -> usize {
    let begun = refused(world, &[Leave(id(2))]);
    let told = flow(world, 1);
    let next = next_packet(world);
    let alerted = refused(world, &[Tick(id(1))]);
    let voted = flow(world, next);
    [told, alerted, voted]
        .iter()
        .fold(begun, |sum: usize, count| sum.saturating_add(*count))
}

/// Whether a node halted out of memory in an event that the world keeps.
fn has_halted_node(world: &World) -> bool {
    for number in 0..world.accepted() {
        if matches!(world.event(number), Some((_, true))) {
            return true;
        }
    }
    false
}

/// Checks that the nodes with these numbers have the last configuration of a line.
fn assert_at_the_end(rt: &impl Abort, world: &World, line: &Line, numbers: &[u16]) {
    let [_, last] = line;
    for number in numbers {
        let node = world.node(&id(*number)).expect(rt, "a node");
        let shown = node.installed().last().expect(rt, "a stamp");
        assert!(rt; is_stamp_of(shown, last), "at the node {number}");
    }
}

#[test]
fn out_of_memory_leaves_one_line_of_a_recovery(rt: HostRuntime) -> Result<(), Fail> {
    let founders = [process(1), process(2), process(3)];
    let (mut world, line) = begun(rt.alloc(), &founders, 3)?;
    let refused = recover(&mut world);
    assert_on_one_line(&rt, &world, &line, &[1, 2, 3]);
    if refused == 0 && !has_halted_node(&world) {
        assert_at_the_end(&rt, &world, &line, &[1, 2]);
    }
    Ok(())
}

#[test]
fn out_of_memory_leaves_one_line_of_a_join(rt: HostRuntime) -> Result<(), Fail> {
    let founders = [process(1)];
    let (mut world, line) = begun(rt.alloc(), &founders, 2)?;
    let refused = join(&mut world);
    assert_on_one_line(&rt, &world, &line, &[1, 2]);
    if refused == 0 && !has_halted_node(&world) {
        assert_at_the_end(&rt, &world, &line, &[1, 2]);
    }
    Ok(())
}

#[test]
fn out_of_memory_leaves_one_line_of_a_leave(rt: HostRuntime) -> Result<(), Fail> {
    let founders = [process(1), process(2)];
    let (mut world, line) = begun(rt.alloc(), &founders, 2)?;
    let refused = leave(&mut world);
    assert_on_one_line(&rt, &world, &line, &[1, 2]);
    if refused == 0 && !has_halted_node(&world) {
        assert_at_the_end(&rt, &world, &line, &[1, 2]);
    }
    Ok(())
}
