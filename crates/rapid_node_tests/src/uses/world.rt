// A simulated cluster.

use anyhow::Result;
use rapid_config::{Configuration, Params};
use rapid_endpoint::{Process, ProcessId};
use rapid_world::{World, WorldEvent};
use std::alloc::Global;

/// An event of a world. What cannot happen in it changes nothing.
fn tell(world: &mut World, event: WorldEvent) -> Result<()> {
    world.step(&event)?;
    Ok(())
}

/// These nodes tick.
fn tick_all(world: &mut World, ids: &[ProcessId]) -> Result<()> {
    for id in ids {
        tell(world, WorldEvent::Tick(*id))?;
    }
    Ok(())
}

/// Each running node ticks.
fn tick(world: &mut World) -> Result<()> {
    let running = world.running()?;
    tick_all(world, running.as_slice())
}

/// What can be delivered of the packets from this number on, before the other, is.
fn deliver(world: &mut World, first: u64, end: u64) -> Result<()> {
    for packet in first..end {
        if world.can_deliver(packet) {
            tell(world, WorldEvent::Deliver(packet))?;
        }
    }
    Ok(())
}

/// Each running node ticks, and of the packets from this number on those that can be delivered are.
/// The answer is the number of the first packet that is left.
fn turn(world: &mut World, first: u64) -> Result<u64> {
    tick(world)?;
    let end = world.packets().saturating_add(1);
    deliver(world, first, end)?;
    Ok(end)
}

/// This many turns of a world.
fn turn_all(world: &mut World, turns: u8) -> Result<()> {
    let mut first = 1;
    for _ in 0..turns {
        first = turn(world, first)?;
    }
    Ok(())
}

/// The world that this process founds alone.
fn founded(alloc: Global, seed: Process) -> Result<Box<World>> {
    let params = Params::new(3, 3, 1)?;
    // World::new requires of its founders that there is such a configuration
    let _founding = Configuration::seed(alloc, params, &[seed])?;
    Ok(Box::new(alloc, World::new(alloc, params, &[seed])?)?)
}

/// The height of the view of a process of a world.
fn height(world: &World, id: &ProcessId) -> Option<u64> {
    world.node(id)?.configuration().map(|c| c.height())
}

/// A process joins a world by another, in this many turns.
fn join(world: &mut World, seed: Process, joiner: Process, turns: u8) -> Result<()> {
    tell(world, WorldEvent::Start(joiner, seed.endpoint()))?;
    turn_all(world, turns)
}

/// The height of the view of a process that joins by another, after this many turns of a world of
/// both.
pub fn joins(alloc: Global, seed: Process, joiner: Process, turns: u8) -> Result<Option<u64>> {
    let mut world = founded(alloc, seed)?;
    join(&mut *world, seed, joiner, turns)?;
    Ok(height(&*world, &joiner.id()))
}
