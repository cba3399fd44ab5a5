// Some founders crash, and the others lose them.
use crate::figure::nanoseconds_since;
use crate::founders::{crashed, found};
use anyhow::{Context, Result};
use rapid_endpoint::ProcessId;
use rapid_world::{World, WorldEvent};
use std::alloc::Global;
use std::fs;
use std::fs::Files;
use std::time::{Clock, Instant};

/// How often each figure is taken; the best counts.
const RUNS: u32 = 3;

/// More packets than a world sends in as many events as it accepts, for this many members.
const MOST_PACKETS: u64 = 2_000_000;

/// What happens before packets are delivered. It has room for no process, as a `WorldEvent` has, so
/// that what is to happen counts for little in what a world holds.
#[derive(Clone, Copy)]
enum Act {
    /// A node crashes.
    Crash(ProcessId),
    /// A probe on a ring fails.
    Fail(ProcessId, u8),
    /// A node ticks.
    Tick(ProcessId),
}

impl Act {
    /// The event of a world.
    fn event(&self) -> WorldEvent {
        match self {
            Act::Crash(id) => WorldEvent::Crash(*id),
            Act::Fail(observer, ring) => WorldEvent::Probe(*observer, *ring, false),
            Act::Tick(id) => WorldEvent::Tick(*id),
        }
    }
}

/// The greatest memory that the process held, in bytes.
fn peak<R: Files + Alloc>(rt: &R) -> Result<u64> {
    let status = fs::read_to_string(rt, "/proc/self/status")?;
    let kibibytes = status
        .split_whitespace()
        .skip_while(|word| *word != "VmHWM:")
        .nth(1)
        .context("/proc/self/status does not say what was held")?;
    Ok(kibibytes.parse::<u64>()?.saturating_mul(1024))
}

/// Adds four failed probes of an observer on a ring.
fn push_failed(observer: &ProcessId, ring: u8, acts: &mut Vec<Act>) -> Result<()> {
    for _ in 0..4 {
        acts.push(Act::Fail(*observer, ring))?;
    }
    Ok(())
}

/// Adds the four failed probes after which an observer holds its subject on a ring to be down, if
/// that crashed.
fn push_probes(
    world: &World,
    observer: &ProcessId,
    ring: u8,
    crashed: &[ProcessId],
    acts: &mut Vec<Act>,
) -> Result<()> {
    let Some(subject) = world.observed(observer, ring) else {
        return Ok(());
    };
    if !crashed.contains(&subject.id()) {
        return Ok(());
    }
    push_failed(observer, ring, acts)
}

/// Adds the probes by which an observer loses all that crashed.
fn push_losses(
    world: &World,
    observer: &ProcessId,
    crashed: &[ProcessId],
    acts: &mut Vec<Act>,
) -> Result<()> {
    if crashed.contains(observer) {
        return Ok(());
    }
    for ring in 0..world.founding().params().k() {
        push_probes(world, observer, ring, crashed, acts)?;
    }
    Ok(())
}

/// All that happens before packets are delivered: some crash, the others lose them, and tick.
fn script(alloc: Global, world: &World, crashed: &[ProcessId]) -> Result<Vec<Act>> {
    let running = world.running()?;
    let mut acts = Vec::new(alloc);
    for observer in running.as_slice() {
        push_losses(world, observer, crashed, &mut acts)?;
    }
    push_crashes(crashed, &mut acts)?;
    push_ticks(running.as_slice(), crashed, &mut acts)?;
    Ok(acts)
}

/// Adds the crashes.
fn push_crashes(crashed: &[ProcessId], acts: &mut Vec<Act>) -> Result<()> {
    for id in crashed {
        acts.push(Act::Crash(*id))?;
    }
    Ok(())
}

/// Adds a tick of each that did not crash.
fn push_ticks(running: &[ProcessId], crashed: &[ProcessId], acts: &mut Vec<Act>) -> Result<()> {
    for id in running {
        if !crashed.contains(id) {
            acts.push(Act::Tick(*id))?;
        }
    }
    Ok(())
}

/// All this happens; how many nodes installed in it.
fn do_all(world: &mut World, acts: &[Act]) -> Result<usize> {
    let mut installed: usize = 0;
    for act in acts {
        installed = installed.saturating_add(world.step(&act.event())?.len());
    }
    Ok(installed)
}

/// Delivers packets in order, until this many nodes have installed.
fn deliver_all(world: &mut World, nodes: usize) -> Result<()> {
    let mut left = nodes;
    for before in 0..MOST_PACKETS {
        if left == 0 {
            return Ok(());
        }
        if world.can_deliver(before + 1) {
            let reports = world.step(&WorldEvent::Deliver(before + 1))?;
            left = left.saturating_sub(reports.len());
        }
    }
    Ok(())
}

/// All this happens, and then packets are delivered until this many nodes have installed.
fn run(world: &mut World, acts: &[Act], nodes: usize) -> Result<()> {
    let installed = do_all(world, acts)?;
    deliver_all(world, nodes.saturating_sub(installed))
}

/// What is measured: a world with this many founders, each with these tags, of which that many crash.
#[derive(Clone, Copy)]
pub struct Plan<'a> {
    pub founders: u16,
    pub crashes: u16,
    pub tags: &'a [&'a [u8]],
}

/// What one run took.
#[derive(Clone, Copy)]
struct Taken {
    founding: u64,
    running: u64,
    events: usize,
}

/// Takes the figures once.
fn take<R: Clock>(rt: &R, alloc: Global, plan: &Plan<'_>) -> Result<Taken> {
    let crashed = crashed(alloc, plan.founders, plan.crashes)?;
    let start = Instant::now(rt)?;
    let mut world = found(alloc, plan.founders, plan.tags)?;
    let founding = nanoseconds_since(rt, start)?;
    let acts = script(alloc, &world, crashed.as_slice())?;
    let nodes = usize::from(plan.founders.saturating_sub(plan.crashes));
    let start = Instant::now(rt)?;
    run(&mut world, acts.as_slice(), nodes)?;
    Ok(Taken {
        founding,
        running: nanoseconds_since(rt, start)?,
        events: world.accepted(),
    })
}

/// Prints the figures of a world.
pub fn print<R: Print + Clock + Files + Alloc>(
    rt: &R,
    alloc: Global,
    name: &str,
    plan: &Plan<'_>,
) -> Result<()> {
    let mut least = take(rt, alloc, plan)?;
    for _ in 1..RUNS {
        let taken = take(rt, alloc, plan)?;
        least.founding = least.founding.min(taken.founding);
        least.running = least.running.min(taken.running);
    }
    let events = least.events.max(1) as u64;
    println!(rt; "{name}_event {}", least.running / events)?;
    println!(rt; "{name}_events {events}")?;
    println!(rt; "{name}_founding {}", least.founding)?;
    println!(rt; "{name}_peak {}", peak(rt)?)?;
    Ok(())
}
