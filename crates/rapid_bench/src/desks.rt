// Steps of a desk, and of its node alone.
use crate::figure::nanoseconds_since;
use crate::members::process;
use crate::thousand::{founded, ticks, votes};
use anyhow::{Result, bail};
use rapid_config::Configuration;
use rapid_desk::Desk;
use rapid_node::{Event, Node};
use std::alloc::Global;
use std::sync::Wait;
use std::time::{Clock, Instant};

/// How often each figure is taken; the best counts.
const RUNS: u32 = 20;

/// The node of member 1.
fn node_of(alloc: Global, configuration: &Configuration) -> Result<Box<Node>> {
    let me = process(1);
    if !configuration.is_member(&me) {
        bail!("the founder is no member");
    }
    Ok(Box::new(alloc, Node::seed(alloc, configuration, me)?)?)
}

/// The desk of member 1.
fn desk_of<'a, R: Wait>(
    rt: &'a R,
    alloc: Global,
    configuration: &Configuration,
) -> Result<Box<Desk<&'a R>>> {
    let me = process(1);
    if !configuration.is_member(&me) {
        bail!("the founder is no member");
    }
    let desk = Desk::seed(rt, alloc, configuration, me, 1)?;
    Ok(Box::new(alloc, desk)?)
}

/// How many nanoseconds the node takes for these events.
fn node_time<R: Clock>(rt: &R, mut node: Box<Node>, events: Vec<Event>) -> Result<u64> {
    let start = Instant::now(rt)?;
    for event in events {
        let _ = node.step(&event)?;
    }
    nanoseconds_since(rt, start)
}

/// How many nanoseconds the desk takes for these events.
fn desk_time<R: Clock + Wait>(rt: &R, mut desk: Box<Desk<&R>>, events: Vec<Event>) -> Result<u64> {
    let start = Instant::now(rt)?;
    for event in events {
        let _ = desk.step(event)?;
    }
    nanoseconds_since(rt, start)
}

/// Prints the nanoseconds of a vote.
fn print_votes<R: Print + Clock + Wait>(
    rt: &R,
    alloc: Global,
    configuration: &Configuration,
) -> Result<()> {
    let (mut by_node, mut by_desk, mut count) = (u64::MAX, u64::MAX, 0);
    for _ in 0..RUNS {
        let events = votes(alloc, configuration)?;
        count = events.len() as u64;
        by_node = by_node.min(node_time(rt, node_of(alloc, configuration)?, events)?);
        let events = votes(alloc, configuration)?;
        by_desk = by_desk.min(desk_time(rt, desk_of(rt, alloc, configuration)?, events)?);
    }
    println!(rt; "node_vote {}", by_node / count.max(1))?;
    println!(rt; "desk_vote {}", by_desk / count.max(1))?;
    Ok(())
}

/// Prints the nanoseconds of a tick.
fn print_ticks<R: Print + Clock + Wait>(
    rt: &R,
    alloc: Global,
    configuration: &Configuration,
) -> Result<()> {
    let (mut by_node, mut by_desk, mut count) = (u64::MAX, u64::MAX, 0);
    for _ in 0..RUNS {
        let events = ticks(alloc)?;
        count = events.len() as u64;
        by_node = by_node.min(node_time(rt, node_of(alloc, configuration)?, events)?);
        let events = ticks(alloc)?;
        by_desk = by_desk.min(desk_time(rt, desk_of(rt, alloc, configuration)?, events)?);
    }
    println!(rt; "node_tick {}", by_node / count.max(1))?;
    println!(rt; "desk_tick {}", by_desk / count.max(1))?;
    Ok(())
}

/// Prints the figures `node_vote`, `desk_vote`, `node_tick` and `desk_tick`.
pub fn print<R: Print + Clock + Wait>(rt: &R, alloc: Global) -> Result<()> {
    let configuration = founded(alloc)?;
    print_votes(rt, alloc, &configuration)?;
    print_ticks(rt, alloc, &configuration)
}
