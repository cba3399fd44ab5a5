// Nodes to measure with, and what happens to them.
use crate::members::process;
use crate::messages::{batch, on_rings, vote};
use anyhow::{Context, Result, bail};
use rapid_config::{ConfigId, Configuration};
use rapid_endpoint::Process;
use rapid_node::{Event, Node};
use rapid_rings::{ObserverTable, Rings};
use std::alloc::Global;

/// The node of this founder.
fn node_of(alloc: Global, configuration: &Configuration, me: Process) -> Result<Node> {
    if !configuration.is_member(&me) {
        bail!("the founder is no member");
    }
    Ok(Node::seed(alloc, configuration, me)?)
}

/// The node of the founder with the number 1.
pub fn founder(alloc: Global, configuration: &Configuration) -> Result<Box<Node>> {
    let node = node_of(alloc, configuration, process(1))?;
    Ok(Box::new(alloc, node)?)
}

/// Votes for one cut of ten processes, each in a list of its own: as many as make no quorum of this
/// many members.
pub fn votes(alloc: Global, id: ConfigId, members: u16) -> Result<Vec<Event>> {
    let mut events = Vec::new(alloc);
    for n in 0..members / 4 * 3 {
        let message = vote(alloc, process(n + 2), id, 10)?;
        events.push(Event::Receive(message))?;
    }
    Ok(events)
}

/// One batch of an observer: alerts to remove these members, each on its ring.
fn one_batch(
    alloc: Global,
    id: ConfigId,
    observer: Process,
    subjects: &[(u8, Process)],
) -> Result<Event> {
    Ok(Event::Receive(batch(alloc, observer, id, subjects)?))
}

/// The pairs of this member.
fn only(alloc: Global, pairs: &[(u8, Process)], member: &Process) -> Result<Vec<(u8, Process)>> {
    let mut all = Vec::new(alloc);
    for pair in pairs {
        if pair.1 == *member {
            all.push(*pair)?;
        }
    }
    Ok(all)
}

/// All well-formed alerts of one observer to remove the member with the number 3, in one batch.
pub fn alerts_on_one(alloc: Global, configuration: &Configuration) -> Result<Event> {
    let rings = Rings::new(alloc, configuration)?;
    let subject = process(3);
    let observer = rings
        .observer(0, &subject)
        .context("nobody observes the member")?;
    let subjects = rings.subjects_of(alloc, &observer)?;
    let seats = only(alloc, &subjects, &subject)?;
    one_batch(alloc, configuration.id(), observer, &seats)
}

/// 2,048 alerts of the member with the number 3 in one batch, of which few are well-formed.
pub fn alerts_on_many(alloc: Global, id: ConfigId) -> Result<Event> {
    one_batch(alloc, id, process(3), &on_rings(alloc, 1, 128, 16)?)
}

/// One alert, of the member with the number 2 on itself, in one batch. It is ill-formed, so a node that
/// takes the batch is as it was, but shares what has its reports with no copy.
pub fn alert_on_itself(alloc: Global, id: ConfigId) -> Result<Event> {
    one_batch(alloc, id, process(2), &[(0, process(2))])
}

/// As many ticks as come before votes and alerts go out again.
pub fn ticks(alloc: Global) -> Result<Vec<Event>> {
    let mut events = Vec::new(alloc);
    for _ in 0..19 {
        events.push(Event::Tick)?;
    }
    Ok(events)
}

/// Has the node take the alert of a member's observer on a ring.
fn report(alloc: Global, node: &mut Node, rings: &Rings, ring: u8, subject: Process) -> Result<()> {
    let observer = rings
        .observer(ring, &subject)
        .context("nobody observes the member")?;
    let event = one_batch(alloc, rings.id(), observer, &[(ring, subject)])?;
    let _ = node.step(&event)?;
    Ok(())
}

/// Has the node take the alerts on eight rings of each of twenty members, enough that all of them
/// are unstable.
pub fn report_many(alloc: Global, configuration: &Configuration, node: &mut Node) -> Result<()> {
    let rings = Rings::new(alloc, configuration)?;
    for (ring, subject) in on_rings(alloc, 11, 30, 8)? {
        report(alloc, node, &rings, ring, subject)?;
    }
    Ok(())
}
