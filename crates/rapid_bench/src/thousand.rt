// The thousand members of the figures of views and desks, and what happens to the node of one.
use crate::members::{configuration_on, process};
use crate::messages::vote;
use anyhow::Result;
use rapid_config::Configuration;
use rapid_node::Event;
use std::alloc::Global;

/// How many members there are.
const MEMBERS: u16 = 1000;

/// The founding configuration of all members, with ten rings.
pub fn founded(alloc: Global) -> Result<Configuration> {
    configuration_on(alloc, 10, MEMBERS)
}

/// Votes for the cut of the first ten members, as many as make no quorum.
pub fn votes(alloc: Global, configuration: &Configuration) -> Result<Vec<Event>> {
    let mut events = Vec::new(alloc);
    for n in 0..MEMBERS / 2 {
        let message = vote(alloc, process(n + 2), configuration.id(), 10)?;
        events.push(Event::Receive(message))?;
    }
    Ok(events)
}

/// As many ticks.
pub fn ticks(alloc: Global) -> Result<Vec<Event>> {
    let mut events = Vec::new(alloc);
    for _ in 0..MEMBERS / 2 {
        events.push(Event::Tick)?;
    }
    Ok(events)
}
