// Founders of a world, and those of them that crash.
use crate::members::process;
use anyhow::{Result, bail};
use rapid_config::{Configuration, Params};
use rapid_endpoint::{Process, ProcessId};
use rapid_world::World;
use std::alloc::Global;

/// This many founders, each with these tags. A process is large, so that room is asked for once.
fn founders(alloc: Global, count: u16, tags: &[&[u8]]) -> Result<Vec<Process>> {
    let mut all = Vec::with_capacity(alloc, count.into())?;
    for n in 1..=count {
        let bare = process(n);
        all.push(Process::tagged(bare.id(), bare.endpoint(), tags)?)?;
    }
    Ok(all)
}

/// The world of this many founders, each with these tags.
pub fn found(alloc: Global, count: u16, tags: &[&[u8]]) -> Result<World> {
    let founders = founders(alloc, count, tags)?;
    if founders.is_empty() {
        bail!("there are no founders");
    }
    let params = Params::new(10, 9, 3)?;
    // a world requires of its founders that there is such a configuration
    drop(Configuration::seed(alloc, params, founders.as_slice())?);
    Ok(World::new(alloc, params, founders.as_slice())?)
}

/// Those that crash: this many, evenly spread over the founders.
pub fn crashed(alloc: Global, founders: u16, crashes: u16) -> Result<Vec<ProcessId>> {
    let gap = founders / crashes.max(1);
    let mut all = Vec::new(alloc);
    for i in 0..crashes {
        all.push(process(i.saturating_mul(gap).saturating_add(7)).id())?;
    }
    Ok(all)
}
