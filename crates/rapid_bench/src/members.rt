// Processes and cuts to measure with.
use anyhow::{Result, bail};
use rapid_config::{Configuration, Cut, Params};
use rapid_endpoint::{Endpoint, Process, ProcessId};
use std::alloc::Global;

/// How many members there are.
pub const MEMBERS: u16 = 1024;

/// The process with a number: the number is its identifier and its port.
pub fn process(n: u16) -> Process {
    let id = ProcessId::new(u128::from(n).to_be_bytes());
    Process::new(id, Endpoint::new([127, 0, 0, 1], n))
}

/// The processes with these numbers.
pub fn processes(alloc: Global, first: u16, last: u16) -> Result<Vec<Process>> {
    let mut all = Vec::with_capacity(alloc, usize::from(last.saturating_sub(first)) + 1)?;
    for n in first..=last {
        all.push(process(n))?;
    }
    Ok(all)
}

/// The cut of the processes with these numbers.
pub fn cut(alloc: Global, first: u16, last: u16) -> Result<Cut> {
    Ok(Cut::new(processes(alloc, first, last)?)?)
}

/// The founding configuration of this many members, with sixteen rings.
pub fn configuration(alloc: Global, count: u16) -> Result<Configuration> {
    configuration_on(alloc, 16, count)
}

/// The founding configuration of this many members, with this many rings.
pub fn configuration_on(alloc: Global, rings: u8, count: u16) -> Result<Configuration> {
    let members = processes(alloc, 1, count)?;
    if members.is_empty() {
        bail!("there are no members");
    }
    let params = Params::new(rings, 9, 3)?;
    Ok(Configuration::seed(alloc, params, members.as_slice())?)
}
