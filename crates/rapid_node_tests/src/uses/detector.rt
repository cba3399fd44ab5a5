// The cut detector over edges of one's own.

use anyhow::Result;
use rapid_alerts::{Alert, Kind};
use rapid_config::{ConfigId, Params};
use rapid_cut::Detector;
use rapid_endpoint::{Endpoint, Process, ProcessId};
use rapid_rings::Table;
use std::alloc::Global;

/// The process of a number.
pub fn process(number: u8) -> Process {
    let endpoint = Endpoint::new([127, 0, 0, 1], 7000 + u16::from(number));
    Process::new(ProcessId::new([number; 16]), endpoint)
}

/// That process 9 is observed by process 0 on ring 0, process 1 on ring 1 and process 2 on ring 2.
fn observe(table: &mut Table) -> Result<()> {
    for ring in 0..3 {
        table.add(ring, process(ring), process(9))?;
    }
    Ok(())
}

/// The observer on this ring reports process 9; what is then to be removed is put to the rest.
fn report(detector: &mut Detector<Table>, removed: &mut Vec<Process>, ring: u8) -> Result<()> {
    let alert = Alert {
        observer: process(ring),
        subject: process(9),
        ring,
        kind: Kind::Remove,
        config: ConfigId::zero(),
    };
    if let Some(cut) = detector.batch(&[alert])? {
        for process in cut.processes().iter() {
            removed.push(process)?;
        }
    }
    Ok(())
}

/// The observers on the first two rings report process 9.
fn report_both(detector: &mut Detector<Table>, removed: &mut Vec<Process>) -> Result<()> {
    report(detector, removed, 0)?;
    report(detector, removed, 1)
}

/// The detector over the edges to process 9.
fn watching(alloc: Global) -> Result<Detector<Table>> {
    let mut table = Table::new(alloc, Params::new(3, 2, 1)?);
    observe(&mut table)?;
    Ok(Detector::new(alloc, table))
}

/// Which processes are to be removed, if two of three observers report process 9.
pub fn removed(alloc: Global) -> Result<Vec<Process>> {
    let mut detector = watching(alloc)?;
    let mut removed = Vec::new(alloc);
    report_both(&mut detector, &mut removed)?;
    Ok(removed)
}
