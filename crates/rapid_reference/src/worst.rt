// The batch that implies most: one report on each of 1,024 processes, of which all sixteen rings
// follow.
use crate::cuts::process;
use anyhow::Result;
use rapid_alerts::{Alert, Kind};
use rapid_config::{ConfigId, Params};
use rapid_cut::Detector;
use rapid_rings::Table;
use std::alloc::Global;

/// How many processes there are.
const PROCESSES: u16 = 1024;

/// The number of the process that observes another on a ring: the one this many places behind it.
fn observer(ring: u8, subject: u16) -> u16 {
    let behind = subject.saturating_add(u16::from(ring));
    if behind < PROCESSES {
        behind + 1
    } else {
        behind - PROCESSES + 1
    }
}

/// Adds the observers of a process, one on each of sixteen rings.
fn add_observers(table: &mut Table, subject: u16) -> Result<()> {
    for ring in 0..16u8 {
        table.add(ring, process(observer(ring, subject)), process(subject))?;
    }
    Ok(())
}

/// Adds the observers of each process.
fn add_all(table: &mut Table) -> Result<()> {
    for subject in 1..=PROCESSES {
        add_observers(table, subject)?;
    }
    Ok(())
}

/// The table in which each process has an observer on each of sixteen rings.
fn table(alloc: Global) -> Result<Table> {
    let mut table = Table::new(alloc, Params::new(16, 16, 1)?);
    add_all(&mut table)?;
    Ok(table)
}

/// The alert of the first observer of each process.
fn alerts(alloc: Global) -> Result<Vec<Alert>> {
    let mut alerts = Vec::new(alloc);
    for subject in 1..=PROCESSES {
        alerts.push(alert(subject))?;
    }
    Ok(alerts)
}

/// The alert of the first observer of a process.
fn alert(subject: u16) -> Alert {
    Alert {
        observer: process(observer(0, subject)),
        subject: process(subject),
        ring: 0,
        kind: Kind::Remove,
        config: ConfigId::zero(),
    }
}

/// How many processes are in the cut of the batch.
pub fn cut_of(alloc: Global) -> Result<usize> {
    let mut detector = Detector::new(alloc, table(alloc)?);
    count(&mut detector, &alerts(alloc)?)
}

/// How many processes are in the cut of these alerts.
fn count(detector: &mut Detector<Table>, alerts: &[Alert]) -> Result<usize> {
    match detector.batch(alerts)? {
        Some(cut) => Ok(cut.processes().len()),
        None => Ok(0),
    }
}
