// Lists of distinct processes, in which each is found at its place.

use crate::short_lists::seven;
use rapid_endpoint::{KeptProcess, Process};
use rapid_roster::Roster;
use std::alloc::{AllocError, Global};
use std::test::Fail;

/// Whether the first of these processes are in the list, each at its place, and the others are not.
fn has_first(roster: &Roster, processes: &[Process], count: usize) -> bool {
    for (at, process) in processes.iter().enumerate() {
        let expected = if at < count { Some(at) } else { None };
        if roster.find(&process.as_ref()) != expected {
            return false;
        }
    }
    roster.len() == count
}

/// Whether the list shows these processes.
fn shows(roster: &Roster, processes: &[Process]) -> bool {
    let kept = roster.as_slice();
    for (at, process) in processes.iter().enumerate() {
        if at >= kept.len() || !kept[at].is(&process.as_ref()) {
            return false;
        }
    }
    kept.len() == processes.len()
}

/// Adds a process, unless it is there.
fn add(alloc: Global, roster: &mut Roster, process: &Process) -> Result<(), AllocError> {
    match roster.find(&process.as_ref()) {
        Some(_) => Ok(()),
        None => roster.push(KeptProcess::new(alloc, &process.as_ref())?),
    }
}

/// Whether the processes come to stand in the list one by one, and stay in a copy.
fn come_one_by_one(alloc: Global, processes: &[Process]) -> Result<bool, AllocError> {
    let mut roster = Roster::new(alloc);
    for (at, process) in processes.iter().enumerate() {
        if !has_first(&roster, processes, at) {
            return Ok(false);
        }
        add(alloc, &mut roster, process)?;
    }
    let copy = roster.try_copy(alloc)?;
    drop(roster);
    Ok(has_first(&copy, processes, processes.len()) && shows(&copy, processes))
}

/// Four of the seven differ in tags alone, two of them in the port alone, and two in the identifier
/// alone.
#[test]
fn a_roster_has_each_process_at_its_place(rt: HostRuntime) -> Result<(), Fail> {
    let [a, b, c, d, e, f, g] = seven()?;
    for processes in [
        [a, b, c, d, e, f, g],
        [g, f, e, d, c, b, a],
        [d, a, g, b, f, c, e],
    ] {
        assert!(rt; come_one_by_one(rt.alloc(), &processes)?);
    }
    Ok(())
}
