// Tables of explicit edges, compared with lists of edges, over all short sequences of calls.

use crate::numbered::{process, tagged};
use rapid_config::Params;
use rapid_endpoint::Process;
use rapid_rings::{ObserverTable, Table, TableError};
use std::alloc::{AllocError, Global};
use std::test::Fail;

/// How many rings a table has.
const RINGS: u8 = 2;

/// Three processes. Two of them differ in tags alone.
type Three = [Process; 3];

/// A call of a table.
#[derive(Clone, Copy)]
enum Call {
    /// A process is made a joiner.
    Joiner(Process),
    /// An edge: a ring, an observer and a subject.
    Add(u8, Process, Process),
}

/// Joiners and edges, gone over from the first on.
#[derive(Drop)]
struct Listed {
    joiners: Vec<Process>,
    edges: Vec<(u8, Process, Process)>,
}

impl Listed {
    /// The observer on a ring of a subject.
    fn observer(&self, ring: u8, subject: &Process) -> Option<Process> {
        for (on, observer, of) in &self.edges {
            if *on == ring && of == subject {
                return Some(*observer);
            }
        }
        None
    }

    /// Whether a process is a member.
    fn is_member(&self, process: &Process) -> bool {
        for joiner in &self.joiners {
            if joiner == process {
                return false;
            }
        }
        true
    }

    /// Adds an edge, if there is such a ring, and the subject has no observer on it.
    fn add(&mut self, ring: u8, observer: Process, subject: Process) -> Result<(), TableError> {
        if ring >= RINGS {
            return Err(TableError::RingRange);
        }
        if self.observer(ring, &subject).is_some() {
            return Err(TableError::EdgeTwice);
        }
        self.edges.push((ring, observer, subject))?;
        Ok(())
    }
}

/// Whether a call of both answers the same.
fn answer_alike(table: &mut Table, listed: &mut Listed, call: &Call) -> Result<bool, AllocError> {
    match call {
        Call::Joiner(process) => {
            listed.joiners.push(*process)?;
            Ok(table.joiner(*process).is_ok())
        }
        Call::Add(ring, observer, subject) => {
            let expected = listed.add(*ring, *observer, *subject);
            Ok(table.add(*ring, *observer, *subject) == expected)
        }
    }
}

/// Whether both say the same of a subject on a ring, wherever it is looked for first.
fn say_the_same(
    table: &Table,
    listed: &Listed,
    ring: u8,
    subject: &Process,
    place: &mut usize,
) -> bool {
    let member = listed.is_member(subject);
    let observer = listed.observer(ring, subject);
    table.is_member(subject) == member
        && table.observer(ring, subject) == observer
        && table.member_and_observer(ring, subject) == (member, observer)
        && table.member_and_observer_near(ring, subject, place) == (member, observer)
}

/// Whether both say the same of who observes a subject on a ring, wherever it is looked for first.
fn name_the_same(
    (table, listed): (&Table, &Listed),
    ring: u8,
    subject: &Process,
    processes: &Three,
    place: &mut usize,
) -> bool {
    for process in processes {
        let observer = process.as_ref();
        let said = table.member_and_observes_near(&observer, ring, &subject.as_ref(), place);
        let observes = listed.observer(ring, subject) == Some(*process);
        if said != (listed.is_member(subject), observes) {
            return false;
        }
    }
    true
}

/// Whether both say the same of all processes on a ring. Each is looked for first where the one before
/// it was found.
fn are_alike(table: &Table, listed: &Listed, ring: u8, processes: &Three) -> bool {
    let mut place = 0;
    for subject in processes {
        if !say_the_same(table, listed, ring, subject, &mut place)
            || !name_the_same((table, listed), ring, subject, processes, &mut place)
        {
            return false;
        }
    }
    true
}

/// Adds the edges from one process to others on a ring to calls.
fn push_edges(
    calls: &mut Vec<Call>,
    ring: u8,
    observer: Process,
    processes: &Three,
) -> Result<(), AllocError> {
    for subject in processes {
        calls.push(Call::Add(ring, observer, *subject))?;
    }
    Ok(())
}

/// Each joiner, each edge on the two rings, and one on no ring.
fn all_calls(alloc: Global, processes: &Three) -> Result<Vec<Call>, AllocError> {
    let mut calls = Vec::new(alloc);
    let [first, _, last] = *processes;
    calls.push(Call::Add(RINGS, first, last))?;
    for process in processes {
        calls.push(Call::Joiner(*process))?;
        push_edges(&mut calls, 0, *process, processes)?;
        push_edges(&mut calls, 1, *process, processes)?;
    }
    Ok(calls)
}

/// Whether a table and lists answer these calls alike, in order, and then say the same.
fn run_alike(alloc: Global, calls: &[Call], processes: &Three) -> Result<bool, Fail> {
    let mut table = Table::new(alloc, Params::new(RINGS, 2, 1)?);
    let mut listed = Listed {
        joiners: Vec::new(alloc),
        edges: Vec::new(alloc),
    };
    for call in calls {
        if !answer_alike(&mut table, &mut listed, call)? {
            return Ok(false);
        }
    }
    Ok(
        are_alike(&table, &listed, 0, processes)
            && are_alike(&table, &listed, 1, processes)
            && are_alike(&table, &listed, RINGS, processes),
    )
}

/// After each two of the calls, each third.
#[test]
fn a_table_says_what_lists_of_edges_say(rt: HostRuntime) -> Result<(), Fail> {
    let processes = [process(1), tagged(1, &[b"db"])?, process(2)];
    let calls = all_calls(rt.alloc(), &processes)?;
    for first in &calls {
        for second in &calls {
            for third in &calls {
                let run = [*first, *second, *third];
                assert!(rt; run_alike(rt.alloc(), &run, &processes)?);
            }
        }
    }
    Ok(())
}
