// The parts of a node's probes, what its watcher answers, and how that is printed.

use rapid_config::{Configuration, Params};
use rapid_endpoint::{Endpoint, Process, ProcessId, Tags};
use rapid_lines::write_edges;
use rapid_rounds::{EdgeState, ObservedEdges, Part, PartRound};
use std::alloc::{AllocError, Global};
use std::process::Abort;
use std::test::*;

/// The process of this number.
fn process(number: u8) -> Process {
    let id = [0, 0, 0, 0, 0, 0, 0, 0, 0, 0, 0, 0, 0, 0, 0, number];
    Process::new(
        ProcessId::new(id),
        Endpoint::new([127, 0, 0, 1], 7_650 + u16::from(number)),
    )
}

/// Whom process 1 observes among five.
fn watch_of_five(alloc: Global) -> Result<ObservedEdges, Fail> {
    let members = [process(1), process(2), process(3), process(4), process(5)];
    let configuration = Configuration::seed(alloc, Params::new(16, 9, 3)?, &members)?;
    Ok(ObservedEdges::new(alloc, &configuration, &process(1))?)
}

/// How many processes are named.
fn named(slots: &[Option<Process>; 16]) -> u32 {
    let mut count = 0u32;
    for slot in slots {
        if slot.is_some() {
            count = count.wrapping_add(1);
        }
    }
    count
}

/// One more round of each part, before which process 2 alone has acknowledged. How many probes are
/// to go out, and how many edges went down.
fn round(alloc: Global, parts: &mut Vec<Part>) -> Result<(u32, u32), AllocError> {
    let mut probes = 0u32;
    let mut downs = 0u32;
    for i in 0..parts.len() {
        parts[i].ack(&process(2));
        let PartRound {
            id: _,
            probes: probed,
            downs: fallen,
        } = parts[i].round(alloc)?;
        probes = probes.wrapping_add(named(&probed));
        downs = downs.wrapping_add(named(&fallen));
    }
    Ok((probes, downs))
}

/// How many edges there are, and to whom but process 2.
fn edges_of(states: &[EdgeState]) -> (u32, u32) {
    let mut all = 0u32;
    let mut silent = 0u32;
    for state in states {
        all = all.wrapping_add(1);
        if state.member != process(2) {
            silent = silent.wrapping_add(1);
        }
    }
    (all, silent)
}

/// Whether the edges to all but process 2 are down, or none is.
fn are_down(states: &[EdgeState], silent: bool) -> bool {
    for state in states {
        if state.is_down != (silent && state.member != process(2)) {
            return false;
        }
    }
    true
}

/// Sees that in this many parts each edge is probed in each round. Sees that each edge whose
/// subject does not acknowledge goes down once, at the fifth round.
fn probe_in<R: Abort>(rt: &R, alloc: Global, count: u8) -> Result<(), Fail> {
    let mut watch = watch_of_five(alloc)?;
    let mut parts = watch.take_parts(count)?.expect(rt, "parts");
    assert_eq!(rt; parts.len(), usize::from(count));
    assert!(rt; watch.take_parts(count)?.is_none(), "at {count}");
    let (all, silent) = edges_of(watch.states()?.as_slice());
    assert!(rt; 0 < silent && silent < all, "at {count}: {silent}, {all}");
    for number in 0..9 {
        let are_down = are_down(watch.states()?.as_slice(), 4 < number);
        assert!(rt; are_down, "at {count}, {number}");
        let downs = if number == 4 { silent } else { 0 };
        let made = round(alloc, &mut parts)?;
        assert_eq!(rt; made, (all, downs), "at {count}, {number}");
    }
    Ok(())
}

#[test]
fn parts_of_probes(rt: HostRuntime) -> Result<(), Fail> {
    for count in [1u8, 2, 4, 16] {
        probe_in(&rt, rt.alloc(), count)?;
    }
    Ok(())
}

/// An edge on this ring to process 2 with these tags.
fn edge(ring: u8, tags: &[&[u8]], is_down: bool) -> Result<EdgeState, Fail> {
    Ok(EdgeState {
        ring,
        member: Process::of(process(2).id(), process(2).endpoint(), Tags::new(tags)?),
        is_down,
    })
}

#[test]
fn edges_are_printed_with_tags(rt: HostRuntime) -> Result<(), Fail> {
    let edges = [
        edge(0, &[b"db", b"zone-a"], false)?,
        edge(3, &[], true)?,
        edge(15, &[b"!"], true)?,
    ];
    let mut printed = Vec::new(rt.alloc());
    write_edges(&edges, &mut printed)?;
    assert_eq!(rt;
        printed.as_slice(),
        b"edge 0 127.0.0.1:7652[db,zone-a] up\nedge 3 127.0.0.1:7652 down\nedge 15 127.0.0.1:7652[!] down\n".as_slice()
    );
    Ok(())
}
