// Many threads that probe parts of one member's edges, and watchers of all of them.

use crate::numbered::{Name, process};
use crate::rings::rings::rings_of;
use rapid_endpoint::Process;
use rapid_monitor::{EdgeBoard, EdgeSeat, EdgeSink, ProbeBook, probe_part};
use rapid_rings::Rings;
use std::alloc::{AllocError, Global};
use std::test::*;
use std::thread;

/// How many edges are probed.
const EDGES: usize = 16;

/// In how many threads.
const PROBERS: u8 = 4;

/// How many watchers look at all edges.
const WATCHERS: usize = 3;

/// A member that observes the other on sixteen rings.
const PAIR: [Name; 2] = [(1, 1), (2, 2)];

/// What a sink got for each ring: how many probes are to go out, and how often the edge went down.
#[derive(Drop)]
struct Told {
    probes: [u32; EDGES],
    downs: [u32; EDGES],
    /// Whether all of it was of process 2 and of rings below 16.
    of_the_other: bool,
}

/// One more of a ring.
fn count(counts: &mut [u32; EDGES], ring: u8) -> bool {
    let place = usize::from(ring);
    if place >= EDGES {
        return false;
    }
    counts[place] = counts[place].wrapping_add(1);
    true
}

impl EdgeSink for Told {
    type State = ();

    ghost state = { λ _. tt };

    ghost probed = { λ x _ _. x };

    ghost went_down = { λ x _ _. x };

    fn probe(&mut self, ring: u8, subject: &Process) {
        self.of_the_other &= count(&mut self.probes, ring) && *subject == process(2);
    }

    fn edge_down(&mut self, ring: u8, subject: &Process) {
        self.of_the_other &= count(&mut self.downs, ring) && *subject == process(2);
    }
}

/// What one thread probes, and what its sink gets.
#[derive(Drop)]
struct Prober {
    seats: Vec<EdgeSeat>,
    book: ProbeBook,
    told: Told,
}

impl Prober {
    /// A round; false if there are not as many seats as edges.
    fn round(&mut self, alloc: Global) -> Result<bool, AllocError> {
        if self.seats.len() != self.book.len() {
            return Ok(false);
        }
        let seats = self.seats.as_mut_slice();
        probe_part(alloc, seats, &mut self.book, &mut self.told)?;
        Ok(true)
    }

    /// As many rounds, each after the other process has acknowledged or not.
    fn rounds(&mut self, alloc: Global, count: u8, acknowledged: bool) -> Result<bool, AllocError> {
        for _ in 0..count {
            if acknowledged {
                self.book.ack(&process(2));
            }
            if !self.round(alloc)? {
                return Ok(false);
            }
        }
        Ok(true)
    }
}

/// A first round, four without an acknowledgement and twenty with it; none if one was not made.
fn probe_all(alloc: Global, mut prober: Prober) -> Option<Told> {
    let silent = matches!(prober.rounds(alloc, 5, false), Ok(true));
    let answered = matches!(prober.rounds(alloc, 20, true), Ok(true));
    if silent && answered {
        Some(prober.told)
    } else {
        None
    }
}

/// The seats of the rings that leave this number, out of those by ring; the others stay, by ring.
fn seats_of(
    alloc: Global,
    seats: Vec<EdgeSeat>,
    part: usize,
    parts: usize,
) -> Result<(Vec<EdgeSeat>, Vec<EdgeSeat>), AllocError> {
    let mut own = Vec::new(alloc);
    let mut others = Vec::new(alloc);
    let mut place = 0usize;
    for seat in seats {
        if place == part {
            own.push(seat)?;
        } else {
            others.push(seat)?;
        }
        place = if place.wrapping_add(1) == parts {
            0
        } else {
            place.wrapping_add(1)
        };
    }
    Ok((own, others))
}

/// Who probes this part of the edges of process 1.
fn prober_of(
    alloc: Global,
    rings: &Rings,
    seats: Vec<EdgeSeat>,
    part: u8,
) -> Result<Prober, AllocError> {
    Ok(Prober {
        seats,
        book: ProbeBook::part(alloc, rings, &process(1), part, PROBERS)?,
        told: Told {
            probes: [0; EDGES],
            downs: [0; EDGES],
            of_the_other: true,
        },
    })
}

/// All who probe edges of process 1, each with its seats of these, which are by ring.
fn all_probers(
    alloc: Global,
    rings: &Rings,
    seats: Vec<EdgeSeat>,
) -> Result<Vec<Prober>, AllocError> {
    let mut all = Vec::new(alloc);
    let mut left = seats;
    for part in 0..PROBERS {
        // The seats of the parts before are gone, so this part has the first of each row.
        let (own, others) = seats_of(alloc, left, 0, usize::from(PROBERS - part))?;
        all.push(prober_of(alloc, rings, own, part)?)?;
        left = others;
    }
    Ok(all)
}

/// Whether a watcher answers this of all edges.
fn answers(board: &mut EdgeBoard, is_down: bool) -> bool {
    for edge in 0..EDGES {
        if edge >= board.edges() || board.is_down(edge) != is_down {
            return false;
        }
    }
    true
}

/// Whether all watchers answer this of all edges.
fn all_answer(boards: &mut Vec<EdgeBoard>, is_down: bool) -> bool {
    for i in 0..boards.len() {
        if !answers(&mut boards[i], is_down) {
            return false;
        }
    }
    true
}

/// How many rings had all their probes, and how many of these went down once.
fn told_of(told: &Told) -> (u32, u32) {
    let mut probed = 0u32;
    let mut down = 0u32;
    for ring in 0..EDGES {
        if told.probes[ring] == 25 {
            probed = probed.wrapping_add(1);
        }
        if told.downs[ring] == 1 {
            down = down.wrapping_add(1);
        }
    }
    (probed, down)
}

/// The board of sixteen edges, and who probes them.
type Scene = (Vec<EdgeBoard>, Vec<Prober>);

/// The board of process 1 beside process 2 on sixteen rings, and who probes its edges.
fn scene(alloc: Global) -> Result<Scene, Fail> {
    let rings = rings_of(alloc, (16, 9, 3), &PAIR)?;
    let (boards, seats) = EdgeBoard::new(alloc, EDGES, WATCHERS)?;
    Ok((boards, all_probers(alloc, &rings, seats)?))
}

#[test]
fn four_threads_bring_sixteen_edges_down_once(rt: HostRuntime) -> Result<(), Fail> {
    let alloc = rt.alloc();
    let (mut boards, probers) = scene(alloc)?;
    assert!(rt; boards.len() == WATCHERS && all_answer(&mut boards, false));
    let all = thread::map_vec(&rt, probers, &|prober| probe_all(alloc, prober))?;
    assert_eq!(rt; all.len(), usize::from(PROBERS));
    for (prober, told) in all.iter().enumerate() {
        let told = told.as_ref().expect(&rt, "all rounds");
        assert!(rt; told.of_the_other, "at {prober}");
        assert_eq!(rt; told_of(told), (4, 4), "at {prober}");
    }
    assert!(rt; all_answer(&mut boards, true));
    Ok(())
}
