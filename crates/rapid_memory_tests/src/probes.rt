// The probes of a member: its board, its book and their rounds. Each is made once more if memory ran out,
// which changes nothing, and then does what it does with memory.

use crate::numbered::{THREE, founded, process};
use rapid_endpoint::Process;
use rapid_monitor::{BoardError, EdgeBoard, EdgeSeat, EdgeSink, ProbeBook, probe_part};
use rapid_rings::Rings;
use std::alloc::{AllocError, Global};
use std::test::Fail;

/// How many probes are to go out, and how many edges went down.
#[derive(Clone, Copy, Debug, PartialEq, Eq)]
struct Told {
    probes: u32,
    downs: u32,
}

impl EdgeSink for Told {
    type State = ();

    ghost state = { λ _. tt };

    ghost probed = { λ x _ _. x };

    ghost went_down = { λ x _ _. x };

    fn probe(&mut self, _ring: u8, _subject: &Process) {
        self.probes = self.probes.saturating_add(1);
    }

    fn edge_down(&mut self, _ring: u8, _subject: &Process) {
        self.downs = self.downs.saturating_add(1);
    }
}

/// Who probes the edges of process 1 beside process 2 on three rings, and a watcher of them.
#[derive(Drop)]
struct Prober {
    watcher: EdgeBoard,
    seats: Vec<EdgeSeat>,
    book: ProbeBook,
    told: Told,
}

/// A board of three edges with one watcher, made once more if out of memory.
fn board(alloc: Global) -> Result<(Vec<EdgeBoard>, Vec<EdgeSeat>), BoardError> {
    match EdgeBoard::new(alloc, 3, 1) {
        Err(BoardError::OutOfMemory) => EdgeBoard::new(alloc, 3, 1),
        made => made,
    }
}

/// The book of process 1 in these rings, made once more if out of memory.
fn book(alloc: Global, rings: &Rings) -> Result<ProbeBook, AllocError> {
    match ProbeBook::new(alloc, rings, &process(1)) {
        Err(_refused) => ProbeBook::new(alloc, rings, &process(1)),
        made => made,
    }
}

/// Who probes the edges of process 1; none if the board has no watcher.
fn begun(alloc: Global) -> Result<Option<Prober>, Fail> {
    let rings = Rings::new(alloc, &founded(alloc, THREE, &[(1, 1), (2, 2)])?)?;
    let (mut watchers, seats) = board(alloc)?;
    let book = book(alloc, &rings)?;
    let Some(watcher) = watchers.pop() else {
        return Ok(None);
    };
    Ok(Some(Prober {
        watcher,
        seats,
        book,
        told: Told {
            probes: 0,
            downs: 0,
        },
    }))
}

impl Prober {
    /// A round; false if there are not as many seats as edges.
    fn try_round(&mut self, alloc: Global) -> Result<bool, AllocError> {
        if self.seats.len() != self.book.len() {
            return Ok(false);
        }
        let seats = self.seats.as_mut_slice();
        probe_part(alloc, seats, &mut self.book, &mut self.told)?;
        Ok(true)
    }

    /// Whether a round is made, at once or when it is begun again. After it these many probes went
    /// out and edges went down, and as many edges are down.
    fn rounds_to(&mut self, alloc: Global, probes: u32, downs: u32) -> bool {
        let before = self.told;
        let is_made = match self.try_round(alloc) {
            Err(_refused) => self.told == before && matches!(self.try_round(alloc), Ok(true)),
            Ok(is_made) => is_made,
        };
        is_made && self.told == Told { probes, downs } && self.shows(downs)
    }

    /// Whether as many edges are down.
    fn shows(&mut self, downs: u32) -> bool {
        let mut count = 0u32;
        for edge in 0..3usize {
            if edge < self.watcher.edges() && self.watcher.is_down(edge) {
                count = count.saturating_add(1);
            }
        }
        count == downs
    }
}

/// The first round has no results, and three bring three failures. Then process 2 acknowledges, so the
/// fourth failure comes one round later, and brings each of the three edges down.
#[test]
fn out_of_memory_leaves_the_probes_as_they_were(rt: HostRuntime) -> Result<(), Fail> {
    let mut prober = begun(rt.alloc())?.expect(&rt, "a watcher");
    for probes in [3, 6, 9, 12] {
        assert!(rt; prober.rounds_to(rt.alloc(), probes, 0), "at {probes}");
    }
    prober.book.ack(&process(2));
    assert!(rt; prober.rounds_to(rt.alloc(), 15, 0));
    assert!(rt; prober.rounds_to(rt.alloc(), 18, 3));
    assert!(rt; prober.rounds_to(rt.alloc(), 21, 3));
    Ok(())
}
