// A part of the probes of a node, and what a round of it asks for.

ghost use Rattle.std.specs.Prelude.{◌≡◌, ◌≢◌, ℕ, Bool, true, List, [], ◌∷◌, length, vec_len, slice_set, Some, IfSome, IfNone, IfOk, OnOk, OnErr};
ghost use Rattle.rapid_model.specs.Process.{Process as ModelProcess};
ghost use Rattle.rapid_monitor.specs.Probes.{book_when, round_when, all_judged, all_told};
ghost use Rattle.rapid_rounds.specs.PartRounds.{blank_round, with_probe, with_down};

use rapid_config::{ConfigId, Params};
use rapid_endpoint::Process;
use rapid_monitor::{EdgeSeat, EdgeSink, ProbeBook, probe_part};
use std::alloc::{AllocError, Global};

/// How many rings there are at most.
pub const MOST_RINGS: usize = Params::MOST_RINGS as usize;

/// What a round of a part asks for: whom to probe, and which edges went down, each by ring.
#[derive(Clone, Copy)]
pub struct PartRound {
    /// The configuration in which it was made.
    pub id: ConfigId,
    /// The members that are to be probed.
    pub probes: [Option<Process>; MOST_RINGS],
    /// The members to which an edge went down.
    pub downs: [Option<Process>; MOST_RINGS],
}

/// Notes a process at its ring.
#[tactic(auto, using(std::proofs::lemmas::List::set_past))]
fn put(slots: &mut [Option<Process>; MOST_RINGS], ring: u8, subject: &Process)
    ensures { slots.new ≡ slice_set slots.old ring (Some subject.now) }
{
    let place = usize::from(ring);
    if place < MOST_RINGS {
        slots[place] = Some(*subject);
    }
}

impl EdgeSink for PartRound {
    type State = PartRound;

    ghost state = { λ round. round };

    ghost probed = { with_probe };

    ghost went_down = { with_down };

    fn probe(&mut self, ring: u8, subject: &Process) {
        put(&mut self.probes, ring, subject);
    }

    fn edge_down(&mut self, ring: u8, subject: &Process) {
        put(&mut self.downs, ring, subject);
    }
}

/// A part of the probes of a node in one view: the book of its rings, and a seat for each edge.
#[derive(Drop)]
pub struct Part {
    id: ConfigId,
    book: ProbeBook,
    seats: Vec<EdgeSeat>,
    ghost one_each: { vec_len seats ≡ length book.edges },
}

impl Part {
    /// A part in the configuration with this identifier; none if there are not as many seats as the
    /// book has edges.
    pub fn new(id: ConfigId, book: ProbeBook, seats: Vec<EdgeSeat>) -> Option<Part>
        ensures part { IfSome result (λ p. (p.id ≡ id) × (p.book ≡ book) × (p.seats.items ≡ seats.items)) }
        ensures none { IfNone result (vec_len seats ≢ length book.edges) }
    {
        if seats.len() != book.len() {
            return None;
        }
        Some(Part { id, book, seats })
    }

    /// A process has acknowledged a probe.
    pub fn ack(&mut self, process: &Process)
        ensures book { (subjects : List (ℕ × ModelProcess)) (begun : Bool) (acks : List ModelProcess) → self.old.book ≡ book_when subjects begun acks →
            self.new.book ≡ book_when subjects begun (process.now ∷ acks) }
        ensures seats { self.new.seats ≡ self.old.seats }
        ensures id { self.new.id ≡ self.old.id }
    {
        self.book.ack(process);
    }

    /// A round of the part: each seat takes whether its subject has acknowledged since the last. What
    /// it asks for is a probe on each ring of the part, and each edge that went down by it. If out of
    /// memory the part is as it was.
    pub fn round(&mut self, alloc: Global) -> Result<PartRound, AllocError>
        ensures seats { (subjects : List (ℕ × ModelProcess)) (begun : Bool) (acks : List ModelProcess) → self.old.book ≡ book_when subjects begun acks →
            OnOk result (self.new.seats.items ≡ all_judged self.old.seats.items (round_when subjects begun acks)) }
        ensures book { (subjects : List (ℕ × ModelProcess)) (begun : Bool) (acks : List ModelProcess) → self.old.book ≡ book_when subjects begun acks →
            OnOk result (self.new.book ≡ book_when subjects true []) }
        ensures asked { (subjects : List (ℕ × ModelProcess)) (begun : Bool) (acks : List ModelProcess) → self.old.book ≡ book_when subjects begun acks →
            IfOk result (λ round. round ≡ all_told with_probe with_down (blank_round self.old.id) self.old.seats.items (round_when subjects begun acks)) }
        ensures id { self.new.id ≡ self.old.id }
        ensures unchanged { OnErr result ((self.new.book ≡ self.old.book) × (self.new.seats.items ≡ self.old.seats.items)) }
    {
        let mut round = PartRound {
            id: self.id,
            probes: [None; MOST_RINGS],
            downs: [None; MOST_RINGS],
        };
        probe_part(alloc, self.seats.as_mut_slice(), &mut self.book, &mut round)?;
        Ok(round)
    }
}
