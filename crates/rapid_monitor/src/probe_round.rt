// Rounds of probes, a part of the edges each.

ghost use Rattle.std.specs.Prelude.{◌≡◌, ℕ, Bool, true, not, ◌&&◌, List, [], length, if◌then◌else◌, OnOk, OnErr};
ghost use Rattle.rapid_model.specs.Process.{Process as ModelProcess};
ghost use Rattle.rapid_monitor.specs.Boards.{is_down_verdict};
ghost use Rattle.rapid_monitor.specs.Probes.{book_when, round_when, judged, all_judged, goes_down as falls, all_told};

use crate::{EdgeSeat, ProbeBook, Probing, Verdict};
use rapid_endpoint::Process;
use std::alloc::{AllocError, Global};

/// What a round reports of its edges.
pub trait EdgeSink {
    /// What clauses see of the sink. No value of it is made.
    type State;

    ghost state: { Self → Self.State };

    ghost probed: { Self.State → ℕ → ModelProcess → Self.State };

    ghost went_down: { Self.State → ℕ → ModelProcess → Self.State };

    /// A probe of who is observed on this ring is to go out.
    fn probe(&mut self, ring: u8, subject: &Process)
        ensures { state self.new ≡ probed (state self.old) ring subject.now };

    /// The edge to who is observed on this ring went down: it was up before.
    fn edge_down(&mut self, ring: u8, subject: &Process)
        ensures { state self.new ≡ went_down (state self.old) ring subject.now };
}

/// Whether a verdict is `Down`.
fn is_down(verdict: Verdict) -> bool
    ensures { result ≡ is_down_verdict verdict }
{
    match verdict {
        Verdict::Down => true,
        Verdict::Up => false,
    }
}

/// Takes what became of the last probe of an edge, and says whether the edge went down by it.
fn judge(seat: &mut EdgeSeat, probing: &Probing) -> bool
    ensures seat { seat.new ≡ judged seat.old probing.now.answered }
    ensures down { result ≡ falls seat.old probing.now.answered }
{
    let Some(answered) = probing.answered else {
        return false;
    };
    let was_down = is_down(seat.verdict());
    is_down(seat.probe(answered)) && !was_down
}

/// Tells the sink that an edge went down, if it did.
fn tell_down<S: EdgeSink>(sink: &mut S, probing: &Probing, goes_down: bool)
    ensures { S.state sink.new ≡ (if goes_down then S.went_down (S.state sink.old) probing.now.ring probing.now.subject else S.state sink.old) }
{
    if goes_down {
        sink.edge_down(probing.ring, &probing.subject);
    }
}

/// Tells the sink of an edge.
fn tell<S: EdgeSink>(sink: &mut S, probing: &Probing, goes_down: bool)
    ensures { S.state sink.new ≡ S.probed (if goes_down then S.went_down (S.state sink.old) probing.now.ring probing.now.subject else S.state sink.old) probing.now.ring probing.now.subject }
{
    tell_down(sink, probing, goes_down);
    sink.probe(probing.ring, &probing.subject);
}

/// A round of the probes of a book, of which each edge has one of the seats, in the book's order.
/// From the second round on a seat takes whether its subject has acknowledged since the last one.
/// For each edge the sink is first told that it went down, if it was up before. So this is told
/// once for each seat. Then it is told to probe the edge's subject. If there is no memory nothing
/// has changed, and the sink is told nothing.
pub fn probe_part<S: EdgeSink>(
    alloc: Global,
    seats: &mut [EdgeSeat],
    book: &mut ProbeBook,
    sink: &mut S,
) -> Result<(), AllocError>
    requires { length seats.old ≡ length book.old.edges }
    ensures seats { (subjects : List (ℕ × ModelProcess)) (begun : Bool) (acks : List ModelProcess) → book.old ≡ book_when subjects begun acks →
        OnOk result (seats.new ≡ all_judged seats.old (round_when subjects begun acks)) }
    ensures book { (subjects : List (ℕ × ModelProcess)) (begun : Bool) (acks : List ModelProcess) → book.old ≡ book_when subjects begun acks →
        OnOk result (book.new ≡ book_when subjects true []) }
    ensures told { (subjects : List (ℕ × ModelProcess)) (begun : Bool) (acks : List ModelProcess) → book.old ≡ book_when subjects begun acks →
        OnOk result (S.state sink.new ≡ all_told S.probed S.went_down (S.state sink.old) seats.old (round_when subjects begun acks)) }
    ensures count { length book.new.edges ≡ length book.old.edges }
    ensures unchanged { OnErr result ((seats.new ≡ seats.old) × (book.new ≡ book.old)) }
    ensures silent { OnErr result (S.state sink.new ≡ S.state sink.old) }
{
    let probings = book.round(alloc)?;
    judge_all(seats, probings.as_slice(), sink);
    Ok(())
}

/// Takes the results of the last probes of edges, and reports each to the sink.
fn judge_all<S: EdgeSink>(seats: &mut [EdgeSeat], probings: &[Probing], sink: &mut S)
    requires { length seats.old ≡ length probings.now }
    ensures seats { seats.new ≡ all_judged seats.old probings.now }
    ensures told { S.state sink.new ≡ all_told S.probed S.went_down (S.state sink.old) seats.old probings.now }
{
    for i in 0..probings.len() {
        let probing = probings[i];
        let goes_down = judge(&mut seats[i], &probing);
        tell(sink, &probing, goes_down);
    }
}
