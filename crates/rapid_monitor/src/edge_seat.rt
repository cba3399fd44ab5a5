// The seat of the owner of an edge.

ghost use Rattle.std.specs.Prelude.{◌≡◌, ◌↔◌, ℕ, ◌<◌, [], ◌∷◌, ◌++◌};
ghost use Rattle.rapid_model.specs.Edge.{HasDownStretch};
ghost use Rattle.rapid_monitor.specs.ProbeWord.{word_after, newest_ok};
ghost use Rattle.rapid_monitor.specs.BoardRule.{owner_of, IsDown, IsIn};
ghost use Rattle.rapid_monitor.specs.Boards.{verdict_after};
ghost use Rattle.rapid_monitor.specs.declared.edge.Verdict.TheVariants.{Down};

use crate::Verdict;
use crate::board_rule::{BoardKnowledge, Finds, Stores, Words};
use crate::probe_word::{is_down, next_word};
use atomic_table::Seat;
use std::marker::Model;
use std::sync::Arc;

/// The seat of the owner of one edge of a board. It takes the results of the probes of that edge,
/// and it alone changes the word of the edge. Contracts see the results.
#[derive(Drop)]
pub struct EdgeSeat {
    pub(crate) words: Arc<Words>,
    pub(crate) seat: Seat<(), BoardKnowledge>,
    pub(crate) edge: usize,
    /// The verdict of the results so far.
    pub(crate) verdict: Verdict,
}

impl Model for EdgeSeat {
    ghost use Rattle.std.specs.Prelude.{◌≡◌, ◌<◌, []};
    ghost use Rattle.std.specs.Arc.{arc_value};
    ghost use Rattle.rapid_monitor.specs.BoardRule.{owner_of};
    ghost use Rattle.rapid_monitor.specs.Boards.{Owned, verdict_after};

    ghost Value = { Owned };

    ghost view = { λ s. record { board = s.seat.table_id; edge = s.edge; results = s.seat.me.0.results } };

    ghost invariant = { λ s. (s.seat.table_id ≡ (arc_value s.words).shared.table_id) × (s.seat.me ≡ (owner_of s.edge s.seat.me.0.results s.seat.me.0.known, [])) × ((arc_value s.words).shared.table_id.words ≡ (arc_value s.words).shared.key) × (s.edge < (arc_value s.words).shared.key) × (s.verdict ≡ verdict_after s.seat.me.0.results) };
}

/// Loads the word of an edge by its owner's seat.
pub(crate) fn find(words: &Words, seat: &mut Seat<(), BoardKnowledge>, edge: usize) -> u64
    requires own { seat.old.table_id ≡ words.now.shared.table_id }
    requires owner { seat.old.me ≡ (owner_of edge seat.old.me.0.results seat.old.me.0.known, []) }
    requires within { (words.now.shared.table_id.words ≡ words.now.shared.key) × (edge < words.now.shared.key) }
    ensures same { (seat.new.table_id ≡ seat.old.table_id) × (seat.new.id ≡ seat.old.id) × (seat.new.me ≡ seat.old.me) }
    ensures word { result ≡ word_after seat.old.me.0.results }
    ensures known { IsIn edge seat.old.me.0.known → IsDown seat.old.me.0.results }
{
    words.shared.load::<Finds>(seat, edge)
}

/// Stores the word of one more result by the owner's seat.
fn store(words: &Words, seat: &mut Seat<(), BoardKnowledge>, edge: usize, word: u64)
    requires own { seat.old.table_id ≡ words.now.shared.table_id }
    requires owner { seat.old.me ≡ (owner_of edge seat.old.me.0.results seat.old.me.0.known, []) }
    requires within { (words.now.shared.table_id.words ≡ words.now.shared.key) × (edge < words.now.shared.key) }
    requires word { word ≡ word_after (seat.old.me.0.results ++ newest_ok word ∷ []) }
    ensures same { (seat.new.table_id ≡ seat.old.table_id) × (seat.new.id ≡ seat.old.id) }
    ensures stored { seat.new.me ≡ (owner_of edge (seat.old.me.0.results ++ newest_ok word ∷ []) seat.old.me.0.known, []) }
{
    words.shared.store::<Stores>(seat, edge, word);
}

impl EdgeSeat {
    /// Takes the result of one more probe of the edge. The answer is whether the edge is down:
    /// whether some stretch of at most ten successive results so far holds four failures. It loads
    /// the word of the edge and stores the next; it takes no memory and never waits.
    pub fn probe(&mut self, ok: bool) -> Verdict
        ensures same { (self.new.board ≡ self.old.board) × (self.new.edge ≡ self.old.edge) }
        ensures results { self.new.results ≡ self.old.results ++ ok ∷ [] }
        ensures verdict { result ≡ verdict_after self.new.results }
        ensures so_far { (result ≡ Down) ↔ HasDownStretch self.new.results }
    {
        let EdgeSeat {
            words,
            seat,
            edge,
            verdict,
        } = self;
        let words: &Words = words;
        let word = find(words, seat, *edge);
        let next = next_word(word, ok);
        store(words, seat, *edge, next);
        *verdict = Verdict::of(is_down(next));
        *verdict
    }

    /// What the last probe answered; `Up` if there was none. It looks at nothing.
    pub fn verdict(&self) -> Verdict
        ensures { result ≡ verdict_after self.now.results }
    {
        self.verdict
    }
}
