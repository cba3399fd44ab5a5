// One who reads the published stamps.

ghost use Rattle.std.specs.Prelude.{◌≡◌, ℕ, ◌+◌, ◌-◌, ◌<◌, ◌≤◌, List, [], ◌∷◌, ◌++◌, length, slice_index, slice_get, Some, true, false, IfOk};
ghost use Rattle.std.specs.Arc.{arc_value};
ghost use mathlib.Core.Option.{none, some};
ghost use lib.ListN.{get_elem?};
ghost use Rattle.atomic_table.specs.Table.{step};
ghost use Rattle.rapid_model.specs.Configuration as model;
ghost use Rattle.rapid_model.specs.PublishedList.{HeightsRise, IsBeginning, stamp_words};
ghost use Rattle.rapid_model.specs.Limits.{most_views};
ghost use Rattle.rapid_view.specs.Words.{IsWhole};
ghost use Rattle.rapid_view.specs.CellRule.{place, writing, Looked, informed};

use crate::cell::ViewCell;
use crate::cell_rule::{CellKnowledge, Compares, Looks, Reads, Tells};
use crate::words::from_words;
use atomic_table::Seat;
use rapid_config::Stamp;
use std::alloc::AllocError;
use std::marker::Model;
use std::sync::Arc;

/// One who reads the published stamps, with no lock.
#[derive(Drop)]
pub struct StampReader {
    cell: Arc<ViewCell>,
    seat: Seat<(), CellKnowledge>,
}

impl Model for StampReader {
    ghost use Rattle.std.specs.Prelude.{◌≡◌, ℕ, ◌<◌, ◌≤◌, [], length, false};
    ghost use Rattle.std.specs.Arc.{arc_value};
    ghost use Rattle.rapid_model.specs.PublishedList.{HeightsRise};
    ghost use Rattle.rapid_model.specs.Limits.{most_views};
    ghost use Rattle.rapid_view.specs.CellRule.{place};
    ghost use Rattle.rapid_view.specs.Seen.{Reading};

    ghost Value = { Reading };

    ghost view = { λ s. record { cell = s.seat.table_id; seen = s.seat.me.0.seen } };

    ghost invariant = { λ s. (s.seat.table_id ≡ (arc_value s.cell).table.shared.table_id)
        × ((arc_value s.cell).table.shared.table_id.words ≡ place s.seat.me.0.room) × (0 < s.seat.me.0.room)
        × (s.seat.me.0.room ≤ most_views) × (s.seat.me.1 ≡ []) × (s.seat.me.0.writes ≡ false)
        × (0 < length s.seat.me.0.seen) × HeightsRise s.seat.me.0.seen };
}

/// A word of a stamp that the seat has seen.
fn read_word(cell: &ViewCell, seat: &mut Seat<(), CellKnowledge>, at: usize) -> u64
    requires own { seat.old.table_id ≡ cell.now.table.shared.table_id }
    requires within { at < cell.now.table.shared.table_id.words }
    ensures same { (seat.new.table_id ≡ seat.old.table_id) × (seat.new.id ≡ seat.old.id) × (seat.new.me ≡ seat.old.me) }
    ensures word { (i j : ℕ) (s : model.Stamp) → get_elem? seat.old.me.0.seen i ≡ some s → at ≡ place i + j → j < 6 → result ≡ slice_index (stamp_words s) j }
{
    cell.table.shared.load::<Reads>(seat, at)
}

/// The stamp with this number, which the seat has seen.
fn read_stamp(cell: &ViewCell, seat: &mut Seat<(), CellKnowledge>, number: usize) -> Stamp
    requires own { seat.old.table_id ≡ cell.now.table.shared.table_id }
    requires within { place number + 5 < cell.now.table.shared.table_id.words }
    requires few { number < most_views }
    ensures same { (seat.new.table_id ≡ seat.old.table_id) × (seat.new.id ≡ seat.old.id) × (seat.new.me ≡ seat.old.me) }
    ensures stamp { (s : model.Stamp) → get_elem? seat.old.me.0.seen number ≡ some s → IsWhole s → result ≡ s }
{
    let start = 1 + 6 * number;
    let height = read_word(cell, seat, start);
    let a = read_word(cell, seat, start + 1);
    let b = read_word(cell, seat, start + 2);
    let c = read_word(cell, seat, start + 3);
    let d = read_word(cell, seat, start + 4);
    let members = read_word(cell, seat, start + 5);
    from_words([height, a, b, c, d, members])
}

/// Learns of the list as it is, and says how long it is.
fn look(cell: &ViewCell, seat: &mut Seat<(), CellKnowledge>) -> usize
    requires own { seat.old.table_id ≡ cell.now.table.shared.table_id }
    requires room { (0 < seat.old.me.0.room) × (seat.old.me.0.room ≤ most_views)
        × (0 < cell.now.table.shared.table_id.words) }
    ensures same { (seat.new.table_id ≡ seat.old.table_id) × (seat.new.id ≡ seat.old.id) }
    ensures looked { Looked (step cell.now.table.shared.table_id.slots 0 0 0 none) seat.old.me result seat.new.me }
{
    cell.table.shared.load::<Looks>(seat, 0) as usize
}

/// Lets the seat know what another has seen.
fn hear(cell: &ViewCell, seat: &mut Seat<(), CellKnowledge>, theirs: &mut Seat<(), CellKnowledge>)
    requires own { seat.old.table_id ≡ cell.now.table.shared.table_id }
    requires theirs { theirs.old.table_id ≡ cell.now.table.shared.table_id }
    requires room { 0 < cell.now.table.shared.table_id.words }
    ensures same { (seat.new.table_id ≡ seat.old.table_id) × (seat.new.id ≡ seat.old.id) }
    ensures other { (theirs.new.table_id ≡ theirs.old.table_id) × (theirs.new.id ≡ theirs.old.id) × (theirs.new.me ≡ theirs.old.me) }
    ensures told { seat.new.me ≡ (informed seat.old.me.0 theirs.old.me.0, seat.old.me.1) }
{
    let note = cell.table.shared.split_seat::<Tells>(theirs);
    cell.table.shared.join_seat::<Tells>(seat, note);
}

/// What the other seat has seen is a beginning of what the writer's seat has published.
fn compare(
    cell: &ViewCell,
    writer: &mut Seat<(), CellKnowledge>,
    theirs: &mut Seat<(), CellKnowledge>,
)
    requires own { writer.old.table_id ≡ cell.now.table.shared.table_id }
    requires theirs { theirs.old.table_id ≡ cell.now.table.shared.table_id }
    requires room { 0 < cell.now.table.shared.table_id.words }
    requires writer { writer.old.me ≡ (writing writer.old.me.0.room writer.old.me.0.seen [], []) }
    ensures same { (writer.new.table_id ≡ writer.old.table_id) × (writer.new.id ≡ writer.old.id) × (writer.new.me ≡ writer.old.me) }
    ensures other { (theirs.new.table_id ≡ theirs.old.table_id) × (theirs.new.id ≡ theirs.old.id) × (theirs.new.me ≡ theirs.old.me) }
    ensures order { IsBeginning theirs.old.me.0.seen writer.old.me.0.seen }
{
    hear(cell, writer, theirs);
    cell.table.shared.load::<Compares>(writer, 0);
}

impl StampReader {
    /// A reader that has seen what the writer has published.
    pub(crate) fn of_writer(
        cell: &Arc<ViewCell>,
        writer: &mut Seat<(), CellKnowledge>,
    ) -> Result<StampReader, AllocError>
        requires own { writer.old.table_id ≡ (arc_value cell.now).table.shared.table_id }
        requires room { ((arc_value cell.now).table.shared.table_id.words ≡ place writer.old.me.0.room)
            × (0 < writer.old.me.0.room) × (writer.old.me.0.room ≤ most_views) }
        requires seen { (0 < length writer.old.me.0.seen) × HeightsRise writer.old.me.0.seen }
        ensures same { (writer.new.table_id ≡ writer.old.table_id) × (writer.new.me ≡ writer.old.me) }
        ensures reader { IfOk result (λ s. (s.cell ≡ writer.old.table_id) × (s.seen ≡ writer.old.me.0.seen)) }
    {
        let seat = cell.table.shared.split_seat::<Tells>(writer);
        Ok(StampReader {
            cell: Arc::try_clone(cell)?,
            seat,
        })
    }

    /// A published stamp, at least as new as each one that was seen here. Afterwards the list up to
    /// it was seen here.
    pub fn stamp(&mut self) -> Stamp
        ensures cell { self.new.cell ≡ self.old.cell }
        ensures later { IsBeginning self.old.seen self.new.seen }
        ensures rises { HeightsRise self.new.seen }
        ensures last { slice_get self.new.seen (length self.new.seen - 1) ≡ Some result }
    {
        let StampReader { cell, seat } = self;
        let cell: &ViewCell = cell;
        let count = look(cell, seat);
        read_stamp(cell, seat, count - 1)
    }

    /// The heights rise in what was seen. It does nothing: what it ensures is for proofs.
    #[inline(always)]
    pub fn tell(&self)
        ensures { HeightsRise self.now.seen }
    {
        let _ = &self.seat;
    }

    /// From now on what the other has seen was seen here too.
    pub fn told_by(&mut self, other: &mut StampReader)
        requires { self.old.cell ≡ other.old.cell }
        ensures other { other.new ≡ other.old }
        ensures cell { self.new.cell ≡ self.old.cell }
        ensures mine { IsBeginning self.old.seen self.new.seen }
        ensures told { IsBeginning other.old.seen self.new.seen }
        ensures rises { HeightsRise self.new.seen }
    {
        let StampReader { cell, seat } = self;
        let StampReader {
            cell: _,
            seat: theirs,
        } = other;
        let cell: &ViewCell = cell;
        hear(cell, seat, theirs);
        look(cell, seat);
    }

    /// What was seen here is a beginning of what the writer's seat has published.
    pub(crate) fn compare(&mut self, writer: &mut Seat<(), CellKnowledge>)
        requires own { self.old.cell ≡ writer.old.table_id }
        requires writer { writer.old.me ≡ (writing writer.old.me.0.room writer.old.me.0.seen [], []) }
        ensures same { self.new ≡ self.old }
        ensures writer { (writer.new.table_id ≡ writer.old.table_id) × (writer.new.id ≡ writer.old.id) × (writer.new.me ≡ writer.old.me) }
        ensures order { IsBeginning self.old.seen writer.old.me.0.seen }
    {
        let StampReader { cell, seat } = self;
        let cell: &ViewCell = cell;
        compare(cell, writer, seat);
    }
}
