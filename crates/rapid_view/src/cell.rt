// The cell that the writer and the seats of a published list share.

ghost use Rattle.std.specs.Prelude.{◌≡◌, ◌⊎◌, ℕ, ◌+◌, ◌*◌, ◌<◌, ◌≤◌, List, [], ◌∷◌, length, vec_len, All, Some, IfOk, IfErr};
ghost use Rattle.rapid_model.specs.Configuration as model;
ghost use Rattle.rapid_model.specs.Limits.{most_views, most_seats};
ghost use Rattle.rapid_view.specs.CellRule.{place, writing};
ghost use Rattle.rapid_view.specs.Seen.{WasSeen};

use crate::cell_rule::{CellKnowledge, Published};
use crate::page::Page;
use crate::seat::ViewSeat;
use crate::stamp_writer::StampWriter;
use crate::writer::ViewWriter;
use crate::{View, ViewError};
use atomic_table::{Seat, Table};
use left_right::{ReadHandleFactory, WriteHandle};
use std::alloc::{AllocError, Global};
use std::sync::Wait;

/// The words of a published list: the count, and for each stamp that there is room for a place of
/// six words. No place below the count is written again.
pub struct ViewCell {
    pub(crate) table: Table<(), CellKnowledge, u64, Published, Global>,
}

// By hand: it is proved here that all parts can be dropped, and no crate above has to prove it again.
impl Drop for ViewCell {
    fn drop(self) {
        let ViewCell { table: _ } = self;
    }
}

/// A seat of the writer's cell, with a place at the list of members, which keeps this view.
fn seat_of(
    alloc: Global,
    writer: &mut StampWriter,
    list: &ReadHandleFactory<Page>,
    view: &View,
) -> Result<ViewSeat, ViewError>
    requires some { 0 < length writer.old.seen }
    requires seen { WasSeen writer.old.seen (model.stamp view.now) }
    ensures same { writer.new ≡ writer.old }
    ensures seat { IfOk result
        (λ s. s ≡ record { cell = writer.old.cell; seen = writer.old.seen; kept = view.now }) }
    ensures refused { IfErr result (λ e. (e ≡ ViewError.NoPlace) ⊎ (e ≡ ViewError.OutOfMemory)) }
{
    let kept = view.try_copy(alloc)?;
    let stamps = writer.reader()?;
    // the library does not tell whether a place or memory is lacking
    let Ok(list) = list.handle() else {
        return Err(ViewError::NoPlace);
    };
    Ok(ViewSeat::new(alloc, stamps, list, kept))
}

/// As many seats of the writer's cell, each with a place at the list of members and with this view.
fn seats_of(
    alloc: Global,
    writer: &mut StampWriter,
    list: &ReadHandleFactory<Page>,
    view: &View,
    seats: usize,
) -> Result<Vec<ViewSeat>, ViewError>
    requires some { 0 < length writer.old.seen }
    requires seen { WasSeen writer.old.seen (model.stamp view.now) }
    ensures same { writer.new ≡ writer.old }
    ensures seats { IfOk result
        (λ all. (vec_len all ≡ seats) × All (λ s. (s.cell ≡ writer.old.cell) × (s.seen ≡ writer.old.seen) × (s.kept ≡ view.now)) all.items) }
    ensures refused { IfErr result (λ e. (e ≡ ViewError.NoPlace) ⊎ (e ≡ ViewError.OutOfMemory)) }
{
    let mut all = Vec::with_capacity(alloc, seats)?;
    for _ in 0..seats {
        all.push(seat_of(alloc, writer, list, view)?)?;
    }
    Ok(all)
}

impl ViewCell {
    /// The most views that a cell may have room for.
    pub const MOST: usize = 65_536;

    /// A cell in which this view is published, with room for this many views: its writer, and its
    /// seats, which keep this view. `NoPlace` if a seat got no reader's place.
    pub fn new<R: Wait + Drop>(
        rt: R,
        alloc: Global,
        view: View,
        seats: usize,
        views: usize,
    ) -> Result<(ViewWriter<R>, Vec<ViewSeat>), ViewError>
        requires seats { (0 < seats) × (seats ≤ most_seats) }
        requires views { (0 < views) × (views ≤ most_views) }
        ensures writer { IfOk result (λ r. (r.0.seen ≡ model.stamp view ∷ []) × (r.0.room ≡ views)) }
        ensures shown { IfOk result (λ r. r.0.shown ≡ Some view) }
        ensures seats { IfOk result (λ r. vec_len r.1 ≡ seats) }
        ensures of_cell { IfOk result (λ r. All (λ s. s.cell ≡ r.0.cell) r.1.items) }
        ensures seen { IfOk result (λ r. All (λ s. s.seen ≡ model.stamp view ∷ []) r.1.items) }
        ensures kept { IfOk result (λ r. All (λ s. s.kept ≡ view) r.1.items) }
        ensures refused { IfErr result (λ e. (e ≡ ViewError.NoPlace) ⊎ (e ≡ ViewError.OutOfMemory)) }
    {
        let stamp = view.stamp();
        let kept = view.try_copy(alloc)?;
        let second = Page::of(alloc, view.try_copy(alloc)?);
        let list = WriteHandle::new(alloc, rt, Page::of(alloc, view), second, seats)?;
        let mut stamps = StampWriter::open(alloc, stamp, views)?;
        let all = seats_of(alloc, &mut stamps, &list.factory()?, &kept, seats)?;
        let writer = ViewWriter { stamps, list };
        Ok((writer, all))
    }

    /// An empty list with room for this many stamps, and the seat that writes it.
    pub(crate) fn empty(
        alloc: Global,
        room: usize,
    ) -> Result<(ViewCell, Seat<(), CellKnowledge>), AllocError>
        requires { (0 < room) × (room ≤ most_views) }
        ensures { IfOk result
            (λ r. (r.0.table.shared.table_id.words ≡ place room) × (r.1.table_id ≡ r.0.table.shared.table_id) × (r.1.me ≡ (writing room [] [], []))) }
    {
        let words = vec![in alloc; 0u64; 1 + 6 * room]?;
        let (table, seat) = Table::of_words(alloc, words.as_slice(), &(room as u64))?;
        Ok((ViewCell { table }, seat))
    }
}
