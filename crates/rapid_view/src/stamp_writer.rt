// The one who publishes stamps.

ghost use Rattle.std.specs.Prelude.{◌≡◌, ℕ, ◌+◌, ◌-◌, ◌*◌, ◌<◌, ◌≤◌, List, [], ◌∷◌, ◌++◌, length, slice_index, All, vec_len, true, false, IfOk, IfErr, OnOk, MatchResult};
ghost use Rattle.std.specs.Arc.{arc_value};
ghost use mathlib.Core.Option.{none, some};
ghost use Rattle.rapid_model.specs.PublishedList.{HeightsRise, IsBeginning, stamp_words};
ghost use Rattle.rapid_model.specs.Limits.{most_views};
ghost use Rattle.rapid_view.specs.Words.{IsWhole};
ghost use Rattle.rapid_view.specs.CellRule.{place, writing};
ghost use Rattle.rapid_view.specs.Seen.{last_height, MayFollow, Refused};

use crate::ViewError;
use crate::cell::ViewCell;
use crate::cell_rule::{CellKnowledge, Lengthens, Stores};
use crate::stamp_reader::StampReader;
use crate::words::words;
use atomic_table::Seat;
use rapid_config::Stamp;
use std::alloc::{AllocError, Global};
use std::marker::Model;
use std::sync::Arc;

/// The one who publishes stamps.
#[derive(Drop)]
pub struct StampWriter {
    cell: Arc<ViewCell>,
    seat: Seat<(), CellKnowledge>,
    room: usize,
    count: usize,
    last: u64,
}

impl Model for StampWriter {
    ghost use Rattle.std.specs.Prelude.{◌≡◌, ℕ, ◌<◌, ◌≤◌, [], length};
    ghost use Rattle.std.specs.Arc.{arc_value};
    ghost use Rattle.rapid_model.specs.PublishedList.{HeightsRise};
    ghost use Rattle.rapid_model.specs.Limits.{most_views};
    ghost use Rattle.rapid_view.specs.CellRule.{place, writing};
    ghost use Rattle.rapid_view.specs.Seen.{Written, last_height};

    ghost Value = { Written };

    ghost view = { λ s. record { cell = s.seat.table_id; room = s.room; seen = s.seat.me.0.seen } };

    ghost invariant = { λ s. (s.seat.table_id ≡ (arc_value s.cell).table.shared.table_id)
        × ((arc_value s.cell).table.shared.table_id.words ≡ place s.room) × (0 < s.room) × (s.room ≤ most_views)
        × (s.seat.me ≡ (writing s.room s.seat.me.0.seen [], [])) × (s.count ≡ length s.seat.me.0.seen)
        × (s.count ≤ s.room) × (s.last ≡ last_height s.seat.me.0.seen) × HeightsRise s.seat.me.0.seen };
}

/// Stores one word more of the next stamp.
fn store_word(cell: &ViewCell, seat: &mut Seat<(), CellKnowledge>, at: usize, word: u64)
    requires own { seat.old.table_id ≡ cell.now.table.shared.table_id }
    requires within { at < cell.now.table.shared.table_id.words }
    requires writer { seat.old.me ≡ (writing seat.old.me.0.room seat.old.me.0.seen seat.old.me.0.pending, []) }
    requires room { (length seat.old.me.0.seen < seat.old.me.0.room) × (length seat.old.me.0.pending < 6) }
    requires place { at ≡ place (length seat.old.me.0.seen) + length seat.old.me.0.pending }
    ensures same { (seat.new.table_id ≡ seat.old.table_id) × (seat.new.id ≡ seat.old.id) }
    ensures stored { seat.new.me ≡ (writing seat.old.me.0.room seat.old.me.0.seen (seat.old.me.0.pending ++ word ∷ []), []) }
{
    cell.table.shared.store::<Stores>(seat, at, word);
}

/// Stores the six words of the next stamp.
fn store_words(cell: &ViewCell, seat: &mut Seat<(), CellKnowledge>, count: usize, words: &[u64; 6])
    requires own { seat.old.table_id ≡ cell.now.table.shared.table_id }
    requires within { place seat.old.me.0.room ≡ cell.now.table.shared.table_id.words }
    requires writer { seat.old.me ≡ (writing seat.old.me.0.room seat.old.me.0.seen [], []) }
    requires room { (length seat.old.me.0.seen < seat.old.me.0.room) × (seat.old.me.0.room ≤ most_views) }
    requires count { count ≡ length seat.old.me.0.seen }
    ensures same { (seat.new.table_id ≡ seat.old.table_id) × (seat.new.id ≡ seat.old.id) }
    ensures stored { seat.new.me ≡ (writing seat.old.me.0.room seat.old.me.0.seen (slice_index words.now 0 ∷ slice_index words.now 1 ∷ slice_index words.now 2 ∷ slice_index words.now 3 ∷ slice_index words.now 4 ∷ slice_index words.now 5 ∷ []), []) }
{
    let start = 1 + 6 * count;
    store_word(cell, seat, start, words[0]);
    store_word(cell, seat, start + 1, words[1]);
    store_word(cell, seat, start + 2, words[2]);
    store_word(cell, seat, start + 3, words[3]);
    store_word(cell, seat, start + 4, words[4]);
    store_word(cell, seat, start + 5, words[5]);
}

/// Makes the list longer by the stamp that was stored.
fn lengthen(cell: &ViewCell, seat: &mut Seat<(), CellKnowledge>, count: usize, stamp: &Stamp)
    requires own { seat.old.table_id ≡ cell.now.table.shared.table_id }
    requires within { 0 < cell.now.table.shared.table_id.words }
    requires writer { seat.old.me ≡ (writing seat.old.me.0.room seat.old.me.0.seen (stamp_words stamp.now), []) }
    requires room { (length seat.old.me.0.seen < seat.old.me.0.room) × (seat.old.me.0.room ≤ most_views) }
    requires count { count ≡ length seat.old.me.0.seen }
    requires whole { IsWhole stamp.now }
    requires rises { HeightsRise (seat.old.me.0.seen ++ stamp.now ∷ []) }
    ensures same { (seat.new.table_id ≡ seat.old.table_id) × (seat.new.id ≡ seat.old.id) }
    ensures longer { seat.new.me ≡ (writing seat.old.me.0.room (seat.old.me.0.seen ++ stamp.now ∷ []) [], []) }
{
    cell.table
        .shared
        .store::<Lengthens>(seat, 0, count as u64 + 1);
}

/// Stores the stamp into the next place, and then the count.
fn add(cell: &ViewCell, seat: &mut Seat<(), CellKnowledge>, count: usize, stamp: &Stamp)
    requires own { seat.old.table_id ≡ cell.now.table.shared.table_id }
    requires within { place seat.old.me.0.room ≡ cell.now.table.shared.table_id.words }
    requires writer { seat.old.me ≡ (writing seat.old.me.0.room seat.old.me.0.seen [], []) }
    requires room { (length seat.old.me.0.seen < seat.old.me.0.room) × (seat.old.me.0.room ≤ most_views) }
    requires count { count ≡ length seat.old.me.0.seen }
    requires rises { HeightsRise (seat.old.me.0.seen ++ stamp.now ∷ []) }
    ensures same { (seat.new.table_id ≡ seat.old.table_id) × (seat.new.id ≡ seat.old.id) }
    ensures longer { seat.new.me ≡ (writing seat.old.me.0.room (seat.old.me.0.seen ++ stamp.now ∷ []) [], []) }
{
    let words = words(stamp);
    // the count last: who loads it finds all words of the stamps that it counts
    store_words(cell, seat, count, &words);
    lengthen(cell, seat, count, stamp);
}

impl StampWriter {
    /// The writer of a cell in which the first stamp is published.
    pub(crate) fn open(alloc: Global, first: Stamp, room: usize) -> Result<StampWriter, AllocError>
        requires { (0 < room) × (room ≤ most_views) }
        ensures { IfOk result (λ writer. (writer.seen ≡ first ∷ []) × (writer.room ≡ room)) }
    {
        let (cell, mut seat) = ViewCell::empty(alloc, room)?;
        add(&cell, &mut seat, 0, &first);
        Ok(StampWriter {
            cell: Arc::new(alloc, cell)?,
            seat,
            room,
            count: 1,
            last: first.height(),
        })
    }

    /// A reader of this cell, which has seen all that is published.
    pub(crate) fn reader(&mut self) -> Result<StampReader, AllocError>
        requires { 0 < length self.old.seen }
        ensures same { self.new ≡ self.old }
        ensures reader { IfOk result (λ reader. (reader.cell ≡ self.old.cell) × (reader.seen ≡ self.old.seen)) }
    {
        let StampWriter {
            cell,
            seat,
            room: _,
            count: _,
            last: _,
        } = self;
        StampReader::of_writer(cell, seat)
    }

    /// Whether a stamp of this height may be published. `NotNext` if it is not one more than the
    /// last height, else `CellFull` if there is room for no more.
    pub(crate) fn check(&self, height: u64) -> Result<(), ViewError>
        ensures { MatchResult result (λ _. MayFollow self.now.room self.now.seen height) (λ e. Refused self.now.room self.now.seen height e) }
    {
        if height == 0 || height - 1 != self.last {
            return Err(ViewError::NotNext);
        }
        if self.count == self.room {
            return Err(ViewError::CellFull);
        }
        Ok(())
    }

    /// What the reader has seen is a beginning of what is published here.
    pub(crate) fn compare(&mut self, reader: &mut StampReader)
        requires { self.old.cell ≡ reader.old.cell }
        ensures same { (self.new ≡ self.old) × (reader.new ≡ reader.old) }
        ensures order { IsBeginning reader.old.seen self.old.seen }
    {
        let StampWriter {
            cell: _,
            seat,
            room: _,
            count: _,
            last: _,
        } = self;
        reader.compare(seat);
    }

    /// Publishes the next stamp.
    pub(crate) fn publish(&mut self, stamp: Stamp)
        requires { MayFollow self.old.room self.old.seen stamp.height }
        ensures same { (self.new.cell ≡ self.old.cell) × (self.new.room ≡ self.old.room) }
        ensures longer { self.new.seen ≡ self.old.seen ++ stamp ∷ [] }
    {
        let StampWriter {
            cell,
            seat,
            room: _,
            count,
            last,
        } = self;
        let cell: &ViewCell = cell;
        add(cell, seat, *count, &stamp);
        *count += 1;
        *last = stamp.height();
    }
}
