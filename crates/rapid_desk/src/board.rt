// The cell to which a desk publishes its views.

ghost use Rattle.std.specs.Prelude.{◌≡◌, ◌≤◌, ◌<◌, ◌||◌, not, [], ◌∷◌, ◌++◌, true, false, All, vec_len, Some, None, is_some, IsSome, IfOk, IfErr, IfSome, OnOk};
ghost use Rattle.atomic_table.specs.Seated.{TableId};
ghost use Rattle.rapid_model.specs.Configuration as model;
ghost use Rattle.rapid_model.specs.Limits.{most_seats};
ghost use Rattle.rapid_model.specs.PublishedList.{IsBeginning};
ghost use Rattle.rapid_desk.specs.Desks.{is_blank, shown_height, IsNextShown, NotPublished};

use rapid_view::{View, ViewCell, ViewError, ViewSeat, ViewWriter};
use std::alloc::Global;
use std::marker::Model;
use std::sync::Wait;

/// The views that a desk has published, and the seats that nobody has taken yet. The cell is made
/// with the first view, and has room for 65,536. `height` is that of the last view.
#[derive(Drop)]
pub struct Board<R: Wait + Copy + Drop> {
    rt: R,
    alloc: Global,
    count: usize,
    writer: Option<ViewWriter<R>>,
    seats: Option<Vec<ViewSeat>>,
    height: Option<u64>,
}

impl<R: Wait + Copy + Drop> Model for Board<R> {
    ghost use Rattle.std.specs.Prelude.{◌≡◌, ◌≤◌, ◌<◌, length, vec_len, All, is_some, IsSome, IfSome};
    ghost use Rattle.rapid_model.specs.Limits.{most_seats, most_views};
    ghost use Rattle.rapid_desk.specs.Desks.{BoardValue, cell_of, seen_by, shown_height};

    ghost Value = { BoardValue };

    ghost view = { λ b. record { published = seen_by b.writer; seats = is_some b.seats; count = b.count; cell = cell_of b.writer } };

    ghost invariant = { λ b. (0 < b.count) × (b.count ≤ most_seats)
        × IfSome b.writer (λ w. (0 < length w.seen) × (w.room ≡ most_views))
        × IfSome b.seats (λ all. (vec_len all ≡ b.count) × IsSome b.writer
        × All (λ s. IfSome b.writer (λ w. s.cell ≡ w.cell)) all.items)
        × (b.height ≡ shown_height (seen_by b.writer)) };
}

impl<R: Wait + Copy + Drop> Board<R> {
    /// A board on which nothing is published yet, for this many seats.
    pub(crate) fn new(rt: R, alloc: Global, count: usize) -> Board<R>
        requires { (0 < count) × (count ≤ most_seats) }
        ensures { result ≡ record { published = []; seats = false; count = count; cell = None } }
    {
        Board {
            rt,
            alloc,
            count,
            writer: None,
            seats: None,
            height: None,
        }
    }

    /// Makes the cell, with the first view in it.
    fn open(&mut self, view: View) -> Result<(), ViewError>
        requires { self.old.published ≡ [] }
        ensures published { IfOk result (λ _. self.new.published ≡ model.stamp view ∷ []) }
        ensures seats { IfOk result (λ _. (self.new.seats ≡ true) × (self.new.count ≡ self.old.count)) }
        ensures cell { self.old.cell ≡ None }
        ensures unchanged { IfErr result (λ _. self.new ≡ self.old) }
        ensures refused { IfErr result (NotPublished self.old.published view.height) }
    {
        let height = view.configuration().height();
        let (writer, seats) = ViewCell::new(self.rt, self.alloc, view, self.count, ViewCell::MOST)?;
        self.writer = Some(writer);
        self.seats = Some(seats);
        self.height = Some(height);
        Ok(())
    }

    /// Publishes a view after the first. An error changes nothing.
    fn go_on(&mut self, view: View) -> Result<(), ViewError>
        requires { is_blank self.old.published ≡ false }
        ensures published { IfOk result (λ _. self.new.published ≡ self.old.published ++ model.stamp view ∷ []) }
        ensures next { OnOk result (IsNextShown self.old.published view.height) }
        ensures seats { (self.new.seats ≡ self.old.seats) × (self.new.count ≡ self.old.count) }
        ensures cell { self.new.cell ≡ self.old.cell }
        ensures unchanged { IfErr result (λ _. self.new ≡ self.old) }
        ensures refused { IfErr result (NotPublished self.old.published view.height) }
    {
        let height = view.configuration().height();
        let Some(writer) = &mut self.writer else {
            unreachable!()
        };
        writer.publish(view)?;
        self.height = Some(height);
        Ok(())
    }

    /// Publishes a view. The first makes the cell. An error changes nothing. `CellFull` comes only
    /// when 65,536 views are published.
    pub(crate) fn publish(&mut self, view: View) -> Result<(), ViewError>
        ensures published { IfOk result (λ _. self.new.published ≡ self.old.published ++ model.stamp view ∷ []) }
        ensures next { OnOk result (IsNextShown self.old.published view.height) }
        ensures refused { IfErr result (NotPublished self.old.published view.height) }
        ensures seats { IfOk result (λ _. (self.new.seats ≡ (self.old.seats || is_blank self.old.published)) × (self.new.count ≡ self.old.count)) }
        ensures cell { IsSome self.old.cell → self.new.cell ≡ self.old.cell }
        ensures unchanged { IfErr result (λ _. self.new ≡ self.old) }
    {
        if self.height.is_some() {
            self.go_on(view)
        } else {
            self.open(view)
        }
    }

    /// The height of the last view that is published, if there is one.
    pub(crate) fn height(&self) -> Option<u64>
        ensures { result ≡ shown_height self.now.published }
    {
        self.height
    }

    /// The seats, once.
    pub(crate) fn take_seats(&mut self) -> Option<Vec<ViewSeat>>
        ensures some { is_some result ≡ self.old.seats }
        ensures rest { self.new ≡ record self.old { seats = false } }
        ensures all { IfSome result (λ all. vec_len all ≡ self.old.count) }
        ensures one_cell { IfSome result (λ all. (cell : TableId) × (self.old.cell ≡ Some cell) × All (λ s. s.cell ≡ cell) all.items) }
    {
        self.seats.take()
    }

    /// What a seat has seen is a beginning of what is published. The seat is one of the same cell.
    pub(crate) fn compare_seat(&mut self, seat: &mut ViewSeat)
        requires { self.old.cell ≡ Some seat.old.cell }
        ensures same { (self.new ≡ self.old) × (seat.new ≡ seat.old) }
        ensures order { IsBeginning seat.old.seen self.old.published }
    {
        let Some(writer) = &mut self.writer else {
            unreachable!()
        };
        writer.compare(seat);
    }

    /// There is a cell exactly if something is published. It does nothing: what it ensures is for
    /// proofs.
    #[inline(always)]
    pub(crate) fn tell(&self)
        ensures { is_some self.now.cell ≡ not (is_blank self.now.published) }
    {
        let _ = &self.height;
    }
}
