// The one who publishes views.

ghost use Rattle.std.specs.Prelude.{◌≡◌, ◌+◌, ◌<◌, [], ◌∷◌, ◌++◌, length, IfOk, IfErr, IfSome};
ghost use Rattle.rapid_model.specs.Configuration as model;
ghost use Rattle.rapid_model.specs.PublishedList.{IsBeginning};
ghost use Rattle.rapid_view.specs.Seen.{last_height, MayFollow, Refused};

use crate::page::Page;
use crate::stamp_writer::StampWriter;
use crate::{View, ViewError, ViewSeat};
use left_right::WriteHandle;
use std::marker::Model;
use std::sync::Wait;

/// The one writer of a cell. Contracts see which cell it writes, for how many views it has room,
/// the list that is published, and the view that readers find.
#[derive(Drop)]
pub struct ViewWriter<R: Wait + Drop> {
    pub(crate) stamps: StampWriter,
    pub(crate) list: WriteHandle<Page, View, R>,
}

impl<R: Wait + Drop> Model for ViewWriter<R> {
    ghost use Rattle.std.specs.Prelude.{◌≡◌, []};
    ghost use Rattle.left_right.specs.Handles.{pending, published};
    ghost use Rattle.rapid_view.specs.Seen.{Publishing};

    ghost Value = { Publishing };

    ghost view = { λ w. record { cell = w.stamps.cell; room = w.stamps.room; seen = w.stamps.seen; shown = (published w.list).view } };

    ghost invariant = { λ w. pending w.list ≡ [] };
}

impl<R: Wait + Drop> ViewWriter<R> {
    /// Publishes the next view: its stamp, and then the view itself. `NotNext` if its height is not
    /// one more than the last, else `CellFull` if there is room for no more. An error changes
    /// nothing.
    pub fn publish(&mut self, view: View) -> Result<(), ViewError>
        ensures same { (self.new.cell ≡ self.old.cell) × (self.new.room ≡ self.old.room) }
        ensures longer { IfOk result (λ _. self.new.seen ≡ self.old.seen ++ model.stamp view ∷ []) }
        ensures allowed { IfOk result (λ _. MayFollow self.old.room self.old.seen view.height) }
        ensures shown { IfOk result (λ _. IfSome self.new.shown (λ c. model.stamp c ≡ model.stamp view)) }
        ensures unchanged { IfErr result (λ _. self.new ≡ self.old) }
        ensures refused { IfErr result (Refused self.old.room self.old.seen view.height) }
    {
        let stamp = view.stamp();
        self.stamps.check(stamp.height())?;
        // memory is asked for first, so that a refusal changes nothing
        let Ok(()) = self.list.append(view) else {
            return Err(ViewError::OutOfMemory);
        };
        // the stamp goes before the view, so that a seat that finds a view finds its stamp too
        self.stamps.publish(stamp);
        let Ok(()) = self.list.publish() else {
            unreachable!()
        };
        Ok(())
    }

    /// What the seat has seen is a beginning of the published list. The seat is one of the same
    /// cell.
    pub fn compare(&mut self, seat: &mut ViewSeat)
        requires { self.old.cell ≡ seat.old.cell }
        ensures same { (self.new ≡ self.old) × (seat.new ≡ seat.old) }
        ensures order { IsBeginning seat.old.seen self.old.seen }
    {
        seat.compare(&mut self.stamps);
    }
}
