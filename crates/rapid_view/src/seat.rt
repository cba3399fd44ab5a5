// A seat at the published view.

ghost use Rattle.std.specs.Prelude.{◌≡◌, ◌≢◌, ◌⊎◌, ◌-◌, length, slice_get, Some, IfOk, IfErr, OnErr, MatchBool};
ghost use Rattle.rapid_model.specs.Configuration.{IsConfiguration, stamp};
ghost use Rattle.rapid_model.specs.PublishedList.{HeightsRise, IsBeginning};
ghost use Rattle.rapid_view.specs.Seen.{Missed, WasSeen, IsOutdated};
ghost use Rattle.rapid_view.specs.declared.error.ViewError.TheVariants.{OutOfMemory};

use crate::page::Page;
use crate::stamp_reader::StampReader;
use crate::stamp_writer::StampWriter;
use crate::{View, ViewError};
use left_right::ReadHandle;
use rapid_config::Stamp;
use std::alloc::{AllocError, Global};
use std::marker::Model;
use std::sync::Wait;

/// A seat at the published view: it reads the last stamp, and the last view. It keeps the view that
/// it found last, so that nobody else is asked while the last stamp stays the same. Contracts see
/// which cell it reads, the published list as far as it has seen it, and the view that it keeps.
pub struct ViewSeat {
    alloc: Global,
    stamps: StampReader,
    list: ReadHandle<Page>,
    kept: View,
}

// By hand: it is proved here that all parts can be dropped, and no crate above has to prove it again.
impl Drop for ViewSeat {
    fn drop(self) {
        let ViewSeat {
            alloc: _,
            stamps: _,
            list: _,
            kept: _,
        } = self;
    }
}

impl Model for ViewSeat {
    ghost use Rattle.rapid_model.specs.Configuration.{stamp};
    ghost use Rattle.rapid_view.specs.Seen.{Watched, WasSeen};

    ghost Value = { Watched };

    ghost view = { λ s. record { cell = s.stamps.cell; seen = s.stamps.seen; kept = s.kept } };

    ghost invariant = { λ s. WasSeen s.stamps.seen (stamp s.kept) };
}

/// Whether these are the same stamp.
#[tactic(auto, using(crate::proofs::Same::same_stamps))]
fn is_same(one: &Stamp, other: &Stamp) -> bool
    ensures { MatchBool result (one.now ≡ other.now) (one.now ≢ other.now) }
{
    if one.height() != other.height() || one.members() != other.members() {
        return false;
    }
    one.id() == other.id()
}

/// The view in the list; none if the writer is gone.
fn find(list: &mut ReadHandle<Page>) -> Result<Option<View>, AllocError> {
    let Some(guard) = list.enter() else {
        return Ok(None);
    };
    let page: &Page = &guard;
    Ok(Some(page.view()?))
}

/// The view of a published stamp, out of the list of members. The stamp is at least as new as each
/// one that was seen.
#[tactic(auto, using(crate::proofs::Beginnings::begins_longer))]
fn look_up<R: Wait>(
    rt: &R,
    stamps: &mut StampReader,
    list: &mut ReadHandle<Page>,
) -> Result<View, ViewError>
    ensures cell { stamps.new.cell ≡ stamps.old.cell }
    ensures later { IsBeginning stamps.old.seen stamps.new.seen }
    ensures rises { HeightsRise stamps.new.seen }
    ensures last { IfOk result (λ view. slice_get stamps.new.seen (length stamps.new.seen - 1) ≡ Some (stamp view)) }
    ensures missed { IfErr result (Missed stamps.new.seen) }
{
    stamps.tell();
    for _ in rt.forever() {
        // the view first: its stamp was published before it, so the stamp read next is not older
        let found = find(list)?;
        let stamp = stamps.stamp();
        // the list goes with its writer: whoever wants the last view keeps the writer
        let Some(view) = found else {
            return Err(ViewError::Behind(stamp));
        };
        if is_same(&view.stamp(), &stamp) {
            return Ok(view);
        }
        if view.configuration().height() < stamp.height() {
            return Err(ViewError::Behind(stamp));
        }
    }
    unreachable!()
}

impl ViewSeat {
    /// The seat of this reader of stamps, with this place at the list, which keeps this view.
    pub(crate) fn new(
        alloc: Global,
        stamps: StampReader,
        list: ReadHandle<Page>,
        kept: View,
    ) -> ViewSeat
        requires { WasSeen stamps.seen (stamp kept) }
        ensures { result ≡ record { cell = stamps.cell; seen = stamps.seen; kept = kept } }
    {
        ViewSeat {
            alloc,
            stamps,
            list,
            kept,
        }
    }

    /// A published stamp, at least as new as each one that this seat had seen: it never goes back.
    /// Afterwards the seat has seen the list up to it. It takes no lock and never waits.
    pub fn stamp(&mut self) -> Stamp
        ensures cell { self.new.cell ≡ self.old.cell }
        ensures later { IsBeginning self.old.seen self.new.seen }
        ensures rises { HeightsRise self.new.seen }
        ensures last { slice_get self.new.seen (length self.new.seen - 1) ≡ Some result }
        ensures kept { self.new.kept ≡ self.old.kept }
    {
        self.stamps.stamp()
    }

    /// Keeps the view of a published stamp, at least as new as each one that this seat had seen.
    /// Afterwards the seat has seen the list up to it, also if it answers an error. An error leaves
    /// the view that it keeps, and comes only if the last stamp that it has seen then is not that
    /// of this view. `Behind` if the view of the last stamp is still to be put in the list.
    /// `Behind` too if the writer is gone before this seat has found it.
    ///
    /// While the last stamp is that of the view kept, it reads this stamp and no more. So it takes
    /// no memory then, and waits for nobody.
    pub fn refresh<R: Wait>(&mut self, rt: &R) -> Result<(), ViewError>
        ensures cell { self.new.cell ≡ self.old.cell }
        ensures later { IsBeginning self.old.seen self.new.seen }
        ensures rises { HeightsRise self.new.seen }
        ensures last { IfOk result (λ _. slice_get self.new.seen (length self.new.seen - 1) ≡ Some (stamp self.new.kept)) }
        ensures missed { IfErr result (Missed self.new.seen) }
        ensures unchanged { IfErr result (λ _. self.new.kept ≡ self.old.kept) }
        ensures outdated { OnErr result (IsOutdated self.new.seen self.old.kept) }
    {
        let stamp = self.stamps.stamp();
        if is_same(&self.kept.stamp(), &stamp) {
            return Ok(());
        }
        self.kept = look_up(rt, &mut self.stamps, &mut self.list)?;
        Ok(())
    }

    /// The view that this seat keeps: that which `refresh` or `members` found last, and before that
    /// the first of its cell. It looks at nothing that others change.
    pub fn view(&self) -> &View
        ensures value { result.now ≡ self.now.kept }
        ensures valid { IsConfiguration self.now.kept }
    {
        self.kept.tell();
        &self.kept
    }

    /// The view of a published stamp, at least as new as each one that this seat had seen.
    /// Afterwards the seat has seen the list up to it, also if it answers an error. `Behind` if the
    /// view of that stamp is still to be put in the list. `Behind` too if the writer is gone before
    /// this seat has found it. It never comes if that stamp is the one of the view that the seat
    /// keeps, and leaves this view.
    ///
    /// It is a copy, to be kept or sent on. All copies of a view share one list and one count of
    /// it. So if several threads read one view again and again, `refresh` and `view` serve better:
    /// these count nothing.
    pub fn members<R: Wait>(&mut self, rt: &R) -> Result<View, ViewError>
        ensures cell { self.new.cell ≡ self.old.cell }
        ensures later { IsBeginning self.old.seen self.new.seen }
        ensures rises { HeightsRise self.new.seen }
        ensures valid { IfOk result IsConfiguration }
        ensures last { IfOk result (λ view. slice_get self.new.seen (length self.new.seen - 1) ≡ Some (stamp view)) }
        ensures kept { IfOk result (λ view. self.new.kept ≡ view) }
        ensures missed { IfErr result (Missed self.new.seen) }
        ensures outdated { IfErr result (λ e. (e ≡ OutOfMemory) ⊎ ((self.new.kept ≡ self.old.kept) × IsOutdated self.new.seen self.old.kept)) }
    {
        self.refresh(rt)?;
        let view = self.kept.try_copy(self.alloc)?;
        view.tell();
        Ok(view)
    }

    /// From now on what the other seat has seen was seen by this one too. The other is a seat of
    /// the same cell.
    pub fn told_by(&mut self, other: &mut ViewSeat)
        requires { self.old.cell ≡ other.old.cell }
        ensures other { other.new ≡ other.old }
        ensures cell { self.new.cell ≡ self.old.cell }
        ensures mine { IsBeginning self.old.seen self.new.seen }
        ensures told { IsBeginning other.old.seen self.new.seen }
        ensures rises { HeightsRise self.new.seen }
        ensures kept { self.new.kept ≡ self.old.kept }
    {
        self.stamps.told_by(&mut other.stamps);
    }

    /// What this seat has seen is a beginning of what the writer of stamps has published.
    pub(crate) fn compare(&mut self, writer: &mut StampWriter)
        requires { self.old.cell ≡ writer.old.cell }
        ensures same { (self.new ≡ self.old) × (writer.new ≡ writer.old) }
        ensures order { IsBeginning self.old.seen writer.old.seen }
    {
        writer.compare(&mut self.stamps);
    }
}
