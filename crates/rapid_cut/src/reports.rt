// The reports that are known.

ghost use Rattle.std.specs.Prelude.{◌≡◌, ℕ, ◌++◌, [], true, false, None, IfOk, OnOk, OnErr};
ghost use Rattle.std.specs.FinSet as set;
ghost use Rattle.rapid_alerts.specs.RingMasks.{has_ring};
ghost use Rattle.rapid_cut.specs.Growing.{PutsMask, TakesOut};
ghost use Rattle.rapid_cut.specs.Listed.{masks_at, PutsMasks};
ghost use Rattle.rapid_cut.specs.Known.{known_in};
ghost use Rattle.rapid_cut.specs.Many.{entries_of};

use crate::bare::{Bare, place_in};
use crate::few::FEW;
use crate::many::Many;
use crate::mask::Masks;
use crate::subject::Subject;
use crate::{bare, few};
use rapid_endpoint::{KeptProcess, ProcessRef};
use std::alloc::{AllocError, Global};
use std::marker::Model;

/// No ring.
const NONE: Masks = Masks { direct: 0, all: 0 };

/// The direct reports, and all that are known with those that they imply, for the first sixteen
/// rings. There are masks for each process that is reported on. While these are few, as is most
/// common, those without tags stand in a list that is copied as bytes are, and the others in one of
/// their own. Once one list is full, all stand in a third one, in which a process is looked for by a map.
#[derive(Debug, Drop)]
pub struct KnownReports {
    bare: Vec<(Bare, Masks)>,
    few: Vec<(KeptProcess, Masks)>,
    many: Option<Box<Many>>,
    alloc: Global,
}

impl Model for KnownReports {
    ghost use Rattle.std.specs.Prelude.{◌++◌};
    ghost use Rattle.rapid_cut.specs.Known.{Known, known_code, known_in};
    ghost use Rattle.rapid_cut.specs.Many.{entries_of};

    ghost Value = { Known };

    ghost coded = { known_code };

    ghost view = { λ r. known_in (r.bare.items ++ (r.few.items ++ entries_of r.many)) };
}

impl KnownReports {
    /// No report is known.
    pub fn new(alloc: Global) -> KnownReports
        ensures direct { result.direct ≡ set.empty }
        ensures all { result.all ≡ set.empty }
    {
        KnownReports {
            bare: Vec::new(alloc),
            few: Vec::new(alloc),
            many: None,
            alloc,
        }
    }

    /// The rings of the reports on the process.
    pub fn on(&self, subject: &ProcessRef<'_>) -> Masks
        ensures direct { (k : ℕ) → set.contains self.now.direct (subject.now, k) ≡ has_ring result.direct k }
        ensures all { (k : ℕ) → set.contains self.now.all (subject.now, k) ≡ has_ring result.all k }
    {
        if let Some(place) = place_in(self.bare.as_slice(), subject) {
            return self.bare[place].1;
        }
        masks_among(self.few.as_slice(), &self.many, subject).unwrap_or(NONE)
    }

    /// The process, to be kept. Unless it is kept already, it is kept as in the list if it is there.
    pub fn to_keep(&self, subject: &Subject<'_>) -> Result<KeptProcess, AllocError>
        ensures { IfOk result (λ kept. kept ≡ subject.now.process.now) }
    {
        if !subject.is_kept() {
            if let Some(place) = few::place_in(self.few.as_slice(), subject.get()) {
                return self.few[place].0.try_copy();
            }
        }
        subject.keep(self.alloc)
    }

    /// Puts these rings in the place of those of the reports on the process, which is kept so.
    pub fn put(
        &mut self,
        subject: &ProcessRef<'_>,
        kept: KeptProcess,
        masks: Masks,
    ) -> Result<(), AllocError>
        requires { kept ≡ subject.now }
        ensures direct { OnOk result (PutsMask subject.now masks.direct self.old.direct self.new.direct) }
        ensures all { OnOk result (PutsMask subject.now masks.all self.old.all self.new.all) }
        ensures unchanged { OnErr result (self.new ≡ self.old) }
    {
        if let Some(place) = place_in(self.bare.as_slice(), subject) {
            self.bare[place].1 = masks;
            return Ok(());
        }
        if put_among(&mut self.few, &mut self.many, subject, &kept, masks)? {
            return Ok(());
        }
        if let Some(one) = Bare::of(subject) {
            if self.bare.len() < FEW {
                bare::push_to(&mut self.bare, one, masks)?;
                return Ok(());
            }
        } else if self.few.len() < FEW {
            few::push_to(&mut self.few, kept, masks)?;
            return Ok(());
        }
        let many = many_with(
            self.alloc,
            self.bare.as_slice(),
            self.few.as_slice(),
            &kept,
            masks,
        )?;
        self.many = Some(many);
        self.bare.clear();
        self.few.clear();
        Ok(())
    }

    /// Takes out the reports on the process for these rings. That needs no memory.
    pub fn take_out(&mut self, subject: &ProcessRef<'_>, rings: Masks)
        ensures direct { TakesOut subject.now rings.direct self.old.direct self.new.direct }
        ensures all { TakesOut subject.now rings.all self.old.all self.new.all }
    {
        if let Some(place) = place_in(self.bare.as_slice(), subject) {
            self.bare[place].1 = self.bare[place].1.without(rings);
            return;
        }
        take_out_among(&mut self.few, &mut self.many, subject, rings);
    }

    /// The same reports.
    pub fn try_copy(&self, alloc: Global) -> Result<KnownReports, AllocError>
        ensures { IfOk result (λ copy. copy ≡ self.now) }
    {
        Ok(KnownReports {
            bare: bare::copy_of(alloc, self.bare.as_slice())?,
            few: few::copy_of(alloc, self.few.as_slice())?,
            many: copied(alloc, &self.many)?,
            alloc,
        })
    }
}

/// The masks of a process among few or many.
#[inline(always)]
fn masks_among(
    few: &[(KeptProcess, Masks)],
    many: &Option<Box<Many>>,
    subject: &ProcessRef<'_>,
) -> Option<Masks>
    ensures { result ≡ masks_at (few.now ++ entries_of many.now) subject.now }
{
    if let Some(place) = few::place_in(few, subject) {
        return Some(few[place].1);
    }
    match many {
        Some(many) => many.masks_of(subject),
        None => None,
    }
}

/// Puts these masks of a process, which is kept so, in the place of those that it has among few, or
/// among many if there are many. Whether it did so.
#[inline(always)]
fn put_among(
    few: &mut Vec<(KeptProcess, Masks)>,
    many: &mut Option<Box<Many>>,
    subject: &ProcessRef<'_>,
    kept: &KeptProcess,
    masks: Masks,
) -> Result<bool, AllocError>
    requires { kept.now ≡ subject.now }
    ensures put { IfOk result (λ put. put ≡ true → PutsMasks subject.now masks (few.old.items ++ entries_of many.old) (few.new.items ++ entries_of many.new)) }
    ensures none { IfOk result (λ put. put ≡ false → (masks_at few.old.items subject.now ≡ None) × (entries_of many.old ≡ [])) }
    ensures kept { IfOk result (λ put. put ≡ false → (few.new.items ≡ few.old.items) × (entries_of many.new ≡ entries_of many.old)) }
    ensures unchanged { OnErr result ((few.new.items ≡ few.old.items) × (entries_of many.new ≡ entries_of many.old)) }
{
    if let Some(place) = few::place_in(few.as_slice(), subject) {
        few[place].1 = masks;
        return Ok(true);
    }
    match many {
        Some(many) => {
            many.put(kept, masks)?;
            Ok(true)
        }
        None => Ok(false),
    }
}

/// Takes these rings out of the masks of a process among few or many.
#[inline(always)]
fn take_out_among(
    few: &mut Vec<(KeptProcess, Masks)>,
    many: &mut Option<Box<Many>>,
    subject: &ProcessRef<'_>,
    rings: Masks,
)
    ensures direct { TakesOut subject.now rings.direct (known_in (few.old.items ++ entries_of many.old)).direct (known_in (few.new.items ++ entries_of many.new)).direct }
    ensures all { TakesOut subject.now rings.all (known_in (few.old.items ++ entries_of many.old)).all (known_in (few.new.items ++ entries_of many.new)).all }
{
    if let Some(place) = few::place_in(few.as_slice(), subject) {
        few[place].1 = few[place].1.without(rings);
        return;
    }
    if let Some(many) = many {
        many.take_out(subject, rings);
    }
}

/// What these lists have, with these masks of the process in the place of those that it has
/// there.
#[inline(never)]
fn many_with(
    alloc: Global,
    bare: &[(Bare, Masks)],
    few: &[(KeptProcess, Masks)],
    subject: &KeptProcess,
    masks: Masks,
) -> Result<Box<Many>, AllocError>
    ensures { IfOk result (λ many. PutsMasks subject.now masks (bare.now ++ few.now) many.value) }
{
    let mut many = Many::new(alloc, bare, few)?;
    many.put(subject, masks)?;
    Ok(Box::new(alloc, many)?)
}

/// The same masks.
fn copied(alloc: Global, many: &Option<Box<Many>>) -> Result<Option<Box<Many>>, AllocError>
    ensures { IfOk result (λ copy. entries_of copy ≡ entries_of many.now) }
{
    match many {
        Some(many) => Ok(Some(many.try_copy(alloc)?)),
        None => Ok(None),
    }
}
