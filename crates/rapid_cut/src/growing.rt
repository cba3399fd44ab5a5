// Reports that can be as they were.

ghost use Rattle.std.specs.Prelude.{◌≡◌, ℕ, ◌||◌, IfOk, OnOk, OnErr};
ghost use Rattle.std.specs.FinSet as set;
ghost use Rattle.rapid_model.specs.Reports.{Report};
ghost use Rattle.rapid_cut.specs.declared.mask.Masks as masks;
ghost use Rattle.rapid_alerts.specs.RingMasks.{has_ring};
ghost use Rattle.rapid_cut.specs.Growing.{AddsRings, is_for, is_added, all_added, without_all, before};

use crate::mask::Masks;
use crate::reports::KnownReports;
use crate::subject::Subject;
use rapid_endpoint::KeptProcess;
use std::alloc::{AllocError, Global};

/// Rings for which reports on a process were added.
#[derive(Debug, Drop)]
struct Added {
    subject: KeptProcess,
    rings: Masks,
}

/// The reports that are known, and which of them were added since they were last kept. To add on
/// one process takes no memory but that of the report.
#[derive(Debug, Drop)]
pub struct GrowingReports {
    /// All that are known.
    pub reports: KnownReports,
    // what was added last, and what was added before that
    last: Option<Added>,
    others: Vec<Added>,
}

impl GrowingReports {
    /// No report is known.
    pub fn new(alloc: Global) -> GrowingReports
        ensures direct { result.reports.direct ≡ set.empty }
        ensures all { result.reports.all ≡ set.empty }
        ensures kept { before result ≡ result.reports }
    {
        GrowingReports {
            reports: KnownReports::new(alloc),
            last: None,
            others: Vec::new(alloc),
        }
    }

    /// Adds the reports on a process for these rings; those on it so far are for the others.
    pub fn add(
        &mut self,
        subject: &Subject<'_>,
        so_far: Masks,
        rings: Masks,
    ) -> Result<(), AllocError>
        requires direct { (k : ℕ) → set.contains self.old.reports.direct (subject.now.process.now, k) ≡ has_ring so_far.direct k }
        requires all { (k : ℕ) → set.contains self.old.reports.all (subject.now.process.now, k) ≡ has_ring so_far.all k }
        ensures direct { OnOk result (AddsRings subject.now.process.now rings.direct self.old.reports.direct self.new.reports.direct) }
        ensures all { OnOk result (AddsRings subject.now.process.now rings.all self.old.reports.all self.new.reports.all) }
        ensures before { before self.new ≡ before self.old }
    {
        let added = rings.without(so_far);
        let kept = self.reports.to_keep(subject)?;
        note_joined(&mut self.last, &mut self.others, subject, &kept, added)?;
        self.reports.put(subject.get(), kept, so_far.with(rings))?;
        Ok(())
    }

    /// Keeps what was added.
    pub fn keep(&mut self)
        ensures reports { self.new.reports ≡ self.old.reports }
        ensures kept { before self.new ≡ self.new.reports }
    {
        self.last = None;
        self.others.clear();
    }

    /// Takes out what was added. That needs no memory. It stands apart, since it is seldom needed.
    #[inline(never)]
    pub fn undo(&mut self)
        ensures reports { self.new.reports ≡ before self.old }
        ensures kept { before self.new ≡ self.new.reports }
    {
        if let Some(added) = &self.last {
            self.reports.take_out(&added.subject.as_ref(), added.rings);
        }
        take_out(&mut self.reports, self.others.as_slice());
        self.last = None;
        self.others.clear();
    }

    /// The same reports, as kept.
    #[inline(never)]
    pub fn try_copy(&self, alloc: Global) -> Result<GrowingReports, AllocError>
        ensures reports { IfOk result (λ copy. copy.reports ≡ self.now.reports) }
        ensures kept { IfOk result (λ copy. before copy ≡ copy.reports) }
    {
        Ok(GrowingReports {
            reports: self.reports.try_copy(alloc)?,
            last: None,
            others: Vec::new(alloc),
        })
    }
}

/// Takes out what was added.
fn take_out(reports: &mut KnownReports, others: &[Added])
    ensures { reports.new ≡ without_all reports.old others.now }
{
    for added in others {
        reports.take_out(&added.subject.as_ref(), added.rings);
    }
}

/// Notes what is added, on the process that was noted last with what was noted there.
fn note_joined(
    last: &mut Option<Added>,
    others: &mut Vec<Added>,
    subject: &Subject<'_>,
    kept: &KeptProcess,
    rings: Masks,
) -> Result<(), AllocError>
    requires { kept.now ≡ subject.now.process.now }
    ensures direct { OnOk result ((x : Report) → is_added (λ m. m.direct) (all_added last.new others.new.items) x ≡ (is_added (λ m. m.direct) (all_added last.old others.old.items) x || is_for kept.now rings.direct x)) }
    ensures all { OnOk result ((x : Report) → is_added (λ m. m.all) (all_added last.new others.new.items) x ≡ (is_added (λ m. m.all) (all_added last.old others.old.items) x || is_for kept.now rings.all x)) }
    ensures unchanged { OnErr result (all_added last.new others.new.items ≡ all_added last.old others.old.items) }
{
    if let Some(noted) = last {
        if noted.subject.is(subject.get()) {
            noted.rings = noted.rings.with(rings);
            return Ok(());
        }
    }
    note(last, others, kept, rings)
}

/// Notes what is added.
#[inline(never)]
fn note(
    last: &mut Option<Added>,
    others: &mut Vec<Added>,
    subject: &KeptProcess,
    rings: Masks,
) -> Result<(), AllocError>
    ensures more { OnOk result ((part : masks.Masks → ℕ) (x : Report) → is_added part (all_added last.new others.new.items) x ≡ (is_added part (all_added last.old others.old.items) x || is_for subject.now (part rings) x)) }
    ensures unchanged { OnErr result (all_added last.new others.new.items ≡ all_added last.old others.old.items) }
{
    let added = Added {
        subject: subject.try_copy()?,
        rings,
    };
    if let Some(noted) = last {
        others.push(Added {
            subject: noted.subject.try_copy()?,
            rings: noted.rings,
        })?;
    }
    *last = Some(added);
    Ok(())
}
