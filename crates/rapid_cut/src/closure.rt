// The reports that a set implies.

ghost use Rattle.std.specs.Prelude.{◌≡◌, ℕ, true, false, not, ◌&&◌, ◌||◌, ◌==◌, ◌<◌, length, count_by, nat_le, Some, IfOk, OnOk};
ghost use Rattle.std.specs.List.Sorted.{IsStrictlySortedBy};
ghost use Rattle.rapid_model.specs.Process.{Process as Bytes, process_cmp, is_in};
ghost use Rattle.rapid_model.specs.Ring.{AreObservers, rings};
ghost use Rattle.rapid_model.specs.Reports as model;
ghost use Rattle.rapid_model.specs.Limits.{most_rings};
ghost use Rattle.rapid_rings.specs.Observing.{ObservesNobody, NoneObservesItself};
ghost use Rattle.rapid_cut.specs.Closing.{AddsImplied, IsBetween, IsPassing, HaveCome, active as active_of};
ghost use Rattle.rapid_cut.specs.Growing.{before};
ghost use Rattle.rapid_alerts.specs.RingMasks.{has_ring};

use crate::ascending::merged;
use crate::growing::GrowingReports;
use crate::mask::{Masks, count, with};
use crate::reports::KnownReports;
use crate::subject::Subject;
use rapid_alerts::{bit, has_bit};
use rapid_endpoint::{KeptProcess, Process, ProcessRef};
use rapid_rings::ObserverTable;
use std::alloc::{AllocError, Global};

/// The number of reports on the process, direct and implied.
pub fn tally<T: ObserverTable>(table: &T, reports: &KnownReports, subject: &ProcessRef<'_>) -> usize
    ensures { result ≡ model.tally (T.observers table.now) reports.now.all subject.now }
{
    count(reports.on(subject).all, table.params().k())
}

/// The processes with at least L direct reports, ascending: those of before and those that came to
/// it, both ascending.
pub fn active_with<T: ObserverTable>(
    alloc: Global,
    table: &T,
    reports: &KnownReports,
    before: &[KeptProcess],
    grown: &[KeptProcess],
) -> Result<Vec<KeptProcess>, AllocError>
    requires rules { AreObservers (T.observers table.now) }
    requires low { (q : Bytes) → model.reaches_low (T.observers table.now) reports.now.direct (Some q) ≡ (is_in before.now q || is_in grown.now q) }
    requires before { IsStrictlySortedBy process_cmp before.now }
    requires grown { IsStrictlySortedBy process_cmp grown.now }
    ensures { IfOk result (λ found. found.items ≡ active_of (T.observers table.now) reports.now.direct) }
{
    let _ = table;
    let _ = reports;
    merged(alloc, before, grown)
}

/// Whether a process with reports for these rings has at least L.
pub fn is_low<T: ObserverTable>(table: &T, mask: u16) -> bool
    ensures { result ≡ nat_le (T.observers table.now).params.l (count_by (has_ring mask) (rings (T.observers table.now))) }
{
    let params = table.params();
    usize::from(params.l()) <= count(mask, params.k())
}

/// Whether the process has at least L direct reports.
fn reaches_low<T: ObserverTable>(
    table: &T,
    reports: &KnownReports,
    subject: &ProcessRef<'_>,
) -> bool
    ensures { result ≡ model.reaches_low (T.observers table.now) reports.now.direct (Some subject.now) }
{
    is_low(table, reports.on(subject).direct)
}

/// Whether the process has an observer on the ring that has at least L direct reports. It is looked
/// for at the place first.
fn is_observer_low<T: ObserverTable>(
    table: &T,
    reports: &KnownReports,
    subject: &Process,
    ring: u8,
    place: &mut usize,
) -> bool
    ensures { result ≡ model.reaches_low (T.observers table.now) reports.now.direct ((T.observers table.now).observer ring subject.now) }
{
    let (_, observer) = table.member_and_observer_near(ring, subject, place);
    match observer {
        Some(observer) => reaches_low(table, reports, &observer.as_ref()),
        None => false,
    }
}

/// The mask, with the ring added if it is to be.
fn with_ring(mask: u16, ring: u8, is_added: bool) -> u16
    requires { ring < most_rings }
    ensures { (k : ℕ) → has_ring result k ≡ (has_ring mask k || (is_added && k == ring)) }
{
    if is_added {
        with(mask, bit(ring))
    } else {
        mask
    }
}

/// The rings, but those in the mask, for which reports are implied on a process with at least L
/// direct ones.
fn implied_rings<T: ObserverTable>(
    table: &T,
    reports: &KnownReports,
    subject: &Process,
    mask: u16,
) -> u16
    requires low { model.reaches_low (T.observers table.now) reports.now.direct (Some subject.now) ≡ true }
    ensures { (k : ℕ) → has_ring result k ≡ (not (has_ring mask k) && model.is_implied (T.observers table.now) reports.now.direct (subject.now, k)) }
{
    let mut implied = 0;
    // the subject is searched for once, and not once a ring
    let mut place = usize::MAX;
    for ring in 0..table.params().k() {
        let is_added = !has_bit(mask, ring)
            && is_observer_low(table, reports, subject, ring, &mut place);
        implied = with_ring(implied, ring, is_added);
    }
    implied
}

/// Adds the reports on a process with at least L direct ones that the direct ones imply.
fn add_implied<T: ObserverTable>(
    table: &T,
    subject: &KeptProcess,
    known: &mut GrowingReports,
) -> Result<(), AllocError>
    requires low { model.reaches_low (T.observers table.now) known.old.reports.direct (Some subject.now) ≡ true }
    ensures direct { OnOk result (known.new.reports.direct ≡ known.old.reports.direct) }
    ensures added { OnOk result (AddsImplied (T.observers table.now) known.old.reports.direct subject.now known.old.reports.all known.new.reports.all) }
    ensures before { before known.new ≡ before known.old }
{
    let process = subject.as_ref();
    let so_far = known.reports.on(&process);
    let all = implied_rings(table, &known.reports, &subject.to_process(), so_far.all);
    if all == 0 {
        return Ok(());
    }
    let subject = Subject::new(&process, Some(subject));
    known.add(&subject, so_far, Masks { direct: 0, all })?;
    Ok(())
}

/// Adds all that the direct reports imply to what is known with some of it. One pass over those on
/// whom reports are missing suffices, since only a process with at least L direct reports gets what
/// is implied.
fn close<T: ObserverTable>(
    table: &T,
    subjects: &[KeptProcess],
    known: &mut GrowingReports,
) -> Result<(), AllocError>
    requires rules { AreObservers (T.observers table.now) }
    requires passing { IsPassing (T.observers table.now) known.old.reports.direct subjects.now known.old.reports.all }
    ensures direct { OnOk result (known.new.reports.direct ≡ known.old.reports.direct) }
    ensures all { OnOk result (known.new.reports.all ≡ model.reports (T.observers table.now) known.old.reports.direct) }
    ensures before { before known.new ≡ before known.old }
{
    for subject in subjects {
        add_implied(table, subject, known)?;
    }
    Ok(())
}

/// Whether one of these processes may observe someone.
fn may_any_observe<T: ObserverTable>(table: &T, processes: &[KeptProcess]) -> bool
    ensures { result ≡ false → (o : Bytes) → is_in processes.now o ≡ true → ObservesNobody (T.observers table.now) o }
{
    for process in processes {
        if table.may_observe(&process.to_process()) {
            return true;
        }
    }
    false
}

/// Whether there is one process alone, and no process is its own observer. False says nothing.
fn is_alone<T: ObserverTable>(table: &T, processes: &[KeptProcess]) -> bool
    ensures one { result ≡ true → length processes.now ≡ 1 }
    ensures none { result ≡ true → NoneObservesItself (T.observers table.now) }
{
    processes.len() == 1 && !table.may_any_observe_itself()
}

/// Adds all that the direct reports imply once these processes came to L. `active` are all that
/// have as many. If there is one alone, which does not observe itself, nothing is implied. If those
/// that came to L observe nobody, only reports on them are missing. It stands apart: most batches
/// bring nobody to L, and need no room for the observers that it asks for.
#[inline(never)]
pub fn close_grown<T: ObserverTable>(
    table: &T,
    active: &[KeptProcess],
    grown: &[KeptProcess],
    known: &mut GrowingReports,
) -> Result<(), AllocError>
    requires rules { AreObservers (T.observers table.now) }
    requires active { active.now ≡ active_of (T.observers table.now) known.old.reports.direct }
    requires grown { HaveCome (T.observers table.now) known.old.reports.direct known.old.reports.all grown.now }
    requires known { IsBetween (T.observers table.now) known.old.reports.direct known.old.reports.all }
    ensures direct { OnOk result (known.new.reports.direct ≡ known.old.reports.direct) }
    ensures all { OnOk result (known.new.reports.all ≡ model.reports (T.observers table.now) known.old.reports.direct) }
    ensures before { before known.new ≡ before known.old }
{
    if is_alone(table, active) {
        return close(table, &[], known);
    }
    if may_any_observe(table, grown) {
        close(table, active, known)
    } else {
        close(table, grown, known)
    }
}
