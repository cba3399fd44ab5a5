// The alerts that are taken.

ghost use Rattle.std.specs.Prelude.{◌≡◌, ◌≤◌, ◌<◌, ℕ, true, not, ◌&&◌, ◌||◌, ◌∷◌, [], ◌++◌, length, count_by, nat_le, IfOk, IfSome, OnOk, if◌then◌else◌};
ghost use Rattle.std.specs.FinSet as set;
ghost use Rattle.rapid_model.specs.Alert as model;
ghost use Rattle.rapid_model.specs.Process.{is_in};
ghost use Rattle.rapid_model.specs.Ring.{rings};
ghost use Rattle.rapid_model.specs.Reports.{Reports, Includes, report_of, subjects};
ghost use Rattle.rapid_model.specs.Detector as detector;
ghost use Rattle.rapid_model.specs.Limits.{most_joiners, most_rings};
ghost use Rattle.rapid_alerts.specs.Alerts.{alert_of_ref};
ghost use Rattle.rapid_cut.specs.Growing.{before, HaveGrown};
ghost use Rattle.rapid_cut.specs.Limits.{IsWithinLimits};
ghost use Rattle.rapid_alerts.specs.RingMasks.{has_ring};

use crate::closure::is_low;
use crate::growing::GrowingReports;
use crate::in_turn::{InTurn, Turn};
use crate::mask::{Masks, has_any, with};
use crate::reports::KnownReports;
use crate::subject::Subject;
use rapid_alerts::{AlertRef, Kind, bit, has_bit};
use rapid_config::Cut;
use rapid_endpoint::{KeptProcess, ProcessRef};
use rapid_rings::ObserverTable;
use std::alloc::{AllocError, Global};

/// Whether the alert is well-formed. Then its ring exists, its observer is that ring's, and its
/// configuration is the table's. And its kind is Remove exactly if the subject is a member. Also
/// whether the subject is a member. It is looked for at the place first.
fn check<T: ObserverTable>(table: &T, alert: &AlertRef<'_>, place: &mut usize) -> (bool, bool)
    ensures value { result.0 ≡ model.is_well_formed (T.observers table.now) (alert_of_ref alert.now) }
    ensures ring { result.0 ≡ true → alert.now.ring < most_rings }
    ensures member { result.1 ≡ (T.observers table.now).is_member alert.now.subject }
{
    let (member, observes) = table.member_and_observes_near(
        &alert.observer,
        alert.ring,
        &alert.subject,
        place,
    );
    let fits = match alert.kind {
        Kind::Remove => member,
        Kind::Join => !member,
    };
    let well_formed = alert.ring < table.params().k()
        && observes
        && *alert.config == table.id()
        && fits;
    (well_formed, member)
}

/// Whether one report more on the process adds no joiner to those reported on. Then it is a member,
/// or there is a direct report on it already. `mask` has the rings of its direct reports.
fn is_counted<T: ObserverTable>(
    table: &T,
    reports: &KnownReports,
    subject: &ProcessRef<'_>,
    member: bool,
    mask: u16,
) -> bool
    requires mask { (k : ℕ) → set.contains reports.now.direct (subject.now, k) ≡ has_ring mask k }
    requires member { member ≡ (T.observers table.now).is_member subject.now }
    ensures { result ≡ ((T.observers table.now).is_member subject.now || is_in (subjects reports.now.direct) subject.now) }
{
    let _ = table;
    let _ = reports;
    let _ = subject;
    member || has_any(mask)
}

/// Whether a well-formed alert is taken: it is on no 513th joiner.
fn has_room<T: ObserverTable>(
    table: &T,
    reports: &KnownReports,
    joiners: usize,
    alert: &AlertRef<'_>,
    counted: bool,
) -> bool
    requires counted { counted ≡ ((T.observers table.now).is_member alert.now.subject || is_in (subjects reports.now.direct) alert.now.subject) }
    requires well_formed { model.is_well_formed (T.observers table.now) (alert_of_ref alert.now) ≡ true }
    requires joiners { joiners ≡ length (detector.joiners (T.observers table.now) reports.now.direct) }
    ensures { result ≡ detector.is_taken (T.observers table.now) reports.now.direct (alert_of_ref alert.now) }
{
    let _ = table;
    let _ = reports;
    let _ = alert;
    counted || joiners < Cut::MOST_JOINERS
}

/// How many joiners are reported on once there is a report on this process too.
fn joiners_with<T: ObserverTable>(
    table: &T,
    reports: &KnownReports,
    joiners: usize,
    subject: &ProcessRef<'_>,
    counted: bool,
) -> usize
    requires counted { counted ≡ ((T.observers table.now).is_member subject.now || is_in (subjects reports.now.direct) subject.now) }
    requires joiners { joiners ≡ length (detector.joiners (T.observers table.now) reports.now.direct) }
    requires room { joiners ≤ most_joiners }
    ensures { (ring : ℕ) → result ≡ length (detector.joiners (T.observers table.now) (set.insert reports.now.direct (subject.now, ring))) }
{
    let _ = table;
    let _ = reports;
    let _ = subject;
    if counted { joiners } else { joiners + 1 }
}

/// Whether a process has fewer than L reports if they are for the first rings, and at least L if
/// they are for the second.
fn comes_to_low<T: ObserverTable>(table: &T, before: u16, now: u16) -> bool
    ensures { result ≡ (not (nat_le (T.observers table.now).params.l (count_by (has_ring before) (rings (T.observers table.now)))) && nat_le (T.observers table.now).params.l (count_by (has_ring now) (rings (T.observers table.now)))) }
{
    !is_low(table, before) && is_low(table, now)
}

/// Lists a process that comes to L reports.
fn list(
    reports: &KnownReports,
    grown: &mut Vec<KeptProcess>,
    comes_to_low: bool,
    subject: &Subject<'_>,
) -> Result<(), AllocError>
    ensures { OnOk result (grown.new.items ≡ (if comes_to_low then grown.old.items ++ subject.now.process.now ∷ [] else grown.old.items)) }
{
    if comes_to_low {
        grown.push(reports.to_keep(subject)?)?;
    }
    Ok(())
}

/// Adds a direct report on a process whose rings so far are these, and lists the process if this
/// brings it to L direct reports.
fn put<T: ObserverTable>(
    table: &T,
    known: &mut GrowingReports,
    grown: &mut Vec<KeptProcess>,
    subject: &Subject<'_>,
    ring: u8,
    so_far: Masks,
) -> Result<(), AllocError>
    requires ring { ring < most_rings }
    requires direct { (k : ℕ) → set.contains known.old.reports.direct (subject.now.process.now, k) ≡ has_ring so_far.direct k }
    requires all { (k : ℕ) → set.contains known.old.reports.all (subject.now.process.now, k) ≡ has_ring so_far.all k }
    ensures direct { OnOk result (known.new.reports.direct ≡ set.insert known.old.reports.direct (subject.now.process.now, ring)) }
    ensures all { OnOk result (known.new.reports.all ≡ set.insert known.old.reports.all (subject.now.process.now, ring)) }
    ensures grown { OnOk result ((start : Reports) → HaveGrown (T.observers table.now) start known.old.reports.direct grown.old.items → HaveGrown (T.observers table.now) start known.new.reports.direct grown.new.items) }
    ensures before { before known.new ≡ before known.old }
{
    let one = bit(ring);
    let comes_to_low = comes_to_low(table, so_far.direct, with(so_far.direct, one));
    let rings = Masks {
        direct: one,
        all: one,
    };
    known.add(subject, so_far, rings)?;
    list(&known.reports, grown, comes_to_low, subject)?;
    Ok(())
}

/// Takes the alert or leaves it; whether it was taken. Its subject is looked for at the place first.
fn take<T: ObserverTable>(
    table: &T,
    known: &mut GrowingReports,
    joiners: &mut usize,
    grown: &mut Vec<KeptProcess>,
    place: &mut usize,
    turn: &Turn<'_>,
) -> Result<bool, AllocError>
    requires kept { IfSome turn.now.kept (λ kept. kept.now ≡ turn.now.alert.subject) }
    requires joiners { joiners.old ≡ length (detector.joiners (T.observers table.now) known.old.reports.direct) }
    requires room { joiners.old ≤ most_joiners }
    requires known { Includes known.old.reports.all known.old.reports.direct }
    ensures taken { IfOk result (λ taken. taken ≡ detector.is_taken (T.observers table.now) known.old.reports.direct (alert_of_ref turn.now.alert)) }
    ensures direct { IfOk result (λ taken. known.new.reports.direct ≡ (if taken then set.insert known.old.reports.direct (report_of (alert_of_ref turn.now.alert)) else known.old.reports.direct)) }
    ensures all { IfOk result (λ taken. known.new.reports.all ≡ (if taken then set.insert known.old.reports.all (report_of (alert_of_ref turn.now.alert)) else known.old.reports.all)) }
    ensures joiners { OnOk result (joiners.new ≡ length (detector.joiners (T.observers table.now) known.new.reports.direct)) }
    ensures grown { OnOk result ((start : Reports) → HaveGrown (T.observers table.now) start known.old.reports.direct grown.old.items → HaveGrown (T.observers table.now) start known.new.reports.direct grown.new.items) }
    ensures before { before known.new ≡ before known.old }
{
    let alert = &turn.alert;
    let (well_formed, member) = check(table, alert, place);
    if !well_formed {
        return Ok(false);
    }
    let subject = &alert.subject;
    let so_far = known.reports.on(subject);
    if has_bit(so_far.direct, alert.ring) {
        return Ok(true);
    }
    let counted = is_counted(table, &known.reports, subject, member, so_far.direct);
    if !has_room(table, &known.reports, *joiners, alert, counted) {
        return Ok(false);
    }
    *joiners = joiners_with(table, &known.reports, *joiners, subject, counted);
    let subject = Subject::new(subject, turn.kept);
    put(table, known, grown, &subject, alert.ring, so_far)?;
    Ok(true)
}

/// What is known of the alerts that are taken of a batch.
#[derive(Debug, Drop)]
pub struct TakenAlerts {
    /// How many joiners are reported on.
    pub joiners: usize,
    /// How many alerts are taken.
    pub count: usize,
    /// Those that come to L reports.
    pub grown: Vec<KeptProcess>,
}

/// Takes the alerts of a batch after these reports.
pub fn take_all<T: ObserverTable, A: InTurn>(
    alloc: Global,
    table: &T,
    known: &mut GrowingReports,
    joiners: usize,
    alerts: &A,
) -> Result<TakenAlerts, AllocError>
    requires joiners { joiners ≡ length (detector.joiners (T.observers table.now) known.old.reports.direct) }
    requires limits { IsWithinLimits (T.observers table.now) known.old.reports.direct }
    requires known { Includes known.old.reports.all known.old.reports.direct }
    ensures direct { OnOk result (known.new.reports.direct ≡ detector.with_alerts known.old.reports.direct (detector.taken (T.observers table.now) known.old.reports.direct (A.alerts alerts.now))) }
    ensures all { OnOk result (known.new.reports.all ≡ detector.with_alerts known.old.reports.all (detector.taken (T.observers table.now) known.old.reports.direct (A.alerts alerts.now))) }
    ensures joiners { IfOk result (λ taken. taken.joiners ≡ length (detector.joiners (T.observers table.now) known.new.reports.direct)) }
    ensures count { IfOk result (λ taken. taken.count ≡ length (detector.taken (T.observers table.now) known.old.reports.direct (A.alerts alerts.now))) }
    ensures bound { IfOk result (λ taken. taken.count ≤ length (A.alerts alerts.now)) }
    ensures limits { OnOk result (IsWithinLimits (T.observers table.now) known.new.reports.direct) }
    ensures grown { IfOk result (λ taken. HaveGrown (T.observers table.now) known.old.reports.direct known.new.reports.direct taken.grown.items) }
    ensures before { before known.new ≡ before known.old }
{
    let mut joiners = joiners;
    let mut count = 0;
    let mut grown = Vec::new(alloc);
    // where the last subject was found: alerts on one subject mostly come one after the other
    let mut found = usize::MAX;
    for place in 0..alerts.count() {
        let turn = alerts.at(place);
        if take(table, known, &mut joiners, &mut grown, &mut found, &turn)? {
            count += 1;
        }
    }
    Ok(TakenAlerts {
        joiners,
        count,
        grown,
    })
}
