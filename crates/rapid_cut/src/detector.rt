// The cut detector.

ghost use Rattle.std.specs.Prelude.{◌≡◌, ◌≤◌, ◌||◌, [], map, length, filter, is_some, Some, IfOk, OnOk, OnErr};
ghost use Rattle.std.specs.List.{list_any};
ghost use Rattle.std.specs.List.Sorted.{IsStrictlySortedBy};
ghost use Rattle.rapid_model.specs.Reports as model;
ghost use Rattle.rapid_model.specs.Process.{Process as Bytes, is_in, process_cmp};
ghost use Rattle.rapid_model.specs.Ring.{AreObservers};
ghost use Rattle.rapid_model.specs.Detector as detector;
ghost use Rattle.rapid_model.specs.Detector.{empty_detector, after_batch, batch_cut};
ghost use Rattle.rapid_alerts.specs.Alerts.{alert_of, alerts_in};
ghost use Rattle.rapid_cut.specs.Closing.{IsBetween, HaveCome, active as active_of};
ghost use Rattle.rapid_cut.specs.Growing.{before};
ghost use Rattle.rapid_cut.specs.Limits.{IsDetecting, IsKept, IsWithinLimits};

use crate::ascending::ascending;
use crate::closure::{active_with, close_grown, tally};
use crate::growing::GrowingReports;
use crate::in_turn::{EachAlert, InTurn};
use crate::reports::KnownReports;
use crate::shared_list::SharedList;
use crate::taken::{TakenAlerts, take_all};
use rapid_alerts::{Alert, AlertList};
use rapid_config::{ConfigError, Cut};
use rapid_endpoint::{KeptProcess, Process};
use rapid_rings::ObserverTable;
use std::alloc::{AllocError, Global};
use std::marker::Model;

/// Whether the process has at least H reports.
fn is_stable<T: ObserverTable>(table: &T, reports: &KnownReports, subject: &KeptProcess) -> bool
    ensures { result ≡ model.is_stable (T.observers table.now) reports.now.all subject.now }
{
    usize::from(table.params().h()) <= tally(table, reports, &subject.as_ref())
}

/// The stable ones of these processes.
fn stable_ones<T: ObserverTable>(
    alloc: Global,
    table: &T,
    reports: &KnownReports,
    subjects: &[KeptProcess],
) -> Result<Vec<Process>, AllocError>
    ensures { IfOk result (λ found. found.items ≡ filter (model.is_stable (T.observers table.now) reports.now.all) subjects.now) }
{
    // as after most batches
    if subjects.is_empty() {
        return Ok(Vec::new(alloc));
    }
    stable_among(alloc, table, reports, subjects)
}

/// The stable ones of these processes. It stands apart, as `unstable_among` does.
#[inline(never)]
fn stable_among<T: ObserverTable>(
    alloc: Global,
    table: &T,
    reports: &KnownReports,
    subjects: &[KeptProcess],
) -> Result<Vec<Process>, AllocError>
    ensures { IfOk result (λ found. found.items ≡ filter (model.is_stable (T.observers table.now) reports.now.all) subjects.now) }
{
    let mut found = Vec::new(alloc);
    for subject in subjects {
        if is_stable(table, reports, subject) {
            found.push(subject.to_process())?;
        }
    }
    Ok(found)
}

/// The unstable ones of these processes: those with at least L reports and fewer than H.
fn unstable_ones<T: ObserverTable>(
    alloc: Global,
    table: &T,
    reports: &KnownReports,
    subjects: &[KeptProcess],
) -> Result<Vec<Process>, AllocError>
    ensures { IfOk result (λ found. found.items ≡ filter (model.is_unstable (T.observers table.now) reports.now.all) subjects.now) }
{
    // as at nearly every tick
    if subjects.is_empty() {
        return Ok(Vec::new(alloc));
    }
    unstable_among(alloc, table, reports, subjects)
}

/// The unstable ones of these processes. It stands apart: room for processes takes time at each
/// call of the function that has it.
#[inline(never)]
fn unstable_among<T: ObserverTable>(
    alloc: Global,
    table: &T,
    reports: &KnownReports,
    subjects: &[KeptProcess],
) -> Result<Vec<Process>, AllocError>
    ensures { IfOk result (λ found. found.items ≡ filter (model.is_unstable (T.observers table.now) reports.now.all) subjects.now) }
{
    let mut found = Vec::new(alloc);
    for subject in subjects {
        if is_unstable(table, reports, subject) {
            found.push(subject.to_process())?;
        }
    }
    Ok(found)
}

/// Whether the process has at least L reports and fewer than H.
fn is_unstable<T: ObserverTable>(table: &T, reports: &KnownReports, subject: &KeptProcess) -> bool
    ensures { result ≡ model.is_unstable (T.observers table.now) reports.now.all subject.now }
{
    let tally = tally(table, reports, &subject.as_ref());
    usize::from(table.params().l()) <= tally && tally < usize::from(table.params().h())
}

/// Whether one of these processes is unstable.
fn is_any_unstable<T: ObserverTable>(
    table: &T,
    reports: &KnownReports,
    subjects: &[KeptProcess],
) -> bool
    ensures { result ≡ list_any (model.is_unstable (T.observers table.now) reports.now.all) subjects.now }
{
    subjects
        .iter()
        .any(|subject| is_unstable(table, reports, subject))
}

/// Out of memory: the only error that a list which is a cut can meet.
fn want_of_memory(error: ConfigError) -> AllocError
    requires { error ≡ ConfigError.OutOfMemory }
{
    match error {
        ConfigError::OutOfMemory => AllocError,
        _ => unreachable!(),
    }
}

/// The cut of the reports.
fn cut_of<T: ObserverTable>(
    alloc: Global,
    table: &T,
    reports: &KnownReports,
    active: &[KeptProcess],
) -> Result<Option<Cut>, AllocError>
    requires detecting { IsDetecting (T.observers table.now) reports.now.direct reports.now.all }
    requires active { active.now ≡ active_of (T.observers table.now) reports.now.direct }
    ensures { IfOk result (λ cut. cut ≡ model.cut_of (T.observers table.now) reports.now.direct) }
{
    if is_any_unstable(table, reports, active) {
        return Ok(None);
    }
    let stable = stable_ones(alloc, table, reports, active)?;
    if stable.is_empty() {
        return Ok(None);
    }
    match Cut::new(stable) {
        Ok(cut) => Ok(Some(cut)),
        Err(error) => Err(want_of_memory(error)),
    }
}

/// What a batch changes beside the reports.
#[derive(Debug, Drop)]
struct Advance {
    cut: Option<Cut>,
    joiners: usize,
    // how many alerts were taken
    count: usize,
}

/// Adds the implied reports after these processes came to L, and lists them; the result is the cut
/// then.
fn settle<T: ObserverTable>(
    alloc: Global,
    table: &T,
    known: &mut GrowingReports,
    active: &mut SharedList,
    grown: &[KeptProcess],
) -> Result<Option<Cut>, AllocError>
    requires rules { AreObservers (T.observers table.now) }
    requires known { IsBetween (T.observers table.now) known.old.reports.direct known.old.reports.all }
    requires limits { IsWithinLimits (T.observers table.now) known.old.reports.direct }
    requires low { (q : Bytes) → model.reaches_low (T.observers table.now) known.old.reports.direct (Some q) ≡ (is_in active.old q || is_in grown.now q) }
    requires active { IsStrictlySortedBy process_cmp active.old }
    requires grown { IsStrictlySortedBy process_cmp grown.now }
    requires come { HaveCome (T.observers table.now) known.old.reports.direct known.old.reports.all grown.now }
    requires closed { grown.now ≡ [] → known.old.reports.all ≡ model.reports (T.observers table.now) known.old.reports.direct }
    requires listed { grown.now ≡ [] → active.old ≡ active_of (T.observers table.now) known.old.reports.direct }
    ensures direct { OnOk result (known.new.reports.direct ≡ known.old.reports.direct) }
    ensures detecting { OnOk result (IsDetecting (T.observers table.now) known.old.reports.direct known.new.reports.all) }
    ensures listed { OnOk result (active.new ≡ active_of (T.observers table.now) known.old.reports.direct) }
    ensures cut { IfOk result (λ cut. cut ≡ model.cut_of (T.observers table.now) known.old.reports.direct) }
    ensures active { OnErr result (active.new ≡ active.old) }
    ensures before { before known.new ≡ before known.old }
{
    // who has L reports is as before, so nothing more is implied
    if grown.is_empty() {
        return cut_of(alloc, table, &known.reports, active.as_slice());
    }
    let more = active_with(alloc, table, &known.reports, active.as_slice(), grown)?;
    close_grown(table, &more, grown, known)?;
    let cut = cut_of(alloc, table, &known.reports, &more)?;
    *active = SharedList::of(more)?;
    Ok(cut)
}

/// Takes a batch of alerts: the reports, those that have at least L, and the cut.
fn take_batch<T: ObserverTable, A: InTurn>(
    alloc: Global,
    table: &T,
    known: &mut GrowingReports,
    active: &mut SharedList,
    joiners: usize,
    alerts: &A,
) -> Result<Advance, AllocError>
    requires detecting { IsDetecting (T.observers table.now) known.old.reports.direct known.old.reports.all }
    requires active { active.old ≡ active_of (T.observers table.now) known.old.reports.direct }
    requires joiners { joiners ≡ length (detector.joiners (T.observers table.now) known.old.reports.direct) }
    ensures direct { OnOk result (known.new.reports.direct ≡ detector.with_alerts known.old.reports.direct (detector.taken (T.observers table.now) known.old.reports.direct (A.alerts alerts.now))) }
    ensures known { IfOk result (λ advance. IsKept (T.observers table.now) known.new.reports.direct known.new.reports.all active.new advance.joiners (is_some advance.cut)) }
    ensures cut { IfOk result (λ advance. advance.cut ≡ model.cut_of (T.observers table.now) known.new.reports.direct) }
    ensures count { IfOk result (λ advance. advance.count ≡ length (detector.taken (T.observers table.now) known.old.reports.direct (A.alerts alerts.now))) }
    ensures bound { IfOk result (λ advance. advance.count ≤ length (A.alerts alerts.now)) }
    ensures active { OnErr result (active.new ≡ active.old) }
    ensures before { before known.new ≡ before known.old }
{
    let TakenAlerts {
        joiners,
        count,
        grown,
    } = take_all(alloc, table, known, joiners, alerts)?;
    let grown = ascending(grown);
    let cut = settle(alloc, table, known, active, &grown)?;
    Ok(Advance {
        cut,
        joiners,
        count,
    })
}

/// The cut detector over a table of observers (Rapid, USENIX ATC 2018).
///
/// It takes batches of alerts until they have a cut. The reports are the pairs of subject and ring
/// of the well-formed alerts that it took. A pair whose subject and whose observer on that ring
/// both have at least L reports is one too. A process is stable with at least H reports and
/// unstable with L to H - 1. There is a cut if some process is stable and none is unstable: all
/// that are stable. Of joiners at most 512 are taken; alerts on others are skipped.
#[derive(Debug, Drop)]
pub struct Detector<T: ObserverTable> {
    table: T,
    known: GrowingReports,
    active: SharedList,
    joiners: usize,
    closed: bool,
    skipped: usize,
    alloc: Global,
}

impl<T: ObserverTable> Model for Detector<T> {
    ghost use Rattle.std.specs.Prelude.{◌≡◌};
    ghost use Rattle.rapid_cut.specs.Watching.{Watching, watching_code};
    ghost use Rattle.rapid_cut.specs.Growing.{before};
    ghost use Rattle.rapid_cut.specs.Limits.{IsKept};

    ghost Value = { Watching T };

    ghost coded = { watching_code T.code };

    ghost view = { λ d. record { table = d.table; detector = record { direct = d.known.reports.direct; closed = d.closed; skipped = d.skipped } } };

    ghost invariant = { λ d. IsKept (T.observers d.table) d.known.reports.direct d.known.reports.all d.active d.joiners d.closed × (before d.known ≡ d.known.reports) };
}

impl<T: ObserverTable> Detector<T> {
    /// A detector that has taken nothing.
    pub fn new(alloc: Global, table: T) -> Detector<T>
        ensures table { result.table ≡ table }
        ensures empty { result.detector ≡ empty_detector }
    {
        let _ = table.params();
        Detector {
            table,
            known: GrowingReports::new(alloc),
            active: SharedList::new(),
            joiners: 0,
            closed: false,
            skipped: 0,
            alloc,
        }
    }

    /// Its table.
    pub fn table(&self) -> &T
        ensures { result.now ≡ self.now.table }
    {
        &self.table
    }

    /// Takes a batch of alerts; the cut of all that were taken, at the first batch that has one.
    /// After that the detector is closed: it answers `None` and takes nothing. If out of memory the
    /// detector is as it was.
    pub fn batch(&mut self, alerts: &[Alert]) -> Result<Option<Cut>, AllocError>
        ensures taken { OnOk result (self.new.detector ≡ after_batch (T.observers self.old.table) self.old.detector (map alert_of alerts.now)) }
        ensures cut { IfOk result (λ cut. cut ≡ batch_cut (T.observers self.old.table) self.old.detector (map alert_of alerts.now)) }
        ensures table { self.new.table ≡ self.old.table }
        ensures unchanged { OnErr result (self.new ≡ self.old) }
    {
        self.batch_in_turn(&EachAlert { alerts })
    }

    /// Takes the alerts of a list as [`Detector::batch`] takes a batch.
    pub fn batch_of(&mut self, alerts: &AlertList) -> Result<Option<Cut>, AllocError>
        ensures taken { OnOk result (self.new.detector ≡ after_batch (T.observers self.old.table) self.old.detector (alerts_in alerts.now)) }
        ensures cut { IfOk result (λ cut. cut ≡ batch_cut (T.observers self.old.table) self.old.detector (alerts_in alerts.now)) }
        ensures table { self.new.table ≡ self.old.table }
        ensures unchanged { OnErr result (self.new ≡ self.old) }
    {
        self.batch_in_turn(alerts)
    }

    /// Takes alerts, however they are kept, as [`Detector::batch`] takes a batch.
    #[tactic(auto, unfolding(rapid_model::specs::Detector::after_batch, rapid_model::specs::Detector::batch_cut))]
    pub fn batch_in_turn<A: InTurn>(&mut self, alerts: &A) -> Result<Option<Cut>, AllocError>
        ensures taken { OnOk result (self.new.detector ≡ after_batch (T.observers self.old.table) self.old.detector (A.alerts alerts.now)) }
        ensures cut { IfOk result (λ cut. cut ≡ batch_cut (T.observers self.old.table) self.old.detector (A.alerts alerts.now)) }
        ensures table { self.new.table ≡ self.old.table }
        ensures unchanged { OnErr result (self.new ≡ self.old) }
    {
        if self.closed {
            self.skipped = 0;
            return Ok(None);
        }
        let advance = take_batch(
            self.alloc,
            &self.table,
            &mut self.known,
            &mut self.active,
            self.joiners,
            alerts,
        );
        match advance {
            Ok(advance) => {
                self.known.keep();
                self.joiners = advance.joiners;
                self.skipped = alerts.count() - advance.count;
                self.closed = advance.cut.is_some();
                Ok(advance.cut)
            }
            Err(error) => {
                self.known.undo();
                Err(error)
            }
        }
    }

    /// How many alerts of the last batch were skipped. These are ill-formed, or on a 513th joiner.
    /// It is 0 for a batch after the cut.
    pub fn skipped(&self) -> usize
        ensures { result ≡ self.now.detector.skipped }
    {
        self.skipped
    }

    /// The number of reports on the process, direct and implied.
    pub fn tally(&self, process: &Process) -> usize
        ensures { result ≡ model.tally (T.observers self.now.table) (model.reports (T.observers self.now.table) self.now.detector.direct) process.now }
    {
        tally(&self.table, &self.known.reports, &process.as_ref())
    }

    /// The processes with at least L reports and fewer than H, ascending.
    pub fn unstable(&self) -> Result<Vec<Process>, AllocError>
        ensures { IfOk result (λ found. found.items ≡ model.unstable (T.observers self.now.table) self.now.detector.direct) }
    {
        unstable_ones(
            self.alloc,
            &self.table,
            &self.known.reports,
            self.active.as_slice(),
        )
    }

    /// An equal detector over a table that says the same, as another share of one table does.
    #[inline(never)]
    pub fn try_copy(&self, table: T) -> Result<Detector<T>, AllocError>
    where
        T: Drop,
        requires { T.observers table ≡ T.observers self.now.table }
        ensures table { IfOk result (λ copy. copy.table ≡ table) }
        ensures state { IfOk result (λ copy. copy.detector ≡ self.now.detector) }
    {
        Ok(Detector {
            table,
            known: self.known.try_copy(self.alloc)?,
            active: self.active.try_copy()?,
            joiners: self.joiners,
            closed: self.closed,
            skipped: self.skipped,
            alloc: self.alloc,
        })
    }
}
