// What finds alerts again.

ghost use Rattle.std.specs.Prelude.{◌≡◌, ◌<◌, ◌≤◌, ◌+◌, true, ◌||◌, length, nat_lt, if◌then◌else◌, T, IfOk, OnOk, OnErr};
ghost use Rattle.std.specs.List.{insert};
ghost use Rattle.std.specs.List.Sorted.{IsSearchInRange, IsBinarySearchResult};
ghost use Rattle.std.specs.FinMap.Entries.{is_sorted, put};
ghost use Rattle.std.specs.FinSet as set;
ghost use Rattle.rapid_model.specs.Process.{process_cmp};
ghost use Rattle.rapid_model.specs.Alert.{is_remove};
ghost use Rattle.rapid_model.specs.Reports.{report_of};
ghost use Rattle.rapid_model.specs.Limits.{most_joiners, most_rings};
ghost use Rattle.rapid_alerts.specs.Alerts.{alert_of, kind_of};
ghost use Rattle.rapid_alerts.specs.Outboxes.{empty_index, indexed, has_room};
ghost use Rattle.rapid_alerts.specs.Marks.{IsOn};

use crate::mark::Marks;
use crate::ring_mask::has_bit;
use crate::{Alert, Kind};
use rapid_config::Cut;
use rapid_endpoint::{KeptProcess, Process, ProcessRef};
use std::alloc::{AllocError, Global};
use std::marker::Model;

/// What alerts report, and how many joiners they are on: an entry for each subject, which it shares
/// with the list of alerts if it has tags.
#[derive(Debug, Drop)]
pub(crate) struct Index {
    // by ascending subject
    marks: Vec<(KeptProcess, Marks)>,
    // how many of the subjects are joiners
    joiners: usize,
}

impl Model for Index {
    ghost use Rattle.rapid_alerts.specs.Outboxes.{Index as ModelIndex, index_code};
    ghost use Rattle.rapid_alerts.specs.Marks.{index_in, IsIndex};

    ghost Value = { ModelIndex };

    ghost coded = { index_code };

    ghost view = { λ i. index_in i.marks.items };

    ghost invariant = { λ i. IsIndex i.marks.items i.joiners };
}

/// The place of a subject's entry among entries that ascend, or the place where it would stand.
fn find_place(entries: &[(KeptProcess, Marks)], subject: &ProcessRef<'_>) -> Result<usize, usize>
    ensures bound { IsSearchInRange result (length entries.now) }
    ensures position { IsBinarySearchResult (λ e. process_cmp e.0 subject.now) entries.now result }
{
    entries.binary_search_by(|entry| entry.0.as_ref().compare(subject))
}

/// Puts an entry in at this place. If out of memory the entries are as they were.
fn add_entry(
    entries: &mut Vec<(KeptProcess, Marks)>,
    at: usize,
    subject: &KeptProcess,
    marks: Marks,
) -> Result<(), AllocError>
    requires { at ≤ length entries.old.items }
    ensures added { OnOk result (entries.new.items ≡ insert entries.old.items at (subject.now, marks)) }
    ensures unchanged { OnErr result (entries.new.items ≡ entries.old.items) }
{
    // the first takes no more room than it needs: often there is no other
    if entries.is_empty() {
        entries.reserve_exact(1)?;
    }
    entries.insert(at, (subject.try_copy()?, marks))?;
    Ok(())
}

/// Puts the marks of a subject in the place of those that it has, or adds them, which alone takes
/// memory. If out of memory the entries are as they were.
fn put_marks(
    entries: &mut Vec<(KeptProcess, Marks)>,
    subject: &KeptProcess,
    marks: Marks,
) -> Result<(), AllocError>
    requires { T (is_sorted process_cmp entries.old.items) }
    ensures ok { OnOk result (entries.new.items ≡ put process_cmp subject.now marks entries.old.items) }
    ensures unchanged { OnErr result (entries.new.items ≡ entries.old.items) }
{
    match find_place(entries.as_slice(), &subject.as_ref()) {
        Ok(at) => {
            entries[at].1 = marks;
            Ok(())
        }
        Err(at) => add_entry(entries, at, subject, marks),
    }
}

impl Index {
    /// The index of no alerts.
    pub(crate) fn new(alloc: Global) -> Index
        ensures { result ≡ empty_index }
    {
        Index {
            marks: Vec::new(alloc),
            joiners: 0,
        }
    }

    /// What is kept of the alerts on a subject.
    pub(crate) fn on(&self, subject: &Process) -> Marks
        ensures { IsOn self.now subject.now result }
    {
        match find_place(&self.marks, &subject.as_ref()) {
            Ok(at) => self.marks[at].1,
            Err(_) => Marks::NONE,
        }
    }

    /// Whether an alert on this subject and ring is there, by the marks of its subject.
    pub(crate) fn has(&self, alert: &Alert, marks: Marks) -> bool
        requires { IsOn self.now alert.now.subject marks }
        ensures { result ≡ set.contains self.now.reports (report_of (alert_of alert.now)) }
    {
        has_bit(marks.rings, alert.ring)
    }

    /// How many processes alerts ask to let in.
    fn joiners(&self) -> usize
        ensures { result ≡ set.len self.now.joiners }
    {
        self.joiners
    }

    /// Whether the alert is on no 513th joiner, by the marks of its subject.
    pub(crate) fn has_room(&self, alert: &Alert, marks: Marks) -> bool
        requires { IsOn self.now alert.now.subject marks }
        ensures { result ≡ has_room self.now (alert_of alert.now) }
    {
        may_join(alert.kind, marks.joins, self.joiners())
    }

    /// Adds an alert on a subject that has these marks and stands at this place in the list of
    /// alerts, with which it is shared. If out of memory the index is as it was.
    pub(crate) fn add(
        &mut self,
        alert: &Alert,
        marks: Marks,
        place: u16,
        subject: &KeptProcess,
    ) -> Result<(), AllocError>
        requires ring { alert.now.ring < most_rings }
        requires marks { IsOn self.old alert.now.subject marks }
        requires room { has_room self.old (alert_of alert.now) ≡ true }
        requires subject { subject.now ≡ alert.now.subject }
        ensures added { OnOk result (self.new ≡ indexed self.old (alert_of alert.now)) }
        ensures unchanged { OnErr result (self.new ≡ self.old) }
    {
        let now = marks.with(alert.ring, alert.kind, place);
        let joiners = counted(alert.kind, marks.joins, self.joiners);
        put_marks(&mut self.marks, subject, now)?;
        self.joiners = joiners;
        Ok(())
    }

    /// An equal index, which shares the processes. If it is empty, it takes no memory.
    pub(crate) fn try_copy(&self) -> Result<Index, AllocError>
        ensures { IfOk result (λ copy. copy ≡ self.now) }
    {
        Ok(Index {
            marks: self.marks.clone()?,
            joiners: self.joiners,
        })
    }
}

/// Whether there is room for an alert of this kind: it asks to let nobody in, or one that others
/// ask for too, or there are fewer than 512 joiners.
fn may_join(kind: Kind, is_joiner: bool, joiners: usize) -> bool
    ensures { result ≡ (is_remove (kind_of kind) || is_joiner || nat_lt joiners most_joiners) }
{
    match kind {
        Kind::Remove => true,
        Kind::Join => is_joiner || joiners < Cut::MOST_JOINERS,
    }
}

/// How many joiners there are with one alert more.
fn counted(kind: Kind, is_joiner: bool, joiners: usize) -> usize
    requires { (is_remove (kind_of kind) || is_joiner || nat_lt joiners most_joiners) ≡ true }
    ensures { result ≡ (if is_remove (kind_of kind) || is_joiner then joiners else joiners + 1) }
{
    match kind {
        Kind::Remove => joiners,
        Kind::Join => { if is_joiner { joiners } else { joiners + 1 } }
    }
}
