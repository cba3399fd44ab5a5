// Outboxes over tables of explicit edges, and batches.

ghost use Rattle.std.specs.Prelude.{◌≡◌};

use crate::cut::tables::{Start, table};
use crate::numbered::{process, shared};
use rapid_alerts::{Alert, AlertList, Batch, BatchError, Kind, Outbox, RaiseError, Raising};
use rapid_config::{ConfigId, Params};
use rapid_endpoint::KeptProcess;
use rapid_rings::Table;
use std::alloc::{AllocError, Global};
use std::test::Fail;

fn alert_in(config: ConfigId, kind: Kind, ring: u8, observer: u16, subject: u16) -> Alert {
    Alert {
        observer: process(observer),
        subject: process(subject),
        ring,
        kind,
        config,
    }
}

fn alert(kind: Kind, ring: u8, observer: u16, subject: u16) -> Alert {
    alert_in(ConfigId::zero(), kind, ring, observer, subject)
}

/// How many alerts the next batch has; 0 if there is none.
fn flushed(outbox: &mut Outbox<Table>) -> Result<usize, AllocError> {
    match outbox.flush()? {
        Some(batch) => Ok(batch.alerts().len()),
        None => Ok(0),
    }
}

/// Whether a batch has just what an outbox of process 1 has raised.
fn has_raised(batch: &Batch, outbox: &Outbox<Table>) -> bool {
    *batch.observer() == process(1)
        && batch.config() == ConfigId::zero()
        && batch.alerts().says_same(outbox.raised())
}

/// Whether the next batch has just what was raised.
fn flushes_all(outbox: &mut Outbox<Table>) -> Result<bool, AllocError> {
    match outbox.flush()? {
        Some(batch) => Ok(has_raised(&batch, outbox)),
        None => Ok(false),
    }
}

/// A call of an outbox, and what it answers.
#[derive(Clone, Copy, Debug)]
enum Call {
    /// An alert of a kind, on a ring, of an observer, on a subject.
    Raise(Kind, u8, u16, u16, Result<Raising, RaiseError>),
    /// Such an alert of another configuration.
    RaiseOld(Kind, u8, u16, u16, Result<Raising, RaiseError>),
    /// A batch of this many alerts.
    Flush(usize),
    /// A batch of just what was raised.
    FlushAll,
    /// How many alerts were raised.
    Raised(usize),
    Resend,
    /// Alerts on this many joiners, from 2 on, on ring 0, and how many of them are raised.
    RaiseJoiners(u16, usize),
    /// Alerts on this many members, from 2 on, on each of sixteen rings; all are raised.
    RaiseMembers(u16),
}

/// Raises the alerts on this many joiners, from 2 on, on ring 0; how many of them were raised.
fn raise_joiners(outbox: &mut Outbox<Table>, joiners: u16) -> usize {
    let mut raised = 0usize;
    for joiner in 0..joiners {
        let joining = alert(Kind::Join, 0, 1, joiner.saturating_add(2));
        if outbox.raise(joining) == Ok(Raising::Raised) {
            raised = raised.saturating_add(1);
        }
    }
    raised
}

/// Raises the alert on a member on each of sixteen rings.
fn raise_member(outbox: &mut Outbox<Table>, number: u16) -> Result<(), RaiseError> {
    for ring in 0..16 {
        outbox.raise(alert(Kind::Remove, ring, 1, number))?;
    }
    Ok(())
}

/// Raises the alert on each of this many members, from 2 on, on each of sixteen rings.
fn raise_members(outbox: &mut Outbox<Table>, members: u16) -> Result<(), RaiseError> {
    for member in 0..members {
        raise_member(outbox, member.saturating_add(2))?;
    }
    Ok(())
}

/// Whether a call answers as it has to.
fn answers(outbox: &mut Outbox<Table>, call: &Call) -> Result<bool, AllocError> {
    match call {
        Call::Raise(kind, ring, observer, subject, expected) => {
            let new = alert(*kind, *ring, *observer, *subject);
            Ok(outbox.raise(new) == *expected)
        }
        Call::RaiseOld(kind, ring, observer, subject, expected) => {
            let old = alert_in(ConfigId::new([1; 32]), *kind, *ring, *observer, *subject);
            Ok(outbox.raise(old) == *expected)
        }
        Call::Flush(count) => Ok(flushed(outbox)? == *count),
        Call::FlushAll => flushes_all(outbox),
        Call::Raised(count) => Ok(outbox.raised().len() == *count),
        Call::Resend => {
            outbox.resend();
            Ok(true)
        }
        Call::RaiseJoiners(joiners, raised) => Ok(raise_joiners(outbox, *joiners) == *raised),
        Call::RaiseMembers(members) => Ok(raise_members(outbox, *members).is_ok()),
    }
}

/// Sees that all calls answer as they have to, in order.
fn all_answer(outbox: &mut Outbox<Table>, calls: &[Call]) -> Result<(), Fail> {
    for call in calls {
        if !answers(outbox, call)? {
            return Err(Fail::new(format_args!("answered otherwise: {call:?}")));
        }
    }
    Ok(())
}

/// Process 1 observes process 5 on both of two rings.
const EDGES: Start = Start::Edges(2, 2, 1, &[(0, 1, 5), (1, 1, 5)]);

/// Sees that all calls of an outbox of process 1 over a table answer as they have to, in order.
fn runs(alloc: Global, start: &Start, calls: &[Call]) -> Result<(), Fail> {
    let mut outbox = Outbox::new(alloc, table(alloc, start)?, shared(alloc, &process(1))?);
    all_answer(&mut outbox, calls)
}

const CALLS: [Call; 12] = [
    Call::Raise(Kind::Remove, 0, 1, 5, Ok(Raising::Raised)),
    Call::Raise(Kind::Remove, 0, 1, 5, Ok(Raising::Already)),
    Call::Raise(Kind::Remove, 0, 2, 5, Err(RaiseError::WrongObserver)),
    Call::Raise(Kind::Join, 0, 1, 5, Err(RaiseError::WrongKind)),
    Call::RaiseOld(Kind::Remove, 0, 2, 5, Err(RaiseError::OldConfiguration)),
    Call::Raise(Kind::Remove, 0, 1, 6, Err(RaiseError::WrongObserver)),
    Call::Raise(Kind::Remove, 2, 1, 5, Err(RaiseError::WrongObserver)),
    Call::Raise(Kind::Join, 1, 2, 5, Err(RaiseError::WrongObserver)),
    Call::Flush(1),
    Call::Flush(0),
    Call::Resend,
    Call::Flush(1),
];

#[test]
fn an_alert_is_raised_once_and_goes_out_again_after_resend(rt: HostRuntime) -> Result<(), Fail> {
    runs(rt.alloc(), &EDGES, &CALLS)
}

const ONE_RAISED: [Call; 2] = [
    Call::Raise(Kind::Remove, 0, 1, 5, Ok(Raising::Raised)),
    Call::FlushAll,
];

#[test]
fn a_batch_has_the_alert_that_was_raised(rt: HostRuntime) -> Result<(), Fail> {
    runs(rt.alloc(), &EDGES, &ONE_RAISED)
}

/// After 512 joiners one more is refused, and a known one or a member is not.
const FULL: [Call; 5] = [
    Call::RaiseJoiners(513, 512),
    Call::Raise(Kind::Join, 0, 1, 514, Err(RaiseError::TooManyJoiners)),
    Call::Raise(Kind::Join, 1, 1, 2, Ok(Raising::Raised)),
    Call::Raise(Kind::Remove, 0, 1, 1000, Ok(Raising::Raised)),
    Call::Raised(514),
];

#[test]
fn a_513th_joiner_is_refused(rt: HostRuntime) -> Result<(), Fail> {
    runs(rt.alloc(), &Start::Joiners(513), &FULL)
}

const FLUSHES: [Call; 4] = [
    Call::RaiseMembers(129),
    Call::Flush(2048),
    Call::Flush(16),
    Call::Flush(0),
];

#[test]
fn a_batch_has_at_most_2048_alerts(rt: HostRuntime) -> Result<(), Fail> {
    runs(rt.alloc(), &Start::Members(129), &FLUSHES)
}

/// Whether a copy of an outbox over an equal table has raised nothing.
fn copy_is_empty(outbox: &Outbox<Table>, table: Table) -> Result<bool, AllocError>
    requires { table ≡ outbox.now.table }
{
    let copy = outbox.try_copy(table)?;
    Ok(copy.raised().len() == 0)
}

/// Whether a copy of a new outbox of process 1 has raised nothing.
fn new_copy_is_empty(alloc: Global, params: Params) -> Result<bool, AllocError> {
    let owner = shared(alloc, &process(1))?;
    let outbox = Outbox::new(alloc, Table::new(alloc, params), owner);
    copy_is_empty(&outbox, Table::new(alloc, params))
}

/// A copy is made over an equal table. Copies with alerts are made with their node, in its tests.
#[test]
fn an_outbox_is_copied(rt: HostRuntime) -> Result<(), Fail> {
    let params = Params::new(2, 2, 1)?;
    assert!(rt; matches!(new_copy_is_empty(rt.alloc(), params), Ok(true)));
    Ok(())
}

/// This many alerts of process 1 on process 5.
fn alerts(alloc: Global, many: usize) -> Result<Vec<Alert>, AllocError> {
    let mut alerts = Vec::new(alloc);
    for _ in 0..many {
        alerts.push(alert(Kind::Remove, 0, 1, 5))?;
    }
    Ok(alerts)
}

/// Why a batch of this many alerts of process 1 and one of this observer is refused.
fn refusal(alloc: Global, many: usize, observer: u16) -> Result<Option<BatchError>, AllocError> {
    let mut alerts = alerts(alloc, many)?;
    alerts.push(alert(Kind::Remove, 0, observer, 5))?;
    Ok(Batch::new(alloc, &alerts).err())
}

const REFUSALS: [(usize, u16, Option<BatchError>); 6] = [
    (0, 1, None),
    (1, 2, Some(BatchError::MixedAlerts)),
    (2046, 1, None),
    (2047, 1, None),
    (2047, 2, Some(BatchError::MixedAlerts)),
    (2048, 2, Some(BatchError::TooManyAlerts)),
];

/// Sees that batches are refused for these reasons.
fn are_refused(alloc: Global, rows: &[(usize, u16, Option<BatchError>)]) -> Result<(), Fail> {
    for row in rows {
        let (many, observer, expected) = *row;
        if refusal(alloc, many, observer)? != expected {
            return Err(Fail::new(format_args!("not refused so: {row:?}")));
        }
    }
    Ok(())
}

/// Why a batch of no alerts is refused.
fn refusal_of_none(alloc: Global) -> Option<BatchError> {
    Batch::new(alloc, &[]).err()
}

#[test]
fn a_batch_is_refused_by_the_first_reason(rt: HostRuntime) -> Result<(), Fail> {
    assert!(rt; refusal_of_none(rt.alloc()) == Some(BatchError::EmptyBatch));
    are_refused(rt.alloc(), &REFUSALS)
}

/// The alerts of process 1 that remove these processes, in a list.
fn list_on(alloc: Global, subjects: &[u16]) -> Result<AlertList, AllocError> {
    let mut list = AlertList::new(alloc, shared(alloc, &process(1))?, ConfigId::zero());
    for subject in subjects {
        list.push(&process(*subject), 0, Kind::Remove)?;
    }
    Ok(list)
}

/// The alert of a list at a place, if there is one.
fn listed(list: &AlertList, at: usize) -> Option<Alert> {
    if at < list.len() {
        Some(list.alert(at))
    } else {
        None
    }
}

/// Subjects that stand again: next to each other, and apart.
const SUBJECTS: [u16; 8] = [5, 5, 6, 7, 5, 6, 5, 7];

#[test]
fn a_list_has_the_alerts_that_were_pushed(rt: HostRuntime) -> Result<(), Fail> {
    let list = list_on(rt.alloc(), &SUBJECTS)?;
    assert!(rt; list.len() == 8);
    for (at, subject) in SUBJECTS.iter().enumerate() {
        let expected = alert(Kind::Remove, 0, 1, *subject);
        assert!(rt; listed(&list, at) == Some(expected), "at {at}");
    }
    Ok(())
}

/// A copy of the subject of the alert at a place of a list on these; the list is gone then.
fn subject_at(
    alloc: Global,
    subjects: &[u16],
    at: usize,
) -> Result<Option<KeptProcess>, AllocError> {
    let list = list_on(alloc, subjects)?;
    if at < list.len() {
        Ok(Some(list.subject(at).try_copy()?))
    } else {
        Ok(None)
    }
}

/// Whether this keeps the process with this number.
fn keeps(one: &Option<KeptProcess>, number: u16) -> bool {
    match one {
        Some(one) => one.is(&process(number).as_ref()),
        None => false,
    }
}

#[test]
fn the_subjects_of_a_list_can_be_copied(rt: HostRuntime) -> Result<(), Fail> {
    for (at, subject) in SUBJECTS.iter().enumerate() {
        let one = subject_at(rt.alloc(), &SUBJECTS, at)?;
        assert!(rt; keeps(&one, *subject), "at {at}");
    }
    Ok(())
}

#[test]
fn lists_of_the_same_alerts_say_the_same(rt: HostRuntime) -> Result<(), Fail> {
    let list = list_on(rt.alloc(), &SUBJECTS)?;
    assert!(rt; list.says_same(&list_on(rt.alloc(), &SUBJECTS)?));
    assert!(rt; !list.says_same(&list_on(rt.alloc(), &[5, 5, 6, 7, 5, 6, 5])?));
    assert!(rt; !list.says_same(&list_on(rt.alloc(), &[5, 5, 6, 7, 5, 6, 5, 8])?));
    Ok(())
}

#[test]
fn a_list_is_a_batch_if_its_alerts_are(rt: HostRuntime) -> Result<(), Fail> {
    let batch = Batch::of_list(rt.alloc(), list_on(rt.alloc(), &SUBJECTS)?)?;
    assert!(rt; batch.alerts().len() == 8);
    let none = Batch::of_list(rt.alloc(), list_on(rt.alloc(), &[])?);
    assert!(rt; none.err() == Some(BatchError::EmptyBatch));
    let many = Batch::of_list(rt.alloc(), list_on(rt.alloc(), &[5; 2049])?);
    assert!(rt; many.err() == Some(BatchError::TooManyAlerts));
    Ok(())
}

const RAISING: [(RaiseError, u8); 5] = [
    (RaiseError::WrongObserver, 1),
    (RaiseError::WrongKind, 2),
    (RaiseError::OldConfiguration, 3),
    (RaiseError::TooManyJoiners, 4),
    (RaiseError::OutOfMemory, 99),
];

const BATCHES: [(BatchError, u8); 4] = [
    (BatchError::EmptyBatch, 1),
    (BatchError::TooManyAlerts, 2),
    (BatchError::MixedAlerts, 3),
    (BatchError::OutOfMemory, 99),
];

#[test]
fn refusals_have_their_numbers(rt: HostRuntime) {
    for (error, code) in &RAISING {
        assert!(rt; error.code() == *code, "at {error:?}");
    }
    for (error, code) in &BATCHES {
        assert!(rt; error.code() == *code, "at {error:?}");
    }
}
