// The cut detector over a table of explicit edges: a batch for which memory runs out changes nothing.

use crate::numbered::{are_numbered, process, shared, tagged};
use crate::tables::{Edge, table};
use rapid_alerts::{Alert, AlertList, Kind};
use rapid_config::{ConfigId, Cut};
use rapid_cut::Detector;
use rapid_endpoint::{ParseError, Process};
use rapid_rings::Table;
use std::alloc::{AllocError, Global};
use std::slice;
use std::test::*;

/// A call of a detector, and what it answers.
#[derive(Clone, Copy, Debug)]
enum Call<'a> {
    /// A batch that removes, the numbers of its cut, none if it has no cut, and how many alerts are
    /// skipped. It is given again if out of memory.
    RemoveAgain(&'a [Edge], &'a [u16], usize),
    /// A list of the alert that removes the subject of an edge, and the numbers of its cut, none if
    /// it has no cut. It is given again if out of memory.
    ListAgain(Edge, &'a [u16]),
    /// How many reports there are on a process.
    Tally(u16, usize),
}

/// The alert that removes the subject of an edge.
fn alert(edge: &Edge) -> Alert {
    Alert {
        observer: process(edge.1),
        subject: process(edge.2),
        ring: edge.0,
        kind: Kind::Remove,
        config: ConfigId::zero(),
    }
}

/// An alert on each of these edges.
fn alerts(alloc: Global, edges: &[Edge]) -> Result<Vec<Alert>, AllocError> {
    let mut alerts = Vec::new(alloc);
    for edge in edges {
        alerts.push(alert(edge))?;
    }
    Ok(alerts)
}

/// Whether a cut is that of the processes with these numbers; none stands for no cut.
fn is_cut_of(cut: &Option<Cut>, numbers: &[u16]) -> bool {
    match cut {
        Some(cut) => are_numbered(cut.processes(), numbers),
        None => numbers.is_empty(),
    }
}

/// Whether a batch has this cut and skips this many alerts.
fn has_cut(
    detector: &mut Detector<Table>,
    alerts: &[Alert],
    cut: &[u16],
    skipped: usize,
) -> Result<bool, AllocError> {
    let found = detector.batch(alerts)?;
    Ok(is_cut_of(&found, cut) && detector.skipped() == skipped)
}

/// Whether a batch that removes has this cut and skips this many alerts.
fn cuts(
    alloc: Global,
    detector: &mut Detector<Table>,
    (edges, cut, skipped): (&[Edge], &[u16], usize),
) -> Result<bool, AllocError> {
    let alerts = alerts(alloc, edges)?;
    has_cut(detector, alerts.as_slice(), cut, skipped)
}

/// Whether a batch that removes has this cut and skips this many alerts. It is given again if out
/// of memory: the detector is then as it was.
fn cuts_again(
    alloc: Global,
    detector: &mut Detector<Table>,
    (edges, cut, skipped): (&[Edge], &[u16], usize),
) -> Result<bool, AllocError> {
    match cuts(alloc, detector, (edges, cut, skipped)) {
        Err(_refused) => cuts(alloc, detector, (edges, cut, skipped)),
        answer => answer,
    }
}

/// A list of the alert that removes the subject of an edge.
fn list_of(alloc: Global, edge: &Edge) -> Result<AlertList, AllocError> {
    let mut list = AlertList::new(alloc, shared(alloc, &process(edge.1))?, ConfigId::zero());
    list.push(&process(edge.2), edge.0, Kind::Remove)?;
    Ok(list)
}

/// Whether the list of an edge has this cut.
fn list_cuts(
    alloc: Global,
    detector: &mut Detector<Table>,
    edge: &Edge,
    cut: &[u16],
) -> Result<bool, AllocError> {
    let list = list_of(alloc, edge)?;
    Ok(is_cut_of(&detector.batch_of(&list)?, cut))
}

/// Whether the list of an edge has this cut. It is given again if out of memory: the detector is then
/// as it was.
fn list_cuts_again(
    alloc: Global,
    detector: &mut Detector<Table>,
    edge: &Edge,
    cut: &[u16],
) -> Result<bool, AllocError> {
    match list_cuts(alloc, detector, edge, cut) {
        Err(_refused) => list_cuts(alloc, detector, edge, cut),
        answer => answer,
    }
}

/// Whether a call answers as it has to.
fn answers(alloc: Global, detector: &mut Detector<Table>, call: &Call) -> Result<bool, AllocError> {
    match call {
        Call::RemoveAgain(edges, cut, skipped) => {
            cuts_again(alloc, detector, (edges, cut, *skipped))
        }
        Call::ListAgain(edge, cut) => list_cuts_again(alloc, detector, edge, cut),
        Call::Tally(number, reports) => Ok(detector.tally(&process(*number)) == *reports),
    }
}

/// Sees that all calls answer as they have to, in order.
fn all_answer(alloc: Global, detector: &mut Detector<Table>, calls: &[Call]) -> Result<(), Fail> {
    for call in calls {
        if !answers(alloc, detector, call)? {
            return Err(Fail::new(format_args!("answered otherwise: {call:?}")));
        }
    }
    Ok(())
}

/// Who observes process 5, on four rings.
const FIVE: [Edge; 4] = [(0, 1, 5), (1, 2, 5), (2, 3, 5), (3, 4, 5)];

/// Sees that all calls of a detector over the edges to process 5 answer as they have to, in order.
fn runs(alloc: Global, calls: &[Call]) -> Result<(), Fail> {
    let mut detector = Detector::new(alloc, table(alloc, (4, 3, 2), &[], &FIVE)?);
    all_answer(alloc, &mut detector, calls)
}

/// Two batches, the first with an alert that is skipped, bring the cut of process 5.
const BRINGS: [Call; 3] = [
    Call::RemoveAgain(&[(2, 3, 5), (1, 2, 5), (0, 2, 5)], &[], 1),
    Call::RemoveAgain(&[(0, 1, 5)], &[5], 0),
    Call::Tally(5, 3),
];

/// After a refused growth the detector is as it was, so that batches given again bring the same
/// cut.
#[test]
fn out_of_memory_leaves_the_detector_as_it_was(rt: HostRuntime) -> Result<(), Fail> {
    runs(rt.alloc(), &BRINGS)
}

/// Three lists bring the cut of process 5. Each is gone before the next comes.
const LISTED: [Call; 4] = [
    Call::ListAgain((0, 1, 5), &[]),
    Call::ListAgain((1, 2, 5), &[]),
    Call::ListAgain((2, 3, 5), &[5]),
    Call::Tally(5, 3),
];

#[test]
fn out_of_memory_in_a_list_leaves_the_detector_as_it_was(rt: HostRuntime) -> Result<(), Fail> {
    runs(rt.alloc(), &LISTED)
}

/// The table of the edge on which process 1 observes process 5, and of three on which processes 2 to
/// 4 observe this one.
fn observing(alloc: Global, subject: Process) -> Result<Table, Fail> {
    let mut table = table(alloc, (4, 3, 2), &[], &[(0, 1, 5)])?;
    for ring in 0..3 {
        table.add(ring, process(u16::from(ring) + 2), subject)?;
    }
    Ok(table)
}

/// The cut of a batch of one alert. It is given again if out of memory: the detector is then as it
/// was.
fn cut_again(detector: &mut Detector<Table>, alert: &Alert) -> Result<Option<Cut>, AllocError> {
    match detector.batch(slice::from_ref(alert)) {
        Err(_refused) => detector.batch(slice::from_ref(alert)),
        answer => answer,
    }
}

/// How many processes are reported on that differ in tags alone: one more than are looked for one by
/// one, and as many as there are bytes from `^` on that print.
const MANY: u8 = 33;

/// The process with the number 6 and a tag of this number.
fn numbered_tag(number: u8) -> Result<Process, ParseError> {
    tagged(6, &[&[b'^'.saturating_add(number)]])
}

/// The table in which processes 1 and 2 observe these on two rings.
fn observing_many(alloc: Global) -> Result<Table, Fail> {
    let mut table = table(alloc, (4, 3, 2), &[], &[])?;
    for number in 0..MANY {
        for ring in 0..2 {
            table.add(ring, process(u16::from(ring) + 1), numbered_tag(number)?)?;
        }
    }
    Ok(table)
}

/// Each of these is reported on by itself, also once there are many.
#[test]
fn out_of_memory_in_reports_on_many_with_tags(rt: HostRuntime) -> Result<(), Fail> {
    let alloc = rt.alloc();
    let mut detector = Detector::new(alloc, observing_many(alloc)?);
    for ring in 0..2 {
        for number in 0..MANY {
            let subject = numbered_tag(number)?;
            let on_it = Alert {
                subject,
                ..alert(&(ring, u16::from(ring) + 1, 6))
            };
            assert!(rt; cut_again(&mut detector, &on_it)?.is_none());
            assert_eq!(rt;
                detector.tally(&subject),
                usize::from(ring) + 1,
                "at {number}"
            );
        }
        assert_eq!(rt; detector.tally(&numbered_tag(0)?), usize::from(ring) + 1);
        assert_eq!(rt; detector.tally(&process(6)), 0);
    }
    Ok(())
}

/// The first process with tags that is reported on takes over, with itself, what is known of one
/// without.
#[test]
fn out_of_memory_at_the_first_report_on_one_with_tags(rt: HostRuntime) -> Result<(), Fail> {
    let alloc = rt.alloc();
    let subject = tagged(6, &[b"db"])?;
    let mut detector = Detector::new(alloc, observing(alloc, subject)?);
    assert!(rt; cut_again(&mut detector, &alert(&(0, 1, 5)))?.is_none());
    for ring in 0..3 {
        let on_it = Alert {
            subject,
            ..alert(&(ring, u16::from(ring) + 2, 6))
        };
        let cut = cut_again(&mut detector, &on_it)?;
        assert_eq!(rt; cut.is_some(), ring == 2);
        assert_eq!(rt; detector.tally(&subject), usize::from(ring) + 1);
        assert_eq!(rt; detector.tally(&process(5)), 1);
    }
    Ok(())
}
