// Cut detection over tables of explicit edges. The worked inputs of `detect` are in its own tests;
// here is what its output does not show.

ghost use Rattle.std.specs.Prelude.{◌≡◌};

use crate::cut::tables::{Edge, Start, table};
use crate::numbered::{are_numbered, process, shared};
use rapid_alerts::{Alert, AlertList, Kind};
use rapid_config::{ConfigId, Cut, Params};
use rapid_cut::Detector;
use rapid_rings::{ObserverTable, Table};
use std::alloc::{AllocError, Global};
use std::test::Fail;

/// A call of a detector, and what it answers.
#[derive(Clone, Copy, Debug)]
enum Call<'a> {
    /// A batch that removes, the numbers of its cut, none if it has no cut, and how many alerts are
    /// skipped.
    Remove(&'a [Edge], &'a [u16], usize),
    /// A batch that lets in, and the same.
    Join(&'a [Edge], &'a [u16], usize),
    /// A batch that lets in this many joiners, from 2 on, whom process 1 observes on ring 0. It has
    /// no cut, and skips this many alerts.
    JoinMany(u16, usize),
    /// A batch of one alert of another configuration, which is skipped.
    Old(Edge),
    /// How many reports there are on a process.
    Tally(u16, usize),
    /// How many processes are unstable.
    Unstable(usize),
}

fn alert_in(config: ConfigId, kind: Kind, edge: &Edge) -> Alert {
    Alert {
        observer: process(edge.1),
        subject: process(edge.2),
        ring: edge.0,
        kind,
        config,
    }
}

/// An alert of a kind on each of these edges.
fn alerts(alloc: Global, kind: Kind, edges: &[Edge]) -> Result<Vec<Alert>, AllocError> {
    let mut alerts = Vec::new(alloc);
    for edge in edges {
        alerts.push(alert_in(ConfigId::zero(), kind, edge))?;
    }
    Ok(alerts)
}

/// The alerts of process 1 on ring 0 that let in this many others, from 2 on.
fn alerts_of_one(alloc: Global, many: u16) -> Result<AlertList, AllocError> {
    let mut alerts = AlertList::new(alloc, shared(alloc, &process(1))?, ConfigId::zero());
    for number in 0..many {
        alerts.push(&process(number.wrapping_add(2)), 0, Kind::Join)?;
    }
    Ok(alerts)
}

/// Whether a cut is that of the processes with these numbers; none stands for no cut.
fn is_cut_of(cut: &Option<Cut>, numbers: &[u16]) -> bool {
    match cut {
        Some(cut) => are_numbered(cut.processes(), numbers),
        None => numbers.is_empty(),
    }
}

/// Whether a batch has this cut and skips this many alerts.
fn has_cut(
    detector: &mut Detector<Table>,
    alerts: &[Alert],
    cut: &[u16],
    skipped: usize,
) -> Result<bool, AllocError> {
    let found = detector.batch(alerts)?;
    Ok(is_cut_of(&found, cut) && detector.skipped() == skipped)
}

/// Whether a batch of alerts of a kind has this cut and skips this many of them.
fn cuts(
    alloc: Global,
    detector: &mut Detector<Table>,
    kind: Kind,
    (edges, cut, skipped): (&[Edge], &[u16], usize),
) -> Result<bool, AllocError> {
    let alerts = alerts(alloc, kind, edges)?;
    has_cut(detector, alerts.as_slice(), cut, skipped)
}

/// Whether a batch that lets in this many joiners, from 2 on, has no cut and skips this many of
/// them.
fn lets_in(
    alloc: Global,
    detector: &mut Detector<Table>,
    many: u16,
    skipped: usize,
) -> Result<bool, AllocError> {
    let alerts = alerts_of_one(alloc, many)?;
    let found = detector.batch_of(&alerts)?;
    Ok(found.is_none() && detector.skipped() == skipped)
}

/// Whether an alert of another configuration is skipped.
fn skips_old(detector: &mut Detector<Table>, edge: &Edge) -> Result<bool, AllocError> {
    let old = alert_in(ConfigId::new([1; 32]), Kind::Remove, edge);
    has_cut(detector, &[old], &[], 1)
}

/// Whether a call answers as it has to.
fn answers(alloc: Global, detector: &mut Detector<Table>, call: &Call) -> Result<bool, AllocError> {
    match call {
        Call::Remove(edges, cut, skipped) => {
            cuts(alloc, detector, Kind::Remove, (edges, cut, *skipped))
        }
        Call::Join(edges, cut, skipped) => {
            cuts(alloc, detector, Kind::Join, (edges, cut, *skipped))
        }
        Call::JoinMany(many, skipped) => lets_in(alloc, detector, *many, *skipped),
        Call::Old(edge) => skips_old(detector, edge),
        Call::Tally(number, reports) => Ok(detector.tally(&process(*number)) == *reports),
        Call::Unstable(count) => Ok(detector.unstable()?.len() == *count),
    }
}

/// Sees that all calls answer as they have to, in order.
fn all_answer(alloc: Global, detector: &mut Detector<Table>, calls: &[Call]) -> Result<(), Fail> {
    for call in calls {
        if !answers(alloc, detector, call)? {
            return Err(Fail::new(format_args!("answered otherwise: {call:?}")));
        }
    }
    Ok(())
}

/// Sees that all calls of a detector over a table answer as they have to, in order.
fn runs(alloc: Global, start: &Start, calls: &[Call]) -> Result<(), Fail> {
    let mut detector = Detector::new(alloc, table(alloc, start)?);
    all_answer(alloc, &mut detector, calls)
}

const FIVE: Start = Start::Edges(4, 3, 2, &[(0, 1, 5), (1, 2, 5), (2, 3, 5), (3, 4, 5)]);

/// A repeat counts once, earlier batches count, and who is not alone unstable is held back.
const REPEATS: [Call; 8] = [
    Call::Remove(&[], &[], 0),
    Call::Remove(&[(2, 3, 5), (2, 3, 5)], &[], 0),
    Call::Tally(5, 1),
    Call::Remove(&[(1, 2, 5), (1, 2, 5)], &[], 0),
    Call::Unstable(1),
    Call::Remove(&[(0, 1, 5), (0, 1, 5)], &[5], 0),
    Call::Tally(5, 3),
    Call::Tally(6, 0),
];

#[test]
fn repeats_count_once_and_earlier_batches_count(rt: HostRuntime) -> Result<(), Fail> {
    runs(rt.alloc(), &FIVE, &REPEATS)
}

const BY_FIVE: [Edge; 8] = [
    (0, 1, 5),
    (1, 2, 5),
    (2, 3, 5),
    (3, 4, 5),
    (0, 1, 6),
    (1, 2, 6),
    (2, 5, 6),
    (3, 5, 6),
];

const OBSERVED_BY_FIVE: Start = Start::Edges(4, 3, 2, &BY_FIVE);

/// Two reports on 6 hold its cut back, and the third on 5 implies the two others on 6.
const IMPLIES: [Call; 5] = [
    Call::Remove(&[(0, 1, 6), (1, 2, 6), (0, 1, 5)], &[], 0),
    Call::Tally(6, 2),
    Call::Unstable(1),
    Call::Remove(&[(1, 2, 5), (2, 3, 5)], &[5, 6], 0),
    Call::Tally(6, 4),
];

#[test]
fn rings_of_a_reported_observer_are_implied(rt: HostRuntime) -> Result<(), Fail> {
    runs(rt.alloc(), &OBSERVED_BY_FIVE, &IMPLIES)
}

/// An alert of another observer, on no ring, of the wrong kind and of another configuration.
const SKIPS: [Call; 4] = [
    Call::Remove(&[(0, 2, 5), (4, 1, 5), (0, 1, 5)], &[], 2),
    Call::Join(&[(1, 2, 5)], &[], 1),
    Call::Old((1, 2, 5)),
    Call::Tally(5, 1),
];

#[test]
fn what_is_ill_formed_is_skipped(rt: HostRuntime) -> Result<(), Fail> {
    runs(rt.alloc(), &FIVE, &SKIPS)
}

/// Joiners with K = H = 2 and L = 1.
const JOINERS: Start = Start::Joiners(513);

const JOIN_513: [Call; 4] = [
    Call::JoinMany(513, 1),
    Call::Tally(513, 1),
    Call::Tally(514, 0),
    Call::Unstable(512),
];

#[test]
fn a_513th_joiner_is_skipped(rt: HostRuntime) -> Result<(), Fail> {
    runs(rt.alloc(), &JOINERS, &JOIN_513)
}

const JOIN_512: [Call; 3] = [
    Call::JoinMany(512, 0),
    Call::Join(&[(1, 1, 514), (1, 1, 2)], &[], 1),
    Call::Tally(2, 2),
];

#[test]
fn a_known_joiner_is_taken_when_512_are_there(rt: HostRuntime) -> Result<(), Fail> {
    runs(rt.alloc(), &JOINERS, &JOIN_512)
}

/// Whether a copy of a detector over an equal table skipped nothing.
fn copy_skips_none(detector: &Detector<Table>, table: Table) -> Result<bool, AllocError>
    requires { table ≡ detector.now.table }
{
    let copy = detector.try_copy(table)?;
    Ok(copy.skipped() == 0)
}

/// Whether a copy of a new detector skipped nothing.
fn new_copy_skips_none(alloc: Global, params: Params) -> Result<bool, AllocError> {
    let detector = Detector::new(alloc, Table::new(alloc, params));
    copy_skips_none(&detector, Table::new(alloc, params))
}

/// A copy is made over an equal table. Copies with reports are made with their node, in its tests.
#[test]
fn a_detector_is_copied(rt: HostRuntime) -> Result<(), Fail> {
    let params = Params::new(2, 2, 1)?;
    assert!(rt; matches!(new_copy_skips_none(rt.alloc(), params), Ok(true)));
    Ok(())
}

#[test]
fn a_detector_shows_its_table(rt: HostRuntime) -> Result<(), Fail> {
    let detector = Detector::new(rt.alloc(), table(rt.alloc(), &FIVE)?);
    let table = detector.table();
    assert!(rt; table.observer(1, &process(5)) == Some(process(2)));
    assert!(rt; table.observer(1, &process(4)).is_none());
    Ok(())
}
