// Worked rows of the probe window, and copies.

use crate::numbered::{THREE, process};
use crate::rings::rings::{TWO, rings_of};
use rapid_config::ConfigError;
use rapid_monitor::{Edge, Monitors, Verdict};
use std::alloc::{AllocError, Global};
use std::test::Fail;

/// A result, how often it comes, and the verdict each time.
type Run = (bool, u8, Verdict);

/// Whether an edge has its verdict each time, and says so before.
fn runs(edge: &mut Edge, (ok, count, verdict): &Run) -> bool {
    for _ in 0..*count {
        let will_be_down = edge.is_down_after(*ok);
        if will_be_down != (*verdict == DOWN) || edge.probe(*ok) != *verdict {
            return false;
        }
    }
    true
}

/// Whether an edge has its verdicts in all these runs, in order.
fn all_run(edge: &mut Edge, rows: &[Run]) -> bool {
    for row in rows {
        if !runs(edge, row) {
            return false;
        }
    }
    true
}

const UP: Verdict = Verdict::Up;

const DOWN: Verdict = Verdict::Down;

const WINDOWS: [&[Run]; 4] = [
    &[(false, 3, UP), (true, 7, UP), (false, 1, UP)],
    &[(false, 3, UP), (true, 6, UP), (false, 1, DOWN)],
    &[(false, 3, UP), (false, 1, DOWN), (true, 20, DOWN)],
    &[(true, 10, UP), (false, 3, UP)],
];

/// Whether a new edge has its verdicts in these runs.
fn new_runs(alloc: Global, rows: &[Run]) -> Result<bool, AllocError> {
    let mut edge = Edge::new(alloc)?;
    Ok(all_run(&mut edge, rows))
}

#[test]
fn four_failures_of_ten_bring_an_edge_down(rt: HostRuntime) {
    for rows in &WINDOWS {
        assert!(rt;
            matches!(new_runs(rt.alloc(), rows), Ok(true)),
            "in the runs {rows:?}"
        );
    }
}

/// Whether a copy of an edge has its verdicts in these runs.
fn copy_runs(alloc: Global, edge: &Edge, rows: &[Run]) -> Result<bool, AllocError> {
    let mut copy = edge.try_copy(alloc)?;
    Ok(all_run(&mut copy, rows))
}

/// Whether a new edge and a copy of it have their verdicts, each by itself.
fn run_apart(alloc: Global) -> Result<bool, AllocError> {
    let mut edge = Edge::new(alloc)?;
    Ok(
        all_run(&mut edge, &[(true, 9, UP), (false, 3, UP)])
            && copy_runs(alloc, &edge, &[(false, 1, DOWN)])?
            && all_run(&mut edge, &[(true, 1, UP), (false, 1, DOWN)]),
    )
}

#[test]
fn a_copy_goes_on_by_itself(rt: HostRuntime) {
    assert!(rt; matches!(run_apart(rt.alloc()), Ok(true)));
}

/// A probe of the edge on a ring: its result and the verdict, none if there is no edge.
type Probe = (u8, bool, Option<Verdict>);

/// Whether all probes have their verdicts, in order, each of which is said before.
fn all_probe(monitors: &mut Monitors, rows: &[Probe]) -> bool {
    for (ring, ok, verdict) in rows {
        let will_be_down = monitors.is_down_after(*ring, *ok);
        if will_be_down.is_some() != verdict.is_some()
            || will_be_down.unwrap_or(false) != (*verdict == Some(DOWN))
            || monitors.probe(*ring, *ok) != *verdict
        {
            return false;
        }
    }
    true
}

/// Whether all probes of a copy have their verdicts, in order.
fn copy_probes(alloc: Global, monitors: &Monitors, rows: &[Probe]) -> Result<bool, AllocError> {
    let mut copy = monitors.try_copy(alloc)?;
    Ok(all_probe(&mut copy, rows))
}

/// What monitors do.
#[derive(Clone, Copy, Debug)]
enum Step<'a> {
    /// Probes, in order.
    Probe(&'a [Probe]),
    /// Probes of a copy, in order.
    Copy(&'a [Probe]),
}

/// Whether a step has its verdicts.
fn steps(alloc: Global, monitors: &mut Monitors, step: &Step) -> Result<bool, AllocError> {
    match step {
        Step::Probe(rows) => Ok(all_probe(monitors, rows)),
        Step::Copy(rows) => copy_probes(alloc, monitors, rows),
    }
}

/// The monitors of a process among two members.
fn monitors_of(alloc: Global, me: u16) -> Result<Monitors, ConfigError> {
    let rings = rings_of(alloc, THREE, &TWO)?;
    Ok(Monitors::new(alloc, &rings, &process(me))?)
}

/// Sees that all steps of monitors have their verdicts, in order.
fn all_step(alloc: Global, monitors: &mut Monitors, all: &[Step]) -> Result<(), Fail> {
    for step in all {
        if !steps(alloc, monitors, step)? {
            return Err(Fail::new(format_args!("another verdict: {step:?}")));
        }
    }
    Ok(())
}

/// Sees that all steps of the monitors of a process among two members have their verdicts, in order.
fn monitors_run(alloc: Global, me: u16, all: &[Step]) -> Result<(), Fail> {
    let mut monitors = monitors_of(alloc, me)?;
    all_step(alloc, &mut monitors, all)
}

const THREE_FAIL: [Probe; 3] = [
    (0, false, Some(UP)),
    (0, false, Some(UP)),
    (0, false, Some(UP)),
];

const FOURTH_FAILS: [Probe; 1] = [(0, false, Some(DOWN))];

const EACH_BY_ITSELF: [Probe; 4] = [
    (1, false, Some(UP)),
    (2, false, Some(UP)),
    (3, false, None),
    (0, false, Some(DOWN)),
];

const BY_RING: [Step; 3] = [
    Step::Probe(&THREE_FAIL),
    Step::Copy(&FOURTH_FAILS),
    Step::Probe(&EACH_BY_ITSELF),
];

#[test]
fn the_edges_of_a_member_are_probed_by_ring(rt: HostRuntime) -> Result<(), Fail> {
    monitors_run(rt.alloc(), 1, &BY_RING)
}

const NO_EDGE: [Step; 1] = [Step::Probe(&[(0, true, None)])];

#[test]
fn a_stranger_probes_nothing(rt: HostRuntime) -> Result<(), Fail> {
    monitors_run(rt.alloc(), 9, &NO_EDGE)
}
