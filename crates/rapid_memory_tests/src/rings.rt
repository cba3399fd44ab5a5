// Rings, tables of explicit edges, and the probe windows of a member. Each call says by its error
// that memory ran out and changes nothing, or makes what it makes with memory.

use crate::numbered::{Marks, Name, THREE, founded, process, tagged};
use rapid_config::{ConfigError, Configuration, Params};
use rapid_endpoint::Process;
use rapid_monitor::{Monitors, Verdict};
use rapid_rings::{ObserverTable, Rings, Table, TableError};
use std::alloc::{AllocError, Global};
use std::test::Fail;

/// Whether it is the process with this number; 0 stands for none.
fn is_numbered(found: Option<Process>, number: u16) -> bool {
    match found {
        Some(found) => found == process(number),
        None => number == 0,
    }
}

/// The rings of these members, who ascend.
fn rings_of(alloc: Global, marks: Marks, names: &[Name]) -> Result<Rings, ConfigError> {
    let configuration = founded(alloc, marks, names)?;
    Ok(Rings::new(alloc, &configuration)?)
}

/// A ring, an observer and a subject; 0 stands for no process.
type Edge = (u8, u16, u16);

/// Whether each one observes the other on the ring.
fn are_edges(rings: &Rings, edges: &[Edge]) -> bool {
    for (ring, observer, subject) in edges {
        if !is_numbered(rings.observer(*ring, &process(*subject)), *observer) {
            return false;
        }
    }
    true
}

/// Whether rings of three answer their configuration, in which there is no process 6.
fn tell(rings: &Rings, configuration: &Configuration) -> bool {
    rings.params().k() == 3
        && rings.id() == configuration.id()
        && rings.is_member(&process(2))
        && !rings.is_member(&process(6))
}

/// Whether on the next rings each one observes the other, process 1 has three subjects, and they
/// answer their configuration.
fn are_next(
    alloc: Global,
    before: &Rings,
    configuration: &Configuration,
    edges: &[Edge],
) -> Result<bool, AllocError> {
    let rings = before.next(alloc, configuration)?;
    let subjects = rings.subjects_of(alloc, &process(1))?.len();
    Ok(subjects == 3 && are_edges(&rings, edges) && tell(&rings, configuration))
}

/// Whether the rings of these members follow.
fn follow(
    alloc: Global,
    before: &Rings,
    names: &[Name],
    edges: &[Edge],
) -> Result<bool, ConfigError> {
    let configuration = founded(alloc, THREE, names)?;
    Ok(are_next(alloc, before, &configuration, edges)?)
}

/// Two members.
const TWO: [Name; 2] = [(1, 1), (2, 2)];

/// Who observes whom of two members.
const OF_TWO: [Edge; 8] = [
    (0, 2, 1),
    (1, 2, 1),
    (2, 2, 1),
    (0, 1, 2),
    (1, 1, 2),
    (2, 1, 2),
    // no rings
    (3, 0, 1),
    (255, 0, 1),
];

/// Whether the rings of two members follow those of one.
fn follow_one(alloc: Global) -> Result<bool, ConfigError> {
    let before = rings_of(alloc, THREE, &[(1, 1)])?;
    follow(alloc, &before, &TWO, &OF_TWO)
}

#[test]
fn out_of_memory_in_rings(rt: HostRuntime) -> Result<(), Fail> {
    assert!(rt; follow_one(rt.alloc())?);
    Ok(())
}

/// A call of a table, and what it answers.
#[derive(Clone, Copy, Debug)]
enum Call {
    /// The observer on a ring of a subject; 0 stands for no process.
    Observer(u8, u16, u16),
    /// An edge from process 1 to process 5 on a ring, put once more if out of memory.
    PutAgain(u8),
    /// An edge from process 3 to process 5 on ring 0, both with tags, put once more if out of memory.
    PutTaggedAgain,
    /// Process 9 is made a joiner, once more if out of memory.
    JoinAgain,
    /// Process 9 with tags is made a joiner, once more if out of memory.
    JoinTaggedAgain,
    /// The members 2 to 1,025 are observed by process 1 on ring 0, each put once more if out of memory.
    FillAgain,
    /// The member 1,026 is one too many.
    IsFull,
}

/// Puts an edge on a ring, once more if out of memory: the table is then as it was.
fn put(
    table: &mut Table,
    ring: u8,
    observer: &Process,
    subject: &Process,
) -> Result<(), TableError> {
    match table.add(ring, *observer, *subject) {
        Err(TableError::OutOfMemory)
            if table.observer(ring, subject).is_none() && table.is_member(subject) => {
            table.add(ring, *observer, *subject)
        }
        answer => answer,
    }
}

/// Puts an edge from process 3 to process 5 on ring 0, both with tags; whether it stands there, and the
/// one without tags is as it was.
fn put_tagged(table: &mut Table) -> Result<bool, Fail> {
    let subject = tagged(5, &[b"web"])?;
    let before = table.observer(0, &process(5));
    put(table, 0, &tagged(3, &[b"db"])?, &subject)?;
    let stands = table.observer(0, &subject) == Some(tagged(3, &[b"db"])?);
    Ok(stands && table.observer(0, &process(5)) == before)
}

/// Has the members 2 to 1,025 observed on ring 0; whether each is.
fn fill(table: &mut Table) -> bool {
    for number in 2..1026 {
        if put(table, 0, &process(1), &process(number)) != Ok(()) {
            return false;
        }
    }
    true
}

/// Whether a process is made a joiner, once more if out of memory.
fn join(table: &mut Table, joiner: &Process) -> bool {
    match table.joiner(*joiner) {
        Err(_refused) => table.is_member(joiner) && table.joiner(*joiner).is_ok(),
        Ok(()) => true,
    }
}

/// Whether process 9 with tags is made a joiner, and the one without them is what it was.
fn join_tagged(table: &mut Table) -> Result<bool, Fail> {
    let before = table.is_member(&process(9));
    let joins = join(table, &tagged(9, &[b"db"])?);
    Ok(joins && table.is_member(&process(9)) == before)
}

/// Whether a call answers as it has to.
fn answers(table: &mut Table, call: &Call) -> Result<bool, Fail> {
    let answers = match call {
        Call::Observer(ring, subject, number) => {
            is_numbered(table.observer(*ring, &process(*subject)), *number)
        }
        Call::PutAgain(ring) => put(table, *ring, &process(1), &process(5)).is_ok(),
        Call::PutTaggedAgain => put_tagged(table)?,
        Call::JoinAgain => join(table, &process(9)),
        Call::JoinTaggedAgain => join_tagged(table)?,
        Call::FillAgain => fill(table),
        Call::IsFull => table.add(0, process(1), process(1026)) == Err(TableError::TooMany),
    };
    Ok(answers)
}

/// Sees that all calls answer as they have to, in order.
fn all_answer(table: &mut Table, calls: &[Call]) -> Result<(), Fail> {
    for call in calls {
        if !answers(table, call)? {
            return Err(Fail::new(format_args!("answered otherwise: {call:?}")));
        }
    }
    Ok(())
}

/// Sees that all calls of a table answer as they have to, in order.
fn runs(alloc: Global, (k, h, l): Marks, calls: &[Call]) -> Result<(), Fail> {
    let mut table = Table::new(alloc, Params::new(k, h, l)?);
    all_answer(&mut table, calls)
}

const TAKES_ALL: [Call; 7] = [
    Call::JoinAgain,
    Call::JoinTaggedAgain,
    Call::PutAgain(0),
    Call::PutTaggedAgain,
    Call::PutAgain(1),
    Call::Observer(0, 5, 1),
    Call::Observer(1, 5, 1),
];

/// After a refused growth the table is as it was, so that the edge is put there when it is put
/// again.
#[test]
fn out_of_memory_leaves_the_table_as_it_was(rt: HostRuntime) -> Result<(), Fail> {
    runs(rt.alloc(), (2, 2, 1), &TAKES_ALL)
}

/// A subject whose edge was refused is not counted as observed.
#[test]
fn out_of_memory_leaves_room_for_1024_observed_members(rt: HostRuntime) -> Result<(), Fail> {
    runs(rt.alloc(), (2, 2, 1), &[Call::FillAgain, Call::IsFull])
}

/// A probe of the edge on a ring: its result and the verdict, none if there is no edge.
type Probe = (u8, bool, Option<Verdict>);

/// Whether all probes have their verdicts, in order.
fn all_probe(monitors: &mut Monitors, rows: &[Probe]) -> bool {
    for (ring, ok, verdict) in rows {
        if monitors.probe(*ring, *ok) != *verdict {
            return false;
        }
    }
    true
}

/// Whether all probes of a copy have their verdicts, in order.
fn copy_probes(alloc: Global, monitors: &Monitors, rows: &[Probe]) -> Result<bool, AllocError> {
    let mut copy = monitors.try_copy(alloc)?;
    Ok(all_probe(&mut copy, rows))
}

/// What monitors do.
#[derive(Clone, Copy, Debug)]
enum Step<'a> {
    /// Probes, in order.
    Probe(&'a [Probe]),
    /// Probes of a copy, in order, if there is memory for it.
    CopyIfMade(&'a [Probe]),
}

/// Whether a step has its verdicts.
fn steps(alloc: Global, monitors: &mut Monitors, step: &Step) -> bool {
    match step {
        Step::Probe(rows) => all_probe(monitors, rows),
        Step::CopyIfMade(rows) => copy_probes(alloc, monitors, rows).unwrap_or(true),
    }
}

/// The monitors of a process, made once more if out of memory.
fn made(alloc: Global, rings: &Rings, me: u16) -> Result<Monitors, AllocError> {
    match Monitors::new(alloc, rings, &process(me)) {
        Err(_refused) => Monitors::new(alloc, rings, &process(me)),
        made => made,
    }
}

/// The monitors of a process among two members, made once more if out of memory.
fn monitors_of(alloc: Global, me: u16) -> Result<Monitors, ConfigError> {
    let rings = rings_of(alloc, THREE, &TWO)?;
    Ok(made(alloc, &rings, me)?)
}

/// Sees that all steps of monitors have their verdicts, in order.
fn all_step(alloc: Global, monitors: &mut Monitors, all: &[Step]) -> Result<(), Fail> {
    for step in all {
        if !steps(alloc, monitors, step) {
            return Err(Fail::new(format_args!("another verdict: {step:?}")));
        }
    }
    Ok(())
}

/// Sees that all steps of the monitors of a process among two members have their verdicts, in order.
fn monitors_run(alloc: Global, me: u16, all: &[Step]) -> Result<(), Fail> {
    let mut monitors = monitors_of(alloc, me)?;
    all_step(alloc, &mut monitors, all)
}

const UP: Verdict = Verdict::Up;

const DOWN: Verdict = Verdict::Down;

const THREE_FAIL: [Probe; 3] = [
    (0, false, Some(UP)),
    (0, false, Some(UP)),
    (0, false, Some(UP)),
];

const FOURTH_FAILS: [Probe; 1] = [(0, false, Some(DOWN))];

const EACH_BY_ITSELF: [Probe; 4] = [
    (1, false, Some(UP)),
    (2, false, Some(UP)),
    (3, false, None),
    (0, false, Some(DOWN)),
];

const AS_THEY_WERE: [Step; 3] = [
    Step::Probe(&THREE_FAIL),
    Step::CopyIfMade(&FOURTH_FAILS),
    Step::Probe(&EACH_BY_ITSELF),
];

/// After a refused growth the next call works, and what was copied is as it was.
#[test]
fn out_of_memory_leaves_the_monitors_as_they_were(rt: HostRuntime) -> Result<(), Fail> {
    monitors_run(rt.alloc(), 1, &AS_THEY_WERE)
}
