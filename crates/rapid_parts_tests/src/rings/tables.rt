// Tables of explicit edges.

use crate::numbered::{Marks, is_numbered, process};
use rapid_config::{ConfigId, Params};
use rapid_endpoint::Process;
use rapid_rings::{ObserverTable, Table, TableError};
use std::alloc::Global;
use std::test::Fail;

/// A call of a table, and what it answers.
#[derive(Clone, Copy, Debug)]
enum Call {
    /// An edge: a ring, an observer and a subject.
    Add(u8, u16, u16, Result<(), TableError>),
    /// A process is made a joiner.
    Joiner(u16),
    /// The observer on a ring of a subject; 0 stands for no process.
    Observer(u8, u16, u16),
    /// Whether a process is a member.
    Member(u16, bool),
    /// By one search, whether a process is a member, and its observer on a ring.
    Search(u8, u16, bool, u16),
    /// This many rings, and the identifier that is all zero.
    Bare(u8),
    /// The members 2 to 1,025 are observed by process 1 on ring 0.
    Fill,
}

/// Has the members 2 to 1,025 observed on ring 0; whether each is.
fn fill(table: &mut Table) -> bool {
    for number in 2..1026 {
        if table.add(0, process(1), process(number)) != Ok(()) {
            return false;
        }
    }
    true
}

/// Whether on a ring a process is a member or not, and has this observer, also if it is looked for at
/// a place first.
fn are_found(table: &Table, ring: u8, subject: &Process, (is_member, number): (bool, u16)) -> bool {
    let (found, by) = table.member_and_observer(ring, subject);
    let (found_near, by_near) = table.member_and_observer_near(ring, subject, &mut 7);
    found == is_member && is_numbered(by, number) && found_near == found && by_near == by
}

/// Whether a call answers as it has to.
fn answers(table: &mut Table, call: &Call) -> bool {
    match call {
        Call::Add(ring, observer, subject, expected) => {
            table.add(*ring, process(*observer), process(*subject)) == *expected
        }
        Call::Joiner(number) => table.joiner(process(*number)).is_ok(),
        Call::Observer(ring, subject, number) => {
            is_numbered(table.observer(*ring, &process(*subject)), *number)
        }
        Call::Member(number, is_member) => table.is_member(&process(*number)) == *is_member,
        Call::Search(ring, subject, is_member, number) => {
            are_found(table, *ring, &process(*subject), (*is_member, *number))
        }
        Call::Bare(k) => {
            table.params().k() == *k
                && table.id() == ConfigId::new([0; 32])
                && table.may_any_observe_itself()
        }
        Call::Fill => fill(table),
    }
}

/// Sees that all calls answer as they have to, in order.
fn all_answer(table: &mut Table, calls: &[Call]) -> Result<(), Fail> {
    for call in calls {
        if !answers(table, call) {
            return Err(Fail::new(format_args!("answered otherwise: {call:?}")));
        }
    }
    Ok(())
}

/// Sees that all calls of a table answer as they have to, in order.
fn runs(alloc: Global, (k, h, l): Marks, calls: &[Call]) -> Result<(), Fail> {
    let mut table = Table::new(alloc, Params::new(k, h, l)?);
    all_answer(&mut table, calls)
}

const FOUR: Marks = (4, 3, 2);

const EDGES: [Call; 7] = [
    Call::Add(0, 1, 5, Ok(())),
    Call::Add(1, 2, 5, Ok(())),
    Call::Observer(0, 5, 1),
    Call::Observer(1, 5, 2),
    Call::Observer(2, 5, 0),
    Call::Observer(0, 6, 0),
    Call::Observer(255, 5, 0),
];

#[test]
fn an_edge_has_its_observer(rt: HostRuntime) -> Result<(), Fail> {
    runs(rt.alloc(), FOUR, &EDGES)
}

const JOINERS: [Call; 7] = [
    Call::Joiner(9),
    Call::Member(9, false),
    Call::Member(77, true),
    Call::Search(0, 9, false, 0),
    Call::Add(0, 1, 9, Ok(())),
    Call::Add(0, 2, 9, Err(TableError::EdgeTwice)),
    Call::Add(4, 2, 9, Err(TableError::RingRange)),
];

#[test]
fn a_joiner_is_no_member_and_an_edge_is_refused_by_name(rt: HostRuntime) -> Result<(), Fail> {
    runs(rt.alloc(), FOUR, &JOINERS)
}

#[test]
fn a_table_has_its_parameters_and_no_identifier(rt: HostRuntime) -> Result<(), Fail> {
    runs(rt.alloc(), FOUR, &[Call::Bare(4)])
}

const CODES: [(TableError, u8); 4] = [
    (TableError::EdgeTwice, 1),
    (TableError::RingRange, 2),
    (TableError::TooMany, 3),
    (TableError::OutOfMemory, 99),
];

#[test]
fn errors_have_numbers(rt: HostRuntime) {
    for (error, code) in &CODES {
        assert!(rt; error.code() == *code, "at {error:?}");
    }
}

const TWO: Marks = (2, 2, 1);

/// The first error that holds is answered, and joiners and further edges have room.
const FULL: [Call; 9] = [
    Call::Fill,
    Call::Add(0, 1, 1026, Err(TableError::TooMany)),
    Call::Observer(0, 1026, 0),
    Call::Add(2, 1, 1026, Err(TableError::TooMany)),
    Call::Add(2, 1, 2, Err(TableError::RingRange)),
    Call::Add(0, 1, 2, Err(TableError::EdgeTwice)),
    Call::Add(1, 1, 2, Ok(())),
    Call::Joiner(5000),
    Call::Add(0, 1, 5000, Ok(())),
];

#[test]
fn a_1025th_member_is_not_observed(rt: HostRuntime) -> Result<(), Fail> {
    runs(rt.alloc(), TWO, &FULL)
}

const NO_LONGER_FULL: [Call; 6] = [
    Call::Fill,
    Call::Joiner(3),
    Call::Joiner(3),
    Call::Add(0, 1, 1026, Ok(())),
    Call::Add(0, 1, 1027, Err(TableError::TooMany)),
    Call::Observer(0, 3, 1),
];

#[test]
fn a_subject_that_becomes_a_joiner_counts_no_more(rt: HostRuntime) -> Result<(), Fail> {
    runs(rt.alloc(), TWO, &NO_LONGER_FULL)
}
