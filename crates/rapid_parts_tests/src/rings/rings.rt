// The rings of configurations.

use crate::numbered::{Marks, Name, THREE, founded, is_numbered, process, tagged};
use rapid_config::{ConfigError, Configuration, Params};
use rapid_endpoint::{ParseError, Process};
use rapid_rings::{ObserverTable, Rings};
use std::alloc::{AllocError, Global};
use std::test::Fail;

/// The rings of these members, who ascend.
pub fn rings_of(alloc: Global, marks: Marks, names: &[Name]) -> Result<Rings, ConfigError> {
    let configuration = founded(alloc, marks, names)?;
    Ok(Rings::new(alloc, &configuration)?)
}

/// A ring, an observer and a subject; 0 stands for no process.
type Edge = (u8, u16, u16);

/// Whether each one observes the other on the ring.
fn are_edges(rings: &Rings, edges: &[Edge]) -> bool {
    for (ring, observer, subject) in edges {
        if !is_numbered(rings.observer(*ring, &process(*subject)), *observer) {
            return false;
        }
    }
    true
}

/// A call of rings, and what it answers.
#[derive(Clone, Copy, Debug)]
enum Call<'a> {
    /// Who observes whom.
    Edges(&'a [Edge]),
    /// The subjects of a process, each a ring and a number.
    Subjects(u16, &'a [(u8, u16)]),
    /// By one search, whom a process observes on a ring.
    Subject(u8, u16, u16),
    /// By one search, whether on a ring a process is a member, and its observer.
    Search(u8, u16, bool, u16),
    /// From a place on, whether each of these processes is a member, and its observers.
    Near(usize, &'a [u16]),
    /// The rings of a configuration of these members that follows, and who observes whom there.
    Next(&'a [Name], &'a [Edge]),
}

/// Whether it is the pair of a ring and the process with a number.
fn is_pair((on, process): &(u8, Process), (ring, number): &(u8, u16)) -> bool {
    *on == *ring && is_numbered(Some(*process), *number)
}

/// Whether these are the pairs of a ring and the process with a number.
fn are_pairs(pairs: &[(u8, Process)], expected: &[(u8, u16)]) -> bool {
    for (pair, row) in pairs.iter().zip(expected) {
        if !is_pair(pair, row) {
            return false;
        }
    }
    pairs.len() == expected.len()
}

/// Whether a process has these subjects, each a ring and a number.
fn has_subjects(
    alloc: Global,
    rings: &Rings,
    observer: u16,
    expected: &[(u8, u16)],
) -> Result<bool, AllocError> {
    let subjects = rings.subjects_of(alloc, &process(observer))?;
    Ok(are_pairs(subjects.as_slice(), expected))
}

/// Whether rings of three answer their configuration, in which there is no process 6. So that one
/// observes nobody.
fn tell(rings: &Rings, configuration: &Configuration) -> bool {
    rings.params().k() == 3
        && rings.id() == configuration.id()
        && rings.is_member(&process(2))
        && !rings.is_member(&process(6))
        && !rings.may_observe(&process(6))
        && !rings.may_any_observe_itself()
}

/// Whether on the next rings each one observes the other, process 1 has three subjects, and they
/// answer their configuration.
fn are_next(
    alloc: Global,
    before: &Rings,
    configuration: &Configuration,
    edges: &[Edge],
) -> Result<bool, AllocError> {
    let rings = before.next(alloc, configuration)?;
    let subjects = rings.subjects_of(alloc, &process(1))?.len();
    Ok(subjects == 3 && are_edges(&rings, edges) && tell(&rings, configuration))
}

/// Whether the rings of these members follow.
fn follow(
    alloc: Global,
    before: &Rings,
    names: &[Name],
    edges: &[Edge],
) -> Result<bool, ConfigError> {
    let configuration = founded(alloc, THREE, names)?;
    Ok(are_next(alloc, before, &configuration, edges)?)
}

/// Whether one search of a process answers whether it is a member, and its observer on a ring.
fn is_found(rings: &Rings, ring: u8, subject: u16, is_member: bool, observer: u16) -> bool {
    let (found, by) = rings.member_and_observer(ring, &process(subject));
    found == is_member && is_numbered(by, observer)
}

/// Whether a search from a place on finds what one without a place does, on three rings and on one
/// that there is not.
fn is_near(rings: &Rings, subject: &Process, place: &mut usize) -> bool {
    for ring in 0..4 {
        let (found, by) = rings.member_and_observer_near(ring, subject, place);
        if found != rings.is_member(subject) || by != rings.observer(ring, subject) {
            return false;
        }
    }
    true
}

/// Whether each of these is found so, one after the other, the first from this place on.
fn are_near(rings: &Rings, first: usize, subjects: &[u16]) -> bool {
    let mut place = first;
    for subject in subjects {
        if !is_near(rings, &process(*subject), &mut place) {
            return false;
        }
    }
    true
}

/// Whether a call answers as it has to.
fn answers(alloc: Global, rings: &Rings, call: &Call) -> Result<bool, ConfigError> {
    match call {
        Call::Edges(edges) => Ok(are_edges(rings, edges)),
        Call::Subjects(observer, subjects) => {
            Ok(has_subjects(alloc, rings, *observer, subjects)?)
        }
        Call::Subject(ring, observer, subject) => {
            Ok(is_numbered(rings.subject_on(*ring, &process(*observer)), *subject))
        }
        Call::Search(ring, subject, is_member, observer) => {
            Ok(is_found(rings, *ring, *subject, *is_member, *observer))
        }
        Call::Near(place, subjects) => Ok(are_near(rings, *place, subjects)),
        Call::Next(names, edges) => follow(alloc, rings, names, edges),
    }
}

/// Sees that all calls of rings answer as they have to.
fn all_answer(alloc: Global, rings: &Rings, calls: &[Call]) -> Result<(), Fail> {
    for call in calls {
        if !answers(alloc, rings, call)? {
            return Err(Fail::new(format_args!("answered otherwise: {call:?}")));
        }
    }
    Ok(())
}

/// Sees that all calls of the rings of these members answer as they have to.
fn runs(alloc: Global, marks: Marks, names: &[Name], calls: &[Call]) -> Result<(), Fail> {
    let rings = rings_of(alloc, marks, names)?;
    all_answer(alloc, &rings, calls)
}

/// Two members.
pub const TWO: [Name; 2] = [(1, 1), (2, 2)];

/// Who observes whom of two members.
const OF_TWO: [Edge; 8] = [
    (0, 2, 1),
    (1, 2, 1),
    (2, 2, 1),
    (0, 1, 2),
    (1, 1, 2),
    (2, 1, 2),
    // no rings
    (3, 0, 1),
    (255, 0, 1),
];

#[test]
fn two_members_observe_each_other(rt: HostRuntime) -> Result<(), Fail> {
    runs(rt.alloc(), THREE, &TWO, &[Call::Edges(&OF_TWO)])
}

const OF_ONE: [Edge; 6] = [
    (0, 0, 1),
    (1, 0, 1),
    (2, 0, 1),
    (0, 1, 5),
    (1, 1, 5),
    (2, 1, 5),
];

#[test]
fn a_member_alone_is_not_observed(rt: HostRuntime) -> Result<(), Fail> {
    runs(rt.alloc(), THREE, &[(1, 1)], &[Call::Edges(&OF_ONE)])
}

// The observers of these tests were computed by Python's hashlib, from the rule that none is
// between.

/// Five members.
pub const FIVE: [Name; 5] = [(1, 1), (2, 2), (3, 3), (4, 4), (5, 5)];

const OF_FIVE: [Edge; 24] = [
    (0, 3, 1),
    (1, 5, 1),
    (2, 2, 1),
    (0, 1, 2),
    (1, 1, 2),
    (2, 5, 2),
    (0, 4, 3),
    (1, 4, 3),
    (2, 1, 3),
    (0, 5, 4),
    (1, 2, 4),
    (2, 3, 4),
    (0, 2, 5),
    (1, 3, 5),
    (2, 4, 5),
    // joiners
    (0, 4, 6),
    (1, 1, 6),
    (2, 3, 6),
    (0, 3, 7),
    (1, 1, 7),
    (2, 2, 7),
    (0, 2, 40_000),
    (1, 3, 40_000),
    (2, 1, 40_000),
];

#[test]
fn five_members_and_joiners_have_their_observers(rt: HostRuntime) -> Result<(), Fail> {
    runs(rt.alloc(), THREE, &FIVE, &[Call::Edges(&OF_FIVE)])
}

/// The five members, of whom two have tags.
fn five_with_tags() -> Result<[Process; 5], ParseError> {
    Ok([
        process(1),
        tagged(2, &[b"db", b"web"])?,
        process(3),
        tagged(4, &[b"db"])?,
        process(5),
    ])
}

/// The one of these members with this number, or the process without tags if there is none.
fn numbered_among(members: &[Process], number: u16) -> Process {
    match members
        .iter()
        .find(|it| it.has_same_identifier(&process(number)))
    {
        Some(member) => *member,
        None => process(number),
    }
}

/// Whether each one observes the other on the ring, with the tags that they have among these.
fn are_edges_among(rings: &Rings, members: &[Process], edges: &[Edge]) -> bool {
    for (ring, observer, subject) in edges {
        let found = rings.observer(*ring, &numbered_among(members, *subject));
        if found != Some(numbered_among(members, *observer)) {
            return false;
        }
    }
    true
}

/// The keys are hashed of identifier and endpoint alone.
#[test]
fn tags_do_not_change_who_observes_whom(rt: HostRuntime) -> Result<(), Fail> {
    let members = five_with_tags()?;
    let configuration = Configuration::seed(rt.alloc(), Params::new(3, 3, 1)?, &members)?;
    let rings = Rings::new(rt.alloc(), &configuration)?;
    assert!(rt; are_edges_among(&rings, &members, &OF_FIVE));
    Ok(())
}

/// Whether processes have the same observer on each of three rings.
fn share_observers(rings: &Rings, one: &Process, other: &Process) -> bool {
    for ring in 0..3 {
        if rings.observer(ring, one) != rings.observer(ring, other) {
            return false;
        }
    }
    true
}

#[test]
fn a_joiner_has_the_same_observers_whatever_its_tags(rt: HostRuntime) -> Result<(), Fail> {
    let rings = rings_of(rt.alloc(), THREE, &FIVE)?;
    for tags in [
        &[b"db".as_slice()].as_slice(),
        &[b"db".as_slice(), b"web"].as_slice(),
    ] {
        assert!(rt; share_observers(&rings, &process(6), &tagged(6, tags)?));
    }
    Ok(())
}

/// Whether a process observes another on each of three rings.
fn is_observed_by(rings: &Rings, subject: &Process, observer: &Process) -> bool {
    for ring in 0..3 {
        if rings.observer(ring, subject) != Some(*observer) {
            return false;
        }
    }
    true
}

/// A process with the key of a member stands next to it: before it, and so below the member's own
/// observer, or behind it.
#[test]
fn equal_keys_go_by_tags(rt: HostRuntime) -> Result<(), Fail> {
    let members = five_with_tags()?;
    let configuration = Configuration::seed(rt.alloc(), Params::new(3, 3, 1)?, &members)?;
    let rings = Rings::new(rt.alloc(), &configuration)?;
    let member = tagged(4, &[b"db"])?;
    assert!(rt; share_observers(&rings, &member, &tagged(4, &[])?));
    assert!(rt; share_observers(&rings, &member, &tagged(4, &[b"aa"])?));
    assert!(rt; is_observed_by(&rings, &tagged(4, &[b"web"])?, &member));
    assert!(rt; is_observed_by(&rings, &tagged(4, &[b"a", b"b"])?, &member));
    Ok(())
}

const SUBJECTS: [Call; 2] = [
    Call::Subjects(2, &[(0, 5), (1, 4), (2, 1)]),
    Call::Subjects(6, &[]),
];

#[test]
fn members_have_their_subjects(rt: HostRuntime) -> Result<(), Fail> {
    runs(rt.alloc(), THREE, &FIVE, &SUBJECTS)
}

// The same members on one ring, and where there is no observer: no such ring, and no member.
const SUBJECT_ON: [Call; 6] = [
    Call::Subject(0, 2, 5),
    Call::Subject(1, 2, 4),
    Call::Subject(2, 2, 1),
    Call::Subject(3, 2, 0),
    Call::Subject(255, 2, 0),
    Call::Subject(0, 6, 0),
];

#[test]
fn members_have_a_subject_on_each_ring(rt: HostRuntime) -> Result<(), Fail> {
    runs(rt.alloc(), THREE, &FIVE, &SUBJECT_ON)
}

const BEFORE: [Name; 4] = [(1, 1), (3, 3), (4, 4), (6, 6)];

const NEXT: [Call; 1] = [Call::Next(&FIVE, &OF_FIVE)];

/// The next rings keep keys of the last and answer their configuration.
#[test]
fn the_next_rings_keep_the_keys(rt: HostRuntime) -> Result<(), Fail> {
    runs(rt.alloc(), THREE, &BEFORE, &NEXT)
}

// Who observes the two that join, in the members before.
const OF_BEFORE: [Edge; 6] = [
    (0, 1, 2),
    (1, 6, 2),
    (2, 4, 2),
    (0, 1, 5),
    (1, 3, 5),
    (2, 4, 5),
];

/// The next rings take over keys of joiners that were asked for.
#[test]
fn the_next_rings_take_over_keys_of_joiners(rt: HostRuntime) -> Result<(), Fail> {
    let calls = [Call::Edges(&OF_BEFORE), Call::Next(&FIVE, &OF_FIVE)];
    runs(rt.alloc(), THREE, &BEFORE, &calls)
}

// Six joiners whose identifiers end alike in ten bits: their keys are kept in the same four places.
const SHARING: [Edge; 18] = [
    (0, 4, 6),
    (1, 1, 6),
    (2, 3, 6),
    (0, 2, 1_030),
    (1, 5, 1_030),
    (2, 5, 1_030),
    (0, 4, 2_054),
    (1, 3, 2_054),
    (2, 4, 2_054),
    (0, 3, 3_078),
    (1, 1, 3_078),
    (2, 3, 3_078),
    (0, 1, 4_102),
    (1, 1, 4_102),
    (2, 3, 4_102),
    (0, 3, 5_126),
    (1, 5, 5_126),
    (2, 1, 5_126),
];

/// Asked for twice, so that the second answers come from keys that are kept, and from others.
#[test]
fn joiners_that_share_places_have_their_own_observers(rt: HostRuntime) -> Result<(), Fail> {
    let calls = [Call::Edges(&SHARING), Call::Edges(&SHARING)];
    runs(rt.alloc(), THREE, &FIVE, &calls)
}

const SEARCHES: [Call; 2] = [Call::Search(1, 4, true, 2), Call::Search(2, 6, false, 3)];

#[test]
fn one_search_tells_members_and_observers(rt: HostRuntime) -> Result<(), Fail> {
    runs(rt.alloc(), THREE, &FIVE, &SEARCHES)
}

// Members and two joiners, from right places and from wrong ones.
const NEAR: [Call; 5] = [
    Call::Near(0, &[1, 2, 3, 4, 5, 6, 1]),
    Call::Near(4, &[5, 5, 1, 7, 7, 2]),
    Call::Near(2, &[1, 6, 4]),
    Call::Near(5, &[3, 3]),
    Call::Near(usize::MAX, &[6, 2]),
];

#[test]
fn any_place_to_search_from_answers_the_same(rt: HostRuntime) -> Result<(), Fail> {
    runs(rt.alloc(), THREE, &FIVE, &NEAR)
}

const OF_SIXTEEN: [Name; 4] = [(1, 1), (2, 2), (300, 300), (65_535, 65_535)];

// Who observes 1, 2, 300 and 65,535 on five of sixteen rings, by the order of their keys.
const SIXTEEN_RINGS: [Edge; 20] = [
    (0, 65_535, 1),
    (0, 1, 2),
    (0, 2, 300),
    (0, 300, 65_535),
    (1, 65_535, 1),
    (1, 1, 2),
    (1, 2, 300),
    (1, 300, 65_535),
    (2, 2, 1),
    (2, 65_535, 2),
    (2, 1, 300),
    (2, 300, 65_535),
    (7, 300, 1),
    (7, 65_535, 2),
    (7, 2, 300),
    (7, 1, 65_535),
    (15, 300, 1),
    (15, 1, 2),
    (15, 65_535, 300),
    (15, 2, 65_535),
];

#[test]
fn each_ring_has_an_order_of_its_own(rt: HostRuntime) -> Result<(), Fail> {
    runs(
        rt.alloc(),
        (16, 9, 3),
        &OF_SIXTEEN,
        &[Call::Edges(&SIXTEEN_RINGS)],
    )
}
