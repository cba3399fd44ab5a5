// A member that leaves, and what is made of it by who observes it.

use crate::node::said::{Said, To};
use crate::node::steps::{Step, Which, Word, lives};
use rapid_node::Phase;
use std::test::Fail;

// Of the founders 1 to 3 the first observes the second on the rings 0 and 1. It observes the third
// on ring 2, and the joiner 8 on ring 0. So the third observes the first on the rings 0 and 1. The
// second observes it on ring 2. This was computed by Python's hashlib, from the rule that none is
// between.

/// It tells its observer on each ring, as often as it is told itself, and goes on.
const TOLD: [Step; 5] = [
    Step::Hears(
        Word::Leave,
        &[
            (To::Node(3), Said::Leave(0)),
            (To::Node(3), Said::Leave(1)),
            (To::Node(2), Said::Leave(2)),
        ],
    ),
    Step::Is(Phase::Member),
    Step::Hears(Word::Tick, &[]),
    Step::Hears(
        Word::Leave,
        &[
            (To::Node(3), Said::Leave(0)),
            (To::Node(3), Said::Leave(1)),
            (To::Node(2), Said::Leave(2)),
        ],
    ),
    Step::Shows(0, &[1, 2, 3]),
];

#[test]
fn who_leaves_tells_its_observers(rt: HostRuntime) -> Result<(), Fail> {
    lives(&rt, rt.alloc(), (3, 3, 1), &[1, 2, 3], &TOLD)
}

/// A member that is alone has no observer, and a removed node has none any more.
const NOBODY_TOLD: [Step; 4] = [
    Step::Hears(Word::Leave, &[]),
    Step::Hears(Word::Decision(1), &[]),
    Step::Is(Phase::Removed),
    Step::Hears(Word::Leave, &[]),
];

#[test]
fn who_has_no_observer_tells_nobody(rt: HostRuntime) -> Result<(), Fail> {
    lives(&rt, rt.alloc(), (3, 3, 1), &[1], &NOBODY_TOLD)
}

/// That a member leaves is told once for each ring on which it is observed.
const OBSERVED: [Step; 6] = [
    Step::Hears(Word::Leaves(Which::Shown, 0, 2), &[]),
    Step::Hears(Word::Leaves(Which::Shown, 0, 2), &[]),
    Step::Hears(Word::Leaves(Which::Shown, 2, 3), &[]),
    Step::Hears(Word::Tick, &[(To::Others, Said::Batch(2))]),
    Step::Hears(Word::Leaves(Which::Shown, 0, 2), &[]),
    Step::Hears(Word::Tick, &[]),
];

#[test]
fn an_observer_tells_that_a_member_leaves(rt: HostRuntime) -> Result<(), Fail> {
    lives(&rt, rt.alloc(), (3, 3, 1), &[1, 2, 3], &OBSERVED)
}

/// On a ring of another observer, on no ring, by a process that is no member, and in another
/// configuration.
const OF_OTHERS: [Step; 8] = [
    Step::Hears(Word::Leaves(Which::Shown, 2, 2), &[]),
    Step::Hears(Word::Tick, &[]),
    Step::Hears(Word::Leaves(Which::Shown, 3, 2), &[]),
    Step::Hears(Word::Tick, &[]),
    Step::Hears(Word::Leaves(Which::Shown, 0, 8), &[]),
    Step::Hears(Word::Tick, &[]),
    Step::Hears(Word::Leaves(Which::Zero, 0, 2), &[]),
    Step::Hears(Word::Tick, &[]),
];

#[test]
fn what_an_observer_does_not_observe_is_ignored(rt: HostRuntime) -> Result<(), Fail> {
    lives(&rt, rt.alloc(), (3, 3, 1), &[1, 2, 3], &OF_OTHERS)
}

/// A Leave for a configuration that this node has left is answered with the decision there.
const LATE_AT_A_MEMBER: [Step; 4] = [
    Step::Hears(Word::Decision(2), &[]),
    Step::Is(Phase::Member),
    Step::Hears(
        Word::Leaves(Which::First, 0, 2),
        &[(To::Node(2), Said::Decision(2))],
    ),
    Step::Hears(Word::Tick, &[]),
];

#[test]
fn who_leaves_late_is_told_by_a_member(rt: HostRuntime) -> Result<(), Fail> {
    lives(&rt, rt.alloc(), (3, 3, 1), &[1, 2, 3], &LATE_AT_A_MEMBER)
}

const LATE_AT_A_REMOVED_NODE: [Step; 3] = [
    Step::Hears(Word::Decision(1), &[]),
    Step::Is(Phase::Removed),
    Step::Hears(
        Word::Leaves(Which::First, 0, 2),
        &[(To::Node(2), Said::Decision(1))],
    ),
];

#[test]
fn who_leaves_late_is_told_by_a_removed_node(rt: HostRuntime) -> Result<(), Fail> {
    lives(
        &rt,
        rt.alloc(),
        (3, 3, 1),
        &[1, 2, 3],
        &LATE_AT_A_REMOVED_NODE,
    )
}
