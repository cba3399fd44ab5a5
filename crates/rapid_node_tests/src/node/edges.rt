// Edges that went down and that a node does not observe in its configuration.

use crate::node::said::{Said, To};
use crate::node::steps::{Step, Which, Word, lives};
use std::test::Fail;

// Of the founders 1 to 3 the first observes the second on the rings 0 and 1. It observes the third
// on ring 2, and the joiner 8 on ring 0. This was computed by Python's hashlib, from the rule that
// none is between. An edge that is ignored is not reported at the next tick.

/// An edge of another observer, on no ring, and to a process that is no member.
const OF_OTHERS: [Step; 6] = [
    Step::Hears(Word::Down(Which::Shown, 2, 2), &[]),
    Step::Hears(Word::Tick, &[]),
    Step::Hears(Word::Down(Which::Shown, 3, 2), &[]),
    Step::Hears(Word::Tick, &[]),
    Step::Hears(Word::Down(Which::Shown, 0, 8), &[]),
    Step::Hears(Word::Tick, &[]),
];

#[test]
fn edges_of_others_are_ignored(rt: HostRuntime) -> Result<(), Fail> {
    lives(&rt, rt.alloc(), (3, 3, 1), &[1, 2, 3], &OF_OTHERS)
}

/// An edge of another configuration.
const ELSEWHERE: [Step; 2] = [
    Step::Hears(Word::Down(Which::Zero, 0, 2), &[]),
    Step::Hears(Word::Tick, &[]),
];

#[test]
fn edges_of_another_configuration_are_ignored(rt: HostRuntime) -> Result<(), Fail> {
    lives(&rt, rt.alloc(), (3, 3, 1), &[1, 2, 3], &ELSEWHERE)
}

/// An edge that is down is reported once, even if the node hears of it twice.
const TWICE: [Step; 5] = [
    Step::Hears(Word::Down(Which::Shown, 0, 2), &[]),
    Step::Hears(Word::Down(Which::Shown, 0, 2), &[]),
    Step::Hears(Word::Tick, &[(To::Others, Said::Batch(1))]),
    Step::Hears(Word::Down(Which::Shown, 0, 2), &[]),
    Step::Hears(Word::Tick, &[]),
];

#[test]
fn an_own_edge_is_told_once(rt: HostRuntime) -> Result<(), Fail> {
    lives(&rt, rt.alloc(), (3, 3, 1), &[1, 2, 3], &TWICE)
}
