// Events of which a node knows that it would send nothing.

use crate::node::said::{Said, To};
use crate::node::steps::{Step, Which, Word, lives};
use rapid_node::Phase;
use std::test::Fail;

// Of the founders 1 to 3 the first observes the second on ring 0. All three have to vote for one
// cut until it is decided.

/// The first of three founders, to which nothing came yet.
const CALM: [Step; 6] = [
    Step::IsQuiet(Word::Tick, true),
    Step::IsQuiet(Word::Down(Which::Shown, 0, 2), true),
    Step::IsQuiet(Word::Vote(3), true),
    Step::IsQuiet(Word::Decision(2), false),
    Step::IsQuiet(Word::Probe(Which::Shown), false),
    Step::IsQuiet(Word::Leave, false),
];

#[test]
fn a_calm_member_knows_that_it_sends_nothing(rt: HostRuntime) -> Result<(), Fail> {
    lives(&rt, rt.alloc(), (3, 3, 1), &[1, 2, 3], &CALM)
}

/// The same with an alert that waits for the tick, and after the tick has sent it.
const WAITS: [Step; 5] = [
    Step::Hears(Word::Down(Which::Shown, 0, 2), &[]),
    Step::IsQuiet(Word::Tick, false),
    Step::IsQuiet(Word::Vote(3), true),
    Step::Hears(Word::Tick, &[(To::Others, Said::Batch(1))]),
    Step::IsQuiet(Word::Down(Which::Shown, 0, 2), true),
];

#[test]
fn a_member_whose_alert_waits_may_send(rt: HostRuntime) -> Result<(), Fail> {
    lives(&rt, rt.alloc(), (3, 3, 1), &[1, 2, 3], &WAITS)
}

/// The same once it was removed.
const REMOVED: [Step; 5] = [
    Step::Hears(Word::Decision(1), &[]),
    Step::Is(Phase::Removed),
    Step::IsQuiet(Word::Tick, true),
    Step::IsQuiet(Word::Down(Which::First, 0, 2), true),
    Step::IsQuiet(Word::Vote(3), false),
];

#[test]
fn a_removed_node_knows_that_its_tick_sends_nothing(rt: HostRuntime) -> Result<(), Fail> {
    lives(&rt, rt.alloc(), (3, 3, 1), &[1, 2, 3], &REMOVED)
}
