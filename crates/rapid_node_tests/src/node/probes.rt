// What a node answers to probes, also after it left the configuration that they are about.

use crate::node::said::{Said, To};
use crate::node::steps::{Step, Which, Word, lives};
use rapid_node::Phase;
use std::test::Fail;

/// The answer names the node's own configuration, whatever the probe is about.
const ACKNOWLEDGED: [Step; 2] = [
    Step::Acknowledges(
        Word::Probe(Which::Shown),
        &[(To::Node(3), Said::ProbeAck)],
        Which::Shown,
        None,
    ),
    Step::Acknowledges(
        Word::Probe(Which::Zero),
        &[(To::Node(3), Said::ProbeAck)],
        Which::Shown,
        None,
    ),
];

#[test]
fn a_probe_is_acknowledged(rt: HostRuntime) -> Result<(), Fail> {
    lives(&rt, rt.alloc(), (3, 3, 1), &[1, 2], &ACKNOWLEDGED)
}

/// A node that is still a member acknowledges a probe about the configuration that it left, and
/// then sends the decision there.
const LATE_AT_A_MEMBER: [Step; 3] = [
    Step::Hears(Word::Decision(2), &[]),
    Step::Is(Phase::Member),
    Step::Acknowledges(
        Word::Probe(Which::First),
        &[
            (To::Node(3), Said::ProbeAck),
            (To::Node(3), Said::Decision(2)),
        ],
        Which::Shown,
        Some(Which::First),
    ),
];

#[test]
fn a_late_probe_at_a_member(rt: HostRuntime) -> Result<(), Fail> {
    lives(&rt, rt.alloc(), (3, 3, 1), &[1, 2], &LATE_AT_A_MEMBER)
}

/// A removed node sends the decision alone.
const LATE_AT_A_REMOVED_NODE: [Step; 4] = [
    Step::Hears(Word::Decision(1), &[]),
    Step::Is(Phase::Removed),
    Step::Hears(
        Word::Probe(Which::First),
        &[(To::Node(3), Said::Decision(1))],
    ),
    Step::Hears(Word::Tick, &[]),
];

#[test]
fn a_late_probe_at_a_removed_node(rt: HostRuntime) -> Result<(), Fail> {
    lives(&rt, rt.alloc(), (3, 3, 1), &[1, 2], &LATE_AT_A_REMOVED_NODE)
}

/// An acknowledgement for the configuration that was left is answered with the decision, and one
/// for the current one has no effect.
const LATE_ACKNOWLEDGEMENT: [Step; 3] = [
    Step::Hears(Word::Decision(2), &[]),
    Step::Hears(
        Word::ProbeAck(Which::First),
        &[(To::Node(3), Said::Decision(2))],
    ),
    Step::Hears(Word::ProbeAck(Which::Shown), &[]),
];

#[test]
fn a_late_acknowledgement(rt: HostRuntime) -> Result<(), Fail> {
    lives(&rt, rt.alloc(), (3, 3, 1), &[1, 2], &LATE_ACKNOWLEDGEMENT)
}
