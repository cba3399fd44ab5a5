// Classic recovery: the fast round has too few votes.

use crate::node::network::Action;
use crate::node::plays::{Line, plays};
use crate::node::said::{Said, To};
use std::test::Fail;

// The process 1 observes the process 3 on ring 2, and the process 2 on rings 0 and 1, which was
// computed by Python's hashlib.

/// Of three founders one crashes, and the two others vote to cut it out.
const TWO_VOTE: [Action; 5] = [
    Action::Crash(3),
    Action::Lose(3),
    Action::Tick(1, 1),
    Action::Tick(2, 1),
    Action::Flow,
];

/// What the two send.
const TWO_VOTES: [(u16, To, Said); 4] = [
    (1, To::Others, Said::Batch(1)),
    (2, To::Others, Said::Batch(2)),
    (2, To::Others, Said::Vote(3)),
    (1, To::Others, Said::Vote(3)),
];

/// What the two send in the twenty ticks of the first after that.
const RECOVERY: [(u16, To, Said); 7] = [
    (1, To::Others, Said::Vote(3)),
    (1, To::Others, Said::Batch(1)),
    (1, To::Others, Said::Prepare((2, 0))),
    (2, To::Node(1), Said::Promise((2, 0), Some(3))),
    (1, To::Others, Said::Accept((2, 0), 3)),
    (1, To::Others, Said::Accepted((2, 0), 3)),
    (2, To::Others, Said::Accepted((2, 0), 3)),
];

/// Two votes of three change nothing.
const UNCHANGED: [Line; 4] = [
    Line::Does(&TWO_VOTE),
    Line::SentAfter(0, &TWO_VOTES),
    Line::Installs(&[]),
    Line::Views(&[1, 2], 0, &[1, 2, 3]),
];

#[test]
fn two_votes_of_three_change_nothing(rt: HostRuntime) -> Result<(), Fail> {
    plays(&rt, rt.alloc(), (3, 3, 1), &[1, 2, 3], &UNCHANGED)
}

/// Twenty ticks after its first vote the first member begins a ballot, and not before. After
/// nineteen ticks six messages were sent; the two last of them are the first of what it sends.
const AT_21: [Line; 5] = [
    Line::Does(&TWO_VOTE),
    Line::Does(&[Action::Tick(1, 19), Action::Flow]),
    Line::SentCount(6),
    Line::Does(&[Action::Tick(1, 1), Action::Flow]),
    Line::SentAfter(4, &RECOVERY),
];

#[test]
fn recovery_begins_at_the_tick_21(rt: HostRuntime) -> Result<(), Fail> {
    plays(&rt, rt.alloc(), (3, 3, 1), &[1, 2, 3], &AT_21)
}

/// The two who recover cut the third out.
const DECIDES: [Line; 4] = [
    Line::Does(&TWO_VOTE),
    Line::Does(&[Action::Tick(1, 20), Action::Flow]),
    Line::Installs(&[(2, 1), (1, 1)]),
    Line::Views(&[1, 2], 1, &[1, 2]),
];

#[test]
fn recovery_decides(rt: HostRuntime) -> Result<(), Fail> {
    plays(&rt, rt.alloc(), (3, 3, 1), &[1, 2, 3], &DECIDES)
}

/// The fast vote and all alerts again.
const AGAIN: [(u16, To, Said); 2] = [
    (1, To::Others, Said::Vote(2)),
    (1, To::Others, Said::Batch(3)),
];

/// What a member sends in sixty ticks who cuts out the only other one and hears nothing.
const ALONE: [Line; 12] = [
    Line::Does(&[Action::Crash(2), Action::Lose(2)]),
    Line::Sends(
        &[Action::Tick(1, 1)],
        &[
            (1, To::Others, Said::Batch(3)),
            (1, To::Others, Said::Vote(2)),
        ],
    ),
    Line::Sends(&[Action::Tick(1, 18)], &[]),
    Line::Sends(&[Action::Tick(1, 1)], &AGAIN),
    Line::Sends(
        &[Action::Tick(1, 1)],
        &[(1, To::Others, Said::Prepare((2, 0)))],
    ),
    Line::Sends(&[Action::Tick(1, 18)], &[]),
    Line::Sends(&[Action::Tick(1, 1)], &AGAIN),
    Line::Sends(
        &[Action::Tick(1, 1)],
        &[(1, To::Others, Said::Prepare((3, 0)))],
    ),
    Line::Sends(&[Action::Tick(1, 18)], &[]),
    Line::Sends(&[Action::Tick(1, 1)], &AGAIN),
    Line::Packets(10),
    Line::Views(&[1], 0, &[1, 2]),
];

#[test]
fn a_member_alone_asks_again(rt: HostRuntime) -> Result<(), Fail> {
    plays(&rt, rt.alloc(), (3, 3, 1), &[1, 2], &ALONE)
}
