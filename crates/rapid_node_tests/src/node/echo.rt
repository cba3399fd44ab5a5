// An unstable process is echoed by all that observe it.

use crate::node::network::Action;
use crate::node::plays::{Line, plays};
use crate::node::said::{Said, To};
use std::test::Fail;

/// The edge goes down on ring 0 alone.
const DOWN: Action = Action::Down {
    node: 1,
    ring: 0,
    subject: 2,
};

/// The first of two members ticks 41 times, after one of three edges to the other went down. The
/// process is unstable at the ticks 2 to 41, so nothing but the first alert goes out until the last
/// of these.
const ECHOED: [Line; 14] = [
    Line::Does(&[DOWN]),
    Line::Does(&[Action::Tick(1, 1)]),
    Line::Packets(1),
    Line::Does(&[Action::Tick(1, 18)]),
    Line::Packets(1),
    Line::Does(&[Action::Tick(1, 1)]),
    Line::Packets(2),
    Line::Does(&[Action::Tick(1, 19)]),
    Line::Packets(2),
    Line::Does(&[Action::Tick(1, 1)]),
    Line::Packets(3),
    Line::Does(&[Action::Tick(1, 1)]),
    Line::Packets(5),
    Line::SentAfter(
        0,
        &[
            (1, To::Others, Said::Batch(1)),
            (1, To::Others, Said::Batch(1)),
            (1, To::Others, Said::Batch(1)),
            (1, To::Others, Said::Batch(2)),
            (1, To::Others, Said::Vote(2)),
        ],
    ),
];

#[test]
fn an_unstable_process_is_echoed_at_the_tick_41(rt: HostRuntime) -> Result<(), Fail> {
    plays(&rt, rt.alloc(), (3, 3, 1), &[1, 2], &ECHOED)
}

/// The two hear what is sent in these ticks.
const CUT_OUT: [Line; 4] = [
    Line::Does(&[DOWN, Action::Tick(1, 41), Action::Flow]),
    Line::Installs(&[(2, 1), (1, 1)]),
    Line::Views(&[1], 1, &[1]),
    Line::Removed(2, 1, &[1]),
];

#[test]
fn an_echo_cuts_out(rt: HostRuntime) -> Result<(), Fail> {
    plays(&rt, rt.alloc(), (3, 3, 1), &[1, 2], &CUT_OUT)
}
