// A crashed process is cut out by the fast round.

use crate::node::network::Action;
use crate::node::plays::{Line, plays};
use crate::node::said::{Said, To};
use std::test::Fail;

// The process 2 observes the process 5, which was computed by Python's hashlib from the rule that
// none is between.

/// Of five founders one crashes, and four vote to cut it out.
const FOUR_VOTE: [Line; 4] = [
    Line::Does(&[
        Action::Crash(5),
        Action::Lose(5),
        Action::Tick(2, 1),
        Action::Flow,
    ]),
    Line::SentAfter(
        0,
        &[
            (2, To::Others, Said::Batch(1)),
            (2, To::Others, Said::Vote(5)),
            (1, To::Others, Said::Vote(5)),
            (3, To::Others, Said::Vote(5)),
            (4, To::Others, Said::Vote(5)),
        ],
    ),
    Line::Installs(&[(4, 1), (1, 1), (2, 1), (3, 1)]),
    Line::Views(&[1, 2, 3, 4], 1, &[1, 2, 3, 4]),
];

#[test]
fn four_votes_of_five_cut_a_process_out(rt: HostRuntime) -> Result<(), Fail> {
    plays(&rt, rt.alloc(), (1, 1, 1), &[1, 2, 3, 4, 5], &FOUR_VOTE)
}

/// Two crash, and three vote to cut one of them out.
const THREE_VOTE: [Line; 4] = [
    Line::Does(&[
        Action::Crash(5),
        Action::Crash(4),
        Action::Lose(5),
        Action::Tick(2, 1),
        Action::Flow,
    ]),
    Line::SentAfter(
        0,
        &[
            (2, To::Others, Said::Batch(1)),
            (2, To::Others, Said::Vote(5)),
            (1, To::Others, Said::Vote(5)),
            (3, To::Others, Said::Vote(5)),
        ],
    ),
    Line::Installs(&[]),
    Line::Views(&[1, 2, 3], 0, &[1, 2, 3, 4, 5]),
];

#[test]
fn three_votes_of_five_change_nothing(rt: HostRuntime) -> Result<(), Fail> {
    plays(&rt, rt.alloc(), (1, 1, 1), &[1, 2, 3, 4, 5], &THREE_VOTE)
}
