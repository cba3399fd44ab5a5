// Two joiners get two fast votes of five each, and recovery lets one of them in.

use crate::node::network::Action;
use crate::node::plays::{Line, plays};
use crate::node::said::{Said, To};
use std::test::Fail;

/// Of five founders two vote for one joiner and two for another, and no vote is heard. The first
/// member begins a ballot at its tick 20. The packets from 21 on are its Prepare, to the members 2
/// to 5.
const BALLOT_BEGINS: [Action; 5] = [
    Action::Joining { joiner: 6, node: 1 },
    Action::Joining { joiner: 6, node: 2 },
    Action::Joining { joiner: 7, node: 3 },
    Action::Joining { joiner: 7, node: 4 },
    Action::Tick(1, 20),
];

/// Two members hear of the ballot and promise. The last member, which did not vote yet, accepts
/// with all others, and then hears of the second joiner. The packets from 31 on are notices of
/// votes.
const ALL_ACCEPT: [Action; 9] = [
    Action::Deliver(21),
    Action::Deliver(22),
    Action::Deliver(25),
    Action::Deliver(26),
    Action::Deliver(27),
    Action::Deliver(28),
    Action::Deliver(29),
    Action::Deliver(30),
    Action::Joining { joiner: 7, node: 5 },
];

/// All that was sent when all have accepted.
const SENT: [(u16, To, Said); 14] = [
    (1, To::Others, Said::Vote(6)),
    (2, To::Others, Said::Vote(6)),
    (3, To::Others, Said::Vote(7)),
    (4, To::Others, Said::Vote(7)),
    (1, To::Others, Said::Vote(6)),
    (1, To::Others, Said::Prepare((2, 0))),
    (2, To::Node(1), Said::Promise((2, 0), Some(6))),
    (3, To::Node(1), Said::Promise((2, 0), Some(7))),
    (1, To::Others, Said::Accept((2, 0), 6)),
    (1, To::Others, Said::Accepted((2, 0), 6)),
    (2, To::Others, Said::Accepted((2, 0), 6)),
    (3, To::Others, Said::Accepted((2, 0), 6)),
    (4, To::Others, Said::Accepted((2, 0), 6)),
    (5, To::Others, Said::Accepted((2, 0), 6)),
];

/// The founders.
const FIVE: [u16; 5] = [1, 2, 3, 4, 5];

/// The first member asks for the cut that two of the three members promised for. One that has
/// accepted sends no fast vote.
const ASKED: [Line; 4] = [
    Line::Does(&BALLOT_BEGINS),
    Line::Does(&ALL_ACCEPT),
    Line::SentAfter(0, &SENT),
    Line::Installs(&[]),
];

#[test]
fn recovery_asks_for_the_cut_that_may_be_chosen(rt: HostRuntime) -> Result<(), Fail> {
    plays(&rt, rt.alloc(), (1, 1, 1), &FIVE, &ASKED)
}

/// All notices of votes, the packets from 31 to 50, are heard.
const NOTICES: [Action; 1] = [Action::DeliverAll(31, 51)];

/// All let the first joiner in.
const LET_IN: [Line; 5] = [
    Line::Does(&BALLOT_BEGINS),
    Line::Does(&ALL_ACCEPT),
    Line::Does(&NOTICES),
    Line::Installs(&[(3, 1), (4, 1), (5, 1), (1, 1), (2, 1)]),
    Line::Views(&FIVE, 1, &[1, 2, 3, 4, 5, 6]),
];

#[test]
fn all_let_the_same_joiner_in_once(rt: HostRuntime) -> Result<(), Fail> {
    plays(&rt, rt.alloc(), (1, 1, 1), &FIVE, &LET_IN)
}

/// What comes for the configuration that was left is answered with the decision: ten notices that
/// came late, and then a vote.
const LATE: [Line; 9] = [
    Line::Does(&BALLOT_BEGINS),
    Line::Does(&ALL_ACCEPT),
    Line::Does(&NOTICES),
    Line::SentCount(24),
    Line::Packets(60),
    Line::Does(&[Action::Deliver(9)]),
    Line::SentCount(25),
    Line::Packets(61),
    Line::SentAfter(24, &[(1, To::Node(3), Said::Decision(6))]),
];

#[test]
fn who_is_late_is_told_the_decision(rt: HostRuntime) -> Result<(), Fail> {
    plays(&rt, rt.alloc(), (1, 1, 1), &FIVE, &LATE)
}
