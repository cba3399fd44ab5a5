// A process that differs from a member in tags alone is no member: its words are not a member's.

use crate::node::said::{Said, To};
use crate::node::steps::{Step, Which, Word, lives};
use rapid_node::Phase;
use std::test::Fail;

/// The vote of a member that is alone decides, here that it goes.
const VOTES: [Step; 4] = [
    Step::Hears(Word::VoteTagged(1), &[]),
    Step::Is(Phase::Member),
    Step::Hears(Word::Vote(1), &[]),
    Step::Is(Phase::Removed),
];

#[test]
fn a_vote_with_other_tags_is_no_members(rt: HostRuntime) -> Result<(), Fail> {
    lives(&rt, rt.alloc(), (3, 3, 1), &[1], &VOTES)
}

/// Of two members each observes the other on each ring.
const LEAVES: [Step; 4] = [
    Step::Hears(Word::LeavesTagged(Which::Shown, 0, 2), &[]),
    Step::Hears(Word::Tick, &[]),
    Step::Hears(Word::Leaves(Which::Shown, 0, 2), &[]),
    Step::Hears(Word::Tick, &[(To::Others, Said::Batch(1))]),
];

#[test]
fn a_wish_to_leave_with_other_tags_is_no_members(rt: HostRuntime) -> Result<(), Fail> {
    lives(&rt, rt.alloc(), (3, 3, 1), &[1, 2], &LEAVES)
}
