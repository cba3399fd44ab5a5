// Worked cases of the fast round.

use crate::vote::cuts::{cut, is_cut};
use rapid_fast::{FastRound, HearError, PositionSet, fast_size};
use std::alloc::Global;
use std::test::Fail;

#[test]
fn sizes(rt: HostRuntime) {
    for (n, size) in [(1, 1), (2, 2), (3, 3), (4, 4), (5, 4), (8, 7), (9, 7)] {
        assert!(rt; n <= 1024 && fast_size(n) == size, "of {n}");
    }
}

/// A vote: a position and the number of a process, and whether it decides the cut of that process.
type Vote = (usize, u8, bool);

/// Whether a vote decides as it has to.
fn decides(alloc: Global, round: &mut FastRound, vote: &Vote) -> Result<bool, Fail> {
    let cut = cut(alloc, vote.1)?;
    let decided = round.hear(vote.0, &cut)?;
    let wanted = if vote.2 { Some(vote.1) } else { None };
    Ok(is_cut(decided.as_ref(), wanted))
}

/// Sees that all votes decide as they have to, in order.
fn all_decide(alloc: Global, round: &mut FastRound, votes: &[Vote]) -> Result<(), Fail> {
    for vote in votes {
        if !decides(alloc, round, vote)? {
            return Err(Fail::new(format_args!("decided otherwise: {vote:?}")));
        }
    }
    Ok(())
}

/// A second vote of a member is ignored, three of five are no fast quorum, and the cut is decided
/// once.
const OF_FIVE: [Vote; 8] = [
    (0, 6, false),
    (4, 7, false),
    (2, 6, false),
    (2, 6, false),
    (4, 6, false),
    (1, 6, false),
    (3, 6, true),
    (3, 6, false),
];

#[test]
fn decides_at_the_fourth_of_five(rt: HostRuntime) -> Result<(), Fail> {
    let mut round = FastRound::new(rt.alloc(), 5, 2);
    all_decide(rt.alloc(), &mut round, &OF_FIVE)
}

/// Whether a vote decides at a copy of a round as it has to.
fn decides_at_copy(alloc: Global, round: &FastRound, vote: &Vote) -> Result<bool, Fail> {
    let mut copy = round.try_copy()?;
    decides(alloc, &mut copy, vote)
}

#[test]
fn a_copy_goes_on_by_itself(rt: HostRuntime) -> Result<(), Fail> {
    let mut round = FastRound::new(rt.alloc(), 2, 0);
    assert!(rt; decides(rt.alloc(), &mut round, &(1, 6, false))?);
    assert!(rt; decides_at_copy(rt.alloc(), &round, &(0, 7, false))?);
    assert!(rt; decides(rt.alloc(), &mut round, &(0, 6, true))?);
    Ok(())
}

#[test]
fn a_stranger_is_refused(rt: HostRuntime) -> Result<(), Fail> {
    let x = cut(rt.alloc(), 6)?;
    let refused = FastRound::new(rt.alloc(), 5, 2).hear(5, &x).err();
    assert!(rt; refused == Some(HearError::NotMember));
    assert!(rt; HearError::NotMember.code() == 1 && HearError::OutOfMemory.code() == 99);
    Ok(())
}

#[test]
fn one_member_decides_alone(rt: HostRuntime) -> Result<(), Fail> {
    let x = cut(rt.alloc(), 6)?;
    let decided = FastRound::new(rt.alloc(), 1, 0).vote(&x)?;
    assert!(rt; is_cut(decided.as_ref(), Some(6)));
    Ok(())
}

#[test]
fn positions(rt: HostRuntime) -> Result<(), Fail> {
    let mut positions = PositionSet::new();
    positions.insert(64);
    positions.insert(1023);
    positions.insert(64);
    let copy = positions.try_copy()?;
    assert!(rt; copy.len() == 2 && copy.contains(1023) && !copy.contains(65));
    Ok(())
}
