// Worked cases of classic recovery.

ghost use Rattle.std.specs.Prelude.{◌≡◌, ◌<◌};

use crate::vote::cuts::{cut, is_cut};
use rapid_config::Cut;
use rapid_paxos::{
    Accept, AcceptError, Acceptor, Ballot, Coordinator, Learner, Promise, PromiseError, RoundsUsed,
    classic_size,
};
use std::alloc::{AllocError, Global};
use std::test::Fail;

#[test]
fn sizes(rt: HostRuntime) {
    for (n, size) in [(1, 1), (2, 2), (3, 2), (4, 3), (5, 3), (8, 5), (9, 5)] {
        assert!(rt; n <= 1024 && classic_size(n) == size, "of {n}");
    }
}

/// A cut, or none.
fn cut_of(alloc: Global, number: Option<u8>) -> Result<Option<Cut>, Fail> {
    match number {
        Some(number) => Ok(Some(cut(alloc, number)?)),
        None => Ok(None),
    }
}

/// The promise of a ballot with a fast vote, or with none.
fn promise(alloc: Global, ballot: Ballot, vote: Option<u8>) -> Result<Promise, Fail> {
    let vote = match vote {
        Some(number) => Some((Ballot::FAST, cut(alloc, number)?)),
        None => None,
    };
    Ok(Promise { ballot, vote })
}

/// Whether it is a request for the cut of the process with this number, or none, as expected.
fn is_accept(found: &Option<Accept>, number: Option<u8>) -> bool {
    match found {
        Some(accept) => is_cut(Some(&accept.cut), number),
        None => number.is_none(),
    }
}

/// Whether a coordinator asks for the cut of this process, or for none, at a promise.
fn asks(
    coordinator: &mut Coordinator,
    position: usize,
    promise: &Promise,
    own: Option<&Cut>,
    wanted: Option<u8>,
) -> Result<bool, AllocError>
    requires { position < coordinator.old.size }
    ensures { coordinator.new.size ≡ coordinator.old.size }
{
    let accept = coordinator.hear_promise(position, promise, own)?;
    Ok(is_accept(&accept, wanted))
}

/// Promises of this many members, each with a fast vote or none, and the coordinator's own
/// proposal. Last comes the cut that it asks for at the last promise, if any.
type Case<'a> = (usize, &'a [Option<u8>], Option<u8>, Option<u8>);

/// Whether the coordinator asks for the cut at the last promise, and for nothing before.
fn asked(alloc: Global, (size, votes, own, wanted): &Case) -> Result<bool, Fail> {
    let size = *size;
    if size == 0 || size > 9 {
        return Ok(false);
    }
    let own = cut_of(alloc, *own)?;
    let mut coordinator = Coordinator::new(alloc, size, 0);
    let ballot = coordinator.begin(Ballot::FAST)?;
    for (position, vote) in votes.iter().enumerate() {
        let is_last = position.wrapping_add(1) == votes.len();
        let promise = promise(alloc, ballot, *vote)?;
        let wanted = if is_last { *wanted } else { None };
        if position >= size || !asks(&mut coordinator, position, &promise, own.as_ref(), wanted)? {
            return Ok(false);
        }
    }
    Ok(true)
}

const X: Option<u8> = Some(6);

const Y: Option<u8> = Some(7);

/// Fast votes for x = {P(6)} and y = {P(7)}, and which of them the coordinator asks for.
const VALUES: [Case; 8] = [
    // four of five are forced among eight
    (8, &[X, X, X, X, Y], None, X),
    // none is forced: the least by its bytes
    (8, &[Y, Y, Y, X, X], None, X),
    // three of five are forced among nine
    (9, &[Y, Y, Y, X, X], None, Y),
    // two are not forced among nine
    (9, &[Y, Y, X, X, None], None, X),
    // the only cut reported
    (8, &[Y, None, None, None, Y], X, Y),
    (5, &[X, None, None], None, X),
    // with no vote reported the own proposal, if there is one
    (5, &[None, None, None], Y, Y),
    (5, &[None, None, None], None, None),
];

#[test]
fn values(rt: HostRuntime) -> Result<(), Fail> {
    for case in &VALUES {
        assert!(rt; asked(rt.alloc(), case)?, "at {case:?}");
    }
    Ok(())
}

/// Whether there is a classic ballot of this round and this position.
fn is_classic(round: u8, position: usize) -> bool {
    match Ballot::classic(round, position) {
        Some(ballot) => ballot.round() == round && ballot.position() == position,
        None => false,
    }
}

/// The classic ballot of a round from 2 to 250 and a position, and the fast ballot for others.
fn classic(round: u8, position: usize) -> Ballot {
    match Ballot::classic(round, position) {
        Some(ballot) => ballot,
        None => Ballot::FAST,
    }
}

#[test]
fn ballots(rt: HostRuntime) {
    assert!(rt; is_classic(2, 1023) && is_classic(250, 0));
    assert!(rt; !is_classic(1, 0) && !is_classic(251, 0) && !is_classic(2, 1024));
    let (low, high) = (classic(2, 1023), classic(250, 0));
    assert!(rt; Ballot::FAST < low && low < high);
    assert!(rt; Ballot::FAST.round() == 1 && Ballot::FAST.position() == 0);
}

/// Whether a coordinator at position 1 begins the ballot of this round, or none if it is 0.
fn begins(coordinator: &mut Coordinator, above: Ballot, round: u8) -> bool {
    match coordinator.begin(above) {
        Ok(ballot) => ballot.round() == round && ballot.position() == 1,
        Err(RoundsUsed) => round == 0,
    }
}

#[test]
fn begins_and_uses_the_rounds(rt: HostRuntime) {
    let mut coordinator = Coordinator::new(rt.alloc(), 3, 1);
    assert!(rt; begins(&mut coordinator, Ballot::FAST, 2));
    assert!(rt; begins(&mut coordinator, Ballot::FAST, 3));
    assert!(rt; begins(&mut coordinator, classic(249, 2), 250));
    assert!(rt; begins(&mut coordinator, Ballot::FAST, 0) && RoundsUsed.code() == 3);
}

/// Whether a copy of a coordinator asks for nothing at a promise that was heard.
fn copy_is_still(
    coordinator: &Coordinator,
    position: usize,
    promise: &Promise,
) -> Result<bool, AllocError>
    requires { position < coordinator.now.size }
{
    let mut copy = coordinator.try_copy()?;
    asks(&mut copy, position, promise, None, None)
}

#[test]
fn an_accept_comes_at_the_quorum(rt: HostRuntime) -> Result<(), Fail> {
    let mut coordinator = Coordinator::new(rt.alloc(), 3, 2);
    let ballot = coordinator.begin(Ballot::FAST)?;
    let report = promise(rt.alloc(), ballot, X)?;
    assert!(rt; asks(&mut coordinator, 0, &report, None, None)?);
    assert!(rt; copy_is_still(&coordinator, 0, &report)?);
    assert!(rt; asks(&mut coordinator, 1, &report, None, X)?);
    Ok(())
}

/// Whether an acceptor votes in the fast round once.
fn votes_once(acceptor: &mut Acceptor, cut: &Cut) -> Result<bool, AcceptError> {
    acceptor.fast_vote(cut)?;
    Ok(acceptor.fast_vote(cut) == Err(AcceptError::AlreadyVoted))
}

#[test]
fn an_acceptor_votes_once(rt: HostRuntime) -> Result<(), Fail> {
    let x = cut(rt.alloc(), 6)?;
    assert!(rt; votes_once(&mut Acceptor::new(rt.alloc()), &x)?);
    assert!(rt; AcceptError::AlreadyVoted.code() == 2);
    Ok(())
}

/// Whether an acceptor promises a ballot and reports no vote.
fn promises(acceptor: &mut Acceptor, ballot: Ballot) -> Result<bool, PromiseError> {
    let promise = acceptor.promise(ballot)?;
    Ok(promise.ballot == ballot && promise.vote.is_none())
}

/// Whether a copy of an acceptor votes at the ballot that was promised.
fn copy_accepts(acceptor: &Acceptor, ballot: Ballot, cut: &Cut) -> Result<bool, Fail> {
    let mut copy = acceptor.try_copy()?;
    copy.accept(ballot, cut)?;
    Ok(copy.rnd() == ballot)
}

#[test]
fn an_acceptor_keeps_its_promise(rt: HostRuntime) -> Result<(), Fail> {
    let x = cut(rt.alloc(), 6)?;
    let ballot = classic(2, 0);
    let mut acceptor = Acceptor::new(rt.alloc());
    assert!(rt; promises(&mut acceptor, ballot)?);
    assert!(rt; copy_accepts(&acceptor, ballot, &x)?);
    assert!(rt; acceptor.fast_vote(&x) == Err(AcceptError::Promised(ballot)));
    Ok(())
}

/// Whether a learner learns the cut of this process, or none, at a notice.
fn learns(
    learner: &mut Learner,
    position: usize,
    ballot: Ballot,
    cut: &Cut,
    wanted: Option<u8>,
) -> Result<bool, AllocError>
    requires { position < learner.old.size }
    ensures { learner.new.size ≡ learner.old.size }
{
    let learnt = learner.hear(position, ballot, cut)?;
    Ok(is_cut(learnt.as_ref(), wanted))
}

/// Whether a copy of a learner learns the cut of this process, or none, at a notice.
fn copy_learns(
    learner: &Learner,
    position: usize,
    ballot: Ballot,
    cut: &Cut,
    wanted: Option<u8>,
) -> Result<bool, AllocError>
    requires { position < learner.now.size }
{
    let mut copy = learner.try_copy()?;
    learns(&mut copy, position, ballot, cut, wanted)
}

/// A notice counts once, and those of two ballots are not added up.
#[test]
fn a_learner_answers_at_a_classic_quorum(rt: HostRuntime) -> Result<(), Fail> {
    let x = cut(rt.alloc(), 6)?;
    let (low, high) = (classic(2, 0), classic(3, 1));
    let mut learner = Learner::new(rt.alloc(), 3);
    assert!(rt; learns(&mut learner, 0, low, &x, None)?);
    assert!(rt; copy_learns(&learner, 0, low, &x, None)?);
    assert!(rt; copy_learns(&learner, 1, high, &x, None)?);
    assert!(rt; learns(&mut learner, 1, low, &x, X)?);
    Ok(())
}
