// The fast round and classic recovery. Each call says by its error that memory ran out and changes
// nothing, or answers as it does with memory.

ghost use Rattle.std.specs.Prelude.{◌≡◌, ◌<◌};

use crate::numbered::{are_numbered, process};
use rapid_config::{ConfigError, Cut};
use rapid_fast::{FastRound, HearError};
use rapid_paxos::{
    Accept, AcceptError, Acceptor, Ballot, Coordinator, Learner, Promise, PromiseError,
};
use std::alloc::{AllocError, Global};
use std::test::Fail;

/// The cut of the process with this number.
fn cut(alloc: Global, number: u8) -> Result<Cut, ConfigError> {
    Cut::new(Vec::from_array(alloc, [process(u16::from(number))])?)
}

/// Whether it is the cut of the process with this number, or none, as expected.
fn is_cut(found: Option<&Cut>, number: Option<u8>) -> bool {
    match (found, number) {
        (Some(found), Some(number)) => are_numbered(found.processes(), &[u16::from(number)]),
        (None, None) => true,
        (Some(_), None) | (None, Some(_)) => false,
    }
}

/// A vote, given again if out of memory.
fn heard(round: &mut FastRound, position: usize, cut: &Cut) -> Result<Option<Cut>, HearError> {
    match round.hear(position, cut) {
        Err(HearError::OutOfMemory) => round.hear(position, cut),
        answer => answer,
    }
}

/// The position at which a cut is decided, if four vote for it and one for another.
fn decided_at(round: &mut FastRound, x: &Cut, y: &Cut) -> Result<Option<usize>, HearError> {
    for (position, cut) in [(0, x), (1, y), (2, x), (3, x), (4, x)] {
        if heard(round, position, cut)?.is_some() {
            return Ok(Some(position));
        }
    }
    Ok(None)
}

/// After a refused growth the round is as it was, so that votes given again make the same decision.
#[test]
fn out_of_memory_leaves_the_round_as_it_was(rt: HostRuntime) -> Result<(), Fail> {
    let x = cut(rt.alloc(), 6)?;
    let y = cut(rt.alloc(), 7)?;
    let mut round = FastRound::new(rt.alloc(), 5, 0);
    assert!(rt; decided_at(&mut round, &x, &y)? == Some(4));
    Ok(())
}

/// The own vote, and at a copy the other's, decide.
fn copy_decides(round: &mut FastRound, x: &Cut) -> Result<bool, Fail> {
    let own = round.vote(x)?;
    let mut copy = round.try_copy()?;
    let decided = copy.hear(1, x)?;
    Ok(own.is_none() && is_cut(decided.as_ref(), Some(6)))
}

#[test]
fn out_of_memory_in_a_copied_round(rt: HostRuntime) -> Result<(), Fail> {
    let x = cut(rt.alloc(), 6)?;
    let mut round = FastRound::new(rt.alloc(), 2, 0);
    assert!(rt; copy_decides(&mut round, &x)?);
    Ok(())
}

/// The promise of a ballot with a fast vote, or with none.
fn promise(alloc: Global, ballot: Ballot, vote: Option<u8>) -> Result<Promise, Fail> {
    let vote = match vote {
        Some(number) => Some((Ballot::FAST, cut(alloc, number)?)),
        None => None,
    };
    Ok(Promise { ballot, vote })
}

/// Whether it is a request for the cut of the process with this number, or none, as expected.
fn is_accept(found: &Option<Accept>, number: Option<u8>) -> bool {
    match found {
        Some(accept) => is_cut(Some(&accept.cut), number),
        None => number.is_none(),
    }
}

/// Whether a coordinator asks for the cut of this process, or for none, at a promise.
fn asks(
    coordinator: &mut Coordinator,
    position: usize,
    promise: &Promise,
    own: Option<&Cut>,
    wanted: Option<u8>,
) -> Result<bool, AllocError>
    requires { position < coordinator.old.size }
    ensures { coordinator.new.size ≡ coordinator.old.size }
{
    let accept = coordinator.hear_promise(position, promise, own)?;
    Ok(is_accept(&accept, wanted))
}

/// The same, heard again if out of memory.
fn asks_again(
    coordinator: &mut Coordinator,
    position: usize,
    promise: &Promise,
    wanted: Option<u8>,
) -> Result<bool, AllocError>
    requires { position < coordinator.old.size }
    ensures { coordinator.new.size ≡ coordinator.old.size }
{
    match asks(coordinator, position, promise, None, wanted) {
        Ok(is_right) => Ok(is_right),
        Err(AllocError) => asks(coordinator, position, promise, None, wanted),
    }
}

const X: Option<u8> = Some(6);

const Y: Option<u8> = Some(7);

/// After a refused growth the coordinator is as it was, so that promises heard again make the same
/// request.
#[test]
fn out_of_memory_leaves_the_coordinator_as_it_was(rt: HostRuntime) -> Result<(), Fail> {
    let mut coordinator = Coordinator::new(rt.alloc(), 5, 0);
    let ballot = coordinator.begin(Ballot::FAST)?;
    let six = promise(rt.alloc(), ballot, X)?;
    let seven = promise(rt.alloc(), ballot, Y)?;
    assert!(rt; asks_again(&mut coordinator, 0, &seven, None)?);
    assert!(rt; asks_again(&mut coordinator, 1, &six, None)?);
    assert!(rt; asks_again(&mut coordinator, 2, &seven, Y)?);
    Ok(())
}

/// Whether a learner learns the cut of this process, or none, at a notice.
fn learns(
    learner: &mut Learner,
    position: usize,
    ballot: Ballot,
    cut: &Cut,
    wanted: Option<u8>,
) -> Result<bool, AllocError>
    requires { position < learner.old.size }
    ensures { learner.new.size ≡ learner.old.size }
{
    let learnt = learner.hear(position, ballot, cut)?;
    Ok(is_cut(learnt.as_ref(), wanted))
}

/// Whether a learner learns as it has to; a notice is heard again if out of memory.
fn learns_again(
    learner: &mut Learner,
    position: usize,
    cut: &Cut,
    wanted: Option<u8>,
) -> Result<bool, AllocError>
    requires { position < learner.old.size }
    ensures { learner.new.size ≡ learner.old.size }
{
    match learns(learner, position, Ballot::FAST, cut, wanted) {
        Ok(is_right) => Ok(is_right),
        Err(AllocError) => learns(learner, position, Ballot::FAST, cut, wanted),
    }
}

/// After a refused growth the learner is as it was, so that notices heard again teach the same cut.
#[test]
fn out_of_memory_leaves_the_learner_as_it_was(rt: HostRuntime) -> Result<(), Fail> {
    let x = cut(rt.alloc(), 6)?;
    let mut learner = Learner::new(rt.alloc(), 3);
    assert!(rt; learns_again(&mut learner, 0, &x, None)?);
    assert!(rt; learns_again(&mut learner, 1, &x, X)?);
    Ok(())
}

/// The classic ballot of a round from 2 to 250 and a position, and the fast ballot for others.
fn classic(round: u8, position: usize) -> Ballot {
    match Ballot::classic(round, position) {
        Some(ballot) => ballot,
        None => Ballot::FAST,
    }
}

/// Whether an acceptor votes in the fast round, asked again if out of memory.
fn votes_again(acceptor: &mut Acceptor, cut: &Cut) -> bool {
    match acceptor.fast_vote(cut) {
        Err(AcceptError::OutOfMemory) => {
            acceptor.rnd() == Ballot::FAST && acceptor.fast_vote(cut).is_ok()
        }
        answer => answer.is_ok(),
    }
}

/// The promise of a ballot, asked for again if out of memory.
fn promised_again(acceptor: &mut Acceptor, ballot: Ballot) -> Result<Promise, PromiseError> {
    match acceptor.promise(ballot) {
        Err(PromiseError::OutOfMemory) => acceptor.promise(ballot),
        answer => answer,
    }
}

/// After a refused growth the acceptor is as it was, so that it makes its promise and its vote when
/// it is asked again.
#[test]
fn out_of_memory_leaves_the_acceptor_as_it_was(rt: HostRuntime) -> Result<(), Fail> {
    let x = cut(rt.alloc(), 6)?;
    let mut acceptor = Acceptor::new(rt.alloc());
    assert!(rt; votes_again(&mut acceptor, &x));
    let promise = promised_again(&mut acceptor, classic(2, 0))?;
    assert!(rt; promise.vote == Some((Ballot::FAST, x)));
    Ok(())
}

/// Whether a copy of a learner learns the cut of this process, or none, at a notice.
fn copy_learns(
    learner: &Learner,
    position: usize,
    ballot: Ballot,
    cut: &Cut,
    wanted: Option<u8>,
) -> Result<bool, AllocError>
    requires { position < learner.now.size }
{
    let mut copy = learner.try_copy()?;
    learns(&mut copy, position, ballot, cut, wanted)
}

#[test]
fn out_of_memory_in_copies(rt: HostRuntime) -> Result<(), Fail> {
    let x = cut(rt.alloc(), 6)?;
    let low = classic(2, 0);
    let mut learner = Learner::new(rt.alloc(), 3);
    assert!(rt; learns(&mut learner, 0, low, &x, None)?);
    assert!(rt; copy_learns(&learner, 1, low, &x, X)?);
    Ok(())
}
