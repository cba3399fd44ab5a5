// The acceptor as lists of what it promised and of its votes.
use crate::cuts::{Cuts, NUMBERS, Number, number_of};
use anyhow::{Context, Result, bail};
use rapid_paxos::{AcceptError, Acceptor, Ballot, Promise, PromiseError};
use std::alloc::Global;

/// How many calls a sequence has.
const LENGTH: usize = 4;

/// How many sequences there are. Each call is a fast vote, a promise or an accept, for one of two
/// cuts, at one of two ballots.
const SEQUENCES: usize = 20_736;

/// A vote at a ballot.
type Vote = (Ballot, Number);

/// Every ballot promised or voted at, and every vote in turn.
#[derive(Drop)]
struct BallotList {
    ballots: Vec<Ballot>,
    votes: Vec<Vote>,
}

impl BallotList {
    /// The highest ballot promised or voted at, or the fast one.
    fn rnd(&self) -> Ballot {
        let mut highest = Ballot::FAST;
        for ballot in &self.ballots {
            highest = highest.max(*ballot);
        }
        highest
    }

    fn promise(&mut self, ballot: Ballot) -> Result<Result<Option<Vote>, PromiseError>> {
        if ballot <= self.rnd() {
            return Ok(Err(PromiseError::Promised(self.rnd())));
        }
        self.ballots.push(ballot)?;
        Ok(Ok(self.votes.last().copied()))
    }

    fn accept(&mut self, ballot: Ballot, number: Number) -> Result<Result<(), AcceptError>> {
        if ballot < self.rnd() {
            return Ok(Err(AcceptError::Promised(self.rnd())));
        }
        if self.votes.iter().any(|vote| vote.0 == ballot) {
            return Ok(Err(AcceptError::AlreadyVoted));
        }
        self.ballots.push(ballot)?;
        self.votes.push((ballot, number))?;
        Ok(Ok(()))
    }
}

/// The vote that a promise reports.
fn vote_of(promise: &Promise) -> Option<Vote> {
    match &promise.vote {
        Some((ballot, cut)) => Some((*ballot, number_of(cut))),
        None => None,
    }
}

/// The acceptor promises a ballot; the vote that it reports.
fn promised(acceptor: &mut Acceptor, ballot: Ballot) -> Result<Option<Vote>, PromiseError> {
    let promise = acceptor.promise(ballot)?;
    Ok(vote_of(&promise))
}

/// Makes one call, and answers whether it cast a vote.
fn call(
    acceptor: &mut Acceptor,
    list: &mut BallotList,
    cuts: &Cuts,
    ballot: Ballot,
    number: Number,
    kind: usize,
) -> Result<bool> {
    if kind == 1 {
        let answer = promised(acceptor, ballot);
        let expected = list.promise(ballot)?;
        if answer != expected {
            bail!("the promise of {ballot:?} is {answer:?} and not {expected:?}");
        }
        return Ok(false);
    }
    let (answer, expected) = if kind == 0 {
        let expected = list.accept(Ballot::FAST, number)?;
        (acceptor.fast_vote(cuts.of(number)), expected)
    } else {
        let expected = list.accept(ballot, number)?;
        (acceptor.accept(ballot, cuts.of(number)), expected)
    };
    if answer != expected {
        bail!("a vote is answered {answer:?} and not {expected:?}");
    }
    Ok(answer.is_ok())
}

/// Tries one sequence at these two ballots, and answers how many votes were cast in it.
fn try_one(alloc: Global, cuts: &Cuts, ballots: [Ballot; 2], sequence: usize) -> Result<usize> {
    let mut acceptor = Acceptor::new(alloc);
    let mut list = BallotList {
        ballots: Vec::new(alloc),
        votes: Vec::new(alloc),
    };
    let mut rest = sequence;
    let mut votes: usize = 0;
    for _ in 0..LENGTH {
        let number = NUMBERS[rest % 2];
        let ballot = ballots[rest / 2 % 2];
        let voted = call(&mut acceptor, &mut list, cuts, ballot, number, rest / 4 % 3)?;
        if acceptor.rnd() != list.rnd() {
            bail!(
                "acceptor, sequence {sequence}: {:?} and not {:?}",
                acceptor.rnd(),
                list.rnd()
            );
        }
        votes = votes.saturating_add(usize::from(voted));
        rest /= 12;
    }
    Ok(votes)
}

/// Tries every sequence, and answers how many votes were cast.
pub fn compare(alloc: Global, cuts: &Cuts) -> Result<usize> {
    let low = Ballot::classic(2, 1).context("a classic ballot")?;
    let high = Ballot::classic(3, 0).context("a classic ballot")?;
    let mut votes: usize = 0;
    for sequence in 0..SEQUENCES {
        votes = votes.saturating_add(try_one(alloc, cuts, [low, high], sequence)?);
    }
    Ok(votes)
}
