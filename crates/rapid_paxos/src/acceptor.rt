// The acceptor of one member.
ghost use Rattle.std.specs.Prelude.{◌≡◌, IfOk, OnOk, OnErr, IfErr, IsTrue, Ok};
ghost use Rattle.rapid_model.specs.Acceptor as model;
ghost use Rattle.rapid_model.specs.Ballot.{fast_ballot};
ghost use Rattle.rapid_paxos.specs.Reported.{last_of};
ghost use Rattle.rapid_paxos.specs.Refusals.{IsAcceptRefusal, IsPromiseRefusal, accept_code, promise_code};

use crate::Ballot;
use rapid_config::Cut;
use std::alloc::{AllocError, Global};
use std::marker::Model;
use thiserror::Error;

/// Why an acceptor gives no promise.
#[derive(Clone, Copy, Debug, PartialEq, Eq, Error)]
pub enum PromiseError {
    /// It has promised or voted at this ballot, which is not lower.
    #[error("a ballot at or above this one was promised")]
    Promised(Ballot),
    /// Out of memory; nothing changed.
    #[error("out of memory")]
    OutOfMemory,
}

impl PromiseError {
    /// The number of the refusal.
    pub fn code(&self) -> u8
        ensures { result ≡ promise_code self.now }
    {
        match self {
            PromiseError::Promised(_) => 1,
            PromiseError::OutOfMemory => 99,
        }
    }
}

/// Why an acceptor does not vote.
#[derive(Clone, Copy, Debug, PartialEq, Eq, Error)]
pub enum AcceptError {
    /// It has promised or voted at this ballot, which is higher.
    #[error("a ballot above this one was promised")]
    Promised(Ballot),
    /// It has voted at this ballot.
    #[error("it has voted at this ballot")]
    AlreadyVoted,
    /// Out of memory; nothing changed.
    #[error("out of memory")]
    OutOfMemory,
}

impl AcceptError {
    /// The number of the refusal.
    pub fn code(&self) -> u8
        ensures { result ≡ accept_code self.now }
    {
        match self {
            AcceptError::Promised(_) => 1,
            AcceptError::AlreadyVoted => 2,
            AcceptError::OutOfMemory => 99,
        }
    }
}

/// A promise to vote at no ballot below this one, with the last vote.
#[derive(Debug, Drop)]
pub struct Promise {
    pub ballot: Ballot,
    pub vote: Option<(Ballot, Cut)>,
}

/// The acceptor of one member: the highest ballot promised or voted at, and the last vote.
#[derive(Debug, Drop)]
pub struct Acceptor {
    rnd: Ballot,
    last: Option<(Ballot, Cut)>,
    alloc: Global,
}

impl Model for Acceptor {
    ghost use Rattle.rapid_model.specs.Cut.{Cut};
    ghost use Rattle.rapid_model.specs.Acceptor.{Acceptor as ModelAcceptor};
    ghost use Rattle.rapid_paxos.specs.Reported.{last_of};

    ghost Value = { ModelAcceptor Cut };

    ghost view = { λ a. record { rnd = a.rnd; last = last_of a.last } };
}

/// Whether the last vote is at a ballot.
fn has_voted_at(ballot: Ballot, last: &Option<(Ballot, Cut)>) -> bool
    ensures { result ≡ model.has_voted_at ballot (last_of last.now) }
{
    match last {
        Some((voted, _)) => *voted == ballot,
        None => false,
    }
}

/// An equal vote, which shares its cut, if there is one.
pub fn copy_vote(
    alloc: Global,
    vote: &Option<(Ballot, Cut)>,
) -> Result<Option<(Ballot, Cut)>, AllocError>
    ensures { IfOk result (λ v. v ≡ vote.now) }
{
    match vote {
        Some((ballot, cut)) => Ok(Some((*ballot, cut.try_copy(alloc)?))),
        None => Ok(None),
    }
}

impl Acceptor {
    /// An acceptor that has promised nothing above the fast ballot and has not voted.
    pub fn new(alloc: Global) -> Acceptor
        ensures { result ≡ model.fresh_acceptor }
    {
        Acceptor {
            rnd: Ballot::FAST,
            last: None,
            alloc,
        }
    }

    /// The highest ballot promised or voted at; the fast one at first.
    pub fn rnd(&self) -> Ballot
        ensures { result ≡ self.now.rnd }
    {
        self.rnd
    }

    /// Promises to vote at no ballot below this one, which is above all that it promised or voted
    /// at. The promise reports the last vote.
    ///
    /// # Errors
    ///
    /// `Promised(rnd)` if the ballot is not above `rnd`; `OutOfMemory`. Both leave the acceptor as
    /// it was.
    #[tactic(auto, unfolding(rapid_model::specs::Acceptor::promise_answer, rapid_model::specs::Acceptor::after_promise))]
    pub fn promise(&mut self, ballot: Ballot) -> Result<Promise, PromiseError>
        ensures promised { OnOk result (self.new ≡ model.after_promise self.old ballot) }
        ensures ballot { IfOk result (λ p. p.ballot ≡ ballot) }
        ensures vote { IfOk result (λ p. model.promise_answer self.old ballot ≡ Ok (last_of p.vote)) }
        ensures refused { IfErr result (IsPromiseRefusal (model.promise_answer self.old ballot)) }
        ensures unchanged { OnErr result (self.new ≡ self.old) }
    {
        // an equal ballot too: it may have voted there, and a promise reports votes below its
        // ballot
        if ballot <= self.rnd {
            return Err(PromiseError::Promised(self.rnd));
        }
        let vote = copy_vote(self.alloc, &self.last).map_err(|_| PromiseError::OutOfMemory)?;
        self.rnd = ballot;
        Ok(Promise { ballot, vote })
    }

    /// Votes for a cut at a ballot.
    ///
    /// # Errors
    ///
    /// `Promised(rnd)` if the ballot is below `rnd`, then `AlreadyVoted` if it has voted at this
    /// ballot; `OutOfMemory`. Each leaves the acceptor as it was.
    #[tactic(auto, unfolding(rapid_model::specs::Acceptor::accepts, rapid_model::specs::Acceptor::after_accept, rapid_model::specs::Acceptor::accept_answer))]
    pub fn accept(&mut self, ballot: Ballot, cut: &Cut) -> Result<(), AcceptError>
        ensures accepted { OnOk result (self.new ≡ model.after_accept self.old ballot cut.now) }
        ensures allowed { OnOk result (IsTrue (model.accepts self.old ballot)) }
        ensures refused { IfErr result (IsAcceptRefusal (model.accept_answer self.old ballot)) }
        ensures unchanged { OnErr result (self.new ≡ self.old) }
    {
        if ballot < self.rnd {
            return Err(AcceptError::Promised(self.rnd));
        }
        if has_voted_at(ballot, &self.last) {
            return Err(AcceptError::AlreadyVoted);
        }
        let cut = cut
            .try_copy(self.alloc)
            .map_err(|_| AcceptError::OutOfMemory)?;
        self.rnd = ballot;
        self.last = Some((ballot, cut));
        Ok(())
    }

    /// The fast vote: a vote for a cut at the fast ballot, refused as `accept` refuses.
    pub fn fast_vote(&mut self, cut: &Cut) -> Result<(), AcceptError>
        ensures accepted { OnOk result (self.new ≡ model.after_accept self.old fast_ballot cut.now) }
        ensures allowed { OnOk result (IsTrue (model.accepts self.old fast_ballot)) }
        ensures refused { IfErr result (IsAcceptRefusal (model.accept_answer self.old fast_ballot)) }
        ensures unchanged { OnErr result (self.new ≡ self.old) }
    {
        self.accept(Ballot::FAST, cut)
    }

    /// An equal acceptor.
    pub fn try_copy(&self) -> Result<Acceptor, AllocError>
        ensures { IfOk result (λ a. a ≡ self.now) }
    {
        Ok(Acceptor {
            rnd: self.rnd,
            last: copy_vote(self.alloc, &self.last)?,
            alloc: self.alloc,
        })
    }
}
