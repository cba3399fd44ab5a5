// Messages between nodes.

ghost use Rattle.std.specs.Prelude.{◌≡◌, IfOk, OnOk, IfErr};
ghost use Rattle.rapid_message.specs.Bodies.{CanSay, CannotSay, body_of};
ghost use Rattle.rapid_model.specs.Message.{caught_up_by};

use crate::MessageError;
use crate::saying::check;
use rapid_alerts::Batch;
use rapid_config::{ConfigId, Configuration, Cut};
use rapid_endpoint::{Process, SharedProcess};
use rapid_join::Reply;
use rapid_paxos::{Ballot, copy_vote};
use std::alloc::{AllocError, Global};
use std::marker::Model;

/// What a message says. An identifier in front is that of the configuration that it is about.
#[derive(Debug, Drop)]
pub enum Body {
    /// Alerts of the sender.
    Batch(ConfigId, Batch),
    /// The sender's fast vote.
    FastVote(ConfigId, Cut),
    /// A coordinator asks for promises at its ballot.
    Prepare(ConfigId, Ballot),
    /// A promise to vote at no lower ballot, with the last vote.
    Promise(ConfigId, Ballot, Option<(Ballot, Cut)>),
    /// A coordinator asks for votes.
    Accept(ConfigId, Ballot, Cut),
    /// The sender has voted.
    Accepted(ConfigId, Ballot, Cut),
    /// The cut that was decided.
    Decision(ConfigId, Cut),
    /// The sender wants to join.
    PreJoin,
    /// What a host answers to this joiner.
    Reply(SharedProcess, Reply),
    /// The sender asks its observer on this ring to let it in.
    JoinRequest(ConfigId, u8),
    /// The configuration that the joiner is in.
    Confirm(Configuration),
    /// An observer asks whether the receiver is there.
    Probe(ConfigId),
    /// The receiver of a probe is there.
    ProbeAck(ConfigId),
    /// The sender asks its observer on this ring, from 0, to have it removed.
    Leave(ConfigId, u8),
}

impl Body {
    /// An equal body. What is long is shared.
    pub fn try_copy(&self, alloc: Global) -> Result<Body, AllocError>
        ensures { IfOk result (λ b. b ≡ self.now) }
    {
        Ok(match self {
            Body::Batch(id, batch) => Body::Batch(*id, batch.try_copy(alloc)?),
            Body::FastVote(id, cut) => Body::FastVote(*id, cut.try_copy(alloc)?),
            Body::Prepare(id, ballot) => Body::Prepare(*id, *ballot),
            Body::Promise(id, ballot, vote) => {
                Body::Promise(*id, *ballot, copy_vote(alloc, vote)?)
            }
            Body::Accept(id, ballot, cut) => Body::Accept(*id, *ballot, cut.try_copy(alloc)?),
            Body::Accepted(id, ballot, cut) => Body::Accepted(*id, *ballot, cut.try_copy(alloc)?),
            Body::Decision(id, cut) => Body::Decision(*id, cut.try_copy(alloc)?),
            Body::PreJoin => Body::PreJoin,
            Body::Reply(joiner, reply) => Body::Reply(joiner.share()?, reply.try_copy(alloc)?),
            Body::JoinRequest(id, ring) => Body::JoinRequest(*id, *ring),
            Body::Confirm(configuration) => Body::Confirm(configuration.try_copy(alloc)?),
            Body::Probe(id) => Body::Probe(*id),
            Body::ProbeAck(id) => Body::ProbeAck(*id),
            Body::Leave(id, ring) => Body::Leave(*id, *ring),
        })
    }

    /// The configuration of the message, if a receiver that has left it answers with its decision.
    pub fn caught_up_by(&self) -> Option<ConfigId>
        ensures { result ≡ caught_up_by (body_of self.now) }
    {
        match self {
            Body::Batch(id, _)
            | Body::FastVote(id, _)
            | Body::Prepare(id, _)
            | Body::Promise(id, _, _)
            | Body::Accept(id, _, _)
            | Body::Accepted(id, _, _)
            | Body::Probe(id)
            | Body::ProbeAck(id)
            | Body::Leave(id, _) => Some(*id),
            Body::Decision(..)
            | Body::PreJoin
            | Body::Reply(..)
            | Body::JoinRequest(..)
            | Body::Confirm(_) => None,
        }
    }
}

/// A message: who sends it, which is shared, and what it says. A sender's batch has its own alerts,
/// and only a fast vote and the vote that a promise reports can be at the fast ballot.
#[derive(Debug, Drop)]
pub struct Message {
    sender: SharedProcess,
    body: Body,
}

impl Model for Message {
    ghost use Rattle.rapid_model.specs.Message.{Message as ModelMessage};
    ghost use Rattle.rapid_message.specs.Bodies.{CanSay, body_of};

    ghost Value = { ModelMessage };

    ghost view = { λ m. record { sender = m.sender; body = body_of m.body } };

    ghost invariant = { λ m. CanSay m.sender m.body };
}

impl Message {
    /// The message of this sender that says this, if the sender can say it. `OtherObserver` if a
    /// batch has alerts of another than the sender. Else `OtherConfiguration` if it has alerts for
    /// another configuration than the one that it names. `FastBallot` if a Prepare, a Promise, an
    /// Accept or an Accepted is at the fast ballot. `NoObserver` if a reply Safe names no observer.
    pub fn new(sender: SharedProcess, body: Body) -> Result<Message, MessageError>
        ensures value { IfOk result (λ message. message ≡ record { sender = sender; body = body_of body }) }
        ensures said { OnOk result (CanSay sender body) }
        ensures refused { IfErr result (CannotSay sender body) }
    {
        check(sender.get(), &body)?;
        Ok(Message::of(sender, body))
    }

    /// The message of a sender that can say this. What a member says is known to be such, and is not
    /// looked through again.
    pub fn of(sender: SharedProcess, body: Body) -> Message
        requires { CanSay sender body }
        ensures { result ≡ record { sender = sender; body = body_of body } }
    {
        Message { sender, body }
    }

    /// Who sends it.
    pub fn sender(&self) -> &Process
        ensures { result.now ≡ self.now.sender }
    {
        self.sender.get()
    }

    /// Who sends it, to be shared.
    pub fn shared_sender(&self) -> &SharedProcess
        ensures { result.now ≡ self.now.sender }
    {
        &self.sender
    }

    /// What it says.
    pub fn body(&self) -> &Body
        ensures value { body_of result.now ≡ self.now.body }
        ensures said { CanSay self.now.sender result.now }
    {
        &self.body
    }

    /// What it says, taken out of it.
    pub fn into_body(self) -> Body
        ensures value { body_of result ≡ self.body }
        ensures said { CanSay self.sender result }
    {
        self.body
    }

    /// An equal message. What is long is shared.
    pub fn try_copy(&self, alloc: Global) -> Result<Message, AllocError>
        ensures { IfOk result (λ m. m ≡ self.now) }
    {
        let sender = self.sender.share()?;
        let body = self.body.try_copy(alloc)?;
        Ok(Message { sender, body })
    }
}
