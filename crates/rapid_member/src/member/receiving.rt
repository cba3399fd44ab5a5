// What a member does with a message.

ghost use Rattle.std.specs.Prelude.{◌≡◌, ◌++◌, ◌==◌, ◌∷◌, [], IfOk, OnOk, Some, None};
ghost use Rattle.std.specs.Option.{option_eq};
ghost use Rattle.rapid_model.specs.Configuration.{position_of};
ghost use Rattle.rapid_model.specs.Host as host;
ghost use Rattle.rapid_model.specs.Node.{outputs};
ghost use Rattle.rapid_model.specs.Receive as receive;
ghost use Rattle.rapid_join.specs.Answers.{host_answer_of};
ghost use Rattle.rapid_message.specs.Bodies.{CanSay, body_of};
ghost use Rattle.rapid_join.specs.Answers.{AnswersObservers};
ghost use Rattle.rapid_member.specs.Members.{IsSameMember};

use super::MemberState;
use crate::decisions::Decisions;
use crate::joining::say_answer;
use crate::sending::answer;
use rapid_config::{ConfigId, Cut};
use rapid_endpoint::{Process, SharedProcess};
use rapid_join::HostAnswer;
use rapid_message::{Body, Message, Output};
use rapid_paxos::Ballot;
use std::alloc::AllocError;
use std::sync::Arc;

impl MemberState {
    /// Whether a ballot's position is the sender's.
    fn is_from_coordinator(&self, from: &Process, ballot: Ballot) -> bool
        ensures { result ≡ option_eq (◌==◌) (position_of self.now.config from.now) (Some ballot.position) }
    {
        match self.configuration().position(from) {
            Some(place) => place == ballot.position(),
            None => false,
        }
    }

    /// Takes a message that is about the configuration.
    #[tactic(auto, using(rapid_message::proofs::Batches::batch_alerts_are), unfolding(rapid_model::specs::Receive::take))]
    #[inline(always)]
    fn take_message(
        &mut self,
        out: &mut Vec<Output>,
        from: &Process,
        body: &Body,
    ) -> Result<Option<Cut>, AllocError>
        requires { CanSay from.now body.now }
        ensures state { OnOk result (self.new ≡ (receive.take self.old from.now (body_of body.now)).state) }
        ensures out { OnOk result (out.new.items ≡ out.old.items ++ outputs self.old.me (receive.take self.old from.now (body_of body.now)).effects) }
        ensures decided { IfOk result (λ d. d ≡ (receive.take self.old from.now (body_of body.now)).decided) }
        ensures same { IsSameMember self.old self.new }
    {
        match body {
            Body::Batch(_, batch) => self.take_batch(out, batch.alerts()),
            Body::FastVote(_, cut) => match self.configuration().position(from) {
                Some(place) => self.take_vote(place, cut),
                None => Ok(None),
            },
            Body::Prepare(_, ballot) => {
                if self.is_from_coordinator(from, *ballot) {
                    self.take_prepare(out, from, *ballot)
                } else {
                    Ok(None)
                }
            }
            Body::Promise(_, ballot, vote) => self.take_promise_of(out, from, *ballot, vote),
            Body::Accept(_, ballot, cut) => {
                if self.is_from_coordinator(from, *ballot) {
                    self.take_accept(out, *ballot, cut)
                } else {
                    Ok(None)
                }
            }
            Body::Accepted(_, ballot, cut) => match self.configuration().position(from) {
                Some(place) => self.take_accepted(place, *ballot, cut),
                None => Ok(None),
            },
            Body::Decision(_, cut) => Ok(Some(cut.try_copy(self.alloc())?)),
            Body::Leave(_, ring) => {
                self.take_leave(from, *ring)?;
                Ok(None)
            }
            Body::PreJoin
            | Body::Reply(..)
            | Body::JoinRequest(..)
            | Body::Confirm(_)
            | Body::Probe(_)
            | Body::ProbeAck(_) => Ok(None),
        }
    }

    /// Takes a message that is about the configuration, and answers one about a configuration that
    /// was left with the cut decided there.
    #[inline(always)]
    fn take_or_catch_up(
        &mut self,
        out: &mut Vec<Output>,
        decisions: &Decisions,
        from: &Process,
        body: &Body,
    ) -> Result<Option<Cut>, AllocError>
        requires { CanSay from.now body.now }
        ensures state { OnOk result (self.new ≡ (receive.take_or_catch_up decisions.now self.old from.now (body_of body.now)).state) }
        ensures out { OnOk result (out.new.items ≡ out.old.items ++ outputs self.old.me (receive.take_or_catch_up decisions.now self.old from.now (body_of body.now)).effects) }
        ensures decided { IfOk result (λ d. d ≡ (receive.take_or_catch_up decisions.now self.old from.now (body_of body.now)).decided) }
        ensures same { IsSameMember self.old self.new }
    {
        match body.caught_up_by() {
            Some(id) => {
                if id == self.configuration().id() {
                    self.take_message(out, from, body)
                } else {
                    decisions.catch_up(self.alloc(), out, self.shared_me(), from, id)?;
                    Ok(None)
                }
            }
            None => Ok(None),
        }
    }

    /// Does what the host's side answers to a joiner that named a ring.
    fn answer_joiner(
        &mut self,
        out: &mut Vec<Output>,
        joiner: &SharedProcess,
        ring: u8,
        answered: &HostAnswer,
    ) -> Result<(), AllocError>
        requires { AnswersObservers answered.now }
        ensures state { OnOk result (self.new ≡ receive.raise_join self.old joiner.now ring (host_answer_of answered.now)) }
        ensures out { OnOk result (out.new.items ≡ out.old.items ++ outputs self.old.me (receive.answer_to joiner.now (host_answer_of answered.now))) }
        ensures same { IsSameMember self.old self.new }
    {
        say_answer(self.alloc(), out, self.shared_me(), joiner, answered)?;
        match answered {
            HostAnswer::Nothing => Ok(()),
            HostAnswer::Reply(_) => Ok(()),
            HostAnswer::Confirm(_) => Ok(()),
            HostAnswer::Raise => self.raise(self.alert_on(joiner.get(), ring)),
        }
    }

    /// A joiner's first question.
    #[tactic(auto, using(crate::proofs::Hosts::pre_join_keeps))]
    fn pre_join(&mut self, out: &mut Vec<Output>, joiner: &SharedProcess) -> Result<(), AllocError>
        ensures state { OnOk result (self.new ≡ (receive.host_work self.old joiner.now 0 (host.pre_join self.old.config self.old.pending joiner.now)).state) }
        ensures out { OnOk result (out.new.items ≡ out.old.items ++ outputs self.old.me (receive.host_work self.old joiner.now 0 (host.pre_join self.old.config self.old.pending joiner.now)).effects) }
        ensures same { IsSameMember self.old self.new }
    {
        let answered = self.first_answer(joiner.get())?;
        self.answer_joiner(out, joiner, 0, &answered)
    }

    /// A joiner's request for a ring.
    #[tactic(auto, using(crate::proofs::Hosts::join_request_gives))]
    fn join_request(
        &mut self,
        out: &mut Vec<Output>,
        joiner: &SharedProcess,
        id: ConfigId,
        ring: u8,
    ) -> Result<(), AllocError>
        ensures state { OnOk result (self.new ≡ (receive.host_work self.old joiner.now ring (host.join_request self.old.config self.old.me self.old.pending joiner.now id ring)).state) }
        ensures out { OnOk result (out.new.items ≡ out.old.items ++ outputs self.old.me (receive.host_work self.old joiner.now ring (host.join_request self.old.config self.old.me self.old.pending joiner.now id ring)).effects) }
        ensures same { IsSameMember self.old self.new }
    {
        let rest = Arc::make_mut(&mut self.rest)?;
        let waiting = Arc::make_mut(&mut rest.waiting)?;
        let answered = waiting.host.join_request(joiner.get(), id, ring)?;
        self.answer_joiner(out, joiner, ring, &answered)
    }

    /// Takes a message at a member. These are the decisions of its node. The answer is the cut that
    /// was decided, if any.
    ///
    /// On an error a part of its work may be done, so no clause says more than who the member is
    /// and where. It is of no further use, and nothing that was added to the outputs may be sent.
    /// `Node::step` drops both, and its node is halted.
    #[inline(always)]
    pub fn receive(
        &mut self,
        out: &mut Vec<Output>,
        decisions: &Decisions,
        message: &Message,
    ) -> Result<Option<Cut>, AllocError>
        ensures state { OnOk result (self.new ≡ (receive.receive_as_member decisions.now self.old message.now.sender message.now.body).state) }
        ensures out { OnOk result (out.new.items ≡ out.old.items ++ outputs self.old.me (receive.receive_as_member decisions.now self.old message.now.sender message.now.body).effects) }
        ensures decided { IfOk result (λ d. d ≡ (receive.receive_as_member decisions.now self.old message.now.sender message.now.body).decided) }
        ensures same { IsSameMember self.old self.new }
    {
        self.receive_from(out, decisions, message.shared_sender(), message.body())
    }

    /// What a process that can say this says to a member.
    #[tactic(auto, unfolding(rapid_model::specs::Receive::receive_as_member))]
    #[inline(always)]
    fn receive_from(
        &mut self,
        out: &mut Vec<Output>,
        decisions: &Decisions,
        from: &SharedProcess,
        body: &Body,
    ) -> Result<Option<Cut>, AllocError>
        requires { CanSay from.now body.now }
        ensures state { OnOk result (self.new ≡ (receive.receive_as_member decisions.now self.old from.now (body_of body.now)).state) }
        ensures out { OnOk result (out.new.items ≡ out.old.items ++ outputs self.old.me (receive.receive_as_member decisions.now self.old from.now (body_of body.now)).effects) }
        ensures decided { IfOk result (λ d. d ≡ (receive.receive_as_member decisions.now self.old from.now (body_of body.now)).decided) }
        ensures same { IsSameMember self.old self.new }
    {
        match body {
            Body::PreJoin => {
                self.pre_join(out, from)?;
                Ok(None)
            }
            Body::JoinRequest(id, ring) => {
                self.join_request(out, from, *id, *ring)?;
                Ok(None)
            }
            Body::Decision(id, _) => {
                if *id == self.configuration().id() {
                    self.take_message(out, from.get(), body)
                } else {
                    Ok(None)
                }
            }
            Body::Probe(_) => {
                let own = self.configuration().id();
                answer(out, self.shared_me(), from.get(), Body::ProbeAck(own))?;
                self.take_or_catch_up(out, decisions, from.get(), body)
            }
            Body::Batch(..)
            | Body::FastVote(..)
            | Body::Prepare(..)
            | Body::Promise(..)
            | Body::Accept(..)
            | Body::Accepted(..)
            | Body::Reply(..)
            | Body::Confirm(_)
            | Body::ProbeAck(_)
            | Body::Leave(..) => self.take_or_catch_up(out, decisions, from.get(), body),
        }
    }
}
