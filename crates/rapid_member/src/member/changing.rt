// Changes of one part of a member: a part that copies share is copied first.

ghost use Rattle.std.specs.Prelude.{◌≡◌, ◌<◌, true, length, IfOk, IfSome, IfNone, IfErr, OnOk, OnErr, Ok, Err, Some};
ghost use Rattle.std.specs.FinMap as finite;
ghost use Rattle.std.specs.Option.{option_map};
ghost use Rattle.rapid_model.specs.Acceptor as acceptor;
ghost use Rattle.rapid_model.specs.Ballot.{IsClassicBallot};
ghost use Rattle.rapid_model.specs.Coordinator as coordinator;
ghost use Rattle.rapid_model.specs.Detector as detector;
ghost use Rattle.rapid_model.specs.Host as host;
ghost use Rattle.rapid_model.specs.Reports.{unstable};
ghost use Rattle.rapid_model.specs.Ring.{observers_of};
ghost use Rattle.rapid_model.specs.Tick as tick;
ghost use Rattle.rapid_alerts.specs.Alerts.{alerts_in};
ghost use Rattle.rapid_join.specs.Answers.{AnswersObservers, host_answer_of};
ghost use Rattle.rapid_member.specs.Members.{IsSameMember};
ghost use Rattle.rapid_paxos.specs.Reported.{last_of};

use super::MemberState;
use rapid_alerts::AlertList;
use rapid_config::Cut;
use rapid_endpoint::Process;
use rapid_join::HostAnswer;
use rapid_paxos::{Accept, Ballot, Promise};
use std::alloc::AllocError;
use std::sync::Arc;

impl MemberState {
    /// Keeps a cut as the own proposal.
    pub(super) fn keep_proposal(&mut self, cut: &Cut) -> Result<(), AllocError>
        ensures state { OnOk result (self.new ≡ record self.old { proposal = Some cut.now }) }
        ensures same { IsSameMember self.old self.new }
    {
        let rest = Arc::make_mut(&mut self.rest)?;
        let ballots = Arc::make_mut(&mut rest.ballots)?;
        ballots.proposal = Some(cut.try_copy(self.alloc)?);
        Ok(())
    }

    /// Gives alerts to the detector: the cut, if they complete one.
    pub(super) fn detect(&mut self, alerts: &AlertList) -> Result<Option<Cut>, AllocError>
        ensures state { OnOk result (self.new ≡ record self.old { detector = detector.after_batch (observers_of self.old.config) self.old.detector (alerts_in alerts.now) }) }
        ensures cut { IfOk result (λ cut. cut ≡ detector.batch_cut (observers_of self.old.config) self.old.detector (alerts_in alerts.now)) }
        ensures same { IsSameMember self.old self.new }
    {
        let detection = Arc::make_mut(&mut self.detection)?;
        detection.detector.batch_of(alerts)
    }

    /// The unstable processes, ascending.
    pub(super) fn unstable(&self) -> Result<Vec<Process>, AllocError>
        ensures { IfOk result (λ found. found.items ≡ unstable (observers_of self.now.config) self.now.detector.direct) }
    {
        self.detection.detector.unstable()
    }

    /// Whether no process was unstable at the last tick.
    pub(super) fn is_calm(&self) -> bool
        ensures { result ≡ true → self.now.ages ≡ finite.empty }
    {
        self.rest.waiting.ages.is_empty()
    }

    /// The ages a tick later, at which these processes are unstable.
    pub(super) fn next_ages(&mut self, processes: &[Process]) -> Result<(), AllocError>
        ensures state { OnOk result (self.new ≡ record self.old { ages = tick.next_ages self.old.ages processes.now }) }
        ensures same { IsSameMember self.old self.new }
    {
        let rest = Arc::make_mut(&mut self.rest)?;
        let waiting = Arc::make_mut(&mut rest.waiting)?;
        waiting.ages = waiting.ages.next(processes)?;
        Ok(())
    }

    /// Gives the promise of the member at a place to the coordinator: what is to be asked for, if
    /// anything.
    pub(super) fn hear_promise(
        &mut self,
        place: usize,
        promise: &Promise,
    ) -> Result<Option<Accept>, AllocError>
        requires { place < length self.old.config.members }
        ensures state { OnOk result (self.new ≡ record self.old { coordinator = coordinator.after_report self.old.coordinator place promise.now.ballot (last_of promise.now.vote) }) }
        ensures cut { IfOk result (λ a. option_map (λ x. x.cut) a ≡ coordinator.accept_cut self.old.coordinator place promise.now.ballot (last_of promise.now.vote) self.old.proposal) }
        ensures same { IsSameMember self.old self.new }
    {
        let rest = Arc::make_mut(&mut self.rest)?;
        let ballots = Arc::make_mut(&mut rest.ballots)?;
        let proposal = ballots.proposal.as_ref();
        ballots.coordinator.hear_promise(place, promise, proposal)
    }

    /// Asks the acceptor for a promise at a ballot; none if it has promised one that is as high.
    pub(super) fn promise_at(&mut self, ballot: Ballot) -> Result<Option<Promise>, AllocError>
        ensures state { IfOk result (λ p. IfSome p (λ _. self.new ≡ record self.old { acceptor = acceptor.after_promise self.old.acceptor ballot })) }
        ensures ballot { IfOk result (λ p. IfSome p (λ x. x.ballot ≡ ballot)) }
        ensures vote { IfOk result (λ p. IfSome p (λ x. acceptor.promise_answer self.old.acceptor ballot ≡ Ok (last_of x.vote))) }
        ensures refused { IfOk result (λ p. IfNone p (acceptor.promise_answer self.old.acceptor ballot ≡ Err (acceptor.Promised self.old.acceptor.rnd))) }
        ensures unchanged { IfOk result (λ p. IfNone p (self.new ≡ self.old)) }
        ensures same { IsSameMember self.old self.new }
    {
        let rest = Arc::make_mut(&mut self.rest)?;
        let ballots = Arc::make_mut(&mut rest.ballots)?;
        ballots.promise(ballot)
    }

    /// Begins the next ballot of the coordinator; none if its rounds are used up.
    pub(super) fn begin(&mut self) -> Result<Option<Ballot>, AllocError>
        ensures next { IfOk result (λ b. b ≡ coordinator.next_ballot self.old.coordinator self.old.acceptor.rnd) }
        ensures state { IfOk result (λ b. IfSome b (λ x. self.new ≡ record self.old { coordinator = coordinator.begun self.old.coordinator x })) }
        ensures none { IfOk result (λ b. IfNone b (self.new ≡ self.old)) }
        ensures classic { IfOk result (λ b. IfSome b IsClassicBallot) }
        ensures same { IsSameMember self.old self.new }
    {
        let rest = Arc::make_mut(&mut self.rest)?;
        let ballots = Arc::make_mut(&mut rest.ballots)?;
        let Ok(ballot) = ballots.coordinator.begin(ballots.acceptor.rnd()) else {
            return Ok(None);
        };
        // does nothing, and its clause says that this is a ballot
        let _ = ballot.round();
        Ok(Some(ballot))
    }

    /// What the host's side answers to a joiner's first question.
    #[tactic(auto, using(crate::proofs::Hosts::member_at))]
    pub(super) fn first_answer(&self, joiner: &Process) -> Result<HostAnswer, AllocError>
        ensures answer { IfOk result (λ answer. host_answer_of answer ≡ host.pre_join self.now.config self.now.pending joiner.now) }
        ensures observers { IfOk result AnswersObservers }
    {
        self.rest.waiting.host.pre_join(joiner)
    }
}
