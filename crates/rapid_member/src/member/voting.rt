// What a member does with votes and ballots.

ghost use Rattle.std.specs.Prelude.{◌≡◌, ◌<◌, ◌++◌, length, IfOk, OnOk, OnErr, Some};
ghost use Rattle.rapid_model.specs.Ballot.{IsClassicBallot};
ghost use Rattle.rapid_model.specs.Node.{outputs};
ghost use Rattle.rapid_model.specs.Member as member;
ghost use Rattle.rapid_alerts.specs.Alerts.{alert_of, alerts_in};
ghost use Rattle.rapid_member.specs.Members.{IsSameMember};
ghost use Rattle.rapid_paxos.specs.Reported.{last_of};

use super::MemberState;
use crate::sending::{answer, say};
use rapid_alerts::{Alert, AlertList};
use rapid_config::Cut;
use rapid_endpoint::Process;
use rapid_fast::HearError;
use rapid_message::{Body, Output};
use rapid_paxos::{AcceptError, Ballot, Promise, copy_vote};
use std::alloc::AllocError;
use std::sync::Arc;

impl MemberState {
    /// Raises an alert, which goes out with the batch of the next tick. A refused one is ignored.
    /// If out of memory the member is as it was.
    pub fn raise(&mut self, alert: Alert) -> Result<(), AllocError>
        ensures state { OnOk result (self.new ≡ member.raise_alert self.old (alert_of alert)) }
        ensures unchanged { OnErr result (self.new ≡ self.old) }
        ensures same { IsSameMember self.old self.new }
    {
        self.raise_one(&alert)
    }

    /// Raises an alert as `raise` does.
    #[tactic(auto, unfolding(rapid_model::specs::Member::raise_alert))]
    fn raise_one(&mut self, alert: &Alert) -> Result<(), AllocError>
        ensures state { OnOk result (self.new ≡ member.raise_alert self.old (alert_of alert.now)) }
        ensures unchanged { OnErr result (self.new ≡ self.old) }
        ensures same { IsSameMember self.old self.new }
    {
        let rest = Arc::make_mut(&mut self.rest)?;
        let raised = Arc::make_mut(&mut rest.raised)?;
        raised.raise(alert)
    }

    /// A vote was sent or heard.
    #[inline(always)]
    fn see_vote(&mut self)
        ensures { self.new ≡ member.vote_seen self.old }
    {
        if self.first_vote.is_none() {
            self.first_vote = Some(self.tick);
        }
    }

    /// Takes a fast vote of the member at a place.
    #[inline(always)]
    pub(super) fn take_vote(&mut self, place: usize, cut: &Cut) -> Result<Option<Cut>, AllocError>
        requires { place < length self.old.config.members }
        ensures state { OnOk result (self.new ≡ (member.take_vote self.old place cut.now).state) }
        ensures decided { IfOk result (λ d. d ≡ (member.take_vote self.old place cut.now).decided) }
        ensures same { IsSameMember self.old self.new }
    {
        self.see_vote();
        let votes = Arc::make_mut(&mut self.votes)?;
        match votes.round.hear(place, cut) {
            Ok(decided) => Ok(decided),
            Err(HearError::OutOfMemory) => Err(AllocError),
            Err(HearError::NotMember) => unreachable!(),
        }
    }

    /// Takes a notice of the member at a place that it accepted.
    pub(super) fn take_accepted(
        &mut self,
        place: usize,
        ballot: Ballot,
        cut: &Cut,
    ) -> Result<Option<Cut>, AllocError>
        requires { place < length self.old.config.members }
        ensures state { OnOk result (self.new ≡ (member.take_accepted self.old place ballot cut.now).state) }
        ensures decided { IfOk result (λ d. d ≡ (member.take_accepted self.old place ballot cut.now).decided) }
        ensures same { IsSameMember self.old self.new }
    {
        let rest = Arc::make_mut(&mut self.rest)?;
        let ballots = Arc::make_mut(&mut rest.ballots)?;
        ballots.learner.hear(place, ballot, cut)
    }

    /// Takes an Accept: if it is accepted, the notice goes out and is taken.
    #[tactic(auto, unfolding(rapid_model::specs::Member::take_accept, rapid_model::specs::Acceptor::accepts))]
    pub(super) fn take_accept(
        &mut self,
        out: &mut Vec<Output>,
        ballot: Ballot,
        cut: &Cut,
    ) -> Result<Option<Cut>, AllocError>
        requires { IsClassicBallot ballot }
        ensures state { OnOk result (self.new ≡ (member.take_accept self.old ballot cut.now).state) }
        ensures out { OnOk result (out.new.items ≡ out.old.items ++ outputs self.old.me (member.take_accept self.old ballot cut.now).effects) }
        ensures decided { IfOk result (λ d. d ≡ (member.take_accept self.old ballot cut.now).decided) }
        ensures same { IsSameMember self.old self.new }
    {
        let rest = Arc::make_mut(&mut self.rest)?;
        let ballots = Arc::make_mut(&mut rest.ballots)?;
        match ballots.acceptor.accept(ballot, cut) {
            Ok(()) => {}
            Err(AcceptError::OutOfMemory) => return Err(AllocError),
            Err(AcceptError::Promised(_)) => return Ok(None),
            Err(AcceptError::AlreadyVoted) => return Ok(None),
        }
        let id = self.configuration().id();
        say(
            out,
            self.shared_me(),
            Body::Accepted(id, ballot, cut.try_copy(self.alloc)?),
        )?;
        let place = self.place();
        self.take_accepted(place, ballot, cut)
    }

    /// Asks for a cut: the Accept goes out and is taken.
    #[tactic(auto, unfolding(rapid_model::specs::Member::send_accept))]
    fn send_accept(
        &mut self,
        out: &mut Vec<Output>,
        ballot: Ballot,
        cut: &Cut,
    ) -> Result<Option<Cut>, AllocError>
        requires { IsClassicBallot ballot }
        ensures state { OnOk result (self.new ≡ (member.send_accept self.old ballot (Some cut.now)).state) }
        ensures out { OnOk result (out.new.items ≡ out.old.items ++ outputs self.old.me (member.send_accept self.old ballot (Some cut.now)).effects) }
        ensures decided { IfOk result (λ d. d ≡ (member.send_accept self.old ballot (Some cut.now)).decided) }
        ensures same { IsSameMember self.old self.new }
    {
        let id = self.configuration().id();
        say(
            out,
            self.shared_me(),
            Body::Accept(id, ballot, cut.try_copy(self.alloc())?),
        )?;
        self.take_accept(out, ballot, cut)
    }

    /// Takes a promise of the member at a place.
    #[tactic(auto, unfolding(rapid_model::specs::Member::take_promise, rapid_model::specs::Member::send_accept))]
    pub(super) fn take_promise(
        &mut self,
        out: &mut Vec<Output>,
        place: usize,
        promise: &Promise,
    ) -> Result<Option<Cut>, AllocError>
        requires member { place < length self.old.config.members }
        requires ballot { IsClassicBallot promise.now.ballot }
        ensures state { OnOk result (self.new ≡ (member.take_promise self.old place promise.now.ballot (last_of promise.now.vote)).state) }
        ensures out { OnOk result (out.new.items ≡ out.old.items ++ outputs self.old.me (member.take_promise self.old place promise.now.ballot (last_of promise.now.vote)).effects) }
        ensures decided { IfOk result (λ d. d ≡ (member.take_promise self.old place promise.now.ballot (last_of promise.now.vote)).decided) }
        ensures same { IsSameMember self.old self.new }
    {
        match self.hear_promise(place, promise)? {
            Some(accept) => self.send_accept(out, promise.ballot, &accept.cut),
            None => Ok(None),
        }
    }

    /// Takes a promise, if its sender is a member.
    #[inline(always)]
    pub(super) fn take_promise_of(
        &mut self,
        out: &mut Vec<Output>,
        from: &Process,
        ballot: Ballot,
        vote: &Option<(Ballot, Cut)>,
    ) -> Result<Option<Cut>, AllocError>
        requires { IsClassicBallot ballot }
        ensures state { OnOk result (self.new ≡
            (member.from_member self.old from.now (λ p. member.take_promise self.old p ballot (last_of vote.now))).state) }
        ensures out { OnOk result (out.new.items ≡ out.old.items ++ outputs self.old.me
            (member.from_member self.old from.now (λ p. member.take_promise self.old p ballot (last_of vote.now))).effects) }
        ensures decided { IfOk result (λ d. d ≡
            (member.from_member self.old from.now (λ p. member.take_promise self.old p ballot (last_of vote.now))).decided) }
        ensures same { IsSameMember self.old self.new }
    {
        let Some(place) = self.configuration().position(from) else {
            return Ok(None);
        };
        let vote = copy_vote(self.alloc(), vote)?;
        self.take_promise(out, place, &Promise { ballot, vote })
    }

    /// Takes a Prepare: the promise goes to its sender, or is taken here if that is the member
    /// itself.
    #[tactic(auto, unfolding(rapid_model::specs::Member::take_prepare))]
    pub(super) fn take_prepare(
        &mut self,
        out: &mut Vec<Output>,
        from: &Process,
        ballot: Ballot,
    ) -> Result<Option<Cut>, AllocError>
        requires { IsClassicBallot ballot }
        ensures state { OnOk result (self.new ≡ (member.take_prepare self.old from.now ballot).state) }
        ensures out { OnOk result (out.new.items ≡ out.old.items ++ outputs self.old.me (member.take_prepare self.old from.now ballot).effects) }
        ensures decided { IfOk result (λ d. d ≡ (member.take_prepare self.old from.now ballot).decided) }
        ensures same { IsSameMember self.old self.new }
    {
        let Some(promise) = self.promise_at(ballot)? else {
            return Ok(None);
        };
        // its own promise needs no message
        if *from == *self.me() {
            let place = self.place();
            return self.take_promise(out, place, &promise);
        }
        let id = self.configuration().id();
        answer(
            out,
            self.shared_me(),
            from,
            Body::Promise(id, promise.ballot, promise.vote),
        )?;
        Ok(None)
    }

    /// Casts the fast vote, if the acceptor takes it.
    #[tactic(auto, unfolding(rapid_model::specs::Member::cast_vote, rapid_model::specs::Acceptor::accepts))]
    fn cast_vote(&mut self, out: &mut Vec<Output>, cut: &Cut) -> Result<Option<Cut>, AllocError>
        ensures state { OnOk result (self.new ≡ (member.cast_vote self.old cut.now).state) }
        ensures out { OnOk result (out.new.items ≡ out.old.items ++ outputs self.old.me (member.cast_vote self.old cut.now).effects) }
        ensures decided { IfOk result (λ d. d ≡ (member.cast_vote self.old cut.now).decided) }
        ensures same { IsSameMember self.old self.new }
    {
        let rest = Arc::make_mut(&mut self.rest)?;
        let ballots = Arc::make_mut(&mut rest.ballots)?;
        match ballots.acceptor.fast_vote(cut) {
            Ok(()) => {}
            Err(AcceptError::OutOfMemory) => return Err(AllocError),
            Err(AcceptError::Promised(_)) => return Ok(None),
            Err(AcceptError::AlreadyVoted) => return Ok(None),
        }
        // the acceptor has taken it: a fast vote is a vote at the fast ballot
        self.voted = true;
        self.see_vote();
        let id = self.configuration().id();
        say(
            out,
            self.shared_me(),
            Body::FastVote(id, cut.try_copy(self.alloc)?),
        )?;
        let place = self.place();
        self.take_vote(place, cut)
    }

    /// Proposes a cut and votes for it.
    #[tactic(auto, unfolding(rapid_model::specs::Member::propose))]
    fn propose(&mut self, out: &mut Vec<Output>, cut: &Cut) -> Result<Option<Cut>, AllocError>
        ensures state { OnOk result (self.new ≡ (member.propose self.old (Some cut.now)).state) }
        ensures out { OnOk result (out.new.items ≡ out.old.items ++ outputs self.old.me (member.propose self.old (Some cut.now)).effects) }
        ensures decided { IfOk result (λ d. d ≡ (member.propose self.old (Some cut.now)).decided) }
        ensures same { IsSameMember self.old self.new }
    {
        self.keep_proposal(cut)?;
        self.cast_vote(out, cut)
    }

    /// Takes a batch: the detector's cut is proposed.
    #[tactic(auto, unfolding(rapid_model::specs::Member::take_batch, rapid_model::specs::Member::propose))]
    pub(super) fn take_batch(
        &mut self,
        out: &mut Vec<Output>,
        alerts: &AlertList,
    ) -> Result<Option<Cut>, AllocError>
        ensures state { OnOk result (self.new ≡ (member.take_batch self.old (alerts_in alerts.now)).state) }
        ensures out { OnOk result (out.new.items ≡ out.old.items ++ outputs self.old.me (member.take_batch self.old (alerts_in alerts.now)).effects) }
        ensures decided { IfOk result (λ d. d ≡ (member.take_batch self.old (alerts_in alerts.now)).decided) }
        ensures same { IsSameMember self.old self.new }
    {
        match self.detect(alerts)? {
            Some(cut) => self.propose(out, &cut),
            None => Ok(None),
        }
    }
}
