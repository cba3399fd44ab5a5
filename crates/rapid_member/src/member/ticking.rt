// The tick of a member.

ghost use Rattle.std.specs.Prelude.{◌≡◌, ◌++◌, All, map, filter, flat_map, None, IfOk, OnOk, IfSome, IsTrue, ◌==◌, ◌∷◌, [], if◌then◌else◌};
ghost use Rattle.rapid_model.specs.Configuration.{configuration_id};
ghost use Rattle.rapid_model.specs.Ring.{observers_of, observes};
ghost use Rattle.rapid_model.specs.Node.{outputs};
ghost use Rattle.rapid_model.specs.Coordinator.{next_ballot};
ghost use Rattle.rapid_model.specs.Member as member;
ghost use Rattle.rapid_model.specs.Outbox as outbox;
ghost use Rattle.rapid_model.specs.Tick as tick;
ghost use Rattle.rapid_alerts.specs.Alerts.{alert_of};
ghost use Rattle.rapid_message.specs.Bodies.{IsFrom};
ghost use Rattle.rapid_member.specs.Members.{IsSameMember};
ghost use Rattle.rapid_model.specs.Batch.{batch_of};
ghost use Rattle.rapid_model.specs.Limits.{echo_age};
ghost use Rattle.rapid_member.specs.Saying.{says_batch};

use super::MemberState;
use crate::ages::ECHO_AGE;
use crate::sending::say;
use rapid_alerts::{Alert, Batch, Kind};
use rapid_config::Cut;
use rapid_endpoint::Process;
use rapid_message::{Body, Output};
use rapid_rings::ObserverTable;
use std::alloc::AllocError;
use std::sync::Arc;

/// How many ticks each later position waits longer, so that mostly one member begins a ballot.
const RECOVERY_STEP: u64 = 4;

/// After how many ticks votes and alerts go out again. So many ticks after its first vote the member
/// at position 0 begins a classic ballot.
pub(super) const RESEND_PERIOD: u64 = 20;

impl MemberState {
    /// The member's alert on a process for a ring.
    pub(super) fn alert_on(&self, process: &Process, ring: u8) -> Alert
        ensures { alert_of result ≡ member.alert_on self.now process.now ring }
    {
        let kind = if self.context.rings.is_member(process) {
            Kind::Remove
        } else {
            Kind::Join
        };
        Alert {
            observer: *self.me(),
            subject: *process,
            ring,
            kind,
            config: self.configuration().id(),
        }
    }

    /// Whether the member observes a process on a ring.
    fn observes(&self, ring: u8, process: &Process) -> bool
        ensures { result ≡ observes (observers_of self.now.config) self.now.me ring process.now }
    {
        self.context.rings.observer(ring, process) == Some(*self.me())
    }

    /// One tick more, up to the greatest number.
    fn move_clock(&mut self)
        ensures { self.new ≡ tick.clock_moved self.old }
    {
        self.tick = self.tick.saturating_add(1);
    }

    /// Adds the alerts that the member raises as an echo on a process.
    fn push_echoes(&self, alerts: &mut Vec<Alert>, process: &Process) -> Result<(), AllocError>
        ensures { OnOk result (map alert_of alerts.new.items ≡ map alert_of alerts.old.items ++ tick.echoes self.now process.now) }
    {
        for ring in 0..self.context.rings.params().k() {
            self.push_echo(alerts, process, ring)?;
        }
        Ok(())
    }

    /// Adds the alert that the member raises as an echo on a process for a ring, if it observes it
    /// there.
    fn push_echo(
        &self,
        alerts: &mut Vec<Alert>,
        process: &Process,
        ring: u8,
    ) -> Result<(), AllocError>
        ensures { OnOk result (map alert_of alerts.new.items ≡ map alert_of alerts.old.items ++ map (member.alert_on self.now process.now) (filter (λ k. observes (observers_of self.now.config) self.now.me k process.now) (ring ∷ []))) }
    {
        if self.observes(ring, process) {
            alerts.push(self.alert_on(process, ring))?;
        }
        Ok(())
    }

    /// The alerts that the member raises as an echo on those of these processes that have the age.
    fn echoes(&self, unstable: &[Process]) -> Result<Vec<Alert>, AllocError>
        ensures { IfOk result (λ alerts. map alert_of alerts.items ≡ flat_map (tick.echoes self.now) (filter (λ p. tick.age_of self.now.ages p == echo_age) unstable.now)) }
    {
        let mut alerts = Vec::new(self.alloc);
        for process in unstable {
            self.push_due(&mut alerts, process)?;
        }
        Ok(alerts)
    }

    /// Adds the alerts that the member raises as an echo on a process, if it has the age.
    fn push_due(&self, alerts: &mut Vec<Alert>, process: &Process) -> Result<(), AllocError>
        ensures { OnOk result (map alert_of alerts.new.items ≡ map alert_of alerts.old.items ++ flat_map (tick.echoes self.now) (filter (λ p. tick.age_of self.now.ages p == echo_age) (process.now ∷ []))) }
    {
        if self.rest.waiting.ages.of(process)? == ECHO_AGE {
            self.push_echoes(alerts, process)?;
        }
        Ok(())
    }

    /// Raises these alerts.
    fn raise_all(&mut self, alerts: &[Alert]) -> Result<(), AllocError>
        ensures state { OnOk result (self.new ≡ tick.raise_all self.old (map alert_of alerts.now)) }
        ensures same { IsSameMember self.old self.new }
    {
        for alert in alerts {
            self.raise(*alert)?;
        }
        Ok(())
    }

    /// These processes, which are unstable, grow older.
    fn grow(&mut self, unstable: &[Process]) -> Result<(), AllocError>
        ensures state { OnOk result (self.new ≡ record self.old { ages = tick.next_ages self.old.ages unstable.now }) }
        ensures same { IsSameMember self.old self.new }
    {
        // as at nearly every tick: no map is made then
        if unstable.is_empty() && self.is_calm() {
            return Ok(());
        }
        self.next_ages(unstable)
    }

    /// Those of these processes that have the age are echoed.
    fn echo(&mut self, unstable: &[Process]) -> Result<(), AllocError>
        ensures state { OnOk result (self.new ≡ tick.echo self.old unstable.now) }
        ensures same { IsSameMember self.old self.new }
    {
        let echoes = self.echoes(unstable)?;
        self.raise_all(echoes.as_slice())
    }

    /// The unstable processes grow older, and some are echoed.
    #[tactic(auto, unfolding(rapid_model::specs::Tick::aged, rapid_model::specs::Tick::unstable_now))]
    fn age(&mut self) -> Result<(), AllocError>
        ensures state { OnOk result (self.new ≡ tick.aged self.old) }
        ensures same { IsSameMember self.old self.new }
    {
        let unstable = self.unstable()?;
        self.grow(unstable.as_slice())?;
        self.echo(unstable.as_slice())
    }

    /// At every twentieth tick the fast vote, if one was cast, goes out again, and so will all
    /// alerts.
    #[tactic(auto, unfolding(rapid_model::specs::Tick::repeats))]
    fn repeat(&mut self, out: &mut Vec<Output>) -> Result<(), AllocError>
        ensures state { OnOk result (self.new ≡ (tick.repeats self.old).state) }
        ensures out { OnOk result (out.new.items ≡ out.old.items ++ outputs self.old.me (tick.repeats self.old).effects) }
        ensures decided { (tick.repeats self.old).decided ≡ None }
        ensures same { IsSameMember self.old self.new }
    {
        if self.tick % RESEND_PERIOD != 0 {
            return Ok(());
        }
        let rest = Arc::make_mut(&mut self.rest)?;
        Arc::make_mut(&mut rest.raised)?.resend();
        if !self.voted {
            return Ok(());
        }
        let Some(cut) = &self.rest.ballots.proposal else {
            return Ok(());
        };
        let id = self.configuration().id();
        say(
            out,
            self.shared_me(),
            Body::FastVote(id, cut.try_copy(self.alloc)?),
        )
    }

    /// The batch of alerts that are not flushed, if there are any, all of which are the member's
    /// for its configuration.
    fn flush(&mut self) -> Result<Option<Batch>, AllocError>
        ensures state { OnOk result (self.new ≡ record self.old { outbox = outbox.flush self.old.outbox }) }
        ensures batch { IfOk result (λ b. b ≡ batch_of (outbox.unflushed self.old.outbox)) }
        ensures own { IfOk result (λ b. IfSome b (λ xs. All (IsFrom self.old.me (configuration_id self.old.config)) xs)) }
        ensures same { IsSameMember self.old self.new }
    {
        if !self.rest.raised.waits() {
            return Ok(None);
        }
        let rest = Arc::make_mut(&mut self.rest)?;
        Arc::make_mut(&mut rest.raised)?.flush()
    }

    /// The alerts that are not flushed, if there are any, go out as a batch, which is taken.
    #[tactic(auto, unfolding(rapid_model::specs::Tick::sends_batch, rapid_model::specs::Tick::send_alerts))]
    fn send_batch(&mut self, out: &mut Vec<Output>) -> Result<Option<Cut>, AllocError>
        ensures state { OnOk result (self.new ≡ (tick.sends_batch self.old).state) }
        ensures out { OnOk result (out.new.items ≡ out.old.items ++ outputs self.old.me (tick.sends_batch self.old).effects) }
        ensures decided { IfOk result (λ d. d ≡ (tick.sends_batch self.old).decided) }
        ensures same { IsSameMember self.old self.new }
    {
        let Some(batch) = self.flush()? else {
            return Ok(None);
        };
        self.send_flushed(out, &batch)
    }

    /// A batch that was flushed goes out and is taken.
    fn send_flushed(
        &mut self,
        out: &mut Vec<Output>,
        batch: &Batch,
    ) -> Result<Option<Cut>, AllocError>
        requires { All (IsFrom self.old.me (configuration_id self.old.config)) batch.now }
        ensures state { OnOk result (self.new ≡ (says_batch self.old batch.now).state) }
        ensures out { OnOk result (out.new.items ≡ out.old.items ++ outputs self.old.me (says_batch self.old batch.now).effects) }
        ensures decided { IfOk result (λ d. d ≡ (says_batch self.old batch.now).decided) }
        ensures same { IsSameMember self.old self.new }
    {
        let id = self.configuration().id();
        let said = batch.try_copy(self.alloc())?;
        say(out, self.shared_me(), Body::Batch(id, said))?;
        self.take_batch(out, batch.alerts())
    }

    /// Whether a ballot is due at a tick.
    pub(super) fn is_due_at(&self, at: u64) -> bool
        ensures { result ≡ tick.is_due (record self.now { tick = at }) self.now.first_vote }
    {
        // a later place waits longer, so that mostly one member begins a ballot and none overtakes
        // it
        let patience = RESEND_PERIOD + RECOVERY_STEP * self.place() as u64;
        match self.first_vote {
            Some(first) => first < at && (at - first) % patience == 0,
            None => false,
        }
    }

    /// Whether a ballot is due.
    fn is_due(&self) -> bool
        ensures { result ≡ tick.is_due self.now self.now.first_vote }
    {
        self.is_due_at(self.tick)
    }

    /// Begins a ballot, if one is due: the Prepare goes out and is taken.
    #[tactic(auto, unfolding(rapid_model::specs::Tick::recovers))]
    fn recover(&mut self, out: &mut Vec<Output>) -> Result<Option<Cut>, AllocError>
        ensures state { OnOk result (self.new ≡ (tick.recovers self.old).state) }
        ensures out { OnOk result (out.new.items ≡ out.old.items ++ outputs self.old.me (tick.recovers self.old).effects) }
        ensures decided { IfOk result (λ d. d ≡ (tick.recovers self.old).decided) }
        ensures same { IsSameMember self.old self.new }
    {
        if !self.is_due() {
            return Ok(None);
        }
        self.begin_ballot(out)
    }

    /// Begins a ballot: the Prepare goes out and is taken. It stands apart: room for a message takes
    /// time at each call of the function that has it, and a ballot is seldom due.
    #[inline(never)]
    fn begin_ballot(&mut self, out: &mut Vec<Output>) -> Result<Option<Cut>, AllocError>
        ensures state { OnOk result (self.new ≡ (tick.begin_at self.old (next_ballot self.old.coordinator self.old.acceptor.rnd)).state) }
        ensures out { OnOk result (out.new.items ≡ out.old.items ++ outputs self.old.me (tick.begin_at self.old (next_ballot self.old.coordinator self.old.acceptor.rnd)).effects) }
        ensures decided { IfOk result (λ d. d ≡ (tick.begin_at self.old (next_ballot self.old.coordinator self.old.acceptor.rnd)).decided) }
        ensures same { IsSameMember self.old self.new }
    {
        let Some(ballot) = self.begin()? else {
            return Ok(None);
        };
        let id = self.configuration().id();
        say(out, self.shared_me(), Body::Prepare(id, ballot))?;
        let me = self.shared_me().share()?;
        self.take_prepare(out, me.get(), ballot)
    }

    /// The clock and the ages move on, and what is due again goes out.
    #[tactic(auto, unfolding(rapid_model::specs::Tick::quiet_tick))]
    fn quiet_tick(&mut self, out: &mut Vec<Output>) -> Result<(), AllocError>
        ensures state { OnOk result (self.new ≡ (tick.quiet_tick self.old).state) }
        ensures out { OnOk result (out.new.items ≡ out.old.items ++ outputs self.old.me (tick.quiet_tick self.old).effects) }
        ensures decided { OnOk result ((tick.quiet_tick self.old).decided ≡ None) }
        ensures same { IsSameMember self.old self.new }
    {
        self.move_clock();
        self.age()?;
        self.repeat(out)
    }

    /// Then the batch goes out.
    #[tactic(auto, unfolding(rapid_model::specs::Tick::batch_tick))]
    fn batch_tick(&mut self, out: &mut Vec<Output>) -> Result<Option<Cut>, AllocError>
        ensures state { OnOk result (self.new ≡ (tick.batch_tick self.old).state) }
        ensures out { OnOk result (out.new.items ≡ out.old.items ++ outputs self.old.me (tick.batch_tick self.old).effects) }
        ensures decided { IfOk result (λ d. d ≡ (tick.batch_tick self.old).decided) }
        ensures same { IsSameMember self.old self.new }
    {
        self.quiet_tick(out)?;
        self.send_batch(out)
    }

    /// A tick: votes and alerts go out again if they are due, then the batch, and last a ballot is
    /// begun if one is due. The result is the cut that was decided, if any.
    ///
    /// On an error a part of this may be done, so no clause says more than who the member is and
    /// where. It is of no further use, and nothing that was added to the outputs may be sent.
    /// `Node::step` drops both, and its node is halted.
    #[tactic(auto, unfolding(rapid_model::specs::Tick::on_tick))]
    pub fn on_tick(&mut self, out: &mut Vec<Output>) -> Result<Option<Cut>, AllocError>
        ensures state { OnOk result (self.new ≡ (tick.on_tick self.old).state) }
        ensures out { OnOk result (out.new.items ≡ out.old.items ++ outputs self.old.me (tick.on_tick self.old).effects) }
        ensures decided { IfOk result (λ d. d ≡ (tick.on_tick self.old).decided) }
        ensures same { IsSameMember self.old self.new }
    {
        match self.batch_tick(out)? {
            Some(cut) => Ok(Some(cut)),
            None => self.recover(out),
        }
    }
}
