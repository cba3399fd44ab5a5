// Which work of a member certainly sends nothing.

ghost use Rattle.std.specs.Prelude.{◌≡◌, ◌%◌, ◌==◌, [], true, false};
ghost use Rattle.rapid_model.specs.Node.{Decisions};
ghost use Rattle.rapid_model.specs.Receive as receive;
ghost use Rattle.rapid_model.specs.Reports.{unstable};
ghost use Rattle.rapid_model.specs.Ring.{observers_of};
ghost use Rattle.rapid_model.specs.Tick as tick;
ghost use Rattle.rapid_model.specs.Limits.{resend_period};
ghost use Rattle.rapid_member.specs.Quiet.{SaysNothing};

use super::MemberState;
use super::ticking::RESEND_PERIOD;
use rapid_message::{Body, Message};

impl MemberState {
    /// Whether no repeat is due at the next tick.
    fn repeats_nothing(&self) -> bool
        ensures { result ≡ true → ((tick.clock_moved self.now).tick % resend_period == 0) ≡ false }
    {
        self.tick.saturating_add(1) % RESEND_PERIOD != 0
    }

    /// Whether no ballot is due at the next tick.
    fn begins_nothing(&self) -> bool
        ensures { result ≡ true → tick.is_due (tick.clock_moved self.now) self.now.first_vote ≡ false }
    {
        !self.is_due_at(self.tick.saturating_add(1))
    }

    /// Whether no process is unstable, as far as there is memory to see it.
    fn is_steady(&self) -> bool
        ensures { result ≡ true → unstable (observers_of self.now.config) self.now.detector.direct ≡ [] }
    {
        match self.unstable() {
            Ok(unstable) => unstable.is_empty(),
            Err(_) => false,
        }
    }

    /// Whether the next tick certainly sends nothing and decides nothing. Then no alert waits,
    /// neither a repeat nor a ballot is due, and no process is unstable. False says nothing of it.
    #[tactic(auto, using(crate::proofs::Quiet::tick_says_nothing))]
    pub fn has_quiet_tick(&self) -> bool
        ensures { result ≡ true → SaysNothing (tick.on_tick self.now) }
    {
        !self.rest.raised.waits()
            && self.repeats_nothing()
            && self.begins_nothing()
            && self.is_steady()
    }

    /// Whether the message certainly makes the member send nothing and decide nothing: a fast vote
    /// of its configuration that cannot complete a quorum. False says nothing of it.
    #[tactic(auto, using(crate::proofs::Quiet::message_says_nothing))]
    pub fn is_quiet_at(&self, message: &Message) -> bool
        ensures { result ≡ true → (ds : Decisions) → SaysNothing (receive.receive_as_member ds self.now message.now.sender message.now.body) }
    {
        match message.body() {
            Body::FastVote(id, _) => {
                *id == self.configuration().id() && self.votes.round.needs_two_votes()
            }
            _ => false,
        }
    }
}
