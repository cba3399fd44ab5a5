// The desk's side of a subscription.

ghost use Rattle.std.specs.Prelude.{◌≡◌, ◌⊎◌, ℕ, ◌+◌, ◌<◌, ◌≤◌, List, [], ◌∷◌, ◌++◌, IfOk, IfErr, OnOk};
ghost use Rattle.rapid_model.specs.Limits.{most_waiting_views};
ghost use Rattle.rapid_line.specs.Line.{StartsWith};
ghost use Rattle.rapid_desk.specs.Notices.{state_of, with_notice, IsNextFrom, IsLost, MayFollow, Offered, Ended};
ghost use Rattle.rapid_desk.specs.Desks.{with_known};

use crate::notice::{Loss, Notice, State, Successive};
use crate::subscription::Subscription;
use rapid_config::Configuration;
use rapid_line::Sink;
use rapid_view::View;
use std::alloc::{AllocError, Global};
use std::marker::Model;
use std::sync::Wait;

/// The desk's end of a subscription. Once the desk has ended it, `Desk::close` gives it away.
/// Contracts see its queue, how many changes may wait, what was put, and what is known to be taken
/// of that. They also see the height of the view that was published last when it was made.
#[derive(Drop)]
pub struct Outlet {
    pub(crate) sink: Sink<Notice, Successive>,
    capacity: usize,
    state: State,
    since: Option<u64>,
}

impl Model for Outlet {
    ghost use Rattle.std.specs.Prelude.{◌≡◌, ◌+◌};
    ghost use Rattle.rapid_desk.specs.Notices.{Served, state_of};

    ghost Value = { Served };

    ghost view = { λ o. record { queue = o.sink.queue; since = o.since; capacity = o.capacity; put = o.sink.put; known = o.sink.known } };

    ghost invariant = { λ o. (o.state ≡ state_of o.sink.put) × (o.sink.room ≡ o.capacity + 1) };
}

/// A subscription with room for this many changes, from a view of this height on.
pub(crate) fn subscribe(
    alloc: Global,
    capacity: usize,
    since: Option<u64>,
) -> Result<(Outlet, Subscription), AllocError>
    requires { (0 < capacity) × (capacity ≤ most_waiting_views) }
    ensures { IfOk result (λ r. (r.0 ≡ record { queue = r.1.queue; since = since; capacity = capacity; put = []; known = [] }) × (r.1.taken ≡ []) × (r.1.room ≡ capacity + 1)) }
{
    // one more than the changes, for the mark
    let (sink, source) = rapid_line::line(alloc, capacity + 1)?;
    let outlet = Outlet {
        sink,
        capacity,
        state: State::Open,
        since,
    };
    Ok((outlet, Subscription::new(source)))
}

#[tactic(auto, using(crate::proofs::Marks::state_of_now, crate::proofs::Marks::next_in_queue))]
impl Outlet {
    /// Puts a view of the configuration, which is the next. If there is no room or no memory for
    /// it, a mark that says so is put in its place. Behind a mark nothing is put.
    pub(crate) fn offer<R: Wait>(&mut self, rt: &R, alloc: Global, configuration: &Configuration)
        requires { state_of self.old.put ≡ State.Open → IsNextFrom self.old.since self.old.put configuration.now.height }
        ensures { Offered configuration.now self.old self.new }
    {
        if self.state != State::Open {
            return;
        }
        match self.put(rt, alloc, configuration) {
            Ok(()) => {}
            Err(loss) => self.lag(rt, loss),
        }
    }

    /// Puts a view of the configuration, or answers why it is lost.
    fn put<R: Wait>(
        &mut self,
        rt: &R,
        alloc: Global,
        configuration: &Configuration,
    ) -> Result<(), Loss>
        requires open { state_of self.old.put ≡ State.Open }
        requires next { IsNextFrom self.old.since self.old.put configuration.now.height }
        ensures put { OnOk result (self.new ≡ with_notice self.old (Notice.Change configuration.now)) }
        ensures lost { IfErr result (λ loss. (self.new ≡ self.old) × IsLost self.old loss) }
    {
        // the last place is the mark's
        if self.sink.len(rt) >= self.capacity {
            return Err(Loss::Full);
        }
        let Ok(copy) = configuration.try_copy(alloc) else {
            return Err(Loss::Memory);
        };
        let Ok(()) = self.sink.put(rt, Notice::Change(View::new(copy))) else {
            return Err(Loss::Full);
        };
        Ok(())
    }

    /// Puts the mark that a change was lost, and why. The queue has room for one mark beside its
    /// changes.
    fn lag<R: Wait>(&mut self, rt: &R, loss: Loss)
        requires { state_of self.old.put ≡ State.Open }
        ensures { self.new ≡ with_notice self.old (Notice.Lag loss) }
    {
        // it never waits, since that place is free; nothing proves this, so it is put by waiting
        self.sink.put_when_free(rt, Notice::Lag(loss));
        self.state = State::Lagged;
    }

    /// Puts the mark that nothing more comes, if there is no mark yet.
    pub(crate) fn close<R: Wait>(&mut self, rt: &R)
        ensures { Ended self.old self.new }
    {
        if self.state != State::Open {
            return;
        }
        // it never waits: as for the other mark
        self.sink.put_when_free(rt, Notice::End);
        self.state = State::Closed;
    }

    /// What the subscriber has taken is a beginning of what was put for it, in order, each change
    /// once, and is known to be taken from then on. The subscription is that of this end.
    pub fn compare(&mut self, subscription: &mut Subscription)
        requires { self.old.queue ≡ subscription.old.queue }
        ensures known { self.new ≡ with_known subscription.old.taken self.old }
        ensures same { subscription.new ≡ subscription.old }
        ensures order { StartsWith self.old.put subscription.old.taken }
    {
        self.sink.compare(&mut subscription.source);
    }
}
