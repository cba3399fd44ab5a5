// The subscriber's side.

ghost use Rattle.std.specs.Prelude.{◌≡◌, ◌⊎◌, ℕ, ◌+◌, List, [], ◌∷◌, ◌++◌};
ghost use Rattle.rapid_line.specs.Line.{StartsWith};
ghost use Rattle.rapid_desk.specs.Notices.{state_of, IsNext, MayFollow};
ghost use Rattle.rapid_desk.specs.Taking.{Told};
ghost use Rattle.rapid_desk.specs.declared.subscription.Taken.TheVariants.{Empty};

use crate::Outlet;
use crate::notice::{Notice, State, Successive};
use rapid_line::Source;
use rapid_view::View;
use std::marker::Model;
use std::sync::Wait;

/// What a subscriber is told.
#[derive(Drop)]
pub enum Taken {
    /// The next view that the desk's node installed.
    Change(View),
    /// A view came that found no room in the queue, or no memory. Nothing comes after it.
    Lagged,
    /// All that was put is taken, and more can come.
    Empty,
    /// The desk has ended the subscription, and all that was put before is taken.
    Closed,
}

/// The subscriber's end of a subscription. Contracts see its queue, what was taken from it, what is
/// known to be put in it, and for how many notices it has room: the changes that may wait, and one
/// mark.
#[derive(Drop)]
pub struct Subscription {
    pub(crate) source: Source<Notice, Successive>,
    state: State,
}

impl Model for Subscription {
    ghost use Rattle.std.specs.Prelude.{◌≡◌};
    ghost use Rattle.rapid_line.specs.Ends.{SourceState};
    ghost use Rattle.rapid_desk.specs.declared.notice.Notice.{Notice};
    ghost use Rattle.rapid_desk.specs.Notices.{state_of};

    ghost Value = { SourceState Notice };

    ghost view = { λ s. s.source };

    ghost invariant = { λ s. s.state ≡ state_of s.source.taken };
}

#[tactic(auto, using(crate::proofs::Marks::state_of_now))]
impl Subscription {
    pub(crate) fn new(source: Source<Notice, Successive>) -> Subscription
        requires { source.taken ≡ [] }
        ensures { (result.queue ≡ source.queue) × (result.taken ≡ []) × (result.room ≡ source.room) }
    {
        Subscription {
            source,
            state: State::Open,
        }
    }

    /// The next change, or why there is none. `Empty` comes only if all that is known to be put was
    /// taken before.
    pub fn take<R: Wait>(&mut self, rt: &R) -> Taken
        ensures queue { (self.new.queue ≡ self.old.queue) × (self.new.room ≡ self.old.room) }
        ensures known { self.new.known ≡ self.old.known }
        ensures taken { Told result self.old.taken self.new.taken }
        ensures none { result ≡ Empty → StartsWith self.old.taken self.old.known }
    {
        match self.state {
            State::Lagged => Taken::Lagged,
            State::Closed => Taken::Closed,
            State::Open => self.next(rt),
        }
    }

    /// What the queue has next.
    fn next<R: Wait>(&mut self, rt: &R) -> Taken
        requires { state_of self.old.taken ≡ State.Open }
        ensures queue { (self.new.queue ≡ self.old.queue) × (self.new.room ≡ self.old.room) }
        ensures known { self.new.known ≡ self.old.known }
        ensures taken { Told result self.old.taken self.new.taken }
        ensures none { result ≡ Empty → StartsWith self.old.taken self.old.known }
    {
        match self.source.take(rt) {
            None => Taken::Empty,
            Some(Notice::Change(view)) => Taken::Change(view),
            Some(Notice::Lag(_)) => {
                self.state = State::Lagged;
                Taken::Lagged
            }
            Some(Notice::End) => {
                self.state = State::Closed;
                Taken::Closed
            }
        }
    }

    /// What the desk has put for this subscription is known to be put from then on. The outlet is
    /// the desk's end of it.
    pub fn compare(&mut self, outlet: &mut Outlet)
        requires { self.old.queue ≡ outlet.old.queue }
        ensures known { self.new ≡ record self.old { known = outlet.old.put } }
        ensures same { outlet.new ≡ outlet.old }
    {
        self.source.compare(&mut outlet.sink);
    }
}
