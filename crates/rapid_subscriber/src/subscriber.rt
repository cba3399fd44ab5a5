// Who follows the views of a member.

ghost use Rattle.std.specs.Prelude.{◌≡◌, ◌≤◌, None, Some, IfOk, OnErr, IfErr};
ghost use Rattle.std.specs.Duration.{as_nanos};
ghost use Rattle.std.specs.Option.{option_map};
ghost use Rattle.rapid_desk.specs.Taking.{Told};
ghost use Rattle.rapid_subscriber.specs.Following.{AreChangesSince, Tells, Keeps};
ghost use Rattle.rapid_subscriber.specs.declared.subscriber.Next.TheVariants as next;

use crate::changes::Changes;
use rapid_desk::{Subscription, Taken};
use rapid_signals::Bell;
use rapid_view::View;
use std::alloc::{AllocError, Global};
use std::sync::Wait;
use std::time::{Clock, Duration, Instant};

/// What a subscriber is told.
#[derive(Debug, Drop)]
pub enum Next {
    /// The next view was entered, and these joined and left.
    Change(Changes),
    /// No view was entered in the time.
    Nothing,
    /// A view came that found no room to wait, or no memory. Nothing comes after it: subscribe anew.
    Lagged,
    /// No further view comes.
    Closed,
}

/// Who follows the views of a member: it is woken when one was entered, and told who joined and who
/// left. It has the last view that it was told.
#[derive(Drop)]
pub struct Subscriber<'a, W: Wait> {
    rt: &'a W,
    alloc: Global,
    bell: &'a Bell,
    subscription: Subscription,
    /// The last view that it was told.
    present: Option<View>,
    /// A view that has come, and that it was not told, out of memory.
    come: Option<View>,
}

/// Who joined and who left when a view was entered: all its members joined if none was known before.
fn changes_since(alloc: Global, view: &View, before: &Option<View>) -> Result<Changes, AllocError>
    ensures { IfOk result (AreChangesSince before.now view.now) }
{
    match before {
        Some(before) => Changes::between(alloc, before, view),
        None => Changes::first(alloc, view),
    }
}

/// How much is left of a time that began then; nothing if there is no clock.
fn left<C: Clock>(clock: &C, begun: &Option<Instant>, longest: Duration) -> Duration
    ensures { as_nanos result ≤ as_nanos longest }
{
    let Some(begun) = begun else {
        return Duration::ZERO;
    };
    match begun.elapsed(clock) {
        Ok(spent) => longest.saturating_sub(spent),
        Err(_) => Duration::ZERO,
    }
}

impl<'a, W: Wait> Subscriber<'a, W> {
    /// Of this subscription, with the view that was current when it was made. It is woken by the
    /// bell, which whoever puts views for the subscription rings after each.
    pub fn new(
        rt: &'a W,
        alloc: Global,
        bell: &'a Bell,
        subscription: Subscription,
        present: Option<View>,
    ) -> Subscriber<'a, W>
        ensures subscription { (result.subscription ≡ subscription) × (result.come ≡ None) }
        ensures present { result.present ≡ present }
    {
        Subscriber {
            rt,
            alloc,
            bell,
            subscription,
            present,
            come: None,
        }
    }

    /// The last view that it was told, or that was current when it subscribed; none while the member
    /// joins.
    pub fn view(&self) -> Option<&View>
        ensures { option_map (λ view. view.now) result ≡ self.now.present }
    {
        self.present.as_ref()
    }

    /// Waits for the next view, at most this long, and tells who joined and who left since the view
    /// before. It is woken, and looks no more often than views are entered.
    ///
    /// # Errors
    ///
    /// `AllocError` if there was no memory for the lists: the next call tells that view.
    pub fn next(&mut self, longest: Duration) -> Result<Next, AllocError>
    where
        W: Clock,
        ensures told { IfOk result (λ told. Tells told (record { took = self.old.subscription.taken; present = self.old.present; come = self.old.come }) (record { took = self.new.subscription.taken; present = self.new.present; come = self.new.come })) }
        ensures kept { IfErr result (λ _. Keeps (record { took = self.old.subscription.taken; present = self.old.present; come = self.old.come }) (record { took = self.new.subscription.taken; present = self.new.present; come = self.new.come })) }
        ensures queue { (self.new.subscription.queue ≡ self.old.subscription.queue) × (self.new.subscription.room ≡ self.old.subscription.room) }
    {
        if let Some(view) = self.come.take() {
            return self.tell(view);
        }
        match self.wait(longest) {
            Taken::Change(view) => self.tell(view),
            Taken::Empty => Ok(Next::Nothing),
            Taken::Lagged => Ok(Next::Lagged),
            Taken::Closed => Ok(Next::Closed),
        }
    }

    /// What the subscription has next, once there is something or the time is over.
    fn wait(&mut self, longest: Duration) -> Taken
    where
        W: Clock,
        ensures taken { Told result self.old.subscription.taken self.new.subscription.taken }
        ensures queue { (self.new.subscription.queue ≡ self.old.subscription.queue) × (self.new.subscription.room ≡ self.old.subscription.room) }
        ensures views { (self.new.present ≡ self.old.present) × (self.new.come ≡ self.old.come) }
    {
        let begun = Instant::now(self.rt).ok();
        for _ in self.rt.forever() {
            // read before the look: what is put after it rings again, and the wait ends at once
            let rings = self.bell.rings(self.rt);
            match self.subscription.take(self.rt) {
                Taken::Empty => {}
                taken => return taken,
            }
            let left = left(self.rt, &begun, longest);
            if left.is_zero() {
                return Taken::Empty;
            }
            self.bell.wait(self.rt, rings, left);
        }
        unreachable!()
    }

    /// Tells a view that has come. Without memory for the lists it waits for the next call.
    fn tell(&mut self, view: View) -> Result<Next, AllocError>
        ensures told { IfOk result (λ told. (changes : Changes) × (told ≡ next.Change changes) × AreChangesSince self.old.present view changes) }
        ensures present { IfOk result (λ _. (self.new.present ≡ Some view) × (self.new.come ≡ self.old.come)) }
        ensures kept { OnErr result ((self.new.come ≡ Some view) × (self.new.present ≡ self.old.present)) }
        ensures subscription { self.new.subscription ≡ self.old.subscription }
    {
        match changes_since(self.alloc, &view, &self.present) {
            Ok(changes) => {
                self.present = Some(view);
                Ok(Next::Change(changes))
            }
            Err(error) => {
                self.come = Some(view);
                Err(error)
            }
        }
    }
}
