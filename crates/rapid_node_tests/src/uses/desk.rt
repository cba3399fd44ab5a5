use anyhow::{Result, bail};
use rapid_config::{Configuration, Params};
use rapid_desk::{Desk, Subscription, Taken};
use rapid_endpoint::Process;
use rapid_message::Outputs;
use rapid_node::Event;
use rapid_view::{View, ViewSeat};
use std::alloc::Global;
use std::sync::{Mutex, Wait};

/// The desk of a process that founds a cluster alone, with one seat at its published view.
pub fn found<R: Wait + Copy + Drop>(rt: R, alloc: Global, me: Process) -> Result<Box<Desk<R>>> {
    let founding = Configuration::seed(alloc, Params::new(10, 9, 3)?, &[me])?;
    if !founding.is_member(&me) {
        bail!("a founder is a member");
    }
    let desk = Desk::seed(rt, alloc, &founding, me, 1)?;
    Ok(Box::new(alloc, desk)?)
}

/// Gives an event to the desk that threads share: what is to be sent after it, in order.
pub fn hand<R: Wait + Copy + Drop>(
    rt: &impl Wait,
    desk: &Mutex<Box<Desk<R>>>,
    event: Event,
) -> Result<Outputs> {
    Ok(desk.lock(rt).step(event)?)
}

/// The next view for a subscriber: the next change, or the last view if it missed some.
pub fn next_view(
    rt: &impl Wait,
    subscription: &mut Subscription,
    seat: &mut ViewSeat,
) -> Result<Option<View>> {
    match subscription.take(rt) {
        Taken::Change(view) => Ok(Some(view)),
        Taken::Lagged => Ok(Some(seat.members(rt)?)),
        Taken::Empty | Taken::Closed => Ok(None),
    }
}
