// A desk: each call says by its error that memory ran out, and leaves what it says.

ghost use Rattle.std.specs.Prelude.{◌≤◌, ◌<◌};

use crate::numbered::{cut, process, shared};
use rapid_config::{ConfigId, Configuration, Params};
use rapid_desk::{Desk, DeskError, Subscription, Taken};
use rapid_endpoint::Endpoint;
use rapid_message::{Body, Message};
use rapid_node::{Event, NodeFault};
use rapid_view::ViewSeat;
use std::alloc::{AllocError, Global};
use std::process::Abort;
use std::sync::Wait;
use std::test::*;

/// The founding configuration of process 1 alone.
fn founding(alloc: Global) -> Result<Configuration, Fail> {
    let params = Params::new(3, 3, 1)?;
    Ok(Configuration::seed(alloc, params, &[process(1)])?)
}

/// The configuration after a cut of the process with this number.
fn after(alloc: Global, configuration: &Configuration, number: u16) -> Result<Configuration, Fail> {
    Ok(configuration.apply(alloc, &cut(alloc, number)?)?)
}

/// Process 2 says that in the configuration with this identifier the cut of this process was
/// decided.
pub(crate) fn decision(alloc: Global, id: ConfigId, number: u16) -> Result<Event, Fail> {
    let sender = shared(alloc, &process(2))?;
    let message = Message::new(sender, Body::Decision(id, cut(alloc, number)?))?;
    Ok(Event::Receive(message))
}

/// Process 1 confirms that the configuration was installed.
fn confirmation(alloc: Global, configuration: Configuration) -> Result<Event, Fail> {
    let sender = shared(alloc, &process(1))?;
    let message = Message::new(sender, Body::Confirm(configuration))?;
    Ok(Event::Receive(message))
}

/// The desk of process 1 alone, with this many seats. If its first view was not published, memory
/// had run out.
pub(crate) fn alone<R: Wait + Abort>(
    rt: &R,
    alloc: Global,
    seats: usize,
) -> Result<Box<Desk<&R>>, Fail>
    requires { (0 < seats) × (seats ≤ 64) }
{
    let configuration = founding(alloc)?;
    let me = process(1);
    assert!(rt; configuration.is_member(&me));
    match Desk::seed(rt, alloc, &configuration, me, seats) {
        Err(DeskError::Unpublished) => Err(AllocError)?,
        made => Ok(Box::new(alloc, made?)?),
    }
}

/// One event at the desk. What is to be sent after it is dropped.
pub(crate) fn step<R: Wait>(desk: &mut Desk<&R>, event: Event) -> Result<(), DeskError> {
    desk.step(event)?;
    Ok(())
}

/// Gives an event to the desk. A desk that was out of memory takes the event again. If the node
/// halted in the step, or its view was not published, the node has halted.
pub(crate) fn hand_over<R: Wait + Abort>(
    rt: &R,
    desk: &mut Desk<&R>,
    event: Event,
    again: Event,
) -> Result<(), Fail> {
    match step(desk, event) {
        Ok(()) => Ok(()),
        Err(DeskError::OutOfMemory) => {
            step(desk, again)?;
            Ok(())
        }
        Err(error) => {
            assert!(rt;
                matches!(
                    error,
                    DeskError::Node(NodeFault::OutOfMemory) | DeskError::Unpublished
                )
            );
            let halted = step(desk, again);
            assert!(rt; matches!(halted, Err(DeskError::Node(NodeFault::Halted))));
            Err(AllocError)?
        }
    }
}

/// Whether the subscriber is told the heights from 1 on, each once, and at the latest after two
/// that it lagged.
fn is_told_in_order<R: Wait>(rt: &R, subscription: &mut Subscription) -> bool {
    let mut last = 0u64;
    for _ in 0..3 {
        match subscription.take(rt) {
            Taken::Change(view) => {
                let height = view.stamp().height();
                if height != last.wrapping_add(1) {
                    return false;
                }
                last = height;
            }
            Taken::Lagged => return true,
            Taken::Empty | Taken::Closed => return false,
        }
    }
    false
}

/// Gives the decisions to let in three guests to the desk, whose seat sees each published view.
fn let_three_in<R: Wait + Abort>(
    rt: &R,
    alloc: Global,
    desk: &mut Desk<&R>,
    seat: &mut ViewSeat,
) -> Result<(), Fail> {
    for (number, height) in [(2u16, 1u64), (3, 2), (4, 3)] {
        let id = seat.stamp().id();
        hand_over(
            rt,
            desk,
            decision(alloc, id, number)?,
            decision(alloc, id, number)?,
        )?;
        assert_eq!(rt; seat.stamp().height(), height, "at {number}");
    }
    Ok(())
}

/// The seat and the subscriber see the three guests come in.
fn all_see_three<R: Wait + Abort>(
    rt: &R,
    alloc: Global,
    desk: &mut Desk<&R>,
    subscription: &mut Subscription,
    seat: &mut ViewSeat,
) -> Result<(), Fail> {
    let_three_in(rt, alloc, desk, seat)?;
    assert!(rt; is_told_in_order(rt, subscription));
    assert!(rt; seat.members(rt)?.stamp().height() == 3);
    Ok(())
}

#[test]
fn out_of_memory_at_decisions(rt: HostRuntime) -> Result<(), Fail> {
    let mut desk = alone(&rt, rt.alloc(), 1)?;
    let mut subscription = desk.subscribe(2)?;
    let mut seats = desk.take_seats().expect(&rt, "the seats");
    let mut seat = seats.pop().expect(&rt, "one seat");
    all_see_three(&rt, rt.alloc(), &mut *desk, &mut subscription, &mut seat)
}

/// The joiner has seats once it is let in.
fn has_seats_once_in<R: Wait + Abort>(
    rt: &R,
    alloc: Global,
    desk: &mut Desk<&R>,
) -> Result<(), Fail> {
    let configuration = after(alloc, &founding(alloc)?, 2)?;
    let copy = configuration.try_copy(alloc)?;
    hand_over(
        rt,
        desk,
        confirmation(alloc, configuration)?,
        confirmation(alloc, copy)?,
    )?;
    assert!(rt; desk.take_seats().is_some());
    Ok(())
}

#[test]
fn out_of_memory_at_a_first_view(rt: HostRuntime) -> Result<(), Fail> {
    let seed = Endpoint::new([127, 0, 0, 1], 1);
    let desk = Desk::joiner(&rt, rt.alloc(), process(2), seed, 1)?;
    let mut desk = Box::new(rt.alloc(), desk)?;
    has_seats_once_in(&rt, rt.alloc(), &mut *desk)
}
