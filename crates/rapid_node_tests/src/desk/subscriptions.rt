// What subscribers hear.

use crate::desk::founding::{
    after, alone, decide, decision, edge_down, founding, let_three_in, step,
};
use rapid_desk::{Desk, DeskError, Subscription, Taken};
use std::alloc::Global;
use std::process::Abort;
use std::sync::Wait;
use std::test::*;

/// What a subscriber heard: a change to this height, or why there is none.
#[derive(Clone, Copy, Debug, PartialEq, Eq)]
enum Told {
    Change(u64),
    Lagged,
    Empty,
    Closed,
}

/// What the subscriber hears next.
fn next<R: Wait>(rt: &R, subscription: &mut Subscription) -> Told {
    match subscription.take(rt) {
        Taken::Change(view) => Told::Change(view.configuration().height()),
        Taken::Lagged => Told::Lagged,
        Taken::Empty => Told::Empty,
        Taken::Closed => Told::Closed,
    }
}

/// Whether the subscriber hears all this, in order.
fn is_told<R: Wait>(rt: &R, subscription: &mut Subscription, all: &[Told]) -> bool {
    for told in all {
        if next(rt, subscription) != *told {
            return false;
        }
    }
    true
}

/// After three changes the subscriber, which has room for two, lags, also after the end.
fn lags<R: Wait + Abort>(
    rt: &R,
    alloc: Global,
    desk: &mut Desk<&R>,
    subscription: &mut Subscription,
) -> Result<(), Fail> {
    let_three_in(alloc, desk)?;
    let told = [Told::Change(1), Told::Change(2), Told::Lagged, Told::Lagged];
    assert!(rt; is_told(rt, subscription, &told));
    desk.close();
    assert!(rt; next(rt, subscription) == Told::Lagged);
    Ok(())
}

#[test]
fn a_subscriber_lags_after_its_capacity(rt: HostRuntime) -> Result<(), Fail> {
    let mut desk = alone(&rt, rt.alloc(), 1)?;
    let mut subscription = desk.subscribe(2)?;
    lags(&rt, rt.alloc(), &mut *desk, &mut subscription)
}

/// The subscriber, which has room for one, takes each of three changes before the next comes.
fn keeps_up<R: Wait + Abort>(
    rt: &R,
    alloc: Global,
    desk: &mut Desk<&R>,
    subscription: &mut Subscription,
) -> Result<(), Fail> {
    let mut configuration = founding(alloc)?;
    for number in 2..5u16 {
        decide(alloc, desk, configuration.id(), number)?;
        configuration = after(alloc, &configuration, number)?;
        let told = Told::Change(configuration.height());
        assert!(rt; next(rt, subscription) == told, "at {number}");
    }
    assert!(rt; next(rt, subscription) == Told::Empty);
    Ok(())
}

#[test]
fn a_subscriber_that_takes_each_change_does_not_lag(rt: HostRuntime) -> Result<(), Fail> {
    let mut desk = alone(&rt, rt.alloc(), 1)?;
    let mut subscription = desk.subscribe(1)?;
    keeps_up(&rt, rt.alloc(), &mut *desk, &mut subscription)
}

/// Gives the decision to let in process 2 to the desk of process 1 alone.
fn let_one_in<R: Wait>(alloc: Global, desk: &mut Desk<&R>) -> Result<(), Fail> {
    let first = founding(alloc)?;
    decide(alloc, desk, first.id(), 2)
}

/// The subscriber hears nothing before a change, then the change and the end.
fn takes_all<R: Wait + Abort>(
    rt: &R,
    alloc: Global,
    desk: &mut Desk<&R>,
    subscription: &mut Subscription,
) -> Result<(), Fail> {
    assert!(rt; next(rt, subscription) == Told::Empty);
    step(desk, edge_down(alloc)?)?;
    assert!(rt; next(rt, subscription) == Told::Empty);
    let_one_in(alloc, desk)?;
    desk.close();
    let told = [Told::Change(1), Told::Closed, Told::Closed];
    assert!(rt; is_told(rt, subscription, &told));
    Ok(())
}

#[test]
fn a_subscriber_takes_what_is_there_and_then_the_end(rt: HostRuntime) -> Result<(), Fail> {
    let mut desk = alone(&rt, rt.alloc(), 1)?;
    let mut subscription = desk.subscribe(1)?;
    takes_all(&rt, rt.alloc(), &mut *desk, &mut subscription)
}

/// The only subscription of the desk hears a change and the end, and all of it is what was put for
/// it: the desk's end of it, which the desk gives away, says so.
fn takes_what_was_put<R: Wait + Abort>(
    rt: &R,
    alloc: Global,
    desk: &mut Desk<&R>,
) -> Result<(), Fail> {
    assert!(rt; desk.close().is_empty());
    let mut subscription = desk.subscribe(1)?;
    let next = decision(alloc, founding(alloc)?.id(), 2)?;
    desk.step(next)?;
    let mut ends = desk.close();
    let mut end = ends.pop().expect(rt, "one end");
    assert!(rt; ends.is_empty());
    assert!(rt; matches!(subscription.take(rt), Taken::Change(_)));
    assert!(rt; matches!(subscription.take(rt), Taken::Closed));
    end.compare(&mut subscription);
    Ok(())
}

#[test]
fn what_is_taken_after_the_end_was_put(rt: HostRuntime) -> Result<(), Fail> {
    let mut desk = alone(&rt, rt.alloc(), 1)?;
    takes_what_was_put(&rt, rt.alloc(), &mut *desk)
}

/// The only subscription of the desk takes all that the desk's end of it tells it of.
fn takes_what_it_is_told_of<R: Wait + Abort>(
    rt: &R,
    alloc: Global,
    desk: &mut Desk<&R>,
) -> Result<(), Fail> {
    assert!(rt; desk.close().is_empty());
    let mut subscription = desk.subscribe(1)?;
    let next = decision(alloc, founding(alloc)?.id(), 2)?;
    desk.step(next)?;
    let mut ends = desk.close();
    let mut end = ends.pop().expect(rt, "one end");
    assert!(rt; ends.is_empty());
    subscription.compare(&mut end);
    assert!(rt; matches!(subscription.take(rt), Taken::Change(_)));
    assert!(rt; matches!(subscription.take(rt), Taken::Closed));
    Ok(())
}

#[test]
fn a_subscription_takes_what_it_is_told_of(rt: HostRuntime) -> Result<(), Fail> {
    let mut desk = alone(&rt, rt.alloc(), 1)?;
    takes_what_it_is_told_of(&rt, rt.alloc(), &mut *desk)
}

/// Makes a subscription of this capacity, and drops it.
fn subscribe<R: Wait>(desk: &mut Desk<&R>, capacity: usize) -> Result<(), DeskError> {
    desk.subscribe(capacity)?;
    Ok(())
}

/// Whether the desk refuses a subscription of this capacity for its capacity.
fn is_bad<R: Wait>(desk: &mut Desk<&R>, capacity: usize) -> bool {
    matches!(subscribe(desk, capacity), Err(DeskError::BadCapacity))
}

/// Makes this many subscriptions of capacity 1.
fn subscribe_often<R: Wait>(desk: &mut Desk<&R>, count: usize) -> Result<(), DeskError> {
    for _ in 0..count {
        subscribe(desk, 1)?;
    }
    Ok(())
}

/// The desk serves 64 subscribers, and others when these have ended.
fn serves_64<R: Wait + Abort>(rt: &R, desk: &mut Desk<&R>) -> Result<(), Fail> {
    assert!(rt; is_bad(desk, 0));
    assert!(rt; is_bad(desk, 1_025));
    subscribe_often(desk, 64)?;
    assert!(rt; is_bad(desk, 0));
    assert!(rt; matches!(subscribe(desk, 1_024), Err(DeskError::TooManySubscribers)));
    desk.close();
    subscribe(desk, 1_024)?;
    Ok(())
}

#[test]
fn a_desk_serves_64_subscriptions(rt: HostRuntime) -> Result<(), Fail> {
    let mut desk = alone(&rt, rt.alloc(), 1)?;
    serves_64(&rt, &mut *desk)
}
