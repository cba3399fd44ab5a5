// A desk out of memory at a decision. What is published stays. A halted node has no view beyond
// what its subscriber and its readers saw, or one more that could not be published.

use crate::desk::{alone, decision, step};
use rapid_desk::{Desk, DeskError, Subscription, Taken};
use rapid_node::{Event, NodeFault, Phase};
use rapid_view::ViewSeat;
use std::alloc::Global;
use std::process::Abort;
use std::sync::Wait;
use std::test::*;

/// How a desk answered a decision.
#[derive(Clone, Copy, Debug, PartialEq, Eq)]
enum Answer {
    Published,
    Refused,
    Halted,
}

/// Gives the decision to let in a process to a desk. Checks that it published the next view, or has
/// changed nothing, or has halted and published nothing.
fn decide<R: Wait + Abort>(
    rt: &R,
    alloc: Global,
    desk: &mut Desk<&R>,
    seat: &mut ViewSeat,
    number: u16,
) -> Result<Answer, Fail> {
    let before = seat.stamp();
    let answer = match step(desk, decision(alloc, before.id(), number)?) {
        Ok(()) => Answer::Published,
        Err(DeskError::OutOfMemory) => Answer::Refused,
        Err(DeskError::Node(NodeFault::OutOfMemory)) | Err(DeskError::Unpublished) =>
            Answer::Halted,
        Err(error) => return Err(Fail::new(format_args!("at {number}: {}", error.code()))),
    };
    let grown = u64::from(answer == Answer::Published);
    assert_eq!(rt; seat.stamp().height(), before.height().wrapping_add(grown));
    assert_eq!(rt; desk.phase() == Phase::Halted, answer == Answer::Halted);
    Ok(answer)
}

/// Lets in process 2, then 3, then 4, each again if the desk was out of memory, until the node halts.
fn let_three_in<R: Wait + Abort>(
    rt: &R,
    alloc: Global,
    desk: &mut Desk<&R>,
    seat: &mut ViewSeat,
) -> Result<(), Fail> {
    for number in [2, 3, 4u16] {
        let mut answer = decide(rt, alloc, desk, seat, number)?;
        if answer == Answer::Refused {
            answer = decide(rt, alloc, desk, seat, number)?;
        }
        if answer == Answer::Halted {
            return Ok(());
        }
        assert!(rt; answer == Answer::Published, "at {number}");
    }
    Ok(())
}

/// Checks that a subscriber with room for two hears the views of this many heights in order. Or
/// after two at the latest it hears that it lagged, and nothing after that.
fn assert_told<R: Wait + Abort>(rt: &R, subscription: &mut Subscription, heights: u64) {
    let mut last = 0u64;
    for height in 1..heights.saturating_add(1) {
        match subscription.take(rt) {
            Taken::Change(view) => {
                assert!(rt; view.stamp().height() == height && height < 3);
                last = height;
            }
            Taken::Lagged => break,
            Taken::Empty | Taken::Closed => assert!(rt; false, "nothing at {height}"),
        }
    }
    let lagged = matches!(subscription.take(rt), Taken::Lagged);
    assert_eq!(rt; lagged, last < heights);
}

/// Checks that a halted desk refuses what comes, and keeps its view.
fn assert_refuses<R: Wait + Abort>(rt: &R, desk: &mut Desk<&R>, seat: &mut ViewSeat) {
    let shown = seat.stamp().height();
    let answer = step(desk, Event::Tick);
    assert!(rt; matches!(answer, Err(DeskError::Node(NodeFault::Halted))));
    assert_eq!(rt; seat.stamp().height(), shown);
}

/// A seat and a subscriber see what is published of three decisions, and no more.
fn all_see<R: Wait + Abort>(
    rt: &R,
    alloc: Global,
    desk: &mut Desk<&R>,
    subscription: &mut Subscription,
    seat: &mut ViewSeat,
) -> Result<(), Fail> {
    let_three_in(rt, alloc, desk, seat)?;
    let published = seat.stamp();
    assert!(rt; published.height() == 3 || desk.phase() == Phase::Halted);
    assert_eq!(rt; seat.members(rt)?.stamp().height(), published.height());
    assert_told(rt, subscription, published.height());
    if desk.phase() == Phase::Halted {
        assert_refuses(rt, desk, seat);
    }
    Ok(())
}

#[test]
fn out_of_memory_leaves_what_is_published(rt: HostRuntime) -> Result<(), Fail> {
    let mut desk = alone(&rt, rt.alloc(), 1)?;
    let mut subscription = desk.subscribe(2)?;
    let mut seats = desk.take_seats().expect(&rt, "the seats");
    let mut seat = seats.pop().expect(&rt, "one seat");
    all_see(&rt, rt.alloc(), &mut *desk, &mut subscription, &mut seat)
}
