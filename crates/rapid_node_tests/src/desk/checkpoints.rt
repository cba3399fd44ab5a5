// Checkpoints of a desk: its journal begins anew at the node as it is.

use crate::desk::founding::{alone, decide, edge_down, founding, step};
use rapid_desk::{Desk, DeskError, Subscription, Taken};
use rapid_node::Event;
use rapid_view::ViewSeat;
use std::alloc::Global;
use std::process::Abort;
use std::sync::Wait;
use std::test::*;

/// Gives this many events that are kept to the desk.
fn keep<R: Wait>(alloc: Global, desk: &mut Desk<&R>, count: usize) -> Result<(), DeskError> {
    for _ in 0..count {
        step(desk, edge_down(alloc)?)?;
    }
    Ok(())
}

/// The journal has what came since the checkpoint.
fn begins_anew<R: Wait + Abort>(rt: &R, alloc: Global, desk: &mut Desk<&R>) -> Result<(), Fail> {
    keep(alloc, desk, 10)?;
    assert_eq!(rt; desk.journal_len(), 10);
    desk.checkpoint()?;
    assert_eq!(rt; desk.journal_len(), 0);
    step(desk, Event::Tick)?;
    step(desk, Event::Tick)?;
    keep(alloc, desk, 2)?;
    assert_eq!(rt; desk.journal_len(), 3);
    Ok(())
}

/// The height of the change that the subscriber hears, if it hears one.
fn change<R: Wait>(rt: &R, subscription: &mut Subscription) -> Option<u64> {
    match subscription.take(rt) {
        Taken::Change(view) => Some(view.stamp().height()),
        Taken::Lagged | Taken::Empty | Taken::Closed => None,
    }
}

/// After a checkpoint the desk has the same view, and goes on as before it.
fn goes_on<R: Wait + Abort>(
    rt: &R,
    alloc: Global,
    desk: &mut Desk<&R>,
    seat: &mut ViewSeat,
) -> Result<(), Fail> {
    let mut subscription = desk.subscribe(2)?;
    begins_anew(rt, alloc, desk)?;
    assert_eq!(rt; seat.stamp().height(), 0);
    assert!(rt; matches!(subscription.take(rt), Taken::Empty));
    decide(alloc, desk, founding(alloc)?.id(), 2)?;
    assert_eq!(rt; desk.journal_len(), 0);
    assert_eq!(rt; seat.stamp().height(), 1);
    assert!(rt; change(rt, &mut subscription) == Some(1));
    assert!(rt; matches!(subscription.take(rt), Taken::Empty));
    Ok(())
}

#[test]
fn a_desk_goes_on_after_a_checkpoint(rt: HostRuntime) -> Result<(), Fail> {
    let mut desk = alone(&rt, rt.alloc(), 1)?;
    let mut seats = desk.take_seats().expect(&rt, "the seats");
    let mut seat = seats.pop().expect(&rt, "one seat");
    goes_on(&rt, rt.alloc(), &mut *desk, &mut seat)
}

/// Gives this many events to the desk, with a checkpoint each time that the journal has this many
/// records.
fn keep_with_checkpoints<R: Wait>(
    alloc: Global,
    desk: &mut Desk<&R>,
    count: usize,
    records: usize,
) -> Result<(), DeskError> {
    for _ in 0..count {
        if desk.journal_len() >= records {
            desk.checkpoint()?;
        }
        step(desk, edge_down(alloc)?)?;
    }
    Ok(())
}

// That a journal which is begun anew in time is never full is a clause. Here there are fewer events
// than a journal has room for, so that the test is quick.
#[test]
fn checkpoints_keep_a_journal_short(rt: HostRuntime) -> Result<(), Fail> {
    let mut desk = alone(&rt, rt.alloc(), 1)?;
    keep_with_checkpoints(rt.alloc(), &mut *desk, 2_050, 1_000)?;
    assert_eq!(rt; desk.journal_len(), 50);
    Ok(())
}

/// A checkpoint that finds no memory leaves the journal, and the next one succeeds.
fn is_made_at_last<R: Wait + Abort>(
    rt: &R,
    alloc: Global,
    desk: &mut Desk<&R>,
) -> Result<(), Fail> {
    keep(alloc, desk, 3)?;
    if let Err(error) = desk.checkpoint() {
        assert!(rt; matches!(error, DeskError::OutOfMemory));
        assert_eq!(rt; desk.journal_len(), 3);
        desk.checkpoint()?;
    }
    assert_eq!(rt; desk.journal_len(), 0);
    Ok(())
}

#[test]
fn out_of_memory_at_a_checkpoint(rt: HostRuntime) -> Result<(), Fail> {
    let mut desk = alone(&rt, rt.alloc(), 1)?;
    is_made_at_last(&rt, rt.alloc(), &mut *desk)
}
