// A desk out of memory as its member leaves: the event is refused and changes nothing, or the node halts
// and what is published stays.

use crate::desk::{alone, decision, hand_over};
use rapid_desk::{Desk, DeskError};
use rapid_node::{Event, NodeFault, Phase};
use rapid_view::ViewSeat;
use std::alloc::Global;
use std::process::Abort;
use std::sync::Wait;
use std::test::*;

/// How many messages the desk sends as its member leaves.
fn leave<R: Wait>(desk: &mut Desk<&R>) -> Result<usize, DeskError> {
    Ok(desk.step(Event::Leave)?.len())
}

/// The same, asked for once more if the desk was out of memory, which keeps its journal and its phase.
fn leave_at_last<R: Wait + Abort>(rt: &R, desk: &mut Desk<&R>) -> Result<usize, DeskError> {
    let records = desk.journal_len();
    match leave(desk) {
        Err(DeskError::OutOfMemory) => {
            assert_eq!(rt; desk.journal_len(), records);
            assert!(rt; desk.phase() == Phase::Member);
            leave(desk)
        }
        answer => answer,
    }
}

/// Checks that the member tells its observer so on each of three rings and stays, or has halted.
fn assert_leaves<R: Wait + Abort>(rt: &R, desk: &mut Desk<&R>, seat: &mut ViewSeat) {
    let published = seat.stamp().height();
    match leave_at_last(rt, desk) {
        Ok(told) => {
            assert_eq!(rt; told, 3);
            assert_eq!(rt; desk.journal_len(), 1);
            assert!(rt; desk.phase() == Phase::Member);
        }
        Err(error) => {
            assert!(rt; matches!(error, DeskError::Node(NodeFault::OutOfMemory)));
            assert!(rt; desk.phase() == Phase::Halted);
        }
    }
    assert_eq!(rt; seat.stamp().height(), published);
}

/// Process 2 is let in, so that process 1 has an observer, and then process 1 leaves.
fn lets_in_and_leaves<R: Wait + Abort>(
    rt: &R,
    alloc: Global,
    desk: &mut Desk<&R>,
    seat: &mut ViewSeat,
) -> Result<(), Fail> {
    let founding = seat.stamp().id();
    hand_over(
        rt,
        desk,
        decision(alloc, founding, 2)?,
        decision(alloc, founding, 2)?,
    )?;
    assert_leaves(rt, desk, seat);
    Ok(())
}

#[test]
fn out_of_memory_as_the_member_leaves(rt: HostRuntime) -> Result<(), Fail> {
    let mut desk = alone(&rt, rt.alloc(), 1)?;
    let mut seats = desk.take_seats().expect(&rt, "the seats");
    let mut seat = seats.pop().expect(&rt, "one seat");
    lets_in_and_leaves(&rt, rt.alloc(), &mut *desk, &mut seat)
}
