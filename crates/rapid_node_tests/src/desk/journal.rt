// The journal of a desk, and the numbers of its errors.

use crate::desk::founding::{alone, decision, edge_down, founding, step};
use crate::numbered::{process, shared};
use rapid_config::ConfigId;
use rapid_desk::{Desk, DeskError};
use rapid_message::{Body, Message};
use rapid_node::{Event, NodeFault};
use std::alloc::Global;
use std::process::Abort;
use std::sync::Wait;
use std::test::*;

/// Gives this many events that are kept to the desk.
fn keep<R: Wait>(alloc: Global, desk: &mut Desk<&R>, count: usize) -> Result<(), DeskError> {
    for _ in 0..count {
        step(desk, edge_down(alloc)?)?;
    }
    Ok(())
}

/// Gives this many ticks to the desk.
fn tick<R: Wait>(desk: &mut Desk<&R>, count: usize) -> Result<(), DeskError> {
    for _ in 0..count {
        step(desk, Event::Tick)?;
    }
    Ok(())
}

/// Whether the desk refuses the event, since its journal is full.
fn is_full_for<R: Wait>(desk: &mut Desk<&R>, event: Event) -> bool {
    matches!(step(desk, event), Err(DeskError::JournalFull))
}

/// Whether the desk refuses the decision to let in process 2, by which it would install a view, since its
/// journal is full.
fn is_full_for_a_view<R: Wait>(alloc: Global, desk: &mut Desk<&R>) -> Result<bool, Fail> {
    let decided = decision(alloc, founding(alloc)?.id(), 2)?;
    Ok(is_full_for(desk, decided))
}

/// Checks that the desk has a full journal, of which it makes no other either, and the founding view.
fn assert_stays<R: Wait + Abort>(rt: &R, desk: &mut Desk<&R>) {
    assert_eq!(rt; desk.journal_len(), 65_536);
    assert!(rt; matches!(desk.checkpoint(), Err(DeskError::JournalFull)));
    let mut seats = desk.take_seats().expect(rt, "the seats");
    let mut seat = seats.pop().expect(rt, "one seat");
    assert_eq!(rt; seat.stamp().height(), 0);
}

#[test]
fn a_full_journal_refuses_for_good(rt: HostRuntime) -> Result<(), Fail> {
    let mut desk = alone(&rt, rt.alloc(), 1)?;
    keep(rt.alloc(), &mut *desk, 65_536)?;
    assert!(rt; matches!(desk.refuse_edge(), DeskError::JournalFull));
    assert!(rt; is_full_for(&mut *desk, edge_down(rt.alloc())?));
    assert!(rt; is_full_for(&mut *desk, Event::Tick));
    assert!(rt; is_full_for_a_view(rt.alloc(), &mut *desk)?);
    assert_stays(&rt, &mut *desk);
    Ok(())
}

/// An edge for whose event there is no memory is refused, and the desk goes on.
#[test]
fn an_edge_is_refused_for_memory(rt: HostRuntime) -> Result<(), Fail> {
    let mut desk = alone(&rt, rt.alloc(), 1)?;
    keep(rt.alloc(), &mut *desk, 2)?;
    assert!(rt; matches!(desk.refuse_edge(), DeskError::OutOfMemory));
    assert_eq!(rt; desk.journal_len(), 2);
    keep(rt.alloc(), &mut *desk, 1)?;
    assert_eq!(rt; desk.journal_len(), 3);
    Ok(())
}

#[test]
fn successive_ticks_share_a_record(rt: HostRuntime) -> Result<(), Fail> {
    let mut desk = alone(&rt, rt.alloc(), 1)?;
    keep(rt.alloc(), &mut *desk, 65_535)?;
    tick(&mut *desk, 100)?;
    assert!(rt; is_full_for_a_view(rt.alloc(), &mut *desk)?);
    assert!(rt; is_full_for(&mut *desk, Event::Tick));
    assert_stays(&rt, &mut *desk);
    Ok(())
}

/// How many messages the desk sends if it is probed.
fn probe<R: Wait>(alloc: Global, desk: &mut Desk<&R>) -> Result<usize, Fail> {
    let sender = shared(alloc, &process(2))?;
    let message = Message::new(sender, Body::Probe(ConfigId::zero()))?;
    Ok(desk.step(Event::Receive(message))?.len())
}

/// The desk answers each of this many probes.
fn answers_probes<R: Wait + Abort>(
    rt: &R,
    alloc: Global,
    desk: &mut Desk<&R>,
    count: usize,
) -> Result<(), Fail> {
    for _ in 0..count {
        assert!(rt; probe(alloc, desk)? == 1);
    }
    Ok(())
}

#[test]
fn probes_are_not_kept(rt: HostRuntime) -> Result<(), Fail> {
    let mut desk = alone(&rt, rt.alloc(), 1)?;
    answers_probes(&rt, rt.alloc(), &mut *desk, 65_600)
}

#[test]
fn errors_have_their_numbers(rt: HostRuntime) {
    assert!(rt; DeskError::JournalFull.code() == 1);
    assert!(rt; DeskError::OutOfMemory.code() == 2);
    assert!(rt; DeskError::Node(NodeFault::Halted).code() == 3);
    assert!(rt; DeskError::TooManySubscribers.code() == 4);
    assert!(rt; DeskError::BadCapacity.code() == 5);
    assert!(rt; DeskError::Unpublished.code() == 6);
}
