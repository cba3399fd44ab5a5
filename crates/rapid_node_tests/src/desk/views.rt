// What a desk publishes.

ghost use Rattle.std.specs.Prelude.{◌≡◌, Some};

use crate::desk::founding::{after, alone, confirmation, decision, founding, let_three_in, step};
use crate::numbered::process;
use rapid_config::{Configuration, Stamp};
use rapid_desk::Desk;
use rapid_endpoint::Endpoint;
use rapid_node::Event;
use rapid_view::{View, ViewSeat};
use std::alloc::Global;
use std::process::Abort;
use std::sync::Wait;
use std::test::*;

/// Whether the view has this stamp and is of this configuration.
fn is_of(view: &View, stamp: &Stamp, configuration: &Configuration) -> bool {
    view.stamp().id() == stamp.id() && view.configuration().members() == configuration.members()
}

/// Whether the seat finds the view of this stamp and of this configuration.
fn finds<R: Wait>(
    rt: &R,
    seat: &mut ViewSeat,
    stamp: &Stamp,
    configuration: &Configuration,
) -> Result<bool, Fail> {
    let found = seat.members(rt)?;
    Ok(is_of(&found, stamp, configuration))
}

/// The seat, which is not notified, sees each of three views that the desk publishes.
fn sees_three<R: Wait + Abort>(
    rt: &R,
    alloc: Global,
    desk: &mut Desk<&R>,
    seat: &mut ViewSeat,
) -> Result<(), Fail> {
    let last = let_three_in(alloc, desk)?;
    let stamp = seat.stamp();
    assert_eq!(rt; (stamp.height(), stamp.members()), (3, 4));
    assert!(rt; finds(rt, seat, &stamp, &last)?);
    Ok(())
}

#[test]
fn an_untold_seat_sees_what_was_decided(rt: HostRuntime) -> Result<(), Fail> {
    let mut desk = alone(&rt, rt.alloc(), 1)?;
    let mut seats = desk.take_seats().expect(&rt, "the seats");
    let mut seat = seats.pop().expect(&rt, "one seat");
    let stamp = seat.stamp();
    assert_eq!(rt; (stamp.height(), stamp.members()), (0, 1));
    sees_three(&rt, rt.alloc(), &mut *desk, &mut seat)
}

/// What the seat has seen is a beginning of what the desk has published, before and after a view
/// more.
fn sees_what_is_published<R: Wait + Abort>(
    rt: &R,
    alloc: Global,
    desk: &mut Desk<&R>,
    seat: &mut ViewSeat,
) -> Result<(), Fail>
    requires { desk.old.cell ≡ Some seat.old.cell }
{
    desk.compare_seat(seat);
    let next = decision(alloc, founding(alloc)?.id(), 2)?;
    desk.step(next)?;
    assert_eq!(rt; seat.stamp().height(), 1);
    desk.compare_seat(seat);
    Ok(())
}

#[test]
fn a_seat_sees_what_its_desk_publishes(rt: HostRuntime) -> Result<(), Fail> {
    let mut desk = alone(&rt, rt.alloc(), 1)?;
    let mut seats = desk.take_seats().expect(&rt, "the seats");
    let mut seat = seats.pop().expect(&rt, "one seat");
    sees_what_is_published(&rt, rt.alloc(), &mut *desk, &mut seat)
}

#[test]
fn seats_are_taken_once(rt: HostRuntime) -> Result<(), Fail> {
    let mut desk = alone(&rt, rt.alloc(), 2)?;
    let seats = desk.take_seats().expect(&rt, "the seats");
    assert!(rt; seats.len() == 2);
    assert!(rt; desk.take_seats().is_none());
    Ok(())
}

/// The joiner, which asked once, has no seats before it is let in. Then they see what it is let
/// into.
fn is_let_in<R: Wait + Abort>(rt: &R, alloc: Global, desk: &mut Desk<&R>) -> Result<(), Fail> {
    assert!(rt; desk.step(Event::Tick)?.len() == 1);
    assert!(rt; desk.take_seats().is_none());
    confirm(alloc, desk)?;
    let mut seats = desk.take_seats().expect(rt, "the seats");
    let mut seat = seats.pop().expect(rt, "one seat");
    sees_two(rt, &mut seat)
}

/// Process 1 confirms to the desk that it is let in.
fn confirm<R: Wait>(alloc: Global, desk: &mut Desk<&R>) -> Result<(), Fail> {
    let event = confirmation(alloc, after(alloc, &founding(alloc)?, 2)?)?;
    step(desk, event)?;
    Ok(())
}

/// The seat sees the first view of two members.
fn sees_two<R: Wait + Abort>(rt: &R, seat: &mut ViewSeat) -> Result<(), Fail> {
    assert!(rt; seat.stamp().height() == 1);
    assert!(rt; seat.members(rt)?.stamp().members() == 2);
    Ok(())
}

#[test]
fn a_joiner_publishes_what_it_is_let_into(rt: HostRuntime) -> Result<(), Fail> {
    let seed = Endpoint::new([127, 0, 0, 1], 1);
    let desk = Desk::joiner(&rt, rt.alloc(), process(2), seed, 1)?;
    let mut desk = Box::new(rt.alloc(), desk)?;
    is_let_in(&rt, rt.alloc(), &mut *desk)
}
