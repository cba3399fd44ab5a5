use crate::uses::desk::{found, hand, next_view};
use crate::uses::detector::{process, removed};
use crate::uses::fast_round::decided;
use crate::uses::frames::over_a_stream;
use crate::uses::world::joins;
use rapid_config::{ConfigId, Cut};
use rapid_desk::{Desk, Subscription};
use rapid_endpoint::SharedProcess;
use rapid_message::{Body, Message};
use rapid_node::Event;
use rapid_view::ViewSeat;
use std::alloc::Global;
use std::process::Abort;
use std::sync::{Mutex, Wait};
use std::test::*;

#[test]
fn the_detector_alone(rt: HostRuntime) -> Result<(), Fail> {
    let removed = removed(rt.alloc())?;
    assert!(&rt; removed.as_slice() == [process(9)].as_slice());
    Ok(())
}

#[test]
fn a_world_alone(rt: HostRuntime) -> Result<(), Fail> {
    let height = joins(rt.alloc(), process(1), process(2), 4)?;
    assert!(&rt; height == Some(1));
    Ok(())
}

/// Puts the wish of a process to join to these messages.
fn wish(alloc: Global, said: &mut Vec<Message>, number: u8) -> Result<(), Fail> {
    let sender = SharedProcess::new(alloc, &process(number))?;
    said.push(Message::new(sender, Body::PreJoin)?)?;
    Ok(())
}

/// The wishes of two processes to join.
fn wishes(alloc: Global, said: &mut Vec<Message>) -> Result<(), Fail> {
    wish(alloc, said, 1)?;
    wish(alloc, said, 2)
}

/// How many messages come over a stream to which these are written.
fn come(alloc: Global, said: &[Message]) -> Result<usize, Fail> {
    Ok(over_a_stream(alloc, said)?.len())
}

#[test]
fn frames_alone(rt: HostRuntime) -> Result<(), Fail> {
    let mut said = Vec::new(rt.alloc());
    wishes(rt.alloc(), &mut said)?;
    assert!(&rt; come(rt.alloc(), said.as_slice())? == 2);
    Ok(())
}

/// Puts the vote of a member for the cut of process 9 to the others.
fn vote(alloc: Global, votes: &mut Vec<(usize, Cut)>, position: usize) -> Result<(), Fail> {
    let cut = Cut::new(Vec::from_array(alloc, [process(9)])?)?;
    votes.push((position, cut))?;
    Ok(())
}

/// The votes of four members.
fn vote_all(alloc: Global, votes: &mut Vec<(usize, Cut)>) -> Result<(), Fail> {
    for position in 0..4 {
        vote(alloc, votes, position)?;
    }
    Ok(())
}

/// Checks that these votes decide among five members, and not among six.
fn assert_decided(rt: &impl Abort, alloc: Global, votes: &[(usize, Cut)]) -> Result<(), Fail> {
    assert!(rt; decided(alloc, 5, votes)?.is_some());
    assert!(rt; decided(alloc, 6, votes)?.is_none());
    Ok(())
}

#[test]
fn a_fast_round_alone(rt: HostRuntime) -> Result<(), Fail> {
    let mut votes = Vec::new(rt.alloc());
    vote_all(rt.alloc(), &mut votes)?;
    assert_decided(&rt, rt.alloc(), votes.as_slice())
}

/// The one seat of a desk.
fn take_seat<R: Wait + Copy + Drop>(rt: &impl Abort, desk: &mut Desk<R>) -> ViewSeat {
    let mut seats = desk.take_seats().expect(rt, "the seats");
    seats.pop().expect(rt, "one seat")
}

/// That the cut of process 2 is decided in a configuration.
fn decision(alloc: Global, id: ConfigId) -> Result<Event, Fail> {
    let cut = Cut::new(Vec::from_array(alloc, [process(2)])?)?;
    let sender = SharedProcess::new(alloc, &process(2))?;
    let message = Message::new(sender, Body::Decision(id, cut))?;
    Ok(Event::Receive(message))
}

/// Gives an event to a desk, after which nothing is to be sent.
fn assert_silent<R: Wait + Copy + Drop, H: Wait + Abort>(
    rt: &H,
    desk: &Mutex<Box<Desk<R>>>,
    event: Event,
) -> Result<(), Fail> {
    let sent = hand(rt, desk, event)?.len();
    assert!(rt; sent == 0);
    Ok(())
}

/// Checks that the next view for a subscriber has two members.
fn assert_two<H: Wait + Abort>(
    rt: &H,
    subscription: &mut Subscription,
    seat: &mut ViewSeat,
) -> Result<(), Fail> {
    let view = next_view(rt, subscription, seat)?.expect(rt, "a view");
    assert!(rt; view.configuration().members().len() == 2);
    Ok(())
}

/// Checks that a subscriber gets the view of two after the decision.
fn assert_follows<R: Wait + Copy + Drop, H: Wait + Abort>(
    rt: &H,
    alloc: Global,
    desk: &Mutex<Box<Desk<R>>>,
    subscription: &mut Subscription,
    seat: &mut ViewSeat,
) -> Result<(), Fail> {
    let event = decision(alloc, seat.stamp().id())?;
    assert_silent(rt, desk, event)?;
    assert_two(rt, subscription, seat)
}

/// Checks that the subscriber of a desk of one process gets the view of two after the decision.
fn assert_serves<R: Wait + Copy + Drop, H: Wait + Abort>(
    rt: &H,
    alloc: Global,
    mut desk: Box<Desk<R>>,
) -> Result<(), Fail> {
    let mut subscription = desk.subscribe(16)?;
    let mut seat = take_seat(rt, &mut *desk);
    let desk = Mutex::new(desk);
    assert_follows(rt, alloc, &desk, &mut subscription, &mut seat)
}

#[test]
fn a_desk_and_a_subscriber(rt: HostRuntime) -> Result<(), Fail> {
    let desk = found(&rt, rt.alloc(), process(1))?;
    assert_serves(&rt, rt.alloc(), desk)
}
