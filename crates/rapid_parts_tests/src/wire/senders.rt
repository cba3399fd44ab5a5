// Who sends a message, and what a feed makes of senders that are much alike.

use crate::numbered::{process, shared, tagged};
use crate::short_lists::seven;
use crate::wire::frames::frame_from;
use rapid_endpoint::Process;
use rapid_join::Reply;
use rapid_message::{Body, Message};
use rapid_wire::{Feed, WireFault};
use std::alloc::{AllocError, Global};
use std::test::Fail;

/// The identifier of a configuration.
const ID: [u8; 32] = [7; 32];

/// The process with the number 3.
const THREE: [u8; 23] = [
    0, 0, 0, 0, 0, 0, 0, 0, 0, 0, 0, 0, 0, 0, 0, 3, 0x7f, 0, 0, 1, 0, 3, 0,
];

/// Whether a message is from this process.
fn is_from(message: &Message, sender: &Process) -> bool {
    *message.sender() == *sender
        && message.shared_sender().is(sender)
        && *message.shared_sender().get() == *sender
}

/// A reply is from its host, whoever the joiner is.
#[test]
fn a_message_is_from_its_sender(rt: HostRuntime) -> Result<(), Fail> {
    let (host, joiner) = (tagged(1, &[b"db"])?, process(1));
    let (sender, to) = (shared(rt.alloc(), &host)?, shared(rt.alloc(), &joiner)?);
    let reply = Body::Reply(to.share()?, Reply::EndpointInUse);
    let message = Message::new(sender.share()?, reply)?;
    assert!(rt; is_from(&message, &host));
    assert!(rt; is_from(&message.try_copy(rt.alloc())?, &host));
    let message = Message::of(sender, Body::Reply(to, Reply::EndpointInUse));
    assert!(rt; is_from(&message, &host));
    Ok(())
}

#[test]
fn a_message_takes_128_bytes(rt: HostRuntime) {
    assert!(rt; size_of::<Message>() == 128);
}

/// Puts each of these processes behind this one.
fn add_turns(
    turns: &mut Vec<Process>,
    one: &Process,
    others: &[Process],
) -> Result<(), AllocError> {
    for other in others {
        turns.push(*one)?;
        turns.push(*other)?;
    }
    Ok(())
}

/// The seven in turn: each of them comes once behind each. Four of them differ in tags alone, two in
/// the port alone, and two in the identifier alone.
fn turns(alloc: Global) -> Result<Vec<Process>, Fail> {
    let seven = seven()?;
    let mut turns = Vec::new(alloc);
    for one in &seven {
        add_turns(&mut turns, one, &seven)?;
    }
    Ok(turns)
}

/// The frames in which these processes each say a batch of an alert on the process with the number 3.
fn stream(alloc: Global, senders: &[Process]) -> Result<Vec<u8>, Fail> {
    let mut stream = Vec::new(alloc);
    for sender in senders {
        let sender = sender.to_bytes(alloc)?;
        let frame = frame_from(alloc, &sender, &(1, &[&ID, &[0, 1], &[3, 1], &THREE]))?;
        stream.extend_from_slice(&frame)?;
    }
    Ok(stream)
}

/// Takes the messages that are there, of which there are at most so many.
fn take_all(feed: &mut Feed, messages: &mut Vec<Message>, most: usize) -> Result<(), Fail> {
    for _ in 0..most {
        match feed.next()? {
            Some(message) => messages.push(message)?,
            None => return Ok(()),
        }
    }
    Ok(())
}

/// The messages of a stream that comes in pieces of this many bytes.
fn messages(alloc: Global, stream: &[u8], size: usize) -> Result<Vec<Message>, Fail> {
    let mut feed = Feed::new(alloc);
    let mut messages = Vec::new(alloc);
    for piece in stream.chunks(size.max(1)) {
        feed.feed(piece)?;
        take_all(&mut feed, &mut messages, piece.len())?;
    }
    Ok(messages)
}

/// Whether a message is a batch of this process.
fn is_batch_of(message: &Message, sender: &Process) -> bool {
    match message.body() {
        Body::Batch(_, batch) => is_from(message, sender) && *batch.observer() == *sender,
        _ => false,
    }
}

/// Whether these are a batch of each process, in order.
fn are_batches_of(messages: &[Message], senders: &[Process]) -> bool {
    for (message, sender) in messages.iter().zip(senders) {
        if !is_batch_of(message, sender) {
            return false;
        }
    }
    messages.len() == senders.len()
}

/// A feed is asked while a frame is not whole, and when several are.
#[test]
fn each_message_of_a_stream_has_its_own_sender(rt: HostRuntime) -> Result<(), Fail> {
    let turns = turns(rt.alloc())?;
    let stream = stream(rt.alloc(), &turns)?;
    assert!(rt; turns.len() == 98);
    for size in [1, 7, 1000] {
        let messages = messages(rt.alloc(), &stream, size)?;
        assert!(rt; are_batches_of(&messages, &turns), "in pieces of {size}");
    }
    Ok(())
}

/// The fault of a frame whose sender begins as the one before, and where its tags would stand has
/// these bytes.
fn fault_behind(alloc: Global, before: &Process, rest: &[u8]) -> Result<Option<WireFault>, Fail> {
    let mut bytes = Vec::from_array(alloc, before.key_bytes())?;
    bytes.extend_from_slice(rest)?;
    let mut stream = stream(alloc, &[*before])?;
    stream.extend_from_slice(&frame_from(alloc, &bytes, &(8, &[]))?)?;
    let mut feed = Feed::new(alloc);
    feed.feed(&stream)?;
    match feed.next()? {
        Some(message) if is_batch_of(&message, before) => Ok(feed.next().err()),
        _ => Ok(None),
    }
}

/// Tags that are cut short, in another order, twice, too many, or with a byte behind them.
const WRONG: [&[u8]; 6] = [
    b"",
    b"\x02\x02db\x03we",
    b"\x02\x03web\x02db",
    b"\x02\x02db\x02db",
    b"\x09\x02db\x03web",
    b"\x02\x02db\x03web\x00",
];

#[test]
fn a_sender_that_is_spelt_wrongly_is_not_the_one_before(rt: HostRuntime) -> Result<(), Fail> {
    let before = tagged(2, &[b"db", b"web"])?;
    for rest in &WRONG {
        let fault = fault_behind(rt.alloc(), &before, rest)?;
        assert!(rt; fault == Some(WireFault::BadBody), "at {rest:?}");
    }
    Ok(())
}
