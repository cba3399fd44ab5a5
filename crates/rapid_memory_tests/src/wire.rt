// Frames: a piece is taken again after memory ran out, and a message asked for again.

use rapid_message::Message;
use rapid_wire::{Feed, WireFault, encode};
use std::alloc::{AllocError, Global};
use std::test::Fail;

/// The processes with the numbers 1, 2 and 3: the identifier n, and the endpoint 127.0.0.1:n.
const ONE: [u8; 23] = [
    0, 0, 0, 0, 0, 0, 0, 0, 0, 0, 0, 0, 0, 0, 0, 1, 0x7f, 0, 0, 1, 0, 1, 0,
];

const TWO: [u8; 23] = [
    0, 0, 0, 0, 0, 0, 0, 0, 0, 0, 0, 0, 0, 0, 0, 2, 0x7f, 0, 0, 1, 0, 2, 0,
];

const THREE: [u8; 23] = [
    0, 0, 0, 0, 0, 0, 0, 0, 0, 0, 0, 0, 0, 0, 0, 3, 0x7f, 0, 0, 1, 0, 3, 0,
];

/// The process with the number 2 and the tags `db` and `web`.
const TAGGED: [u8; 30] = [
    0, 0, 0, 0, 0, 0, 0, 0, 0, 0, 0, 0, 0, 0, 0, 2, 0x7f, 0, 0, 1, 0, 2, 2, 2, b'd', b'b', 3, b'w',
    b'e', b'b',
];

/// The identifier of a configuration.
const ID: [u8; 32] = [7; 32];

/// The bytes of a configuration in front of its members, with the parameters 3, 3 and 1, at height
/// 0.
const HEAD: [u8; 47] = [
    0x52, 0x50, 0x43, 0x32, 0, 0, 0, 0, 0, 0, 0, 0, 0, 0, 0, 0, 0, 0, 0, 0, 0, 0, 0, 0, 0, 0, 0, 0,
    0, 0, 0, 0, 0, 0, 0, 0, 0, 0, 0, 0, 0, 0, 0, 0, 3, 3, 1,
];

/// Puts these pieces after the bytes.
fn append(bytes: &mut Vec<u8>, pieces: &[&[u8]]) -> Result<(), AllocError> {
    for piece in pieces {
        bytes.extend_from_slice(piece)?;
    }
    Ok(())
}

/// A kind, and the parts of a body.
type Parts<'a> = (u8, &'a [&'a [u8]]);

/// The frame of a body from a sender.
fn frame_from(alloc: Global, sender: &[u8], (kind, parts): &Parts) -> Result<Vec<u8>, Fail> {
    let mut payload = Vec::new(alloc);
    append(&mut payload, &[&[2, *kind], sender])?;
    append(&mut payload, parts)?;
    let length = u32::try_from(payload.len())?.to_be_bytes();
    let mut frame = Vec::new(alloc);
    append(&mut frame, &[&length, payload.as_slice()])?;
    Ok(frame)
}

/// The frame of a body from the process with the number 1.
fn frame(alloc: Global, body: &Parts) -> Result<Vec<u8>, Fail> {
    frame_from(alloc, &ONE, body)
}

/// Whether a message is written as this frame.
fn writes(alloc: Global, message: &Message, frame: &[u8]) -> Result<bool, AllocError> {
    let written = encode(alloc, message)?;
    Ok(written.as_slice() == frame)
}

/// The next message of a stream after a piece, fed and asked for again if out of memory.
fn fed_again(feed: &mut Feed, piece: &[u8]) -> Result<Option<Message>, WireFault> {
    if feed.feed(piece).is_err() {
        feed.feed(piece)?;
    }
    match feed.next() {
        Err(WireFault::OutOfMemory) => feed.next(),
        answer => answer,
    }
}

/// Whether a body comes, with one growth refused.
fn survives(alloc: Global, body: &Parts) -> Result<bool, Fail> {
    let bytes = frame(alloc, body)?;
    match fed_again(&mut Feed::new(alloc), &bytes)? {
        Some(message) => Ok(writes(alloc, &message, &bytes)?),
        None => Ok(false),
    }
}

/// Six alerts, of which five are on one process.
const ON_TWO: Parts = (
    1,
    &[
        &ID,
        &[0, 6, 3, 1],
        &TWO,
        &[4, 1],
        &TWO,
        &[5, 1],
        &TWO,
        &[6, 1],
        &TWO,
        &[7, 1],
        &TWO,
        &[8, 1],
        &TAGGED,
    ],
);

const GROWING: [Parts; 9] = [
    ON_TWO,
    (1, &[&ID, &[0, 1], &[3, 1], &TWO]),
    (2, &[&ID, &[0, 2], &TWO, &THREE]),
    (9, &[&TWO, &[1], &ID, &[2], &ONE, &ONE]),
    (11, &[&HEAD, &[0, 2], &ONE, &TWO]),
    (14, &[&ID, &[2]]),
    (2, &[&ID, &[0, 2], &TWO, &TAGGED]),
    (9, &[&TAGGED, &[1], &ID, &[1], &TAGGED]),
    (11, &[&HEAD, &[0, 2], &ONE, &TAGGED]),
];

/// After a refused growth the feed is as it was: the piece is fed again, and the message comes when
/// it is asked for again.
#[test]
fn out_of_memory_leaves_the_feed_as_it_was(rt: HostRuntime) -> Result<(), Fail> {
    for body in &GROWING {
        assert!(rt; survives(rt.alloc(), body)?, "at {body:?}");
    }
    Ok(())
}

/// Whether messages of these senders come one after another, with one growth refused.
fn come_in_turn(alloc: Global, senders: &[&[u8]]) -> Result<bool, Fail> {
    let mut feed = Feed::new(alloc);
    for sender in senders {
        let bytes = frame_from(alloc, sender, &(12, &[&ID]))?;
        match fed_again(&mut feed, &bytes)? {
            Some(message) if writes(alloc, &message, &bytes)? => {}
            _ => return Ok(false),
        }
    }
    Ok(true)
}

/// A feed keeps the sender of its last message. What it keeps is no other message's sender, also
/// after a refused growth.
#[test]
fn out_of_memory_leaves_each_message_its_sender(rt: HostRuntime) -> Result<(), Fail> {
    let senders: [&[u8]; 6] = [&TWO, &TAGGED, &TAGGED, &TWO, &ONE, &ONE];
    assert!(rt; come_in_turn(rt.alloc(), &senders)?);
    Ok(())
}
