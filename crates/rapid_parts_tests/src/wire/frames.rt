// Worked frames, and what is refused.

use crate::numbered::{process, shared, tagged};
use rapid_config::{ConfigId, Configuration};
use rapid_join::Reply;
use rapid_message::{Body, Message};
use rapid_wire::{Feed, WireFault, encode, read_frame};
use std::alloc::{AllocError, Global};
use std::test::Fail;

/// The frame in which the process with the number 2 asks to join.
const PRE_JOIN: [u8; 29] = [
    0, 0, 0, 0x19, 2, 8, 0, 0, 0, 0, 0, 0, 0, 0, 0, 0, 0, 0, 0, 0, 0, 2, 0x7f, 0, 0, 1, 0, 2, 0,
];

/// The frame in which the process with the number 2 and the tag `db` asks to join.
const PRE_JOIN_TAGGED: [u8; 32] = [
    0, 0, 0, 0x1c, 2, 8, 0, 0, 0, 0, 0, 0, 0, 0, 0, 0, 0, 0, 0, 0, 0, 2, 0x7f, 0, 0, 1, 0, 2, 1, 2,
    0x64, 0x62,
];

/// The frame of the first version in which the process with the number 2 asks to join.
const OLD_PRE_JOIN: [u8; 28] = [
    0, 0, 0, 0x18, 1, 8, 0, 0, 0, 0, 0, 0, 0, 0, 0, 0, 0, 0, 0, 0, 0, 2, 0x7f, 0, 0, 1, 0, 2,
];

/// The processes with the numbers 1, 2 and 3: the identifier n, and the endpoint 127.0.0.1:n.
const ONE: [u8; 23] = [
    0, 0, 0, 0, 0, 0, 0, 0, 0, 0, 0, 0, 0, 0, 0, 1, 0x7f, 0, 0, 1, 0, 1, 0,
];

const TWO: [u8; 23] = [
    0, 0, 0, 0, 0, 0, 0, 0, 0, 0, 0, 0, 0, 0, 0, 2, 0x7f, 0, 0, 1, 0, 2, 0,
];

const THREE: [u8; 23] = [
    0, 0, 0, 0, 0, 0, 0, 0, 0, 0, 0, 0, 0, 0, 0, 3, 0x7f, 0, 0, 1, 0, 3, 0,
];

/// The process with the number 2 without its tags, with the tag `db`, and with `db` and `web`.
const KEY: [u8; 22] = [
    0, 0, 0, 0, 0, 0, 0, 0, 0, 0, 0, 0, 0, 0, 0, 2, 0x7f, 0, 0, 1, 0, 2,
];

const DB: [u8; 26] = [
    0, 0, 0, 0, 0, 0, 0, 0, 0, 0, 0, 0, 0, 0, 0, 2, 0x7f, 0, 0, 1, 0, 2, 1, 2, b'd', b'b',
];

const DB_WEB: [u8; 30] = [
    0, 0, 0, 0, 0, 0, 0, 0, 0, 0, 0, 0, 0, 0, 0, 2, 0x7f, 0, 0, 1, 0, 2, 2, 2, b'd', b'b', 3, b'w',
    b'e', b'b',
];

/// The frame in which the process with the number 1 tells the process with the number 2 that its
/// endpoint is in use.
const IN_USE: [u8; 53] = [
    0, 0, 0, 0x31, 2, 9, 0, 0, 0, 0, 0, 0, 0, 0, 0, 0, 0, 0, 0, 0, 0, 1, 0x7f, 0, 0, 1, 0, 1, 0, 0,
    0, 0, 0, 0, 0, 0, 0, 0, 0, 0, 0, 0, 0, 0, 2, 0x7f, 0, 0, 1, 0, 2, 0, 2,
];

/// The identifier of a configuration.
const ID: [u8; 32] = [7; 32];

/// The bytes of a configuration in front of its members, with the parameters 3, 3 and 1, at height
/// 0.
const HEAD: [u8; 47] = [
    0x52, 0x50, 0x43, 0x32, 0, 0, 0, 0, 0, 0, 0, 0, 0, 0, 0, 0, 0, 0, 0, 0, 0, 0, 0, 0, 0, 0, 0, 0,
    0, 0, 0, 0, 0, 0, 0, 0, 0, 0, 0, 0, 0, 0, 0, 0, 3, 3, 1,
];

/// Puts these pieces after the bytes.
fn append(bytes: &mut Vec<u8>, pieces: &[&[u8]]) -> Result<(), AllocError> {
    for piece in pieces {
        bytes.extend_from_slice(piece)?;
    }
    Ok(())
}

/// A kind, and the parts of a body.
pub type Parts<'a> = (u8, &'a [&'a [u8]]);

/// The frame of a body from a sender.
pub fn frame_from(alloc: Global, sender: &[u8], (kind, parts): &Parts) -> Result<Vec<u8>, Fail> {
    let mut payload = Vec::new(alloc);
    append(&mut payload, &[&[2, *kind], sender])?;
    append(&mut payload, parts)?;
    let length = u32::try_from(payload.len())?.to_be_bytes();
    let mut frame = Vec::new(alloc);
    append(&mut frame, &[&length, payload.as_slice()])?;
    Ok(frame)
}

/// The frame of a body from the process with the number 1.
fn frame(alloc: Global, body: &Parts) -> Result<Vec<u8>, Fail> {
    frame_from(alloc, &ONE, body)
}

/// Whether the process with the number 2 asks to join.
fn asks_to_join(message: &Message) -> bool {
    *message.sender() == process(2) && matches!(message.body(), Body::PreJoin)
}

/// Whether the process with the number 1 tells the process with the number 2 that its endpoint is
/// in use.
fn tells_in_use(message: &Message) -> bool {
    match message.body() {
        Body::Reply(joiner, Reply::EndpointInUse) => {
            *message.sender() == process(1) && joiner.is(&process(2))
        }
        _ => false,
    }
}

/// The next message of a stream after a piece.
pub fn fed(feed: &mut Feed, piece: &[u8]) -> Result<Option<Message>, WireFault> {
    feed.feed(piece)?;
    feed.next()
}

/// Whether a message is written as this frame.
pub fn writes(alloc: Global, message: &Message, frame: &[u8]) -> Result<bool, AllocError> {
    let written = encode(alloc, message)?;
    Ok(written.as_slice() == frame)
}

/// Whether a message is read from its frame alone as it was, with this configuration near.
fn stands_alone(
    alloc: Global,
    near: Option<&Configuration>,
    message: &Message,
) -> Result<bool, AllocError> {
    let frame = encode(alloc, message)?;
    let read = read_frame(alloc, near, frame.as_slice())?;
    writes(alloc, &read, frame.as_slice())
}

/// Whether the bytes are one frame that is read, and written again as it was.
fn returns(alloc: Global, feed: &mut Feed, bytes: &[u8]) -> Result<bool, WireFault> {
    match fed(feed, bytes)? {
        Some(message) => Ok(
            writes(alloc, &message, bytes)?
                && stands_alone(alloc, None, &message)?
                && feed.next()?.is_none(),
        ),
        None => Ok(false),
    }
}

/// Whether a message comes of two pieces, but not of the first alone.
fn comes_of_two(feed: &mut Feed, start: &[u8], end: &[u8]) -> Result<bool, WireFault> {
    Ok(fed(feed, start)?.is_none() && fed(feed, end)?.is_some())
}

/// Whether a frame that is cut after any of its bytes is no message until its end comes.
fn comes_whole(alloc: Global, bytes: &[u8]) -> Result<bool, WireFault> {
    for length in 0..bytes.len() {
        let (start, end) = bytes.split_at(length);
        if !comes_of_two(&mut Feed::new(alloc), start, end)? {
            return Ok(false);
        }
    }
    Ok(true)
}

/// Whether a body goes out and back, however its frame is cut.
fn goes_out_and_back(alloc: Global, body: &Parts) -> Result<bool, Fail> {
    let bytes = frame(alloc, body)?;
    Ok(returns(alloc, &mut Feed::new(alloc), &bytes)? && comes_whole(alloc, &bytes)?)
}

const BALLOT: &[u8] = &[2, 0, 5];

const GOOD: [Parts; 28] = [
    (1, &[&ID, &[0, 1], &[3, 1], &TWO]),
    (1, &[&ID, &[0, 2], &[255, 2], &TWO, &[0, 1], &TWO]),
    (2, &[&ID, &[0, 2], &TWO, &THREE]),
    (3, &[&ID, BALLOT]),
    (3, &[&ID, &[250, 3, 255]]),
    (4, &[&ID, BALLOT, &[0]]),
    (4, &[&ID, BALLOT, &[1, 1, 0, 0], &[0, 1], &TWO]),
    (4, &[&ID, BALLOT, &[1], BALLOT, &[0, 1], &TWO]),
    (5, &[&ID, BALLOT, &[0, 1], &TWO]),
    (6, &[&ID, BALLOT, &[0, 1], &TWO]),
    (7, &[&ID, &[0, 1], &TWO]),
    (8, &[]),
    (9, &[&TWO, &[1], &ID, &[2], &ONE, &ONE]),
    (9, &[&TWO, &[2]]),
    (9, &[&TWO, &[3]]),
    (9, &[&TWO, &[4]]),
    (10, &[&ID, &[9]]),
    (11, &[&HEAD, &[0, 2], &ONE, &TWO]),
    (12, &[&ID]),
    (13, &[&ID]),
    (14, &[&ID, &[255]]),
    // tags
    (1, &[&ID, &[0, 2], &[3, 1], &DB_WEB, &[3, 1], &DB]),
    (2, &[&ID, &[0, 3], &TWO, &DB, &DB_WEB]),
    (4, &[&ID, BALLOT, &[1, 1, 0, 0], &[0, 2], &DB_WEB, &THREE]),
    (7, &[&ID, &[0, 1], &KEY, b"\x02\x02aa\x01b"]),
    (9, &[&DB, &[2]]),
    (9, &[&DB_WEB, &[1], &ID, &[2], &DB, &ONE]),
    (11, &[&HEAD, &[0, 3], &ONE, &DB, &THREE]),
];

#[test]
fn every_kind_goes_out_and_back_however_it_is_cut(rt: HostRuntime) -> Result<(), Fail> {
    for body in &GOOD {
        assert!(rt; goes_out_and_back(rt.alloc(), body)?, "at {body:?}");
    }
    Ok(())
}

/// The configuration of the first process and this one.
fn configuration_with(alloc: Global, other: &[u8]) -> Result<Configuration, Fail> {
    let mut bytes = Vec::new(alloc);
    append(&mut bytes, &[&HEAD, &[0, 2], &ONE, other])?;
    Ok(Configuration::from_bytes(alloc, bytes.as_slice())?)
}

#[test]
fn a_configuration_near_changes_no_message(rt: HostRuntime) -> Result<(), Fail> {
    let said = configuration_with(rt.alloc(), &TWO)?;
    let other = configuration_with(rt.alloc(), &THREE)?;
    let sender = shared(rt.alloc(), &process(1))?;
    let message = Message::new(sender, Body::Confirm(said.try_copy(rt.alloc())?))?;
    for near in [None, Some(&said), Some(&other)] {
        assert!(rt; stands_alone(rt.alloc(), near, &message)?);
    }
    Ok(())
}

/// The fault of the bytes, if it is answered again after a good frame came.
fn fault(alloc: Global, bytes: &[u8]) -> Option<WireFault> {
    let mut feed = Feed::new(alloc);
    let first = fed(&mut feed, bytes).err();
    let again = fed(&mut feed, &PRE_JOIN).err();
    if first == again { first } else { None }
}

/// Whether a body spells nothing.
fn is_bad(alloc: Global, body: &Parts) -> Result<bool, Fail> {
    let bytes = frame(alloc, body)?;
    Ok(fault(alloc, &bytes) == Some(WireFault::BadBody))
}

const BAD: [Parts; 35] = [
    (1, &[&ID, &[0, 0]]),
    (1, &[&ID, &[0, 1], &[3, 3], &TWO]),
    (1, &[&ID, &[0, 2], &[3, 1], &TWO]),
    (2, &[&ID, &[0, 0]]),
    (2, &[&ID, &[0, 2], &THREE, &TWO]),
    (2, &[&ID, &[0, 2], &TWO, &TWO]),
    (2, &[&ID, &[0, 1], &TWO, &[0]]),
    (3, &[&ID, &[1, 0, 0]]),
    (3, &[&ID, &[251, 0, 0]]),
    (3, &[&ID, &[2, 4, 0]]),
    (4, &[&ID, BALLOT, &[2]]),
    (4, &[&ID, BALLOT, &[1, 1, 0, 1], &[0, 1], &TWO]),
    (5, &[&ID, BALLOT, &[0, 0]]),
    (9, &[&TWO, &[5]]),
    (9, &[&TWO, &[1], &ID, &[0]]),
    (10, &[&ID]),
    (11, &[&HEAD, &[0, 2], &TWO, &ONE]),
    (11, &[&HEAD, &[0, 1], &ONE, &[0]]),
    (12, &[&ID, &[0]]),
    (13, &[]),
    (14, &[&ID]),
    (14, &[&ID, &[0, 0]]),
    // a process of the first version
    (2, &[&ID, &[0, 1], &KEY]),
    (9, &[&KEY, &[2]]),
    // wrong tags, wherever a process stands
    (1, &[&ID, &[0, 1], &[3, 1], &KEY, &[9]]),
    (2, &[&ID, &[0, 1], &KEY, &[1, 0]]),
    (4, &[&ID, BALLOT, &[1, 1, 0, 0], &[0, 1], &KEY, &[1, 65]]),
    (5, &[&ID, BALLOT, &[0, 1], &KEY, b"\x01\x03a,b"]),
    (6, &[&ID, BALLOT, &[0, 1], &KEY, b"\x01\x03a b"]),
    (7, &[&ID, &[0, 1], &KEY, b"\x02\x03web\x02db"]),
    (7, &[&ID, &[0, 1], &KEY, b"\x02\x01b\x02aa"]),
    (9, &[&KEY, b"\x02\x02db\x02db", &[2]]),
    (9, &[&TWO, &[1], &ID, &[1], &KEY, b"\x01\x01["]),
    (11, &[&HEAD, &[0, 1], &KEY, b"\x01\x01]"]),
    // a cut with two processes that differ in tags alone, in the other order
    (2, &[&ID, &[0, 2], &DB, &TWO]),
];

#[test]
fn bodies_that_spell_nothing_are_refused(rt: HostRuntime) -> Result<(), Fail> {
    for body in &BAD {
        assert!(rt; is_bad(rt.alloc(), body)?, "at {body:?}");
    }
    Ok(())
}

/// Whether a fault is answered at the last of the bytes, of which each is a piece, and not before.
fn is_fault_at_end(alloc: Global, bytes: &[u8], fault: WireFault) -> bool {
    let mut feed = Feed::new(alloc);
    let mut waits = 1usize;
    for byte in bytes {
        match fed(&mut feed, &[*byte]) {
            Ok(_) => waits = waits.wrapping_add(1),
            Err(found) => return found == fault && waits == bytes.len(),
        }
    }
    false
}

const FAULTS: [(&[u8], WireFault); 15] = [
    (&[0, 0, 0, 0], WireFault::BadBody),
    (&[0, 0, 0, 1, 2], WireFault::BadBody),
    (&[0, 0, 0, 2, 1, 8], WireFault::BadVersion),
    (&[0, 0, 0, 2, 3, 8], WireFault::BadVersion),
    (&[0, 0, 0, 2, 1, 0xff], WireFault::BadVersion),
    (&[0, 0, 0, 2, 2, 0xff], WireFault::BadKind),
    (&[0, 0, 0, 2, 2, 0], WireFault::BadKind),
    (&[0, 0, 0, 2, 2, 15], WireFault::BadKind),
    (&[0, 0, 0, 2, 2, 8], WireFault::BadBody),
    // a byte more than a question to join, and one less: a process of the first version
    (
        &[
            0, 0, 0, 0x1a, 2, 8, 0, 0, 0, 0, 0, 0, 0, 0, 0, 0, 0, 0, 0, 0, 0, 2, 0x7f, 0, 0, 1, 0,
            2, 0, 0,
        ],
        WireFault::BadBody,
    ),
    (
        &[
            0, 0, 0, 0x18, 2, 8, 0, 0, 0, 0, 0, 0, 0, 0, 0, 0, 0, 0, 0, 0, 0, 2, 0x7f, 0, 0, 1, 0,
            2,
        ],
        WireFault::BadBody,
    ),
    // nine tags of the sender, and a tag that is a comma
    (
        &[
            0, 0, 0, 0x19, 2, 8, 0, 0, 0, 0, 0, 0, 0, 0, 0, 0, 0, 0, 0, 0, 0, 2, 0x7f, 0, 0, 1, 0,
            2, 9,
        ],
        WireFault::BadBody,
    ),
    (
        &[
            0, 0, 0, 0x1b, 2, 8, 0, 0, 0, 0, 0, 0, 0, 0, 0, 0, 0, 0, 0, 0, 0, 2, 0x7f, 0, 0, 1, 0,
            2, 1, 1, b',',
        ],
        WireFault::BadBody,
    ),
    // the first version
    (&OLD_PRE_JOIN, WireFault::BadVersion),
    (&[0, 0x20, 0, 1], WireFault::TooLong),
];

#[test]
fn faults_come_in_their_order(rt: HostRuntime) {
    for (bytes, expected) in &FAULTS {
        assert!(rt; fault(rt.alloc(), bytes) == Some(*expected), "at {bytes:?}");
        assert!(rt;
            is_fault_at_end(rt.alloc(), bytes, *expected),
            "at {bytes:?}"
        );
    }
}

const CODES: [(WireFault, u8); 5] = [
    (WireFault::TooLong, 1),
    (WireFault::BadVersion, 2),
    (WireFault::BadKind, 3),
    (WireFault::BadBody, 4),
    (WireFault::OutOfMemory, 99),
];

#[test]
fn faults_have_their_numbers(rt: HostRuntime) {
    for (fault, code) in &CODES {
        assert!(rt; fault.code() == *code, "at {fault:?}");
    }
}

/// Whether the question to join comes at the last of its bytes, of which each is a piece.
fn comes_at_end(feed: &mut Feed, bytes: &[u8]) -> Result<bool, WireFault> {
    let mut waits = 1usize;
    for byte in bytes {
        match fed(feed, &[*byte])? {
            Some(message) => return Ok(asks_to_join(&message) && waits == bytes.len()),
            None => waits = waits.wrapping_add(1),
        }
    }
    Ok(false)
}

#[test]
fn a_question_to_join_comes_byte_by_byte(rt: HostRuntime) -> Result<(), Fail> {
    assert!(rt; comes_at_end(&mut Feed::new(rt.alloc()), &PRE_JOIN)?);
    Ok(())
}

#[test]
fn worked_messages_are_written(rt: HostRuntime) -> Result<(), Fail> {
    let (one, two) = (
        shared(rt.alloc(), &process(1))?,
        shared(rt.alloc(), &process(2))?,
    );
    let question = Message::new(two.share()?, Body::PreJoin)?;
    assert!(rt; writes(rt.alloc(), &question, &PRE_JOIN)?);
    let answer = Message::new(one.share()?, Body::Reply(two, Reply::EndpointInUse))?;
    assert!(rt; writes(rt.alloc(), &answer, &IN_USE)?);
    let tagged = shared(rt.alloc(), &tagged(2, &[b"db"])?)?;
    let tagged = Message::new(tagged, Body::PreJoin)?;
    assert!(rt; writes(rt.alloc(), &tagged, &PRE_JOIN_TAGGED)?);
    let leave = Message::new(one, Body::Leave(ConfigId::new(ID), 5))?;
    let frame = frame(rt.alloc(), &(14, &[&ID, &[5]]))?;
    assert!(rt; writes(rt.alloc(), &leave, &frame)?);
    Ok(())
}

#[test]
fn a_message_of_what_a_sender_can_say_is_written_too(rt: HostRuntime) -> Result<(), Fail> {
    let (one, two) = (
        shared(rt.alloc(), &process(1))?,
        shared(rt.alloc(), &process(2))?,
    );
    let answer = Message::of(one, Body::Reply(two, Reply::EndpointInUse));
    assert!(rt; tells_in_use(&answer));
    assert!(rt; writes(rt.alloc(), &answer, &IN_USE)?);
    Ok(())
}

/// Whether the process with the number 2 and the tag `db` asks to join in this frame.
fn asks_with_its_tag(feed: &mut Feed, frame: &[u8]) -> Result<bool, Fail> {
    match fed(feed, frame)? {
        Some(message) => Ok(
            *message.sender() == tagged(2, &[b"db"])? && matches!(message.body(), Body::PreJoin),
        ),
        None => Ok(false),
    }
}

#[test]
fn a_question_to_join_comes_with_its_tags(rt: HostRuntime) -> Result<(), Fail> {
    assert!(rt; asks_with_its_tag(&mut Feed::new(rt.alloc()), &PRE_JOIN_TAGGED)?);
    Ok(())
}

/// Whether two frames bring their messages, in order, and no other.
fn brings_both(feed: &mut Feed) -> Result<bool, WireFault> {
    feed.feed(&PRE_JOIN)?;
    let first = fed(feed, &IN_USE)?;
    let second = feed.next()?;
    Ok(
        first.as_ref().is_some_and(asks_to_join)
            && second.as_ref().is_some_and(tells_in_use)
            && feed.next()?.is_none(),
    )
}

#[test]
fn worked_frames_are_read_in_the_order_of_their_bytes(rt: HostRuntime) -> Result<(), Fail> {
    assert!(rt; brings_both(&mut Feed::new(rt.alloc()))?);
    Ok(())
}
