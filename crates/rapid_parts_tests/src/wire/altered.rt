// Frames of which a bit is turned, against the second reader.

use crate::second::{between, end_of_process, frame};
use crate::wire::frames::{Parts, fed, frame_from, writes};
use rapid_message::Message;
use rapid_wire::Feed;
use std::alloc::Global;
use std::test::Fail;

/// The process with the number 1 and the tag `!`, which sends.
const SENDER: [u8; 25] = [
    0, 0, 0, 0, 0, 0, 0, 0, 0, 0, 0, 0, 0, 0, 0, 1, 0x7f, 0, 0, 1, 0, 1, 1, 1, b'!',
];

/// The process with the number 2 and the tags `Y}` and `lab`. Of its bytes a comma and both brackets
/// are a bit away.
const TWO: [u8; 30] = [
    0, 0, 0, 0, 0, 0, 0, 0, 0, 0, 0, 0, 0, 0, 0, 2, 0x7f, 0, 0, 1, 0, 2, 2, 2, b'Y', b'}', 3, b'l',
    b'a', b'b',
];

/// The process with the number 3, which has no tags.
const THREE: [u8; 23] = [
    0, 0, 0, 0, 0, 0, 0, 0, 0, 0, 0, 0, 0, 0, 0, 3, 0x7f, 0, 0, 1, 0, 3, 0,
];

/// The identifier of a configuration.
const ID: [u8; 32] = [7; 32];

/// The bytes of a configuration in front of its members, with the parameters 3, 3 and 1, at height
/// 0.
const HEAD: [u8; 47] = [
    0x52, 0x50, 0x43, 0x32, 0, 0, 0, 0, 0, 0, 0, 0, 0, 0, 0, 0, 0, 0, 0, 0, 0, 0, 0, 0, 0, 0, 0, 0,
    0, 0, 0, 0, 0, 0, 0, 0, 0, 0, 0, 0, 0, 0, 0, 0, 3, 3, 1,
];

const BALLOT: &[u8] = &[2, 0, 5];

/// A body of each kind, with tags wherever a process stands.
const GOOD: [Parts; 17] = [
    (1, &[&ID, &[0, 2], &[3, 1], &TWO, &[0, 2], &THREE]),
    (2, &[&ID, &[0, 2], &TWO, &THREE]),
    (3, &[&ID, BALLOT]),
    (4, &[&ID, BALLOT, &[0]]),
    (4, &[&ID, BALLOT, &[1, 1, 0, 0], &[0, 1], &TWO]),
    (4, &[&ID, BALLOT, &[1, 250, 3, 255], &[0, 1], &TWO]),
    (5, &[&ID, BALLOT, &[0, 2], &TWO, &THREE]),
    (6, &[&ID, BALLOT, &[0, 1], &TWO]),
    (7, &[&ID, &[0, 2], &TWO, &THREE]),
    (8, &[]),
    (9, &[&TWO, &[1], &ID, &[2], &TWO, &THREE]),
    (9, &[&TWO, &[2]]),
    (10, &[&ID, &[9]]),
    (11, &[&HEAD, &[0, 2], &TWO, &THREE]),
    (12, &[&ID]),
    (13, &[&ID]),
    (14, &[&ID, &[2]]),
];

/// The bits of a byte.
const BITS: [u8; 8] = [1, 2, 4, 8, 16, 32, 64, 128];

/// Whether a message is written as these bytes, and is from the sender in them.
fn is_of(alloc: Global, message: &Message, bytes: &[u8]) -> Result<bool, Fail> {
    let end = end_of_process(bytes, 6)?;
    let sender = message.sender().to_bytes(alloc)?;
    Ok(sender.as_slice() == between(bytes, 6, end) && writes(alloc, message, bytes)?)
}

/// Whether a stream is read, or refused, as the second reader does.
fn agrees(alloc: Global, bytes: &[u8]) -> Result<bool, Fail> {
    let mut feed = Feed::new(alloc);
    match (fed(&mut feed, bytes), frame(bytes)) {
        (Ok(Some(message)), Ok(Some(end))) => is_of(alloc, &message, between(bytes, 0, end)),
        (Ok(None), Ok(None)) => Ok(true),
        (Err(fault), Err(expected)) => Ok(fault == expected),
        _ => Ok(false),
    }
}

/// The bytes with this bit turned at a place.
fn altered(alloc: Global, bytes: &[u8], place: usize, bit: u8) -> Result<Vec<u8>, Fail> {
    let mut copy = Vec::from_slice(alloc, bytes)?;
    if place < copy.len() {
        copy[place] ^= bit;
    }
    Ok(copy)
}

/// Sees that a stream with a bit turned at a place is read as the second reader reads it; whether it
/// is refused.
fn is_refused(alloc: Global, bytes: &[u8], place: usize, bit: u8) -> Result<bool, Fail> {
    let altered = altered(alloc, bytes, place, bit)?;
    if !agrees(alloc, altered.as_slice())? {
        return Err(Fail::new(format_args!("with {bit} at {place} of {bytes:?}")));
    }
    Ok(frame(altered.as_slice()).is_err())
}

/// How many streams were refused, and how many not.
#[derive(Clone, Copy, Debug)]
struct Tally {
    refused: usize,
    others: usize,
}

impl Tally {
    /// One more of either.
    fn count(&mut self, is_refused: bool) {
        if is_refused {
            self.refused = self.refused.saturating_add(1);
        } else {
            self.others = self.others.saturating_add(1);
        }
    }
}

/// Counts the streams with a bit turned anywhere.
fn count_all(alloc: Global, tally: &mut Tally, body: &Parts) -> Result<(), Fail> {
    let bytes = frame_from(alloc, &SENDER, body)?;
    for place in 0..bytes.len() {
        for bit in &BITS {
            tally.count(is_refused(alloc, bytes.as_slice(), place, *bit)?);
        }
    }
    Ok(())
}

#[test]
fn each_change_of_a_bit_is_read_alike(rt: HostRuntime) -> Result<(), Fail> {
    let mut tally = Tally {
        refused: 0,
        others: 0,
    };
    for body in &GOOD {
        count_all(rt.alloc(), &mut tally, body)?;
    }
    assert!(rt; 1_000 < tally.refused && 1_000 < tally.others, "{tally:?}");
    Ok(())
}

/// Sees that each beginning of a frame is waited for, and that the whole is read.
fn comes_whole(alloc: Global, body: &Parts) -> Result<bool, Fail> {
    let bytes = frame_from(alloc, &SENDER, body)?;
    for length in 0..bytes.len() {
        if !agrees(alloc, between(bytes.as_slice(), 0, length))? {
            return Ok(false);
        }
    }
    Ok(agrees(alloc, bytes.as_slice())? && frame(bytes.as_slice()) == Ok(Some(bytes.len())))
}

#[test]
fn each_beginning_is_read_alike(rt: HostRuntime) -> Result<(), Fail> {
    for body in &GOOD {
        assert!(rt; comes_whole(rt.alloc(), body)?, "at {body:?}");
    }
    Ok(())
}
