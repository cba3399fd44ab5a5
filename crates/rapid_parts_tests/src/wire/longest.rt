// The most that a frame may hold: the last that is read, and the first that is not.

use rapid_message::Message;
use rapid_wire::{Feed, WireFault, encode};
use std::alloc::{AllocError, Global};
use std::test::Fail;

/// The bytes of the process with this number, without its tags: its identifier in 16 bytes, and its
/// port of 127.0.0.1.
fn bytes_of(number: u16) -> [u8; 22] {
    let [high, low] = number.to_be_bytes();
    [
        0, 0, 0, 0, 0, 0, 0, 0, 0, 0, 0, 0, 0, 0, high, low, 0x7f, 0, 0, 1, high, low,
    ]
}

/// The bytes of no tags.
const NONE: &[u8] = &[0];

/// The bytes of the longest tags that a process may have: eight of 64 bytes each.
fn longest_tags(alloc: Global) -> Result<Vec<u8>, AllocError> {
    let mut bytes = Vec::from_slice(alloc, &[8])?;
    for letter in [b'1', b'2', b'3', b'4', b'5', b'6', b'7', b'8'] {
        bytes.push(64)?;
        bytes.extend_from_slice(&[letter; 64])?;
    }
    Ok(bytes)
}

/// The process with the number 2.
const TWO: [u8; 23] = [
    0, 0, 0, 0, 0, 0, 0, 0, 0, 0, 0, 0, 0, 0, 0, 2, 0x7f, 0, 0, 1, 0, 2, 0,
];

/// The identifier of a configuration.
const ID: [u8; 32] = [7; 32];

/// The bytes of a configuration in front of its members, with the parameters 3, 3 and 1, at height
/// 0.
const HEAD: [u8; 47] = [
    0x52, 0x50, 0x43, 0x32, 0, 0, 0, 0, 0, 0, 0, 0, 0, 0, 0, 0, 0, 0, 0, 0, 0, 0, 0, 0, 0, 0, 0, 0,
    0, 0, 0, 0, 0, 0, 0, 0, 0, 0, 0, 0, 0, 0, 0, 0, 3, 3, 1,
];

/// A classic ballot of the last round and the last position.
const LAST_BALLOT: &[u8] = &[250, 3, 255];

/// A body with a list of processes. Its kind, what is in front of the list, with its count, and
/// what is in front of each process in it. Then how many processes there are, and whether it is
/// read.
type Row<'a> = (u8, &'a [&'a [u8]], &'a [u8], u16, bool);

const ROWS: [Row; 18] = [
    // 2,048 alerts of a batch
    (1, &[&ID, &[8, 0]], &[0, 1], 2048, true),
    (1, &[&ID, &[8, 1]], &[0, 1], 2049, false),
    // 1,536 processes of a cut
    (2, &[&ID, &[6, 0]], &[], 1536, true),
    (2, &[&ID, &[6, 1]], &[], 1537, false),
    (
        4,
        &[&ID, LAST_BALLOT, &[1, 1, 0, 0], &[6, 0]],
        &[],
        1536,
        true,
    ),
    (
        4,
        &[&ID, LAST_BALLOT, &[1, 1, 0, 0], &[6, 1]],
        &[],
        1537,
        false,
    ),
    (5, &[&ID, LAST_BALLOT, &[6, 0]], &[], 1536, true),
    (5, &[&ID, LAST_BALLOT, &[6, 1]], &[], 1537, false),
    (6, &[&ID, LAST_BALLOT, &[6, 0]], &[], 1536, true),
    (6, &[&ID, LAST_BALLOT, &[6, 1]], &[], 1537, false),
    (7, &[&ID, &[6, 0]], &[], 1536, true),
    (7, &[&ID, &[6, 1]], &[], 1537, false),
    // 16 observers that a reply names
    (9, &[&TWO, &[1], &ID, &[16]], &[], 16, true),
    (9, &[&TWO, &[1], &ID, &[17]], &[], 17, false),
    // 1,024 members of a configuration, and none
    (11, &[&HEAD, &[4, 0]], &[], 1024, true),
    (11, &[&HEAD, &[4, 1]], &[], 1025, false),
    (11, &[&HEAD, &[0, 0]], &[], 0, true),
    (11, &[&HEAD, &[0, 1]], &[], 0, false),
];

/// The list of a body: this many processes from number 1 on, with these tags, and with what stands
/// in front of each.
fn append_list(
    bytes: &mut Vec<u8>,
    before: &[u8],
    many: u16,
    tags: &[u8],
) -> Result<(), AllocError> {
    for number in 0..many {
        bytes.extend_from_slice(before)?;
        bytes.extend_from_slice(&bytes_of(number.wrapping_add(1)))?;
        bytes.extend_from_slice(tags)?;
    }
    Ok(())
}

/// The frame of a body from the process with the number 1, without its length. All processes have
/// these tags, but for one that is no part of a list.
fn unmeasured(
    alloc: Global,
    (kind, head, before, many, _): &Row,
    tags: &[u8],
) -> Result<Vec<u8>, AllocError> {
    let mut bytes = Vec::new(alloc);
    bytes.extend_from_slice(&[2, *kind])?;
    append_list(&mut bytes, &[], 1, tags)?;
    for part in *head {
        bytes.extend_from_slice(part)?;
    }
    append_list(&mut bytes, before, *many, tags)?;
    Ok(bytes)
}

/// The frame of a body from the process with the number 1, with these tags.
fn frame(alloc: Global, row: &Row, tags: &[u8]) -> Result<Vec<u8>, Fail> {
    let rest = unmeasured(alloc, row, tags)?;
    let mut frame = Vec::new(alloc);
    frame.extend_from_slice(&u32::try_from(rest.len())?.to_be_bytes())?;
    frame.extend_from_slice(rest.as_slice())?;
    Ok(frame)
}

/// The next message of a stream after a piece.
fn fed(feed: &mut Feed, piece: &[u8]) -> Result<Option<Message>, WireFault> {
    feed.feed(piece)?;
    feed.next()
}

/// Whether a frame is read and written again as it was, or is a fault, as it has to be.
fn is_answered(alloc: Global, frame: &[u8], is_read: bool) -> Result<bool, AllocError> {
    let mut feed = Feed::new(alloc);
    match fed(&mut feed, frame) {
        Ok(Some(message)) => Ok(is_read && encode(alloc, &message)?.as_slice() == frame),
        Ok(None) => Ok(false),
        Err(fault) => Ok(!is_read && fault == WireFault::BadBody),
    }
}

/// Sees that each row is read, or is a fault, as it has to be, if all processes have these tags.
fn all_are_answered(alloc: Global, tags: &[u8]) -> Result<(), Fail> {
    for row in &ROWS {
        let frame = frame(alloc, row, tags)?;
        if !is_answered(alloc, frame.as_slice(), row.4)? {
            return Err(Fail::new(format_args!("answered otherwise: {row:?}")));
        }
    }
    Ok(())
}

#[test]
fn lists_are_read_up_to_their_limits(rt: HostRuntime) -> Result<(), Fail> {
    all_are_answered(rt.alloc(), NONE)
}

#[test]
fn lists_of_processes_with_the_longest_tags_are_read_up_to_their_limits(
    rt: HostRuntime,
) -> Result<(), Fail> {
    let tags = longest_tags(rt.alloc())?;
    assert!(rt; tags.len() == 521);
    all_are_answered(rt.alloc(), tags.as_slice())
}

/// Votes whose cut announces more processes than a cut may have. None of them stands there, or as
/// many as a cut may have, or all.
const TOO_MANY: [Row; 5] = [
    (2, &[&ID, &[6, 1]], &[], 0, false),
    (2, &[&ID, &[6, 1]], &[], 1536, false),
    (2, &[&ID, &[6, 1]], &[], 1537, false),
    (2, &[&ID, &[255, 255]], &[], 0, false),
    (2, &[&ID, &[255, 255]], &[], 65535, false),
];

#[test]
fn a_vote_that_announces_more_than_a_cut_has_is_a_bad_body(rt: HostRuntime) -> Result<(), Fail> {
    for row in &TOO_MANY {
        let frame = frame(rt.alloc(), row, NONE)?;
        assert!(rt;
            is_answered(rt.alloc(), frame.as_slice(), row.4)?,
            "at {row:?}"
        );
    }
    Ok(())
}

/// A batch of 2,048 alerts, of processes with the longest tags: 579 bytes, and 545 for each alert.
#[test]
fn the_longest_message_has_1116739_bytes(rt: HostRuntime) -> Result<(), Fail> {
    let [longest, ..] = &ROWS;
    let tags = longest_tags(rt.alloc())?;
    let frame = unmeasured(rt.alloc(), longest, tags.as_slice())?;
    assert!(rt; frame.len() == 1_116_739);
    Ok(())
}

/// Whether nothing is answered after a piece.
fn waits(feed: &mut Feed, piece: &[u8]) -> bool {
    matches!(fed(feed, piece), Ok(None))
}

/// A length of 2,097,152 bytes is waited for, to the last of them; one more is a fault by itself.
#[test]
fn the_longest_frame_is_waited_for(rt: HostRuntime) -> Result<(), Fail> {
    let mut feed = Feed::new(rt.alloc());
    let rest = vec![in rt.alloc(); 0u8; 2_097_149]?;
    assert!(rt; waits(&mut feed, &[0, 0x20, 0, 0]));
    assert!(rt; waits(&mut feed, &[2, 8]));
    assert!(rt; waits(&mut feed, rest.as_slice()));
    assert!(rt; fed(&mut feed, &[0]).err() == Some(WireFault::BadBody));
    let mut feed = Feed::new(rt.alloc());
    assert!(rt; waits(&mut feed, &[0, 0x20, 0]));
    assert!(rt; fed(&mut feed, &[1]).err() == Some(WireFault::TooLong));
    Ok(())
}

/// A frame above the limit of the first version, 65,536 bytes, is waited for.
#[test]
fn a_frame_may_be_longer_than_in_the_first_version(rt: HostRuntime) {
    let mut feed = Feed::new(rt.alloc());
    assert!(rt; waits(&mut feed, &[0, 1, 0, 1]));
}
