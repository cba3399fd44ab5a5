// Frames of every kind: cut after each byte, and from readers and to writers that fail at each call.

use crate::devices::{Ends, Faulty, Narrow};
use bytes::Bytes;
use rapid_transport::{Metered, TransportError, receive, send};
use rapid_wire::Feed;
use std::alloc::{AllocError, Global};
use std::sync::Wait;
use std::test::Fail;

/// The processes with the numbers 1, 2 and 3: the identifier n, and the endpoint 127.0.0.1:n.
const ONE: [u8; 23] = [
    0, 0, 0, 0, 0, 0, 0, 0, 0, 0, 0, 0, 0, 0, 0, 1, 0x7f, 0, 0, 1, 0, 1, 0,
];

const TWO: [u8; 23] = [
    0, 0, 0, 0, 0, 0, 0, 0, 0, 0, 0, 0, 0, 0, 0, 2, 0x7f, 0, 0, 1, 0, 2, 0,
];

const THREE: [u8; 23] = [
    0, 0, 0, 0, 0, 0, 0, 0, 0, 0, 0, 0, 0, 0, 0, 3, 0x7f, 0, 0, 1, 0, 3, 0,
];

/// The process with the number 2 and the tags `db` and `web`.
const TAGGED: [u8; 30] = [
    0, 0, 0, 0, 0, 0, 0, 0, 0, 0, 0, 0, 0, 0, 0, 2, 0x7f, 0, 0, 1, 0, 2, 2, 2, b'd', b'b', 3, b'w',
    b'e', b'b',
];

/// The identifier of a configuration.
const ID: [u8; 32] = [7; 32];

/// The bytes of a configuration in front of its members, with the parameters 3, 3 and 1, at height
/// 0.
const HEAD: [u8; 47] = [
    0x52, 0x50, 0x43, 0x32, 0, 0, 0, 0, 0, 0, 0, 0, 0, 0, 0, 0, 0, 0, 0, 0, 0, 0, 0, 0, 0, 0, 0, 0,
    0, 0, 0, 0, 0, 0, 0, 0, 0, 0, 0, 0, 0, 0, 0, 0, 3, 3, 1,
];

/// A classic ballot.
const BALLOT: &[u8] = &[2, 0, 5];

/// A kind, and the parts of a body.
type Parts<'a> = (u8, &'a [&'a [u8]]);

/// A body of every kind, and of each form that a kind has.
const BODIES: [Parts; 21] = [
    (1, &[&ID, &[0, 2], &[255, 2], &TWO, &[0, 1], &TWO]),
    (2, &[&ID, &[0, 2], &TWO, &THREE]),
    (3, &[&ID, BALLOT]),
    (4, &[&ID, BALLOT, &[0]]),
    (4, &[&ID, BALLOT, &[1, 1, 0, 0], &[0, 1], &TWO]),
    (5, &[&ID, BALLOT, &[0, 1], &TWO]),
    (6, &[&ID, BALLOT, &[0, 1], &TWO]),
    (7, &[&ID, &[0, 1], &TWO]),
    (8, &[]),
    (9, &[&TWO, &[1], &ID, &[2], &ONE, &ONE]),
    (9, &[&TWO, &[2]]),
    (9, &[&TWO, &[3]]),
    (9, &[&TWO, &[4]]),
    (10, &[&ID, &[9]]),
    (11, &[&HEAD, &[0, 2], &ONE, &TWO]),
    (12, &[&ID]),
    (13, &[&ID]),
    (14, &[&ID, &[9]]),
    (2, &[&ID, &[0, 2], &TWO, &TAGGED]),
    (9, &[&TAGGED, &[1], &ID, &[1], &TAGGED]),
    (11, &[&HEAD, &[0, 2], &ONE, &TAGGED]),
];

/// The frame of a body from the process with the number 1.
fn frame(alloc: Global, (kind, parts): &Parts) -> Result<Vec<u8>, Fail> {
    let mut rest = Vec::new(alloc);
    rest.extend_from_slice(&[2, *kind])?;
    rest.extend_from_slice(&ONE)?;
    for part in *parts {
        rest.extend_from_slice(part)?;
    }
    let mut frame = Vec::new(alloc);
    frame.extend_from_slice(&u32::try_from(rest.len())?.to_be_bytes())?;
    frame.extend_from_slice(rest.as_slice())?;
    Ok(frame)
}

/// Whether a message is received from a reader that gives these bytes, `step` a call, and fails
/// after `calls` calls.
fn comes<R: Wait>(
    rt: &R,
    alloc: Global,
    input: &[u8],
    step: usize,
    calls: usize,
) -> Result<bool, TransportError> {
    let mut reader = Metered::new(Faulty { input, step, calls });
    Ok(receive(rt, &mut reader, &mut Feed::new(alloc))?.is_some())
}

/// Whether the end of the input is answered so after each byte of a frame, and after none and all.
fn ends_after_each_byte<R: Wait>(rt: &R, alloc: Global, frame: &[u8]) -> bool {
    for length in 1..frame.len() {
        let (start, _) = frame.split_at(length);
        if comes(rt, alloc, start, 64, 100) != Err(TransportError::PeerClosed) {
            return false;
        }
    }
    comes(rt, alloc, &[], 64, 100) == Ok(false) && comes(rt, alloc, frame, 64, 100) == Ok(true)
}

#[test]
fn every_kind_cut_after_each_byte(rt: HostRuntime) -> Result<(), Fail> {
    for body in &BODIES {
        let frame = frame(rt.alloc(), body)?;
        assert!(rt;
            ends_after_each_byte(&rt, rt.alloc(), frame.as_slice()),
            "at {body:?}"
        );
    }
    Ok(())
}

/// Whether a reader that gives nine bytes a call is answered so. It fails at any of its calls
/// before the last byte of the frame came.
fn fails_at_each_read<R: Wait>(rt: &R, alloc: Global, frame: &[u8]) -> bool {
    let needed = frame.len().div_ceil(9);
    for calls in 0..needed {
        if comes(rt, alloc, frame, 9, calls) != Err(TransportError::Io) {
            return false;
        }
    }
    comes(rt, alloc, frame, 9, needed) == Ok(true)
}

#[test]
fn every_kind_from_a_reader_that_fails_at_each_call(rt: HostRuntime) -> Result<(), Fail> {
    for body in &BODIES {
        let frame = frame(rt.alloc(), body)?;
        assert!(rt;
            fails_at_each_read(&rt, rt.alloc(), frame.as_slice()),
            "at {body:?}"
        );
    }
    Ok(())
}

/// What sending a frame answers if the writer takes one byte a call, and after `calls` calls fails
/// or takes none. Also whether that many bytes were written, and are the beginning of the frame.
fn sent(
    alloc: Global,
    frame: &[u8],
    calls: usize,
    ends: Ends,
) -> Result<(Result<(), TransportError>, bool), AllocError> {
    let bytes = Bytes::copy_from_slice(alloc, frame)?;
    let mut writer = Metered::new(Narrow {
        written: Vec::new(alloc),
        step: 1,
        calls,
        ends,
    });
    let answer = send(&mut writer, &bytes);
    let written = writer.stream().written.as_slice();
    Ok((answer, written.len() == calls && frame.starts_with(written)))
}

/// Whether a writer that ends so at any of its calls is answered this error, and has a beginning of
/// the frame. Also whether one that lasts has the whole.
fn stops_at_each_write(
    alloc: Global,
    frame: &[u8],
    ends: Ends,
    error: TransportError,
) -> Result<bool, AllocError> {
    for calls in 0..frame.len() {
        if sent(alloc, frame, calls, ends)? != (Err(error), true) {
            return Ok(false);
        }
    }
    Ok(sent(alloc, frame, frame.len(), ends)? == (Ok(()), true))
}

#[test]
fn every_kind_to_a_writer_that_fails_or_takes_none(rt: HostRuntime) -> Result<(), Fail> {
    let endings = [
        (Ends::Fails, TransportError::Io),
        (Ends::TakesNone, TransportError::PeerClosed),
    ];
    for body in &BODIES {
        let frame = frame(rt.alloc(), body)?;
        for (ends, error) in endings {
            let stops = stops_at_each_write(rt.alloc(), frame.as_slice(), ends, error)?;
            assert!(rt; stops, "at {body:?} and {ends:?}");
        }
    }
    Ok(())
}
