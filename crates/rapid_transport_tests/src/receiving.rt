// Messages from readers that end, fail, or give one byte at a time.

use crate::devices::Faulty;
use crate::worked::{PRE_JOIN, asks_to_join};
use rapid_transport::{Counted, Metered, TransportError, receive};
use rapid_wire::{Feed, WireFault};
use std::alloc::Global;
use std::process::Abort;
use std::sync::Wait;
use std::test::Fail;

/// What was received.
#[derive(Clone, Copy, Debug, PartialEq, Eq)]
enum Received {
    Asked,
    Other,
    End,
    Failed(TransportError),
}

/// What comes next.
fn next<R: Wait>(rt: &R, reader: &mut Metered<Faulty<'_>>, feed: &mut Feed) -> Received {
    match receive(rt, reader, feed) {
        Ok(Some(message)) if asks_to_join(&message) => Received::Asked,
        Ok(Some(_)) => Received::Other,
        Ok(None) => Received::End,
        Err(error) => Received::Failed(error),
    }
}

/// What comes first, and what after that, and how many calls failed.
fn two<R: Wait>(
    rt: &R,
    alloc: Global,
    input: &[u8],
    step: usize,
    calls: usize,
) -> (Received, Received, u64) {
    let mut reader = Metered::new(Faulty { input, step, calls });
    let mut feed = Feed::new(alloc);
    let first = next(rt, &mut reader, &mut feed);
    let second = next(rt, &mut reader, &mut feed);
    (first, second, reader.failed_calls())
}

#[test]
fn a_frame_cut_after_each_byte(rt: HostRuntime) {
    for length in 0..PRE_JOIN.len() {
        let cut = Received::Failed(TransportError::PeerClosed);
        let end = if length == 0 { Received::End } else { cut };
        for step in [1, 5, 64] {
            let got = two(&rt, rt.alloc(), &PRE_JOIN[..length], step, 100);
            assert_eq!(rt; got, (end, end, 0), "at {length}");
        }
    }
}

#[test]
fn a_reader_that_fails_at_each_call(rt: HostRuntime) {
    for calls in 0..PRE_JOIN.len() {
        let got = two(&rt, rt.alloc(), &PRE_JOIN, 1, calls);
        let failed = Received::Failed(TransportError::Io);
        assert_eq!(rt; got, (failed, failed, 2), "at {calls}");
    }
    let got = two(&rt, rt.alloc(), &PRE_JOIN, 1, PRE_JOIN.len());
    assert_eq!(rt;
        got,
        (Received::Asked, Received::Failed(TransportError::Io), 1)
    );
    let got = two(&rt, rt.alloc(), &PRE_JOIN, 1, PRE_JOIN.len() + 1);
    assert_eq!(rt; got, (Received::Asked, Received::End, 0));
}

#[test]
fn a_frame_that_is_too_long(rt: HostRuntime) {
    let fault = Received::Failed(TransportError::Wire(WireFault::TooLong));
    let got = two(&rt, rt.alloc(), &[0, 0x20, 0, 1], 1, 100);
    assert_eq!(rt; got, (fault, fault, 0));
}

/// A question to join of the first version of frames, by the process with the number 2.
const OLD_PRE_JOIN: [u8; 28] = [
    0, 0, 0, 0x18, 1, 8, 0, 0, 0, 0, 0, 0, 0, 0, 0, 0, 0, 0, 0, 0, 0, 2, 0x7f, 0, 0, 1, 0, 2,
];

#[test]
fn a_frame_of_the_first_version(rt: HostRuntime) {
    let fault = Received::Failed(TransportError::Wire(WireFault::BadVersion));
    let got = two(&rt, rt.alloc(), &OLD_PRE_JOIN, 1, 100);
    assert_eq!(rt; got, (fault, fault, 0));
}

#[test]
fn two_frames_in_one_piece(rt: HostRuntime) -> Result<(), Fail> {
    let mut input = Vec::new(rt.alloc());
    input.extend_from_slice(&PRE_JOIN)?;
    input.extend_from_slice(&PRE_JOIN)?;
    let got = two(&rt, rt.alloc(), &input, 64, 1);
    assert_eq!(rt; got, (Received::Asked, Received::Asked, 0));
    Ok(())
}

#[test]
fn errors_have_their_numbers(rt: HostRuntime) {
    assert_eq!(rt; TransportError::PeerClosed.code(), 1);
    assert_eq!(rt; TransportError::Io.code(), 2);
    assert_eq!(rt; TransportError::Wire(WireFault::BadKind).code(), 3);
    assert_eq!(rt; TransportError::QueueFull.code(), 4);
    assert_eq!(rt; TransportError::OutOfMemory.code(), 99);
}
