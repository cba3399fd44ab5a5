// The queue of a sender.

use bytes::Bytes;
use rapid_endpoint::Endpoint;
use rapid_transport::{SenderEnd, SenderQueue, TransportError};
use std::alloc::Global;
use std::process::Abort;
use std::sync::Wait;
use std::test::Fail;

/// An endpoint with this port.
fn endpoint(port: u16) -> Endpoint {
    Endpoint::new([127, 0, 0, 1], port)
}

/// Puts this many frames; each goes to the port that is its number.
fn fill<R: Wait>(rt: &R, alloc: Global, queue: &mut SenderQueue, frames: u16) -> Result<(), Fail> {
    let bytes = Bytes::copy_from_slice(alloc, b"frame")?;
    for port in 0..frames {
        queue.put(rt, endpoint(port), bytes.clone()?)?;
    }
    Ok(())
}

/// The ports of the frames that are taken, from the first that is not the next one on.
fn ports<R: Wait>(rt: &R, end: &mut SenderEnd) -> u16 {
    let mut next = 0u16;
    for _ in 0..5_000 {
        match end.take(rt) {
            Some((to, frame)) if to == endpoint(next) && frame.as_slice() == b"frame".as_slice() =>
                {
                    next = next.saturating_add(1);
                }
            _ => break,
        }
    }
    next
}

#[test]
fn one_frame_too_many(rt: HostRuntime) -> Result<(), Fail> {
    let (mut queue, mut end) = SenderQueue::new(rt.alloc(), 4_096)?;
    fill(&rt, rt.alloc(), &mut queue, 4_096)?;
    let refused = queue.put(&rt, endpoint(0), Bytes::from_static(b"frame"));
    assert_eq!(rt; refused, Err(TransportError::QueueFull));
    assert_eq!(rt; queue.losses(), 1);
    assert_eq!(rt; ports(&rt, &mut end), 4_096);
    Ok(())
}

/// What was taken makes room again: the queue of two takes six frames, and loses none.
#[test]
fn a_queue_that_is_emptied_has_room_again(rt: HostRuntime) -> Result<(), Fail> {
    let (mut queue, mut end) = SenderQueue::new(rt.alloc(), 2)?;
    for _ in 0..3 {
        fill(&rt, rt.alloc(), &mut queue, 2)?;
        assert_eq!(rt; ports(&rt, &mut end), 2);
    }
    assert_eq!(rt; queue.losses(), 0);
    Ok(())
}

#[test]
fn frames_that_failed_are_losses(rt: HostRuntime) -> Result<(), Fail> {
    let (mut queue, mut end) = SenderQueue::new(rt.alloc(), 1)?;
    queue.put(&rt, endpoint(0), Bytes::from_static(b"frame"))?;
    let refused = queue.put(&rt, endpoint(1), Bytes::from_static(b"frame"));
    let taken = end.take(&rt);
    end.lose();
    queue.compare(&mut end);
    assert!(rt; refused.is_err() && taken.is_some());
    assert_eq!(rt; queue.losses(), 2);
    Ok(())
}

/// What is known to be put is taken before an end takes none.
#[test]
fn an_end_takes_what_it_is_told_of(rt: HostRuntime) -> Result<(), Fail> {
    let (mut queue, mut end) = SenderQueue::new(rt.alloc(), 1)?;
    queue.put(&rt, endpoint(0), Bytes::from_static(b"frame"))?;
    end.compare(&mut queue);
    assert!(rt; end.take(&rt).is_some());
    assert!(rt; end.take(&rt).is_none());
    Ok(())
}
