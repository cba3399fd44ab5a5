// A service whose edges go down. If there is no memory to tell its node of one, its subscriptions end.

use crate::numbered::{THREE, founded, process, shared};
use bytes::Bytes;
use rapid_desk::{Subscription, Taken};
use rapid_endpoint::Endpoint;
use rapid_message::{Body, Message};
use rapid_rounds::{Part, PartRound};
use rapid_service::{Post, RunningFault, Service};
use std::alloc::{AllocError, Global};
use std::process::Abort;
use std::sync::Wait;
use std::test::Fail;

/// Counts the frames that are sent.
#[derive(Drop)]
struct Count {
    frames: u64,
}

impl Post for Count {
    ghost has_posted = { λ _ _ _. Unit {0} };

    ghost idle = { λ _. tt };

    ghost later = { λ _ _ _ _ _ _ _. tt };

    fn post<W: Wait>(&mut self, _rt: &W, _to: Endpoint, _frame: Bytes) {
        self.frames = self.frames.saturating_add(1);
    }
}

/// The service of process 1, which process 2 has let into a configuration of both.
fn member<R: Wait + Copy + Drop>(rt: R, alloc: Global) -> Result<Service<R, Count>, Fail> {
    let seed = process(2).endpoint();
    let mut service = Service::join(rt, alloc, process(1), seed, Count { frames: 0 })?;
    let confirm = Body::Confirm(founded(alloc, THREE, &[(1, 1), (2, 2)])?);
    service.receive(Message::new(shared(alloc, &process(2))?, confirm)?)?;
    Ok(service)
}

/// One more round of the probes, of which none was acknowledged.
fn round_of(alloc: Global, parts: &mut Vec<Part>) -> Result<PartRound, AllocError> {
    match parts.first_mut() {
        Some(part) => part.round(alloc),
        None => Err(AllocError),
    }
}

/// Whether the service hands on a round in which edges go down: at its next tick it sends of them. If
/// there is no memory to tell its node of one, it says so, and its subscriptions have ended.
fn hands_on<R: Wait + Copy + Drop>(
    rt: &R,
    service: &mut Service<R, Count>,
    subscription: &mut Subscription,
    round: &PartRound,
) -> Result<bool, RunningFault> {
    let handed = service.hand_on(round);
    if matches!(subscription.take(rt), Taken::Closed) {
        return Ok(handed == Err(RunningFault::OutOfMemory));
    }
    let before = service.post().frames;
    service.tick()?;
    Ok(service.post().frames > before)
}

/// Four rounds bring three failures on each edge of process 1, and a fifth brings the fourth.
#[test]
fn out_of_memory_as_edges_go_down(rt: HostRuntime) -> Result<(), Fail> {
    let mut service = member(&rt, rt.alloc())?;
    let (mut subscription, _view) = service.subscribe(2)?;
    let mut parts = service.take_parts(1)?.expect(&rt, "the parts");
    for _ in 0..4 {
        service.hand_on(&round_of(rt.alloc(), &mut parts)?)?;
    }
    let last = round_of(rt.alloc(), &mut parts)?;
    assert!(rt; hands_on(&&rt, &mut service, &mut subscription, &last)?);
    Ok(())
}
