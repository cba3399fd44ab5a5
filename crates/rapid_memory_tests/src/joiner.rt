// Steps of a joiner: if memory runs out in one it halts, sends nothing and has installed nothing.

use crate::numbered::{THREE, endpoint, founded, process, shared};
use rapid_config::Configuration;
use rapid_join::{Reply, RingObservers};
use rapid_message::{Body, Destination, Message, Output, Outputs};
use rapid_node::{Event, Node, NodeFault, Phase};
use std::alloc::Global;
use std::process::Abort;
use std::test::Fail;

/// What a joiner sends to its seed.
#[derive(Clone, Copy, Debug, PartialEq, Eq)]
enum Sent {
    /// The first question.
    Question,
    /// The request for a ring.
    Request(u8),
    /// What no joiner sends here.
    Other,
}

/// What a joiner sends by a message.
fn sent_by(output: &Output) -> Sent {
    match (output.to(), output.message().body()) {
        (Destination::To(seed), Body::PreJoin) if seed == endpoint(1) => Sent::Question,
        (Destination::To(seed), Body::JoinRequest(_, ring)) if seed == endpoint(1) => {
            Sent::Request(*ring)
        }
        _ => Sent::Other,
    }
}

/// Checks that this is all that is sent, in order.
fn assert_sent(rt: &impl Abort, outputs: &Outputs, expected: &[Sent]) {
    for (place, (output, expected)) in outputs.iter().zip(expected).enumerate() {
        assert_eq!(rt; sent_by(output), *expected, "at {place}");
    }
    assert_eq!(rt; outputs.len(), expected.len());
}

/// Checks that a joiner has halted with no view, and says so.
fn assert_halted(rt: &impl Abort, node: &mut Node) {
    assert_eq!(rt; node.phase(), Phase::Halted);
    assert!(rt; node.installed().is_empty() && node.configuration().is_none());
    assert!(rt; node.step(&Event::Tick).err() == Some(NodeFault::Halted));
}

/// Checks that a joiner sends this at an event and is in this phase, or has halted out of memory. Says
/// whether it goes on.
fn goes_on(
    rt: &impl Abort,
    node: &mut Node,
    event: &Event,
    expected: &[Sent],
    phase: Phase,
) -> bool {
    match node.step(event) {
        Ok(outputs) => {
            assert_sent(rt, &outputs, expected);
            assert_eq!(rt; node.phase(), phase);
            true
        }
        Err(fault) => {
            assert!(rt; fault == NodeFault::OutOfMemory);
            assert_halted(rt, node);
            false
        }
    }
}

/// Process 1 says this.
fn said(alloc: Global, body: Body) -> Result<Event, Fail> {
    let sender = shared(alloc, &process(1))?;
    Ok(Event::Receive(Message::new(sender, body)?))
}

/// Process 1 answers that process 2 is safe, and that process 1 observes it on each of three rings.
fn safe(alloc: Global, founding: &Configuration) -> Result<Event, Fail> {
    let observers = RingObservers::new(Vec::from_array(alloc, [process(1); 3])?)?;
    let joiner = shared(alloc, &process(2))?;
    said(
        alloc,
        Body::Reply(joiner, Reply::Safe(founding.id(), observers)),
    )
}

/// Process 2 asks, requests and is confirmed, as long as there is memory.
fn joins(rt: &impl Abort, alloc: Global, node: &mut Node) -> Result<(), Fail> {
    let safe = safe(alloc, &founded(alloc, THREE, &[(1, 1)])?)?;
    let both = founded(alloc, THREE, &[(1, 1), (2, 2)])?;
    let confirmed = said(alloc, Body::Confirm(both))?;
    let requests = [Sent::Request(0), Sent::Request(1), Sent::Request(2)];
    let is_member = goes_on(rt, node, &Event::Tick, &[Sent::Question], Phase::Joining)
        && goes_on(rt, node, &safe, &requests, Phase::Joining)
        && goes_on(rt, node, &confirmed, &[], Phase::Member);
    if is_member {
        let stamp = node.installed().first().expect(rt, "a stamp");
        assert!(rt; stamp.members() == 2 && node.installed().len() == 1);
    }
    Ok(())
}

#[test]
fn out_of_memory_in_a_joiner(rt: HostRuntime) -> Result<(), Fail> {
    let node = Node::joiner(rt.alloc(), process(2), endpoint(1))?;
    let mut node = Box::new(rt.alloc(), node)?;
    joins(&rt, rt.alloc(), &mut *node)
}
