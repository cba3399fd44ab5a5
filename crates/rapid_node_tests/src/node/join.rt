// A process joins, in two phases.

use crate::node::assertions::{assert_answers, assert_phase, assert_shows, told};
use crate::node::founding::{founding, joiner, member};
use crate::node::network::Action;
use crate::node::plays::{Line, plays};
use crate::node::said::{Said, To};
use crate::numbered::{process, shared, tagged};
use rapid_config::Configuration;
use rapid_endpoint::Process;
use rapid_join::Reply;
use rapid_message::{Body, Destination, Message, Outputs};
use rapid_node::{Event, Node, Phase};
use std::alloc::Global;
use std::process::Abort;
use std::test::Fail;

/// The second process joins by the first. Its requests come twice.
const JOIN: [Action; 7] = [
    Action::Start { node: 2, seed: 1 },
    Action::Tick(2, 1),
    Action::Flow,
    Action::Deliver(3),
    Action::Deliver(4),
    Action::Deliver(5),
    Action::Tick(1, 1),
];

/// What the two send. There is no other member to whom the batch and the vote could go, so these
/// make no packets.
const SENT: [(u16, To, Said); 8] = [
    (2, To::Node(1), Said::PreJoin),
    (1, To::Node(2), Said::Safe(3)),
    (2, To::Node(1), Said::JoinRequest(0)),
    (2, To::Node(1), Said::JoinRequest(1)),
    (2, To::Node(1), Said::JoinRequest(2)),
    (1, To::Others, Said::Batch(3)),
    (1, To::Others, Said::Vote(2)),
    (1, To::Node(2), Said::Confirm(2)),
];

/// The joiner is in after six packets.
const SIX_PACKETS: [Line; 6] = [
    Line::Does(&JOIN),
    Line::Does(&[Action::Flow]),
    Line::SentAfter(0, &SENT),
    Line::Packets(6),
    Line::Installs(&[(1, 1), (2, 1)]),
    Line::Views(&[1, 2], 1, &[1, 2]),
];

#[test]
fn a_process_joins_with_six_packets(rt: HostRuntime) -> Result<(), Fail> {
    plays(&rt, rt.alloc(), (3, 3, 1), &[1], &SIX_PACKETS)
}

/// If the confirmation is lost, the joiner asks again at its tick 11, and not before.
const ASKS_AGAIN: [Line; 7] = [
    Line::Does(&JOIN),
    Line::Does(&[Action::Drop(6), Action::Tick(2, 9), Action::Flow]),
    Line::Packets(6),
    Line::Installs(&[(1, 1)]),
    Line::Does(&[Action::Tick(2, 1), Action::Flow]),
    Line::Packets(8),
    Line::Installs(&[(1, 1), (2, 1)]),
];

#[test]
fn a_joiner_asks_again(rt: HostRuntime) -> Result<(), Fail> {
    plays(&rt, rt.alloc(), (3, 3, 1), &[1], &ASKS_AGAIN)
}

/// A member that asks again is confirmed.
const CONFIRMED: [Line; 4] = [
    Line::Does(&JOIN),
    Line::Does(&[Action::Drop(6), Action::Tick(2, 10), Action::Flow]),
    Line::SentAfter(
        SENT.len(),
        &[
            (2, To::Node(1), Said::PreJoin),
            (1, To::Node(2), Said::Confirm(2)),
        ],
    ),
    Line::Views(&[1, 2], 1, &[1, 2]),
];

#[test]
fn a_member_that_asks_again_is_confirmed(rt: HostRuntime) -> Result<(), Fail> {
    plays(&rt, rt.alloc(), (3, 3, 1), &[1], &CONFIRMED)
}

/// A joiner is answered in one configuration and asks its observers in the next: they say so, and
/// it starts over at once.
const BEGINS_ANEW: [Line; 2] = [
    Line::Does(&[
        Action::Start { node: 3, seed: 1 },
        Action::Tick(3, 1),
        Action::Deliver(1),
        Action::Deliver(2),
        Action::Decide {
            node: 1,
            subject: 2,
        },
        Action::Deliver(3),
        Action::Deliver(6),
    ]),
    Line::SentAfter(
        0,
        &[
            (3, To::Node(1), Said::PreJoin),
            (1, To::Node(3), Said::Safe(3)),
            (3, To::Node(1), Said::JoinRequest(0)),
            (3, To::Node(1), Said::JoinRequest(1)),
            (3, To::Node(1), Said::JoinRequest(2)),
            (1, To::Node(3), Said::ConfigurationChanged),
            (3, To::Node(1), Said::PreJoin),
        ],
    ),
];

#[test]
fn a_joiner_that_is_late_begins_anew(rt: HostRuntime) -> Result<(), Fail> {
    plays(&rt, rt.alloc(), (3, 3, 1), &[1], &BEGINS_ANEW)
}

/// Whether this is just an answer to a joiner, at its endpoint, that its identifier or its endpoint
/// is held.
fn is_in_use(outputs: &Outputs, joiner: &Process) -> bool {
    match outputs.as_slice() {
        [output] => match output.message().body() {
            Body::Reply(named, Reply::EndpointInUse) => {
                named.is(joiner) && output.to() == Destination::To(joiner.endpoint())
            }
            _ => false,
        },
        _ => false,
    }
}

/// Asks a node to let a process in.
fn asked(alloc: Global, node: &mut Node, joiner: &Process) -> Result<Outputs, Fail> {
    let question = Event::Receive(Message::new(shared(alloc, joiner)?, Body::PreJoin)?);
    Ok(told(node, question)?)
}

/// Checks that a node refuses a process.
fn assert_refuses(
    rt: &impl Abort,
    alloc: Global,
    node: &mut Node,
    joiner: Process,
) -> Result<(), Fail> {
    let outputs = asked(alloc, node, &joiner)?;
    assert!(rt; is_in_use(&outputs, &joiner));
    Ok(())
}

#[test]
fn an_endpoint_in_use_is_refused(rt: HostRuntime) -> Result<(), Fail> {
    let mut node = member(&rt, rt.alloc(), (3, 3, 1), &[1], 1)?;
    let joiner = Process::new(process(9).id(), process(1).endpoint());
    assert_refuses(&rt, rt.alloc(), &mut *node, joiner)
}

#[test]
fn a_member_with_other_tags_is_refused(rt: HostRuntime) -> Result<(), Fail> {
    let mut node = member(&rt, rt.alloc(), (3, 3, 1), &[1, 2], 1)?;
    assert_refuses(&rt, rt.alloc(), &mut *node, tagged(1, &[b"db"])?)?;
    assert_refuses(&rt, rt.alloc(), &mut *node, tagged(2, &[b"db"])?)
}

/// The first process confirms a configuration.
fn confirmation(alloc: Global, configuration: Configuration) -> Result<Event, Fail> {
    let sender = shared(alloc, &process(1))?;
    Ok(Event::Receive(Message::new(sender, Body::Confirm(configuration))?))
}

/// Confirms the configuration of these founders to a node.
fn confirm(rt: &impl Abort, alloc: Global, node: &mut Node, founders: &[u16]) -> Result<(), Fail> {
    let confirmation = confirmation(alloc, founding(rt, alloc, (3, 3, 1), founders)?)?;
    assert_answers(rt, node, &confirmation, &[])
}

/// The second process joins by the first, and the configuration of these founders is confirmed to
/// it.
fn confirmed(rt: &impl Abort, alloc: Global, founders: &[u16]) -> Result<Box<Node>, Fail> {
    let mut node = Box::new(alloc, joiner(alloc, 2, 1)?)?;
    confirm(rt, alloc, &mut *node, founders)?;
    Ok(node)
}

/// A configuration without the joiner makes it no member.
#[test]
fn a_confirmation_of_others_does_nothing(rt: HostRuntime) -> Result<(), Fail> {
    let node = confirmed(&rt, rt.alloc(), &[1])?;
    assert_joins(&rt, &*node);
    Ok(())
}

/// A configuration with the joiner's identifier and endpoint, and other tags, is one without it.
#[test]
fn a_confirmation_of_other_tags_does_nothing(rt: HostRuntime) -> Result<(), Fail> {
    let seed = process(1).endpoint();
    let node = Node::joiner(rt.alloc(), tagged(2, &[b"db"])?, seed)?;
    let mut node = Box::new(rt.alloc(), node)?;
    confirm(&rt, rt.alloc(), &mut *node, &[1, 2])?;
    assert_joins(&rt, &*node);
    Ok(())
}

/// Checks that a node joins still and has installed nothing.
fn assert_joins(rt: &impl Abort, node: &Node) {
    assert_phase(rt, node, Phase::Joining);
    assert!(rt; node.installed().is_empty());
    assert!(rt; node.configuration().is_none());
}

/// A configuration with the joiner makes it a member.
#[test]
fn a_confirmation_makes_a_member(rt: HostRuntime) -> Result<(), Fail> {
    let node = confirmed(&rt, rt.alloc(), &[1, 2])?;
    assert_member(&rt, &*node);
    Ok(())
}

/// Checks that a node is one of two founders.
fn assert_member(rt: &impl Abort, node: &Node) {
    assert_phase(rt, node, Phase::Member);
    assert_shows(rt, node, 0, &[1, 2]);
}
