// What a node keeps for those who are behind: the decisions in the last 64 configurations that it left.

use crate::node::assertions::{assert_answers, told};
use crate::node::founding::{decision, member, shown};
use crate::node::said::{Said, To};
use crate::numbered::{cut, process, shared};
use rapid_config::ConfigId;
use rapid_message::{Body, Message};
use rapid_node::{Event, Node};
use std::alloc::Global;
use std::process::Abort;
use std::test::Fail;

/// Has a node enter a view, which has process 2 if the one before has it not. Gives the identifier of
/// the configuration that it left.
fn leave(rt: &impl Abort, alloc: Global, node: &mut Node) -> Result<ConfigId, Fail> {
    let left = shown(rt, &*node);
    let event = decision(rt, alloc, &*node, 2)?;
    let outputs = told(node, event)?;
    assert!(rt; outputs.is_empty());
    Ok(left)
}

/// Has a node enter this many views.
fn leave_often(rt: &impl Abort, alloc: Global, node: &mut Node, count: usize) -> Result<(), Fail> {
    for _ in 0..count {
        let _left = leave(rt, alloc, node)?;
    }
    Ok(())
}

/// Process 3 votes in the configuration with this identifier.
fn vote(alloc: Global, id: ConfigId) -> Result<Event, Fail> {
    let body = Body::FastVote(id, cut(alloc, 3)?);
    let sender = shared(alloc, &process(3))?;
    Ok(Event::Receive(Message::new(sender, body)?))
}

/// What is answered to process 3 that is behind by no more than 64 views.
const DECIDED: [(To, Said); 1] = [(To::Node(3), Said::Decision(2))];

/// Checks that a node answers the decision in each of the last 64 configurations that it left, and
/// nothing for the one before them.
fn assert_keeps(rt: &impl Abort, alloc: Global, node: &mut Node) -> Result<(), Fail> {
    let first = vote(alloc, leave(rt, alloc, node)?)?;
    let second = vote(alloc, leave(rt, alloc, node)?)?;
    leave_often(rt, alloc, node, 62)?;
    assert_answers(rt, node, &first, &DECIDED)?;
    leave_often(rt, alloc, node, 1)?;
    assert_answers(rt, node, &first, &[])?;
    assert_answers(rt, node, &second, &DECIDED)
}

#[test]
fn the_last_64_decisions_are_kept(rt: HostRuntime) -> Result<(), Fail> {
    let mut node = member(&rt, rt.alloc(), (1, 1, 1), &[1], 1)?;
    assert_keeps(&rt, rt.alloc(), &mut *node)
}
