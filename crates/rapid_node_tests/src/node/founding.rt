// Configurations and nodes to begin with.

use crate::numbered::{cut, process, shared};
use rapid_config::{ConfigId, Configuration, Params};
use rapid_message::{Body, Message};
use rapid_node::{Event, Node};
use std::alloc::Global;
use std::process::Abort;
use std::test::Fail;

/// The founding configuration of the processes with these numbers, with this many rings and these
/// two marks.
pub fn founding(
    rt: &impl Abort,
    alloc: Global,
    (k, h, l): (u8, u8, u8),
    numbers: &[u16],
) -> Result<Configuration, Fail> {
    let mut founders = Vec::new(alloc);
    for number in numbers {
        founders.push(process(*number))?;
    }
    assert!(rt; !founders.is_empty());
    let params = Params::new(k, h, l)?;
    Ok(Configuration::seed(alloc, params, founders.as_slice())?)
}

/// The node of the founder with this number.
pub fn founder(
    rt: &impl Abort,
    alloc: Global,
    configuration: &Configuration,
    number: u16,
) -> Result<Node, Fail> {
    let me = process(number);
    assert!(rt; configuration.is_member(&me));
    Ok(Node::seed(alloc, configuration, me)?)
}

/// The node with this number of those founders.
pub fn member(
    rt: &impl Abort,
    alloc: Global,
    params: (u8, u8, u8),
    founders: &[u16],
    number: u16,
) -> Result<Box<Node>, Fail> {
    let configuration = founding(rt, alloc, params, founders)?;
    let node = founder(rt, alloc, &configuration, number)?;
    Ok(Box::new(alloc, node)?)
}

/// The node of the process with this number, which joins by another.
pub fn joiner(alloc: Global, number: u16, seed: u16) -> Result<Node, Fail> {
    Ok(Node::joiner(alloc, process(number), process(seed).endpoint())?)
}

/// The identifier of a node's configuration.
pub fn shown(rt: &impl Abort, node: &Node) -> ConfigId {
    node.configuration().expect(rt, "a configuration").id()
}

/// The message to a node, from the process with this number, that the cut of that process is
/// decided in its configuration.
pub fn decision(rt: &impl Abort, alloc: Global, node: &Node, number: u16) -> Result<Event, Fail> {
    let body = Body::Decision(shown(rt, node), cut(alloc, number)?);
    let sender = shared(alloc, &process(number))?;
    Ok(Event::Receive(Message::new(sender, body)?))
}
