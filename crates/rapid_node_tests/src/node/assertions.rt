// What the tests ask of a network and of its nodes.

use crate::node::network::Network;
use crate::node::said::{Said, To, said_by, whom};
use crate::numbered::process;
use rapid_config::ConfigId;
use rapid_endpoint::Process;
use rapid_message::Outputs;
use rapid_node::{Event, Node, NodeFault, Phase};
use std::process::Abort;
use std::test::Fail;

/// Checks what the nodes sent after this many messages, in order: who, to whom, and what.
pub fn assert_sent_after(
    rt: &impl Abort,
    network: &Network,
    before: usize,
    expected: &[(u16, To, Said)],
) {
    let all = network.sent().iter().skip(before).zip(expected);
    for (place, (sent, expected)) in all.enumerate() {
        assert_eq!(rt; sent, expected, "at {place}");
    }
    assert_eq!(rt; network.sent().len().wrapping_sub(before), expected.len());
}

/// Checks which node installed a configuration of which height, in order, beside the founding one.
pub fn assert_installs(rt: &impl Abort, network: &Network, expected: &[(u16, u64)]) {
    assert_eq!(rt; network.installs(), expected);
}

/// Checks that a node's configuration has this height and these members, and that it installed that
/// last.
pub fn assert_shows(rt: &impl Abort, node: &Node, height: u64, members: &[u16]) {
    let shown = node.configuration().expect(rt, "a configuration");
    assert_eq!(rt; shown.height(), height);
    assert_members(rt, shown.members(), members);
    assert_last(rt, node, shown.id(), height, members.len());
}

/// Checks that these are the processes with these numbers.
fn assert_members(rt: &impl Abort, shown: &[Process], members: &[u16]) {
    assert_eq!(rt; shown.len(), members.len());
    for (member, number) in shown.iter().zip(members) {
        assert!(rt; *member == process(*number), "at the member {number}");
    }
}

/// Checks that the last configuration that a node installed has this identifier, this height and
/// this many members.
fn assert_last(rt: &impl Abort, node: &Node, id: ConfigId, height: u64, members: usize) {
    let last = node.installed().last().expect(rt, "a stamp");
    assert_eq!(rt; last.height(), height);
    assert_eq!(rt; last.members(), members);
    assert!(rt; last.id() == id);
}

/// Checks that a node is a member of the configuration of this height and these members.
pub fn assert_view(rt: &impl Abort, network: &Network, node: u16, height: u64, members: &[u16]) {
    let node = network.node(node).expect(rt, "a node");
    assert_phase(rt, node, Phase::Member);
    assert_shows(rt, node, height, members);
}

/// Checks that these nodes are members of the configuration of this height and these members.
pub fn assert_views(
    rt: &impl Abort,
    network: &Network,
    nodes: &[u16],
    height: u64,
    members: &[u16],
) {
    for node in nodes {
        assert_view(rt, network, *node, height, members);
    }
}

/// Checks the phase of a node.
pub fn assert_phase(rt: &impl Abort, node: &Node, phase: Phase) {
    assert_eq!(rt; node.phase(), phase);
}

/// Gives a node an event, and answers what it sends.
pub fn told_of(node: &mut Node, event: &Event) -> Result<Outputs, NodeFault> {
    node.step(event)
}

/// Gives a node an event that is not needed any more, and answers what it sends.
pub fn told(node: &mut Node, event: Event) -> Result<Outputs, NodeFault> {
    told_of(node, &event)
}

/// Checks that a node has halted, and says so at an event.
pub fn assert_halted(rt: &impl Abort, node: &mut Node, event: &Event) {
    assert_phase(rt, node, Phase::Halted);
    assert!(rt; told_of(node, event).err() == Some(NodeFault::Halted));
}

/// Checks what a node sent in a step, in order: to whom, and what.
pub fn assert_outputs(rt: &impl Abort, outputs: &Outputs, expected: &[(To, Said)]) {
    for (place, (output, expected)) in outputs.iter().zip(expected).enumerate() {
        let sent = (whom(output.to()), said_by(output.message().body()));
        assert_eq!(rt; sent, *expected, "at {place}");
    }
    assert_eq!(rt; outputs.len(), expected.len());
}

/// Gives an event to a node and checks what it sends, in order: to whom, and what.
pub fn assert_answers(
    rt: &impl Abort,
    node: &mut Node,
    event: &Event,
    expected: &[(To, Said)],
) -> Result<(), Fail> {
    let outputs = told_of(node, event)?;
    for output in &outputs {
        assert!(rt; output.message().sender() == node.process());
    }
    assert_outputs(rt, &outputs, expected);
    Ok(())
}
