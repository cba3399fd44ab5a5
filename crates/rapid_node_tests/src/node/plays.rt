// What is done to a network and asked of it, line by line.

use crate::node::assertions::{
    assert_installs, assert_phase, assert_sent_after, assert_shows, assert_views,
};
use crate::node::network::{Action, Network};
use crate::node::said::{Said, To};
use rapid_node::Phase;
use std::alloc::Global;
use std::process::Abort;
use std::test::Fail;

/// A message that was sent: who, to whom, and what.
pub type Sent = (u16, To, Said);

/// What is done to a network, or asked of it.
#[derive(Clone, Copy)]
pub enum Line<'a> {
    /// This is done to it.
    Does(&'a [Action]),
    /// This is done to it, and the nodes send just that.
    Sends(&'a [Action], &'a [Sent]),
    /// After this many messages the nodes sent these, and no more.
    SentAfter(usize, &'a [Sent]),
    /// The nodes sent this many messages.
    SentCount(usize),
    /// This many packets were sent.
    Packets(usize),
    /// These nodes installed configurations of these heights, in order, beside the founding one.
    Installs(&'a [(u16, u64)]),
    /// These nodes are members of the configuration of this height and these members.
    Views(&'a [u16], u64, &'a [u16]),
    /// This node was removed by the configuration of this height and these members.
    Removed(u16, u64, &'a [u16]),
}

/// Does this to a network, and checks that just that is sent.
fn sends(
    rt: &impl Abort,
    network: &mut Network,
    actions: &[Action],
    expected: &[Sent],
) -> Result<(), Fail> {
    let before = network.sent().len();
    network.run(rt, actions)?;
    assert_sent_after(rt, network, before, expected);
    Ok(())
}

/// Checks that a node was removed by the configuration of this height and these members.
fn assert_removed(rt: &impl Abort, network: &Network, node: u16, height: u64, members: &[u16]) {
    let node = network.node(node).expect(rt, "a node");
    assert_phase(rt, node, Phase::Removed);
    assert_shows(rt, node, height, members);
}

/// Checks what a line asks of a network.
fn assert_line(rt: &impl Abort, network: &Network, line: Line) {
    match line {
        Line::SentAfter(before, expected) => assert_sent_after(rt, network, before, expected),
        Line::SentCount(sent) => assert!(rt; network.sent().len() == sent),
        Line::Packets(packets) => assert!(rt; network.packets() == packets),
        Line::Installs(expected) => assert_installs(rt, network, expected),
        Line::Views(nodes, height, members) => assert_views(rt, network, nodes, height, members),
        Line::Removed(node, height, members) => assert_removed(rt, network, node, height, members),
        Line::Does(_) | Line::Sends(_, _) => {}
    }
}

/// Does to a network, or asks of it, what a line says.
fn play(rt: &impl Abort, network: &mut Network, line: Line) -> Result<(), Fail> {
    match line {
        Line::Does(actions) => network.run(rt, actions),
        Line::Sends(actions, expected) => sends(rt, network, actions, expected),
        _ => {
            assert_line(rt, network, line);
            Ok(())
        }
    }
}

/// Does to a network, or asks of it, what these lines say, in order.
fn play_all(rt: &impl Abort, network: &mut Network, lines: &[Line]) -> Result<(), Fail> {
    for line in lines {
        play(rt, network, *line)?;
    }
    Ok(())
}

/// Does to the network of these founders, or asks of it, what these lines say, in order.
pub fn plays(
    rt: &impl Abort,
    alloc: Global,
    params: (u8, u8, u8),
    founders: &[u16],
    lines: &[Line],
) -> Result<(), Fail> {
    let mut network = Network::found(rt, alloc, params, founders)?;
    play_all(rt, &mut network, lines)
}
