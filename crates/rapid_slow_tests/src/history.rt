// A node installs at most 65,536 views.

use crate::numbered::{process, shared};
use rapid_config::{Configuration, Cut, Params};
use rapid_message::{Body, Message};
use rapid_node::{Event, Node, NodeFault, Phase};
use std::alloc::Global;
use std::process::Abort;
use std::test::Fail;

/// How many views a node installs at most.
const MOST_VIEWS: usize = 65536;

/// The node of process 1, which founds a cluster alone.
fn founder(rt: &impl Abort, alloc: Global) -> Result<Box<Node>, Fail> {
    let me = process(1);
    let founding = Configuration::seed(alloc, Params::new(1, 1, 1)?, &[me])?;
    assert!(rt; founding.is_member(&me));
    Ok(Box::new(alloc, Node::seed(alloc, &founding, me)?)?)
}

/// The message that the cut of process 2 is decided in the configuration of a node.
fn decision(rt: &impl Abort, alloc: Global, node: &Node) -> Result<Event, Fail> {
    let shown = node.configuration().expect(rt, "a configuration").id();
    let cut = Cut::new(Vec::from_array(alloc, [process(2)])?)?;
    let sender = shared(alloc, &process(2))?;
    Ok(Event::Receive(Message::new(sender, Body::Decision(shown, cut))?))
}

/// Installs a view, which has the second process if the one before has it not.
fn install_one(rt: &impl Abort, alloc: Global, node: &mut Node) -> Result<(), Fail> {
    let event = decision(rt, alloc, &*node)?;
    let outputs = node.step(&event)?;
    assert!(rt; outputs.is_empty());
    Ok(())
}

/// Installs this many views, which have the second process and have it not, in turn.
fn install(rt: &impl Abort, alloc: Global, node: &mut Node, count: usize) -> Result<(), Fail> {
    for _ in 0..count {
        install_one(rt, alloc, node)?;
    }
    Ok(())
}

/// Checks that a node has installed 65,536 views, of all heights in order, with one and two members
/// in turn, and has the last.
fn assert_full(rt: &impl Abort, node: &Node) {
    assert!(rt; node.installed().len() == MOST_VIEWS);
    for (place, stamp) in node.installed().iter().enumerate() {
        assert!(rt; stamp.height() == place as u64, "at place {place}");
        assert!(rt; stamp.members() == 1 + place % 2, "at place {place}");
    }
    let shown = node.configuration().expect(rt, "a configuration");
    assert!(rt; shown.height() == 65535);
    assert!(rt; shown.members() == [process(1), process(2)].as_slice());
    assert!(rt;
        node.installed()
            .last()
            .is_some_and(|stamp| stamp.id() == shown.id())
    );
}

/// Checks that a node has halted, and says so at an event.
fn assert_halted(rt: &impl Abort, node: &mut Node, event: &Event) {
    assert!(rt; node.phase() == Phase::Halted);
    assert!(rt; node.step(event).err() == Some(NodeFault::Halted));
}

/// Checks that a member installs nothing more, halts and stays so.
fn assert_no_room(rt: &impl Abort, node: &mut Node, decision: &Event) {
    assert!(rt; node.phase() == Phase::Member);
    assert!(rt; node.step(decision).err() == Some(NodeFault::HistoryFull));
    assert_halted(rt, node, decision);
    assert_halted(rt, node, &Event::Tick);
}

/// Checks that a founder alone installs 65,535 views after its founding one, and no more.
fn assert_halts(rt: &impl Abort, alloc: Global, node: &mut Node) -> Result<(), Fail> {
    install(rt, alloc, node, MOST_VIEWS - 1)?;
    assert_full(rt, &*node);
    let decision = decision(rt, alloc, &*node)?;
    assert_no_room(rt, node, &decision);
    assert_full(rt, &*node);
    Ok(())
}

#[test]
fn a_full_history_halts(rt: HostRuntime) -> Result<(), Fail> {
    let mut node = founder(&rt, rt.alloc())?;
    assert_halts(&rt, rt.alloc(), &mut *node)
}
