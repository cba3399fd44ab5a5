// What a node shares with its driver, and views that nodes share.

use crate::node::assertions::assert_shows;
use crate::node::founding::{decision, founding, member, shown};
use crate::numbered::{process, tagged};
use rapid_config::Configuration;
use rapid_message::Outputs;
use rapid_node::{Event, Node, NodeFault, Views};
use std::alloc::Global;
use std::process::Abort;
use std::test::Fail;

/// Checks that a node shares its configuration.
fn assert_shared(rt: &impl Abort, node: &Node) -> Result<(), Fail> {
    let shared = node.shared_configuration()?.expect(rt, "a configuration");
    assert!(rt; shared.id() == shown(rt, node));
    Ok(())
}

/// Checks that a node shares its configuration, and observes the second process on ring 2 and no
/// process on ring 3.
fn assert_looked_at(rt: &impl Abort, node: &Node) -> Result<(), Fail> {
    assert_shared(rt, node)?;
    assert!(rt; node.rings().is_some());
    assert!(rt; node.observed(2) == Some(process(2)));
    assert!(rt; node.observed(3).is_none());
    Ok(())
}

/// A member shares its configuration, and answers whom it observes on each ring.
#[test]
fn a_member_is_looked_at(rt: HostRuntime) -> Result<(), Fail> {
    let node = member(&rt, rt.alloc(), (3, 3, 1), &[1, 2], 1)?;
    assert_looked_at(&rt, &*node)
}

/// Who it is a node shares with all that it says, its tags too.
#[test]
fn a_node_shares_who_it_is(rt: HostRuntime) -> Result<(), Fail> {
    let guest = tagged(2, &[b"db"])?;
    let node = Node::joiner(rt.alloc(), guest, process(1).endpoint())?;
    assert!(rt; *node.shared_process().get() == guest);
    Ok(())
}

/// The node of the founder with this number, by these views.
fn founder_in(
    rt: &impl Abort,
    alloc: Global,
    views: &mut Views,
    configuration: &Configuration,
    number: u16,
) -> Result<Box<Node>, Fail> {
    let me = process(number);
    assert!(rt; configuration.is_member(&me));
    let node = Node::seed_in(alloc, views, configuration, me)?;
    Ok(Box::new(alloc, node)?)
}

/// Gives an event to a node by these views, and answers what it sends.
fn told_in(node: &mut Node, views: &mut Views, event: Event) -> Result<Outputs, NodeFault> {
    node.step_in(views, &event)
}

/// Gives a node the decision that removes the third process, and checks what it enters, by these
/// views.
fn assert_entered(
    rt: &impl Abort,
    node: &mut Node,
    views: &mut Views,
    decision: Event,
) -> Result<(), Fail> {
    let sent = told_in(node, views, decision)?;
    assert!(rt; sent.is_empty());
    assert_shows(rt, &*node, 1, &[1, 2]);
    Ok(())
}

/// Checks that a node, by these views, enters the configuration without the third process.
fn assert_cuts(
    rt: &impl Abort,
    alloc: Global,
    node: &mut Node,
    views: &mut Views,
) -> Result<(), Fail> {
    let decision = decision(rt, alloc, &*node, 3)?;
    assert_entered(rt, node, views, decision)
}

/// Checks that a founder enters, by these views, the configuration without the third process.
fn assert_enters(
    rt: &impl Abort,
    alloc: Global,
    views: &mut Views,
    configuration: &Configuration,
    number: u16,
) -> Result<(), Fail> {
    let mut node = founder_in(rt, alloc, views, configuration, number)?;
    assert_cuts(rt, alloc, &mut *node, views)
}

/// Checks that the first two founders enter, by these views, the configuration without the third
/// process.
fn assert_both_enter(
    rt: &impl Abort,
    alloc: Global,
    views: &mut Views,
    configuration: &Configuration,
) -> Result<(), Fail> {
    assert_enters(rt, alloc, views, configuration, 1)?;
    assert_enters(rt, alloc, views, configuration, 2)
}

/// The height of the view that was entered last, if any is kept.
fn newest_height(views: &Views) -> Option<u64> {
    match views.newest() {
        Some(configuration) => Some(configuration.height()),
        None => None,
    }
}

/// Checks that two founders of three enter the configuration without the third, by views that keep
/// this many, and that this is the newest view then, or that none is kept.
fn assert_enter(
    rt: &impl Abort,
    alloc: Global,
    most: usize,
    newest: Option<u64>,
) -> Result<(), Fail> {
    let configuration = founding(rt, alloc, (3, 3, 1), &[1, 2, 3])?;
    let mut views = Views::new(alloc, most);
    assert_both_enter(rt, alloc, &mut views, &configuration)?;
    assert!(rt; newest_height(&views) == newest);
    Ok(())
}

/// Nodes that share views enter what they would enter without.
#[test]
fn founders_share_views(rt: HostRuntime) -> Result<(), Fail> {
    assert_enter(&rt, rt.alloc(), 4, Some(1))
}

/// So do nodes whose views are forgotten at once, and those that keep none.
#[test]
fn founders_forget_views(rt: HostRuntime) -> Result<(), Fail> {
    assert_enter(&rt, rt.alloc(), 0, None)?;
    assert_enter(&rt, rt.alloc(), 1, Some(1))
}
