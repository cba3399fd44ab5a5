// Phases of a desk's node, and the end of subscriptions when it has halted.

ghost use Rattle.std.specs.Prelude.{◌≤◌, ◌<◌};

use crate::desk::founding::{alone, decision, founding, step};
use crate::numbered::process;
use rapid_config::Configuration;
use rapid_desk::{Desk, DeskError, Taken};
use rapid_endpoint::Endpoint;
use rapid_node::{NodeFault, Phase};
use std::alloc::{AllocError, Global};
use std::process::Abort;
use std::sync::Wait;
use std::test::*;

#[test]
fn a_desk_tells_its_phase(rt: HostRuntime) -> Result<(), Fail> {
    let founder = alone(&rt, rt.alloc(), 1)?;
    assert!(rt; founder.phase() == Phase::Member);
    let seed = Endpoint::new([127, 0, 0, 1], 1);
    let guest = Desk::joiner(&rt, rt.alloc(), process(2), seed, 1)?;
    let guest = Box::new(rt.alloc(), guest)?;
    assert!(rt; guest.phase() == Phase::Joining);
    Ok(())
}

/// The configuration of process 1 alone at the greatest height.
fn at_last_height(alloc: Global) -> Result<Configuration, Fail> {
    let mut bytes = founding(alloc)?.to_bytes(alloc)?;
    for place in 36..44 {
        bytes[place] = 255;
    }
    Ok(Configuration::from_bytes(alloc, bytes.as_slice())?)
}

/// The desk of process 1 alone at the greatest height, at which it can install nothing more.
fn last<R: Wait + Abort>(rt: &R, alloc: Global) -> Result<(Box<Desk<&R>>, Configuration), Fail> {
    let configuration = at_last_height(alloc)?;
    let me = process(1);
    assert!(rt; configuration.is_member(&me));
    match Desk::seed(rt, alloc, &configuration, me, 1) {
        Err(DeskError::Unpublished) => Err(AllocError)?,
        made => Ok((Box::new(alloc, made?)?, configuration)),
    }
}

/// The node halts at a decision, which no subscriber hears. Once the desk is closed the subscriber
/// hears the end.
fn ends<R: Wait + Abort>(
    rt: &R,
    alloc: Global,
    desk: &mut Desk<&R>,
    configuration: &Configuration,
) -> Result<(), Fail> {
    let mut subscription = desk.subscribe(2)?;
    let refused = step(desk, decision(alloc, configuration.id(), 2)?);
    assert!(rt; matches!(refused, Err(DeskError::Node(NodeFault::HistoryFull))));
    assert!(rt; desk.phase() == Phase::Halted);
    assert!(rt; matches!(subscription.take(rt), Taken::Empty));
    desk.close();
    assert!(rt; matches!(subscription.take(rt), Taken::Closed));
    Ok(())
}

#[test]
fn a_subscriber_of_a_halted_desk_is_told_the_end(rt: HostRuntime) -> Result<(), Fail> {
    let (mut desk, configuration) = last(&rt, rt.alloc())?;
    ends(&rt, rt.alloc(), &mut *desk, &configuration)
}
