// Desks to begin with, and the decisions that they get.

ghost use Rattle.std.specs.Prelude.{◌≤◌, ◌<◌};

use crate::numbered::{cut, process, shared};
use rapid_config::{ConfigId, Configuration, Params};
use rapid_desk::{Desk, DeskError};
use rapid_message::{Body, Message};
use rapid_node::Event;
use std::alloc::{AllocError, Global};
use std::process::Abort;
use std::sync::Wait;
use std::test::Fail;

/// The founding configuration of process 1 alone.
pub(crate) fn founding(alloc: Global) -> Result<Configuration, Fail> {
    let params = Params::new(3, 3, 1)?;
    Ok(Configuration::seed(alloc, params, &[process(1)])?)
}

/// The configuration after a cut of the process with this number.
pub(crate) fn after(
    alloc: Global,
    configuration: &Configuration,
    number: u16,
) -> Result<Configuration, Fail> {
    Ok(configuration.apply(alloc, &cut(alloc, number)?)?)
}

/// Process 2 says that in the configuration with this identifier the cut of this process was
/// decided.
pub(crate) fn decision(alloc: Global, id: ConfigId, number: u16) -> Result<Event, Fail> {
    let sender = shared(alloc, &process(2))?;
    let message = Message::new(sender, Body::Decision(id, cut(alloc, number)?))?;
    Ok(Event::Receive(message))
}

/// Process 1 confirms that the configuration was installed.
pub(crate) fn confirmation(alloc: Global, configuration: Configuration) -> Result<Event, Fail> {
    let sender = shared(alloc, &process(1))?;
    let message = Message::new(sender, Body::Confirm(configuration))?;
    Ok(Event::Receive(message))
}

/// An event that the journal keeps.
pub(crate) fn edge_down(alloc: Global) -> Result<Event, AllocError> {
    let subject = shared(alloc, &process(2))?;
    Ok(Event::EdgeDown(ConfigId::zero(), 0, subject))
}

/// The desk of process 1 alone, with this many seats. If its first view was not published, memory
/// had run out.
pub(crate) fn alone<R: Wait + Abort>(
    rt: &R,
    alloc: Global,
    seats: usize,
) -> Result<Box<Desk<&R>>, Fail>
    requires { (0 < seats) × (seats ≤ 64) }
{
    let configuration = founding(alloc)?;
    let me = process(1);
    assert!(rt; configuration.is_member(&me));
    match Desk::seed(rt, alloc, &configuration, me, seats) {
        Err(DeskError::Unpublished) => Err(AllocError)?,
        made => Ok(Box::new(alloc, made?)?),
    }
}

/// One event at the desk. What is to be sent after it is dropped.
pub(crate) fn step<R: Wait>(desk: &mut Desk<&R>, event: Event) -> Result<(), DeskError> {
    desk.step(event)?;
    Ok(())
}

/// Gives the decision on the cut of this process to the desk, in the configuration with this
/// identifier.
pub(crate) fn decide<R: Wait>(
    alloc: Global,
    desk: &mut Desk<&R>,
    id: ConfigId,
    number: u16,
) -> Result<(), Fail> {
    step(desk, decision(alloc, id, number)?)?;
    Ok(())
}

/// Gives the decisions to let in processes 2, 3 and 4 to the desk of process 1 alone. Gives the
/// configuration after them.
pub(crate) fn let_three_in<R: Wait>(
    alloc: Global,
    desk: &mut Desk<&R>,
) -> Result<Configuration, Fail> {
    let mut configuration = founding(alloc)?;
    for number in 2..5u16 {
        decide(alloc, desk, configuration.id(), number)?;
        configuration = after(alloc, &configuration, number)?;
    }
    Ok(configuration)
}
