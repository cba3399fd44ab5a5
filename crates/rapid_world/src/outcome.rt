// Whether a node has an outcome of an event.

ghost use Rattle.std.specs.Prelude.{◌≡◌, ◌&&◌, false, is_some, IfOk};
ghost use Rattle.rapid_model.specs.Node as model;
ghost use Rattle.rapid_model.specs.NodeStep.{node_step};
ghost use Rattle.rapid_node.specs.Steps.{event_of};
ghost use Rattle.rapid_world.specs.Going.{has_room};

use rapid_node::{Event, Node, NodeFault};
use std::alloc::AllocError;
use std::mem;

/// Whether a node has room for a further view.
fn has_room(node: &Node) -> bool
    ensures { result ≡ has_room node.now }
{
    match node.configuration() {
        Some(configuration) => {
            node.installed().len() < Node::MOST_VIEWS && configuration.height() < u64::MAX
        }
        None => true,
    }
}

/// Whether a node has an outcome of an event, and does not halt for a history that is full. It
/// always has one if there is room for a further view; only if there is none a copy of it tries the
/// event.
pub(crate) fn has_outcome(node: &Node, event: &Event) -> Result<bool, AllocError>
    requires { model.is_halted node.now ≡ false }
    ensures { IfOk result (λ has. has ≡ is_some (node_step node.now (event_of event.now))) }
{
    if has_room(node) {
        return Ok(true);
    }
    let mut copy = node.try_copy()?;
    match copy.step(event) {
        Ok(outputs) => {
            mem::drop(outputs);
            Ok(true)
        }
        Err(NodeFault::HistoryFull | NodeFault::Halted) => Ok(false),
        Err(NodeFault::OutOfMemory) => Err(AllocError),
    }
}

/// Whether the event by which a node halted is marked: it is if the node has an outcome without the
/// mark.
pub(crate) fn is_marked(halts: bool, has_outcome: bool) -> bool
    ensures { result ≡ (halts && has_outcome) }
{
    halts && has_outcome
}
