// Messages that come, as they are read from their frames.

ghost use Rattle.std.specs.Prelude.{◌≡◌, ◌<◌, ◌≤◌, IfOk, IfSome};
ghost use Rattle.std.specs.Arc.{arc_value};
ghost use Rattle.rapid_model.specs.Frame.{IsFrame};
ghost use Rattle.rapid_model.specs.Message.{Message as ModelMessage};
ghost use Rattle.rapid_node.specs.Steps.{event_of};
ghost use Rattle.rapid_world.specs.Arrivals.{IsReadFrom};

use rapid_config::Configuration;
use rapid_node::Event;
use rapid_wire::read_frame;
use std::alloc::{AllocError, Global};
use std::sync::Arc;

/// What a node takes as the message of a frame, read from it. A configuration may be near.
pub(crate) fn read_event(
    alloc: Global,
    near: Option<&Configuration>,
    frame: &[u8],
) -> Result<Arc<Event, Global>, AllocError>
    requires { (m : ModelMessage) × IsFrame frame.now m }
    ensures { IfOk result (λ e. IsReadFrom frame.now (event_of (arc_value e))) }
{
    let message = read_frame(alloc, near, frame)?;
    let event = Arc::new(alloc, Event::Receive(message))?;
    Ok(event)
}

/// The message that came last, as a node takes it, and the packets of its frame: those with numbers
/// above one, up to another. The packets of a message to many have one frame, and mostly come one
/// after the other. So it is read once for them.
#[derive(Drop)]
pub(crate) struct Arrived {
    pub(crate) first: u64,
    pub(crate) end: u64,
    pub(crate) event: Arc<Event, Global>,
}

impl Arrived {
    /// The message, if the packet with this number has its frame.
    pub(crate) fn of(&self, number: u64) -> Option<&Arc<Event, Global>>
        ensures { IfSome result (λ e. (event_of (arc_value e.now) ≡ event_of (arc_value self.now.event)) × (self.now.first < number) × (number ≤ self.now.end)) }
    {
        if self.first < number && number <= self.end {
            Some(&self.event)
        } else {
            None
        }
    }
}
