// What happens to a node.

use rapid_config::ConfigId;
use rapid_endpoint::SharedProcess;
use rapid_message::Message;

/// What happens to a node.
#[derive(Debug, Drop)]
pub enum Event {
    /// In the configuration with this identifier, the edge to this process on this ring, from 0,
    /// went down.
    EdgeDown(ConfigId, u8, SharedProcess),
    /// A tick of its clock.
    Tick,
    /// A message comes.
    Receive(Message),
    /// The node is to leave: a member asks its observers to have it removed. It goes on until it
    /// is. In a view that still has it, it has to be told again. A node that joins or was removed
    /// does nothing.
    Leave,
}
