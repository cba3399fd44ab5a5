// What happens to a world.

use rapid_endpoint::{Endpoint, Process, ProcessId};

/// What happens to a world. Nodes go by their identifiers, and packets by their numbers, from 1 in
/// the order sent.
#[derive(Clone, Copy, Debug)]
pub enum WorldEvent {
    /// The process starts to join by the seed at this endpoint.
    Start(Process, Endpoint),
    /// A probe by the node of the member that it observes on this ring, from 0, has finished. The
    /// result is whether it was answered.
    Probe(ProcessId, u8, bool),
    /// The clock of the node ticks.
    Tick(ProcessId),
    /// The packet with this number comes to the node at its endpoint. It may come again later.
    Deliver(u64),
    /// The node stops for good.
    Crash(ProcessId),
    /// The node is to leave: a member asks its observers to have it removed.
    Leave(ProcessId),
}
