// What is said of an observed edge.

use rapid_endpoint::Process;

/// An observed edge.
#[derive(Clone, Copy, Debug)]
pub struct EdgeState {
    /// The ring, from 0.
    pub ring: u8,
    /// The member that is observed on the ring.
    pub member: Process,
    /// Whether the edge is down.
    pub is_down: bool,
}
