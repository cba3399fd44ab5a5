// What can be read off a world.

ghost use Rattle.std.specs.Prelude.{◌≡◌, length, slice_get, IfOk, None};
ghost use Rattle.std.specs.List.{find};
ghost use Rattle.std.specs.Option.{option_map};
ghost use Rattle.rapid_model.specs.StoredWorld.{world_of};
ghost use Rattle.rapid_model.specs.Turn.{next_node, next_packet};
ghost use Rattle.rapid_model.specs.World as model;
ghost use Rattle.rapid_world.specs.Events.{marked_of};
ghost use Rattle.rapid_world.specs.Framed.{IsFrameOf};
ghost use Rattle.rapid_world.specs.Worlds.{observed_by};

use crate::lookups::running_ids;
use crate::{World, WorldEvent};
use rapid_endpoint::{Endpoint, Process, ProcessId};
use rapid_node::Node;
use std::alloc::AllocError;

impl World {
    /// An event that it accepted, from 0 in order, and whether its node halted in it because it was
    /// out of memory.
    pub fn event(&self, i: usize) -> Option<(WorldEvent, bool)>
        ensures { option_map marked_of result ≡ slice_get self.now.events i }
    {
        self.stored().event(i)
    }

    /// The node of a founder, or of a process that was started, as it stands or as it ended.
    pub fn node(&self, id: &ProcessId) -> Option<&Node>
        ensures { option_map (λ node. node.now) result ≡ model.node_of (world_of self.now) id.now }
    {
        self.peers().find_under(id)
    }

    /// The identifiers of all nodes that run, ascending: they were not made to crash, and have not
    /// halted.
    pub fn running(&self) -> Result<Vec<ProcessId>, AllocError>
        ensures { IfOk result (λ ids. ids.items ≡ model.running (world_of self.now)) }
    {
        running_ids(self.alloc(), self.peers().as_slice())
    }

    /// The identifier of the next node that runs. It is the least above the one given. If there is
    /// none, or none is given, it is the least of all. None if no node runs. It takes no memory.
    pub fn next_running(&self, last: Option<ProcessId>) -> Option<ProcessId>
        ensures { result ≡ next_node (model.running (world_of self.now)) last }
    {
        match last {
            Some(last) => match self.peers().running_above(&last) {
                Some(id) => Some(id),
                None => self.peers().least_running(),
            },
            None => self.peers().least_running(),
        }
    }

    /// How many packets were sent so far.
    pub fn packets(&self) -> u64
        ensures { result ≡ length (world_of self.now).packets }
    {
        self.mail().sent()
    }

    /// The packet with this number, from 1: the endpoint to which it goes, and its frame, which is
    /// the one spelling of its message. None if no packet with the number was sent.
    #[tactic(auto, using(crate::proofs::Framing::frame_of_packet))]
    pub fn frame(&self, packet: u64) -> Option<(Endpoint, &[u8])>
        ensures { IsFrameOf (model.packet (world_of self.now) packet) (option_map (λ x. (x.0, x.1.now)) result) }
    {
        self.mail().packet(packet)
    }

    /// Whether the packet with this number, from 1, was sent, and a node runs at its endpoint.
    pub fn can_deliver(&self, packet: u64) -> bool
        ensures { result ≡ model.can_deliver (world_of self.now) packet }
    {
        match self.frame(packet) {
            Some(frame) => self.running_at(frame.0).is_some(),
            None => false,
        }
    }

    /// The least packet above this number that was sent and to whose endpoint a running node
    /// belongs; none if there is none. It takes no memory.
    pub fn next_deliverable(&self, after: u64) -> Option<u64>
        ensures { result ≡ next_packet (world_of self.now) (record { passed = after; ticked = None }) }
    {
        for before in after..self.packets() {
            if self.can_deliver(before + 1) {
                return Some(before + 1);
            }
        }
        None
    }

    /// The member that a node observes on a ring, from 0; none if no node runs under the
    /// identifier, or it observes nobody. It takes no memory.
    pub fn observed(&self, id: &ProcessId, ring: u8) -> Option<Process>
        ensures { result ≡ observed_by (world_of self.now) id.now ring }
    {
        match self.running_under(id) {
            Some(place) => self.peers().as_slice()[place].node().observed(ring),
            None => None,
        }
    }
}
