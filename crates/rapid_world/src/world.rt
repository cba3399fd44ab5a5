// A world of many nodes.

ghost use Rattle.std.specs.Prelude.{◌≡◌, ◌≤◌, ◌<◌, ◌++◌, [], All, ℕ, vec_len, vec_capacity, true, false, is_some, nat_lt, length, map, slice_get, IfOk, IfErr, IfSome, OnErr, List, Bool, Option, Some, None};
ghost use Rattle.std.specs.Arc.{arc_value};
ghost use Rattle.std.specs.List.{list_any};
ghost use Rattle.std.specs.Option.{option_map, option_to_list};
ghost use Rattle.rapid_model.specs.Agreement.{NoCollision};
ghost use Rattle.rapid_model.specs.Configuration.{AreParams, AreMembers, configuration_id};
ghost use Rattle.rapid_model.specs.Process.{Process as ModelProcess, identifier, endpoint};
ghost use Rattle.rapid_model.specs.Packets.{packet_to};
ghost use Rattle.rapid_model.specs.RunHolds.{RunHolds};
ghost use Rattle.rapid_model.specs.StoredWorld.{StoresEvent, new_world, world_of, accepted, event_refusal};
ghost use Rattle.rapid_model.specs.World as model;
ghost use Rattle.rapid_world.specs.Events.{event_of, report_of, Refuses};
ghost use Rattle.rapid_node.specs.Steps.{event_of as taken_of};
ghost use Rattle.rapid_model.specs.Node.{EdgeDown};
ghost use Rattle.rapid_model.specs.World.{Peer as ModelPeer};
ghost use Rattle.rapid_model.specs.Limits.{most_events};
ghost use Rattle.rapid_world.specs.Arrivals.{Brings};
ghost use Rattle.rapid_world.specs.Does.{Does, Hands, Probes};
ghost use Rattle.rapid_world.specs.Framed.{framed_packet, HasFrame};
ghost use Rattle.rapid_world.specs.Handed.{crash_of};
ghost use Rattle.rapid_world.specs.Worlds.{IsRunOf};

use crate::mail::Mail;
use crate::outcome::{has_outcome, is_marked};
use crate::peer::Peer;
use crate::peers::Nodes;
use crate::report::Report;
use crate::room::ReportRoom;
use crate::stored::Stored;
use crate::{WorldError, WorldEvent};
use rapid_config::{ConfigId, Configuration};
use rapid_endpoint::{Endpoint, Process, ProcessId};
use rapid_node::Event;
use rapid_safety::runs_hold;
use std::alloc::{AllocError, Global};
use std::marker::Model;
use std::sync::Arc;

/// A world of many nodes and the packets between them, which runs by events. Its value is how it
/// was founded, and the events that it accepted. Each has a mark whether its node halted in it
/// because it was out of memory.
pub struct World {
    // how it was founded, and all events that it accepted, with their marks
    stored: Stored,
    peers: Nodes,
    mail: Mail,
    // for what the next step reports
    room: ReportRoom,
    alloc: Global,
}

// By hand: it is proved here that all parts can be dropped, and no crate above has to prove it again.
impl Drop for World {
    fn drop(self) {
        let World {
            stored: _,
            peers: _,
            mail: _,
            room: _,
            alloc: _,
        } = self;
    }
}

impl Model for World {
    ghost use Rattle.rapid_model.specs.StoredWorld.{StoredWorld};
    ghost use Rattle.rapid_world.specs.Codes.{stored_code};

    ghost Value = { StoredWorld };

    ghost coded = { stored_code };

    ghost use Rattle.rapid_world.specs.Worlds.{IsRunOf};

    ghost view = { λ w. w.stored.world };

    ghost invariant = { λ w. IsRunOf w.stored.world w.peers w.mail.packets };
}

impl World {
    /// How many events a world accepts at most.
    pub const MOST_EVENTS: usize = 1_000_000;

    /// The world of these parts.
    pub(crate) fn of(alloc: Global, founding: Configuration, peers: Nodes) -> World
        requires { IsRunOf (new_world founding) peers [] }
        ensures { result ≡ new_world founding }
    {
        World {
            stored: Stored::new(alloc, founding),
            peers,
            mail: Mail::new(alloc),
            room: ReportRoom::new(alloc),
            alloc,
        }
    }

    /// What is promised of each world. Its founders can be founders. If no two different
    /// configurations that nodes installed share an identifier, all that holds of runs holds of its
    /// run. It does nothing: what it ensures is for proofs.
    #[tactic(auto, using(crate::proofs::Holding::run_holds))]
    pub fn tell(&self)
        ensures params { AreParams self.now.founding.params }
        ensures members { AreMembers self.now.founding.members }
        ensures holds { NoCollision (world_of self.now) → RunHolds (world_of self.now) }
    {
        let _ = &self.stored;
        runs_hold();
    }

    /// All that ever started, in order.
    pub(crate) fn peers(&self) -> &Nodes
        ensures { result.now ≡ (world_of self.now).peers }
    {
        &self.peers
    }

    /// All packets, each with the frame of its message.
    pub(crate) fn mail(&self) -> &Mail
        ensures packets { result.now.packets ≡ map framed_packet (world_of self.now).packets }
        ensures framed { All HasFrame (world_of self.now).packets }
    {
        &self.mail
    }

    /// Looks for a packet, so that it and the next ones are found at once. Nothing else changes.
    pub(crate) fn seek(&mut self, packet: u64)
        ensures { self.new ≡ self.old }
    {
        self.mail.seek(packet);
    }

    /// The node at a place takes a packet. So who runs at the endpoint of the next one is mostly found
    /// at once. Nothing else changes.
    pub(crate) fn aim(&mut self, place: usize)
        ensures { self.new ≡ self.old }
    {
        self.peers.aim(place);
    }

    /// Keeps what was read from the frame of the packet with a number, for those that have the same
    /// frame. Nothing else changes.
    pub(crate) fn keep(&mut self, number: u64, event: &Arc<Event, Global>)
        requires { Brings (map framed_packet (world_of self.old).packets) number (taken_of (arc_value event.now)) }
        ensures { self.new ≡ self.old }
    {
        self.mail.keep(number, event);
    }

    /// What it stores.
    pub(crate) fn stored(&self) -> &Stored
        ensures { result.now.world ≡ self.now }
    {
        &self.stored
    }

    /// How it was founded.
    pub fn founding(&self) -> &Configuration
        ensures { result.now ≡ self.now.founding }
    {
        self.stored.founding()
    }

    /// The allocator of its memory.
    pub(crate) fn alloc(&self) -> Global {
        self.alloc
    }

    /// How many events it accepted.
    pub fn accepted(&self) -> usize
        ensures { result ≡ accepted self.now }
    {
        self.stored.len()
    }

    /// The node at a place takes another event by this one, which is stored with its mark.
    pub(crate) fn give(
        &mut self,
        event: &WorldEvent,
        place: usize,
        taken: &Event,
    ) -> Result<Vec<Report>, AllocError>
        requires { Hands self.old (event_of event.now) place (taken_of taken.now) }
        ensures stored { IfOk result (λ reports. StoresEvent self.old self.new (event_of event.now) (map report_of reports.items)) }
        ensures unchanged { OnErr result (self.new ≡ self.old) }
    {
        self.stored.reserve()?;
        self.room.reserve()?;
        // a node whose history is full halts without a mark, also if it had no memory to find out
        let has_outcome = has_outcome(self.peers.as_slice()[place].node(), taken)?;
        let told = self.peers.hand(place, &mut self.mail, taken)?;
        let mark = is_marked(told.halts, has_outcome);
        self.stored.push(event, place, mark);
        Ok(self.room.take(told.report))
    }

    /// The node at a place crashes by this event, which is stored.
    pub(crate) fn crash_at(
        &mut self,
        event: &WorldEvent,
        place: usize,
    ) -> Result<Vec<Report>, AllocError>
        requires { (p : ModelPeer) × Does self.old (event_of event.now) place p (crash_of p) }
        ensures stored { IfOk result (λ reports. StoresEvent self.old self.new (event_of event.now) (map report_of reports.items)) }
        ensures unchanged { OnErr result (self.new ≡ self.old) }
    {
        self.stored.reserve()?;
        self.peers.crash(place);
        self.stored.push(event, place, false);
        Ok(Vec::new(self.alloc))
    }

    /// The process starts to join by the seed at an endpoint, and this event is stored.
    pub(crate) fn join(
        &mut self,
        process: Process,
        seed: Endpoint,
    ) -> Result<Vec<Report>, AllocError>
        requires open { nat_lt (accepted self.old) most_events ≡ true }
        requires unused { list_any (model.has_identifier (identifier process)) (world_of self.old).peers ≡ false }
        requires free { is_some (model.running_at (world_of self.old) (endpoint process)) ≡ false }
        ensures stored { IfOk result (λ reports. StoresEvent self.old self.new (model.Start process seed) (map report_of reports.items)) }
        ensures unchanged { OnErr result (self.new ≡ self.old) }
    {
        self.stored.reserve_start()?;
        let peer = Peer::joiner(self.alloc, process, seed)?;
        let starter = peer.kept_process()?;
        self.peers.add(peer)?;
        self.stored.push_start(starter, seed);
        Ok(Vec::new(self.alloc))
    }

    /// By this event the node at a place has the result of a probe of the member that it observes
    /// on a ring. The event is stored with its mark.
    pub(crate) fn probe_at(
        &mut self,
        event: &WorldEvent,
        place: usize,
        ring: u8,
        ok: bool,
        observed: (ConfigId, Process),
    ) -> Result<Vec<Report>, AllocError>
        requires { (p : ModelPeer) × Probes self.old (event_of event.now) place p ring ok (EdgeDown observed.0 ring observed.1) }
        ensures stored { IfOk result (λ reports. StoresEvent self.old self.new (event_of event.now) (map report_of reports.items)) }
        ensures unchanged { OnErr result (self.new ≡ self.old) }
    {
        self.stored.reserve()?;
        self.room.reserve()?;
        let told = self.peers.probe(place, ring, ok, observed)?;
        self.stored.push(event, place, told.halts);
        Ok(self.room.take(told.report))
    }
}
