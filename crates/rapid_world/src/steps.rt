// The steps of a world, by event.

ghost use Rattle.std.specs.Prelude.{◌≡◌, ◌++◌, ◌∷◌, [], ℕ, suc, List, if◌then◌else◌, true, false, is_some, nat_lt, map, length, IfOk, IfErr, OnErr, Some, None};
ghost use Rattle.std.specs.Arc.{arc_value};
ghost use Rattle.std.specs.Option.{option_map};
ghost use Rattle.rapid_model.specs.Bytes.{Endpoint as ModelEndpoint};
ghost use Rattle.rapid_model.specs.Agreement.{NoCollision};
ghost use Rattle.rapid_model.specs.Node.{EdgeDown};
ghost use Rattle.rapid_model.specs.RunHolds.{RunHolds};
ghost use Rattle.rapid_model.specs.StoredWorld.{StoredWorld, StoresEvent, RunsTo, world_of, accepted, event_refusal};
ghost use Rattle.rapid_model.specs.World as model;
ghost use Rattle.rapid_model.specs.World.{Peer, packet};
ghost use Rattle.rapid_model.specs.Limits.{most_events};
ghost use Rattle.rapid_node.specs.Steps.{event_of as taken_of};
ghost use Rattle.rapid_world.specs.Arrivals.{Brings};
ghost use Rattle.rapid_world.specs.Does.{Hands, Probes};
ghost use Rattle.rapid_world.specs.Events.{event_of, report_of, Refuses};
ghost use Rattle.rapid_world.specs.Framed.{framed_packet, IsFrameOf};

use crate::arrived::read_event;
use crate::report::Report;
use crate::{World, WorldError, WorldEvent};
use rapid_config::ConfigId;
use rapid_endpoint::{Endpoint, Process, ProcessId};
use rapid_node::Event;
use std::alloc::{AllocError, Global};
use std::sync::Arc;

impl World {
    /// The place of the node that runs under an identifier.
    pub(crate) fn running_under(&self, id: &ProcessId) -> Option<usize>
        ensures { result ≡ model.running_under (world_of self.now) id.now }
    {
        self.peers().place_under(id)
    }

    /// The place of the node that runs at an endpoint.
    pub(crate) fn running_at(&self, endpoint: Endpoint) -> Option<usize>
        ensures { result ≡ model.running_at (world_of self.now) endpoint }
    {
        self.peers().place_at(&endpoint)
    }

    /// The node at a place takes another event by this one.
    fn hand(
        &mut self,
        event: &WorldEvent,
        place: usize,
        taken: &Event,
    ) -> Result<Vec<Report>, WorldError>
        requires { Hands self.old (event_of event.now) place (taken_of taken.now) }
        ensures stored { IfOk result (λ reports. StoresEvent self.old self.new (event_of event.now) (map report_of reports.items)) }
        ensures refused { IfErr result (Refuses (event_refusal self.old (event_of event.now))) }
        ensures unchanged { OnErr result (self.new ≡ self.old) }
    {
        match self.give(event, place, taken) {
            Ok(reports) => Ok(reports),
            Err(AllocError) => Err(WorldError::OutOfMemory),
        }
    }

    /// The clock of a node ticks.
    fn tick(&mut self, event: &WorldEvent, id: ProcessId) -> Result<Vec<Report>, WorldError>
        requires open { nat_lt (accepted self.old) most_events ≡ true }
        requires is { event_of event.now ≡ model.Tick id }
        ensures stored { IfOk result (λ reports. StoresEvent self.old self.new (event_of event.now) (map report_of reports.items)) }
        ensures refused { IfErr result (Refuses (event_refusal self.old (event_of event.now))) }
        ensures unchanged { OnErr result (self.new ≡ self.old) }
    {
        self.tell();
        match self.running_under(&id) {
            Some(place) => self.hand(event, place, &Event::Tick),
            None => Err(WorldError::NoSuchNode),
        }
    }

    /// What a node takes as the message of the packet with a number, which has this frame.
    fn read(&self, number: u64, frame: &[u8]) -> Result<Arc<Event, Global>, AllocError>
        requires { (to : ModelEndpoint) × IsFrameOf (packet (world_of self.now) number) (Some (to, frame.now)) }
        ensures { IfOk result (λ e. Brings (map framed_packet (world_of self.now).packets) number (taken_of (arc_value e))) }
    {
        match self.mail().event(number) {
            Some(event) => Arc::try_clone(event),
            // a host mostly confirms the view that was entered last: the joiner shares it
            None => read_event(self.alloc(), self.peers().newest_view(), frame),
        }
    }

    /// The place of the node to which a packet comes, and what it takes as its message.
    fn arrival(&self, number: u64) -> Result<(usize, Arc<Event, Global>), WorldError>
        requires { nat_lt (accepted self.now) most_events ≡ true }
        ensures hands { IfOk result (λ x. Hands self.now (model.Deliver number) x.0 (taken_of (arc_value x.1))) }
        ensures read { IfOk result (λ x. Brings (map framed_packet (world_of self.now).packets) number (taken_of (arc_value x.1))) }
        ensures refused { IfErr result (Refuses (event_refusal self.now (model.Deliver number))) }
    {
        self.tell();
        match self.frame(number) {
            Some(packet) => match self.running_at(packet.0) {
                Some(place) => match self.read(number, packet.1) {
                    Ok(event) => Ok((place, event)),
                    Err(AllocError) => Err(WorldError::OutOfMemory),
                },
                None => Err(WorldError::NoSuchNode),
            },
            None => Err(WorldError::NoSuchPacket),
        }
    }

    /// A packet comes to the node at its endpoint.
    fn deliver(&mut self, event: &WorldEvent, number: u64) -> Result<Vec<Report>, WorldError>
        requires open { nat_lt (accepted self.old) most_events ≡ true }
        requires is { event_of event.now ≡ model.Deliver number }
        ensures stored { IfOk result (λ reports. StoresEvent self.old self.new (event_of event.now) (map report_of reports.items)) }
        ensures refused { IfErr result (Refuses (event_refusal self.old (event_of event.now))) }
        ensures unchanged { OnErr result (self.new ≡ self.old) }
    {
        self.seek(number);
        match self.arrival(number) {
            Ok((place, message)) => {
                self.keep(number, &message);
                self.aim(place);
                self.hand(event, place, &*message)
            }
            Err(error) => Err(error),
        }
    }

    /// A node crashes.
    fn crash(&mut self, event: &WorldEvent, id: ProcessId) -> Result<Vec<Report>, WorldError>
        requires open { nat_lt (accepted self.old) most_events ≡ true }
        requires is { event_of event.now ≡ model.Crash id }
        ensures stored { IfOk result (λ reports. StoresEvent self.old self.new (event_of event.now) (map report_of reports.items)) }
        ensures refused { IfErr result (Refuses (event_refusal self.old (event_of event.now))) }
        ensures unchanged { OnErr result (self.new ≡ self.old) }
    {
        match self.running_under(&id) {
            Some(place) => match self.crash_at(event, place) {
                Ok(reports) => Ok(reports),
                Err(AllocError) => Err(WorldError::OutOfMemory),
            },
            None => Err(WorldError::NoSuchNode),
        }
    }

    /// A node is to leave.
    fn leave(&mut self, event: &WorldEvent, id: ProcessId) -> Result<Vec<Report>, WorldError>
        requires open { nat_lt (accepted self.old) most_events ≡ true }
        requires is { event_of event.now ≡ model.Leave id }
        ensures stored { IfOk result (λ reports. StoresEvent self.old self.new (event_of event.now) (map report_of reports.items)) }
        ensures refused { IfErr result (Refuses (event_refusal self.old (event_of event.now))) }
        ensures unchanged { OnErr result (self.new ≡ self.old) }
    {
        self.tell();
        match self.running_under(&id) {
            Some(place) => self.hand(event, place, &Event::Leave),
            None => Err(WorldError::NoSuchNode),
        }
    }

    /// A process starts to join by the seed at an endpoint.
    fn start(&mut self, process: Process, seed: Endpoint) -> Result<Vec<Report>, WorldError>
        requires { nat_lt (accepted self.old) most_events ≡ true }
        ensures stored { IfOk result (λ reports. StoresEvent self.old self.new (model.Start process seed) (map report_of reports.items)) }
        ensures refused { IfErr result (Refuses (event_refusal self.old (model.Start process seed))) }
        ensures unchanged { OnErr result (self.new ≡ self.old) }
    {
        if self.peers().is_used(&process.id()) {
            return Err(WorldError::IdentifierUsed);
        }
        if self.running_at(process.endpoint()).is_some() {
            return Err(WorldError::EndpointBusy);
        }
        match self.join(process, seed) {
            Ok(reports) => Ok(reports),
            Err(AllocError) => Err(WorldError::OutOfMemory),
        }
    }

    /// The place of the node that runs under an identifier, and its edge on a ring. The edge is the
    /// identifier of the configuration, and the member that it observes.
    fn edge(
        &self,
        id: &ProcessId,
        ring: u8,
        ok: bool,
    ) -> Result<(usize, ConfigId, Process), WorldError>
        requires { nat_lt (accepted self.now) most_events ≡ true }
        ensures probes { IfOk result (λ x. (p : Peer) × Probes self.now (model.Probe id.now ring ok) x.0 p ring ok (EdgeDown x.1 ring x.2)) }
        ensures refused { IfErr result (Refuses (event_refusal self.now (model.Probe id.now ring ok))) }
    {
        self.tell();
        match self.running_under(id) {
            Some(place) => match self.peers().as_slice()[place].observed(ring) {
                Some(edge) => Ok((place, edge.0, edge.1)),
                None => Err(WorldError::NotObserved),
            },
            None => Err(WorldError::NoSuchNode),
        }
    }

    /// A node has the result of a probe of the member that it observes on a ring.
    fn probe(
        &mut self,
        event: &WorldEvent,
        id: ProcessId,
        ring: u8,
        ok: bool,
    ) -> Result<Vec<Report>, WorldError>
        requires open { nat_lt (accepted self.old) most_events ≡ true }
        requires is { event_of event.now ≡ model.Probe id ring ok }
        ensures stored { IfOk result (λ reports. StoresEvent self.old self.new (event_of event.now) (map report_of reports.items)) }
        ensures refused { IfErr result (Refuses (event_refusal self.old (event_of event.now))) }
        ensures unchanged { OnErr result (self.new ≡ self.old) }
    {
        match self.edge(&id, ring, ok) {
            Ok((place, config, subject)) => {
                match self.probe_at(event, place, ring, ok, (config, subject)) {
                    Ok(reports) => Ok(reports),
                    Err(AllocError) => Err(WorldError::OutOfMemory),
                }
            }
            Err(error) => Err(error),
        }
    }

    /// One step by an event, and what it reports. It is no error that a node halts in it, since it
    /// is out of memory or has no room for a further view. The event is accepted.
    ///
    /// # Errors
    ///
    /// `EventsFull` if 1,000,000 events were accepted, which is tested first. At a start
    /// `IdentifierUsed` if a node ever had the identifier, then `EndpointBusy` if one runs at the
    /// endpoint. `NoSuchNode` if none runs under the identifier, or at the endpoint of the packet;
    /// before the latter `NoSuchPacket` if none with the number was sent. `NotObserved` if the node
    /// observes nobody on the ring. `OutOfMemory` if the event is not refused, but the world itself
    /// has no memory for it. It may need that to read the frame of a packet, or to write those that
    /// its node sends. Each leaves the world as it was.
    pub fn step(&mut self, event: &WorldEvent) -> Result<Vec<Report>, WorldError>
        ensures stored { IfOk result (λ reports. StoresEvent self.old self.new (event_of event.now) (map report_of reports.items)) }
        ensures refused { IfErr result (Refuses (event_refusal self.old (event_of event.now))) }
        ensures unchanged { OnErr result (self.new ≡ self.old) }
        ensures holds { NoCollision (world_of self.new) → RunHolds (world_of self.new) }
    {
        let result = self.accept(event);
        self.tell();
        result
    }

    /// One step by an event.
    #[tactic(auto, using(crate::proofs::Cases::full))]
    fn accept(&mut self, event: &WorldEvent) -> Result<Vec<Report>, WorldError>
        ensures stored { IfOk result (λ reports. StoresEvent self.old self.new (event_of event.now) (map report_of reports.items)) }
        ensures refused { IfErr result (Refuses (event_refusal self.old (event_of event.now))) }
        ensures unchanged { OnErr result (self.new ≡ self.old) }
    {
        if self.accepted() >= World::MOST_EVENTS {
            return Err(WorldError::EventsFull);
        }
        // each event has room for a process: it is handed on as it came, and not made anew
        match event {
            WorldEvent::Start(process, seed) => self.start(*process, *seed),
            WorldEvent::Probe(id, ring, ok) => self.probe(event, *id, *ring, *ok),
            WorldEvent::Tick(id) => self.tick(event, *id),
            WorldEvent::Deliver(number) => self.deliver(event, *number),
            WorldEvent::Crash(id) => self.crash(event, *id),
            WorldEvent::Leave(id) => self.leave(event, *id),
        }
    }
}
