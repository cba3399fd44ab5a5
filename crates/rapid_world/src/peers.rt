// All that ever started.

ghost use Rattle.std.specs.Prelude.{◌≡◌, ◌<◌, ◌++◌, ◌&&◌, ◌∷◌, [], All, map, false, true, position, length, slice_get, slice_set, IfOk, OnOk, OnErr, Some};
ghost use Rattle.std.specs.List.{list_any, find};
ghost use Rattle.std.specs.Option.{option_map, option_to_list};
ghost use Rattle.std.specs.Ordering.{is_lt};
ghost use Rattle.rapid_model.specs.Configuration.{is_member};
ghost use Rattle.rapid_model.specs.Edge.{probed};
ghost use Rattle.rapid_model.specs.Node.{EdgeDown, seed_node};
ghost use Rattle.rapid_model.specs.Process.{bytes_cmp};
ghost use Rattle.rapid_model.specs.Turn.{least};
ghost use Rattle.rapid_model.specs.World.{Peer as ModelPeer, is_running, has_identifier, has_endpoint};
ghost use Rattle.rapid_model.specs.WorldStep.{added, edge_on};
ghost use Rattle.rapid_node.specs.Steps.{event_of};
ghost use Rattle.rapid_world.specs.Events.{report_of};
ghost use Rattle.rapid_world.specs.Found.{IsNew, running_of};
ghost use Rattle.rapid_world.specs.Framed.{framed_packet, HasFrame};
ghost use Rattle.rapid_world.specs.Handed.{handed, told, TakesAt, ProbesAt};

use crate::handing::{hand, probe};
use crate::lookups::{find_under, is_used, place_at, place_near, place_under};
use crate::mail::{Mail, push_within};
use crate::peer::Peer;
use crate::places::{PlacesByEndpoint, PlacesById};
use crate::taken::Told;
use rapid_config::{ConfigId, Configuration};
use rapid_endpoint::{Endpoint, Process, ProcessId};
use rapid_node::{Event, Node, Views};
use std::alloc::{AllocError, Global};
use std::marker::Model;
use std::ops::Bound;

/// How many views nodes share at a time.
const SHARED_VIEWS: usize = 8;

/// All that ever started, in order. Each is found by its identifier and, while it runs, by its
/// endpoint. Their nodes share the views that they enter.
#[derive(Drop)]
pub(crate) struct Nodes {
    peers: Vec<Peer>,
    by_id: PlacesById,
    // of those at one endpoint the last that started
    by_endpoint: PlacesByEndpoint,
    // those of the peers, in their order
    endpoints: Vec<Endpoint>,
    // the place of the one that took a packet last: mostly the next packet goes to the next one
    near: usize,
    views: Views,
    alloc: Global,
}

impl Model for Nodes {
    ghost use Rattle.std.specs.Prelude.{List};
    ghost use Rattle.std.specs.Coded.{coded_list};
    ghost use Rattle.rapid_model.specs.World.{Peer as ModelPeer};
    ghost use Rattle.rapid_world.specs.Codes.{peer_code};
    ghost use Rattle.rapid_world.specs.Found.{AreListed};

    ghost Value = { List ModelPeer };

    ghost coded = { coded_list peer_code };

    ghost view = { λ p. p.peers.items };

    ghost invariant = { λ p. AreListed p.by_id p.by_endpoint p.endpoints.items p.peers.items };
}

impl Nodes {
    /// No peer.
    #[tactic(auto, using(crate::proofs::Finding::none_listed))]
    pub(crate) fn new(alloc: Global) -> Nodes
        ensures { result ≡ [] }
    {
        Nodes {
            peers: Vec::new(alloc),
            by_id: PlacesById::new(alloc),
            by_endpoint: PlacesByEndpoint::new(alloc),
            endpoints: Vec::new(alloc),
            near: 0,
            views: Views::new(alloc, SHARED_VIEWS),
            alloc,
        }
    }

    /// They as a slice.
    pub(crate) fn as_slice(&self) -> &[Peer]
        ensures { result.now ≡ self.now }
    {
        self.peers.as_slice()
    }

    /// The configuration of the view that one of them entered last, if any did. It is for speed alone.
    pub(crate) fn newest_view(&self) -> Option<&Configuration> {
        self.views.newest()
    }

    /// Whether one has the identifier.
    pub(crate) fn is_used(&self, id: &ProcessId) -> bool
        ensures { result ≡ list_any (has_identifier id.now) self.now }
    {
        is_used(self.peers.as_slice(), self.by_id.get(id), id)
    }

    /// The place of the one that runs under the identifier.
    pub(crate) fn place_under(&self, id: &ProcessId) -> Option<usize>
        ensures { result ≡ position (λ p. is_running p && has_identifier id.now p) self.now }
    {
        place_under(self.peers.as_slice(), self.by_id.get(id), id)
    }

    /// The place of the one that runs at the endpoint.
    pub(crate) fn place_at(&self, endpoint: &Endpoint) -> Option<usize>
        ensures { result ≡ position (λ p. is_running p && has_endpoint endpoint.now p) self.now }
    {
        let peers = self.peers.as_slice();
        match place_near(peers, self.endpoints.as_slice(), self.near, endpoint) {
            Some(place) => Some(place),
            None => self.place_by_endpoint(endpoint),
        }
    }

    /// The place of the one that runs at the endpoint, wherever it is.
    fn place_by_endpoint(&self, endpoint: &Endpoint) -> Option<usize>
        ensures { result ≡ position (λ p. is_running p && has_endpoint endpoint.now p) self.now }
    {
        place_at(
            self.peers.as_slice(),
            self.by_endpoint.get(endpoint),
            endpoint,
        )
    }

    /// The one at a place takes a packet. So who runs at the endpoint of the next one is mostly found
    /// without a search. Nothing else changes.
    pub(crate) fn aim(&mut self, place: usize)
        ensures { self.new ≡ self.old }
    {
        self.near = place;
    }

    /// The node of the one that has the identifier.
    pub(crate) fn find_under(&self, id: &ProcessId) -> Option<&Node>
        ensures { option_map (λ n. n.now) result ≡ option_map (λ p. p.node) (find (has_identifier id.now) self.now) }
    {
        find_under(self.peers.as_slice(), self.by_id.get(id), id)
    }

    /// The least identifier of those that run.
    pub(crate) fn least_running(&self) -> Option<ProcessId>
        ensures { result ≡ least (running_of self.now) }
    {
        for id in self.by_id.ids().iter() {
            if self.place_under(id).is_some() {
                return Some(*id);
            }
        }
        None
    }

    /// The least identifier above another of those that run.
    pub(crate) fn running_above(&self, last: &ProcessId) -> Option<ProcessId>
        ensures { result ≡ find (λ id. is_lt (bytes_cmp last.now id)) (running_of self.now) }
    {
        let above = (Bound::Excluded(*last), Bound::Unbounded);
        for id in self.by_id.ids().range(above) {
            if self.place_under(id).is_some() {
                return Some(*id);
            }
        }
        None
    }

    /// Adds one. If out of memory nothing that is seen changes.
    pub(crate) fn add(&mut self, peer: Peer) -> Result<(), AllocError>
        requires { IsNew self.old peer }
        ensures added { OnOk result (self.new ≡ self.old ++ peer ∷ []) }
        ensures unchanged { OnErr result (self.new ≡ self.old) }
    {
        let place = self.peers.len();
        let process = peer.node().process();
        let endpoint = process.endpoint();
        self.peers.reserve(1)?;
        self.endpoints.reserve(1)?;
        self.by_id.insert(process.id(), place)?;
        self.by_endpoint.insert(endpoint, place)?;
        push_within(&mut self.endpoints, endpoint);
        push_within(&mut self.peers, peer);
        Ok(())
    }

    /// Adds a founder.
    pub(crate) fn found(
        &mut self,
        configuration: &Configuration,
        process: Process,
    ) -> Result<(), AllocError>
        requires member { is_member configuration.now process ≡ true }
        requires new { IsNew self.old (added (seed_node configuration.now process)) }
        ensures { OnOk result (self.new ≡ self.old ++ added (seed_node configuration.now process) ∷ []) }
    {
        let peer = Peer::founder(self.alloc, &mut self.views, configuration, process)?;
        self.add(peer)
    }

    /// The one at a place takes an event, and what it sends is put after the other packets.
    pub(crate) fn hand(
        &mut self,
        place: usize,
        mail: &mut Mail,
        event: &Event,
    ) -> Result<Told, AllocError>
        requires { TakesAt self.old place (event_of event.now) }
        ensures peers { (p : ModelPeer) → slice_get self.old place ≡ Some p → IfOk result (λ told. self.new ≡ slice_set self.old place (handed p (event_of event.now) told.halts).peer) }
        ensures packets { (p : ModelPeer) → slice_get self.old place ≡ Some p → IfOk result (λ told. mail.new.packets ≡ mail.old.packets ++ map framed_packet (handed p (event_of event.now) told.halts).packets) }
        ensures framed { (p : ModelPeer) → slice_get self.old place ≡ Some p → IfOk result (λ told. All HasFrame (handed p (event_of event.now) told.halts).packets) }
        ensures reports { (p : ModelPeer) → slice_get self.old place ≡ Some p → IfOk result (λ told. option_to_list (option_map report_of told.report) ≡ (handed p (event_of event.now) told.halts).reports) }
        ensures unchanged { OnErr result (self.new ≡ self.old) }
        ensures mail_unchanged { OnErr result (mail.new.packets ≡ mail.old.packets) }
    {
        let told = hand(
            self.alloc,
            &mut self.views,
            &mut self.peers[place],
            mail,
            event,
        )?;
        Ok(told)
    }

    /// The one at a place has a further result of a probe of whom it observes on a ring, in this
    /// configuration. If the edge is down, its node is told.
    pub(crate) fn probe(
        &mut self,
        place: usize,
        ring: u8,
        ok: bool,
        observed: (ConfigId, Process),
    ) -> Result<Told, AllocError>
        requires { ProbesAt self.old place ring ok (EdgeDown observed.0 ring observed.1) }
        ensures peers { (p : ModelPeer) → slice_get self.old place ≡ Some p → IfOk result (λ news. self.new ≡ slice_set self.old place (told p ring ok (EdgeDown observed.0 ring observed.1) news.halts).peer) }
        ensures packets { (p : ModelPeer) → slice_get self.old place ≡ Some p → IfOk result (λ news. (told p ring ok (EdgeDown observed.0 ring observed.1) news.halts).packets ≡ []) }
        ensures reports { (p : ModelPeer) → slice_get self.old place ≡ Some p → IfOk result (λ news. option_to_list (option_map report_of news.report) ≡ (told p ring ok (EdgeDown observed.0 ring observed.1) news.halts).reports) }
        ensures quiet { (p : ModelPeer) → slice_get self.old place ≡ Some p → IfOk result (λ news. (probed (edge_on p.edges ring) ok).is_down ≡ false → news.halts ≡ false) }
        ensures unchanged { OnErr result (self.new ≡ self.old) }
    {
        let told = probe(
            self.alloc,
            &mut self.views,
            &mut self.peers[place],
            ring,
            ok,
            observed,
        )?;
        Ok(told)
    }

    /// The one at a place crashes.
    pub(crate) fn crash(&mut self, place: usize)
        requires { place < length self.old }
        ensures { (p : ModelPeer) → slice_get self.old place ≡ Some p → self.new ≡ slice_set self.old place (record p { crashed = true }) }
    {
        self.peers[place].crash();
    }
}
