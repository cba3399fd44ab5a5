// Nodes by their identifiers and endpoints.

ghost use Rattle.std.specs.Prelude.{◌≡◌, ◌&&◌, ◌++◌, position, map, filter, flat_map, slice_get, if◌then◌else◌, true, IfOk, IfSome, OnOk, Some, None};
ghost use Rattle.std.specs.List.{list_any, find};
ghost use Rattle.std.specs.Option.{option_map, option_and_then};
ghost use Rattle.rapid_model.specs.InOrder.{in_order};
ghost use Rattle.rapid_model.specs.Process.{bytes_cmp, identifier};
ghost use Rattle.rapid_model.specs.World.{is_running, has_identifier, has_endpoint};
ghost use Rattle.rapid_world.specs.Found.{IsOnlyAt, RunsAt, endpoints_of};
ghost use Rattle.rapid_world.specs.Worlds.{running_id};

use crate::peer::Peer;
use rapid_endpoint::{Endpoint, ProcessId};
use rapid_node::Node;
use std::alloc::{AllocError, Global};

/// Whether the peer has the identifier.
fn is_under(peer: &Peer, id: &ProcessId) -> bool
    ensures { result ≡ has_identifier id.now peer.now }
{
    *id == peer.node().process().id()
}

/// Whether the peer runs under the identifier.
fn runs_under(peer: &Peer, id: &ProcessId) -> bool
    ensures { result ≡ (is_running peer.now && has_identifier id.now peer.now) }
{
    peer.is_running() && is_under(peer, id)
}

/// Whether the peer runs at the endpoint.
fn runs_at(peer: &Peer, endpoint: &Endpoint) -> bool
    ensures { result ≡ (is_running peer.now && has_endpoint endpoint.now peer.now) }
{
    peer.is_running() && *endpoint == peer.node().process().endpoint()
}

/// The peer at a place, if there is one.
fn peer_at(peers: &[Peer], place: Option<usize>) -> Option<&Peer>
    ensures { option_map (λ p. p.now) result ≡ option_and_then (slice_get peers.now) place }
{
    match place {
        Some(place) => peers.get(place),
        None => None,
    }
}

/// Whether a peer has the identifier. No other could have it than the one at this place.
pub(crate) fn is_used(peers: &[Peer], place: Option<usize>, id: &ProcessId) -> bool
    requires { IsOnlyAt (has_identifier id.now) peers.now place }
    ensures { result ≡ list_any (has_identifier id.now) peers.now }
{
    match peer_at(peers, place) {
        Some(peer) => is_under(peer, id),
        None => false,
    }
}

/// The place of a peer, if it runs under the identifier.
fn if_under(peer: &Peer, place: Option<usize>, id: &ProcessId) -> Option<usize>
    ensures { result ≡ (if is_running peer.now && has_identifier id.now peer.now then place else None) }
{
    if runs_under(peer, id) { place } else { None }
}

/// The place of the peer that runs under the identifier. No other could have it than the one at
/// this place.
pub(crate) fn place_under(peers: &[Peer], place: Option<usize>, id: &ProcessId) -> Option<usize>
    requires { IsOnlyAt (has_identifier id.now) peers.now place }
    ensures { result ≡ position (λ p. is_running p && has_identifier id.now p) peers.now }
{
    match peer_at(peers, place) {
        Some(peer) => if_under(peer, place, id),
        None => None,
    }
}

/// The place of a peer, if it runs at the endpoint.
fn if_at(peer: &Peer, place: Option<usize>, endpoint: &Endpoint) -> Option<usize>
    ensures { result ≡ (if is_running peer.now && has_endpoint endpoint.now peer.now then place else None) }
{
    if runs_at(peer, endpoint) { place } else { None }
}

/// The place of the peer that runs at the endpoint. No other could run there than the one at this
/// place.
pub(crate) fn place_at(peers: &[Peer], place: Option<usize>, endpoint: &Endpoint) -> Option<usize>
    requires { IsOnlyAt (λ p. is_running p && has_endpoint endpoint.now p) peers.now place }
    ensures { result ≡ position (λ p. is_running p && has_endpoint endpoint.now p) peers.now }
{
    match peer_at(peers, place) {
        Some(peer) => if_at(peer, place, endpoint),
        None => None,
    }
}

/// Whether the peer at a place runs at the endpoint. The endpoints of all peers stand close together,
/// so who the peer is need not be read.
fn is_at(peers: &[Peer], endpoints: &[Endpoint], place: usize, endpoint: &Endpoint) -> bool
    requires { endpoints.now ≡ endpoints_of peers.now }
    ensures { result ≡ true → RunsAt peers.now endpoint.now place }
{
    match endpoints.get(place) {
        Some(its) => *endpoint == *its && peers[place].is_running(),
        None => false,
    }
}

/// The place of the peer that runs at the endpoint, if it is the next one or this one. The peers have
/// these endpoints.
pub(crate) fn place_near(
    peers: &[Peer],
    endpoints: &[Endpoint],
    near: usize,
    endpoint: &Endpoint,
) -> Option<usize>
    requires { endpoints.now ≡ endpoints_of peers.now }
    ensures { IfSome result (RunsAt peers.now endpoint.now) }
{
    let next = near.saturating_add(1);
    if is_at(peers, endpoints, next, endpoint) {
        return Some(next);
    }
    if is_at(peers, endpoints, near, endpoint) {
        return Some(near);
    }
    None
}

/// The node of a peer, if it has the identifier.
fn node_if_under<'a>(peer: &'a Peer, id: &ProcessId) -> Option<&'a Node>
    ensures { option_map (λ n. n.now) result ≡ (if has_identifier id.now peer.now then Some peer.now.node else None) }
{
    if is_under(peer, id) {
        Some(peer.node())
    } else {
        None
    }
}

/// The node of the peer that has the identifier. No other could have it than the one at this place.
pub(crate) fn find_under<'a>(
    peers: &'a [Peer],
    place: Option<usize>,
    id: &ProcessId,
) -> Option<&'a Node>
    requires { IsOnlyAt (has_identifier id.now) peers.now place }
    ensures { option_map (λ n. n.now) result ≡ option_map (λ p. p.node) (find (has_identifier id.now) peers.now) }
{
    match peer_at(peers, place) {
        Some(peer) => node_if_under(peer, id),
        None => None,
    }
}

/// Appends the identifier of the peer, if it runs.
fn push_running(ids: &mut Vec<ProcessId>, peer: &Peer) -> Result<(), AllocError>
    ensures { OnOk result (ids.new.items ≡ ids.old.items ++ running_id peer.now) }
{
    if peer.is_running() {
        ids.push(peer.node().process().id())?;
    }
    Ok(())
}

/// Appends the identifiers of the peers that run, in the order in which they started.
fn push_all_running(ids: &mut Vec<ProcessId>, peers: &[Peer]) -> Result<(), AllocError>
    ensures { OnOk result (ids.new.items ≡ ids.old.items ++ flat_map running_id peers.now) }
{
    for peer in peers {
        push_running(ids, peer)?;
    }
    Ok(())
}

/// The same identifiers ascending, each once.
fn ascending(mut ids: Vec<ProcessId>) -> Vec<ProcessId>
    ensures { result.items ≡ in_order bytes_cmp ids.items }
{
    ids.sort_unstable();
    ids.dedup();
    ids
}

/// The identifiers of the peers that run, ascending.
#[tactic(auto, using(crate::proofs::Ids::ids_of_running))]
pub(crate) fn running_ids(alloc: Global, peers: &[Peer]) -> Result<Vec<ProcessId>, AllocError>
    ensures { IfOk result (λ ids. ids.items ≡ in_order bytes_cmp (map (λ p. identifier p.node.me) (filter is_running peers.now))) }
{
    let mut ids = Vec::new(alloc);
    push_all_running(&mut ids, peers)?;
    Ok(ascending(ids))
}
