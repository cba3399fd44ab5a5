// Events that peers take, and what they send by them.

ghost use Rattle.std.specs.Prelude.{◌≡◌, ◌<◌, ◌++◌, [], All, map, true, false, is_some, length, IfOk, OnOk, IfSome, OnErr, Some};
ghost use Rattle.std.specs.Option.{option_map, option_to_list};
ghost use Rattle.rapid_model.specs.Edge.{Edge, probed};
ghost use Rattle.rapid_model.specs.Monitors.{edge_at};
ghost use Rattle.rapid_model.specs.Node as model;
ghost use Rattle.rapid_model.specs.WorldStep as step;
ghost use Rattle.rapid_node.specs.Steps.{event_of};
ghost use Rattle.rapid_world.specs.Events.{report_of};
ghost use Rattle.rapid_world.specs.Framed.{framed_packet, HasFrame};
ghost use Rattle.rapid_world.specs.Handed.{handed, told, KeepsAt};
ghost use Rattle.rapid_world.specs.Windows.{packets_in};

use crate::mail::Mail;
use crate::peer::Peer;
use crate::sending::Sending;
use crate::taken::{StepTaken, Told};
use rapid_config::ConfigId;
use rapid_endpoint::Process;
use rapid_node::{Event, Views};
use std::alloc::{AllocError, Global};

/// Puts what was sent after the other packets, if anything was.
fn post(mail: &mut Mail, sending: Option<Sending>)
    requires room { 0 < mail.old.room }
    requires next { IfSome sending (λ s. s.first ≡ length mail.old.packets) }
    ensures { mail.new.packets ≡ mail.old.packets ++ packets_in sending }
{
    if let Some(sending) = sending {
        mail.post(sending);
    }
}

/// A peer takes an event, and what it sends is put after the other packets. All that needs memory
/// comes before anything changes.
fn speak(
    alloc: Global,
    views: &mut Views,
    peer: &mut Peer,
    mail: &mut Mail,
    event: &Event,
) -> Result<Told, AllocError>
    requires runs { model.is_halted peer.old.node ≡ false }
    requires keeps { KeepsAt peer.old.node (event_of event.now) }
    ensures peer { IfOk result (λ told. peer.new ≡ (handed peer.old (event_of event.now) told.halts).peer) }
    ensures packets { IfOk result (λ told. mail.new.packets ≡ mail.old.packets ++ map framed_packet (handed peer.old (event_of event.now) told.halts).packets) }
    ensures framed { IfOk result (λ told. All HasFrame (handed peer.old (event_of event.now) told.halts).packets) }
    ensures reports { IfOk result (λ told. option_to_list (option_map report_of told.report) ≡ (handed peer.old (event_of event.now) told.halts).reports) }
    ensures peer_unchanged { OnErr result (peer.new ≡ peer.old) }
    ensures mail_unchanged { OnErr result (mail.new.packets ≡ mail.old.packets) }
{
    mail.reserve()?;
    let first = mail.sent();
    let StepTaken { told, sending } = peer.take(alloc, views, event, first)?;
    post(mail, sending);
    Ok(told)
}

/// A peer takes an event, and what it sends is put after the other packets.
pub(crate) fn hand(
    alloc: Global,
    views: &mut Views,
    peer: &mut Peer,
    mail: &mut Mail,
    event: &Event,
) -> Result<Told, AllocError>
    requires runs { model.is_halted peer.old.node ≡ false }
    requires keeps { KeepsAt peer.old.node (event_of event.now) }
    ensures peer { IfOk result (λ told. peer.new ≡ (handed peer.old (event_of event.now) told.halts).peer) }
    ensures packets { IfOk result (λ told. mail.new.packets ≡ mail.old.packets ++ map framed_packet (handed peer.old (event_of event.now) told.halts).packets) }
    ensures framed { IfOk result (λ told. All HasFrame (handed peer.old (event_of event.now) told.halts).packets) }
    ensures reports { IfOk result (λ told. option_to_list (option_map report_of told.report) ≡ (handed peer.old (event_of event.now) told.halts).reports) }
    ensures peer_unchanged { OnErr result (peer.new ≡ peer.old) }
    ensures mail_unchanged { OnErr result (mail.new.packets ≡ mail.old.packets) }
{
    if peer.node().is_quiet(event) {
        return Ok(peer.take_quietly(views, event));
    }
    speak(alloc, views, peer, mail, event)
}

/// A peer has a further result of a probe of whom it observes on a ring, in this configuration. If
/// the edge is down, its node is told, and sends nothing at that.
#[tactic(auto)]
pub(crate) fn probe(
    alloc: Global,
    views: &mut Views,
    peer: &mut Peer,
    ring: u8,
    ok: bool,
    observed: (ConfigId, Process),
) -> Result<Told, AllocError>
    requires runs { model.is_halted peer.old.node ≡ false }
    requires member { is_some (model.member_in peer.old.node) ≡ true }
    requires edge { (e : Edge) × (edge_at peer.old.edges ring ≡ Some e) }
    requires keeps { (probed (step.edge_on peer.old.edges ring) ok).is_down ≡ true → KeepsAt peer.old.node (model.EdgeDown observed.0 ring observed.1) }
    ensures peer { IfOk result (λ news. peer.new ≡ (told peer.old ring ok (model.EdgeDown observed.0 ring observed.1) news.halts).peer) }
    ensures packets { IfOk result (λ news. (told peer.old ring ok (model.EdgeDown observed.0 ring observed.1) news.halts).packets ≡ []) }
    ensures reports { IfOk result (λ news. option_to_list (option_map report_of news.report) ≡ (told peer.old ring ok (model.EdgeDown observed.0 ring observed.1) news.halts).reports) }
    ensures quiet { IfOk result (λ news. (probed (step.edge_on peer.old.edges ring) ok).is_down ≡ false → news.halts ≡ false) }
    ensures peer_unchanged { OnErr result (peer.new ≡ peer.old) }
{
    let lost = peer.probe(alloc, ring, ok, &observed.1)?;
    match lost {
        Some(subject) => {
            let event = Event::EdgeDown(observed.0, ring, subject);
            Ok(peer.take_quietly(views, &event))
        }
        None => Ok(Told::nothing()),
    }
}
