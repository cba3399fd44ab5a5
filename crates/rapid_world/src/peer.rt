// One node of a world, with its probe windows.

ghost use Rattle.std.specs.Prelude.{◌≡◌, ◌<◌, [], All, map, ℕ, true, false, is_some, slice_set, IfOk, OnOk, IfSome, IfNone, OnErr, Option, Some, None};
ghost use Rattle.std.specs.Option.{option_map, option_to_list};
ghost use Rattle.rapid_model.specs.Configuration.{is_member};
ghost use Rattle.rapid_model.specs.Edge.{Edge, probed};
ghost use Rattle.rapid_model.specs.Monitors.{edge_at};
ghost use Rattle.rapid_model.specs.Node as model;
ghost use Rattle.rapid_model.specs.World as world;
ghost use Rattle.rapid_model.specs.WorldStep as step;
ghost use Rattle.rapid_node.specs.Quiet.{IsQuiet};
ghost use Rattle.rapid_node.specs.Steps.{event_of};
ghost use Rattle.rapid_world.specs.Events.{report_of};
ghost use Rattle.rapid_world.specs.Framed.{framed_packet, HasFrame};
ghost use Rattle.rapid_world.specs.Handed.{handed, KeepsAt, wants_memory};
ghost use Rattle.rapid_world.specs.Windows.{packets_in, edge_of, windows_of};

use crate::recipients::member_configuration;
use crate::taken::{StepTaken, Told};
use crate::windows::Windows;
use bytes::Bytes;
use rapid_config::{ConfigId, Configuration};
use rapid_endpoint::{Endpoint, KeptProcess, Process, SharedProcess};
use rapid_monitor::Monitors;
use rapid_node::{Event, Node, NodeFault, Phase, Views};
use std::alloc::{AllocError, Global};
use std::marker::Model;
use std::mem;

/// One node of a world: whether it crashed, and its probe windows.
#[derive(Drop)]
pub(crate) struct Peer {
    node: Node,
    crashed: bool,
    windows: Windows,
    // the frame that it sent last: a node that is late is sent the same decision again and again
    last: Option<Bytes>,
}

impl Model for Peer {
    ghost use Rattle.rapid_model.specs.World.{Peer as ModelPeer};
    ghost use Rattle.rapid_world.specs.Codes.{peer_code};

    ghost Value = { ModelPeer };

    ghost coded = { peer_code };

    ghost use Rattle.rapid_world.specs.Windows.{windows_of};

    ghost view = { λ p. record { node = p.node; crashed = p.crashed; edges = windows_of p.windows p.node } };
}

/// Whether a node is a member.
fn is_in_a_configuration(node: &Node) -> bool
    ensures { result ≡ is_some (model.member_in node.now) }
{
    matches!(node.phase(), Phase::Member)
}

/// Whether a node installed a configuration between two states.
fn has_entered(old: &Node, new: &Node) -> bool
    ensures { result ≡ model.has_installed old.now new.now }
{
    old.installed().len() < new.installed().len()
}

/// Keeps the frame that was sent last, if any was.
fn keep_last(last: &mut Option<Bytes>, sent: Option<Bytes>) {
    if sent.is_some() {
        *last = sent;
    }
}

/// Whether a node halted because it was out of memory.
fn is_want_of_memory(fault: NodeFault) -> bool
    ensures { result ≡ wants_memory fault }
{
    matches!(fault, NodeFault::OutOfMemory)
}

impl Peer {
    /// The peer of a founder, by views that nodes share.
    pub(crate) fn founder(
        alloc: Global,
        views: &mut Views,
        configuration: &Configuration,
        process: Process,
    ) -> Result<Peer, AllocError>
        requires { is_member configuration.now process ≡ true }
        ensures { IfOk result (λ peer. peer ≡ step.added (model.seed_node configuration.now process)) }
    {
        let node = Node::seed_in(alloc, views, configuration, process)?;
        Ok(Peer {
            node,
            crashed: false,
            windows: Windows::Fresh,
            last: None,
        })
    }

    /// The peer of a process that joins by the seed at this endpoint.
    pub(crate) fn joiner(
        alloc: Global,
        process: Process,
        seed: Endpoint,
    ) -> Result<Peer, AllocError>
        ensures { IfOk result (λ peer. peer ≡ step.added (model.joiner_node process seed)) }
    {
        let node = Node::joiner(alloc, process, seed)?;
        Ok(Peer {
            node,
            crashed: false,
            windows: Windows::Fresh,
            last: None,
        })
    }

    /// Its process, to be kept. It takes no memory: one with tags is shared with its node.
    pub(crate) fn kept_process(&self) -> Result<KeptProcess, AllocError>
        ensures { IfOk result (λ kept. kept ≡ self.now.node.me) }
    {
        KeptProcess::of(self.node.shared_process())
    }

    /// Its node.
    pub(crate) fn node(&self) -> &Node
        ensures { result.now ≡ self.now.node }
    {
        &self.node
    }

    /// Whether it runs.
    pub(crate) fn is_running(&self) -> bool
        ensures { result ≡ world.is_running self.now }
    {
        !self.crashed && !matches!(self.node.phase(), Phase::Halted)
    }

    /// It crashes.
    pub(crate) fn crash(&mut self)
        ensures { self.new ≡ record self.old { crashed = true } }
    {
        self.crashed = true;
    }

    /// Its node takes an event at which it sends nothing, by views that nodes share. It takes no
    /// memory but the node's own.
    pub(crate) fn take_quietly(&mut self, views: &mut Views, event: &Event) -> Told
        requires runs { model.is_halted self.old.node ≡ false }
        requires keeps { KeepsAt self.old.node (event_of event.now) }
        requires quiet { IsQuiet self.old.node (event_of event.now) }
        ensures peer { self.new ≡ (handed self.old (event_of event.now) result.halts).peer }
        ensures packets { (handed self.old (event_of event.now) result.halts).packets ≡ [] }
        ensures report { option_to_list (option_map report_of result.report) ≡ (handed self.old (event_of event.now) result.halts).reports }
    {
        let was_member = is_in_a_configuration(&self.node);
        match self.node.step_in(views, event) {
            Ok(outputs) => {
                mem::drop(outputs);
                Told::nothing()
            }
            Err(fault) => {
                let id = self.node.process().id();
                self.windows.leave(was_member);
                Told::halted(id, is_want_of_memory(fault))
            }
        }
    }

    /// Its node takes an event, after `first` packets were sent, by views that nodes share. A copy
    /// makes the step, and takes the node's place once the frames of what it sends are there. So if
    /// there is no memory for these, nothing has changed.
    pub(crate) fn take(
        &mut self,
        alloc: Global,
        views: &mut Views,
        event: &Event,
        first: u64,
    ) -> Result<StepTaken, AllocError>
        requires runs { model.is_halted self.old.node ≡ false }
        requires keeps { KeepsAt self.old.node (event_of event.now) }
        ensures peer { IfOk result (λ taken. self.new ≡ (handed self.old (event_of event.now) taken.told.halts).peer) }
        ensures sending { IfOk result (λ taken. packets_in taken.sending ≡ map framed_packet (handed self.old (event_of event.now) taken.told.halts).packets) }
        ensures framed { IfOk result (λ taken. All HasFrame (handed self.old (event_of event.now) taken.told.halts).packets) }
        ensures report { IfOk result (λ taken. option_to_list (option_map report_of taken.told.report) ≡ (handed self.old (event_of event.now) taken.told.halts).reports) }
        ensures first { IfOk result (λ taken. IfSome taken.sending (λ s. s.first ≡ first)) }
        ensures unchanged { OnErr result (self.new ≡ self.old) }
    {
        let mut node = self.node.try_copy()?;
        match node.step_in(views, event) {
            Ok(outputs) => {
                let last = self.last.as_ref();
                let taken = StepTaken::of(
                    alloc,
                    &self.node,
                    &node,
                    first,
                    outputs.as_slice(),
                    last,
                )?;
                let sent = taken.last_frame()?;
                keep_last(&mut self.last, sent);
                self.windows.enter(has_entered(&self.node, &node));
                self.node = node;
                Ok(taken)
            }
            Err(fault) => {
                let id = self.node.process().id();
                let was_member = is_in_a_configuration(&self.node);
                self.windows.leave(was_member);
                self.node = node;
                Ok(StepTaken::halted(id, is_want_of_memory(fault)))
            }
        }
    }

    /// Whom its node observes on a ring, from 0, with the identifier of their configuration.
    #[tactic(auto, using(crate::proofs::Probing::none_observed, crate::proofs::Probing::whom_observed))]
    pub(crate) fn observed(&self, ring: u8) -> Option<(ConfigId, Process)>
        ensures { result ≡ edge_of (world.observed self.now ring) }
    {
        let Some(configuration) = member_configuration(&self.node) else {
            return None;
        };
        match self.node.observed(ring) {
            Some(subject) => Some((configuration.id(), subject)),
            None => None,
        }
    }

    /// Takes the result of a probe of the member that its node observes on a ring. The answer is
    /// that member, to be shared, if the edge is down.
    #[tactic(auto)]
    pub(crate) fn probe(
        &mut self,
        alloc: Global,
        ring: u8,
        ok: bool,
        subject: &Process,
    ) -> Result<Option<SharedProcess>, AllocError>
        requires member { is_some (model.member_in self.old.node) ≡ true }
        requires edge { (e : Edge) × (edge_at self.old.edges ring ≡ Some e) }
        ensures peer { OnOk result (self.new ≡ step.with_edge self.old ring (probed (step.edge_on self.old.edges ring) ok)) }
        ensures down { IfOk result (λ lost. IfSome lost (λ p. (p ≡ subject.now) × ((probed (step.edge_on self.old.edges ring) ok).is_down ≡ true))) }
        ensures up { IfOk result (λ lost. IfNone lost ((probed (step.edge_on self.old.edges ring) ok).is_down ≡ false)) }
        ensures unchanged { OnErr result (self.new ≡ self.old) }
    {
        let windows = mem::replace(&mut self.windows, Windows::Fresh);
        let mut monitors = monitors_of(alloc, windows, &self.node)?;
        let lost = note(alloc, &mut monitors, ring, ok, subject);
        self.windows = Windows::Kept(monitors);
        lost
    }
}

/// The windows of a member's node; they are made if they are still fresh.
#[tactic(auto, using(crate::proofs::Probing::fresh_left))]
fn monitors_of(alloc: Global, windows: Windows, node: &Node) -> Result<Monitors, AllocError>
    requires member { is_some (model.member_in node.now) ≡ true }
    requires edge { (k : ℕ) × (e : Edge) × (edge_at (windows_of windows node.now) k ≡ Some e) }
    ensures kept { IfOk result (λ monitors. monitors ≡ windows_of windows node.now) }
    ensures fresh { OnErr result (step.windows_in (model.member_in node.now) node.now.me ≡ windows_of windows node.now) }
{
    match windows {
        Windows::Kept(monitors) => Ok(monitors),
        Windows::Fresh => fresh_monitors(alloc, node),
        Windows::Left(_) => fresh_monitors(alloc, node),
    }
}

/// Notes the result of a probe. The answer is who was probed, to be shared, if the edge is down. What
/// needs memory comes first: without it nothing is noted.
#[tactic(auto)]
fn note(
    alloc: Global,
    monitors: &mut Monitors,
    ring: u8,
    ok: bool,
    subject: &Process,
) -> Result<Option<SharedProcess>, AllocError>
    requires { (e : Edge) × (edge_at monitors.old ring ≡ Some e) }
    ensures monitors { OnOk result (monitors.new ≡ slice_set monitors.old ring (Some (probed (step.edge_on monitors.old ring) ok))) }
    ensures down { IfOk result (λ lost. IfSome lost (λ p. (p ≡ subject.now) × ((probed (step.edge_on monitors.old ring) ok).is_down ≡ true))) }
    ensures up { IfOk result (λ lost. IfNone lost ((probed (step.edge_on monitors.old ring) ok).is_down ≡ false)) }
    ensures unchanged { OnErr result (monitors.new ≡ monitors.old) }
{
    let lost = shared_if(alloc, goes_down(monitors, ring, ok), subject)?;
    let _ = monitors.probe(ring, ok);
    Ok(lost)
}

/// Whether the edge on a ring is down after one more result.
#[tactic(auto)]
fn goes_down(monitors: &Monitors, ring: u8, ok: bool) -> bool
    requires { (e : Edge) × (edge_at monitors.now ring ≡ Some e) }
    ensures { result ≡ (probed (step.edge_on monitors.now ring) ok).is_down }
{
    monitors.is_down_after(ring, ok).unwrap_or(false)
}

/// The process, to be shared, if it is wanted. Else no memory is taken.
fn shared_if(
    alloc: Global,
    wanted: bool,
    process: &Process,
) -> Result<Option<SharedProcess>, AllocError>
    ensures some { IfOk result (λ shared. IfSome shared (λ p. (p ≡ process.now) × (wanted ≡ true))) }
    ensures none { IfOk result (λ shared. IfNone shared (wanted ≡ false)) }
{
    if wanted {
        Ok(Some(SharedProcess::new(alloc, process)?))
    } else {
        Ok(None)
    }
}

/// The probe windows of a member that was not probed.
#[tactic(auto, unfolding(rapid_model::specs::WorldStep::windows_in))]
fn fresh_monitors(alloc: Global, node: &Node) -> Result<Monitors, AllocError>
    requires { is_some (model.member_in node.now) ≡ true }
    ensures { IfOk result (λ monitors. monitors ≡ step.windows_in (model.member_in node.now) node.now.me) }
{
    match node.rings() {
        Some(rings) => Monitors::new(alloc, rings, &node.process()),
        None => unreachable!(),
    }
}
