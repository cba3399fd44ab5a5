// A simulated cluster, and the events that lines make in it.

ghost use Rattle.std.specs.Prelude.{◌≡◌, ◌+◌, ◌++◌, ◌∷◌, [], ◌≤◌, false, map, flat_map, replicate, Some, IfOk, OnOk};
ghost use Rattle.rapid_model.specs.World as model;
ghost use Rattle.rapid_model.specs.World.{running_under, peer_at};
ghost use Rattle.rapid_model.specs.StoredWorld.{world_of, wants_of, last_mark};
ghost use Rattle.rapid_model.specs.SimText.{least_unsettled, observes_on, failing, losing};
ghost use Rattle.rapid_model.specs.Limits.{most_in_flow};
ghost use Rattle.rapid_world.specs.Events.{event_of, error_wants};
ghost use Rattle.rapid_sim.specs.Wants.{EventsPrint, DeliveryPrints, FlowPrints};
ghost use Rattle.rapid_sim.specs.Progress.{IsDone, HasStepped, HasFlowed, error_text};
ghost use Rattle.rapid_sim.specs.Simulators.{simulation_of};
ghost use Rattle.rapid_sim.specs.Losing.{failing_where, losing_by};

use crate::settled::Settled;
use crate::view::{SimRefusal, refused_line, write_reports};
use rapid_endpoint::ProcessId;
use rapid_world::{World, WorldError, WorldEvent};
use std::alloc::{AllocError, Global};

/// How many packets one flow settles at most.
const MOST_IN_FLOW: u64 = 10_000;

/// A simulated cluster: its world, which packets are settled, and how often memory ran out.
#[derive(Drop)]
pub(crate) struct Simulator {
    pub(crate) world: World,
    pub(crate) settled: Settled,
    pub(crate) met: u64,
}

/// The line that a refused event prints.
fn error_line(error: WorldError) -> &'static [u8]
    ensures { result.now ≡ error_text error }
{
    match error {
        WorldError::IdentifierUsed => refused_line(SimRefusal::IdentifierUsed),
        WorldError::EndpointBusy => refused_line(SimRefusal::EndpointBusy),
        WorldError::NoSuchNode => refused_line(SimRefusal::NoSuchNode),
        WorldError::NoSuchPacket => refused_line(SimRefusal::NoSuchPacket),
        WorldError::NotObserved => refused_line(SimRefusal::NotObserved),
        WorldError::EventsFull => refused_line(SimRefusal::EventsFull),
        WorldError::OutOfMemory => b"refused OutOfMemory\n",
    }
}

/// How often memory ran out at a refused event.
fn error_wants(error: WorldError) -> u64
    ensures { result ≡ error_wants error }
{
    match error {
        WorldError::OutOfMemory => 1,
        _ => 0,
    }
}

/// How often memory ran out at the last event: once if it was marked, since its node halted.
#[tactic(auto, unfolding(rapid_model::specs::StoredWorld::last_mark))]
fn last_wants(world: &World) -> u64
    ensures { result ≡ wants_of (last_mark world.now.events) }
{
    let last = world.accepted().saturating_sub(1);
    match world.event(last) {
        Some((_, true)) => 1,
        Some((_, false)) | None => 0,
    }
}

/// The sum, unless it overflows.
fn added(met: u64, wants: u64) -> Result<u64, AllocError>
    ensures { IfOk result (λ sum. sum ≡ met + wants) }
{
    met.checked_add(wants).ok_or(AllocError)
}

impl Simulator {
    /// Makes an event happen, and appends what it prints; whether it was accepted.
    fn step(&mut self, event: &WorldEvent, output: &mut Vec<u8>) -> Result<bool, AllocError>
        ensures { IfOk result (HasStepped (simulation_of self.old) (simulation_of self.new) (event_of event.now) output.old.items output.new.items self.old.met self.new.met) }
    {
        match self.world.step(event) {
            Ok(reports) => {
                self.met = added(self.met, last_wants(&self.world))?;
                write_reports(reports.as_slice(), output)?;
                Ok(true)
            }
            Err(error) => {
                self.met = added(self.met, error_wants(error))?;
                output.extend_from_slice(error_line(error))?;
                Ok(false)
            }
        }
    }

    /// Makes an event happen `count` times, or until one is refused.
    pub(crate) fn repeat(
        &mut self,
        event: &WorldEvent,
        count: u64,
        output: &mut Vec<u8>,
    ) -> Result<(), AllocError>
        ensures { OnOk result (IsDone (EventsPrint (simulation_of self.old) (replicate count (event_of event.now))) (simulation_of self.new) output.old.items output.new.items self.old.met self.new.met) }
    {
        for _done in 0..count {
            if !self.step(event, output)? {
                return Ok(());
            }
        }
        Ok(())
    }

    /// Makes these events happen in turn, until one is refused.
    fn run_each(&mut self, events: &[WorldEvent], output: &mut Vec<u8>) -> Result<(), AllocError>
        ensures { OnOk result (IsDone (EventsPrint (simulation_of self.old) (map event_of events.now)) (simulation_of self.new) output.old.items output.new.items self.old.met self.new.met) }
    {
        for event in events {
            if !self.step(event, output)? {
                return Ok(());
            }
        }
        Ok(())
    }

    /// Delivers a packet, and settles it if that is accepted.
    pub(crate) fn deliver(&mut self, packet: u64, output: &mut Vec<u8>) -> Result<(), AllocError>
        requires { 1 ≤ packet }
        ensures { OnOk result (IsDone (DeliveryPrints (simulation_of self.old) packet) (simulation_of self.new) output.old.items output.new.items self.old.met self.new.met) }
    {
        if self.step(&WorldEvent::Deliver(packet), output)? {
            self.settled.settle(packet)?;
        }
        Ok(())
    }

    /// Settles the least packet that is not settled, and delivers it if a node runs at its
    /// endpoint. The answer is whether the flow goes on.
    fn pass(&mut self, packet: u64, output: &mut Vec<u8>) -> Result<bool, AllocError>
        requires from_1 { 1 ≤ packet }
        requires least { least_unsettled (simulation_of self.old) ≡ Some packet }
        ensures { IfOk result (HasFlowed (simulation_of self.old) (simulation_of self.new) output.old.items output.new.items self.old.met self.new.met) }
    {
        if !self.world.can_deliver(packet) {
            self.settled.settle(packet)?;
            return Ok(true);
        }
        if !self.step(&WorldEvent::Deliver(packet), output)? {
            return Ok(false);
        }
        self.settled.settle(packet)?;
        Ok(true)
    }

    /// Passes the least packet that is not settled, if there is one; whether the flow goes on.
    #[tactic(auto, unfolding(rapid_model::specs::SimText::least_unsettled))]
    fn flow_once(&mut self, output: &mut Vec<u8>) -> Result<bool, AllocError>
        ensures { IfOk result (HasFlowed (simulation_of self.old) (simulation_of self.new) output.old.items output.new.items self.old.met self.new.met) }
    {
        match self.settled.least(self.world.packets()) {
            Some(packet) => self.pass(packet, output),
            None => Ok(false),
        }
    }

    /// Delivers packets, the least first, as long as there are any that are not settled.
    pub(crate) fn flow(&mut self, output: &mut Vec<u8>) -> Result<(), AllocError>
        ensures { OnOk result (IsDone (FlowPrints most_in_flow (simulation_of self.old)) (simulation_of self.new) output.old.items output.new.items self.old.met self.new.met) }
    {
        for _done in 0..MOST_IN_FLOW {
            if !self.flow_once(output)? {
                return Ok(());
            }
        }
        Ok(())
    }

    /// Makes all that run lose the member of an identifier: four probes fail on each ring on which
    /// it is observed.
    pub(crate) fn lose(
        &mut self,
        alloc: Global,
        id: &ProcessId,
        output: &mut Vec<u8>,
    ) -> Result<(), AllocError>
        ensures { OnOk result (IsDone (EventsPrint (simulation_of self.old) (losing (world_of self.old.world) id.now)) (simulation_of self.new) output.old.items output.new.items self.old.met self.new.met) }
    {
        let events = losing(alloc, &self.world, id)?;
        self.run_each(events.as_slice(), output)
    }
}

/// Whether the running node of the first identifier observes the member of the second on a ring.
#[tactic(auto, using(crate::proofs::Losing::observes))]
fn observes(world: &World, observer: &ProcessId, ring: u8, id: &ProcessId) -> bool
    ensures { result ≡ observes_on id.now (peer_at (world_of world.now) (running_under (world_of world.now) observer.now)) ring }
{
    match world.observed(observer, ring) {
        Some(subject) => *id == subject.id(),
        None => false,
    }
}

/// Appends a failed probe.
fn push_failed(
    observer: &ProcessId,
    ring: u8,
    events: &mut Vec<WorldEvent>,
) -> Result<(), AllocError>
    ensures { OnOk result (map event_of events.new.items ≡ map event_of events.old.items ++ model.Probe observer.now ring false ∷ []) }
{
    events.push(WorldEvent::Probe(*observer, ring, false))?;
    Ok(())
}

/// Appends four failed probes.
fn push_failing(
    observer: &ProcessId,
    ring: u8,
    events: &mut Vec<WorldEvent>,
) -> Result<(), AllocError>
    ensures { OnOk result (map event_of events.new.items ≡ map event_of events.old.items ++ failing observer.now ring) }
{
    push_failed(observer, ring, events)?;
    push_failed(observer, ring, events)?;
    push_failed(observer, ring, events)?;
    push_failed(observer, ring, events)
}

/// Appends four failed probes of an observer on a ring, if it observes the member of an identifier
/// there.
fn push_where_observed(
    world: &World,
    observer: &ProcessId,
    ring: u8,
    id: &ProcessId,
    events: &mut Vec<WorldEvent>,
) -> Result<(), AllocError>
    ensures { OnOk result (map event_of events.new.items ≡ map event_of events.old.items
        ++ failing_where (observes_on id.now (peer_at (world_of world.now) (running_under (world_of world.now) observer.now)) ring) observer.now ring) }
{
    if observes(world, observer, ring, id) {
        push_failing(observer, ring, events)
    } else {
        Ok(())
    }
}

/// Appends four failed probes of an observer for each of the first `rings` rings on which it
/// observes the member of an identifier.
fn push_losing(
    world: &World,
    observer: &ProcessId,
    rings: u8,
    id: &ProcessId,
    events: &mut Vec<WorldEvent>,
) -> Result<(), AllocError>
    ensures { OnOk result (map event_of events.new.items ≡ map event_of events.old.items ++ losing_by (world_of world.now) id.now rings observer.now) }
{
    for ring in 0..rings {
        push_where_observed(world, observer, ring, id, events)?;
    }
    Ok(())
}

/// Appends the probes by which each of these observers loses the member of an identifier, on the
/// first `rings` rings.
fn push_each(
    world: &World,
    observers: &[ProcessId],
    rings: u8,
    id: &ProcessId,
    events: &mut Vec<WorldEvent>,
) -> Result<(), AllocError>
    ensures { OnOk result (map event_of events.new.items ≡ map event_of events.old.items ++ flat_map (losing_by (world_of world.now) id.now rings) observers.now) }
{
    for observer in observers {
        push_losing(world, observer, rings, id, events)?;
    }
    Ok(())
}

/// The probes by which all that run lose the member of an identifier, by observer and ring.
#[tactic(auto, using(crate::proofs::Losing::losing_is))]
fn losing(alloc: Global, world: &World, id: &ProcessId) -> Result<Vec<WorldEvent>, AllocError>
    ensures { IfOk result (λ events. map event_of events.items ≡ losing (world_of world.now) id.now) }
{
    let rings = world.founding().params().k();
    let running = world.running()?;
    let mut events = Vec::new(alloc);
    push_each(world, running.as_slice(), rings, id, &mut events)?;
    Ok(events)
}
