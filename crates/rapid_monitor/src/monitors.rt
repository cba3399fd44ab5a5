//! The probe windows of a member.
ghost use Rattle.std.specs.Prelude.{◌≡◌, ◌↔◌, ◌==◌, ◌++◌, [], ◌∷◌, ℕ, List, Bool, IfOk, Some, None, map, if◌then◌else◌};
ghost use Rattle.std.specs.List.{range_with_len, list_any};
ghost use Rattle.std.specs.Option.{option_map};
ghost use Rattle.rapid_model.specs.Edge.{fresh_edge, probed, edge_after, HasDownStretch};
ghost use Rattle.rapid_model.specs.Monitors.{fresh_monitors, edge_at, probed_at, is_down_after};
ghost use Rattle.rapid_monitor.specs.Slots.{slot_for};
ghost use Rattle.rapid_monitor.specs.declared.edge.Verdict.TheVariants.{Up, Down};

use crate::{Edge, Verdict};
use rapid_endpoint::Process;
use rapid_rings::{ObserverTable, Rings};
use std::alloc::{AllocError, Global};
use std::marker::Model;

/// The probe windows of a member in one configuration: one for each ring on which it observes
/// another.
#[derive(Drop)]
pub struct Monitors {
    /// By ring, from 0.
    edges: Vec<Option<Edge>>,
}

impl Model for Monitors {
    ghost use Rattle.rapid_model.specs.Monitors.{Monitors as ModelMonitors};

    ghost Value = { ModelMonitors };

    ghost view = { λ m. m.edges.items };
}

/// An edge for each ring that these pairs name.
fn fresh_slots(
    alloc: Global,
    rings: u8,
    subjects: &[(u8, Process)],
) -> Result<Vec<Option<Edge>>, AllocError>
    ensures { IfOk result (λ slots. slots.items ≡ map (slot_for subjects.now) (range_with_len 0 rings)) }
{
    let mut slots = Vec::with_capacity(alloc, usize::from(rings))?;
    for ring in 0..rings {
        slots.push(fresh_slot(alloc, ring, subjects)?)?;
    }
    Ok(slots)
}

/// An edge, if a pair names the ring.
fn fresh_slot(
    alloc: Global,
    ring: u8,
    subjects: &[(u8, Process)],
) -> Result<Option<Edge>, AllocError>
    ensures { IfOk result (λ slot. slot ≡ slot_for subjects.now ring) }
{
    if is_named(ring, subjects) {
        Ok(Some(Edge::new(alloc)?))
    } else {
        Ok(None)
    }
}

/// Whether a pair names the ring.
fn is_named(ring: u8, subjects: &[(u8, Process)]) -> bool
    ensures { result ≡ list_any (λ x. x.0 == ring) subjects.now }
{
    subjects.iter().any(|(named, _)| *named == ring)
}

impl Monitors {
    /// The monitors of a member in the configuration of these rings. For each ring on which it
    /// observes another there is an edge that was not probed, with the room for its window.
    pub fn new(alloc: Global, rings: &Rings, process: &Process) -> Result<Monitors, AllocError>
        ensures { IfOk result (λ monitors. monitors ≡ fresh_monitors rings.now process.now) }
    {
        let count = rings.params().k();
        let subjects = rings.subjects_of(alloc, process)?;
        let edges = fresh_slots(alloc, count, subjects.as_slice())?;
        Ok(Monitors { edges })
    }

    /// Copies the monitors: an equal value with windows of its own.
    pub fn try_copy(&self, alloc: Global) -> Result<Monitors, AllocError>
        ensures { IfOk result (λ monitors. monitors ≡ self.now) }
    {
        let mut edges = Vec::with_capacity(alloc, self.edges.len())?;
        let slots = self.edges.as_slice();
        for slot in slots {
            edges.push(copy_slot(alloc, slot)?)?;
        }
        Ok(Monitors { edges })
    }

    /// Takes the result of one more probe on a ring, and gives the verdict of the results on that
    /// ring. It gives none exactly if no process is observed on it. It takes no memory.
    pub fn probe(&mut self, ring: u8, ok: bool) -> Option<Verdict>
        ensures after { self.new ≡ probed_at self.old ring ok }
        ensures verdict { result ≡ option_map (λ is_down. if is_down then Down else Up) (is_down_after self.old ring ok) }
        ensures so_far { (oks : List Bool) → edge_at self.old ring ≡ Some (edge_after fresh_edge oks) → (result ≡ Some Down) ↔ HasDownStretch (oks ++ ok ∷ []) }
    {
        let place = usize::from(ring);
        if place >= self.edges.len() {
            return None;
        }
        probe_slot(&mut self.edges[place], ok)
    }

    /// Whether the edge on a ring is down after one more result, which is not taken. It gives none
    /// exactly if no process is observed on it.
    pub fn is_down_after(&self, ring: u8, ok: bool) -> Option<bool>
        ensures { result ≡ is_down_after self.now ring ok }
    {
        let at = usize::from(ring);
        if at >= self.edges.len() {
            return None;
        }
        is_slot_down_after(&self.edges[at], ok)
    }
}

/// Copies an edge, if there is one.
fn copy_slot(alloc: Global, slot: &Option<Edge>) -> Result<Option<Edge>, AllocError>
    ensures { IfOk result (λ copy. copy ≡ slot.now) }
{
    match slot {
        Some(edge) => Ok(Some(edge.try_copy(alloc)?)),
        None => Ok(None),
    }
}

/// Takes a result, if there is an edge.
fn probe_slot(slot: &mut Option<Edge>, ok: bool) -> Option<Verdict>
    ensures after { slot.new ≡ option_map (λ e. probed e ok) slot.old }
    ensures verdict { result ≡ option_map (λ e. if (probed e ok).is_down then Down else Up) slot.old }
{
    match slot {
        Some(edge) => Some(edge.probe(ok)),
        None => None,
    }
}

/// Whether an edge is down after one more result, if there is an edge.
fn is_slot_down_after(slot: &Option<Edge>, ok: bool) -> Option<bool>
    ensures { result ≡ option_map (λ e. (probed e ok).is_down) slot.now }
{
    match slot {
        Some(edge) => Some(edge.is_down_after(ok)),
        None => None,
    }
}
