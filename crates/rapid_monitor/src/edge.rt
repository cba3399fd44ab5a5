//! The probe window of one edge.
ghost use Rattle.std.specs.Prelude.{◌≡◌, ◌↔◌, ◌++◌, [], ◌∷◌, List, Bool, IfOk, if◌then◌else◌};
ghost use Rattle.rapid_model.specs.Edge.{failures, next_window, fresh_edge, probed, edge_after, HasDownStretch};
ghost use Rattle.rapid_monitor.specs.declared.edge.Verdict.TheVariants.{Up, Down};

use circular_buffer::HeapCircularBuffer;
use std::alloc::{AllocError, Global};
use std::marker::Model;

/// How many results a window keeps.
pub(crate) const WINDOW: usize = 10;

/// How many failures in one window make an edge down.
pub(crate) const FAILURES: u8 = 4;

/// What a monitor says of an edge after a probe.
#[derive(Clone, Copy, Debug, PartialEq, Eq)]
pub enum Verdict {
    /// No ten successive results so far held four failures.
    Up,
    /// Some ten successive results, or all of fewer, held four failures.
    Down,
}

impl Verdict {
    pub(crate) fn of(is_down: bool) -> Verdict
        ensures { result ≡ (if is_down then Down else Up) }
    {
        if is_down { Verdict::Down } else { Verdict::Up }
    }
}

/// The probe results of one edge: the last ten, and whether four of ten ever failed.
///
/// Down is final: no later result makes the edge up again.
#[derive(Drop)]
pub struct Edge {
    /// Whether each of the last results is a failure, the newest first.
    window: HeapCircularBuffer<bool>,
    /// How many failures the window holds.
    failures: u8,
    is_down: bool,
}

impl Model for Edge {
    ghost use Rattle.std.specs.Prelude.{◌≡◌, ◌≤◌, length};
    ghost use Rattle.rapid_model.specs.Edge.{Edge as ModelEdge, failures as failures_in};
    ghost use Rattle.rapid_model.specs.Limits.{probe_window};

    ghost Value = { ModelEdge };

    ghost view = { λ e. record { window = e.window.items; is_down = e.is_down } };

    ghost invariant = { λ e. (e.window.capacity ≡ probe_window) × (length e.window.items ≤ probe_window)
        × (e.failures ≡ failures_in e.window.items) };
}

impl Edge {
    /// Returns an edge that was not probed, with the room for its window.
    pub fn new(alloc: Global) -> Result<Edge, AllocError>
        ensures { IfOk result (λ e. e ≡ fresh_edge) }
    {
        Ok(Edge {
            window: HeapCircularBuffer::with_capacity(alloc, WINDOW)?,
            failures: 0,
            is_down: false,
        })
    }

    /// Takes the result of one more probe. The answer is whether the edge is down: whether some
    /// stretch of at most ten successive results so far holds four failures. It takes no memory.
    pub fn probe(&mut self, ok: bool) -> Verdict
        ensures after { self.new ≡ probed self.old ok }
        ensures verdict { result ≡ (if self.new.is_down then Down else Up) }
        ensures so_far { (oks : List Bool) → self.old ≡ edge_after fresh_edge oks → (result ≡ Down) ↔ HasDownStretch (oks ++ ok ∷ []) }
    {
        let failures = self.failures_after(ok);
        self.failures = failures;
        let _ = self.window.push_front(!ok);
        self.is_down |= self.failures >= FAILURES;
        Verdict::of(self.is_down)
    }

    /// How many failures the window holds after one more result.
    fn failures_after(&self, ok: bool) -> u8
        ensures { result ≡ failures (next_window self.now.window ok) }
    {
        let failed = !ok;
        // the result that then leaves the window, if one does
        let oldest_failed = self.window.get(WINDOW - 1).copied().unwrap_or(false);
        self.failures + u8::from(failed) - u8::from(oldest_failed)
    }

    /// Whether the edge is down after one more result, which is not taken: what [`Edge::probe`] would say.
    pub fn is_down_after(&self, ok: bool) -> bool
        ensures { result ≡ (probed self.now ok).is_down }
    {
        self.is_down || self.failures_after(ok) >= FAILURES
    }

    /// Copies the edge: an equal value with a window of its own.
    pub fn try_copy(&self, alloc: Global) -> Result<Edge, AllocError>
        ensures { IfOk result (λ e. e ≡ self.now) }
    {
        let mut window = HeapCircularBuffer::with_capacity(alloc, WINDOW)?;
        let (front, back) = self.window.as_slices();
        window.extend_from_slice(front);
        window.extend_from_slice(back);
        Ok(Edge {
            window,
            failures: self.failures,
            is_down: self.is_down,
        })
    }
}
