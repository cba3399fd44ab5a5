// Those who probe edges or look at them, each in a thread of its own.
use crate::readers::Reader;
use anyhow::Result;
use rapid_monitor::{Edge, EdgeBoard, EdgeSeat, Verdict};
use std::alloc::Global;
use std::hint::black_box;
use std::sync::{Mutex, Wait};

/// How many edges there are.
pub const EDGES: usize = 16;

/// The edge that is looked at after this one.
fn next_edge(edge: usize) -> usize {
    if edge < EDGES - 1 { edge + 1 } else { 0 }
}

/// Takes a result of an edge by its seat.
#[derive(Drop)]
pub struct ProbingSeat {
    pub seat: EdgeSeat,
}

impl Reader for ProbingSeat {
    fn read<R: Wait>(&mut self, _rt: &R, times: u32) -> Result<()> {
        for _ in 0..times {
            let _ = black_box(self.seat.probe(black_box(true)));
        }
        Ok(())
    }
}

/// Asks whether an edge is down, each edge in turn.
#[derive(Drop)]
pub struct Watcher {
    pub board: EdgeBoard,
}

impl Reader for Watcher {
    fn read<R: Wait>(&mut self, _rt: &R, times: u32) -> Result<()> {
        let mut edge = 0;
        for _ in 0..times {
            if edge < self.board.edges() {
                let _ = black_box(self.board.is_down(edge));
            }
            edge = next_edge(edge);
        }
        Ok(())
    }
}

/// An edge, and its last verdict.
#[derive(Drop)]
struct Window {
    edge: Edge,
    verdict: Verdict,
}

/// The windows of all edges.
#[derive(Drop)]
pub struct Windows {
    windows: Vec<Window>,
}

impl Windows {
    /// Windows of edges that were not probed.
    pub fn new(alloc: Global) -> Result<Windows> {
        let mut windows = Vec::new(alloc);
        for _ in 0..EDGES {
            windows.push(Window {
                edge: Edge::new(alloc)?,
                verdict: Verdict::Up,
            })?;
        }
        Ok(Windows { windows })
    }

    /// Takes a result of an edge.
    fn probe(&mut self, edge: usize, ok: bool) -> Verdict {
        if edge >= self.windows.len() {
            return Verdict::Up;
        }
        let window = &mut self.windows[edge];
        window.verdict = window.edge.probe(ok);
        window.verdict
    }

    /// Whether an edge is down.
    fn is_down(&self, edge: usize) -> bool {
        edge < self.windows.len() && self.windows[edge].verdict == Verdict::Down
    }
}

/// Takes a result of an edge under a lock of all windows.
#[derive(Drop)]
pub struct LockedProbe<'a> {
    pub windows: &'a Mutex<Windows>,
    pub edge: usize,
}

impl Reader for LockedProbe<'_> {
    fn read<R: Wait>(&mut self, rt: &R, times: u32) -> Result<()> {
        for _ in 0..times {
            let verdict = self.windows.lock(rt).probe(self.edge, black_box(true));
            let _ = black_box(verdict);
        }
        Ok(())
    }
}

/// Asks under that lock whether an edge is down, each edge in turn.
#[derive(Drop)]
pub struct LockedWatcher<'a> {
    pub windows: &'a Mutex<Windows>,
}

impl Reader for LockedWatcher<'_> {
    fn read<R: Wait>(&mut self, rt: &R, times: u32) -> Result<()> {
        let mut edge = 0;
        for _ in 0..times {
            let is_down = self.windows.lock(rt).is_down(edge);
            let _ = black_box(is_down);
            edge = next_edge(edge);
        }
        Ok(())
    }
}
