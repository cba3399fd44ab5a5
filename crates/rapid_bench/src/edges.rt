// Probe windows that threads share, and the same under a lock.
use crate::edge_readers::{EDGES, LockedProbe, LockedWatcher, ProbingSeat, Watcher, Windows};
use crate::views::{MOST_THREADS, measure};
use anyhow::Result;
use rapid_monitor::{EdgeBoard, EdgeSeat};
use std::alloc::Global;
use std::sync::{Mutex, Wait};
use std::thread::Threads;
use std::time::Clock;

/// How often a thread takes a result of an edge, or asks whether one is down.
const TIMES: u32 = 1_000_000;

/// Who probes: one at each of the first seats, as many as threads.
fn probers(alloc: Global, seats: Vec<EdgeSeat>) -> Result<Vec<Mutex<ProbingSeat>>> {
    let mut readers = Vec::new(alloc);
    for seat in seats {
        if readers.len() < MOST_THREADS {
            readers.push(Mutex::new(ProbingSeat { seat }))?;
        }
    }
    Ok(readers)
}

/// Who watches.
fn watchers(alloc: Global, boards: Vec<EdgeBoard>) -> Result<Vec<Mutex<Watcher>>> {
    let mut readers = Vec::new(alloc);
    for board in boards {
        readers.push(Mutex::new(Watcher { board }))?;
    }
    Ok(readers)
}

/// Prints the figures of one board.
fn print_board<R: Print + Clock + Threads + Wait + Sync>(rt: &R, alloc: Global) -> Result<()> {
    let (boards, seats) = EdgeBoard::new(alloc, EDGES, MOST_THREADS)?;
    let probers = probers(alloc, seats)?;
    measure(rt, "probe", probers.as_slice(), TIMES)?;
    let watchers = watchers(alloc, boards)?;
    measure(rt, "is_down", watchers.as_slice(), TIMES)
}

/// Prints the figures of probes under a lock.
fn print_locked_probes<R: Print + Clock + Threads + Wait + Sync>(
    rt: &R,
    alloc: Global,
    windows: &Mutex<Windows>,
) -> Result<()> {
    let mut readers = Vec::new(alloc);
    for edge in 0..MOST_THREADS {
        readers.push(Mutex::new(LockedProbe { windows, edge }))?;
    }
    measure(rt, "locked_probe", readers.as_slice(), TIMES)
}

/// Prints the figures of looks under a lock.
fn print_locked_looks<R: Print + Clock + Threads + Wait + Sync>(
    rt: &R,
    alloc: Global,
    windows: &Mutex<Windows>,
) -> Result<()> {
    let mut readers = Vec::new(alloc);
    for _ in 0..MOST_THREADS {
        readers.push(Mutex::new(LockedWatcher { windows }))?;
    }
    measure(rt, "locked_is_down", readers.as_slice(), TIMES)
}

/// Prints the figures `probe_1`, `probe_4`, `is_down_1` and so on, of `probe`, `is_down`,
/// `locked_probe` and `locked_is_down`.
pub fn print<R: Print + Clock + Threads + Wait + Sync>(rt: &R, alloc: Global) -> Result<()> {
    print_board(rt, alloc)?;
    let windows = Mutex::new(Windows::new(alloc)?);
    print_locked_probes(rt, alloc, &windows)?;
    print_locked_looks(rt, alloc, &windows)
}
