// Reads of the published view, and the same under a lock.
use crate::figure::nanoseconds_since;
use crate::readers::{KeptSeat, LockedStamp, LockedView, MemberSeat, Reader, StampSeat};
use crate::thousand::founded;
use anyhow::Result;
use rapid_config::Configuration;
use rapid_view::{View, ViewCell, ViewSeat};
use std::alloc::Global;
use std::sync::{Mutex, Wait};
use std::thread;
use std::thread::Threads;
use std::time::{Clock, Instant};

/// How often a thread reads a stamp.
const STAMPS: u32 = 1_000_000;

/// How often a thread reads the view.
const VIEWS: u32 = 10_000;

/// How often each figure is taken; the best counts.
const RUNS: u32 = 20;

/// The most threads.
pub const MOST_THREADS: usize = 4;

/// Reads this often; nobody else reads by this reader.
fn read<T: Reader, R: Wait>(rt: &R, reader: &Mutex<T>, times: u32) {
    let _ = reader.lock(rt).read(rt, times);
}

/// Starts a thread for each reader, and returns once all have read.
fn read_all<T: Reader + Send, R: Threads + Wait + Sync>(rt: &R, readers: &[Mutex<T>], times: u32) {
    thread::scope(thread::scope_env(), rt, |scope| {
        for reader in readers {
            let _ = scope.spawn(move || read(rt, reader, times));
        }
    });
}

/// How many nanoseconds it takes all readers to read so often each.
fn time<T: Reader + Send, R: Clock + Threads + Wait + Sync>(
    rt: &R,
    readers: &[Mutex<T>],
    times: u32,
) -> Result<u64> {
    let start = Instant::now(rt)?;
    read_all(rt, readers, times);
    nanoseconds_since(rt, start)
}

/// Prints the nanoseconds of a hundred reads of each, by one reader and by all.
pub fn measure<T: Reader + Send, R: Print + Clock + Threads + Wait + Sync>(
    rt: &R,
    name: &str,
    readers: &[Mutex<T>],
    times: u32,
) -> Result<()> {
    let (mut one, mut all) = (u64::MAX, u64::MAX);
    let first = readers.get(..1).unwrap_or(readers);
    for _ in 0..RUNS {
        one = one.min(time(rt, first, times)?);
        all = all.min(time(rt, readers, times)?);
    }
    let hundreds = u64::from(times / 100).max(1);
    println!(rt; "{name}_1 {}", one / hundreds)?;
    println!(rt; "{name}_{} {}", readers.len(), all / hundreds)?;
    Ok(())
}

/// The view of the configuration.
fn view_of(alloc: Global, configuration: &Configuration) -> Result<View> {
    Ok(View::new(configuration.try_copy(alloc)?))
}

/// Readers of the published stamp at these seats.
fn stamp_seats(alloc: Global, seats: Vec<ViewSeat>) -> Result<Vec<Mutex<StampSeat>>> {
    let mut readers = Vec::new(alloc);
    for seat in seats {
        readers.push(Mutex::new(StampSeat { seat, same: 0 }))?;
    }
    Ok(readers)
}

/// Readers of the published view at these seats.
fn member_seats(alloc: Global, seats: Vec<ViewSeat>) -> Result<Vec<Mutex<MemberSeat>>> {
    let mut readers = Vec::new(alloc);
    for seat in seats {
        readers.push(Mutex::new(MemberSeat { seat }))?;
    }
    Ok(readers)
}

/// Readers of the published view where these seats keep it.
fn kept_seats(alloc: Global, seats: Vec<ViewSeat>) -> Result<Vec<Mutex<KeptSeat>>> {
    let mut readers = Vec::new(alloc);
    for seat in seats {
        readers.push(Mutex::new(KeptSeat { seat }))?;
    }
    Ok(readers)
}

/// Prints the figures of the stamp.
fn print_stamps<R: Print + Clock + Threads + Wait + Sync>(
    rt: &R,
    alloc: Global,
    configuration: &Configuration,
) -> Result<()> {
    let view = view_of(alloc, configuration)?;
    let (_writer, seats) = ViewCell::new(rt, alloc, view, MOST_THREADS, 16)?;
    let readers = stamp_seats(alloc, seats)?;
    measure(rt, "stamp", readers.as_slice(), STAMPS)
}

/// Prints the figures of the view.
fn print_views<R: Print + Clock + Threads + Wait + Sync>(
    rt: &R,
    alloc: Global,
    configuration: &Configuration,
) -> Result<()> {
    let view = view_of(alloc, configuration)?;
    let (_writer, seats) = ViewCell::new(rt, alloc, view, MOST_THREADS, 16)?;
    let readers = member_seats(alloc, seats)?;
    measure(rt, "members", readers.as_slice(), VIEWS)
}

/// Prints the figures of the view where a seat keeps it.
fn print_kept_views<R: Print + Clock + Threads + Wait + Sync>(
    rt: &R,
    alloc: Global,
    configuration: &Configuration,
) -> Result<()> {
    let view = view_of(alloc, configuration)?;
    let (_writer, seats) = ViewCell::new(rt, alloc, view, MOST_THREADS, 16)?;
    let readers = kept_seats(alloc, seats)?;
    measure(rt, "kept", readers.as_slice(), STAMPS)
}

/// Prints the figures of a stamp under a lock.
fn print_locked_stamps<R: Print + Clock + Threads + Wait + Sync>(
    rt: &R,
    alloc: Global,
    configuration: &Configuration,
) -> Result<()> {
    let stamp = Mutex::new(configuration.stamp());
    let mut readers = Vec::new(alloc);
    for _ in 0..MOST_THREADS {
        readers.push(Mutex::new(LockedStamp {
            stamp: &stamp,
            same: 0,
        }))?;
    }
    measure(rt, "locked_stamp", readers.as_slice(), STAMPS)
}

/// Prints the figures of a view under a lock.
fn print_locked_views<R: Print + Clock + Threads + Wait + Sync>(
    rt: &R,
    alloc: Global,
    configuration: &Configuration,
) -> Result<()> {
    let view = Mutex::new(view_of(alloc, configuration)?);
    let mut readers = Vec::new(alloc);
    for _ in 0..MOST_THREADS {
        readers.push(Mutex::new(LockedView { alloc, view: &view }))?;
    }
    measure(rt, "locked_members", readers.as_slice(), VIEWS)
}

/// Prints the figures `stamp_1`, `stamp_4`, `locked_stamp_1` and so on, of `stamp`, `locked_stamp`,
/// `members`, `kept` and `locked_members`.
pub fn print<R: Print + Clock + Threads + Wait + Sync>(rt: &R, alloc: Global) -> Result<()> {
    let configuration = founded(alloc)?;
    print_stamps(rt, alloc, &configuration)?;
    print_locked_stamps(rt, alloc, &configuration)?;
    print_views(rt, alloc, &configuration)?;
    print_kept_views(rt, alloc, &configuration)?;
    print_locked_views(rt, alloc, &configuration)
}
