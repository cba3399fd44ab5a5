// How a figure is taken.
use crate::work::Work;
use anyhow::Result;
use std::alloc::Global;
use std::hint::black_box;
use std::time::{Clock, Instant};

/// Prints a figure's name and how many nanoseconds one unit of its work takes, in the fastest of
/// this many runs.
pub fn measure<R: Print + Clock>(
    rt: &R,
    alloc: Global,
    name: &str,
    runs: u32,
    work: &Work,
) -> Result<()> {
    let units = work.once(alloc)?;
    let mut least = u64::MAX;
    for _ in 0..runs {
        let start = Instant::now(rt)?;
        let _ = black_box(work.once(alloc)?);
        least = least.min(nanoseconds_since(rt, start)?);
    }
    println!(rt; "{name} {}", least / units.max(1))?;
    Ok(())
}

/// How many nanoseconds have gone since then.
pub fn nanoseconds_since<R: Clock>(rt: &R, start: Instant) -> Result<u64> {
    Ok(u64::try_from(start.elapsed(rt)?.as_nanos()).unwrap_or(u64::MAX))
}
