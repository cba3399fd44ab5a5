// The rings of the next configuration, from those before.
use crate::figure::measure;
use crate::members::{MEMBERS, configuration, process};
use crate::work::Work;
use anyhow::Result;
use rapid_config::{Configuration, Cut};
use rapid_rings::Rings;
use std::alloc::Global;
use std::time::Clock;

/// The configuration after one left and one joined.
fn next(alloc: Global, founding: &Configuration) -> Result<Configuration> {
    let mut change = Vec::new(alloc);
    change.push(process(501))?;
    change.push(process(2000))?;
    Ok(founding.apply(alloc, &Cut::new(change)?)?)
}

/// Prints the figure `rings_next`: the sixteen rings of 1,024 members after one left and one
/// joined.
pub fn print<R: Print + Clock>(rt: &R, alloc: Global) -> Result<()> {
    let founding = configuration(alloc, MEMBERS)?;
    let before = Rings::new(alloc, &founding)?;
    let next = next(alloc, &founding)?;
    measure(
        rt,
        alloc,
        "rings_next",
        50,
        &Work::RingsNext(&before, &next),
    )
}
