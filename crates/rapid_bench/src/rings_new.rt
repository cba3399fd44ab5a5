// The rings of a configuration, from nothing.
use crate::figure::measure;
use crate::members::{MEMBERS, configuration};
use crate::work::Work;
use anyhow::Result;
use std::alloc::Global;
use std::time::Clock;

/// Prints the figure `rings_new`: the sixteen rings of 1,024 members.
pub fn print<R: Print + Clock>(rt: &R, alloc: Global) -> Result<()> {
    let configuration = configuration(alloc, MEMBERS)?;
    measure(rt, alloc, "rings_new", 20, &Work::RingsNew(&configuration))
}
