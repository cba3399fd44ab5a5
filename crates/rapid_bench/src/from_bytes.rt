// A configuration, read from its bytes.
use crate::figure::measure;
use crate::members::{MEMBERS, configuration};
use crate::work::Work;
use anyhow::Result;
use std::alloc::Global;
use std::time::Clock;

/// Prints the figure `from_bytes`: a configuration of 1,024 members, read and checked, with its
/// identifier.
pub fn print<R: Print + Clock>(rt: &R, alloc: Global) -> Result<()> {
    let bytes = configuration(alloc, MEMBERS)?.to_bytes(alloc)?;
    measure(rt, alloc, "from_bytes", 500, &Work::FromBytes(&bytes))
}
