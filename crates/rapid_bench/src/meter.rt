// What a figure of steps counts.
use crate::figure::nanoseconds_since;
use crate::memory::held;
use anyhow::Result;
use std::fs::Files;
use std::time::{Clock, Instant};

/// What a figure of steps counts.
#[derive(Clone, Copy)]
pub enum Meter {
    /// Nanoseconds since then.
    Time(Instant),
    /// Bytes that the process holds.
    Memory,
}

impl Meter {
    /// How much there is so far.
    pub fn read<R: Clock + Files + Alloc>(&self, rt: &R) -> Result<u64> {
        match self {
            Meter::Time(start) => nanoseconds_since(rt, *start),
            Meter::Memory => held(rt),
        }
    }

    /// How many times each figure is taken; the least counts.
    pub fn runs(&self) -> u32 {
        match self {
            Meter::Time(_) => 50,
            Meter::Memory => 1,
        }
    }

    /// What the name of a figure ends in.
    pub fn ending(&self) -> &'static str {
        match self {
            Meter::Time(_) => "",
            Meter::Memory => "_bytes",
        }
    }
}
