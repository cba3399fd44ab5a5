// Clerks in threads of their own.

ghost use Rattle.std.specs.Prelude.{◌≡◌, ◌≤◌, ◌<◌};

use crate::clerks::books::alone;
use crate::clerks::gates::Meeting;
use rapid_clerks::{Gate, run_clerks};
use std::alloc::Global;
use std::marker::Brand;
use std::sync::ledger::{Blank, Ledger};
use std::sync::{Mutex, Wait};
use std::test::*;
use std::thread::Threads;

/// How many turns each clerk of this ledger takes in a world of process 1, if this many turns each
/// are there to be taken.
fn taken_in<L: Ledger + Send + Sync, G: Gate + Sync, R: Threads + Wait + Sync>(
    rt: &R,
    alloc: Global,
    blank: Blank,
    gate: &G,
    workers: usize,
    turns: usize,
) -> Result<Vec<u64>, Fail>
    requires name { blank.name ≡ L.name }
    requires parts { blank.parts ≡ L.parts }
    requires room { 33 ≤ blank.parts }
    requires few { workers ≤ 32 }
{
    let (book, mut share) = alone::<L>(alloc, blank)?;
    let book = Mutex::new(book);
    Ok(run_clerks(rt, alloc, &book, gate, &mut share, workers, turns)?)
}

/// How many turns each clerk takes in a world of process 1.
fn taken<G: Gate + Sync, R: Threads + Wait + Sync>(
    rt: &R,
    alloc: Global,
    gate: &G,
    workers: usize,
    turns: usize,
) -> Result<Vec<u64>, Fail>
    requires { workers ≤ 32 }
{
    taken_in::<Brand, G, R>(rt, alloc, Blank::new(33), gate, workers, turns)
}

#[test]
fn two_clerks_meet(rt: HostRuntime) -> Result<(), Fail> {
    let counts = taken(&rt, rt.alloc(), &Meeting::new(), 2, 10)?;
    assert_eq!(rt; counts.as_slice(), [10, 10].as_slice());
    Ok(())
}
