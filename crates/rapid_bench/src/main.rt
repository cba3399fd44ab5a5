//! Measures the calls that a member makes most, and worlds of founders of which some crash. It
//! measures reads of the published view by one and by four threads, and probe windows that they
//! share. It measures steps of a desk beside those of its node. `bench/plain.rs` does the same work
//! in plain Rust, and `bench/README.md` has the figures of both.
#![tactic(auto)]

mod cluster;
mod desks;
mod edge_readers;
mod edges;
mod figure;
mod founders;
mod frames;
mod from_bytes;
mod members;
mod memory;
mod messages;
mod meter;
mod readers;
mod rings_new;
mod rings_next;
mod steps;
mod thousand;
mod views;
mod votes;
mod work;
mod worlds;

use anyhow::{Result, bail};
use std::alloc::Global;
use std::env;
use std::fs::Files;
use std::sync::Wait;
use std::thread::Threads;
use std::time::Clock;
use worlds::Plan;

/// What is printed if no word names a figure, or asks for this.
const USAGE: &str = "rapid_bench WORD.. prints figures, a line each: NAME, a space, a number.
  votes     nanoseconds of a vote among 1,024 members, for cuts of 1, 10 and 100 processes
  memory    bytes of a fast round after 1,024 votes, for one cut and for a cut each
  rings_new, rings_next    nanoseconds of the sixteen rings of 1,024 members, from nothing and after one left and one joined
  from_bytes    nanoseconds of a configuration of 1,024 members, read from its bytes
  frames    nanoseconds of a thousand bytes of frames, written, and read in pieces
  steps     nanoseconds of a step of a node and of a copy of one, at 5, 100 and 1,024 members
  step_bytes    bytes that are held after a step or a copy and were not before
  world_200, world_1000    this many founders of which two or ten crash, until all others have installed the next view:
            nanoseconds an event, how many events, nanoseconds of the founding, and the most bytes that the process held
  world_200_tagged    the same of 200 founders with eight tags of 64 bytes each
  views     nanoseconds of a hundred reads of a stamp, of a copy of the view of 1,000 processes, and of this view where a
            seat keeps it, by 1 and by 4 threads at a time; and of the first two under a lock
  edges     nanoseconds of a hundred results of a probe, each by the seat of its edge, and of a hundred looks at sixteen
            edges, by 1 and by 4 threads at a time; and of the same under a lock of all windows
  desks     nanoseconds of a vote and a tick among 1,000 processes, at a node and at a desk";

/// Eight tags of 64 bytes, as many and as long as there may be.
const FULL_TAGS: [&[u8]; 8] = [
    b"a_______________________________________________________________",
    b"b_______________________________________________________________",
    b"c_______________________________________________________________",
    b"d_______________________________________________________________",
    b"e_______________________________________________________________",
    b"f_______________________________________________________________",
    b"g_______________________________________________________________",
    b"h_______________________________________________________________",
];

/// A world of this many founders, of which that many crash.
fn plan<'a>(founders: u16, crashes: u16, tags: &'a [&'a [u8]]) -> Plan<'a> {
    Plan {
        founders,
        crashes,
        tags,
    }
}

/// Prints the figures of a word.
fn print_figures<R: Print + Clock + Files + Alloc + Threads + Wait + Sync>(
    rt: &R,
    alloc: Global,
    word: &str,
) -> Result<()> {
    match word {
        "votes" => votes::print(rt, alloc),
        "memory" => memory::print(rt, alloc),
        "rings_new" => rings_new::print(rt, alloc),
        "rings_next" => rings_next::print(rt, alloc),
        "views" => views::print(rt, alloc),
        "edges" => edges::print(rt, alloc),
        "desks" => desks::print(rt, alloc),
        other => print_more(rt, alloc, other),
    }
}

/// Prints the figures of a word, one of bytes, of nodes or of worlds.
fn print_more<R: Print + Clock + Files + Alloc>(rt: &R, alloc: Global, word: &str) -> Result<()> {
    match word {
        "from_bytes" => from_bytes::print(rt, alloc),
        "frames" => frames::print(rt, alloc),
        "steps" => steps::print(rt, alloc),
        "step_bytes" => steps::print_bytes(rt, alloc),
        "world_200" => worlds::print(rt, alloc, word, &plan(200, 2, &[])),
        "world_1000" => worlds::print(rt, alloc, word, &plan(1000, 10, &[])),
        "world_200_tagged" => worlds::print(rt, alloc, word, &plan(200, 2, &FULL_TAGS)),
        "--help" => {
            println!(rt; "{USAGE}")?;
            Ok(())
        }
        other => bail!("no figure is called {other}"),
    }
}

fn main(rt: HostRuntime) -> Result<()> {
    let alloc = rt.alloc();
    let words: Vec<String> = env::args(&rt)?.collect(alloc)?;
    if words.len() < 2 {
        print_figures(&rt, alloc, "--help")?;
    }
    for word in words.iter().skip(1) {
        print_figures(&rt, alloc, word.as_str())?;
    }
    Ok(())
}
