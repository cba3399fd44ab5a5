// Votes in a fast round.
use crate::figure::measure;
use crate::members::{MEMBERS, cut};
use crate::work::Work;
use anyhow::Result;
use rapid_config::Cut;
use rapid_fast::FastRound;
use std::alloc::Global;
use std::hint::black_box;
use std::time::Clock;

/// Has a new round hear the vote of each member for the cut, and answers how many those were.
pub fn vote(alloc: Global, cut: &Cut) -> Result<u64> {
    let mut round = FastRound::new(alloc, usize::from(MEMBERS), 0);
    hear_all(&mut round, cut)?;
    Ok(u64::from(MEMBERS))
}

/// The round hears the vote of each member for the cut.
fn hear_all(round: &mut FastRound, cut: &Cut) -> Result<()> {
    for position in 0..MEMBERS {
        let decided = round.hear(usize::from(position), black_box(cut))?;
        let _ = black_box(decided);
    }
    Ok(())
}

/// Prints the figures `votes_cut_1`, `votes_cut_10` and `votes_cut_100`.
pub fn print<R: Print + Clock>(rt: &R, alloc: Global) -> Result<()> {
    print_among(rt, alloc, "votes_cut_1", 1)?;
    print_among(rt, alloc, "votes_cut_10", 10)?;
    print_among(rt, alloc, "votes_cut_100", 100)
}

/// Prints the figure of votes for a cut of this many processes.
fn print_among<R: Print + Clock>(rt: &R, alloc: Global, name: &str, size: u16) -> Result<()> {
    measure(rt, alloc, name, 200, &Work::Votes(&cut(alloc, 1, size)?))
}
