//! Compares what a member keeps for the vote, which are counters, with lists of all that it heard,
//! from which each answer is counted anew. Every sequence of calls of four positions, two cuts and
//! two ballots is tried, up to a short length. A cut detector over a small table is compared with a
//! list of reports that repeated passes close, for every short sequence of batches. A difference
//! ends the program. The numbers that it must print were counted by another program, so that a
//! comparison that is skipped is noticed too.
#![tactic(auto)]

mod acceptor;
mod coordinator;
mod cuts;
mod detector;
mod fast_round;
mod learner;
mod worst;

use anyhow::Result;
use cuts::Cuts;

/// The most members that are tried.
const MOST_MEMBERS: usize = 5;

fn main(rt: HostRuntime) -> Result<()> {
    let cuts = Cuts::new(rt.alloc())?;
    for size in 1..=MOST_MEMBERS {
        let decisions = fast_round::compare(rt.alloc(), &cuts, size)?;
        println!(rt; "fast round of {size}: {decisions} decisions")?;
    }
    for size in 1..=MOST_MEMBERS {
        let learnt = learner::compare(rt.alloc(), &cuts, size)?;
        println!(rt; "learner among {size}: {learnt} cuts learnt")?;
    }
    for size in 1..=MOST_MEMBERS {
        let requests = coordinator::compare(rt.alloc(), &cuts, size)?;
        println!(rt; "coordinator among {size}: {requests} requests")?;
    }
    let votes = acceptor::compare(rt.alloc(), &cuts)?;
    println!(rt; "acceptor: {votes} votes")?;
    for (high, low) in [(1, 1), (2, 1), (2, 2)] {
        let found = detector::compare(rt.alloc(), high, low)?;
        println!(rt; "detector with the marks {high} and {low}: {found} cuts")?;
    }
    let processes = worst::cut_of(rt.alloc())?;
    println!(rt; "one report on each of 1024: a cut of {processes}")?;
    Ok(())
}
