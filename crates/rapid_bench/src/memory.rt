// What a fast round holds.
use crate::members::{MEMBERS, cut};
use anyhow::{Context, Result, bail};
use rapid_config::Cut;
use rapid_fast::FastRound;
use std::alloc::Global;
use std::fs::Files;
use std::{fs, slice};

/// How many rounds are held at a time.
const ROUNDS: usize = 1000;

/// How many bytes of memory the process holds.
pub fn held<R: Files + Alloc>(rt: &R) -> Result<u64> {
    let rollup = fs::read_to_string(rt, "/proc/self/smaps_rollup")?;
    let (_, after) = rollup
        .split_once("Rss:")
        .context("/proc/self/smaps_rollup does not say what is held")?;
    kibibytes(after)
}

/// The bytes of the kibibytes that a text begins with.
fn kibibytes(text: &str) -> Result<u64> {
    let kibibytes = number(text.as_bytes());
    if kibibytes == 0 {
        bail!("what is held is not said");
    }
    Ok(kibibytes.saturating_mul(1024))
}

/// The number that a text begins with, blanks aside; 0 if it begins with none.
fn number(text: &[u8]) -> u64 {
    let mut number: u64 = 0;
    for byte in text {
        match byte {
            b' ' | b'\t' => {}
            b'0'..=b'9' => {
                number = number
                    .saturating_mul(10)
                    .saturating_add(u64::from(*byte - b'0'));
            }
            _ => return number,
        }
    }
    number
}

/// A round after the vote of each member, the first of them for the first cut and so on, in turn.
fn voted(alloc: Global, cuts: &[Cut]) -> Result<FastRound> {
    let mut round = FastRound::new(alloc, usize::from(MEMBERS), 0);
    for position in 0..MEMBERS {
        let position = usize::from(position);
        let cut = cuts.get(position % cuts.len().max(1)).context("no cut")?;
        let _ = round.hear(position, cut)?;
    }
    Ok(round)
}

/// Prints how many bytes a round holds after votes for these cuts.
fn measure<R: Print + Files + Alloc>(
    rt: &R,
    alloc: Global,
    name: &str,
    cuts: &[Cut],
) -> Result<()> {
    let mut rounds = Vec::with_capacity(alloc, ROUNDS)?;
    let before = held(rt)?;
    for _ in 0..ROUNDS {
        rounds.push(voted(alloc, cuts)?)?;
    }
    let after = held(rt)?;
    println!(rt; "{name} {}", after.saturating_sub(before) / ROUNDS as u64)?;
    Ok(())
}

/// Prints the figures `round_bytes_one_cut` and `round_bytes_own_cuts`. These are the bytes of a
/// round after all voted for one cut of ten processes, and after each voted for another.
pub fn print<R: Print + Files + Alloc>(rt: &R, alloc: Global) -> Result<()> {
    let mut cuts = Vec::new(alloc);
    for first in 1..=MEMBERS {
        cuts.push(cut(alloc, first, first + 9)?)?;
    }
    let one = cut(alloc, 1, 10)?;
    measure(rt, alloc, "round_bytes_one_cut", slice::from_ref(&one))?;
    measure(rt, alloc, "round_bytes_own_cuts", cuts.as_slice())
}
