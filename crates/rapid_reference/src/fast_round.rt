// The fast round as a list of votes.
ghost use Rattle.std.specs.Prelude.{◌≤◌};

use crate::cuts::{Cuts, NUMBERS, Number, number_in};
use anyhow::{Result, bail};
use rapid_fast::{FastRound, HearError, fast_size};
use std::alloc::Global;

/// How many votes a sequence has.
const LENGTH: usize = 5;

/// How many sequences there are: each vote is of one of four positions for one of two cuts.
const SEQUENCES: usize = 32_768;

/// The first vote of each position.
#[derive(Drop)]
struct VoteList {
    votes: Vec<(usize, Number)>,
}

impl VoteList {
    /// The cut that this vote makes `enough` votes for.
    fn hear(&mut self, enough: usize, position: usize, number: Number) -> Result<Option<Number>> {
        if self.votes.iter().any(|vote| vote.0 == position) {
            return Ok(None);
        }
        self.votes.push((position, number))?;
        let count = self.votes.iter().filter(|vote| vote.1 == number).count();
        Ok((count == enough).then_some(number))
    }
}

/// Tries one sequence, and answers how many decisions came in it.
fn try_one(alloc: Global, cuts: &Cuts, size: usize, sequence: usize) -> Result<usize>
    requires some { 1 ≤ size }
    requires few { size ≤ 1024 }
{
    let mut round = FastRound::new(alloc, size, 0);
    let mut list = VoteList {
        votes: Vec::new(alloc),
    };
    let mut rest = sequence;
    let mut decisions: usize = 0;
    for _ in 0..LENGTH {
        let position = rest % 4;
        let number = NUMBERS[rest / 4 % 2];
        rest /= 8;
        let expected = if position < size {
            Ok(list.hear(fast_size(size), position, number)?)
        } else {
            Err(HearError::NotMember)
        };
        let decided = match round.hear(position, cuts.of(number)) {
            Ok(cut) => Ok(number_in(&cut)),
            Err(error) => Err(error),
        };
        if decided != expected {
            bail!("fast round of {size}, sequence {sequence}: {decided:?} and not {expected:?}");
        }
        decisions = decisions.saturating_add(usize::from(matches!(decided, Ok(Some(_)))));
    }
    Ok(decisions)
}

/// Tries every sequence among this many members, and answers how many decisions came.
pub fn compare(alloc: Global, cuts: &Cuts, size: usize) -> Result<usize>
    requires some { 1 ≤ size }
    requires few { size ≤ 1024 }
{
    let mut decisions: usize = 0;
    for sequence in 0..SEQUENCES {
        decisions = decisions.saturating_add(try_one(alloc, cuts, size, sequence)?);
    }
    Ok(decisions)
}
