// The learner as a list of notices.
ghost use Rattle.std.specs.Prelude.{◌≤◌};

use crate::cuts::{Cuts, NUMBERS, Number, number_in};
use anyhow::{Context, Result, bail};
use rapid_paxos::{Ballot, Learner, classic_size};
use std::alloc::Global;

/// How many notices a sequence has.
const LENGTH: usize = 4;

/// How many sequences there are: each notice is of one of four positions, at one of two ballots,
/// for one of two cuts.
const SEQUENCES: usize = 65_536;

/// Every notice, and whether a cut was answered.
#[derive(Drop)]
struct NoticeList {
    notices: Vec<(usize, Ballot, Number)>,
    answered: bool,
}

impl NoticeList {
    /// The cut, if `enough` of four positions gave notice of it at this ballot and none was
    /// answered.
    fn hear(
        &mut self,
        enough: usize,
        position: usize,
        ballot: Ballot,
        number: Number,
    ) -> Result<Option<Number>> {
        self.notices.push((position, ballot, number))?;
        let count = (0..4)
            .filter(|p| self.notices.contains(&(*p, ballot, number)))
            .count();
        let learns = count >= enough && !self.answered;
        self.answered |= learns;
        Ok(learns.then_some(number))
    }
}

/// Tries one sequence at these two ballots, and answers how many cuts were learnt in it.
fn try_one(
    alloc: Global,
    cuts: &Cuts,
    size: usize,
    ballots: [Ballot; 2],
    sequence: usize,
) -> Result<usize>
    requires few { size ≤ 1024 }
{
    let mut learner = Learner::new(alloc, size);
    let mut list = NoticeList {
        notices: Vec::new(alloc),
        answered: false,
    };
    let mut rest = sequence;
    let mut learnt: usize = 0;
    for _ in 0..LENGTH {
        let position = rest % 4;
        let number = NUMBERS[rest / 4 % 2];
        let ballot = ballots[rest / 8 % 2];
        rest /= 16;
        if position < size {
            let answer = number_in(&learner.hear(position, ballot, cuts.of(number))?);
            let expected = list.hear(classic_size(size), position, ballot, number)?;
            if answer != expected {
                bail!("learner among {size}, sequence {sequence}: {answer:?} and not {expected:?}");
            }
            learnt = learnt.saturating_add(usize::from(answer.is_some()));
        }
    }
    Ok(learnt)
}

/// Tries every sequence among this many members, and answers how many cuts were learnt.
pub fn compare(alloc: Global, cuts: &Cuts, size: usize) -> Result<usize>
    requires few { size ≤ 1024 }
{
    let low = Ballot::classic(2, 1).context("a classic ballot")?;
    let high = Ballot::classic(3, 0).context("a classic ballot")?;
    let mut learnt: usize = 0;
    for sequence in 0..SEQUENCES {
        learnt = learnt.saturating_add(try_one(alloc, cuts, size, [low, high], sequence)?);
    }
    Ok(learnt)
}
