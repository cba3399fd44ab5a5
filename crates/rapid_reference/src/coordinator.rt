// The coordinator as a list of promises.
ghost use Rattle.std.specs.Prelude.{◌≡◌, ◌≤◌, ◌<◌};

use crate::cuts::{Cuts, NUMBERS, Number, number_of};
use anyhow::{Context, Result, bail};
use rapid_config::Cut;
use rapid_fast::fast_size;
use rapid_paxos::{Accept, Ballot, Coordinator, Promise, classic_size};
use std::alloc::{AllocError, Global};

/// How many calls a sequence has after the first ballot is begun.
const LENGTH: usize = 3;

/// How many calls there are. One of four positions promises one of two ballots. It reports no vote,
/// or a vote at one of two ballots for one of two cuts. Or a ballot is begun.
const CALLS: usize = 41;

/// How many sequences there are.
const SEQUENCES: usize = 68_921;

/// A vote at a ballot.
type Vote = (Ballot, Number);

/// What a promise says: who gives it, at which ballot, and which vote it reports.
#[derive(Clone, Copy)]
struct Said {
    position: usize,
    ballot: Ballot,
    vote: Option<Vote>,
}

/// The first promise of each position for the ballot begun last.
#[derive(Drop)]
struct PromiseList {
    begun: Option<Ballot>,
    promises: Vec<(usize, Option<Vote>)>,
}

impl PromiseList {
    /// Begins the next ballot of the coordinator at position 0.
    fn begin(&mut self, alloc: Global, above: Ballot) -> Option<Ballot> {
        let last = match self.begun {
            Some(ballot) => ballot.round(),
            None => 0,
        };
        let round = above.round().max(last).saturating_add(1).max(2);
        self.begun = Ballot::classic(round, 0);
        self.promises = Vec::new(alloc);
        self.begun
    }

    /// How many reported this vote.
    fn count(&self, vote: Vote) -> usize {
        let reported = self.promises.iter().map(|promise| promise.1);
        reported.filter(|report| *report == Some(vote)).count()
    }

    /// Whether a fast quorum of this many members may have cast this vote: all that promised and
    /// reported something else are few enough.
    fn may_be_chosen(&self, size: usize, vote: Vote) -> bool
        requires { size ≤ 1024 }
    {
        let others = self.promises.len().saturating_sub(self.count(vote));
        others <= size.saturating_sub(fast_size(size))
    }

    /// The cut that the promises of this many members allow.
    fn value(&self, size: usize, own: Option<Number>) -> Option<Number>
        requires { size ≤ 1024 }
    {
        let votes = self.promises.iter().filter_map(|promise| promise.1);
        let Some(top) = votes.map(|vote| vote.0).max() else {
            return own;
        };
        let [six, seven] = NUMBERS;
        let is_six = match (self.count((top, six)), self.count((top, seven))) {
            (0, _) => false,
            (_, 0) => true,
            _ => self.may_be_chosen(size, (top, six)) || !self.may_be_chosen(size, (top, seven)),
        };
        Some(if is_six { six } else { seven })
    }

    /// The cut to ask for, at the promise that completes a classic quorum of this many members.
    fn hear(
        &mut self,
        size: usize,
        said: Said,
        own: Option<Number>,
    ) -> Result<Option<Number>, AllocError>
        requires { size ≤ 1024 }
    {
        let position = said.position;
        if self.begun != Some(said.ballot) || self.promises.iter().any(|it| it.0 == position) {
            return Ok(None);
        }
        self.promises.push((position, said.vote))?;
        if self.promises.len() != classic_size(size) {
            return Ok(None);
        }
        Ok(self.value(size, own))
    }
}

/// A vote as a promise reports it.
fn reported(
    alloc: Global,
    cuts: &Cuts,
    vote: Option<Vote>,
) -> Result<Option<(Ballot, Cut)>, AllocError> {
    let Some((ballot, number)) = vote else {
        return Ok(None);
    };
    let cut = cuts.of(number).try_copy(alloc)?;
    Ok(Some((ballot, cut)))
}

/// The ballot of a request, and the number of its cut.
fn asked(accept: &Option<Accept>) -> Option<Vote> {
    match accept {
        Some(accept) => Some((accept.ballot, number_of(&accept.cut))),
        None => None,
    }
}

/// A promise reaches both. The own proposal is the cut of number 7 if the position is even. The
/// answer says whether a request was sent.
fn hear(
    alloc: Global,
    cuts: &Cuts,
    coordinator: &mut Coordinator,
    list: &mut PromiseList,
    said: Said,
    size: usize,
) -> Result<bool>
    requires member { said.position < coordinator.old.size }
    requires few { size ≤ 1024 }
    ensures size { coordinator.new.size ≡ coordinator.old.size }
{
    let promise = Promise {
        ballot: said.ballot,
        vote: reported(alloc, cuts, said.vote)?,
    };
    let own = if said.position % 2 == 0 {
        Some(7)
    } else {
        None
    };
    let expected = list.hear(size, said, own)?;
    let own = if said.position % 2 == 0 {
        Some(cuts.of(7))
    } else {
        None
    };
    let accept = coordinator.hear_promise(said.position, &promise, own)?;
    let answer = asked(&accept);
    let expected = match expected {
        Some(number) => Some((said.ballot, number)),
        None => None,
    };
    if answer != expected {
        bail!("coordinator among {size}: {answer:?} and not {expected:?}");
    }
    Ok(answer.is_some())
}

/// Both begin the next ballot above the fast one.
fn begin(alloc: Global, coordinator: &mut Coordinator, list: &mut PromiseList) -> Result<()>
    ensures size { coordinator.new.size ≡ coordinator.old.size }
{
    let begun = coordinator.begin(Ballot::FAST).ok();
    let expected = list.begin(alloc, Ballot::FAST);
    if begun != expected {
        bail!("coordinator: {begun:?} is begun and not {expected:?}");
    }
    Ok(())
}

/// Tries one sequence, if votes are reported at the fast ballot and at one above; answers how many
/// requests were sent in it.
fn try_one(
    alloc: Global,
    cuts: &Cuts,
    size: usize,
    ballots: [Ballot; 2],
    voted: [Ballot; 2],
    sequence: usize,
) -> Result<usize>
    requires some { 1 ≤ size }
    requires few { size ≤ 1024 }
{
    let mut coordinator = Coordinator::new(alloc, size, 0);
    let mut list = PromiseList {
        begun: None,
        promises: Vec::new(alloc),
    };
    begin(alloc, &mut coordinator, &mut list)?;
    let mut rest = sequence;
    let mut requests: usize = 0;
    for _ in 0..LENGTH {
        let call = rest % CALLS;
        rest /= CALLS;
        let position = call % 4;
        if call == 40 {
            begin(alloc, &mut coordinator, &mut list)?;
        } else if position < size {
            let vote = match call / 8 {
                0 => None,
                kind => Some((voted[kind / 3], NUMBERS[kind % 2])),
            };
            let said = Said {
                position,
                ballot: ballots[call / 4 % 2],
                vote,
            };
            let is_sent = hear(alloc, cuts, &mut coordinator, &mut list, said, size)?;
            requests = requests.saturating_add(usize::from(is_sent));
        }
    }
    Ok(requests)
}

/// Tries every sequence among this many members, and answers how many requests were sent.
pub fn compare(alloc: Global, cuts: &Cuts, size: usize) -> Result<usize>
    requires some { 1 ≤ size }
    requires few { size ≤ 1024 }
{
    let first = Ballot::classic(2, 0).context("a classic ballot")?;
    let second = Ballot::classic(3, 0).context("a classic ballot")?;
    let voted = [
        Ballot::FAST,
        Ballot::classic(2, 1).context("a classic ballot")?,
    ];
    let mut requests: usize = 0;
    for sequence in 0..SEQUENCES {
        requests = requests.saturating_add(try_one(
            alloc,
            cuts,
            size,
            [first, second],
            voted,
            sequence,
        )?);
    }
    Ok(requests)
}
