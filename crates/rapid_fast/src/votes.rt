// How many votes there are for each cut.
ghost use Rattle.std.specs.Prelude.{◌≡◌, ◌≤◌, ◌+◌, ◌==◌, Some, None, if◌then◌else◌};
ghost use Rattle.std.specs.Prelude.{IfOk, OnOk, OnErr};
ghost use Rattle.std.specs.FinMap as map;
ghost use Rattle.rapid_model.specs.FastRound.{count_of, one_more};
ghost use Rattle.rapid_model.specs.Limits.{most_members};

use crate::CutCounts;
use crate::counts::copy_if;
use rapid_config::Cut;
use std::alloc::{AllocError, Global};
use std::marker::Model;

/// The number of votes for each cut. That of the cut which came first stands apart from the others.
/// Nearly always all members vote for one cut, and then its counter takes no search.
#[derive(Debug, Drop)]
pub(crate) struct VoteCounts {
    first: Option<(Cut, usize)>,
    others: CutCounts,
    alloc: Global,
}

impl Model for VoteCounts {
    ghost use Rattle.rapid_model.specs.FastRound.{Counts};
    ghost use Rattle.rapid_model.specs.Codes.{counts_code};
    ghost use Rattle.rapid_fast.specs.Apart.{with_first, FirstStandsApart};

    ghost Value = { Counts };

    ghost coded = { counts_code };

    ghost view = { λ v. with_first v.first v.others };

    ghost invariant = { λ v. FirstStandsApart v.first v.others };
}

impl VoteCounts {
    /// No vote.
    pub(crate) fn new(alloc: Global) -> VoteCounts
        ensures { result ≡ map.empty }
    {
        VoteCounts {
            first: None,
            others: CutCounts::new(alloc),
            alloc,
        }
    }

    /// Counts one more vote for a cut; the cut, if there are then exactly this many. If out of
    /// memory the counters are as they were.
    #[inline(always)]
    pub(crate) fn add(&mut self, cut: &Cut, enough: usize) -> Result<Option<Cut>, AllocError>
        requires room { count_of self.old cut.now ≤ most_members }
        ensures ok { OnOk result (self.new ≡ one_more self.old cut.now) }
        ensures reached { IfOk result (λ reached. reached ≡
            (if count_of self.old cut.now + 1 == enough then Some cut.now else None)) }
        ensures unchanged { OnErr result (self.new ≡ self.old) }
    {
        match &mut self.first {
            Some(first) => {
                if first.0 != *cut {
                    return self.others.add_up_to(cut, enough);
                }
                // equal, not at least: the cut is answered once, at the vote that reaches the
                // threshold; copied first, so that a refused copy counts nothing
                let reached = copy_if(first.1 + 1 == enough, self.alloc, cut)?;
                first.1 += 1;
                Ok(reached)
            }
            None => {
                let reached = copy_if(enough == 1, self.alloc, cut)?;
                self.first = Some((cut.try_copy(self.alloc)?, 1));
                Ok(reached)
            }
        }
    }

    /// Equal counters.
    pub(crate) fn try_copy(&self) -> Result<VoteCounts, AllocError>
        ensures { IfOk result (λ copy. copy ≡ self.now) }
    {
        let first = match &self.first {
            Some((cut, count)) => Some((cut.try_copy(self.alloc)?, *count)),
            None => None,
        };
        Ok(VoteCounts {
            first,
            others: self.others.try_copy()?,
            alloc: self.alloc,
        })
    }
}
