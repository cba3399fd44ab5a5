// How many votes there are for each cut.
ghost use Rattle.std.specs.Prelude.{◌≡◌, ◌≤◌, ◌+◌, ◌==◌, Some, None, if◌then◌else◌};
ghost use Rattle.std.specs.Prelude.{IfOk, OnOk, OnErr, length};
ghost use Rattle.std.specs.FinMap as map;
ghost use Rattle.std.specs.List.Sorted.{IsSearchInRange, IsBinarySearchResult};
ghost use Rattle.rapid_model.specs.Cut.{cut_cmp};
ghost use Rattle.rapid_model.specs.FastRound.{count_of, one_more};
ghost use Rattle.rapid_model.specs.Limits.{most_members};

use rapid_config::Cut;
use std::alloc::{AllocError, Global};
use std::marker::Model;

/// A counter for each cut that was counted, by ascending cut.
#[derive(Debug, Drop)]
pub struct CutCounts {
    counts: Vec<(Cut, usize)>,
    alloc: Global,
}

impl Model for CutCounts {
    ghost use Rattle.std.specs.Prelude.{T};
    ghost use Rattle.std.specs.FinMap as map;
    ghost use Rattle.std.specs.FinMap.Entries.{is_sorted};
    ghost use Rattle.rapid_model.specs.Cut.{cut_cmp};
    ghost use Rattle.rapid_model.specs.FastRound.{Counts};
    ghost use Rattle.rapid_model.specs.Codes.{counts_code};

    ghost Value = { Counts };

    ghost coded = { counts_code };

    ghost view = { λ c. map.from_sorted c.counts.items };

    ghost invariant = { λ c. T (is_sorted cut_cmp c.counts.items) };
}

/// The place of a cut's counter among counters that ascend, or the place where it would stand.
fn place(counts: &[(Cut, usize)], cut: &Cut) -> Result<usize, usize>
    ensures bound { IsSearchInRange result (length counts.now) }
    ensures position { IsBinarySearchResult (λ e. cut_cmp e.0 cut.now) counts.now result }
{
    counts.binary_search_by(|count| count.0.cmp(cut))
}

/// A copy of a cut, if one is wanted.
pub(crate) fn copy_if(wanted: bool, alloc: Global, cut: &Cut) -> Result<Option<Cut>, AllocError>
    ensures { IfOk result (λ copy. copy ≡ (if wanted then Some cut.now else None)) }
{
    if wanted {
        Ok(Some(cut.try_copy(alloc)?))
    } else {
        Ok(None)
    }
}

impl CutCounts {
    /// No counter.
    pub fn new(alloc: Global) -> CutCounts
        ensures { result ≡ map.empty }
    {
        CutCounts {
            counts: Vec::new(alloc),
            alloc,
        }
    }

    /// How many there are for a cut.
    pub fn count(&self, cut: &Cut) -> usize
        ensures { result ≡ count_of self.now cut.now }
    {
        match place(&self.counts, cut) {
            Ok(i) => self.counts[i].1,
            Err(_) => 0,
        }
    }

    /// The counters, by ascending cut.
    pub fn entries(&self) -> &[(Cut, usize)]
        ensures { result.now ≡ map.entries self.now }
    {
        self.counts.as_slice()
    }

    /// Counts one more for a cut. If out of memory the counters are as they were.
    pub fn add(&mut self, cut: &Cut) -> Result<(), AllocError>
        requires room { count_of self.old cut.now ≤ most_members }
        ensures ok { OnOk result (self.new ≡ one_more self.old cut.now) }
        ensures unchanged { OnErr result (self.new ≡ self.old) }
    {
        // a cut that was counted has at least one, so none is answered
        self.add_up_to(cut, 0)?;
        Ok(())
    }

    /// Counts one more for a cut; the cut, if there are then exactly this many. If out of memory
    /// the counters are as they were.
    pub fn add_up_to(&mut self, cut: &Cut, enough: usize) -> Result<Option<Cut>, AllocError>
        requires room { count_of self.old cut.now ≤ most_members }
        ensures ok { OnOk result (self.new ≡ one_more self.old cut.now) }
        ensures reached { IfOk result (λ reached. reached ≡
            (if count_of self.old cut.now + 1 == enough then Some cut.now else None)) }
        ensures unchanged { OnErr result (self.new ≡ self.old) }
    {
        match place(&self.counts, cut) {
            Ok(i) => {
                let count = self.counts[i].1 + 1;
                let reached = copy_if(count == enough, self.alloc, cut)?;
                // last, since the copy may be refused
                self.counts[i].1 += 1;
                Ok(reached)
            }
            Err(i) => {
                let reached = copy_if(enough == 1, self.alloc, cut)?;
                let cut = cut.try_copy(self.alloc)?;
                self.counts.insert(i, (cut, 1))?;
                Ok(reached)
            }
        }
    }

    /// Drops each counter.
    pub fn clear(&mut self)
        ensures { self.new ≡ map.empty }
    {
        self.counts.clear();
    }

    /// Equal counters.
    pub fn try_copy(&self) -> Result<CutCounts, AllocError>
        ensures { IfOk result (λ c. c ≡ self.now) }
    {
        let mut counts = Vec::with_capacity(self.alloc, self.counts.len())?;
        for (cut, count) in &self.counts {
            counts.push((cut.try_copy(self.alloc)?, *count))?;
        }
        Ok(CutCounts {
            counts,
            alloc: self.alloc,
        })
    }
}
