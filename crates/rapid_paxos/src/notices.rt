// Sets of notices.
ghost use Rattle.std.specs.Prelude.{◌≡◌, ◌≤◌, ◌<◌, IfOk, OnOk, OnErr, length};
ghost use Rattle.std.specs.FinSet as set;
ghost use Rattle.std.specs.List.Sorted.{IsSearchInRange, IsBinarySearchResult};
ghost use Rattle.rapid_model.specs.Learner.{notice_count};
ghost use Rattle.rapid_model.specs.Limits.{most_members};
ghost use Rattle.rapid_paxos.specs.Notices.{key_cmp};

use crate::Ballot;
use rapid_config::Cut;
use rapid_fast::PositionSet;
use std::alloc::{AllocError, Global};
use std::marker::Model;

/// The positions that gave notice of a cut at a ballot.
type Entry = ((Ballot, Cut), PositionSet);

/// Notices that members accepted cuts at ballots: for each ballot and cut, in this order, a set of
/// positions.
#[derive(Debug, Drop)]
pub struct NoticeSet {
    entries: Vec<Entry>,
    alloc: Global,
}

impl Model for NoticeSet {
    ghost use Rattle.std.specs.FinSet as set;
    ghost use Rattle.rapid_model.specs.Learner.{notice_cmp};
    ghost use Rattle.rapid_model.specs.Codes.{notices_code};
    ghost use Rattle.rapid_paxos.specs.Notices.{notices_of, AreEntries};

    ghost Value = { set.FinSet notice_cmp };

    ghost coded = { notices_code };

    ghost view = { λ n. notices_of n.entries.items };

    ghost invariant = { λ n. AreEntries n.entries.items };
}

/// The place of the entry of a ballot and a cut among entries that ascend, or the place where it
/// would stand.
fn place(entries: &[Entry], ballot: Ballot, cut: &Cut) -> Result<usize, usize>
    ensures bound { IsSearchInRange result (length entries.now) }
    ensures position { IsBinarySearchResult (λ e. key_cmp e.0 (ballot, cut.now)) entries.now result }
{
    entries.binary_search_by(|entry| entry.0.0.cmp(&ballot).then(entry.0.1.cmp(cut)))
}

impl NoticeSet {
    /// No notice.
    pub fn new(alloc: Global) -> NoticeSet
        ensures { result ≡ set.empty }
    {
        NoticeSet {
            entries: Vec::new(alloc),
            alloc,
        }
    }

    /// How many positions give notice of a cut at a ballot, once this one does.
    pub fn count_with(&self, position: usize, ballot: Ballot, cut: &Cut) -> usize
        requires { position < most_members }
        ensures { result ≡ notice_count (set.insert self.now ((ballot, cut.now), position)) ballot cut.now }
    {
        match place(&self.entries, ballot, cut) {
            Ok(i) => {
                let positions = &self.entries[i].1;
                if positions.contains(position) {
                    positions.len()
                } else {
                    positions.len() + 1
                }
            }
            Err(_) => 1,
        }
    }

    /// Adds a notice. If out of memory the set is as it was.
    pub fn insert(&mut self, position: usize, ballot: Ballot, cut: &Cut) -> Result<(), AllocError>
        requires { position < most_members }
        ensures ok { OnOk result (self.new ≡ set.insert self.old ((ballot, cut.now), position)) }
        ensures unchanged { OnErr result (self.new ≡ self.old) }
    {
        match place(&self.entries, ballot, cut) {
            Ok(i) => self.entries[i].1.insert(position),
            Err(i) => {
                let mut positions = PositionSet::new();
                positions.insert(position);
                let cut = cut.try_copy(self.alloc)?;
                self.entries.insert(i, ((ballot, cut), positions))?;
            }
        }
        Ok(())
    }

    /// An equal set.
    pub fn try_copy(&self) -> Result<NoticeSet, AllocError>
        ensures { IfOk result (λ n. n ≡ self.now) }
    {
        let mut entries = Vec::with_capacity(self.alloc, self.entries.len())?;
        for ((ballot, cut), positions) in &self.entries {
            entries.push(((*ballot, cut.try_copy(self.alloc)?), positions.try_copy()?))?;
        }
        Ok(NoticeSet {
            entries,
            alloc: self.alloc,
        })
    }
}
